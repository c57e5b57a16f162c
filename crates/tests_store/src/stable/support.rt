//! Calls whose conditions are asserted first, and graphs as numbers.
use crate::support::{edge, made, node, same};
use daggy_base::index::{Direction, EdgeIndex, NodeIndex};
use daggy_stable::stable_graph::StableDiGraph;
use std::alloc::Global;
use std::process::Abort;

/// A graph whose weights are numbers, which may have cycles.
pub type PlainGraph = StableDiGraph<u32, u32>;

/// Adds a node to a graph, and asserts which index it gets.
pub fn put_node(rt: &impl Abort, graph: &mut PlainGraph, weight: u32, index: usize) {
    assert!(rt; graph.can_add_node());
    let n = made(rt, graph.add_node(weight));
    same(rt, n.index(), index);
}

/// Adds an edge to a graph, with or without which it may have cycles, and asserts which index it
/// gets.
pub fn put_edge(
    rt: &impl Abort,
    graph: &mut PlainGraph,
    ends: (usize, usize),
    weight: u32,
    index: usize,
) {
    let (a, b) = (node(rt, ends.0), node(rt, ends.1));
    assert!(rt; graph.contains_node(a) && graph.contains_node(b));
    assert!(rt; graph.can_add_edge());
    let e = made(rt, graph.add_edge(a, b, weight));
    same(rt, e.index(), index);
}

/// A graph of nodes with these weights, and of edges with these ends and weights.
pub fn graph_of(
    rt: &impl Abort,
    alloc: Global,
    nodes: &[u32],
    edges: &[(usize, usize, u32)],
) -> PlainGraph {
    let mut graph = StableDiGraph::new(alloc);
    for (i, weight) in nodes.iter().enumerate() {
        put_node(rt, &mut graph, *weight, i);
    }
    for (i, (a, b, weight)) in edges.iter().enumerate() {
        put_edge(rt, &mut graph, (*a, *b), *weight, i);
    }
    graph
}

/// Asserts which nodes there are, with their weights, and which edges, with their ends and weights.
pub fn shape(
    rt: &impl Abort,
    graph: &PlainGraph,
    nodes: &[(usize, u32)],
    edges: &[(usize, usize, usize, u32)],
) {
    same(
        rt,
        (graph.node_count(), graph.edge_count()),
        (nodes.len(), edges.len()),
    );
    for (n, weight) in nodes {
        same(rt, graph.node_weight(node(rt, *n)).copied(), Some(*weight));
    }
    for (e, a, b, weight) in edges {
        let e = edge(rt, *e);
        same(
            rt,
            graph.edge_endpoints(e),
            Some((node(rt, *a), node(rt, *b))),
        );
        same(rt, graph.edge_weight(e).copied(), Some(*weight));
    }
}

/// Asserts how many slots a graph has, taken or vacant.
pub fn slots(rt: &impl Abort, graph: &PlainGraph, nodes: usize, edges: usize) {
    same(rt, (graph.node_slots(), graph.edge_slots()), (nodes, edges));
}

/// Asserts which edge a node's list begins with, where no edge is the end.
pub fn first(rt: &impl Abort, graph: &PlainGraph, n: usize, dir: Direction, wanted: EdgeIndex) {
    same(rt, graph.first_edge(node(rt, n), dir), wanted);
}
