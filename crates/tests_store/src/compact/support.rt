//! Calls whose conditions are asserted first, and graphs as numbers.
use crate::support::{edge, made, node, same};
use daggy_base::index::{EdgeIndex, IndexType, NodeIndex};
use daggy_graph::graph::DiGraph;
use std::alloc::Global;
use std::fmt::{Debug, Display};
use std::process::Abort;

/// A graph whose weights are numbers.
pub type PlainGraph = DiGraph<u32, u32>;

/// Asserts that a value is printed as this text.
pub fn prints<T: Display>(rt: &impl Abort, alloc: Global, value: &T, wanted: &str) {
    let text = made(rt, format!(in alloc; "{value}"));
    assert_eq!(rt; text.as_str(), wanted);
}

/// Asserts that a value is shown as this text where a program is debugged.
pub fn shows<T: Debug>(rt: &impl Abort, alloc: Global, value: &T, wanted: &str) {
    let text = made(rt, format!(in alloc; "{value:?}"));
    assert_eq!(rt; text.as_str(), wanted);
}

/// Adds an edge, with or without which the graph may have cycles.
pub fn connect<N: Drop, E: Drop, Ix: IndexType>(
    rt: &impl Abort,
    graph: &mut DiGraph<N, E, Ix>,
    a: NodeIndex<Ix>,
    b: NodeIndex<Ix>,
    weight: E,
) -> EdgeIndex<Ix> {
    assert!(rt; graph.contains_node(a));
    assert!(rt; graph.contains_node(b));
    assert!(rt; graph.can_add_edge());
    made(rt, graph.add_edge(a, b, weight))
}

/// A graph of nodes with these weights, and of edges with these ends and weights.
pub fn graph_of(
    rt: &impl Abort,
    alloc: Global,
    nodes: &[u32],
    edges: &[(usize, usize, u32)],
) -> PlainGraph {
    let mut graph = DiGraph::new(alloc);
    for weight in nodes {
        assert!(rt; graph.can_add_node());
        made(rt, graph.add_node(*weight));
    }
    for (a, b, weight) in edges {
        connect(rt, &mut graph, node(rt, *a), node(rt, *b), *weight);
    }
    graph
}

/// Asserts what the weights of the nodes are, and the ends and weights of the edges, all by index.
pub fn shape(rt: &impl Abort, graph: &PlainGraph, nodes: &[u32], edges: &[(usize, usize, u32)]) {
    same(
        rt,
        (graph.node_count(), graph.edge_count()),
        (nodes.len(), edges.len()),
    );
    for (i, weight) in nodes.iter().enumerate() {
        same(rt, graph.node_weight(node(rt, i)).copied(), Some(*weight));
    }
    for (i, (a, b, weight)) in edges.iter().enumerate() {
        let e = edge(rt, i);
        same(
            rt,
            graph.edge_endpoints(e),
            Some((node(rt, *a), node(rt, *b))),
        );
        same(rt, graph.edge_weight(e).copied(), Some(*weight));
    }
}
