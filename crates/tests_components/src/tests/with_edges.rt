//! Cycles that a graph would have with more edges.
use super::support::{goes_round, graph_of, holds, made, node, same, some};
use daggy_base::index::NodeIndex;
use daggy_base::store::Store;
use daggy_cycles::find_cycle_with_edges;
use daggy_graph::graph::DiGraph;
use daggy_stable::stable_graph::StableDiGraph;
use std::alloc::Global;
use std::process::Abort;

// The edges of a row by their indices.
fn pairs(
    rt: &impl Abort,
    alloc: Global,
    edges: &[(usize, usize)],
) -> Vec<(NodeIndex<u8>, NodeIndex<u8>)> {
    let mut list = Vec::new(alloc);
    for (a, b) in edges {
        let pair = (node(rt, *a), node(rt, *b));
        holds(rt, list.push(pair).is_ok());
    }
    list
}

// Asserts which cycle a graph has with these edges: none if no node is wanted.
fn has<S>(rt: &impl Abort, alloc: Global, graph: &S, edges: &[(usize, usize)], wanted: &[usize])
where
    S: Store<u8, NodeWeight = (), EdgeWeight = ()>,
{
    let edges = pairs(rt, alloc, edges);
    match made(rt, find_cycle_with_edges(alloc, graph, edges.as_slice())) {
        Some(cycle) => goes_round(rt, cycle.as_slice(), wanted),
        None => same(rt, wanted.len(), 0),
    }
}

// Edges 0 -> 1 -> 2, and two more nodes, the last of which is removed.
fn rows<S: Store<u8, NodeWeight = (), EdgeWeight = ()>>(rt: &impl Abort, alloc: Global) {
    let mut graph: S = graph_of(rt, alloc, 5, &[(0, 1), (1, 2)]);
    graph.remove_node(node(rt, 4));
    has(rt, alloc, &graph, &[], &[]);
    has(rt, alloc, &graph, &[(2, 3), (0, 2)], &[]);
    has(rt, alloc, &graph, &[(2, 3), (3, 0)], &[0, 1, 2, 3]);
    has(rt, alloc, &graph, &[(2, 1), (3, 3)], &[1, 2]);
    has(rt, alloc, &graph, &[(3, 3)], &[3]);
    // Both edges of the cycle are new.
    has(rt, alloc, &graph, &[(3, 0), (0, 3)], &[0, 3]);
    // An endpoint is missing.
    has(rt, alloc, &graph, &[(2, 4), (4, 0), (9, 9)], &[]);
}

// There are as many edges as the index type has indices.
fn full<S: Store<u8, NodeWeight = (), EdgeWeight = ()>>(rt: &impl Abort, alloc: Global) {
    let mut graph: S = graph_of(rt, alloc, 2, &[]);
    let (a, b) = (node(rt, 0), node(rt, 1));
    for _ in 0..255 {
        holds(
            rt,
            graph.contains_node(a) && graph.contains_node(b) && graph.can_add_edge(),
        );
        holds(rt, graph.add_edge(a, b, ()).is_ok());
    }
    holds(rt, !graph.can_add_edge());
    has(rt, alloc, &graph, &[(1, 0)], &[0, 1]);
}

#[test]
fn cycles_with_more_edges_are_found(rt: HostRuntime) {
    rows::<DiGraph<(), (), u8>>(&rt, rt.alloc());
    rows::<StableDiGraph<(), (), u8>>(&rt, rt.alloc());
}

#[test]
fn more_edges_than_indices_are_searched(rt: HostRuntime) {
    full::<DiGraph<(), (), u8>>(&rt, rt.alloc());
    full::<StableDiGraph<(), (), u8>>(&rt, rt.alloc());
}

// A call whose allocation fails is made again.
fn again<S: Store<u8, NodeWeight = (), EdgeWeight = ()>>(rt: &impl Abort, alloc: Global) {
    let graph: S = graph_of(rt, alloc, 2, &[(0, 1)]);
    let edges = [(node(rt, 1), node(rt, 0))];
    let cycle = match find_cycle_with_edges(alloc, &graph, &edges) {
        Ok(cycle) => cycle,
        Err(_) => made(rt, find_cycle_with_edges(alloc, &graph, &edges)),
    };
    goes_round(rt, some(rt, cycle).as_slice(), &[0, 1]);
}

#[test]
fn refused_calls_with_more_edges_are_made_again(rt: HostRuntime) {
    again::<DiGraph<(), (), u8>>(&rt, rt.alloc());
    again::<StableDiGraph<(), (), u8>>(&rt, rt.alloc());
}
