//! The edges of a node, oldest first.
use super::support::graph_of;
use crate::support::{holds, lists, made, node, same};
use daggy_base::index::Direction::{Incoming, Outgoing};
use daggy_base::index::{Direction, EdgeIndex, NodeIndex};
use daggy_base::store::Store;
use daggy_graph::graph::DiGraph;
use daggy_stable::stable_graph::StableDiGraph;
use daggy_traversal::oldest_first::{children_oldest_first, edges_oldest_first};
use std::alloc::Global;
use std::process::Abort;

fn pair(item: &(EdgeIndex, NodeIndex)) -> (usize, usize) {
    (item.0.index(), item.1.index())
}

// Asserts the edges of a node, each with the node at its other end.
fn edges<S: Store<u32, NodeWeight = (), EdgeWeight = ()>>(
    rt: &impl Abort,
    alloc: Global,
    graph: &S,
    n: usize,
    dir: Direction,
    wanted: &[(usize, usize)],
) {
    let found = made(rt, edges_oldest_first(alloc, graph, node(rt, n), dir));
    same(rt, found.len(), wanted.len());
    for (item, want) in found.iter().zip(wanted) {
        same(rt, pair(item), *want);
    }
}

// Asserts the children of a node.
fn children<S: Store<u32, NodeWeight = (), EdgeWeight = ()>>(
    rt: &impl Abort,
    alloc: Global,
    graph: &S,
    n: usize,
    wanted: &[usize],
) {
    let found = made(rt, children_oldest_first(alloc, graph, node(rt, n)));
    lists(rt, found.as_slice(), wanted);
}

fn listed<S: Store<u32, NodeWeight = (), EdgeWeight = ()>>(rt: &impl Abort, alloc: Global) {
    let pairs = [(0, 1), (0, 2), (1, 3), (2, 3), (0, 1)];
    let graph = graph_of::<S>(rt, alloc, 4, &pairs);
    // A child comes once for each edge.
    children(rt, alloc, &graph, 0, &[1, 2, 1]);
    children(rt, alloc, &graph, 3, &[]);
    children(rt, alloc, &graph, 4, &[]);
    edges(rt, alloc, &graph, 0, Outgoing, &[(0, 1), (1, 2), (4, 1)]);
    edges(rt, alloc, &graph, 3, Incoming, &[(2, 1), (3, 2)]);
    edges(rt, alloc, &graph, 0, Incoming, &[]);
    edges(rt, alloc, &graph, 4, Outgoing, &[]);
}

// An edge that gets a vacated index is the newest all the same.
fn reused<S: Store<u32, NodeWeight = (), EdgeWeight = ()>>(rt: &impl Abort, alloc: Global) {
    let mut graph: S = graph_of(rt, alloc, 4, &[(0, 1), (0, 2)]);
    holds(rt, graph.remove_edge(EdgeIndex::new(0)).is_some());
    let (a, b) = (node(rt, 0), node(rt, 3));
    assert!(rt; graph.contains_node(a) && graph.contains_node(b) && graph.can_add_edge());
    made(rt, graph.add_edge(a, b, ()));
    edges(rt, alloc, &graph, 0, Outgoing, &[(1, 2), (0, 3)]);
}

#[test]
fn edges_of_a_graph(rt: HostRuntime) {
    listed::<DiGraph<(), (), u32>>(&rt, rt.alloc());
}

#[test]
fn edges_of_a_stable_graph(rt: HostRuntime) {
    listed::<StableDiGraph<(), (), u32>>(&rt, rt.alloc());
    reused::<StableDiGraph<(), (), u32>>(&rt, rt.alloc());
}
