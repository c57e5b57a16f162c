//! Walks depth first, oldest edge first. The expected orders are those of petgraph's `Dfs`.
ghost use Rattle.daggy_traversal.specs.OldestFirst.{IsOldestFirst};

use super::support::graph_of;
use crate::support::{holds, lists, made, node};
use daggy_base::index::Direction::{Incoming, Outgoing};
use daggy_base::index::{Direction, NodeIndex};
use daggy_base::store::Store;
use daggy_graph::graph::DiGraph;
use daggy_stable::stable_graph::StableDiGraph;
use daggy_traversal::dfs_oldest_first::DfsOldestFirst;
use std::alloc::{AllocError, Global};
use std::process::Abort;

// A graph and a walk over it.
#[derive(Drop)]
struct Tour<'a, S: Store<u32, NodeWeight = (), EdgeWeight = ()>> {
    graph: &'a S,
    walk: DfsOldestFirst,
    ghost under_way: { IsOldestFirst (S.graph graph.now) walk },
}

impl<'a, S: Store<u32, NodeWeight = (), EdgeWeight = ()>> Tour<'a, S> {
    fn step(&mut self) -> Option<NodeIndex> {
        let graph = self.graph;
        self.walk.next(graph)
    }
}

// All nodes of a walk, in turn.
fn depth<S: Store<u32, NodeWeight = (), EdgeWeight = ()>>(
    alloc: Global,
    graph: &S,
    start: NodeIndex,
    dir: Direction,
) -> Result<Vec<NodeIndex>, AllocError> {
    let walk = DfsOldestFirst::new(alloc, graph, start, dir)?;
    let mut tour = Tour { graph, walk };
    let mut given = Vec::new(alloc);
    // One step more than there are nodes.
    for _ in 0..=graph.node_count() {
        if let Some(n) = tour.step() {
            given.push(n)?;
        }
    }
    Ok(given)
}

// Asserts what a walk from a node yields.
fn walk<S: Store<u32, NodeWeight = (), EdgeWeight = ()>>(
    rt: &impl Abort,
    alloc: Global,
    graph: &S,
    start: usize,
    dir: Direction,
    wanted: &[usize],
) {
    let found = made(rt, depth(alloc, graph, node(rt, start), dir));
    lists(rt, found.as_slice(), wanted);
}

fn diamond<S: Store<u32, NodeWeight = (), EdgeWeight = ()>>(rt: &impl Abort, alloc: Global) {
    let graph = graph_of::<S>(rt, alloc, 5, &[(0, 1), (0, 2), (1, 3), (2, 3)]);
    walk(rt, alloc, &graph, 0, Outgoing, &[0, 1, 3, 2]);
    walk(rt, alloc, &graph, 3, Incoming, &[3, 1, 0, 2]);
    walk(rt, alloc, &graph, 1, Outgoing, &[1, 3]);
    walk(rt, alloc, &graph, 1, Incoming, &[1, 0]);
    walk(rt, alloc, &graph, 4, Outgoing, &[4]);
    // There is no node 5.
    walk(rt, alloc, &graph, 5, Outgoing, &[]);
}

fn parallel_edges<S: Store<u32, NodeWeight = (), EdgeWeight = ()>>(rt: &impl Abort, alloc: Global) {
    let graph = graph_of::<S>(rt, alloc, 3, &[(0, 1), (0, 1), (1, 2), (0, 2), (0, 1)]);
    walk(rt, alloc, &graph, 0, Outgoing, &[0, 1, 2]);
    walk(rt, alloc, &graph, 2, Incoming, &[2, 1, 0]);
}

fn cycles<S: Store<u32, NodeWeight = (), EdgeWeight = ()>>(rt: &impl Abort, alloc: Global) {
    let graph = graph_of::<S>(rt, alloc, 4, &[(0, 1), (1, 1), (1, 2), (2, 3), (2, 0)]);
    walk(rt, alloc, &graph, 0, Outgoing, &[0, 1, 2, 3]);
    walk(rt, alloc, &graph, 2, Outgoing, &[2, 3, 0, 1]);
    walk(rt, alloc, &graph, 3, Incoming, &[3, 2, 1, 0]);
}

fn long_ways<S: Store<u32, NodeWeight = (), EdgeWeight = ()>>(rt: &impl Abort, alloc: Global) {
    let edges = [(0, 5), (4, 5), (3, 4), (0, 3), (0, 1), (1, 2), (2, 3)];
    let graph = graph_of::<S>(rt, alloc, 6, &edges);
    walk(rt, alloc, &graph, 0, Outgoing, &[0, 5, 3, 4, 1, 2]);
}

// A node that is on the stack is met again by a later way, which comes first.
fn met_again<S: Store<u32, NodeWeight = (), EdgeWeight = ()>>(rt: &impl Abort, alloc: Global) {
    let edges = [
        (0, 1),
        (0, 2),
        (2, 3),
        (0, 4),
        (1, 3),
        (4, 2),
        (3, 5),
        (1, 5),
        (2, 6),
    ];
    let graph = graph_of::<S>(rt, alloc, 7, &edges);
    walk(rt, alloc, &graph, 0, Outgoing, &[0, 1, 3, 5, 2, 6, 4]);
    walk(rt, alloc, &graph, 5, Incoming, &[5, 3, 2, 0, 4, 1]);
}

fn all_shapes<S: Store<u32, NodeWeight = (), EdgeWeight = ()>>(rt: &impl Abort, alloc: Global) {
    diamond::<S>(rt, alloc);
    parallel_edges::<S>(rt, alloc);
    cycles::<S>(rt, alloc);
    long_ways::<S>(rt, alloc);
    met_again::<S>(rt, alloc);
}

// Walks past vacant slots.
fn removals<S: Store<u32, NodeWeight = (), EdgeWeight = ()>>(rt: &impl Abort, alloc: Global) {
    let edges = [(0, 1), (1, 2), (0, 3), (3, 2), (2, 4)];
    let mut graph: S = graph_of(rt, alloc, 5, &edges);
    holds(rt, graph.remove_node(node(rt, 1)).is_some());
    walk(rt, alloc, &graph, 0, Outgoing, &[0, 3, 2, 4]);
    walk(rt, alloc, &graph, 1, Outgoing, &[]);
    // No edge is left.
    graph.clear_edges();
    walk(rt, alloc, &graph, 0, Outgoing, &[0]);
}

#[test]
fn walks_over_a_graph(rt: HostRuntime) {
    all_shapes::<DiGraph<(), (), u32>>(&rt, rt.alloc());
}

#[test]
fn walks_over_a_stable_graph(rt: HostRuntime) {
    all_shapes::<StableDiGraph<(), (), u32>>(&rt, rt.alloc());
    removals::<StableDiGraph<(), (), u32>>(&rt, rt.alloc());
}
