//! Walks as iterators.
use super::support::graph_of;
use crate::support::{lists, made, node, same};
use daggy_base::index::Direction::{Incoming, Outgoing};
use daggy_base::index::NodeIndex;
use daggy_base::store::Store;
use daggy_graph::graph::DiGraph;
use daggy_stable::stable_graph::StableDiGraph;
use daggy_traversal::bfs::Bfs;
use daggy_traversal::dfs::Dfs;
use daggy_traversal::dfs_oldest_first::DfsOldestFirst;
use daggy_traversal::post_order::DfsPostOrder;
use daggy_walk::walker::{FiniteWalker, Walker};
use std::alloc::Global;
use std::process::Abort;

// Asserts the first nodes of a walk.
fn begins<G, W: Walker<G, Item = NodeIndex>>(
    rt: &impl Abort,
    alloc: Global,
    graph: &G,
    walk: W,
    wanted: &[usize],
)
    requires { W.can_walk walk graph.now }
{
    let nodes: Vec<NodeIndex> = made(rt, walk.iter(graph).take(wanted.len()).collect(alloc));
    lists(rt, nodes.as_slice(), wanted);
}

// Asserts the next node of a walk, and all nodes after it.
fn goes_on<G, W: FiniteWalker<G, Item = NodeIndex>>(
    rt: &impl Abort,
    alloc: Global,
    graph: &G,
    walk: W,
    first: usize,
    wanted: &[usize],
)
    requires { W.can_walk walk graph.now }
{
    let mut walk = walk;
    same(rt, walk.walk_next(graph).map(NodeIndex::index), Some(first));
    walk.ends_over(graph);
    let nodes: Vec<NodeIndex> = made(rt, walk.iter(graph).collect(alloc));
    lists(rt, nodes.as_slice(), wanted);
}

// The list of node 0 leads to 2 and then to 1, and back from 3 it goes to 1 and then to 2.
fn five<S: Store<u32, NodeWeight = (), EdgeWeight = ()>>(rt: &impl Abort, alloc: Global) -> S {
    graph_of(rt, alloc, 5, &[(0, 1), (0, 2), (2, 3), (1, 3), (3, 4)])
}

fn first_nodes<S: Store<u32, NodeWeight = (), EdgeWeight = ()>>(rt: &impl Abort, alloc: Global) {
    let graph = five::<S>(rt, alloc);
    let start = node(rt, 0);
    let breadth = made(rt, Bfs::new(alloc, &graph, start, Outgoing));
    begins(rt, alloc, &graph, breadth, &[0, 2, 1]);
    let depth = made(rt, Dfs::new(alloc, &graph, start, Outgoing));
    begins(rt, alloc, &graph, depth, &[0, 2, 3]);
    let oldest_first = made(rt, DfsOldestFirst::new(alloc, &graph, start, Outgoing));
    begins(rt, alloc, &graph, oldest_first, &[0, 1, 3]);
    let postorder = made(rt, DfsPostOrder::new(alloc, &graph, start, Outgoing));
    begins(rt, alloc, &graph, postorder, &[4, 3, 2]);
}

fn other_nodes<S: Store<u32, NodeWeight = (), EdgeWeight = ()>>(rt: &impl Abort, alloc: Global) {
    let graph = five::<S>(rt, alloc);
    let start = node(rt, 4);
    let breadth = made(rt, Bfs::new(alloc, &graph, start, Incoming));
    goes_on(rt, alloc, &graph, breadth, 4, &[3, 1, 2, 0]);
    let depth = made(rt, Dfs::new(alloc, &graph, start, Incoming));
    goes_on(rt, alloc, &graph, depth, 4, &[3, 1, 0, 2]);
    let oldest_first = made(rt, DfsOldestFirst::new(alloc, &graph, start, Incoming));
    goes_on(rt, alloc, &graph, oldest_first, 4, &[3, 2, 0, 1]);
    let postorder = made(rt, DfsPostOrder::new(alloc, &graph, start, Incoming));
    goes_on(rt, alloc, &graph, postorder, 0, &[1, 2, 3, 4]);
}

fn all_nodes<S: Store<u32, NodeWeight = (), EdgeWeight = ()>>(rt: &impl Abort, alloc: Global) {
    first_nodes::<S>(rt, alloc);
    other_nodes::<S>(rt, alloc);
}

#[test]
fn iterators_over_a_graph(rt: HostRuntime) {
    all_nodes::<DiGraph<(), (), u32>>(&rt, rt.alloc());
}

#[test]
fn iterators_over_a_stable_graph(rt: HostRuntime) {
    all_nodes::<StableDiGraph<(), (), u32>>(&rt, rt.alloc());
}
