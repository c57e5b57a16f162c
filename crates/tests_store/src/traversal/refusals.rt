//! Calls while memory is refused once. `rt try --test --fail-alloc N` refuses the Nth allocation: a
//! call that is refused says so, and succeeds when it is made again.
use crate::support::{lists, made, node, same};
use daggy_base::index::{Direction, NodeIndex};
use daggy_base::store::Store;
use daggy_graph::graph::DiGraph;
use daggy_stable::stable_graph::StableDiGraph;
use daggy_traversal::bfs::Bfs;
use daggy_traversal::dfs::Dfs;
use daggy_traversal::dfs_oldest_first::DfsOldestFirst;
use daggy_traversal::oldest_first::{children_oldest_first, edges_oldest_first};
use daggy_traversal::post_order::DfsPostOrder;
use std::alloc::{AllocError, Global};
use std::process::Abort;

// A graph with an edge from node 0 to node 1, each added again if that is refused.
fn two_nodes<S: Store<u32, NodeWeight = (), EdgeWeight = ()>>(rt: &impl Abort, alloc: Global) -> S {
    let mut graph = S::new(alloc);
    for _ in 0..2 {
        assert!(rt; graph.can_add_node());
        if graph.add_node(()).is_err() {
            assert!(rt; graph.can_add_node());
            made(rt, graph.add_node(()));
        }
    }
    let (a, b) = (node(rt, 0), node(rt, 1));
    assert!(rt; graph.contains_node(a) && graph.contains_node(b) && graph.can_add_edge());
    if graph.add_edge(a, b, ()).is_err() {
        assert!(rt; graph.contains_node(a) && graph.contains_node(b) && graph.can_add_edge());
        made(rt, graph.add_edge(a, b, ()));
    }
    graph
}

// Asserts that three steps gave these nodes. The steps themselves allocate nothing.
fn gave(rt: &impl Abort, steps: [Option<NodeIndex>; 3], wanted: [Option<usize>; 3]) {
    for (step, want) in steps.iter().zip(&wanted) {
        same(rt, step.map(NodeIndex::index), *want);
    }
}

fn again<S: Store<u32, NodeWeight = (), EdgeWeight = ()>>(rt: &impl Abort, alloc: Global) {
    let graph = two_nodes::<S>(rt, alloc);
    let start = node(rt, 0);
    let dir = Direction::Outgoing;
    let mut walk = match Bfs::new(alloc, &graph, start, dir) {
        Ok(walk) => walk,
        Err(AllocError) => made(rt, Bfs::new(alloc, &graph, start, dir)),
    };
    let steps = [walk.next(&graph), walk.next(&graph), walk.next(&graph)];
    gave(rt, steps, [Some(0), Some(1), None]);
    let mut walk = match Dfs::new(alloc, &graph, start, dir) {
        Ok(walk) => walk,
        Err(AllocError) => made(rt, Dfs::new(alloc, &graph, start, dir)),
    };
    let steps = [walk.next(&graph), walk.next(&graph), walk.next(&graph)];
    gave(rt, steps, [Some(0), Some(1), None]);
    let mut walk = match DfsPostOrder::new(alloc, &graph, start, dir) {
        Ok(walk) => walk,
        Err(AllocError) => made(rt, DfsPostOrder::new(alloc, &graph, start, dir)),
    };
    let steps = [walk.next(&graph), walk.next(&graph), walk.next(&graph)];
    gave(rt, steps, [Some(1), Some(0), None]);
}

fn oldest_first_again<S: Store<u32, NodeWeight = (), EdgeWeight = ()>>(
    rt: &impl Abort,
    alloc: Global,
) {
    let graph = two_nodes::<S>(rt, alloc);
    let start = node(rt, 0);
    let dir = Direction::Outgoing;
    let mut walk = match DfsOldestFirst::new(alloc, &graph, start, dir) {
        Ok(walk) => walk,
        Err(AllocError) => made(rt, DfsOldestFirst::new(alloc, &graph, start, dir)),
    };
    let steps = [walk.next(&graph), walk.next(&graph), walk.next(&graph)];
    gave(rt, steps, [Some(0), Some(1), None]);
    let children = match children_oldest_first(alloc, &graph, start) {
        Ok(children) => children,
        Err(AllocError) => made(rt, children_oldest_first(alloc, &graph, start)),
    };
    lists(rt, children.as_slice(), &[1]);
    let edges = match edges_oldest_first(alloc, &graph, start, dir) {
        Ok(edges) => edges,
        Err(AllocError) => made(rt, edges_oldest_first(alloc, &graph, start, dir)),
    };
    same(rt, edges.len(), 1);
}

#[test]
fn refused_calls_are_made_again(rt: HostRuntime) {
    again::<DiGraph<(), (), u32>>(&rt, rt.alloc());
    oldest_first_again::<DiGraph<(), (), u32>>(&rt, rt.alloc());
}

#[test]
fn refused_calls_on_a_stable_graph_are_made_again(rt: HostRuntime) {
    again::<StableDiGraph<(), (), u32>>(&rt, rt.alloc());
    oldest_first_again::<StableDiGraph<(), (), u32>>(&rt, rt.alloc());
}
