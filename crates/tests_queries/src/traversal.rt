//! Walks over a dag that others hold meanwhile.
use crate::support::{holds, made, node};
use daggy_base::index::Direction;
use daggy_base::store::Store;
use daggy_dag::acyclic::Acyclic;
use daggy_graph::graph::DiGraph;
use daggy_stable::stable_graph::StableDiGraph;
use daggy_traversal::bfs::Bfs;
use daggy_traversal::dfs::Dfs;
use daggy_traversal::post_order::DfsPostOrder;
use std::alloc::Global;
use std::process::Abort;

// A dag of a node and its child, which is read between the steps.
fn steps<S: Store<u32, NodeWeight = u64, EdgeWeight = u64>>(rt: &impl Abort, alloc: Global) {
    let mut dag: Acyclic<u64, u64, u32, S> = Acyclic::new(alloc);
    assert!(rt; dag.can_add_node());
    let sow = made(rt, dag.add_node(7));
    assert!(rt; dag.contains_node(sow) && dag.can_add_node() && dag.can_add_edge());
    let (_, reap) = made(rt, dag.add_child(sow, 90, 8));
    let held = &dag;
    let mut walk = made(rt, Bfs::new(alloc, dag.graph(), sow, Direction::Outgoing));
    holds(rt, walk.next(dag.graph()) == Some(sow));
    holds(rt, held.node_weight(sow).copied() == Some(7));
    holds(rt, walk.next(held.graph()) == Some(reap));
    holds(rt, walk.next(dag.graph()).is_none());
    let mut walk = made(rt, Dfs::new(alloc, dag.graph(), reap, Direction::Incoming));
    holds(rt, walk.next(dag.graph()) == Some(reap));
    holds(rt, held.node_weight(reap).copied() == Some(8));
    holds(rt, walk.next(held.graph()) == Some(sow));
    holds(rt, walk.next(dag.graph()).is_none());
    let mut walk = made(
        rt,
        DfsPostOrder::new(alloc, dag.graph(), sow, Direction::Outgoing),
    );
    holds(rt, walk.next(dag.graph()) == Some(reap));
    holds(rt, held.node_weight(node(rt, 0)).copied() == Some(7));
    holds(rt, walk.next(held.graph()) == Some(sow));
    holds(rt, walk.next(dag.graph()).is_none());
}

#[test]
fn walks_over_a_dag(rt: HostRuntime) {
    steps::<DiGraph<u64, u64, u32>>(&rt, rt.alloc());
}

#[test]
fn walks_over_a_stable_dag(rt: HostRuntime) {
    steps::<StableDiGraph<u64, u64, u32>>(&rt, rt.alloc());
}
