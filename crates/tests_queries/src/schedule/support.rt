//! The dags and the times. What is generic over the store serves both kinds of dag.
use crate::support::{holds, made, node, same};
use daggy_base::index::EdgeIndex;
use daggy_base::store::Store;
use daggy_dag::acyclic::Acyclic;
use std::alloc::Global;
use std::process::Abort;

/// A dag of either kind, whose nodes weigh as much as they take.
pub type Plain<S> = Acyclic<u64, (), u32, S>;

/// A dag with these durations and edges, the last edge of a node first in its lists.
pub fn dag_of<S: Store<u32, NodeWeight = u64, EdgeWeight = ()>>(
    rt: &impl Abort,
    alloc: Global,
    durations: &[u64],
    edges: &[(usize, usize)],
) -> Plain<S> {
    let mut dag = Plain::<S>::new(alloc);
    for duration in durations {
        assert!(rt; dag.can_add_node());
        made(rt, dag.add_node(*duration));
    }
    for (a, b) in edges {
        put_edge(rt, &mut dag, *a, *b);
    }
    dag
}

fn put_edge<S: Store<u32, NodeWeight = u64, EdgeWeight = ()>>(
    rt: &impl Abort,
    dag: &mut Plain<S>,
    a: usize,
    b: usize,
) -> EdgeIndex {
    let (a, b) = (node(rt, a), node(rt, b));
    assert!(rt; dag.contains_node(a) && dag.contains_node(b));
    assert!(rt; dag.can_add_edge());
    made(rt, dag.add_edge(a, b, ()))
}

/// The same dag, in which node 0 was a child of node 1 for a while. So its order is another one.
pub fn turned_dag_of<S: Store<u32, NodeWeight = u64, EdgeWeight = ()>>(
    rt: &impl Abort,
    alloc: Global,
    durations: &[u64],
    edges: &[(usize, usize)],
) -> Plain<S> {
    let mut dag = dag_of::<S>(rt, alloc, durations, &[]);
    let e = put_edge(rt, &mut dag, 1, 0);
    holds(rt, dag.remove_edge(e).is_some());
    for (a, b) in edges {
        put_edge(rt, &mut dag, *a, *b);
    }
    dag
}

/// Asserts that a list of times is this one.
pub fn times(rt: &impl Abort, found: &[u64], wanted: &[u64]) {
    same(rt, found.len(), wanted.len());
    for (time, want) in found.iter().zip(wanted) {
        same(rt, *time, *want);
    }
}
