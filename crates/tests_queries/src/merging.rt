//! Two dags merged into one, worked out by hand.
use crate::support::{holds, made, same};
use daggy::operators::{MergeError, merge};
use daggy_base::index::{EdgeIndex, NodeIndex};
use daggy_base::store::Store;
use daggy_dag::acyclic::Acyclic;
use daggy_graph::graph::DiGraph;
use daggy_stable::stable_graph::StableDiGraph;
use std::alloc::Global;
use std::process::Abort;

type Plain<S> = Acyclic<u64, (), u8, S>;

// The index of a node.
fn node(rt: &impl Abort, x: usize) -> NodeIndex<u8> {
    holds(rt, x < 255);
    NodeIndex::new(x)
}

// A dag of this many nodes, whose weights begin at `first`, with these edges.
fn dag_of<S: Store<u8, NodeWeight = u64, EdgeWeight = ()>>(
    rt: &impl Abort,
    alloc: Global,
    first: u64,
    nodes: u64,
    edges: &[(usize, usize)],
) -> Plain<S> {
    let mut dag = Plain::<S>::new(alloc);
    for n in 0..nodes {
        let _added = made(rt, dag.try_add_node(first.wrapping_add(n)));
    }
    for (a, b) in edges.iter() {
        let _added = made(rt, dag.try_add_edge(node(rt, *a), node(rt, *b), ()));
    }
    dag
}

// 0 -> 1 -> 2 and 2 -> 3, 0 -> 1 together: the edge that both have is there twice.
fn merges<S, T>(rt: &impl Abort, alloc: Global)
where
    S: Store<u8, NodeWeight = u64, EdgeWeight = ()>,
    T: Store<u8, NodeWeight = u64, EdgeWeight = ()>,
{
    let first = dag_of::<S>(rt, alloc, 0, 3, &[(0, 1), (1, 2)]);
    let second = dag_of::<T>(rt, alloc, 10, 4, &[(2, 3), (0, 1)]);
    let merged = made(rt, merge(alloc, &first, &second));
    same(rt, merged.node_count(), 4);
    let edges = [(0, 1), (1, 2), (2, 3), (0, 1)];
    same(rt, merged.edge_count(), edges.len());
    for (i, (a, b)) in edges.iter().enumerate() {
        let ends = merged.edge_endpoints(EdgeIndex::new(i % 4));
        same(rt, ends, Some((node(rt, *a), node(rt, *b))));
    }
    for (i, wanted) in [0, 1, 2, 13].iter().enumerate() {
        let weight = merged.node_weight(node(rt, i));
        holds(rt, weight.is_some_and(|w| **w == *wanted));
    }
}

// 0 -> 1 in one and 1 -> 2 -> 0 in the other.
fn closes<S, T>(rt: &impl Abort, alloc: Global)
where
    S: Store<u8, NodeWeight = u64, EdgeWeight = ()>,
    T: Store<u8, NodeWeight = u64, EdgeWeight = ()>,
{
    let first = dag_of::<S>(rt, alloc, 0, 2, &[(0, 1)]);
    let second = dag_of::<T>(rt, alloc, 0, 3, &[(1, 2), (2, 0)]);
    match merge(alloc, &first, &second) {
        Err(MergeError::Cycle(cycle)) => {
            same(rt, cycle.len(), 3);
            for n in 0..3 {
                holds(rt, cycle.as_slice().contains(&NodeIndex::new(n)));
            }
        }
        _ => panic!(rt; "no cycle was told"),
    }
}

// 200 and 56 edges are one more than the index type has indices.
fn fills<S, T>(rt: &impl Abort, alloc: Global)
where
    S: Store<u8, NodeWeight = u64, EdgeWeight = ()>,
    T: Store<u8, NodeWeight = u64, EdgeWeight = ()>,
{
    let mut first = dag_of::<S>(rt, alloc, 0, 2, &[]);
    for _ in 0..200 {
        let _added = made(rt, first.try_add_edge(node(rt, 0), node(rt, 1), ()));
    }
    let mut second = dag_of::<T>(rt, alloc, 0, 2, &[]);
    for _ in 0..55 {
        let _added = made(rt, second.try_add_edge(node(rt, 0), node(rt, 1), ()));
    }
    same(
        rt,
        made(rt, merge(alloc, &first, &second)).edge_count(),
        255,
    );
    let _added = made(rt, second.try_add_edge(node(rt, 0), node(rt, 1), ()));
    let refused = merge(alloc, &first, &second);
    holds(rt, matches!(refused, Err(MergeError::Full)));
}

// A call whose allocation fails says so, and is made again.
fn again<S, T>(rt: &impl Abort, alloc: Global)
where
    S: Store<u8, NodeWeight = u64, EdgeWeight = ()>,
    T: Store<u8, NodeWeight = u64, EdgeWeight = ()>,
{
    let first = S::new(alloc);
    let second = T::new(alloc);
    let (Ok(first), Ok(second)) = (
        Acyclic::try_from_graph(alloc, first),
        Acyclic::try_from_graph(alloc, second),
    ) else {
        return;
    };
    let merged = match merge(alloc, &first, &second) {
        Ok(merged) => merged,
        Err(_) => made(rt, merge(alloc, &first, &second)),
    };
    same(rt, merged.node_count(), 0);
}

#[test]
fn a_compact_and_a_stable_dag_are_merged(rt: HostRuntime) {
    merges::<DiGraph<u64, (), u8>, StableDiGraph<u64, (), u8>>(&rt, rt.alloc());
    closes::<DiGraph<u64, (), u8>, StableDiGraph<u64, (), u8>>(&rt, rt.alloc());
    fills::<DiGraph<u64, (), u8>, StableDiGraph<u64, (), u8>>(&rt, rt.alloc());
}

#[test]
fn a_stable_and_a_compact_dag_are_merged(rt: HostRuntime) {
    merges::<StableDiGraph<u64, (), u8>, DiGraph<u64, (), u8>>(&rt, rt.alloc());
    closes::<StableDiGraph<u64, (), u8>, DiGraph<u64, (), u8>>(&rt, rt.alloc());
}

#[test]
fn refused_calls_of_merging(rt: HostRuntime) {
    again::<DiGraph<u64, (), u8>, StableDiGraph<u64, (), u8>>(&rt, rt.alloc());
}
