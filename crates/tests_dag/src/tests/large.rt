//! Graphs that are large beside a stack, or dense.
use super::script::Answer;
use super::table::{Scene, compact_by, edge_added, is, node_added};
use daggy_base::index::IndexType;
use daggy_base::store::Store;
use daggy_dag::acyclic::Acyclic;
use std::process::Abort;

// Asserts 100 times that an edge from one node to another closes a cycle.
fn refuse_edges<Ix: IndexType, S: Store<Ix, NodeWeight = u32, EdgeWeight = u32>>(
    rt: &impl Abort,
    dag: &mut Acyclic<u32, u32, Ix, S>,
    ends: (usize, usize),
) {
    for weight in 0..100 {
        is(rt, edge_added(rt, dag, ends, weight), Answer::Cycle(weight));
    }
}

/// An edge from the last of 10,000 nodes to the first, to which a path leads through all of them.
pub fn search_long_chain<Ix: IndexType, S: Store<Ix, NodeWeight = u32, EdgeWeight = u32>>(
    rt: &impl Abort,
    dag: &mut Acyclic<u32, u32, Ix, S>,
) {
    for b in 0..10_000 {
        is(rt, node_added(rt, dag, 0), Answer::Node(b));
        if b > 0 {
            is(rt, edge_added(rt, dag, (b - 1, b), 0), Answer::Edge(b - 1));
        }
    }
    refuse_edges(rt, dag, (9_999, 0));
}

/// An edge from the last of 300 nodes to the first, with edges to each from about half of those
/// before it.
pub fn search_dense_graph<Ix: IndexType, S: Store<Ix, NodeWeight = u32, EdgeWeight = u32>>(
    rt: &impl Abort,
    dag: &mut Acyclic<u32, u32, Ix, S>,
) {
    let mut count = 0usize;
    for b in 0..300 {
        is(rt, node_added(rt, dag, 0), Answer::Node(b));
        for a in 0..b {
            if a % 2 == b % 2 || a + 1 == b {
                is(rt, edge_added(rt, dag, (a, b), 0), Answer::Edge(count));
                count = count.wrapping_add(1);
            }
        }
    }
    refuse_edges(rt, dag, (299, 0));
}

#[test]
fn a_long_chain_is_searched(rt: HostRuntime) {
    compact_by::<u32>(&rt, rt.alloc(), Scene::LongChain);
}

#[test]
fn a_dense_graph_is_searched(rt: HostRuntime) {
    compact_by::<u32>(&rt, rt.alloc(), Scene::DenseGraph);
}
