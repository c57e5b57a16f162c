//! Dags of which a closure keeps some nodes, or some edges.
use super::acts::{Act, TRIANGLE, both, compact, compact_of, stable};
use super::kinds::{Compact, Kind, Plain, note};
use super::support::{holds, same};
use daggy_base::source::EdgeSource;
use daggy_visit::visit::NodeIndexable;
use std::cell::Cell;
use std::process::Abort;

/// Removes the nodes of one weight, and asserts which calls the closure got.
pub fn keep_nodes<S: Kind>(rt: &impl Abort, dag: &mut Plain<S>, without: u32, noted: u64) {
    let calls = Cell::new(0);
    dag.retain_nodes(|n, weight| {
        note(&calls, 1, n.index());
        *weight != without
    });
    same(rt, calls.get(), noted);
}

/// The same for edges.
pub fn keep_edges<S: Kind>(rt: &impl Abort, dag: &mut Plain<S>, without: u32, noted: u64) {
    let calls = Cell::new(0);
    dag.retain_edges(|e, weight| {
        note(&calls, 2, e.index());
        *weight != without
    });
    same(rt, calls.get(), noted);
}

#[test]
fn nodes_that_are_not_kept_go_with_their_edges(rt: HostRuntime) {
    const COMPACT: &str = "
        counts = counts 2 1
        weight 0 = weight 10
        weight 1 = weight 12
        stored 0 = stored 0 1 101
        edge 1 0 7 = cycle 7
    ";
    const STABLE: &str = "
        counts = counts 2 1
        weight 0 = weight 10
        weight 1 = nothing
        stored 1 = stored 0 2 101
        edge 2 0 7 = cycle 7
    ";
    const KEEP: Act<'static> = Act::KeepNodes(11, 121110);
    compact(&rt, rt.alloc(), TRIANGLE, &[KEEP, Act::Rows(COMPACT)]);
    stable(&rt, rt.alloc(), TRIANGLE, &[KEEP, Act::Rows(STABLE)]);
}

#[test]
fn edges_that_are_not_kept_go(rt: HostRuntime) {
    const COMPACT: &str = "
        counts = counts 3 2
        stored 0 = stored 1 2 102
        stored 1 = stored 0 2 101
        edge 1 0 7 = edge 2
    ";
    const STABLE: &str = "
        counts = counts 3 2
        stored 0 = nothing
        stored 2 = stored 1 2 102
        edge 1 0 7 = edge 0
    ";
    const KEEP: Act<'static> = Act::KeepEdges(100, 222120);
    compact(&rt, rt.alloc(), TRIANGLE, &[KEEP, Act::Rows(COMPACT)]);
    stable(&rt, rt.alloc(), TRIANGLE, &[KEEP, Act::Rows(STABLE)]);
}

#[test]
fn all_is_kept_and_nothing_is_asked_of_an_empty_dag(rt: HostRuntime) {
    const NOTHING: &[Act<'static>] = &[Act::KeepNodes(0, 0), Act::KeepEdges(0, 0)];
    const ALL: &[Act<'static>] = &[
        Act::KeepNodes(0, 121110),
        Act::KeepEdges(0, 222120),
        Act::Rows("counts = counts 3 3"),
    ];
    stable(&rt, rt.alloc(), "", NOTHING);
    both(&rt, rt.alloc(), TRIANGLE, ALL);
}

// Keeps what two tables say of a triangle.
fn keep_by_table(rt: &impl Abort, dag: &mut Plain<Compact>) {
    let (nodes, edges) = ([true, false, true], [false, true, true]);
    holds(rt, dag.graph().edge_bound() <= edges.len());
    dag.retain_edges(|e, _| edges[e.index()]);
    same(rt, dag.edge_count(), 2);
    holds(rt, dag.node_bound() <= nodes.len());
    dag.retain_nodes(|n, _| nodes[n.index()]);
    same(rt, dag.node_count(), 2);
}

#[test]
fn what_is_kept_is_read_from_a_table(rt: HostRuntime) {
    let mut dag = compact_of(&rt, rt.alloc(), TRIANGLE);
    keep_by_table(&rt, &mut dag);
}
