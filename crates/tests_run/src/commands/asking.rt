//! Commands that ask, and what a planner asks, of both kinds.
use crate::commands::support::{
    Ask, Get, Row, Scene, add_nodes, both, compact, e, n, play, same, stable,
};
use daggy_base::index::EdgeIndex;
use daggy_base::kind::Kind;
use daggy_run::guarded::GuardedDag;
use std::alloc::Global;
use std::process::Abort;

#[test]
fn edges_are_found_and_their_ends_told(rt: HostRuntime) {
    const ROWS: &[Row<'static>] = &[
        (Ask::Node(0), Get::Node(0)),
        (Ask::Node(0), Get::Node(1)),
        (Ask::Node(0), Get::Node(2)),
        (
            Ask::Edges(&[(0, 1, 0), (0, 2, 0), (0, 1, 0)]),
            Get::Edges(&[0, 1, 2]),
        ),
        (Ask::Find(0, 1), Get::Found(2)),
        (Ask::Find(1, 0), Get::NotFound),
        (Ask::Find(9, 0), Get::NotFound),
        (Ask::Ends(1), Get::Ends(0, 2)),
        (Ask::Ends(9), Get::NoEnds),
    ];
    both(&rt, rt.alloc(), Scene::Rows(ROWS));
}

#[test]
fn walks_run_newest_first(rt: HostRuntime) {
    const ROWS: &[Row<'static>] = &[
        (Ask::Node(0), Get::Node(0)),
        (Ask::Node(0), Get::Node(1)),
        (Ask::Node(0), Get::Node(2)),
        (
            Ask::Edges(&[(0, 1, 0), (0, 2, 0), (1, 2, 0)]),
            Get::Edges(&[0, 1, 2]),
        ),
        (Ask::Children(0), Get::Walk(&[(1, 2), (0, 1)])),
        (Ask::Parents(2), Get::Walk(&[(2, 1), (1, 0)])),
        (Ask::Parents(0), Get::Walk(&[])),
        (Ask::Children(9), Get::Walk(&[])),
    ];
    both(&rt, rt.alloc(), Scene::Rows(ROWS));
}

/// The edges that leave node 0, one by one.
pub fn go_along<D: GuardedDag<u32, u32, u8>>(rt: &impl Abort, alloc: Global, dag: &mut D) {
    add_nodes(rt, alloc, dag, 3);
    play(
        rt,
        alloc,
        dag,
        &[(Ask::Edges(&[(0, 1, 0), (0, 2, 0)]), Get::Edges(&[0, 1]))],
    );
    same(rt, dag.node_bound(), 3);
    same(rt, dag.first_child(n(0)), e(1));
    same(rt, dag.first_child(n(2)), EdgeIndex::end());
    let newest = e(1);
    let Some(_ends) = dag.edge_endpoints(newest) else {
        panic!(rt; "the edge is there");
    };
    same(rt, dag.child_edge(newest), (n(2), e(0)));
}

#[test]
fn children_are_gone_along_one_by_one(rt: HostRuntime) {
    both(&rt, rt.alloc(), Scene::Along);
}

#[test]
fn a_dag_tells_its_kind(rt: HostRuntime) {
    compact(&rt, rt.alloc(), Scene::OfKind(Kind::Compact));
    stable(&rt, rt.alloc(), Scene::OfKind(Kind::Stable));
}
