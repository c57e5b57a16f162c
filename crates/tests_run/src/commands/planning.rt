//! Plans of dags of both kinds.
use crate::commands::support::{Ask, Get, Row, Scene, both, made, nodes, play, same, stable};
use daggy_run::guarded::GuardedDag;
use daggy_run::plan::plan;
use std::alloc::Global;
use std::process::Abort;

/// Makes a dag by a table, and asserts that its plan has these stages and this chain.
pub fn plans<D: GuardedDag<u32, u32, u8>>(
    rt: &impl Abort,
    alloc: Global,
    dag: &mut D,
    rows: &[Row<'_>],
    wanted: (&[&[u8]], &[u8]),
) {
    play(rt, alloc, dag, rows);
    let found = made(rt, plan(alloc, dag));
    let mut stages = Vec::new(alloc);
    for stage in wanted.0 {
        made(rt, stages.push(nodes(rt, alloc, stage)));
    }
    same(rt, found.stages, stages);
    same(rt, found.chain, nodes(rt, alloc, wanted.1));
}

#[test]
fn each_node_stands_behind_its_parents(rt: HostRuntime) {
    const ROWS: &[Row<'static>] = &[
        (Ask::Node(0), Get::Node(0)),
        (Ask::Node(0), Get::Node(1)),
        (Ask::Node(0), Get::Node(2)),
        (Ask::Node(0), Get::Node(3)),
        (Ask::Node(0), Get::Node(4)),
        (
            Ask::Edges(&[(0, 2, 1), (1, 2, 1), (2, 4, 1), (0, 4, 1)]),
            Get::Edges(&[0, 1, 2, 3]),
        ),
    ];
    // Two nodes before one, and one after it that the first leads to as well.
    let scene = Scene::Plan(ROWS, &[&[0, 1, 3], &[2], &[4]], &[0, 2, 4]);
    both(&rt, rt.alloc(), scene);
}

#[test]
fn a_removed_node_stands_nowhere(rt: HostRuntime) {
    const ROWS: &[Row<'static>] = &[
        (Ask::Node(1), Get::Node(0)),
        (Ask::Node(1), Get::Node(1)),
        (Ask::Node(1), Get::Node(2)),
        (Ask::Edge(2, 0, 1), Get::Edge(0)),
        (Ask::RemoveNode(1), Get::NodeGone(1)),
    ];
    let scene = Scene::Plan(ROWS, &[&[2], &[0]], &[2, 0]);
    stable(&rt, rt.alloc(), scene);
}

#[test]
fn without_nodes_there_is_no_stage(rt: HostRuntime) {
    both(&rt, rt.alloc(), Scene::Plan(&[], &[], &[]));
}
