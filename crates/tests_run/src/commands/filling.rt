//! What is answered where no index is left.
use crate::commands::support::{Ask, Get, Row, Scene, Weights, add_nodes, both, play, stable};
use daggy_run::guarded::GuardedDag;
use std::alloc::Global;
use std::process::Abort;

/// Plays a table over a dag of two nodes, and of as many edges from the first to the second as
/// there are indices.
pub fn full_of_edges<D: GuardedDag<u32, u32, u8>>(
    rt: &impl Abort,
    alloc: Global,
    dag: &mut D,
    rows: &[Row<'_>],
) {
    add_nodes(rt, alloc, dag, 2);
    for i in 0..255 {
        play(rt, alloc, dag, &[(Ask::Edge(0, 1, 0), Get::Edge(i))]);
    }
    play(rt, alloc, dag, rows);
}

/// Plays a table over a dag of as many nodes as there are indices.
pub fn full_of_nodes<D: GuardedDag<u32, u32, u8>>(
    rt: &impl Abort,
    alloc: Global,
    dag: &mut D,
    rows: &[Row<'_>],
) {
    add_nodes(rt, alloc, dag, 255);
    play(rt, alloc, dag, rows);
}

#[test]
fn no_index_is_left_for_an_edge(rt: HostRuntime) {
    const ROWS: &[Row<'static>] = &[
        (Ask::Edge(1, 0, 5), Get::Full(Weights::Edge(5))),
        (Ask::Edge(1, 9, 5), Get::Missing(Weights::Edge(5))),
        (Ask::Update(1, 0, 5), Get::Full(Weights::Edge(5))),
        (Ask::Update(0, 1, 5), Get::Edge(254)),
        (Ask::Child(0, 1, 2), Get::Full(Weights::EdgeNode(1, 2))),
        (Ask::Parent(9, 1, 2), Get::Missing(Weights::EdgeNode(1, 2))),
        (Ask::Edges(&[(1, 0, 7)]), Get::Full(Weights::Edges(7, &[]))),
        (Ask::Node(3), Get::Node(2)),
    ];
    // `missing` comes before `full`, and `full` before a cycle.
    both(&rt, rt.alloc(), Scene::FullOfEdges(ROWS));
}

#[test]
fn the_last_index_is_left_for_an_edge(rt: HostRuntime) {
    const ROWS: &[Row<'static>] = &[
        (Ask::RemoveEdge(254), Get::EdgeGone(0)),
        (
            Ask::Edges(&[(0, 1, 7), (1, 0, 8), (9, 9, 9)]),
            Get::Full(Weights::Edges(8, &[7])),
        ),
        (Ask::Edge(0, 1, 1), Get::Edge(254)),
    ];
    both(&rt, rt.alloc(), Scene::FullOfEdges(ROWS));
}

#[test]
fn no_index_is_left_for_a_node(rt: HostRuntime) {
    const ROWS: &[Row<'static>] = &[
        (Ask::Node(3), Get::Full(Weights::Node(3))),
        (Ask::Child(0, 1, 2), Get::Full(Weights::EdgeNode(1, 2))),
        (Ask::Parent(0, 1, 2), Get::Full(Weights::EdgeNode(1, 2))),
        (Ask::Child(255, 1, 2), Get::Missing(Weights::EdgeNode(1, 2))),
        (Ask::Edge(0, 1, 1), Get::Edge(0)),
    ];
    both(&rt, rt.alloc(), Scene::FullOfNodes(ROWS));
}

#[test]
fn a_vacated_index_is_the_last(rt: HostRuntime) {
    const ROWS: &[Row<'static>] = &[
        (Ask::RemoveNode(7), Get::NodeGone(0)),
        (Ask::Child(7, 1, 2), Get::Missing(Weights::EdgeNode(1, 2))),
        (Ask::Node(9), Get::Node(7)),
        (Ask::Child(7, 1, 2), Get::Full(Weights::EdgeNode(1, 2))),
    ];
    stable(&rt, rt.alloc(), Scene::FullOfNodes(ROWS));
}
