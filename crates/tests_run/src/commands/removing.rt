//! Commands that remove.
use crate::commands::support::{Ask, Get, Row, Scene, both, compact, stable};

#[test]
fn the_last_moves_to_the_gap(rt: HostRuntime) {
    const ROWS: &[Row<'static>] = &[
        (Ask::Node(10), Get::Node(0)),
        (Ask::Node(20), Get::Node(1)),
        (Ask::Node(30), Get::Node(2)),
        (
            Ask::Edges(&[(0, 1, 0), (1, 2, 0), (0, 2, 0)]),
            Get::Edges(&[0, 1, 2]),
        ),
        (Ask::RemoveNode(1), Get::NodeGone(20)),
        (Ask::RemoveNode(9), Get::NoNode),
        (Ask::RemoveEdge(9), Get::NoEdge),
        (Ask::Ends(0), Get::Ends(0, 1)),
        (Ask::RemoveNode(1), Get::NodeGone(30)),
        (Ask::Node(40), Get::Node(1)),
    ];
    compact(&rt, rt.alloc(), Scene::Rows(ROWS));
}

#[test]
fn what_stays_keeps_its_index(rt: HostRuntime) {
    const ROWS: &[Row<'static>] = &[
        (Ask::Node(10), Get::Node(0)),
        (Ask::Node(20), Get::Node(1)),
        (Ask::Node(30), Get::Node(2)),
        (
            Ask::Edges(&[(0, 1, 0), (1, 2, 0), (0, 2, 0)]),
            Get::Edges(&[0, 1, 2]),
        ),
        (Ask::RemoveNode(1), Get::NodeGone(20)),
        (Ask::RemoveNode(9), Get::NoNode),
        (Ask::RemoveEdge(9), Get::NoEdge),
        (Ask::Ends(2), Get::Ends(0, 2)),
        (Ask::RemoveNode(1), Get::NoNode),
        (Ask::Node(40), Get::Node(1)),
        (Ask::RemoveEdge(2), Get::EdgeGone(0)),
    ];
    stable(&rt, rt.alloc(), Scene::Rows(ROWS));
}

#[test]
fn edges_are_reduced_and_all_is_cleared(rt: HostRuntime) {
    const ROWS: &[Row<'static>] = &[
        (Ask::Node(0), Get::Node(0)),
        (Ask::Node(0), Get::Node(1)),
        (Ask::Node(0), Get::Node(2)),
        (
            Ask::Edges(&[(0, 1, 0), (1, 2, 0), (0, 2, 0)]),
            Get::Edges(&[0, 1, 2]),
        ),
        (Ask::Reduce(&[1, 9]), Get::Done),
        (Ask::Find(0, 2), Get::Found(2)),
        (Ask::Reduce(&[0]), Get::Done),
        (Ask::Find(0, 2), Get::NotFound),
        (Ask::ClearEdges, Get::Done),
        (Ask::Find(0, 1), Get::NotFound),
        (Ask::Clear, Get::Done),
        (Ask::Node(5), Get::Node(0)),
    ];
    both(&rt, rt.alloc(), Scene::Rows(ROWS));
}
