//! Commands that add, to both kinds.
use crate::commands::support::{Ask, Get, Row, Scene, Weights, both};

#[test]
fn nodes_and_edges_are_added_one_by_one(rt: HostRuntime) {
    const ROWS: &[Row<'static>] = &[
        (Ask::Node(10), Get::Node(0)),
        (Ask::Node(11), Get::Node(1)),
        (Ask::Edge(0, 1, 5), Get::Edge(0)),
        (Ask::Edge(0, 9, 6), Get::Missing(Weights::Edge(6))),
        (Ask::Edge(9, 1, 6), Get::Missing(Weights::Edge(6))),
        (Ask::Edge(1, 0, 7), Get::Cycle(7)),
        (Ask::Edge(1, 1, 4), Get::Cycle(4)),
    ];
    both(&rt, rt.alloc(), Scene::Rows(ROWS));
}

#[test]
fn an_update_writes_the_newest_edge_or_adds_one(rt: HostRuntime) {
    const ROWS: &[Row<'static>] = &[
        (Ask::Node(0), Get::Node(0)),
        (Ask::Node(0), Get::Node(1)),
        (Ask::Node(0), Get::Node(2)),
        (Ask::Edges(&[(0, 1, 0), (0, 1, 0)]), Get::Edges(&[0, 1])),
        (Ask::Update(0, 1, 8), Get::Edge(1)),
        (Ask::Update(1, 2, 9), Get::Edge(2)),
        (Ask::Update(2, 0, 3), Get::Cycle(3)),
        (Ask::Update(0, 9, 3), Get::Missing(Weights::Edge(3))),
        (Ask::RemoveEdge(1), Get::EdgeGone(8)),
    ];
    both(&rt, rt.alloc(), Scene::Rows(ROWS));
}

#[test]
fn children_and_parents_come_with_their_edge(rt: HostRuntime) {
    const ROWS: &[Row<'static>] = &[
        (Ask::Node(0), Get::Node(0)),
        (Ask::Child(0, 3, 12), Get::EdgeNode(0, 1)),
        (Ask::Parent(0, 4, 13), Get::EdgeNode(1, 2)),
        (Ask::Child(9, 3, 12), Get::Missing(Weights::EdgeNode(3, 12))),
        (
            Ask::Parent(9, 4, 13),
            Get::Missing(Weights::EdgeNode(4, 13)),
        ),
        (Ask::Ends(0), Get::Ends(0, 1)),
        (Ask::Ends(1), Get::Ends(2, 0)),
        (Ask::RemoveNode(2), Get::NodeGone(13)),
    ];
    both(&rt, rt.alloc(), Scene::Rows(ROWS));
}

#[test]
fn edges_are_added_all_or_none(rt: HostRuntime) {
    const ROWS: &[Row<'static>] = &[
        (Ask::Node(0), Get::Node(0)),
        (Ask::Node(0), Get::Node(1)),
        (Ask::Node(0), Get::Node(2)),
        (Ask::Node(0), Get::Node(3)),
        (Ask::Edges(&[]), Get::Edges(&[])),
        (
            Ask::Edges(&[(0, 1, 0), (0, 2, 1), (0, 3, 2), (3, 3, 3)]),
            Get::CycleAll(&[3, 2, 1, 0]),
        ),
        (
            Ask::Edges(&[(0, 1, 0), (0, 2, 1), (0, 3, 2)]),
            Get::Edges(&[0, 1, 2]),
        ),
        // What is missing comes before the cycle that the first edge closes.
        (
            Ask::Edges(&[(3, 0, 5), (0, 9, 6), (9, 9, 7)]),
            Get::Missing(Weights::Edges(6, &[5])),
        ),
        (Ask::Ends(3), Get::NoEnds),
    ];
    both(&rt, rt.alloc(), Scene::Rows(ROWS));
}
