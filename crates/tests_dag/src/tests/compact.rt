//! Capacity, and what only compact dags have: room that is reserved and given back, slices of all
//! nodes and edges, and all weights written in a row.
use super::acts::{Act, TRIANGLE, both, compact, compact_of, dag_of};
use super::kinds::{Compact, Kind, Plain, Three};
use super::support::{holds, same};
use super::table::play;
use daggy_base::index::{Direction, EdgeIndex, NodeIndex};
use std::alloc::{AllocError, Global};
use std::process::Abort;

const AGAIN: &str = "
    counts = counts 3 3
    weight 0 = weight 10
    weight 1 = weight 11
    weight 2 = weight 12
    stored 1 = stored 0 2 101
    children 0 = walk 1 2, 0 1
    parents 2 = walk 2 1, 1 0
";

// A call that changes what a dag has memory for, and nothing else.
#[derive(Clone, Copy)]
enum Room {
    Nodes(usize),
    ExactNodes(usize),
    Edges(usize),
    ExactEdges(usize),
    Fitted,
    FittedNodes,
    FittedEdges,
}

// A store whose dags have these calls.
trait Roomy: Kind {
    fn ask(dag: &mut Plain<Self>, room: Room) -> Result<(), AllocError>;
}

impl Roomy for Compact {
    fn ask(dag: &mut Plain<Self>, room: Room) -> Result<(), AllocError> {
        match room {
            Room::Nodes(count) => dag.reserve_nodes(count),
            Room::ExactNodes(count) => dag.reserve_exact_nodes(count),
            Room::Edges(count) => dag.reserve_edges(count),
            Room::ExactEdges(count) => dag.reserve_exact_edges(count),
            Room::Fitted => dag.shrink_to_fit(),
            Room::FittedNodes => dag.shrink_to_fit_nodes(),
            Room::FittedEdges => dag.shrink_to_fit_edges(),
        }
    }
}

fn ask_all<S: Roomy>(rt: &impl Abort, alloc: Global, rooms: &[Room], succeed: bool) {
    let mut dag: Plain<S> = dag_of(rt, alloc, TRIANGLE);
    for room in rooms {
        same(rt, S::ask(&mut dag, *room).is_ok(), succeed);
    }
    play(rt, alloc, &mut dag, AGAIN);
}

// Makes these calls of a triangle, which all succeed or all fail, and asserts that it is unchanged.
fn ask_compact(rt: &impl Abort, alloc: Global, rooms: &[Room], succeed: bool) {
    ask_all::<Compact>(rt, alloc, rooms, succeed);
}

#[test]
fn capacity_is_made_and_given_back(rt: HostRuntime) {
    const MADE: &[Room] = &[
        Room::Nodes(20),
        Room::ExactNodes(40),
        Room::Edges(20),
        Room::ExactEdges(40),
    ];
    const GIVEN_BACK: &[Room] = &[
        Room::ExactNodes(40),
        Room::ExactEdges(40),
        Room::FittedNodes,
        Room::FittedEdges,
        Room::Nodes(20),
        Room::Fitted,
    ];
    ask_compact(&rt, rt.alloc(), MADE, true);
    ask_compact(&rt, rt.alloc(), GIVEN_BACK, true);
}

#[test]
fn capacity_that_no_machine_has_is_refused(rt: HostRuntime) {
    const ROOMS: &[Room] = &[
        Room::Nodes(usize::MAX),
        Room::ExactNodes(usize::MAX),
        Room::Edges(usize::MAX),
        Room::ExactEdges(usize::MAX),
    ];
    ask_compact(&rt, rt.alloc(), ROOMS, false);
}

#[test]
fn a_dag_with_capacity_begins_empty(rt: HostRuntime) {
    const ROWS: &str = "
        counts = counts 0 0
        node 1 = node 0
        node 2 = node 1
        edge 0 1 3 = edge 0
        edge 1 0 4 = cycle 4
    ";
    const ACTS: &[Act<'static>] = &[
        Act::Capacity(2, 1, ROWS),
        Act::NoCapacity(usize::MAX, 0),
        Act::NoCapacity(0, usize::MAX),
    ];
    both(&rt, rt.alloc(), "", ACTS);
}

#[test]
fn an_update_shows_each_node_or_each_edge(rt: HostRuntime) {
    const ROWS: &str = "
        weight 0 = weight 20
        weight 1 = weight 22
        weight 2 = weight 24
        stored 0 = stored 0 1 101
        stored 1 = stored 0 2 102
        stored 2 = stored 1 2 103
        edge 2 0 7 = cycle 7
    ";
    const ACTS: &[Act<'static>] = &[Act::Update(101112, 202122), Act::Rows(ROWS)];
    compact(&rt, rt.alloc(), TRIANGLE, ACTS);
}

#[test]
fn closures_read_tables_of_the_size_of_a_compact_dag(rt: HostRuntime) {
    const ACTS: &[Act<'static>] = &[Act::Tables(
        &[5, 6, 7],
        &[8, 9, 10],
        "
            weight 0 = weight 5
            weight 2 = weight 7
            stored 1 = stored 0 2 9
        ",
    )];
    compact(&rt, rt.alloc(), TRIANGLE, ACTS);
}

// Asserts what the slices of a triangle are without its first edge.
fn are_slices(rt: &impl Abort, dag: &Plain<Compact>) {
    let nodes = dag.raw_nodes();
    let edges = dag.raw_edges();
    holds(rt, nodes.len() == 3);
    holds(rt, edges.len() == 2);
    let incoming = Direction::Incoming;
    same(rt, nodes[1].next_edge(incoming), EdgeIndex::end());
    same(rt, edges[0].next_edge(incoming), EdgeIndex::new(1));
    same(rt, edges[0].source(), NodeIndex::new(1));
}

#[test]
fn slices_follow_a_removal(rt: HostRuntime) {
    const ROWS: &str = "
        nodes 3 = done
        edges 0 1 100, 0 2 101, 1 2 102 = edges 0 1 2
        remove_edge 0 = weight 100
    ";
    let dag = compact_of(&rt, rt.alloc(), ROWS);
    are_slices(&rt, &dag);
}

#[test]
fn weights_are_lent_in_order(rt: HostRuntime) {
    const NODES: Three = (Some(10), Some(11), Some(12));
    const EDGES: Three = (Some(100), Some(101), Some(102));
    const ACTS: &[Act<'static>] = &[
        Act::PutSecond(21, 30, NODES, EDGES),
        Act::Rows(
            "
            weight 0 = weight 10
            weight 1 = weight 21
            stored 0 = stored 0 1 100
            stored 1 = stored 0 2 30
        ",
        ),
    ];
    compact(&rt, rt.alloc(), TRIANGLE, ACTS);
}
