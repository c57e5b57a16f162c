//! The calls of the compact dag.
use crate::again::{fill, join_again, small_fan};
use crate::observed::{counts, state_of};
use crate::scenarios::{Scenario, Way, compact};
use crate::support::{Compact, Kind, Plain, answered, made, refuse, same};
use daggy::same_reachability;
use std::alloc::{AllocError, Global};
use std::process::Abort;
use std::rt::Env;

#[test]
fn a_refused_allocation_is_answered_and_nothing_else(rt: HostRuntime) {
    compact(&rt, rt.alloc(), Scenario::NodesAndEdges);
}

#[test]
fn a_refused_update_comes_back(rt: HostRuntime) {
    compact(&rt, rt.alloc(), Scenario::Updates);
}

#[test]
fn a_refused_parallel_edge_comes_back(rt: HostRuntime) {
    compact(&rt, rt.alloc(), Scenario::ParallelEdges);
}

#[test]
fn a_refused_child_comes_back_with_its_edge(rt: HostRuntime) {
    compact(&rt, rt.alloc(), Scenario::Children);
}

#[test]
fn a_refused_parent_comes_back_with_its_edge(rt: HostRuntime) {
    compact(&rt, rt.alloc(), Scenario::Parents);
}

#[test]
fn refused_parents_come_back_as_they_were(rt: HostRuntime) {
    compact(&rt, rt.alloc(), Scenario::ParentsSet);
}

#[test]
fn a_refused_series_comes_back_whole(rt: HostRuntime) {
    compact(&rt, rt.alloc(), Scenario::Series);
}

#[test]
fn a_long_series_is_sorted_where_memory_is_refused(rt: HostRuntime) {
    compact(&rt, rt.alloc(), Scenario::LongSeries);
}

#[test]
fn nodes_stay_reserved_behind_a_long_series(rt: HostRuntime) {
    compact(&rt, rt.alloc(), Scenario::ReservedNodes);
}

#[test]
fn a_refused_extension_keeps_what_it_made(rt: HostRuntime) {
    compact(&rt, rt.alloc(), Scenario::Extension);
}

#[test]
fn a_dag_of_edges_is_made_or_its_weight_comes_back(rt: HostRuntime) {
    compact(&rt, rt.alloc(), Scenario::OfEdges);
}

#[test]
fn a_dag_of_elements_is_made_or_their_weight_comes_back(rt: HostRuntime) {
    compact(&rt, rt.alloc(), Scenario::OfElements);
}

#[test]
fn a_dag_of_slots_is_made_again(rt: HostRuntime) {
    compact(&rt, rt.alloc(), Scenario::OfSlots);
}

#[test]
fn a_refused_reduction_removes_nothing(rt: HostRuntime) {
    compact(&rt, rt.alloc(), Scenario::Reduction);
}

#[test]
fn a_refused_copy_is_made_again(rt: HostRuntime) {
    compact(&rt, rt.alloc(), Scenario::Copies(Way::Copy));
}

#[test]
fn a_refused_map_calls_no_closure(rt: HostRuntime) {
    compact(&rt, rt.alloc(), Scenario::Copies(Way::Map));
}

#[test]
fn a_refused_part_calls_no_closure(rt: HostRuntime) {
    compact(&rt, rt.alloc(), Scenario::Copies(Way::Part));
}

#[test]
fn refused_capacity_is_asked_again(rt: HostRuntime) {
    compact(&rt, rt.alloc(), Scenario::Capacity);
}

#[test]
fn refused_sets_and_matrices_are_asked_again(rt: HostRuntime) {
    compact(&rt, rt.alloc(), Scenario::Sets);
}

#[test]
fn refused_questions_are_asked_again(rt: HostRuntime) {
    compact(&rt, rt.alloc(), Scenario::Queries);
}

#[test]
fn faults_are_told_or_the_refusal(rt: HostRuntime) {
    compact(&rt, rt.alloc(), Scenario::Faults);
}

/// A call that changes what a compact dag has memory for, and nothing else.
#[derive(Clone, Copy)]
enum Room {
    Nodes(usize),
    ExactNodes(usize),
    Edges(usize),
    ExactEdges(usize),
    Fitted,
    FittedNodes,
    FittedEdges,
}

/// The store of the compact kind, with the calls that no other kind has.
trait CompactKind: Kind {
    /// Makes a call that changes what a dag has memory for.
    fn ask(dag: &mut Plain<Self>, room: Room) -> Result<(), AllocError>;

    /// Whether two dags have the same reachability.
    fn compared(a: &Plain<Self>, b: &Plain<Self>) -> Result<bool, AllocError>;
}

impl CompactKind for Compact {
    fn ask(dag: &mut Plain<Self>, room: Room) -> Result<(), AllocError> {
        match room {
            Room::Nodes(count) => dag.reserve_nodes(count),
            Room::ExactNodes(count) => dag.reserve_exact_nodes(count),
            Room::Edges(count) => dag.reserve_edges(count),
            Room::ExactEdges(count) => dag.reserve_exact_edges(count),
            Room::Fitted => dag.shrink_to_fit(),
            Room::FittedNodes => dag.shrink_to_fit_nodes(),
            Room::FittedEdges => dag.shrink_to_fit_edges(),
        }
    }

    fn compared(a: &Plain<Self>, b: &Plain<Self>) -> Result<bool, AllocError> {
        same_reachability(a, b)
    }
}

// Makes these calls, each a second time if the first is refused.
fn ask_again<S: CompactKind>(
    rt: &impl Abort,
    dag: &mut Plain<S>,
    rooms: &[Room],
    refused: &mut bool,
) {
    let before = state_of(dag);
    for room in rooms {
        if S::ask(dag, *room).is_err() {
            refuse(rt, refused);
            same(rt, state_of(dag), before);
            made(rt, S::ask(dag, *room));
        }
        same(rt, state_of(dag), before);
    }
}

// Asks for room, which a fan then needs.
fn ask_and_fill<S: CompactKind>(
    rt: &impl Abort,
    alloc: Global,
    rooms: &[Room],
    refused: &mut bool,
) {
    let mut dag = Plain::<S>::new(alloc);
    ask_again(rt, &mut dag, rooms, refused);
    fill(rt, &mut dag, 19);
}

// Asks for room beside a small fan, and gives it back.
fn ask_and_shrink<S: CompactKind>(rt: &impl Abort, alloc: Global, refused: &mut bool) {
    let mut dag: Plain<S> = small_fan(rt, alloc, refused);
    let room = [
        Room::ExactNodes(20),
        Room::FittedNodes,
        Room::ExactEdges(20),
        Room::FittedEdges,
        Room::Nodes(30),
        Room::Edges(30),
        Room::Fitted,
    ];
    ask_again(rt, &mut dag, &room, refused);
}

// Compares two dags, a second time if the first is refused.
fn compare_again<S: CompactKind>(
    rt: &impl Abort,
    a: &Plain<S>,
    b: &Plain<S>,
    wanted: bool,
    refused: &mut bool,
) {
    let found = match S::compared(a, b) {
        Ok(found) => found,
        Err(AllocError) => {
            refuse(rt, refused);
            made(rt, S::compared(a, b))
        }
    };
    same(rt, found, wanted);
}

fn compare<S: CompactKind>(rt: &impl Abort, alloc: Global, refused: &mut bool) {
    let dag: Plain<S> = small_fan(rt, alloc, refused);
    compare_with(rt, alloc, &dag, refused);
}

fn compare_with<S: CompactKind>(
    rt: &impl Abort,
    alloc: Global,
    dag: &Plain<S>,
    refused: &mut bool,
) {
    let mut other: Plain<S> = small_fan(rt, alloc, refused);
    join_again(rt, &mut other, (1, 2), false, refused);
    compare_again(rt, dag, dag, true, refused);
    compare_again(rt, dag, &other, false, refused);
    counts(rt, &other, 4, 4);
}

/// What is done with compact dags alone.
#[derive(Clone, Copy)]
enum Task {
    Room,
    ExactRoom,
    SmallerBlock,
    Comparison,
}

fn carry_out<S: CompactKind>(rt: &(impl Abort + Env), alloc: Global, task: Task) {
    let mut refused = false;
    let room = [Room::Nodes(20), Room::Edges(20)];
    let exact = [Room::ExactNodes(20), Room::ExactEdges(20)];
    match task {
        Task::Room => ask_and_fill::<S>(rt, alloc, &room, &mut refused),
        Task::ExactRoom => ask_and_fill::<S>(rt, alloc, &exact, &mut refused),
        Task::SmallerBlock => ask_and_shrink::<S>(rt, alloc, &mut refused),
        Task::Comparison => compare::<S>(rt, alloc, &mut refused),
    }
    answered(rt, refused);
}

fn do_task(rt: &(impl Abort + Env), alloc: Global, task: Task) {
    carry_out::<Compact>(rt, alloc, task);
}

#[test]
fn refused_room_is_asked_again(rt: HostRuntime) {
    do_task(&rt, rt.alloc(), Task::Room);
}

#[test]
fn refused_exact_room_is_asked_again(rt: HostRuntime) {
    do_task(&rt, rt.alloc(), Task::ExactRoom);
}

#[test]
fn a_refused_smaller_block_is_asked_for_again(rt: HostRuntime) {
    do_task(&rt, rt.alloc(), Task::SmallerBlock);
}

#[test]
fn a_refused_comparison_is_made_again(rt: HostRuntime) {
    do_task(&rt, rt.alloc(), Task::Comparison);
}

#[test]
fn a_reduction_needs_no_memory_for_blocks(rt: HostRuntime) {
    compact(&rt, rt.alloc(), Scenario::ReductionByBlocks);
}
