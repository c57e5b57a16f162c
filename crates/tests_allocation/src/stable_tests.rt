//! The calls of the stable dag.
use crate::again::fan;
use crate::observed::is_fan;
use crate::scenarios::{Scenario, Way, stable};
use crate::support::{Compact, Plain, answered, made, refuse};
use daggy::StableDag;

#[test]
fn a_refused_node_or_edge_comes_back(rt: HostRuntime) {
    stable(&rt, rt.alloc(), Scenario::NodesAndEdges);
}

#[test]
fn a_refused_update_comes_back(rt: HostRuntime) {
    stable(&rt, rt.alloc(), Scenario::Updates);
}

#[test]
fn a_refused_parallel_edge_comes_back(rt: HostRuntime) {
    stable(&rt, rt.alloc(), Scenario::ParallelEdges);
}

#[test]
fn a_refused_child_comes_back_with_its_edge(rt: HostRuntime) {
    stable(&rt, rt.alloc(), Scenario::Children);
}

#[test]
fn a_refused_parent_comes_back_with_its_edge(rt: HostRuntime) {
    stable(&rt, rt.alloc(), Scenario::Parents);
}

#[test]
fn refused_parents_come_back_as_they_were(rt: HostRuntime) {
    stable(&rt, rt.alloc(), Scenario::ParentsSet);
}

#[test]
fn a_refused_series_comes_back_whole(rt: HostRuntime) {
    stable(&rt, rt.alloc(), Scenario::Series);
}

#[test]
fn a_long_series_is_sorted_where_memory_is_refused(rt: HostRuntime) {
    stable(&rt, rt.alloc(), Scenario::LongSeries);
}

#[test]
fn nodes_stay_reserved_behind_a_long_series(rt: HostRuntime) {
    stable(&rt, rt.alloc(), Scenario::ReservedNodes);
}

#[test]
fn a_refused_extension_keeps_what_it_made(rt: HostRuntime) {
    stable(&rt, rt.alloc(), Scenario::Extension);
}

#[test]
fn a_dag_of_edges_is_made_or_its_weight_comes_back(rt: HostRuntime) {
    stable(&rt, rt.alloc(), Scenario::OfEdges);
}

#[test]
fn a_dag_of_elements_is_made_or_their_weight_comes_back(rt: HostRuntime) {
    stable(&rt, rt.alloc(), Scenario::OfElements);
}

#[test]
fn a_dag_of_slots_is_made_again(rt: HostRuntime) {
    stable(&rt, rt.alloc(), Scenario::OfSlots);
}

#[test]
fn a_refused_reduction_removes_nothing(rt: HostRuntime) {
    stable(&rt, rt.alloc(), Scenario::Reduction);
}

#[test]
fn a_refused_copy_is_made_again(rt: HostRuntime) {
    stable(&rt, rt.alloc(), Scenario::Copies(Way::Copy));
}

#[test]
fn a_refused_map_calls_no_closure(rt: HostRuntime) {
    stable(&rt, rt.alloc(), Scenario::Copies(Way::Map));
}

#[test]
fn a_refused_part_calls_no_closure(rt: HostRuntime) {
    stable(&rt, rt.alloc(), Scenario::Copies(Way::Part));
}

#[test]
fn refused_capacity_is_asked_again(rt: HostRuntime) {
    stable(&rt, rt.alloc(), Scenario::Capacity);
}

#[test]
fn refused_sets_and_matrices_are_asked_again(rt: HostRuntime) {
    stable(&rt, rt.alloc(), Scenario::Sets);
}

#[test]
fn refused_questions_are_asked_again(rt: HostRuntime) {
    stable(&rt, rt.alloc(), Scenario::Queries);
}

#[test]
fn faults_are_told_or_the_refusal(rt: HostRuntime) {
    stable(&rt, rt.alloc(), Scenario::Faults);
}

#[test]
fn a_compact_dag_becomes_a_stable_one_or_comes_back(rt: HostRuntime) {
    let mut refused = false;
    let dag: Plain<Compact> = fan(&rt, rt.alloc(), 1, &mut refused);
    let whole = match StableDag::from_dag(dag) {
        Ok(whole) => whole,
        Err(back) => {
            refuse(&rt, &mut refused);
            is_fan(&rt, &back, 1, false);
            made(&rt, StableDag::from_dag(back))
        }
    };
    is_fan(&rt, &whole, 1, false);
    answered(&rt, refused);
}

#[test]
fn a_reduction_needs_no_memory_for_blocks(rt: HostRuntime) {
    stable(&rt, rt.alloc(), Scenario::ReductionByBlocks);
}
