//! All weights of a stable dag that has vacant slots, written in a row.
use super::acts::{Act, TRIANGLE, play_stable, stable, stable_of};
use super::kinds::{Plain, Stable, StableTexts, TextDag, TextKind};
use super::support::{made, reads, same, text};
use daggy_base::index::Direction;
use daggy_dag::acyclic::Acyclic;
use std::alloc::Global;
use std::process::Abort;

// Removes the middle node of a triangle, so that the edge 1 alone is left.
const CUT_ROWS: &str = "remove_node 1 = weight 11";

const CUT: Act<'static> = Act::Rows(CUT_ROWS);

#[test]
fn weights_are_lent_past_vacant_slots(rt: HostRuntime) {
    const ACTS: &[Act<'static>] = &[
        CUT,
        Act::PutSecond(22, 30, (Some(10), Some(12), None), (Some(101), None, None)),
        Act::Rows(
            "
            weight 0 = weight 10
            weight 1 = nothing
            weight 2 = weight 22
            stored 1 = stored 0 2 101
            node 13 = node 1
        ",
        ),
    ];
    stable(&rt, rt.alloc(), TRIANGLE, ACTS);
}

#[test]
fn an_update_shows_what_is_in_no_vacant_slot(rt: HostRuntime) {
    const ROWS: &str = "
        weight 0 = weight 20
        weight 2 = weight 24
        stored 1 = stored 0 2 102
        edge 2 0 7 = cycle 7
    ";
    const ACTS: &[Act<'static>] = &[CUT, Act::Update(1012, 21), Act::Rows(ROWS)];
    stable(&rt, rt.alloc(), TRIANGLE, ACTS);
}

#[test]
fn closures_read_tables_of_the_bounds_of_a_stable_dag(rt: HostRuntime) {
    const ROWS: &str = "
        weight 0 = weight 5
        weight 2 = weight 7
        stored 1 = stored 0 2 9
    ";
    const ACTS: &[Act<'static>] = &[CUT, Act::Tables(&[5, 6, 7], &[8, 9], ROWS)];
    stable(&rt, rt.alloc(), TRIANGLE, ACTS);
}

// Makes the weight of each node greater by one than those of its parents together.
fn sum_parents(dag: &mut Plain<Stable>) {
    dag.recompute(|graph, n| {
        let mut sum = 1;
        for parent in graph.neighbors_directed(n, Direction::Incoming) {
            sum = graph
                .node_weight(parent)
                .copied()
                .unwrap_or(0)
                .wrapping_add(sum);
        }
        sum
    });
}

#[test]
fn weights_of_a_stable_dag_are_recomputed_from_those_of_parents(rt: HostRuntime) {
    const ROWS: &str = "
        weight 0 = weight 1
        weight 1 = nothing
        weight 2 = weight 2
        stored 1 = stored 0 2 101
    ";
    let mut dag = stable_of(&rt, rt.alloc(), TRIANGLE);
    play_stable(&rt, rt.alloc(), &mut dag, CUT_ROWS);
    sum_parents(&mut dag);
    play_stable(&rt, rt.alloc(), &mut dag, ROWS);
}

// The first node is removed again, so the second is the first that gets a text. The edge from it
// loses its own.
fn write_texts<S: TextKind>(rt: &impl Abort, alloc: Global) {
    let mut dag: TextDag<S> = Acyclic::new(alloc);
    let gone = made(rt, dag.add_node(text(rt, alloc, "plough")));
    let a = made(rt, dag.add_node(text(rt, alloc, "sow")));
    let (then, reap) = (text(rt, alloc, "then"), text(rt, alloc, "reap"));
    let (e, b) = made(rt, dag.add_child(a, then, reap));
    same(rt, dag.remove_node(gone).is_some(), true);
    S::rewrite(&mut dag, text(rt, alloc, "wait"));
    reads(rt, dag.node_weight(a), "wait");
    reads(rt, dag.node_weight(b), "reap");
    reads(rt, dag.edge_weight(e), "");
}

#[test]
fn texts_of_a_stable_dag_are_written(rt: HostRuntime) {
    write_texts::<StableTexts>(&rt, rt.alloc());
}
