//! Iterators over all of a graph and over the lists of a node, of the dag.
use super::acts::{Act, TRIANGLE, both, stable, stable_of};
use super::kinds::{Plain, Stable};
use super::script::Answer;
use super::support::{holds, same, shows};
use super::table::{self, Scene};
use daggy_base::index::Direction;
use std::process::Abort;

#[test]
fn all_nodes_and_edges_of_a_dag_are_gone_through(rt: HostRuntime) {
    const ACTS: &[Act<'static>] = &[Act::Through(
        &[(0, 10), (1, 11), (2, 12)],
        &[(0, 0, 1, 100), (1, 0, 2, 101), (2, 1, 2, 102)],
    )];
    both(&rt, rt.alloc(), TRIANGLE, ACTS);
}

#[test]
fn vacant_slots_are_passed_over(rt: HostRuntime) {
    const ACTS: &[Act<'static>] = &[
        Act::Rows("remove_node 1 = weight 11"),
        Act::Through(&[(0, 10), (2, 12)], &[(1, 0, 2, 101)]),
    ];
    stable(&rt, rt.alloc(), TRIANGLE, ACTS);
}

#[test]
fn lists_of_a_dag_are_gone_through(rt: HostRuntime) {
    const ACTS: &[Act<'static>] = &[
        Act::Along(0, None, &[2, 1], &[(1, 0, 2, 101), (0, 0, 1, 100)]),
        Act::Along(
            2,
            Some(Direction::Incoming),
            &[1, 0],
            &[(2, 1, 2, 102), (1, 0, 2, 101)],
        ),
        Act::Along(
            0,
            Some(Direction::Outgoing),
            &[2, 1],
            &[(1, 0, 2, 101), (0, 0, 1, 100)],
        ),
        Act::Along(9, None, &[], &[]),
    ];
    both(&rt, rt.alloc(), TRIANGLE, ACTS);
}

#[test]
fn edges_from_one_node_to_another_are_gone_through(rt: HostRuntime) {
    const ROWS: &str = "
        connecting 0 1 = walk 0 1
        edge 0 1 7 = edge 3
        edge 0 1 8 = edge 4
        connecting 0 1 = walk 4 1, 3 1, 0 1
        connecting 0 2 = walk 1 2
        connecting 1 0 = walk
        connecting 9 1 = walk
        connecting 0 9 = walk
        remove_edge 4 = weight 8
        connecting 0 1 = walk 3 1, 0 1
        clear = done
        connecting 0 1 = walk
    ";
    table::both(&rt, rt.alloc(), Scene::Twice(TRIANGLE, ROWS));
}

fn tells_slots(rt: &impl Abort, dag: &Plain<Stable>) {
    same(rt, dag.node_references().size_hint(), (0, Some(3)));
    same(rt, dag.edge_references().size_hint(), (0, Some(3)));
}

#[test]
fn a_stable_dag_tells_how_many_slots_may_follow(rt: HostRuntime) {
    const ROWS: &str = "
        node 10 = node 0
        node 11 = node 1
        node 12 = node 2
        edges 0 1 100, 0 2 101, 1 2 102 = edges 0 1 2
        remove_node 1 = weight 11
    ";
    let dag = stable_of(&rt, rt.alloc(), ROWS);
    tells_slots(&rt, &dag);
    let wanted = "Dag { graph: StableDiGraph { node_count: 2, edge_count: 1 } }";
    shows(&rt, rt.alloc(), &dag, wanted);
}

#[test]
fn roots_and_leaves_are_found(rt: HostRuntime) {
    const ROWS: &str = "
        externals_incoming = nodes 0
        externals_outgoing = nodes 2
        clear_edges = done
        externals_incoming = nodes 0 1 2
        clear = done
        externals_incoming = nodes
    ";
    holds(&rt, Direction::Outgoing.opposite() == Direction::Incoming);
    table::both(
        &rt,
        rt.alloc(),
        Scene::OfPairs(&[(0, 1), (0, 2), (1, 2)], Answer::Done, ROWS),
    );
}

#[test]
fn a_vacant_slot_is_no_root(rt: HostRuntime) {
    const ROWS: &str = "
        remove_node 0 = weight 0
        externals_incoming = nodes 1
    ";
    table::stable(
        &rt,
        rt.alloc(),
        Scene::OfPairs(&[(0, 1), (0, 2), (1, 2)], Answer::Done, ROWS),
    );
}
