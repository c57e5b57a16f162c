//! Removals from a compact dag, and what both kinds answer afterwards.
use super::table::{Scene, both, compact};

#[test]
fn removing_a_node_moves_the_last_one(rt: HostRuntime) {
    const ROWS: &str = "
        node 10 = node 0
        node 20 = node 1
        node 30 = node 2
        edges 0 1 0, 1 2 1, 0 2 2 = edges 0 1 2
        remove_node 0 = weight 10
        counts = counts 2 1
        weight 0 = weight 30
        weight 1 = weight 20
        stored 0 = stored 1 0 1
    ";
    compact(&rt, rt.alloc(), Scene::Rows(ROWS));
}

#[test]
fn removing_an_edge_keeps_the_order_of_lists(rt: HostRuntime) {
    const ROWS: &str = "
        node 10 = node 0
        node 20 = node 1
        node 30 = node 2
        edges 0 1 0, 0 2 1, 0 1 2 = edges 0 1 2
        remove_edge 0 = weight 0
        children 0 = walk 0 1, 1 2
        find 0 1 = edge 0
        stored 0 = stored 0 1 2
    ";
    compact(&rt, rt.alloc(), Scene::Rows(ROWS));
}

#[test]
fn parents_follow_a_removal(rt: HostRuntime) {
    const ROWS: &str = "
        node 10 = node 0
        node 20 = node 1
        node 30 = node 2
        edges 0 1 0, 0 2 1, 1 2 2 = edges 0 1 2
        parents 2 = walk 2 1, 1 0
        remove_edge 0 = weight 0
        stored 0 = stored 1 2 2
        stored 1 = stored 0 2 1
        parents 2 = walk 0 1, 1 0
    ";
    compact(&rt, rt.alloc(), Scene::Rows(ROWS));
}

#[test]
fn an_edge_back_is_accepted_once_the_path_is_gone(rt: HostRuntime) {
    const ROWS: &str = "
        node 10 = node 0
        node 20 = node 1
        node 30 = node 2
        edges 0 1 0, 1 2 1 = edges 0 1
        edge 2 0 7 = cycle 7
        remove_node 1 = weight 20
        edge 1 0 7 = edge 0
    ";
    compact(&rt, rt.alloc(), Scene::Rows(ROWS));
}

#[test]
fn a_dag_is_cleared(rt: HostRuntime) {
    const ROWS: &str = "
        node 10 = node 0
        node 30 = node 1
        edge 1 0 7 = edge 0
        clear_edges = done
        counts = counts 2 0
        edge 0 1 7 = edge 0
        clear = done
        counts = counts 0 0
        node 1 = node 0
    ";
    both(&rt, rt.alloc(), Scene::Rows(ROWS));
}
