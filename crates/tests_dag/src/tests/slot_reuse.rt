//! Which slots of a stable dag are vacated, and reused.
use super::table::{Scene, stable};

#[test]
fn other_nodes_keep_their_indices(rt: HostRuntime) {
    const ROWS: &str = "
        node 10 = node 0
        node 11 = node 1
        node 12 = node 2
        node 13 = node 3
        remove_node 2 = weight 12
        counts = counts 3 0
        weight 3 = weight 13
        weight 2 = nothing
        remove_node 2 = nothing
    ";
    stable(&rt, rt.alloc(), Scene::Rows(ROWS));
}

#[test]
fn other_edges_keep_their_indices(rt: HostRuntime) {
    const ROWS: &str = "
        node 10 = node 0
        node 11 = node 1
        node 12 = node 2
        node 13 = node 3
        edges 0 1 0, 0 2 1, 0 3 2 = edges 0 1 2
        remove_edge 1 = weight 1
        stored 0 = stored 0 1 0
        stored 1 = nothing
        stored 2 = stored 0 3 2
        children 0 = walk 2 3, 0 1
    ";
    stable(&rt, rt.alloc(), Scene::Rows(ROWS));
}

#[test]
fn the_slot_vacated_last_comes_first(rt: HostRuntime) {
    const ROWS: &str = "
        node 10 = node 0
        node 11 = node 1
        node 12 = node 2
        node 13 = node 3
        remove_node 1 = weight 11
        remove_node 3 = weight 13
        node 20 = node 3
        node 21 = node 1
        node 22 = node 4
    ";
    stable(&rt, rt.alloc(), Scene::Rows(ROWS));
}

#[test]
fn a_middle_node_goes_with_its_edges(rt: HostRuntime) {
    const ROWS: &str = "
        node 10 = node 0
        node 11 = node 1
        node 12 = node 2
        edges 0 1 100, 1 2 101, 0 2 102 = edges 0 1 2
        remove_node 1 = weight 11
        counts = counts 2 1
        edge 0 2 1 = edge 0
        edge 0 2 2 = edge 1
        edge 0 2 3 = edge 3
        node 4 = node 1
    ";
    stable(&rt, rt.alloc(), Scene::Rows(ROWS));
}

#[test]
fn clearing_forgets_vacant_slots(rt: HostRuntime) {
    const ROWS: &str = "
        node 10 = node 0
        node 11 = node 1
        node 12 = node 2
        edges 0 1 100, 1 2 101, 0 2 102 = edges 0 1 2
        remove_node 1 = weight 11
        clear_edges = done
        counts = counts 2 0
        edge 0 2 6 = edge 0
        node 7 = node 1
        clear = done
        counts = counts 0 0
        node 8 = node 0
    ";
    stable(&rt, rt.alloc(), Scene::Rows(ROWS));
}

#[test]
fn an_update_takes_the_vacant_slot(rt: HostRuntime) {
    const ROWS: &str = "
        node 10 = node 0
        node 11 = node 1
        node 12 = node 2
        edges 0 1 100, 1 2 101, 0 2 102 = edges 0 1 2
        remove_edge 1 = weight 101
        update 0 2 7 = edge 2
        counts = counts 3 2
        update 2 0 8 = cycle 8
        update 1 2 9 = edge 1
        find 1 2 = edge 1
        find 2 1 = nothing
    ";
    stable(&rt, rt.alloc(), Scene::Rows(ROWS));
}

#[test]
fn a_child_takes_vacant_slots(rt: HostRuntime) {
    const ROWS: &str = "
        node 10 = node 0
        node 11 = node 1
        node 12 = node 2
        edges 0 1 100, 1 2 101, 0 2 102 = edges 0 1 2
        remove_node 1 = weight 11
        child 2 5 6 = edge_node 0 1
        edge 1 0 7 = cycle 7
    ";
    stable(&rt, rt.alloc(), Scene::Rows(ROWS));
}

#[test]
fn an_edge_back_is_accepted_once_the_path_is_gone(rt: HostRuntime) {
    const ROWS: &str = "
        node 10 = node 0
        node 11 = node 1
        node 12 = node 2
        edges 0 1 100, 1 2 101, 0 2 102 = edges 0 1 2
        edge 2 0 9 = cycle 9
        remove_node 1 = weight 11
        remove_edge 2 = weight 102
        edge 2 0 9 = edge 2
    ";
    stable(&rt, rt.alloc(), Scene::Rows(ROWS));
}

#[test]
fn a_refused_series_vacates_in_the_old_order(rt: HostRuntime) {
    const ROWS: &str = "
        node 10 = node 0
        node 11 = node 1
        node 12 = node 2
        edges 0 1 3, 1 2 4 = edges 0 1
        remove_edge 0 = weight 3
        edges 0 1 5, 2 0 6 = cycle_all 6 5
        counts = counts 3 1
        edge 0 1 5 = edge 0
        edge 0 2 6 = edge 2
    ";
    stable(&rt, rt.alloc(), Scene::Rows(ROWS));
}

#[test]
fn a_series_takes_the_vacant_slot(rt: HostRuntime) {
    const ROWS: &str = "
        node 10 = node 0
        node 11 = node 1
        node 12 = node 2
        edges 0 1 3, 1 2 4 = edges 0 1
        remove_edge 0 = weight 3
        edges 0 2 7 = edges 0
        stored 0 = stored 0 2 7
        stored 1 = stored 1 2 4
    ";
    stable(&rt, rt.alloc(), Scene::Rows(ROWS));
}

#[test]
fn a_vacant_end_is_no_end(rt: HostRuntime) {
    const ROWS: &str = "
        node 10 = node 0
        node 11 = node 1
        node 12 = node 2
        remove_node 1 = weight 11
        edges 0 2 1, 0 1 2 = no_end_at 2 1
        counts = counts 2 0
        extend 0 1 0 = no_end 0
        counts = counts 2 0
        # A node is made as long as there are no more nodes than the greater index.
        extend 1 2 0 = done
        weight 1 = weight 0
        weight 2 = weight 12
        stored 0 = stored 1 2 0
    ";
    stable(&rt, rt.alloc(), Scene::Rows(ROWS));
}
