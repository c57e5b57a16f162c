//! Weights that are read and written in place.
use super::table::{Scene, both, stable};

#[test]
fn weights_are_written_where_they_are_lent(rt: HostRuntime) {
    const ROWS: &str = "
        node 1 = node 0
        child 0 2 3 = edge_node 0 1
        lend_node 1 30 = done
        lend_edge 0 20 = done
        lend_node 2 40 = nothing
        lend_edge 1 40 = nothing
        weight 0 = weight 1
        weight 1 = weight 30
        stored 0 = stored 0 1 20
    ";
    both(&rt, rt.alloc(), Scene::Rows(ROWS));
}

#[test]
fn weights_are_read_and_written_by_index(rt: HostRuntime) {
    const ROWS: &str = "
        node 1 = node 0
        child 0 2 3 = edge_node 0 1
        index_node 0 100 = weight 100
        index_edge 0 200 = weight 200
        weight 0 = weight 100
        weight 1 = weight 3
        stored 0 = stored 0 1 200
    ";
    both(&rt, rt.alloc(), Scene::Rows(ROWS));
}

#[test]
fn a_vacant_slot_lends_no_weight(rt: HostRuntime) {
    const ROWS: &str = "
        node 10 = node 0
        child 0 100 11 = edge_node 0 1
        child 0 101 12 = edge_node 1 2
        remove_node 1 = weight 11
        lend_node 1 1 = nothing
        lend_edge 0 1 = nothing
        lend_node 2 1 = done
        lend_edge 1 2 = done
        index_node 0 3 = weight 3
        weight 2 = weight 1
        stored 1 = stored 0 2 2
    ";
    stable(&rt, rt.alloc(), Scene::Rows(ROWS));
}
