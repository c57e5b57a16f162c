//! Single additions and updates, in both kinds.
use super::table::{Scene, both};

#[test]
fn a_new_dag_is_empty(rt: HostRuntime) {
    const ROWS: &str = "
        counts = counts 0 0
        children 0 = walk
        parents 0 = walk
        weight 0 = nothing
        stored 0 = nothing
        remove_edge 0 = nothing
        remove_node 0 = nothing
        node 5 = node 0
        weight 0 = weight 5
        counts = counts 1 0
    ";
    both(&rt, rt.alloc(), Scene::Rows(ROWS));
}

#[test]
fn an_edge_from_a_node_to_itself_is_refused(rt: HostRuntime) {
    const ROWS: &str = "
        node 1 = node 0
        edge 0 0 9 = cycle 9
        counts = counts 1 0
    ";
    both(&rt, rt.alloc(), Scene::Rows(ROWS));
}

#[test]
fn children_come_newest_first(rt: HostRuntime) {
    const ROWS: &str = "
        node 0 = node 0
        child 0 1 1 = edge_node 0 1
        child 0 2 2 = edge_node 1 2
        child 0 3 3 = edge_node 2 3
        children 0 = walk 2 3, 1 2, 0 1
        child 2 4 4 = edge_node 3 4
        child 2 5 5 = edge_node 4 5
        children 2 = walk 4 5, 3 4
        children 0 = walk 2 3, 1 2, 0 1
        children 1 = walk
    ";
    both(&rt, rt.alloc(), Scene::Rows(ROWS));
}

#[test]
fn parents_come_newest_first(rt: HostRuntime) {
    const ROWS: &str = "
        node 0 = node 0
        parent 0 1 1 = edge_node 0 1
        parent 0 2 2 = edge_node 1 2
        parent 0 3 3 = edge_node 2 3
        parent 0 4 4 = edge_node 3 4
        parents 0 = walk 3 4, 2 3, 1 2, 0 1
    ";
    both(&rt, rt.alloc(), Scene::Rows(ROWS));
}

#[test]
fn an_edge_back_along_a_path_is_refused(rt: HostRuntime) {
    const ROWS: &str = "
        node 0 = node 0
        node 0 = node 1
        node 0 = node 2
        node 0 = node 3
        edge 0 1 0 = edge 0
        edge 1 2 1 = edge 1
        edge 0 3 2 = edge 2
        edge 3 0 3 = cycle 3
        edge 2 0 4 = cycle 4
        counts = counts 4 3
        edge 2 3 5 = edge 3
    ";
    both(&rt, rt.alloc(), Scene::Rows(ROWS));
}

#[test]
fn the_newest_of_parallel_edges_is_found_and_updated(rt: HostRuntime) {
    const ROWS: &str = "
        node 10 = node 0
        node 11 = node 1
        edge 0 1 1 = edge 0
        edge 0 1 2 = edge 1
        find 0 1 = edge 1
        find 1 0 = nothing
        find 9 0 = nothing
        stored 1 = stored 0 1 2
        update 0 1 9 = edge 1
        stored 0 = stored 0 1 1
        stored 1 = stored 0 1 9
        counts = counts 2 2
    ";
    both(&rt, rt.alloc(), Scene::Rows(ROWS));
}

#[test]
fn updating_adds_an_edge_or_refuses_a_cycle(rt: HostRuntime) {
    const ROWS: &str = "
        node 10 = node 0
        node 11 = node 1
        update 0 1 4 = edge 0
        update 1 0 5 = cycle 5
        update 1 1 6 = cycle 6
        stored 0 = stored 0 1 4
        counts = counts 2 1
    ";
    both(&rt, rt.alloc(), Scene::Rows(ROWS));
}

#[test]
fn bytes_number_255_edges(rt: HostRuntime) {
    const ROWS: &str = "
        nodes 2 = done
        fill 0 1 = done
        counts = counts 2 255
        find 0 1 = edge 254
        # A joined pair needs no index.
        update 0 1 9 = edge 254
        stored 254 = stored 0 1 9
        edges 0 1 1 = no_index_at 1
        # A missing node is reported before a missing index.
        edges 9 9 1 = no_end_at 1
        remove_edge 254 = weight 9
        # The second item finds no index, and also closes a cycle.
        edges 0 1 5, 1 0 6 = no_index_at 6 5
        counts = counts 2 254
        edges 0 1 5 = edges 254
    ";
    both(&rt, rt.alloc(), Scene::Rows(ROWS));
}

#[test]
fn bytes_number_255_nodes(rt: HostRuntime) {
    const ROWS: &str = "
        nodes 255 = done
        extend 0 255 1 = no_index 1
        counts = counts 255 0
        extend 0 254 2 = done
        stored 0 = stored 0 254 2
        remove_node 254 = weight 254
        node 300 = node 254
    ";
    both(&rt, rt.alloc(), Scene::Rows(ROWS));
}
