//! Copies, maps and parts of a dag, and in which order their closures are called, and how often.
use super::acts::{Act, TRIANGLE, both, compact, stable};

#[test]
fn a_map_shows_each_node_and_then_each_edge(rt: HostRuntime) {
    const ACTS: &[Act<'static>] = &[
        Act::Map(
            101112202122,
            "
                counts = counts 3 3
                weight 0 = weight 10
                weight 1 = weight 12
                weight 2 = weight 14
                stored 0 = stored 0 1 100
                stored 1 = stored 0 2 102
                stored 2 = stored 1 2 104
                children 0 = walk 1 2, 0 1
                edge 2 0 9 = cycle 9
                edge 0 2 9 = edge 3
            ",
        ),
        Act::Rows(
            "
            counts = counts 3 3
            weight 1 = weight 11
            parents 2 = walk 2 1, 1 0
        ",
        ),
    ];
    both(&rt, rt.alloc(), TRIANGLE, ACTS);
}

#[test]
fn a_part_shows_each_node_and_then_each_edge(rt: HostRuntime) {
    const ACTS: &[Act<'static>] = &[Act::Part(
        99,
        101112202122,
        "
            counts = counts 3 3
            weight 2 = weight 12
            stored 1 = stored 0 2 101
            children 0 = walk 1 2, 0 1
        ",
    )];
    both(&rt, rt.alloc(), TRIANGLE, ACTS);
}

#[test]
fn a_part_shows_no_edge_that_loses_an_end(rt: HostRuntime) {
    const ACTS: &[Act<'static>] = &[Act::Part(
        10,
        10111222,
        "
            counts = counts 2 1
            weight 0 = weight 11
            weight 1 = weight 12
            stored 0 = stored 0 1 102
        ",
    )];
    compact(&rt, rt.alloc(), TRIANGLE, ACTS);
}

#[test]
fn a_part_of_a_stable_dag_keeps_its_indices(rt: HostRuntime) {
    const ACTS: &[Act<'static>] = &[Act::Part(
        10,
        10111222,
        "
            counts = counts 2 1
            weight 1 = weight 11
            weight 2 = weight 12
            stored 2 = stored 1 2 102
            node 13 = node 0
            edge 0 1 3 = edge 1
        ",
    )];
    stable(&rt, rt.alloc(), TRIANGLE, ACTS);
}

// The nodes 0, 1 and 3, and the edges 0 and 2 between them.
const GAPPY: &str = "
    node 10 = node 0
    node 11 = node 1
    node 12 = node 2
    node 13 = node 3
    edges 0 1 100, 1 2 101, 1 3 102 = edges 0 1 2
    remove_node 2 = weight 12
";

#[test]
fn no_closure_is_shown_a_vacant_slot(rt: HostRuntime) {
    const ACTS: &[Act<'static>] = &[
        Act::Map(
            1011132022,
            "
                counts = counts 3 2
                weight 0 = weight 10
                weight 1 = weight 12
                weight 3 = weight 16
                stored 0 = stored 0 1 100
                stored 2 = stored 1 3 104
                node 0 = node 2
            ",
        ),
        Act::Part(
            10,
            10111322,
            "
                counts = counts 2 1
                weight 1 = weight 11
                weight 3 = weight 13
                stored 2 = stored 1 3 102
            ",
        ),
    ];
    stable(&rt, rt.alloc(), GAPPY, ACTS);
}

#[test]
fn a_copy_keeps_the_order_of_lists(rt: HostRuntime) {
    const ROWS: &str = "
        node 10 = node 0
        node 11 = node 1
        node 12 = node 2
        edges 0 1 100, 0 2 101, 0 1 102 = edges 0 1 2
        remove_edge 0 = weight 100
    ";
    const ACTS: &[Act<'static>] = &[
        Act::Copy(
            "
            children 0 = walk 0 1, 1 2
            stored 0 = stored 0 1 102
            edge 1 2 7 = edge 2
            edge 2 0 8 = cycle 8
        ",
        ),
        Act::Rows("counts = counts 3 2"),
    ];
    compact(&rt, rt.alloc(), ROWS, ACTS);
}

#[test]
fn a_copy_has_the_same_vacant_slots(rt: HostRuntime) {
    const ROWS: &str = "
        node 10 = node 0
        node 11 = node 1
        node 12 = node 2
        node 13 = node 3
        edges 0 3 0, 0 3 1, 0 3 2 = edges 0 1 2
        remove_edge 0 = weight 0
        remove_edge 2 = weight 2
        remove_node 2 = weight 12
        remove_node 1 = weight 11
    ";
    const ACTS: &[Act<'static>] = &[
        Act::Copy(
            "
            counts = counts 2 1
            stored 1 = stored 0 3 1
            edge 0 3 9 = edge 2
            edge 0 3 9 = edge 0
            node 9 = node 1
            node 9 = node 2
        ",
        ),
        Act::Rows("counts = counts 2 1"),
    ];
    stable(&rt, rt.alloc(), ROWS, ACTS);
}

// From each node an edge leads to the one before it.
const CHAIN: &str = "
    node 10 = node 0
    node 11 = node 1
    node 12 = node 2
    node 13 = node 3
    edge 2 1 20 = edge 0
    edge 1 0 21 = edge 1
    edge 3 2 22 = edge 2
    order = nodes 3 2 1 0
";

#[test]
fn copies_and_parts_are_ordered_alike(rt: HostRuntime) {
    const ROWS: &str = "order = nodes 3 2 1 0";
    const ACTS: &[Act<'static>] = &[Act::Copy(ROWS), Act::Map(10111213202122, ROWS)];
    const COMPACT_PART: &str = "order = nodes 2 1 0";
    const COMPACT_ACTS: &[Act<'static>] = &[Act::Part(10, 101112132022, COMPACT_PART)];
    const STABLE_PART: &str = "order = nodes 3 2 1";
    const STABLE_ACTS: &[Act<'static>] = &[Act::Part(10, 101112132022, STABLE_PART)];
    both(&rt, rt.alloc(), CHAIN, ACTS);
    compact(&rt, rt.alloc(), CHAIN, COMPACT_ACTS);
    stable(&rt, rt.alloc(), CHAIN, STABLE_ACTS);
}

#[test]
fn closures_read_tables_of_the_size_of_a_stable_dag(rt: HostRuntime) {
    const ACTS: &[Act<'static>] = &[
        Act::Rows("remove_edge 1 = weight 101"),
        Act::Tables(
            &[5, 6, 7],
            &[8, 9, 10],
            "
                weight 0 = weight 5
                weight 2 = weight 7
                stored 2 = stored 1 2 10
                edge 0 1 3 = edge 1
            ",
        ),
    ];
    stable(&rt, rt.alloc(), TRIANGLE, ACTS);
}
