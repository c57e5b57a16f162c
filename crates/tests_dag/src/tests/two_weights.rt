//! Two weights that are written at once.
use super::acts::{Act, both, stable};

#[test]
fn two_weights_are_written_in_either_order(rt: HostRuntime) {
    const ROWS: &str = "
        node 10 = node 0
        node 11 = node 1
        edges 0 1 30, 0 1 31 = edges 0 1
    ";
    const ACTS: &[Act<'static>] = &[
        Act::RaiseNodes(0, 1, 10),
        Act::RaiseNodes(1, 0, 211),
        Act::RaiseEdges(0, 1, 30),
        Act::RaiseEdges(1, 0, 231),
        Act::RaiseBoth(1, 0, 311),
        Act::Rows(
            "
            weight 0 = weight 310
            weight 1 = weight 411
            stored 0 = stored 0 1 530
            stored 1 = stored 0 1 331
        ",
        ),
    ];
    both(&rt, rt.alloc(), ROWS, ACTS);
}

#[test]
fn two_weights_are_written_beside_vacant_slots(rt: HostRuntime) {
    const ROWS: &str = "
        node 10 = node 0
        node 11 = node 1
        node 12 = node 2
        node 13 = node 3
        edges 0 1 30, 0 2 31, 0 3 32 = edges 0 1 2
        remove_node 2 = weight 12
    ";
    const ACTS: &[Act<'static>] = &[
        Act::RaiseNodes(0, 3, 10),
        Act::RaiseEdges(2, 0, 32),
        Act::RaiseBoth(3, 0, 213),
        Act::Rows(
            "
            weight 0 = weight 110
            weight 1 = weight 11
            weight 3 = weight 313
            stored 0 = stored 0 1 430
            stored 2 = stored 0 3 132
            node 20 = node 2
            edge 0 3 200 = edge 1
        ",
        ),
    ];
    stable(&rt, rt.alloc(), ROWS, ACTS);
}
