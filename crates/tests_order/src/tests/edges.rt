use super::kept::Kept;
use super::random::Random;
use super::support::{holds, lists, same};
use daggy_base::index::NodeIndex;
use std::process::Abort;

// Asserts whether an order can be updated for an edge, after how many looks at most, and what it is
// then.
fn tries(
    rt: &impl Abort,
    kept: &mut Kept,
    ends: (usize, usize),
    wanted: bool,
    most: usize,
    order: &[usize],
) {
    let (a, b) = ends;
    holds(rt, a < 255 && b < 255);
    let _before = kept.graph.looks();
    let fine = kept.makes_way(rt, NodeIndex::new(a), NodeIndex::new(b));
    same(rt, fine, wanted);
    holds(rt, kept.graph.looks() <= most);
    lists(rt, &kept.order, order);
}

// Asserts whether an edge is added, which it is unless the plain search says that it closes a
// cycle.
fn agrees(rt: &impl Abort, kept: &mut Kept, a: NodeIndex<u8>, b: NodeIndex<u8>) {
    let closes = kept.reaches(b, a);
    same(rt, kept.reaches_in(b, a), closes);
    let added = kept.add_edge(rt, a, b);
    same(rt, added, !closes);
    if added {
        holds(rt, kept.order.holds(a) && kept.order.holds(b));
        holds(rt, kept.order.stands_before(a, b));
    }
}

#[test]
fn an_order_makes_way_for_an_edge(rt: HostRuntime) {
    let mut kept = Kept::new(rt.alloc());
    for _ in 0..4 {
        let _n = kept.add_node(&rt, false);
    }
    holds(
        &rt,
        kept.add_edge(&rt, NodeIndex::new(0), NodeIndex::new(1)),
    );
    holds(
        &rt,
        kept.add_edge(&rt, NodeIndex::new(2), NodeIndex::new(3)),
    );
    tries(&rt, &mut kept, (3, 0), true, 2, &[2, 3, 0, 1]);
    holds(
        &rt,
        kept.add_edge(&rt, NodeIndex::new(3), NodeIndex::new(0)),
    );
    tries(&rt, &mut kept, (1, 2), false, 3, &[2, 3, 0, 1]);
    tries(&rt, &mut kept, (2, 1), true, 0, &[2, 3, 0, 1]);
    tries(&rt, &mut kept, (1, 1), false, 0, &[2, 3, 0, 1]);
}

#[test]
fn groups_keep_their_order(rt: HostRuntime) {
    let mut kept = Kept::new(rt.alloc());
    for i in 0..6 {
        let _n = kept.add_node(&rt, i % 2 == 0);
    }
    lists(&rt, &kept.order, &[4, 2, 0, 1, 3, 5]);
    holds(
        &rt,
        kept.add_edge(&rt, NodeIndex::new(2), NodeIndex::new(1)),
    );
    tries(&rt, &mut kept, (3, 2), true, 1, &[4, 0, 3, 2, 1, 5]);
    tries(&rt, &mut kept, (5, 4), true, 0, &[0, 3, 2, 1, 5, 4]);
}

#[test]
fn an_order_answers_as_a_plain_search(rt: HostRuntime) {
    let mut random = Random::new(7);
    for round in 0..6 {
        let mut kept = Kept::new(rt.alloc());
        for i in 0..24 {
            let _n = kept.add_node(&rt, i % 3 == round % 3);
        }
        for _ in 0..110 {
            let a = NodeIndex::new(random.below(24));
            let b = NodeIndex::new(random.below(24));
            agrees(&rt, &mut kept, a, b);
        }
    }
}
