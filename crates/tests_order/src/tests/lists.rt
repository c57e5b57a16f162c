use super::support::{holds, lists, made, same};
use daggy_base::index::NodeIndex;
use daggy_order::order::Order;
use std::process::Abort;

fn push(rt: &impl Abort, order: &mut Order<u8>, n: usize, first: bool) {
    holds(rt, n < 255);
    let n = NodeIndex::new(n);
    holds(rt, !order.holds(n));
    if first {
        made(rt, order.push_first(n));
    } else {
        made(rt, order.push(n));
    }
}

fn remove(rt: &impl Abort, order: &mut Order<u8>, n: usize) {
    holds(rt, n < 255);
    let n = NodeIndex::new(n);
    holds(rt, order.holds(n));
    order.remove(n);
}

fn rename(rt: &impl Abort, order: &mut Order<u8>, n: usize, m: usize) {
    holds(rt, m <= n && n < 255);
    let (n, m) = (NodeIndex::new(n), NodeIndex::new(m));
    holds(rt, order.holds(n));
    holds(rt, !order.holds(m));
    order.rename(n, m);
}

fn move_first(rt: &impl Abort, order: &mut Order<u8>, n: usize) {
    holds(rt, n < 255);
    let n = NodeIndex::new(n);
    holds(rt, order.holds(n));
    order.move_first(n);
}

fn move_before(rt: &impl Abort, order: &mut Order<u8>, n: usize, m: usize) {
    holds(rt, n < 255 && m < 255 && n != m);
    let (n, m) = (NodeIndex::new(n), NodeIndex::new(m));
    holds(rt, order.holds(n));
    holds(rt, order.holds(m));
    order.move_before(n, m);
}

#[test]
fn nodes_come_and_go(rt: HostRuntime) {
    let mut order: Order<u8> = Order::new(rt.alloc());
    lists(&rt, &order, &[]);
    for (n, first) in [(3, false), (5, false), (0, true), (7, true), (2, false)] {
        push(&rt, &mut order, n, first);
    }
    lists(&rt, &order, &[7, 0, 3, 5, 2]);
    remove(&rt, &mut order, 3);
    remove(&rt, &mut order, 7);
    lists(&rt, &order, &[0, 5, 2]);
    rename(&rt, &mut order, 5, 3);
    push(&rt, &mut order, 7, true);
    lists(&rt, &order, &[7, 0, 3, 2]);
}

#[test]
fn a_copy_goes_its_own_way(rt: HostRuntime) {
    let mut order: Order<u8> = Order::new(rt.alloc());
    for n in [4, 1, 6] {
        push(&rt, &mut order, n, false);
    }
    remove(&rt, &mut order, 1);
    let copy = made(&rt, order.try_clone());
    push(&rt, &mut order, 9, false);
    lists(&rt, &copy, &[4, 6]);
    lists(&rt, &order, &[4, 6, 9]);
    order.clear();
    lists(&rt, &order, &[]);
    lists(&rt, &copy, &[4, 6]);
}

#[test]
fn nodes_in_turn_are_written_when_the_list_changes(rt: HostRuntime) {
    let mut order: Order<u8> = Order::new(rt.alloc());
    for n in 0..6 {
        push(&rt, &mut order, n, false);
    }
    remove(&rt, &mut order, 5);
    let copy = made(&rt, order.try_clone());
    lists(&rt, &copy, &[0, 1, 2, 3, 4]);
    remove(&rt, &mut order, 2);
    push(&rt, &mut order, 5, false);
    push(&rt, &mut order, 6, false);
    lists(&rt, &order, &[0, 1, 3, 4, 5, 6]);
    rename(&rt, &mut order, 6, 2);
    push(&rt, &mut order, 9, false);
    push(&rt, &mut order, 10, false);
    lists(&rt, &order, &[0, 1, 3, 4, 5, 2, 9, 10]);
    push(&rt, &mut order, 7, true);
    lists(&rt, &order, &[7, 0, 1, 3, 4, 5, 2, 9, 10]);
    lists(&rt, &copy, &[0, 1, 2, 3, 4]);
}

#[test]
fn many_nodes_are_taken_out(rt: HostRuntime) {
    let mut order: Order<u8> = Order::new(rt.alloc());
    for n in 0..200 {
        push(&rt, &mut order, n, n % 2 == 0);
    }
    for n in 0..197 {
        remove(&rt, &mut order, n);
    }
    lists(&rt, &order, &[198, 197, 199]);
}

// The index of a node that was read, if there was one.
fn index(n: Option<NodeIndex<u8>>) -> Option<usize> {
    match n {
        Some(n) => Some(n.index()),
        None => None,
    }
}

#[test]
fn nodes_are_read_from_both_ends(rt: HostRuntime) {
    let mut order: Order<u8> = Order::new(rt.alloc());
    // Five nodes are linked, and a run of two follows them.
    for n in [3, 0, 5, 1, 4, 6, 7] {
        push(&rt, &mut order, n, false);
    }
    let mut nodes = order.nodes();
    for (first, last) in [(3, 7), (0, 6), (5, 4)] {
        same(&rt, index(nodes.next()), Some(first));
        same(&rt, index(nodes.next_back()), Some(last));
    }
    same(&rt, nodes.len(), 1);
    let mut copy = made(&rt, nodes.clone());
    same(&rt, index(nodes.next_back()), Some(1));
    same(&rt, index(nodes.next_back()), None);
    same(&rt, index(nodes.next()), None);
    same(&rt, index(copy.next()), Some(1));
    same(&rt, index(copy.next()), None);
    same(&rt, index(copy.next_back()), None);
    let mut back = order.nodes().rev();
    for n in [7, 6, 4, 1, 5, 0, 3] {
        same(&rt, index(back.next()), Some(n));
    }
    same(&rt, index(back.next()), None);
}

#[test]
fn both_ends_meet_in_the_run(rt: HostRuntime) {
    let mut order: Order<u8> = Order::new(rt.alloc());
    for n in [2, 3, 4, 5, 6] {
        push(&rt, &mut order, n, false);
    }
    let mut nodes = order.nodes();
    for (first, last) in [(2, 6), (3, 5)] {
        same(&rt, index(nodes.next()), Some(first));
        same(&rt, index(nodes.next_back()), Some(last));
    }
    same(&rt, nodes.size_hint(), (1, Some(1)));
    same(&rt, index(nodes.next()), Some(4));
    same(&rt, index(nodes.next()), None);
    same(&rt, index(nodes.next_back()), None);
}

#[test]
fn a_node_is_put_before_another(rt: HostRuntime) {
    let mut order: Order<u8> = Order::new(rt.alloc());
    for n in 0..5 {
        push(&rt, &mut order, n, false);
    }
    for (n, m) in [(4, 1), (3, 0), (0, 2), (2, 0)] {
        move_before(&rt, &mut order, n, m);
    }
    lists(&rt, &order, &[3, 4, 1, 2, 0]);
    move_first(&rt, &mut order, 2);
    move_first(&rt, &mut order, 2);
    push(&rt, &mut order, 5, false);
    move_first(&rt, &mut order, 5);
    lists(&rt, &order, &[5, 2, 3, 4, 1, 0]);
}

#[test]
fn many_nodes_are_put_before_one(rt: HostRuntime) {
    let mut order: Order<u8> = Order::new(rt.alloc());
    for n in 0..200 {
        push(&rt, &mut order, n, false);
    }
    for n in 2..200 {
        move_before(&rt, &mut order, n, 1);
    }
    for n in 0..196 {
        remove(&rt, &mut order, if n == 1 { 196 } else { n });
    }
    lists(&rt, &order, &[197, 198, 199, 1]);
}
