//! What searches work in, and orders of nodes, while memory is refused once.
use crate::support::{answered, holds, made, refuse, same};
use daggy::NodeIndex;
use daggy::search::{Order, Scratch};
use std::alloc::AllocError;
use std::process::Abort;

// Reserves for graphs of a bound, a second time if that is refused. What fitted before still fits.
fn reserve_again(
    rt: &impl Abort,
    scratch: &mut Scratch<u32>,
    before: usize,
    bound: usize,
    refused: &mut bool,
) {
    if scratch.reserve(bound, bound).is_err() {
        refuse(rt, refused);
        holds(rt, scratch.fits(before, before));
        made(rt, scratch.reserve(bound, bound));
    }
    holds(rt, scratch.fits(bound, bound));
}

#[test]
fn a_refused_scratch_is_reserved_again(rt: HostRuntime) {
    let mut refused = false;
    let mut scratch = Scratch::new(rt.alloc());
    let mut before = 0;
    for bound in [3, 40, 500] {
        reserve_again(&rt, &mut scratch, before, bound, &mut refused);
        before = bound;
    }
    answered(&rt, refused);
}

/// At which end of an order a node is put.
#[derive(Clone, Copy)]
enum End {
    First,
    Last,
}

// Puts the node of an index into an order that does not hold it.
fn push(rt: &impl Abort, order: &mut Order<u32>, n: usize, end: End) -> Result<(), AllocError> {
    holds(rt, n < 1000);
    let node = NodeIndex::new(n);
    assert!(rt; !order.holds(node));
    match end {
        End::First => order.push_first(node),
        End::Last => order.push(node),
    }
}

// Puts it into the order, a second time if the first is refused.
fn push_again(rt: &impl Abort, order: &mut Order<u32>, n: usize, end: End, refused: &mut bool) {
    let count = order.len();
    if push(rt, order, n, end).is_err() {
        refuse(rt, refused);
        same(rt, order.len(), count);
        made(rt, push(rt, order, n, end));
    }
    let place = match end {
        End::First => 0,
        End::Last => count,
    };
    holds(rt, place < order.len());
    same(rt, order.at(place).index(), n);
}

#[test]
fn a_refused_node_is_put_into_an_order_again(rt: HostRuntime) {
    let mut refused = false;
    let mut order = Order::new(rt.alloc());
    for n in 0..20 {
        push_again(&rt, &mut order, n, End::Last, &mut refused);
    }
    for n in 20..40 {
        push_again(&rt, &mut order, n, End::First, &mut refused);
    }
    for n in [700, 500, 300] {
        push_again(&rt, &mut order, n, End::Last, &mut refused);
    }
    same(&rt, order.len(), 43);
    answered(&rt, refused);
}

// Asserts that a copy of an order is the same list. It is made again if it is refused.
fn copy_again(rt: &impl Abort, order: &Order<u32>, refused: &mut bool) {
    let copy = match order.try_clone() {
        Ok(copy) => copy,
        Err(AllocError) => {
            refuse(rt, refused);
            made(rt, order.try_clone())
        }
    };
    same(rt, copy.len(), order.len());
    for place in 0..order.len() {
        holds(rt, place < copy.len());
        same(rt, copy.at(place), order.at(place));
    }
}

#[test]
fn a_refused_copy_of_an_order_is_made_again(rt: HostRuntime) {
    let mut refused = false;
    let mut order = Order::new(rt.alloc());
    copy_again(&rt, &order, &mut refused);
    for n in 0..5 {
        push_again(&rt, &mut order, n, End::Last, &mut refused);
    }
    copy_again(&rt, &order, &mut refused);
    push_again(&rt, &mut order, 9, End::First, &mut refused);
    push_again(&rt, &mut order, 10, End::Last, &mut refused);
    copy_again(&rt, &order, &mut refused);
    answered(&rt, refused);
}
