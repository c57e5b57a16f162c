//! Orders by keys that were worked out by hand.
use super::scenes::{Scene, compact, stable};
use super::support::{Plain, dag_of};
use crate::support::{holds, lists, made, node};
use daggy_base::store::Store;
use daggy_schedule::order_by::topological_order_by;
use std::alloc::Global;
use std::cmp::Reverse;
use std::process::Abort;

fn orders<S: Store<u32, NodeWeight = u64, EdgeWeight = ()>>(rt: &impl Abort, alloc: Global) {
    let none = dag_of::<S>(rt, alloc, &[], &[]);
    let order = made(rt, topological_order_by(alloc, &none, |_, key| *key));
    lists(rt, order.as_slice(), &[]);
    // Node 4 waits for node 0, and node 1 for node 4.
    let edges = [(0, 4), (4, 1), (2, 3), (0, 4)];
    let dag = dag_of::<S>(rt, alloc, &[7, 1, 5, 5, 2, 5], &edges);
    let order = made(rt, topological_order_by(alloc, &dag, |_, key| *key));
    lists(rt, order.as_slice(), &[2, 3, 5, 0, 4, 1]);
    let order = made(
        rt,
        topological_order_by(alloc, &dag, |_, key| Reverse(*key)),
    );
    lists(rt, order.as_slice(), &[0, 2, 3, 5, 4, 1]);
    // All keys are equal: the smallest index comes first.
    let order = made(rt, topological_order_by(alloc, &dag, |_, _| ()));
    lists(rt, order.as_slice(), &[0, 2, 3, 4, 1, 5]);
}

// The even nodes come first, as far as their parents have come.
fn orders_by_index<S: Store<u32, NodeWeight = u64, EdgeWeight = ()>>(
    rt: &impl Abort,
    alloc: Global,
    edges: &[(usize, usize)],
) {
    let dag = dag_of::<S>(rt, alloc, &[0; 5], edges);
    let order = made(rt, topological_order_by(alloc, &dag, |n, _| n.index() % 2));
    lists(rt, order.as_slice(), &[2, 3, 0, 4, 1]);
}

// The order of two dags that are alike is the same, whatever the order of their edges.
fn orders_alike<S: Store<u32, NodeWeight = u64, EdgeWeight = ()>>(rt: &impl Abort, alloc: Global) {
    orders_by_index::<S>(rt, alloc, &[(3, 0), (3, 1), (3, 4), (2, 4)]);
    orders_by_index::<S>(rt, alloc, &[(2, 4), (3, 4), (3, 1), (3, 0)]);
}

pub fn orders_all<S: Store<u32, NodeWeight = u64, EdgeWeight = ()>>(
    rt: &impl Abort,
    alloc: Global,
) {
    orders::<S>(rt, alloc);
    orders_alike::<S>(rt, alloc);
}

// The same, and past a vacant slot.
pub fn orders_past_a_slot<S: Store<u32, NodeWeight = u64, EdgeWeight = ()>>(
    rt: &impl Abort,
    alloc: Global,
) {
    orders_all::<S>(rt, alloc);
    let edges = [(3, 1), (1, 0), (3, 2)];
    let mut dag = dag_of::<S>(rt, alloc, &[9, 1, 4, 6], &edges);
    holds(rt, dag.remove_node(node(rt, 1)).is_some());
    let order = made(rt, topological_order_by(alloc, &dag, |_, key| *key));
    lists(rt, order.as_slice(), &[3, 2, 0]);
}

#[test]
fn orders_of_dags(rt: HostRuntime) {
    compact(&rt, rt.alloc(), Scene::Orders);
}

#[test]
fn orders_of_stable_dags(rt: HostRuntime) {
    stable(&rt, rt.alloc(), Scene::OrdersPastASlot);
}
