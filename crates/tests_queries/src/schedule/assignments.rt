//! Schedules on workers that were worked out by hand.
use super::scenes::{Scene, compact, stable};
use super::support::{Plain, dag_of, times};
use crate::support::{holds, made, node, same};
use daggy_base::store::Store;
use daggy_schedule::on_workers::{Assignment, schedule_on};
use daggy_schedule::schedule::ScheduleError;
use std::alloc::Global;
use std::num::NonZeroUsize;
use std::process::Abort;

fn assign<S: Store<u32, NodeWeight = u64, EdgeWeight = ()>>(
    rt: &impl Abort,
    alloc: Global,
    dag: &Plain<S>,
    count: usize,
) -> Assignment {
    let Some(count) = NonZeroUsize::new(count) else {
        panic!(rt; "there is a worker");
    };
    made(rt, schedule_on(alloc, dag, |_, duration| *duration, count))
}

// Asserts when the nodes start, and by whom they are done.
fn found(rt: &impl Abort, plan: &Assignment, starts: &[u64], workers: &[usize], makespan: u64) {
    times(rt, plan.starts.as_slice(), starts);
    same(rt, plan.workers.len(), workers.len());
    for (worker, wanted) in plan.workers.iter().zip(workers) {
        same(rt, *worker, *wanted);
    }
    same(rt, plan.makespan, makespan);
}

fn assigns<S: Store<u32, NodeWeight = u64, EdgeWeight = ()>>(rt: &impl Abort, alloc: Global) {
    let none = dag_of::<S>(rt, alloc, &[], &[]);
    found(rt, &assign(rt, alloc, &none, 2), &[], &[], 0);
    // The longest paths from the nodes take 12, 3, 9, 1 and 4.
    let edges = [(0, 1), (0, 2), (1, 3), (2, 3), (2, 4), (0, 2)];
    let dag = dag_of::<S>(rt, alloc, &[3, 2, 5, 1, 4], &edges);
    let plan = assign(rt, alloc, &dag, 1);
    times(rt, plan.durations.as_slice(), &[3, 2, 5, 1, 4]);
    found(rt, &plan, &[0, 12, 3, 14, 8], &[0; 5], 15);
    times(rt, plan.finishes.as_slice(), &[3, 14, 8, 15, 12]);
    let plan = assign(rt, alloc, &dag, 2);
    found(rt, &plan, &[0, 3, 3, 8, 8], &[0, 1, 0, 1, 0], 12);
    times(rt, plan.finishes.as_slice(), &[3, 5, 8, 9, 12]);
}

// Nodes 3 and 4 are ready when nodes 0 and 1 have both finished, and then go before node 2.
fn assigns_at_once<S: Store<u32, NodeWeight = u64, EdgeWeight = ()>>(
    rt: &impl Abort,
    alloc: Global,
) {
    let edges = [(0, 3), (1, 3), (0, 4), (1, 4)];
    let dag = dag_of::<S>(rt, alloc, &[6, 6, 1, 5, 5], &edges);
    let plan = assign(rt, alloc, &dag, 2);
    found(rt, &plan, &[0, 0, 11, 6, 6], &[0, 1, 0, 1, 0], 12);
    let plan = assign(rt, alloc, &dag, usize::MAX);
    found(rt, &plan, &[0, 0, 0, 6, 6], &[0, 1, 2, 1, 0], 11);
    // All are equal: the smallest index goes first.
    let equal = dag_of::<S>(rt, alloc, &[2, 2, 2, 2], &[]);
    let plan = assign(rt, alloc, &equal, 3);
    found(rt, &plan, &[0, 0, 0, 2], &[0, 1, 2, 2], 4);
}

// With three workers it takes 11 where 9 would do, and at most 5/3 of 9.
fn assigns_badly<S: Store<u32, NodeWeight = u64, EdgeWeight = ()>>(rt: &impl Abort, alloc: Global) {
    let dag = dag_of::<S>(rt, alloc, &[5, 5, 4, 4, 3, 3, 3], &[]);
    let plan = assign(rt, alloc, &dag, 3);
    found(
        rt,
        &plan,
        &[0, 0, 0, 4, 5, 5, 8],
        &[0, 1, 2, 2, 1, 0, 0],
        11,
    );
}

fn assigns_too_much<S: Store<u32, NodeWeight = u64, EdgeWeight = ()>>(
    rt: &impl Abort,
    alloc: Global,
) {
    let dag = dag_of::<S>(rt, alloc, &[u64::MAX, 1], &[]);
    let one = schedule_on(alloc, &dag, |_, duration| *duration, NonZeroUsize::MIN);
    holds(rt, matches!(one, Err(ScheduleError::Overflow)));
    same(rt, assign(rt, alloc, &dag, 2).makespan, u64::MAX);
    let dag = dag_of::<S>(rt, alloc, &[u64::MAX, 1], &[(0, 1)]);
    let two = schedule_on(alloc, &dag, |_, duration| *duration, NonZeroUsize::MAX);
    holds(rt, matches!(two, Err(ScheduleError::Overflow)));
}

pub fn assigns_in_all_ways<S: Store<u32, NodeWeight = u64, EdgeWeight = ()>>(
    rt: &impl Abort,
    alloc: Global,
) {
    assigns::<S>(rt, alloc);
    assigns_at_once::<S>(rt, alloc);
    assigns_badly::<S>(rt, alloc);
    assigns_too_much::<S>(rt, alloc);
}

// The same, and past a vacant slot.
pub fn assigns_past_a_slot<S: Store<u32, NodeWeight = u64, EdgeWeight = ()>>(
    rt: &impl Abort,
    alloc: Global,
) {
    assigns_in_all_ways::<S>(rt, alloc);
    let edges = [(0, 1), (1, 2), (0, 3)];
    let mut dag = dag_of::<S>(rt, alloc, &[2, 9, 1, 3], &edges);
    holds(rt, dag.remove_node(node(rt, 1)).is_some());
    let plan = assign(rt, alloc, &dag, 1);
    found(rt, &plan, &[0, 0, 5, 2], &[0; 4], 6);
    times(rt, plan.finishes.as_slice(), &[2, 0, 6, 5]);
}

#[test]
fn assigns_dags(rt: HostRuntime) {
    compact(&rt, rt.alloc(), Scene::Assigns);
}

#[test]
fn assigns_stable_dags(rt: HostRuntime) {
    stable(&rt, rt.alloc(), Scene::AssignsPastASlot);
}
