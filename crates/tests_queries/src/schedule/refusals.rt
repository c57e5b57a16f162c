//! Calls while memory is refused once. `rt try --test --fail-alloc N` refuses the Nth allocation: a
//! call that is refused says so, and succeeds when it is made again.
use super::scenes::{Scene, compact, stable};
use super::support::{Plain, times};
use crate::support::{lists, made, node, same};
use daggy_base::index::NodeIndex;
use daggy_base::store::Store;
use daggy_schedule::fallible_ready::FallibleReady;
use daggy_schedule::levels::bottom_levels;
use daggy_schedule::on_workers::schedule_on;
use daggy_schedule::order_by::topological_order_by;
use daggy_schedule::ready::Ready;
use daggy_schedule::ready_by_key::ReadyByKey;
use daggy_schedule::schedule::{Schedule, ScheduleError};
use std::alloc::{AllocError, Global};
use std::num::NonZeroUsize;
use std::process::Abort;

// A dag with a node and its child, each added again if that is refused.
fn two_nodes<S: Store<u32, NodeWeight = u64, EdgeWeight = ()>>(
    rt: &impl Abort,
    alloc: Global,
) -> Plain<S> {
    let mut dag = Plain::<S>::new(alloc);
    assert!(rt; dag.can_add_node());
    if dag.add_node(2).is_err() {
        made(rt, dag.add_node(2));
    }
    let parent = node(rt, 0);
    assert!(rt; dag.contains_node(parent) && dag.can_add_node() && dag.can_add_edge());
    if dag.add_child(parent, (), 3).is_err() {
        made(rt, dag.add_child(parent, (), 3));
    }
    dag
}

fn ready_again<S: Store<u32, NodeWeight = u64, EdgeWeight = ()>>(
    rt: &impl Abort,
    alloc: Global,
    dag: &Plain<S>,
) {
    let mut ready = match Ready::new(alloc, dag) {
        Ok(ready) => ready,
        Err(AllocError) => made(rt, Ready::new(alloc, dag)),
    };
    same(rt, ready.next(dag).map(NodeIndex::index), Some(0));
}

fn ready_by_key_again<S: Store<u32, NodeWeight = u64, EdgeWeight = ()>>(
    rt: &impl Abort,
    alloc: Global,
    dag: &Plain<S>,
) {
    let mut ready = match ReadyByKey::new(alloc, dag, |_, key| *key) {
        Ok(ready) => ready,
        Err(AllocError) => made(rt, ReadyByKey::new(alloc, dag, |_, key| *key)),
    };
    same(rt, ready.next(dag).map(NodeIndex::index), Some(0));
}

fn fallible_ready_again<S: Store<u32, NodeWeight = u64, EdgeWeight = ()>>(
    rt: &impl Abort,
    alloc: Global,
    dag: &Plain<S>,
) {
    let mut ready = match FallibleReady::new(alloc, dag) {
        Ok(ready) => ready,
        Err(AllocError) => made(rt, FallibleReady::new(alloc, dag)),
    };
    let parent = node(rt, 0);
    same(rt, ready.next(dag), Some(parent));
    assert!(rt; ready.is_out(parent));
    ready.fail(dag, parent);
    let skipped = match ready.skipped(alloc, dag) {
        Ok(skipped) => skipped,
        Err(AllocError) => made(rt, ready.skipped(alloc, dag)),
    };
    lists(rt, skipped.as_slice(), &[1]);
}

fn schedule_again<S: Store<u32, NodeWeight = u64, EdgeWeight = ()>>(
    rt: &impl Abort,
    alloc: Global,
    dag: &Plain<S>,
) {
    let plan = match Schedule::new(alloc, dag, |_, duration| *duration) {
        Ok(plan) => plan,
        Err(ScheduleError::Memory) => made(rt, Schedule::new(alloc, dag, |_, duration| *duration)),
        Err(ScheduleError::Overflow) => panic!(rt; "the nodes do not take too long"),
    };
    same(rt, plan.makespan, 5);
    let float = match plan.free_float(alloc, dag) {
        Ok(float) => float,
        Err(AllocError) => made(rt, plan.free_float(alloc, dag)),
    };
    times(rt, float.as_slice(), &[0, 0]);
}

fn levels_again<S: Store<u32, NodeWeight = u64, EdgeWeight = ()>>(
    rt: &impl Abort,
    alloc: Global,
    dag: &Plain<S>,
) {
    let levels = match bottom_levels(alloc, dag, |_, duration| *duration) {
        Ok(levels) => levels,
        Err(ScheduleError::Memory) => made(rt, bottom_levels(alloc, dag, |_, duration| *duration)),
        Err(ScheduleError::Overflow) => panic!(rt; "the nodes do not take too long"),
    };
    times(rt, levels.as_slice(), &[5, 3]);
}

fn schedule_with_lags_again<S: Store<u32, NodeWeight = u64, EdgeWeight = ()>>(
    rt: &impl Abort,
    alloc: Global,
    dag: &Plain<S>,
) {
    let plan = match Schedule::with_lags(alloc, dag, |_, duration| *duration, |_, _| 4) {
        Ok(plan) => plan,
        Err(ScheduleError::Memory) => made(
            rt,
            Schedule::with_lags(alloc, dag, |_, duration| *duration, |_, _| 4),
        ),
        Err(ScheduleError::Overflow) => panic!(rt; "the nodes do not take too long"),
    };
    same(rt, plan.makespan, 9);
}

fn order_again<S: Store<u32, NodeWeight = u64, EdgeWeight = ()>>(
    rt: &impl Abort,
    alloc: Global,
    dag: &Plain<S>,
) {
    let order = match topological_order_by(alloc, dag, |_, key| *key) {
        Ok(order) => order,
        Err(AllocError) => made(rt, topological_order_by(alloc, dag, |_, key| *key)),
    };
    lists(rt, order.as_slice(), &[0, 1]);
}

fn assign_again<S: Store<u32, NodeWeight = u64, EdgeWeight = ()>>(
    rt: &impl Abort,
    alloc: Global,
    dag: &Plain<S>,
) {
    let one = NonZeroUsize::MIN;
    let plan = match schedule_on(alloc, dag, |_, duration| *duration, one) {
        Ok(plan) => plan,
        Err(ScheduleError::Memory) => {
            made(rt, schedule_on(alloc, dag, |_, duration| *duration, one))
        }
        Err(ScheduleError::Overflow) => panic!(rt; "the nodes do not take too long"),
    };
    same(rt, plan.makespan, 5);
}

pub fn again<S: Store<u32, NodeWeight = u64, EdgeWeight = ()>>(rt: &impl Abort, alloc: Global) {
    let dag = two_nodes::<S>(rt, alloc);
    ready_again(rt, alloc, &dag);
    ready_by_key_again(rt, alloc, &dag);
    fallible_ready_again(rt, alloc, &dag);
    schedule_again(rt, alloc, &dag);
    levels_again(rt, alloc, &dag);
    schedule_with_lags_again(rt, alloc, &dag);
    order_again(rt, alloc, &dag);
    assign_again(rt, alloc, &dag);
}

#[test]
fn refused_calls_are_made_again(rt: HostRuntime) {
    compact(&rt, rt.alloc(), Scene::Refusals);
}

#[test]
fn refused_calls_on_a_stable_dag_are_made_again(rt: HostRuntime) {
    stable(&rt, rt.alloc(), Scene::Refusals);
}
