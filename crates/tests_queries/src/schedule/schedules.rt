//! Schedules that were worked out by hand.
ghost use Rattle.std.specs.Prelude.{◌≤◌, length};
ghost use Rattle.daggy_base.specs.Graph.{node_bound, edge_bound};

use super::scenes::{Scene, compact, stable};
use super::support::{Plain, dag_of, times, turned_dag_of};
use crate::support::{holds, lists, made, node, same};
use daggy_base::source::EdgeSource;
use daggy_base::store::Store;
use daggy_schedule::levels::bottom_levels;
use daggy_schedule::schedule::{Schedule, ScheduleError};
use std::alloc::Global;
use std::process::Abort;

fn plans<S: Store<u32, NodeWeight = u64, EdgeWeight = ()>>(rt: &impl Abort, alloc: Global) {
    let edges = [(0, 1), (0, 2), (1, 3), (2, 3), (2, 4), (0, 2)];
    let dag = dag_of::<S>(rt, alloc, &[3, 2, 5, 1, 4], &edges);
    let plan = made(rt, Schedule::new(alloc, &dag, |_, duration| *duration));
    times(rt, plan.durations.as_slice(), &[3, 2, 5, 1, 4]);
    times(rt, plan.starts.as_slice(), &[0, 3, 3, 8, 8]);
    times(rt, plan.finishes.as_slice(), &[3, 5, 8, 9, 12]);
    times(rt, plan.slack.as_slice(), &[0, 6, 0, 3, 0]);
    let float = made(rt, plan.free_float(alloc, &dag));
    times(rt, float.as_slice(), &[0, 3, 0, 3, 0]);
    same(rt, plan.makespan, 12);
    lists(rt, plan.critical.as_slice(), &[0, 2, 4]);
}

// Nodes 2 and 3 finish last, and the two parents of node 2 finish at the same time.
fn plans_the_lowest<S: Store<u32, NodeWeight = u64, EdgeWeight = ()>>(
    rt: &impl Abort,
    alloc: Global,
    dag: &Plain<S>,
) {
    let plan = made(rt, Schedule::new(alloc, dag, |_, duration| *duration));
    times(rt, plan.finishes.as_slice(), &[3, 3, 4, 4]);
    lists(rt, plan.critical.as_slice(), &[0, 2]);
}

// The critical path is the same, whatever the order of the dag.
fn plans_alike<S: Store<u32, NodeWeight = u64, EdgeWeight = ()>>(rt: &impl Abort, alloc: Global) {
    let durations = [3, 3, 1, 4];
    let edges = [(1, 2), (0, 2)];
    plans_the_lowest(rt, alloc, &dag_of::<S>(rt, alloc, &durations, &edges));
    plans_the_lowest(
        rt,
        alloc,
        &turned_dag_of::<S>(rt, alloc, &durations, &edges),
    );
}

// A schedule with the durations of a table.
fn by_table<S: Store<u32, NodeWeight = u64, EdgeWeight = ()>>(
    alloc: Global,
    dag: &Plain<S>,
    table: &[u64],
) -> Result<Schedule, ScheduleError>
    requires { node_bound dag.now.graph ≤ length table.now }
{
    Schedule::new(alloc, dag, |n, _| table[n.index()])
}

fn plans_by_table<S: Store<u32, NodeWeight = u64, EdgeWeight = ()>>(
    rt: &impl Abort,
    alloc: Global,
) {
    let dag = dag_of::<S>(rt, alloc, &[0, 0, 0], &[(2, 0), (2, 1)]);
    let table = [4, 6, 1];
    assert!(rt; dag.graph().node_bound() <= table.len());
    let plan = made(rt, by_table(alloc, &dag, &table));
    times(rt, plan.starts.as_slice(), &[1, 1, 0]);
    times(rt, plan.slack.as_slice(), &[2, 0, 0]);
    lists(rt, plan.critical.as_slice(), &[2, 1]);
}

// A schedule with the lags of a table.
fn with_table<S: Store<u32, NodeWeight = u64, EdgeWeight = ()>>(
    alloc: Global,
    dag: &Plain<S>,
    table: &[u64],
) -> Result<Schedule, ScheduleError>
    requires { edge_bound dag.now.graph ≤ length table.now }
{
    Schedule::with_lags(alloc, dag, |_, duration| *duration, |e, _| table[e.index()])
}

// Without lags, 0 2 4 would be critical. Of the two edges from node 0 to node 2, the one with the
// longer lag counts.
fn plans_with_lags<S: Store<u32, NodeWeight = u64, EdgeWeight = ()>>(
    rt: &impl Abort,
    alloc: Global,
) {
    let edges = [(0, 1), (0, 2), (1, 3), (2, 3), (2, 4), (0, 2)];
    let lags = [9, 0, 1, 2, 0, 2];
    let dag = dag_of::<S>(rt, alloc, &[3, 2, 5, 1, 4], &edges);
    assert!(rt; dag.graph().edge_bound() <= lags.len());
    let plan = made(rt, with_table(alloc, &dag, &lags));
    times(rt, plan.durations.as_slice(), &[3, 2, 5, 1, 4]);
    times(rt, plan.lags.as_slice(), &lags);
    times(rt, plan.starts.as_slice(), &[0, 12, 5, 15, 10]);
    times(rt, plan.finishes.as_slice(), &[3, 14, 10, 16, 14]);
    times(rt, plan.slack.as_slice(), &[0, 0, 2, 0, 2]);
    same(rt, plan.makespan, 16);
    lists(rt, plan.critical.as_slice(), &[0, 1, 3]);
}

// Node 1 has slack, but its child 4 starts as soon as the lag after it has passed.
fn floats_with_lags<S: Store<u32, NodeWeight = u64, EdgeWeight = ()>>(
    rt: &impl Abort,
    alloc: Global,
) {
    let edges = [(0, 1), (0, 2), (1, 3), (2, 3), (1, 4)];
    let dag = dag_of::<S>(rt, alloc, &[3, 2, 5, 1, 2], &edges);
    let plan = Schedule::with_lags(
        alloc,
        &dag,
        |_, duration| *duration,
        |e, _| e.index() as u64,
    );
    let plan = made(rt, plan);
    times(rt, plan.starts.as_slice(), &[0, 3, 4, 12, 9]);
    times(rt, plan.slack.as_slice(), &[0, 2, 0, 0, 2]);
    let float = made(rt, plan.free_float(alloc, &dag));
    times(rt, float.as_slice(), &[0, 0, 0, 0, 2]);
}

// The longest paths from the nodes.
fn levels<S: Store<u32, NodeWeight = u64, EdgeWeight = ()>>(rt: &impl Abort, alloc: Global) {
    let edges = [(0, 1), (0, 2), (1, 3), (2, 3), (2, 4), (0, 2)];
    let dag = dag_of::<S>(rt, alloc, &[3, 2, 5, 1, 4], &edges);
    let levels = made(rt, bottom_levels(alloc, &dag, |_, duration| *duration));
    times(rt, levels.as_slice(), &[12, 3, 9, 1, 4]);
    let long = dag_of::<S>(rt, alloc, &[u64::MAX - 1, 1, u64::MAX], &[(0, 1)]);
    let levels = made(rt, bottom_levels(alloc, &long, |_, duration| *duration));
    times(rt, levels.as_slice(), &[u64::MAX, 1, u64::MAX]);
    let longer = dag_of::<S>(rt, alloc, &[u64::MAX, 1], &[(0, 1)]);
    holds(
        rt,
        matches!(
            bottom_levels(alloc, &longer, |_, duration| *duration),
            Err(ScheduleError::Overflow)
        ),
    );
}

// The lags of both edges to node 2 end at the same time.
fn plans_the_lowest_with_lags<S: Store<u32, NodeWeight = u64, EdgeWeight = ()>>(
    rt: &impl Abort,
    alloc: Global,
) {
    let dag = dag_of::<S>(rt, alloc, &[3, 1, 2], &[(1, 2), (0, 2)]);
    let lags = [2, 0];
    assert!(rt; dag.graph().edge_bound() <= lags.len());
    let plan = made(rt, with_table(alloc, &dag, &lags));
    times(rt, plan.starts.as_slice(), &[0, 0, 3]);
    times(rt, plan.slack.as_slice(), &[0, 0, 0]);
    lists(rt, plan.critical.as_slice(), &[0, 2]);
}

fn plans_too_long_a_lag<S: Store<u32, NodeWeight = u64, EdgeWeight = ()>>(
    rt: &impl Abort,
    alloc: Global,
) {
    let dag = dag_of::<S>(rt, alloc, &[1, 0], &[(0, 1)]);
    let lags = [u64::MAX];
    assert!(rt; dag.graph().edge_bound() <= lags.len());
    holds(
        rt,
        matches!(with_table(alloc, &dag, &lags), Err(ScheduleError::Overflow)),
    );
    let plan = made(rt, with_table(alloc, &dag, &[u64::MAX - 1]));
    same(rt, plan.makespan, u64::MAX);
}

fn plans_none<S: Store<u32, NodeWeight = u64, EdgeWeight = ()>>(rt: &impl Abort, alloc: Global) {
    let none = dag_of::<S>(rt, alloc, &[], &[]);
    let plan = made(rt, Schedule::new(alloc, &none, |_, duration| *duration));
    same(rt, plan.makespan, 0);
    lists(rt, plan.critical.as_slice(), &[]);
    let idle = dag_of::<S>(rt, alloc, &[0, 0], &[(0, 1)]);
    let plan = made(rt, Schedule::new(alloc, &idle, |_, duration| *duration));
    same(rt, plan.makespan, 0);
    holds(rt, !plan.critical.is_empty());
}

fn plans_too_much<S: Store<u32, NodeWeight = u64, EdgeWeight = ()>>(
    rt: &impl Abort,
    alloc: Global,
) {
    let dag = dag_of::<S>(rt, alloc, &[u64::MAX, 1, u64::MAX], &[(0, 1)]);
    holds(
        rt,
        matches!(
            Schedule::new(alloc, &dag, |_, duration| *duration),
            Err(ScheduleError::Overflow)
        ),
    );
    let dag = dag_of::<S>(rt, alloc, &[u64::MAX - 1, 1, u64::MAX], &[(0, 1)]);
    let plan = made(rt, Schedule::new(alloc, &dag, |_, duration| *duration));
    same(rt, plan.makespan, u64::MAX);
}

pub fn plans_all<S: Store<u32, NodeWeight = u64, EdgeWeight = ()>>(rt: &impl Abort, alloc: Global) {
    plans::<S>(rt, alloc);
    plans_alike::<S>(rt, alloc);
    plans_by_table::<S>(rt, alloc);
    plans_with_lags::<S>(rt, alloc);
    floats_with_lags::<S>(rt, alloc);
    levels::<S>(rt, alloc);
    plans_the_lowest_with_lags::<S>(rt, alloc);
    plans_too_long_a_lag::<S>(rt, alloc);
    plans_none::<S>(rt, alloc);
    plans_too_much::<S>(rt, alloc);
}

// The same, and past a vacant slot.
pub fn plans_past_a_slot<S: Store<u32, NodeWeight = u64, EdgeWeight = ()>>(
    rt: &impl Abort,
    alloc: Global,
) {
    plans_all::<S>(rt, alloc);
    let edges = [(0, 1), (1, 2), (0, 3)];
    let mut dag = dag_of::<S>(rt, alloc, &[2, 9, 1, 3], &edges);
    holds(rt, dag.remove_node(node(rt, 1)).is_some());
    let plan = made(rt, Schedule::new(alloc, &dag, |_, duration| *duration));
    times(rt, plan.starts.as_slice(), &[0, 0, 0, 2]);
    times(rt, plan.slack.as_slice(), &[0, 0, 4, 0]);
    let float = made(rt, plan.free_float(alloc, &dag));
    times(rt, float.as_slice(), &[0, 0, 4, 0]);
    let levels = made(rt, bottom_levels(alloc, &dag, |_, duration| *duration));
    times(rt, levels.as_slice(), &[5, 0, 1, 3]);
    same(rt, plan.makespan, 5);
    lists(rt, plan.critical.as_slice(), &[0, 3]);
    let lags = [7, 7, 4];
    assert!(rt; dag.graph().edge_bound() <= lags.len());
    let plan = made(rt, with_table(alloc, &dag, &lags));
    times(rt, plan.lags.as_slice(), &[0, 0, 4]);
    times(rt, plan.starts.as_slice(), &[0, 0, 0, 6]);
    times(rt, plan.slack.as_slice(), &[0, 0, 8, 0]);
    same(rt, plan.makespan, 9);
    lists(rt, plan.critical.as_slice(), &[0, 3]);
}

#[test]
fn schedules_of_dags(rt: HostRuntime) {
    compact(&rt, rt.alloc(), Scene::Plans);
}

#[test]
fn schedules_of_stable_dags(rt: HostRuntime) {
    stable(&rt, rt.alloc(), Scene::PlansPastASlot);
}
