//! Calls while memory is refused once. `rt try --test --fail-alloc N` refuses the Nth allocation: a
//! call that is refused says so, changes nothing, and succeeds when it is made again.
use super::steps::Numbers;
use super::support::{add, depend, goes, index_of, remove, set};
use crate::support::{made, same};
use daggy_base::index::NodeIndex;
use daggy_named::error::{AddError, DependError, DependenciesError};
use daggy_named::named::Named;
use daggy_schedule::schedule::ScheduleError;
use std::alloc::{AllocError, Global};
use std::process::Abort;

fn add_again(rt: &impl Abort, dag: &mut Numbers, key: u32) -> NodeIndex {
    let count = dag.node_count();
    match add(dag, key, u64::from(key)) {
        Ok(n) => n,
        Err(AddError::Memory(key, weight)) => {
            let (left, is_there) = (dag.node_count(), index_of(dag, &key).is_some());
            same(rt, (left, is_there), (count, false));
            same(rt, weight, u64::from(key));
            made(rt, add(dag, key, weight))
        }
        Err(_) => panic!(rt; "the key is not taken, and an index is left"),
    }
}

fn depend_again(rt: &impl Abort, dag: &mut Numbers, on: u32, what: u32) {
    let count = edge_count(dag);
    match depend(dag, &on, &what, 5) {
        Ok(_) => {}
        Err(DependError::Memory(weight)) => {
            same(rt, edge_count(dag), count);
            same(rt, weight, 5);
            made(rt, depend(dag, &on, &what, weight));
        }
        Err(_) => panic!(rt; "the keys are known, and the edge closes no cycle"),
    }
}

fn edge_count(dag: &Numbers) -> usize {
    dag.dag().edge_count()
}

// The items again, in a list of their own.
fn listed<'a>(rt: &impl Abort, alloc: Global, items: &[(&'a u32, u64)]) -> Vec<(&'a u32, u64)> {
    match items.to_vec(alloc) {
        Ok(items) => items,
        Err(_) => made(rt, items.to_vec(alloc)),
    }
}

fn set_again<'x>(
    rt: &impl Abort,
    alloc: Global,
    dag: &mut Numbers,
    key: &'x u32,
    wanted: &[(&'x u32, u64)],
) {
    let count = edge_count(dag);
    match set(dag, key, listed(rt, alloc, wanted)) {
        Ok(_) => {}
        Err(DependenciesError::Memory(items)) => {
            same(rt, edge_count(dag), count);
            same(rt, items.as_slice() == wanted, true);
            made(rt, set(dag, key, items));
        }
        Err(_other) => panic!(rt; "the keys are known, and the edges close no cycle"),
    }
}

// A cycle is reported even if there is no memory.
fn is_cyclic<'x>(
    rt: &impl Abort,
    alloc: Global,
    dag: &mut Numbers,
    key: &'x u32,
    wanted: &[(&'x u32, u64)],
) {
    match set(dag, key, listed(rt, alloc, wanted)) {
        Err(DependenciesError::WouldCycle(items)) => same(rt, items.as_slice() == wanted, true),
        _other => panic!(rt; "the edges close a cycle"),
    }
}

// A set that would close a cycle is refused. Others replace the dependencies of node 5.
fn replace_again(rt: &impl Abort, alloc: Global, dag: &mut Numbers) {
    is_cyclic(rt, alloc, dag, &1, &[(&0, 7), (&3, 8)]);
    same(rt, edge_count(dag), 8);
    set_again(rt, alloc, dag, &5, &[(&4, 7), (&3, 8), (&2, 9)]);
    same(rt, edge_count(dag), 10);
    set_again(rt, alloc, dag, &5, &[(&4, 5)]);
    same(rt, edge_count(dag), 8);
}

// Asks by key.
fn ask_again(rt: &impl Abort, dag: &Numbers) {
    let found = match dag.descendants_of(&2) {
        Ok(found) => found,
        Err(AllocError) => made(rt, dag.descendants_of(&2)),
    };
    same(rt, found.is_some_and(|keys| keys.len() == 6), true);
    let found = match dag.path(&3, &5) {
        Ok(found) => found,
        Err(AllocError) => made(rt, dag.path(&3, &5)),
    };
    same(rt, found.is_some_and(|keys| keys.len() == 3), true);
    let found = match dag.reaches(&1, &8) {
        Ok(found) => found,
        Err(AllocError) => made(rt, dag.reaches(&1, &8)),
    };
    same(rt, found, true);
}

// Asks what is ready, and when each key can start.
fn work_again(rt: &impl Abort, dag: &Numbers) {
    let mut ready = match dag.ready() {
        Ok(ready) => ready,
        Err(AllocError) => made(rt, dag.ready()),
    };
    same(rt, ready.next().copied(), Some(0));
    let schedule = match dag.schedule(|_, duration| *duration) {
        Ok(schedule) => schedule,
        Err(ScheduleError::Memory) => made(rt, dag.schedule(|_, duration| *duration)),
        Err(ScheduleError::Overflow) => panic!(rt; "the nodes do not take too long"),
    };
    same(rt, schedule.makespan(), 36);
}

fn call_again(rt: &impl Abort, dag: &mut Numbers) {
    for key in 0..9 {
        add_again(rt, dag, key);
    }
    for key in 0..8 {
        depend_again(rt, dag, key, key + 1);
    }
    let ends = [index_of(dag, &0), index_of(dag, &8)];
    let path = match dag.cycle(&1, &0) {
        Ok(path) => path,
        Err(AllocError) => made(rt, dag.cycle(&1, &0)),
    };
    match (ends[0], index_of(dag, &1)) {
        (Some(a), Some(b)) => goes(rt, path, &[a, b]),
        _ => panic!(rt; "both keys are known"),
    }
    replace_again(rt, dag.dag().allocator(), dag);
    ask_again(rt, dag);
    work_again(rt, dag);
    // A removal allocates nothing, nor does the next addition.
    same(rt, remove(dag, &8), Some((8, 8)));
    same(rt, add(dag, 9, 9).ok(), ends[1]);
}

#[test]
fn refused_calls_are_made_again(rt: HostRuntime) {
    let mut dag: Numbers = Named::new(rt.alloc());
    call_again(&rt, &mut dag);
}
