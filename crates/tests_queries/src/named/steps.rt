//! Tables of calls of a dag whose keys are numbers, with their answers.
use super::support::{add, depend, index_of, remove, retain, weight};
use crate::support::{made, node, same};
use daggy_base::index::{EdgeIndex, NodeIndex};
use daggy_named::error::{AddError, DependError};
use daggy_named::named::Named;
use std::alloc::Global;
use std::process::Abort;

/// A dag whose keys and weights are numbers.
pub type Numbers = Named<u32, u64, u64>;

/// Why a dependency is refused.
#[derive(Clone, Copy)]
pub enum Refusal {
    UnknownDependency,
    UnknownDependent,
    WouldCycle,
}

/// A call, and its answer.
#[derive(Clone, Copy)]
pub enum Step {
    /// A key is added with its weight, and gets this index.
    Add(u32, u64, usize),
    /// The same, or the key was added before and has this index.
    GetOrAdd(u32, u64, usize),
    /// A key is not added, since it was added before.
    Taken(u32, u64),
    /// The second key depends on the first from now on, by an edge of this weight and index.
    Depend(u32, u32, u64, usize),
    /// That is refused, and the weight returned.
    Refused(u32, u32, u64, Refusal),
    /// A key is removed, if it was added, and its weight returned.
    Remove(u32, Option<u64>),
    /// Only keys other than this one, whose weights are at least this one, are kept.
    Retain(u32, u64),
    /// A key, if it was added, has this index and this weight.
    Find(u32, Option<(usize, u64)>),
    /// The node at an index, if there is one, has this key.
    Key(usize, Option<u32>),
    /// The weight of a key, if it was added, becomes this one.
    Write(u32, u64, bool),
    /// The dag has this many nodes and this many edges.
    Counts(usize, usize),
}

fn error(refusal: Refusal, weight: u64) -> DependError<u64> {
    match refusal {
        Refusal::UnknownDependency => DependError::UnknownDependency(weight),
        Refusal::UnknownDependent => DependError::UnknownDependent(weight),
        Refusal::WouldCycle => DependError::WouldCycle(weight),
    }
}

fn find(rt: &impl Abort, dag: &Numbers, key: u32, wanted: Option<(usize, u64)>) {
    match (index_of(dag, &key), weight(dag, &key)) {
        (Some(n), Some(weight)) => same(rt, Some((n.index(), weight)), wanted),
        (None, None) => same(rt, None, wanted),
        _ => panic!(rt; "a key has an index and a weight, or neither"),
    }
}

fn write(rt: &impl Abort, dag: &mut Numbers, key: u32, weight: u64, wanted: bool) {
    match dag.weight_mut(&key) {
        Some(slot) => {
            *slot = weight;
            same(rt, true, wanted);
        }
        None => same(rt, false, wanted),
    }
}

fn put_edge(rt: &impl Abort, dag: &mut Numbers, ends: (u32, u32), weight: u64, edge: usize) {
    let (on, what) = ends;
    let e = made(rt, depend(dag, &on, &what, weight));
    same(rt, e.index(), edge);
    let (found, between) = edge_of(dag, e);
    same(rt, found, Some(weight));
    match (between, index_of(dag, &on), index_of(dag, &what)) {
        (Some(ends), Some(a), Some(b)) => same(rt, ends, (a, b)),
        _ => panic!(rt; "the edge is there"),
    }
}

// The weight and the ends of an edge.
fn edge_of(dag: &Numbers, e: EdgeIndex) -> (Option<u64>, Option<(NodeIndex, NodeIndex)>) {
    let dag = dag.dag();
    (dag.edge_weight(e).copied(), dag.edge_endpoints(e))
}

fn counts(rt: &impl Abort, dag: &Numbers, nodes: usize, edges: usize) {
    same(
        rt,
        (dag.node_count(), dag.dag().edge_count()),
        (nodes, edges),
    );
    same(rt, dag.is_empty(), nodes == 0);
}

fn change(rt: &impl Abort, dag: &mut Numbers, step: Step) {
    match step {
        Step::Add(key, weight, n) => same(rt, made(rt, add(dag, key, weight)).index(), n),
        Step::GetOrAdd(key, weight, n) => {
            same(rt, made(rt, dag.get_or_add(key, weight)).index(), n);
        }
        Step::Depend(on, what, weight, edge) => put_edge(rt, dag, (on, what), weight, edge),
        Step::Remove(key, wanted) => match (remove(dag, &key), wanted) {
            (Some(removed), Some(weight)) => same(rt, removed, (key, weight)),
            (None, None) => {}
            _ => panic!(rt; "a key is removed if it was added"),
        },
        Step::Retain(key, least) => retain(dag, &key, &least),
        _ => panic!(rt; "there is no such step"),
    }
}

fn play_step(rt: &impl Abort, dag: &mut Numbers, step: Step) {
    match step {
        Step::Taken(key, weight) => {
            same(rt, add(dag, key, weight), Err(AddError::Taken(key, weight)));
        }
        Step::Refused(on, what, weight, refusal) => {
            let wanted = Err(error(refusal, weight));
            same(rt, depend(dag, &on, &what, weight), wanted);
        }
        Step::Find(key, wanted) => find(rt, dag, key, wanted),
        Step::Key(n, wanted) => same(rt, dag.key_of(node(rt, n)).copied(), wanted),
        Step::Write(key, weight, wanted) => write(rt, dag, key, weight, wanted),
        Step::Counts(nodes, edges) => counts(rt, dag, nodes, edges),
        _ => change(rt, dag, step),
    }
}

/// Makes the calls of a table with a new dag, and asserts that each has its answer.
pub fn play(rt: &impl Abort, alloc: Global, steps: &[Step]) {
    let mut dag: Numbers = Named::new(alloc);
    play_all(rt, &mut dag, steps);
}

fn play_all(rt: &impl Abort, dag: &mut Numbers, steps: &[Step]) {
    for step in steps {
        play_step(rt, dag, *step);
    }
}
