//! Keys that are numbers, borrowed texts and owned texts.
use super::steps::{Step, play};
use super::support::{add, cycle, depend, goes, index_of, remove, weight};
use crate::support::{made, same};
use daggy_base::index::{EdgeIndex, NodeIndex};
use daggy_named::error::{AddError, DependError};
use daggy_named::named::Named;
use std::alloc::Global;
use std::process::Abort;

#[test]
fn numbers_name_nodes(rt: HostRuntime) {
    const STEPS: &[Step] = &[
        Step::Counts(0, 0),
        Step::Add(7, 70, 0),
        Step::Add(9, 90, 1),
        Step::Counts(2, 0),
        Step::Find(9, Some((1, 90))),
        Step::Find(8, None),
        Step::Key(0, Some(7)),
        Step::Key(2, None),
        Step::Taken(7, 71),
        Step::Find(7, Some((0, 70))),
        Step::Depend(7, 9, 5, 0),
        Step::Counts(2, 1),
    ];
    play(&rt, rt.alloc(), STEPS);
}

#[test]
fn a_key_is_added_once(rt: HostRuntime) {
    const STEPS: &[Step] = &[
        Step::GetOrAdd(7, 70, 0),
        Step::GetOrAdd(9, 90, 1),
        Step::GetOrAdd(7, 71, 0),
        Step::Counts(2, 0),
        Step::Find(7, Some((0, 70))),
        Step::Find(9, Some((1, 90))),
    ];
    play(&rt, rt.alloc(), STEPS);
}

#[test]
fn weights_are_written_by_key(rt: HostRuntime) {
    const STEPS: &[Step] = &[
        Step::Add(7, 70, 0),
        Step::Add(9, 90, 1),
        Step::Write(9, 91, true),
        Step::Write(8, 80, false),
        Step::Find(7, Some((0, 70))),
        Step::Find(9, Some((1, 91))),
        Step::Find(8, None),
    ];
    play(&rt, rt.alloc(), STEPS);
}

type Texts = Named<&'static str, u32, u32>;

fn name_by_texts(rt: &impl Abort, dag: &mut Texts) {
    let sow = made(rt, add(dag, "sow", 1));
    let hoe = made(rt, add(dag, "hoe", 2));
    let reap = made(rt, add(dag, "reap", 3));
    made(rt, depend(dag, &"sow", &"hoe", 30));
    made(rt, depend(dag, &"hoe", &"reap", 60));
    same(rt, dag.key_of(hoe), Some(&"hoe"));
    // The path that the refused edge would close.
    is_refused(rt, dag, ("reap", "sow"), DependError::WouldCycle(5), 5);
    goes(rt, cycle(rt, dag, &"reap", &"sow"), &[sow, hoe, reap]);
    same(rt, cycle(rt, dag, &"sow", &"reap").is_some(), false);
    same(rt, cycle(rt, dag, &"sow", &"mow").is_some(), false);
    same(rt, cycle(rt, dag, &"mow", &"sow").is_some(), false);
    // A node needs itself by no path at all.
    is_refused(rt, dag, ("hoe", "hoe"), DependError::WouldCycle(6), 6);
    goes(rt, cycle(rt, dag, &"hoe", &"hoe"), &[hoe]);
    // If both keys are unknown, the error names the first.
    is_refused(
        rt,
        dag,
        ("mow", "sow"),
        DependError::UnknownDependency(7),
        7,
    );
    is_refused(rt, dag, ("sow", "mow"), DependError::UnknownDependent(8), 8);
    is_refused(
        rt,
        dag,
        ("mow", "rake"),
        DependError::UnknownDependency(9),
        9,
    );
    same(rt, dag.dag().edge_count(), 2);
}

// Asserts that a dependency is refused with this error.
fn is_refused(
    rt: &impl Abort,
    dag: &mut Texts,
    ends: (&'static str, &'static str),
    error: DependError<u32>,
    weight: u32,
) {
    same(rt, depend(dag, &ends.0, &ends.1, weight), Err(error));
}

#[test]
fn texts_name_nodes(rt: HostRuntime) {
    let mut dag: Texts = Named::new(rt.alloc());
    name_by_texts(&rt, &mut dag);
}

type OwnedTexts = Named<String, u32, u32>;

fn text(rt: &impl Abort, alloc: Global, of: &str) -> String {
    made(rt, String::from_str(alloc, of))
}

fn name_by_owned_texts(rt: &impl Abort, alloc: Global, dag: &mut OwnedTexts) {
    let (sow, reap) = (text(rt, alloc, "sow"), text(rt, alloc, "reap"));
    let first = made(rt, add(dag, text(rt, alloc, "sow"), 1));
    let second = made(rt, add(dag, text(rt, alloc, "reap"), 2));
    made(rt, depend(dag, &sow, &reap, 90));
    same(rt, index_of(dag, &sow), Some(first));
    same(rt, dag.key_of(second), Some(&reap));
    let refused = depend(dag, &reap, &sow, 5);
    same(rt, refused, Err(DependError::WouldCycle(5)));
    let taken = add(dag, text(rt, alloc, "sow"), 3);
    same(rt, taken, Err(AddError::Taken(text(rt, alloc, "sow"), 3)));
    same(rt, remove(dag, &sow), Some((text(rt, alloc, "sow"), 1)));
    same(rt, index_of(dag, &sow), None);
    same(rt, weight(dag, &reap), Some(2));
}

#[test]
fn owned_texts_name_nodes(rt: HostRuntime) {
    let mut dag: OwnedTexts = Named::new(rt.alloc());
    name_by_owned_texts(&rt, rt.alloc(), &mut dag);
}

// The calls of a dag with owned texts that take borrowed ones.
fn index_by(dag: &OwnedTexts, key: &str) -> Option<NodeIndex> {
    dag.index_of(key)
}

fn weight_by(dag: &OwnedTexts, key: &str) -> Option<u32> {
    dag.weight(key).copied()
}

fn depend_by(
    dag: &mut OwnedTexts,
    on: &str,
    what: &str,
    weight: u32,
) -> Result<EdgeIndex, DependError<u32>> {
    dag.depend(on, what, weight)
}

fn remove_by(dag: &mut OwnedTexts, key: &str) -> Option<(String, u32)> {
    dag.remove(key)
}

fn find_owned_texts(rt: &impl Abort, alloc: Global, dag: &mut OwnedTexts) {
    same(rt, index_by(dag, "sow"), None);
    let sow = made(rt, add(dag, text(rt, alloc, "sow"), 1));
    let reap = made(rt, add(dag, text(rt, alloc, "reap"), 2));
    same(rt, index_by(dag, "sow"), Some(sow));
    same(rt, index_by(dag, "so"), None);
    same(rt, weight_by(dag, "reap"), Some(2));
    made(rt, depend_by(dag, "sow", "reap", 90));
    let cyclic = depend_by(dag, "reap", "sow", 5);
    same(rt, cyclic, Err(DependError::WouldCycle(5)));
    let unknown = depend_by(dag, "mow", "reap", 6);
    same(rt, unknown, Err(DependError::UnknownDependency(6)));
    let unknown = depend_by(dag, "reap", "mow", 7);
    same(rt, unknown, Err(DependError::UnknownDependent(7)));
    goes(rt, made(rt, dag.cycle("reap", "sow")), &[sow, reap]);
    if let Some(weight) = dag.weight_mut("sow") {
        *weight = 3;
    }
    let removed = remove_by(dag, "sow");
    same(rt, removed, Some((text(rt, alloc, "sow"), 3)));
    same(rt, remove_by(dag, "sow"), None);
    same(rt, weight_by(dag, "reap"), Some(2));
}

// Calls take a borrowed text where the keys are owned ones.
#[test]
fn borrowed_texts_find_owned_ones(rt: HostRuntime) {
    let mut dag: OwnedTexts = Named::new(rt.alloc());
    find_owned_texts(&rt, rt.alloc(), &mut dag);
}
