//! Questions by key, and what is changed by key, with keys that are owned texts.
use super::support::add;
use crate::support::{made, same};
use daggy_named::error::{AddError, DependError};
use daggy_named::named::{Dependency, Named};
use std::alloc::Global;
use std::process::Abort;

type Plan = Named<String, u32, u32>;

// Each call of the dag costs a proof seconds wherever it stands, so each stands here once.

fn reaches(rt: &impl Abort, plan: &Plan, a: &str, b: &str) -> bool {
    made(rt, plan.reaches(a, b))
}

fn put(rt: &impl Abort, plan: &mut Plan, dependent: &str, on: &str, weight: u32) {
    let dependency = Dependency { dependent, on };
    made(rt, plan.add_dependency(dependency, weight));
}

fn take(plan: &mut Plan, dependent: &str, on: &str) -> Option<u32> {
    plan.remove_dependency(Dependency { dependent, on })
}

// Asserts that these keys were found in this order, or that there is no such node.
fn named(rt: &impl Abort, found: Option<Vec<&String>>, wanted: Option<&[&'static str]>) {
    match (found, wanted) {
        (Some(found), Some(wanted)) => {
            same(rt, found.len(), wanted.len());
            for (key, text) in found.iter().zip(wanted) {
                same(rt, key.as_str(), *text);
            }
        }
        (None, None) => {}
        _ => panic!(rt; "there is such a node, or there is none"),
    }
}

fn path(rt: &impl Abort, plan: &Plan, a: &str, b: &str, wanted: Option<&[&'static str]>) {
    named(rt, made(rt, plan.path(a, b)), wanted);
}

fn later(rt: &impl Abort, plan: &Plan, key: &str, wanted: Option<&[&'static str]>) {
    named(rt, made(rt, plan.descendants_of(key)), wanted);
}

fn first(rt: &impl Abort, plan: &Plan, key: &str, wanted: Option<&[&'static str]>) {
    named(rt, made(rt, plan.ancestors_of(key)), wanted);
}

fn needs(rt: &impl Abort, alloc: Global, plan: &Plan, key: &str, wanted: Option<&[&'static str]>) {
    let found = match plan.dependencies(key) {
        Some(keys) => Some(made(rt, keys.collect(alloc))),
        None => None,
    };
    named(rt, found, wanted);
}

fn users(rt: &impl Abort, alloc: Global, plan: &Plan, key: &str, wanted: Option<&[&'static str]>) {
    let found = match plan.dependents(key) {
        Some(keys) => Some(made(rt, keys.collect(alloc))),
        None => None,
    };
    named(rt, found, wanted);
}

fn keys(rt: &impl Abort, alloc: Global, plan: &Plan, wanted: &[&'static str]) {
    named(rt, Some(made(rt, plan.keys().collect(alloc))), Some(wanted));
}

fn sorted(rt: &impl Abort, alloc: Global, plan: &Plan, wanted: &[&'static str]) {
    let found = made(rt, plan.topological_keys().collect(alloc));
    named(rt, Some(found), Some(wanted));
    let mut back: Vec<&String> = made(rt, plan.topological_keys().rev().collect(alloc));
    back.reverse();
    named(rt, Some(back), Some(wanted));
}

// Asserts that these keys are in the stages, and these along the chain.
fn staged(
    rt: &impl Abort,
    plan: &Plan,
    wanted: &[&'static [&'static str]],
    chain: &[&'static str],
) {
    let found = made(rt, plan.plan());
    same(rt, found.stages.len(), wanted.len());
    for (stage, keys) in found.stages.into_iter().zip(wanted) {
        named(rt, Some(stage), Some(*keys));
    }
    named(rt, Some(found.chain), Some(chain));
}

fn text(rt: &impl Abort, alloc: Global, of: &str) -> String {
    made(rt, String::from_str(alloc, of))
}

// Sow, then hoe and water, then reap; and a node apart.
fn fill(rt: &impl Abort, alloc: Global, plan: &mut Plan) {
    for key in ["mow", "reap", "water", "hoe", "sow"] {
        made(rt, add(plan, text(rt, alloc, key), 1));
    }
    put(rt, plan, "hoe", "sow", 1);
    put(rt, plan, "water", "sow", 2);
    put(rt, plan, "reap", "hoe", 3);
    put(rt, plan, "reap", "water", 4);
}

#[test]
fn questions_are_asked_by_key(rt: HostRuntime) {
    let alloc = rt.alloc();
    let mut plan: Plan = Named::new(alloc);
    fill(&rt, alloc, &mut plan);
    let plan = &plan;
    same(&rt, reaches(&rt, plan, "sow", "reap"), true);
    same(&rt, reaches(&rt, plan, "hoe", "hoe"), true);
    same(&rt, reaches(&rt, plan, "reap", "sow"), false);
    same(&rt, reaches(&rt, plan, "hoe", "water"), false);
    same(&rt, reaches(&rt, plan, "sow", "rake"), false);
    same(&rt, reaches(&rt, plan, "rake", "rake"), false);
    path(&rt, plan, "sow", "hoe", Some(&["sow", "hoe"]));
    path(&rt, plan, "hoe", "hoe", Some(&["hoe"]));
    path(&rt, plan, "hoe", "water", None);
    path(&rt, plan, "hoe", "rake", None);
    path(&rt, plan, "rake", "hoe", None);
    later(&rt, plan, "hoe", Some(&["reap"]));
    later(&rt, plan, "reap", Some(&[]));
    later(&rt, plan, "rake", None);
    first(&rt, plan, "water", Some(&["sow"]));
    first(&rt, plan, "mow", Some(&[]));
    first(&rt, plan, "rake", None);
    // Both at once, in either order, between the two ends.
    same(
        &rt,
        made(&rt, plan.descendants_of("sow")).is_some_and(|keys| keys.len() == 3),
        true,
    );
    same(
        &rt,
        made(&rt, plan.ancestors_of("reap")).is_some_and(|keys| keys.len() == 3),
        true,
    );
    needs(&rt, alloc, plan, "reap", Some(&["water", "hoe"]));
    needs(&rt, alloc, plan, "sow", Some(&[]));
    needs(&rt, alloc, plan, "rake", None);
    users(&rt, alloc, plan, "sow", Some(&["water", "hoe"]));
    users(&rt, alloc, plan, "mow", Some(&[]));
    users(&rt, alloc, plan, "rake", None);
    keys(&rt, alloc, plan, &["mow", "reap", "water", "hoe", "sow"]);
}

#[test]
fn keys_are_sorted_and_staged(rt: HostRuntime) {
    let alloc = rt.alloc();
    let mut plan: Plan = Named::new(alloc);
    sorted(&rt, alloc, &plan, &[]);
    staged(&rt, &plan, &[], &[]);
    for key in ["reap", "water", "sow"] {
        made(&rt, add(&mut plan, text(&rt, alloc, key), 1));
    }
    put(&rt, &mut plan, "water", "sow", 2);
    put(&rt, &mut plan, "reap", "water", 3);
    sorted(&rt, alloc, &plan, &["sow", "water", "reap"]);
    made(&rt, add(&mut plan, text(&rt, alloc, "mow"), 1));
    let stages: &[&'static [&'static str]] = &[&["sow", "mow"], &["water"], &["reap"]];
    staged(&rt, &plan, stages, &["sow", "water", "reap"]);
}

#[test]
fn dependencies_are_changed_by_key(rt: HostRuntime) {
    let alloc = rt.alloc();
    let mut plan: Plan = Named::new(alloc);
    keys(&rt, alloc, &plan, &[]);
    fill(&rt, alloc, &mut plan);
    // One way round.
    let cyclic = plan.add_dependency(
        Dependency {
            dependent: "sow",
            on: "reap",
        },
        9,
    );
    same(&rt, cyclic, Err(DependError::WouldCycle(9)));
    // The newest of parallel edges goes.
    put(&rt, &mut plan, "hoe", "sow", 5);
    same(&rt, take(&mut plan, "hoe", "sow"), Some(5));
    same(&rt, take(&mut plan, "sow", "hoe"), None);
    same(&rt, take(&mut plan, "hoe", "rake"), None);
    same(&rt, take(&mut plan, "rake", "hoe"), None);
    same(&rt, take(&mut plan, "hoe", "sow"), Some(1));
    same(&rt, take(&mut plan, "hoe", "sow"), None);
    same(&rt, reaches(&rt, &plan, "sow", "hoe"), false);
    same(&rt, reaches(&rt, &plan, "sow", "reap"), true);
    // The edge from `sow` to `reap` is redundant.
    put(&rt, &mut plan, "reap", "sow", 6);
    made(&rt, plan.transitive_reduce_all());
    same(&rt, take(&mut plan, "reap", "sow"), None);
    needs(&rt, alloc, &plan, "reap", Some(&["water", "hoe"]));
    let taken = plan.add_node(text(&rt, alloc, "sow"), 7);
    same(&rt, taken, Err(AddError::Taken(text(&rt, alloc, "sow"), 7)));
    plan.clear();
    keys(&rt, alloc, &plan, &[]);
    let sow = made(&rt, plan.add_node(text(&rt, alloc, "sow"), 8));
    same(&rt, sow.index(), 0);
    let dag = plan.into_dag();
    same(&rt, dag.node_weight(sow).copied(), Some(8));
    same(&rt, dag.node_count(), 1);
}

// A removal leaves a slot vacant.
#[test]
fn questions_skip_vacant_slots(rt: HostRuntime) {
    let alloc = rt.alloc();
    let mut plan: Plan = Named::new(alloc);
    fill(&rt, alloc, &mut plan);
    same(&rt, plan.remove("water").is_some(), true);
    keys(&rt, alloc, &plan, &["mow", "reap", "hoe", "sow"]);
    later(&rt, &plan, "sow", Some(&["hoe", "reap"]));
    first(&rt, &plan, "reap", Some(&["sow", "hoe"]));
    needs(&rt, alloc, &plan, "reap", Some(&["hoe"]));
    users(&rt, alloc, &plan, "sow", Some(&["hoe"]));
}
