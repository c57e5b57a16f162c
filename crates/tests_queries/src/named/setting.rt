//! All dependencies of a node, set at once by key.
use super::support::add;
use crate::support::{made, same};
use daggy_named::error::DependenciesError;
use daggy_named::named::{Dependency, Named};
use std::alloc::Global;
use std::process::Abort;

type Plan = Named<String, u32, u32>;

fn text(rt: &impl Abort, alloc: Global, of: &str) -> String {
    made(rt, String::from_str(alloc, of))
}

fn listed<'a>(rt: &impl Abort, alloc: Global, items: &[(&'a str, u32)]) -> Vec<(&'a str, u32)> {
    made(rt, items.to_vec(alloc))
}

fn set<'a>(
    plan: &mut Plan,
    key: &'a str,
    items: Vec<(&'a str, u32)>,
) -> Result<(), DependenciesError<&'a str, u32>> {
    plan.set_dependencies(key, items)
}

// The weight of the newest edge between two keys.
fn weight_of(plan: &Plan, key: &str, on: &str) -> Option<u32> {
    let dag = plan.dag();
    let e = dag.find_edge(plan.index_of(on)?, plan.index_of(key)?)?;
    dag.edge_weight(e).copied()
}

// Asserts what a node depends on, newest edge first, with the weights of the edges.
fn needs(rt: &impl Abort, plan: &Plan, key: &str, wanted: &[(&'static str, u32)]) {
    match plan.dependencies(key) {
        Some(keys) => {
            let found: Vec<&String> = made(rt, keys.collect(plan.dag().allocator()));
            same(rt, found.len(), wanted.len());
            for (key, item) in found.iter().zip(wanted) {
                same(rt, key.as_str(), item.0);
            }
        }
        None => panic!(rt; "there is such a node"),
    }
    for item in wanted {
        same(rt, weight_of(plan, key, item.0), Some(item.1));
    }
}

// Hoe and water need sow, and reap needs them.
fn fill(rt: &impl Abort, alloc: Global, plan: &mut Plan) {
    for key in ["mow", "sow", "hoe", "water", "reap"] {
        made(rt, add(plan, text(rt, alloc, key), 1));
    }
    made(rt, set(plan, "hoe", listed(rt, alloc, &[("sow", 1)])));
    made(rt, set(plan, "water", listed(rt, alloc, &[("sow", 2)])));
    let both = listed(rt, alloc, &[("hoe", 3), ("water", 4)]);
    made(rt, set(plan, "reap", both));
}

#[test]
fn dependencies_are_replaced(rt: HostRuntime) {
    let alloc = rt.alloc();
    let mut plan: Plan = Named::new(alloc);
    fill(&rt, alloc, &mut plan);
    needs(&rt, &plan, "reap", &[("water", 4), ("hoe", 3)]);
    // The new edges are in the order of the items, the last one first in the list.
    let three = listed(&rt, alloc, &[("mow", 7), ("hoe", 8), ("sow", 9)]);
    made(&rt, set(&mut plan, "reap", three));
    needs(&rt, &plan, "reap", &[("sow", 9), ("hoe", 8), ("mow", 7)]);
    needs(&rt, &plan, "hoe", &[("sow", 1)]);
    // A key that occurs twice adds parallel edges.
    let twice = listed(&rt, alloc, &[("sow", 5), ("sow", 6)]);
    made(&rt, set(&mut plan, "mow", twice));
    let newest = plan.remove_dependency(Dependency {
        dependent: "mow",
        on: "sow",
    });
    same(&rt, newest, Some(6));
    needs(&rt, &plan, "mow", &[("sow", 5)]);
    made(&rt, set(&mut plan, "reap", Vec::new(alloc)));
    needs(&rt, &plan, "reap", &[]);
    same(&rt, plan.dag().edge_count(), 3);
}

// Asserts that a list of items is refused as a whole, and returned.
fn is_refused(
    rt: &impl Abort,
    alloc: Global,
    plan: &mut Plan,
    key: &'static str,
    items: &[(&'static str, u32)],
    error: DependenciesError<&'static str, u32>,
) {
    same(rt, set(plan, key, listed(rt, alloc, items)), Err(error));
    same(rt, plan.dag().edge_count(), 4);
    needs(rt, plan, "sow", &[]);
    needs(rt, plan, "hoe", &[("sow", 1)]);
    needs(rt, plan, "reap", &[("water", 4), ("hoe", 3)]);
}

fn refuse(rt: &impl Abort, alloc: Global, plan: &mut Plan) {
    const UNKNOWN: &[(&'static str, u32)] = &[("mow", 5), ("rake", 6), ("reap", 7), ("bale", 8)];
    let error = DependenciesError::UnknownDependency(1, listed(rt, alloc, UNKNOWN));
    is_refused(rt, alloc, plan, "sow", UNKNOWN, error);
    // An unknown dependent is reported first.
    let error = DependenciesError::UnknownDependent(listed(rt, alloc, UNKNOWN));
    is_refused(rt, alloc, plan, "rake", UNKNOWN, error);
    const CYCLIC: &[(&'static str, u32)] = &[("mow", 5), ("hoe", 6), ("reap", 7)];
    let error = DependenciesError::WouldCycle(listed(rt, alloc, CYCLIC));
    is_refused(rt, alloc, plan, "sow", CYCLIC, error);
    // A node does not depend on itself.
    const ITSELF: &[(&'static str, u32)] = &[("sow", 5), ("hoe", 6)];
    let error = DependenciesError::WouldCycle(listed(rt, alloc, ITSELF));
    is_refused(rt, alloc, plan, "hoe", ITSELF, error);
}

#[test]
fn dependencies_are_refused_as_a_whole(rt: HostRuntime) {
    let alloc = rt.alloc();
    let mut plan: Plan = Named::new(alloc);
    fill(&rt, alloc, &mut plan);
    refuse(&rt, alloc, &mut plan);
}
