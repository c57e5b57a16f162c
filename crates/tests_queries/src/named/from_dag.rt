//! Keys for the nodes of a dag that is there already.
use crate::support::{made, node, same};
use daggy_dag::acyclic::StableDag;
use daggy_named::error::KeysError;
use daggy_named::named::{FromDagError, Named};
use std::alloc::Global;
use std::process::Abort;

type Plan = Named<&'static str, u32, u32>;

// Nodes 0 and 2, with an edge from node 2 to node 0. Node 1 is removed.
fn dag_with_gap(rt: &impl Abort, alloc: Global) -> StableDag<u32, u32> {
    let mut plan: Plan = Named::new(alloc);
    for (key, weight) in [("first", 10), ("gone", 20), ("last", 30)] {
        made(rt, plan.add(key, weight));
    }
    made(rt, plan.depend("last", "first", 7));
    same(rt, plan.remove("gone"), Some(("gone", 20)));
    plan.into_dag()
}

fn named(
    rt: &impl Abort,
    alloc: Global,
    keys: &[&'static str],
) -> Result<Plan, FromDagError<&'static str, u32, u32>> {
    Named::from_dag(dag_with_gap(rt, alloc), made(rt, keys.to_vec(alloc)))
}

fn is_found(rt: &impl Abort, plan: &Plan, key: &str, found: Option<(usize, u32)>) {
    let index = plan.index_of(key).map(|n| n.index());
    same(rt, index, found.map(|x| x.0));
    same(rt, plan.weight(key).copied(), found.map(|x| x.1));
}

// Asserts why a dag got no keys, and that it is returned with them.
fn is_refused(rt: &impl Abort, alloc: Global, keys: &[&'static str], cause: KeysError) {
    match named(rt, alloc, keys) {
        Ok(_) => panic!(rt; "the keys were taken"),
        Err(error) => {
            same(rt, error.cause, cause);
            same(rt, error.keys.as_slice(), keys);
            same(rt, error.dag.node_weight(node(rt, 2)).copied(), Some(30));
        }
    }
}

#[test]
fn keys_are_given_to_existing_nodes(rt: HostRuntime) {
    let mut plan = made(&rt, named(&rt, rt.alloc(), &["sow", "hoe"]));
    is_found(&rt, &plan, "sow", Some((0, 10)));
    is_found(&rt, &plan, "hoe", Some((2, 30)));
    is_found(&rt, &plan, "mow", None);
    same(&rt, plan.key_of(node(&rt, 1)), None);
    same(&rt, made(&rt, plan.reaches("hoe", "sow")), true);
    // The vacant slot is used again.
    made(&rt, plan.add("mow", 40));
    is_found(&rt, &plan, "mow", Some((1, 40)));
}

#[test]
fn keys_that_do_not_fit_are_refused(rt: HostRuntime) {
    is_refused(&rt, rt.alloc(), &["sow"], KeysError::Count);
    is_refused(&rt, rt.alloc(), &["a", "b", "c"], KeysError::Count);
    // A wrong number of keys is reported first, even if a key is repeated.
    is_refused(&rt, rt.alloc(), &["a", "a", "a"], KeysError::Count);
    is_refused(&rt, rt.alloc(), &["sow", "sow"], KeysError::Repeated(1));
}
