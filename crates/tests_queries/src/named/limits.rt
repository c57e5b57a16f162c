//! A dag whose index type has no index left.
use super::support::{add, depend, remove, set};
use crate::support::{made, same};
use daggy_named::error::{AddError, DependError, DependenciesError};
use daggy_named::named::Named;
use std::process::Abort;

type Small = Named<u32, (), (), u8>;

// Adds as many nodes and edges as there are indices.
fn fill(rt: &impl Abort, dag: &mut Small) {
    for key in 0..255 {
        made(rt, add(dag, key, ()));
    }
    for _edge in 0..255 {
        made(rt, depend(dag, &0, &1, ()));
    }
}

fn listed<'a>(rt: &impl Abort, dag: &Small, items: &[(&'a u32, ())]) -> Vec<(&'a u32, ())> {
    made(rt, items.to_vec(dag.dag().allocator()))
}

// The new edges need indices while the old edges still have theirs.
fn set_too_many(rt: &impl Abort, dag: &mut Small) {
    let (one, two) = (listed(rt, dag, &[(&0, ())]), listed(rt, dag, &[(&0, ())]));
    same(rt, set(dag, &1, one), Err(DependenciesError::Full(two)));
    // A cycle is reported before a lack of indices.
    let (one, two) = (listed(rt, dag, &[(&1, ())]), listed(rt, dag, &[(&1, ())]));
    same(
        rt,
        set(dag, &0, one),
        Err(DependenciesError::WouldCycle(two)),
    );
}

fn add_too_much(rt: &impl Abort, dag: &mut Small) {
    fill(rt, dag);
    same(rt, add(dag, 255, ()), Err(AddError::Full(255, ())));
    // A taken key is reported before a lack of indices.
    same(rt, add(dag, 3, ()), Err(AddError::Taken(3, ())));
    same(rt, depend(dag, &0, &1, ()), Err(DependError::Full(())));
    same(rt, depend(dag, &1, &0, ()), Err(DependError::Full(())));
    let unknown = depend(dag, &1, &255, ());
    same(rt, unknown, Err(DependError::UnknownDependent(())));
    set_too_many(rt, dag);
    // A removal makes room.
    same(rt, remove(dag, &1), Some((1, ())));
    made(rt, add(dag, 255, ()));
    made(rt, depend(dag, &0, &255, ()));
}

#[test]
fn no_index_is_left(rt: HostRuntime) {
    let mut dag: Small = Named::new(rt.alloc());
    add_too_much(&rt, &mut dag);
}
