//! Worked rows, for both kinds. Random changes are played beside a model in `histories`.

use crate::sheet::{
    Formula, add, has, invalidate, refreshes, refreshes_node, remove, set, set_parents, value,
};
use daggy_base::error::{NodeError, ParentsError};
use daggy_base::index::NodeIndex;
use daggy_base::store::Store;
use daggy_computed::computed::{Computed, ComputedDag, StableComputedDag};
use daggy_dag::acyclic::TryParentsError;
use std::alloc::{AllocError, Global};
use std::process::Abort;
use std::test::Fail;

// The order of the parents is that of the items, and a change is passed on.
fn passes_on<S: Store<u32, NodeWeight = Formula, EdgeWeight = ()>>(
    rt: &impl Abort,
    alloc: Global,
    mut sheet: Computed<Formula, i64, (), u32, S>,
) -> Result<(), Fail> {
    let a = add(rt, &mut sheet, Formula::Input(5));
    let b = add(rt, &mut sheet, Formula::Input(3));
    let less = add(rt, &mut sheet, Formula::Sum);
    let parents = Vec::from_array(alloc, [(a, ()), (b, ())])?;
    assert!(rt; set_parents(rt, &mut sheet, less, Formula::Less, parents));
    assert!(rt; sheet.value(less).is_none());
    refreshes(rt, &mut sheet, &[a, b, less]);
    has(rt, &sheet, less, 2);
    set(rt, &mut sheet, b, Formula::Input(6));
    assert!(rt; !sheet.is_fresh());
    assert!(rt; sheet.last_value(less) == Some(&2));
    refreshes(rt, &mut sheet, &[b, less]);
    has(rt, &sheet, less, -1);
    Ok(())
}

#[test]
fn a_change_is_passed_on(rt: HostRuntime) -> Result<(), Fail> {
    let alloc = rt.alloc();
    passes_on(&rt, alloc, ComputedDag::new(alloc))?;
    passes_on(&rt, alloc, StableComputedDag::new(alloc))
}

// An equal value is not passed on.
fn cuts_off<S: Store<u32, NodeWeight = Formula, EdgeWeight = ()>>(
    rt: &impl Abort,
    alloc: Global,
    mut sheet: Computed<Formula, i64, (), u32, S>,
) -> Result<(), Fail> {
    let a = add(rt, &mut sheet, Formula::Input(5));
    let odd = add(rt, &mut sheet, Formula::Sum);
    let below = add(rt, &mut sheet, Formula::Sum);
    let parents = Vec::from_array(alloc, [(a, ())])?;
    assert!(rt; set_parents(rt, &mut sheet, odd, Formula::IsOdd, parents));
    let parents = Vec::from_array(alloc, [(odd, ()), (odd, ())])?;
    assert!(rt; set_parents(rt, &mut sheet, below, Formula::Sum, parents));
    refreshes(rt, &mut sheet, &[a, odd, below]);
    has(rt, &sheet, below, 2);
    set(rt, &mut sheet, a, Formula::Input(7));
    refreshes(rt, &mut sheet, &[a]);
    invalidate(rt, &mut sheet, below);
    refreshes(rt, &mut sheet, &[]);
    let parents = Vec::from_array(alloc, [(below, ())])?;
    assert!(rt; !set_parents(rt, &mut sheet, a, Formula::Sum, parents));
    has(rt, &sheet, below, 2);
    Ok(())
}

#[test]
fn an_equal_value_is_not_passed_on(rt: HostRuntime) -> Result<(), Fail> {
    let alloc = rt.alloc();
    cuts_off(&rt, alloc, ComputedDag::new(alloc))?;
    cuts_off(&rt, alloc, StableComputedDag::new(alloc))
}

#[test]
fn the_last_node_moves(rt: HostRuntime) -> Result<(), Fail> {
    let alloc = rt.alloc();
    let mut sheet = ComputedDag::new(alloc);
    let a = add(&rt, &mut sheet, Formula::Input(5));
    let b = add(&rt, &mut sheet, Formula::Input(3));
    let s = add(&rt, &mut sheet, Formula::Sum);
    let parents = Vec::from_array(alloc, [(a, ()), (b, ())])?;
    assert!(rt; set_parents(&rt, &mut sheet, s, Formula::Sum, parents));
    refreshes(&rt, &mut sheet, &[a, b, s]);
    remove(&rt, &mut sheet, a);
    assert!(rt; !sheet.is_fresh());
    refreshes(&rt, &mut sheet, &[a]);
    has(&rt, &sheet, a, 3);
    Ok(())
}

#[test]
fn a_slot_is_used_again(rt: HostRuntime) -> Result<(), Fail> {
    let alloc = rt.alloc();
    let mut sheet = StableComputedDag::new(alloc);
    let a = add(&rt, &mut sheet, Formula::Input(5));
    let s = add(&rt, &mut sheet, Formula::Sum);
    let parents = Vec::from_array(alloc, [(a, ()), (a, ())])?;
    assert!(rt; set_parents(&rt, &mut sheet, s, Formula::Sum, parents));
    refreshes(&rt, &mut sheet, &[a, s]);
    has(&rt, &sheet, s, 10);
    remove(&rt, &mut sheet, a);
    let b = add(&rt, &mut sheet, Formula::Input(1));
    assert!(rt; b == a);
    assert!(rt; sheet.refresh(value).is_ok());
    has(&rt, &sheet, s, 0);
    has(&rt, &sheet, b, 1);
    Ok(())
}

// A node that fails stays stale, and so do those below it; the others have their values.
#[test]
fn a_refresh_is_taken_up_again(rt: HostRuntime) -> Result<(), Fail> {
    let alloc = rt.alloc();
    let mut sheet = ComputedDag::new(alloc);
    let a = add(&rt, &mut sheet, Formula::Input(1));
    let b = add(&rt, &mut sheet, Formula::Fails);
    let c = add(&rt, &mut sheet, Formula::Sum);
    let parents = Vec::from_array(alloc, [(a, ()), (b, ())])?;
    assert!(rt; set_parents(&rt, &mut sheet, c, Formula::Sum, parents));
    assert!(rt; sheet.refresh(value).is_err());
    assert!(rt; sheet.changed() == [a].as_slice());
    assert!(rt; sheet.last_value(a) == Some(&1));
    set(&rt, &mut sheet, b, Formula::Input(2));
    refreshes(&rt, &mut sheet, &[b, c]);
    has(&rt, &sheet, c, 3);
    Ok(())
}

// Only what the node needs is computed; the rest stays stale until a refresh.
fn computes_one<S: Store<u32, NodeWeight = Formula, EdgeWeight = ()>>(
    rt: &impl Abort,
    alloc: Global,
    mut sheet: Computed<Formula, i64, (), u32, S>,
) -> Result<(), Fail> {
    let a = add(rt, &mut sheet, Formula::Input(1));
    let b = add(rt, &mut sheet, Formula::Input(2));
    let s = add(rt, &mut sheet, Formula::Sum);
    let below = add(rt, &mut sheet, Formula::Sum);
    let other = add(rt, &mut sheet, Formula::Sum);
    let parents = Vec::from_array(alloc, [(a, ()), (a, ())])?;
    assert!(rt; set_parents(rt, &mut sheet, s, Formula::Sum, parents));
    let parents = Vec::from_array(alloc, [(s, ()), (b, ())])?;
    assert!(rt; set_parents(rt, &mut sheet, below, Formula::Sum, parents));
    let parents = Vec::from_array(alloc, [(a, ())])?;
    assert!(rt; set_parents(rt, &mut sheet, other, Formula::Sum, parents));
    refreshes_node(rt, &mut sheet, s, &[a, s]);
    assert!(rt; sheet.last_value(s) == Some(&2));
    assert!(rt; sheet.last_value(below).is_none());
    assert!(rt; matches!(sheet.is_up_to_date(below), Ok(false)));
    assert!(rt; sheet.value(s).is_none());
    refreshes_node(rt, &mut sheet, s, &[]);
    refreshes_node(rt, &mut sheet, below, &[b, below]);
    refreshes(rt, &mut sheet, &[other]);
    set(rt, &mut sheet, a, Formula::Input(5));
    assert!(rt; matches!(sheet.is_up_to_date(below), Ok(false)));
    assert!(rt; matches!(sheet.is_up_to_date(b), Ok(true)));
    refreshes_node(rt, &mut sheet, other, &[a, other]);
    refreshes(rt, &mut sheet, &[s, below]);
    has(rt, &sheet, below, 12);
    Ok(())
}

#[test]
fn one_node_is_computed_on_demand(rt: HostRuntime) -> Result<(), Fail> {
    let alloc = rt.alloc();
    computes_one(&rt, alloc, ComputedDag::new(alloc))?;
    computes_one(&rt, alloc, StableComputedDag::new(alloc))
}

// The calls that test what others require, of nodes that do not exist, and where no index is left.
fn refuses<S: Store<u8, NodeWeight = i64, EdgeWeight = ()>>(
    rt: &impl Abort,
    alloc: Global,
    mut sums: Computed<i64, i64, (), u8, S>,
) -> Result<(), Fail> {
    let Ok(n) = sums.try_add(3) else {
        panic!(rt; "not added");
    };
    let missing = NodeIndex::new(9);
    assert!(rt; sums.formula(n) == Some(&3) && sums.formula(missing).is_none());
    assert!(rt; sums.try_set(missing, 5) == Err(5));
    assert!(rt; !sums.try_invalidate(missing));
    assert!(rt; sums.try_remove(missing).is_none());
    assert!(rt; is_missing(alloc, &mut sums, n, missing)?);
    assert!(rt; is_missing(alloc, &mut sums, missing, n)?);
    assert!(rt; !is_missing(alloc, &mut sums, n, n)?);
    for _ in 1..255 {
        assert!(rt; sums.try_add(1).is_ok());
    }
    assert!(rt; sums.try_add(7) == Err(NodeError::Full(7)));
    assert!(rt; sums.try_remove(n).is_some_and(|cell| cell.formula == 3));
    Ok(())
}

// Whether a node does not get a parent because one of the two does not exist.
fn is_missing<S: Store<u8, NodeWeight = i64, EdgeWeight = ()>>(
    alloc: Global,
    sums: &mut Computed<i64, i64, (), u8, S>,
    n: NodeIndex<u8>,
    parent: NodeIndex<u8>,
) -> Result<bool, AllocError> {
    let parents = Vec::from_array(alloc, [(parent, ())])?;
    match sums.try_set_parents(n, 4, parents) {
        Err((formula, TryParentsError::Missing(parents))) => {
            Ok(formula == 4 && parents.as_slice() == [(parent, ())].as_slice())
        }
        _ => Ok(false),
    }
}

#[test]
fn what_does_not_exist_is_refused(rt: HostRuntime) -> Result<(), Fail> {
    let alloc = rt.alloc();
    refuses(&rt, alloc, ComputedDag::new(alloc))?;
    refuses(&rt, alloc, StableComputedDag::new(alloc))
}

// How many parents a node does not get because too few indices are left for the edges.
fn parents_too_many<S: Store<u8, NodeWeight = i64, EdgeWeight = ()>>(
    alloc: Global,
    sums: &mut Computed<i64, i64, (), u8, S>,
    n: NodeIndex<u8>,
    parent: NodeIndex<u8>,
    count: usize,
) -> Result<usize, AllocError> {
    let mut parents = Vec::new(alloc);
    for _ in 0..count {
        parents.push((parent, ()))?;
    }
    match sums.try_set_parents(n, 4, parents) {
        Err((4, TryParentsError::Refused(ParentsError::Full(parents)))) => Ok(parents.len()),
        _ => Ok(0),
    }
}

// An `u8` has 255 indices for edges. New edges need indices in addition to the old ones.
fn fills_the_edges<S: Store<u8, NodeWeight = i64, EdgeWeight = ()>>(
    rt: &impl Abort,
    alloc: Global,
    mut sums: Computed<i64, i64, (), u8, S>,
) -> Result<(), Fail> {
    let (Ok(a), Ok(b)) = (sums.try_add(1), sums.try_add(2)) else {
        panic!(rt; "not added");
    };
    assert!(rt; parents_too_many(alloc, &mut sums, b, a, 256)? == 256);
    assert!(rt; parents_too_many(alloc, &mut sums, b, a, 255)? == 0);
    assert!(rt; sums.dag().edge_count() == 255);
    assert!(rt; parents_too_many(alloc, &mut sums, b, a, 1)? == 1);
    // A cycle is reported first.
    assert!(rt; parents_too_many(alloc, &mut sums, a, b, 1)? == 0);
    assert!(rt; sums.formula(b) == Some(&4) && sums.formula(a) == Some(&1));
    Ok(())
}

#[test]
fn parents_without_indices_are_refused(rt: HostRuntime) -> Result<(), Fail> {
    let alloc = rt.alloc();
    fills_the_edges(&rt, alloc, ComputedDag::new(alloc))?;
    fills_the_edges(&rt, alloc, StableComputedDag::new(alloc))
}
