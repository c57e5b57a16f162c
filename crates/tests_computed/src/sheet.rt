//! A sheet of numbers, and its calls, which test what they require.

use daggy_base::index::NodeIndex;
use daggy_base::store::Store;
use daggy_computed::computed::Computed;
use daggy_computed::inputs::Inputs;
use daggy_dag::acyclic::TryParentsError;
use std::process::Abort;

/// An input, or what is made of the parents' values.
#[derive(Clone, Copy, Drop)]
pub enum Formula {
    Input(i64),
    Sum,
    Less,
    IsOdd,
    Fails,
}

fn sum(inputs: Inputs<'_, i64>) -> i64 {
    let mut sum = 0i64;
    for value in inputs {
        sum = sum.saturating_add(*value);
    }
    sum
}

/// The value of a formula.
pub fn value(formula: &Formula, inputs: Inputs<'_, i64>) -> Result<i64, u32> {
    match formula {
        Formula::Input(value) => Ok(*value),
        Formula::Sum => Ok(sum(inputs)),
        Formula::Less => match (inputs.get(0), inputs.get(1)) {
            (Some(a), Some(b)) => Ok((*a).saturating_sub(*b)),
            _ => Ok(0),
        },
        Formula::IsOdd => Ok(sum(inputs).rem_euclid(2)),
        Formula::Fails => Err(7),
    }
}

/// Adds a node.
pub fn add<S: Store<u32, NodeWeight = Formula, EdgeWeight = ()>>(
    rt: &impl Abort,
    sheet: &mut Computed<Formula, i64, (), u32, S>,
    formula: Formula,
) -> NodeIndex {
    match sheet.try_add(formula) {
        Ok(n) => n,
        Err(_) => panic!(rt; "not added"),
    }
}

/// Sets the formula of a node.
pub fn set<S: Store<u32, NodeWeight = Formula, EdgeWeight = ()>>(
    rt: &impl Abort,
    sheet: &mut Computed<Formula, i64, (), u32, S>,
    n: NodeIndex,
    formula: Formula,
) {
    assert!(rt; sheet.try_set(n, formula).is_ok());
}

/// Sets the formula and the parents of a node. Returns whether that closes no cycle.
pub fn set_parents<S: Store<u32, NodeWeight = Formula, EdgeWeight = ()>>(
    rt: &impl Abort,
    sheet: &mut Computed<Formula, i64, (), u32, S>,
    n: NodeIndex,
    formula: Formula,
    parents: Vec<(NodeIndex, ())>,
) -> bool {
    match sheet.try_set_parents(n, formula, parents) {
        Ok(_) => true,
        Err((_, TryParentsError::Refused(_))) => false,
        Err(_) => panic!(rt; "a node that does not exist"),
    }
}

/// Removes a node.
pub fn remove<S: Store<u32, NodeWeight = Formula, EdgeWeight = ()>>(
    rt: &impl Abort,
    sheet: &mut Computed<Formula, i64, (), u32, S>,
    n: NodeIndex,
) {
    assert!(rt; sheet.try_remove(n).is_some());
}

/// Makes a node stale.
pub fn invalidate<S: Store<u32, NodeWeight = Formula, EdgeWeight = ()>>(
    rt: &impl Abort,
    sheet: &mut Computed<Formula, i64, (), u32, S>,
    n: NodeIndex,
) {
    assert!(rt; sheet.try_invalidate(n));
}

/// Refreshes, and asserts which nodes have new values.
pub fn refreshes<S: Store<u32, NodeWeight = Formula, EdgeWeight = ()>>(
    rt: &impl Abort,
    sheet: &mut Computed<Formula, i64, (), u32, S>,
    wanted: &[NodeIndex],
) {
    assert!(rt; sheet.refresh(value).is_ok());
    assert!(rt; sheet.is_fresh());
    assert!(rt; sheet.changed() == wanted);
}

/// Computes one node with what it needs, and asserts which nodes have new values.
pub fn refreshes_node<S: Store<u32, NodeWeight = Formula, EdgeWeight = ()>>(
    rt: &impl Abort,
    sheet: &mut Computed<Formula, i64, (), u32, S>,
    n: NodeIndex,
    wanted: &[NodeIndex],
) {
    assert!(rt; sheet.refresh_node(n, value).is_ok());
    assert!(rt; sheet.changed() == wanted);
    assert!(rt; matches!(sheet.is_up_to_date(n), Ok(true)));
}

/// Asserts the value of a node.
pub fn has<S: Store<u32, NodeWeight = Formula, EdgeWeight = ()>>(
    rt: &impl Abort,
    sheet: &Computed<Formula, i64, (), u32, S>,
    n: NodeIndex,
    wanted: i64,
) {
    assert!(rt; sheet.value(n) == Some(&wanted));
}
