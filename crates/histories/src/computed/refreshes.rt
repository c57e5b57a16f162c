//! Refreshes of computed values and of their model.

use super::model::{Formula, LIMIT, Model, is_in, joined, only, value_of};
use daggy::computed::{Computed, Inputs, RefreshError};
use daggy::{NodeIndex, Store};
use std::cell::Cell;

// The value of a node.
fn value(formula: &Formula, inputs: Inputs<'_, i64>) -> i64 {
    let mut sum = formula.number;
    let mut place = 1i64;
    for input in inputs {
        sum = joined(sum, place, *input);
        place = place.wrapping_add(1);
    }
    value_of(sum)
}

// Which nodes were computed, and whether one was computed twice.
#[derive(Drop)]
struct Seen {
    nodes: Cell<u128>,
    twice: Cell<bool>,
}

impl Seen {
    fn note(&self, n: usize) {
        let nodes = self.nodes.get();
        if is_in(n, nodes) {
            self.twice.set(true);
        }
        self.nodes.set(nodes | only(n));
    }
}

/// How a refresh ended.
#[derive(Clone, Copy)]
enum End {
    Done,
    Failed(NodeIndex, usize),
    Memory,
}

// Computes a node, unless its formula fails.
fn computed(seen: &Seen, formula: &Formula, inputs: Inputs<'_, i64>) -> Result<i64, usize> {
    if formula.fails {
        return Err(formula.node);
    }
    seen.note(formula.node);
    Ok(value(formula, inputs))
}

fn end_of(ended: Result<(), RefreshError<usize>>) -> End {
    match &ended {
        Ok(()) => End::Done,
        Err(RefreshError::Failed(n, node)) => End::Failed(*n, *node),
        Err(RefreshError::Memory) => End::Memory,
    }
}

// Computes all that is stale.
fn refresh_all<S: Store<u32, NodeWeight = Formula, EdgeWeight = ()>>(
    sheet: &mut Computed<Formula, i64, (), u32, S>,
    seen: &Seen,
) -> End {
    end_of(sheet.refresh(|formula, inputs| computed(seen, formula, inputs)))
}

// Computes one node with what it needs.
fn refresh_one<S: Store<u32, NodeWeight = Formula, EdgeWeight = ()>>(
    sheet: &mut Computed<Formula, i64, (), u32, S>,
    n: NodeIndex,
    seen: &Seen,
) -> End {
    end_of(sheet.refresh_node(n, |formula, inputs| computed(seen, formula, inputs)))
}

// Computes one node with what it needs, or all that is stale.
fn refresh<S: Store<u32, NodeWeight = Formula, EdgeWeight = ()>>(
    sheet: &mut Computed<Formula, i64, (), u32, S>,
    one: Option<NodeIndex>,
    seen: &Seen,
) -> End {
    match one {
        Some(n) => refresh_one(sheet, n, seen),
        None => refresh_all(sheet, seen),
    }
}

// Whether all values are those of the model.
fn same_values<S: Store<u32, NodeWeight = Formula, EdgeWeight = ()>>(
    sheet: &Computed<Formula, i64, (), u32, S>,
    model: &Model,
) -> bool {
    for n in 0..LIMIT {
        if let Some(node) = model.get(n) {
            if sheet.last_value(node.at).copied() != node.value {
                return false;
            }
        }
    }
    true
}

// Whether the nodes whose values were new are those of a set, each once.
fn same_changes(changed: &[NodeIndex], model: &Model, new: u128) -> bool {
    let mut rest = new;
    for at in changed {
        match model.node_at(*at) {
            Some(n) if is_in(n, rest) => rest &= !only(n),
            _ => return false,
        }
    }
    rest == 0
}

// Whether a refresh ended as it had to: of what it was to compute, nothing is stale, or it failed at a
// node that fails and is stale.
fn ended_rightly(end: End, model: &Model, wanted: u128) -> bool {
    match end {
        End::Done => model.stale() & wanted == 0,
        End::Failed(at, node) => {
            model.node_at(at) == Some(node)
                && model.get(node).is_some_and(|it| it.formula.fails)
                && is_in(node, model.stale() & wanted)
        }
        End::Memory => false,
    }
}

/// Refreshes one node or all, and plays the same in the model. Returns whether they agree.
pub fn refreshes_alike<S: Store<u32, NodeWeight = Formula, EdgeWeight = ()>>(
    sheet: &mut Computed<Formula, i64, (), u32, S>,
    model: &mut Model,
    one: Option<usize>,
) -> bool {
    let seen = Seen {
        nodes: Cell::new(0),
        twice: Cell::new(false),
    };
    let at = one.and_then(|n| model.get(n)).map(|node| node.at);
    let end = refresh(sheet, at, &seen);
    let wanted = one.map_or(u128::MAX, |n| model.above(n));
    if seen.twice.get() || seen.nodes.get() & !wanted != 0 {
        return false;
    }
    let Some(new) = model.compute_all(seen.nodes.get()) else {
        return false;
    };
    same_changes(sheet.changed(), model, new)
        && same_values(sheet, model)
        && ended_rightly(end, model, wanted)
        && sheet.is_fresh() == (model.stale() == 0)
        && (model.stale() != 0 || model.is_computed())
}
