//! Random changes, in computed values and in their model.

use super::model::{Formula, LIMIT, Model, Node};
use super::refreshes::refreshes_alike;
use daggy::computed::Computed;
use daggy::run::Kind;
use daggy::{NodeIndex, Store};
use histories_model::random::Random;
use std::alloc::{AllocError, Global};

// A formula of a node. One in 256 fails.
fn formula(n: usize, random: &mut Random) -> Formula {
    let number = i64::try_from(random.below(3)).unwrap_or(0);
    let fails = random.once_in(256);
    Formula {
        node: n,
        number,
        fails,
    }
}

// A node of the model. None if the number that was drawn is that of no node.
fn any_node(model: &Model, random: &mut Random) -> Option<usize> {
    let n = random.below(LIMIT);
    model.get(n)?;
    Some(n)
}

// Adds a node.
fn add<S: Store<u32, NodeWeight = Formula, EdgeWeight = ()>>(
    alloc: Global,
    sheet: &mut Computed<Formula, i64, (), u32, S>,
    model: &mut Model,
    random: &mut Random,
) -> bool {
    let Some(n) = model.first_free() else {
        return true;
    };
    let formula = formula(n, random);
    let Ok(at) = sheet.try_add(formula) else {
        return false;
    };
    let node = Node {
        at,
        formula,
        parents: Vec::new(alloc),
        value: None,
        stale: true,
    };
    model.put(n, node)
}

// Sets the formula of a node.
fn set<S: Store<u32, NodeWeight = Formula, EdgeWeight = ()>>(
    sheet: &mut Computed<Formula, i64, (), u32, S>,
    model: &mut Model,
    n: usize,
    formula: Formula,
) -> bool {
    let Some(node) = model.get_mut(n) else {
        return false;
    };
    let same = sheet.try_set(node.at, formula) == Ok(node.formula);
    node.formula = formula;
    node.stale = true;
    same
}

// Up to three nodes.
fn some_nodes(alloc: Global, model: &Model, random: &mut Random) -> Result<Vec<usize>, AllocError> {
    let mut nodes = Vec::new(alloc);
    for _ in 0..random.below(4) {
        if let Some(n) = any_node(model, random) {
            nodes.push(n)?;
        }
    }
    Ok(nodes)
}

// The indices of nodes.
fn items(
    alloc: Global,
    model: &Model,
    nodes: &[usize],
) -> Result<Vec<(NodeIndex, ())>, AllocError> {
    let mut items = Vec::new(alloc);
    for n in nodes {
        if let Some(node) = model.get(*n) {
            items.push((node.at, ()))?;
        }
    }
    Ok(items)
}

// Replaces the formula and the parents of a node.
fn set_parents<S: Store<u32, NodeWeight = Formula, EdgeWeight = ()>>(
    alloc: Global,
    sheet: &mut Computed<Formula, i64, (), u32, S>,
    model: &mut Model,
    n: usize,
    formula: Formula,
    parents: Vec<usize>,
) -> Result<bool, AllocError> {
    let items = items(alloc, model, parents.as_slice())?;
    let closes = model.closes_cycle(n, parents.as_slice());
    let Some(node) = model.get_mut(n) else {
        return Ok(false);
    };
    if sheet.try_set_parents(node.at, formula, items).is_err() {
        return Ok(closes);
    }
    node.parents = parents;
    node.formula = formula;
    node.stale = true;
    Ok(!closes)
}

// Makes a node stale.
fn invalidate<S: Store<u32, NodeWeight = Formula, EdgeWeight = ()>>(
    sheet: &mut Computed<Formula, i64, (), u32, S>,
    model: &mut Model,
    n: usize,
) -> bool {
    let Some(node) = model.get_mut(n) else {
        return false;
    };
    node.stale = true;
    sheet.try_invalidate(node.at)
}

// Removes a node.
fn remove<S: Store<u32, NodeWeight = Formula, EdgeWeight = ()>>(
    sheet: &mut Computed<Formula, i64, (), u32, S>,
    model: &mut Model,
    n: usize,
) -> bool {
    let Some(node) = model.get(n) else {
        return false;
    };
    let at = node.at;
    let Some(cell) = sheet.try_remove(at) else {
        return false;
    };
    let same = cell.formula == node.formula && cell.value == node.value && cell.stale == node.stale;
    model.remove(n);
    match S::KIND {
        Kind::Compact => model.move_last(sheet.dag().node_count(), at),
        Kind::Stable => {}
    }
    same
}

// Makes a random change, or refreshes. Returns whether the model agrees.
fn step<S: Store<u32, NodeWeight = Formula, EdgeWeight = ()>>(
    alloc: Global,
    sheet: &mut Computed<Formula, i64, (), u32, S>,
    model: &mut Model,
    random: &mut Random,
) -> Result<bool, AllocError> {
    let chance = random.below(32);
    let Some(n) = any_node(model, random) else {
        return Ok(add(alloc, sheet, model, random));
    };
    Ok(match chance {
        0..=8 => {
            let formula = formula(n, random);
            set(sheet, model, n, formula)
        }
        9..=16 => {
            let parents = some_nodes(alloc, model, random)?;
            let formula = formula(n, random);
            set_parents(alloc, sheet, model, n, formula, parents)?
        }
        17 => invalidate(sheet, model, n),
        18 => remove(sheet, model, n),
        19..=22 => refreshes_alike(sheet, model, Some(n)),
        _ => refreshes_alike(sheet, model, None),
    })
}

/// Makes random changes, and returns the number of the first one at which the model disagrees.
pub fn first_difference<S: Store<u32, NodeWeight = Formula, EdgeWeight = ()>>(
    alloc: Global,
    sheet: &mut Computed<Formula, i64, (), u32, S>,
    model: &mut Model,
    random: &mut Random,
    changes: usize,
) -> Result<Option<usize>, AllocError> {
    for change in 0..changes {
        if !step(alloc, sheet, model, random)? {
            return Ok(Some(change));
        }
    }
    Ok(None)
}
