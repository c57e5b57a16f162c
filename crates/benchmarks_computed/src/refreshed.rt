//! Values that a refresh computes.
use crate::figures::{Figures, median, mixed, since};
use crate::formula::{Formula, number};
use crate::shapes::{Parents, Work};
use daggy::computed::{Computed, Inputs};
use daggy::{NodeIndex, Store};
use std::alloc::{AllocError, Global};
use std::cell::Cell;
use std::io;
use std::rt::CpuClock;

// The value of a node.
#[inline]
fn value(formula: &Formula, inputs: Inputs<'_, i64>) -> i64 {
    let mut value = formula.first();
    for input in inputs {
        value = formula.joined(value, *input);
    }
    formula.last(value)
}

// Adds the nodes, and then their parents. The error says that something was refused.
fn fill<S: Store<u32, NodeWeight = Formula, EdgeWeight = ()>>(
    sheet: &mut Computed<Formula, i64, (), u32, S>,
    formulas: &[Formula],
    parents: Vec<(NodeIndex, Parents)>,
) -> Result<(), AllocError> {
    for formula in formulas {
        if !sheet.can_add() || sheet.add(*formula).is_err() {
            return Err(AllocError);
        }
    }
    for (n, parents) in parents {
        let formula = formulas.get(n.index()).copied().unwrap_or(Formula::Sum(0));
        if !sheet.contains_node(n) || !sheet.contains_parents(parents.as_slice()) {
            return Err(AllocError);
        }
        if sheet.set_parents(n, formula, parents).is_err() {
            return Err(AllocError);
        }
    }
    Ok(())
}

// Gives the nodes that change the numbers of a round.
fn change<S: Store<u32, NodeWeight = Formula, EdgeWeight = ()>>(
    sheet: &mut Computed<Formula, i64, (), u32, S>,
    formulas: &[Formula],
    changed: &[NodeIndex],
    round: u32,
) {
    for n in changed {
        if let Some(formula) = formulas.get(n.index()) {
            if sheet.contains_node(*n) {
                let _old = sheet.set(*n, formula.with_number(number(n.index(), round)));
            }
        }
    }
}

// Computes what is stale. The error says that there was no memory.
#[inline]
fn refresh<S: Store<u32, NodeWeight = Formula, EdgeWeight = ()>>(
    sheet: &mut Computed<Formula, i64, (), u32, S>,
) -> Result<(), AllocError> {
    let f = |formula: &Formula, inputs: Inputs<'_, i64>| -> Result<i64, ()> {
        Ok(value(formula, inputs))
    };
    sheet.refresh(f).or(Err(AllocError))
}

// The same, and returns how many nodes were computed.
fn count<S: Store<u32, NodeWeight = Formula, EdgeWeight = ()>>(
    sheet: &mut Computed<Formula, i64, (), u32, S>,
) -> Result<u64, AllocError> {
    let computed = Cell::new(0u64);
    let f = |formula: &Formula, inputs: Inputs<'_, i64>| -> Result<i64, ()> {
        computed.set(computed.get().wrapping_add(1));
        Ok(value(formula, inputs))
    };
    match sheet.refresh(f) {
        Ok(()) => Ok(computed.get()),
        Err(_) => Err(AllocError),
    }
}

// A number of all values.
fn check<S: Store<u32, NodeWeight = Formula, EdgeWeight = ()>>(
    sheet: &Computed<Formula, i64, (), u32, S>,
    nodes: usize,
) -> u64 {
    let mut sum = 0u64;
    for n in 0..nodes {
        if n <= u32::MAX as usize {
            let value = sheet.last_value(NodeIndex::new(n)).copied().unwrap_or(0);
            sum = mixed(sum, value);
        }
    }
    sum
}

// Fills a sheet, and times that many rounds of changes. One more round is counted, and not timed.
fn time_rounds<S: Store<u32, NodeWeight = Formula, EdgeWeight = ()>, R: AllocGlobal + CpuClock>(
    rt: &R,
    sheet: &mut Computed<Formula, i64, (), u32, S>,
    work: Work,
    rounds: u32,
) -> io::Result<Figures> {
    let Work {
        formulas,
        parents,
        changed,
    } = work;
    fill(sheet, formulas.as_slice(), parents)?;
    refresh(sheet)?;
    let mut times = Vec::new(rt.alloc());
    for round in 0..rounds {
        let start = rt.process_cpu_time()?;
        change(sheet, formulas.as_slice(), changed.as_slice(), round);
        refresh(sheet)?;
        times.push(since(rt, start)?)?;
    }
    change(sheet, formulas.as_slice(), changed.as_slice(), rounds);
    let computed = count(sheet)?;
    let check = check(sheet, formulas.len());
    let time = median(times)?;
    Ok(Figures {
        time,
        computed,
        check,
    })
}

/// Changes, and a refresh.
pub fn refreshed<S, R>(rt: &R, work: Work, rounds: u32) -> io::Result<Figures>
where
    S: Store<u32, NodeWeight = Formula, EdgeWeight = ()>,
    R: AllocGlobal + CpuClock,
{
    let mut sheet: Computed<Formula, i64, (), u32, S> = Computed::new(rt.alloc());
    time_rounds(rt, &mut sheet, work, rounds)
}
