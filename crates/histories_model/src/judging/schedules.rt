//! Schedules, of which several are right.
use crate::answer::{Answer, Times};
use crate::model::Model;
use std::alloc::{AllocError, Global};

/// Whether a schedule has the times that are expected, and a critical path of that length.
pub fn is_schedule(model: &Model, expected: &Answer, found: &Times) -> bool {
    let Answer::Times(wanted) = expected else {
        return false;
    };
    wanted.starts == found.starts
        && wanted.finishes == found.finishes
        && wanted.slack == found.slack
        && wanted.makespan == found.makespan
        && length(model, found.critical.as_slice()) == Some(u128::from(found.makespan))
        && found.critical.is_empty() == (model.node_count() == 0)
}

// How long the nodes of a path take, if it is one.
fn length(model: &Model, nodes: &[usize]) -> Option<u128> {
    let mut length = 0u128;
    let mut last = None;
    for n in nodes {
        if let Some(last) = last {
            model.edge_between(last, *n)?;
        }
        length = length.saturating_add(u128::from(model.node(*n)?));
        last = Some(*n);
    }
    Some(length)
}

// How long a node takes.
fn duration(model: &Model, n: usize) -> u128 {
    match model.node(n) {
        Some(weight) => u128::from(weight),
        None => 0,
    }
}

/// Whether each node starts after its parents, no worker does two nodes at a time, and the last one
/// ends at the makespan, which is not too long.
pub fn is_assignment(
    alloc: Global,
    model: &Model,
    count: usize,
    found: &Answer,
) -> Result<bool, AllocError> {
    let mut total = 0u128;
    for n in model.existing()?.iter() {
        total = total.saturating_add(duration(model, *n));
    }
    let (workers, starts, makespan) = match found {
        Answer::Assigned {
            workers,
            starts,
            makespan,
        } => (workers.as_slice(), starts.as_slice(), u128::from(*makespan)),
        Answer::Overflow => return Ok(total > u128::from(u64::MAX)),
        _ => return Ok(false),
    };
    // The worker, the start and the end of each node.
    let mut shifts = Vec::new(alloc);
    for n in model.existing()?.iter() {
        let (Some(worker), Some(start)) = (workers.get(*n), starts.get(*n)) else {
            return Ok(false);
        };
        let start = u128::from(*start);
        if *worker >= count || !starts_after_parents(model, *n, starts) {
            return Ok(false);
        }
        shifts.push((*worker, start, start.saturating_add(duration(model, *n))))?;
    }
    shifts.sort()?;
    Ok(are_shifts(shifts.as_slice(), makespan) && is_short(model, total, count, makespan)?)
}

fn starts_after_parents(model: &Model, n: usize, starts: &[u64]) -> bool {
    let start = starts.get(n).copied().unwrap_or(0);
    for e in model.parents_of(n) {
        if let Some(edge) = model.edge(*e) {
            let begin = starts.get(edge.parent).copied().unwrap_or(0);
            let end = u128::from(begin).saturating_add(duration(model, edge.parent));
            if u128::from(start) < end {
                return false;
            }
        }
    }
    true
}

// Whether no worker has two of these shifts at a time, and the last one ends then.
fn are_shifts(shifts: &[(usize, u128, u128)], makespan: u128) -> bool {
    let mut last = 0u128;
    for (_, _, end) in shifts {
        last = last.max(*end);
    }
    for (one, next) in shifts.iter().zip(shifts.iter().skip(1)) {
        if one.0 == next.0 && next.1 < one.2 {
            return false;
        }
    }
    last == makespan
}

// Whether a makespan is within Graham's bound: the work that is shared by all workers, and the longest
// path while all but one are idle.
fn is_short(model: &Model, total: u128, count: usize, makespan: u128) -> Result<bool, AllocError> {
    let Some(longest) = model.makespan()? else {
        return Ok(false);
    };
    let count = count as u128;
    let idle = u128::from(longest).saturating_mul(count.saturating_sub(1));
    Ok(makespan.saturating_mul(count) <= total.saturating_add(idle))
}
