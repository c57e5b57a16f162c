//! Short histories that disagree.
use crate::dag::kinds::Kind;
use crate::history::{Fault, replay};
use anyhow::Result;
use histories_model::calls::Call;
use std::alloc::Global;

/// A history that disagrees at its last call.
#[derive(Drop)]
pub struct Short {
    /// Which calls are left.
    pub kept: Vec<bool>,
    pub fault: Fault,
}

/// Leaves out calls that are not needed for some call to disagree. `None` if none disagrees.
pub fn shrink<S: Kind>(alloc: Global, calls: &[Call]) -> Result<Option<Short>> {
    let mut kept = Vec::new(alloc);
    kept.resize(calls.len(), true)?;
    let Some((last, mut fault)) = replay::<S>(alloc, calls, kept.as_slice())? else {
        return Ok(None);
    };
    leave_out(&mut kept, last.saturating_add(1), calls.len());
    // First halves, quarters and so on, and then single calls, several times.
    let mut length = calls.len();
    for _ in 0..24u8 {
        length = (length / 2).max(1);
        let mut start = 0usize;
        for _ in 0..calls.len() {
            let end = start.saturating_add(length);
            let mut trial = kept.clone()?;
            if leave_out(&mut trial, start, end) {
                if let Some((last, found)) = replay::<S>(alloc, calls, trial.as_slice())? {
                    leave_out(&mut trial, last.saturating_add(1), calls.len());
                    kept = trial;
                    fault = found;
                }
            }
            start = end;
        }
    }
    Ok(Some(Short { kept, fault }))
}

// Leaves out the calls from one position to another, and returns whether there were any.
fn leave_out(kept: &mut Vec<bool>, start: usize, end: usize) -> bool {
    let mut any = false;
    for (i, flag) in kept.as_mut_slice().iter_mut().enumerate() {
        if start <= i && i < end && *flag {
            *flag = false;
            any = true;
        }
    }
    any
}
