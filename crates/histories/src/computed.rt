//! Random changes of computed values, beside a plain model of them.
mod changes;
mod model;
mod refreshes;

use anyhow::Result;
use changes::first_difference;
use daggy::Store;
use daggy::computed::Computed;
use histories_model::random::Random;
pub use model::Formula;
use model::Model;

/// Makes that many random changes, refreshes among them, in a dag that is empty at first, and returns
/// whether all agree with the model.
pub fn play<S: Store<u32, NodeWeight = Formula, EdgeWeight = ()>>(
    rt: &(impl Print + AllocGlobal),
    kind: &str,
    seed: u64,
    changes: usize,
) -> Result<bool> {
    let mut sheet: Computed<Formula, i64, (), u32, S> = Computed::new(rt.alloc());
    let mut model = Model::new(rt.alloc())?;
    let mut random = Random::new(seed);
    let found = first_difference(rt.alloc(), &mut sheet, &mut model, &mut random, changes)?;
    if let Some(change) = found {
        println!(rt; "{kind}: change {change} disagrees, seed {seed}")?;
        return Ok(false);
    }
    println!(rt; "{kind}: {changes} changes agree, seed {seed}")?;
    let (computed, kept) = (model.computed, model.kept);
    println!(rt; "{computed} values computed, of which {kept} stayed the same")?;
    Ok(true)
}
