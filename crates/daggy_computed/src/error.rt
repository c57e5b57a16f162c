//! Why a refresh ended early.

use daggy_base::index::{DefaultIx, IndexType, NodeIndex};
use thiserror::Error;

/// Why a refresh ended early. The nodes that were not computed are still stale, so the next refresh
/// continues with them.
///
/// # Examples
///
/// ```
/// let mut halves: ComputedDag<u32, u32, ()> = ComputedDag::new(rt.alloc());
/// let even = halves.add(4)?;
/// let odd = halves.add(5)?;
/// let halve = |formula: &u32, _inputs: Inputs<'_, u32>| -> Result<u32, u32> {
///     if *formula % 2 == 0 { Ok(*formula / 2) } else { Err(*formula) }
/// };
/// assert!(rt; halves.refresh(halve) == Err(RefreshError::Failed(odd, 5)));
/// assert!(rt; halves.value(odd).is_none());
/// assert!(rt; halves.set(odd, 6) == 5);
/// assert!(rt; halves.refresh(halve).is_ok() && halves.value(even) == Some(&2));
/// ```
#[derive(Debug, PartialEq, Drop, Error)]
pub enum RefreshError<X, Ix: IndexType = DefaultIx> {
    /// An allocation failed.
    #[error("out of memory")]
    Memory,
    /// The function returned an error for this node.
    #[error("the value of a node could not be computed")]
    Failed(NodeIndex<Ix>, X),
}
