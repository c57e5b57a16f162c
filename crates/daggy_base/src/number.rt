//! Conversions of numbers to indices.
ghost use Rattle.std.specs.Prelude.{◌≡◌, ◌≤◌, IfErr};
ghost use Rattle.std.specs.Result.{OkIff};

use crate::index::{EdgeIndex, IndexType, NodeIndex};
use thiserror::Error;

/// A number that is greater than the greatest value of the index type, so that no index has it.
///
/// # Examples
///
/// ```
/// let small: Result<NodeIndex<u8>, _> = NodeIndex::try_from(255);
/// assert!(rt; small == Ok(NodeIndex::new(255)));
/// let large: Result<NodeIndex<u8>, _> = NodeIndex::try_from(256);
/// assert!(rt; large == Err(NoIndex(256)));
/// ```
#[derive(Clone, Copy, Debug, Drop, Eq, Error, PartialEq)]
#[error("the index type has no index {0}")]
pub struct NoIndex(pub usize);

impl<Ix: IndexType> TryFrom<usize> for NodeIndex<Ix> {
    type Error = NoIndex;

    ghost try_from_gives = { λ x r. OkIff r (x ≤ Ix.greatest) (Ix.of x) × IfErr r (λ e. e.0 ≡ x) };

    fn try_from(x: usize) -> Result<NodeIndex<Ix>, NoIndex> {
        if x > <Ix as IndexType>::max().index() {
            return Err(NoIndex(x));
        }
        Ok(NodeIndex::new(x))
    }
}

impl<Ix: IndexType> TryFrom<usize> for EdgeIndex<Ix> {
    type Error = NoIndex;

    ghost try_from_gives = { λ x r. OkIff r (x ≤ Ix.greatest) (Ix.of x) × IfErr r (λ e. e.0 ≡ x) };

    fn try_from(x: usize) -> Result<EdgeIndex<Ix>, NoIndex> {
        if x > <Ix as IndexType>::max().index() {
            return Err(NoIndex(x));
        }
        Ok(EdgeIndex::new(x))
    }
}
