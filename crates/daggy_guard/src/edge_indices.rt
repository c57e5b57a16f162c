//! The indices of a batch of edges.
ghost use Rattle.std.specs.Prelude.{◌≡◌, ◌<◌, ◌^◌, map, length};
ghost use Rattle.std.specs.Iterator.{YieldsFirstBy, item_count};

use daggy_base::index::{EdgeIndex, IndexType};
use std::fmt;
use std::iter::{ExactSizeIterator, FusedIterator};
use std::marker::Model;

/// The indices of edges that were added together, in the order in which the edges were given.
///
/// # Examples
///
/// ```
/// let mut dag: Dag<&'static str, u32> = Dag::new(rt.alloc());
/// let sow = dag.add_node("sow")?;
/// let reap = dag.add_node("reap")?;
/// let items = Vec::from_array(rt.alloc(), [(sow, reap, 90), (sow, reap, 30)])?;
/// let added = dag.add_edges(items)?.into_vec();
/// assert!(rt; added.as_slice() == [EdgeIndex::new(0), EdgeIndex::new(1)].as_slice());
/// ```
#[derive(Drop)]
pub struct EdgeIndices<Ix: IndexType> {
    indices: Vec<EdgeIndex<Ix>>,
    at: usize,
}

impl<Ix: IndexType> Model for EdgeIndices<Ix> {
    ghost use Rattle.std.specs.Prelude.{ℕ, ◌≤◌, List, map, drop, vec_len};

    ghost Value = { List ℕ };

    ghost view = { λ s. map Ix.number (drop s.at s.indices.items) };

    ghost invariant = { λ s. s.at ≤ vec_len s.indices };
}

impl<Ix: IndexType> EdgeIndices<Ix> {
    pub(crate) fn new(indices: Vec<EdgeIndex<Ix>>) -> Self
        ensures indices { result ≡ map Ix.number indices.items }
        ensures fits { length result < 2 ^ 64 }
    {
        EdgeIndices { indices, at: 0 }
    }

    /// The indices that have not been yielded yet, as a list. Does not allocate.
    ///
    /// # Complexity
    ///
    /// O(1) if none has been yielded yet, and otherwise O(indices left), since these are moved.
    pub fn into_vec(self) -> Vec<EdgeIndex<Ix>>
        ensures { map Ix.number result.items ≡ self }
    {
        let at = self.at;
        let mut indices = self.indices;
        if at > 0 {
            drop(indices.drain(..at));
        }
        indices
    }
}

impl<Ix: IndexType> Iterator for EdgeIndices<Ix> {
    type Item = EdgeIndex<Ix>;

    ghost next_gives = { YieldsFirstBy Ix.number (λ rest. rest) };

    ghost remaining = { item_count (λ rest. rest) };

    #[inline]
    fn next(&mut self) -> Option<EdgeIndex<Ix>> {
        let e = *self.indices.get(self.at)?;
        self.at += 1;
        Some(e)
    }

    #[inline]
    fn size_hint(&self) -> (usize, Option<usize>) {
        let left = self.len();
        (left, Some(left))
    }
}

impl<Ix: IndexType> ExactSizeIterator for EdgeIndices<Ix> {
    #[inline]
    fn len(&self) -> usize {
        self.indices.len() - self.at
    }
}

impl<Ix: IndexType> FusedIterator for EdgeIndices<Ix> {}

impl<Ix: IndexType> fmt::Debug for EdgeIndices<Ix> {
    fn fmt<W: fmt::Write>(&self, f: &mut fmt::Formatter<W>) -> fmt::Result {
        f.debug_struct("EdgeIndices")
            .field("remaining", &self.len())
            .finish()
    }
}
