//! Iterating over an order.
ghost use Rattle.std.specs.Prelude.{◌≡◌, ◌<◌, ◌^◌, length};
ghost use Rattle.std.specs.Iterator.{YieldsFirstBy, YieldsLastBy, item_count};

use crate::list::LabeledList;
use crate::order::Order;
use daggy_base::index::{DefaultIx, IndexType, NodeIndex};
use daggy_base::link::Link;
use std::alloc::AllocError;
use std::fmt;
use std::iter::{DoubleEndedIterator, ExactSizeIterator, FusedIterator};
use std::marker::Model;

/// A double-ended iterator over the nodes of an order, from the first to the last. Returned by
/// [`nodes`](Order::nodes).
///
/// # Examples
///
/// ```
/// let mut order: Order = Order::new(rt.alloc());
/// let sow = NodeIndex::new(0);
/// let reap = NodeIndex::new(1);
/// order.push(sow)?;
/// order.push(reap)?;
/// let back: Vec<_> = order.nodes().rev().collect(rt.alloc())?;
/// assert!(rt; back.as_slice() == [reap, sow].as_slice());
/// ```
#[derive(Drop)]
pub struct Nodes<'a, Ix: IndexType = DefaultIx> {
    list: &'a LabeledList<Ix>,
    at: Link<Ix>,
    back: Link<Ix>,
    left: usize,
    from: usize,
    count: usize,
}

impl<'a, Ix: IndexType> Model for Nodes<'a, Ix> {
    ghost use Rattle.std.specs.Prelude.{ℕ, List, ◌++◌};
    ghost use Rattle.std.specs.List.{range_with_len};
    ghost use Rattle.daggy_order.specs.Links.{nodes_at, IsAmong};

    ghost Value = { List ℕ };

    ghost view = { λ it.
        nodes_at it.left it.at it.list.now.nodes ++ range_with_len it.from it.count };

    ghost invariant = { λ it.
        IsAmong Ix.greatest it.list.now.nodes it.left it.at it.back it.from it.count };
}

impl<Ix: IndexType> Order<Ix> {
    /// The nodes, from the first to the last.
    ///
    /// # Complexity
    ///
    /// O(nodes) for the whole iteration.
    #[inline]
    pub fn nodes(&self) -> Nodes<'_, Ix>
        ensures rest { result ≡ self.now }
        ensures fits { length result < 2 ^ 64 }
    {
        Nodes {
            list: &self.list,
            at: self.list.first(),
            back: self.list.last(),
            left: self.list.len(),
            from: self.tail.from,
            count: self.tail.count,
        }
    }
}

impl<'a, Ix: IndexType> Iterator for Nodes<'a, Ix> {
    type Item = NodeIndex<Ix>;

    ghost next_gives = { YieldsFirstBy Ix.number (λ rest. rest) };

    ghost remaining = { item_count (λ rest. rest) };

    #[inline]
    fn next(&mut self) -> Option<NodeIndex<Ix>> {
        if self.left == 0 {
            if self.count == 0 {
                return None;
            }
            let n = NodeIndex::new(self.from);
            self.from += 1;
            self.count -= 1;
            return Some(n);
        }
        let n = self.at;
        self.at = self.list.next(n);
        self.left -= 1;
        Some(n.node())
    }

    #[inline]
    fn size_hint(&self) -> (usize, Option<usize>) {
        let left = self.len();
        (left, Some(left))
    }
}

impl<'a, Ix: IndexType> DoubleEndedIterator for Nodes<'a, Ix> {
    ghost next_back_gives = { YieldsLastBy Ix.number (λ rest. rest) };

    #[inline]
    fn next_back(&mut self) -> Option<NodeIndex<Ix>> {
        if self.count == 0 {
            if self.left == 0 {
                return None;
            }
            let n = self.back;
            self.back = self.list.previous(n);
            self.left -= 1;
            return Some(n.node());
        }
        self.count -= 1;
        Some(NodeIndex::new(self.from + self.count))
    }
}

impl<'a, Ix: IndexType> ExactSizeIterator for Nodes<'a, Ix> {
    #[inline]
    fn len(&self) -> usize {
        self.left + self.count
    }
}

impl<'a, Ix: IndexType> FusedIterator for Nodes<'a, Ix> {}

impl<'a, Ix: IndexType> Clone for Nodes<'a, Ix> {
    ghost is_clone = { λ a b. a ≡ b };

    fn clone(&self) -> Result<Self, AllocError> {
        Ok(Nodes {
            list: self.list,
            at: self.at,
            back: self.back,
            left: self.left,
            from: self.from,
            count: self.count,
        })
    }
}

impl<'a, Ix: IndexType> fmt::Debug for Nodes<'a, Ix> {
    fn fmt<W: fmt::Write>(&self, f: &mut fmt::Formatter<W>) -> fmt::Result {
        f.debug_struct("Nodes")
            .field("remaining", &self.len())
            .finish()
    }
}
