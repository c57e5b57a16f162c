//! A set of nodes.
ghost use Rattle.std.specs.Prelude.{◌≡◌, ℕ, ◌<◌, ◌≤◌, ◌↔◌, ◌⊎◌, length, IsTrue, IsFalse, IfOk};
ghost use Rattle.std.specs.Prelude.{OnOk, OnErr, IsOk};
ghost use Rattle.daggy_visit.specs.Visit.{IsVisited};

use crate::bits::Bits;
use crate::visit::VisitMap;
use daggy_base::index::{IndexType, NodeIndex};
use std::alloc::{AllocError, Global};
use std::fmt;
use std::marker::{Model, PhantomData};

/// A set of nodes whose indices are below a bound.
///
/// It takes a bit for each index below its bound.
///
/// # Examples
///
/// ```
/// let mut seen: NodeSet<u32> = NodeSet::new(rt.alloc(), 8)?;
/// assert!(rt; seen.visit(NodeIndex::new(3)));
/// // It is no longer new.
/// assert!(rt; !seen.visit(NodeIndex::new(3)));
/// assert!(rt; !seen.is_visited(NodeIndex::new(4)));
/// ```
#[derive(Drop)]
pub struct NodeSet<Ix> {
    bits: Bits,
    index: PhantomData<Ix>,
}

impl<Ix> Model for NodeSet<Ix> {
    ghost use Rattle.std.specs.Prelude.{List, Bool};

    ghost Value = { List Bool };

    ghost view = { λ s. s.bits };
}

impl<Ix: IndexType> NodeSet<Ix> {
    /// An empty set for the indices below a bound.
    ///
    /// # Errors
    ///
    /// Returns `AllocError` if an allocation fails.
    ///
    /// # Complexity
    ///
    /// O(bound / 64).
    pub fn new(alloc: Global, bound: usize) -> Result<NodeSet<Ix>, AllocError>
        ensures bound { IfOk result (λ set. length set ≡ bound) }
        ensures empty { IfOk result (λ set. (n : ℕ) → ¬ IsVisited set n) }
    {
        let bits = Bits::new(alloc, bound)?;
        Ok(NodeSet {
            bits,
            index: PhantomData,
        })
    }

    /// Empties the set and sets its bound.
    ///
    /// # Errors
    ///
    /// Returns `AllocError` if an allocation fails; the set is unchanged.
    ///
    /// # Complexity
    ///
    /// O(bound / 64).
    ///
    /// # Examples
    ///
    /// ```
    /// let mut seen: NodeSet<u32> = NodeSet::new(rt.alloc(), 8)?;
    /// assert!(rt; seen.visit(NodeIndex::new(3)));
    /// seen.reset(100)?;
    /// assert!(rt; !seen.is_visited(NodeIndex::new(3)));
    /// assert!(rt; seen.visit(NodeIndex::new(99)));
    /// ```
    pub fn reset(&mut self, bound: usize) -> Result<(), AllocError>
        ensures bound { OnOk result (length self.new ≡ bound) }
        ensures empty { OnOk result ((n : ℕ) → ¬ IsVisited self.new n) }
        ensures err { OnErr result (self.new ≡ self.old) }
        ensures succeeds { bound ≤ length self.old → IsOk result }
    {
        self.bits.reset(bound)
    }

    /// Adds a node to the set, and returns whether it was new.
    ///
    /// # Requires
    ///
    /// - The index of `n` is below the bound of the set.
    #[inline]
    pub fn visit(&mut self, n: NodeIndex<Ix>) -> bool
        requires { Ix.number n < length self.old }
        ensures answer { IsFalse result ↔ IsVisited self.old (Ix.number n) }
        ensures visited { (m : ℕ) → IsVisited self.new m
            ↔ ((m ≡ Ix.number n) ⊎ IsVisited self.old m) }
        ensures bound { length self.new ≡ length self.old }
    {
        self.bits.set(n.index())
    }

    /// Whether the set contains a node; false if its index is not below the bound.
    #[inline]
    pub fn is_visited(&self, n: NodeIndex<Ix>) -> bool
        ensures { IsTrue result ↔ IsVisited self.now (Ix.number n) }
    {
        let i = n.index();
        i < self.bits.len() && self.bits.get(i)
    }
}

impl<Ix: IndexType> VisitMap<NodeIndex<Ix>> for NodeSet<Ix> {
    ghost visited = { λ set. set };

    ghost number = { λ n. Ix.number n };

    #[inline]
    fn visit(&mut self, a: NodeIndex<Ix>) -> bool
        requires { Ix.number a < length self.old }
        ensures answer { IsFalse result ↔ IsVisited self.old (Ix.number a) }
        ensures visited { (m : ℕ) → IsVisited self.new m
            ↔ ((m ≡ Ix.number a) ⊎ IsVisited self.old m) }
        ensures bound { length self.new ≡ length self.old }
    {
        self.visit(a)
    }

    #[inline]
    fn is_visited(&self, a: &NodeIndex<Ix>) -> bool
        ensures { IsTrue result ↔ IsVisited self.now (Ix.number a.now) }
    {
        self.is_visited(*a)
    }
}

impl<Ix> fmt::Debug for NodeSet<Ix> {
    fn fmt<W: fmt::Write>(&self, f: &mut fmt::Formatter<W>) -> fmt::Result {
        f.debug_struct("NodeSet")
            .field("bound", &self.bits.len())
            .finish_non_exhaustive()
    }
}
