//! A matrix of pairs of nodes.
ghost use Rattle.std.specs.Prelude.{◌≡◌, ℕ, ◌+◌, ◌*◌, ◌^◌, ◌<◌, ◌↔◌, ◌⊎◌, length, IsTrue, IfOk};
ghost use Rattle.std.specs.Prelude.{OnOk};
ghost use Rattle.daggy_visit.specs.Visit.{HasPair};

use crate::bits::Bits;
use daggy_base::index::{IndexType, NodeIndex};
use std::alloc::{AllocError, Global};
use std::fmt;
use std::marker::{Model, PhantomData};

/// A set of pairs of nodes whose indices are below a bound.
///
/// It takes a bit for each pair of indices below its bound, and each row fills whole words.
///
/// # Examples
///
/// ```
/// let mut pairs: AdjMatrix<u32> = AdjMatrix::new(rt.alloc(), 8)?;
/// let sow = NodeIndex::new(0);
/// let reap = NodeIndex::new(1);
/// pairs.join(sow, reap);
/// assert!(rt; pairs.has(sow, reap));
/// assert!(rt; !pairs.has(reap, sow));
/// ```
#[derive(Drop)]
pub struct AdjMatrix<Ix> {
    bits: Bits,
    bound: usize,
    // How many bits a row takes.
    width: usize,
    index: PhantomData<Ix>,
}

impl<Ix> Model for AdjMatrix<Ix> {
    ghost use Rattle.std.specs.Prelude.{◌≡◌, ◌*◌, ◌/◌, ◌^◌, ◌<◌, ◌≤◌, List, Bool, length};
    ghost use Rattle.daggy_visit.specs.Visit.{rows};

    ghost Value = { List (List Bool) };

    ghost view = { λ m. rows m.bound m.width m.bits };

    ghost invariant = { λ m. (length m.bits ≡ m.bound * m.width) × (m.bound * m.width < 2 ^ 64)
        × (m.bound ≤ m.width) × (m.width ≡ 64 * (m.width / 64)) };
}

/// The position of the flag of a pair.
#[inline]
fn place(bound: usize, width: usize, a: usize, b: usize) -> usize
    requires row { a < bound }
    requires column { b < width }
    requires fits { bound * width < 2 ^ 64 }
    ensures value { result ≡ a * width + b }
    ensures within { result < bound * width }
{
    a * width + b
}

impl<Ix: IndexType> AdjMatrix<Ix> {
    /// An empty matrix for the indices below a bound.
    ///
    /// # Errors
    ///
    /// Returns `AllocError` if an allocation fails, or if the matrix exceeds what a machine can
    /// address.
    ///
    /// # Complexity
    ///
    /// O(bound^2 / 64).
    pub fn new(alloc: Global, bound: usize) -> Result<AdjMatrix<Ix>, AllocError>
        ensures bound { IfOk result (λ matrix. length matrix ≡ bound) }
        ensures empty { IfOk result (λ matrix. (a b : ℕ) → ¬ HasPair matrix a b) }
        ensures fits { OnOk result (bound * bound < 2 ^ 64) }
    {
        let Some(width) = bound.div_ceil(64).checked_mul(64) else {
            return Err(AllocError);
        };
        let Some(count) = bound.checked_mul(width) else {
            return Err(AllocError);
        };
        let bits = Bits::new(alloc, count)?;
        Ok(AdjMatrix {
            bits,
            bound,
            width,
            index: PhantomData,
        })
    }

    /// Adds the pair of `a` and `b`, in this order. Nothing changes if the matrix contains it
    /// already.
    ///
    /// # Requires
    ///
    /// - `source`: The index of `a` is below the bound of the matrix.
    /// - `target`: The index of `b` is below the bound of the matrix.
    #[inline]
    pub fn join(&mut self, a: NodeIndex<Ix>, b: NodeIndex<Ix>)
        requires source { Ix.number a < length self.old }
        requires target { Ix.number b < length self.old }
        ensures joined { (u v : ℕ) → HasPair self.new u v
            ↔ (((u ≡ Ix.number a) × (v ≡ Ix.number b)) ⊎ HasPair self.old u v) }
        ensures bound { length self.new ≡ length self.old }
    {
        let i = place(self.bound, self.width, a.index(), b.index());
        self.bits.set(i);
    }

    /// For each pair from `b` to a node, adds the pair from `a` to that node.
    ///
    /// # Requires
    ///
    /// - `source`: The index of `a` is below the bound of the matrix.
    /// - `target`: The index of `b` is below the bound of the matrix.
    ///
    /// # Complexity
    ///
    /// O(bound / 64).
    ///
    /// # Examples
    ///
    /// ```
    /// let mut pairs: AdjMatrix<u32> = AdjMatrix::new(rt.alloc(), 8)?;
    /// let sow = NodeIndex::new(0);
    /// let hoe = NodeIndex::new(1);
    /// let reap = NodeIndex::new(2);
    /// pairs.join(hoe, reap);
    /// // What `hoe` is paired with, `sow` is paired with too.
    /// pairs.join_row(sow, hoe);
    /// assert!(rt; pairs.has(sow, reap));
    /// ```
    pub fn join_row(&mut self, a: NodeIndex<Ix>, b: NodeIndex<Ix>)
        requires source { Ix.number a < length self.old }
        requires target { Ix.number b < length self.old }
        ensures joined { (u v : ℕ) → HasPair self.new u v
            ↔ (((u ≡ Ix.number a) × HasPair self.old (Ix.number b) v) ⊎ HasPair self.old u v) }
        ensures bound { length self.new ≡ length self.old }
    {
        let words = self.width / 64;
        let (to, from) = (a.index(), b.index());
        if to != from {
            self.bits.unite_words(to * words, from * words, words);
        }
    }

    /// Whether the matrix contains the pair of `a` and `b`; false if an index is not below the
    /// bound.
    #[inline]
    pub fn has(&self, a: NodeIndex<Ix>, b: NodeIndex<Ix>) -> bool
        ensures { IsTrue result ↔ HasPair self.now (Ix.number a) (Ix.number b) }
    {
        let (row, column) = (a.index(), b.index());
        row < self.bound
            && column < self.bound
            && self.bits.get(place(self.bound, self.width, row, column))
    }
}

impl<Ix> fmt::Debug for AdjMatrix<Ix> {
    fn fmt<W: fmt::Write>(&self, f: &mut fmt::Formatter<W>) -> fmt::Result {
        f.debug_struct("AdjMatrix")
            .field("bound", &self.bound)
            .finish_non_exhaustive()
    }
}
