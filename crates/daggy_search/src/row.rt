//! Rows of bits over a block of nodes.
ghost use Rattle.std.specs.Prelude.{◌≡◌, ℕ, ◌<◌, ◌↔◌, ◌⊎◌, false, true, slice_index_or, replicate};

use std::marker::Model;

/// The greatest number of nodes in a block.
pub const BLOCK: usize = 512;

/// A bit for each node of a block.
#[derive(Drop)]
pub struct Row {
    words: [u64; 8],
}

impl Model for Row {
    ghost use Rattle.std.specs.Prelude.{List, Bool};
    ghost use Rattle.daggy_base.specs.Bits.{flags};

    ghost Value = { List Bool };

    ghost view = { λ r. flags r.words 512 };
}

impl Row {
    /// An empty row.
    #[inline]
    pub fn new() -> Self
        ensures { result ≡ replicate 512 false }
    {
        Row { words: [0; 8] }
    }

    /// Whether a node is in the row.
    #[inline]
    pub fn contains(&self, i: usize) -> bool
        requires { i < 512 }
        ensures { result ≡ slice_index_or self.now i false }
    {
        (self.words[i / 64] >> (i % 64)) & 1 == 1
    }

    /// Adds a node to the row.
    #[inline]
    pub fn insert(&mut self, i: usize)
        requires { i < 512 }
        ensures { (j : ℕ) → (slice_index_or self.new j false ≡ true)
            ↔ ((slice_index_or self.old j false ≡ true) ⊎ (j ≡ i)) }
    {
        let word = self.words[i / 64];
        self.words[i / 64] = word | (1u64 << (i % 64));
    }

    /// Adds the nodes of another row.
    #[inline]
    pub fn union_with(&mut self, other: &Row)
        ensures { (i : ℕ) → (slice_index_or self.new i false ≡ true)
            ↔ ((slice_index_or self.old i false ≡ true)
            ⊎ (slice_index_or other.now i false ≡ true)) }
    {
        let mut k = 0;
        'words: while k < 8 {
            self.words[k] = self.words[k] | other.words[k];
            k += 1;
        }
    }

    /// Whether the rows have no node in common.
    #[inline]
    pub fn is_disjoint(&self, other: &Row) -> bool
        ensures { result ≡ true ↔ ((i : ℕ) → slice_index_or self.now i false ≡ true
            → slice_index_or other.now i false ≡ false) }
    {
        let mut common = 0;
        let mut k = 0;
        'words: while k < 8 {
            common = common | (self.words[k] & other.words[k]);
            k += 1;
        }
        common == 0
    }
}
