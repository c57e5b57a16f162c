//! A list of flags of one bit each.
ghost use Rattle.std.specs.Prelude.{◌≡◌, ℕ, ◌+◌, ◌-◌, ◌*◌, ◌<◌, ◌≤◌, ◌⊎◌, ◌↔◌, List, Bool, true, false};
ghost use Rattle.std.specs.Prelude.{not, length};
ghost use Rattle.std.specs.Prelude.{slice_set, slice_index_or, replicate, OnOk, OnErr, IfOk, IsOk};
ghost use Rattle.daggy_visit.specs.United.{AreUnited};

use std::alloc::{AllocError, Global};
use std::marker::Model;

/// A flag for each number below a length, in words of 64.
#[derive(Drop)]
pub struct Bits {
    words: Vec<u64>,
    len: usize,
}

impl Model for Bits {
    ghost use Rattle.std.specs.Prelude.{List, Bool, ◌*◌, ◌≤◌, vec_len};
    ghost use Rattle.daggy_base.specs.Bits.{flags};

    ghost Value = { List Bool };

    ghost view = { λ b. flags b.words.items b.len };

    ghost invariant = { λ b. b.len ≤ 64 * vec_len b.words };
}

// Sets the bits in `count` words, from `to` on, that are set in as many words from `from` on.
fn unite(words: &mut [u64], to: usize, from: usize, count: usize)
    requires to { to + count ≤ length words.old }
    requires from { from + count ≤ length words.old }
    requires apart { (to + count ≤ from) ⊎ (from + count ≤ to) }
    ensures { AreUnited words.old words.new to from count }
{
    'words: for k in 0..count {
        words[to + k] = words[to + k] | words[from + k];
    }
}

impl Bits {
    /// `len` flags, all clear.
    pub fn new(alloc: Global, len: usize) -> Result<Bits, AllocError>
        ensures { IfOk result (λ bits. bits ≡ replicate len false) }
    {
        let words = vec![in alloc; 0u64; len.div_ceil(64)]?;
        Ok(Bits { words, len })
    }

    /// Clears all flags and makes it `len` long.
    pub fn reset(&mut self, len: usize) -> Result<(), AllocError>
        ensures ok { OnOk result (self.new ≡ replicate len false) }
        ensures err { OnErr result (self.new ≡ self.old) }
        ensures succeeds { len ≤ length self.old → IsOk result }
    {
        self.words.resize(len.div_ceil(64), 0)?;
        self.words.fill(0);
        self.len = len;
        Ok(())
    }

    #[inline]
    pub fn len(&self) -> usize
        ensures { result ≡ length self.now }
    {
        self.len
    }

    #[inline]
    pub fn get(&self, i: usize) -> bool
        requires { i < length self.now }
        ensures { result ≡ slice_index_or self.now i false }
    {
        (self.words[i / 64] >> (i % 64)) & 1 == 1
    }

    /// Sets a flag, and returns whether it was clear.
    #[inline]
    pub fn set(&mut self, i: usize) -> bool
        requires { i < length self.old }
        ensures clear { result ≡ not (slice_index_or self.old i false) }
        ensures after { self.new ≡ slice_set self.old i true }
    {
        let word = self.words[i / 64];
        self.words[i / 64] = word | (1u64 << (i % 64));
        (word >> (i % 64)) & 1 == 0
    }

    /// Sets in the `count` words starting at word `to` each flag that is set in the `count` words
    /// starting at word `from`.
    pub fn unite_words(&mut self, to: usize, from: usize, count: usize)
        requires to { 64 * (to + count) ≤ length self.old }
        requires from { 64 * (from + count) ≤ length self.old }
        requires apart { (to + count ≤ from) ⊎ (from + count ≤ to) }
        ensures united { (i : ℕ) → (slice_index_or self.new i false ≡ true)
            ↔ ((slice_index_or self.old i false ≡ true)
            ⊎ ((64 * to ≤ i) × (i < 64 * (to + count))
            × (slice_index_or self.old (i - 64 * to + 64 * from) false ≡ true))) }
        ensures same { length self.new ≡ length self.old }
    {
        unite(self.words.as_mut_slice(), to, from, count);
    }
}
