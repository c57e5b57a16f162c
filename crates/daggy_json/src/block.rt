//! A buffer of bytes for a writer, so that the writer is called for many bytes at once.
ghost use Rattle.std.specs.Prelude.{◌≡◌, ◌↔◌, ◌+◌, ◌<◌, ◌≤◌, [], ◌∷◌, ◌++◌, length, decimal, cond, IsTrue};
ghost use Rattle.std.specs.Bool.{OnTrue, OnFalse};
ghost use Rattle.daggy_json.specs.declared.block.TheConstants.{CAPACITY, LONGEST};

use itoa::write_digits;
use std::marker::Model;

/// How many bytes a block has room for.
const CAPACITY: usize = 4096;

/// How many bytes a number takes at most, with the comma before it.
const LONGEST: usize = 21;

/// At most `CAPACITY` bytes. Contracts see them as a list.
#[derive(Drop)]
pub(crate) struct Block {
    bytes: [u8; CAPACITY],
    len: usize,
}

impl Model for Block {
    ghost use Rattle.std.specs.Prelude.{ℕ, ◌≡◌, ◌≤◌, List, length, take};
    ghost use Rattle.daggy_json.specs.declared.block.TheConstants.{CAPACITY};

    ghost Value = { List ℕ };

    ghost view = { λ b. take b.len b.bytes };

    ghost invariant = { λ b. (b.len ≤ CAPACITY) × (length b.bytes ≡ CAPACITY) };
}

impl Block {
    /// An empty block.
    pub(crate) fn new() -> Block
        ensures { result ≡ [] }
    {
        Block {
            bytes: [0; CAPACITY],
            len: 0,
        }
    }

    /// The bytes.
    pub(crate) fn as_slice(&self) -> &[u8]
        ensures { result.now ≡ self.now }
    {
        &self.bytes[..self.len]
    }

    /// Removes all bytes.
    pub(crate) fn clear(&mut self)
        ensures { self.new ≡ [] }
    {
        self.len = 0;
    }

    /// Appends a byte. Returns false, and leaves the block unchanged, if there is no room for it.
    #[inline(always)]
    pub(crate) fn push(&mut self, byte: u8) -> bool
        ensures fits { IsTrue result ↔ (length self.old < CAPACITY) }
        ensures pushed { OnTrue result (self.new ≡ self.old ++ byte ∷ []) }
        ensures full { OnFalse result (self.new ≡ self.old) }
    {
        if self.len == CAPACITY {
            return false;
        }
        self.bytes[self.len] = byte;
        self.len += 1;
        true
    }

    /// Appends bytes. Returns false, and leaves the block unchanged, if there is no room for them.
    #[inline]
    pub(crate) fn extend_from_slice(&mut self, bytes: &[u8]) -> bool
        ensures fits { IsTrue result ↔ (length self.old + length bytes.now ≤ CAPACITY) }
        ensures extended { OnTrue result (self.new ≡ self.old ++ bytes.now) }
        ensures full { OnFalse result (self.new ≡ self.old) }
    {
        if CAPACITY - self.len < bytes.len() {
            return false;
        }
        let end = self.len + bytes.len();
        self.bytes[self.len..end].copy_from_slice(bytes);
        self.len = end;
        true
    }

    /// Whether there is room for any number and the comma before it.
    #[inline(always)]
    pub(crate) fn has_room(&self) -> bool
        ensures { IsTrue result ↔ (length self.now + LONGEST ≤ CAPACITY) }
    {
        self.len <= CAPACITY - LONGEST
    }

    /// Appends a byte, after a comma if `comma`.
    #[inline(always)]
    pub(crate) fn push_after_comma(&mut self, comma: bool, byte: u8)
        requires { length self.old + LONGEST ≤ CAPACITY }
        ensures { self.new ≡ self.old ++ (cond comma (44 ∷ []) [] ++ byte ∷ []) }
    {
        // If no comma is due, the byte overwrites it.
        self.bytes[self.len] = b',';
        let at = self.len + usize::from(comma);
        self.bytes[at] = byte;
        self.len = at + 1;
    }

    /// Appends a number, after a comma if `comma`. The digits are written where they stay.
    #[inline]
    pub(crate) fn push_number(&mut self, comma: bool, n: u64)
        requires { length self.old + LONGEST ≤ CAPACITY }
        ensures { self.new ≡ self.old ++ (cond comma (44 ∷ []) [] ++ decimal n) }
    {
        // If no comma is due, the first digit overwrites it.
        self.bytes[self.len] = b',';
        let end = self.len + usize::from(comma) + count_digits(n);
        write_digits(n, &mut self.bytes, end);
        self.len = end;
    }
}

// The number of digits of a number below 1,000,000.
#[inline]
fn count_few_digits(n: u64) -> usize
    requires { n < 1000000 }
    ensures { result ≡ length (decimal n) }
{
    if n < 10_000 {
        if n < 100 {
            if n < 10 { 1 } else { 2 }
        } else {
            if n < 1000 { 3 } else { 4 }
        }
    } else {
        if n < 100_000 { 5 } else { 6 }
    }
}

// The number of digits of a number. Most indices are so small that nothing is divided.
#[inline]
fn count_digits(n: u64) -> usize
    ensures { result ≡ length (decimal n) }
{
    let mut left = n;
    let mut count = 0;
    'digits: while left >= 1_000_000 {
        left /= 1_000_000;
        count += 6;
    }
    count + count_few_digits(left)
}
