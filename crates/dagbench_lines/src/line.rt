//! The front of an unfinished line.
ghost use Rattle.std.specs.Prelude.{◌≡◌, ℕ, ◌≤◌, ◌==◌, List, [], ◌++◌, IfOk, take, length, vec_len};
ghost use Rattle.std.specs.Prelude.{vec_capacity};
ghost use Rattle.dagbench_lines.specs.Cutting.{kept_count};

use crate::parse::LONGEST_LINE;
use std::alloc::{AllocError, Global};
use std::marker::Model;

/// The most bytes kept of a line: one more than a command can have.
const KEPT: usize = LONGEST_LINE + 1;

/// The first bytes of a line: all that are needed to parse it.
#[derive(Drop)]
pub struct Line {
    bytes: Vec<u8>,
}

impl Model for Line {
    ghost Value = { List ℕ };

    ghost view = { λ s. s.bytes.items };

    ghost invariant = { λ s. (vec_len s.bytes ≤ 4097) × (4097 ≤ vec_capacity s.bytes) };
}

impl Line {
    /// An empty line. Allocates all the memory that it will need.
    pub fn new(alloc: Global) -> Result<Line, AllocError>
        ensures { IfOk result (λ line. line ≡ []) }
    {
        let bytes = Vec::with_capacity(alloc, KEPT)?;
        Ok(Line { bytes })
    }

    /// Appends bytes of the line, as far as there is room.
    pub fn keep(&mut self, more: &[u8])
        ensures { self.new ≡ take kept_count (self.old ++ more.now) }
    {
        let room = KEPT - self.bytes.len();
        let (front, _) = more.split_at(room.min(more.len()));
        let _ = self.bytes.extend_from_slice(front);
    }

    /// Clears it for the next line.
    pub fn clear(&mut self)
        ensures { self.new ≡ [] }
    {
        self.bytes.clear();
    }

    /// Whether nothing is kept.
    pub fn is_empty(&self) -> bool
        ensures { result ≡ (length self.now == 0) }
    {
        self.bytes.is_empty()
    }

    /// What is kept.
    pub fn as_slice(&self) -> &[u8]
        ensures { result.now ≡ self.now }
    {
        self.bytes.as_slice()
    }
}
