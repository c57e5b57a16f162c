//! A source and a sink in memory, which can be told to fail.
ghost use Rattle.std.specs.Prelude.{◌≡◌, ◌≢◌, ◌↔◌, ℕ, ◌≤◌, ◌<◌, ◌^◌, ◌++◌, ◌-◌, min, List, []};
ghost use Rattle.std.specs.Prelude.{None, Some, false, take, drop, length, IsOk, IsErr, IfOk, OnOk};
ghost use Rattle.dagbench_lines.specs.Devices.{TakesFrom};
ghost use Rattle.dagbench_lines.specs.Streams.{CountsFaults, Appends, Gives, MeetsEnd};
ghost use Rattle.dagbench_lines.specs.Failing.{passes_after};

use crate::history::History;
use crate::stream::{Fault, Sink, Source};
use std::alloc::Global;
use std::marker::Model;

/// Counts a call; the one after `passes` successful calls fails.
fn pass(passes: &mut Option<usize>) -> Result<(), Fault>
    ensures fault { IsOk result ↔ (passes.old ≢ Some 0) }
    ensures next { passes.new ≡ passes_after passes.old }
{
    match *passes {
        None => Ok(()),
        Some(0) => {
            *passes = None;
            Err(Fault)
        }
        Some(count) => {
            *passes = Some(count - 1);
            Ok(())
        }
    }
}

/// Copies as many bytes as both slices have, and returns their number.
fn copy_front(from: &[u8], to: &mut [u8]) -> usize
    ensures count { result ≡ min (length from.now) (length to.new) }
    ensures copied { (result ≤ length to.new) × (take result to.new ≡ take result from.now) }
{
    let count = from.len().min(to.len());
    to[..count].copy_from_slice(&from[..count]);
    count
}

/// A source that holds its bytes.
#[derive(Drop)]
pub struct MemorySource {
    bytes: Vec<u8>,
    at: usize,
    passes: Option<usize>,
    history: History,
}

impl Model for MemorySource {
    ghost use Rattle.std.specs.Prelude.{◌≤◌, vec_len};
    ghost use Rattle.dagbench_lines.specs.Devices.{SourceState};

    ghost Value = { SourceState };

    ghost view = { λ s. record {
      bytes = s.bytes.items;
      at = s.at;
      passes = s.passes;
      is_ended = s.history.is_ended;
      failures = s.history.failures;
    } };

    ghost invariant = { λ s. s.at ≤ vec_len s.bytes };
}

impl MemorySource {
    /// A source of these bytes. If `passes` is `Some(n)`, the call after n successful calls fails.
    pub fn new(bytes: Vec<u8>, passes: Option<usize>) -> MemorySource
        ensures { result ≡ record {
          bytes = bytes.items;
          at = 0;
          passes = passes;
          is_ended = false;
          failures = 0;
        } }
    {
        MemorySource {
            bytes,
            at: 0,
            passes,
            history: History::new(),
        }
    }

    /// Copies the next bytes to the buffer, as many as it has room for, and returns their number.
    fn give(&mut self, buffer: &mut [u8]) -> usize
        ensures count { result ≡ min (length self.old.bytes - self.old.at) (length buffer.new) }
        ensures bytes { take self.new.at self.new.bytes
            ≡ take self.old.at self.old.bytes ++ take result buffer.new }
        ensures rest { drop self.old.at self.old.bytes
            ≡ take result buffer.new ++ drop self.new.at self.new.bytes }
        ensures others { (self.new.is_ended ≡ self.old.is_ended)
            × (self.new.failures ≡ self.old.failures) × (self.new.passes ≡ self.old.passes) }
    {
        let count = copy_front(&self.bytes[self.at..], buffer);
        self.at += count;
        count
    }
}

impl Source for MemorySource {
    ghost given = { λ s. take s.at s.bytes };

    ghost remaining = { λ s. Some (drop s.at s.bytes) };

    ghost is_ended = { λ s. s.is_ended };

    ghost failures = { λ s. s.failures };

    fn read(&mut self, buffer: &mut [u8]) -> Result<usize, Fault>
        ensures bytes { Gives result (take self.old.at self.old.bytes)
            (take self.new.at self.new.bytes) buffer.new }
        ensures rest { TakesFrom (Some (drop self.old.at self.old.bytes))
            (Some (drop self.new.at self.new.bytes))
            (take self.old.at self.old.bytes) result buffer.new }
        ensures few { OnOk result (length (take self.new.at self.new.bytes) < 2 ^ 64) }
        ensures end { MeetsEnd result self.old.is_ended self.new.is_ended buffer.new }
        ensures counted { CountsFaults result self.old.failures self.new.failures }

        // It gives as many bytes as are left and as the buffer has room for.
        ensures count { IfOk result (λ n.
            n ≡ min (length self.old.bytes - self.old.at) (length buffer.new)) }

        // It fails when it was told to, and only then.
        ensures fault { IsOk result ↔ (self.old.passes ≢ Some 0) }
        ensures next { self.new.passes ≡ passes_after self.old.passes }
    {
        if pass(&mut self.passes).is_err() {
            self.history = self.history.and_failure();
            return Err(Fault);
        }
        let count = self.give(buffer);
        if count == 0 && !buffer.is_empty() {
            self.history = self.history.and_end();
        }
        Ok(count)
    }
}

/// A sink that holds what it has taken.
#[derive(Drop)]
pub struct MemorySink {
    taken: Vec<u8>,
    passes: Option<usize>,
    history: History,
}

impl Model for MemorySink {
    ghost use Rattle.dagbench_lines.specs.Devices.{SinkState};

    ghost Value = { SinkState };

    ghost view = { λ s.
        record { taken = s.taken.items; passes = s.passes; failures = s.history.failures } };
}

impl MemorySink {
    /// An empty sink. If `passes` is `Some(n)`, the call after n successful calls fails.
    pub fn new(alloc: Global, passes: Option<usize>) -> MemorySink
        ensures { result ≡ record { taken = []; passes = passes; failures = 0 } }
    {
        MemorySink {
            taken: Vec::new(alloc),
            passes,
            history: History::new(),
        }
    }

    /// The bytes that it has taken.
    pub fn bytes(&self) -> &[u8]
        ensures { result.now ≡ self.now.taken }
    {
        self.taken.as_slice()
    }
}

impl Sink for MemorySink {
    ghost taken = { λ s. s.taken };

    ghost failures = { λ s. s.failures };

    fn put(&mut self, bytes: &[u8]) -> Result<(), Fault>
        ensures bytes { Appends result self.old.taken self.new.taken bytes.now }
        ensures counted { CountsFaults result self.old.failures self.new.failures }

        // It fails when it was told to.
        ensures fault { self.old.passes ≡ Some 0 → IsErr result }
        ensures next { self.new.passes ≡ passes_after self.old.passes }
    {
        if pass(&mut self.passes).is_err() || self.taken.extend_from_slice(bytes).is_err() {
            self.history = self.history.and_failure();
            return Err(Fault);
        }
        Ok(())
    }
}
