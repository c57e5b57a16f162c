//! A buffered writer over a sink.
ghost use Rattle.std.specs.Prelude.{◌≡◌, [], ◌++◌, IfOk, OnOk};
ghost use Rattle.dagbench_lines.specs.Writing.{sink_of, written, Flushes, Writes};

use crate::stream::{Fault, Sink};
use std::alloc::{AllocError, Global};

/// The size of the buffer.
const BLOCK: usize = 0x1_0000;

/// A buffer for a writer.
pub fn room(alloc: Global) -> Result<Vec<u8>, AllocError>
    ensures { IfOk result (λ room. room.items ≡ []) }
{
    Vec::with_capacity(alloc, BLOCK)
}

/// Writes text to a sink through a borrowed buffer.
#[derive(Drop)]
pub struct Writer<'a, K> {
    pending: &'a mut Vec<u8>,
    sink: &'a mut K,
}

impl<'a, K: Sink> Writer<'a, K> {
    /// A writer over this sink. What is already in the buffer is written first.
    pub fn new(pending: &'a mut Vec<u8>, sink: &'a mut K) -> Writer<'a, K>
        ensures written { written K.taken result ≡ K.taken sink.old ++ pending.old.items }
        ensures sink { sink_of result ≡ sink.old }
        ensures same_reference { result.sink.ghost_name ≡ sink.entry.ghost_name }
    {
        Writer { pending, sink }
    }

    /// Writes all pending bytes to the sink, which is not called if there are none.
    pub fn flush(&mut self) -> Result<(), Fault>
        ensures { Flushes K.taken K.failures result self.old self.new }
    {
        if self.pending.is_empty() {
            return Ok(());
        }
        self.sink.put(self.pending.as_slice())?;
        self.pending.clear();
        Ok(())
    }

    /// Writes text.
    pub fn put(&mut self, text: &[u8]) -> Result<(), Fault>
        ensures { Writes K.taken K.failures result self.old self.new text.now }
    {
        if BLOCK - self.pending.len().min(BLOCK) < text.len() {
            self.flush()?;
        }
        if BLOCK < text.len() || self.pending.extend_from_slice(text).is_err() {
            self.flush()?;
            self.sink.put(text)?;
        }
        Ok(())
    }
}
