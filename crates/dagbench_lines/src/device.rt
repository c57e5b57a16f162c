//! Readers and writers of std as sources and sinks.
ghost use Rattle.std.specs.Prelude.{◌≡◌, ◌<◌, ◌≤◌, ◌+◌, ◌^◌, ◌↔◌, IsErr, OnErr, OnOk, length};
ghost use Rattle.dagbench_lines.specs.Devices.{nothing_passed, TakesFrom, PutsInto};
ghost use Rattle.dagbench_lines.specs.Streams.{CountsFaults, Appends, Gives, MeetsEnd};

use crate::history::History;
use crate::stream::{Fault, Sink, Source};
use std::io::{Read, Write};
use std::marker::Model;

/// A reader or a writer. Each of its errors is a fault, and so is reading more than 2^64 - 1 bytes.
#[derive(Drop)]
pub struct Device<D> {
    device: D,
    left: u64,
    given: History,
    taken: History,
}

impl<D> Model for Device<D> {
    ghost use Rattle.std.specs.Prelude.{◌≡◌, ◌+◌, ◌^◌, length};
    ghost use Rattle.dagbench_lines.specs.Devices.{DeviceState};

    ghost Value = { DeviceState D };

    ghost view = { λ s. record {
      device = s.device;
      left = s.left;
      given = record {
        bytes = s.given.bytes;
        is_ended = s.given.is_ended;
        failures = s.given.failures;
      };
      taken = record {
        bytes = s.taken.bytes;
        is_ended = s.taken.is_ended;
        failures = s.taken.failures;
      };
    } };

    ghost invariant = { λ s. length s.given.bytes + s.left + 1 ≡ 2 ^ 64 };
}

impl<D> Device<D> {
    /// A device that has read and written nothing.
    pub fn new(device: D) -> Device<D>
        ensures device { result.device ≡ device }
        ensures given { result.given ≡ nothing_passed }
        ensures taken { result.taken ≡ nothing_passed }
    {
        Device {
            device,
            left: u64::MAX,
            given: History::new(),
            taken: History::new(),
        }
    }

    /// Records that these bytes were read. Fails if they exceed the limit.
    fn give(&mut self, bytes: &[u8]) -> Result<(), Fault>
        ensures device { self.new.device ≡ self.old.device }
        ensures bytes { Appends result self.old.given.bytes self.new.given.bytes bytes.now }
        ensures kept { OnErr result (self.new.given.bytes ≡ self.old.given.bytes) }
        ensures end { self.new.given.is_ended ≡ self.old.given.is_ended }
        ensures counted { CountsFaults result self.old.given.failures self.new.given.failures }
        ensures over { OnErr result (2 ^ 64 ≤ length self.old.given.bytes + length bytes.now) }
    {
        match self.left.checked_sub(bytes.len() as u64) {
            Some(left) => {
                self.left = left;
                self.given = self.given.and_bytes(bytes);
                Ok(())
            }
            None => {
                self.given = self.given.and_failure();
                Err(Fault)
            }
        }
    }
}

impl<R: Read> Source for Device<R> {
    ghost given = { λ s. s.given.bytes };

    // The remaining bytes of the reader, if it knows them.
    ghost remaining = { λ s. R.remaining s.device };

    ghost is_ended = { λ s. s.given.is_ended };

    ghost failures = { λ s. s.given.failures };

    fn read(&mut self, buffer: &mut [u8]) -> Result<usize, Fault>
        ensures bytes { Gives result self.old.given.bytes self.new.given.bytes buffer.new }
        ensures rest { TakesFrom (R.remaining self.old.device) (R.remaining self.new.device)
            self.old.given.bytes result buffer.new }
        ensures few { OnOk result (length self.new.given.bytes < 2 ^ 64) }
        ensures end { MeetsEnd result self.old.given.is_ended self.new.given.is_ended buffer.new }
        ensures counted { CountsFaults result self.old.given.failures self.new.given.failures }
    {
        let Ok(count) = self.device.read(buffer) else {
            self.given = self.given.and_failure();
            return Err(Fault);
        };
        self.give(&buffer[..count])?;
        if count == 0 && !buffer.is_empty() {
            self.given = self.given.and_end();
        }
        Ok(count)
    }
}

/// Writes all the bytes and flushes. Stops at any error, also at an interruption.
fn write_out<W: Write>(device: &mut W, bytes: &[u8]) -> Result<(), Fault>
    ensures { PutsInto (W.contents device.old) (W.contents device.new) result bytes.now }
{
    let mut rest = bytes;
    'writes: while !rest.is_empty() {
        let Ok(count) = device.write(rest) else {
            return Err(Fault);
        };
        if count == 0 {
            return Err(Fault);
        }
        rest = &rest[count..];
    }
    if device.flush().is_err() {
        return Err(Fault);
    }
    Ok(())
}

impl<W: Write> Sink for Device<W> {
    ghost taken = { λ s. s.taken.bytes };

    ghost failures = { λ s. s.taken.failures };

    fn put(&mut self, bytes: &[u8]) -> Result<(), Fault>
        ensures bytes { Appends result self.old.taken.bytes self.new.taken.bytes bytes.now }
        ensures counted { CountsFaults result self.old.taken.failures self.new.taken.failures }

        // If the contents of the writer are known, the bytes were appended to them.
        ensures writer { PutsInto (W.contents self.old.device) (W.contents self.new.device)
            result bytes.now }
    {
        let written = write_out(&mut self.device, bytes);
        self.taken = match written {
            Ok(()) => self.taken.and_bytes(bytes),
            Err(_) => self.taken.and_failure(),
        };
        written
    }
}
