//! Where the engine reads from and writes to.
ghost use Rattle.std.specs.Prelude.{◌≡◌, ℕ, ◌<◌, ◌^◌, Bool, Option, None, List, length, OnOk};
ghost use Rattle.dagbench_lines.specs.Devices.{TakesFrom};
ghost use Rattle.dagbench_lines.specs.Streams.{CountsFaults, Appends, Gives, MeetsEnd};

/// A call on a device failed.
#[derive(Clone, Copy, Debug, PartialEq, Eq)]
pub struct Fault;

/// Where bytes are read from.
pub trait Source {
    /// The bytes it has given so far.
    ghost given: { Self → List ℕ };

    /// The remaining bytes, if the source knows them.
    ghost remaining: { Self → Option (List ℕ) } = { λ _. None };

    /// Whether the end was reached.
    ghost is_ended: { Self → Bool };

    /// How many calls have failed so far.
    ghost failures: { Self → ℕ };

    /// Reads bytes into the front of the buffer and returns their number, which is 0 only at the
    /// end or if the buffer is empty. A source has fewer than 2^64 bytes.
    fn read(&mut self, buffer: &mut [u8]) -> Result<usize, Fault>
        ensures bytes { Gives result (given self.old) (given self.new) buffer.new }
        ensures rest { TakesFrom (remaining self.old) (remaining self.new)
            (given self.old) result buffer.new }
        ensures few { OnOk result (length (given self.new) < 2 ^ 64) }
        ensures end { MeetsEnd result (is_ended self.old) (is_ended self.new) buffer.new }
        ensures counted { CountsFaults result (failures self.old) (failures self.new) };
}

/// Where bytes are written to.
pub trait Sink {
    /// The bytes it has taken so far.
    ghost taken: { Self → List ℕ };

    /// How many calls have failed so far.
    ghost failures: { Self → ℕ };

    /// Writes all the bytes. After a fault, how many of them were written is unspecified.
    fn put(&mut self, bytes: &[u8]) -> Result<(), Fault>
        ensures bytes { Appends result (taken self.old) (taken self.new) bytes.now }
        ensures counted { CountsFaults result (failures self.old) (failures self.new) };
}
