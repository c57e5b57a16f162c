//! Random numbers that any run can repeat.
ghost use Rattle.std.specs.Prelude.{◌<◌};

use rand_core::{Rng, SeedableRng};
use rand_xoshiro::SplitMix64;

/// A generator of random numbers.
#[derive(Drop)]
pub struct Random {
    generator: SplitMix64,
}

impl Random {
    pub fn new(seed: u64) -> Random {
        Random {
            generator: SplitMix64::seed_from_u64(seed),
        }
    }

    #[inline]
    pub fn next(&mut self) -> u64 {
        self.generator.next_u64()
    }

    /// A number below `n`, or 0 if `n` is 0.
    pub fn below(&mut self, n: usize) -> usize {
        if n == 0 {
            return 0;
        }
        (self.next() % n as u64) as usize
    }

    /// True once in `n` times.
    pub fn once_in(&mut self, n: usize) -> bool {
        self.below(n) == 0
    }
}

/// A number that depends on all bits of three others.
pub fn mixed(a: u64, b: u64, c: u64) -> u64 {
    let mut random = Random::new(a ^ b.wrapping_mul(0x2545_f491_4f6c_dd1d) ^ c.rotate_left(32));
    random.next()
}
