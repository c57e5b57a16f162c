//! Random numbers that any program can repeat.
ghost use Rattle.std.specs.Prelude.{◌<◌};

use rand_core::{Rng, SeedableRng};
use rand_xoshiro::SplitMix64;

/// A generator of random numbers.
#[derive(Drop)]
pub struct Random {
    generator: SplitMix64,
}

impl Random {
    pub fn new(seed: u64) -> Random {
        Random {
            generator: SplitMix64::seed_from_u64(seed),
        }
    }

    #[inline]
    pub fn next(&mut self) -> u64 {
        self.generator.next_u64()
    }

    /// A number below `n`: the high half of the product of `n` and the next number.
    pub fn below(&mut self, n: u32) -> u32
        requires { 0 < n }
        ensures { result < n }
    {
        let product = u128::from(self.next()) * u128::from(n);
        (product >> 64) as u32
    }
}
