//! Random numbers.

ghost use Rattle.std.specs.Prelude.{◌<◌, ◌≤◌};

use rand::RngExt;
use rand_pcg::Pcg32;

/// A generator of numbers, the same ones for the same seed and stream.
#[derive(Drop)]
pub(crate) struct Dice {
    generator: Pcg32,
}

impl Dice {
    pub(crate) fn new(seed: u64, stream: u64) -> Dice {
        Dice {
            generator: Pcg32::new(seed, stream),
        }
    }

    /// One of this many numbers from 0 on; 0 where there are none.
    pub(crate) fn roll(&mut self, count: u32) -> u32
        ensures one { 0 < count → result < count }
        ensures most { result ≤ count }
    {
        if count == 0 {
            0
        } else {
            self.generator.random_range(0..count)
        }
    }

    /// True in this many of ten cases.
    pub(crate) fn in_ten(&mut self, times: u32) -> bool {
        self.roll(10) < times
    }
}
