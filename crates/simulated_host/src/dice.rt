//! What is decided at random.

use rand_core::{Rng, SeedableRng};
use rand_xoshiro::Xoshiro256PlusPlus;

/// A source of decisions. Two of the same seed decide alike.
#[derive(Drop)]
pub struct Dice {
    numbers: Xoshiro256PlusPlus,
}

impl Dice {
    /// The source of a seed.
    pub fn new(seed: u64) -> Dice {
        Dice {
            numbers: Xoshiro256PlusPlus::seed_from_u64(seed),
        }
    }

    /// Any number.
    pub fn number(&mut self) -> u64 {
        self.numbers.next_u64()
    }

    /// A number below another one; 0 if that is 0.
    pub fn below(&mut self, end: usize) -> usize {
        if end == 0 {
            return 0;
        }
        (self.number() % end as u64) as usize
    }

    /// Whether something happens that happens one time in `count`.
    pub fn one_in(&mut self, count: usize) -> bool {
        self.below(count) == 0
    }

    /// All of so many, three times in four; else a number of them from 1 on, which is 1 also if
    /// there are none.
    pub fn some_of(&mut self, count: usize) -> usize {
        if self.one_in(4) {
            self.below(count).saturating_add(1)
        } else {
            count
        }
    }

    /// Fills a buffer.
    pub fn fill(&mut self, bytes: &mut [u8]) {
        for byte in bytes.iter_mut() {
            *byte = (self.number() % 256) as u8;
        }
    }
}
