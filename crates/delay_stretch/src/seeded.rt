ghost use Rattle.std.specs.Prelude.{◌≡◌, ◌<◌, ◌%◌};
ghost use Rattle.rand_xoshiro.specs.SplitMix64.{mix_u64};

use crate::Pacer;
use rand_core::SeedableRng;
use rand_core::utils::NextWord;
use rand_xoshiro::SplitMix64;
use std::marker::Model;

/// A pacer that answers from 0 to 7 at random: the words of SplitMix64 (Steele, Lea and Flood) from a number on, each
/// modulo 8. Contracts see the generator's state.
#[derive(Drop)]
pub struct Seeded {
    words: SplitMix64,
}

impl Model for Seeded {
    ghost use Rattle.std.specs.Prelude.{ℕ};

    ghost Value = { ℕ };

    ghost view = { λ s. s.words };
}

impl Seeded {
    /// A pacer whose words are those from this number on.
    pub fn new(number: u64) -> Seeded
        ensures { result ≡ number }
    {
        Seeded {
            words: SplitMix64::seed_from_u64(number),
        }
    }
}

impl Pacer for Seeded {
    fn extra(&mut self, _worker: u32, _waiting: u32) -> u32
        ensures answer { result ≡ (mix_u64 self.old).0 % 8 }
        ensures few { result < 8 }
        ensures state { self.new ≡ (mix_u64 self.old).1 }
    {
        (self.words.next_word() % 8) as u32
    }
}
