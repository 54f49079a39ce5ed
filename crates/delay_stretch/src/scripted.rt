ghost use Rattle.std.specs.Prelude.{◌≡◌, drop, get_or};

use crate::Pacer;
use std::marker::Model;

/// A pacer that answers from a list, in order, and 0 from its end on. Contracts see the answers that are left.
#[derive(Drop)]
pub struct Scripted {
    answers: Vec<u32>,
    given: usize,
}

impl Model for Scripted {
    ghost use Rattle.std.specs.Prelude.{ℕ, ◌≤◌, List, drop, vec_len};

    ghost Value = { List ℕ };

    ghost view = { λ s. drop s.given s.answers.items };

    ghost invariant = { λ s. s.given ≤ vec_len s.answers };
}

impl Scripted {
    /// A pacer that has all these answers left.
    pub fn new(answers: Vec<u32>) -> Scripted
        ensures { result ≡ answers.items }
    {
        Scripted { answers, given: 0 }
    }
}

impl Pacer for Scripted {
    fn extra(&mut self, _worker: u32, _waiting: u32) -> u32
        ensures answer { result ≡ get_or self.old 0 0 }
        ensures left { self.new ≡ drop 1 self.old }
    {
        match self.answers.get(self.given) {
            Some(answer) => {
                self.given += 1;
                *answer
            }
            None => 0,
        }
    }
}
