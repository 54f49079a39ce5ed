//! What the value behind a lock tells, and the rule of the lock's table.
ghost use Rattle.std.specs.Prelude.{ℕ, List, []};

use crate::view::View;
use atomic_table::TableRule;
use std::marker::Brand;
use std::snapshot::Snapshot;

/// A value that has a note for each seat: a list of numbers, by the seat's number.
pub trait Noted: Drop {
    ghost note: { Self → ℕ → List ℕ };
}

/// What the table is told when it is made: how many seats the lock has, and the value.
#[derive(Drop)]
pub struct Opening<T> {
    pub seats: u32,
    pub start: Snapshot<T>,
}

/// What holds of the lock's table between any two steps.
pub struct LockRule;

impl<T: Noted> TableRule<Option<T>, View, Opening<T>> for LockRule {
    ghost use Rattle.std.specs.Prelude.{ℕ};
    ghost use Rattle.noted_lock.specs.Rule.{Kept, claim, maker, notes_of};

    ghost holds = { λ key. Kept T.note key.seats };

    ghost first = { λ key. maker key.seats (claim 0 (T.note key.start.value 0)) 1 (notes_of (λ _. T.note key.start.value 0) key.seats) };
}

/// The note that a step records, which the caller picks.
pub trait Written {
    ghost written: { List ℕ };
}

impl Written for Brand {
    ghost written = { [] };
}
