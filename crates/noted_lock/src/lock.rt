//! The lock, and a seat that is inside.
ghost use Rattle.std.specs.Prelude.{◌≡◌, ◌<◌};
ghost use Rattle.noted_lock.specs.Seats.{IsInside};

use crate::rule::{LockRule, Noted, Opening};
use crate::view::View;
use atomic_table::{Seat, Table};
use std::alloc::Global;
use std::sync::atomic::AtomicU64;

/// A value that one seat at a time has.
///
/// It hands its turns to the seats that it was made with, in any order, and gives the value back once
/// all of them are back. A lock that is dropped drops its value.
#[derive(Drop)]
pub struct NotedLock<T: Noted> {
    pub(crate) table: Table<Option<T>, View, Opening<T>, LockRule, Global>,
    /// How many threads park until the turn is given back, or are about to. Where there are none nobody is woken.
    pub(crate) parked: AtomicU64,
    ghost one_word: { table.shared.table_id.words ≡ 1 },
    ghost one_slot: { table.shared.table_id.slots ≡ 1 },
    ghost seated: { 0 < table.shared.key.seats },
}

/// A seat that has the turn, with the value.
///
/// It isn't `Drop`, so the turn is always given back, by [`Inside::leave`].
pub struct Inside<'a, T: Noted> {
    pub(crate) lock: &'a NotedLock<T>,
    pub(crate) seat: Seat<Option<T>, View>,
    pub(crate) held: T,
    ghost of_lock: { seat.table_id ≡ lock.now.table.shared.table_id },
    ghost inside: { IsInside seat.me },
}
