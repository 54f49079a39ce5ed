//! Making a lock with its seats.
ghost use Rattle.std.specs.Prelude.{◌≡◌, ℕ, ◌+◌, ◌<◌, ◌≤◌, [], IfOk, length};
ghost use Rattle.noted_lock.specs.Rule.{claim, maker, note_in};
ghost use Rattle.noted_lock.specs.Sights.{lock_id, lock_seats, AreFrom, AreSeats};

use crate::lock::NotedLock;
use crate::plays::{Give, Make};
use crate::rule::{LockRule, Noted, Opening};
use crate::seat::LockSeat;
use crate::view::View;
use atomic_table::{Seat, Shared, Table};
use grape_port::NoMemory;
use std::alloc::Global;
use std::snapshot::Snapshot;
use std::sync::atomic::AtomicU64;

// The seats from number 1 on, which are split off the seat that makes the lock.
fn make_others<T: Noted>(
    alloc: Global,
    desk: &Shared<Option<T>, View, Opening<T>, LockRule>,
    first: &mut Seat<Option<T>, View>,
    seats: u32,
) -> Result<Vec<LockSeat>, NoMemory>
    requires table { (first.old.table_id ≡ desk.now.table_id) × (desk.now.table_id.words ≡ 1) × (1 ≤ seats) }
    requires maker { first.old.me ≡ (maker seats (claim 0 (note_in first.old.me.0.notes 0)) 1 first.old.me.0.notes, []) }
    ensures maker { IfOk result (λ _. first.new.me ≡ (maker seats (claim 0 (note_in first.old.me.0.notes 0)) seats first.old.me.0.notes, [])) }
    ensures table { IfOk result (λ _. first.new.table_id ≡ first.old.table_id) }
    ensures seats { IfOk result (λ v. (length v.items + 1 ≡ seats) × AreFrom desk.now.table_id seats (note_in first.old.me.0.notes 0) 1 v.items) }
{
    let mut made = Vec::with_capacity(alloc, seats as usize)?;
    for _ in 1..seats {
        let next = desk.split_seat::<Make>(first);
        let seat = LockSeat {
            badge: next.into_badge(),
        };
        made.push(seat)?;
    }
    Ok(made)
}

impl<T: Noted> NotedLock<T> {
    /// The lock of this value, with all its seats: each has the number of its place in the list, and
    /// the note that the value has for all of them.
    ///
    /// A lock has 1 to 32 seats. Want of memory drops the value.
    pub fn new(
        alloc: Global,
        value: T,
        seats: u32,
    ) -> Result<(NotedLock<T>, Vec<LockSeat>), NoMemory>
        requires count { (1 ≤ seats) × (seats ≤ 32) }
        requires ground { (k : ℕ) → k < seats → T.note value k ≡ T.note value 0 }
        ensures lock { IfOk result (λ r. lock_seats r.0 ≡ seats) }
        ensures seats { IfOk result (λ r. AreSeats (lock_id r.0) seats (T.note value 0) r.1.items) }
    {
        let about = Opening {
            seats,
            start: Snapshot::of(&value),
        };
        let mut slots = Vec::new(alloc);
        slots.push(Some(value))?;
        let Ok((table, mut first)) = Table::new(alloc, &[1], slots, &about) else {
            return Err(NoMemory);
        };
        let mut made = make_others(alloc, &table.shared, &mut first, seats)?;
        table.shared.store::<Give>(&mut first, 0, 0);
        let seat = LockSeat {
            badge: first.into_badge(),
        };
        made.insert(0, seat)?;
        let parked = AtomicU64::new(0);
        Ok((NotedLock { table, parked }, made))
    }
}
