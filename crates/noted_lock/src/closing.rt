//! Closing a lock.
ghost use Rattle.std.specs.Prelude.{◌≡◌, ℕ, ◌<◌, [], All, Contains, map, vec_len};
ghost use Rattle.noted_lock.specs.Rule.{keeper};
ghost use Rattle.noted_lock.specs.Sights.{lock_id, lock_seats, seat_lock, seat_number, seat_note, seat_claim};
ghost use Rattle.noted_lock.specs.declared.seat.LockSeat.{LockSeat};

use crate::lock::NotedLock;
use crate::plays::Gather;
use crate::rule::{LockRule, Noted, Opening};
use crate::seat::LockSeat;
use crate::view::View;
use atomic_table::{Seat, Shared};

// All seats joined to the last of them, which has the claims of all then.
fn gather<T: Noted>(
    desk: &Shared<Option<T>, View, Opening<T>, LockRule>,
    seats: Vec<LockSeat>,
) -> Seat<Option<T>, View>
    requires table { (0 < vec_len seats) × (desk.now.table_id.words ≡ 1) }
    requires lock { All (λ s. seat_lock s ≡ desk.now.table_id) seats.items }
    ensures table { result.table_id ≡ desk.now.table_id }
    ensures claims { result.me ≡ (keeper result.me.0.seats (map seat_claim seats.items), []) }
{
    let mut seats = seats;
    let Some(last) = seats.pop() else {
        unreachable!()
    };
    let LockSeat { badge } = last;
    let mut place = badge.into_seat();
    while let Some(next) = seats.pop() {
        let LockSeat { badge } = next;
        desk.join_seat::<Gather>(&mut place, badge.into_seat());
    }
    place
}

impl<T: Noted> NotedLock<T> {
    /// The value, once all seats are back, in any order. It has each seat's note.
    pub fn close(self, seats: Vec<LockSeat>) -> T
        requires lock { All (λ s. seat_lock s ≡ lock_id self) seats.items }
        requires all { (k : ℕ) → k < lock_seats self → (s : LockSeat) × Contains seats.items s × (seat_number s ≡ k) }
        ensures notes { All (λ s. T.note result (seat_number s) ≡ seat_note s) seats.items }
    {
        let NotedLock { table, parked: _ } = self;
        let place = gather(&table.shared, seats);
        let mut closed = table.close_with(place);
        let slot = closed.take(0);
        closed.free();
        slot.unwrap()
    }
}
