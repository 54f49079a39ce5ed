//! A turn at the lock: enter, change the value, leave.
ghost use Rattle.std.specs.Prelude.{◌≡◌, ◌≢◌, ℕ, ◌<◌, [], ◌∷◌, slice_set, None, true, false};
ghost use Rattle.noted_lock.specs.Plays.{HasTaken};
ghost use Rattle.noted_lock.specs.Rule.{claim, outside, within};
ghost use Rattle.noted_lock.specs.Seats.{IsInside, claim_of};
ghost use Rattle.noted_lock.specs.Sights.{seat_lock, seat_number, seat_note, seat_count, lock_id, inside_lock, inside_number, inside_count, inside_value, note_at_entry};

use crate::lock::{Inside, NotedLock};
use crate::plays::{Give, Record, Take};
use crate::rule::{LockRule, Noted, Opening, Written};
use crate::seat::LockSeat;
use crate::view::View;
use atomic_table::{Seat, Shared};
use std::hint::spin_loop;
use std::marker::Brand;
use std::sync::Wait;
use std::sync::atomic::Ordering;
use std::time::Duration;

// How long a seat parks at most before it tries again, though nobody woke it: in milliseconds.
const PATIENCE: u64 = 1;

// How often a seat looks whether the turn is free before it parks: for about a microsecond, since a turn is short.
const LOOKS: u32 = 100;

// Takes the turn where it is free: the seat is inside then, and has the slot with the value.
fn take_turn<T: Noted>(
    desk: &Shared<Option<T>, View, Opening<T>, LockRule>,
    seat: &mut Seat<Option<T>, View>,
) -> bool
    requires table { (seat.old.table_id ≡ desk.now.table_id) × (desk.now.table_id.words ≡ 1) }
    requires outside { seat.old.me ≡ (outside seat.old.me.0.seats (claim_of seat.old.me.0), []) }
    ensures table { seat.new.table_id ≡ seat.old.table_id }
    ensures won { result ≡ true → HasTaken T.note seat.old.me seat.new.me }
    ensures lost { result ≡ false → seat.new.me ≡ seat.old.me }
{
    desk.compare_exchange::<Take>(seat, 0, 0, 1) == 0
}

impl<T: Noted> NotedLock<T> {
    /// Waits for the turn, and takes it with the value, which has the seat's note as it was.
    pub fn enter<'a, R: Wait>(&'a self, rt: &R, seat: LockSeat) -> Inside<'a, T>
        requires lock { seat_lock seat ≡ lock_id self.now }
        ensures same { (inside_lock result ≡ seat_lock seat) × (inside_number result ≡ seat_number seat) × (inside_count result ≡ seat_count seat) }
        ensures number { seat_number seat < seat_count seat }
        ensures note { T.note (inside_value result) (seat_number seat) ≡ seat_note seat }
        ensures entry { (k : ℕ) → k < seat_count seat → note_at_entry result k ≡ T.note (inside_value result) k }
    {
        let LockSeat { badge } = seat;
        let mut place = badge.into_seat();
        let desk = &self.table.shared;
        for _ in rt.forever() {
            if take_turn(desk, &mut place) {
                let held = desk.exchange(&mut place, 0, None).unwrap();
                return Inside {
                    lock: self,
                    seat: place,
                    held,
                };
            }
            self.wait(rt);
        }
        unreachable!()
    }

    // Waits until the turn may be free: it looks some times, and then it parks.
    fn wait<R: Wait>(&self, rt: &R) {
        'looks: for _ in 0..LOOKS {
            if self.table.shared.peek(0) == 0 {
                return;
            }
            spin_loop();
        }
        self.park(rt, 1);
    }

    // Parks while the turn stays so, for a millisecond at most.
    fn park<R: Wait>(&self, rt: &R, turn: u32) {
        self.parked.fetch_add(1, Ordering::SeqCst);
        self.table
            .shared
            .park_timeout(rt, 0, turn, Duration::from_millis(PATIENCE));
        self.parked.fetch_sub(1, Ordering::SeqCst);
    }

    // Wakes a thread that parks, where there is one. One that is about to park sees that the turn was given back.
    fn wake(&self) {
        if self.parked.load(Ordering::SeqCst) > 0 {
            self.table.shared.wake_one(0);
        }
    }

    /// Parks while the turn stays as it is, for a millisecond at most. It may return at any time.
    pub fn rest<R: Wait>(&self, rt: &R) {
        let now = if self.table.shared.peek(0) == 0 { 0 } else { 1 };
        self.park(rt, now);
    }
}

// Records the note of the value, which is out of the slot. The caller picks `written` as that note.
fn record<T: Noted, W: Written>(
    desk: &Shared<Option<T>, View, Opening<T>, LockRule>,
    seat: &mut Seat<Option<T>, View>,
    value: &T,
)
    requires table { (seat.old.table_id ≡ desk.now.table_id) × (desk.now.table_id.words ≡ 1) }
    requires inside { IsInside seat.old.me }
    requires written { W.written ≡ T.note value.now (claim_of seat.old.me.0).number }
    ensures table { seat.new.table_id ≡ seat.old.table_id }
    ensures view { let number = (claim_of seat.old.me.0).number in let note = T.note value.now number in seat.new.me ≡ (within seat.old.me.0.seats (claim number note) (slice_set seat.old.me.0.notes number note), (0, None) ∷ []) }
{
    let _ = value;
    desk.store::<Record<W>>(seat, 0, 1);
}

impl<'a, T: Noted> Inside<'a, T> {
    /// Leaves the value in the lock and gives the turn back. The seat is the one that entered, and has
    /// the value's note of its number now. The notes of the other seats must be as they were at entry.
    pub fn leave(self) -> LockSeat
        requires others { (k : ℕ) → k < inside_count self → k ≢ inside_number self → T.note (inside_value self) k ≡ note_at_entry self k }
        ensures same { (seat_lock result ≡ inside_lock self.entry) × (seat_number result ≡ inside_number self.entry) × (seat_count result ≡ inside_count self.entry) }
        ensures note { seat_note result ≡ T.note (inside_value self.entry) (inside_number self.entry) }
    {
        let Inside {
            lock,
            mut seat,
            held,
        } = self;
        let desk = &lock.table.shared;
        record::<T, Brand>(desk, &mut seat, &held);
        desk.exchange(&mut seat, 0, Some(held));
        desk.store::<Give>(&mut seat, 0, 0);
        lock.wake();
        LockSeat {
            badge: seat.into_badge(),
        }
    }
}
