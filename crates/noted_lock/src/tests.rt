ghost use Rattle.std.specs.Prelude.{◌≡◌, ◌<◌, [], ◌∷◌, slice_index, slice_set};

use crate::{Noted, NotedLock};
use std::test::Fail;

// What two seats count.
#[derive(Drop)]
struct Tally {
    counts: [u64; 2],
}

impl Noted for Tally {
    ghost note = { λ t k. slice_index t.counts k ∷ [] };
}

impl Tally {
    fn count(&mut self, seat: usize, count: u64)
        requires { seat < 2 }
        ensures { self.new ≡ record self.old { counts = slice_set self.old.counts seat count } }
    {
        self.counts[seat] = count;
    }
}

// A value that has one note for all seats.
#[derive(Drop)]
struct Kept {
    number: u64,
}

impl Noted for Kept {
    ghost note = { λ t k. t.number ∷ [] };
}

#[test]
fn a_seat_finds_its_note_as_it_was(rt: HostRuntime) -> Result<(), Fail> {
    let Ok((lock, mut seats)) = NotedLock::new(rt.alloc(), Tally { counts: [0, 0] }, 2) else {
        panic!(rt; "no memory")
    };
    let Some(one) = seats.pop() else {
        panic!(rt; "no seat 1")
    };
    let Some(zero) = seats.pop() else {
        panic!(rt; "no seat 0")
    };
    let mut inside = lock.enter(&rt, one);
    inside.value().count(1, 5);
    let one = inside.leave();
    lock.rest(&rt);
    let mut inside = lock.enter(&rt, zero);
    assert!(rt; inside.value().counts == [0, 5]);
    inside.value().count(0, 3);
    let zero = inside.leave();
    seats.push(one)?;
    seats.push(zero)?;
    let tally = lock.close(seats);
    assert!(rt; tally.counts == [3, 5]);
    Ok(())
}

#[test]
fn a_lock_closes_as_it_was_made(rt: HostRuntime) -> Result<(), Fail> {
    for count in [1, 2, 32] {
        let Ok((lock, seats)) = NotedLock::new(rt.alloc(), Kept { number: 7 }, count) else {
            panic!(rt; "no memory")
        };
        assert_eq!(rt; seats.len(), count as usize);
        let kept = lock.close(seats);
        assert_eq!(rt; kept.number, 7);
    }
    Ok(())
}
