ghost use Rattle.std.specs.Prelude.{◌≡◌, ◌<◌, ◌-◌, ◌^◌, ◌⊎◌};
ghost use Rattle.noted_lock.specs.Sights.{lock_id, seat_lock, seat_number, seat_count, seat_note};
ghost use Rattle.grape_hub.specs.Notes.{ground_in, calls_in, answer_in, HasNoWork};
ghost use Rattle.lane_loop.specs.Turns.{IsOfJob};

use crate::gate::Gate;
use crate::patience::pause;
use crate::served::Served;
use crate::turns::visit;
use delay_stretch::Pacer;
use grape_hub::Hub;
use graph_core::Fragment;
use noted_lock::{LockSeat, NotedLock};
use pie_core::Pie;
use std::sync::Wait;

/// The most events that a lane appends in one visit of the lock. So a lane that lets a delay run out doesn't hand the lock
/// round once an event, and others still have their turn.
pub const EVENTS_A_VISIT: u32 = 64;

/// What a lane gives back: its seat, whose record holds the answer with which it ended.
#[derive(Drop)]
pub struct LaneEnd {
    pub seat: LockSeat,
}

/// Takes turns, up to [`EVENTS_A_VISIT`] of them in one visit of the lock, until one answers `Ended` or `NoMemory`, and
/// rests where one is `Idle`, the longer the more of them there were. Its conditions are those of [`turn`](crate::turn).
pub fn lane<R: Wait, P: Pie, Q: Pacer, G: Gate>(
    rt: &R,
    lock: &NotedLock<Hub<P, Q>>,
    seat: LockSeat,
    lane: u32,
    program: &P,
    fragments: &[Fragment],
    gate: &G,
) -> LaneEnd
    requires seat { (seat_lock seat ≡ lock_id lock.now) × (seat_number seat ≡ lane) }
    requires job { IsOfJob (P.is_for program.now) fragments.now lane (seat_note seat) }
    requires empty { HasNoWork (seat_note seat) }
    ensures seat { (seat_lock result.seat ≡ seat_lock seat) × (seat_number result.seat ≡ lane) × (seat_count result.seat ≡ seat_count seat) }
    ensures ground { ground_in (seat_note result.seat) ≡ ground_in (seat_note seat) }
    ensures empty { HasNoWork (seat_note result.seat) }
    ensures calls { (calls_in (seat_note seat) < calls_in (seat_note result.seat)) ⊎ (calls_in (seat_note result.seat) ≡ 2 ^ 64 - 1) }
    ensures answer { (answer_in (seat_note result.seat) ≡ 4) ⊎ (answer_in (seat_note result.seat) ≡ 5) }
{
    let mut seat = seat;
    let mut idle = 0;
    for _ in rt.forever() {
        let (served, back) = visit(
            rt,
            lock,
            seat,
            lane,
            program,
            fragments,
            gate,
            EVENTS_A_VISIT,
        );
        seat = back;
        match served {
            Served::Did => idle = 0,
            Served::Idle => idle = pause(rt, idle),
            Served::Ended | Served::NoMemory => return LaneEnd { seat },
        }
    }
    unreachable!()
}
