ghost use Rattle.std.specs.Prelude.{◌≡◌, ◌≤◌, ◌+◌, ◌-◌, ◌^◌, min};
ghost use Rattle.noted_lock.specs.Sights.{lock_id, seat_lock, seat_number, seat_count, seat_note};
ghost use Rattle.grape_event.specs.declared.event.Event.TheVariants.{Give};
ghost use Rattle.hub_engine.specs.Calls.{AppendedUnlessEnded};
ghost use Rattle.grape_hub.specs.LanedHub.{answer_of};
ghost use Rattle.grape_hub.specs.Notes.{ground_in, calls_in, answer_in, note_of, HasNoWork, OthersStay};
ghost use Rattle.lane_loop.specs.Turns.{HasLane, IsOfJob, HasCalled, Answers, HasOut, HasEvaluated, IsOutWhereTook, ChoosesOrStops, lacks_memory};

use crate::gate::Gate;
use crate::served::Served;
use delay_stretch::Pacer;
use grape_event::StopCause;
use grape_hub::{Hub, Next, Work, notes_tell, works_go_round};
use graph_core::Fragment;
use noted_lock::{LockSeat, NotedLock};
use pie_core::{Pie, evaluate};
use std::sync::Wait;

/// One turn of a lane: a [`visit`] of one event. It enters the lock, makes one `next` and leaves. Where that is a Take, the
/// lane passes the gate, evaluates the Work (by PEval where it is its worker's first in the journal, and by IncEval where the
/// hand isn't empty), enters once more and gives the Work back. Where there was no memory for the event it stops the run
/// before it leaves.
///
/// The seat is that of the lane, with no Work out, and its ground is that of the job whose fragments and program these
/// are. It comes back likewise, with one call of `next` more in its record (up to `u64::MAX`), whose answer the turn's
/// is.
pub fn turn<R: Wait, P: Pie, Q: Pacer, G: Gate>(
    rt: &R,
    lock: &NotedLock<Hub<P, Q>>,
    seat: LockSeat,
    lane: u32,
    program: &P,
    fragments: &[Fragment],
    gate: &G,
) -> (Served, LockSeat)
    requires seat { (seat_lock seat ≡ lock_id lock.now) × (seat_number seat ≡ lane) }
    requires job { IsOfJob (P.is_for program.now) fragments.now lane (seat_note seat) }
    requires empty { HasNoWork (seat_note seat) }
    ensures seat { (seat_lock result.1 ≡ seat_lock seat) × (seat_number result.1 ≡ lane) × (seat_count result.1 ≡ seat_count seat) }
    ensures ground { ground_in (seat_note result.1) ≡ ground_in (seat_note seat) }
    ensures empty { HasNoWork (seat_note result.1) }
    ensures calls { calls_in (seat_note result.1) ≡ min (calls_in (seat_note seat) + 1) (2 ^ 64 - 1) }
    ensures answer { Answers result.0 (answer_in (seat_note result.1)) }
{
    visit(rt, lock, seat, lane, program, fragments, gate, 1)
}

/// The same with up to `most` events, 1 or more, in one visit of the lock: it makes a `next` again while the last one has
/// appended an event that is no Take. The answer is that of the last.
pub fn visit<R: Wait, P: Pie, Q: Pacer, G: Gate>(
    rt: &R,
    lock: &NotedLock<Hub<P, Q>>,
    seat: LockSeat,
    lane: u32,
    program: &P,
    fragments: &[Fragment],
    gate: &G,
    most: u32,
) -> (Served, LockSeat)
    requires some { 1 ≤ most }
    requires seat { (seat_lock seat ≡ lock_id lock.now) × (seat_number seat ≡ lane) }
    requires job { IsOfJob (P.is_for program.now) fragments.now lane (seat_note seat) }
    requires empty { HasNoWork (seat_note seat) }
    ensures seat { (seat_lock result.1 ≡ seat_lock seat) × (seat_number result.1 ≡ lane) × (seat_count result.1 ≡ seat_count seat) }
    ensures ground { ground_in (seat_note result.1) ≡ ground_in (seat_note seat) }
    ensures empty { HasNoWork (seat_note result.1) }
    ensures calls { HasCalled most (calls_in (seat_note seat)) (calls_in (seat_note result.1)) }
    ensures answer { Answers result.0 (answer_in (seat_note result.1)) }
{
    let mut inside = lock.enter(rt, seat);
    let answer = next_events(inside.value(), lane, most);
    let seat = inside.leave();
    match answer {
        Next::Took(work) => {
            let seat = serve(rt, lock, seat, lane, program, fragments, gate, work);
            (Served::Did, seat)
        }
        Next::Did(_) => (Served::Did, seat),
        Next::Idle => (Served::Idle, seat),
        Next::Ended => (Served::Ended, seat),
        Next::NoMemory => (Served::NoMemory, seat),
    }
}

/// The lane's next events, up to `most`, and to the first Take or call that appends none. Each is one that the hub chooses
/// for the lane.
fn next_events<P: Pie, Q: Pacer>(hub: &mut Hub<P, Q>, lane: u32, most: u32) -> Next
    requires some { 1 ≤ most }
    requires lane { HasLane lane (note_of hub.old lane) }
    requires empty { HasNoWork (note_of hub.old lane) }
    ensures ground { ground_in (note_of hub.new lane) ≡ ground_in (note_of hub.old lane) }
    ensures calls { HasCalled most (calls_in (note_of hub.old lane)) (calls_in (note_of hub.new lane)) }
    ensures answer { answer_in (note_of hub.new lane) ≡ answer_of result }
    ensures out { IsOutWhereTook P.counters_for lane (note_of hub.new lane) result }
    ensures others { OthersStay hub.old lane hub.new }
{
    let mut answer = next_or_stop(hub, lane);
    'more: for _done in 1..most {
        match answer {
            Next::Did(_) => answer = next_or_stop(hub, lane),
            last => return last,
        }
    }
    answer
}

/// The lane's next event, and exactly one Stop where there is no memory for it; none where the journal had ended.
fn next_or_stop<P: Pie, Q: Pacer>(hub: &mut Hub<P, Q>, lane: u32) -> Next
    requires lane { HasLane lane (note_of hub.old lane) }
    requires empty { HasNoWork (note_of hub.old lane) }
    ensures chosen { ChoosesOrStops hub.old.hub lane result hub.new.hub }
    ensures ground { ground_in (note_of hub.new lane) ≡ ground_in (note_of hub.old lane) }
    ensures calls { calls_in (note_of hub.new lane) ≡ min (calls_in (note_of hub.old lane) + 1) (2 ^ 64 - 1) }
    ensures answer { answer_in (note_of hub.new lane) ≡ answer_of result }
    ensures out { IsOutWhereTook P.counters_for lane (note_of hub.new lane) result }
    ensures others { OthersStay hub.old lane hub.new }
{
    notes_tell();
    hub.stands();
    let answer = hub.next(lane);
    if lacks_memory(&answer) {
        hub.stop(StopCause::Memory);
    }
    answer
}

/// Whether there was no memory for an event.
fn lacks_memory(answer: &Next) -> bool
    ensures { result ≡ lacks_memory answer.now }
{
    matches!(answer, Next::NoMemory)
}

/// Evaluates a Work outside the lock, and gives it back.
fn serve<R: Wait, P: Pie, Q: Pacer, G: Gate>(
    rt: &R,
    lock: &NotedLock<Hub<P, Q>>,
    seat: LockSeat,
    lane: u32,
    program: &P,
    fragments: &[Fragment],
    gate: &G,
    work: Work,
) -> LockSeat
    requires seat { (seat_lock seat ≡ lock_id lock.now) × (seat_number seat ≡ lane) }
    requires job { IsOfJob (P.is_for program.now) fragments.now lane (seat_note seat) }
    requires out { HasOut P.counters_for lane (seat_note seat) work }
    ensures seat { (seat_lock result ≡ seat_lock seat) × (seat_number result ≡ lane) × (seat_count result ≡ seat_count seat) }
    ensures ground { ground_in (seat_note result) ≡ ground_in (seat_note seat) }
    ensures empty { HasNoWork (seat_note result) }
    ensures calls { calls_in (seat_note result) ≡ calls_in (seat_note seat) }
    ensures answer { answer_in (seat_note result) ≡ answer_in (seat_note seat) }
{
    notes_tell();
    works_go_round();
    let mut work = work;
    gate.pass(work.worker);
    let part = &fragments[work.worker as usize];
    evaluate(program, part, work.fresh, &mut work.local, &work.hand);
    let mut inside = lock.enter(rt, seat);
    give_back(inside.value(), lane, work);
    inside.leave()
}

/// Gives a Work back that was evaluated: exactly its Give is appended, and nothing where the journal had ended.
fn give_back<P: Pie, Q: Pacer>(hub: &mut Hub<P, Q>, lane: u32, work: Work)
    requires evaluated { HasEvaluated P.counters_for lane (note_of hub.old lane) work }
    ensures given { AppendedUnlessEnded hub.old.hub (Give work.worker) hub.new.hub }
    ensures ground { ground_in (note_of hub.new lane) ≡ ground_in (note_of hub.old lane) }
    ensures empty { HasNoWork (note_of hub.new lane) }
    ensures calls { calls_in (note_of hub.new lane) ≡ calls_in (note_of hub.old lane) }
    ensures answer { answer_in (note_of hub.new lane) ≡ answer_in (note_of hub.old lane) }
    ensures others { OthersStay hub.old lane hub.new }
{
    notes_tell();
    hub.stands();
    hub.give(lane, work);
}
