ghost use Rattle.std.specs.Prelude.{◌≡◌};
ghost use Rattle.grape_event.specs.declared.event.Event.TheVariants.{Kept, Stop};
ghost use Rattle.noted_lock.specs.Sights.{lock_id, seat_note};
ghost use Rattle.hub_engine.specs.Calls.{AppendedUnlessEnded};
ghost use Rattle.grape_hub.specs.Notes.{note_of, ground_in, OthersStay};
ghost use Rattle.coordinator.specs.Keeping.{HasSizesFor};
ghost use Rattle.coordinator.specs.Seats.{IsSeatOfRun};
ghost use Rattle.coordinator.specs.Visits.{NothingWaits, EpochWaits, ChoosesDutyOrStops, DutyLeaves, KeptLeaves, StopLeaves};

use crate::laws::seals_may_be_kept;
use delay_stretch::Pacer;
use grape_event::StopCause;
use grape_hub::{Duty, Hub, notes_tell, nothing_is_sealed};
use graph_core::Job;
use noted_lock::{LockSeat, NotedLock};
use pie_core::Pie;
use std::sync::Wait;
use token_cut::Snapshot;

/// The coordinator enters the lock with its seat for a duty, and leaves. Where there is no memory for the duty it stops
/// the run. After a Seal its snapshot is in `into`, and its epoch waits to be kept. Nothing waits before.
pub(crate) fn duty_turn<R: Wait, P: Pie, Q: Pacer>(
    rt: &R,
    lock: &NotedLock<Hub<P, Q>>,
    seat: LockSeat,
    job: &Job,
    into: &mut Snapshot,
) -> (Duty, LockSeat)
    requires seat { IsSeatOfRun (lock_id lock.now) job.now job.now.settings.lanes seat }
    requires note { NothingWaits job.now (seat_note seat) }
    requires sizes { HasSizesFor job.now into.old }
    ensures seat { IsSeatOfRun (lock_id lock.now) job.now job.now.settings.lanes result.1 }
    ensures ground { ground_in (seat_note result.1) ≡ ground_in (seat_note seat) }
    ensures duty { DutyLeaves job.now result.0 (seat_note seat) into.old (seat_note result.1) into.new }
{
    let mut inside = lock.enter(rt, seat);
    let duty = serve_duty(inside.value(), job, into);
    (duty, inside.leave())
}

/// The coordinator enters with its seat for the Kept of the epoch that waits, and leaves. Says whether the journal went
/// on; where it had ended, the epoch still waits.
pub(crate) fn kept_turn<R: Wait, P: Pie, Q: Pacer>(
    rt: &R,
    lock: &NotedLock<Hub<P, Q>>,
    seat: LockSeat,
    job: &Job,
    epoch: u64,
) -> (bool, LockSeat)
    requires seat { IsSeatOfRun (lock_id lock.now) job.now job.now.settings.lanes seat }
    requires waits { EpochWaits job.now epoch (seat_note seat) }
    ensures seat { IsSeatOfRun (lock_id lock.now) job.now job.now.settings.lanes result.1 }
    ensures ground { ground_in (seat_note result.1) ≡ ground_in (seat_note seat) }
    ensures kept { KeptLeaves job.now result.0 epoch (seat_note seat) (seat_note result.1) }
{
    let mut inside = lock.enter(rt, seat);
    let goes_on = serve_kept(inside.value(), job, epoch);
    (goes_on, inside.leave())
}

/// The coordinator enters with its seat, stops the run where it hasn't ended, and leaves. The epoch that waits still does.
pub(crate) fn stop_turn<R: Wait, P: Pie, Q: Pacer>(
    rt: &R,
    lock: &NotedLock<Hub<P, Q>>,
    seat: LockSeat,
    job: &Job,
    epoch: u64,
    cause: StopCause,
) -> LockSeat
    requires seat { IsSeatOfRun (lock_id lock.now) job.now job.now.settings.lanes seat }
    requires waits { EpochWaits job.now epoch (seat_note seat) }
    ensures seat { IsSeatOfRun (lock_id lock.now) job.now job.now.settings.lanes result }
    ensures ground { ground_in (seat_note result) ≡ ground_in (seat_note seat) }
    ensures stopped { StopLeaves job.now epoch cause (seat_note seat) (seat_note result) }
{
    let mut inside = lock.enter(rt, seat);
    serve_stop(inside.value(), job, epoch, cause);
    inside.leave()
}

/// Exactly the duty that the hub chooses, and exactly one Stop where there is no memory for it; none where the journal
/// had ended.
fn serve_duty<P: Pie, Q: Pacer>(hub: &mut Hub<P, Q>, job: &Job, into: &mut Snapshot) -> Duty
    requires note { NothingWaits job.now (note_of hub.old job.now.settings.lanes) }
    requires sizes { HasSizesFor job.now into.old }
    ensures others { OthersStay hub.old job.now.settings.lanes hub.new }
    ensures served { ChoosesDutyOrStops hub.old.hub result hub.new.hub }
    ensures duty { DutyLeaves job.now result (note_of hub.old job.now.settings.lanes) into.old (note_of hub.new job.now.settings.lanes) into.new }
{
    let _ = job;
    notes_tell();
    nothing_is_sealed();
    seals_may_be_kept();
    hub.stands();
    match hub.duty(into) {
        Duty::NoMemory => {
            hub.stop(StopCause::Memory);
            Duty::NoMemory
        }
        duty => duty,
    }
}

/// Exactly the Kept of the epoch that waits, where the journal hasn't ended, and whether it hadn't.
fn serve_kept<P: Pie, Q: Pacer>(hub: &mut Hub<P, Q>, job: &Job, epoch: u64) -> bool
    requires waits { EpochWaits job.now epoch (note_of hub.old job.now.settings.lanes) }
    ensures others { OthersStay hub.old job.now.settings.lanes hub.new }
    ensures served { AppendedUnlessEnded hub.old.hub (Kept epoch) hub.new.hub }
    ensures kept { KeptLeaves job.now result epoch (note_of hub.old job.now.settings.lanes) (note_of hub.new job.now.settings.lanes) }
{
    let _ = job;
    notes_tell();
    hub.stands();
    let ended = hub.journal().ended();
    hub.kept(epoch);
    !ended
}

/// Exactly a Stop, where the journal hasn't ended.
fn serve_stop<P: Pie, Q: Pacer>(hub: &mut Hub<P, Q>, job: &Job, epoch: u64, cause: StopCause)
    requires waits { EpochWaits job.now epoch (note_of hub.old job.now.settings.lanes) }
    ensures others { OthersStay hub.old job.now.settings.lanes hub.new }
    ensures served { AppendedUnlessEnded hub.old.hub (Stop cause) hub.new.hub }
    ensures stopped { StopLeaves job.now epoch cause (note_of hub.old job.now.settings.lanes) (note_of hub.new job.now.settings.lanes) }
{
    let _ = job;
    let _ = epoch;
    notes_tell();
    hub.stands();
    hub.stop(cause);
}
