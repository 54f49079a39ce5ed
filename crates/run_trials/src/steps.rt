//! Steps of the coordinator and of two lanes at a hub, one at a time.

ghost use Rattle.std.specs.Prelude.{◌≡◌, ◌≢◌, ℕ, ◌<◌, ◌≤◌, false, None, Some, reverse};
ghost use Rattle.graph_core.specs.Fragments.{fragments_of};
ghost use Rattle.base_machine.specs.Fitness.{IsInForm};
ghost use Rattle.legal_journal.specs.Past.{has_ended};
ghost use Rattle.legal_journal.specs.Legal.{has_work_out};
ghost use Rattle.hub_engine.specs.States.{machine, state_of, sealed_epoch};
ghost use Rattle.grape_hub.specs.LanedHub.{IsLanedHub};
ghost use Rattle.run_trials.specs.Lanes.{HasOut, LaneKeeps, GoesAlong, IsDriven};

use delay_stretch::Pacer;
use grape_hub::{Duty, Hub, Next, Work};
use graph_core::Fragment;
use pie_core::{Pie, evaluate};
use token_cut::Snapshot;

/// A duty of the coordinator. A snapshot that it seals is kept at once, and is then in `into`. Says whether it sealed
/// one.
fn do_duty<P: Pie, Q: Pacer>(hub: &mut Hub<P, Q>, into: &mut Snapshot) -> bool
    requires hub { IsLanedHub hub.old }
    requires sealed { sealed_epoch (state_of hub.old.hub).past ≡ None }
    requires into { IsInForm (machine hub.old.hub) into.old }
    ensures along { GoesAlong hub.old.hub hub.new.hub }
    ensures hub { IsLanedHub hub.new }
    ensures lanes { (lane : ℕ) → LaneKeeps lane hub.old.hub hub.new.hub }
    ensures into { IsInForm (machine hub.new.hub) into.new }
{
    match hub.duty(into) {
        Duty::Sealed(epoch) => {
            hub.kept(epoch);
            true
        }
        Duty::Did(_) => false,
        Duty::Nothing => false,
        Duty::Ended => false,
        Duty::NoMemory => false,
    }
}

/// Evaluates the Work that the lane has out, and gives it back.
fn give_back<P: Pie, Q: Pacer>(
    hub: &mut Hub<P, Q>,
    lane: u32,
    work: Work,
    fragments: &[Fragment],
    program: &P,
)
    requires hub { IsLanedHub hub.old }
    requires out { HasOut hub.old.hub lane (Some work) }
    requires going { has_ended (reverse hub.old.hub.journal.events) ≡ false }
    requires fragments { fragments.now ≡ fragments_of hub.old.hub.job }
    requires program { P.is_for program.now hub.old.hub.job }
    requires counters { hub.old.hub.counters ≡ P.counters_for hub.old.hub.job }
    ensures along { GoesAlong hub.old.hub hub.new.hub }
    ensures hub { IsLanedHub hub.new }
    ensures free { has_work_out (state_of hub.new.hub) lane ≡ false }
    ensures lanes { (other : ℕ) → other ≢ lane → LaneKeeps other hub.old.hub hub.new.hub }
{
    let mut work = work;
    let part = &fragments[work.worker as usize];
    evaluate(program, part, work.fresh, &mut work.local, &work.hand);
    hub.give(lane, work);
}

/// The next event of a lane that has no Work out, and the Work where it is a Take.
fn take_next<P: Pie, Q: Pacer>(hub: &mut Hub<P, Q>, lane: u32) -> Option<Work>
    requires hub { IsLanedHub hub.old }
    requires lane { lane < hub.old.hub.job.settings.lanes }
    requires free { has_work_out (state_of hub.old.hub) lane ≡ false }
    ensures along { GoesAlong hub.old.hub hub.new.hub }
    ensures hub { IsLanedHub hub.new }
    ensures out { HasOut hub.new.hub lane result }
    ensures lanes { (other : ℕ) → other ≢ lane → LaneKeeps other hub.old.hub hub.new.hub }
{
    match hub.next(lane) {
        Next::Took(work) => Some(work),
        Next::Did(_) => None,
        Next::Idle => None,
        Next::Ended => None,
        Next::NoMemory => None,
    }
}

/// One step of a lane: it gives back its Work, or looks for its next event.
fn do_lane<P: Pie, Q: Pacer>(
    hub: &mut Hub<P, Q>,
    lane: u32,
    work: Option<Work>,
    fragments: &[Fragment],
    program: &P,
) -> Option<Work>
    requires hub { IsLanedHub hub.old }
    requires lane { lane < hub.old.hub.job.settings.lanes }
    requires out { HasOut hub.old.hub lane work }
    requires fragments { fragments.now ≡ fragments_of hub.old.hub.job }
    requires program { P.is_for program.now hub.old.hub.job }
    requires counters { hub.old.hub.counters ≡ P.counters_for hub.old.hub.job }
    requires going { has_ended (reverse hub.old.hub.journal.events) ≡ false }
    ensures along { GoesAlong hub.old.hub hub.new.hub }
    ensures hub { IsLanedHub hub.new }
    ensures out { HasOut hub.new.hub lane result }
    ensures lanes { (other : ℕ) → other ≢ lane → LaneKeeps other hub.old.hub hub.new.hub }
{
    match work {
        Some(work) => {
            give_back(hub, lane, work, fragments, program);
            None
        }
        None => take_next(hub, lane),
    }
}

/// One step, by a number below 3: of the coordinator, of lane 0 or of lane 1. Says what the lanes have out then, and
/// whether a snapshot was sealed.
pub(crate) fn step<P: Pie, Q: Pacer>(
    hub: &mut Hub<P, Q>,
    into: &mut Snapshot,
    first: Option<Work>,
    second: Option<Work>,
    choice: u64,
    fragments: &[Fragment],
    program: &P,
) -> (Option<Work>, Option<Work>, bool)
    requires driven { IsDriven hub.old first second into.old }
    requires lanes { 2 ≤ hub.old.hub.job.settings.lanes }
    requires going { has_ended (reverse hub.old.hub.journal.events) ≡ false }
    requires fragments { fragments.now ≡ fragments_of hub.old.hub.job }
    requires program { P.is_for program.now hub.old.hub.job }
    requires counters { hub.old.hub.counters ≡ P.counters_for hub.old.hub.job }
    ensures along { GoesAlong hub.old.hub hub.new.hub }
    ensures driven { IsDriven hub.new result.0 result.1 into.new }
{
    if choice == 0 {
        let sealed = do_duty(hub, into);
        return (first, second, sealed);
    }
    if choice == 1 {
        let out = do_lane(hub, 0, first, fragments, program);
        return (out, second, false);
    }
    let out = do_lane(hub, 1, second, fragments, program);
    (first, out, false)
}
