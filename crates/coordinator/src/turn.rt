ghost use Rattle.std.specs.Prelude.{◌≡◌, false, IsTrue, IfSome, MatchOption};
ghost use Rattle.graph_core.specs.Fragments.{fragments_of};
ghost use Rattle.grape_event.specs.declared.event.Event.TheVariants.{Stop};
ghost use Rattle.grape_event.specs.declared.event.StopCause.TheVariants.{Memory};
ghost use Rattle.hub_engine.specs.Calls.{AppendedUnlessEnded};
ghost use Rattle.grape_hub.specs.LanedHub.{IsLanedHub};
ghost use Rattle.grape_hub.specs.Theorems.{IsCalm};
ghost use Rattle.coordinator.specs.Shapes.{shape_of};
ghost use Rattle.coordinator.specs.Runs.{HasUsed};
ghost use Rattle.coordinator.specs.Keeping.{digest_in, IsGoing, TurnLeaves, TurnKeeps};
ghost use Rattle.coordinator.specs.Turns.{GoesOn, ServesOrStops, HasNoDuty};

use crate::keeper::Keeper;
use crate::laws::seals_may_be_kept;
use delay_stretch::Pacer;
use grape_disk::Disk;
use grape_event::StopCause;
use grape_hub::{
    Duty, Hub, Next, calm_is_empty, kepts_follow_seals, nothing_is_sealed, one_lane_goes_on,
    turns_are_calm, works_go_round,
};
use graph_core::Fragment;
use legal_journal::choices_are_exact;
use pie_core::{Pie, evaluate};
use token_cut::Shape;

/// One turn of a run on one lane: exactly a duty, with the put and the Kept after a Seal, or where there is none exactly
/// the lane's next event, with the Give after a Take. Says whether the run goes on; where it doesn't, its journal had
/// ended, or exactly a Stop was appended. Nobody is out before and after.
pub(crate) fn take_turn<P: Pie, Q: Pacer, D: Disk>(
    hub: &mut Hub<P, Q>,
    keeper: &mut Keeper,
    disk: &mut D,
    shape: &Shape,
    fragments: &[Fragment],
    program: &P,
) -> bool
    requires hub { IsLanedHub hub.old }
    requires calm { IsCalm hub.old.hub }
    requires going { IsGoing hub.old.hub keeper.old }
    requires shape { shape.now ≡ shape_of hub.old.hub.job }
    requires fragments { fragments.now ≡ fragments_of hub.old.hub.job }
    requires program { P.is_for program.now hub.old.hub.job }
    requires counters { hub.old.hub.counters ≡ P.counters_for hub.old.hub.job }
    ensures same { (hub.new.hub.job ≡ hub.old.hub.job) × (hub.new.hub.counters ≡ hub.old.hub.counters) × (hub.new.hub.start ≡ hub.old.hub.start) }
    ensures hub { IsLanedHub hub.new }
    ensures calm { IsCalm hub.new.hub }
    ensures goes_on { GoesOn result hub.old.hub hub.new.hub }
    ensures leaves { TurnLeaves result hub.new.hub keeper.new (D.faults disk.old) (D.faults disk.new) }
    ensures digest { digest_in keeper.new.store ≡ digest_in keeper.old.store }
    ensures used { HasUsed D.moment D.honest hub.old.hub.job disk.old disk.new }
    ensures unkept { hub.old.hub.job.settings.snapshot ≡ 0 → keeper.new.kept.items ≡ keeper.old.kept.items }
    ensures crash { IsTrue (D.honest disk.old) → TurnKeeps D.content D.images D.moment result hub.old.hub keeper.old disk.old hub.new.hub keeper.new disk.new }
{
    kepts_follow_seals();
    match do_duty(hub, keeper, disk, shape) {
        Some(goes_on) => goes_on,
        None => serve(hub, fragments, program),
    }
}

/// A duty of the coordinator, with the put and the Kept after a Seal, and whether the run goes on after it. `None` comes
/// exactly where there is none before the journal's end.
fn do_duty<P: Pie, Q: Pacer, D: Disk>(
    hub: &mut Hub<P, Q>,
    keeper: &mut Keeper,
    disk: &mut D,
    shape: &Shape,
) -> Option<bool>
    requires hub { IsLanedHub hub.old }
    requires calm { IsCalm hub.old.hub }
    requires going { IsGoing hub.old.hub keeper.old }
    requires shape { shape.now ≡ shape_of hub.old.hub.job }
    ensures same { (hub.new.hub.job ≡ hub.old.hub.job) × (hub.new.hub.counters ≡ hub.old.hub.counters) × (hub.new.hub.start ≡ hub.old.hub.start) }
    ensures hub { IsLanedHub hub.new }
    ensures calm { IsCalm hub.new.hub }
    ensures none { MatchOption result ((hub.new.hub ≡ hub.old.hub) × (keeper.new ≡ keeper.old) × (disk.new ≡ disk.old) × HasNoDuty hub.new.hub) (λ goes_on. GoesOn goes_on hub.old.hub hub.new.hub) }
    ensures leaves { IfSome result (λ goes_on. TurnLeaves goes_on hub.new.hub keeper.new (D.faults disk.old) (D.faults disk.new)) }
    ensures digest { digest_in keeper.new.store ≡ digest_in keeper.old.store }
    ensures used { HasUsed D.moment D.honest hub.old.hub.job disk.old disk.new }
    ensures unkept { hub.old.hub.job.settings.snapshot ≡ 0 → keeper.new.kept.items ≡ keeper.old.kept.items }
    ensures crash { IfSome result (λ goes_on. IsTrue (D.honest disk.old) → TurnKeeps D.content D.images D.moment goes_on hub.old.hub keeper.old disk.old hub.new.hub keeper.new disk.new) }
{
    turns_are_calm();
    choices_are_exact();
    nothing_is_sealed();
    kepts_follow_seals();
    seals_may_be_kept();
    match hub.duty(&mut keeper.into) {
        Duty::Did(_) => Some(true),
        Duty::Sealed(epoch) => match keeper.put(disk, shape) {
            Ok(()) => {
                hub.kept(epoch);
                Some(true)
            }
            Err(cause) => {
                hub.stop(cause);
                Some(false)
            }
        },
        Duty::Nothing => None,
        Duty::Ended => Some(false),
        Duty::NoMemory => Some(give_up(hub)),
    }
}

/// The next event of lane 0, and where it is a Take its evaluation and its Give. There is no duty.
fn serve<P: Pie, Q: Pacer>(hub: &mut Hub<P, Q>, fragments: &[Fragment], program: &P) -> bool
    requires hub { IsLanedHub hub.old }
    requires calm { IsCalm hub.old.hub }
    requires duty { HasNoDuty hub.old.hub }
    requires fragments { fragments.now ≡ fragments_of hub.old.hub.job }
    requires program { P.is_for program.now hub.old.hub.job }
    requires counters { hub.old.hub.counters ≡ P.counters_for hub.old.hub.job }
    ensures same { (hub.new.hub.job ≡ hub.old.hub.job) × (hub.new.hub.counters ≡ hub.old.hub.counters) × (hub.new.hub.start ≡ hub.old.hub.start) }
    ensures hub { IsLanedHub hub.new }
    ensures calm { IsCalm hub.new.hub }
    ensures goes_on { ServesOrStops result hub.old.hub hub.new.hub }
{
    turns_are_calm();
    calm_is_empty();
    works_go_round();
    one_lane_goes_on();
    match hub.next(0) {
        Next::Took(mut work) => {
            let part = &fragments[work.worker as usize];
            evaluate(program, part, work.fresh, &mut work.local, &work.hand);
            hub.give(0, work);
            true
        }
        Next::Did(_) => true,
        Next::Idle => unreachable!(),
        Next::Ended => false,
        Next::NoMemory => give_up(hub),
    }
}

/// Stops for want of memory, where the journal hasn't ended, and says that the run doesn't go on.
fn give_up<P: Pie, Q: Pacer>(hub: &mut Hub<P, Q>) -> bool
    ensures stopped { AppendedUnlessEnded hub.old.hub (Stop Memory) hub.new.hub }
    ensures hub { IsLanedHub hub.new }
    ensures stays { result ≡ false }
{
    hub.stop(StopCause::Memory);
    false
}
