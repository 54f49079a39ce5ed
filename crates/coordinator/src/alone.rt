ghost use Rattle.std.specs.Prelude.{◌≡◌, ◌⊎◌, ◌≤◌, ℕ, ◌<◌, ◌++◌, true, false, reverse, List, IsTrue, IfOk};
ghost use Rattle.grape_port.specs.Ports.{Rose};
ghost use Rattle.graph_core.specs.Graphs.{IsJob};
ghost use Rattle.graph_core.specs.Fragments.{fragments_of};
ghost use Rattle.base_machine.specs.Machine.{system_of};
ghost use Rattle.base_machine.specs.Fitness.{IsInForm};
ghost use Rattle.legal_journal.specs.Past.{has_ended};
ghost use Rattle.legal_journal.specs.Cuts.{epochs_kept};
ghost use Rattle.recovery.specs.Crashes.{kept_epochs};
ghost use Rattle.grape_hub.specs.LanedHub.{IsLanedHub, is_out_at};
ghost use Rattle.grape_hub.specs.Theorems.{IsCalm};
ghost use Rattle.coordinator.specs.Shapes.{shape_of};
ghost use Rattle.coordinator.specs.Runs.{HasRun, LastEvent, IsStoppedByDisk, KeepsNothing, HasLast, HasUsed, KeepsBy};
ghost use Rattle.coordinator.specs.Keeping.{cuts_in, HasSizesFor, IsGoing, IsOver, FailsOnlySo, ComesTo};
ghost use Rattle.coordinator.specs.Endings.{EndedAs};
ghost use Rattle.coordinator.specs.declared.ran.Ran.TheVariants.{NoMemory};

use crate::keeper::Keeper;
use crate::programs::two_sims;
use crate::ran::Ran;
use crate::story::Story;
use crate::turn::take_turn;
use delay_stretch::Pacer;
use grape_disk::Disk;
use grape_event::{Event, Journal};
use grape_hub::{Hub, calm_is_empty, hubs_are_bounded, turns_are_calm};
use grape_port::NoMemory as OutOfMemory;
use graph_core::{Fragment, Job, Query};
use pie_core::Pie;
use pie_dist::Dist;
use pie_flood::{Labels, Reach};
use recovery::{Entry, KeptAt, claims_add_up};
use std::alloc::Global;
use token_cut::{Shape, Snapshot};

/// Runs a job from its entry on the caller's thread, which serves all its workers as lane 0. It repeats: one duty of the
/// coordinator, and where there is none the lane's next event, with its evaluation and its Give. A snapshot that is
/// sealed is put into the state file at once, and noted.
///
/// Where memory runs out before the run has begun, it answers `NoMemory`, and after that it stops with the cause
/// `Memory`. Where the disk fails, it stops with the cause `Disk`. The fragments and the shape are those of the job. The
/// entry's start is fresh or in the form of the job's snapshots, and where the job asks for snapshots the entry has a
/// store that kept the start last. A worker past the last pacer has none, which adds no turns to its Stretches.
pub fn run_alone<D: Disk, Q: Pacer>(
    alloc: Global,
    job: &Job,
    fragments: &[Fragment],
    shape: &Shape,
    entry: Entry,
    disk: &mut D,
    pacers: Vec<Q>,
) -> Ran
    requires job { IsJob job.now }
    requires fragments { fragments.now ≡ fragments_of job.now }
    requires shape { shape.now ≡ shape_of job.now }
    requires start { IsInForm (system_of job.now) entry.start }
    requires store { 1 ≤ job.now.settings.snapshot → HasLast entry.start.epoch entry.store }
    ensures run { HasRun job.now fragments.now entry.start result }

    // Without snapshots, and where no run began, the disk isn't used.
    ensures used { HasUsed D.moment D.honest job.now disk.old disk.new }
    ensures not_begun { result ≡ NoMemory → disk.new ≡ disk.old }
    ensures unkept { job.now.settings.snapshot ≡ 0 → KeepsNothing result }

    // What a crash leaves of the state file.
    ensures crash { IsTrue (D.honest disk.old) → KeepsBy D.content D.images D.moment job.now entry.store result disk.old disk.new }

    // The disk stops a run exactly where it failed.
    ensures disk_fault { IsStoppedByDisk result → Rose (D.faults disk.old) (D.faults disk.new) }
    ensures no_fault { IsStoppedByDisk result ⊎ (D.faults disk.new ≡ D.faults disk.old) }
{
    match &job.query {
        Query::Dist(_) => {
            let programs = (Dist::new(), Dist::new());
            run_on(alloc, job, fragments, shape, entry, disk, pacers, programs)
        }
        Query::Label => {
            let programs = (Labels::new(), Labels::new());
            run_on(alloc, job, fragments, shape, entry, disk, pacers, programs)
        }
        Query::Reach(_) => {
            let programs = (Reach::new(), Reach::new());
            run_on(alloc, job, fragments, shape, entry, disk, pacers, programs)
        }
        Query::Sim(pattern) => match two_sims(alloc, pattern) {
            Some(programs) => run_on(alloc, job, fragments, shape, entry, disk, pacers, programs),
            None => Ran::NoMemory,
        },
    }
}

/// The same by two programs of the job's query: the lane evaluates by the first, and the hub keeps the second.
fn run_on<P: Pie, D: Disk, Q: Pacer>(
    alloc: Global,
    job: &Job,
    fragments: &[Fragment],
    shape: &Shape,
    entry: Entry,
    disk: &mut D,
    pacers: Vec<Q>,
    programs: (P, P),
) -> Ran
    requires job { IsJob job.now }
    requires fragments { fragments.now ≡ fragments_of job.now }
    requires shape { shape.now ≡ shape_of job.now }
    requires start { IsInForm (system_of job.now) entry.start }
    requires store { 1 ≤ job.now.settings.snapshot → HasLast entry.start.epoch entry.store }
    requires program { P.is_for programs.0 job.now }
    requires kept { P.is_for programs.1 job.now }
    ensures run { HasRun job.now fragments.now entry.start result }
    ensures used { HasUsed D.moment D.honest job.now disk.old disk.new }
    ensures not_begun { result ≡ NoMemory → disk.new ≡ disk.old }
    ensures unkept { job.now.settings.snapshot ≡ 0 → KeepsNothing result }
    ensures crash { IsTrue (D.honest disk.old) → KeepsBy D.content D.images D.moment job.now entry.store result disk.old disk.new }
    ensures disk_fault { IsStoppedByDisk result → Rose (D.faults disk.old) (D.faults disk.new) }
    ensures no_fault { IsStoppedByDisk result ⊎ (D.faults disk.new ≡ D.faults disk.old) }
{
    turns_are_calm();
    calm_is_empty();
    claims_add_up(disk);
    let (program, kept) = programs;
    let Entry { start, store } = entry;
    let Ok(into) = room_for(alloc, job, shape) else {
        return Ran::NoMemory;
    };
    let mut keeper = Keeper {
        store,
        kept: Vec::new(alloc),
        into,
    };
    let Ok(mut hub) = Hub::open(alloc, kept, job, fragments, pacers, start) else {
        return Ran::NoMemory;
    };
    run_out(&mut hub, &mut keeper, disk, shape, fragments, &program);
    ended(job, fragments, hub, keeper.kept)
}

/// A snapshot into which those of the run can be written, where the job asks for any.
pub(crate) fn room_for(alloc: Global, job: &Job, shape: &Shape) -> Result<Snapshot, OutOfMemory>
    requires job { IsJob job.now }
    requires shape { shape.now ≡ shape_of job.now }
    ensures { IfOk result (HasSizesFor job.now) }
{
    if job.settings.snapshot == 0 {
        return Ok(Snapshot {
            epoch: 0,
            parts: Vec::new(alloc),
        });
    }
    Snapshot::fresh(alloc, shape)
}

/// Takes turns of one lane until the journal has ended. Nobody is out before and after.
pub(crate) fn run_out<P: Pie, Q: Pacer, D: Disk>(
    hub: &mut Hub<P, Q>,
    keeper: &mut Keeper,
    disk: &mut D,
    shape: &Shape,
    fragments: &[Fragment],
    program: &P,
)
    requires hub { IsLanedHub hub.old }
    requires calm { IsCalm hub.old.hub }
    requires going { IsGoing hub.old.hub keeper.old }
    requires shape { shape.now ≡ shape_of hub.old.hub.job }
    requires fragments { fragments.now ≡ fragments_of hub.old.hub.job }
    requires program { P.is_for program.now hub.old.hub.job }
    requires counters { hub.old.hub.counters ≡ P.counters_for hub.old.hub.job }
    ensures same { (hub.new.hub.job ≡ hub.old.hub.job) × (hub.new.hub.start ≡ hub.old.hub.start) }
    ensures hub { IsLanedHub hub.new }
    ensures calm { IsCalm hub.new.hub }
    ensures ended { has_ended (reverse hub.new.hub.journal.events) ≡ true }
    ensures over { IsOver hub.new.hub keeper.new.kept.items (D.faults disk.old) (D.faults disk.new) }
    ensures no_fault { FailsOnlySo hub.new.hub (D.faults disk.old) (D.faults disk.new) }
    ensures used { HasUsed D.moment D.honest hub.old.hub.job disk.old disk.new }
    ensures unkept { hub.old.hub.job.settings.snapshot ≡ 0 → keeper.new.kept.items ≡ keeper.old.kept.items }
    ensures crash { IsTrue (D.honest disk.old) → ComesTo D.content D.images D.moment hub.old.hub.job (cuts_in hub.old.hub) keeper.old disk.old (cuts_in hub.new.hub) keeper.new.kept.items disk.new }
{
    hubs_are_bounded();
    'turns: while take_turn(hub, keeper, disk, shape, fragments, program) {}
}

/// What a hub whose journal has ended, with no Work out, tells of its run.
pub(crate) fn ended<P: Pie, Q: Pacer>(
    job: &Job,
    fragments: &[Fragment],
    hub: Hub<P, Q>,
    kept: Vec<KeptAt>,
) -> Ran
    requires hub { IsLanedHub hub }
    requires same { hub.hub.job ≡ job.now }
    requires fragments { fragments.now ≡ fragments_of job.now }
    requires ended { has_ended (reverse hub.hub.journal.events) ≡ true }
    requires noted { (more : List ℕ) × (kept_epochs kept.items ≡ epochs_kept hub.hub.journal.events ++ more) }
    requires free { (lane : ℕ) → lane < hub.hub.job.settings.lanes → is_out_at hub lane ≡ false }
    ensures run { HasRun job.now fragments.now hub.hub.start result }
    ensures story { EndedAs job.now hub.hub kept.items result }
{
    let (locals, journal, start) = hub.finish();
    let last = last_event(&journal);
    let story = Story {
        start,
        journal,
        kept,
    };
    match last {
        Event::Stop { cause } => Ran::Stopped { cause, story },
        _ => Ran::Done { locals, story },
    }
}

/// The event that ended a journal.
fn last_event(journal: &Journal) -> Event
    requires { has_ended (reverse journal.now.events) ≡ true }
    ensures { LastEvent journal.now.events result }
{
    match journal.last() {
        Some(event) => event,
        None => unreachable!(),
    }
}
