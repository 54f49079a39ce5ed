//! A hub that one lane drives, as `run_alone` does, but for the counts that it takes before each Give.

ghost use Rattle.std.specs.Prelude.{◌≡◌, false, IfOk};
ghost use Rattle.graph_core.specs.Graphs.{IsJob};
ghost use Rattle.graph_core.specs.Fragments.{fragments_of};
ghost use Rattle.base_machine.specs.Machine.{system_of};
ghost use Rattle.base_machine.specs.Fitness.{IsInForm};
ghost use Rattle.grape_hub.specs.LanedHub.{IsLanedHub, is_out_at};

use crate::counts::Counts;
use coordinator::{entries_may_begin, shape_of};
use delay_stretch::{Pacer, Seeded};
use fragment_cut::fragment;
use grape_hub::{Duty, Hub, Next, nothing_is_sealed, works_go_round};
use grape_port::NoMemory;
use graph_core::{Fragment, Job, Query};
use pie_core::{Pie, evaluate};
use pie_dist::Dist;
use pie_flood::{Labels, Reach};
use pie_sim::Sim;
use std::alloc::Global;
use token_cut::Snapshot;

/// Runs a job that asks for no snapshots, and counts what is done.
pub(crate) fn count_run(alloc: Global, job: &Job) -> Result<Counts, NoMemory>
    requires job { IsJob job.now }
    requires unsealed { job.now.settings.snapshot ≡ 0 }
{
    let fragments = fragment(alloc, job)?;
    let start = fresh_start(alloc, job, &fragments)?;
    match &job.query {
        Query::Dist(_) => {
            let programs = (Dist::new(), Dist::new());
            count_by(alloc, job, &fragments, start, programs)
        }
        Query::Label => {
            let programs = (Labels::new(), Labels::new());
            count_by(alloc, job, &fragments, start, programs)
        }
        Query::Reach(_) => {
            let programs = (Reach::new(), Reach::new());
            count_by(alloc, job, &fragments, start, programs)
        }
        Query::Sim(pattern) => {
            let programs = (Sim::new(alloc, pattern)?, Sim::new(alloc, pattern)?);
            count_by(alloc, job, &fragments, start, programs)
        }
    }
}

/// The snapshot with which a fresh run of the job begins.
fn fresh_start(alloc: Global, job: &Job, fragments: &[Fragment]) -> Result<Snapshot, NoMemory>
    requires job { IsJob job.now }
    requires fragments { fragments.now ≡ fragments_of job.now }
    ensures { IfOk result (λ start. IsInForm (system_of job.now) start) }
{
    entries_may_begin();
    let shape = shape_of(alloc, job, fragments)?;
    let start = Snapshot::fresh(alloc, &shape)?;
    Ok(start)
}

/// The same by two programs of the job's query: the lane evaluates by the first, and the hub keeps the second.
fn count_by<P: Pie>(
    alloc: Global,
    job: &Job,
    fragments: &[Fragment],
    start: Snapshot,
    programs: (P, P),
) -> Result<Counts, NoMemory>
    requires job { IsJob job.now }
    requires unsealed { job.now.settings.snapshot ≡ 0 }
    requires fragments { fragments.now ≡ fragments_of job.now }
    requires start { IsInForm (system_of job.now) start }
    requires program { P.is_for programs.0 job.now }
    requires kept { P.is_for programs.1 job.now }
{
    let (program, kept) = programs;
    let pacers = seeded(alloc)?;
    let mut into = Snapshot {
        epoch: 0,
        parts: Vec::new(alloc),
    };
    let mut counts = Counts::none();
    let mut hub = Hub::open(alloc, kept, job, fragments, pacers, start)?;
    run_out(&mut hub, &mut into, fragments, &program, &mut counts);
    if !hub.journal().ended() {
        return Err(NoMemory);
    }
    counts.events = hub.journal().len();
    Ok(counts)
}

/// The pacers of the program: one for each fragment that there may be, seeded with its number.
fn seeded(alloc: Global) -> Result<Vec<Seeded>, NoMemory> {
    let mut pacers = Vec::with_capacity(alloc, 64)?;
    'pacers: for number in 0..64 {
        pacers.push(Seeded::new(number))?;
    }
    Ok(pacers)
}

/// Takes turns of lane 0 until one appends nothing: the journal has ended then, or memory ran out.
fn run_out<P: Pie, Q: Pacer>(
    hub: &mut Hub<P, Q>,
    into: &mut Snapshot,
    fragments: &[Fragment],
    program: &P,
    counts: &mut Counts,
)
    requires hub { IsLanedHub hub.old }
    requires free { is_out_at hub.old 0 ≡ false }
    requires unsealed { hub.old.hub.job.settings.snapshot ≡ 0 }
    requires fragments { fragments.now ≡ fragments_of hub.old.hub.job }
    requires program { P.is_for program.now hub.old.hub.job }
    requires counters { hub.old.hub.counters ≡ P.counters_for hub.old.hub.job }
{
    'turns: for _ in 0..u64::MAX {
        if !take_turn(hub, into, fragments, program, counts) {
            return;
        }
    }
}

/// A duty of the coordinator, and where there is none the next event of lane 0, with its evaluation and its Give. Says
/// whether an event was appended.
fn take_turn<P: Pie, Q: Pacer>(
    hub: &mut Hub<P, Q>,
    into: &mut Snapshot,
    fragments: &[Fragment],
    program: &P,
    counts: &mut Counts,
) -> bool
    requires hub { IsLanedHub hub.old }
    requires free { is_out_at hub.old 0 ≡ false }
    requires unsealed { hub.old.hub.job.settings.snapshot ≡ 0 }
    requires fragments { fragments.now ≡ fragments_of hub.old.hub.job }
    requires program { P.is_for program.now hub.old.hub.job }
    requires counters { hub.old.hub.counters ≡ P.counters_for hub.old.hub.job }
    ensures same { (hub.new.hub.job ≡ hub.old.hub.job) × (hub.new.hub.counters ≡ hub.old.hub.counters) }
    ensures hub { IsLanedHub hub.new }
    ensures free { is_out_at hub.new 0 ≡ false }
{
    match do_duty(hub, into) {
        Duty::Nothing => serve(hub, fragments, program, counts),
        Duty::Did(_) => true,
        Duty::Sealed(_) => true,
        Duty::Ended => false,
        Duty::NoMemory => false,
    }
}

/// A duty of the coordinator.
fn do_duty<P: Pie, Q: Pacer>(hub: &mut Hub<P, Q>, into: &mut Snapshot) -> Duty
    requires hub { IsLanedHub hub.old }
    requires free { is_out_at hub.old 0 ≡ false }
    requires unsealed { hub.old.hub.job.settings.snapshot ≡ 0 }
    ensures same { (hub.new.hub.job ≡ hub.old.hub.job) × (hub.new.hub.counters ≡ hub.old.hub.counters) }
    ensures hub { IsLanedHub hub.new }
    ensures free { is_out_at hub.new 0 ≡ false }
{
    nothing_is_sealed();
    hub.duty(into)
}

/// The next event of lane 0, and where it is a Take its evaluation and its Give. Says whether an event was appended.
fn serve<P: Pie, Q: Pacer>(
    hub: &mut Hub<P, Q>,
    fragments: &[Fragment],
    program: &P,
    counts: &mut Counts,
) -> bool
    requires hub { IsLanedHub hub.old }
    requires free { is_out_at hub.old 0 ≡ false }
    requires fragments { fragments.now ≡ fragments_of hub.old.hub.job }
    requires program { P.is_for program.now hub.old.hub.job }
    requires counters { hub.old.hub.counters ≡ P.counters_for hub.old.hub.job }
    ensures same { (hub.new.hub.job ≡ hub.old.hub.job) × (hub.new.hub.counters ≡ hub.old.hub.counters) }
    ensures hub { IsLanedHub hub.new }
    ensures free { is_out_at hub.new 0 ≡ false }
{
    works_go_round();
    match hub.next(0) {
        Next::Took(mut work) => {
            let part = &fragments[work.worker as usize];
            evaluate(program, part, work.fresh, &mut work.local, &work.hand);
            counts.add(part, &mut work.local);
            hub.give(0, work);
            true
        }
        Next::Did(_) => true,
        Next::Idle => false,
        Next::Ended => false,
        Next::NoMemory => false,
    }
}
