//! A hub that two lanes drive through random events, until its journal has ended.

ghost use Rattle.std.specs.Prelude.{◌≡◌, ◌≤◌, None, All, IfOk, OnOk};
ghost use Rattle.graph_core.specs.Graphs.{IsJob};
ghost use Rattle.graph_core.specs.Fragments.{fragments_of};
ghost use Rattle.base_machine.specs.Machine.{System, system_of};
ghost use Rattle.base_machine.specs.Fitness.{IsInForm};
ghost use Rattle.hub_engine.specs.States.{machine};
ghost use Rattle.grape_hub.specs.LanedHub.{IsLanedHub};
ghost use Rattle.run_trials.specs.Lanes.{IsDriven};

use crate::steps::step;
use answer_text::{Answer, assemble};
use delay_stretch::{Calm, Pacer};
use grape_event::{Event, Journal};
use grape_hub::{Hub, calm_is_empty};
use grape_port::NoMemory;
use graph_core::{Fragment, Job, Query};
use graph_text::TextFault;
use pie_core::Pie;
use pie_dist::Dist;
use pie_flood::{Labels, Reach};
use pie_sim::Sim;
use rand_core::SeedableRng;
use rand_core::utils::NextWord;
use rand_xoshiro::SplitMix64;
use std::alloc::Global;
use token_cut::Snapshot;

/// How many steps a run may take.
const MOST_STEPS: u32 = 20_000;

/// Adds a copy of a snapshot where it was sealed.
fn keep_copy(
    alloc: Global,
    kept: &mut Vec<Snapshot>,
    sealed: bool,
    snapshot: &Snapshot,
) -> Result<(), NoMemory>
    ensures { OnOk result ((sys : System) → All (λ s. IsInForm sys s) kept.old.items → IsInForm sys snapshot.now → All (λ s. IsInForm sys s) kept.new.items) }
{
    if !sealed {
        return Ok(());
    }
    kept.push(snapshot.copy(alloc)?)?;
    Ok(())
}

/// Drives a hub with nobody out until its journal has ended, or for so many steps, and answers copies of what it
/// sealed.
fn drive<P: Pie, Q: Pacer>(
    alloc: Global,
    hub: &mut Hub<P, Q>,
    into: &mut Snapshot,
    fragments: &[Fragment],
    program: &P,
    seed: u64,
) -> Result<Vec<Snapshot>, NoMemory>
    requires driven { IsDriven hub.old None None into.old }
    requires lanes { 2 ≤ hub.old.hub.job.settings.lanes }
    requires fragments { fragments.now ≡ fragments_of hub.old.hub.job }
    requires program { P.is_for program.now hub.old.hub.job }
    requires counters { hub.old.hub.counters ≡ P.counters_for hub.old.hub.job }
    ensures job { hub.new.hub.job ≡ hub.old.hub.job }
    ensures hub { IsLanedHub hub.new }
    ensures sealed { IfOk result (λ kept. All (λ s. IsInForm (machine hub.old.hub) s) kept.items) }
{
    let mut words = SplitMix64::seed_from_u64(seed);
    let mut kept = Vec::new(alloc);
    let mut first = None;
    let mut second = None;
    'steps: for _ in 0..MOST_STEPS {
        if hub.journal().ended() {
            return Ok(kept);
        }
        let choice = words.next_word() % 3;
        let (one, two, sealed) = step(hub, into, first, second, choice, fragments, program);
        first = one;
        second = two;
        keep_copy(alloc, &mut kept, sealed, into)?;
    }
    Ok(kept)
}

/// The answer of a hub whose journal ends by End, and its journal. Of another hub it answers `NoMemory`.
fn answer_at_end<P: Pie, Q: Pacer>(
    alloc: Global,
    job: &Job,
    fragments: &[Fragment],
    hub: Hub<P, Q>,
) -> Result<(Answer, Journal), TextFault>
    requires hub { IsLanedHub hub }
    requires job { IsJob job.now }
    requires same { hub.hub.job ≡ job.now }
    requires fragments { fragments.now ≡ fragments_of job.now }
{
    calm_is_empty();
    match hub.journal().last() {
        Some(Event::End) => {
            let (locals, journal, _start) = hub.finish();
            Ok((assemble(alloc, job, fragments, &locals)?, journal))
        }
        _ => Err(TextFault::NoMemory),
    }
}

/// What a driven run came to: its answer, its journal, and what it sealed.
pub(crate) type Driven = (Answer, Journal, Vec<Snapshot>);

/// Runs a job from a start on two lanes, by the program of its query.
fn driven_by<P: Pie>(
    alloc: Global,
    job: &Job,
    fragments: &[Fragment],
    start: Snapshot,
    seed: u64,
    program: &P,
    own: P,
) -> Result<Driven, TextFault>
    requires job { IsJob job.now }
    requires fragments { fragments.now ≡ fragments_of job.now }
    requires lanes { 2 ≤ job.now.settings.lanes }
    requires start { IsInForm (system_of job.now) start }
    requires program { P.is_for program.now job.now }
    requires own { P.is_for own job.now }
    ensures { IfOk result (λ r. All (λ s. IsInForm (system_of job.now) s) r.2.items) }
{
    let none: Vec<Calm> = Vec::new(alloc);
    let mut into = start.copy(alloc)?;
    let mut hub = Hub::open(alloc, own, job, fragments, none, start)?;
    let kept = drive(alloc, &mut hub, &mut into, fragments, program, seed)?;
    let (answer, journal) = answer_at_end(alloc, job, fragments, hub)?;
    Ok((answer, journal, kept))
}

/// Runs a job from a start on two lanes.
pub(crate) fn driven(
    alloc: Global,
    job: &Job,
    fragments: &[Fragment],
    start: Snapshot,
    seed: u64,
) -> Result<Driven, TextFault>
    requires job { IsJob job.now }
    requires fragments { fragments.now ≡ fragments_of job.now }
    requires lanes { 2 ≤ job.now.settings.lanes }
    requires start { IsInForm (system_of job.now) start }
    ensures { IfOk result (λ r. All (λ s. IsInForm (system_of job.now) s) r.2.items) }
{
    match &job.query {
        Query::Dist(_) => {
            let own = Dist::new();
            driven_by(alloc, job, fragments, start, seed, &Dist::new(), own)
        }
        Query::Label => {
            let own = Labels::new();
            driven_by(alloc, job, fragments, start, seed, &Labels::new(), own)
        }
        Query::Reach(_) => {
            let own = Reach::new();
            driven_by(alloc, job, fragments, start, seed, &Reach::new(), own)
        }
        Query::Sim(pattern) => {
            let own = Sim::new(alloc, pattern)?;
            let program = Sim::new(alloc, pattern)?;
            driven_by(alloc, job, fragments, start, seed, &program, own)
        }
    }
}
