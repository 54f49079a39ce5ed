ghost use Rattle.std.specs.Prelude.{◌≡◌, ◌≢◌, ℕ, ◌<◌, ◌≤◌, None, true, false, length, reverse, replicate, IfOk};
ghost use Rattle.graph_core.specs.Graphs.{IsJob};
ghost use Rattle.graph_core.specs.Fragments.{fragments_of};
ghost use Rattle.grape_event.specs.declared.event.Event.TheVariants.{Give, Kept, Stop};
ghost use Rattle.grape_event.specs.declared.event.StopCause.TheVariants.{Memory};
ghost use Rattle.pie_core.specs.LocalCalls.{loaded};
ghost use Rattle.base_machine.specs.Machine.{system_of};
ghost use Rattle.base_machine.specs.Fitness.{IsInForm};
ghost use Rattle.legal_journal.specs.Past.{has_ended};
ghost use Rattle.hub_engine.specs.States.{state_of, sealed_epoch};
ghost use Rattle.hub_engine.specs.Calls.{AppendedUnlessEnded, Begins, Chooses, ChoosesDuty, WritesSealed, HasSizesOf, MayKeep, ReadyWhereTook, MayGive, HaveValues, HaveStartValues, HaveSizes};
ghost use Rattle.grape_hub.specs.LanedHub.{IsLanedHub, is_out_at, new_lanes, lanes_after_answer, lanes_after_give};
ghost use Rattle.grape_hub.specs.Notes.{ground_of, note_of, OthersStay};

use crate::lane_record::LaneRecord;
use delay_stretch::Pacer;
use grape_event::{Journal, StopCause};
use grape_port::NoMemory;
use graph_core::{Fragment, Job};
use hub_engine::{Duty, Engine, Next, Work};
use noted_lock::Noted;
use pie_core::{Local, Pie};
use std::alloc::Global;
use std::marker::Model;
use token_cut::Snapshot;

/// The workers of a job, one for each fragment, with their values and mail, and the journal of what they did.
///
/// A worker takes all mail that waits for it, a lane evaluates that, and gives the values back; each owned value that
/// became lower is sent to the workers that mirror its vertex. The policy says when a worker may go on, a delay lets
/// mail gather before, and a pacer of its own may add to that. Once all workers rest, a probe asks each of them whether
/// the run may end. Where the job asks for snapshots, one is due after every so many Takes: a recording opens, each
/// worker is marked in it, and once all are it is sealed. The job, the start and the journal determine the values,
/// mail, rounds, delays, probe and recording. Contracts see these three, the sizes that the program asks for, and for
/// each lane its record (how often [`Hub::next`] was called, its last answer, the journal's length then) and whether it
/// has a Work out.
///
/// Each lane, and the coordinator, has a note in the hub: the job and the start, and then what is its own. A call of
/// one lane leaves the notes of all others.
#[derive(Drop)]
pub struct Hub<P: Pie, Q: Pacer> {
    /// Boxed, since a hub passes in and out of its lock at each visit.
    engine: Box<Engine<P, Q>>,
    lanes: Vec<LaneRecord>,
    /// A Local of each worker whose Work was given after the journal's end.
    given_up: Vec<Option<Local>>,
}

impl<P: Pie, Q: Pacer> Model for Hub<P, Q> {
    ghost use Rattle.grape_hub.specs.LanedHub.{LanedHub, IsLanedHub};
    ghost use Rattle.grape_hub.specs.GivenUp.{HoldsGivenUp};

    ghost Value = { LanedHub };

    ghost view = { λ h. record { hub = h.engine.value; lanes = h.lanes.items } };

    ghost invariant = { λ h. IsLanedHub (record { hub = h.engine.value; lanes = h.lanes.items }) × HoldsGivenUp (record { hub = h.engine.value; lanes = h.lanes.items }) h.given_up.items };
}

impl<P: Pie, Q: Pacer> Noted for Hub<P, Q> {
    ghost use Rattle.grape_hub.specs.Notes.{note_of};

    ghost note = { note_of };
}

impl<P: Pie, Q: Pacer> Hub<P, Q> {
    /// A hub at its start: each worker is as its part of the start has it, and the journal is empty. The program is
    /// that of the job's query, the fragments are the job's, and the start is in the form of the job's snapshots, or
    /// fresh. A worker past the last pacer has none, which adds no turns. The hub keeps a copy of the job and of the
    /// fragments' routes. After this only the journal takes memory. All notes are the ground.
    pub fn open(
        alloc: Global,
        program: P,
        job: &Job,
        fragments: &[Fragment],
        pacers: Vec<Q>,
        start: Snapshot,
    ) -> Result<Hub<P, Q>, NoMemory>
        requires job { IsJob job.now }
        requires program { P.is_for program job.now }
        requires fragments { fragments.now ≡ fragments_of job.now }
        requires start { IsInForm (system_of job.now) start }
        ensures beginning { IfOk result (λ x. Begins job.now (P.counters_for job.now) start x.hub × (x.lanes ≡ new_lanes job.now.settings.lanes)) }
        ensures notes { IfOk result (λ x. (k : ℕ) → note_of x k ≡ ground_of job.now start) }
        ensures hub { IfOk result (λ x. IsLanedHub x) }
    {
        let none = LaneRecord {
            calls: 0,
            answer: 0,
            length: 0,
            out: false,
        };
        let lanes = vec![in alloc; none; job.settings.lanes as usize]?;
        let given_up = nothing_given(alloc, fragments.len())?;
        let engine = Engine::open(alloc, program, job, fragments, pacers, start)?;
        Ok(Hub {
            engine: Box::new(alloc, engine)?,
            lanes,
            given_up,
        })
    }

    /// Appends the first event in the order of choice that is admitted and concerns this lane: a Mark in an open
    /// recording, or else a Take of a worker that may go on, a Stretch, an answer to the probe, a Flag or a Hold, in
    /// turn from the worker after that of the last Take. While a recording is open an unmarked worker for which a batch
    /// with its token waits doesn't take, and while a snapshot is due nobody takes. `Idle` comes exactly where none is
    /// admitted and the journal hasn't ended, and `Ended` where it has. The lane has no Work out. Room for the event,
    /// for a Give of each worker that is out, for the Kept of a sealed snapshot and for a Stop is made first; then the
    /// worker's pacer is asked, once for each Stretch. Each answer is recorded for the lane; NoMemory changes nothing
    /// else.
    pub fn next(&mut self, lane: u32) -> Next
        requires lane { lane < self.old.hub.job.settings.lanes }
        requires free { is_out_at self.old lane ≡ false }
        ensures chosen { Chooses self.old.hub lane result self.new.hub }
        ensures ready { ReadyWhereTook self.new.hub result }
        ensures record { self.new.lanes ≡ lanes_after_answer self.old lane result self.new.hub }
        ensures others { OthersStay self.old lane self.new }
        ensures hub { IsLanedHub self.new }
    {
        let answer = if self.engine.journal().ended() {
            Next::Ended
        } else {
            self.engine.next(lane)
        };
        let long = self.engine.journal().len();
        self.lanes[lane as usize].answered(&answer, long);
        answer
    }

    /// Appends the first admitted event of Seal, End, Begin and Ask. `Sealed` comes where it is a Seal, and the
    /// snapshot of that epoch is then in `into`. `Nothing` comes exactly where none is admitted and the journal hasn't
    /// ended, and `Ended` where it has. Nothing is sealed and not kept, and `into` has the sizes of the job's
    /// snapshots. Room for the event, for a Give of each worker that is out, for a Kept after a Seal and for a Stop is
    /// made first.
    pub fn duty(&mut self, into: &mut Snapshot) -> Duty
        requires kept { sealed_epoch (state_of self.old.hub).past ≡ None }
        requires sizes { HasSizesOf self.old.hub into.old }
        ensures chosen { ChoosesDuty self.old.hub result self.new.hub }
        ensures written { WritesSealed result self.new.hub into.old into.new }
        ensures lanes { self.new.lanes ≡ self.old.lanes }
        ensures others { OthersStay self.old self.old.hub.job.settings.lanes self.new }
        ensures hub { IsLanedHub self.new }
    {
        self.engine.duty(into)
    }

    /// Appends the Kept of the epoch that is sealed and not kept yet, where the journal hasn't ended: it has
    /// room since the Seal.
    pub fn kept(&mut self, epoch: u64)
        requires { MayKeep self.old.hub epoch }
        ensures kept { AppendedUnlessEnded self.old.hub (Kept epoch) self.new.hub }
        ensures lanes { self.new.lanes ≡ self.old.lanes }
        ensures others { OthersStay self.old self.old.hub.job.settings.lanes self.new }
        ensures hub { IsLanedHub self.new }
    {
        self.engine.kept(epoch);
    }

    /// Appends a Stop, where the journal hasn't ended: there is always room for one. Only that of the cause `Disk` is
    /// in a note, that of the coordinator.
    pub fn stop(&mut self, cause: StopCause)
        ensures stopped { AppendedUnlessEnded self.old.hub (Stop cause) self.new.hub }
        ensures lanes { self.new.lanes ≡ self.old.lanes }
        ensures others { OthersStay self.old self.old.hub.job.settings.lanes self.new }
        ensures memory { cause ≡ Memory → (k : ℕ) → note_of self.new k ≡ note_of self.old k }
        ensures hub { IsLanedHub self.new }
    {
        self.engine.stop(cause);
    }

    /// Appends the Give of the Work that the lane has out, and sends each owned value that became lower along its
    /// routes. The values are the local solution of those at the Take lowered by the hand. While a recording is open
    /// the batches of a marked worker carry its token, and those of another lower what is recorded of marked workers.
    /// Where the journal has ended nothing is appended, and the values are given up. The lane has no Work out then.
    /// The Give has room since the Take.
    pub fn give(&mut self, lane: u32, work: Work)
        requires out { is_out_at self.old lane ≡ true }
        requires work { MayGive self.old.hub lane work }
        ensures given { AppendedUnlessEnded self.old.hub (Give work.worker) self.new.hub }
        ensures record { self.new.lanes ≡ lanes_after_give self.old lane }
        ensures others { OthersStay self.old lane self.new }
        ensures hub { IsLanedHub self.new }
    {
        self.lanes[lane as usize].out = false;
        if self.engine.journal().ended() {
            let Work { worker, local, .. } = work;
            let start = self.engine.start_values(worker);
            self.given_up[worker as usize] = Some(restarted(local, start));
        } else {
            self.engine.give(lane, work);
        }
    }

    /// The journal so far.
    pub fn journal(&self) -> &Journal
        ensures journal { result.now ≡ self.now.hub.journal }
        ensures hub { IsLanedHub self.now }
    {
        self.engine.journal()
    }

    /// What always holds of a hub.
    pub fn stands(&self)
        ensures hub { IsLanedHub self.now }
        ensures counters { self.now.hub.counters ≡ P.counters_for self.now.hub.job }
    {
        self.engine.stands();
    }

    /// The values of each worker, in order, with its sizes, the journal, and the start. The journal has ended, and no
    /// lane has a Work out. Where a Work was given after the end, its worker's Local has the values of the start.
    pub fn finish(self) -> (Vec<Local>, Journal, Snapshot)
        requires ended { has_ended (reverse self.hub.journal.events) ≡ true }
        requires free { (k : ℕ) → k < self.hub.job.settings.lanes → is_out_at self k ≡ false }
        ensures values { HaveValues self.hub result.0.items }
        ensures given_up { HaveStartValues self.hub result.0.items }
        ensures sizes { HaveSizes self.hub result.0.items }
        ensures journal { result.1 ≡ self.hub.journal }
        ensures start { result.2 ≡ self.hub.start }
    {
        let Hub {
            engine,
            given_up,
            ..
        } = self;
        Box::into_inner(engine).finish(given_up)
    }
}

/// No Local for each of so many workers.
fn nothing_given(alloc: Global, count: usize) -> Result<Vec<Option<Local>>, NoMemory>
    ensures { IfOk result (λ given. given.items ≡ replicate count None) }
{
    let mut given = Vec::with_capacity(alloc, count)?;
    'workers: for _ in 0..count {
        given.push_reserved(None);
    }
    Ok(given)
}

/// A Local with the values with which its worker started.
fn restarted(local: Local, start: &[u64]) -> Local
    requires { length start.now ≡ length local.values }
    ensures { result ≡ loaded local start.now }
{
    let mut local = local;
    local.load(start);
    local
}
