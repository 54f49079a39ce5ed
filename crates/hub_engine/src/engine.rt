ghost use Rattle.std.specs.Prelude.{◌≡◌, ◌&&◌, not, ◌+◌, ◌<◌, ◌≤◌, [], None, true, false, nat_lt, if◌then◌else◌, length, reverse, IfOk, IfSome, OnOk, OnErr};
ghost use Rattle.graph_core.specs.Graphs.{IsJob};
ghost use Rattle.graph_core.specs.Fragments.{fragments_of};
ghost use Rattle.grape_event.specs.declared.event.Event.TheVariants.{Take, Give, Begin, Mark, Seal, Kept, Stop};
ghost use Rattle.base_machine.specs.Machine.{worker_at, is_running, system_of};
ghost use Rattle.base_machine.specs.Fitness.{IsInForm};
ghost use Rattle.legal_journal.specs.Past.{has_ended};
ghost use Rattle.legal_journal.specs.Legal.{has_work_out, is_admitted};
ghost use Rattle.legal_journal.specs.Choices.{duty_choice};
ghost use Rattle.hub_engine.specs.States.{machine, state_of, workers_of, sealed_epoch, events_owed, IsHub};
ghost use Rattle.hub_engine.specs.Choices.{IsChoice};
ghost use Rattle.hub_engine.specs.Calls.{Appended, AppendedUnlessEnded, Unchanged, Begins, Chooses, ChoosesDuty, TakesWorker, MayStretch, StretchesWorker, IsNote, NotesEvent, NotesDuty, SealsEpoch, WritesSealed, HasSizesOf, MayKeep, ReadyWhereTook, MayGive, AreGivenUp, HaveValues, HaveStartValues, HaveSizes};
ghost use Rattle.token_cut.specs.Parts.{part_at};

use crate::choice::{first_of_kinds, least_round};
use crate::counts::Counts;
use crate::desk::{Delay, Desk, fold_mail, into_locals};
use crate::hearing::hear;
use crate::kind::Kind;
use crate::open::{cut_of, desks_of, routes_of};
use crate::posting::{carry_token, post_changes};
use crate::sender::Sender;
use crate::sight::Sight;
use crate::work::{Duty, Next, Work};
use delay_stretch::Pacer;
use grape_event::{Event, Journal, StopCause};
use grape_port::NoMemory;
use graph_core::{Fragment, Job, Route, Rows};
use pie_core::{Local, Pie};
use std::alloc::Global;
use std::marker::Model;
use stop_probe::Probe;
use token_cut::{CutState, Snapshot};

/// How many turns a pacer adds to a Stretch at most.
const MOST_EXTRA: u32 = 64;

/// What a hub runs by: the workers with their values and mail, the probe, the recording, and the journal. It knows of a
/// lane's Work what the journal says. The job, the start and the journal determine the values, mail, rounds, delays,
/// probe and recording.
#[derive(Drop)]
pub struct Engine<P: Pie, Q: Pacer> {
    program: P,
    job: Job,
    routes: Vec<Rows<Route>>,
    desks: Vec<Desk>,
    pacers: Vec<Q>,
    probe: Probe,
    cut: CutState,
    counts: Counts,
    journal: Journal,
    turn: u32,
    /// The least round of a busy worker, where one is busy.
    least: Option<u64>,
    /// How many workers are out, at most 64.
    out: u64,
    start: Snapshot,
    /// Empty, with room for a Local of each worker, so that the end takes no memory.
    locals: Vec<Local>,
}

impl<P: Pie, Q: Pacer> Model for Engine<P, Q> {
    ghost use Rattle.std.specs.Prelude.{◌≡◌, ◌≤◌, [], length, count_by};
    ghost use Rattle.std.specs.Vec.{vec_capacity};
    ghost use Rattle.hub_engine.specs.HubValues.{HubValues};
    ghost use Rattle.hub_engine.specs.States.{machine, state_of, IsHub};
    ghost use Rattle.hub_engine.specs.Desks.{TablesFit, is_out};
    ghost use Rattle.hub_engine.specs.Kinds.{IsLeastRound};

    ghost Value = { HubValues };

    ghost view = { λ h. record { job = h.job; counters = P.counters_for h.job; start = h.start; journal = h.journal } };

    ghost invariant = { λ h. P.is_for h.program h.job
        × IsHub (record { job = h.job; counters = P.counters_for h.job; start = h.start; journal = h.journal })
        × TablesFit (machine (record { job = h.job; counters = P.counters_for h.job; start = h.start; journal = h.journal })) (state_of (record { job = h.job; counters = P.counters_for h.job; start = h.start; journal = h.journal })) (P.counters_for h.job)
        (record { routes = h.routes.items; desks = h.desks.items; probe = h.probe; cut = h.cut; counts = h.counts; turn = h.turn })
        × (h.locals.items ≡ []) × (length h.desks.items ≤ vec_capacity h.locals)
        × IsLeastRound h.desks.items h.least × (h.out ≡ count_by is_out h.desks.items) };
}

impl<P: Pie, Q: Pacer> Engine<P, Q> {
    /// A hub at its start: each worker is as its part of the start has it, and the journal is empty. The program is
    /// that of the job's query, the fragments are the job's, and the start is in the form of the job's snapshots, or
    /// fresh. A worker past the last pacer has none, which adds no turns. The hub keeps a copy of the job and of the
    /// fragments' routes. After this only the journal takes memory.
    pub fn open(
        alloc: Global,
        program: P,
        job: &Job,
        fragments: &[Fragment],
        pacers: Vec<Q>,
        start: Snapshot,
    ) -> Result<Engine<P, Q>, NoMemory>
        requires job { IsJob job.now }
        requires program { P.is_for program job.now }
        requires fragments { fragments.now ≡ fragments_of job.now }
        requires start { IsInForm (system_of job.now) start }
        ensures beginning { IfOk result (λ hub. Begins job.now (P.counters_for job.now) start hub) }
        ensures hub { IfOk result (λ hub. IsHub hub) }
    {
        let order = program.order();
        let counters = program.counters();
        let mut journal = Journal::new(alloc);
        journal.reserve(1)?;
        let desks = desks_of(alloc, fragments, &start, order, counters)?;
        Ok(Engine {
            routes: routes_of(alloc, fragments)?,
            least: least_round(&desks),
            out: 0,
            desks,
            cut: cut_of(alloc, job, fragments, order)?,
            counts: Counts {
                epoch: start.epoch,
                takes: 0,
                sealed: None,
            },
            job: job.copy(alloc)?,
            program,
            pacers,
            probe: Probe::new(job.settings.fragments),
            journal,
            turn: 0,
            start,
            locals: Vec::with_capacity(alloc, fragments.len())?,
        })
    }

    /// Appends the first event in the order of choice that is admitted and concerns this lane: a Mark in an open
    /// recording, or else a Take of a worker that may go on, a Stretch, an answer to the probe, a Flag or a Hold, in
    /// turn from the worker after that of the last Take. While a recording is open an unmarked worker for which a batch
    /// with its token waits doesn't take, and while a snapshot is due nobody takes. `Idle` comes exactly where none is
    /// admitted. The journal hasn't ended, and the lane has no Work out. Room for the event, for a Give of each worker
    /// that is out, for the Kept of a sealed snapshot and for a Stop is made first; then the worker's pacer is asked,
    /// once for each Stretch. Looks at each worker once.
    pub fn next(&mut self, lane: u32) -> Next
        requires lane { lane < self.old.job.settings.lanes }
        requires free { has_work_out (state_of self.old) lane ≡ false }
        requires going { has_ended (reverse self.old.journal.events) ≡ false }
        ensures chosen { Chooses self.old lane result self.new }
        ensures ready { ReadyWhereTook self.new result }
        ensures hub { IsHub self.new }
    {
        let Some((kind, worker)) = self.choice(lane) else {
            return Next::Idle;
        };
        match kind {
            Kind::Mark => self.mark(worker),
            Kind::Take => self.take(worker, lane),
            Kind::Stretch => self.stretch(worker),
            Kind::Ack => self.did(Event::Ack { worker }),
            Kind::Nack => self.did(Event::Nack { worker }),
            Kind::Flag => self.did(Event::Flag { worker }),
            Kind::Hold => self.did(Event::Hold { worker }),
        }
    }

    /// Appends the first admitted event of Seal, End, Begin and Ask. `Sealed` comes where it is a Seal, and the
    /// snapshot of that epoch is then in `into`. `Nothing` comes exactly where none is admitted and the journal hasn't
    /// ended, and `Ended` where it has. Nothing is sealed and not kept, and `into` has the sizes of the job's
    /// snapshots. Room for the event, for a Give of each worker that is out, for a Kept after a Seal and for a Stop is
    /// made first.
    pub fn duty(&mut self, into: &mut Snapshot) -> Duty
        requires kept { sealed_epoch (state_of self.old).past ≡ None }
        requires sizes { HasSizesOf self.old into.old }
        ensures chosen { ChoosesDuty self.old result self.new }
        ensures written { WritesSealed result self.new into.old into.new }
        ensures hub { IsHub self.new }
    {
        if self.journal.ended() {
            return Duty::Ended;
        }
        let Some(event) = self.duty_event() else {
            return Duty::Nothing;
        };
        match event {
            Event::Seal { epoch } => self.seal(epoch, into),
            Event::Begin { epoch } => self.begin(epoch),
            _ => match self.note(event) {
                Ok(()) => Duty::Did(event),
                Err(NoMemory) => Duty::NoMemory,
            },
        }
    }

    /// Appends the Kept of the epoch that is sealed and not kept yet, where the journal hasn't ended: it has
    /// room since the Seal.
    pub fn kept(&mut self, epoch: u64)
        requires { MayKeep self.old epoch }
        ensures kept { AppendedUnlessEnded self.old (Kept epoch) self.new }
        ensures hub { IsHub self.new }
    {
        if self.journal.ended() {
            return;
        }
        self.journal.push(Event::Kept { epoch });
        self.counts.sealed = None;
    }

    /// Appends a Stop, where the journal hasn't ended: there is always room for one.
    pub fn stop(&mut self, cause: StopCause)
        ensures stopped { AppendedUnlessEnded self.old (Stop cause) self.new }
        ensures hub { IsHub self.new }
    {
        if self.journal.ended() {
            return;
        }
        self.journal.push(Event::Stop { cause });
    }

    /// The kind and the worker of the lane's choice, where there is one.
    fn choice(&self, lane: u32) -> Option<(Kind, u32)>
        requires lane { lane < self.now.job.settings.lanes }
        requires free { has_work_out (state_of self.now) lane ≡ false }
        requires going { has_ended (reverse self.now.journal.events) ≡ false }
        ensures choice { IsChoice (machine self.now) (state_of self.now) lane result }
        ensures hub { IsHub self.now }
    {
        let sight = Sight {
            policy: self.job.settings.policy,
            clock: self.journal.len(),
            least: self.least,
            due: self.counts.is_due(self.job.settings.snapshot),
        };
        first_of_kinds(
            &sight,
            &self.probe,
            &self.cut,
            &self.desks,
            self.turn as usize,
        )
    }

    /// The coordinator's choice.
    fn duty_event(&self) -> Option<Event>
        requires kept { sealed_epoch (state_of self.now).past ≡ None }
        requires going { has_ended (reverse self.now.journal.events) ≡ false }
        ensures choice { duty_choice (machine self.now) (state_of self.now) ≡ result }
        ensures hub { IsHub self.now }
    {
        if self.cut.complete() {
            return Some(Event::Seal {
                epoch: self.counts.epoch,
            });
        }
        let recording = self.cut.recording();
        if may_once_closed(recording, self.probe.may_end()) {
            return Some(Event::End);
        }
        let due = self.counts.is_due(self.job.settings.snapshot);
        if may_once_closed(recording, due) {
            return Some(Event::Begin {
                epoch: self.counts.epoch + 1,
            });
        }
        if self.probe.may_ask() {
            return Some(Event::Ask);
        }
        None
    }

    /// Appends the Mark of a worker that isn't out, and records its phase, its values and its untagged mail.
    fn mark(&mut self, worker: u32) -> Next
        requires admitted { is_admitted (machine self.old) (state_of self.old) (Mark worker) ≡ true }
        ensures did { NotesEvent self.old (Mark worker) result self.new }
        ensures hub { IsHub self.new }
    {
        let room = self.room_owed(1);
        if self.journal.reserve(room).is_err() {
            return Next::NoMemory;
        }
        self.desks[worker as usize].record(worker, &mut self.cut);
        let event = Event::Mark { worker };
        self.journal.push(event);
        Next::Did(event)
    }

    /// Appends the Begin of a snapshot: a recording opens, in which nobody is marked.
    fn begin(&mut self, epoch: u64) -> Duty
        requires admitted { is_admitted (machine self.old) (state_of self.old) (Begin epoch) ≡ true }
        ensures begun { NotesDuty self.old (Begin epoch) result self.new }
        ensures hub { IsHub self.new }
    {
        let room = self.room_owed(1);
        if self.journal.reserve(room).is_err() {
            return Duty::NoMemory;
        }
        self.cut.begin(epoch);
        self.counts.epoch = epoch;
        self.counts.takes = 0;
        let event = Event::Begin { epoch };
        self.journal.push(event);
        Duty::Did(event)
    }

    /// Appends the Seal of a recording in which every worker is marked, and writes the snapshot. All tokens fall.
    fn seal(&mut self, epoch: u64, into: &mut Snapshot) -> Duty
        requires kept { sealed_epoch (state_of self.old).past ≡ None }
        requires admitted { is_admitted (machine self.old) (state_of self.old) (Seal epoch) ≡ true }
        requires sizes { HasSizesOf self.old into.old }
        ensures sealed { SealsEpoch self.old epoch result self.new }
        ensures written { WritesSealed result self.new into.old into.new }
        ensures hub { IsHub self.new }
    {
        let room = self.room_owed(2);
        if self.journal.reserve(room).is_err() {
            return Duty::NoMemory;
        }
        self.cut.seal(into);
        fold_mail(&mut self.desks);
        self.counts.sealed = Some(epoch);
        self.journal.push(Event::Seal { epoch });
        Duty::Sealed(epoch)
    }

    /// The room for so many events, for a Give of each worker that is out, for a Kept that is awaited and for a Stop.
    fn room_owed(&self, events: u64) -> u64
        requires { events ≤ 2 }
        ensures room { result ≡ events_owed (state_of self.now) + events }
        ensures hub { IsHub self.now }
    {
        self.out + self.counts.kepts_owed() + 1 + events
    }

    /// Appends the Take of a worker that isn't out.
    fn take(&mut self, worker: u32, lane: u32) -> Next
        requires admitted { is_admitted (machine self.old) (state_of self.old) (Take worker lane) ≡ true }
        requires idle { is_running (worker_at (workers_of self.old) worker) ≡ false }
        ensures taken { TakesWorker self.old worker lane result self.new }
        ensures hub { IsHub self.new }
    {
        let count = self.desks.len();
        let room = self.room_owed(2);
        if self.journal.reserve(room).is_err() {
            return Next::NoMemory;
        }
        let place = self.journal.len();
        let (fresh, local, hand) = self.desks[worker as usize].take(lane, place);
        let event = Event::Take { worker, lane };
        hear(&mut self.probe, event);
        self.journal.push(event);
        self.turn = following(worker, count);
        self.counts.takes += 1;
        self.out += 1;
        Next::Took(Work {
            worker,
            place,
            fresh,
            local,
            hand,
        })
    }

    /// Appends a Stretch of a worker, of the least turns and what its pacer adds.
    fn stretch(&mut self, worker: u32) -> Next
        requires admitted { MayStretch self.old worker }
        ensures stretched { StretchesWorker self.old worker result self.new }
        ensures hub { IsHub self.new }
    {
        let room = self.room_owed(1);
        if self.journal.reserve(room).is_err() {
            return Next::NoMemory;
        }
        let place = self.journal.len();
        let policy = self.job.settings.policy;
        let desk = &self.desks[worker as usize];
        let least = desk.least_turns(&policy);
        let waiting = desk.buffer.waiting();
        let turns = least + extra_of(&mut self.pacers, worker, waiting);
        self.desks[worker as usize].delay = Some(Delay { turns, place });
        let event = Event::Stretch { worker, turns };
        self.journal.push(event);
        Next::Did(event)
    }

    /// Appends an event that changes no table but the probe, for a lane.
    fn did(&mut self, event: Event) -> Next
        requires note { IsNote event }
        requires admitted { is_admitted (machine self.old) (state_of self.old) event ≡ true }
        ensures did { NotesEvent self.old event result self.new }
        ensures hub { IsHub self.new }
    {
        match self.note(event) {
            Ok(()) => Next::Did(event),
            Err(NoMemory) => Next::NoMemory,
        }
    }

    /// Appends an event that changes no table but the probe.
    fn note(&mut self, event: Event) -> Result<(), NoMemory>
        requires note { IsNote event }
        requires admitted { is_admitted (machine self.old) (state_of self.old) event ≡ true }
        ensures noted { OnOk result (Appended self.old event self.new) }
        ensures no_memory { OnErr result (Unchanged self.old self.new) }
        ensures hub { IsHub self.new }
    {
        let room = self.room_owed(1);
        self.journal.reserve(room)?;
        hear(&mut self.probe, event);
        self.journal.push(event);
        Ok(())
    }

    /// Appends the Give of the Work that the lane has out, and sends each owned value that became lower along its
    /// routes. The values are the local solution of those at the Take lowered by the hand. While a recording is open
    /// the batches of a marked worker carry its token, and those of another lower what is recorded of marked workers.
    /// The journal hasn't ended, and has room for the Give since the Take. Looks at each worker once.
    pub fn give(&mut self, lane: u32, work: Work)
        requires work { MayGive self.old lane work }
        requires going { has_ended (reverse self.old.journal.events) ≡ false }
        ensures given { Appended self.old (Give work.worker) self.new }
        ensures hub { IsHub self.new }
    {
        let Work {
            worker,
            mut local,
            hand,
            ..
        } = work;
        let index = worker as usize;
        let place = self.journal.len();
        self.journal.push(Event::Give { worker });
        let round = self.desks[index].round + 1;
        let tagged = carry_token(&self.cut, worker);
        let sender = Sender {
            place,
            round,
            tagged,
        };
        let routes = &self.routes[index];
        local.gather_fallen();
        post_changes(sender, routes, &local, &mut self.desks, &mut self.cut);
        local.settle();
        self.desks[index].rest(round, local, hand);
        self.out -= 1;
        let least = least_round(&self.desks);
        self.least = least;
    }

    /// The journal so far.
    pub fn journal(&self) -> &Journal
        ensures journal { result.now ≡ self.now.journal }
        ensures hub { IsHub self.now }
    {
        &self.journal
    }

    /// What always holds of an engine.
    pub fn stands(&self)
        ensures hub { IsHub self.now }
        ensures counters { self.now.counters ≡ P.counters_for self.now.job }
    {
        let _ = &self.program;
    }

    /// The values with which a worker started.
    pub fn start_values(&self, worker: u32) -> &[u64]
        requires { worker < self.now.job.settings.fragments }
        ensures { result.now ≡ (part_at worker self.now.start.parts).values }
    {
        values_at(&self.start, worker)
    }

    /// A Local of each worker, in order, with its sizes, the journal, and the start. The journal has ended. A Local has
    /// the worker's values; that of a worker that is out is among those that were given up.
    pub fn finish(self, given_up: Vec<Option<Local>>) -> (Vec<Local>, Journal, Snapshot)
        requires ended { has_ended (reverse self.journal.events) ≡ true }
        requires given { AreGivenUp self given_up.items }
        ensures values { HaveValues self result.0.items }
        ensures given_up { HaveStartValues self result.0.items }
        ensures sizes { HaveSizes self result.0.items }
        ensures journal { result.1 ≡ self.journal }
        ensures start { result.2 ≡ self.start }
    {
        let Engine {
            desks,
            journal,
            start,
            locals,
            ..
        } = self;
        (into_locals(desks, given_up, locals), journal, start)
    }
}

/// The values of a worker in a snapshot.
fn values_at(snapshot: &Snapshot, worker: u32) -> &[u64]
    requires { worker < length snapshot.now.parts }
    ensures { result.now ≡ (part_at worker snapshot.now.parts).values }
{
    &snapshot.parts[worker as usize].values
}

/// What the pacer of a worker adds to a Stretch: none where it has no pacer.
fn extra_of<Q: Pacer>(pacers: &mut [Q], worker: u32, waiting: u32) -> u32
    ensures { result ≤ 64 }
{
    match pacers.get_mut(worker as usize) {
        Some(pacer) => pacer.extra(worker, waiting).min(MOST_EXTRA),
        None => 0,
    }
}

/// Whether an event may come that waits until no recording is open.
fn may_once_closed(recording: bool, may: bool) -> bool
    ensures { result ≡ (not recording && may) }
{
    !recording && may
}

/// The worker after this one, of so many, in turn.
fn following(worker: u32, count: usize) -> u32
    requires worker { worker < count }
    requires few { count ≤ 64 }
    ensures { result ≡ (if nat_lt (worker + 1) count then worker + 1 else 0) }
{
    if (worker as usize) + 1 < count {
        worker + 1
    } else {
        0
    }
}
