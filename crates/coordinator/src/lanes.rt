ghost use Rattle.std.specs.Prelude.{◌≡◌, ℕ, ◌+◌, ◌<◌, ◌≤◌, true, false, IsTrue, IfSome, List, [], None, length, reverse, vec_len, vec_capacity};
ghost use Rattle.std.specs.Thread.{IsSync, IsSend};
ghost use Rattle.grape_port.specs.Ports.{Rose};
ghost use Rattle.graph_core.specs.Graphs.{IsJob};
ghost use Rattle.graph_core.specs.Fragments.{fragments_of};
ghost use Rattle.token_cut.specs.Parts.{SnapshotParts};
ghost use Rattle.base_machine.specs.Machine.{system_of};
ghost use Rattle.base_machine.specs.Fitness.{IsInForm};
ghost use Rattle.legal_journal.specs.Past.{has_ended};
ghost use Rattle.noted_lock.specs.Sights.{lock_id, seat_note};
ghost use Rattle.grape_hub.specs.LanedHub.{IsLanedHub, is_out_at};
ghost use Rattle.grape_hub.specs.Notes.{ground_of, note_of, ground_in, answer_in};
ghost use Rattle.grape_hub.specs.Theorems.{IsCalm};
ghost use Rattle.coordinator.specs.Shapes.{shape_of};
ghost use Rattle.coordinator.specs.Runs.{HasRun, IsStoppedByDisk, IsNotStopped, KeepsNothing, HasLast, HasUsed, KeepsBy};
ghost use Rattle.coordinator.specs.Turns.{EndsLane};
ghost use Rattle.coordinator.specs.Keeping.{digest_in, HasKept};
ghost use Rattle.coordinator.specs.Leaving.{LeavesNote, LeavesHub};
ghost use Rattle.coordinator.specs.Seats.{IsSeatOfRun, HoldsSeat, note_in, IsSlotAt, AreSeatsOfRun, AreSlots};
ghost use Rattle.coordinator.specs.Visits.{AnswersAsLeft, MayBegin, HasAllKept, MayPut, TurnLeavesNote, PutLeavesNote, Finishes};
ghost use Rattle.coordinator.specs.declared.keeper.Keeper.{Keeper};
ghost use Rattle.coordinator.specs.declared.ran.Ran.TheVariants.{NoMemory};

use crate::alone::{ended, room_for, run_out};
use crate::duties::{duty_turn, kept_turn, stop_turn};
use crate::keeper::Keeper;
use crate::leave::Leave;
use crate::programs::two_sims;
use crate::ran::Ran;
use delay_stretch::Pacer;
use grape_disk::Disk;
use grape_event::StopCause;
use grape_hub::{
    Duty, Hub, calm_is_empty, kepts_follow_seals, notes_tell, nothing_is_sealed, turns_are_calm,
};
use graph_core::{Fragment, Job, Query};
use lane_loop::{EVENTS_A_VISIT, Gate, LaneEnd, Served, lane, pause, visit};
use noted_lock::{LockSeat, NotedLock};
use pie_core::Pie;
use pie_dist::Dist;
use pie_flood::{Labels, Reach};
use recovery::{Entry, claims_add_up};
use std::alloc::Global;
use std::sync::Wait;
use std::thread::{Threads, for_each_mut, join_mut};
use token_cut::Shape;

/// Runs a job from its entry on all its lanes, which share the hub under the noted lock. The caller's thread takes the
/// coordinator's duties, and where there is none a turn of lane 0; each other lane has a thread of its own where one can
/// be made, and else comes last. Each lane passes the gate before it evaluates. A snapshot that is sealed is put into the
/// state file outside the lock, while the lanes go on.
///
/// All memory but the journal's and the notes' of what was kept is taken before the run begins: where there is none it
/// answers `NoMemory`, and where memory runs out later the run stops with the cause `Memory`. Where the disk fails it
/// stops with the cause `Disk`, unless a lane had stopped it before. The conditions are those of
/// [`run_alone`](crate::run_alone), and so is what it tells.
pub fn run_lanes<R: Threads + Wait + Sync, D: Disk, Q: Pacer + Send, G: Gate + Sync>(
    rt: &R,
    alloc: Global,
    job: &Job,
    fragments: &[Fragment],
    shape: &Shape,
    entry: Entry,
    disk: &mut D,
    pacers: Vec<Q>,
    gate: &G,
) -> Ran
    requires job { IsJob job.now }
    requires fragments { fragments.now ≡ fragments_of job.now }
    requires shape { shape.now ≡ shape_of job.now }
    requires start { IsInForm (system_of job.now) entry.start }
    requires store { 1 ≤ job.now.settings.snapshot → HasLast entry.start.epoch entry.store }
    ensures run { HasRun job.now fragments.now entry.start result }

    // Without snapshots, and where no run began, the disk isn't used.
    ensures used { HasUsed D.moment D.honest job.now disk.old disk.new }
    ensures not_begun { result ≡ NoMemory → disk.new ≡ disk.old }
    ensures unkept { job.now.settings.snapshot ≡ 0 → KeepsNothing result }

    // What a crash leaves of the state file.
    ensures crash { IsTrue (D.honest disk.old) → KeepsBy D.content D.images D.moment job.now entry.store result disk.old disk.new }

    // The disk stops a run only where it failed, and where nothing stopped the run it didn't fail.
    ensures disk_fault { IsStoppedByDisk result → Rose (D.faults disk.old) (D.faults disk.new) }
    ensures no_fault { IsNotStopped result → D.faults disk.new ≡ D.faults disk.old }
{
    match &job.query {
        Query::Dist(_) => {
            let programs = (Dist::new(), Dist::new());
            run_shared(
                rt, alloc, job, fragments, shape, entry, disk, pacers, gate, programs,
            )
        }
        Query::Label => {
            let programs = (Labels::new(), Labels::new());
            run_shared(
                rt, alloc, job, fragments, shape, entry, disk, pacers, gate, programs,
            )
        }
        Query::Reach(_) => {
            let programs = (Reach::new(), Reach::new());
            run_shared(
                rt, alloc, job, fragments, shape, entry, disk, pacers, gate, programs,
            )
        }
        Query::Sim(pattern) => match two_sims(alloc, pattern) {
            Some(programs) => run_shared(
                rt, alloc, job, fragments, shape, entry, disk, pacers, gate, programs,
            ),
            None => Ran::NoMemory,
        },
    }
}

/// The same by two programs of the job's query: the lanes evaluate by the first, and the hub keeps the second.
fn run_shared<
    R: Threads + Wait + Sync,
    P: Pie + Send + Sync,
    D: Disk,
    Q: Pacer + Send,
    G: Gate + Sync,
>(
    rt: &R,
    alloc: Global,
    job: &Job,
    fragments: &[Fragment],
    shape: &Shape,
    entry: Entry,
    disk: &mut D,
    pacers: Vec<Q>,
    gate: &G,
    programs: (P, P),
) -> Ran
    requires job { IsJob job.now }
    requires fragments { fragments.now ≡ fragments_of job.now }
    requires shape { shape.now ≡ shape_of job.now }
    requires start { IsInForm (system_of job.now) entry.start }
    requires store { 1 ≤ job.now.settings.snapshot → HasLast entry.start.epoch entry.store }
    requires program { P.is_for programs.0 job.now }
    requires kept { P.is_for programs.1 job.now }
    ensures run { HasRun job.now fragments.now entry.start result }
    ensures used { HasUsed D.moment D.honest job.now disk.old disk.new }
    ensures not_begun { result ≡ NoMemory → disk.new ≡ disk.old }
    ensures unkept { job.now.settings.snapshot ≡ 0 → KeepsNothing result }
    ensures crash { IsTrue (D.honest disk.old) → KeepsBy D.content D.images D.moment job.now entry.store result disk.old disk.new }
    ensures disk_fault { IsStoppedByDisk result → Rose (D.faults disk.old) (D.faults disk.new) }
    ensures no_fault { IsNotStopped result → D.faults disk.new ≡ D.faults disk.old }
{
    turns_are_calm();
    claims_add_up(disk);
    let (program, kept) = programs;
    let Entry { start, store } = entry;
    let Ok(into) = room_for(alloc, job, shape) else {
        return Ran::NoMemory;
    };
    let mut keeper = Keeper {
        store,
        kept: Vec::new(alloc),
        into,
    };
    let Ok(hub) = Hub::open(alloc, kept, job, fragments, pacers, start) else {
        return Ran::NoMemory;
    };
    let Some((mut hub, leave)) = share(
        rt,
        alloc,
        hub,
        job,
        fragments,
        shape,
        &program,
        gate,
        &mut keeper,
        disk,
    ) else {
        return Ran::NoMemory;
    };
    finish_alone(
        &mut hub,
        leave,
        &mut keeper,
        disk,
        shape,
        fragments,
        &program,
    );
    ended(job, fragments, hub, keeper.kept)
}

/// Ends a hub's journal where it hasn't ended: goes on alone where all that was sealed is kept, and else stops the run.
/// No lane has a Work out before and after.
fn finish_alone<P: Pie, Q: Pacer, D: Disk>(
    hub: &mut Hub<P, Q>,
    leave: Leave,
    keeper: &mut Keeper,
    disk: &mut D,
    shape: &Shape,
    fragments: &[Fragment],
    program: &P,
)
    requires hub { IsLanedHub hub.old }
    requires free { (lane : ℕ) → lane < hub.old.hub.job.settings.lanes → is_out_at hub.old lane ≡ false }
    requires leaves { (keeper_old : Keeper) × (began : D) × LeavesHub D.content D.images D.moment D.faults D.honest hub.old.hub.job keeper_old began leave hub.old.hub keeper.old disk.old }
    requires shape { shape.now ≡ shape_of hub.old.hub.job }
    requires fragments { fragments.now ≡ fragments_of hub.old.hub.job }
    requires program { P.is_for program.now hub.old.hub.job }
    requires counters { hub.old.hub.counters ≡ P.counters_for hub.old.hub.job }
    ensures same { (hub.new.hub.job ≡ hub.old.hub.job) × (hub.new.hub.start ≡ hub.old.hub.start) }
    ensures hub { IsLanedHub hub.new }
    ensures free { (lane : ℕ) → lane < hub.old.hub.job.settings.lanes → is_out_at hub.new lane ≡ false }
    ensures ended { has_ended (reverse hub.new.hub.journal.events) ≡ true }
    ensures used { HasUsed D.moment D.honest hub.old.hub.job disk.old disk.new }
    ensures unkept { hub.old.hub.job.settings.snapshot ≡ 0 → keeper.new.kept.items ≡ [] }
    ensures finished { Finishes D.content D.images D.moment D.faults D.honest hub.old.hub.job leave hub.old.hub keeper.old disk.old hub.new.hub keeper.new.kept.items disk.new }
{
    calm_is_empty();
    kepts_follow_seals();
    nothing_is_sealed();
    if hub.journal().ended() {
        return;
    }
    match leave {
        Leave::AllKept => run_out(hub, keeper, disk, shape, fragments, program),
        Leave::Waits(cause) => hub.stop(cause),
    }
}

/// Shares a hub that has done nothing yet among its lanes and the coordinator, and gives it back when all have left it.
/// No lane has a Work out then. `None` comes where there was no memory to begin, and then the disk wasn't used.
fn share<R: Threads + Wait + Sync, P: Pie + Send + Sync, D: Disk, Q: Pacer + Send, G: Gate + Sync>(
    rt: &R,
    alloc: Global,
    hub: Hub<P, Q>,
    job: &Job,
    fragments: &[Fragment],
    shape: &Shape,
    program: &P,
    gate: &G,
    keeper: &mut Keeper,
    disk: &mut D,
) -> Option<(Hub<P, Q>, Leave)>
    requires job { IsJob job.now }
    requires hub { IsLanedHub hub }
    requires same { hub.hub.job ≡ job.now }
    requires calm { IsCalm hub.hub }
    requires notes { (k : ℕ) → note_of hub k ≡ ground_of job.now hub.hub.start }
    requires keeper { HasKept job.now hub.hub.start [] keeper.old }
    requires fragments { fragments.now ≡ fragments_of job.now }
    requires shape { shape.now ≡ shape_of job.now }
    requires program { P.is_for program.now job.now }
    ensures hub { IfSome result (λ r. IsLanedHub r.0) }
    ensures same { IfSome result (λ r. (r.0.hub.job ≡ job.now) × (r.0.hub.start ≡ hub.hub.start) × (r.0.hub.counters ≡ P.counters_for job.now)) }
    ensures free { IfSome result (λ r. (lane : ℕ) → lane < job.now.settings.lanes → is_out_at r.0 lane ≡ false) }
    ensures leaves { IfSome result (λ r. LeavesHub D.content D.images D.moment D.faults D.honest job.now keeper.old disk.old r.1 r.0.hub keeper.new disk.new) }
    ensures used { HasUsed D.moment D.honest job.now disk.old disk.new }
    ensures digest { digest_in keeper.new.store ≡ digest_in keeper.old.store }
    ensures not_begun { result ≡ None → disk.new ≡ disk.old }
{
    notes_tell();
    calm_is_empty();
    let lanes = job.settings.lanes;
    let Ok(slots) = Vec::with_capacity(alloc, lanes as usize) else {
        return None;
    };
    let Ok((lock, mut seats)) = NotedLock::new(alloc, hub, lanes + 1) else {
        return None;
    };
    let Some(own) = seats.pop() else {
        unreachable!()
    };
    let (leave, own, mut seats) = run_seats(
        rt, &lock, own, seats, slots, job, fragments, shape, program, gate, keeper, disk,
    );
    seats.push_reserved(own);
    let hub = lock.close(seats);
    hub.stands();
    Some((hub, leave))
}

/// Runs all seats of a lock, and gives them back when the coordinator and all lanes have left. The list of the lanes'
/// seats has room for the coordinator's too, and the slots have room for those of the lanes.
fn run_seats<
    R: Threads + Wait + Sync,
    P: Pie + Send + Sync,
    D: Disk,
    Q: Pacer + Send,
    G: Gate + Sync,
>(
    rt: &R,
    lock: &NotedLock<Hub<P, Q>>,
    own: LockSeat,
    seats: Vec<LockSeat>,
    slots: Vec<Option<LockSeat>>,
    job: &Job,
    fragments: &[Fragment],
    shape: &Shape,
    program: &P,
    gate: &G,
    keeper: &mut Keeper,
    disk: &mut D,
) -> (Leave, LockSeat, Vec<LockSeat>)
    requires job { IsJob job.now }
    requires own { IsSeatOfRun (lock_id lock.now) job.now job.now.settings.lanes own }
    requires begins { MayBegin job.now (seat_note own) keeper.old }
    requires seats { AreSeatsOfRun (lock_id lock.now) job.now seats.items }
    requires all { (length seats.items ≡ job.now.settings.lanes) × (job.now.settings.lanes + 1 ≤ vec_capacity seats) }
    requires slots { (vec_len slots ≡ 0) × (job.now.settings.lanes ≤ vec_capacity slots) }
    requires fragments { fragments.now ≡ fragments_of job.now }
    requires shape { shape.now ≡ shape_of job.now }
    requires program { P.is_for program.now job.now }
    ensures own { IsSeatOfRun (lock_id lock.now) job.now job.now.settings.lanes result.1 }
    ensures ground { ground_in (seat_note result.1) ≡ ground_in (seat_note own) }
    ensures seats { AreSeatsOfRun (lock_id lock.now) job.now result.2.items }
    ensures all { (length result.2.items ≡ job.now.settings.lanes) × (job.now.settings.lanes + 1 ≤ vec_capacity result.2) }
    ensures used { HasUsed D.moment D.honest job.now disk.old disk.new }
    ensures digest { digest_in keeper.new.store ≡ digest_in keeper.old.store }
    ensures leaves { LeavesNote D.content D.images D.moment D.faults D.honest job.now keeper.old disk.old result.0 (seat_note result.1) keeper.new disk.new }
{
    let mut seats = seats;
    let mut slots = slots;
    'out: while let Some(seat) = seats.pop() {
        slots.push_reserved(Some(seat));
    }
    let Some(slot) = slots.pop() else {
        unreachable!()
    };
    let Some(first) = slot else { unreachable!() };
    let (leave, own, first, slots) = beside(
        rt, lock, own, first, slots, job, fragments, shape, program, gate, keeper, disk,
    );
    let mut slots = slots;
    seats.push_reserved(first);
    'back: while let Some(slot) = slots.pop() {
        let Some(seat) = slot else { unreachable!() };
        seats.push_reserved(seat);
    }
    (leave, own, seats)
}

/// The coordinator with lane 0 in this thread, beside the other lanes in threads of their own. Where none can be made
/// the other lanes come once the coordinator has left.
fn beside<R: Threads + Wait + Sync, P: Pie + Send + Sync, D: Disk, Q: Pacer + Send, G: Gate + Sync>(
    rt: &R,
    lock: &NotedLock<Hub<P, Q>>,
    own: LockSeat,
    first: LockSeat,
    slots: Vec<Option<LockSeat>>,
    job: &Job,
    fragments: &[Fragment],
    shape: &Shape,
    program: &P,
    gate: &G,
    keeper: &mut Keeper,
    disk: &mut D,
) -> (Leave, LockSeat, LockSeat, Vec<Option<LockSeat>>)
    requires job { IsJob job.now }
    requires own { IsSeatOfRun (lock_id lock.now) job.now job.now.settings.lanes own }
    requires first { IsSeatOfRun (lock_id lock.now) job.now 0 first }
    requires begins { MayBegin job.now (seat_note own) keeper.old }
    requires slots { AreSlots (lock_id lock.now) job.now slots.items }
    requires count { length slots.items + 1 ≡ job.now.settings.lanes }
    requires fragments { fragments.now ≡ fragments_of job.now }
    requires shape { shape.now ≡ shape_of job.now }
    requires program { P.is_for program.now job.now }
    ensures own { IsSeatOfRun (lock_id lock.now) job.now job.now.settings.lanes result.1 }
    ensures ground { ground_in (seat_note result.1) ≡ ground_in (seat_note own) }
    ensures first { IsSeatOfRun (lock_id lock.now) job.now 0 result.2 }
    ensures ended { EndsLane (answer_in (seat_note result.2)) }
    ensures slots { AreSlots (lock_id lock.now) job.now result.3.items }
    ensures count { length result.3.items ≡ length slots.items }
    ensures used { HasUsed D.moment D.honest job.now disk.old disk.new }
    ensures digest { digest_in keeper.new.store ≡ digest_in keeper.old.store }
    ensures leaves { LeavesNote D.content D.images D.moment D.faults D.honest job.now keeper.old disk.old result.0 (seat_note result.1) keeper.new disk.new }
{
    let mut slots = slots;
    let mut own = Some(own);
    let mut first = Some(first);
    let (_, leave) = join_mut(
        rt,
        &mut || -> ()
            requires { IsSync R.row × IsSend P.row × IsSync P.row × IsSend Q.row × IsSync G.row × AreSlots (lock_id lock.now) job.now slots.items × (length slots.items + 1 ≡ job.now.settings.lanes) × (fragments.now ≡ fragments_of job.now) × P.is_for program.now job.now }
            ensures { AreSlots (lock_id lock.entry.now) job.entry.now slots.exit.items × (length slots.exit.items ≡ length slots.entry.items) }
        { run_others(rt, lock, &mut slots, job, fragments, program, gate) },
        &mut || -> Leave
            requires { IsJob job.now × HoldsSeat (lock_id lock.now) job.now job.now.settings.lanes own × HoldsSeat (lock_id lock.now) job.now 0 first × MayBegin job.now (note_in own) keeper.now × (fragments.now ≡ fragments_of job.now) × (shape.now ≡ shape_of job.now) × P.is_for program.now job.now }
            ensures { HoldsSeat (lock_id lock.entry.now) job.entry.now job.entry.now.settings.lanes own.exit × HoldsSeat (lock_id lock.entry.now) job.entry.now 0 first.exit × (ground_in (note_in own.exit) ≡ ground_in (note_in own.entry)) × EndsLane (answer_in (note_in first.exit)) × HasUsed D.moment D.honest job.entry.now disk.entry.now disk.exit.now × (digest_in keeper.exit.now.store ≡ digest_in keeper.entry.now.store) × LeavesNote D.content D.images D.moment D.faults D.honest job.entry.now keeper.entry.now disk.entry.now result (note_in own.exit) keeper.exit.now disk.exit.now }
        {
            coordinate(
                rt, lock, &mut own, &mut first, job, fragments, shape, program, gate, keeper, disk,
            )
        },
    );
    let Some(own) = own else { unreachable!() };
    let Some(first) = first else { unreachable!() };
    (leave, own, first, slots)
}

/// The lanes from 1 on, each in a thread of its own where one can be made.
fn run_others<R: Threads + Wait + Sync, P: Pie + Send + Sync, Q: Pacer + Send, G: Gate + Sync>(
    rt: &R,
    lock: &NotedLock<Hub<P, Q>>,
    slots: &mut Vec<Option<LockSeat>>,
    job: &Job,
    fragments: &[Fragment],
    program: &P,
    gate: &G,
)
    requires slots { AreSlots (lock_id lock.now) job.now slots.old.items }
    requires count { length slots.old.items + 1 ≡ job.now.settings.lanes }
    requires fragments { fragments.now ≡ fragments_of job.now }
    requires program { P.is_for program.now job.now }
    ensures slots { AreSlots (lock_id lock.now) job.now slots.new.items }
    ensures count { length slots.new.items ≡ length slots.old.items }
{
    let lanes = job.settings.lanes;
    let count = slots.len();
    if count == 0 {
        return;
    }
    for_each_mut(
        rt,
        slots,
        count,
        &|place: usize, slot: &mut Option<LockSeat>|
            requires { (place + 1 < lanes) × (lanes ≡ job.now.settings.lanes) × IsSlotAt (lock_id lock.now) job.now place slot.now × (fragments.now ≡ fragments_of job.now) × P.is_for program.now job.now }
            ensures { IsSlotAt (lock_id lock.entry.now) job.entry.now place slot.exit.now }
        {
            let number = lanes - 1 - place as u32;
            run_slot(rt, lock, slot, number, job, fragments, program, gate)
        },
    );
}

/// The lane whose seat lies in the slot, until the journal has ended.
fn run_slot<R: Wait, P: Pie, Q: Pacer, G: Gate>(
    rt: &R,
    lock: &NotedLock<Hub<P, Q>>,
    slot: &mut Option<LockSeat>,
    number: u32,
    job: &Job,
    fragments: &[Fragment],
    program: &P,
    gate: &G,
)
    requires lane { number < job.now.settings.lanes }
    requires slot { HoldsSeat (lock_id lock.now) job.now number slot.old }
    requires fragments { fragments.now ≡ fragments_of job.now }
    requires program { P.is_for program.now job.now }
    ensures slot { HoldsSeat (lock_id lock.now) job.now number slot.new }
{
    let _ = job;
    let Some(seat) = slot.take() else {
        unreachable!()
    };
    let LaneEnd { seat } = lane(rt, lock, seat, number, program, fragments, gate);
    *slot = Some(seat);
}

/// The coordinator and lane 0, whose seats lie in the slots, until lane 0 has ended.
fn coordinate<R: Wait, P: Pie, D: Disk, Q: Pacer, G: Gate>(
    rt: &R,
    lock: &NotedLock<Hub<P, Q>>,
    own: &mut Option<LockSeat>,
    first: &mut Option<LockSeat>,
    job: &Job,
    fragments: &[Fragment],
    shape: &Shape,
    program: &P,
    gate: &G,
    keeper: &mut Keeper,
    disk: &mut D,
) -> Leave
    requires job { IsJob job.now }
    requires own { HoldsSeat (lock_id lock.now) job.now job.now.settings.lanes own.old }
    requires first { HoldsSeat (lock_id lock.now) job.now 0 first.old }
    requires begins { MayBegin job.now (note_in own.old) keeper.old }
    requires fragments { fragments.now ≡ fragments_of job.now }
    requires shape { shape.now ≡ shape_of job.now }
    requires program { P.is_for program.now job.now }
    ensures own { HoldsSeat (lock_id lock.now) job.now job.now.settings.lanes own.new }
    ensures ground { ground_in (note_in own.new) ≡ ground_in (note_in own.old) }
    ensures first { HoldsSeat (lock_id lock.now) job.now 0 first.new }
    ensures ended { EndsLane (answer_in (note_in first.new)) }
    ensures used { HasUsed D.moment D.honest job.now disk.old disk.new }
    ensures digest { digest_in keeper.new.store ≡ digest_in keeper.old.store }
    ensures leaves { LeavesNote D.content D.images D.moment D.faults D.honest job.now keeper.old disk.old result (note_in own.new) keeper.new disk.new }
{
    let Some(seat) = own.take() else {
        unreachable!()
    };
    let Some(lane_seat) = first.take() else {
        unreachable!()
    };
    let (leave, seat, lane_seat) = take_duties(
        rt, lock, seat, lane_seat, job, fragments, shape, program, gate, keeper, disk,
    );
    *own = Some(seat);
    *first = Some(lane_seat);
    leave
}

/// Takes the duties, and where there is none a visit of lane 0, until lane 0 has ended or a snapshot can't be kept. Lane
/// 0 also has a turn where a duty found the journal ended or stopped the run, so that its record tells of it.
fn take_duties<R: Wait, P: Pie, D: Disk, Q: Pacer, G: Gate>(
    rt: &R,
    lock: &NotedLock<Hub<P, Q>>,
    own: LockSeat,
    first: LockSeat,
    job: &Job,
    fragments: &[Fragment],
    shape: &Shape,
    program: &P,
    gate: &G,
    keeper: &mut Keeper,
    disk: &mut D,
) -> (Leave, LockSeat, LockSeat)
    requires job { IsJob job.now }
    requires own { IsSeatOfRun (lock_id lock.now) job.now job.now.settings.lanes own }
    requires first { IsSeatOfRun (lock_id lock.now) job.now 0 first }
    requires begins { MayBegin job.now (seat_note own) keeper.old }
    requires fragments { fragments.now ≡ fragments_of job.now }
    requires shape { shape.now ≡ shape_of job.now }
    requires program { P.is_for program.now job.now }
    ensures own { IsSeatOfRun (lock_id lock.now) job.now job.now.settings.lanes result.1 }
    ensures ground { ground_in (seat_note result.1) ≡ ground_in (seat_note own) }
    ensures first { IsSeatOfRun (lock_id lock.now) job.now 0 result.2 }
    ensures ended { EndsLane (answer_in (seat_note result.2)) }
    ensures used { HasUsed D.moment D.honest job.now disk.old disk.new }
    ensures digest { digest_in keeper.new.store ≡ digest_in keeper.old.store }
    ensures leaves { LeavesNote D.content D.images D.moment D.faults D.honest job.now keeper.old disk.old result.0 (seat_note result.1) keeper.new disk.new }
{
    let mut own = own;
    let mut first = first;
    let mut idle = 0;
    'turns: for _ in rt.forever() {
        let (leave, served, back, again) = coordinator_turn(
            rt, lock, own, first, job, fragments, shape, program, gate, keeper, disk,
        );
        own = back;
        first = again;
        match served {
            Served::Did => idle = 0,
            Served::Idle => idle = pause(rt, idle),
            Served::Ended | Served::NoMemory => return (leave, own, first),
        }
    }
    unreachable!()
}

/// A duty with what a Seal asks for, and where that appended no event a visit of lane 0, which then answers. Where a
/// snapshot that was sealed can't be kept, lane 0 goes on until it has ended.
fn coordinator_turn<R: Wait, P: Pie, D: Disk, Q: Pacer, G: Gate>(
    rt: &R,
    lock: &NotedLock<Hub<P, Q>>,
    own: LockSeat,
    first: LockSeat,
    job: &Job,
    fragments: &[Fragment],
    shape: &Shape,
    program: &P,
    gate: &G,
    keeper: &mut Keeper,
    disk: &mut D,
) -> (Leave, Served, LockSeat, LockSeat)
    requires job { IsJob job.now }
    requires own { IsSeatOfRun (lock_id lock.now) job.now job.now.settings.lanes own }
    requires first { IsSeatOfRun (lock_id lock.now) job.now 0 first }
    requires kept { HasAllKept job.now (seat_note own) keeper.old }
    requires fragments { fragments.now ≡ fragments_of job.now }
    requires shape { shape.now ≡ shape_of job.now }
    requires program { P.is_for program.now job.now }
    ensures own { IsSeatOfRun (lock_id lock.now) job.now job.now.settings.lanes result.2 }
    ensures ground { ground_in (seat_note result.2) ≡ ground_in (seat_note own) }
    ensures first { IsSeatOfRun (lock_id lock.now) job.now 0 result.3 }
    ensures answer { AnswersAsLeft result.0 result.1 (answer_in (seat_note result.3)) }
    ensures used { HasUsed D.moment D.honest job.now disk.old disk.new }
    ensures digest { digest_in keeper.new.store ≡ digest_in keeper.old.store }
    ensures leaves { TurnLeavesNote D.content D.images D.moment D.faults D.honest job.now keeper.old disk.old result.0 (seat_note own) (seat_note result.2) keeper.new disk.new }
{
    let (duty, own) = duty_turn(rt, lock, own, job, &mut keeper.into);
    match duty {
        Duty::Did(_) => (Leave::AllKept, Served::Did, own, first),
        Duty::Sealed(epoch) => match keep_sealed(rt, lock, own, job, shape, epoch, keeper, disk) {
            (Leave::AllKept, own) => (Leave::AllKept, Served::Did, own, first),
            (Leave::Waits(why), own) => {
                let LaneEnd { seat } = lane(rt, lock, first, 0, program, fragments, gate);
                (Leave::Waits(why), Served::Ended, own, seat)
            }
        },
        Duty::Nothing | Duty::Ended | Duty::NoMemory => {
            let (served, first) = visit(
                rt,
                lock,
                first,
                0,
                program,
                fragments,
                gate,
                EVENTS_A_VISIT,
            );
            (Leave::AllKept, served, own, first)
        }
    }
}

/// Puts the snapshot that was sealed last into the state file, outside the lock, and then takes its Kept. Where the put
/// failed, or the journal had ended meanwhile, it waits; after a put that failed the run is stopped.
fn keep_sealed<R: Wait, P: Pie, D: Disk, Q: Pacer>(
    rt: &R,
    lock: &NotedLock<Hub<P, Q>>,
    own: LockSeat,
    job: &Job,
    shape: &Shape,
    epoch: u64,
    keeper: &mut Keeper,
    disk: &mut D,
) -> (Leave, LockSeat)
    requires job { IsJob job.now }
    requires own { IsSeatOfRun (lock_id lock.now) job.now job.now.settings.lanes own }
    requires sealed { (start : SnapshotParts) × (cuts : List SnapshotParts) × MayPut job.now start cuts epoch (seat_note own) keeper.old }
    requires shape { shape.now ≡ shape_of job.now }
    ensures own { IsSeatOfRun (lock_id lock.now) job.now job.now.settings.lanes result.1 }
    ensures ground { ground_in (seat_note result.1) ≡ ground_in (seat_note own) }
    ensures used { HasUsed D.moment D.honest job.now disk.old disk.new }
    ensures digest { digest_in keeper.new.store ≡ digest_in keeper.old.store }
    ensures leaves { PutLeavesNote D.content D.images D.moment D.faults D.honest job.now keeper.old disk.old epoch result.0 (seat_note own) (seat_note result.1) keeper.new disk.new }
{
    match keeper.put(disk, shape) {
        Ok(()) => {
            let (goes_on, own) = kept_turn(rt, lock, own, job, epoch);
            if goes_on {
                (Leave::AllKept, own)
            } else {
                (Leave::Waits(StopCause::Memory), own)
            }
        }
        Err(cause) => {
            let own = stop_turn(rt, lock, own, job, epoch, cause);
            (Leave::Waits(cause), own)
        }
    }
}
