ghost use Rattle.std.specs.Prelude.{◌≡◌, ◌≤◌, IfOk};
ghost use Rattle.noted_lock.specs.Sights.{lock_id};
ghost use Rattle.graph_core.specs.Graphs.{IsJob};
ghost use Rattle.graph_core.specs.Queries.{equations_of};
ghost use Rattle.graph_core.specs.Fragments.{fragments_of};
ghost use Rattle.pie_core.specs.Solutions.{starts_of};
ghost use Rattle.pie_flood.specs.FloodJobs.{IsLabelJob};
ghost use Rattle.base_machine.specs.Machine.{system_of, fresh_snapshot};
ghost use Rattle.lane_loop.specs.Meetings.{part_of, MayTakeTurn};

use crate::meeting::{Meeting, Watched};
use crate::{OpenGate, Served, turn};
use delay_stretch::{Calm, Pacer};
use fragment_cut::fragment;
use grape_hub::{Hub, fresh_is_a_start, notes_tell};
use grape_port::NoMemory;
use graph_core::{Cut, Edge, Fragment, Graph, Job, Policy, Query, Settings};
use noted_lock::{LockSeat, NotedLock};
use pie_core::Pie;
use std::alloc::Global;
use std::process::Abort;
use std::sync::Wait;
use std::sync::atomic::Ordering;
use std::test::Fail;
use std::thread::{Threads, join};
use token_cut::{Part, Phase, Snapshot};
use value_order::NOTHING;

fn edge(from: u32, to: u32) -> Edge
    ensures { result ≡ record { from = from; to = to; weight = 1 } }
{
    Edge {
        from,
        to,
        weight: 1,
    }
}

/// The chain 5, 6, 1, 2, 3 and vertex 4 alone, in three fragments of two vertices. The label of vertex 1 reaches the
/// other two fragments.
fn label_job(alloc: Global) -> Result<Job, NoMemory>
    ensures job { IfOk result IsLabelJob }
    ensures lanes { IfOk result (λ job. job.settings.lanes ≡ 2) }
{
    let graph = Graph::build(
        alloc,
        &[(1, 0), (2, 0), (3, 0), (4, 0), (5, 0), (6, 0)],
        &[edge(1, 2), edge(2, 3), edge(5, 6), edge(6, 1)],
    )?;
    Ok(Job {
        graph,
        query: Query::Label,
        settings: Settings {
            fragments: 3,
            lanes: 2,
            cut: Cut::Range,
            policy: Policy::Ap,
            snapshot: 0,
        },
    })
}

/// The start value of each vertex.
fn starts_of(
    rt: &impl Abort,
    alloc: Global,
    job: &Job,
    vertices: &[u32],
) -> Result<Vec<u64>, NoMemory>
    requires job { IsJob job.now }
    ensures { IfOk result (λ starts. starts.items ≡ starts_of (equations_of job.now) vertices.now) }
{
    let mut starts = Vec::with_capacity(alloc, vertices.len())?;
    'vertices: for vertex in vertices {
        assert!(rt; *vertex < job.graph.count());
        starts.push(job.start_of(*vertex))?;
    }
    Ok(starts)
}

/// The start values of a fragment's places, and no mail.
fn fresh_part(rt: &impl Abort, alloc: Global, job: &Job, part: &Fragment) -> Result<Part, NoMemory>
    requires job { IsJob job.now }
    ensures { IfOk result (λ fresh. fresh ≡ part_of job.now part.now) }
{
    let mut values = starts_of(rt, alloc, job, part.owned())?;
    let mirrors = starts_of(rt, alloc, job, part.mirrors())?;
    values.extend_from_slice(&mirrors)?;
    let mail = vec![in alloc; NOTHING; part.mirrors().len()]?;
    Ok(Part {
        phase: Phase::Fresh,
        values,
        mail,
    })
}

/// The beginning of a run of the job.
fn fresh_start(
    rt: &impl Abort,
    alloc: Global,
    job: &Job,
    fragments: &[Fragment],
) -> Result<Snapshot, NoMemory>
    requires job { IsJob job.now }
    requires fragments { fragments.now ≡ fragments_of job.now }
    ensures { IfOk result (λ start. start ≡ fresh_snapshot (system_of job.now)) }
{
    let mut parts = Vec::with_capacity(alloc, fragments.len())?;
    'parts: for part in fragments {
        parts.push(fresh_part(rt, alloc, job, part)?)?;
    }
    Ok(Snapshot { epoch: 0, parts })
}

fn calm_pacers(alloc: Global) -> Result<Vec<Calm>, NoMemory> {
    let mut pacers = Vec::new(alloc);
    for _ in 0..64 {
        pacers.push(Calm)?;
    }
    Ok(pacers)
}

/// A hub that begins the job in a lock of three seats, and the seats of the lanes 0 and 1.
fn opened<P: Pie, Q: Pacer>(
    alloc: Global,
    kept: P,
    program: &P,
    job: &Job,
    fragments: &[Fragment],
    pacers: Vec<Q>,
    start: Snapshot,
) -> Result<(NotedLock<Hub<P, Q>>, LockSeat, LockSeat), NoMemory>
    requires job { IsJob job.now }
    requires lanes { job.now.settings.lanes ≡ 2 }
    requires kept { P.is_for kept job.now }
    requires program { P.is_for program.now job.now }
    requires fragments { fragments.now ≡ fragments_of job.now }
    requires start { start ≡ fresh_snapshot (system_of job.now) }
    ensures first { IfOk result (λ r. MayTakeTurn (lock_id r.0) (P.is_for program.now) fragments.now 0 r.1) }
    ensures second { IfOk result (λ r. MayTakeTurn (lock_id r.0) (P.is_for program.now) fragments.now 1 r.2) }
{
    let _ = program;
    fresh_is_a_start();
    notes_tell();
    let hub = Hub::open(alloc, kept, job, fragments, pacers, start)?;
    let (lock, mut seats) = NotedLock::new(alloc, hub, 3)?;
    let Some(_coordinator) = seats.pop() else {
        unreachable!()
    };
    let Some(second) = seats.pop() else {
        unreachable!()
    };
    let Some(first) = seats.pop() else {
        unreachable!()
    };
    Ok((lock, first, second))
}

/// Two threads make a turn each, of the lanes 0 and 1.
fn one_turn_each<R: Threads + Wait + Sync, P: Pie + Send + Sync, Q: Pacer + Send>(
    rt: &R,
    lock: &NotedLock<Hub<P, Q>>,
    first: LockSeat,
    second: LockSeat,
    program: &P,
    fragments: &[Fragment],
) -> LockSeat
    requires first { MayTakeTurn (lock_id lock.now) (P.is_for program.now) fragments.now 0 first }
    requires second { MayTakeTurn (lock_id lock.now) (P.is_for program.now) fragments.now 1 second }
    ensures first { MayTakeTurn (lock_id lock.now) (P.is_for program.now) fragments.now 0 result }
{
    let (first, _second) = join(
        rt,
        move || turn_of(rt, lock, first, 0, program, fragments),
        move || turn_of(rt, lock, second, 1, program, fragments),
    );
    first.1
}

/// A turn without a gate.
fn turn_of<R: Wait, P: Pie, Q: Pacer>(
    rt: &R,
    lock: &NotedLock<Hub<P, Q>>,
    seat: LockSeat,
    lane: u32,
    program: &P,
    fragments: &[Fragment],
) -> (Served, LockSeat)
    requires { MayTakeTurn (lock_id lock.now) (P.is_for program.now) fragments.now lane seat }
    ensures { MayTakeTurn (lock_id lock.now) (P.is_for program.now) fragments.now lane result.1 }
{
    turn(rt, lock, seat, lane, program, fragments, &OpenGate)
}

/// Makes turns of lane 0 until one is idle, and says whether one was.
fn goes_idle<R: Wait, P: Pie, Q: Pacer>(
    rt: &R,
    lock: &NotedLock<Hub<P, Q>>,
    seat: LockSeat,
    program: &P,
    fragments: &[Fragment],
) -> bool
    requires { MayTakeTurn (lock_id lock.now) (P.is_for program.now) fragments.now 0 seat }
{
    let mut seat = seat;
    'turns: for _ in 0..10_000 {
        let (served, back) = turn_of(rt, lock, seat, 0, program, fragments);
        seat = back;
        match served {
            Served::Did => {}
            Served::Idle => return true,
            Served::Ended | Served::NoMemory => return false,
        }
    }
    false
}

#[test]
fn two_lanes_meet_outside_the_lock(rt: HostRuntime) -> Result<(), Fail> {
    let alloc = rt.alloc();
    let job = label_job(alloc)?;
    let fragments = fragment(alloc, &job)?;
    let start = fresh_start(&rt, alloc, &job, &fragments)?;
    let meeting = Meeting::new();
    let program = Watched::new(&meeting);
    let kept = Watched::new(&meeting);
    let pacers = calm_pacers(alloc)?;
    let (lock, first, second) = opened(alloc, kept, &program, &job, &fragments, pacers, start)?;
    let first = one_turn_each(&rt, &lock, first, second, &program, &fragments);
    assert!(rt; goes_idle(&rt, &lock, first, &program, &fragments));
    assert!(rt; meeting.met.load(Ordering::SeqCst));
    assert_eq!(rt; meeting.pevals.load(Ordering::SeqCst), 3);
    assert!(rt; meeting.incevals.load(Ordering::SeqCst) >= 1);
    Ok(())
}
