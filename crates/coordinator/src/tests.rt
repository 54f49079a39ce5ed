ghost use Rattle.std.specs.Prelude.{IfOk};
ghost use Rattle.graph_core.specs.Graphs.{IsJob};

use crate::{KeptAt, Ran, begin_fresh, entries_may_begin, run_alone, shape_of};
use delay_stretch::{Calm, Pacer, Scripted};
use fragment_cut::fragment;
use grape_disk::{Disk, MemDisk};
use grape_event::{Event, Journal, StopCause};
use graph_core::Job;
use graph_text::{LineReader, TextFault};
use std::alloc::Global;
use std::marker::Send;
use std::process::Abort;
use std::test::Fail;

/// The job of a text.
pub(crate) fn job_of(alloc: Global, text: &str) -> Result<Job, TextFault>
    ensures { IfOk result IsJob }
{
    let mut reader = LineReader::new(alloc)?;
    reader.feed(text.as_bytes())?;
    reader.finish()
}

/// Any 32 bytes in the place of an input's digest.
const DIGEST: [u8; 32] = [0xA5; 32];

/// Runs a job with these pacers, from the beginning.
pub(crate) fn ran<Q: Pacer>(alloc: Global, job: &Job, pacers: Vec<Q>) -> Result<Ran, TextFault>
    requires { IsJob job.now }
{
    let mut disk = MemDisk::new(alloc, 4096, &[], Vec::new(alloc), None)?;
    ran_on(alloc, job, pacers, &mut disk)
}

/// The same on this disk.
fn ran_on<Q: Pacer>(
    alloc: Global,
    job: &Job,
    pacers: Vec<Q>,
    disk: &mut MemDisk,
) -> Result<Ran, TextFault>
    requires { IsJob job.now }
{
    entries_may_begin();
    let fragments = fragment(alloc, job)?;
    let shape = shape_of(alloc, job, &fragments)?;
    let snapshot = job.settings.snapshot;
    let Ok(entry) = begin_fresh(alloc, &shape, &DIGEST, snapshot, disk) else {
        return Err(TextFault::NoMemory);
    };
    Ok(run_alone(alloc, job, &fragments, &shape, entry, disk, pacers))
}

/// Stops where a journal has other events.
fn check_events(rt: &impl Abort, journal: &Journal, want: &[Event]) {
    assert_eq!(rt; journal.len(), want.len() as u64);
    for (place, event) in want.iter().enumerate() {
        assert_eq!(rt; journal.get(place as u64), Some(*event));
    }
}

/// Stops where a run has other events, or isn't done.
pub(crate) fn check_run(rt: &impl Abort, ran: &Ran, want: &[Event]) {
    match ran {
        Ran::Done { story, .. } => {
            assert_eq!(rt; story.start.epoch, 0);
            assert_eq!(rt; story.kept.len(), 0);
            check_events(rt, &story.journal, want);
        }
        Ran::Stopped { .. } | Ran::NoMemory => panic!(rt; "the run isn't done"),
    }
}

pub(crate) fn take(worker: u32) -> Event {
    Event::Take { worker, lane: 0 }
}

pub(crate) fn give(worker: u32) -> Event {
    Event::Give { worker }
}

pub(crate) fn flag(worker: u32) -> Event {
    Event::Flag { worker }
}

pub(crate) fn ack(worker: u32) -> Event {
    Event::Ack { worker }
}

pub(crate) fn hold(worker: u32) -> Event {
    Event::Hold { worker }
}

pub(crate) fn stretch(worker: u32, turns: u32) -> Event {
    Event::Stretch { worker, turns }
}

fn chain() -> &'static str {
    "query dist 1\nfragments 2\ncut range\npolicy ap\nlanes 1\n1 2 5\n2 3 1\n"
}

/// Vertex 4, of the upper fragment, is read by vertex 1 of the lower one, and the source is in the upper one.
fn backward() -> &'static str {
    "query dist 3\nfragments 2\ncut range\npolicy ap\nlanes 1\nv 2\n3 4 1\n4 1 1\n"
}

fn chain_events() -> [Event; 10] {
    [
        take(0),
        give(0),
        take(1),
        give(1),
        flag(0),
        flag(1),
        Event::Ask,
        ack(0),
        ack(1),
        Event::End,
    ]
}

fn stretched_events() -> [Event; 15] {
    [
        take(0),
        give(0),
        take(1),
        give(1),
        stretch(0, 3),
        flag(1),
        hold(0),
        hold(0),
        take(0),
        give(0),
        flag(0),
        Event::Ask,
        ack(1),
        ack(0),
        Event::End,
    ]
}

fn calm_events() -> [Event; 13] {
    [
        take(0),
        give(0),
        take(1),
        give(1),
        stretch(0, 0),
        take(0),
        give(0),
        flag(1),
        flag(0),
        Event::Ask,
        ack(1),
        ack(0),
        Event::End,
    ]
}

#[test]
fn a_run_ends_by_a_probe(rt: HostRuntime) -> Result<(), Fail> {
    let alloc = rt.alloc();
    let job = job_of(alloc, chain())?;
    let none: Vec<Calm> = Vec::new(alloc);
    check_run(&rt, &ran(alloc, &job, none)?, &chain_events());
    Ok(())
}

/// The pacer that is handed in for a worker is asked.
#[test]
fn a_pacer_adds_turns(rt: HostRuntime) -> Result<(), Fail> {
    let alloc = rt.alloc();
    let job = job_of(alloc, backward())?;
    let mut pacers = Vec::new(alloc);
    pacers.push(Scripted::new(Vec::from_slice(alloc, &[3])?))?;
    check_run(&rt, &ran(alloc, &job, pacers)?, &stretched_events());
    Ok(())
}

#[test]
fn calm_pacers_add_none(rt: HostRuntime) -> Result<(), Fail> {
    let alloc = rt.alloc();
    let job = job_of(alloc, backward())?;
    let mut pacers = Vec::new(alloc);
    pacers.push(Calm)?;
    pacers.push(Calm)?;
    check_run(&rt, &ran(alloc, &job, pacers)?, &calm_events());
    Ok(())
}

#[test]
fn boxed_pacers_are_asked(rt: HostRuntime) -> Result<(), Fail> {
    let alloc = rt.alloc();
    let job = job_of(alloc, backward())?;
    let mut pacers: Vec<Box<dyn Pacer + Send>> = Vec::new(alloc);
    let script = Scripted::new(Vec::from_slice(alloc, &[3])?);
    pacers.push(Box::new(alloc, script)?)?;
    pacers.push(Box::new(alloc, Calm)?)?;
    check_run(&rt, &ran(alloc, &job, pacers)?, &stretched_events());
    Ok(())
}

/// One vertex, which is the source, and a snapshot after each Take.
fn lone() -> &'static str {
    "query dist 7\nfragments 1\nlanes 1\nsnapshot 1\nv 7 0\n"
}

fn kept_events() -> [Event; 10] {
    [
        take(0),
        give(0),
        Event::Begin { epoch: 1 },
        Event::Mark { worker: 0 },
        Event::Seal { epoch: 1 },
        Event::Kept { epoch: 1 },
        flag(0),
        Event::Ask,
        ack(0),
        Event::End,
    ]
}

/// The snapshot of a Seal is put at once, and noted with how many calls of the disk there were.
#[test]
fn a_seal_is_kept(rt: HostRuntime) -> Result<(), Fail> {
    let alloc = rt.alloc();
    let job = job_of(alloc, lone())?;
    let none: Vec<Calm> = Vec::new(alloc);
    let mut disk = MemDisk::new(alloc, 4096, &[], Vec::new(alloc), None)?;
    let Ran::Done { story, .. } = ran_on(alloc, &job, none, &mut disk)? else {
        panic!(&rt; "the run isn't done")
    };
    check_events(&rt, &story.journal, &kept_events());
    let moment = disk.calls();
    assert_eq!(rt;
        story.kept.as_slice(),
        [KeptAt { epoch: 1, moment }].as_slice()
    );
    Ok(())
}

/// A put that fails, by whichever of its calls, stops the run for want of the disk right behind the Seal.
#[test]
fn a_failed_put_stops_the_run(rt: HostRuntime) -> Result<(), Fail> {
    let alloc = rt.alloc();
    let job = job_of(alloc, lone())?;
    let mut stopped = 0u32;
    for stop in 1..40 {
        let none: Vec<Calm> = Vec::new(alloc);
        let mut disk = MemDisk::new(alloc, 4096, &[], Vec::new(alloc), Some(stop))?;
        let Ok(Ran::Stopped { cause, story }) = ran_on(alloc, &job, none, &mut disk) else {
            continue;
        };
        stopped = stopped.saturating_add(1);
        assert_eq!(rt; cause, StopCause::Disk);
        assert_eq!(rt; story.journal.len(), 6);
        assert_eq!(rt; story.journal.get(4), Some(Event::Seal { epoch: 1 }));
        assert_eq!(rt; story.kept.len(), 0);
    }
    assert!(rt; stopped > 3);
    Ok(())
}
