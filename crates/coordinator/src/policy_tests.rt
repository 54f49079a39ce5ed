//! What the policies and the pacers do to the order of events. The journals were worked out by hand.

ghost use Rattle.std.specs.Prelude.{IfOk};
ghost use Rattle.graph_core.specs.Graphs.{IsJob};

use crate::Ran;
use crate::tests::{ack, check_run, flag, give, hold, job_of, ran, stretch, take};
use delay_stretch::{Pacer, Scripted};
use grape_event::{Event, Journal};
use graph_core::Job;
use graph_text::{LineReader, TextFault};
use std::alloc::Global;
use std::process::Abort;
use std::test::Fail;

/// A job of three fragments with two vertices each, by a policy. Worker 2 sends to the workers 0 and 1, then 1 sends to
/// 2, and then 2 to 1.
fn echo(alloc: Global, policy: &str) -> Result<Job, TextFault>
    ensures { IfOk result IsJob }
{
    let mut reader = LineReader::new(alloc)?;
    reader.feed(policy.as_bytes())?;
    reader.feed(b"query dist 1\nfragments 3\ncut range\n1 5 1\n5 2 1\n5 3 1\n3 6 1\n6 4 1\n")?;
    reader.finish()
}

/// Pacers for three workers, of which the first adds nine turns to its first Stretch.
fn nine_turns(alloc: Global) -> Result<Vec<Scripted>, TextFault> {
    let mut pacers = Vec::new(alloc);
    pacers.push(Scripted::new(Vec::from_slice(alloc, &[9])?))?;
    pacers.push(Scripted::new(Vec::new(alloc)))?;
    pacers.push(Scripted::new(Vec::new(alloc)))?;
    Ok(pacers)
}

/// Nobody goes a round ahead of worker 0, which is in round 1: worker 2, in round 2, waits at place 11 although its delay
/// is over.
fn events_in_step() -> [Event; 31] {
    [
        take(0),
        give(0),
        take(1),
        give(1),
        take(2),
        give(2),
        stretch(0, 9),
        stretch(1, 0),
        take(1),
        give(1),
        stretch(2, 0),
        flag(1),
        hold(0),
        hold(0),
        hold(0),
        hold(0),
        take(0),
        give(0),
        take(2),
        give(2),
        stretch(1, 0),
        take(1),
        give(1),
        flag(2),
        flag(0),
        flag(1),
        Event::Ask,
        ack(2),
        ack(0),
        ack(1),
        Event::End,
    ]
}

/// Worker 2 goes one round ahead of worker 0 at place 11; worker 1, in round 3, waits from place 14 on.
fn events_one_ahead() -> [Event; 27] {
    [
        take(0),
        give(0),
        take(1),
        give(1),
        take(2),
        give(2),
        stretch(0, 9),
        stretch(1, 0),
        take(1),
        give(1),
        stretch(2, 0),
        take(2),
        give(2),
        stretch(1, 0),
        flag(2),
        hold(0),
        take(0),
        give(0),
        take(1),
        give(1),
        flag(0),
        flag(1),
        Event::Ask,
        ack(2),
        ack(0),
        ack(1),
        Event::End,
    ]
}

/// Mail came to worker 1 at the places 5 and 12, and a second batch is awaited: at place 13 it waits for seven turns.
fn events_after_a_gap() -> [Event; 29] {
    [
        take(0),
        give(0),
        take(1),
        give(1),
        take(2),
        give(2),
        stretch(0, 9),
        stretch(1, 0),
        take(1),
        give(1),
        stretch(2, 0),
        take(2),
        give(2),
        stretch(1, 7),
        flag(2),
        hold(0),
        take(0),
        give(0),
        flag(0),
        hold(1),
        hold(1),
        take(1),
        give(1),
        flag(1),
        Event::Ask,
        ack(2),
        ack(0),
        ack(1),
        Event::End,
    ]
}

/// One batch ends every delay, so no pacer is asked.
fn events_without_delay() -> [Event; 22] {
    [
        take(0),
        give(0),
        take(1),
        give(1),
        take(2),
        give(2),
        take(0),
        give(0),
        take(1),
        give(1),
        take(2),
        give(2),
        take(1),
        give(1),
        flag(2),
        flag(0),
        flag(1),
        Event::Ask,
        ack(2),
        ack(0),
        ack(1),
        Event::End,
    ]
}

/// Stops where a run by a policy has other events.
fn check_policy(
    rt: &impl Abort,
    alloc: Global,
    policy: &str,
    want: &[Event],
) -> Result<(), TextFault> {
    let job = echo(alloc, policy)?;
    check_run(rt, &ran(alloc, &job, nine_turns(alloc)?)?, want);
    Ok(())
}

#[test]
fn a_policy_says_who_waits(rt: HostRuntime) -> Result<(), Fail> {
    let alloc = rt.alloc();
    check_policy(&rt, alloc, "policy bsp\n", &events_in_step())?;
    check_policy(&rt, alloc, "policy ssp 1\n", &events_one_ahead())?;
    check_policy(&rt, alloc, "policy aap 1 2\n", &events_after_a_gap())?;
    check_policy(&rt, alloc, "policy aap 1 1\n", &events_without_delay())?;
    Ok(())
}

/// A pacer whose answer tells how often it was asked before, its number, and what it was asked: for which worker, and
/// for how many mirrors a value waits.
#[derive(Drop)]
struct Telling {
    number: u32,
    asked: u32,
}

impl Pacer for Telling {
    fn extra(&mut self, worker: u32, waiting: u32) -> u32 {
        let own = self
            .asked
            .wrapping_mul(36)
            .wrapping_add(self.number.wrapping_mul(12));
        self.asked = self.asked.wrapping_add(1);
        own.wrapping_add(worker.wrapping_mul(4))
            .wrapping_add(waiting)
    }
}

/// Worker 2 sends two values to worker 1, then 1 sends to 2, and then 2 one value to 1.
fn answered() -> &'static str {
    "query dist 7\nfragments 3\ncut range\npolicy ap\nv 1\nv 2\nv 3\nv 6\n7 8 1\n7 9 9\n8 4 1\n9 5 1\n4 9 1\n"
}

/// Stops where other Stretches than these are in the journal of a run.
fn check_stretches(rt: &impl Abort, ran: &Ran, want: &[Event]) {
    match ran {
        Ran::Done { story, .. } => {
            let found = stretches_found(&story.journal, want);
            assert_eq!(rt; found, want.len());
        }
        Ran::Stopped { .. } | Ran::NoMemory => panic!(rt; "the run isn't done"),
    }
}

/// How many Stretches a journal has, where they are these in order; and more than these where they are not.
fn stretches_found(journal: &Journal, want: &[Event]) -> usize {
    let mut found = 0usize;
    for place in 0..journal.len() {
        if let Some(Event::Stretch { worker, turns }) = journal.get(place) {
            match want.get(found) {
                Some(event) if *event == stretch(worker, turns) => {
                    found = found.wrapping_add(1);
                }
                _ => return want.len().wrapping_add(1),
            }
        }
    }
    found
}

/// The pacer of the worker is asked once for each Stretch: 12 * 1 + 4 * 1 + 2, then 12 * 2 + 4 * 2 + 1 of another, and
/// 36 + 12 * 1 + 4 * 1 + 1.
#[test]
fn the_workers_pacer_is_asked(rt: HostRuntime) -> Result<(), Fail> {
    let alloc = rt.alloc();
    let job = job_of(alloc, answered())?;
    let mut pacers = Vec::new(alloc);
    for number in 0..3 {
        pacers.push(Telling { number, asked: 0 })?;
    }
    let want = [stretch(1, 18), stretch(2, 33), stretch(1, 53)];
    check_stretches(&rt, &ran(alloc, &job, pacers)?, &want);
    Ok(())
}

#[test]
fn a_pacer_adds_64_turns_at_most(rt: HostRuntime) -> Result<(), Fail> {
    let alloc = rt.alloc();
    let job = job_of(alloc, answered())?;
    let mut pacers = Vec::new(alloc);
    pacers.push(Scripted::new(Vec::new(alloc)))?;
    pacers.push(Scripted::new(Vec::from_slice(alloc, &[100, 64])?))?;
    let want = [stretch(1, 64), stretch(2, 0), stretch(1, 64)];
    check_stretches(&rt, &ran(alloc, &job, pacers)?, &want);
    Ok(())
}
