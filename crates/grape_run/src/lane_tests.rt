//! Runs on several lanes.
ghost use Rattle.std.specs.Prelude.{◌≡◌, ◌<◌, IfOk, vec_len};

use crate::{Finish, Status, Words, grape};
use coordinator::Story;
use delay_stretch::{Calm, Pacer, Scripted};
use grape_disk::MemDisk;
use grape_event::Event;
use grape_port::{MemSink, MemSource, NoMemory};
use lane_loop::{Gate, OpenGate};
use std::alloc::Global;
use std::sync::Wait;
use std::sync::atomic::{AtomicBool, AtomicU64, Ordering};
use std::test::Fail;
use std::thread::{Threads, yield_now};

/// How a test's pacers answer.
#[derive(Clone, Copy)]
pub(crate) enum Answers {
    /// Always 0.
    Calm,
    /// This number for the first thousand calls, and then 0.
    Thousand(u32),
    /// The pacer's own number and one more, for the first thousand calls, and then 0.
    Numbered,
}

/// The pacer with this number.
fn boxed(alloc: Global, answers: &Answers, number: u32) -> Result<Box<dyn Pacer + Send>, NoMemory>
    requires number { number < 64 }
{
    let answer = match answers {
        Answers::Calm => return Ok(Box::new(alloc, Calm)?),
        Answers::Thousand(answer) => *answer,
        Answers::Numbered => number + 1,
    };
    let script = vec![in alloc; answer; 1000]?;
    Ok(Box::new(alloc, Scripted::new(script))?)
}

/// As many pacers as a run needs.
pub(crate) fn pacers_of(
    alloc: Global,
    answers: &Answers,
) -> Result<Vec<Box<dyn Pacer + Send>>, NoMemory>
    ensures { IfOk result (λ pacers. vec_len pacers ≡ 64) }
{
    let mut pacers = Vec::with_capacity(alloc, 64)?;
    'pacers: for number in 0..64_u32 {
        pacers.push(boxed(alloc, answers, number)?)?;
    }
    Ok(pacers)
}

/// What a run wrote, and how it ended.
#[derive(Drop)]
struct Written {
    finish: Finish,
    out: MemSink,
}

/// Runs a text with these pacers and this gate.
fn run_with<R: Threads + Wait + Sync + AllocGlobal, G: Gate + Sync>(
    rt: &R,
    text: &[&[u8]],
    answers: &Answers,
    gate: &G,
) -> Result<Written, NoMemory> {
    let alloc = rt.alloc();
    let mut words = Words::new(alloc);
    words.push("run")?;
    let mut bytes = Vec::new(alloc);
    for lines in text {
        bytes.extend_from_slice(lines)?;
    }
    let mut input = MemSource::new(bytes, 4096, Vec::new(alloc));
    let mut out = MemSink::new(alloc, 4096, 4096, Vec::new(alloc))?;
    let mut note = MemSink::new(alloc, 4096, 4096, Vec::new(alloc))?;
    let mut disk = MemDisk::new(alloc, 0, b"", Vec::new(alloc), None)?;
    let pacers = pacers_of(alloc, answers)?;
    let finish = grape(
        rt, alloc, &words, &mut input, &mut out, &mut note, &mut disk, pacers, gate,
    );
    Ok(Written { finish, out })
}

fn policy_lines() -> [&'static [u8]; 4] {
    [
        b"policy bsp\n",
        b"policy ap\n",
        b"policy ssp 1\n",
        b"policy aap 2 2\n",
    ]
}

/// Whatever the policy, the lanes and the delays, the same bytes are written.
#[test]
fn the_same_bytes_under_each_policy(rt: HostRuntime) -> Result<(), Fail> {
    for policy in policy_lines() {
        for lanes in [b"lanes 1\n", b"lanes 3\n"] {
            for answer in [0, 64] {
                let text: [&[u8]; 3] = [
                    b"query dist 1\n1 2 5\n2 3 1\n1 3 9\nfragments 3\n",
                    policy,
                    lanes,
                ];
                let run = run_with(&rt, &text, &Answers::Thousand(answer), &OpenGate)?;
                assert_eq!(rt; run.finish.status, Status::Done, "of {text:?}");
                assert!(rt; run.finish.story.is_some());
                assert_eq!(rt;
                    run.out.bytes(),
                    b"answer dist 3\n1 0\n2 5\n3 6\nend\n".as_slice(),
                    "of {text:?}"
                );
            }
        }
    }
    Ok(())
}

/// A gate whose first pass for worker 0 waits until worker 1's first pass was entered.
#[derive(Drop)]
struct Meeting {
    first: AtomicBool,
    entered: AtomicBool,
    met: AtomicBool,
}

/// How many turns the gate waits at most.
const TURNS: u32 = 10_000_000;

impl Gate for Meeting {
    fn pass(&self, worker: u32) {
        if worker == 1 {
            self.entered.store(true, Ordering::SeqCst);
        }
        if worker == 0 && self.first.swap(false, Ordering::SeqCst) {
            for _ in 0..TURNS {
                if self.entered.load(Ordering::SeqCst) {
                    self.met.store(true, Ordering::SeqCst);
                    return;
                }
                yield_now();
            }
        }
    }
}

/// Two lanes have Works out at the same time: one waits at the gate until the other passes it.
#[test]
fn two_lanes_meet_at_the_gate(rt: HostRuntime) -> Result<(), Fail> {
    let gate = Meeting {
        first: AtomicBool::new(true),
        entered: AtomicBool::new(false),
        met: AtomicBool::new(false),
    };
    let text: [&[u8]; 1] = [
        b"query label\nfragments 3\ncut range\npolicy ap\nlanes 2\n1 2\n2 3\nv 4\n5 6\n6 1\n",
    ];
    let run = run_with(&rt, &text, &Answers::Calm, &gate)?;
    assert!(rt; gate.met.load(Ordering::SeqCst), "the lanes didn't meet");
    assert_eq!(rt; run.finish.status, Status::Done);
    assert_eq!(rt;
        run.out.bytes(),
        b"answer label 6\n1 1\n2 1\n3 1\n4 4\n5 1\n6 1\nend\n".as_slice()
    );
    Ok(())
}

/// How many stretches of a worker a journal has that were lengthened by the worker's number and one, and how many by
/// another number. The policy of the run is `bsp`, whose formula gives no turns.
fn stretches_of(story: &Story, number: u32) -> (u64, u64)
    requires { number < 64 }
{
    let mut own = 0_u64;
    let mut others = 0_u64;
    for place in 0..story.journal.len() {
        if let Some(Event::Stretch { worker, turns }) = story.journal.get(place) {
            if worker == number && turns == number + 1 {
                own = own.saturating_add(1);
            } else if worker == number {
                others = others.saturating_add(1);
            }
        }
    }
    (own, others)
}

/// Each worker's stretches are lengthened by the pacer with its number, on one lane and on several. The way from 7 goes
/// five times between the fragments 1 and 2, so whatever the schedule a value comes to both after their first Take.
#[test]
fn each_worker_has_its_own_pacer(rt: HostRuntime) -> Result<(), Fail> {
    for lanes in [b"lanes 1\n", b"lanes 3\n"] {
        let text: [&[u8]; 2] = [
            b"query dist 7\nfragments 3\ncut range\npolicy bsp\nv 1\nv 2\nv 3\n7 4\n4 8\n8 5\n5 9\n9 6\n",
            lanes,
        ];
        let run = run_with(&rt, &text, &Answers::Numbered, &OpenGate)?;
        assert_eq!(rt; run.finish.status, Status::Done, "of {text:?}");
        let Some(story) = &run.finish.story else {
            panic!(rt; "a run that is done has a story");
        };
        for worker in [1_u32, 2] {
            let (own, others) = stretches_of(story, worker);
            assert!(rt; own > 0, "no stretch of worker {worker} of {text:?}");
            assert_eq!(rt; others, 0, "worker {worker} of {text:?}");
        }
    }
    Ok(())
}

/// A gate that waits until three Works have come to it, and counts them.
#[derive(Drop)]
struct Three {
    came: AtomicU64,
    met: AtomicBool,
}

impl Gate for Three {
    fn pass(&self, _worker: u32) {
        self.came.fetch_add(1, Ordering::SeqCst);
        for _ in 0..TURNS {
            if self.came.load(Ordering::SeqCst) >= 3 {
                return;
            }
            yield_now();
        }
        self.met.store(false, Ordering::SeqCst);
    }
}

fn gate_of_three() -> Three {
    Three {
        came: AtomicU64::new(0),
        met: AtomicBool::new(true),
    }
}

/// Three lanes have Works out at the same time: each waits at the gate until all three have come there.
#[test]
fn three_lanes_meet_at_the_gate(rt: HostRuntime) -> Result<(), Fail> {
    let gate = gate_of_three();
    let text: [&[u8]; 1] = [
        b"query label\nfragments 3\ncut range\npolicy ap\nlanes 3\n1 2\n2 3\nv 4\n5 6\n6 1\n",
    ];
    let run = run_with(&rt, &text, &Answers::Calm, &gate)?;
    assert_eq!(rt; run.finish.status, Status::Done);
    assert!(rt; gate.came.load(Ordering::SeqCst) >= 3, "too few Works came");
    assert!(rt; gate.met.load(Ordering::SeqCst), "the lanes didn't meet");
    Ok(())
}

/// On one lane the gate isn't asked: it would wait for others there.
#[test]
fn one_lane_passes_no_gate(rt: HostRuntime) -> Result<(), Fail> {
    let gate = gate_of_three();
    let text: [&[u8]; 1] = [b"query dist 1\nfragments 3\nlanes 1\n1 2 5\n2 3 1\n1 3 9\n"];
    let run = run_with(&rt, &text, &Answers::Calm, &gate)?;
    assert_eq!(rt; run.finish.status, Status::Done);
    assert_eq!(rt; gate.came.load(Ordering::SeqCst), 0);
    Ok(())
}
