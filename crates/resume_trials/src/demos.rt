//! A demo beside runs on its graph, given as text.

use crate::commands::{Left, check_done, command, command_of};
use crate::disks::{disk_of, holds};
use grape_disk::Disk;
use grape_port::NoMemory;
use grape_run::Status;
use rand_core::SeedableRng;
use rand_core::utils::NextWord;
use rand_xoshiro::SplitMix64;
use std::alloc::Global;
use std::process::Abort;
use std::sync::Wait;
use std::test::Fail;
use std::thread::Threads;

/// How many vertices the generated graph has.
const VERTICES: u64 = 40;

/// A generated graph as an input with these settings, by the words of the generator.
fn as_text(alloc: Global, settings: &str, number: u64) -> Result<String, NoMemory> {
    let mut words = SplitMix64::seed_from_u64(number);
    let mut text = String::from_str(alloc, settings)?;
    text.push_str("query dist 0\n")?;
    for vertex in 0..VERTICES {
        let line = format!(in alloc; "v {vertex}\n")?;
        text.push_str(line.as_str())?;
    }
    'edges: for _ in 0..VERTICES * 4 {
        let from = words.next_word() % VERTICES;
        let to = words.next_word() % VERTICES;
        let weight = words.next_word() % 1000;
        let line = format!(in alloc; "{from} {to} {}\n", weight.saturating_add(1))?;
        text.push_str(line.as_str())?;
    }
    Ok(text)
}

/// A number with one digit more, and none where the byte is no digit.
fn longer(value: Option<u64>, digit: u8) -> Option<u64> {
    let value = value?;
    if !digit.is_ascii_digit() {
        return None;
    }
    let unit = u64::from(digit.saturating_sub(b'0'));
    Some(value.saturating_mul(10).saturating_add(unit))
}

/// How many distances there are, their sum, and the greatest.
type Totals = (u64, u64, u64);

fn with(totals: Totals, value: Option<u64>) -> Totals {
    match value {
        Some(value) => (
            totals.0.saturating_add(1),
            totals.1.saturating_add(value),
            totals.2.max(value),
        ),
        None => totals,
    }
}

/// What the second words of an answer's lines come to, where they are the last and numbers.
fn totals_in(answer: &[u8]) -> Totals {
    let mut totals = (0, 0, 0);
    let mut place = 0u64;
    let mut value = Some(0);
    for byte in answer {
        if *byte == b' ' {
            place = place.saturating_add(1);
            value = Some(0);
        } else if *byte == b'\n' {
            if place == 1 {
                totals = with(totals, value);
            }
            place = 0;
            value = Some(0);
        } else {
            value = longer(value, *byte);
        }
    }
    totals
}

/// The line of what a run's answer comes to.
fn summed<R: Abort + Threads + Wait + Sync + AllocGlobal>(
    rt: &R,
    settings: &str,
    number: u64,
) -> Result<String, NoMemory> {
    let alloc = rt.alloc();
    let text = as_text(alloc, settings, number)?;
    let left = command(rt, "run", text.as_bytes(), &mut disk_of(alloc, &[])?)?;
    assert_eq!(rt; left.finish.status, Status::Done);
    let totals = totals_in(left.out.bytes());
    let line = format!(in alloc;
        "summary dist {VERTICES} reached {} sum {} greatest {}\n",
        totals.0, totals.1, totals.2
    )?;
    Ok(line)
}

/// A demo of so many vertices, on a disk that it leaves alone.
fn demo<R: Abort + Threads + Wait + Sync + AllocGlobal>(
    rt: &R,
    vertices: &str,
    number: &str,
) -> Result<Left, NoMemory> {
    let alloc = rt.alloc();
    let mut disk = disk_of(alloc, b"bytes")?;
    let left = command_of(rt, &["demo", vertices, number], b"1 2 3 4\n", 7, &mut disk)?;
    assert_eq!(rt; disk.calls(), 0);
    assert!(rt; holds(alloc, &disk, b"bytes")?);
    Ok(left)
}

fn settings_table() -> [&'static str; 5] {
    [
        "fragments 8\nlanes 1\n",
        "fragments 8\nlanes 2\n",
        "fragments 8\nlanes 4\n",
        "fragments 1\nlanes 1\n",
        "fragments 3\ncut range\npolicy bsp\nlanes 4\n",
    ]
}

/// The same line as that of the answer of a run on the same graph as text, on 1, 2 and 4 lanes.
#[test]
fn a_demo_says_what_runs_on_its_graph_say(rt: HostRuntime) -> Result<(), Fail> {
    for settings in settings_table() {
        let line = summed(&rt, settings, 7)?;
        check_done(&rt, &demo(&rt, "40", "7")?, line.as_bytes());
    }
    let line = summed(&rt, "lanes 2\n", 0)?;
    check_done(&rt, &demo(&rt, "0040", "00000")?, line.as_bytes());
    Ok(())
}
