//! Runs that are stopped, resumed and stopped again, until one comes to the end.

use crate::commands::{Left, check_disk_fault, check_done, command, last_kept, start_of};
use crate::disks::{image_by, stopping};
use crate::inputs::{drawn, query_table, text_of};
use crate::stops::plain_answer;
use grape_port::NoMemory;
use grape_run::Status;
use std::process::Abort;
use std::sync::Wait;
use std::test::Fail;
use std::thread::Threads;

/// No chain of these trials has as many links.
const MANY_LINKS: u64 = 300;

/// The epoch behind which the next link begins: that of the snapshot that this one kept last, or began with. A command
/// that didn't come to its run leaves it.
fn epoch_after(left: &Left, last: u64) -> u64 {
    last_kept(left).or(start_of(left)).unwrap_or(last)
}

/// Stops where a link began neither at the last epoch nor at the next one.
fn check_start(rt: &impl Abort, left: &Left, last: u64) {
    if let Some(start) = start_of(left) {
        let next = last.saturating_add(1);
        assert!(rt; start == last || start == next, "at {start} behind {last}");
    }
}

/// Resumes the run of a text again and again, each time from an image of the last disk. The first link stops at this call
/// of its disk, and each one further on than the one before it. Says how many links stopped.
fn chain<R: Abort + Threads + Wait + Sync + AllocGlobal>(
    rt: &R,
    text: &[u8],
    first: u64,
    want: &[u8],
) -> Result<u64, NoMemory> {
    let mut image = Vec::new(rt.alloc());
    let mut last = 0;
    for link in 0..MANY_LINKS {
        let mut disk = stopping(rt.alloc(), &image, first.saturating_add(link))?;
        let left = command(rt, "resume", text, &mut disk)?;
        check_start(rt, &left, last);
        if left.finish.status == Status::Done {
            check_done(rt, &left, want);
            return Ok(link);
        }
        check_disk_fault(rt, &left);
        last = epoch_after(&left, last);
        image = image_by(rt.alloc(), &disk, first.wrapping_add(link))?;
    }
    panic!(rt; "no link was done")
}

/// Tries chains of each query on a drawn graph under these settings.
fn check_chains<R: Abort + Threads + Wait + Sync + AllocGlobal>(
    rt: &R,
    settings: &str,
    number: u64,
) -> Result<(), NoMemory> {
    let alloc = rt.alloc();
    let lines = drawn(alloc, number, 5)?;
    for query in query_table() {
        let want = plain_answer(rt, query, lines.as_str())?;
        for snapshot in [1, 2] {
            let text = text_of(alloc, settings, snapshot, query, lines.as_str())?;
            for first in [1, 4] {
                let links = chain(rt, text.as_bytes(), first, &want)?;
                assert!(rt; links > 1, "of {query}");
            }
        }
    }
    Ok(())
}

#[test]
fn a_chain_of_resumes_comes_to_the_answer(rt: HostRuntime) -> Result<(), Fail> {
    check_chains(&rt, "fragments 3\nlanes 1\npolicy ap\n", 11)?;
    check_chains(&rt, "fragments 4\nlanes 2\npolicy ssp 1\n", 12)?;
    check_chains(&rt, "fragments 6\nlanes 4\ncut range\n", 13)?;
    Ok(())
}
