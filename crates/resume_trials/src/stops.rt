//! Runs that are stopped at each call of the disk, and go on from what a crash may leave.

ghost use Rattle.std.specs.Prelude.{◌≤◌};

use crate::commands::{
    Left, check_disk_fault, check_done, command, command_of, last_kept, start_of,
};
use crate::disks::{IMAGES, disk_of, image_by, stopping};
use crate::inputs::{detour, detour_answer, drawn, query_table, text_of};
use grape_disk::MemDisk;
use grape_port::NoMemory;
use grape_run::Status;
use std::process::Abort;
use std::sync::Wait;
use std::test::Fail;
use std::thread::Threads;

/// No run of these trials has as many calls of the disk.
const MANY_CALLS: u64 = 1000;

const FOUR_LANES: &str = "fragments 4\nlanes 4\npolicy bsp\n";

/// Stops where a resume on these bytes, whose source gives at most so many bytes a read, isn't done with this answer, or begins neither at the snapshot of the last epoch
/// that was kept nor at the next one. Says at which epoch it begins.
pub(crate) fn resume_from<R: Abort + Threads + Wait + Sync + AllocGlobal>(
    rt: &R,
    text: &[u8],
    bytes: &[u8],
    last: u64,
    want: &[u8],
    most: usize,
) -> Result<u64, NoMemory>
    requires { 1 ≤ most }
{
    let mut disk = disk_of(rt.alloc(), bytes)?;
    let left = command_of(rt, &["resume"], text, most, &mut disk)?;
    check_done(rt, &left, want);
    let start = start_of(&left).unwrap_or(u64::MAX);
    let next = last.saturating_add(1);
    assert!(rt; start == last || start == next, "at {start} behind {last}");
    Ok(start)
}

/// Resumes the run of a text from each image of a disk. Says how many began at a snapshot.
pub(crate) fn resume_each<R: Abort + Threads + Wait + Sync + AllocGlobal>(
    rt: &R,
    text: &[u8],
    disk: &MemDisk,
    last: u64,
    want: &[u8],
    most: usize,
) -> Result<u64, NoMemory>
    requires { 1 ≤ most }
{
    let mut resumed = 0_u64;
    for number in 0..IMAGES {
        let image = image_by(rt.alloc(), disk, number)?;
        if resume_from(rt, text, &image, last, want, most)? > 0 {
            resumed = resumed.saturating_add(1);
        }
    }
    Ok(resumed)
}

/// A run of a text on an empty disk that stops at this call.
fn stopped_at<R: Threads + Wait + Sync + AllocGlobal>(
    rt: &R,
    text: &[u8],
    stop: u64,
    most: usize,
) -> Result<(Left, MemDisk), NoMemory>
    requires { 1 ≤ most }
{
    let mut disk = stopping(rt.alloc(), &[], stop)?;
    let left = command_of(rt, &["run"], text, most, &mut disk)?;
    Ok((left, disk))
}

/// Stops the run of a text at each call of the disk in turn, and resumes each image, until a run has no such call. Says
/// how many began at a snapshot.
fn stop_at_each<R: Abort + Threads + Wait + Sync + AllocGlobal>(
    rt: &R,
    text: &[u8],
    want: &[u8],
    most: usize,
) -> Result<u64, NoMemory>
    requires { 1 ≤ most }
{
    let mut resumed = 0_u64;
    for stop in 1..MANY_CALLS {
        let (left, disk) = stopped_at(rt, text, stop, most)?;
        if left.finish.status == Status::Done {
            check_done(rt, &left, want);
            return Ok(resumed);
        }
        check_disk_fault(rt, &left);
        let last = last_kept(&left).unwrap_or(0);
        let more = resume_each(rt, text, &disk, last, want, most)?;
        resumed = resumed.saturating_add(more);
    }
    panic!(rt; "no run was done")
}

#[test]
fn a_worked_run_goes_on_from_each_stop(rt: HostRuntime) -> Result<(), Fail> {
    for most in [1, 7, 4096] {
        let resumed = stop_at_each(&rt, detour(), detour_answer(), most)?;
        assert!(rt; resumed > 0, "by {most} bytes");
    }
    Ok(())
}

/// The answer of a query on these lines, by a run on one lane without snapshots.
pub(crate) fn plain_answer<R: Abort + Threads + Wait + Sync + AllocGlobal>(
    rt: &R,
    query: &str,
    lines: &str,
) -> Result<Vec<u8>, NoMemory> {
    let alloc = rt.alloc();
    let text = text_of(alloc, "lanes 1\n", 0, query, lines)?;
    let mut disk = disk_of(alloc, &[])?;
    let left = command(rt, "run", text.as_bytes(), &mut disk)?;
    assert_eq!(rt; left.finish.status, Status::Done);
    let answer = Vec::from_slice(alloc, left.out.bytes())?;
    Ok(answer)
}

/// Stops runs of these queries on a graph that a number draws, under these settings, with snapshots after one Take, after
/// two and after five.
fn check_drawn<R: Abort + Threads + Wait + Sync + AllocGlobal>(
    rt: &R,
    settings: &str,
    number: u64,
    queries: &[&'static str],
) -> Result<(), NoMemory> {
    let alloc = rt.alloc();
    let lines = drawn(alloc, number, 5)?;
    for query in queries {
        let want = plain_answer(rt, query, lines.as_str())?;
        let mut resumed = 0_u64;
        for snapshot in [1, 2, 5] {
            let text = text_of(alloc, settings, snapshot, query, lines.as_str())?;
            let more = stop_at_each(rt, text.as_bytes(), &want, 4096)?;
            resumed = resumed.saturating_add(more);
        }
        assert!(rt; resumed > 0, "of {query}");
    }
    Ok(())
}

#[test]
fn one_lane_goes_on_from_each_stop(rt: HostRuntime) -> Result<(), Fail> {
    check_drawn(&rt, "fragments 3\nlanes 1\npolicy ap\n", 3, &query_table())?;
    Ok(())
}

#[test]
fn two_lanes_go_on_from_each_stop(rt: HostRuntime) -> Result<(), Fail> {
    check_drawn(&rt, "fragments 3\nlanes 2\ncut range\n", 5, &query_table())?;
    Ok(())
}

#[test]
fn four_lanes_go_on_with_distances_and_labels(rt: HostRuntime) -> Result<(), Fail> {
    let [distances, labels, ..] = query_table();
    check_drawn(&rt, FOUR_LANES, 7, &[distances, labels])?;
    Ok(())
}

#[test]
fn four_lanes_go_on_with_reachability_and_simulation(rt: HostRuntime) -> Result<(), Fail> {
    let [.., reached, simulated] = query_table();
    check_drawn(&rt, FOUR_LANES, 7, &[reached, simulated])?;
    Ok(())
}
