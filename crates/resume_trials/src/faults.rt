//! Commands for which one call of the disk fails: a read, a write or a sync.

use crate::commands::{Left, check_disk_fault, check_done, command, last_kept};
use crate::disks::{disk_of, failing, image_by};
use crate::inputs::{detour, detour_answer};
use crate::stops::resume_each;
use grape_disk::{Disk, MemDisk};
use grape_port::NoMemory;
use grape_run::Status;
use std::process::Abort;
use std::sync::Wait;
use std::test::Fail;
use std::thread::Threads;

/// No command of these trials has as many calls of the disk.
const MANY_CALLS: u64 = 1000;

/// A command on a disk with these bytes of which one call fails.
fn failed_at<R: Threads + Wait + Sync + AllocGlobal>(
    rt: &R,
    word: &str,
    bytes: &[u8],
    call: u64,
) -> Result<(Left, MemDisk), NoMemory> {
    let mut disk = failing(rt.alloc(), bytes, call)?;
    let left = command(rt, word, detour(), &mut disk)?;
    Ok((left, disk))
}

/// Lets each call of the disk fail in turn, until a command has no such call. Each command is refused there and calls the
/// disk no more, and its run goes on from each image. Says how many calls failed.
fn fail_each<R: Abort + Threads + Wait + Sync + AllocGlobal>(
    rt: &R,
    word: &str,
    bytes: &[u8],
    epoch: u64,
) -> Result<u64, NoMemory> {
    for call in 1..MANY_CALLS {
        let (left, disk) = failed_at(rt, word, bytes, call)?;
        if left.finish.status == Status::Done {
            check_done(rt, &left, detour_answer());
            return Ok(call.wrapping_sub(1));
        }
        check_disk_fault(rt, &left);
        assert_eq!(rt; disk.calls(), call);
        let last = last_kept(&left).unwrap_or(epoch);
        resume_each(rt, detour(), &disk, last, detour_answer(), 4096)?;
    }
    panic!(rt; "no command was done")
}

#[test]
fn a_run_ends_at_a_failing_call(rt: HostRuntime) -> Result<(), Fail> {
    let calls = fail_each(&rt, "run", &[], 0)?;
    assert!(rt; calls > 10);
    Ok(())
}

/// A file that keeps the first snapshot, and what the disk holds then.
fn file_with_a_snapshot<R: Abort + Threads + Wait + Sync + AllocGlobal>(
    rt: &R,
) -> Result<Vec<u8>, NoMemory> {
    for call in 1..MANY_CALLS {
        let (left, disk) = failed_at(rt, "run", &[], call)?;
        if last_kept(&left) == Some(1) {
            return image_by(rt.alloc(), &disk, 0);
        }
    }
    panic!(rt; "no run kept a snapshot")
}

#[test]
fn a_resume_ends_at_a_failing_call(rt: HostRuntime) -> Result<(), Fail> {
    let file = file_with_a_snapshot(&rt)?;
    let mut whole = disk_of(rt.alloc(), &file)?;
    check_done(
        &rt,
        &command(&rt, "resume", detour(), &mut whole)?,
        detour_answer(),
    );
    let calls = fail_each(&rt, "resume", &file, 1)?;
    assert_eq!(rt; calls, whole.calls());
    Ok(())
}
