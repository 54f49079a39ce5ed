//! Worked commands on a state file.

use crate::commands::{check_done, check_refused, command, command_of, start_of};
use crate::disks::{disk_of, holds};
use crate::files::{alone_file, digest_of, file_without_phase};
use crate::inputs::{alone, alone_answer, joined, joined_answer, repeated};
use grape_event::Event;
use grape_port::NoMemory;
use grape_run::{Finish, Status};
use std::alloc::Global;
use std::process::Abort;
use std::sync::Wait;
use std::test::Fail;
use std::thread::Threads;

/// A run of one vertex on one lane, with a snapshot after the first Take.
fn alone_events() -> [Event; 10] {
    [
        Event::Take { worker: 0, lane: 0 },
        Event::Give { worker: 0 },
        Event::Begin { epoch: 1 },
        Event::Mark { worker: 0 },
        Event::Seal { epoch: 1 },
        Event::Kept { epoch: 1 },
        Event::Flag { worker: 0 },
        Event::Ask,
        Event::Ack { worker: 0 },
        Event::End,
    ]
}

/// Stops where the journal of a command isn't these events.
fn check_journal(rt: &impl Abort, finish: &Finish, events: &[Event]) {
    let Some(story) = &finish.story else {
        panic!(rt; "a run that is done has a story")
    };
    assert_eq!(rt; story.journal.len(), events.len() as u64);
    for (place, event) in events.iter().enumerate() {
        assert_eq!(rt; story.journal.get(place as u64), Some(*event), "at {place}");
    }
}

#[test]
fn a_run_keeps_its_snapshot_in_the_file(rt: HostRuntime) -> Result<(), Fail> {
    let alloc = rt.alloc();
    let file = alone_file(alloc, alone())?;
    assert_eq!(rt; file.len(), 100);
    for most in [1, 7, 4096] {
        let mut disk = disk_of(alloc, &[])?;
        let left = command_of(&rt, &["run"], alone(), most, &mut disk)?;
        check_done(&rt, &left, alone_answer());
        check_journal(&rt, &left.finish, &alone_events());
        assert!(rt; holds(alloc, &disk, &file)?);
    }
    Ok(())
}

#[test]
fn a_resume_begins_at_the_snapshot(rt: HostRuntime) -> Result<(), Fail> {
    let alloc = rt.alloc();
    let mut disk = disk_of(alloc, &alone_file(alloc, alone())?)?;
    let left = command(&rt, "resume", alone(), &mut disk)?;
    check_done(&rt, &left, alone_answer());
    assert_eq!(rt; start_of(&left), Some(1));
    Ok(())
}

#[test]
fn a_run_leaves_a_file_that_is_there(rt: HostRuntime) -> Result<(), Fail> {
    let alloc = rt.alloc();
    let file = alone_file(alloc, alone())?;
    let mut disk = disk_of(alloc, &file)?;
    let left = command(&rt, "run", alone(), &mut disk)?;
    let status = Status::StateThere { length: 100 };
    check_refused(&rt, &left, status, b"grape: state file has 100 bytes\n");
    assert!(rt; left.finish.story.is_none());
    assert!(rt; holds(alloc, &disk, &file)?);
    Ok(())
}

/// A digest as hexadecimal digits.
fn add_digits(alloc: Global, line: &mut String, digest: &[u8; 32]) -> Result<(), NoMemory> {
    for byte in digest {
        let digits = format!(in alloc; "{byte:02x}")?;
        line.push_str(digits.as_str())?;
    }
    Ok(())
}

/// The note on a file of another input.
fn other_note(alloc: Global, kept: &[u8; 32], here: &[u8; 32]) -> Result<String, NoMemory> {
    let mut line = String::from_str(alloc, "grape: state of another job: ")?;
    add_digits(alloc, &mut line, kept)?;
    line.push_str(" not ")?;
    add_digits(alloc, &mut line, here)?;
    line.push_str("\n")?;
    Ok(line)
}

#[test]
fn a_file_of_another_input_is_refused(rt: HostRuntime) -> Result<(), Fail> {
    let alloc = rt.alloc();
    let file = alone_file(alloc, alone())?;
    let mut disk = disk_of(alloc, &file)?;
    let left = command(&rt, "resume", repeated(), &mut disk)?;
    let (kept, here) = (digest_of(alone()), digest_of(repeated()));
    let note = other_note(alloc, &kept, &here)?;
    check_refused(&rt, &left, Status::OtherJob { kept, here }, note.as_bytes());
    assert!(rt; holds(alloc, &disk, &file)?);
    Ok(())
}

#[test]
fn a_damaged_file_is_refused_at_its_place(rt: HostRuntime) -> Result<(), Fail> {
    let alloc = rt.alloc();
    let file = file_without_phase(alloc, joined())?;
    assert_eq!(rt; file.len(), 312);
    for most in [1, 7, 4096] {
        let mut disk = disk_of(alloc, &file)?;
        let left = command_of(&rt, &["resume"], joined(), most, &mut disk)?;
        let status = Status::BadState { place: 197 };
        check_refused(&rt, &left, status, b"grape: state damaged at 197\n");
        assert!(rt; holds(alloc, &disk, &file)?);
    }
    Ok(())
}

/// The epoch at which a resume on a file of these bytes begins, where it leaves the whole file.
fn resumed_to_the_end<R: Abort + Threads + Wait + Sync + AllocGlobal>(
    rt: &R,
    bytes: &[u8],
) -> Result<Option<u64>, NoMemory> {
    let alloc = rt.alloc();
    let mut disk = disk_of(alloc, bytes)?;
    let left = command(rt, "resume", alone(), &mut disk)?;
    check_done(rt, &left, alone_answer());
    let file = alone_file(alloc, alone())?;
    assert!(rt; holds(alloc, &disk, &file)?);
    Ok(start_of(&left))
}

#[test]
fn a_file_that_is_cut_or_empty_starts_afresh(rt: HostRuntime) -> Result<(), Fail> {
    let alloc = rt.alloc();
    let file = alone_file(alloc, alone())?;
    let front = file.get(..10).unwrap_or(&[]);
    assert_eq!(rt; front.len(), 10);
    assert_eq!(rt; resumed_to_the_end(&rt, front)?, Some(0));
    assert_eq!(rt; resumed_to_the_end(&rt, &[])?, Some(0));
    Ok(())
}

#[test]
fn labels_with_snapshots_on_two_lanes(rt: HostRuntime) -> Result<(), Fail> {
    let alloc = rt.alloc();
    let mut disk = disk_of(alloc, &[])?;
    let left = command(&rt, "run", joined(), &mut disk)?;
    check_done(&rt, &left, joined_answer());
    let again = command(&rt, "resume", joined(), &mut disk)?;
    check_done(&rt, &again, joined_answer());
    Ok(())
}
