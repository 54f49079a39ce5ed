//! Commands that leave the disk alone.

use crate::commands::{check_disk_fault, check_done, command, start_of};
use crate::disks::{disk_of, holds, stopping};
use crate::inputs::{joined_answer, joined_plain, refused_commands};
use grape_disk::Disk;
use grape_run::Status;
use std::test::Fail;

/// Without snapshots the disk isn't called, whatever it holds.
#[test]
fn a_run_without_snapshots_calls_no_disk(rt: HostRuntime) -> Result<(), Fail> {
    let alloc = rt.alloc();
    for text in joined_plain() {
        let mut disk = stopping(alloc, b"bytes", 1)?;
        let left = command(&rt, "run", text, &mut disk)?;
        check_done(&rt, &left, joined_answer());
        assert_eq!(rt; disk.calls(), 0, "of {text:?}");
        assert!(rt; holds(alloc, &disk, b"bytes")?);
    }
    Ok(())
}

#[test]
fn a_resume_without_snapshots_makes_no_file(rt: HostRuntime) -> Result<(), Fail> {
    let alloc = rt.alloc();
    for text in joined_plain() {
        let mut disk = disk_of(alloc, &[])?;
        let left = command(&rt, "resume", text, &mut disk)?;
        check_done(&rt, &left, joined_answer());
        assert_eq!(rt; start_of(&left), Some(0), "of {text:?}");
        assert!(rt; holds(alloc, &disk, &[])?);

        // It looks for a state all the same.
        let mut broken = stopping(alloc, &[], 1)?;
        check_disk_fault(&rt, &command(&rt, "resume", text, &mut broken)?);
    }
    Ok(())
}

/// Where no job was read, the disk isn't called.
#[test]
fn a_refused_command_calls_no_disk(rt: HostRuntime) -> Result<(), Fail> {
    let alloc = rt.alloc();
    for (word, text) in refused_commands() {
        let mut disk = disk_of(alloc, b"bytes")?;
        let left = command(&rt, word, text, &mut disk)?;
        assert!(rt; left.finish.status != Status::Done, "of {word} {text:?}");
        assert!(rt; left.finish.story.is_none());
        assert_eq!(rt; disk.calls(), 0, "of {word} {text:?}");
    }
    Ok(())
}
