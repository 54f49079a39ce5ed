//! Commands on a disk in memory, and what they leave.
ghost use Rattle.std.specs.Prelude.{◌≡◌, ◌≤◌, IfOk, vec_len};

use delay_stretch::{Calm, Pacer};
use grape_disk::MemDisk;
use grape_port::{MemSink, MemSource, NoMemory};
use grape_run::{Finish, Status, Words, grape};
use lane_loop::OpenGate;
use std::alloc::Global;
use std::process::Abort;
use std::sync::Wait;
use std::thread::Threads;

/// No input of these trials is longer, but where a trial says so.
const WHOLE: usize = 4096;

/// What a command left.
#[derive(Drop)]
pub(crate) struct Left {
    pub(crate) finish: Finish,
    pub(crate) out: MemSink,
    pub(crate) note: MemSink,
}

/// A pacer for each of 64 workers. They add no turns.
pub(crate) fn calm_pacers(alloc: Global) -> Result<Vec<Box<dyn Pacer + Send>>, NoMemory>
    ensures { IfOk result (λ pacers. vec_len pacers ≡ 64) }
{
    let mut pacers: Vec<Box<dyn Pacer + Send>> = Vec::new(alloc);
    'pacers: for _number in 0..64_u32 {
        pacers.push(Box::new(alloc, Calm)?)?;
    }
    Ok(pacers)
}

/// A command of one word with this input, on this disk. Its pacers add no turns.
pub(crate) fn command<R: Threads + Wait + Sync + AllocGlobal>(
    rt: &R,
    word: &str,
    text: &[u8],
    disk: &mut MemDisk,
) -> Result<Left, NoMemory> {
    command_of(rt, &[word], text, WHOLE, disk)
}

/// A command of these words with this input, of which a read gives at most so many bytes, on this disk. Its pacers add no
/// turns.
pub(crate) fn command_of<R: Threads + Wait + Sync + AllocGlobal>(
    rt: &R,
    asked: &[&str],
    text: &[u8],
    most: usize,
    disk: &mut MemDisk,
) -> Result<Left, NoMemory>
    requires { 1 ≤ most }
{
    let alloc = rt.alloc();
    let mut words = Words::new(alloc);
    for word in asked {
        words.push(word)?;
    }
    let mut input = MemSource::new(Vec::from_slice(alloc, text)?, most, Vec::new(alloc));
    let mut out = MemSink::new(alloc, 4096, 4096, Vec::new(alloc))?;
    let mut note = MemSink::new(alloc, 4096, 4096, Vec::new(alloc))?;
    let pacers = calm_pacers(alloc)?;
    let finish = grape(
        rt, alloc, &words, &mut input, &mut out, &mut note, disk, pacers, &OpenGate,
    );
    Ok(Left { finish, out, note })
}

/// The epoch of the snapshot at which the run began, 0 for the beginning. A command without a run has none.
pub(crate) fn start_of(left: &Left) -> Option<u64> {
    let story = left.finish.story.as_ref()?;
    Some(story.start.epoch)
}

/// The epoch of the snapshot that was kept last, where the run kept any.
pub(crate) fn last_kept(left: &Left) -> Option<u64> {
    let story = left.finish.story.as_ref()?;
    let kept = story.kept.last()?;
    Some(kept.epoch)
}

/// Stops where a command isn't done with this answer.
pub(crate) fn check_done(rt: &impl Abort, left: &Left, want: &[u8]) {
    assert_eq!(rt; left.finish.status, Status::Done);
    assert_eq!(rt; left.out.bytes(), want);
    assert!(rt; left.note.bytes().is_empty());
}

/// Stops where a command didn't end with this status and this note, or wrote anything else.
pub(crate) fn check_refused(rt: &impl Abort, left: &Left, status: Status, note: &[u8]) {
    assert_eq!(rt; left.finish.status, status);
    assert_eq!(rt; left.note.bytes(), note);
    assert!(rt; left.out.bytes().is_empty());
}

/// Stops where a command didn't end because the disk failed.
pub(crate) fn check_disk_fault(rt: &impl Abort, left: &Left) {
    check_refused(rt, left, Status::DiskFault, b"grape: disk fault\n");
}
