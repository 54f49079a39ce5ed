//! Disks in memory, and what a crash may leave of them.

use grape_disk::{MemDisk, Pick};
use grape_port::NoMemory;
use std::alloc::Global;

/// How many bytes a disk has room for. The state files of the trials are shorter.
const ROOM: usize = 8192;

/// How many images of a moment there are to try.
pub(crate) const IMAGES: u64 = 4;

/// An image by a number, modulo 4: the stable bytes, those that are read, and two with other bytes wherever one is
/// pending, as long as what is read and as the stable bytes.
pub(crate) fn image_by(alloc: Global, disk: &MemDisk, number: u64) -> Result<Vec<u8>, NoMemory> {
    let pick = match number % IMAGES {
        0 => Pick::Synced,
        1 => Pick::Read,
        2 => Pick::Mixed(0),
        _ => Pick::Mixed(71),
    };
    disk.crash_image(alloc, pick)
}

/// A disk with these stable bytes, where no call fails.
pub(crate) fn disk_of(alloc: Global, bytes: &[u8]) -> Result<MemDisk, NoMemory> {
    let room = bytes.len().max(ROOM);
    MemDisk::new(alloc, room, bytes, Vec::new(alloc), None)
}

/// A disk with these stable bytes, where the call with this number fails, and each after it.
pub(crate) fn stopping(alloc: Global, bytes: &[u8], stop: u64) -> Result<MemDisk, NoMemory> {
    let room = bytes.len().max(ROOM);
    MemDisk::new(alloc, room, bytes, Vec::new(alloc), Some(stop))
}

/// A disk with these stable bytes, where the call with this number fails, and none after it.
pub(crate) fn failing(alloc: Global, bytes: &[u8], call: u64) -> Result<MemDisk, NoMemory> {
    let room = bytes.len().max(ROOM);
    let fails = Vec::from_slice(alloc, &[call])?;
    MemDisk::new(alloc, room, bytes, fails, None)
}

/// Whether a crash leaves these bytes, whatever it does.
pub(crate) fn holds(alloc: Global, disk: &MemDisk, bytes: &[u8]) -> Result<bool, NoMemory> {
    for number in 0..IMAGES {
        if image_by(alloc, disk, number)?.as_slice() != bytes {
            return Ok(false);
        }
    }
    Ok(true)
}
