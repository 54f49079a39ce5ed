//! Runs that keep snapshots, stopped at each call of the disk, and begun again from what a crash may leave.
ghost use Rattle.std.specs.Prelude.{◌≡◌, IfOk};
ghost use Rattle.snapshot_store.specs.Rows.{one_vertex, kept};

use crate::{Entry, EntryFault, KeptAt, begin_fresh, keep, recover};
use grape_disk::{Disk, MemDisk, Pick};
use grape_port::NoMemory;
use snapshot_store::{Store, StoreFault};
use std::alloc::Global;
use std::test::Fail;
use token_cut::{Part, Phase, Shape, ShapePart, Snapshot};
use value_order::Order;

/// Any 32 bytes in the place of an input's digest.
const DIGEST: [u8; 32] = [0xA5; 32];

/// One vertex, which starts with 0.
fn one_vertex(alloc: Global) -> Result<Shape, NoMemory>
    ensures { IfOk result (λ shape. shape ≡ one_vertex) }
{
    let owned = Vec::from_slice(alloc, &[0])?;
    let mut parts = Vec::new(alloc);
    parts.push(ShapePart {
        owned,
        mirrors: Vec::new(alloc),
    })?;
    Ok(Shape {
        order: Order::Least,
        parts,
    })
}

fn snapshot_of(alloc: Global, epoch: u64) -> Result<Snapshot, NoMemory>
    ensures { IfOk result (λ snapshot. snapshot ≡ kept epoch) }
{
    let values = Vec::from_slice(alloc, &[0])?;
    let mut parts = Vec::new(alloc);
    parts.push(Part {
        phase: Phase::Rest,
        values,
        mail: Vec::new(alloc),
    })?;
    Ok(Snapshot { epoch, parts })
}

/// Keeps the snapshot after the last one.
fn keep_next(
    alloc: Global,
    store: &mut Store,
    kept: &mut Vec<KeptAt>,
    disk: &mut MemDisk,
) -> Result<(), StoreFault> {
    let shape = one_vertex(alloc)?;
    let last = store.last();
    if last > 1000 {
        return Ok(());
    }
    let snapshot = snapshot_of(alloc, last + 1)?;
    keep(store, kept, disk, &shape, &snapshot)
}

/// The epoch of the start that these bytes give, where the next snapshot can be kept behind it.
fn resumed(alloc: Global, bytes: &[u8]) -> Result<Option<u64>, NoMemory> {
    let shape = one_vertex(alloc)?;
    let room = bytes.len().max(128);
    let mut disk = MemDisk::new(alloc, room, bytes, Vec::new(alloc), None)?;
    let Ok(entry) = recover(alloc, &shape, &DIGEST, 1, &mut disk) else {
        return Ok(None);
    };
    let Entry { start, store } = entry;
    let Some(mut store) = store else {
        return Ok(None);
    };
    let mut kept = Vec::new(alloc);
    let goes_on = keep_next(alloc, &mut store, &mut kept, &mut disk).is_ok() && kept.len() == 1;
    Ok(goes_on.then_some(start.epoch))
}

/// Whether each image of this moment may be resumed at that epoch or at the next one.
fn images_resume(alloc: Global, disk: &MemDisk, last: u64) -> Result<bool, NoMemory> {
    for pick in [Pick::Synced, Pick::Read, Pick::Mixed(0), Pick::Mixed(71)] {
        let image = disk.crash_image(alloc, pick)?;
        let start = resumed(alloc, &image)?;
        if start != Some(last) && start != Some(u64::wrapping_add(last, 1)) {
            return Ok(false);
        }
    }
    Ok(true)
}

/// A run that keeps three snapshots on an empty disk that stops at that call: whether all were kept, and whether its
/// images may be resumed at the last one that it noted or at the next.
fn run_until(alloc: Global, stop: u64) -> Result<(bool, bool), NoMemory> {
    let shape = one_vertex(alloc)?;
    let mut disk = MemDisk::new(alloc, 128, &[], Vec::new(alloc), Some(stop))?;
    let Ok(entry) = begin_fresh(alloc, &shape, &DIGEST, 1, &mut disk) else {
        return Ok((false, images_resume(alloc, &disk, 0)?));
    };
    let Entry {
        start: _start,
        store,
    } = entry;
    let Some(mut store) = store else {
        return Ok((false, false));
    };
    let mut kept = Vec::new(alloc);
    for _ in 0..3 {
        if keep_next(alloc, &mut store, &mut kept, &mut disk).is_err() {
            break;
        }
    }
    let last = kept.last().map_or(0, |note| note.epoch);
    Ok((kept.len() == 3, images_resume(alloc, &disk, last)?))
}

/// The beginning asks for the length and makes 10 calls more, the first two puts make 6 each, and the third 8.
#[test]
fn a_stop_at_each_call_can_be_resumed(rt: HostRuntime) -> Result<(), Fail> {
    for stop in 1..40 {
        let (done, good) = run_until(rt.alloc(), stop)?;
        assert!(rt; good, "stopped at call {stop}");
        assert_eq!(rt; done, stop > 31, "stopped at call {stop}");
    }
    Ok(())
}

#[test]
fn a_fresh_run_leaves_a_file_that_is_there(rt: HostRuntime) -> Result<(), Fail> {
    let alloc = rt.alloc();
    let shape = one_vertex(alloc)?;
    let mut disk = MemDisk::new(alloc, 128, b"bytes", Vec::new(alloc), None)?;
    let fault = begin_fresh(alloc, &shape, &DIGEST, 1, &mut disk).err();
    assert_eq!(rt; fault, Some(EntryFault::StateThere { length: 5 }));
    let calls = disk.calls();
    let entry = begin_fresh(alloc, &shape, &DIGEST, 0, &mut disk);
    assert!(rt; entry.is_ok_and(|entry| entry.start.epoch == 0 && entry.store.is_none()));
    assert_eq!(rt; disk.calls(), calls);
    Ok(())
}
