// A body goes to the disk through a piece of memory that a store keeps.
ghost use Rattle.std.specs.Prelude.{◌≡◌, ◌+◌, ◌*◌, ◌^◌, ◌<◌, ◌≤◌, ℕ, List, length, Some, IsTrue, IfOk, OnOk, OnErr};
ghost use Rattle.grape_port.specs.Ports.{Rose};
ghost use Rattle.grape_disk.specs.Images.{AtRest, Leaves, Torn, written};
ghost use Rattle.token_cut.specs.Form.{IsInSlotForm};
ghost use Rattle.token_cut.specs.Shapes.{IsShape};
ghost use Rattle.snapshot_file.specs.Bodies.{body_bytes};
ghost use Rattle.snapshot_file.specs.Lengths.{body_length};
ghost use Rattle.snapshot_store.specs.Lengths.{StaysWithin};

use grape_disk::{Disk, Failed};
use grape_port::NoMemory;
use snapshot_file::{body_len, encode_piece};
use std::alloc::Global;
use token_cut::{Shape, Snapshot};

/// The piece of 65,536 bytes that a store keeps.
pub(crate) fn new_piece(alloc: Global) -> Result<Vec<u8>, NoMemory>
    ensures { IfOk result (λ piece. 0 < length piece.items) }
{
    let block = [0; 1024];
    repeated(alloc, &block, 64)
}

// A block is copied at once: byte by byte a piece would cost more than all else that an open does.
fn repeated(alloc: Global, block: &[u8], times: usize) -> Result<Vec<u8>, NoMemory>
    requires { times * length block.now ≤ 2 ^ 32 }
    ensures { IfOk result (λ bytes. length bytes.items ≡ times * length block.now) }
{
    let mut bytes = Vec::with_capacity(alloc, times * block.len())?;
    for _turn in 0..times {
        bytes.extend_from_slice(block)?;
    }
    Ok(bytes)
}

/// Writes the body of a snapshot, and syncs it.
pub(crate) fn write_body<D: Disk>(
    disk: &mut D,
    at: u64,
    shape: &Shape,
    snapshot: &Snapshot,
    piece: &mut [u8],
) -> Result<(), Failed>
    requires shape { IsShape shape.now }
    requires form { (slot : ℕ) × IsInSlotForm shape.now slot snapshot.now }
    requires room { at + body_length shape.now ≤ 2 ^ 62 }
    requires piece { 0 < length piece.old }
    ensures done { OnOk result (IsTrue (D.honest disk.old) → (file : List ℕ) → D.content disk.old ≡ Some file
        → AtRest D.content D.images D.moment disk.new (written at (body_bytes snapshot.now) file)) }
    ensures crash { IsTrue (D.honest disk.old) → (file : List ℕ) → AtRest D.content D.images D.moment disk.old file
        → Leaves D.images D.moment disk.old disk.new (Torn at (body_length shape.now) file) }
    ensures size { IsTrue (D.honest disk.old) → (most : ℕ) → at + body_length shape.now ≤ most → StaysWithin D.images D.moment most disk.old disk.new }
    ensures cause { OnErr result (Rose (D.faults disk.old) (D.faults disk.new)) }
    ensures no_fault { OnOk result (D.faults disk.new ≡ D.faults disk.old) }
    ensures later { D.moment disk.old ≤ D.moment disk.new }
    ensures moved { OnOk result (D.moment disk.old < D.moment disk.new) }
    ensures honest { D.honest disk.new ≡ D.honest disk.old }
{
    stage_body(disk, at, shape, snapshot, piece)?;
    disk.sync()
}

/// Writes the body of a snapshot piece by piece.
fn stage_body<D: Disk>(
    disk: &mut D,
    at: u64,
    shape: &Shape,
    snapshot: &Snapshot,
    piece: &mut [u8],
) -> Result<(), Failed>
    requires shape { IsShape shape.now }
    requires form { (slot : ℕ) × IsInSlotForm shape.now slot snapshot.now }
    requires room { at + body_length shape.now ≤ 2 ^ 62 }
    requires piece { 0 < length piece.old }
    ensures done { OnOk result ((file : List ℕ) → D.content disk.old ≡ Some file → D.content disk.new ≡ Some (written at (body_bytes snapshot.now) file)) }
    ensures crash { IsTrue (D.honest disk.old) → (file : List ℕ) → AtRest D.content D.images D.moment disk.old file
        → Leaves D.images D.moment disk.old disk.new (Torn at (body_length shape.now) file) }
    ensures size { IsTrue (D.honest disk.old) → (most : ℕ) → at + body_length shape.now ≤ most → StaysWithin D.images D.moment most disk.old disk.new }
    ensures cause { OnErr result (Rose (D.faults disk.old) (D.faults disk.new)) }
    ensures no_fault { OnOk result (D.faults disk.new ≡ D.faults disk.old) }
    ensures later { D.moment disk.old ≤ D.moment disk.new }
    ensures honest { D.honest disk.new ≡ D.honest disk.old }
{
    let end = body_len(shape);
    let mut done = 0;
    while done < end {
        let count = (end - done).min(piece.len() as u64);
        let (next, _) = piece.split_at_mut(count as usize);
        encode_piece(snapshot, shape, done, next);
        disk.write_at(at + done, next)?;
        done += count;
    }
    Ok(())
}
