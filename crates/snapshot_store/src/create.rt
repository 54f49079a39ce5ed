// The steps that make a file of a store.
ghost use Rattle.std.specs.Prelude.{◌≡◌, ◌+◌, ◌^◌, ◌<◌, ◌≤◌, ℕ, List, length, IsTrue, IfOk, OnOk, OnErr};
ghost use Rattle.grape_port.specs.Ports.{Rose};
ghost use Rattle.grape_disk.specs.Images.{AtRest, Leaves};
ghost use Rattle.snapshot_store.specs.Lengths.{StaysWithin};
ghost use Rattle.snapshot_store.specs.State.{front_bytes};
ghost use Rattle.snapshot_store.specs.Steps.{HasShutGate, ClosesFile, KeepsGate, blank};

use crate::steps::{close_gate, write_synced};
use byteorder::{BigEndian, ByteOrder};
use grape_disk::{Disk, Failed};

// what names a state file, behind its gate
const NAME_BYTES: [u8; 7] = [0x52, 0x41, 0x50, 0x45, 0x53, 0x54, 0x31];

/// The header behind the file's gate, and the closed gate of the first slot.
pub(crate) fn front_of(size: u64, digest: &[u8; 32]) -> [u8; 64]
    ensures bytes { result ≡ front_bytes size digest.now }
{
    let mut front = [0; 64];
    let (name, behind) = front.split_at_mut(7);
    name.copy_from_slice(&NAME_BYTES);
    let (kept, behind) = behind.split_at_mut(32);
    kept.copy_from_slice(digest);
    let (number, _) = behind.split_at_mut(8);
    BigEndian::write_u64(number, size);
    front
}

/// Closes the file's gate. An empty file gets a closed one.
pub(crate) fn close_file<D: Disk>(disk: &mut D) -> Result<(), Failed>
    ensures done { OnOk result (IsTrue (D.honest disk.old) → (file : List ℕ) → AtRest D.content D.images D.moment disk.old file
        → (new : List ℕ) × AtRest D.content D.images D.moment disk.new new × HasShutGate file new) }
    ensures crash { IsTrue (D.honest disk.old) → (file : List ℕ) → AtRest D.content D.images D.moment disk.old file
        → Leaves D.images D.moment disk.old disk.new (ClosesFile file) }
    ensures size { IsTrue (D.honest disk.old) → (most : ℕ) → 1 ≤ most → StaysWithin D.images D.moment most disk.old disk.new }
    ensures cause { OnErr result (Rose (D.faults disk.old) (D.faults disk.new)) }
    ensures no_fault { OnOk result (D.faults disk.new ≡ D.faults disk.old) }
    ensures later { D.moment disk.old ≤ D.moment disk.new }
    ensures moved { OnOk result (D.moment disk.old < D.moment disk.new) }
    ensures honest { D.honest disk.new ≡ D.honest disk.old }
{
    close_gate(disk, 0)?;
    let size = disk.len()?;
    if size > 0 {
        return Ok(());
    }
    write_synced(disk, 0, &[0])
}

/// Writes all of a file but its gate, and syncs it.
pub(crate) fn write_blank<D: Disk>(
    disk: &mut D,
    front: &[u8],
    gate: u64,
    end: u64,
) -> Result<(), Failed>
    requires some { 0 < length front.now }
    requires room { end < 2 ^ 62 }
    requires gate { 1 ≤ gate }
    requires order { gate ≤ end }
    requires front { length front.now ≤ end }
    ensures done { OnOk result (IsTrue (D.honest disk.old) → (file : List ℕ) → AtRest D.content D.images D.moment disk.old file
        → AtRest D.content D.images D.moment disk.new (blank front.now gate end file)) }
    ensures crash { IsTrue (D.honest disk.old) → (file : List ℕ) → AtRest D.content D.images D.moment disk.old file → 0 < length file
        → Leaves D.images D.moment disk.old disk.new (KeepsGate file (end + 1)) }
    ensures size { IsTrue (D.honest disk.old) → (most : ℕ) → end < most → StaysWithin D.images D.moment most disk.old disk.new }
    ensures cause { OnErr result (Rose (D.faults disk.old) (D.faults disk.new)) }
    ensures no_fault { OnOk result (D.faults disk.new ≡ D.faults disk.old) }
    ensures later { D.moment disk.old ≤ D.moment disk.new }
    ensures moved { OnOk result (D.moment disk.old < D.moment disk.new) }
    ensures honest { D.honest disk.new ≡ D.honest disk.old }
{
    disk.write_at(1, front)?;
    disk.write_at(gate, &[0])?;
    disk.write_at(end, &[0])?;
    disk.sync()
}
