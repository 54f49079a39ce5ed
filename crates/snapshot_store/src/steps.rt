// The two steps that a store makes of calls of the disk.
ghost use Rattle.std.specs.Prelude.{◌≡◌, ◌+◌, ◌^◌, ◌<◌, ◌≤◌, ℕ, List, [], ◌∷◌, length, Some, IsTrue, OnOk, OnErr};
ghost use Rattle.grape_port.specs.Ports.{Rose};
ghost use Rattle.grape_disk.specs.Images.{AtRest, Leaves, Torn, written};
ghost use Rattle.snapshot_store.specs.Lengths.{StaysWithin};
ghost use Rattle.snapshot_store.specs.State.{OPEN};
ghost use Rattle.snapshot_store.specs.Steps.{closed, ClosesGate};

use grape_disk::{Disk, Failed};

/// A gate holds this byte where it is open.
pub(crate) const OPEN: u8 = 0x47;

/// Writes bytes, and syncs them.
pub(crate) fn write_synced<D: Disk>(disk: &mut D, at: u64, bytes: &[u8]) -> Result<(), Failed>
    requires some { 0 < length bytes.now }
    requires room { at + length bytes.now ≤ 2 ^ 62 }
    ensures done { OnOk result (IsTrue (D.honest disk.old) → (file : List ℕ) → D.content disk.old ≡ Some file
        → AtRest D.content D.images D.moment disk.new (written at bytes.now file)) }
    ensures crash { IsTrue (D.honest disk.old) → (file : List ℕ) → AtRest D.content D.images D.moment disk.old file
        → Leaves D.images D.moment disk.old disk.new (Torn at (length bytes.now) file) }
    ensures size { IsTrue (D.honest disk.old) → (most : ℕ) → at + length bytes.now ≤ most → StaysWithin D.images D.moment most disk.old disk.new }
    ensures cause { OnErr result (Rose (D.faults disk.old) (D.faults disk.new)) }
    ensures no_fault { OnOk result (D.faults disk.new ≡ D.faults disk.old) }
    ensures later { D.moment disk.old ≤ D.moment disk.new }
    ensures moved { OnOk result (D.moment disk.old < D.moment disk.new) }
    ensures honest { D.honest disk.new ≡ D.honest disk.old }
{
    disk.write_at(at, bytes)?;
    disk.sync()
}

/// Closes an open gate, and syncs it. A closed gate, or one past the end, is left as it is.
pub(crate) fn close_gate<D: Disk>(disk: &mut D, at: u64) -> Result<(), Failed>
    requires { at < 2 ^ 62 }
    ensures done { OnOk result (IsTrue (D.honest disk.old) → (file : List ℕ) → AtRest D.content D.images D.moment disk.old file
        → AtRest D.content D.images D.moment disk.new (closed at file)) }
    ensures told { OnOk result (IsTrue (D.honest disk.old) → (file : List ℕ) → D.content disk.old ≡ Some file → D.content disk.new ≡ Some (closed at file)) }
    ensures crash { IsTrue (D.honest disk.old) → (file : List ℕ) → AtRest D.content D.images D.moment disk.old file
        → Leaves D.images D.moment disk.old disk.new (ClosesGate at file) }
    ensures size { IsTrue (D.honest disk.old) → (most : ℕ) → at < most → StaysWithin D.images D.moment most disk.old disk.new }
    ensures cause { OnErr result (Rose (D.faults disk.old) (D.faults disk.new)) }
    ensures no_fault { OnOk result (D.faults disk.new ≡ D.faults disk.old) }
    ensures later { D.moment disk.old ≤ D.moment disk.new }
    ensures moved { OnOk result (D.moment disk.old < D.moment disk.new) }
    ensures honest { D.honest disk.new ≡ D.honest disk.old }
{
    let size = disk.len()?;
    if size <= at {
        return Ok(());
    }
    let mut gate = [0];
    disk.read_at(at, &mut gate)?;
    if gate[0] != OPEN {
        return Ok(());
    }
    write_synced(disk, at, &[0])
}
