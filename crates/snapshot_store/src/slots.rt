// The slots of a file, read back. A body passes through a piece of memory, and no byte is read twice.
ghost use Rattle.std.specs.Prelude.{◌≡◌, ◌⊎◌, ◌+◌, ◌≤◌, ◌<◌, ◌^◌, ◌%◌, ℕ, List, length, Some, IsErrOf, IfOk, IfErr, IfSome, OnOk};
ghost use Rattle.grape_port.specs.Ports.{Rose};
ghost use Rattle.grape_disk.specs.Images.{piece};
ghost use Rattle.token_cut.specs.Form.{IsInSlotForm};
ghost use Rattle.token_cut.specs.Shapes.{IsShape};
ghost use Rattle.snapshot_file.specs.Lengths.{slot_length, file_length};
ghost use Rattle.snapshot_store.specs.State.{is_first_newest, by_slot, by_slots, slot, slot_place};
ghost use Rattle.snapshot_store.specs.Opening.{SlotSays, SlotsSay};
ghost use Rattle.snapshot_store.specs.Reads.{Tells, Unwritten};
ghost use Rattle.snapshot_store.specs.declared.fault.StoreFault.TheVariants.{Disk as DiskFault};

use crate::fault::StoreFault;
use crate::steps::OPEN;
use grape_disk::Disk;
use snapshot_file::{BodyReader, body_len, epoch_of, slot_len};
use std::alloc::Global;
use token_cut::{Shape, Snapshot};

/// The snapshot that the slots of a file stand for, where one is open. The gate and the epoch of the
/// first one are read already.
pub(crate) fn read_slots<D: Disk>(
    alloc: Global,
    disk: &mut D,
    zero: &[u8],
    shape: &Shape,
    through: &mut [u8],
) -> Result<Option<Snapshot>, StoreFault>
    requires shape { IsShape shape.now }
    requires zero { length zero.now ≡ 9 }
    requires whole { (file : List ℕ) → D.content disk.old ≡ Some file → file_length shape.now ≤ length file }
    requires through { 0 < length through.old }
    ensures says { Tells (D.content disk.old) 73 (file_length shape.now) (λ file. piece 64 9 file ≡ zero.now → SlotsSay (by_slots shape.now (slot shape.now 0 file) (slot shape.now 1 file)) result) }
    ensures form { IfOk result (λ found. IfSome found (λ snapshot. IsInSlotForm shape.now (snapshot.epoch % 2) snapshot)) }
    ensures unwritten { Unwritten D.content D.images D.moment D.honest disk.old disk.new }
    ensures disk_fault { IsErrOf result DiskFault → Rose (D.faults disk.old) (D.faults disk.new) }
    ensures no_fault { OnOk result (D.faults disk.new ≡ D.faults disk.old) }
    ensures other_fault { IfErr result (λ e. (e ≡ DiskFault) ⊎ (D.faults disk.new ≡ D.faults disk.old)) }
{
    let size = slot_len(shape);
    let mut one = [0; 9];
    disk.read_at(64 + size, &mut one)?;
    let (_, zero_epoch) = zero.split_at(1);
    let (_, one_epoch) = one.split_at(1);
    if is_first_newest(zero, &one) {
        Ok(Some(read_slot(alloc, disk, 0, zero_epoch, shape, through)?))
    } else if one[0] == OPEN {
        Ok(Some(read_slot(alloc, disk, 1, one_epoch, shape, through)?))
    } else {
        Ok(None)
    }
}

/// Whether a file with these slots stands for the first: it is open, and the second is closed or has no larger epoch.
fn is_first_newest(zero: &[u8], one: &[u8]) -> bool
    requires zero { 9 ≤ length zero.now }
    requires one { 9 ≤ length one.now }
    ensures { result ≡ is_first_newest zero.now one.now }
{
    let (_, zero_body) = zero.split_at(1);
    let (_, one_body) = one.split_at(1);
    zero[0] == OPEN && (one[0] != OPEN || epoch_of(one_body) <= epoch_of(zero_body))
}

/// The snapshot that stands in a slot with these bytes of its epoch. What stands behind them is read
/// through a piece.
fn read_slot<D: Disk>(
    alloc: Global,
    disk: &mut D,
    number: u64,
    epoch: &[u8],
    shape: &Shape,
    through: &mut [u8],
) -> Result<Snapshot, StoreFault>
    requires shape { IsShape shape.now }
    requires number { number ≤ 1 }
    requires epoch { length epoch.now ≡ 8 }
    requires whole { (file : List ℕ) → D.content disk.old ≡ Some file → file_length shape.now ≤ length file }
    requires through { 0 < length through.old }
    ensures says { Tells (D.content disk.old) (slot_place shape.now number + 9) (slot_place shape.now number + slot_length shape.now)
        (λ file. piece (slot_place shape.now number + 1) 8 file ≡ epoch.now → SlotSays (by_slot shape.now number (slot shape.now number file)) result) }
    ensures form { IfOk result (λ snapshot. IsInSlotForm shape.now (snapshot.epoch % 2) snapshot) }
    ensures unwritten { Unwritten D.content D.images D.moment D.honest disk.old disk.new }
    ensures disk_fault { IsErrOf result DiskFault → Rose (D.faults disk.old) (D.faults disk.new) }
    ensures no_fault { OnOk result (D.faults disk.new ≡ D.faults disk.old) }
    ensures other_fault { IfErr result (λ e. (e ≡ DiskFault) ⊎ (D.faults disk.new ≡ D.faults disk.old)) }
{
    let place = 65 + number * slot_len(shape);
    let end = body_len(shape);
    let mut snapshot = Snapshot::fresh(alloc, shape)?;
    let mut reader = BodyReader::new(place, number);
    reader.feed(epoch, shape, &mut snapshot)?;
    let mut done = 8;
    while done < end {
        let count = (end - done).min(through.len() as u64);
        let (next, _) = through.split_at_mut(count as usize);
        disk.read_at(place + done, next)?;
        reader.feed(next, shape, &mut snapshot)?;
        done += count;
    }
    Ok(snapshot)
}
