// A snapshot goes to the slot of its epoch's parity, whose gate stands closed on the disk before its body is written, and is
// opened by a write of its own once the body is on the disk.
ghost use Rattle.std.specs.Prelude.{◌≡◌, ◌⊎◌, ◌+◌, ◌%◌, ◌<◌, ◌≤◌, ℕ, List, length, IsErrOf, IsTrue, IfOk, IfErr, OnOk, OnErr, Some};
ghost use Rattle.grape_port.specs.Ports.{Rose};
ghost use Rattle.grape_disk.specs.Images.{AtRest, Leaves};
ghost use Rattle.token_cut.specs.Form.{IsInSlotForm};
ghost use Rattle.token_cut.specs.Shapes.{IsShape};
ghost use Rattle.snapshot_file.specs.Lengths.{file_length};
ghost use Rattle.snapshot_store.specs.Lengths.{StaysWithin};
ghost use Rattle.snapshot_store.specs.State.{file_state, kept_file, StaysNothing, IsKept, KeepsOrTakes, Takes};
ghost use Rattle.snapshot_store.specs.State.FileState.{nothing};
ghost use Rattle.snapshot_store.specs.declared.fault.StoreFault.TheVariants.{Disk as DiskFault, NoMemory as NoMemoryFault};

use crate::body::{new_piece, write_body};
use crate::create::{close_file, front_of, write_blank};
use crate::fault::StoreFault;
use crate::steps::{OPEN, close_gate, write_synced};
use grape_disk::Disk;
use snapshot_file::slot_len;
use std::alloc::Global;
use std::marker::Model;
use token_cut::{Shape, Snapshot};

/// A file that snapshots are kept in. Contracts see the digest that it was made with, and the last
/// kept epoch. A store keeps a piece of 65,536 bytes, through which bodies pass.
#[derive(Drop)]
pub struct Store {
    pub(crate) digest: [u8; 32],
    pub(crate) last: u64,
    pub(crate) piece: Vec<u8>,
}

impl Model for Store {
    ghost use Rattle.std.specs.Prelude.{◌<◌, length};
    ghost use Rattle.snapshot_store.specs.Stores.{StoreValue};

    ghost Value = { StoreValue };

    ghost view = { λ s. record { digest = s.digest; last = s.last } };

    ghost invariant = { λ s. 0 < length s.piece.items };
}

impl Store {
    /// The last kept epoch, or 0.
    pub fn last(&self) -> u64
        ensures { result ≡ self.now.last }
    {
        self.last
    }

    /// Makes the file of a store that has kept nothing, in the place of one that opens as nothing.
    ///
    /// On an honest disk with nothing pending, to which nobody else writes, a crash at any moment of
    /// the call leaves a file that opens as nothing. After `StoreFault::Disk` the file is one of
    /// those; after `StoreFault::NoMemory` the disk is untouched.
    pub fn create<D: Disk>(
        alloc: Global,
        disk: &mut D,
        shape: &Shape,
        digest: &[u8; 32],
    ) -> Result<Store, StoreFault>
        requires shape { IsShape shape.now }
        requires empty { (file : List ℕ) → D.content disk.old ≡ Some file → file_state shape.now digest.now file ≡ nothing }

        ensures created { OnOk result (IsTrue (D.honest disk.old) → (file : List ℕ) → AtRest D.content D.images D.moment disk.old file
            → (new : List ℕ) × AtRest D.content D.images D.moment disk.new new × (file_state shape.now digest.now new ≡ nothing) × IsKept shape.now digest.now 0 new) }

        // A crash at any moment of the call leaves nothing.
        ensures any_moment { IsTrue (D.honest disk.old) → (file : List ℕ) → AtRest D.content D.images D.moment disk.old file
            → Leaves D.images D.moment disk.old disk.new (StaysNothing shape.now digest.now file) }

        // No image gets longer than the longest at entry or than the file has to be, whatever is pending.
        ensures size { IsTrue (D.honest disk.old) → (most : ℕ) → file_length shape.now ≤ most → StaysWithin D.images D.moment most disk.old disk.new }

        ensures store { IfOk result (λ store. (store.digest ≡ digest.now) × (store.last ≡ 0)) }

        // It doesn't give up by itself.
        ensures disk_fault { IsErrOf result DiskFault → Rose (D.faults disk.old) (D.faults disk.new) }
        ensures no_fault { OnOk result (D.faults disk.new ≡ D.faults disk.old) }
        ensures no_memory { IsErrOf result NoMemoryFault → disk.new ≡ disk.old }
        ensures no_other { IfErr result (λ e. (e ≡ DiskFault) ⊎ (e ≡ NoMemoryFault)) }

        // Moments don't fall, and an Ok call has moved on.
        ensures later { D.moment disk.old ≤ D.moment disk.new }
        ensures moved { OnOk result (D.moment disk.old < D.moment disk.new) }

        ensures honest { D.honest disk.new ≡ D.honest disk.old }
    {
        let size = slot_len(shape);
        let front = front_of(size, digest);
        let piece = new_piece(alloc)?;
        close_file(disk)?;
        write_blank(disk, &front, 64 + size, 63 + 2 * size)?;
        write_synced(disk, 0, &[OPEN])?;
        Ok(Store {
            digest: *digest,
            last: 0,
            piece,
        })
    }

    /// Keeps a snapshot. It takes no memory.
    ///
    /// On an honest disk with nothing pending, to which nobody else writes, a crash at any moment of
    /// the call leaves a file that opens as before or as the snapshot, and at `Ok` one that opens as
    /// the snapshot. `StoreFault::Disk` is the only fault, and after it the file is one of those: open
    /// it again.
    pub fn put<D: Disk>(
        &mut self,
        disk: &mut D,
        shape: &Shape,
        snapshot: &Snapshot,
    ) -> Result<(), StoreFault>
        requires shape { IsShape shape.now }
        requires next { snapshot.now.epoch ≡ self.old.last + 1 }
        requires form { IsInSlotForm shape.now (snapshot.now.epoch % 2) snapshot.now }

        ensures kept { OnOk result (IsTrue (D.honest disk.old) → (file : List ℕ) → AtRest D.content D.images D.moment disk.old file → IsKept shape.now self.old.digest self.old.last file
            → (new : List ℕ) × AtRest D.content D.images D.moment disk.new new × Takes shape.now self.old.digest snapshot.now new) }

        // A crash at any moment of the call leaves the state from before it, or the snapshot.
        ensures any_moment { IsTrue (D.honest disk.old) → (file : List ℕ) → AtRest D.content D.images D.moment disk.old file → IsKept shape.now self.old.digest self.old.last file
            → Leaves D.images D.moment disk.old disk.new (KeepsOrTakes shape.now self.old.digest snapshot.now file) }

        // The file of an Ok call, whatever was pending and whatever stood there.
        ensures file { OnOk result (IsTrue (D.honest disk.old) → (file : List ℕ) → D.content disk.old ≡ Some file
            → AtRest D.content D.images D.moment disk.new (kept_file shape.now snapshot.now file)) }

        // No image gets longer than the longest at entry or than the file has to be, whatever is pending.
        ensures size { IsTrue (D.honest disk.old) → (most : ℕ) → file_length shape.now ≤ most → StaysWithin D.images D.moment most disk.old disk.new }

        ensures digest { self.new.digest ≡ self.old.digest }
        ensures last { OnOk result (self.new.last ≡ snapshot.now.epoch) }
        ensures last_err { OnErr result (self.new.last ≡ self.old.last) }

        // It doesn't give up by itself.
        ensures disk_fault { IsErrOf result DiskFault → Rose (D.faults disk.old) (D.faults disk.new) }
        ensures no_fault { OnOk result (D.faults disk.new ≡ D.faults disk.old) }
        ensures no_other { IfErr result (λ e. e ≡ DiskFault) }

        // Moments don't fall, and an Ok call has moved on.
        ensures later { D.moment disk.old ≤ D.moment disk.new }
        ensures moved { OnOk result (D.moment disk.old < D.moment disk.new) }

        ensures honest { D.honest disk.new ≡ D.honest disk.old }
    {
        let gate = 64 + snapshot.epoch % 2 * slot_len(shape);
        close_gate(disk, gate)?;
        write_body(disk, gate + 1, shape, snapshot, &mut self.piece)?;
        write_synced(disk, gate, &[OPEN])?;
        self.last = snapshot.epoch;
        Ok(())
    }
}
