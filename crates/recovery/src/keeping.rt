ghost use Rattle.std.specs.Prelude.{◌≡◌, ◌⊎◌, ◌+◌, ◌%◌, ◌≤◌, [], ◌∷◌, ◌++◌, IsErrOf, IsTrue, IfErr, OnOk, OnErr, vec_len, vec_capacity};
ghost use Rattle.grape_port.specs.Ports.{Rose};
ghost use Rattle.token_cut.specs.Form.{IsInSlotForm};
ghost use Rattle.token_cut.specs.Shapes.{IsShape};
ghost use Rattle.recovery.specs.Crashes.{KeepsOne, MayHaveKept};
ghost use Rattle.snapshot_store.specs.declared.fault.StoreFault.TheVariants.{Disk as DiskFault, NoMemory as NoMemoryFault};

use crate::kept_at::KeptAt;
use grape_disk::Disk;
use grape_port::NoMemory;
use snapshot_store::{Store, StoreFault};
use token_cut::{Shape, Snapshot};

/// Keeps the snapshot that was sealed last, and notes when. Room for the note is made first, so that what is kept is noted.
///
/// At `Ok` each crash from then on leaves this snapshot or a later one. After `StoreFault::Disk` a crash leaves what it might
/// have left before, or this snapshot. After `StoreFault::NoMemory` the disk is untouched.
pub fn keep<D: Disk>(
    store: &mut Store,
    kept: &mut Vec<KeptAt>,
    disk: &mut D,
    shape: &Shape,
    snapshot: &Snapshot,
) -> Result<(), StoreFault>
    requires shape { IsShape shape.now }
    requires next { snapshot.now.epoch ≡ store.old.last + 1 }
    requires form { IsInSlotForm shape.now (snapshot.now.epoch % 2) snapshot.now }

    ensures one { OnOk result (IsTrue (D.honest disk.old) → KeepsOne D.content D.images D.moment shape.now store.old.digest snapshot.now store.old.last kept.old.items kept.new.items disk.old disk.new) }
    ensures crash { OnErr result (IsTrue (D.honest disk.old) → MayHaveKept D.content D.images D.moment shape.now store.old.digest snapshot.now store.old.last kept.old.items kept.new.items disk.old disk.new) }

    // What was kept is noted, and nothing else.
    ensures noted { OnOk result (kept.new.items ≡ kept.old.items ++ record { epoch = snapshot.now.epoch; moment = D.moment disk.new } ∷ []) }
    ensures not_noted { OnErr result (kept.new.items ≡ kept.old.items) }

    ensures digest { store.new.digest ≡ store.old.digest }
    ensures last { OnOk result (store.new.last ≡ snapshot.now.epoch) }

    ensures disk_fault { IsErrOf result DiskFault → Rose (D.faults disk.old) (D.faults disk.new) }
    ensures no_fault { OnOk result (D.faults disk.new ≡ D.faults disk.old) }
    ensures no_memory { IsErrOf result NoMemoryFault → disk.new ≡ disk.old }
    ensures no_other { IfErr result (λ e. (e ≡ DiskFault) ⊎ (e ≡ NoMemoryFault)) }

    ensures later { D.moment disk.old ≤ D.moment disk.new }
    ensures honest { D.honest disk.new ≡ D.honest disk.old }
{
    make_room(kept)?;
    store.put(disk, shape, snapshot)?;
    kept.push_reserved(KeptAt {
        epoch: snapshot.epoch,
        moment: disk.calls(),
    });
    Ok(())
}

fn make_room(kept: &mut Vec<KeptAt>) -> Result<(), NoMemory>
    ensures same { kept.new.items ≡ kept.old.items }
    ensures room { OnOk result (vec_len kept.new + 1 ≤ vec_capacity kept.new) }
{
    kept.reserve(1).map_err(|_| NoMemory)
}
