ghost use Rattle.std.specs.Prelude.{◌≡◌, ◌+◌, ◌%◌, ◌≤◌, [], ◌∷◌, ◌++◌, IsErrOf, IsTrue, OnOk, OnErr};
ghost use Rattle.grape_port.specs.Ports.{Rose};
ghost use Rattle.grape_event.specs.declared.event.StopCause.TheVariants.{Disk as DiskCause, Memory as MemoryCause};
ghost use Rattle.token_cut.specs.Form.{IsInSlotForm};
ghost use Rattle.token_cut.specs.Shapes.{IsShape};
ghost use Rattle.recovery.specs.Crashes.{kept_epochs, KeepsOne, MayHaveKept};
ghost use Rattle.coordinator.specs.Runs.{HasLast};
ghost use Rattle.coordinator.specs.Keeping.{digest_in, last_in};

use grape_disk::Disk;
use grape_event::StopCause;
use recovery::{KeptAt, keep};
use snapshot_store::{Store, StoreFault};
use token_cut::{Shape, Snapshot};

/// What a run has to keep its snapshots.
#[derive(Drop)]
pub(crate) struct Keeper {
    /// The store of the entry. Without snapshots it isn't used.
    pub(crate) store: Option<Store>,
    /// The snapshots that were kept, in order.
    pub(crate) kept: Vec<KeptAt>,
    /// A snapshot that is sealed is written into this one.
    pub(crate) into: Snapshot,
}

impl Keeper {
    /// Puts the snapshot that was sealed last into the state file, and notes it. The cause for which it can't says why
    /// the run is to be stopped.
    pub(crate) fn put<D: Disk>(&mut self, disk: &mut D, shape: &Shape) -> Result<(), StopCause>
        requires shape { IsShape shape.now }
        requires store { HasLast (last_in self.old.store) self.old.store }
        requires next { self.old.into.epoch ≡ last_in self.old.store + 1 }
        requires form { IsInSlotForm shape.now (self.old.into.epoch % 2) self.old.into }
        ensures one { OnOk result (IsTrue (D.honest disk.old) → KeepsOne D.content D.images D.moment shape.now (digest_in self.old.store) self.old.into (last_in self.old.store) self.old.kept.items self.new.kept.items disk.old disk.new) }
        ensures crash { OnErr result (IsTrue (D.honest disk.old) → MayHaveKept D.content D.images D.moment shape.now (digest_in self.old.store) self.old.into (last_in self.old.store) self.old.kept.items self.new.kept.items disk.old disk.new) }
        ensures noted { OnOk result (kept_epochs self.new.kept.items ≡ kept_epochs self.old.kept.items ++ self.old.into.epoch ∷ []) }
        ensures not_noted { OnErr result (self.new.kept.items ≡ self.old.kept.items) }
        ensures same { (digest_in self.new.store ≡ digest_in self.old.store) × (self.new.into ≡ self.old.into) }
        ensures last { OnOk result (HasLast self.old.into.epoch self.new.store) }
        ensures disk_fault { IsErrOf result DiskCause → Rose (D.faults disk.old) (D.faults disk.new) }
        ensures no_fault { OnOk result (D.faults disk.new ≡ D.faults disk.old) }
        ensures no_memory { IsErrOf result MemoryCause → disk.new ≡ disk.old }
        ensures later { D.moment disk.old ≤ D.moment disk.new }
        ensures honest { D.honest disk.new ≡ D.honest disk.old }
    {
        let Some(store) = &mut self.store else {
            unreachable!()
        };
        match keep(store, &mut self.kept, disk, shape, &self.into) {
            Ok(()) => Ok(()),
            Err(StoreFault::Disk) => Err(StopCause::Disk),
            Err(StoreFault::NoMemory) => Err(StopCause::Memory),
            Err(StoreFault::Other { kept: _, here: _ } | StoreFault::Damaged { place: _ }) => {
                unreachable!()
            }
        }
    }
}
