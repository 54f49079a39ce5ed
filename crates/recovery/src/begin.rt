ghost use Rattle.std.specs.Prelude.{◌≡◌, ◌≢◌, ◌⊎◌, ◌%◌, ◌<◌, ◌≤◌, ℕ, [], List, length, Some, None, Err, IsErrOf, IsTrue, IfOk, IfErr, OnOk};
ghost use Rattle.grape_port.specs.Ports.{Rose};
ghost use Rattle.grape_disk.specs.Images.{AtRest};
ghost use Rattle.token_cut.specs.Form.{IsInSlotForm};
ghost use Rattle.token_cut.specs.Shapes.{IsShape, fresh_snapshot};
ghost use Rattle.snapshot_store.specs.State.{file_state};
ghost use Rattle.snapshot_store.specs.State.FileState.{nothing};
ghost use Rattle.snapshot_store.specs.declared.fault.StoreFault.TheVariants.{Disk as DiskFault, NoMemory as NoMemoryFault, Other as OtherFault};
ghost use Rattle.recovery.specs.Crashes.{Survives, MayKeep};
ghost use Rattle.recovery.specs.Entries.{HasStore, RecoversFrom};
ghost use Rattle.recovery.specs.declared.entry.EntryFault.TheVariants.{Store as StoreRefuses, StateThere};

use crate::entry::{Entry, EntryFault};
use grape_disk::Disk;
use snapshot_store::{Opened, Store, StoreFault};
use std::alloc::Global;
use token_cut::{Shape, Snapshot};

/// Begins a run at the fresh snapshot. Where the job asks for snapshots the state file is empty, and is made that of a store; else
/// the disk isn't used.
///
/// `StateThere` comes exactly where the job asks for snapshots and the file isn't empty, with its length.
pub fn begin_fresh<D: Disk>(
    alloc: Global,
    shape: &Shape,
    digest: &[u8; 32],
    snapshot: u32,
    disk: &mut D,
) -> Result<Entry, EntryFault>
    requires { IsShape shape.now }

    ensures start { IfOk result (λ entry. entry.start ≡ fresh_snapshot shape.now) }
    ensures store { IfOk result (λ entry. 1 ≤ snapshot → HasStore digest.now 0 entry.store) }
    ensures no_store { IfOk result (λ entry. snapshot ≡ 0 → entry.store ≡ None) }

    // Without snapshots the disk isn't used.
    ensures unused { snapshot ≡ 0 → disk.new ≡ disk.old }

    // The file is empty, or it is there.
    ensures empty { OnOk result (1 ≤ snapshot → (file : List ℕ) → D.content disk.old ≡ Some file → file ≡ []) }
    ensures there { (size : ℕ) → result ≡ Err (StateThere size) → (1 ≤ snapshot) × (0 < size) × ((file : List ℕ) → D.content disk.old ≡ Some file → size ≡ length file) }

    // A crash at any moment of the call leaves a file that opens as before; after Ok the first snapshot may be kept.
    ensures crash { IsTrue (D.honest disk.old) → (file : List ℕ) → AtRest D.content D.images D.moment disk.old file → Survives D.images D.moment shape.now digest.now [] [] file disk.old disk.new }
    ensures ready { OnOk result (1 ≤ snapshot → IsTrue (D.honest disk.old) → (file : List ℕ) → AtRest D.content D.images D.moment disk.old file → MayKeep D.content D.images D.moment shape.now digest.now [] [] file 0 disk.old disk.new) }

    ensures disk_fault { result ≡ Err (StoreRefuses DiskFault) → Rose (D.faults disk.old) (D.faults disk.new) }
    ensures other_fault { IfErr result (λ e. (e ≡ StoreRefuses DiskFault) ⊎ (D.faults disk.new ≡ D.faults disk.old)) }
    ensures no_fault { OnOk result (D.faults disk.new ≡ D.faults disk.old) }
    ensures no_other { (e : StoreFault) → result ≡ Err (StoreRefuses e) → (e ≡ DiskFault) ⊎ (e ≡ NoMemoryFault) }
    ensures later { D.moment disk.old ≤ D.moment disk.new }
    ensures honest { D.honest disk.new ≡ D.honest disk.old }
{
    let Ok(start) = Snapshot::fresh(alloc, shape) else {
        return Err(EntryFault::Store(StoreFault::NoMemory));
    };
    if snapshot == 0 {
        return Ok(Entry { start, store: None });
    }
    let Ok(length) = disk.len() else {
        return Err(EntryFault::Store(StoreFault::Disk));
    };
    if length > 0 {
        return Err(EntryFault::StateThere { length });
    }
    match Store::create(alloc, disk, shape, digest) {
        Ok(store) => Ok(Entry {
            start,
            store: Some(store),
        }),
        Err(fault) => Err(EntryFault::Store(fault)),
    }
}

/// Begins a run at the last snapshot that the state file keeps, or at the fresh one where it opens as nothing. There a store is made
/// where the job asks for snapshots.
///
/// `Other` and `Damaged` come exactly where the file is another input's, or is damaged.
pub fn recover<D: Disk>(
    alloc: Global,
    shape: &Shape,
    digest: &[u8; 32],
    snapshot: u32,
    disk: &mut D,
) -> Result<Entry, StoreFault>
    requires { IsShape shape.now }

    ensures start { (file : List ℕ) → D.content disk.old ≡ Some file → RecoversFrom shape.now digest.now file result }

    // Where the disk tells no content, the answer is that of some bytes.
    ensures read { (bytes : List ℕ) × RecoversFrom shape.now digest.now bytes result }
    ensures names_both { (kept here : List ℕ) → result ≡ Err (OtherFault kept here) → (here ≡ digest.now) × (kept ≢ digest.now) }
    ensures form { IfOk result (λ entry. (entry.start ≡ fresh_snapshot shape.now) ⊎ IsInSlotForm shape.now (entry.start.epoch % 2) entry.start) }
    ensures store { IfOk result (λ entry. 1 ≤ snapshot → HasStore digest.now entry.start.epoch entry.store) }

    // A crash at any moment of the call leaves a file that opens as before; after Ok the next snapshot may be kept.
    ensures crash { IsTrue (D.honest disk.old) → (file : List ℕ) → AtRest D.content D.images D.moment disk.old file → Survives D.images D.moment shape.now digest.now [] [] file disk.old disk.new }
    ensures ready { IfOk result (λ entry. 1 ≤ snapshot → IsTrue (D.honest disk.old) → (file : List ℕ) → AtRest D.content D.images D.moment disk.old file → MayKeep D.content D.images D.moment shape.now digest.now [] [] file entry.start.epoch disk.old disk.new) }

    ensures disk_fault { IsErrOf result DiskFault → Rose (D.faults disk.old) (D.faults disk.new) }
    ensures other_fault { IfErr result (λ e. (e ≡ DiskFault) ⊎ (D.faults disk.new ≡ D.faults disk.old)) }
    ensures no_fault { OnOk result (D.faults disk.new ≡ D.faults disk.old) }
    ensures later { D.moment disk.old ≤ D.moment disk.new }
    ensures honest { D.honest disk.new ≡ D.honest disk.old }
{
    match Store::open(alloc, disk, shape, digest)? {
        Opened::Last(store, start) => Ok(Entry {
            start,
            store: Some(store),
        }),
        Opened::Nothing => start_over(alloc, shape, digest, snapshot, disk),
    }
}

/// The fresh start, in the place of a file that opens as nothing. A store is made where the job asks for snapshots.
fn start_over<D: Disk>(
    alloc: Global,
    shape: &Shape,
    digest: &[u8; 32],
    snapshot: u32,
    disk: &mut D,
) -> Result<Entry, StoreFault>
    requires shape { IsShape shape.now }
    requires empty { (file : List ℕ) → D.content disk.old ≡ Some file → file_state shape.now digest.now file ≡ nothing }
    ensures start { IfOk result (λ entry. entry.start ≡ fresh_snapshot shape.now) }
    ensures store { IfOk result (λ entry. 1 ≤ snapshot → HasStore digest.now 0 entry.store) }
    ensures crash { IsTrue (D.honest disk.old) → (file : List ℕ) → AtRest D.content D.images D.moment disk.old file → Survives D.images D.moment shape.now digest.now [] [] file disk.old disk.new }
    ensures ready { OnOk result (1 ≤ snapshot → IsTrue (D.honest disk.old) → (file : List ℕ) → AtRest D.content D.images D.moment disk.old file → MayKeep D.content D.images D.moment shape.now digest.now [] [] file 0 disk.old disk.new) }
    ensures disk_fault { IsErrOf result DiskFault → Rose (D.faults disk.old) (D.faults disk.new) }
    ensures other_fault { IfErr result (λ e. (e ≡ DiskFault) ⊎ (D.faults disk.new ≡ D.faults disk.old)) }
    ensures no_fault { OnOk result (D.faults disk.new ≡ D.faults disk.old) }
    ensures no_other { IfErr result (λ e. (e ≡ DiskFault) ⊎ (e ≡ NoMemoryFault)) }
    ensures later { D.moment disk.old ≤ D.moment disk.new }
    ensures honest { D.honest disk.new ≡ D.honest disk.old }
{
    let Ok(start) = Snapshot::fresh(alloc, shape) else {
        return Err(StoreFault::NoMemory);
    };
    if snapshot == 0 {
        return Ok(Entry { start, store: None });
    }
    match Store::create(alloc, disk, shape, digest) {
        Ok(store) => Ok(Entry {
            start,
            store: Some(store),
        }),
        Err(fault) => Err(fault),
    }
}
