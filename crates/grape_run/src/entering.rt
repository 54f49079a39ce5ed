ghost use Rattle.std.specs.Prelude.{◌≡◌, ◌≤◌};
ghost use Rattle.graph_core.specs.Graphs.{IsJob};
ghost use Rattle.token_cut.specs.Shapes.{IsShape};
ghost use Rattle.coordinator.specs.Shapes.{shape_of};
ghost use Rattle.grape_run.specs.Entering.{IsEntryFor, EntryCounts, entry_status, store_status};

use crate::beginning::Beginning;
use crate::status::Status;
use coordinator::{Entry, EntryFault, begin_fresh, entries_may_begin, recover};
use grape_disk::Disk;
use graph_core::Job;
use recovery::claims_add_up;
use snapshot_store::StoreFault;
use std::alloc::Global;
use token_cut::Shape;

/// Enters the run of a job: a fresh one, or one that goes on from the state file. The digest is that of the input, and
/// the state file is known by it.
pub(crate) fn enter<D: Disk>(
    alloc: Global,
    beginning: Beginning,
    job: &Job,
    shape: &Shape,
    digest: &[u8; 32],
    disk: &mut D,
) -> Result<Entry, Status>
    requires job { IsJob job.now }
    requires shape { shape.now ≡ shape_of job.now }
    requires limits { IsShape shape.now }
    ensures entry { IsEntryFor D.content D.images D.moment D.honest beginning job.now digest.now result disk.old disk.new }
    ensures counts { EntryCounts result (D.faults disk.old) (D.faults disk.new) }
    ensures later { D.moment disk.old ≤ D.moment disk.new }
    ensures honest { D.honest disk.new ≡ D.honest disk.old }
{
    match beginning {
        Beginning::Fresh => enter_fresh(alloc, job, shape, digest, disk),
        Beginning::Resumed => enter_again(alloc, job, shape, digest, disk),
    }
}

/// A run from the beginning. Without snapshots there is no call of the disk.
fn enter_fresh<D: Disk>(
    alloc: Global,
    job: &Job,
    shape: &Shape,
    digest: &[u8; 32],
    disk: &mut D,
) -> Result<Entry, Status>
    requires job { IsJob job.now }
    requires shape { shape.now ≡ shape_of job.now }
    requires limits { IsShape shape.now }
    ensures entry { IsEntryFor D.content D.images D.moment D.honest Beginning.Fresh job.now digest.now result disk.old disk.new }
    ensures counts { EntryCounts result (D.faults disk.old) (D.faults disk.new) }
    ensures later { D.moment disk.old ≤ D.moment disk.new }
    ensures honest { D.honest disk.new ≡ D.honest disk.old }
{
    claims_add_up(disk);
    let snapshot = job.settings.snapshot;
    match begin_fresh(alloc, shape, digest, snapshot, disk) {
        Ok(entry) => Ok(entry),
        Err(fault) => Err(entry_status(fault)),
    }
}

/// A run that goes on from the last snapshot that was kept.
fn enter_again<D: Disk>(
    alloc: Global,
    job: &Job,
    shape: &Shape,
    digest: &[u8; 32],
    disk: &mut D,
) -> Result<Entry, Status>
    requires job { IsJob job.now }
    requires shape { shape.now ≡ shape_of job.now }
    requires limits { IsShape shape.now }
    ensures entry { IsEntryFor D.content D.images D.moment D.honest Beginning.Resumed job.now digest.now result disk.old disk.new }
    ensures counts { EntryCounts result (D.faults disk.old) (D.faults disk.new) }
    ensures later { D.moment disk.old ≤ D.moment disk.new }
    ensures honest { D.honest disk.new ≡ D.honest disk.old }
{
    entries_may_begin();
    match recover(alloc, shape, digest, job.settings.snapshot, disk) {
        Ok(entry) => Ok(entry),
        Err(fault) => Err(store_status(fault)),
    }
}

/// The status of a run that can't begin for that.
fn entry_status(fault: EntryFault) -> Status
    ensures { result ≡ entry_status fault }
{
    match fault {
        EntryFault::Store(fault) => store_status(fault),
        EntryFault::StateThere { length } => Status::StateThere { length },
    }
}

fn store_status(fault: StoreFault) -> Status
    ensures { result ≡ store_status fault }
{
    match fault {
        StoreFault::Disk => Status::DiskFault,
        StoreFault::Other { kept, here } => Status::OtherJob { kept, here },
        StoreFault::Damaged { place } => Status::BadState { place },
        StoreFault::NoMemory => Status::NoMemory,
    }
}
