//! What runs begin with.

ghost use Rattle.std.specs.Prelude.{◌≡◌, ◌≤◌, IfOk};
ghost use Rattle.graph_core.specs.Graphs.{IsJob};
ghost use Rattle.base_machine.specs.Machine.{system_of};
ghost use Rattle.base_machine.specs.Fitness.{IsInForm};
ghost use Rattle.token_cut.specs.Shapes.{IsShape};
ghost use Rattle.coordinator.specs.Runs.{HasLast};
ghost use Rattle.coordinator.specs.Shapes.{shape_of};

use coordinator::{Entry, begin_fresh, entries_may_begin};
use grape_disk::MemDisk;
use grape_port::NoMemory;
use graph_core::Job;
use std::alloc::Global;
use token_cut::Shape;

/// Any 32 bytes in the place of an input's digest.
const DIGEST: [u8; 32] = [0xA5; 32];

/// The entry of a fresh run of the job, and the disk on which it keeps its snapshots.
pub(crate) fn entered(alloc: Global, job: &Job, shape: &Shape) -> Result<(Entry, MemDisk), NoMemory>
    requires job { IsJob job.now }
    requires shape { shape.now ≡ shape_of job.now }
    requires limits { IsShape shape.now }
    ensures start { IfOk result (λ r. IsInForm (system_of job.now) r.0.start) }
    ensures store { IfOk result (λ r. 1 ≤ job.now.settings.snapshot → HasLast r.0.start.epoch r.0.store) }
{
    entries_may_begin();
    let mut disk = MemDisk::new(alloc, 4096, &[], Vec::new(alloc), None)?;
    let snapshot = job.settings.snapshot;
    let Ok(entry) = begin_fresh(alloc, shape, &DIGEST, snapshot, &mut disk) else {
        return Err(NoMemory);
    };
    Ok((entry, disk))
}
