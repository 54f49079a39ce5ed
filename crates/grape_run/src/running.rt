ghost use Rattle.std.specs.Prelude.{◌≡◌, ◌≤◌, IsTrue};
ghost use Rattle.graph_core.specs.Graphs.{IsJob};
ghost use Rattle.graph_core.specs.Fragments.{fragments_of};
ghost use Rattle.base_machine.specs.Machine.{system_of};
ghost use Rattle.base_machine.specs.Fitness.{IsInForm};
ghost use Rattle.token_cut.specs.Shapes.{IsShape};
ghost use Rattle.coordinator.specs.Shapes.{shape_of};
ghost use Rattle.coordinator.specs.Runs.{HasRun, KeepsNothing, HasLast, HasUsed, KeepsBy};
ghost use Rattle.grape_run.specs.Entering.{CountsFor, RanCounts, HasTried, status_after};

use crate::beginning::Beginning;
use crate::entering::enter;
use crate::status::Status;
use coordinator::{Entry, Ran, run_alone, run_lanes};
use delay_stretch::Pacer;
use grape_disk::Disk;
use graph_core::{Fragment, Job};
use lane_loop::Gate;
use recovery::claims_add_up;
use std::alloc::Global;
use std::sync::Wait;
use std::thread::Threads;
use token_cut::Shape;

/// Enters the run of a job, and runs it on these fragments.
pub(crate) fn run_from<R: Threads + Wait + Sync, D: Disk, G: Gate + Sync>(
    rt: &R,
    alloc: Global,
    beginning: Beginning,
    job: &Job,
    fragments: &[Fragment],
    shape: &Shape,
    digest: &[u8; 32],
    disk: &mut D,
    pacers: Vec<Box<dyn Pacer + Send>>,
    gate: &G,
) -> Result<Ran, Status>
    requires job { IsJob job.now }
    requires fragments { fragments.now ≡ fragments_of job.now }
    requires shape { shape.now ≡ shape_of job.now }
    requires limits { IsShape shape.now }
    ensures tried { HasTried D.content D.images D.moment D.honest beginning job.now digest.now fragments.now result disk.old disk.new }
    ensures counts { CountsFor (status_after result) (D.faults disk.old) (D.faults disk.new) }
    ensures later { D.moment disk.old ≤ D.moment disk.new }
    ensures honest { D.honest disk.new ≡ D.honest disk.old }
{
    claims_add_up(disk);
    let entry = match enter(alloc, beginning, job, shape, digest, disk) {
        Ok(entry) => entry,
        Err(status) => return Err(status),
    };
    let ran = ran_by(rt, alloc, job, fragments, shape, entry, disk, pacers, gate);
    Ok(ran)
}

/// The run by as many lanes as the job says. On one lane it runs on the caller's thread, and the gate isn't asked.
fn ran_by<R: Threads + Wait + Sync, D: Disk, G: Gate + Sync>(
    rt: &R,
    alloc: Global,
    job: &Job,
    fragments: &[Fragment],
    shape: &Shape,
    entry: Entry,
    disk: &mut D,
    pacers: Vec<Box<dyn Pacer + Send>>,
    gate: &G,
) -> Ran
    requires job { IsJob job.now }
    requires fragments { fragments.now ≡ fragments_of job.now }
    requires shape { shape.now ≡ shape_of job.now }
    requires start { IsInForm (system_of job.now) entry.start }
    requires store { 1 ≤ job.now.settings.snapshot → HasLast entry.start.epoch entry.store }
    ensures run { HasRun job.now fragments.now entry.start result }
    ensures used { HasUsed D.moment D.honest job.now disk.old disk.new }
    ensures unkept { job.now.settings.snapshot ≡ 0 → KeepsNothing result }
    ensures crash { IsTrue (D.honest disk.old) → KeepsBy D.content D.images D.moment job.now entry.store result disk.old disk.new }
    ensures counts { RanCounts result (D.faults disk.old) (D.faults disk.new) }
{
    if job.settings.lanes > 1 {
        run_lanes(rt, alloc, job, fragments, shape, entry, disk, pacers, gate)
    } else {
        run_alone(alloc, job, fragments, shape, entry, disk, pacers)
    }
}
