ghost use Rattle.std.specs.Prelude.{◌≡◌, ◌≤◌, ℕ, List, Option, Some, IfOk};
ghost use Rattle.grape_port.specs.Ports.{Rose, IsAllFlushed};
ghost use Rattle.graph_core.specs.Graphs.{IsJob};
ghost use Rattle.command_words.specs.declared.words.Mode.TheVariants.{Demo};
ghost use Rattle.grape_run.specs.declared.beginning.Beginning.TheVariants.{Fresh};
ghost use Rattle.grape_run.specs.Runs.{IsSilent, EndsDemo};
ghost use Rattle.grape_run.specs.Commands.{demo_job, IsDemoJob, HasRead, HasDone, Does};
ghost use Rattle.grape_run.specs.Entering.{CountsFor};

use crate::answers::{Outcome, run_job};
use crate::beginning::Beginning;
use crate::finish::Finish;
use crate::input::JobText;
use crate::status::Status;
use answer_text::{summary, write_summary};
use delay_stretch::Pacer;
use grape_disk::Disk;
use grape_port::{NoMemory, Sink};
use graph_core::{Cut, Job, Policy, Query, Settings, make_graph};
use lane_loop::Gate;
use std::alloc::Global;
use std::sync::Wait;
use std::thread::Threads;

/// The job of a demo: the distances from vertex 0 of a graph that is drawn from a number.
fn demo_job(alloc: Global, vertices: u32, number: u64) -> Result<Job, NoMemory>
    requires { (1 ≤ vertices) × (vertices ≤ 1000000) }
    ensures job { IfOk result (λ job. job ≡ demo_job vertices number) }
    ensures within { IfOk result IsJob }
{
    let graph = make_graph(alloc, vertices, number)?;
    let settings = Settings {
        fragments: 8,
        lanes: 2,
        cut: Cut::Hash,
        policy: Policy::Aap { c: 4, l: 2 },
        snapshot: 0,
    };
    let query = Query::Dist(0);
    Ok(Job {
        graph,
        query,
        settings,
    })
}

/// Makes the job of a demo, runs it, and writes what its distances come to. The disk isn't used.
pub(crate) fn run_demo<R: Threads + Wait + Sync, O: Sink, D: Disk, G: Gate + Sync>(
    rt: &R,
    alloc: Global,
    vertices: u32,
    number: u64,
    out: &mut O,
    disk: &mut D,
    pacers: Vec<Box<dyn Pacer + Send>>,
    gate: &G,
) -> Finish
    requires { (1 ≤ vertices) × (vertices ≤ 1000000) }
    ensures does { (told : Option (List ℕ)) → Does D.content D.images D.moment D.honest (Some (Demo vertices number)) result.status result.story told (O.written out.old) (O.written out.new) disk.old disk.new }
    ensures ends { EndsDemo result.status }
    ensures unused { disk.new ≡ disk.old }
    ensures flushed { result.status ≡ Status.Done → IsAllFlushed (O.written out.new) (O.flushed out.new) }
    ensures write_fault { result.status ≡ Status.WriteFault → Rose (O.faults out.old) (O.faults out.new) }
    ensures silent { IsSilent result.status → (O.written out.new ≡ O.written out.old) × (O.flushed out.new ≡ O.flushed out.old) × (O.faults out.new ≡ O.faults out.old) }
    ensures counts { CountsFor result.status (D.faults disk.old) (D.faults disk.new) }
    ensures out_faults { O.faults out.old ≤ O.faults out.new }
{
    let Ok(job) = demo_job(alloc, vertices, number) else {
        return Finish::without_story(Status::NoMemory);
    };
    // a demo has no input, and its digest is asked for by nothing
    let digest = [0; 32];
    let text = JobText { job, digest };
    finish_demo(rt, alloc, text, out, disk, pacers, gate)
}

/// The run of a demo's job, and the writing of its totals.
fn finish_demo<R: Threads + Wait + Sync, O: Sink, D: Disk, G: Gate + Sync>(
    rt: &R,
    alloc: Global,
    text: JobText,
    out: &mut O,
    disk: &mut D,
    pacers: Vec<Box<dyn Pacer + Send>>,
    gate: &G,
) -> Finish
    requires job { IsJob text.job }
    requires demo { IsDemoJob text.job }
    ensures read { HasRead result.status }
    ensures done { (v n : ℕ) → HasDone D.content D.images D.moment D.honest (Demo v n) Fresh text.job text.digest result.status result.story (O.written out.old) (O.written out.new) disk.old disk.new }
    ensures flushed { result.status ≡ Status.Done → IsAllFlushed (O.written out.new) (O.flushed out.new) }
    ensures write_fault { result.status ≡ Status.WriteFault → Rose (O.faults out.old) (O.faults out.new) }
    ensures silent { IsSilent result.status → (O.written out.new ≡ O.written out.old) × (O.flushed out.new ≡ O.flushed out.old) × (O.faults out.new ≡ O.faults out.old) }
    ensures counts { CountsFor result.status (D.faults disk.old) (D.faults disk.new) }
    ensures out_faults { O.faults out.old ≤ O.faults out.new }
{
    let (answer, story) = match run_job(rt, alloc, Beginning::Fresh, text, disk, pacers, gate) {
        Outcome::Answered { answer, story } => (answer, story),
        Outcome::Ended(finish) => return finish,
    };
    let totals = summary(&answer);
    match write_summary(&totals, out) {
        Ok(()) => Finish::with_story(Status::Done, story),
        Err(_) => Finish::with_story(Status::WriteFault, story),
    }
}
