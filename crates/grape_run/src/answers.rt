ghost use Rattle.std.specs.Prelude.{◌≡◌, ◌≤◌};
ghost use Rattle.graph_core.specs.Graphs.{IsJob};
ghost use Rattle.graph_core.specs.Fragments.{fragments_of};
ghost use Rattle.coordinator.specs.Runs.{IsStoryOf};
ghost use Rattle.grape_event.specs.declared.event.Event.TheVariants.{End};
ghost use Rattle.coordinator.specs.Runs.{EndsBy, AreLocalsOf};
ghost use Rattle.grape_run.specs.Entering.{CountsFor, HasEnded, IsLegalRan};
ghost use Rattle.grape_run.specs.Answered.{IsAnswered, IsOutcomeOf, HasMade, status_in};

use crate::beginning::Beginning;
use crate::finish::Finish;
use crate::input::JobText;
use crate::running::run_from;
use crate::status::Status;
use answer_text::{Answer, assemble};
use coordinator::{Ran, Story, done_is_quiet, done_is_the_answer, shape_of};
use delay_stretch::Pacer;
use fragment_cut::fragment;
use grape_disk::Disk;
use grape_event::StopCause;
use graph_core::{Fragment, Job};
use lane_loop::Gate;
use pie_core::Local;
use recovery::claims_add_up;
use std::alloc::Global;
use std::sync::Wait;
use std::thread::Threads;

/// What a run of a job gave.
#[derive(Drop)]
pub(crate) enum Outcome {
    /// It was done, and this is its answer.
    Answered { answer: Answer, story: Story },
    /// It ended without an answer.
    Ended(Finish),
}

/// Runs a job on the fragments of its graph, from the beginning or from the state file, and gives its answer.
pub(crate) fn run_job<R: Threads + Wait + Sync, D: Disk, G: Gate + Sync>(
    rt: &R,
    alloc: Global,
    beginning: Beginning,
    text: JobText,
    disk: &mut D,
    pacers: Vec<Box<dyn Pacer + Send>>,
    gate: &G,
) -> Outcome
    requires job { IsJob text.job }
    ensures made { HasMade D.content D.images D.moment D.honest beginning text.job text.digest result disk.old disk.new }
    ensures counts { CountsFor (status_in result) (D.faults disk.old) (D.faults disk.new) }
    ensures later { D.moment disk.old ≤ D.moment disk.new }
    ensures honest { D.honest disk.new ≡ D.honest disk.old }
{
    claims_add_up(disk);
    let JobText { job, digest } = text;
    let Ok(fragments) = fragment(alloc, &job) else {
        return Outcome::Ended(Finish::without_story(Status::NoMemory));
    };
    let Ok(shape) = shape_of(alloc, &job, &fragments) else {
        return Outcome::Ended(Finish::without_story(Status::NoMemory));
    };
    match run_from(
        rt, alloc, beginning, &job, &fragments, &shape, &digest, disk, pacers, gate,
    ) {
        Ok(ran) => outcome_of(alloc, &job, &fragments, ran),
        Err(status) => Outcome::Ended(Finish::without_story(status)),
    }
}

/// The answer of a run that was done, or how it ended without one.
fn outcome_of(alloc: Global, job: &Job, fragments: &[Fragment], ran: Ran) -> Outcome
    requires job { IsJob job.now }
    requires fragments { fragments.now ≡ fragments_of job.now }
    requires legal { IsLegalRan job.now ran }
    requires ended { HasEnded job.now fragments.now ran }
    ensures { IsOutcomeOf job.now ran result }
{
    match ran {
        Ran::Done { locals, story } => answered(alloc, job, fragments, &locals, story),
        Ran::Stopped {
            cause: StopCause::Disk,
            story,
        } => Outcome::Ended(Finish::with_story(Status::DiskFault, story)),
        Ran::Stopped {
            cause: StopCause::Memory,
            story,
        } => Outcome::Ended(Finish::with_story(Status::NoMemory, story)),
        Ran::NoMemory => Outcome::Ended(Finish::without_story(Status::NoMemory)),
    }
}

/// The answer of a run that is done.
fn answered(
    alloc: Global,
    job: &Job,
    fragments: &[Fragment],
    locals: &[Local],
    story: Story,
) -> Outcome
    requires job { IsJob job.now }
    requires fragments { fragments.now ≡ fragments_of job.now }
    requires story { IsStoryOf job.now story.start story }
    requires ended { EndsBy End story.journal.events }
    requires locals { AreLocalsOf job.now fragments.now story locals.now }
    ensures { IsAnswered job.now story result }
{
    done_is_the_answer();
    done_is_quiet();
    match assemble(alloc, job, fragments, locals) {
        Ok(answer) => Outcome::Answered { answer, story },
        Err(_) => Outcome::Ended(Finish::with_story(Status::NoMemory, story)),
    }
}
