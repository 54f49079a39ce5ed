//! Answers of runs, and their comparison.

ghost use Rattle.std.specs.Prelude.{◌≡◌};
ghost use Rattle.graph_core.specs.Graphs.{IsJob};
ghost use Rattle.graph_core.specs.Fragments.{fragments_of};
ghost use Rattle.token_cut.specs.Parts.{SnapshotParts};
ghost use Rattle.coordinator.specs.Runs.{HasRun};

use crate::entering::entered;
use answer_text::{Answer, assemble};
use coordinator::{Ran, run_alone, shape_of};
use delay_stretch::{Calm, Pacer};
use fragment_cut::fragment;
use graph_core::{Fragment, Job};
use graph_text::TextFault;
use std::alloc::Global;
use std::process::Abort;

/// The answer of a run, if it is done.
pub(crate) fn answer_in(
    alloc: Global,
    job: &Job,
    fragments: &[Fragment],
    ran: Ran,
) -> Result<Answer, TextFault>
    requires job { IsJob job.now }
    requires fragments { fragments.now ≡ fragments_of job.now }
    requires ran { (start : SnapshotParts) × HasRun job.now fragments.now start ran }
{
    match ran {
        Ran::Done {
            locals,
            story: _story,
        } => Ok(assemble(alloc, job, fragments, &locals)?),
        Ran::Stopped { .. } | Ran::NoMemory => Err(TextFault::NoMemory),
    }
}

/// The answer of a job, run with these pacers.
pub(crate) fn answer_of<Q: Pacer>(
    alloc: Global,
    job: &Job,
    pacers: Vec<Q>,
) -> Result<Answer, TextFault>
    requires { IsJob job.now }
{
    let fragments = fragment(alloc, job)?;
    let shape = shape_of(alloc, job, &fragments)?;
    let (entry, mut disk) = entered(alloc, job, &shape)?;
    let ran = run_alone(alloc, job, &fragments, &shape, entry, &mut disk, pacers);
    answer_in(alloc, job, &fragments, ran)
}

/// The answer of a job, run without pacers.
pub(crate) fn answer_calmly(alloc: Global, job: &Job) -> Result<Answer, TextFault>
    requires { IsJob job.now }
{
    let none: Vec<Calm> = Vec::new(alloc);
    answer_of(alloc, job, none)
}

/// Stops where an answer has other rows.
pub(crate) fn check_rows(rt: &impl Abort, answer: &Answer, want: &Answer) {
    assert_eq!(rt; answer.rows.as_slice(), want.rows.as_slice());
}
