//! A program leaves what plain evaluation leaves, on each fragment of a job.

ghost use Rattle.std.specs.Prelude.{◌≡◌, ◌≢◌};
ghost use Rattle.value_order.specs.declared.TheConstants.{NOTHING};
ghost use Rattle.graph_core.specs.Graphs.{IsJob};

use crate::plain::PlainFlood;
use grape_port::NoMemory;
use graph_core::Job;
use pie_core::Pie;
use program_trials::{evaluated_whole, trials};
use std::alloc::Global;
use std::process::Abort;

/// Stops where a program and plain evaluation leave different values of a fragment of a job: from the starts, or after
/// every second mirror fell to a value.
pub fn compare_all<P: Pie>(
    rt: &impl Abort,
    alloc: Global,
    program: &P,
    job: &Job,
    value: u64,
) -> Result<(), NoMemory>
    requires job { IsJob job.now }
    requires is_for { P.is_for program.now job.now }
    requires value { value ≢ NOTHING }
{
    for trial in &trials(alloc, program, &PlainFlood, job, value)? {
        assert_eq!(rt; trial.program.as_slice(), trial.plain.as_slice());
    }
    Ok(())
}

/// Stops where a program doesn't leave these values of the only fragment of a job.
pub fn expect_values<P: Pie>(
    rt: &impl Abort,
    alloc: Global,
    program: &P,
    job: &Job,
    want: &[u64],
) -> Result<(), NoMemory>
    requires job { IsJob job.now }
    requires is_for { P.is_for program.now job.now }
    requires one { job.now.settings.fragments ≡ 1 }
{
    let local = evaluated_whole(alloc, program, job)?;
    assert_eq!(rt; local.values(), want);
    Ok(())
}
