//! Counts what a run does: `count_falls < INPUT` writes a line `takes T falls F events E posts P`.
//!
//! It reads an input as `grape run` does, and drives the job's hub in the order of `run_alone`, with the program's pacers,
//! until the journal has ended. `T` is how many Takes there were, `F` how many owned values were lower at a Give than at
//! its Take, `E` how many events the journal has, and `P` to how many mirrors those values were sent. The input's settings
//! hold, but one lane serves whatever its `lanes` line says, and an input with snapshots is refused. Where nothing was
//! counted it ends with 1, and says why on standard error.
//!
//! Nothing of it is part of the program `grape`, and nothing is claimed of what it counts.
#![tactic(auto)]

mod counts;
mod driving;
mod fault;
mod reading;

use crate::counts::Counts;
use crate::driving::count_run;
use crate::fault::Fault;
use crate::reading::read_job;
use grape_port::{Source, StdSource};
use std::alloc::Global;
use std::process::ExitCode;

/// What the run of an input does.
fn count<S: Source>(alloc: Global, input: &mut S) -> Result<Counts, Fault> {
    let job = read_job(alloc, input)?;
    match count_run(alloc, &job) {
        Ok(counts) => Ok(counts),
        Err(_) => Err(Fault::NoMemory),
    }
}

fn main(rt: HostRuntime) -> ExitCode {
    let fault = match count(rt.alloc(), &mut StdSource::new(rt.stdin())) {
        Ok(counts) => {
            let Counts {
                takes,
                falls,
                events,
                posts,
            } = counts;
            if println!(rt; "takes {takes} falls {falls} events {events} posts {posts}").is_ok() {
                return ExitCode::SUCCESS;
            }
            Fault::Unwritten
        }
        Err(fault) => fault,
    };
    let _told = eprintln!(rt; "count_falls: {}", fault.text());
    ExitCode::from(1)
}
