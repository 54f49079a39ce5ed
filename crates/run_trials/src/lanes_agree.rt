//! Whatever the number of lanes, a job has the values that one lane gives.

ghost use Rattle.graph_core.specs.Graphs.{IsJob};

use crate::answers::{answer_calmly, answer_in, check_rows};
use crate::entering::entered;
use crate::inputs::{drawn, job_of, query_table};
use crate::pacers::seeds;
use answer_text::Answer;
use coordinator::{run_lanes, shape_of};
use fragment_cut::fragment;
use graph_core::Job;
use graph_text::TextFault;
use lane_loop::OpenGate;
use rand_core::SeedableRng;
use rand_xoshiro::SplitMix64;
use std::alloc::Global;
use std::process::Abort;
use std::sync::Wait;
use std::test::Fail;
use std::thread::Threads;

/// The answer of a job that runs on all its lanes.
fn answer_on_lanes<R: Threads + Wait + Sync>(
    rt: &R,
    alloc: Global,
    job: &Job,
) -> Result<Answer, TextFault>
    requires { IsJob job.now }
{
    let fragments = fragment(alloc, job)?;
    let shape = shape_of(alloc, job, &fragments)?;
    let pacers = seeds(alloc, 4)?;
    let (entry, mut disk) = entered(alloc, job, &shape)?;
    let ran = run_lanes(
        rt, alloc, job, &fragments, &shape, entry, &mut disk, pacers, &OpenGate,
    );
    answer_in(alloc, job, &fragments, ran)
}

fn settings_table() -> [&'static str; 6] {
    [
        "fragments 2\nlanes 2\npolicy ap\n",
        "fragments 3\nlanes 2\npolicy bsp\ncut hash\n",
        "fragments 8\nlanes 3\npolicy aap 2 2\n",
        "fragments 5\nlanes 4\npolicy ssp 1\ncut hash\n",
        "fragments 8\nlanes 8\npolicy bsp\n",
        "fragments 16\nlanes 16\npolicy ap\ncut hash\n",
    ]
}

/// Stops where a query on these lines has another answer on some lanes than on one.
fn check_lanes<R: Abort + Threads + Wait + Sync>(
    rt: &R,
    alloc: Global,
    query: &str,
    lines: &str,
) -> Result<(), TextFault> {
    let one = job_of(alloc, "fragments 3\nlanes 1\n", query, lines)?;
    let want = answer_calmly(alloc, &one)?;
    for settings in settings_table() {
        let job = job_of(alloc, settings, query, lines)?;
        check_rows(rt, &answer_on_lanes(rt, alloc, &job)?, &want);
    }
    Ok(())
}

#[test]
fn lanes_give_the_answer_of_one(rt: HostRuntime) -> Result<(), Fail> {
    let alloc = rt.alloc();
    let mut words = SplitMix64::seed_from_u64(7);
    for round in 0..12 {
        let lines = drawn(alloc, &mut words, 20 + round * 3)?;
        for query in query_table() {
            check_lanes(&rt, alloc, query, lines.as_str())?;
        }
    }
    Ok(())
}
