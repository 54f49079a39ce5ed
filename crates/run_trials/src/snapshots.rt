//! Runs on two lanes with snapshots, and runs that begin with what they sealed.

ghost use Rattle.std.specs.Prelude.{◌≡◌, ◌≤◌, All};
ghost use Rattle.graph_core.specs.Graphs.{IsJob};
ghost use Rattle.graph_core.specs.Fragments.{fragments_of};
ghost use Rattle.base_machine.specs.Machine.{system_of};
ghost use Rattle.base_machine.specs.Fitness.{IsInForm};

use crate::answers::{answer_calmly, check_rows};
use crate::driver::driven;
use crate::inputs::{cycle, job_of, joined_lines, labelled, query_table, star};
use crate::seen::{Seen, saw_all};
use answer_text::Answer;
use coordinator::shape_of;
use fragment_cut::fragment;
use grape_event::Journal;
use graph_core::{Fragment, Job};
use graph_text::TextFault;
use std::alloc::Global;
use std::process::Abort;
use std::test::Fail;
use token_cut::Snapshot;

/// The same job with a snapshot after every so many Takes.
fn with_snapshots(job: Job, every: u32) -> Job
    requires { IsJob job }
    ensures { IsJob result }
{
    let mut job = job;
    job.settings.snapshot = every;
    job
}

/// Stops where a run from one of these snapshots has another answer.
fn resume_each(
    rt: &impl Abort,
    alloc: Global,
    job: &Job,
    fragments: &[Fragment],
    kept: Vec<Snapshot>,
    seed: u64,
    want: &Answer,
) -> Result<(), TextFault>
    requires job { IsJob job.now }
    requires fragments { fragments.now ≡ fragments_of job.now }
    requires lanes { 2 ≤ job.now.settings.lanes }
    requires kept { All (λ s. IsInForm (system_of job.now) s) kept.items }
{
    'kept: for snapshot in kept {
        let (again, _journal, _kept) = driven(alloc, job, fragments, snapshot, seed)?;
        check_rows(rt, &again, want);
    }
    Ok(())
}

/// Stops where a run of a job, or one from a snapshot that it seals, has another answer.
fn check_run(
    rt: &impl Abort,
    alloc: Global,
    job: &Job,
    seed: u64,
    want: &Answer,
) -> Result<Journal, TextFault>
    requires job { IsJob job.now }
    requires lanes { 2 ≤ job.now.settings.lanes }
{
    let fragments = fragment(alloc, job)?;
    let shape = shape_of(alloc, job, &fragments)?;
    let start = Snapshot::fresh(alloc, &shape)?;
    let (answer, journal, kept) = driven(alloc, job, &fragments, start, seed)?;
    check_rows(rt, &answer, want);
    resume_each(rt, alloc, job, &fragments, kept, seed, want)?;
    Ok(journal)
}

/// Tries a query on these lines with a snapshot after every so many Takes, from three seeds. Says what was seen, with
/// what was seen before.
fn check_settings(
    rt: &impl Abort,
    alloc: Global,
    query: &str,
    lines: &str,
    every: u32,
    seen: Seen,
) -> Result<Seen, TextFault> {
    let settings = "fragments 3\ncut range\nlanes 2\n";
    let calm = job_of(alloc, settings, query, lines)?;
    let want = answer_calmly(alloc, &calm)?;
    let job = with_snapshots(calm, every);
    assert!(rt; job.settings.lanes >= 2);
    let mut seen = seen;
    for seed in 0..3 {
        let journal = check_run(rt, alloc, &job, seed, &want)?;
        seen = saw_all(seen, &journal);
    }
    Ok(seen)
}

/// Tries all queries on these lines, with snapshots after few Takes and after more.
fn check_lines(rt: &impl Abort, alloc: Global, lines: &str, seen: Seen) -> Result<Seen, TextFault> {
    let mut seen = seen;
    for query in query_table() {
        for every in [1, 2, 3, 5] {
            seen = check_settings(rt, alloc, query, lines, every, seen)?;
        }
    }
    Ok(seen)
}

#[test]
fn snapshots_give_the_answer(rt: HostRuntime) -> Result<(), Fail> {
    let alloc = rt.alloc();
    let seen = Seen {
        snapshots: 0,
        marked: 0,
        unmarked: 0,
    };
    let seen = check_lines(&rt, alloc, joined_lines(), seen)?;
    let seen = check_lines(
        &rt,
        alloc,
        labelled(alloc, cycle(alloc, 6)?, 6)?.as_str(),
        seen,
    )?;
    let seen = check_lines(
        &rt,
        alloc,
        labelled(alloc, star(alloc, 6)?, 5)?.as_str(),
        seen,
    )?;
    assert!(rt; seen.snapshots > 0);
    assert!(rt; seen.marked > 0);
    assert!(rt; seen.unmarked > 0);
    Ok(())
}
