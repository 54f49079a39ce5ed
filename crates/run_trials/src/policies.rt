//! A job has one answer, whatever the policy, the cut, the number of fragments and the pacers.

ghost use Rattle.graph_core.specs.Graphs.{IsJob};

use crate::answers::{answer_calmly, answer_of, check_rows};
use crate::inputs::{cycle, grid, job_of, labelled, query_table, star};
use crate::pacers::{scripts, seeds};
use answer_text::{Answer, write_answer};
use grape_port::{MemSink, NoMemory};
use graph_core::Job;
use graph_text::TextFault;
use std::alloc::Global;
use std::process::Abort;
use std::test::Fail;

fn policy_table() -> [&'static str; 4] {
    [
        "policy bsp\n",
        "policy ap\n",
        "policy ssp 1\n",
        "policy aap 2 2\n",
    ]
}

fn cut_table() -> [&'static str; 8] {
    [
        "fragments 1\ncut range\n",
        "fragments 1\ncut hash\n",
        "fragments 2\ncut range\n",
        "fragments 2\ncut hash\n",
        "fragments 3\ncut range\n",
        "fragments 3\ncut hash\n",
        "fragments 7\ncut range\n",
        "fragments 7\ncut hash\n",
    ]
}

/// A way of three vertices, and a longer edge past the second.
fn detour() -> &'static str {
    "1 2 5\n2 3 1\n1 3 9\n"
}

fn detour_answer() -> &'static [u8] {
    b"answer dist 3\n1 0\n2 5\n3 6\nend\n"
}

/// Stops where a job has another answer with some pacers.
fn check_pacers(rt: &impl Abort, alloc: Global, job: &Job, want: &Answer) -> Result<(), TextFault>
    requires { IsJob job.now }
{
    check_rows(rt, &answer_calmly(alloc, job)?, want);
    check_rows(rt, &answer_of(alloc, job, seeds(alloc, 7)?)?, want);
    check_rows(rt, &answer_of(alloc, job, scripts(alloc, 7, 100)?)?, want);
    Ok(())
}

/// Stops where a query has another answer under some settings.
fn check_settings(
    rt: &impl Abort,
    alloc: Global,
    query: &str,
    lines: &str,
    want: &Answer,
) -> Result<(), TextFault> {
    for policy in policy_table() {
        for cut in cut_table() {
            let settings = joined(alloc, policy, cut)?;
            let job = job_of(alloc, settings.as_str(), query, lines)?;
            check_pacers(rt, alloc, &job, want)?;
        }
    }
    Ok(())
}

/// Stops where a query on these lines has another answer than on one fragment without pacers.
fn check_queries(rt: &impl Abort, alloc: Global, lines: &str) -> Result<(), TextFault> {
    for query in query_table() {
        let job = job_of(alloc, "fragments 1\n", query, lines)?;
        let want = answer_calmly(alloc, &job)?;
        check_settings(rt, alloc, query, lines, &want)?;
    }
    Ok(())
}

fn joined(alloc: Global, front: &str, back: &str) -> Result<String, NoMemory> {
    let mut text = String::from_str(alloc, front)?;
    text.push_str(back)?;
    Ok(text)
}

#[test]
fn one_answer_to_a_job(rt: HostRuntime) -> Result<(), Fail> {
    let alloc = rt.alloc();
    check_queries(&rt, alloc, labelled(alloc, cycle(alloc, 9)?, 9)?.as_str())?;
    check_queries(&rt, alloc, labelled(alloc, star(alloc, 9)?, 8)?.as_str())?;
    check_queries(&rt, alloc, labelled(alloc, grid(alloc, 4)?, 40)?.as_str())?;
    Ok(())
}

/// Stops where the answer is printed otherwise.
fn check_bytes(rt: &impl Abort, alloc: Global, answer: &Answer) -> Result<(), NoMemory> {
    let mut out = MemSink::new(alloc, 4096, 7, Vec::new(alloc))?;
    assert!(rt; write_answer(answer, &mut out).is_ok());
    assert_eq!(rt; out.bytes(), detour_answer());
    Ok(())
}

/// However late the workers go on, the worked answer is printed.
#[test]
fn delays_change_no_byte(rt: HostRuntime) -> Result<(), Fail> {
    let alloc = rt.alloc();
    for policy in policy_table() {
        let settings = joined(alloc, policy, "fragments 3\n")?;
        let job = job_of(alloc, settings.as_str(), "query dist 1\n", detour())?;
        check_bytes(&rt, alloc, &answer_calmly(alloc, &job)?)?;
        let pacers = scripts(alloc, 64, 1000)?;
        check_bytes(&rt, alloc, &answer_of(alloc, &job, pacers)?)?;
    }
    Ok(())
}
