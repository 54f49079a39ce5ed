//! Both programs leave the same values, on each fragment of small jobs.

ghost use Rattle.std.specs.Prelude.{◌≡◌, ◌<◌, IfOk};
ghost use Rattle.graph_core.specs.Graphs.{IsGraph};
ghost use Rattle.graph_core.specs.Fragments.{fragment_of};
ghost use Rattle.pie_dist.specs.DistJobs.{IsDistJob};

use crate::Dist;
use crate::plain::PlainDist;
use fragment_cut::fragment;
use grape_port::NoMemory;
use graph_core::{Cut, Fragment, Graph, Job, Query};
use graph_text::TextFault;
use pie_core::Pie;
use program_trials::{Shape, edge, evaluated, generated, hand_of, job_of, read_graph, shaped};
use std::alloc::Global;
use std::process::Abort;
use std::test::Fail;
use value_order::Order;

/// Stops where the programs leave different values of a fragment: from the starts, or after the mirrors fell to 2^32.
fn compare(rt: &impl Abort, alloc: Global, job: &Job, part: &Fragment) -> Result<(), NoMemory>
    requires job { IsDistJob job.now }
    requires number { part.now.number < job.now.settings.fragments }
    requires part { part.now ≡ fragment_of job.now part.now.number }
{
    let dist = Dist::new();
    let mut fast = evaluated(alloc, &dist, job, part)?;
    let mut plain = evaluated(alloc, &PlainDist, job, part)?;
    assert_eq!(rt; fast.values(), plain.values());
    let mirrors = part.mirrors().len() as u32;
    let hand = hand_of(alloc, Order::Least, mirrors, 1, 4_294_967_296)?;
    dist.inceval(part, &mut fast, &hand);
    PlainDist.inceval(part, &mut plain, &hand);
    assert_eq!(rt; fast.values(), plain.values());
    Ok(())
}

/// Compares the programs on each fragment of a job.
fn compare_all(rt: &impl Abort, alloc: Global, job: &Job) -> Result<(), NoMemory>
    requires { IsDistJob job.now }
{
    let parts = fragment(alloc, job)?;
    'parts: for part in &parts {
        compare(rt, alloc, job, part)?;
    }
    Ok(())
}

/// A loop, an edge twice, weights of zero, a way back, and a vertex that no walk reaches.
fn loops(alloc: Global) -> Result<Graph, NoMemory>
    ensures { IfOk result IsGraph }
{
    Graph::build(
        alloc,
        &[(1, 0), (2, 0), (3, 0), (4, 0)],
        &[
            edge(1, 1, 0),
            edge(1, 2, 4),
            edge(1, 2, 4),
            edge(2, 3, 0),
            edge(3, 1, 7),
            edge(4, 4, 1),
        ],
    )
}

/// The largest weights along a chain.
fn chain(alloc: Global) -> Result<Graph, NoMemory>
    ensures { IfOk result IsGraph }
{
    Graph::build(
        alloc,
        &[(1, 0), (2, 0), (3, 0), (4, 0)],
        &[
            edge(1, 2, 4_294_967_295),
            edge(2, 3, 4_294_967_295),
            edge(3, 4, 4_294_967_295),
        ],
    )
}

/// Twelve edges between seven vertices, by a number: loops, edges that are repeated, weights from 0 to 4.
fn twelve_edges(alloc: Global, number: u64) -> Result<Graph, TextFault>
    ensures { IfOk result IsGraph }
{
    generated(alloc, number, 12, 7, 0..5)
}

/// Sixty edges of the largest weight, one behind the other, and a vertex that none reaches.
fn long_chain(alloc: Global) -> Result<Graph, TextFault>
    ensures { IfOk result IsGraph }
{
    let mut lines = String::from_str(alloc, "99 0 1\n")?;
    for vertex in 0..60u32 {
        let next = vertex + 1;
        let line = format!(in alloc; "{vertex} {next} 4294967295\n")?;
        lines.push_str(line.as_str())?;
    }
    read_graph(alloc, lines.as_str())
}

#[test]
fn both_programs_agree_on_generated_graphs(rt: HostRuntime) -> Result<(), Fail> {
    let alloc = rt.alloc();
    for number in 1..9 {
        for fragments in 1..4 {
            let graph = twelve_edges(alloc, number)?;
            let by_range = job_of(graph, Query::Dist(0), fragments, Cut::Range);
            compare_all(&rt, alloc, &by_range)?;
            let graph = twelve_edges(alloc, number)?;
            let by_hash = job_of(graph, Query::Dist(3), fragments, Cut::Hash);
            compare_all(&rt, alloc, &by_hash)?;
        }
    }
    let chain = job_of(long_chain(alloc)?, Query::Dist(0), 5, Cut::Hash);
    compare_all(&rt, alloc, &chain)?;
    Ok(())
}

/// Compares the programs on a shape, in one to three fragments.
fn compare_shape(rt: &impl Abort, alloc: Global, shape: Shape) -> Result<(), Fail> {
    for fragments in 1..4 {
        let by_range = job_of(
            shaped(alloc, shape, 57)?,
            Query::Dist(0),
            fragments,
            Cut::Range,
        );
        compare_all(rt, alloc, &by_range)?;
        let by_hash = job_of(
            shaped(alloc, shape, 57)?,
            Query::Dist(34),
            fragments,
            Cut::Hash,
        );
        compare_all(rt, alloc, &by_hash)?;
    }
    Ok(())
}

#[test]
fn both_programs_agree_on_shapes(rt: HostRuntime) -> Result<(), Fail> {
    compare_shape(&rt, rt.alloc(), Shape::Path)?;
    compare_shape(&rt, rt.alloc(), Shape::Grid)?;
    compare_shape(&rt, rt.alloc(), Shape::Star)?;
    Ok(())
}

#[test]
fn both_programs_agree(rt: HostRuntime) -> Result<(), Fail> {
    for fragments in 1..4 {
        let by_range = job_of(loops(rt.alloc())?, Query::Dist(1), fragments, Cut::Range);
        compare_all(&rt, rt.alloc(), &by_range)?;
        let by_hash = job_of(chain(rt.alloc())?, Query::Dist(1), fragments, Cut::Hash);
        compare_all(&rt, rt.alloc(), &by_hash)?;
    }
    Ok(())
}
