ghost use Rattle.std.specs.Prelude.{IfOk};
ghost use Rattle.graph_core.specs.Graphs.{IsGraph};

use crate::compared::{compare_all, expect_values};
use crate::{Labels, Reach};
use grape_port::NoMemory;
use graph_core::{Cut, Fragment, Graph, Job, Query};
use graph_text::TextFault;
use message_buffer::Hand;
use program_trials::{Plain, Shape, edge, generated, job_of, read_graph, shaped, trials};
use std::alloc::Global;
use std::test::Fail;

/// A loop, an edge both ways, an edge that is gone along backwards, a lone vertex, and the largest numbers.
fn islands(alloc: Global) -> Result<Graph, NoMemory>
    ensures { IfOk result IsGraph }
{
    Graph::build(
        alloc,
        &[
            (1, 0),
            (2, 0),
            (3, 0),
            (4, 0),
            (4_294_967_294, 0),
            (4_294_967_295, 0),
        ],
        &[
            edge(2, 2, u32::MAX),
            edge(1, 2, u32::MAX),
            edge(2, 1, u32::MAX),
            edge(4, 2, u32::MAX),
            edge(4_294_967_295, 4_294_967_294, u32::MAX),
        ],
    )
}

/// Eight edges between eleven vertices, by a number: loops, edges that are repeated, and more parts than one.
fn eight_edges(alloc: Global, number: u64) -> Result<Graph, TextFault>
    ensures { IfOk result IsGraph }
{
    generated(alloc, number, 8, 11, 7..8)
}

/// Forty vertices in a ring.
fn ring(alloc: Global) -> Result<Graph, TextFault>
    ensures { IfOk result IsGraph }
{
    let mut lines = String::new(alloc);
    for vertex in 0..40u32 {
        let next = (vertex + 1) % 40;
        let line = format!(in alloc; "{vertex} {next}\n")?;
        lines.push_str(line.as_str())?;
    }
    read_graph(alloc, lines.as_str())
}

#[test]
fn leaves_the_labels_of_a_whole_graph(rt: HostRuntime) -> Result<(), Fail> {
    let job = job_of(islands(rt.alloc())?, Query::Label, 1, Cut::Range);
    let want = [1, 1, 3, 1, 4_294_967_294, 4_294_967_294];
    expect_values(&rt, rt.alloc(), &Labels::new(), &job, want.as_slice())?;
    Ok(())
}

#[test]
fn leaves_what_is_reached_of_a_whole_graph(rt: HostRuntime) -> Result<(), Fail> {
    let from_4 = job_of(islands(rt.alloc())?, Query::Reach(4), 1, Cut::Hash);
    expect_values(
        &rt,
        rt.alloc(),
        &Reach::new(),
        &from_4,
        [0, 0, 1, 0, 1, 1].as_slice(),
    )?;
    let from_3 = job_of(islands(rt.alloc())?, Query::Reach(3), 1, Cut::Range);
    expect_values(
        &rt,
        rt.alloc(),
        &Reach::new(),
        &from_3,
        [1, 1, 0, 1, 1, 1].as_slice(),
    )?;
    let from_largest = job_of(
        islands(rt.alloc())?,
        Query::Reach(4_294_967_295),
        1,
        Cut::Range,
    );
    expect_values(
        &rt,
        rt.alloc(),
        &Reach::new(),
        &from_largest,
        [1, 1, 1, 1, 0, 0].as_slice(),
    )?;
    Ok(())
}

#[test]
fn labels_agree_with_plain_evaluation(rt: HostRuntime) -> Result<(), Fail> {
    let labels = Labels::new();
    for fragments in 1..6 {
        let by_range = job_of(islands(rt.alloc())?, Query::Label, fragments, Cut::Range);
        compare_all(&rt, rt.alloc(), &labels, &by_range, 2)?;
        let by_hash = job_of(ring(rt.alloc())?, Query::Label, fragments, Cut::Hash);
        compare_all(&rt, rt.alloc(), &labels, &by_hash, 17)?;
    }
    for number in 1..9 {
        for fragments in 1..6 {
            let by_range = job_of(
                eight_edges(rt.alloc(), number)?,
                Query::Label,
                fragments,
                Cut::Range,
            );
            compare_all(&rt, rt.alloc(), &labels, &by_range, 3)?;
            let by_hash = job_of(
                eight_edges(rt.alloc(), number)?,
                Query::Label,
                fragments,
                Cut::Hash,
            );
            compare_all(&rt, rt.alloc(), &labels, &by_hash, 0)?;
        }
    }
    Ok(())
}

#[test]
fn reachability_agrees_with_plain_evaluation(rt: HostRuntime) -> Result<(), Fail> {
    let reach = Reach::new();
    for fragments in 1..6 {
        let by_range = job_of(islands(rt.alloc())?, Query::Reach(4), fragments, Cut::Range);
        compare_all(&rt, rt.alloc(), &reach, &by_range, 0)?;
        let by_hash = job_of(ring(rt.alloc())?, Query::Reach(9), fragments, Cut::Hash);
        compare_all(&rt, rt.alloc(), &reach, &by_hash, 0)?;
    }
    for number in 1..9 {
        for fragments in 1..6 {
            let by_range = job_of(
                eight_edges(rt.alloc(), number)?,
                Query::Reach(0),
                fragments,
                Cut::Range,
            );
            compare_all(&rt, rt.alloc(), &reach, &by_range, 1)?;
            let by_hash = job_of(
                eight_edges(rt.alloc(), number)?,
                Query::Reach(0),
                fragments,
                Cut::Hash,
            );
            compare_all(&rt, rt.alloc(), &reach, &by_hash, 0)?;
        }
    }
    Ok(())
}

#[test]
fn shapes_agree_with_plain_evaluation(rt: HostRuntime) -> Result<(), Fail> {
    let alloc = rt.alloc();
    for shape in [Shape::Path, Shape::Grid, Shape::Star] {
        for fragments in 1..4 {
            let labels = job_of(
                shaped(alloc, shape, 57)?,
                Query::Label,
                fragments,
                Cut::Hash,
            );
            compare_all(&rt, alloc, &Labels::new(), &labels, 17)?;
            let reach = job_of(
                shaped(alloc, shape, 57)?,
                Query::Reach(34),
                fragments,
                Cut::Range,
            );
            compare_all(&rt, alloc, &Reach::new(), &reach, 0)?;
        }
    }
    Ok(())
}

/// Leaves all values as they are.
struct Still;

impl Plain for Still {
    fn evaluate(&self, _job: &Job, _part: &Fragment, _values: &mut [u64]) {}

    fn meet(&self, _part: &Fragment, _values: &mut [u64], _hand: &Hand) {}
}

#[test]
fn trials_tell_values_apart(rt: HostRuntime) -> Result<(), Fail> {
    let job = job_of(islands(rt.alloc())?, Query::Label, 2, Cut::Range);
    let trials = trials(rt.alloc(), &Labels::new(), &Still, &job, 0)?;
    assert_eq!(rt; trials.len(), 4);
    for trial in &trials {
        assert!(rt; trial.program.as_slice() != trial.plain.as_slice());
    }
    Ok(())
}
