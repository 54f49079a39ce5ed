//! The program leaves what plain evaluation leaves, on each fragment of a job.

ghost use Rattle.std.specs.Prelude.{◌≡◌, ◌≢◌, ◌≤◌, IfOk};
ghost use Rattle.value_order.specs.declared.TheConstants.{NOTHING};
ghost use Rattle.graph_core.specs.Graphs.{IsGraph, IsPattern};

use crate::Sim;
use crate::plain::PlainSim;
use grape_port::NoMemory;
use graph_core::{Cut, Graph, Pattern, PatternLink, PatternNode, Query};
use program_trials::{evaluated_whole, job_of, trials};
use std::alloc::Global;
use std::process::Abort;

/// The pattern of these nodes and links.
fn pattern_of(
    alloc: Global,
    nodes: &[PatternNode],
    links: &[PatternLink],
) -> Result<Pattern, NoMemory>
    ensures { IfOk result (λ pattern. pattern ≡ record { nodes = nodes.now; links = links.now }) }
{
    Ok(Pattern {
        nodes: Vec::from_slice(alloc, nodes)?,
        links: Vec::from_slice(alloc, links)?,
    })
}

/// Stops where the program and plain evaluation leave different values of a fragment of a job: from the starts, or after
/// every second mirror fell by a value.
pub fn compare_all(
    rt: &impl Abort,
    alloc: Global,
    graph: Graph,
    asked: (&[PatternNode], &[PatternLink]),
    fragments: u32,
    cut: Cut,
    value: u64,
) -> Result<(), NoMemory>
    requires graph { IsGraph graph }
    requires pattern { IsPattern (record { nodes = asked.0.now; links = asked.1.now }) }
    requires some { 1 ≤ fragments }
    requires few { fragments ≤ 64 }
    requires value { value ≢ NOTHING }
{
    let pattern = pattern_of(alloc, asked.0, asked.1)?;
    let sim = Sim::new(alloc, &pattern)?;
    let job = job_of(graph, Query::Sim(pattern), fragments, cut);
    for trial in &trials(alloc, &sim, &PlainSim, &job, value)? {
        assert_eq!(rt; trial.program.as_slice(), trial.plain.as_slice());
    }
    Ok(())
}

/// Stops where the program doesn't leave these values of a whole graph.
pub fn expect_values(
    rt: &impl Abort,
    alloc: Global,
    graph: Graph,
    asked: (&[PatternNode], &[PatternLink]),
    want: &[u64],
) -> Result<(), NoMemory>
    requires graph { IsGraph graph }
    requires pattern { IsPattern (record { nodes = asked.0.now; links = asked.1.now }) }
{
    let pattern = pattern_of(alloc, asked.0, asked.1)?;
    let sim = Sim::new(alloc, &pattern)?;
    let job = job_of(graph, Query::Sim(pattern), 1, Cut::Range);
    let local = evaluated_whole(alloc, &sim, &job)?;
    assert_eq!(rt; local.values(), want);
    Ok(())
}
