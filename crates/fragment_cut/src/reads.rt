ghost use Rattle.std.specs.Prelude.{◌≡◌, map, IfOk};
ghost use Rattle.graph_core.specs.Graphs.{IsGraph, count_of};
ghost use Rattle.graph_core.specs.declared.query.Query.TheVariants.{Label};
ghost use Rattle.fragment_cut.specs.Filing.{table, by_source, by_target, reads_table, readers_table};

use crate::counting::turned_table;
use crate::edge_rows::targets_table;
use crate::merging::merged_table;
use grape_port::NoMemory;
use graph_core::{Graph, Job, Query, Reading, Rows};
use std::alloc::Global;

/// The edges by the vertices that they reach: for each vertex those that its edges leave. `targets` are the edges by the
/// vertices that they leave.
fn sources_of(
    alloc: Global,
    graph: &Graph,
    targets: &Rows<Reading>,
) -> Result<Rows<Reading>, NoMemory>
    requires graph { IsGraph graph.now }
    requires targets { targets.now ≡ table (map by_source graph.now.edges) (count_of graph.now) }
    ensures { IfOk result (λ made. made ≡ table (map by_target graph.now.edges) (count_of graph.now)) }
{
    turned_table(alloc, targets, graph.count())
}

/// For each vertex those that its edges leave.
fn sources_table(alloc: Global, graph: &Graph) -> Result<Rows<Reading>, NoMemory>
    requires { IsGraph graph.now }
    ensures { IfOk result (λ made. made ≡ table (map by_target graph.now.edges) (count_of graph.now)) }
{
    let targets = targets_table(alloc, graph)?;
    sources_of(alloc, graph, &targets)
}

/// For each vertex the other ends of its edges. A loop stands once.
fn ends_table(alloc: Global, graph: &Graph) -> Result<Rows<Reading>, NoMemory>
    requires { IsGraph graph.now }
    ensures { IfOk result (λ made. made ≡ reads_table graph.now Label) }
{
    let targets = targets_table(alloc, graph)?;
    let sources = sources_of(alloc, graph, &targets)?;
    merged_table(alloc, &targets, &sources)
}

/// What each vertex reads, with vertex indexes for places, in order of vertex and weight. It takes passes over the edges,
/// and no sort.
pub fn reads_table(alloc: Global, job: &Job) -> Result<Rows<Reading>, NoMemory>
    requires { IsGraph job.now.graph }
    ensures { IfOk result (λ reads. reads ≡ reads_table job.now.graph job.now.query) }
{
    match &job.query {
        Query::Dist(_) => sources_table(alloc, &job.graph),
        Query::Reach(_) => sources_table(alloc, &job.graph),
        Query::Sim(_) => targets_table(alloc, &job.graph),
        Query::Label => ends_table(alloc, &job.graph),
    }
}

/// An equal table, with room for so many readings.
fn copy_of(alloc: Global, table: &Rows<Reading>, readings: usize) -> Result<Rows<Reading>, NoMemory>
    ensures { IfOk result (λ copy. copy ≡ table.now) }
{
    let mut copy = Rows::with_capacity(alloc, table.len(), readings)?;
    for row in 0..table.len() {
        copy.push_row(table.row(row))?;
    }
    Ok(copy)
}

/// By whom each vertex is read, with vertex indexes for places, in order of reader and weight. `reads` is what each reads:
/// under `label` that is the same table.
pub fn readers_table(
    alloc: Global,
    job: &Job,
    reads: &Rows<Reading>,
) -> Result<Rows<Reading>, NoMemory>
    requires graph { IsGraph job.now.graph }
    requires reads { reads.now ≡ reads_table job.now.graph job.now.query }
    ensures { IfOk result (λ readers. readers ≡ readers_table job.now.graph job.now.query) }
{
    match &job.query {
        Query::Dist(_) => targets_table(alloc, &job.graph),
        Query::Reach(_) => targets_table(alloc, &job.graph),
        Query::Label => copy_of(alloc, reads, job.graph.edges().len()),
        Query::Sim(_) => sources_table(alloc, &job.graph),
    }
}
