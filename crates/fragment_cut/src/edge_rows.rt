ghost use Rattle.std.specs.Prelude.{◌≡◌, ◌<◌, ◌≤◌, ◌≢◌, ℕ, map, length, IfOk, OnOk, All, slice_index_or};
ghost use Rattle.std.specs.List.Sorted.{IsNonDecreasingBy};
ghost use Rattle.graph_core.specs.Graphs.{count_of, IsGraph};
ghost use Rattle.graph_core.specs.declared.edge.Edge.{Edge};
ghost use Rattle.fragment_cut.specs.Filing.{table, rows_under, reading_of, by_source};

use grape_port::NoMemory;
use graph_core::{Edge, Graph, Reading, Rows};
use std::alloc::Global;

/// Puts the targets of these edges, with their weights, in place of what the row holds.
fn read_targets(edges: &[Edge], row: &mut Vec<Reading>) -> Result<(), NoMemory>
    ensures { OnOk result (row.new.items ≡ map (λ e. reading_of (by_source e)) edges.now) }
{
    row.clear();
    for edge in edges {
        row.push(Reading {
            place: edge.to,
            weight: edge.weight,
        })?;
    }
    Ok(())
}

/// The first index from `start` on whose edge leaves another vertex.
fn end_of(edges: &[Edge], start: usize, vertex: u32) -> usize
    requires { start ≤ length edges.now }
    ensures from { start ≤ result }
    ensures within { result ≤ length edges.now }
    ensures same { (k : ℕ) (d : Edge) → start ≤ k → k < result → (slice_index_or edges.now k d).from ≡ vertex }
    ensures other { (d : Edge) → result < length edges.now → (slice_index_or edges.now result d).from ≢ vertex }
{
    let mut end = start;
    while end < edges.len() && edges[end].from == vertex {
        end += 1;
    }
    end
}

/// The rows of edges that stand in rising order of the vertices that they leave.
fn rows_of(alloc: Global, edges: &[Edge], rows: u32) -> Result<Rows<Reading>, NoMemory>
    requires rising { IsNonDecreasingBy (λ entry. entry.row) (map by_source edges.now) }
    requires in_range { All (λ e. e.from < rows) edges.now }
    ensures { IfOk result (λ made. made ≡ rows_under (map by_source edges.now) rows) }
{
    let mut readings = Vec::new(alloc);
    let mut made = Rows::with_capacity(alloc, rows as usize, edges.len())?;
    let mut start = 0;
    for row in 0..rows {
        let end = end_of(edges, start, row);
        read_targets(&edges[start..end], &mut readings)?;
        made.push_row(&readings)?;
        start = end;
    }
    Ok(made)
}

/// Where the edges of each vertex lead, with their weights, in order. It takes one pass over the edges.
pub fn targets_table(alloc: Global, graph: &Graph) -> Result<Rows<Reading>, NoMemory>
    requires { IsGraph graph.now }
    ensures { IfOk result (λ made. made ≡ table (map by_source graph.now.edges) (count_of graph.now)) }
{
    rows_of(alloc, graph.edges(), graph.count())
}
