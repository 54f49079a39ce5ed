//! The graphs of the tests.

ghost use Rattle.std.specs.Prelude.{IfOk};
ghost use Rattle.graph_core.specs.Graphs.{IsGraph};

use grape_port::NoMemory;
use graph_core::Graph;
use program_trials::{drawn_edges, edge};
use std::alloc::Global;

/// Four vertices with the labels 1 and 2 in turn, one behind the other.
pub fn open_cycle(alloc: Global) -> Result<Graph, NoMemory>
    ensures { IfOk result IsGraph }
{
    Graph::build(
        alloc,
        &[(1, 1), (2, 2), (3, 1), (4, 2)],
        &[edge(1, 2, 1), edge(2, 3, 1), edge(3, 4, 1)],
    )
}

/// The same with the edge that closes the cycle.
pub fn closed_cycle(alloc: Global) -> Result<Graph, NoMemory>
    ensures { IfOk result IsGraph }
{
    Graph::build(
        alloc,
        &[(1, 1), (2, 2), (3, 1), (4, 2)],
        &[edge(1, 2, 1), edge(2, 3, 1), edge(3, 4, 1), edge(4, 1, 1)],
    )
}

/// Vertex 1 leads to a vertex with the label 2 and to one with the label 3, and vertex 4 to the former alone.
pub fn fork(alloc: Global) -> Result<Graph, NoMemory>
    ensures { IfOk result IsGraph }
{
    Graph::build(
        alloc,
        &[(1, 1), (2, 2), (3, 3), (4, 1)],
        &[edge(1, 2, 1), edge(1, 3, 1), edge(4, 2, 1), edge(4, 2, 1)],
    )
}

/// Vertices with the label 7: three in a row, one with a loop, and one that leads to that one.
pub fn row_and_loop(alloc: Global) -> Result<Graph, NoMemory>
    ensures { IfOk result IsGraph }
{
    Graph::build(
        alloc,
        &[(1, 7), (2, 7), (3, 7), (4, 7), (4_294_967_295, 7)],
        &[
            edge(1, 2, 1),
            edge(2, 3, 1),
            edge(4, 4, 1),
            edge(4_294_967_295, 4, 1),
        ],
    )
}

/// Fourteen edges between seven vertices with three labels, by a number: loops, edges that are repeated, and vertices
/// that nothing leaves.
pub fn generated(alloc: Global, number: u64) -> Result<Graph, NoMemory>
    ensures { IfOk result IsGraph }
{
    let edges = drawn_edges(alloc, number, 14, 7, 1..2)?;
    let vertices = [(0, 1), (1, 2), (2, 1), (3, 2), (4, 1), (5, 2), (6, 3)];
    Graph::build(alloc, &vertices, &edges)
}

/// Vertices with the label 7: a path from 2 to 7, and vertex 1, which leads to each of the path twice.
pub fn hub_of_a_path(alloc: Global) -> Result<Graph, NoMemory>
    ensures { IfOk result IsGraph }
{
    Graph::build(
        alloc,
        &[(1, 7), (2, 7), (3, 7), (4, 7), (5, 7), (6, 7), (7, 7)],
        &[
            edge(1, 2, 1),
            edge(1, 2, 1),
            edge(1, 3, 1),
            edge(1, 3, 2),
            edge(1, 4, 1),
            edge(1, 4, 1),
            edge(1, 5, 1),
            edge(1, 5, 2),
            edge(1, 6, 1),
            edge(1, 6, 1),
            edge(1, 7, 1),
            edge(1, 7, 1),
            edge(2, 3, 1),
            edge(3, 4, 1),
            edge(4, 5, 1),
            edge(5, 6, 1),
            edge(6, 7, 1),
        ],
    )
}

/// A grid of three rows of three vertices with the labels 1 and 2 in turn, whose edges lead right and down, and one
/// from 3 back to 2.
pub fn grid(alloc: Global) -> Result<Graph, NoMemory>
    ensures { IfOk result IsGraph }
{
    Graph::build(
        alloc,
        &[
            (1, 1),
            (2, 2),
            (3, 1),
            (4, 2),
            (5, 1),
            (6, 2),
            (7, 1),
            (8, 2),
            (9, 1),
        ],
        &[
            edge(1, 2, 1),
            edge(2, 3, 1),
            edge(4, 5, 1),
            edge(5, 6, 1),
            edge(7, 8, 1),
            edge(8, 9, 1),
            edge(1, 4, 1),
            edge(4, 7, 1),
            edge(2, 5, 1),
            edge(5, 8, 1),
            edge(3, 6, 1),
            edge(6, 9, 1),
            edge(3, 2, 1),
        ],
    )
}
