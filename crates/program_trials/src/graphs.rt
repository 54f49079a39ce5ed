ghost use Rattle.std.specs.Prelude.{◌≡◌, ◌<◌, ◌≤◌, length, All, IfOk};
ghost use Rattle.graph_core.specs.Graphs.{IsGraph};

use grape_port::NoMemory;
use graph_core::{Edge, Graph, Job};
use graph_text::{LineReader, TextFault};
use std::alloc::Global;
use std::ops::Range;

/// An edge between two vertices, by their numbers.
pub fn edge(from: u32, to: u32, weight: u32) -> Edge
    ensures { result ≡ record { from = from; to = to; weight = weight } }
{
    Edge { from, to, weight }
}

/// The graph of these edge lines, and of a loop of weight 0 at the vertex 0. It has the vertices that stand in them.
/// `Bad` comes where a line is no edge line within the limits, and `NoMemory` where memory runs out.
pub fn read_graph(alloc: Global, lines: &str) -> Result<Graph, TextFault>
    ensures { IfOk result IsGraph }
{
    let mut reader = LineReader::new(alloc)?;
    reader.feed(b"query dist 0\n0 0 0\n")?;
    reader.feed(lines.as_bytes())?;
    let Job {
        graph,
        query: _,
        settings: _,
    } = reader.finish()?;
    Ok(graph)
}

/// The edge of a word: its bits from 33, 40 and 50 on say from where, to where, and of which weight.
fn edge_of(word: u64, vertices: u32, weights: &Range<u32>) -> Edge
    requires vertices { 1 ≤ vertices }
    requires weights { weights.now.start < weights.now.end }
    ensures { (result.from < vertices) × (result.to < vertices) × (weights.now.start ≤ result.weight) × (result.weight < weights.now.end) }
{
    let from = (word >> 33) % u64::from(vertices);
    let to = (word >> 40) % u64::from(vertices);
    let weight = (word >> 50) % u64::from(weights.end - weights.start);
    edge(from as u32, to as u32, weights.start + weight as u32)
}

/// Edges between the vertices from 0 up to before `vertices`, of these weights, drawn by a number: loops, and edges
/// that are repeated. There is at least one vertex, and at least one weight.
pub fn drawn_edges(
    alloc: Global,
    number: u64,
    count: u32,
    vertices: u32,
    weights: Range<u32>,
) -> Result<Vec<Edge>, NoMemory>
    requires vertices { 1 ≤ vertices }
    requires weights { weights.start < weights.end }
    ensures between { IfOk result (λ edges. All (λ e. (e.from < vertices) × (e.to < vertices) × (weights.start ≤ e.weight) × (e.weight < weights.end)) edges.items) }
    ensures count { IfOk result (λ edges. length edges.items ≡ count) }
{
    let mut edges = Vec::new(alloc);
    let mut word = number;
    'edges: for _ in 0..count {
        word = word
            .wrapping_mul(6_364_136_223_846_793_005)
            .wrapping_add(1_442_695_040_888_963_407);
        edges.push(edge_of(word, vertices, &weights))?;
    }
    Ok(edges)
}

/// The graph of edges that are drawn by a number, and of a loop of weight 0 at the vertex 0. There is at least one
/// vertex, and at least one weight.
pub fn generated(
    alloc: Global,
    number: u64,
    count: u32,
    vertices: u32,
    weights: Range<u32>,
) -> Result<Graph, TextFault>
    requires vertices { 1 ≤ vertices }
    requires weights { weights.start < weights.end }
    ensures { IfOk result IsGraph }
{
    let edges = drawn_edges(alloc, number, count, vertices, weights)?;
    let mut lines = String::new(alloc);
    for edge in &edges {
        let line = format!(in alloc; "{} {} {}\n", edge.from, edge.to, edge.weight)?;
        lines.push_str(line.as_str())?;
    }
    read_graph(alloc, lines.as_str())
}

/// How the vertices of a graph are linked.
#[derive(Clone, Copy)]
pub enum Shape {
    /// One behind the other.
    Path,
    /// Ten in a row, and the rows below each other.
    Grid,
    /// All with the first.
    Star,
}

impl Shape {
    /// The vertex from which an edge leads to this one, and the one to which an edge leads back. It isn't the first one.
    fn links(self, vertex: u32) -> (u32, u32)
        requires { 1 ≤ vertex }
    {
        match self {
            Shape::Path => (vertex - 1, vertex - 1),
            Shape::Grid => {
                let left = if vertex % 10 == 0 {
                    vertex - 10
                } else {
                    vertex - 1
                };
                let above = if vertex < 10 { vertex - 1 } else { vertex - 10 };
                (left, above)
            }
            Shape::Star => (0, 0),
        }
    }
}

/// The vertices from 0 up to before `vertices` in a shape, with edges both ways of weights below 7, and a loop of weight 0
/// at the vertex 0.
pub fn shaped(alloc: Global, shape: Shape, vertices: u32) -> Result<Graph, TextFault>
    ensures { IfOk result IsGraph }
{
    let mut lines = String::new(alloc);
    for vertex in 1..vertices {
        let (from, to) = shape.links(vertex);
        let there = vertex % 7;
        let back = vertex % 5;
        let line = format!(in alloc; "{from} {vertex} {there}\n{vertex} {to} {back}\n")?;
        lines.push_str(line.as_str())?;
    }
    read_graph(alloc, lines.as_str())
}
