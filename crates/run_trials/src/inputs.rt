//! The texts and graphs on which runs are tried.

ghost use Rattle.std.specs.Prelude.{IfOk};
ghost use Rattle.graph_core.specs.Graphs.{IsJob};

use grape_port::NoMemory;
use graph_core::Job;
use graph_text::{LineReader, TextFault};
use rand_core::utils::NextWord;
use rand_xoshiro::SplitMix64;
use std::alloc::Global;

/// How many vertices a generated graph has.
const VERTICES: u32 = 24;

/// The job of lines that stand one behind the other.
pub(crate) fn job_of(
    alloc: Global,
    settings: &str,
    query: &str,
    lines: &str,
) -> Result<Job, TextFault>
    ensures { IfOk result IsJob }
{
    let mut reader = LineReader::new(alloc)?;
    reader.feed(settings.as_bytes())?;
    reader.feed(query.as_bytes())?;
    reader.feed(lines.as_bytes())?;
    reader.finish()
}

/// The pattern is a cycle of three labels, and a node without links.
pub(crate) fn query_table() -> [&'static str; 4] {
    [
        "query dist 1\n",
        "query label\n",
        "query reach 1\n",
        "query sim\nnode 0 1\nnode 1 2\nnode 2 0\nnode 3 2\nlink 0 1\nlink 1 2\nlink 2 0\n",
    ]
}

/// The chain 5, 6, 1, 2, 3 over three fragments of two vertices, and vertex 4 alone.
pub(crate) fn joined_lines() -> &'static str {
    "1 2 1\n2 3 1\nv 4\n5 6 1\n6 1 1\n"
}

/// The edges of a chain through the vertices from 1 to this number.
pub(crate) fn chain(alloc: Global, count: u32) -> Result<String, NoMemory> {
    let mut lines = String::new(alloc);
    for vertex in 1..count {
        let line = format!(in alloc; "{vertex} {} 1\n", vertex.saturating_add(1))?;
        lines.push_str(line.as_str())?;
    }
    Ok(lines)
}

/// Edges between the vertex 1 and each other one below this number, both ways.
pub(crate) fn star(alloc: Global, count: u32) -> Result<String, NoMemory> {
    let mut lines = String::new(alloc);
    for vertex in 2..count {
        let line = format!(in alloc; "1 {vertex} {vertex}\n{vertex} 1 0\n")?;
        lines.push_str(line.as_str())?;
    }
    Ok(lines)
}

/// A chain, and an edge from its last vertex to its first.
pub(crate) fn cycle(alloc: Global, count: u32) -> Result<String, NoMemory> {
    let mut lines = chain(alloc, count)?;
    let line = format!(in alloc; "{count} 1 1\n")?;
    lines.push_str(line.as_str())?;
    Ok(lines)
}

/// Pairs of a vertex of the lower half and one of the upper half that read one another, one pair behind the other.
pub(crate) fn border(alloc: Global, half: u32) -> Result<String, NoMemory> {
    let mut lines = String::new(alloc);
    for vertex in 1..half {
        let fellow = vertex.saturating_add(half);
        let next = vertex.saturating_add(1);
        let line = format!(in alloc;
            "{vertex} {fellow} 1\n{fellow} {vertex} 1\n{fellow} {next} 1\n"
        )?;
        lines.push_str(line.as_str())?;
    }
    Ok(lines)
}

/// A grid of so many rows and columns from the vertex 1, with edges to the right and down, and an edge back to 1.
pub(crate) fn grid(alloc: Global, side: u32) -> Result<String, NoMemory> {
    let mut lines = String::from_str(alloc, "44 1 1\n")?;
    for row in 0..side {
        for column in 0..side {
            let vertex = row.saturating_mul(10).saturating_add(column);
            let [here, right, below] = [1, 2, 11].map(|far| vertex.saturating_add(far));
            let line = format!(in alloc; "{here} {right} {row}\n{here} {below} {column}\n")?;
            lines.push_str(line.as_str())?;
        }
    }
    Ok(lines)
}

/// Edges between vertices that are drawn, with weights, a way from the vertex 1, and a label for each vertex.
pub(crate) fn drawn(alloc: Global, words: &mut SplitMix64, edges: u32) -> Result<String, NoMemory> {
    let mut lines = String::from_str(alloc, "1 2 1\n2 3 1\n")?;
    for _ in 0..edges {
        let word = words.next_word();
        let from = word % 24;
        let to = (word / 24) % 24;
        let weight = (word / 576) % 9;
        let line = format!(in alloc;
            "{} {} {weight}\n",
            from.saturating_add(1),
            to.saturating_add(1)
        )?;
        lines.push_str(line.as_str())?;
    }
    labelled(alloc, lines, VERTICES)
}

/// The same lines, with one of three labels on each vertex up to this number.
pub(crate) fn labelled(alloc: Global, lines: String, count: u32) -> Result<String, NoMemory> {
    let mut lines = lines;
    for vertex in 0..count {
        let number = vertex.saturating_add(1);
        let line = format!(in alloc; "v {number} {}\n", number % 3)?;
        lines.push_str(line.as_str())?;
    }
    Ok(lines)
}
