ghost use Rattle.std.specs.Prelude.{◌≡◌, ◌*◌, ◌<◌, ◌≤◌, IfOk};
ghost use Rattle.graph_core.specs.Digraph.{IsGraph, MAX_VERTICES};
ghost use Rattle.graph_core.specs.Generated.{edge_after, state_past_edge, generated_vertices, generated_edges, generated_graph};

use crate::edge::Edge;
use crate::graph::Graph;
use grape_port::NoMemory;
use rand_core::SeedableRng;
use rand_core::utils::NextWord;
use rand_xoshiro::SplitMix64;
use std::alloc::Global;

/// How many edges there are for each vertex.
const EDGES_A_VERTEX: u32 = 4;

/// How many weights an edge may have, from 1 on.
const WEIGHTS: u64 = 1000;

/// The graph that is drawn from a number: it has the vertices from 0 on, 1 to 1,000,000 of them, without labels, and four
/// edges for each.
///
/// The words w0, w1 and so on are those of SplitMix64 (Steele, Lea and Flood) seeded with the number. Edge k, from 0, goes
/// from `w3k mod vertices` to `w3k+1 mod vertices` with the weight `1 + w3k+2 mod 1000`. The edges are made in the list that
/// becomes the graph's.
pub fn make_graph(alloc: Global, vertices: u32, number: u64) -> Result<Graph, NoMemory>
    requires { (1 ≤ vertices) × (vertices ≤ MAX_VERTICES) }
    ensures exact { IfOk result (λ graph. graph ≡ generated_graph vertices number) }
    ensures made { IfOk result IsGraph }
{
    let edges = drawn_edges(alloc, vertices, number)?;
    let vertices = numbered_vertices(alloc, vertices)?;
    Graph::from_lists(alloc, vertices, edges)
}

/// So many vertices, numbered from 0 on, with the label 0.
fn numbered_vertices(alloc: Global, count: u32) -> Result<Vec<(u32, u32)>, NoMemory>
    ensures { IfOk result (λ vertices. vertices.items ≡ generated_vertices count) }
{
    let mut vertices = Vec::with_capacity(alloc, count as usize)?;
    for number in 0..count {
        vertices.push((number, 0))?;
    }
    Ok(vertices)
}

/// The edges that the words from this number on draw, in their order.
fn drawn_edges(alloc: Global, vertices: u32, number: u64) -> Result<Vec<Edge>, NoMemory>
    requires { (1 ≤ vertices) × (vertices ≤ MAX_VERTICES) }
    ensures { IfOk result (λ edges. edges.items ≡ generated_edges vertices number) }
{
    let count = vertices * EDGES_A_VERTEX;
    let mut words = SplitMix64::seed_from_u64(number);
    let mut edges = Vec::with_capacity(alloc, count as usize)?;
    for _edge in 0..count {
        let edge = next_edge(&mut words, vertices);
        edges.push(edge)?;
    }
    Ok(edges)
}

/// The edge that the next three words draw.
fn next_edge(words: &mut SplitMix64, vertices: u32) -> Edge
    requires { 1 ≤ vertices }
    ensures edge { result ≡ edge_after vertices words.old }
    ensures state { words.new ≡ state_past_edge words.old }
{
    let count = u64::from(vertices);
    let from = words.next_word() % count;
    let to = words.next_word() % count;
    let weight = words.next_word() % WEIGHTS + 1;
    Edge {
        from: from as u32,
        to: to as u32,
        weight: weight as u32,
    }
}
