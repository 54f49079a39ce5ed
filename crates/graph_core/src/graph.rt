ghost use Rattle.std.specs.Prelude.{◌≡◌, ◌≢◌, ◌<◌, ℕ, IfOk, IfNone, IfSome};
ghost use Rattle.graph_core.specs.Digraph.{count_of, number_at, label_at, index_of, IsGraph, MakeGraph, graph_of};

use crate::copies::copy_of;
use crate::edge::Edge;
use crate::numbering::{place_of, placed_edges};
use grape_port::NoMemory;
use std::alloc::Global;
use std::marker::Model;
use std::sync::Arc;

/// A directed graph within the engine's limits: at most 1,000,000 vertices and 4,000,000 edges, and
/// numbers, labels and weights below 2^32.
///
/// Vertices stand in rising order of their numbers, and the index of a vertex is its place there, from 0.
/// A graph takes 8 bytes a vertex and 12 bytes an edge.
/// Copies share both lists.
#[derive(Drop)]
pub struct Graph {
    lists: Arc<Lists, Global>,
}

impl Model for Graph {
    ghost use Rattle.std.specs.Arc.{arc_value};
    ghost use Rattle.graph_core.specs.Digraph.{Digraph};

    ghost Value = { Digraph };

    ghost view = { λ g. arc_value g.lists };
}

/// The vertices and the edges of a graph.
#[derive(Drop)]
struct Lists {
    vertices: Vec<(u32, u32)>,
    edges: Vec<Edge>,
}

impl Model for Lists {
    ghost use Rattle.graph_core.specs.Digraph.{Digraph, IsGraph};

    ghost Value = { Digraph };

    ghost view = { λ g. record { vertices = g.vertices.items; edges = g.edges.items } };

    ghost invariant = { λ g. IsGraph (record { vertices = g.vertices.items; edges = g.edges.items }) };
}

impl Lists {
    /// The lists of a graph.
    fn new(vertices: Vec<(u32, u32)>, edges: Vec<Edge>) -> Lists
        requires { MakeGraph vertices.items edges.items }
        ensures exact { result ≡ graph_of vertices.items edges.items }
        ensures made { IsGraph result }
    {
        let edges = placed_edges(&vertices, edges);
        Lists { vertices, edges }
    }

    /// The index of the vertex with this number.
    fn index_of(&self, id: u32) -> Option<u32>
        ensures exact { result ≡ index_of self.now id }
        ensures found { IfSome result (λ index. (index < count_of self.now) × (number_at self.now index ≡ id)) }
        ensures absent { IfNone result ((v : ℕ) → v < count_of self.now → number_at self.now v ≢ id) }
    {
        place_of(&self.vertices, id)
    }
}

impl Graph {
    /// The graph of these vertices, pairs of number and label, and of these edges between their numbers.
    ///
    /// It takes the time of a sort of the edges, and of another one where numbers are missing between the
    /// first and the last.
    pub fn build(alloc: Global, vertices: &[(u32, u32)], edges: &[Edge]) -> Result<Graph, NoMemory>
        requires { MakeGraph vertices.now edges.now }
        ensures exact { IfOk result (λ graph. graph ≡ graph_of vertices.now edges.now) }
        ensures made { IfOk result IsGraph }
    {
        let edges = copy_of(alloc, edges)?;
        let vertices = copy_of(alloc, vertices)?;
        Graph::from_lists(alloc, vertices, edges)
    }

    /// The graph of these vertices and edges, as `build` makes it. Both vectors become the graph's: nothing is copied.
    pub fn from_lists(
        alloc: Global,
        vertices: Vec<(u32, u32)>,
        edges: Vec<Edge>,
    ) -> Result<Graph, NoMemory>
        requires { MakeGraph vertices.items edges.items }
        ensures exact { IfOk result (λ graph. graph ≡ graph_of vertices.items edges.items) }
        ensures made { IfOk result IsGraph }
    {
        let lists = Lists::new(vertices, edges);
        let lists = Arc::new(alloc, lists).map_err(|_| NoMemory)?;
        Ok(Graph { lists })
    }

    /// How many vertices the graph has, at most 1,000,000.
    pub fn count(&self) -> u32
        ensures count { result ≡ count_of self.now }
        ensures graph { IsGraph self.now }
    {
        self.lists.vertices.len() as u32
    }

    /// The number of the vertex with this index.
    pub fn id(&self, index: u32) -> u32
        requires { index < count_of self.now }
        ensures { result ≡ number_at self.now index }
    {
        self.lists.vertices[index as usize].0
    }

    /// The label of the vertex with this index.
    pub fn label(&self, index: u32) -> u32
        requires { index < count_of self.now }
        ensures { result ≡ label_at self.now index }
    {
        self.lists.vertices[index as usize].1
    }

    /// The index of the vertex with this number, and None exactly where no vertex has it.
    pub fn index_of(&self, id: u32) -> Option<u32>
        ensures exact { result ≡ index_of self.now id }
        ensures found { IfSome result (λ index. (index < count_of self.now) × (number_at self.now index ≡ id)) }
        ensures absent { IfNone result ((v : ℕ) → v < count_of self.now → number_at self.now v ≢ id) }
    {
        self.lists.index_of(id)
    }

    /// The edges, with indexes for their ends: each as often as it was given, sorted by from, to and weight.
    pub fn edges(&self) -> &[Edge]
        ensures edges { result.now ≡ self.now.edges }
        ensures graph { IsGraph self.now }
    {
        &self.lists.edges
    }

    /// An equal graph, which shares the lists. An error comes where it can't be counted any more who shares them.
    pub(crate) fn copy(&self) -> Result<Graph, NoMemory>
        ensures { IfOk result (λ copy. copy ≡ self.now) }
    {
        let lists = Arc::try_clone(&self.lists)?;
        Ok(Graph { lists })
    }
}
