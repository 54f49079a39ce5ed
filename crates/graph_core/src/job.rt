ghost use Rattle.std.specs.Prelude.{◌==◌, if◌then◌else◌, ◌≡◌, ◌<◌, IfOk};
ghost use Rattle.graph_core.specs.Graphs.{count_of, IsPattern, IsJob};
ghost use Rattle.graph_core.specs.declared.query.Query.{Query};
ghost use Rattle.graph_core.specs.declared.job.Job.{Job};
ghost use Rattle.graph_core.specs.declared.query.Query.TheVariants.{Dist, Label, Reach};
ghost use Rattle.graph_core.specs.Queries.{mask_of, has_node, start_value};

use crate::FAR;
use crate::graph::Graph;
use crate::pattern::Pattern;
use crate::query::Query;
use crate::settings::Settings;
use grape_port::NoMemory;
use std::alloc::Global;

/// A query on a graph, and how it is run.
#[derive(Drop)]
pub struct Job {
    pub graph: Graph,
    pub query: Query,
    pub settings: Settings,
}

impl Job {
    /// The value with which the vertex with this index starts, and from which it falls: for distances 0 at
    /// the source and else `FAR`, for labels the vertex's number, for reachability 0 at the source and
    /// else 1, and for a simulation the bits of the pattern nodes with the vertex's label.
    pub fn start_of(&self, vertex: u32) -> u64
        requires job { IsJob self.now }
        requires vertex { vertex < count_of self.now.graph }
        ensures { result ≡ start_value self.now.graph self.now.query vertex }
    {
        match &self.query {
            Query::Dist(source) => zero_at(self.graph.id(vertex), *source, FAR),
            Query::Label => u64::from(self.graph.id(vertex)),
            Query::Reach(source) => zero_at(self.graph.id(vertex), *source, 1),
            Query::Sim(pattern) => nodes_with_label(pattern, self.graph.label(vertex)),
        }
    }

    /// An equal job.
    pub fn copy(&self, alloc: Global) -> Result<Job, NoMemory>
        ensures { IfOk result (λ copy. copy ≡ self.now) }
    {
        let graph = self.graph.copy()?;
        let query = self.query.copy(alloc)?;
        let settings = self.settings;
        Ok(Job {
            graph,
            query,
            settings,
        })
    }
}

/// 0 at the source, and `other` elsewhere.
fn zero_at(number: u32, source: u32, other: u64) -> u64
    ensures { result ≡ (if source == number then 0 else other) }
{
    if number == source { 0 } else { other }
}

/// The bits of the pattern nodes with a label.
fn nodes_with_label(pattern: &Pattern, label: u32) -> u64
    requires { IsPattern pattern.now }
    ensures { result ≡ mask_of (λ k. has_node pattern.now k label) }
{
    let mut mask: u64 = 0;
    for node in &pattern.nodes {
        if node.label == label {
            mask |= 1 << node.number;
        }
    }
    mask
}
