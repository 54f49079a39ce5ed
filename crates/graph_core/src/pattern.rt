ghost use Rattle.std.specs.Prelude.{◌≡◌, ◌<◌, IfOk};

use crate::copies::copy_of;
use grape_port::NoMemory;
use std::alloc::Global;
use std::marker::Model;

/// A node of a pattern: its number, 0 to 63, and the label that its vertices have.
#[derive(Clone, Copy, Debug, PartialEq, Eq)]
pub struct PatternNode {
    pub number: u8,
    pub label: u32,
}

/// A link of a pattern, from one node to another by their numbers.
#[derive(Clone, Copy, Debug, PartialEq, Eq)]
pub struct PatternLink {
    pub from: u8,
    pub to: u8,
}

/// A small directed graph that a simulation matches: at most 64 nodes with different numbers, and at most
/// 4,096 links.
#[derive(Drop)]
pub struct Pattern {
    pub nodes: Vec<PatternNode>,
    pub links: Vec<PatternLink>,
}

impl Model for Pattern {
    ghost use Rattle.graph_core.specs.PatternGraph.{PatternGraph};

    ghost Value = { PatternGraph };

    ghost view = { λ p. record { nodes = p.nodes.items; links = p.links.items } };
}

impl Pattern {
    /// An equal pattern.
    pub(crate) fn copy(&self, alloc: Global) -> Result<Pattern, NoMemory>
        ensures { IfOk result (λ copy. copy ≡ self.now) }
    {
        let nodes = copy_of(alloc, &self.nodes)?;
        let links = copy_of(alloc, &self.links)?;
        Ok(Pattern { nodes, links })
    }
}
