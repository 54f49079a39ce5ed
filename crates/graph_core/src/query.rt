ghost use Rattle.std.specs.Prelude.{◌≡◌, IfOk};
ghost use Rattle.graph_core.specs.declared.query.Query.{Query};
ghost use Rattle.graph_core.specs.declared.query.Query.TheVariants.{Dist, Label, Reach};

use crate::pattern::Pattern;
use grape_port::NoMemory;
use std::alloc::Global;

/// What is asked of a graph.
#[derive(Drop)]
pub enum Query {
    /// The least weight of a walk from the vertex with this number.
    Dist(u32),
    /// The least vertex number among those that are joined to a vertex, whatever the edges' directions.
    Label,
    /// Whether a walk leads from the vertex with this number: 0 where one does, and else 1.
    Reach(u32),
    /// Which nodes of a pattern the largest simulation relates to a vertex, a bit a node number.
    Sim(Pattern),
}

impl Query {
    /// An equal query.
    pub(crate) fn copy(&self, alloc: Global) -> Result<Query, NoMemory>
        ensures { IfOk result (λ copy. copy ≡ self.now) }
    {
        match self {
            Query::Dist(source) => Ok(Query::Dist(*source)),
            Query::Label => Ok(Query::Label),
            Query::Reach(source) => Ok(Query::Reach(*source)),
            Query::Sim(pattern) => Ok(Query::Sim(pattern.copy(alloc)?)),
        }
    }
}
