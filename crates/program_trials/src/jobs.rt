ghost use Rattle.std.specs.Prelude.{◌≡◌, ◌≤◌};
ghost use Rattle.graph_core.specs.Graphs.{IsGraph, IsJob, IsQuery};

use graph_core::{Cut, Graph, Job, Policy, Query, Settings};

/// The job that asks this of a graph, cut into 1 to 64 fragments. It has one lane and the policy AP, and asks for no
/// snapshot.
pub fn job_of(graph: Graph, query: Query, fragments: u32, cut: Cut) -> Job
    requires graph { IsGraph graph }
    requires query { IsQuery query }
    requires some { 1 ≤ fragments }
    requires few { fragments ≤ 64 }
    ensures job { IsJob result }
    ensures graph { result.graph ≡ graph }
    ensures query { result.query ≡ query }
    ensures fragments { result.settings.fragments ≡ fragments }
    ensures cut { result.settings.cut ≡ cut }
{
    Job {
        graph,
        query,
        settings: Settings {
            fragments,
            lanes: 1,
            cut,
            policy: Policy::Ap,
            snapshot: 0,
        },
    }
}
