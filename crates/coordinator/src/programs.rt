ghost use Rattle.std.specs.Prelude.{IfSome};
ghost use Rattle.graph_core.specs.Graphs.{IsPattern};
ghost use Rattle.pie_sim.specs.SimJobs.{IsSimOf};

use graph_core::Pattern;
use pie_sim::Sim;
use std::alloc::Global;

/// Two programs of a pattern: the lanes evaluate by one, and the hub keeps the other. `None` comes where there is no
/// memory for them.
pub(crate) fn two_sims(alloc: Global, pattern: &Pattern) -> Option<(Sim, Sim)>
    requires { IsPattern pattern.now }
    ensures first { IfSome result (λ two. IsSimOf two.0 pattern.now) }
    ensures second { IfSome result (λ two. IsSimOf two.1 pattern.now) }
{
    let program = Sim::new(alloc, pattern).ok()?;
    let kept = Sim::new(alloc, pattern).ok()?;
    Some((program, kept))
}
