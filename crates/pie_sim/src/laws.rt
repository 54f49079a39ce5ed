ghost use Rattle.graph_core.specs.declared.job.Job.{Job};
ghost use Rattle.pie_sim.specs.Laws.{GiveSimulated};

use crate::sim::Sim;
use pie_core::Pie;

/// For a job that asks for the simulation of this program's pattern, the greatest solution of the program's equations
/// has at each vertex the bits of exactly those nodes that some simulation relates to it, and no other assignment has.
pub fn sim_equations(sim: &Sim)
    ensures { (job : Job) → ⟦<Sim as Pie>⟧.is_for sim.now job → GiveSimulated (⟦<Sim as Pie>⟧.equations sim.now job) job job.query }
{}
