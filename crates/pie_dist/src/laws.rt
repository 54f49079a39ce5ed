ghost use Rattle.graph_core.specs.declared.job.Job.{Job};
ghost use Rattle.pie_dist.specs.DistJobs.{IsDistJob};
ghost use Rattle.pie_dist.specs.Laws.{GiveDistances};

use crate::dist::Dist;
use pie_core::Pie;

/// For a job that asks for distances, the greatest solution of this program's equations has the distance of each vertex,
/// and no other assignment has.
pub fn dist_equations(dist: &Dist)
    ensures { (job : Job) → ⟦<Dist as Pie>⟧.is_for dist.now job → GiveDistances (⟦<Dist as Pie>⟧.equations dist.now job) job job.query }
{}
