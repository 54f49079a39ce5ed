ghost use Rattle.graph_core.specs.declared.job.Job.{Job};
ghost use Rattle.pie_flood.specs.Laws.{GiveLeastJoined, GiveReached};

use crate::labels::Labels;
use crate::reach::Reach;
use pie_core::Pie;

/// For a job that asks for labels, the greatest solution of this program's equations has the least number of a joined
/// vertex at each vertex, and no other assignment has.
pub fn label_equations(labels: &Labels)
    ensures { (job : Job) → ⟦<Labels as Pie>⟧.is_for labels.now job → GiveLeastJoined (⟦<Labels as Pie>⟧.equations labels.now job) job }
{}

/// For a job that asks for reachability, the greatest solution of this program's equations is 0 at each vertex that a
/// walk from the source leads to and 1 at each other, and no other assignment is.
pub fn reach_equations(reach: &Reach)
    ensures { (job : Job) → ⟦<Reach as Pie>⟧.is_for reach.now job → GiveReached (⟦<Reach as Pie>⟧.equations reach.now job) job job.query }
{}
