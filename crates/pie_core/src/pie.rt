ghost use Rattle.std.specs.Prelude.{◌≡◌, ℕ, length};
ghost use Rattle.graph_core.specs.declared.job.Job.{Job};
ghost use Rattle.graph_core.specs.Equations.{Equations, AreLawful};
ghost use Rattle.graph_core.specs.Queries.{equations_of};
ghost use Rattle.pie_core.specs.Solutions.{IsLocalSolution, lowered, IsReadyFor, IsReadyAgain};

use crate::local::Local;
use graph_core::Fragment;
use message_buffer::Hand;
use value_order::Order;

/// A program: the equations of a job's vertices, and their evaluation on a fragment.
///
/// A program names no job, so its meanings take the job as an argument, and each clause holds for every job that the
/// program is for.
pub trait Pie: Drop {
    /// The program is that of the job's query.
    ghost is_for: { Self → Job → Type 0 };

    /// The equations of the job's vertices.
    ghost equations: { Self → Job → Equations };

    /// How many counters an owned vertex has.
    ghost counters_for: { Job → ℕ };

    /// How values are compared.
    fn order(&self) -> Order
        ensures { (job : Job) → is_for self.now job → result ≡ (equations self.now job).order };

    /// How many counters an owned vertex has.
    fn counters(&self) -> u32
        ensures { (job : Job) → is_for self.now job → result ≡ counters_for job };

    /// Evaluates a fragment of the job: leaves the local solution of the values at entry, which lie below the starts.
    /// What stands in the counters and in the worklist afterwards is the program's own.
    fn peval(&self, part: &Fragment, local: &mut Local)
        requires { (job : Job) × is_for self.now job × IsReadyFor (equations self.now job) job part.now local.old (counters_for job) }
        ensures solution { (job : Job) → is_for self.now job → IsReadyFor (equations self.now job) job part.now local.old (counters_for job) →
            IsLocalSolution (equations self.now job) part.now.owned part.now.mirrors local.old.values local.new.values }
        ensures values { length local.new.values ≡ length local.old.values }
        ensures before { local.new.before ≡ local.old.before }
        ensures counters { length local.new.counters ≡ length local.old.counters };

    /// Evaluates a fragment of the job again: lowers each mirror by the hand, and leaves the local solution of that. The
    /// values at entry lie below the starts and, on the owned places, below their own equations.
    fn inceval(&self, part: &Fragment, local: &mut Local, hand: &Hand)
        requires { (job : Job) × is_for self.now job × IsReadyAgain (equations self.now job) job part.now local.old (counters_for job) hand.now }
        ensures solution { (job : Job) → is_for self.now job → IsReadyAgain (equations self.now job) job part.now local.old (counters_for job) hand.now →
            IsLocalSolution (equations self.now job) part.now.owned part.now.mirrors (lowered (equations self.now job) part.now.owned local.old.values hand.now.values) local.new.values }
        ensures values { length local.new.values ≡ length local.old.values }
        ensures before { local.new.before ≡ local.old.before }
        ensures counters { length local.new.counters ≡ length local.old.counters };

    /// The equations are those of the job's query.
    ghost of_query: { (p : Self) (job : Job) → is_for p job → equations p job ≡ equations_of job };

    /// The equations are monotone in what they read and depend on nothing else, the starts lie above them, and each
    /// start is a value.
    ghost lawful: { (p : Self) (job : Job) → is_for p job → AreLawful (equations p job) };
}
