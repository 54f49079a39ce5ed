ghost use Rattle.std.specs.Prelude.{◌≡◌, length};
ghost use Rattle.graph_core.specs.declared.job.Job.{Job};
ghost use Rattle.pie_core.specs.Solutions.{local_solution, lowered};
ghost use Rattle.pie_core.specs.Evaluations.{MayEvaluate};

use crate::local::Local;
use crate::pie::Pie;
use graph_core::Fragment;
use message_buffer::Hand;

/// What a lane does with the values and the hand of a Take: `peval` where they are fresh, and then `inceval` where the
/// hand isn't empty. It leaves the local solution of the values lowered by the hand.
pub fn evaluate<P: Pie>(program: &P, part: &Fragment, fresh: bool, local: &mut Local, hand: &Hand)
    requires { (job : Job) × P.is_for program.now job × MayEvaluate (P.equations program.now job) job part.now fresh local.old (P.counters_for job) hand.now }
    ensures solution { (job : Job) → P.is_for program.now job → MayEvaluate (P.equations program.now job) job part.now fresh local.old (P.counters_for job) hand.now →
        local.new.values ≡ local_solution (P.equations program.now job) part.now.owned part.now.mirrors (lowered (P.equations program.now job) part.now.owned local.old.values hand.now.values) }
    ensures before { local.new.before ≡ local.old.before }
    ensures counters { length local.new.counters ≡ length local.old.counters }
    ensures values { length local.new.values ≡ length local.old.values }
{
    if fresh {
        program.peval(part, local);
    }
    if !hand.is_empty() {
        program.inceval(part, local, hand);
    }
}
