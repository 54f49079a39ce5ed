ghost use Rattle.std.specs.Prelude.{◌≡◌, length};
ghost use Rattle.graph_core.specs.declared.job.Job.{Job};
ghost use Rattle.graph_core.specs.Queries.{equations_of};
ghost use Rattle.pie_core.specs.Solutions.{IsLocalSolution, lowered, IsReadyFor, IsReadyAgain};
ghost use Rattle.pie_lowering.specs.LeastEquations.{IsLeastJob};

use crate::beginning::{begin, space_by_hand, space_by_mirrors};
use crate::cost::Cost;
use crate::lowering::{lower_mirror_readers, lower_mirrors, work_off};
use graph_core::Fragment;
use message_buffer::Hand;
use pie_core::Local;

/// Evaluates a fragment of a job with least equations: leaves the local solution of the values at entry, which lie below
/// the starts. Each owned place whose value isn't `FAR` is looked at once, and again after its value fell.
pub fn evaluate<C: Cost>(part: &Fragment, local: &mut Local)
    requires { (job : Job) × IsLeastJob C.cost_of job × IsReadyFor (equations_of job) job part.now local.old 0 }
    ensures solution { (job : Job) → IsLeastJob C.cost_of job → IsReadyFor (equations_of job) job part.now local.old 0 →
        IsLocalSolution (equations_of job) part.now.owned part.now.mirrors local.old.values local.new.values }
    ensures values { length local.new.values ≡ length local.old.values }
    ensures before { local.new.before ≡ local.old.before }
    ensures counters { local.new.counters ≡ local.old.counters }
{
    begin::<C>(part, local);
    space_by_mirrors::<C>(part, local);
    lower_mirror_readers::<C>(part, local);
    work_off::<C>(part, local);
}

/// Evaluates a fragment of such a job again: lowers each mirror by the hand, and leaves the local solution of that. The
/// values at entry lie below the starts and, on the owned places, below their own equations. Only places that the fallen
/// values reach are looked at.
pub fn evaluate_again<C: Cost>(part: &Fragment, local: &mut Local, hand: &Hand)
    requires { (job : Job) × IsLeastJob C.cost_of job × IsReadyAgain (equations_of job) job part.now local.old 0 hand.now }
    ensures solution { (job : Job) → IsLeastJob C.cost_of job → IsReadyAgain (equations_of job) job part.now local.old 0 hand.now →
        IsLocalSolution (equations_of job) part.now.owned part.now.mirrors (lowered (equations_of job) part.now.owned local.old.values hand.now.values) local.new.values }
    ensures values { length local.new.values ≡ length local.old.values }
    ensures before { local.new.before ≡ local.old.before }
    ensures counters { local.new.counters ≡ local.old.counters }
{
    space_by_hand::<C>(local, hand);
    lower_mirrors::<C>(part, local, hand);
    work_off::<C>(part, local);
}
