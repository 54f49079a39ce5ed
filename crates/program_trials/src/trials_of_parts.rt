ghost use Rattle.std.specs.Prelude.{◌≡◌, ◌≢◌, ◌<◌, ◌+◌, ◌*◌, ◌++◌, ◌∷◌, [], length, IfOk};
ghost use Rattle.value_order.specs.declared.TheConstants.{NOTHING};
ghost use Rattle.graph_core.specs.Graphs.{IsJob};
ghost use Rattle.graph_core.specs.Fragments.{fragment_of};
ghost use Rattle.program_trials.specs.Trials.{AreTrialsOf, HasTrialsOf};
ghost use Rattle.program_trials.specs.declared.trials_of_parts.Trial.{Trial as TrialLists};

use crate::evaluation::{evaluated, hand_of, starts};
use crate::plain::Plain;
use fragment_cut::fragment;
use grape_port::NoMemory;
use graph_core::{Fragment, Job};
use pie_core::Pie;
use std::alloc::Global;

/// The values of all places of a fragment, as a program leaves them and as plain evaluation does.
#[derive(Drop)]
pub struct Trial {
    pub program: Vec<u64>,
    pub plain: Vec<u64>,
}

/// Adds what both leave of a fragment of the job: from the starts, and after every second mirror fell by a value.
fn try_part<P: Pie, Q: Plain>(
    alloc: Global,
    program: &P,
    plain: &Q,
    job: &Job,
    part: &Fragment,
    value: u64,
    trials: &mut Vec<Trial>,
) -> Result<(), NoMemory>
    requires job { IsJob job.now }
    requires is_for { P.is_for program.now job.now }
    requires number { part.now.number < job.now.settings.fragments }
    requires part { part.now ≡ fragment_of job.now part.now.number }
    requires value { value ≢ NOTHING }
    ensures count { IfOk result (λ ok. length trials.new.items ≡ length trials.old.items + 2) }
    ensures trials { IfOk result (λ ok. (first : TrialLists) × (second : TrialLists) × (trials.new.items ≡ (trials.old.items ++ first ∷ []) ++ second ∷ []) × AreTrialsOf (P.equations program.now job.now) part.now first second) }
{
    let mut local = evaluated(alloc, program, job, part)?;
    let mut values = starts(alloc, job, part)?;
    plain.evaluate(job, part, &mut values);
    trials.push(trial_of(alloc, local.values(), &values)?)?;
    let hand = hand_of(
        alloc,
        program.order(),
        part.mirrors().len() as u32,
        2,
        value,
    )?;
    program.inceval(part, &mut local, &hand);
    plain.meet(part, &mut values, &hand);
    plain.evaluate(job, part, &mut values);
    trials.push(trial_of(alloc, local.values(), &values)?)?;
    Ok(())
}

fn trial_of(alloc: Global, program: &[u64], plain: &[u64]) -> Result<Trial, NoMemory>
    ensures program { IfOk result (λ trial. trial.program.items ≡ program.now) }
    ensures plain { IfOk result (λ trial. trial.plain.items ≡ plain.now) }
{
    Ok(Trial {
        program: Vec::from_slice(alloc, program)?,
        plain: Vec::from_slice(alloc, plain)?,
    })
}

/// What a program and plain evaluation leave of each fragment of a job: from the starts, and after every second mirror
/// fell by a value, which isn't `NOTHING`.
pub fn trials<P: Pie, Q: Plain>(
    alloc: Global,
    program: &P,
    plain: &Q,
    job: &Job,
    value: u64,
) -> Result<Vec<Trial>, NoMemory>
    requires job { IsJob job.now }
    requires is_for { P.is_for program.now job.now }
    requires value { value ≢ NOTHING }
    ensures count { IfOk result (λ trials. length trials.items ≡ 2 * job.now.settings.fragments) }
    ensures trials { IfOk result (λ trials. HasTrialsOf (P.equations program.now job.now) (fragment_of job.now) job.now.settings.fragments trials.items) }
{
    let parts = fragment(alloc, job)?;
    let mut trials = Vec::new(alloc);
    'parts: for part in &parts {
        try_part(alloc, program, plain, job, part, value, &mut trials)?;
    }
    Ok(trials)
}
