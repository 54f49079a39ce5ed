ghost use Rattle.std.specs.Prelude.{◌≡◌, ◌≢◌, ℕ, ◌%◌, ◌<◌, ◌≤◌, ◌==◌, if◌then◌else◌, ◌++◌, length, slice_index, IfOk};
ghost use Rattle.value_order.specs.declared.TheConstants.{NOTHING};
ghost use Rattle.graph_core.specs.Graphs.{IsJob};
ghost use Rattle.graph_core.specs.Queries.{equations_of};
ghost use Rattle.graph_core.specs.Fragments.{owned_of, mirrors_of, fragment_of};
ghost use Rattle.pie_core.specs.Solutions.{IsReadyFor, OwnEquationsHold, starts_of};
ghost use Rattle.program_trials.specs.Trials.{IsSolvedFromStarts};

use fragment_cut::fragment;
use grape_port::NoMemory;
use graph_core::{Fragment, Job};
use message_buffer::Hand;
use pie_core::{Local, Pie, starts_of};
use std::alloc::Global;
use value_order::Order;

/// The start value of each place of a fragment of the job: of the owned ones, and then of the mirrors.
pub fn starts(alloc: Global, job: &Job, part: &Fragment) -> Result<Vec<u64>, NoMemory>
    requires job { IsJob job.now }
    requires number { part.now.number < job.now.settings.fragments }
    requires part { part.now ≡ fragment_of job.now part.now.number }
    ensures { IfOk result (λ starts. starts.items ≡ starts_of (equations_of job.now) (part.now.owned ++ part.now.mirrors)) }
{
    let mut starts = starts_of(alloc, job, part.owned())?;
    let mirrors = starts_of(alloc, job, part.mirrors())?;
    starts.extend_from_slice(&mirrors)?;
    Ok(starts)
}

/// What a program leaves of a fragment of its job, from the starts.
pub fn evaluated<P: Pie>(
    alloc: Global,
    program: &P,
    job: &Job,
    part: &Fragment,
) -> Result<Local, NoMemory>
    requires job { IsJob job.now }
    requires is_for { P.is_for program.now job.now }
    requires number { part.now.number < job.now.settings.fragments }
    requires part { part.now ≡ fragment_of job.now part.now.number }
    ensures ready { IfOk result (λ local. IsReadyFor (P.equations program.now job.now) job.now part.now local (P.counters_for job.now)) }
    ensures solved { IfOk result (λ local. OwnEquationsHold (P.equations program.now job.now) part.now.owned part.now.mirrors local.values) }
    ensures solution { IfOk result (λ local. IsSolvedFromStarts (P.equations program.now job.now) part.now local.values) }
{
    let starts = starts(alloc, job, part)?;
    let mut local = Local::new(alloc, part, program.counters())?;
    local.load(&starts);
    program.peval(part, &mut local);
    Ok(local)
}

/// What a program leaves of the only fragment of its job, from the starts.
pub fn evaluated_whole<P: Pie>(alloc: Global, program: &P, job: &Job) -> Result<Local, NoMemory>
    requires job { IsJob job.now }
    requires is_for { P.is_for program.now job.now }
    requires one { job.now.settings.fragments ≡ 1 }
    ensures ready { IfOk result (λ local. IsReadyFor (P.equations program.now job.now) job.now (fragment_of job.now 0) local (P.counters_for job.now)) }
    ensures solved { IfOk result (λ local. OwnEquationsHold (P.equations program.now job.now) (owned_of job.now 0) (mirrors_of job.now 0) local.values) }
    ensures solution { IfOk result (λ local. IsSolvedFromStarts (P.equations program.now job.now) (fragment_of job.now 0) local.values) }
{
    let parts = fragment(alloc, job)?;
    evaluated(alloc, program, job, &parts[0])
}

/// A hand that lowers every so many of this many mirrors by one value, from the first on: at 1 all of them, at 2 every
/// second. The value isn't `NOTHING`.
pub fn hand_of(
    alloc: Global,
    order: Order,
    mirrors: u32,
    every: u32,
    value: u64,
) -> Result<Hand, NoMemory>
    requires every { 1 ≤ every }
    requires value { value ≢ NOTHING }
    ensures mirrors { IfOk result (λ hand. length hand.values ≡ mirrors) }
    ensures values { IfOk result (λ hand. (m : ℕ) → m < mirrors → slice_index hand.values m ≡ (if m % every == 0 then value else NOTHING)) }
{
    let mut hand = Hand::new(alloc, order, mirrors)?;
    'mirrors: for mirror in 0..mirrors {
        if mirror % every == 0 {
            hand.lower(mirror, value);
        }
    }
    Ok(hand)
}
