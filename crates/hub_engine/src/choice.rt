ghost use Rattle.std.specs.Prelude.{◌≡◌, ◌-◌, ◌<◌, ◌≤◌, IsTrue, true, false, Some, length};
ghost use Rattle.std.specs.List.{range_with_len};
ghost use Rattle.legal_journal.specs.Delays.{has_enough};
ghost use Rattle.hub_engine.specs.Kinds.{IsLeastRound, lesser, is_near, is_near_enough, turns_are_over, is_over, is_unmarked, may_go_on, hold_of, first_kind, kind_with_mail, kind_without_mail, kind_of_fresh, kind_at, rank, better, best_of, first_of_kinds, kinds};
ghost use Rattle.hub_engine.specs.Desks.{is_out, is_fresh_at, rests_at, has_mail};

use crate::desk::{Delay, Desk};
use crate::kind::Kind;
use crate::sight::Sight;
use graph_core::Policy;
use stop_probe::Probe;
use token_cut::CutState;

/// The least round of a busy worker, where one is busy.
pub fn least_round(desks: &[Desk]) -> Option<u64>
    ensures { IsLeastRound desks.now result }
{
    let mut least = None;
    'desks: for desk in desks {
        if desk.is_busy() {
            least = lesser(least, desk.round);
        }
    }
    least
}

/// The lesser of two rounds, where there is one so far.
fn lesser(least: Option<u64>, round: u64) -> Option<u64>
    ensures { result ≡ lesser least round }
{
    match least {
        Some(other) => Some(other.min(round)),
        None => Some(round),
    }
}

/// Whether a round is at most so far ahead of the least one.
fn is_near(ahead: u32, least: Option<u64>, round: u64) -> bool
    ensures { result ≡ is_near ahead least round }
{
    match least {
        Some(least) => round.saturating_sub(u64::from(ahead)) <= least,
        None => true,
    }
}

/// Whether the policy lets a worker of this round go on: no busy worker is too many rounds behind it.
fn is_near_enough(policy: &Policy, least: Option<u64>, round: u64) -> bool
    ensures { result ≡ is_near_enough policy.now least round }
{
    match *policy {
        Policy::Bsp => is_near(0, least, round),
        Policy::Ap => true,
        Policy::Ssp { c } | Policy::Aap { c, l: _ } => is_near(c, least, round),
    }
}

/// Whether the turns of a Stretch are over.
fn turns_are_over(delay: Option<Delay>, clock: u64) -> bool
    ensures { result ≡ turns_are_over delay clock }
{
    match delay {
        Some(delay) => u64::from(delay.turns) < clock.saturating_sub(delay.place),
        None => false,
    }
}

/// Whether so many batches end every delay.
fn has_enough(policy: &Policy, batches: u64) -> bool
    ensures { result ≡ has_enough policy.now batches }
{
    match *policy {
        Policy::Aap { c: _, l } => u64::from(l) <= batches,
        Policy::Bsp | Policy::Ap | Policy::Ssp { .. } => false,
    }
}

/// Whether a recording is open in which the worker isn't marked.
fn is_unmarked(cut: &CutState, worker: u32) -> bool
    requires { IsTrue cut.now.recording → worker < length cut.now.parts }
    ensures { result ≡ is_unmarked worker cut.now }
{
    cut.recording() && !cut.marked(worker)
}

impl Desk {
    /// Whether the delay of the worker is over.
    fn is_over(&self, sight: &Sight) -> bool
        ensures { result ≡ is_over sight.now self.now }
    {
        turns_are_over(self.delay, sight.clock) || has_enough(&sight.policy, self.buffer.batches())
    }

    /// Whether the policy and the snapshots let the worker take.
    fn may_go_on(&self, sight: &Sight) -> bool
        ensures { result ≡ may_go_on sight.now self.now }
    {
        is_near_enough(&sight.policy, sight.least, self.round) && !sight.due
    }

    /// A Hold, while the delay lasts.
    fn hold(&self, sight: &Sight) -> Option<Kind>
        ensures { result ≡ hold_of sight.now self.now }
    {
        if self.delay.is_some() && !self.is_over(sight) {
            return Some(Kind::Hold);
        }
        None
    }

    /// The first kind of a worker that rests while mail waits.
    fn kind_with_mail(&self, sight: &Sight, probe: &Probe, worker: u32) -> Option<Kind>
        ensures { result ≡ kind_with_mail sight.now probe.now worker self.now }
    {
        if self.is_over(sight) && self.may_go_on(sight) {
            return Some(Kind::Take);
        }
        if self.delay.is_none() {
            return Some(Kind::Stretch);
        }
        if probe.may_answer(worker) {
            return Some(Kind::Nack);
        }
        self.hold(sight)
    }

    /// The first kind of a worker that rests without mail.
    fn kind_without_mail(&self, sight: &Sight, probe: &Probe, worker: u32) -> Option<Kind>
        requires { worker < probe.now.workers }
        ensures { result ≡ kind_without_mail sight.now probe.now worker self.now }
    {
        if probe.may_answer(worker) {
            if probe.took_since_ask(worker) {
                return Some(Kind::Nack);
            }
            return Some(Kind::Ack);
        }
        if probe.may_flag(worker) {
            return Some(Kind::Flag);
        }
        self.hold(sight)
    }

    /// The first kind of a fresh worker.
    fn kind_of_fresh(&self, sight: &Sight) -> Option<Kind>
        ensures { result ≡ kind_of_fresh sight.now self.now }
    {
        if self.may_go_on(sight) {
            return Some(Kind::Take);
        }
        self.hold(sight)
    }

    /// The first kind of event, in the order in which a lane looks for them, that may come of the worker with this number.
    fn first_kind(&self, sight: &Sight, probe: &Probe, cut: &CutState, worker: u32) -> Option<Kind>
        requires probe { worker < probe.now.workers }
        requires cut { IsTrue cut.now.recording → worker < length cut.now.parts }
        ensures { result ≡ first_kind sight.now probe.now cut.now worker self.now kinds }
    {
        if self.is_out() {
            return self.hold(sight);
        }
        if is_unmarked(cut, worker) {
            return Some(Kind::Mark);
        }
        if self.is_fresh() {
            return self.kind_of_fresh(sight);
        }
        if self.has_mail() {
            return self.kind_with_mail(sight, probe, worker);
        }
        self.kind_without_mail(sight, probe, worker)
    }
}

/// What is best with a desk more: an earlier kind, or else what was found before.
fn better(best: Option<(Kind, u32)>, kind: Option<Kind>, worker: u32) -> Option<(Kind, u32)>
    ensures { result ≡ better best kind worker }
{
    let Some(kind) = kind else {
        return best;
    };
    match best {
        Some((other, from)) => {
            if kind.rank() < other.rank() {
                Some((kind, worker))
            } else {
                Some((other, from))
            }
        }
        None => Some((kind, worker)),
    }
}

/// The best that was found before and at the desks from one number up to another.
fn best_between(
    best: Option<(Kind, u32)>,
    sight: &Sight,
    probe: &Probe,
    cut: &CutState,
    desks: &[Desk],
    from: usize,
    to: usize,
) -> Option<(Kind, u32)>
    requires few { length desks.now ≤ 64 }
    requires workers { probe.now.workers ≡ length desks.now }
    requires parts { IsTrue cut.now.recording → length cut.now.parts ≡ length desks.now }
    requires from { from ≤ to }
    requires to { to ≤ length desks.now }
    ensures { result ≡ best_of (kind_at sight.now probe.now cut.now desks.now) (range_with_len from (to - from)) best }
{
    let mut found = best;
    'desks: for worker in from..to {
        let kind = desks[worker].first_kind(sight, probe, cut, worker as u32);
        found = better(found, kind, worker as u32);
    }
    found
}

/// The first kind of event that some worker admits, with the first such worker in turn. Goes over the desks once.
pub fn first_of_kinds(
    sight: &Sight,
    probe: &Probe,
    cut: &CutState,
    desks: &[Desk],
    turn: usize,
) -> Option<(Kind, u32)>
    requires few { length desks.now ≤ 64 }
    requires workers { probe.now.workers ≡ length desks.now }
    requires parts { IsTrue cut.now.recording → length cut.now.parts ≡ length desks.now }
    requires turn { turn ≤ length desks.now }
    ensures { result ≡ first_of_kinds sight.now probe.now cut.now desks.now turn kinds }
{
    let later = best_between(None, sight, probe, cut, desks, turn, desks.len());
    best_between(later, sight, probe, cut, desks, 0, turn)
}
