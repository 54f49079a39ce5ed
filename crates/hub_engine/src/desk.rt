ghost use Rattle.std.specs.Prelude.{◌≡◌, ◌≤◌, [], length, map};
ghost use Rattle.std.specs.Vec.{vec_capacity};
ghost use Rattle.message_buffer.specs.Buffers.{batches_in};
ghost use Rattle.legal_journal.specs.Delays.{stretch_turns};
ghost use Rattle.hub_engine.specs.Desks.{HandFits, IsHereOr, HasLocalOr, AreHereOr, HaveLocalsOr, TakesFrom, is_out, is_fresh_at, rests_at, has_mail, is_busy_at, with_arrival, rested_desk, folded_desk, MayRecord, Records};
ghost use Rattle.hub_engine.specs.Posting.{CanReceive};

use crate::sender::Sender;
use delay_stretch::Pulse;
use graph_core::Policy;
use message_buffer::{Buffer, Hand};
use pie_core::Local;
use std::mem::replace;
use token_cut::{CutState, Phase};

/// Where the values of a worker are, and the hand that it takes its mail into.
#[derive(Drop)]
pub enum Seat {
    /// With the hub: as it started, or after a Give.
    Here {
        fresh: bool,
        local: Local,
        hand: Hand,
    },
    /// With a lane, since the Take at this place of the journal.
    Out {
        lane: u32,
        place: u64,
    },
}

/// The Stretch of a worker: its turns, and its place in the journal.
#[derive(Clone, Copy)]
pub struct Delay {
    pub turns: u32,
    pub place: u64,
}

/// What the hub keeps of a worker.
#[derive(Drop)]
pub struct Desk {
    pub seat: Seat,
    /// The Stretch since the last Take, where there is one.
    pub delay: Option<Delay>,
    pub round: u64,
    /// When mail came.
    pub pulse: Pulse,
    /// The mail that waits.
    pub buffer: Buffer,
    /// Whether the worker took in this journal.
    pub begun: bool,
}

impl Desk {
    /// Whether a lane has the worker.
    pub fn is_out(&self) -> bool
        ensures { result ≡ is_out self.now }
    {
        match &self.seat {
            Seat::Here { .. } => false,
            Seat::Out { .. } => true,
        }
    }

    /// Whether the worker's values are here and it is fresh.
    pub fn is_fresh(&self) -> bool
        ensures { result ≡ is_fresh_at self.now }
    {
        match &self.seat {
            Seat::Here { fresh, .. } => *fresh,
            Seat::Out { .. } => false,
        }
    }

    /// Whether the worker's values are here and it isn't fresh.
    pub fn rests(&self) -> bool
        ensures { result ≡ rests_at self.now }
    {
        match &self.seat {
            Seat::Here { fresh, .. } => !*fresh,
            Seat::Out { .. } => false,
        }
    }

    /// Whether a batch waits.
    pub fn has_mail(&self) -> bool
        ensures { result ≡ has_mail self.now }
    {
        self.buffer.batches() > 0
    }

    /// Whether the worker has something to do, or does it.
    pub fn is_busy(&self) -> bool
        ensures { result ≡ is_busy_at self.now }
    {
        self.is_fresh() || self.is_out() || self.has_mail()
    }

    /// How many turns a Stretch has, if no pacer adds some.
    pub fn least_turns(&self, policy: &Policy) -> u32
        ensures turns { result ≡ stretch_turns policy.now (batches_in self.now.buffer) self.now.pulse }
        ensures few { result ≤ 64 }
    {
        self.pulse.stretch(policy, self.buffer.batches())
    }

    /// Begins a batch. A worker that rests without mail catches up with the round of the sender.
    pub fn receive(&mut self, sender: Sender)
        requires { CanReceive sender.place self.old }
        ensures { self.new ≡ with_arrival sender self.old }
    {
        if self.rests() && !self.has_mail() {
            self.round = self.round.max(sender.round);
        }
        self.pulse.arrived(sender.place);
        self.buffer.begin_batch(sender.tagged);
    }

    /// Hands out the values, with all mail that waits in the hand, to a lane whose Take stands at this place. Says
    /// first whether the worker takes for the first time in this journal.
    pub fn take(&mut self, lane: u32, place: u64) -> (bool, Local, Hand)
        requires { HandFits self.old self.old.seat }
        ensures { TakesFrom self.old self.old.seat lane place result self.new }
    {
        let seat = replace(&mut self.seat, Seat::Out { lane, place });
        let Seat::Here {
            fresh: _fresh,
            local,
            mut hand,
        } = seat
        else {
            unreachable!()
        };
        self.buffer.take(&mut hand);
        self.delay = None;
        let first = !self.begun;
        self.begun = true;
        (first, local, hand)
    }

    /// Marks the worker with this number in an open recording. Its values are here.
    pub fn record(&self, worker: u32, cut: &mut CutState)
        requires { MayRecord self.now worker cut.old }
        ensures { Records self.now worker cut.old cut.new }
    {
        match &self.seat {
            Seat::Here { fresh, local, .. } => {
                let phase = if *fresh { Phase::Fresh } else { Phase::Rest };
                cut.mark(worker, phase, local.values(), self.buffer.plain());
            }
            Seat::Out { .. } => unreachable!(),
        }
    }

    /// Takes the tokens off all batches that wait.
    pub fn fold(&mut self)
        ensures { self.new ≡ folded_desk self.old }
    {
        self.buffer.fold();
    }

    /// Takes the values back from a lane, with the hand. A new round begins.
    pub fn rest(&mut self, round: u64, local: Local, hand: Hand)
        ensures { self.new ≡ rested_desk round local hand self.old }
    {
        self.round = round;
        self.seat = Seat::Here {
            fresh: false,
            local,
            hand,
        };
    }

    /// The values of the worker where they are here, and else those that were given up.
    pub fn into_local(self, given_up: Option<Local>) -> Local
        requires { IsHereOr self.seat given_up }
        ensures { HasLocalOr self.seat given_up result }
    {
        let Desk {
            seat,
            delay: _delay,
            round: _round,
            pulse: _pulse,
            buffer: _buffer,
            begun: _begun,
        } = self;
        match seat {
            Seat::Here {
                fresh: _fresh,
                local,
                hand: _hand,
            } => local,
            Seat::Out { .. } => given_up.unwrap(),
        }
    }
}

/// A Local of each worker, in order, in an empty list that has room for them: its values where they are here, and else
/// those that were given up.
pub fn into_locals(desks: Vec<Desk>, given_up: Vec<Option<Local>>, empty: Vec<Local>) -> Vec<Local>
    requires here { AreHereOr desks.items given_up.items }
    requires empty { empty.items ≡ [] }
    requires room { length desks.items ≤ vec_capacity empty }
    ensures { HaveLocalsOr desks.items given_up.items result.items }
{
    let mut locals = empty;
    'desks: for (desk, given) in desks.into_iter().zip(given_up) {
        locals.push_reserved(desk.into_local(given));
    }
    locals
}

/// Takes the tokens off all batches that wait for any worker.
pub fn fold_mail(desks: &mut [Desk])
    ensures { desks.new ≡ map folded_desk desks.old }
{
    'desks: for desk in desks.iter_mut() {
        desk.fold();
    }
}
