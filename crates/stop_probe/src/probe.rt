ghost use Rattle.std.specs.Prelude.{◌≡◌, ◌<◌, ◌≤◌, false, IsTrue};
ghost use Rattle.stop_probe.specs.Probe.{may_flag, may_ask, may_answer, may_end, took_since_ask, is_open, all_of, new_probe, after_flag, after_ask, after_ack, after_nack, after_take};

use std::marker::Model;

/// The most workers that a probe knows.
const MOST: usize = 64;

/// The flags of up to 64 workers, and their answers to the last Ask. Workers count from 0. It takes no memory.
///
/// A worker raises its flag where it rests without mail. Once all flags are up all workers are asked, and each answers
/// Ack where it still rests without mail and took nothing since it was asked, and Nack otherwise. Contracts see the
/// lists of flags and answers, with an entry a worker.
#[derive(Drop)]
pub struct Probe {
    workers: u32,
    flags: [bool; MOST],
    asked: bool,
    nacked: bool,
    answered: [bool; MOST],
    took: [bool; MOST],
}

impl Model for Probe {
    ghost use Rattle.std.specs.Prelude.{◌≤◌, take};
    ghost use Rattle.stop_probe.specs.ProbeValues.{ProbeValues};

    ghost Value = { ProbeValues };

    ghost view = { λ p. record { workers = p.workers; flags = take p.workers p.flags; asked = p.asked; nacked = p.nacked; answered = take p.workers p.answered; took = take p.workers p.took } };

    ghost invariant = { λ p. p.workers ≤ 64 };
}

impl Probe {
    /// All flags are down, and nobody was asked. There are 1 to 64 workers.
    pub fn new(workers: u32) -> Probe
        requires some { 1 ≤ workers }
        requires few { workers ≤ 64 }
        ensures { result ≡ new_probe workers }
    {
        Probe {
            workers,
            flags: [false; MOST],
            asked: false,
            nacked: false,
            answered: [false; MOST],
            took: [false; MOST],
        }
    }

    /// Whether the worker's flag is down. False for a number that no worker has.
    pub fn may_flag(&self, worker: u32) -> bool
        ensures { result ≡ may_flag worker self.now }
    {
        worker < self.workers && !self.flags[worker as usize]
    }

    /// Whether all flags are up, and there was no Ask or a Nack followed the last one.
    pub fn may_ask(&self) -> bool
        ensures { result ≡ may_ask self.now }
    {
        all_of(&self.flags[..self.workers as usize]) && (!self.asked || self.nacked)
    }

    /// Whether a probe is open that the worker has not answered. False for a number that no worker has.
    pub fn may_answer(&self, worker: u32) -> bool
        ensures { result ≡ may_answer worker self.now }
    {
        worker < self.workers && self.is_open() && !self.answered[worker as usize]
    }

    /// Whether every worker has answered the last Ask with Ack.
    pub fn may_end(&self) -> bool
        ensures { result ≡ may_end self.now }
    {
        self.asked && all_of(&self.answered[..self.workers as usize])
    }

    /// Whether the worker took since the last Ask, or since the start where there was none.
    pub fn took_since_ask(&self, worker: u32) -> bool
        requires { worker < self.now.workers }
        ensures { result ≡ took_since_ask worker self.now }
    {
        self.took[worker as usize]
    }

    /// The worker's flag rises.
    pub fn flag(&mut self, worker: u32)
        requires { IsTrue (may_flag worker self.old) }
        ensures { self.new ≡ after_flag worker self.old }
    {
        self.flags[worker as usize] = true;
    }

    /// All workers are asked, and a probe is open.
    pub fn ask(&mut self)
        requires { IsTrue (may_ask self.old) }
        ensures { self.new ≡ after_ask self.old }
    {
        self.asked = true;
        self.nacked = false;
        self.answered = [false; MOST];
        self.took = [false; MOST];
    }

    /// The worker answers that the run may end as far as it knows. It took nothing since the Ask.
    pub fn ack(&mut self, worker: u32)
        requires admitted { IsTrue (may_answer worker self.old) }
        requires idle { took_since_ask worker self.old ≡ false }
        ensures { self.new ≡ after_ack worker self.old }
    {
        self.answered[worker as usize] = true;
    }

    /// The worker answers that the run may not end. The probe closes, and the worker's flag falls.
    pub fn nack(&mut self, worker: u32)
        requires { IsTrue (may_answer worker self.old) }
        ensures { self.new ≡ after_nack worker self.old }
    {
        self.nacked = true;
        self.flags[worker as usize] = false;
    }

    /// The worker takes its mail, and its flag falls.
    pub fn took(&mut self, worker: u32)
        requires { worker < self.old.workers }
        ensures { self.new ≡ after_take worker self.old }
    {
        let place = worker as usize;
        self.took[place] = true;
        self.flags[place] = false;
    }

    /// Whether there was an Ask, no Nack since, and some worker has not answered it.
    fn is_open(&self) -> bool
        ensures { result ≡ is_open self.now }
    {
        self.asked && !self.nacked && !self.may_end()
    }
}

/// Whether every bit is set.
fn all_of(bits: &[bool]) -> bool
    ensures { result ≡ all_of bits.now }
{
    bits.iter().all(|bit| *bit)
}
