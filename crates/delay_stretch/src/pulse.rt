ghost use Rattle.std.specs.Prelude.{◌≡◌, ◌≤◌, [], ◌∷◌, IfOk, length};
ghost use Rattle.legal_journal.specs.Delays.{window, mean_gap, stretch_turns};
ghost use Rattle.delay_stretch.specs.Arrivals.{IsNotBelowLast};

use circular_buffer::HeapCircularBuffer;
use grape_port::NoMemory;
use graph_core::Policy;
use std::alloc::Global;
use std::marker::Model;

/// How many arrivals count.
const WINDOW: usize = 8;

/// The most turns of a stretch.
const MOST_TURNS: u64 = 64;

/// The clocks of the last eight arrivals of mail at a worker. Contracts see the list of them, newest first.
#[derive(Drop)]
pub struct Pulse {
    clocks: HeapCircularBuffer<u64>,
}

impl Model for Pulse {
    ghost use Rattle.std.specs.Prelude.{◌≡◌, ℕ, ◌≤◌, List, length};
    ghost use Rattle.delay_stretch.specs.Arrivals.{AreNewestFirst};

    ghost Value = { List ℕ };

    ghost view = { λ p. p.clocks.items };

    ghost invariant = { λ p. (p.clocks.capacity ≡ 8) × (length p.clocks.items ≤ 8) × AreNewestFirst p.clocks.items };
}

impl Pulse {
    /// No arrivals yet. All the memory that it needs is taken at once.
    pub fn new(alloc: Global) -> Result<Pulse, NoMemory>
        ensures { IfOk result (λ pulse. pulse ≡ []) }
    {
        Ok(Pulse {
            clocks: HeapCircularBuffer::with_capacity(alloc, WINDOW)?,
        })
    }

    /// Mail arrives when the clock shows this, which isn't below what it showed at the arrival before. Of nine arrivals
    /// the oldest is forgotten.
    pub fn arrived(&mut self, clock: u64)
        requires { IsNotBelowLast clock self.old }
        ensures { self.new ≡ window (clock ∷ self.old) }
    {
        self.clocks.push_front(clock);
    }

    /// For how many turns the worker lets mail gather, while so many batches wait for it. Under `Aap` it is the mean gap
    /// between the last eight arrivals, rounded down, for each batch that is missing to `l`, and at most 64; it is 0
    /// where no batch is missing or fewer than two have arrived, and under the other policies.
    pub fn stretch(&self, policy: &Policy, batches: u64) -> u32
        ensures turns { result ≡ stretch_turns policy.now batches self.now }
        ensures few { result ≤ 64 }
    {
        match *policy {
            Policy::Aap { c: _, l } => {
                let enough = u64::from(l);
                if self.clocks.len() < 2 || enough <= batches {
                    return 0;
                }
                let missing = enough - batches;
                missing.saturating_mul(self.mean_gap()).min(MOST_TURNS) as u32
            }
            Policy::Bsp | Policy::Ap | Policy::Ssp { .. } => 0,
        }
    }

    /// The mean gap between the arrivals, rounded down. There are at least two.
    fn mean_gap(&self) -> u64
        requires { 2 ≤ length self.now }
        ensures { result ≡ mean_gap self.now }
    {
        match (self.clocks.front(), self.clocks.back()) {
            (Some(newest), Some(oldest)) => (*newest - *oldest) / (self.clocks.len() as u64 - 1),
            _ => unreachable!(),
        }
    }
}
