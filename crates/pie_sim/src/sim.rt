ghost use Rattle.std.specs.Prelude.{◌≡◌, ℕ, ◌*◌, ◌<◌, ◌≤◌, ◌↔◌, length, slice_index, IfOk, IsTrue};
ghost use Rattle.value_order.specs.declared.order.Order.TheVariants.{Mask};
ghost use Rattle.value_order.specs.Order.{Below};
ghost use Rattle.graph_core.specs.Graphs.{IsPattern};
ghost use Rattle.graph_core.specs.Theorems.{ReadersAreTurnedReadings};
ghost use Rattle.pie_core.specs.Locals.{FitsPart};
ghost use Rattle.pie_sim.specs.SimJobs.{IsSimOf, HasBit};
ghost use Rattle.pie_sim.specs.Falling.{AreSupported, HasFallen, IsSettled, IsSettledBut, ReadersAreListed, work_left};
ghost use Rattle.pie_sim.specs.Counting.{AreCounts, AreOfNodes};

use crate::counted::lower_counted;
use crate::counting::{count, counted_bits};
use crate::lowering::{lower, lower_mirrors, read_bits};
use crate::nodes::{numbers_of, targets_of};
use grape_port::NoMemory;
use graph_core::{Fragment, Pattern};
use message_buffer::Hand;
use pie_core::{Local, Pie};
use std::alloc::Global;
use std::marker::Model;
use value_order::{Order, below};

/// The program of the simulation of a pattern. It keeps the pattern's links by node: for each node number the nodes to
/// which its links lead, a bit a node. And it keeps the numbers of the pattern's nodes: an owned place has a counter for
/// each of them. Contracts see these two lists.
#[derive(Drop)]
pub struct Sim {
    targets: Vec<u64>,
    nodes: Vec<u8>,
}

impl Model for Sim {
    ghost use Rattle.std.specs.Prelude.{◌≡◌, ◌<◌, ◌≤◌, All, vec_len};
    ghost use Rattle.pie_sim.specs.SimJobs.{SimValues};

    ghost Value = { SimValues };

    ghost view = { λ sim. record { targets = sim.targets.items; nodes = sim.nodes.items } };

    ghost invariant = { λ sim. (vec_len sim.targets ≡ 64) × (vec_len sim.nodes ≤ 64) × All (λ node. node < 64) sim.nodes.items };
}

impl Sim {
    /// The program of a pattern. The labels of its nodes stand in the start values alone.
    pub fn new(alloc: Global, pattern: &Pattern) -> Result<Sim, NoMemory>
        requires { IsPattern pattern.now }
        ensures { IfOk result (λ sim. IsSimOf sim pattern.now) }
    {
        let targets = targets_of(alloc, &pattern.links)?;
        let nodes = numbers_of(alloc, &pattern.nodes)?;
        Ok(Sim { targets, nodes })
    }

    /// The bits of a value that stay where these bits are read: those of nodes whose links all lead to bits read.
    fn kept(&self, value: u64, read: u64) -> u64
        ensures { (k : ℕ) → HasBit result k ↔ (HasBit value k × Below Mask (slice_index self.now.targets k) read) }
    {
        let mut kept = value;
        let mut rest = value;
        'nodes: while rest != 0 {
            let node = rest.trailing_zeros();
            if !below(Order::Mask, self.targets[node as usize], read) {
                kept &= !(1 << node);
            }
            rest &= !(1 << node);
        }
        kept
    }

    /// Takes from an owned place the bits that don't stay, and lists its readers where there are some.
    fn test(&self, part: &Fragment, local: &mut Local, place: u32)
        requires place { place < length part.now.owned }
        requires fits { FitsPart part.now local.old }
        requires listed { ReadersAreListed part.now }
        ensures fallen { HasFallen self.now.targets part.now local.old local.new }
        ensures settled { IsSettledBut place self.now.targets part.now local.old → IsSettled self.now.targets part.now local.new }
        ensures no_more { work_left local.new ≤ work_left local.old }
    {
        let read = read_bits(part, local.values(), place);
        let kept = self.kept(local.values()[place as usize], read);
        lower(part, local, place, kept);
    }

    /// Tests each place that waits by its readings, until none waits or the budget of readings is used up. Says whether
    /// none waits. It reads no more than the budget and one row.
    fn work_off_within(&self, part: &Fragment, local: &mut Local, budget: usize) -> bool
        requires fits { FitsPart part.now local.old }
        requires listed { ReadersAreListed part.now }
        ensures fallen { HasFallen self.now.targets part.now local.old local.new }
        ensures settled { IsSettled self.now.targets part.now local.old → IsSettled self.now.targets part.now local.new }
        ensures supported { IsTrue result → IsSettled self.now.targets part.now local.old → AreSupported self.now.targets part.now local.new.values }
    {
        let mut left = budget;
        'work: while let Some(place) = local.dequeue() {
            self.test(part, local, place);
            let read = part.readings(place).len();
            if left < read {
                return false;
            }
            left -= read;
        }
        true
    }

    /// Takes from an owned place the bits that don't stay, by its counters. The readers of which a counter becomes 0 are
    /// listed.
    fn test_counted(&self, part: &Fragment, local: &mut Local, place: u32)
        requires place { place < length part.now.owned }
        requires fits { FitsPart part.now local.old }
        requires turned { ReadersAreTurnedReadings part.now }
        requires counts { AreCounts self.now.nodes part.now local.old }
        requires of_nodes { AreOfNodes self.now.nodes local.old.values }
        ensures fallen { HasFallen self.now.targets part.now local.old local.new }
        ensures settled { IsSettledBut place self.now.targets part.now local.old → IsSettled self.now.targets part.now local.new }
        ensures no_more { work_left local.new ≤ work_left local.old }
        ensures counts { AreCounts self.now.nodes part.now local.new }
    {
        let read = counted_bits(&self.nodes, part, local, place);
        let kept = self.kept(local.values()[place as usize], read);
        lower_counted(&self.nodes, part, local, place, kept);
    }

    /// Tests each place that waits by its counters, until none waits.
    fn work_off_counted(&self, part: &Fragment, local: &mut Local)
        requires fits { FitsPart part.now local.old }
        requires turned { ReadersAreTurnedReadings part.now }
        requires counts { AreCounts self.now.nodes part.now local.old }
        requires of_nodes { AreOfNodes self.now.nodes local.old.values }
        ensures fallen { HasFallen self.now.targets part.now local.old local.new }
        ensures supported { IsSettled self.now.targets part.now local.old → AreSupported self.now.targets part.now local.new.values }
    {
        'work: while let Some(place) = local.dequeue() {
            self.test_counted(part, local, place);
        }
    }

    /// Counts the readings anew, and tests each place that waits by its counters, until none waits.
    fn work_off(&self, part: &Fragment, local: &mut Local)
        requires fits { FitsPart part.now local.old }
        requires turned { ReadersAreTurnedReadings part.now }
        requires room { length local.old.counters ≡ length part.now.owned * length self.now.nodes }
        requires of_nodes { AreOfNodes self.now.nodes local.old.values }
        ensures fallen { HasFallen self.now.targets part.now local.old local.new }
        ensures supported { IsSettled self.now.targets part.now local.old → AreSupported self.now.targets part.now local.new.values }
    {
        count(&self.nodes, part, local);
        self.work_off_counted(part, local);
    }
}

impl Pie for Sim {
    ghost use Rattle.std.proofs.Common.{refl};
    ghost use Rattle.graph_core.specs.Queries.{equations_of};
    ghost use Rattle.graph_core.proofs.Lawful.{lawful as lawful_equations};
    ghost use Rattle.pie_sim.specs.SimJobs.{IsSimJob, nodes_asked};

    ghost is_for = { λ sim job. IsSimJob sim job };

    ghost equations = { λ sim job. equations_of job };

    ghost counters_for = { λ job. nodes_asked job.query };

    ghost of_query = { λ sim job h. refl };

    ghost lawful = { λ sim job h. lawful_equations job.graph job.query h.is_job.graph };

    fn order(&self) -> Order {
        Order::Mask
    }

    fn counters(&self) -> u32 {
        self.nodes.len() as u32
    }

    fn peval(&self, part: &Fragment, local: &mut Local) {
        local.enqueue_below(part.owned().len() as u32);
        self.work_off(part, local);
    }

    /// The budget is what it takes at least to count anew.
    fn inceval(&self, part: &Fragment, local: &mut Local, hand: &Hand) {
        lower_mirrors(part, local, hand);
        let budget = local.values().len().saturating_add(local.counters().len());
        if !self.work_off_within(part, local, budget) {
            self.work_off(part, local);
        }
    }
}
