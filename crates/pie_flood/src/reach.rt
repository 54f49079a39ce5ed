use graph_core::Fragment;
use message_buffer::Hand;
use pie_core::{Local, Pie};
use pie_lowering::{NoCost, evaluate, evaluate_again};
use value_order::Order;

/// The program of reachability: 0 where a walk from the source leads to a vertex, and else 1. It keeps nothing of its
/// own, and has no counters.
#[derive(Drop)]
pub struct Reach;

impl Reach {
    /// The program. The source is the job's, and stands in the start values alone.
    pub fn new() -> Reach {
        Reach
    }
}

impl Pie for Reach {
    ghost use Rattle.std.proofs.Common.{refl};
    ghost use Rattle.graph_core.specs.Queries.{equations_of};
    ghost use Rattle.graph_core.proofs.Lawful.{lawful as lawful_equations};
    ghost use Rattle.pie_flood.specs.FloodJobs.{IsReachJob};

    ghost is_for = { λ reach job. IsReachJob job };

    ghost equations = { λ reach job. equations_of job };

    ghost counters_for = { λ job. 0 };

    ghost of_query = { λ reach job h. refl };

    ghost lawful = { λ reach job h. lawful_equations job.graph job.query h.0.graph };

    fn order(&self) -> Order {
        Order::Least
    }

    fn counters(&self) -> u32 {
        0
    }

    fn peval(&self, part: &Fragment, local: &mut Local) {
        evaluate::<NoCost>(part, local);
    }

    fn inceval(&self, part: &Fragment, local: &mut Local, hand: &Hand) {
        evaluate_again::<NoCost>(part, local, hand);
    }
}
