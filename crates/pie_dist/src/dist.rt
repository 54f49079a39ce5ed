use graph_core::Fragment;
use message_buffer::Hand;
use pie_core::{Local, Pie};
use pie_lowering::{Weights, evaluate, evaluate_again};
use value_order::Order;

/// The program of distances. It keeps nothing of its own, and has no counters.
#[derive(Drop)]
pub struct Dist;

impl Dist {
    /// The program. The source is the job's, and stands in the start values alone.
    pub fn new() -> Dist {
        Dist
    }
}

impl Pie for Dist {
    ghost use Rattle.std.proofs.Common.{refl};
    ghost use Rattle.graph_core.specs.Queries.{equations_of};
    ghost use Rattle.graph_core.proofs.Lawful.{lawful as lawful_equations};
    ghost use Rattle.pie_dist.specs.DistJobs.{IsDistJob};

    ghost is_for = { λ dist job. IsDistJob job };

    ghost equations = { λ dist job. equations_of job };

    ghost counters_for = { λ job. 0 };

    ghost of_query = { λ dist job h. refl };

    ghost lawful = { λ dist job h. lawful_equations job.graph job.query h.0.graph };

    fn order(&self) -> Order {
        Order::Least
    }

    fn counters(&self) -> u32 {
        0
    }

    fn peval(&self, part: &Fragment, local: &mut Local) {
        evaluate::<Weights>(part, local);
    }

    fn inceval(&self, part: &Fragment, local: &mut Local, hand: &Hand) {
        evaluate_again::<Weights>(part, local, hand);
    }
}
