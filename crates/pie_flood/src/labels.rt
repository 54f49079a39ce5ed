use graph_core::Fragment;
use message_buffer::Hand;
use pie_core::{Local, Pie};
use pie_lowering::{NoCost, evaluate, evaluate_again};
use value_order::Order;

/// The program of labels: the least number of a vertex that is joined to one, whatever the edges' directions. It keeps
/// nothing of its own, and has no counters.
#[derive(Drop)]
pub struct Labels;

impl Labels {
    /// The program. A vertex's own number stands in the start values.
    pub fn new() -> Labels {
        Labels
    }
}

impl Pie for Labels {
    ghost use Rattle.std.proofs.Common.{refl};
    ghost use Rattle.graph_core.specs.Queries.{equations_of};
    ghost use Rattle.graph_core.proofs.Lawful.{lawful as lawful_equations};
    ghost use Rattle.pie_flood.specs.FloodJobs.{IsLabelJob};

    ghost is_for = { λ labels job. IsLabelJob job };

    ghost equations = { λ labels job. equations_of job };

    ghost counters_for = { λ job. 0 };

    ghost of_query = { λ labels job h. refl };

    ghost lawful = { λ labels job h. lawful_equations job.graph job.query h.0.graph };

    fn order(&self) -> Order {
        Order::Least
    }

    fn counters(&self) -> u32 {
        0
    }

    fn peval(&self, part: &Fragment, local: &mut Local) {
        evaluate::<NoCost>(part, local);
    }

    fn inceval(&self, part: &Fragment, local: &mut Local, hand: &Hand) {
        evaluate_again::<NoCost>(part, local, hand);
    }
}
