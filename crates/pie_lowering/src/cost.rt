ghost use Rattle.std.specs.Prelude.{◌≡◌, ℕ, ◌≤◌, IsTrue};

/// What is added to a value that is read, by the weight of the edge between.
pub trait Cost {
    /// The cost of a weight.
    ghost cost_of: { ℕ → ℕ };

    /// The cost of a weight. It is at most the weight, so that a value and a cost fit 64 bits together.
    fn cost(weight: u32) -> u64
        ensures exact { result ≡ cost_of weight }
        ensures at_most { result ≤ weight };

    /// Whether every weight costs nothing, so that values spread as they are.
    fn is_nothing() -> bool
        ensures { IsTrue result → (weight : ℕ) → cost_of weight ≡ 0 };
}

/// The whole weight is added, as for distances.
#[derive(Drop)]
pub struct Weights;

impl Cost for Weights {
    ghost use Rattle.pie_lowering.specs.LeastEquations.{whole_weight};

    ghost cost_of = { whole_weight };

    fn cost(weight: u32) -> u64 {
        u64::from(weight)
    }

    fn is_nothing() -> bool {
        false
    }
}

/// Nothing is added, as for labels and reachability.
#[derive(Drop)]
pub struct NoCost;

impl Cost for NoCost {
    ghost use Rattle.pie_lowering.specs.LeastEquations.{no_cost};

    ghost cost_of = { no_cost };

    fn cost(_weight: u32) -> u64 {
        0
    }

    fn is_nothing() -> bool {
        true
    }
}
