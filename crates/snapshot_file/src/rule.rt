ghost use Rattle.std.specs.Prelude.{◌≡◌};
ghost use Rattle.snapshot_file.specs.Tests.{is_below};
ghost use Rattle.snapshot_file.specs.Rules.{allows_of, rule_of};

use token_cut::Phase;
use value_order::{NOTHING, Order, below};

/// What a number of a part may be, by the start value of its vertex.
#[derive(Clone, Copy, Debug, PartialEq, Eq)]
pub(crate) enum Rule {
    /// The start value.
    Start,
    /// A value that lies below it.
    Below,
    /// A value that lies below it, or `NOTHING`.
    Mail,
}

impl Rule {
    /// What the values of a part in that phase may be.
    pub(crate) fn of_values(phase: Phase) -> Rule
        ensures { result ≡ rule_of phase }
    {
        match phase {
            Phase::Fresh => Rule::Start,
            Phase::Rest => Rule::Below,
        }
    }

    pub(crate) fn allows(self, order: Order, start: u64, number: u64) -> bool
        ensures { result ≡ allows_of self order start number }
    {
        match self {
            Rule::Start => number == start,
            Rule::Below => is_below(order, start, number),
            Rule::Mail => number == NOTHING || is_below(order, start, number),
        }
    }
}

fn is_below(order: Order, start: u64, number: u64) -> bool
    ensures { result ≡ is_below order start number }
{
    below(order, number, start)
}
