ghost use Rattle.std.specs.Prelude.{ℕ, ◌≤◌, List, length};
ghost use Rattle.value_order.specs.Order.{height_of, Falls, MeetLaws};

use crate::order::Order;

/// The meet is associative, commutative and idempotent, gives the greatest value below both, and has
/// `NOTHING` as neutral.
pub fn meet_laws()
    ensures { (o : Order) → MeetLaws o }
{}

/// A value falls at most as often as its height says.
pub fn falls_are_few()
    ensures { (o : Order) (top : ℕ) (values : List ℕ) → Falls o top values → length values ≤ height_of o top }
{}
