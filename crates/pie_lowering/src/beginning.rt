ghost use Rattle.std.specs.Prelude.{◌≡◌, ℕ, ◌<◌, ◌≤◌, length};
ghost use Rattle.graph_core.specs.Parts.{place_count};
ghost use Rattle.pie_core.specs.Locals.{FitsPart};
ghost use Rattle.pie_lowering.specs.Lowering.{AreAtMostFar, HasFallen, WaitsOrHolds};

use crate::cost::Cost;
use crate::lowering::work_off;
use graph_core::{FAR, Fragment};
use message_buffer::Hand;
use pie_core::Local;

/// Begins at each owned place in turn: each waits or holds its readers afterwards. Where values spread as they are, each is
/// spread as far as it goes before the next, so that what is connected takes its value from its first place.
pub fn begin<C: Cost>(part: &Fragment, local: &mut Local)
    requires fits { FitsPart part.now local.old }
    requires at_most_far { AreAtMostFar local.old.values }
    ensures fallen { HasFallen C.cost_of part.now local.old local.new }
    ensures begun { (place : ℕ) → place < length part.now.owned → WaitsOrHolds C.cost_of part.now local.new place }
{
    let owned = part.owned().len() as u32;
    'places: for place in 0..owned {
        begin_at::<C>(part, local, place);
    }
}

/// Begins at an owned place. One with the value `FAR` holds its readers as it is, since no value is greater.
fn begin_at<C: Cost>(part: &Fragment, local: &mut Local, place: u32)
    requires owned { place < length part.now.owned }
    requires fits { FitsPart part.now local.old }
    requires at_most_far { AreAtMostFar local.old.values }
    ensures fallen { HasFallen C.cost_of part.now local.old local.new }
    ensures begun { WaitsOrHolds C.cost_of part.now local.new place }
    ensures others { (other : ℕ) → other < place_count part.now → WaitsOrHolds C.cost_of part.now local.old other → WaitsOrHolds C.cost_of part.now local.new other }
{
    if local.values()[place as usize] < FAR {
        local.enqueue(place);
        if C::is_nothing() {
            work_off::<C>(part, local);
        }
    }
}

/// Where values spread as they are, the shelves are spaced by the greatest of the mirrors' values.
pub fn space_by_mirrors<C: Cost>(part: &Fragment, local: &mut Local)
    requires { FitsPart part.now local.old }
    ensures { local.new ≡ local.old }
{
    if C::is_nothing() {
        let values = local.values();
        let apart = greatest_of(&values[part.owned().len()..]);
        local.space_shelves(apart);
    }
}

/// Spaces the shelves by how far apart the values in the hand lie, so that places come from the least on. Values that spread
/// as they are stay among those of the hand.
pub fn space_by_hand<C: Cost>(local: &mut Local, hand: &Hand)
    ensures { local.new ≡ local.old }
{
    if C::is_nothing() {
        local.space_shelves(spread_of(hand));
    } else {
        local.spread_shelves(spread_of(hand));
    }
}

/// The greatest value, and 0 where there is none.
fn greatest_of(values: &[u64]) -> u64 {
    let mut greatest = 0;
    for value in values {
        greatest = greatest.max(*value);
    }
    greatest
}

/// How far apart the values in a hand lie, and 0 where it is empty.
fn spread_of(hand: &Hand) -> u64 {
    let values = hand.values();
    let mut least = u64::MAX;
    let mut greatest = 0;
    for mirror in hand.mirrors() {
        let value = values[*mirror as usize];
        least = least.min(value);
        greatest = greatest.max(value);
    }
    greatest.saturating_sub(least)
}
