ghost use Rattle.std.specs.Prelude.{◌≡◌, ℕ, ◌<◌, ◌≤◌, length, min, slice_index};
ghost use Rattle.graph_core.specs.Parts.{place_count};
ghost use Rattle.pie_core.specs.Locals.{IsLocal, FitsPart};
ghost use Rattle.pie_core.specs.LocalCalls.{with_value};
ghost use Rattle.pie_lowering.specs.Lowering.{AreAtMostFar, HasFallen, HoldsReaders, WaitsOrHolds, IsSettled, WaitWhereFell, lowered_to, with_mirrors};

use crate::cost::Cost;
use graph_core::Fragment;
use message_buffer::Hand;
use pie_core::Local;

/// Lowers the value of an owned place and puts it on the worklist, where the new value is less than its own.
fn lower(local: &mut Local, reader: u32, value: u64)
    requires place { reader < length local.old.values }
    requires owned { reader < length local.old.before }
    ensures lowered { local.new ≡ lowered_to local.old reader value }
    ensures local { IsLocal local.old }
{
    if value < local.values()[reader as usize] {
        local.set(reader, value);
        local.enqueue(reader);
    }
}

/// Lowers each reader of a place to the place's value and the cost of the weight between them, where that is less.
fn lower_readers<C: Cost>(part: &Fragment, local: &mut Local, place: u32)
    requires place { place < place_count part.now }
    requires fits { FitsPart part.now local.old }
    requires at_most_far { AreAtMostFar local.old.values }
    ensures fallen { HasFallen C.cost_of part.now local.old local.new }
    ensures waits { WaitWhereFell local.old local.new }
    ensures holds { HoldsReaders C.cost_of part.now local.new.values place }
{
    let value = local.values()[place as usize];
    'row: for reader in part.readers(place) {
        lower(local, reader.place, value + C::cost(reader.weight));
    }
}

/// Lowers the readers of each mirror. Where each owned place waits or holds its readers, each place does afterwards.
pub fn lower_mirror_readers<C: Cost>(part: &Fragment, local: &mut Local)
    requires fits { FitsPart part.now local.old }
    requires at_most_far { AreAtMostFar local.old.values }
    ensures fallen { HasFallen C.cost_of part.now local.old local.new }
    ensures settled { ((place : ℕ) → place < length part.now.owned → WaitsOrHolds C.cost_of part.now local.old place) → IsSettled C.cost_of part.now local.new }
{
    let owned = part.owned().len() as u32;
    let places = owned + part.mirrors().len() as u32;
    'mirrors: for place in owned..places {
        lower_readers::<C>(part, local, place);
    }
}

/// Lowers the readers of each place that waits, until none waits. A place that waited or held its readers holds them
/// afterwards.
pub fn work_off<C: Cost>(part: &Fragment, local: &mut Local)
    requires fits { FitsPart part.now local.old }
    requires at_most_far { AreAtMostFar local.old.values }
    ensures fallen { HasFallen C.cost_of part.now local.old local.new }
    ensures holds { (place : ℕ) → place < place_count part.now → WaitsOrHolds C.cost_of part.now local.old place → HoldsReaders C.cost_of part.now local.new.values place }
{
    'work: while let Some(place) = local.dequeue() {
        lower_readers::<C>(part, local, place);
    }
}

/// Lowers the value of a mirror, and then that of each reader, where the new value is less than its own.
fn lower_mirror<C: Cost>(part: &Fragment, local: &mut Local, place: u32, value: u64)
    requires mirror { length part.now.owned ≤ place }
    requires place { place < place_count part.now }
    requires fits { FitsPart part.now local.old }
    requires at_most_far { AreAtMostFar local.old.values }
    ensures fallen { HasFallen C.cost_of part.now (with_value local.old place (min (slice_index local.old.values place) value)) local.new }
    ensures settled { IsSettled C.cost_of part.now local.old → IsSettled C.cost_of part.now local.new }
{
    if value < local.values()[place as usize] {
        local.set(place, value);
        lower_readers::<C>(part, local, place);
    }
}

/// Lowers each mirror by the hand, and the readers of each that fell. Goes over the mirrors that the hand lists alone.
pub fn lower_mirrors<C: Cost>(part: &Fragment, local: &mut Local, hand: &Hand)
    requires fits { FitsPart part.now local.old }
    requires at_most_far { AreAtMostFar local.old.values }
    requires hand { length hand.now.values ≡ length part.now.mirrors }
    ensures fallen { HasFallen C.cost_of part.now (with_mirrors part.now local.old hand.now.values) local.new }
    ensures settled { IsSettled C.cost_of part.now local.old → IsSettled C.cost_of part.now local.new }
{
    let owned = part.owned().len() as u32;
    let values = hand.values();
    'hand: for mirror in hand.mirrors() {
        lower_mirror::<C>(part, local, owned + *mirror, values[*mirror as usize]);
    }
}
