ghost use Rattle.std.specs.Prelude.{◌≡◌, ℕ, ◌<◌, true, List, length, slice_index, slice_index_or, []};
ghost use Rattle.value_order.specs.declared.order.Order.TheVariants.{Mask};
ghost use Rattle.value_order.specs.declared.TheConstants.{NOTHING};
ghost use Rattle.value_order.specs.Order.{Below};
ghost use Rattle.graph_core.specs.Parts.{place_count};
ghost use Rattle.graph_core.specs.Queries.{has_bit};
ghost use Rattle.pie_core.specs.Solutions.{mirrors_lowered};
ghost use Rattle.pie_core.specs.Locals.{FitsPart};
ghost use Rattle.pie_core.specs.PlaceSets.{waits};
ghost use Rattle.pie_sim.specs.Falling.{HasLowered, IsSettled, ReadersAreListed, ReadersWait, is_read};

use graph_core::Fragment;
use message_buffer::Hand;
use pie_core::Local;

/// Puts each reader of a place on the worklist.
fn list_readers(part: &Fragment, local: &mut Local, place: u32)
    requires place { place < place_count part.now }
    requires owned { length local.old.before ≡ length part.now.owned }
    requires known { length local.old.waiting ≡ length local.old.before }
    ensures rest { local.new ≡ record local.old { waiting = local.new.waiting } }
    ensures on { (q : ℕ) → waits local.old.waiting q ≡ true → waits local.new.waiting q ≡ true }
    ensures readers { ReadersWait part.now local.new place }
    ensures known { length local.new.waiting ≡ length local.old.waiting }
{
    'row: for reader in part.readers(place) {
        local.enqueue(reader.place);
    }
}

/// Gives a place a value below its own. Where it is another one, the readers of the place are listed.
pub fn lower(part: &Fragment, local: &mut Local, place: u32, value: u64)
    requires place { place < place_count part.now }
    requires fits { FitsPart part.now local.old }
    requires listed { ReadersAreListed part.now }
    requires below { Below Mask value (slice_index local.old.values place) }
    ensures lowered { HasLowered part.now local.old local.new place value }
    ensures counters { local.new.counters ≡ local.old.counters }
{
    if value != local.values()[place as usize] {
        local.set(place, value);
        list_readers(part, local, place);
    }
}

/// The bits that some value has which an owned place reads.
pub fn read_bits(part: &Fragment, values: &[u64], place: u32) -> u64
    requires place { place < length part.now.owned }
    requires values { length values.now ≡ place_count part.now }
    ensures { (m : ℕ) → has_bit result m ≡ is_read (slice_index_or part.now.readings place []) values.now m }
{
    let mut bits = 0;
    'row: for reading in part.readings(place) {
        bits |= values[reading.place as usize];
    }
    bits
}

/// Lowers each mirror by the hand, and lists the readers of each that fell. It looks at no mirror for which no message
/// came.
pub fn lower_mirrors(part: &Fragment, local: &mut Local, hand: &Hand)
    requires fits { FitsPart part.now local.old }
    requires values { (q : ℕ) → Below Mask (slice_index local.old.values q) NOTHING }
    requires listed { ReadersAreListed part.now }
    requires hand { length hand.now.values ≡ length part.now.mirrors }
    ensures values { local.new.values ≡ mirrors_lowered Mask part.now.owned local.old.values hand.now.values }
    ensures before { local.new.before ≡ local.old.before }
    ensures counters { local.new.counters ≡ local.old.counters }
    ensures settled { (targets : List ℕ) → IsSettled targets part.now local.old → IsSettled targets part.now local.new }
{
    let owned = part.owned().len();
    'hand: for mirror in hand.mirrors() {
        let place = owned + *mirror as usize;
        let met = local.values()[place] & hand.values()[*mirror as usize];
        lower(part, local, place as u32, met);
    }
}
