ghost use Rattle.std.specs.Prelude.{◌≡◌, ℕ, ◌-◌, ◌*◌, ◌^◌, ◌<◌, ◌≤◌, true, All, length, slice_index, slice_index_or, slice_set, []};
ghost use Rattle.value_order.specs.declared.order.Order.TheVariants.{Mask};
ghost use Rattle.value_order.specs.Order.{Below};
ghost use Rattle.graph_core.specs.Parts.{place_count};
ghost use Rattle.graph_core.specs.Queries.{has_bit};
ghost use Rattle.graph_core.specs.Theorems.{ReadersAreTurnedReadings};
ghost use Rattle.pie_core.specs.Locals.{FitsPart};
ghost use Rattle.pie_core.specs.PlaceSets.{waits};
ghost use Rattle.pie_sim.specs.Falling.{HasLowered};
ghost use Rattle.pie_sim.specs.Counting.{AreCounts, AreOfNodes, OnlyCountersFell, ColumnFell, ColumnsFell, counter_at, times_placed};

use crate::counting::set_counter;
use graph_core::Fragment;
use pie_core::Local;

/// Lowers a counter by one, and lists its place where it becomes 0.
fn lower_counter(local: &mut Local, place: u32, index: usize)
    requires place { place < length local.old.before }
    requires known { length local.old.waiting ≡ length local.old.before }
    requires index { index < length local.old.counters }
    requires counted { 1 ≤ slice_index local.old.counters index }
    ensures only { OnlyCountersFell local.old local.new }
    ensures counters { local.new.counters ≡ slice_set local.old.counters index (slice_index local.old.counters index - 1) }
    ensures zero { slice_index local.new.counters index ≡ 0 → waits local.new.waiting place ≡ true }
{
    let left = local.counters()[index] - 1;
    set_counter(local, index, left);
    if left == 0 {
        local.enqueue(place);
    }
}

/// Lowers in one column the counter of each reader of a place, and lists each reader whose counter becomes 0.
fn lower_column(part: &Fragment, local: &mut Local, place: u32, width: usize, column: usize)
    requires width { width ≤ 64 }
    requires column { column < width }
    requires place { place < place_count part.now }
    requires few { place_count part.now < 2 ^ 32 }
    requires owned { length local.old.before ≡ length part.now.owned }
    requires known { length local.old.waiting ≡ length local.old.before }
    requires room { length local.old.counters ≡ length part.now.owned * width }
    requires counted { (p : ℕ) → p < length part.now.owned → times_placed (slice_index_or part.now.readers place []) p ≤ counter_at width local.old.counters p column }
    ensures { ColumnFell (slice_index_or part.now.readers place []) width column local.old local.new }
{
    'row: for reader in part.readers(place) {
        lower_counter(local, reader.place, reader.place as usize * width + column);
    }
}

/// The same in the column of each node whose bit is among those that fell.
fn lower_columns(nodes: &[u8], part: &Fragment, local: &mut Local, place: u32, fallen: u64)
    requires nodes { All (λ node. node < 64) nodes.now }
    requires width { length nodes.now ≤ 64 }
    requires place { place < place_count part.now }
    requires few { place_count part.now < 2 ^ 32 }
    requires owned { length local.old.before ≡ length part.now.owned }
    requires known { length local.old.waiting ≡ length local.old.before }
    requires room { length local.old.counters ≡ length part.now.owned * length nodes.now }
    requires counted { (p c : ℕ) → p < length part.now.owned → c < length nodes.now → has_bit fallen (slice_index nodes.now c) ≡ true →
        times_placed (slice_index_or part.now.readers place []) p ≤ counter_at (length nodes.now) local.old.counters p c }
    ensures { ColumnsFell nodes.now (slice_index_or part.now.readers place []) fallen (length nodes.now) local.old local.new }
{
    'nodes: for (column, node) in nodes.iter().enumerate() {
        if fallen >> *node & 1 == 1 {
            lower_column(part, local, place, nodes.len(), column);
        }
    }
}

/// Gives a place a value below its own. The counters of its readers fall with it, and a reader whose counter becomes 0 is
/// listed.
pub fn lower_counted(nodes: &[u8], part: &Fragment, local: &mut Local, place: u32, value: u64)
    requires nodes { All (λ node. node < 64) nodes.now }
    requires width { length nodes.now ≤ 64 }
    requires place { place < place_count part.now }
    requires fits { FitsPart part.now local.old }
    requires turned { ReadersAreTurnedReadings part.now }
    requires counts { AreCounts nodes.now part.now local.old }
    requires of_nodes { AreOfNodes nodes.now local.old.values }
    requires below { Below Mask value (slice_index local.old.values place) }
    ensures lowered { HasLowered part.now local.old local.new place value }
    ensures counts { AreCounts nodes.now part.now local.new }
{
    let before = local.values()[place as usize];
    if value != before {
        local.set(place, value);
        lower_columns(nodes, part, local, place, before ^ value);
    }
}
