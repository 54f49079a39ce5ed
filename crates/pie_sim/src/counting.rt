ghost use Rattle.std.specs.Prelude.{◌≡◌, ◌≢◌, ℕ, ◌*◌, ◌^◌, ◌<◌, ◌≤◌, All, length, slice_index, slice_index_or, slice_set, []};
ghost use Rattle.graph_core.specs.Parts.{place_count};
ghost use Rattle.graph_core.specs.Queries.{has_bit};
ghost use Rattle.pie_core.specs.Locals.{FitsPart};
ghost use Rattle.pie_sim.specs.Falling.{is_read};
ghost use Rattle.pie_sim.specs.Counting.{AreCounts, AreOfNodes, counter_at, times_read};

use graph_core::Fragment;
use pie_core::Local;

/// Sets one counter.
pub fn set_counter(local: &mut Local, index: usize, count: u64)
    requires { index < length local.old.counters }
    ensures { local.new ≡ record local.old { counters = slice_set local.old.counters index count } }
{
    local.counters_mut()[index] = count;
}

/// How many readings of an owned place have the bit of a node.
fn times_read(part: &Fragment, values: &[u64], place: u32, node: u8) -> u64
    requires place { place < length part.now.owned }
    requires values { length values.now ≡ place_count part.now }
    requires node { node < 64 }
    ensures { result ≡ times_read (slice_index_or part.now.readings place []) values.now node }
{
    let mut times = 0;
    'row: for reading in part.readings(place) {
        times += values[reading.place as usize] >> node & 1;
    }
    times
}

/// Counts the readings of one owned place anew, for each node.
fn count_place(nodes: &[u8], part: &Fragment, local: &mut Local, place: u32)
    requires nodes { All (λ node. node < 64) nodes.now }
    requires width { length nodes.now ≤ 64 }
    requires place { place < length part.now.owned }
    requires fits { FitsPart part.now local.old }
    requires room { length local.old.counters ≡ length part.now.owned * length nodes.now }
    ensures rest { local.new ≡ record local.old { counters = local.new.counters } }
    ensures room { length local.new.counters ≡ length local.old.counters }
    ensures counts { (c : ℕ) → c < length nodes.now → counter_at (length nodes.now) local.new.counters place c ≡ times_read (slice_index_or part.now.readings place []) local.old.values (slice_index nodes.now c) }
    ensures others { (p c : ℕ) → p ≢ place → c < length nodes.now → counter_at (length nodes.now) local.new.counters p c ≡ counter_at (length nodes.now) local.old.counters p c }
{
    let first = place as usize * nodes.len();
    'nodes: for (column, node) in nodes.iter().enumerate() {
        let times = times_read(part, local.values(), place, *node);
        set_counter(local, first + column, times);
    }
}

/// Counts the readings of each owned place anew.
pub fn count(nodes: &[u8], part: &Fragment, local: &mut Local)
    requires nodes { All (λ node. node < 64) nodes.now }
    requires width { length nodes.now ≤ 64 }
    requires fits { FitsPart part.now local.old }
    requires room { length local.old.counters ≡ length part.now.owned * length nodes.now }
    ensures rest { local.new ≡ record local.old { counters = local.new.counters } }
    ensures counts { AreCounts nodes.now part.now local.new }
{
    let owned = part.owned().len() as u32;
    'places: for place in 0..owned {
        count_place(nodes, part, local, place);
    }
}

/// The bits that some value has which an owned place reads, by its counters.
pub fn counted_bits(nodes: &[u8], part: &Fragment, local: &Local, place: u32) -> u64
    requires nodes { All (λ node. node < 64) nodes.now }
    requires width { length nodes.now ≤ 64 }
    requires place { place < length part.now.owned }
    requires few { length part.now.owned < 2 ^ 32 }
    requires counts { AreCounts nodes.now part.now local.now }
    requires of_nodes { AreOfNodes nodes.now local.now.values }
    ensures { (m : ℕ) → has_bit result m ≡ is_read (slice_index_or part.now.readings place []) local.now.values m }
{
    let first = place as usize * nodes.len();
    let mut bits = 0;
    'nodes: for (column, node) in nodes.iter().enumerate() {
        if local.counters()[first + column] != 0 {
            bits |= 1 << *node;
        }
    }
    bits
}
