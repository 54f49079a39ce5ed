//! The same program by plain evaluation: pass by pass, each owned place by its own equation. It is the program that the
//! fast one is compared with.

ghost use Rattle.std.specs.Prelude.{◌≡◌, ℕ, ◌<◌, false, length, min, slice_index};
ghost use Rattle.graph_core.specs.Parts.{place_count};
ghost use Rattle.pie_core.specs.Locals.{FitsPart};
ghost use Rattle.pie_core.specs.LocalCalls.{with_value};
ghost use Rattle.pie_lowering.specs.LeastEquations.{whole_weight};
ghost use Rattle.pie_lowering.specs.Lowering.{AreAtMostFar, HasFallen, HoldsAllReaders, with_mirrors};
ghost use Rattle.pie_dist.specs.ByReadings.{HasLoweredPlace, HasPassed, IsLeastAt, RowsMatch};

use graph_core::Fragment;
use message_buffer::Hand;
use pie_core::{Local, Pie};
use std::cmp::min;
use value_order::Order;

/// The program of distances, by plain evaluation. It keeps nothing, has no counters, and leaves the worklist alone.
#[derive(Drop)]
pub struct PlainDist;

impl Pie for PlainDist {
    ghost use Rattle.std.proofs.Common.{refl};
    ghost use Rattle.graph_core.specs.Queries.{equations_of};
    ghost use Rattle.graph_core.proofs.Lawful.{lawful as lawful_equations};
    ghost use Rattle.pie_dist.specs.DistJobs.{IsDistJob};

    ghost is_for = { λ dist job. IsDistJob job };

    ghost equations = { λ dist job. equations_of job };

    ghost counters_for = { λ job. 0 };

    ghost of_query = { λ dist job h. refl };

    ghost lawful = { λ dist job h. lawful_equations job.graph job.query h.0.graph };

    fn order(&self) -> Order {
        Order::Least
    }

    fn counters(&self) -> u32 {
        0
    }

    fn peval(&self, part: &Fragment, local: &mut Local) {
        lower_to_solution(part, local);
    }

    fn inceval(&self, part: &Fragment, local: &mut Local, hand: &Hand) {
        meet_mirrors(part, local, hand);
        lower_to_solution(part, local);
    }
}

/// The least of the place's own value and the values that it reads, each with its weight.
fn least_at(part: &Fragment, values: &[u64], place: u32) -> u64
    requires place { place < length part.now.owned }
    requires values { length values.now ≡ place_count part.now }
    requires at_most_far { AreAtMostFar values.now }
    ensures { IsLeastAt part.now values.now place result }
{
    let mut least = values[place as usize];
    'row: for reading in part.readings(place) {
        let offer = values[reading.place as usize] + u64::from(reading.weight);
        least = min(least, offer);
    }
    least
}

/// Lowers an owned place by its readings. Says whether its value fell.
fn lower_place(part: &Fragment, local: &mut Local, place: u32) -> bool
    requires place { place < length part.now.owned }
    requires fits { FitsPart part.now local.old }
    requires at_most_far { AreAtMostFar local.old.values }
    requires rows_match { RowsMatch part.now }
    ensures { HasLoweredPlace part.now local.old local.new place result }
{
    let least = least_at(part, local.values(), place);
    if least < local.values()[place as usize] {
        local.set(place, least);
        true
    } else {
        false
    }
}

/// Lowers each owned place by its readings, once. Says whether a value fell.
fn lower_by_readings(part: &Fragment, local: &mut Local) -> bool
    requires fits { FitsPart part.now local.old }
    requires at_most_far { AreAtMostFar local.old.values }
    requires rows_match { RowsMatch part.now }
    ensures { HasPassed part.now local.old local.new result }
{
    let owned = part.owned().len() as u32;
    let mut fell = false;
    'places: for place in 0..owned {
        fell |= lower_place(part, local, place);
    }
    fell
}

/// Lowers the owned places by their readings until none falls.
fn lower_to_solution(part: &Fragment, local: &mut Local)
    requires fits { FitsPart part.now local.old }
    requires at_most_far { AreAtMostFar local.old.values }
    requires rows_match { RowsMatch part.now }
    ensures fallen { HasFallen whole_weight part.now local.old local.new }
    ensures relaxed { HoldsAllReaders whole_weight part.now local.new.values }
{
    'passes: while lower_by_readings(part, local) {}
}

/// Sets a place to the less of its value and this one.
fn meet_place(local: &mut Local, place: u32, value: u64)
    requires { place < length local.old.values }
    ensures { local.new ≡ with_value local.old place (min (slice_index local.old.values place) value) }
{
    let least = min(local.values()[place as usize], value);
    local.set(place, least);
}

/// Lowers each mirror by the hand.
fn meet_mirrors(part: &Fragment, local: &mut Local, hand: &Hand)
    requires fits { FitsPart part.now local.old }
    requires hand { length hand.now.values ≡ length part.now.mirrors }
    ensures { local.new ≡ with_mirrors part.now local.old hand.now.values }
{
    let owned = part.owned().len();
    'hand: for (mirror, value) in hand.values().iter().enumerate() {
        meet_place(local, (owned + mirror) as u32, *value);
    }
}
