//! Plain evaluation of a fragment: pass by pass, each owned place is lowered to the least value that it reads. What the
//! programs leave is compared with it.

ghost use Rattle.std.specs.Prelude.{◌≡◌, ◌<◌, ◌^◌, length};
ghost use Rattle.graph_core.specs.Parts.{place_count};

use graph_core::{Fragment, Job};
use message_buffer::Hand;
use program_trials::Plain;
use std::cmp::min;

/// Lowers an owned place to the least value that it reads.
fn lower_place(part: &Fragment, values: &mut [u64], place: u32)
    requires place { place < length part.now.owned }
    requires values { length values.old ≡ place_count part.now }
{
    let mut least = values[place as usize];
    for reading in part.readings(place) {
        least = min(least, values[reading.place as usize]);
    }
    values[place as usize] = least;
}

/// Lowers each owned place once.
fn pass(part: &Fragment, values: &mut [u64])
    requires few { place_count part.now < 2 ^ 32 }
    requires values { length values.old ≡ place_count part.now }
{
    let owned = part.owned().len() as u32;
    for place in 0..owned {
        lower_place(part, values, place);
    }
}

/// Plain evaluation of labels and of reachability alike.
pub struct PlainFlood;

impl Plain for PlainFlood {
    /// Passes as many times as there are places: in a later one nothing can fall.
    fn evaluate(&self, _job: &Job, part: &Fragment, values: &mut [u64]) {
        for _ in 0..values.len() {
            pass(part, values);
        }
    }

    fn meet(&self, part: &Fragment, values: &mut [u64], hand: &Hand) {
        let owned = part.owned().len();
        for (mirror, value) in hand.values().iter().enumerate() {
            values[owned + mirror] = min(values[owned + mirror], *value);
        }
    }
}
