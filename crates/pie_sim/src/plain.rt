//! Plain evaluation of a fragment: pass by pass and link by link, each owned place loses the bits that don't stay. What
//! the program leaves is compared with it.

ghost use Rattle.std.specs.Prelude.{◌≡◌, ◌<◌, ◌^◌, length, All};
ghost use Rattle.graph_core.specs.Parts.{place_count};

use graph_core::{Fragment, Job, PatternLink, Query};
use message_buffer::Hand;
use program_trials::Plain;

/// Whether an owned place reads a value with the bit of a node.
fn reads_node(part: &Fragment, values: &[u64], place: u32, node: u8) -> bool
    requires place { place < length part.now.owned }
    requires values { length values.now ≡ place_count part.now }
    requires node { node < 64 }
{
    for reading in part.readings(place) {
        if values[reading.place as usize] >> node & 1 == 1 {
            return true;
        }
    }
    false
}

/// Takes from an owned place the bit of each node of which a link leads to no bit that is read.
fn lower_place(part: &Fragment, links: &[PatternLink], values: &mut [u64], place: u32)
    requires place { place < length part.now.owned }
    requires values { length values.old ≡ place_count part.now }
    requires links { All (λ link. (link.from < 64) × (link.to < 64)) links.now }
{
    let mut kept = values[place as usize];
    for link in links {
        if !reads_node(part, values, place, link.to) {
            kept &= !(1 << link.from);
        }
    }
    values[place as usize] = kept;
}

/// Lowers each owned place once.
fn pass(part: &Fragment, links: &[PatternLink], values: &mut [u64])
    requires few { place_count part.now < 2 ^ 32 }
    requires values { length values.old ≡ place_count part.now }
    requires links { All (λ link. (link.from < 64) × (link.to < 64)) links.now }
{
    let owned = part.owned().len() as u32;
    for place in 0..owned {
        lower_place(part, links, values, place);
    }
}

/// Passes as many times as there are bits: in a later one nothing can fall.
fn evaluate_plainly(part: &Fragment, links: &[PatternLink], values: &mut [u64])
    requires few { place_count part.now < 2 ^ 32 }
    requires values { length values.old ≡ place_count part.now }
    requires links { All (λ link. (link.from < 64) × (link.to < 64)) links.now }
{
    for _ in 0..64 * values.len() {
        pass(part, links, values);
    }
}

/// Plain evaluation of the pattern that a job asks for.
pub struct PlainSim;

impl Plain for PlainSim {
    fn evaluate(&self, job: &Job, part: &Fragment, values: &mut [u64]) {
        if let Query::Sim(pattern) = &job.query {
            evaluate_plainly(part, &pattern.links, values);
        }
    }

    fn meet(&self, part: &Fragment, values: &mut [u64], hand: &Hand) {
        let owned = part.owned().len();
        for (mirror, value) in hand.values().iter().enumerate() {
            values[owned + mirror] &= *value;
        }
    }
}
