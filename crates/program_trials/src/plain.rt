ghost use Rattle.std.specs.Prelude.{◌≡◌, ◌<◌, ◌^◌, length};
ghost use Rattle.graph_core.specs.Graphs.{IsJob};
ghost use Rattle.graph_core.specs.Parts.{place_count};

use graph_core::{Fragment, Job};
use message_buffer::Hand;

/// Plain evaluation of fragments, with whose values those of a program are compared. It promises nothing.
pub trait Plain {
    /// Lowers the owned values until none falls. There is a value for each place.
    fn evaluate(&self, job: &Job, part: &Fragment, values: &mut [u64])
        requires job { IsJob job.now }
        requires few { place_count part.now < 2 ^ 32 }
        requires values { length values.old ≡ place_count part.now };

    /// Lowers each mirror by the hand. There is a value for each place, and the hand has one for each mirror.
    fn meet(&self, part: &Fragment, values: &mut [u64], hand: &Hand)
        requires values { length values.old ≡ place_count part.now }
        requires hand { length hand.now.values ≡ length part.now.mirrors };
}
