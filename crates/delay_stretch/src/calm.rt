ghost use Rattle.std.specs.Prelude.{◌≡◌};

use crate::Pacer;

/// A pacer that adds no turns.
#[derive(Drop)]
pub struct Calm;

impl Pacer for Calm {
    fn extra(&mut self, _worker: u32, _waiting: u32) -> u32
        ensures { result ≡ 0 }
    {
        0
    }
}
