ghost use Rattle.std.specs.Prelude.{◌≡◌};
ghost use Rattle.hub_engine.specs.Kinds.{rank};

/// A kind of event that a lane looks for. They stand in the order in which it does.
#[derive(Clone, Copy)]
pub enum Kind {
    Mark,
    Take,
    Stretch,
    Ack,
    Nack,
    Flag,
    Hold,
}

impl Kind {
    /// Its place in the order.
    pub fn rank(self) -> u8
        ensures { result ≡ rank self }
    {
        self as u8
    }
}
