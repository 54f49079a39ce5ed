use graph_core::Policy;

/// What the tests of a desk look at beside it.
#[derive(Clone, Copy)]
pub struct Sight {
    pub policy: Policy,
    /// The journal's length: each event is one tick.
    pub clock: u64,
    /// The least round of a busy worker, where one is busy.
    pub least: Option<u64>,
    /// Whether a snapshot is due.
    pub due: bool,
}
