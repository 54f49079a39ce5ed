use grape_event::Journal;
use recovery::KeptAt;
use token_cut::Snapshot;

/// What happened in a run.
#[derive(Drop)]
pub struct Story {
    /// The state from which it started.
    pub start: Snapshot,
    /// Its events, the last of which is an End or a Stop.
    pub journal: Journal,
    /// The snapshots that were kept, in order. Each Kept of the journal has its entry, and where the journal ended before
    /// a snapshot that was put could be noted in it, that one has an entry too.
    pub kept: Vec<KeptAt>,
}
