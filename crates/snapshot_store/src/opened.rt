use crate::store::Store;
use token_cut::Snapshot;

/// What a file held.
#[derive(Drop)]
pub enum Opened {
    /// No snapshot was kept, or the file isn't whole.
    Nothing,
    /// The last snapshot that was kept, and the store to go on with.
    Last(Store, Snapshot),
}
