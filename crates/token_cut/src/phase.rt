/// Whether a worker has begun.
#[derive(Clone, Copy, Debug, PartialEq, Eq)]
pub enum Phase {
    /// It has taken no work yet.
    Fresh,
    /// It has taken work, and has none under way.
    Rest,
}
