/// Which of all that a crash may leave.
#[derive(Clone, Copy, Debug, PartialEq, Eq)]
pub enum Pick {
    /// The stable bytes.
    Synced,
    /// What a read gives.
    Read,
    /// As long as a read for an even number and as the stable bytes for an odd one. A pending
    /// place holds the number plus the place, modulo 256, and every other place its stable byte.
    Mixed(u64),
}
