/// How vertices are given to fragments.
#[derive(Clone, Copy, Debug, PartialEq, Eq)]
pub enum Cut {
    /// By index: each fragment owns a run of neighbours.
    Range,
    /// By a hash of the vertex's number.
    Hash,
}

/// How far a fragment may run ahead of those that still have work.
#[derive(Clone, Copy, Debug, PartialEq, Eq)]
pub enum Policy {
    /// Not a round ahead.
    Bsp,
    /// As far as it comes: no fragment waits for another.
    Ap,
    /// At most `c` rounds ahead; `c` is 0 to 1,000,000.
    Ssp { c: u32 },
    /// As `Ssp`, and it lets mail gather for a while, up to `l` batches; `l` is 1 to 1,000,000.
    Aap { c: u32, l: u32 },
}

/// How a query is run. No setting changes its answer.
#[derive(Clone, Copy, Debug, PartialEq, Eq)]
pub struct Settings {
    /// How many fragments the graph is cut into, 1 to 64.
    pub fragments: u32,
    /// How many threads serve them, 1 to 16.
    pub lanes: u32,
    pub cut: Cut,
    pub policy: Policy,
    /// After how many evaluations of fragments a snapshot is due; 0 means none.
    pub snapshot: u32,
}
