/// What a lane's turn did.
#[derive(Clone, Copy, Debug, PartialEq, Eq)]
pub enum Served {
    /// An event was appended; after a Take the Work was evaluated and given back.
    Did,
    /// There was nothing to do for the lane, and the journal hadn't ended.
    Idle,
    /// The journal has ended.
    Ended,
    /// There was no memory for an event, and a Stop of the cause `Memory` was appended where the journal hadn't ended.
    NoMemory,
}
