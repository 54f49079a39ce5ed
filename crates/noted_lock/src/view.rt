//! What the seats of a lock know. No value of these types is made. A clause reads an array as a list, of any length.

/// A seat's number and the value's note for it.
pub struct Claim {
    pub number: u64,
    pub note: [u64; 0],
}

/// What a seat knows of the lock.
pub struct View {
    /// How many seats the lock has.
    pub seats: u64,
    /// The seat's own claim, and those of the seats that it took in while the lock closes.
    pub claims: [Claim; 0],
    /// Whether the seat has the turn.
    pub inside: bool,
    /// While the lock is made, how many seats are made; else 0.
    pub made: u64,
    /// While the seat is inside, the notes of all seats, by their numbers.
    pub notes: [[u64; 0]; 0],
}
