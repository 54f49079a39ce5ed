use grape_event::Event;
use message_buffer::Hand;
use pie_core::Local;

/// What a lane evaluates: the values of a worker, and the mail that it took.
///
/// Where it is fresh the lane runs PEval, and where the hand isn't empty IncEval. It gives the Work back to the hub.
#[derive(Drop)]
pub struct Work {
    /// The number of the worker, which is that of its fragment.
    pub worker: u32,
    /// The place of its Take in the journal.
    pub place: u64,
    /// Whether this is the worker's first Take in the journal.
    pub fresh: bool,
    /// The values of the worker at the Take.
    pub local: Local,
    /// For each mirror the meet of the mail that waited, that of the start included; `NOTHING` where none did.
    pub hand: Hand,
}

/// What a lane is to do next.
#[derive(Drop)]
pub enum Next {
    /// A Take was appended, and this is to be evaluated.
    Took(Work),
    /// Another event was appended.
    Did(Event),
    /// No event that concerns this lane is admitted, but for Gives, and the journal hasn't ended.
    Idle,
    /// The journal has ended.
    Ended,
    /// There is no memory for the event. Only the lane's record has changed.
    NoMemory,
}

/// What the coordinator did.
#[derive(Clone, Copy, Debug, PartialEq, Eq)]
pub enum Duty {
    /// This event was appended.
    Did(Event),
    /// The Seal of this epoch was appended, and the snapshot was written.
    Sealed(u64),
    /// None of Seal, End, Begin and Ask is admitted, and the journal hasn't ended.
    Nothing,
    /// The journal has ended.
    Ended,
    /// There is no memory for the event. Nothing has changed.
    NoMemory,
}
