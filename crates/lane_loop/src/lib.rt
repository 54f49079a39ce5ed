//! A lane: a thread that serves the workers of a run under the noted lock.
//!
//! [`turn`] enters the lock for the hub's next event, and where that is a Take it evaluates the Work outside the lock,
//! side by side with other lanes, and enters once more to give it back. [`visit`] makes several events in one visit of the
//! lock, to the first Take. [`lane`] makes visits until the journal has ended. What a lane relies on between two steps is
//! its seat's note: the others leave it as it is.
#![tactic(auto)]

mod gate;
mod lanes;
#[cfg(test)]
mod meeting;
mod patience;
mod served;
#[cfg(test)]
mod tests;
mod turns;

pub use gate::{Gate, OpenGate};
pub use lanes::{EVENTS_A_VISIT, LaneEnd, lane};
pub use patience::pause;
pub use served::Served;
pub use turns::{turn, visit};
