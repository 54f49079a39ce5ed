//! The events of a run, and the journal that lists them.
//!
//! It promises that a [`Journal`] is the list of its pushes, in order, that a push into room that was made before can't
//! fail, and that room is made only where there is too little. How events are packed is seen by no caller. Which events may follow one another, and what each of them does, is said by the crates above.
#![tactic(auto)]

mod event;
mod journal;
mod packed;
mod repeat;

pub use event::{Event, StopCause};
pub use journal::Journal;

#[cfg(test)]
mod tests;
