//! Flags and the probe, by which a run finds out that it has ended.
//!
//! It promises that a [`Probe`] admits what the table of events admits as far as flags and answers decide it, that it
//! follows the journal event by event, and that an Ack means no Take of that worker between the Ask and the Ack.
#![tactic(auto)]

mod laws;
mod probe;

pub use laws::{acks_follow_no_take, probe_follows_the_journal};
pub use probe::Probe;

#[cfg(test)]
mod tests;
