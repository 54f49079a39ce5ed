//! How a run begins from a state file, and how its snapshots are kept in it.
//!
//! Of each crash it promises that the file opens as it did when the run began, or as a snapshot that the run sealed; once a snapshot
//! was kept, as that one or as a later one.
#![tactic(auto)]

mod begin;
mod entry;
mod keeping;
mod kept_at;
mod laws;
#[cfg(test)]
mod tests;

pub use begin::{begin_fresh, recover};
pub use entry::{Entry, EntryFault};
pub use keeping::keep;
pub use kept_at::KeptAt;
pub use laws::claims_add_up;
