//! The mail of a worker: border values that other fragments sent, by mirror.
//!
//! A [`Buffer`] holds the mail that waits for a worker, and a [`Hand`] what the worker took into one evaluation. It promises
//! that a take gives for each mirror the meet of all values that were posted to it since the take before. Both have their
//! lists from the start, and each call but the first writes into them.
#![tactic(auto)]

mod buffer;
mod hand;
mod laws;
mod listed;
mod worked;

pub use buffer::Buffer;
pub use hand::Hand;
pub use laws::buffer_has_what_was_posted;
pub use worked::rows;

#[cfg(test)]
mod tests;
