//! How long a worker lets mail gather.
//!
//! Under the policy `Aap` a worker that has little mail waits for more. How long is [`Pulse::stretch`], a formula over
//! the clocks of the last eight arrivals: the mean gap between them for each batch that the worker lacks, and at most 64
//! turns. A [`Pacer`] adds turns of its own, and nothing is said of how many.
#![tactic(auto)]

mod calm;
mod laws;
mod pacer;
mod pulse;
mod scripted;
mod seeded;
#[cfg(test)]
mod tests;

pub use calm::Calm;
pub use laws::{only_the_window_counts, window_follows_the_arrivals};
pub use pacer::Pacer;
pub use pulse::Pulse;
pub use scripted::Scripted;
pub use seeded::Seeded;
