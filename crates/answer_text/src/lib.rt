//! Answers, and their text.
//!
//! [`assemble`] makes the [`Answer`] of a job from the values that its fragments have.
//!
//! [`write_answer`] writes an [`Answer`] to a sink: exactly its text, or, where the sink fails, a
//! front of it. [`summary`] gives the [`Totals`] of distances, and [`write_summary`] writes them, in a line.
#![tactic(auto)]

mod answer;
mod assembling;
mod piece;
#[cfg(test)]
mod tests;
mod totals;
mod worked;
mod write;

pub use answer::{Answer, AnswerRow, Kind};
pub use assembling::assemble;
pub use totals::{Totals, summary, write_summary};
pub use worked::{rows, summary_rows};
pub use write::write_answer;
