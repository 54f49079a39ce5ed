//! Where bytes come from and go to, and numbers in decimal.
//!
//! A [`Source`] gives bytes and a [`Sink`] takes them; every failed call of either is counted.
//! [`MemSource`] and [`MemSink`] do so in memory, with faults at chosen calls, and [`StdSource`]
//! and [`StdSink`] over readers and writers of std. All that reads or writes in the crates above
//! is generic over the two traits.
#![tactic(auto)]

mod faults;
mod mem_sink;
mod mem_source;
mod number;
mod sink;
mod source;
mod std_sink;
mod std_source;
#[cfg(test)]
mod tests;
mod whole;

pub use faults::{Failed, NoMemory};
pub use mem_sink::MemSink;
pub use mem_source::MemSource;
pub use number::read_number;
pub use sink::Sink;
pub use source::Source;
pub use std_sink::StdSink;
pub use std_source::StdSource;
pub use whole::write_all;
