//! The two orders in which the values of vertices fall: numbers by size, and sets of bits by inclusion.
//!
//! It promises that the meet of two values is their greatest lower bound, and that a value falls at most
//! as often as its height says. A value is a number below 2^64. Every query of the engine names one of
//! the two orders, and the crates above compare and join values by nothing else.
#![tactic(auto)]

mod laws;
mod order;

pub use laws::{falls_are_few, meet_laws};
pub use order::{Order, below, height, meet};

/// Stands for "no message". Each value lies below it in both orders.
pub const NOTHING: u64 = u64::MAX;
