//! A lock whose seats carry notes.
//!
//! A [`NotedLock`] has a value and a fixed number of [`LockSeat`]s. A seat enters, and is [`Inside`]
//! then: it alone has the value, until it leaves. The value tells a note for each seat ([`Noted`]),
//! and whoever is inside leaves the notes of the others as they were. So a seat that enters finds its
//! own note as it left it, whatever the others did to the value meanwhile.
#![tactic(auto)]

mod closing;
mod lock;
mod making;
mod plays;
mod rule;
mod seat;
#[cfg(test)]
mod tests;
mod turns;
mod value;
mod view;
mod words;

pub use lock::{Inside, NotedLock};
pub use rule::Noted;
pub use seat::LockSeat;
pub use words::rule_in_words;
