//! The engine of a hub: which worker may go on, what it takes, and where what it gives is sent.
//!
//! An [`Engine`] has the values and the mail of the workers of a job, one for each fragment, and the journal of what
//! they did. It promises that its journal is legal, that it is itself the state after that journal, and that
//! [`Engine::next`] and [`Engine::duty`] append the first event that is admitted in the order of choice. Of its lanes
//! it knows what the journal says, and it evaluates nothing: a [`Work`] is evaluated elsewhere, and given back.
#![tactic(auto)]

mod choice;
mod counts;
mod desk;
mod engine;
mod hearing;
mod kind;
mod open;
mod posting;
mod sender;
mod sight;
mod work;

pub use engine::Engine;
pub use work::{Duty, Next, Work};
