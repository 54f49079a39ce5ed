//! The hub that lanes share, and the laws of hubs.
//!
//! A [`Hub`] serves the workers of a job, one for each fragment, to lanes. It is an engine with a record of each lane,
//! and it has a note for each lane and for the coordinator: what these may rely on while others have the hub. It
//! evaluates nothing: a lane gets a [`Work`], evaluates it, and gives it back.
#![tactic(auto)]

mod hub;
mod lane_record;
mod laws;
#[cfg(test)]
mod tests;

pub use hub::Hub;
pub use hub_engine::{Duty, Next, Work};
pub use laws::{
    calm_is_empty, cuts_are_consistent, end_is_quiet, every_program_is_confluent, fresh_is_a_start,
    hubs_are_bounded, hubs_run, idle_is_quiet, kepts_follow_seals, notes_tell, nothing_is_sealed,
    one_lane_goes_on, quiet_is_the_answer, turns_are_calm, works_go_round, works_stay,
};
