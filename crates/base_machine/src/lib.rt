//! The base machine: workers that take their mail, evaluate, and give what they found, in any order.
//!
//! It promises what holds of its runs whatever their order: a quiet run from a fit start has the greatest solution of
//! the equations, and a run has a bounded number of Takes. The journals of real runs stand above it, with the delays,
//! flags and snapshots that this machine doesn't know. Its functions have empty bodies: each carries a law.
#![tactic(auto)]

mod laws;

pub use laws::{
    confluence, form_is_kept, fresh_is_fit, neighbours_swap, runs_are_bounded, slots_hold_starts,
    snapshot_is_fit, systems_are_sound,
};
