//! The journals of runs: which event may follow, what it does, and what every legal journal keeps.
//!
//! It promises that a legal journal is a run of the base machine, is bounded and can always go on, that its end is
//! quiet, and that what it seals is a consistent cut. Its functions have empty bodies: each carries a law.
#![tactic(auto)]

mod laws;

pub use laws::{
    choices_are_exact, cuts_are_consistent, end_is_quiet, events_are_bounded, journal_runs,
    journals_grow, runs_go_on, seals_follow_on, takes_are_bounded,
};
