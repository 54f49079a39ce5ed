//! Worked journals: small runs on which the definitions of legal journals, of delays and of cuts are computed.
//!
//! It promises that each of these journals is admitted, refused or sealed exactly as its function says. Its functions
//! have empty bodies: each carries what the definitions compute.
#![tactic(auto)]

mod table;
mod worked;

pub use table::{
    acks_are_refused, begins_are_refused, busy_workers_are_waited_for, ends_are_refused,
    flags_are_refused, gives_are_refused, holds_are_refused, nacks_are_refused,
    rounds_and_arrivals, rounds_are_compared, stretches_are_refused, takes_are_refused,
};
pub use worked::{
    asked_twice_is_legal, bounds_by_formula, choices_in_order, cut_by_marks, kept_is_legal,
    late_mail_is_sealed, nobody_is_asked, stretch_runs_out, stretches_by_formula,
    turn_by_turn_is_legal,
};
