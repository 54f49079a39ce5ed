//! Evaluation on one fragment: the values of its places, and what every program on a fragment must do.
//!
//! A program is a sequential algorithm in two calls: `peval` evaluates a fragment from nothing known of its equations,
//! and `inceval` evaluates it again after its mirrors became lower. Both leave the local solution, which is unique, so
//! what a program computes doesn't depend on how it does it. (PEval and IncEval of GRAPE, SIGMOD 2017.)
#![tactic(auto)]

mod evaluation;
mod fallen;
mod laws;
mod local;
mod pie;
mod shelves;
mod starts;
mod worklist;

pub use evaluation::evaluate;
pub use laws::{
    local_solution_is_computed, local_solution_is_unique, solved_is_ready_again, solving_in_steps,
};
pub use local::Local;
pub use pie::Pie;
pub use starts::starts_of;

#[cfg(test)]
mod tests;
