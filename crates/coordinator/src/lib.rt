//! Runs of a job from their entry.
//!
//! It promises of [`run_alone`] and [`run_lanes`] that the journal of every story is legal from the entry's start and has
//! ended, by End exactly where the run is done and else by a Stop, for want of the disk only where the disk failed; that
//! a run that is done has the values of all workers then; and that a crash at any moment leaves a state file that opens
//! as the last snapshot that was kept or as a later one, or before any was kept as when the run began. [`run_alone`]
//! returns; [`run_lanes`] waits for its threads. Of [`shape_of`] it promises the query's order and the start value of
//! each place, so that the fresh snapshot of the shape is the one with which a run begins.
#![tactic(auto)]

mod alone;
mod duties;
mod keeper;
mod lanes;
mod laws;
mod leave;
#[cfg(test)]
mod policy_tests;
mod programs;
mod ran;
mod shape;
#[cfg(test)]
mod shape_tests;
mod story;
#[cfg(test)]
mod tests;
mod turn;

pub use alone::run_alone;
pub use lanes::run_lanes;
pub use laws::{
    done_is_quiet, done_is_the_answer, entries_may_begin, forms_agree, seals_may_be_kept,
    shapes_begin_runs,
};
pub use ran::Ran;
pub use recovery::{Entry, EntryFault, KeptAt, begin_fresh, recover};
pub use shape::shape_of;
pub use story::Story;
