//! Snapshots of a run, from which a later run can start again, and their recording while work goes on.
//!
//! A [`Snapshot`] has a [`Part`] for each worker, which has no evaluation under way then: its [`Phase`], the values of
//! all its places, and the mail that waits for its mirrors. A [`Shape`] has what the snapshots of a
//! job have in common: their sizes, and the start values, below which their values lie.
//!
//! A [`CutState`] records a snapshot while the workers go on. Each worker is marked once, with its phase, its values and
//! its mail. From then on what it sends is tagged, so that what comes without a tag to a marked worker was sent before the
//! cut: it is late, and lowers the mail that is recorded. The crate promises that a sealed snapshot is exactly what was
//! marked, with the mail of each mirror met with all late values for it. What is recorded is written into lists that were made
//! with the recording, so none of its calls but the first can fail.
#![tactic(auto)]

mod cut_state;
mod laws;
mod part;
mod phase;
mod shape;
mod shape_part;
mod snapshot;
#[cfg(test)]
mod tests;
mod worked;

pub use cut_state::CutState;
pub use laws::{late_values_are_met, seals_are_exact, sizes_stay};
pub use part::Part;
pub use phase::Phase;
pub use shape::Shape;
pub use shape_part::ShapePart;
pub use snapshot::Snapshot;
pub use worked::worked_recording;
