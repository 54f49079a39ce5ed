//! Labels and reachability on one fragment: what a worker runs on its own part of the graph, as values flood along the
//! readings.
//!
//! It promises that both calls of either program leave the local solution of its equations. The
//! greatest solution of these equations is exactly the least numbers of joined vertices (`label_equations`), or exactly
//! which vertices a walk from the source reaches (`reach_equations`). Values are lowered by `pie_lowering`.
#![tactic(auto)]

mod labels;
mod laws;
mod reach;
mod worked;

pub use labels::Labels;
pub use laws::{label_equations, reach_equations};
pub use reach::Reach;
pub use worked::{label_values, reach_values};

#[cfg(test)]
mod compared;
#[cfg(test)]
mod plain;
#[cfg(test)]
mod tests;
