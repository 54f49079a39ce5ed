//! Distances on one fragment: the sequential algorithm that a worker runs on its own part of the graph.
//!
//! It promises that both calls leave the local solution of the equations of distances. The greatest
//! solution of these equations is exactly the distances: `dist_equations`. Values are lowered by `pie_lowering`.
#![tactic(auto)]

mod dist;
mod heap;
mod laws;
mod rows;
mod worked;

pub use dist::Dist;
pub use heap::NearHeap;
pub use laws::dist_equations;
pub use rows::{rows_clear, rows_lower, rows_pop};
pub use worked::second_part_values;

#[cfg(test)]
mod compared;
#[cfg(test)]
mod heap_tests;
#[cfg(test)]
mod plain;
#[cfg(test)]
mod tests;
