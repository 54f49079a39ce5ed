//! Graph simulation on one fragment: the sequential algorithm that a worker runs on its own part of the graph.
//!
//! It promises that both calls leave the local solution of the equations of a simulation. The
//! greatest solution of these equations is exactly what some simulation relates: `sim_equations`. It stands on the
//! trait of programs.
//!
//! Where a bit of a vertex falls, each of its readers has one reading less with that bit, and is tested again where none
//! is left: so an evaluation takes the time of the readings times the bits that fall, besides one of the counters for
//! each test. (Simulation by refinement, as of Henzinger, Henzinger and Kopke, FOCS 1995, with its counters.) After a
//! Take all readers of what fell are tested by their readings, which costs what a small change costs, and they are
//! counted only where that comes to more than counting does.
#![tactic(auto)]

mod counted;
mod counting;
mod laws;
mod lowering;
mod nodes;
mod sim;
mod worked;

pub use laws::sim_equations;
pub use sim::Sim;
pub use worked::ring_values;

#[cfg(test)]
mod compared;
#[cfg(test)]
mod graphs;
#[cfg(test)]
mod patterns;
#[cfg(test)]
mod plain;
#[cfg(test)]
mod tests;
