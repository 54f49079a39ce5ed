//! Lowering on one fragment, for programs whose equations are least: each value is the least of its vertex's start and
//! of what the vertex reads, each with the cost of the weight between them ([`Cost`]).
//!
//! It promises that both evaluations leave the local solution of such equations. The programs of distances, labels and
//! reachability stand on it.
//!
//! A value that falls is offered to the readers of its place, and no other place is looked at. (The label-correcting
//! method of Ford and Moore.) Which place comes next changes no answer: places come by rising values, as nearly as the
//! shelves tell, as in Dial's and Dijkstra's methods, and where weights cost nothing, what is connected is flooded from its
//! first place.
#![tactic(auto)]

mod beginning;
mod cost;
mod evaluation;
mod lowering;

pub use cost::{Cost, NoCost, Weights};
pub use evaluation::{evaluate, evaluate_again};
