//! What the tests of the programs on fragments share: graphs, jobs and hands to try a program on, its values from the
//! starts, and those beside plain evaluation. Nothing of it is part of the program.
//!
//! It promises that its graphs and jobs lie within their limits, and that an evaluated fragment is solved and can be
//! evaluated again.
#![tactic(auto)]

mod evaluation;
mod graphs;
mod jobs;
mod plain;
mod trials_of_parts;

pub use evaluation::{evaluated, evaluated_whole, hand_of, starts};
pub use graphs::{Shape, drawn_edges, edge, generated, read_graph, shaped};
pub use jobs::job_of;
pub use plain::Plain;
pub use trials_of_parts::{Trial, trials};
