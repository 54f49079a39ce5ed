//! Graphs, queries and jobs, the equations of a query, and the fragments of a graph.
//!
//! It promises that a graph holds exactly the vertices and edges that it was built from, in order, that
//! the equations of each query have one greatest solution, and that this is what the query asks for. The
//! readers of text stand above it, and so does all that evaluates: they share its definitions.
#![tactic(auto)]

mod copies;
mod edge;
mod fragment;
mod generated;
mod graph;
mod job;
mod laws;
mod numbering;
mod pattern;
mod query;
mod row_table;
mod settings;
mod sorting;
mod worked;

pub use edge::Edge;
pub use fragment::{Fragment, FragmentParts, Reading, Route};
pub use generated::make_graph;
pub use graph::Graph;
pub use job::Job;
pub use laws::{
    below_starts_rules_decide, distances_are_near, equations_are_lawful, fragments_are_whole,
    fragments_cut, greatest_is_meaning, greatest_is_there, made_graph_is_one, no_walk_is_shorter,
    one_distance, readers_are_turned_readings, relaxed_weights_are_distances, values_are_there,
    walk_goes_on,
};
pub use pattern::{Pattern, PatternLink, PatternNode};
pub use query::Query;
pub use row_table::Rows;
pub use settings::{Cut, Policy, Settings};
pub use sorting::{Grouped, sort_in_groups};
pub use worked::{generated_rows, row_values, rows};

/// The distance of a vertex that no walk leads to, 2^52: every distance along a walk is smaller.
pub const FAR: u64 = 4_503_599_627_370_496;

#[cfg(test)]
mod tests;
