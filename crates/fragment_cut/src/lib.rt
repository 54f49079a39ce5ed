//! Cuts a job's graph into fragments: who owns a vertex, and what a fragment keeps.
//!
//! Proved: the fragments are exactly those that the rules name, place by place, and each equation of the
//! whole graph stands in one of them, with what it reads there as often as there are edges. Programs
//! evaluate fragments; they need nothing of the graph itself.
//!
//! No table takes a sort, since the edges of a graph stand in order. Rows are turned round by counting: the edges by the
//! vertices that they leave give those by the vertices that they reach, a fragment's readings its readers, and the
//! mirrors of all fragments the routes. Under `label` both tables of the edges are merged row by row. A fragment's
//! readings are rows of the graph, with places for vertices. With one fragment the tables of the graph are those of the
//! fragment.
#![tactic(auto)]

mod counting;
mod cutting;
mod edge_rows;
mod half;
mod merging;
mod owner;
mod piece;
mod reads;
mod routing;

pub use cutting::fragment;
pub use owner::owner_of;

#[cfg(test)]
mod tests;
