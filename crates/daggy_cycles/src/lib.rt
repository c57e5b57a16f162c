//! Cycles of a graph, and edges whose removal makes it acyclic.
#![tactic(auto)]

mod edges;
mod feedback;
mod shortest;
mod with_edges;

pub use edges::{cycle_edges, find_cycle_edges};
pub use feedback::feedback_arc_set;
pub use shortest::shortest_cycle;
pub use with_edges::find_cycle_with_edges;

#[cfg(test)]
mod tests;
