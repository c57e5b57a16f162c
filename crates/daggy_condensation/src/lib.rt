//! The condensation of a graph, as a dag.
#![tactic(auto)]

mod all_edges;
mod building;
mod condense;
mod folding;

pub use all_edges::condensed_dag_with_all_edges;
pub use condense::condensed_dag;
pub use folding::condensed_dag_with_fold;

#[cfg(test)]
mod tests;
