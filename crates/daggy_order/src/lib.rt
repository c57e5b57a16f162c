//! A topological order of a graph's nodes that is maintained as edges are added.
#![tactic(auto)]

mod list;
pub mod order;
