//! Whether an edge may be added to an acyclic graph, and the topological order with that edge.
#![tactic(auto)]

pub mod edge_order;
