//! The stable store: a graph in slots. A removal vacates a slot and changes no other index.
#![tactic(auto)]

pub mod stable_graph;
