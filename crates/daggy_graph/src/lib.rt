//! The compact store: a graph whose nodes and edges are each numbered without gaps.
#![tactic(auto)]

pub mod graph;
