//! The redundant edges of a graph, by a breadth-first search from each node that is reachable from
//! the roots.
#![tactic(auto)]

pub mod bfs;
pub mod flags;
pub mod redundant;
pub mod roots;
