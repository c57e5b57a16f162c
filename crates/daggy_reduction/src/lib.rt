//! The transitive reduction of a graph: its redundant edges, their removal, and what the result
//! promises.
#![tactic(auto)]

pub mod affected;
mod arcs;
mod block;
pub mod blocks;
pub mod bounded;
mod choice;
mod counted_arcs;
pub mod joined_pairs;
mod placed;
pub mod reduce;
pub mod reduction_laws;
mod spans;
pub mod transitive_closure;
