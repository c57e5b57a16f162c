//! Queries about the paths of a borrowed acyclic graph.
#![tactic(auto)]

mod edges;
mod paths;

#[doc(hidden)]
pub use edges::edges_along;
pub use paths::Paths;
