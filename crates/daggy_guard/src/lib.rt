//! All changes to a store, one at a time or many at once, that keep it acyclic, and the queries
//! that are the same for both kinds of dag.
#![tactic(auto)]

pub mod edge_batch;
pub mod edge_indices;
pub mod elements;
pub mod extension;
pub mod guard;
pub mod matrix;
#[doc(hidden)]
pub mod packed;
pub mod parents;
pub mod paths;
