//! Proved callers of the library: they copy dags, write all weights, or each in topological order,
//! iterate over the children or parents of a node, use closures that index tables, compare two
//! reductions, and write and read dags and tables of `String` weights.
#![tactic(auto)]

pub mod along;
pub mod copies;
pub mod cursors;
pub mod documents;
pub mod forwarding;
pub mod reductions;
pub mod seen;
pub mod tabled;
pub mod tables;
