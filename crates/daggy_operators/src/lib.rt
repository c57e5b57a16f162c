//! Dags made from dags: subgraphs, dags with their edges reversed, transitive closures, and two dags
//! merged into one. Also, the lowest common ancestors of two nodes, the simple paths from one node
//! to another, whether two dags of any kinds have the same reachability, and the order of the
//! children of a node.
#![tactic(auto)]

mod children;
mod closure;
mod common;
mod comparing;
mod derived;
mod merging;
mod parts;
mod simple_paths;
mod sorted_children;

pub use children::move_child_before;
pub use closure::{ClosureError, transitive_closure_dag};
pub use common::lowest_common_ancestors;
pub use comparing::have_same_reachability;
pub use derived::{reverse, subgraph};
pub use merging::{MergeError, merge};
pub use simple_paths::{SimplePaths, all_simple_paths};
pub use sorted_children::sort_children_by_key;
