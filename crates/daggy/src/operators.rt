//! Dags made from other dags, as in networkx's module of the same name: subgraphs, dags with their
//! edges reversed, transitive closures, and two dags merged into one. Also, the lowest common
//! ancestors of two nodes, the simple paths from one node to another, whether two dags of any kinds
//! have the same reachability, and the order of the children of a node.
//!
//! Use [`subgraph`] to plan, schedule or draw a part of a dag: any function that takes a dag also
//! takes a subgraph.
pub use daggy_operators::{
    ClosureError, MergeError, SimplePaths, all_simple_paths, have_same_reachability,
    lowest_common_ancestors, merge, move_child_before, reverse, sort_children_by_key, subgraph,
    transitive_closure_dag,
};
