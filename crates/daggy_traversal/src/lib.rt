//! Walks over the nodes reachable from a node: breadth first, depth first, and in postorder. Also,
//! the edges of a node, oldest first.
#![tactic(auto)]

pub mod bfs;
pub mod dfs;
pub mod dfs_oldest_first;
mod given;
mod neighbors;
pub mod oldest_first;
pub mod post_order;
