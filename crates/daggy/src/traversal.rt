//! Walks over the nodes reachable from a node: breadth first, depth first, and in postorder. Also,
//! the edges of a node, oldest first.
//!
//! Each walk follows the edges forward or backward, in the graph of a dag or in any store, and is a
//! [`Walker`](crate::Walker): it borrows the graph only while it takes a step.
pub use daggy_traversal::bfs::Bfs;
pub use daggy_traversal::dfs::Dfs;
pub use daggy_traversal::dfs_oldest_first::DfsOldestFirst;
pub use daggy_traversal::oldest_first::{children_oldest_first, edges_oldest_first};
pub use daggy_traversal::post_order::DfsPostOrder;
