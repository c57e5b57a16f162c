//! Typed indices of nodes and edges.
//!
//! A [`NodeIndex`] and an [`EdgeIndex`] are numbers of an [`IndexType`], `u32` by default. The
//! smaller the type, the smaller the graph in memory, and the fewer nodes and edges it can have.
pub use daggy_base::index::{DefaultIx, Direction, EdgeIndex, IndexType, NodeIndex, TypedIndex};
pub use daggy_base::link::Link;
pub use daggy_base::number::NoIndex;
