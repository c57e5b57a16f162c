//! Traits for code that works on any graph, and sets of nodes.
//!
//! [`GraphBase`] and [`Data`] name the types of a graph, [`DataMap`] and [`DataMapMut`] give access
//! to its weights, and [`NodeCount`] and [`NodeIndexable`] return the number of its nodes and the
//! bound of their indices. [`Visitable`] creates sets of nodes, and [`GetAdjacencyMatrix`] creates
//! the adjacency matrix.
//!
//! The contracts of these traits describe a graph by its lists of edges.
mod adj_matrix;
mod data;
mod indexed;
mod marked;
mod node_set;

pub use adj_matrix::AdjMatrix;
pub use data::{Data, DataMap, DataMapMut, Directed, GraphBase, GraphProp, NodeCount};
pub use indexed::{NodeCompactIndexable, NodeIndexable};
pub use marked::{GetAdjacencyMatrix, VisitMap, Visitable};
pub use node_set::NodeSet;
