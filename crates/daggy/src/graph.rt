//! The compact graph that a [`Dag`](crate::Dag) is built on. It may have cycles.
//!
//! In a [`DiGraph`] nodes and edges are numbered from 0 without gaps; a removal moves the last one
//! into the freed index. Each node has two lists of edges: those that leave it and those that enter
//! it. A new edge is first in the out list of its parent and in the in list of its child.
pub use daggy_base::element::{Element, IntoWeightedEdge};
pub use daggy_cells::cell::{Edge, Node};
pub use daggy_cells::reference::EdgeReference;
pub use daggy_graph::graph::DiGraph;
pub use daggy_graph::graph::cursors::{EdgeWeightsMut, NodeWeightsMut};
pub use daggy_graph::graph::iterators::{
    EdgeIdentifiers, EdgeReferences, EdgeWeights, NodeIdentifiers, NodeReferences, NodeWeights,
};
pub use daggy_graph::graph::lists::{Edges, Neighbors};
