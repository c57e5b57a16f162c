//! Items from which graphs are built: only edges, or nodes and edges.
ghost use Rattle.std.specs.Prelude.{◌≡◌};

use crate::index::NodeIndex;

/// Conversion into an edge: from its source, its target and its weight, or from its source and its
/// target only.
///
/// A pair of nodes is an edge with the default weight.
///
/// # Examples
///
/// ```
/// let sow: NodeIndex = NodeIndex::new(0);
/// let reap: NodeIndex = NodeIndex::new(1);
/// let edge: (NodeIndex, NodeIndex, u32) = (sow, reap).into_weighted_edge();
/// assert!(rt; edge == (sow, reap, 0));
/// let edge: (NodeIndex, NodeIndex, u32) = (sow, reap, 90).into_weighted_edge();
/// assert!(rt; edge == (sow, reap, 90));
/// ```
pub trait IntoWeightedEdge<E> {
    /// The type of the two endpoints: `NodeIndex<Ix>` wherever a dag takes edges.
    type NodeId;

    // The edge that it may become.
    ghost edge_gives: { Self → Self.NodeId × Self.NodeId × E → Type 0 };

    /// The edge: its source, its target and its weight.
    fn into_weighted_edge(self) -> (Self::NodeId, Self::NodeId, E)
        ensures { edge_gives self result };
}

impl<Ix, E: Default> IntoWeightedEdge<E> for (NodeIndex<Ix>, NodeIndex<Ix>) {
    type NodeId = NodeIndex<Ix>;

    ghost edge_gives = { λ ends edge. (edge.0 ≡ ends.0) × (edge.1 ≡ ends.1) × E.is_default edge.2 };

    fn into_weighted_edge(self) -> (NodeIndex<Ix>, NodeIndex<Ix>, E) {
        (self.0, self.1, E::default())
    }
}

impl<Ix, E> IntoWeightedEdge<E> for (NodeIndex<Ix>, NodeIndex<Ix>, E) {
    type NodeId = NodeIndex<Ix>;

    ghost edge_gives = { λ given edge. edge ≡ given };

    fn into_weighted_edge(self) -> (NodeIndex<Ix>, NodeIndex<Ix>, E) {
        self
    }
}

/// A node or an edge in a list from which a graph is made.
#[derive(Debug, Clone, Copy, Drop, PartialEq, Eq)]
pub enum Element<N, E> {
    /// A node. The first node in a list has position 0, the second has position 1, and so on.
    Node {
        /// The weight of the node.
        weight: N,
    },
    /// An edge between nodes that come before it in the list.
    Edge {
        /// The position of the node that the edge leaves.
        source: usize,
        /// The position of the node that the edge enters.
        target: usize,
        /// The weight of the edge.
        weight: E,
    },
}
