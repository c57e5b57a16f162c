//! Iterators over the nodes, the edges, and the edges of one node.
ghost use Rattle.std.specs.Prelude.{◌≡◌, ◌<◌, ◌^◌, length};
ghost use Rattle.daggy_base.specs.declared.index.Direction.TheVariants.{Outgoing};
ghost use Rattle.daggy_base.specs.Iterating.{node_identifiers as node_identifiers_of};
ghost use Rattle.daggy_base.specs.Iterating.{edge_identifiers as edge_identifiers_of};
ghost use Rattle.daggy_base.specs.Iterating.{node_references as node_references_of};
ghost use Rattle.daggy_base.specs.Iterating.{edge_references as edge_references_of, edges_at};
ghost use Rattle.daggy_base.specs.Iterating.{neighbors_at};
ghost use Rattle.daggy_base.specs.Iterating.{node_weights as node_weights_of};
ghost use Rattle.daggy_base.specs.Iterating.{edge_weights as edge_weights_of};

use crate::acyclic::Acyclic;
use daggy_base::index::{Direction, IndexType, NodeIndex};
use daggy_stable::stable_graph::StableDiGraph;
use daggy_stable::stable_graph::iterators::{
    EdgeIdentifiers, EdgeReferences, EdgeWeights, NodeIdentifiers, NodeReferences, NodeWeights,
};
use daggy_stable::stable_graph::lists::{Edges, Neighbors};

impl<N: Drop, E: Drop, Ix: IndexType> Acyclic<N, E, Ix, StableDiGraph<N, E, Ix>> {
    /// The indices of the nodes, in ascending order.
    ///
    /// # Complexity
    ///
    /// O(node slots) for the whole iteration, since vacant slots are skipped.
    #[inline]
    pub fn node_identifiers(&self) -> NodeIdentifiers<'_, N, Ix>
        ensures rest { result ≡ node_identifiers_of self.now.graph }
        ensures fits { length result < 2 ^ 64 }
    {
        self.guarded.store.node_identifiers()
    }

    /// The indices of the edges, in ascending order.
    ///
    /// # Complexity
    ///
    /// O(edge slots) for the whole iteration, since vacant slots are skipped.
    #[inline]
    pub fn edge_identifiers(&self) -> EdgeIdentifiers<'_, E, Ix>
        ensures rest { result ≡ edge_identifiers_of self.now.graph }
        ensures fits { length result < 2 ^ 64 }
    {
        self.guarded.store.edge_identifiers()
    }

    /// The same as [`node_identifiers`](Acyclic::node_identifiers).
    ///
    /// # Complexity
    ///
    /// O(node slots) for the whole iteration, since vacant slots are skipped.
    #[inline]
    pub fn node_indices(&self) -> NodeIdentifiers<'_, N, Ix>
        ensures rest { result ≡ node_identifiers_of self.now.graph }
        ensures fits { length result < 2 ^ 64 }
    {
        self.node_identifiers()
    }

    /// The same as [`edge_identifiers`](Acyclic::edge_identifiers).
    ///
    /// # Complexity
    ///
    /// O(edge slots) for the whole iteration, since vacant slots are skipped.
    #[inline]
    pub fn edge_indices(&self) -> EdgeIdentifiers<'_, E, Ix>
        ensures rest { result ≡ edge_identifiers_of self.now.graph }
        ensures fits { length result < 2 ^ 64 }
    {
        self.edge_identifiers()
    }

    /// The nodes in ascending index order, each with its weight.
    ///
    /// # Complexity
    ///
    /// O(node slots) for the whole iteration, since vacant slots are skipped.
    #[inline]
    pub fn node_references(&self) -> NodeReferences<'_, N, Ix>
        ensures rest { result ≡ node_references_of self.now.graph }
        ensures fits { length result < 2 ^ 64 }
    {
        self.guarded.store.node_references()
    }

    /// The weights of the nodes, in ascending index order.
    ///
    /// # Complexity
    ///
    /// O(node slots) for the whole iteration, since vacant slots are skipped.
    #[inline]
    pub fn node_weights(&self) -> NodeWeights<'_, N, Ix>
        ensures rest { result ≡ node_weights_of self.now.graph }
        ensures fits { length result < 2 ^ 64 }
    {
        self.guarded.store.node_weights()
    }

    /// The weights of the edges, in ascending index order.
    ///
    /// # Complexity
    ///
    /// O(edge slots) for the whole iteration, since vacant slots are skipped.
    #[inline]
    pub fn edge_weights(&self) -> EdgeWeights<'_, E, Ix>
        ensures rest { result ≡ edge_weights_of self.now.graph }
        ensures fits { length result < 2 ^ 64 }
    {
        self.guarded.store.edge_weights()
    }

    /// The edges, in ascending index order.
    ///
    /// # Complexity
    ///
    /// O(edge slots) for the whole iteration, since vacant slots are skipped.
    #[inline]
    pub fn edge_references(&self) -> EdgeReferences<'_, E, Ix>
        ensures rest { result ≡ edge_references_of self.now.graph }
        ensures fits { length result < 2 ^ 64 }
    {
        self.guarded.store.edge_references()
    }

    /// The edges that leave a node, newest first. Empty if the node does not exist.
    #[inline]
    pub fn edges(&self, n: NodeIndex<Ix>) -> Edges<'_, E, Ix>
        ensures rest { result ≡ edges_at Outgoing self.now.graph (Ix.number n) }
        ensures fits { length result < 2 ^ 64 }
    {
        self.guarded.store.edges(n)
    }

    /// The edges that leave a node (`Outgoing`), or the edges that enter it (`Incoming`), newest
    /// first. Empty if the node does not exist.
    #[inline]
    pub fn edges_directed(&self, n: NodeIndex<Ix>, dir: Direction) -> Edges<'_, E, Ix>
        ensures rest { result ≡ edges_at dir self.now.graph (Ix.number n) }
        ensures fits { length result < 2 ^ 64 }
    {
        self.guarded.store.edges_directed(n, dir)
    }

    /// The children of a node, one for each edge that leaves it, newest first. Empty if the node
    /// does not exist.
    #[inline]
    pub fn neighbors(&self, n: NodeIndex<Ix>) -> Neighbors<'_, E, Ix>
        ensures rest { result ≡ neighbors_at Outgoing self.now.graph (Ix.number n) }
        ensures fits { length result < 2 ^ 64 }
    {
        self.guarded.store.neighbors(n)
    }

    /// The children of a node (`Outgoing`), one for each edge that leaves it, or its parents
    /// (`Incoming`), one for each edge that enters it, newest first. Empty if the node does not
    /// exist.
    #[inline]
    pub fn neighbors_directed(&self, n: NodeIndex<Ix>, dir: Direction) -> Neighbors<'_, E, Ix>
        ensures rest { result ≡ neighbors_at dir self.now.graph (Ix.number n) }
        ensures fits { length result < 2 ^ 64 }
    {
        self.guarded.store.neighbors_directed(n, dir)
    }
}
