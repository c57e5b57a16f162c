//! Iterators over the nodes, the edges, and the edges of one node.
ghost use Rattle.std.specs.Prelude.{◌≡◌, ◌<◌, ◌^◌, length};
ghost use Rattle.daggy_base.specs.declared.index.Direction.TheVariants.{Outgoing};
ghost use Rattle.daggy_base.specs.Iterating.{node_identifiers as node_identifiers_of};
ghost use Rattle.daggy_base.specs.Iterating.{edge_identifiers as edge_identifiers_of};
ghost use Rattle.daggy_base.specs.Iterating.{node_references as node_references_of};
ghost use Rattle.daggy_base.specs.Iterating.{edge_references as edge_references_of, edges_at};
ghost use Rattle.daggy_base.specs.Iterating.{neighbors_at};
ghost use Rattle.daggy_base.specs.Iterating.{node_weights as node_weights_of};
ghost use Rattle.daggy_base.specs.Iterating.{edge_weights as edge_weights_of};

use crate::acyclic::Acyclic;
use daggy_base::index::{Direction, IndexType, NodeIndex};
use daggy_graph::graph::DiGraph;
use daggy_graph::graph::iterators::{
    EdgeIdentifiers, EdgeReferences, EdgeWeights, NodeIdentifiers, NodeReferences, NodeWeights,
};
use daggy_graph::graph::lists::{Edges, Neighbors};

impl<N: Drop, E: Drop, Ix: IndexType> Acyclic<N, E, Ix, DiGraph<N, E, Ix>> {
    /// The indices of the nodes, in ascending order. It does not borrow the dag.
    ///
    /// # Complexity
    ///
    /// O(nodes) for the whole iteration.
    ///
    /// # Examples
    ///
    /// ```
    /// let mut dag: Dag<u32, ()> = Dag::new(rt.alloc());
    /// let one = dag.add_node(1)?;
    /// let two = dag.add_node(2)?;
    /// // The dag may change during the loop.
    /// for n in dag.node_identifiers() {
    ///     if let Some(weight) = dag.node_weight_mut(n) {
    ///         *weight *= 10;
    ///     }
    /// }
    /// assert!(rt; dag.node_weight(one) == Some(&10));
    /// assert!(rt; dag.node_weight(two) == Some(&20));
    /// ```
    #[inline]
    pub fn node_identifiers(&self) -> NodeIdentifiers<Ix>
        ensures rest { result ≡ node_identifiers_of self.now.graph }
        ensures fits { length result < 2 ^ 64 }
    {
        self.guarded.store.node_identifiers()
    }

    /// The indices of the edges, in ascending order. It does not borrow the dag.
    ///
    /// # Complexity
    ///
    /// O(edges) for the whole iteration.
    ///
    /// # Examples
    ///
    /// ```
    /// let mut dag: Dag<&'static str, u32> = Dag::new(rt.alloc());
    /// let sow = dag.add_node("sow")?;
    /// let (days, _) = dag.add_child(sow, 90, "reap")?;
    /// assert!(rt; dag.edge_identifiers().next() == Some(days));
    /// // `edge_indices` is another name for it.
    /// assert!(rt; dag.edge_indices().next() == Some(days));
    /// ```
    #[inline]
    pub fn edge_identifiers(&self) -> EdgeIdentifiers<Ix>
        ensures rest { result ≡ edge_identifiers_of self.now.graph }
        ensures fits { length result < 2 ^ 64 }
    {
        self.guarded.store.edge_identifiers()
    }

    /// The same as [`node_identifiers`](Acyclic::node_identifiers).
    ///
    /// # Complexity
    ///
    /// O(nodes) for the whole iteration.
    ///
    /// # Examples
    ///
    /// ```
    /// let mut dag: Dag<&'static str, ()> = Dag::new(rt.alloc());
    /// let sow = dag.add_node("sow")?;
    /// assert!(rt; dag.node_indices().next() == Some(sow));
    /// ```
    #[inline]
    pub fn node_indices(&self) -> NodeIdentifiers<Ix>
        ensures rest { result ≡ node_identifiers_of self.now.graph }
        ensures fits { length result < 2 ^ 64 }
    {
        self.node_identifiers()
    }

    /// The same as [`edge_identifiers`](Acyclic::edge_identifiers).
    ///
    /// # Complexity
    ///
    /// O(edges) for the whole iteration.
    #[inline]
    pub fn edge_indices(&self) -> EdgeIdentifiers<Ix>
        ensures rest { result ≡ edge_identifiers_of self.now.graph }
        ensures fits { length result < 2 ^ 64 }
    {
        self.edge_identifiers()
    }

    /// The nodes in ascending index order, each with its weight.
    ///
    /// # Complexity
    ///
    /// O(nodes) for the whole iteration.
    ///
    /// # Examples
    ///
    /// ```
    /// let mut dag: Dag<&'static str, ()> = Dag::new(rt.alloc());
    /// let sow = dag.add_node("sow")?;
    /// let reap = dag.add_node("reap")?;
    /// let mut nodes = dag.node_references();
    /// assert!(rt; nodes.next() == Some((sow, &"sow")));
    /// assert!(rt; nodes.next() == Some((reap, &"reap")));
    /// ```
    #[inline]
    pub fn node_references(&self) -> NodeReferences<'_, N, Ix>
        ensures rest { result ≡ node_references_of self.now.graph }
        ensures fits { length result < 2 ^ 64 }
    {
        self.guarded.store.node_references()
    }

    /// The weights of the nodes, in ascending index order.
    ///
    /// # Complexity
    ///
    /// O(nodes) for the whole iteration.
    ///
    /// # Examples
    ///
    /// ```
    /// let mut dag: Dag<u32, ()> = Dag::new(rt.alloc());
    /// dag.add_node(2)?;
    /// dag.add_node(3)?;
    /// let weights: Vec<_> = dag.node_weights().copied().collect(rt.alloc())?;
    /// assert!(rt; weights.as_slice() == [2, 3].as_slice());
    /// ```
    #[inline]
    pub fn node_weights(&self) -> NodeWeights<'_, N, Ix>
        ensures rest { result ≡ node_weights_of self.now.graph }
        ensures fits { length result < 2 ^ 64 }
    {
        self.guarded.store.node_weights()
    }

    /// The weights of the edges, in ascending index order.
    ///
    /// # Complexity
    ///
    /// O(edges) for the whole iteration.
    ///
    /// # Examples
    ///
    /// ```
    /// let mut dag: Dag<&'static str, u32> = Dag::new(rt.alloc());
    /// let sow = dag.add_node("sow")?;
    /// dag.add_child(sow, 90, "reap")?;
    /// assert!(rt; dag.edge_weights().next() == Some(&90));
    /// ```
    #[inline]
    pub fn edge_weights(&self) -> EdgeWeights<'_, E, Ix>
        ensures rest { result ≡ edge_weights_of self.now.graph }
        ensures fits { length result < 2 ^ 64 }
    {
        self.guarded.store.edge_weights()
    }

    /// The edges, in ascending index order.
    ///
    /// # Complexity
    ///
    /// O(edges) for the whole iteration.
    ///
    /// # Examples
    ///
    /// ```
    /// let mut dag: Dag<&'static str, u32> = Dag::new(rt.alloc());
    /// let sow = dag.add_node("sow")?;
    /// let (days, reap) = dag.add_child(sow, 90, "reap")?;
    /// let edge = dag.edge_references().next();
    /// assert!(rt; edge.is_some_and(|edge| edge.id() == days && edge.target() == reap));
    /// ```
    #[inline]
    pub fn edge_references(&self) -> EdgeReferences<'_, E, Ix>
        ensures rest { result ≡ edge_references_of self.now.graph }
        ensures fits { length result < 2 ^ 64 }
    {
        self.guarded.store.edge_references()
    }

    /// The edges that leave a node, newest first. Empty if the node does not exist.
    #[inline]
    pub fn edges(&self, n: NodeIndex<Ix>) -> Edges<'_, E, Ix>
        ensures rest { result ≡ edges_at Outgoing self.now.graph (Ix.number n) }
        ensures fits { length result < 2 ^ 64 }
    {
        self.guarded.store.edges(n)
    }

    /// The edges that leave a node (`Outgoing`), or the edges that enter it (`Incoming`), newest
    /// first. Empty if the node does not exist.
    ///
    /// # Examples
    ///
    /// ```
    /// let mut dag: Dag<&'static str, u32> = Dag::new(rt.alloc());
    /// let sow = dag.add_node("sow")?;
    /// let (days, reap) = dag.add_child(sow, 90, "reap")?;
    /// let mut edges = dag.edges_directed(reap, Direction::Incoming);
    /// assert!(rt; edges.next().is_some_and(|edge| edge.id() == days && edge.source() == sow));
    /// assert!(rt; dag.edges_directed(reap, Direction::Outgoing).next().is_none());
    /// ```
    #[inline]
    pub fn edges_directed(&self, n: NodeIndex<Ix>, dir: Direction) -> Edges<'_, E, Ix>
        ensures rest { result ≡ edges_at dir self.now.graph (Ix.number n) }
        ensures fits { length result < 2 ^ 64 }
    {
        self.guarded.store.edges_directed(n, dir)
    }

    /// The children of a node, one for each edge that leaves it, newest first. Empty if the node
    /// does not exist.
    ///
    /// # Examples
    ///
    /// ```
    /// let mut dag: Dag<&'static str, ()> = Dag::new(rt.alloc());
    /// let sow = dag.add_node("sow")?;
    /// let (_, hoe) = dag.add_child(sow, (), "hoe")?;
    /// let (_, reap) = dag.add_child(sow, (), "reap")?;
    /// // The newest edge comes first.
    /// let children: Vec<_> = dag.neighbors(sow).collect(rt.alloc())?;
    /// assert!(rt; children.as_slice() == [reap, hoe].as_slice());
    /// ```
    #[inline]
    pub fn neighbors(&self, n: NodeIndex<Ix>) -> Neighbors<'_, E, Ix>
        ensures rest { result ≡ neighbors_at Outgoing self.now.graph (Ix.number n) }
        ensures fits { length result < 2 ^ 64 }
    {
        self.guarded.store.neighbors(n)
    }

    /// The children of a node (`Outgoing`), one for each edge that leaves it, or its parents
    /// (`Incoming`), one for each edge that enters it, newest first. Empty if the node does not
    /// exist.
    #[inline]
    pub fn neighbors_directed(&self, n: NodeIndex<Ix>, dir: Direction) -> Neighbors<'_, E, Ix>
        ensures rest { result ≡ neighbors_at dir self.now.graph (Ix.number n) }
        ensures fits { length result < 2 ^ 64 }
    {
        self.guarded.store.neighbors_directed(n, dir)
    }
}
