//! Batches of edges, and dags made from lists.
ghost use Rattle.std.specs.Prelude.{◌≡◌, ◌+◌, ◌≤◌, OnOk, IfOk, IfErr, OnErr};
ghost use Rattle.std.specs.Iterator.{IsFiniteIterable};
ghost use Rattle.daggy_base.specs.Graph.{Graph, empty};
ghost use Rattle.daggy_base.specs.Path.{IsAcyclic};
ghost use Rattle.daggy_guard.specs.EdgeBatch.{IsAdded, IsRefused, most_looks};
ghost use Rattle.daggy_guard.specs.Extension.{Extends, Stops, extension_looks};
ghost use Rattle.daggy_guard.specs.Elements.{IsMade, IsUnmade};

use crate::acyclic::Acyclic;
use daggy_base::element::{Element, IntoWeightedEdge};
use daggy_base::error::{EdgeError, EdgesError, ElementError};
use daggy_base::index::{IndexType, NodeIndex};
use daggy_base::store::Store;
use daggy_guard::edge_indices::EdgeIndices;
use std::alloc::Global;

impl<N: Drop, E: Drop, Ix: IndexType, S> Acyclic<N, E, Ix, S>
where
    S: Store<Ix, NodeWeight = N, EdgeWeight = E>,
{
    /// Adds all the edges that `items` yields, or none of them. Returns their indices in the order
    /// of the items.
    ///
    /// Edges are added one at a time, and the dag's order is updated after each, as in
    /// [`add_edge`](Acyclic::add_edge); the update itself never fails. After the first edge that
    /// closes a cycle the order is no longer updated.
    ///
    /// If searching for each edge would cost too much, all nodes are sorted once at the end
    /// instead, by Kahn's algorithm (1962), or by a depth-first search if an allocation for that
    /// fails. This is done if an edge needs a search, and either the batch is large compared with
    /// the dag, or earlier searches have read as many edges as the dag had nodes or edges before
    /// the call, whichever is more.
    ///
    /// # Requires
    ///
    /// - `items` yields finitely many items, as a list or a bounded range does.
    ///
    /// # Errors
    ///
    /// Stops at the first invalid item (missing endpoint, no index left, out of memory) and
    /// consumes no further items. Otherwise returns `WouldCycle` if all edges together close a
    /// cycle. The error holds every weight consumed so far, and the dag is unchanged.
    ///
    /// # Complexity
    ///
    /// A batch of k edges reads O(nodes + edges + k) edges in all. An edge that agrees with the
    /// dag's order takes amortized O(1).
    ///
    /// # Examples
    ///
    /// ```
    /// let mut dag: Dag<&'static str, u32> = Dag::new(rt.alloc());
    /// let sow = dag.add_node("sow")?;
    /// let reap = dag.add_node("reap")?;
    /// let circle = Vec::from_array(rt.alloc(), [(sow, reap, 90), (reap, sow, 5)])?;
    /// assert!(rt; dag.add_edges(circle).is_err());
    /// // All of them or none.
    /// assert!(rt; dag.edge_count() == 0);
    /// ```
    pub fn add_edges<I: IntoIterator<Item = (NodeIndex<Ix>, NodeIndex<Ix>, E)>>(
        &mut self,
        items: I,
    ) -> Result<EdgeIndices<Ix>, EdgesError<E>>
        requires { IsFiniteIterable I.into_iter_gives I.IntoIter.can_next
            I.IntoIter.remaining items }
        ensures added { IfOk result (λ edges. (it : I.IntoIter) × I.into_iter_gives items it
            × IsAdded Ix.number Ix.greatest I.IntoIter.next_gives it self.old.graph
            self.new.graph edges) }
        ensures refused { IfErr result (λ error. (it : I.IntoIter) × I.into_iter_gives items it
            × IsRefused Ix.number Ix.greatest I.IntoIter.next_gives it self.old.graph error) }
        ensures unchanged { OnErr result (self.new.graph ≡ self.old.graph) }
        ensures acyclic { IsAcyclic self.new.graph }
        ensures looked { self.old.looks ≤ self.new.looks }
        ensures counted { self.new.looks ≤ self.old.looks + most_looks self.old.graph result }
    {
        self.guarded.add_edges(items)
    }

    /// Adds the edges that `items` yields, one by one. Before each edge it adds nodes with the
    /// default weight until both endpoints exist. It stops at the first edge that fails, and keeps
    /// what it added before.
    ///
    /// An item is a pair of nodes, for an edge with the default weight, or a pair of nodes and a
    /// weight.
    ///
    /// # Requires
    ///
    /// - `items` yields finitely many items, as a list or a bounded range does.
    ///
    /// # Errors
    ///
    /// Each error holds the weight of the edge that failed. Nodes that were added for that edge are
    /// kept too.
    ///
    /// - `EdgeError::Full` if an endpoint is `end`, or if the index type has no index left for the
    ///   edge.
    /// - `EdgeError::NodeMemory` if an allocation for a missing node fails.
    /// - `EdgeError::BadEndpoint` if an endpoint is the index of a vacant slot.
    /// - `EdgeError::WouldCycle` if the edge would close a cycle.
    /// - `EdgeError::Memory` if an allocation for the edge fails.
    ///
    /// # Complexity
    ///
    /// The cost of [`add_node`](Acyclic::add_node) for each node, and of
    /// [`add_edge`](Acyclic::add_edge) for each edge.
    ///
    /// # Examples
    ///
    /// ```
    /// let mut dag: Dag<u32, u32> = Dag::new(rt.alloc());
    /// let sow = NodeIndex::new(0);
    /// let reap = NodeIndex::new(1);
    /// let circle = Vec::from_array(rt.alloc(), [(sow, reap, 90), (reap, sow, 5)])?;
    /// assert!(rt; dag.extend_with_edges(circle).is_err());
    /// // The first edge is kept, and so are the nodes that it needed.
    /// assert!(rt; dag.edge_count() == 1 && dag.node_count() == 2);
    /// ```
    pub fn extend_with_edges<
        T: IntoWeightedEdge<E, NodeId = NodeIndex<Ix>>,
        I: IntoIterator<Item = T>,
    >(&mut self, items: I) -> Result<(), EdgeError<E>>
    where
        N: Default,
        requires { IsFiniteIterable I.into_iter_gives I.IntoIter.can_next
            I.IntoIter.remaining items }
        ensures extended { OnOk result ((it : I.IntoIter) × I.into_iter_gives items it
            × Extends N.is_default Ix.number Ix.greatest T.edge_gives I.IntoIter.next_gives it
            self.old.graph self.new.graph) }
        ensures stopped { IfErr result (λ error. (it : I.IntoIter) × I.into_iter_gives items it
            × Stops N.is_default Ix.number Ix.greatest T.edge_gives I.IntoIter.next_gives it
            self.old.graph error self.new.graph) }
        ensures acyclic { IsAcyclic self.new.graph }
        ensures looked { self.old.looks ≤ self.new.looks }
        ensures counted { self.new.looks
            ≤ self.old.looks + extension_looks self.old.graph self.new.graph }
    {
        self.guarded.extend_with_edges(items)
    }

    /// A dag of the edges that `items` yields, made by
    /// [`extend_with_edges`](Acyclic::extend_with_edges) from an empty dag: its nodes get the
    /// default weight.
    ///
    /// # Requires
    ///
    /// - `items` yields finitely many items, as a list or a bounded range does.
    ///
    /// # Errors
    ///
    /// Returns the error of the first edge that fails, with the weight of that edge. The dag built
    /// so far is dropped; to get all weights back after an error, use
    /// [`add_edges`](Acyclic::add_edges).
    ///
    /// - `EdgeError::Full` if an endpoint is `end`, or if the index type has no index left for the
    ///   edge.
    /// - `EdgeError::NodeMemory` if an allocation for a missing node fails.
    /// - `EdgeError::WouldCycle` if the edge would close a cycle.
    /// - `EdgeError::Memory` if an allocation for the edge fails.
    ///
    /// # Complexity
    ///
    /// The same as [`extend_with_edges`](Acyclic::extend_with_edges).
    ///
    /// # Examples
    ///
    /// ```
    /// let sow = NodeIndex::new(0);
    /// let reap = NodeIndex::new(1);
    /// let edges = Vec::from_array(rt.alloc(), [(sow, reap, 90)])?;
    /// let dag: Dag<u32, u32> = Dag::from_edges(rt.alloc(), edges)?;
    /// // The nodes were missing, so they have the default weight.
    /// assert!(rt; dag.node_count() == 2);
    /// assert!(rt; dag.node_weight(reap) == Some(&0));
    /// ```
    pub fn from_edges<T: IntoWeightedEdge<E, NodeId = NodeIndex<Ix>>, I: IntoIterator<Item = T>>(
        alloc: Global,
        items: I,
    ) -> Result<Self, EdgeError<E>>
    where
        N: Default,
        requires { IsFiniteIterable I.into_iter_gives I.IntoIter.can_next
            I.IntoIter.remaining items }
        ensures made { IfOk result (λ dag. (it : I.IntoIter) × I.into_iter_gives items it
            × Extends N.is_default Ix.number Ix.greatest T.edge_gives I.IntoIter.next_gives it empty
            dag.graph) }
        ensures stopped { IfErr result (λ error. (it : I.IntoIter) × I.into_iter_gives items it
            × (made : Graph N E)
            × Stops N.is_default Ix.number Ix.greatest T.edge_gives I.IntoIter.next_gives it empty
            error made) }
        ensures acyclic { IfOk result (λ dag. IsAcyclic dag.graph) }
    {
        let mut dag = Acyclic::new(alloc);
        match dag.extend_with_edges(items) {
            Ok(()) => Ok(dag),
            Err(error) => Err(error),
        }
    }

    /// A dag of the nodes and edges that `items` yields. An edge between two nodes that are already
    /// adjacent replaces the weight of the edge that [`find_edge`](Acyclic::find_edge) returns.
    ///
    /// # Requires
    ///
    /// - `items` yields finitely many items, as a list or a bounded range does.
    ///
    /// # Errors
    ///
    /// Stops at the first element that fails: the error holds its weight, and the dag built so far
    /// is dropped.
    ///
    /// # Complexity
    ///
    /// The cost of [`add_node`](Acyclic::add_node) for each node, and of
    /// [`update_edge`](Acyclic::update_edge) for each edge.
    ///
    /// # Examples
    ///
    /// ```
    /// let mut elements = Vec::new(rt.alloc());
    /// elements.push(Element::Node { weight: 1 })?;
    /// elements.push(Element::Node { weight: 2 })?;
    /// elements.push(Element::Edge {
    ///     source: 0,
    ///     target: 1,
    ///     weight: 90,
    /// })?;
    /// let dag: Dag<u32, u32> = Dag::from_elements(rt.alloc(), elements)?;
    /// assert!(rt; dag.contains_edge(NodeIndex::new(0), NodeIndex::new(1)));
    /// ```
    pub fn from_elements<I: IntoIterator<Item = Element<N, E>>>(
        alloc: Global,
        items: I,
    ) -> Result<Self, ElementError<N, E>>
        requires { IsFiniteIterable I.into_iter_gives I.IntoIter.can_next
            I.IntoIter.remaining items }
        ensures made { IfOk result (λ dag. (it : I.IntoIter) × I.into_iter_gives items it
            × IsMade Ix.greatest I.IntoIter.next_gives it empty dag.graph) }
        ensures refused { IfErr result (λ error. (it : I.IntoIter) × I.into_iter_gives items it
            × IsUnmade Ix.greatest I.IntoIter.next_gives it empty error) }
        ensures acyclic { IfOk result (λ dag. IsAcyclic dag.graph) }
    {
        let mut dag: Acyclic<N, E, Ix, S> = Acyclic::new(alloc);
        match dag.guarded.add_elements(items) {
            Ok(()) => Ok(dag),
            Err(error) => Err(error),
        }
    }
}
