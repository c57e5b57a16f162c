//! Removing edges and nodes.
ghost use Rattle.std.specs.Prelude.{◌≡◌, ℕ, ◌≤◌, length, OnSome, IfNone, Some, []};
ghost use Rattle.std.specs.Option.{option_map};
ghost use Rattle.daggy_base.specs.declared.index.Direction.{Direction};
ghost use Rattle.daggy_base.specs.Graph.{empty, node_weight, edge_at, HasNode, list_at};
ghost use Rattle.daggy_base.specs.Removal.{without_edge, without_front, without_node};
ghost use Rattle.daggy_base.specs.declared.kind.Kind.TheVariants.{Compact};
ghost use Rattle.daggy_base.specs.Removal.{with_node_isolated, with_node_dropped};
ghost use Rattle.daggy_base.specs.Removal.{without_all_edges};
ghost use Rattle.daggy_base.specs.WellFormed.{IsIsolated};
ghost use Rattle.daggy_base.specs.State.{with_graph};

use crate::graph::changes::{detach, reassign_last};
use crate::graph::{DiGraph, Edge, Node};
use daggy_base::index::{Direction, EdgeIndex, IndexType, NodeIndex};
use daggy_base::link::Link;
use daggy_cells::links::clear_lists;

impl<N, E, Ix: IndexType> DiGraph<N, E, Ix> {
    /// Removes an edge and returns its weight, if the edge exists. The edge with the last index is
    /// moved into the freed index.
    ///
    /// # Complexity
    ///
    /// O(edges in the lists of this edge and in the lists of the edge with the last index). Does
    /// not allocate.
    ///
    /// # Examples
    ///
    /// ```
    /// let mut graph: DiGraph<&'static str, u32> = DiGraph::new(rt.alloc());
    /// let sow = graph.add_node("sow")?;
    /// let days = graph.add_edge(sow, sow, 90)?;
    /// let more = graph.add_edge(sow, sow, 30)?;
    /// assert!(rt; graph.remove_edge(days) == Some(90));
    /// // The last edge has its index now.
    /// assert!(rt; graph.edge_weight(days) == Some(&30));
    /// assert!(rt; graph.edge_weight(more).is_none());
    /// ```
    #[inline]
    pub fn remove_edge(&mut self, e: EdgeIndex<Ix>) -> Option<E>
        ensures value { result ≡ option_map (λ x. x.weight) (edge_at self.old.graph (Ix.number e)) }
        ensures removed { OnSome result
            (self.new ≡ with_graph self.old (without_edge Compact self.old.graph (Ix.number e))) }
        ensures missing { IfNone result (self.new ≡ self.old) }
    {
        let i = e.index();
        if i >= self.edges.len() {
            return None;
        }
        detach(&mut self.nodes, &mut self.edges, Link::of_edge(e));
        let Edge { weight, .. } = self.edges.swap_remove(i);
        Some(weight)
    }

    /// Removes a node with its edges and returns its weight, if the node exists.
    ///
    /// First the edges that leave it are removed, and then the edges that enter it, in the order of
    /// each list. Each removal moves the last edge into the freed index. Finally the node with the
    /// last index is moved into the freed index.
    ///
    /// # Complexity
    ///
    /// The sum of the costs of removing its edges by `remove_edge`, plus O(edges of the node with
    /// the last index). Does not allocate.
    ///
    /// # Examples
    ///
    /// ```
    /// let mut graph: DiGraph<&'static str, u32> = DiGraph::new(rt.alloc());
    /// let sow = graph.add_node("sow")?;
    /// let reap = graph.add_node("reap")?;
    /// let days = graph.add_edge(sow, reap, 90)?;
    /// assert!(rt; graph.remove_node(sow) == Some("sow"));
    /// // The last node has its index now.
    /// assert!(rt; graph.node_weight(sow) == Some(&"reap"));
    /// assert!(rt; !graph.contains_node(reap) && graph.edge_weight(days).is_none());
    /// ```
    pub fn remove_node(&mut self, n: NodeIndex<Ix>) -> Option<N>
    where
        E: Drop,
        ensures value { result ≡ node_weight self.old.graph (Ix.number n) }
        ensures removed { OnSome result
            (self.new ≡ with_graph self.old (without_node Compact self.old.graph (Ix.number n))) }
        ensures between { OnSome result (IsIsolated Ix.greatest
            (with_node_isolated Compact self.old.graph (Ix.number n)) (Ix.number n)) }
        ensures missing { IfNone result (self.new ≡ self.old) }
        ensures no_more_slots { length self.new.graph.nodes ≤ length self.old.graph.nodes }
    {
        if self.node_weight(n).is_none() {
            return None;
        }
        self.clear_front(n, Direction::Outgoing);
        self.clear_front(n, Direction::Incoming);
        let _well_formed = self.edge_count();
        Some(self.drop_node(n))
    }

    // Removes the first edge of the node's list in direction `dir` until the list is empty.
    #[inline]
    fn clear_front(&mut self, n: NodeIndex<Ix>, dir: Direction)
    where
        E: Drop,
        ensures cleared { self.new
            ≡ with_graph self.old (without_front Compact dir
            (length (list_at dir self.old.graph (Ix.number n))) self.old.graph (Ix.number n)) }
        ensures emptied { list_at dir self.new.graph (Ix.number n) ≡ [] }
        ensures empty_stays { (d : Direction) → list_at d self.old.graph (Ix.number n) ≡ []
            → list_at d self.new.graph (Ix.number n) ≡ [] }
        ensures nodes { self.new.graph.nodes ≡ self.old.graph.nodes }
    {
        'front: loop {
            let _well_formed = self.edge_count();
            let e = self.first_edge(n, dir);
            if self.remove_edge(e).is_none() {
                return;
            }
        }
    }

    // Removes a node that has no edges, and moves the node with the last index into the freed
    // index.
    pub(super) fn drop_node(&mut self, n: NodeIndex<Ix>) -> N
        requires node { HasNode self.old.graph (Ix.number n) }
        requires no_edges { (d : Direction) → list_at d self.old.graph (Ix.number n) ≡ [] }
        ensures value { node_weight self.old.graph (Ix.number n) ≡ Some result }
        ensures dropped { self.new
            ≡ with_graph self.old (with_node_dropped Compact self.old.graph (Ix.number n)) }
        ensures no_more_slots { length self.new.graph.nodes ≤ length self.old.graph.nodes }
    {
        let i = n.index();
        reassign_last(&self.nodes, &mut self.edges, Link::of_node(n));
        let Node { weight, .. } = self.nodes.swap_remove(i);
        weight
    }

    /// Removes all nodes and edges. The capacity is kept.
    ///
    /// # Complexity
    ///
    /// O(nodes + edges).
    pub fn clear(&mut self)
    where
        N: Drop,
        E: Drop,
        ensures { self.new ≡ with_graph self.old empty }
    {
        self.nodes.clear();
        self.edges.clear();
    }

    /// Removes all edges, and keeps the nodes. The capacity is kept.
    ///
    /// # Complexity
    ///
    /// O(nodes + edges).
    ///
    /// # Examples
    ///
    /// ```
    /// let mut graph: DiGraph<&'static str, u32> = DiGraph::new(rt.alloc());
    /// let sow = graph.add_node("sow")?;
    /// graph.add_edge(sow, sow, 365)?;
    /// graph.clear_edges();
    /// assert!(rt; graph.node_count() == 1 && graph.edge_count() == 0);
    /// graph.clear();
    /// assert!(rt; graph.node_count() == 0);
    /// ```
    pub fn clear_edges(&mut self)
    where
        E: Drop,
        ensures { self.new ≡ with_graph self.old (without_all_edges self.old.graph) }
    {
        self.edges.clear();
        clear_lists(&mut self.nodes);
    }
}
