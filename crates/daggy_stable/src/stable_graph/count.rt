//! How many nodes, edges and slots there are, and whether an index is left for one more.
ghost use Rattle.std.specs.Prelude.{◌≡◌, ◌<◌, ◌↔◌, length, IsTrue};
ghost use Rattle.daggy_base.specs.Graph.{node_count as node_count_of, edge_count as edge_count_of};
ghost use Rattle.daggy_base.specs.Graph.{node_bound as node_bound_of, edge_bound as edge_bound_of};
ghost use Rattle.daggy_base.specs.WellFormed.{IsWellFormed};

use crate::stable_graph::StableDiGraph;
use daggy_base::index::{EdgeIndex, IndexType, NodeIndex};

impl<N, E, Ix: IndexType> StableDiGraph<N, E, Ix> {
    /// How many nodes there are.
    #[inline]
    pub fn node_count(&self) -> usize
        ensures count { result ≡ node_count_of self.now.graph }
        ensures well_formed { IsWellFormed Ix.greatest self.now.graph }
    {
        self.node_count
    }

    /// How many edges there are.
    #[inline]
    pub fn edge_count(&self) -> usize
        ensures count { result ≡ edge_count_of self.now.graph }
        ensures well_formed { IsWellFormed Ix.greatest self.now.graph }
    {
        self.edge_count
    }

    /// How many node slots there are, occupied or vacant.
    #[inline]
    pub fn node_slots(&self) -> usize
        ensures { result ≡ length self.now.graph.nodes }
    {
        self.nodes.len()
    }

    /// How many edge slots there are, occupied or vacant.
    #[inline]
    pub fn edge_slots(&self) -> usize
        ensures { result ≡ length self.now.graph.edges }
    {
        self.edges.len()
    }

    /// One more than the greatest node index, or 0 if there is no node.
    ///
    /// # Complexity
    ///
    /// O(vacant slots after that node).
    ///
    /// # Examples
    ///
    /// ```
    /// let mut graph: StableDiGraph<u32, ()> = StableDiGraph::new(rt.alloc());
    /// graph.add_node(1)?;
    /// let two = graph.add_node(2)?;
    /// let three = graph.add_node(3)?;
    /// assert!(rt; graph.remove_node(two) == Some(2));
    /// assert!(rt; graph.node_bound() == 3);
    /// assert!(rt; graph.remove_node(three) == Some(3));
    /// // Both slots are vacant.
    /// assert!(rt; graph.node_bound() == 1 && graph.node_slots() == 3);
    /// ```
    pub fn node_bound(&self) -> usize
        ensures { result ≡ node_bound_of self.now.graph }
    {
        let mut n = self.node_slots();
        'back: while n > 0 {
            let x = &self.nodes[n - 1];
            if x.weight.is_some() {
                return n;
            }
            n -= 1;
        }
        0
    }

    /// One more than the greatest edge index, or 0 if there is no edge.
    ///
    /// # Complexity
    ///
    /// O(vacant slots after that edge).
    pub fn edge_bound(&self) -> usize
        ensures { result ≡ edge_bound_of self.now.graph }
    {
        let mut n = self.edge_slots();
        'back: while n > 0 {
            let x = &self.edges[n - 1];
            if x.weight.is_some() {
                return n;
            }
            n -= 1;
        }
        0
    }

    /// Whether an index is left for one more node.
    #[inline]
    pub fn can_add_node(&self) -> bool
        ensures { IsTrue result ↔ (node_count_of self.now.graph < Ix.greatest) }
    {
        self.node_count() < NodeIndex::<Ix>::end().index()
    }

    /// Whether an index is left for one more edge.
    #[inline]
    pub fn can_add_edge(&self) -> bool
        ensures { IsTrue result ↔ (edge_count_of self.now.graph < Ix.greatest) }
    {
        self.edge_count() < EdgeIndex::<Ix>::end().index()
    }
}
