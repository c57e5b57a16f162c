//! How many nodes and edges there are, and whether an index is left for one more.
ghost use Rattle.std.specs.Prelude.{◌≡◌, ◌<◌, ◌↔◌, length, IsTrue};
ghost use Rattle.daggy_base.specs.Graph.{node_count as node_count_of, edge_count as edge_count_of};
ghost use Rattle.daggy_base.specs.Graph.{IsCompact};
ghost use Rattle.daggy_base.specs.WellFormed.{IsWellFormed};

use crate::graph::DiGraph;
use daggy_base::index::{EdgeIndex, IndexType, NodeIndex};

impl<N, E, Ix: IndexType> DiGraph<N, E, Ix> {
    /// How many nodes there are.
    #[inline]
    pub fn node_count(&self) -> usize
        ensures count { result ≡ node_count_of self.now.graph }
        ensures slot_count { result ≡ length self.now.graph.nodes }
        ensures well_formed { IsWellFormed Ix.greatest self.now.graph }
        ensures compact { IsCompact self.now.graph }
    {
        self.nodes.len()
    }

    /// How many edges there are.
    #[inline]
    pub fn edge_count(&self) -> usize
        ensures count { result ≡ edge_count_of self.now.graph }
        ensures slot_count { result ≡ length self.now.graph.edges }
        ensures well_formed { IsWellFormed Ix.greatest self.now.graph }
        ensures compact { IsCompact self.now.graph }
    {
        self.edges.len()
    }

    /// Whether an index is left for one more node.
    #[inline]
    pub fn can_add_node(&self) -> bool
        ensures { IsTrue result ↔ (node_count_of self.now.graph < Ix.greatest) }
    {
        self.node_count() < NodeIndex::<Ix>::end().index()
    }

    /// Whether an index is left for one more edge.
    ///
    /// # Examples
    ///
    /// ```
    /// let mut graph: DiGraph<&'static str, (), u8> = DiGraph::new(rt.alloc());
    /// let sow = graph.add_node("sow")?;
    /// for _ in 0..300 {
    ///     if graph.can_add_edge() {
    ///         graph.add_edge(sow, sow, ())?;
    ///     }
    /// }
    /// assert!(rt; graph.edge_count() == 255);
    /// ```
    #[inline]
    pub fn can_add_edge(&self) -> bool
        ensures { IsTrue result ↔ (edge_count_of self.now.graph < Ix.greatest) }
    {
        self.edge_count() < EdgeIndex::<Ix>::end().index()
    }
}
