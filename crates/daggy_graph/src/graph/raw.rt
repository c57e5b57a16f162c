//! Nodes and edges as they are stored.
ghost use Rattle.daggy_cells.specs.Raw.{ShowsNodes, ShowsEdges};

use crate::graph::{DiGraph, Edge, Node};
use daggy_base::index::IndexType;

impl<N, E, Ix: IndexType> DiGraph<N, E, Ix> {
    /// The nodes as they are stored, by index.
    ///
    /// # Examples
    ///
    /// ```
    /// let mut graph: DiGraph<&'static str, u32> = DiGraph::new(rt.alloc());
    /// let sow = graph.add_node("sow")?;
    /// let days = graph.add_edge(sow, sow, 90)?;
    /// let node = graph.raw_nodes().first();
    /// assert!(rt; node.is_some_and(|node| node.next_edge(Direction::Outgoing) == days));
    /// let edge = graph.raw_edges().first();
    /// assert!(rt; edge.is_some_and(|edge| edge.weight == 90 && edge.target() == sow));
    /// ```
    #[inline]
    pub fn raw_nodes(&self) -> &[Node<N, Ix>]
        ensures { ShowsNodes Ix.greatest self.now.graph result.now }
    {
        self.nodes.as_slice()
    }

    /// The edges as they are stored, by index.
    #[inline]
    pub fn raw_edges(&self) -> &[Edge<E, Ix>]
        ensures { ShowsEdges Ix.greatest self.now.graph result.now }
    {
        self.edges.as_slice()
    }

    /// The nodes and the edges as they are stored, by index.
    ///
    /// # Examples
    ///
    /// ```
    /// let mut graph: DiGraph<&'static str, u32> = DiGraph::new(rt.alloc());
    /// let sow = graph.add_node("sow")?;
    /// graph.add_edge(sow, sow, 90)?;
    /// let (nodes, edges) = graph.into_raw();
    /// assert!(rt; nodes.first().is_some_and(|node| node.weight == "sow"));
    /// assert!(rt; edges.first().is_some_and(|edge| edge.weight == 90));
    /// ```
    #[inline]
    pub fn into_raw(self) -> (Vec<Node<N, Ix>>, Vec<Edge<E, Ix>>)
        ensures nodes { ShowsNodes Ix.greatest self.graph result.0.items }
        ensures edges { ShowsEdges Ix.greatest self.graph result.1.items }
    {
        (self.nodes, self.edges)
    }
}
