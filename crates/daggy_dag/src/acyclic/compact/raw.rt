//! The slices that a compact dag is stored in.
ghost use Rattle.daggy_cells.specs.Raw.{ShowsNodes, ShowsEdges};

use crate::acyclic::Acyclic;
use daggy_base::index::IndexType;
use daggy_graph::graph::{DiGraph, Edge, Node};

/// The nodes of a dag as they are stored, by index, as [`raw_nodes`](Acyclic::raw_nodes) returns
/// them.
pub type RawNodes<'a, N, Ix> = &'a [Node<N, Ix>];

/// The edges of a dag as they are stored, by index, as [`raw_edges`](Acyclic::raw_edges) returns
/// them.
pub type RawEdges<'a, E, Ix> = &'a [Edge<E, Ix>];

impl<N: Drop, E: Drop, Ix: IndexType> Acyclic<N, E, Ix, DiGraph<N, E, Ix>> {
    /// The nodes as they are stored, by index.
    ///
    /// # Examples
    ///
    /// ```
    /// let mut dag: Dag<&'static str, u32> = Dag::new(rt.alloc());
    /// let sow = dag.add_node("sow")?;
    /// dag.add_child(sow, 90, "reap")?;
    /// let node = dag.raw_nodes().get(1);
    /// assert!(rt; node.is_some_and(|node| node.weight == "reap"));
    /// let edge = dag.raw_edges().get(0);
    /// assert!(rt; edge.is_some_and(|edge| edge.weight == 90 && edge.source() == sow));
    /// ```
    #[inline]
    pub fn raw_nodes(&self) -> RawNodes<'_, N, Ix>
        ensures { ShowsNodes Ix.greatest self.now.graph result.now }
    {
        self.guarded.store.raw_nodes()
    }

    /// The edges as they are stored, by index.
    #[inline]
    pub fn raw_edges(&self) -> RawEdges<'_, E, Ix>
        ensures { ShowsEdges Ix.greatest self.now.graph result.now }
    {
        self.guarded.store.raw_edges()
    }
}
