//! Mutable access to all weights, one at a time.
ghost use Rattle.std.specs.Prelude.{◌≡◌};
ghost use Rattle.std.specs.Borrow.{sem};
ghost use Rattle.std.specs.Option.{option_copied_mut};
ghost use Rattle.daggy_base.specs.Graph.{node_weight as weight_at};
ghost use Rattle.daggy_base.specs.Weights.{edge_weight as edge_weight_at};
ghost use Rattle.daggy_graph.specs.Cursors.{nodes_lend_next, edges_lend_next};

use crate::graph::DiGraph;
use daggy_base::index::{DefaultIx, EdgeIndex, IndexType, NodeIndex};

/// Mutable references to the weights of the nodes, one at a time, in ascending index order.
///
/// A lending cursor, not an `Iterator`: each reference must end before the next call.
///
/// # Examples
///
/// ```
/// let mut graph: DiGraph<u32, ()> = DiGraph::new(rt.alloc());
/// let one = graph.add_node(1)?;
/// let mut weights = graph.node_weights_mut();
/// while let Some(weight) = weights.next() {
///     *weight *= 10;
/// }
/// assert!(rt; graph.node_weight(one) == Some(&10));
/// ```
#[derive(Drop)]
pub struct NodeWeightsMut<'a, N, E, Ix: IndexType = DefaultIx> {
    graph: &'a mut DiGraph<N, E, Ix>,
    index: usize,
}

/// Mutable references to the weights of the edges, one at a time, in ascending index order.
///
/// A lending cursor, not an `Iterator`: each reference must end before the next call.
///
/// # Examples
///
/// ```
/// let mut graph: DiGraph<&'static str, u32> = DiGraph::new(rt.alloc());
/// let sow = graph.add_node("sow")?;
/// let days = graph.add_edge(sow, sow, 90)?;
/// let mut weights = graph.edge_weights_mut();
/// while let Some(weight) = weights.next() {
///     *weight /= 30;
/// }
/// assert!(rt; graph.edge_weight(days) == Some(&3));
/// ```
#[derive(Drop)]
pub struct EdgeWeightsMut<'a, N, E, Ix: IndexType = DefaultIx> {
    graph: &'a mut DiGraph<N, E, Ix>,
    index: usize,
}

impl<N, E, Ix: IndexType> DiGraph<N, E, Ix> {
    /// A cursor over mutable references to the weights of the nodes, in ascending index order.
    #[inline]
    pub fn node_weights_mut(&mut self) -> NodeWeightsMut<'_, N, E, Ix>
        ensures same_reference { result.graph.ghost_name ≡ self.entry.ghost_name }
        ensures start { result.index ≡ 0 }
        ensures same { result.graph.now ≡ self.old }
    {
        NodeWeightsMut {
            graph: self,
            index: 0,
        }
    }

    /// A cursor over mutable references to the weights of the edges, in ascending index order.
    #[inline]
    pub fn edge_weights_mut(&mut self) -> EdgeWeightsMut<'_, N, E, Ix>
        ensures same_reference { result.graph.ghost_name ≡ self.entry.ghost_name }
        ensures start { result.index ≡ 0 }
        ensures same { result.graph.now ≡ self.old }
    {
        EdgeWeightsMut {
            graph: self,
            index: 0,
        }
    }
}

impl<'a, N, E, Ix: IndexType> NodeWeightsMut<'a, N, E, Ix> {
    /// The weight of the next node, or `None` if no node is left.
    #[inline]
    pub fn next(&mut self) -> Option<&mut N>
        ensures* writes_back { sem 𝓛
            (nodes_lend_next N.row E.row Ix.row Ix.IndexType self.entry result) }
        ensures value { option_copied_mut result
            ≡ weight_at self.old.graph.now.graph self.old.index }
    {
        let i = self.index;
        if i < self.graph.node_count() {
            self.index = i + 1;
            Some(&mut self.graph[NodeIndex::new(i)])
        } else {
            None
        }
    }
}

impl<'a, N, E, Ix: IndexType> EdgeWeightsMut<'a, N, E, Ix> {
    /// The weight of the next edge, or `None` if no edge is left.
    #[inline]
    pub fn next(&mut self) -> Option<&mut E>
        ensures* writes_back { sem 𝓛
            (edges_lend_next N.row E.row Ix.row Ix.IndexType self.entry result) }
        ensures value { option_copied_mut result
            ≡ edge_weight_at self.old.graph.now.graph self.old.index }
    {
        let i = self.index;
        if i < self.graph.edge_count() {
            self.index = i + 1;
            Some(&mut self.graph[EdgeIndex::new(i)])
        } else {
            None
        }
    }
}
