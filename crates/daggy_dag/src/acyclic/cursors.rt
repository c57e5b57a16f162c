//! Mutable access to all weights, one at a time.
ghost use Rattle.std.specs.Prelude.{◌≡◌, ◌<◌, length};
ghost use Rattle.std.specs.Borrow.{sem};
ghost use Rattle.std.specs.Option.{option_copied_mut};
ghost use Rattle.daggy_base.specs.Graph.{node_weight as weight_at, HasNode, HasEdge};
ghost use Rattle.daggy_base.specs.Weights.{edge_weight as edge_weight_at};
ghost use Rattle.daggy_dag.specs.Slots.{next_slot};
ghost use Rattle.daggy_dag.specs.Cursors.{nodes_lend_next, edges_lend_next};

use crate::acyclic::Acyclic;
use daggy_base::index::{DefaultIx, EdgeIndex, IndexType, NodeIndex};
use daggy_base::source::EdgeSource;
use daggy_base::store::Store;
use daggy_graph::graph::DiGraph;

/// Mutable references to the weights of the nodes, one at a time, in ascending index order, as
/// [`node_weights_mut`](Acyclic::node_weights_mut) returns them.
///
/// A lending cursor, not an `Iterator`: each reference must end before the next call. Use it as
/// `while let Some(weight) = weights.next()`.
#[derive(Drop)]
pub struct NodeWeightsMut<
    'a,
    N: Drop,
    E: Drop,
    Ix: IndexType = DefaultIx,
    S: EdgeSource<Ix, NodeWeight = N, EdgeWeight = E> = DiGraph<N, E, Ix>,
> {
    dag: &'a mut Acyclic<N, E, Ix, S>,
    index: usize,
}

/// Mutable references to the weights of the edges, one at a time, in ascending index order, as
/// [`edge_weights_mut`](Acyclic::edge_weights_mut) returns them.
///
/// A lending cursor, not an `Iterator`: each reference must end before the next call. Use it as
/// `while let Some(weight) = weights.next()`.
#[derive(Drop)]
pub struct EdgeWeightsMut<
    'a,
    N: Drop,
    E: Drop,
    Ix: IndexType = DefaultIx,
    S: EdgeSource<Ix, NodeWeight = N, EdgeWeight = E> = DiGraph<N, E, Ix>,
> {
    dag: &'a mut Acyclic<N, E, Ix, S>,
    index: usize,
}

impl<N: Drop, E: Drop, Ix: IndexType, S> Acyclic<N, E, Ix, S>
where
    S: Store<Ix, NodeWeight = N, EdgeWeight = E>,
{
    /// A cursor over mutable references to the weights of the nodes, in ascending index order.
    ///
    /// # Examples
    ///
    /// ```
    /// let mut dag: Dag<u32, ()> = Dag::new(rt.alloc());
    /// let one = dag.add_node(1)?;
    /// let two = dag.add_node(2)?;
    /// let mut weights = dag.node_weights_mut();
    /// while let Some(weight) = weights.next() {
    ///     *weight *= 10;
    /// }
    /// assert!(rt; dag.node_weight(one) == Some(&10));
    /// assert!(rt; dag.node_weight(two) == Some(&20));
    /// ```
    #[inline]
    pub fn node_weights_mut(&mut self) -> NodeWeightsMut<'_, N, E, Ix, S>
        ensures same_reference { result.dag.ghost_name ≡ self.entry.ghost_name }
        ensures start { result.index ≡ 0 }
        ensures same { result.dag.now ≡ self.old }
    {
        NodeWeightsMut {
            dag: self,
            index: 0,
        }
    }

    /// A cursor over mutable references to the weights of the edges, in ascending index order.
    ///
    /// # Examples
    ///
    /// ```
    /// let mut dag: Dag<&'static str, u32> = Dag::new(rt.alloc());
    /// let sow = dag.add_node("sow")?;
    /// let (days, _) = dag.add_child(sow, 90, "reap")?;
    /// let mut weights = dag.edge_weights_mut();
    /// while let Some(weight) = weights.next() {
    ///     *weight /= 30;
    /// }
    /// assert!(rt; dag.edge_weight(days) == Some(&3));
    /// ```
    #[inline]
    pub fn edge_weights_mut(&mut self) -> EdgeWeightsMut<'_, N, E, Ix, S>
        ensures same_reference { result.dag.ghost_name ≡ self.entry.ghost_name }
        ensures start { result.index ≡ 0 }
        ensures same { result.dag.now ≡ self.old }
    {
        EdgeWeightsMut {
            dag: self,
            index: 0,
        }
    }

    // The index of the first node from `from` on, or an index after all slots.
    #[inline]
    fn node_from(&self, from: usize) -> usize
        ensures place { result ≡ next_slot S.KIND self.now.graph.nodes from }
        ensures exists { result < length self.now.graph.nodes → HasNode self.now.graph result }
    {
        self.guarded.store.invariant();
        let slots = self.guarded.store.node_slots();
        let mut i = from;
        'along: while i < slots {
            if self.guarded.store.contains_node(NodeIndex::new(i)) {
                return i;
            }
            i += 1;
        }
        i
    }

    // The index of the first edge from `from` on, or an index after all slots.
    #[inline]
    fn edge_from(&self, from: usize) -> usize
        ensures place { result ≡ next_slot S.KIND self.now.graph.edges from }
        ensures exists { result < length self.now.graph.edges → HasEdge self.now.graph result }
    {
        self.guarded.store.invariant();
        let slots = self.guarded.store.edge_slots();
        let mut i = from;
        'along: while i < slots {
            if self.guarded.store.contains_edge_index(EdgeIndex::new(i)) {
                return i;
            }
            i += 1;
        }
        i
    }
}

impl<'a, N: Drop, E: Drop, Ix: IndexType, S> NodeWeightsMut<'a, N, E, Ix, S>
where
    S: Store<Ix, NodeWeight = N, EdgeWeight = E>,
{
    /// The weight of the next node, or `None` if there is none left.
    ///
    /// # Complexity
    ///
    /// O(1), plus the vacant slots that are skipped: O(node slots) for the whole iteration.
    #[inline]
    pub fn next(&mut self) -> Option<&mut N>
        ensures* writes_back { sem 𝓛 (nodes_lend_next N.row E.row Ix.row S.row Ix.IndexType S.EdgeSource
            S.KIND self.entry result) }
        ensures value { option_copied_mut result ≡ weight_at self.old.dag.now.graph
            (next_slot S.KIND self.old.dag.now.graph.nodes self.old.index) }
    {
        let _well_formed = self.dag.node_count();
        let i = self.dag.node_from(self.index);
        if i < self.dag.graph().node_slots() {
            self.index = i + 1;
            Some(&mut self.dag[NodeIndex::new(i)])
        } else {
            None
        }
    }
}

impl<'a, N: Drop, E: Drop, Ix: IndexType, S> EdgeWeightsMut<'a, N, E, Ix, S>
where
    S: Store<Ix, NodeWeight = N, EdgeWeight = E>,
{
    /// The weight of the next edge, or `None` if there is none left.
    ///
    /// # Complexity
    ///
    /// O(1), plus the vacant slots that are skipped: O(edge slots) for the whole iteration.
    #[inline]
    pub fn next(&mut self) -> Option<&mut E>
        ensures* writes_back { sem 𝓛 (edges_lend_next N.row E.row Ix.row S.row Ix.IndexType S.EdgeSource
            S.KIND self.entry result) }
        ensures value { option_copied_mut result ≡ edge_weight_at self.old.dag.now.graph
            (next_slot S.KIND self.old.dag.now.graph.edges self.old.index) }
    {
        let _well_formed = self.dag.edge_count();
        let i = self.dag.edge_from(self.index);
        if i < self.dag.graph().edge_slots() {
            self.index = i + 1;
            Some(&mut self.dag[EdgeIndex::new(i)])
        } else {
            None
        }
    }
}
