//! Mutable access to weights, and `[]`.
ghost use Rattle.std.specs.Prelude.{◌≡◌, Some};
ghost use Rattle.std.specs.Borrow.{sem};
ghost use Rattle.std.specs.Option.{option_copied_mut};
ghost use Rattle.daggy_base.specs.Graph.{node_weight as weight_at, HasNode, HasEdge};
ghost use Rattle.daggy_base.specs.Weights.{edge_weight as edge_weight_at};
ghost use Rattle.daggy_dag.specs.Lends.{lends_node, lends_node_if, lends_edge, lends_edge_if};

use crate::acyclic::Acyclic;
use daggy_base::index::{EdgeIndex, IndexType, NodeIndex};
use daggy_base::read_store::ReadStore;
use daggy_base::source::EdgeSource;
use daggy_base::store::Store;
use std::ops::{Index, IndexMut};

impl<N: Drop, E: Drop, Ix: IndexType, S> Acyclic<N, E, Ix, S>
where
    S: Store<Ix, NodeWeight = N, EdgeWeight = E>,
{
    /// A mutable reference to the weight of a node, or `None` if there is no such node.
    ///
    /// # Examples
    ///
    /// ```
    /// let mut dag: Dag<u32, ()> = Dag::new(rt.alloc());
    /// let n = dag.add_node(1)?;
    /// if let Some(weight) = dag.node_weight_mut(n) {
    ///     *weight = 7;
    /// }
    /// assert!(rt; dag.node_weight(n) == Some(&7));
    /// ```
    #[inline]
    pub fn node_weight_mut(&mut self, n: NodeIndex<Ix>) -> Option<&mut N>
        ensures* writes_back { sem 𝓛
            (lends_node_if N.row E.row Ix.row S.row Ix.IndexType S.EdgeSource self.entry n result) }
        ensures value { option_copied_mut result ≡ weight_at self.old.graph (Ix.number n) }
    {
        if self.contains_node(n) {
            Some(&mut self[n])
        } else {
            None
        }
    }

    /// A mutable reference to the weight of an edge, or `None` if there is no such edge.
    ///
    /// # Examples
    ///
    /// ```
    /// let mut dag: Dag<&'static str, u32> = Dag::new(rt.alloc());
    /// let sow = dag.add_node("sow")?;
    /// let (days, _) = dag.add_child(sow, 90, "reap")?;
    /// if let Some(weight) = dag.edge_weight_mut(days) {
    ///     *weight = 80;
    /// }
    /// assert!(rt; dag.edge_weight(days) == Some(&80));
    /// ```
    #[inline]
    pub fn edge_weight_mut(&mut self, e: EdgeIndex<Ix>) -> Option<&mut E>
        ensures* writes_back { sem 𝓛
            (lends_edge_if N.row E.row Ix.row S.row Ix.IndexType S.EdgeSource self.entry e result) }
        ensures value { option_copied_mut result ≡ edge_weight_at self.old.graph (Ix.number e) }
    {
        if self.guarded.store.contains_edge_index(e) {
            Some(&mut self[e])
        } else {
            None
        }
    }
}

impl<N: Drop, E: Drop, Ix: IndexType, S> Index<NodeIndex<Ix>> for Acyclic<N, E, Ix, S>
where
    S: ReadStore<Ix, NodeWeight = N, EdgeWeight = E>,
{
    type Output = N;

    ghost can_index = { λ d n. HasNode d.graph (Ix.number n) };

    ghost index_gives = { λ d n w. weight_at d.graph (Ix.number n) ≡ Some w };

    /// # Examples
    ///
    /// ```
    /// let mut dag: Dag<u32, u32> = Dag::new(rt.alloc());
    /// let n = dag.add_node(3)?;
    /// dag[n] = 4;
    /// assert!(rt; dag[n] == 4);
    /// ```
    #[inline]
    fn index(&self, n: NodeIndex<Ix>) -> &N {
        self.guarded.store.node_weight(n).unwrap()
    }
}

impl<N: Drop, E: Drop, Ix: IndexType, S> Index<EdgeIndex<Ix>> for Acyclic<N, E, Ix, S>
where
    S: ReadStore<Ix, NodeWeight = N, EdgeWeight = E>,
{
    type Output = E;

    ghost can_index = { λ d e. HasEdge d.graph (Ix.number e) };

    ghost index_gives = { λ d e w. edge_weight_at d.graph (Ix.number e) ≡ Some w };

    /// # Examples
    ///
    /// ```
    /// let mut dag: Dag<&'static str, u32> = Dag::new(rt.alloc());
    /// let sow = dag.add_node("sow")?;
    /// let (days, _reap) = dag.add_child(sow, 90, "reap")?;
    /// dag[days] = 80;
    /// assert!(rt; dag[days] == 80);
    /// ```
    #[inline]
    fn index(&self, e: EdgeIndex<Ix>) -> &E {
        self.guarded.store.edge_weight(e).unwrap()
    }
}

impl<N: Drop, E: Drop, Ix: IndexType, S> IndexMut<NodeIndex<Ix>> for Acyclic<N, E, Ix, S>
where
    S: Store<Ix, NodeWeight = N, EdgeWeight = E>,
{
    #[inline]
    fn index_mut(&mut self, n: NodeIndex<Ix>) -> &mut N
        requires { HasNode self.old.graph (Ix.number n) }
        ensures* writes_back { sem 𝓛
            (lends_node N.row E.row Ix.row S.row Ix.IndexType S.EdgeSource self.entry n result) }
        ensures value { weight_at self.old.graph (Ix.number n) ≡ Some result.now }
    {
        self.guarded.store.invariant();
        self.guarded.store.node_mut(n)
    }
}

impl<N: Drop, E: Drop, Ix: IndexType, S> IndexMut<EdgeIndex<Ix>> for Acyclic<N, E, Ix, S>
where
    S: Store<Ix, NodeWeight = N, EdgeWeight = E>,
{
    #[inline]
    fn index_mut(&mut self, e: EdgeIndex<Ix>) -> &mut E
        requires { HasEdge self.old.graph (Ix.number e) }
        ensures* writes_back { sem 𝓛
            (lends_edge N.row E.row Ix.row S.row Ix.IndexType S.EdgeSource self.entry e result) }
        ensures value { edge_weight_at self.old.graph (Ix.number e) ≡ Some result.now }
    {
        self.guarded.store.invariant();
        self.guarded.store.edge_mut(e)
    }
}
