//! Mutable access to two weights at once.
ghost use Rattle.std.specs.Prelude.{◌≢◌};
ghost use Rattle.daggy_base.specs.Graph.{node_weight as weight_at, HasNode, HasEdge};
ghost use Rattle.daggy_base.specs.Path.{IsAcyclic};
ghost use Rattle.daggy_base.specs.State.{with_graph};
ghost use Rattle.daggy_base.specs.Weights.{edge_weight as edge_weight_at, with_node_weight};
ghost use Rattle.daggy_base.specs.Weights.{with_edge_weight};
ghost use Rattle.daggy_base.specs.Calls.{TakesAtTwo, CalledAtTwo};

use crate::acyclic::Acyclic;
use daggy_base::index::{EdgeIndex, IndexType, NodeIndex};
use daggy_base::read_store::ReadStore;
use daggy_graph::graph::DiGraph;

impl<N: Drop, E: Drop, Ix: IndexType> Acyclic<N, E, Ix, DiGraph<N, E, Ix>> {
    /// Calls `f` with mutable references to the weights of two nodes, and returns its result.
    ///
    /// # Requires
    ///
    /// - `first`: `a` is a node of the dag. Test: `contains_node(a)`.
    /// - `second`: `b` is a node of the dag. Test: `contains_node(b)`.
    /// - `different`: `a` and `b` are not the same index. Test: `a != b`.
    /// - `callable`: `f` may be called with these two weights.
    ///
    /// # Complexity
    ///
    /// O(1), plus the call.
    ///
    /// # Examples
    ///
    /// ```
    /// let mut dag: Dag<u32, ()> = Dag::new(rt.alloc());
    /// let from = dag.add_node(10)?;
    /// let to = dag.add_node(1)?;
    /// if from != to {
    ///     dag.update_two_nodes(from, to, |a, b| std::mem::swap(a, b));
    /// }
    /// assert!(rt; dag.node_weight(from) == Some(&1));
    /// assert!(rt; dag.node_weight(to) == Some(&10));
    /// ```
    #[inline]
    pub fn update_two_nodes<R, F: FnOnce(&mut N, &mut N) -> R>(
        &mut self,
        a: NodeIndex<Ix>,
        b: NodeIndex<Ix>,
        f: F,
    ) -> R
        requires first { HasNode self.old.graph (Ix.number a) }
        requires second { HasNode self.old.graph (Ix.number b) }
        requires different { Ix.number a ≢ Ix.number b }
        requires callable { TakesAtTwo F.FnOnce f (weight_at self.old.graph (Ix.number a))
            (weight_at self.old.graph (Ix.number b)) }
        ensures called { CalledAtTwo F.FnOnce f (weight_at self.old.graph (Ix.number a))
            (weight_at self.old.graph (Ix.number b)) result
            (λ v w. with_graph self.old
            (with_node_weight (with_node_weight self.old.graph (Ix.number a) v) (Ix.number b) w))
            self.new }
        ensures acyclic { IsAcyclic self.new.graph }
    {
        self.guarded.store.invariant();
        self.guarded.store.update_two_nodes(a, b, f)
    }

    /// Calls `f` with mutable references to the weights of two edges, and returns its result.
    ///
    /// # Requires
    ///
    /// - `first`: `a` is an edge of the dag. Test: `edge_endpoints(a).is_some()`.
    /// - `second`: `b` is an edge of the dag. Test: `edge_endpoints(b).is_some()`.
    /// - `different`: `a` and `b` are not the same index. Test: `a != b`.
    /// - `callable`: `f` may be called with these two weights.
    ///
    /// # Complexity
    ///
    /// O(1), plus the call.
    ///
    /// # Examples
    ///
    /// ```
    /// let mut dag: Dag<&'static str, u32> = Dag::new(rt.alloc());
    /// let sow = dag.add_node("sow")?;
    /// let reap = dag.add_node("reap")?;
    /// let days = dag.add_edge(sow, reap, 90)?;
    /// let more = dag.add_edge(sow, reap, 30)?;
    /// if days != more {
    ///     dag.update_two_edges(days, more, |a, b| std::mem::swap(a, b));
    /// }
    /// assert!(rt; dag.edge_weight(days) == Some(&30));
    /// ```
    #[inline]
    pub fn update_two_edges<R, F: FnOnce(&mut E, &mut E) -> R>(
        &mut self,
        a: EdgeIndex<Ix>,
        b: EdgeIndex<Ix>,
        f: F,
    ) -> R
        requires first { HasEdge self.old.graph (Ix.number a) }
        requires second { HasEdge self.old.graph (Ix.number b) }
        requires different { Ix.number a ≢ Ix.number b }
        requires callable { TakesAtTwo F.FnOnce f (edge_weight_at self.old.graph (Ix.number a))
            (edge_weight_at self.old.graph (Ix.number b)) }
        ensures called { CalledAtTwo F.FnOnce f (edge_weight_at self.old.graph (Ix.number a))
            (edge_weight_at self.old.graph (Ix.number b)) result
            (λ v w. with_graph self.old
            (with_edge_weight (with_edge_weight self.old.graph (Ix.number a) v) (Ix.number b) w))
            self.new }
        ensures acyclic { IsAcyclic self.new.graph }
    {
        self.guarded.store.invariant();
        self.guarded.store.update_two_edges(a, b, f)
    }

    /// Calls `f` with mutable references to the weights of a node and an edge, and returns its
    /// result.
    ///
    /// # Requires
    ///
    /// - `node`: `n` is a node of the dag. Test: `contains_node(n)`.
    /// - `edge`: `e` is an edge of the dag. Test: `edge_endpoints(e).is_some()`.
    /// - `callable`: `f` may be called with these two weights.
    ///
    /// # Complexity
    ///
    /// O(1), plus the call.
    ///
    /// # Examples
    ///
    /// ```
    /// let mut dag: Dag<u32, u32> = Dag::new(rt.alloc());
    /// let sow = dag.add_node(1)?;
    /// let (days, _) = dag.add_child(sow, 90, 2)?;
    /// dag.update_node_and_edge(sow, days, |weight, days| *weight = *days);
    /// assert!(rt; dag.node_weight(sow) == Some(&90));
    /// ```
    #[inline]
    pub fn update_node_and_edge<R, F: FnOnce(&mut N, &mut E) -> R>(
        &mut self,
        n: NodeIndex<Ix>,
        e: EdgeIndex<Ix>,
        f: F,
    ) -> R
        requires node { HasNode self.old.graph (Ix.number n) }
        requires edge { HasEdge self.old.graph (Ix.number e) }
        requires callable { TakesAtTwo F.FnOnce f (weight_at self.old.graph (Ix.number n))
            (edge_weight_at self.old.graph (Ix.number e)) }
        ensures called { CalledAtTwo F.FnOnce f (weight_at self.old.graph (Ix.number n))
            (edge_weight_at self.old.graph (Ix.number e)) result
            (λ v w. with_graph self.old
            (with_edge_weight (with_node_weight self.old.graph (Ix.number n) v) (Ix.number e) w))
            self.new }
        ensures acyclic { IsAcyclic self.new.graph }
    {
        self.guarded.store.invariant();
        self.guarded.store.update_node_and_edge(n, e, f)
    }
}
