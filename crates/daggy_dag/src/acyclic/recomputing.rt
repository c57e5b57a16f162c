//! New weights for all nodes, parents before children.
ghost use Rattle.std.specs.Prelude.{◌≡◌, ℕ, List, Contains, OnOk, IfErr};
ghost use Rattle.daggy_base.specs.Graph.{HasNode};
ghost use Rattle.daggy_base.specs.Ordered.{IsOrderOf};
ghost use Rattle.daggy_base.specs.Path.{IsAcyclic};
ghost use Rattle.daggy_dag.specs.Recomputing.{CanRecompute, CanRecomputeAlong, Recomputes};
ghost use Rattle.daggy_dag.specs.Recomputing.{CanTryRecompute, CanTryAlong, RecomputesInTurn};
ghost use Rattle.daggy_dag.specs.Recomputing.{StopsInTurn};

use crate::acyclic::Acyclic;
use daggy_base::index::{IndexType, NodeIndex};
use daggy_base::store::Store;
use daggy_order::order::Nodes;

impl<N: Drop, E: Drop, Ix: IndexType, S> Acyclic<N, E, Ix, S>
where
    S: Store<Ix, NodeWeight = N, EdgeWeight = E>,
{
    /// Gives each node the weight that `f` returns for it, parents before children. `f` is called
    /// with the graph and the node, after the parents of the node have received their new weights.
    ///
    /// # Requires
    ///
    /// - `f` may be called with each node and with the graph, whatever the weights in it are at
    ///   that time.
    ///
    /// # Complexity
    ///
    /// O(nodes), plus the calls. Does not allocate.
    ///
    /// # Examples
    ///
    /// ```
    /// let mut dag: Dag<u32, ()> = Dag::new(rt.alloc());
    /// let sow = dag.add_node(0)?;
    /// let (_, hoe) = dag.add_child(sow, (), 0)?;
    /// let (_, reap) = dag.add_child(hoe, (), 0)?;
    /// dag.add_edge(sow, reap, ())?;
    /// // How many edges the longest path to each node has.
    /// dag.recompute(|graph, n| {
    ///     let mut depth = 0u32;
    ///     for parent in graph.neighbors_directed(n, Direction::Incoming) {
    ///         let above = graph.node_weight(parent).copied().unwrap_or(0);
    ///         depth = depth.max(above.saturating_add(1));
    ///     }
    ///     depth
    /// });
    /// assert!(rt; dag.node_weight(reap) == Some(&2));
    /// ```
    pub fn recompute<F: Fn(&S, NodeIndex<Ix>) -> N>(&mut self, f: F)
        requires { CanRecompute S.graph Ix.of F.pre F.post f self.old.graph }
        ensures written { (order : List ℕ) × IsOrderOf self.old.graph order
            × Recomputes S.graph Ix.of F.post f order self.old.graph self.new.graph }
        ensures acyclic { IsAcyclic self.new.graph }
        ensures looks { self.new.looks ≡ self.old.looks }
    {
        self.guarded.invariant();
        recompute_nodes(&mut self.guarded.store, self.guarded.order.nodes(), &f);
    }

    /// The same as [`recompute`](Acyclic::recompute), with a closure that may fail and may change
    /// what it captures.
    ///
    /// # Requires
    ///
    /// - `f` may be called with each node and with the graph, whatever the weights in it are at
    ///   that time.
    ///
    /// # Errors
    ///
    /// Returns the first error that `f` returns. The nodes before the one that failed, in
    /// topological order, then have their new weights, and the others are unchanged.
    ///
    /// # Complexity
    ///
    /// O(nodes), plus the calls. Does not allocate.
    ///
    /// # Examples
    ///
    /// ```
    /// let mut dag: Dag<u32, ()> = Dag::new(rt.alloc());
    /// let sow = dag.add_node(7)?;
    /// let (_, hoe) = dag.add_child(sow, (), 0)?;
    /// // Writes the first node only.
    /// let mut is_first = true;
    /// let written = dag.try_recompute(|_, _| {
    ///     let was_first = is_first;
    ///     is_first = false;
    ///     if was_first { Ok(1) } else { Err("one is enough") }
    /// });
    /// assert!(rt; written == Err("one is enough"));
    /// assert!(rt; dag.node_weight(sow) == Some(&1));
    /// assert!(rt; dag.node_weight(hoe) == Some(&0));
    /// ```
    pub fn try_recompute<X, F: FnMut(&S, NodeIndex<Ix>) -> Result<N, X>>(
        &mut self,
        f: F,
    ) -> Result<(), X>
        requires { CanTryRecompute S.graph Ix.of F.step F.pre f self.old.graph }
        ensures written { OnOk result ((order : List ℕ) × (last : F) × IsOrderOf self.old.graph order
            × RecomputesInTurn S.graph Ix.of F.step order f self.old.graph last self.new.graph) }
        ensures stopped { IfErr result (λ error. (order : List ℕ) × IsOrderOf self.old.graph order
            × StopsInTurn S.graph Ix.of F.step order f self.old.graph error self.new.graph) }
        ensures acyclic { IsAcyclic self.new.graph }
        ensures looks { self.new.looks ≡ self.old.looks }
    {
        self.guarded.invariant();
        try_recompute_nodes(&mut self.guarded.store, self.guarded.order.nodes(), f)
    }
}

// Gives each of these nodes in turn the weight that `f` returns for it.
fn recompute_nodes<Ix: IndexType, S: Store<Ix>, F: Fn(&S, NodeIndex<Ix>) -> S::NodeWeight>(
    store: &mut S,
    mut nodes: Nodes<'_, Ix>,
    f: &F,
)
    requires exist { (n : ℕ) → Contains nodes n → HasNode (S.graph store.old) n }
    requires callable { CanRecomputeAlong S.graph Ix.of F.pre F.post f.now nodes
        (S.graph store.old) }
    ensures written { Recomputes S.graph Ix.of F.post f.now nodes.entry (S.graph store.old)
        (S.graph store.new) }
    ensures looks { S.looks store.new ≡ S.looks store.old }
{
    'nodes: while let Some(n) = nodes.next() {
        let weight = f(&*store, n);
        *store.node_mut(n) = weight;
    }
}

// Gives each of these nodes in turn the weight that `f` returns for it, until it fails.
fn try_recompute_nodes<
    Ix: IndexType,
    S: Store<Ix>,
    X,
    F: FnMut(&S, NodeIndex<Ix>) -> Result<S::NodeWeight, X>,
>(store: &mut S, mut nodes: Nodes<'_, Ix>, mut f: F) -> Result<(), X>
    requires exist { (n : ℕ) → Contains nodes n → HasNode (S.graph store.old) n }
    requires callable { CanTryAlong S.graph Ix.of F.step F.pre f nodes (S.graph store.old) }
    ensures written { OnOk result ((last : F) × RecomputesInTurn S.graph Ix.of F.step nodes.entry f
        (S.graph store.old) last (S.graph store.new)) }
    ensures stopped { IfErr result (λ error. StopsInTurn S.graph Ix.of F.step nodes.entry f
        (S.graph store.old) error (S.graph store.new)) }
    ensures looks { S.looks store.new ≡ S.looks store.old }
{
    'nodes: while let Some(n) = nodes.next() {
        let answer = f(&*store, n);
        match answer {
            Ok(weight) => *store.node_mut(n) = weight,
            Err(error) => return Err(error),
        }
    }
    Ok(())
}
