//! Adding edges one by one, each after the nodes that it needs.
ghost use Rattle.std.specs.Prelude.{◌≡◌, ℕ, ◌+◌, ◌<◌, ◌≤◌, OnOk, OnErr, IfErr};
ghost use Rattle.std.specs.Iterator.{IsFinite, IsFiniteIterable};
ghost use Rattle.daggy_base.specs.Graph.{edge_count};
ghost use Rattle.daggy_base.specs.Path.{IsAcyclic};
ghost use Rattle.daggy_guard.specs.Extension.{IsFilled, IsPartFilled, IsExtended, IsStopped};
ghost use Rattle.daggy_guard.specs.Extension.{Extends, Stops, extension_looks};

use crate::guard::Guarded;
use daggy_base::element::IntoWeightedEdge;
use daggy_base::error::EdgeError;
use daggy_base::index::{IndexType, NodeIndex};
use daggy_base::store::Store;
use std::alloc::AllocError;

impl<Ix: IndexType, S: Store<Ix>> Guarded<Ix, S> {
    // Adds nodes of the default weight until there are more than `last`.
    fn fill(&mut self, last: usize) -> Result<(), AllocError>
    where
        S::NodeWeight: Default,
        requires low { last < Ix.greatest }
        ensures filled { OnOk result
            (IsFilled S.NodeWeight.is_default last self.old.graph self.new.graph) }
        ensures part { OnErr result
            (IsPartFilled S.NodeWeight.is_default last self.old.graph self.new.graph) }
        ensures edges { edge_count self.new.graph ≡ edge_count self.old.graph }
        ensures counted { self.new.looks ≡ self.old.looks }
    {
        'nodes: while self.store.node_count() <= last {
            self.store.invariant();
            match self.add_node(<S::NodeWeight as Default>::default()) {
                Ok(_) => {}
                Err(_) => return Err(AllocError),
            }
        }
        Ok(())
    }

    // Adds one edge, after the nodes that it needs. If the edge fails those nodes stay.
    fn extend_by(
        &mut self,
        a: NodeIndex<Ix>,
        b: NodeIndex<Ix>,
        weight: S::EdgeWeight,
    ) -> Result<(), EdgeError<S::EdgeWeight>>
    where
        S::NodeWeight: Default,
        ensures extended { OnOk result (IsExtended S.NodeWeight.is_default Ix.greatest
            self.old.graph (Ix.number a, Ix.number b, weight) self.new.graph) }
        ensures stopped { IfErr result (λ error. IsStopped S.NodeWeight.is_default Ix.greatest
            self.old.graph (Ix.number a, Ix.number b, weight) error self.new.graph) }
        ensures looked { self.old.looks ≤ self.new.looks }
        ensures counted { self.new.looks ≤ self.old.looks + edge_count self.new.graph }
        ensures more { OnOk result
            (edge_count self.new.graph ≡ edge_count self.old.graph + 1) }
        ensures as_many { OnErr result
            (edge_count self.new.graph ≡ edge_count self.old.graph) }
    {
        let end = NodeIndex::<Ix>::end().index();
        let u = a.index();
        let v = b.index();
        if u == end || v == end || !self.store.can_add_edge() {
            return Err(EdgeError::Full(weight));
        }
        if self.fill(u.max(v)).is_err() {
            return Err(EdgeError::NodeMemory(weight));
        }
        if !self.store.contains_node(a) || !self.store.contains_node(b) {
            return Err(EdgeError::BadEndpoint(weight));
        }
        match self.add_edge(a, b, weight) {
            Ok(_) => Ok(()),
            Err(error) => Err(error),
        }
    }

    // Adds the edges that an iterator yields, up to the first one that fails.
    fn extend_all<
        T: IntoWeightedEdge<S::EdgeWeight, NodeId = NodeIndex<Ix>>,
        I: Iterator<Item = T>,
    >(&mut self, items: I) -> Result<(), EdgeError<S::EdgeWeight>>
    where
        S::NodeWeight: Default,
        requires can { I.can_next items }
        requires ends { IsFinite (I.remaining items) }
        ensures extended { OnOk result (Extends S.NodeWeight.is_default Ix.number Ix.greatest
            T.edge_gives I.next_gives items self.old.graph self.new.graph) }
        ensures stopped { IfErr result (λ error. Stops S.NodeWeight.is_default Ix.number Ix.greatest
            T.edge_gives I.next_gives items self.old.graph error self.new.graph) }
        ensures looked { self.old.looks ≤ self.new.looks }
        ensures counted { self.new.looks
            ≤ self.old.looks + extension_looks self.old.graph self.new.graph }
    {
        'items: for item in items {
            let (a, b, weight) = item.into_weighted_edge();
            match self.extend_by(a, b, weight) {
                Ok(()) => {}
                Err(error) => return Err(error),
            }
        }
        Ok(())
    }

    /// Adds the edges that `items` yields, one by one, up to the first one that fails. The edges
    /// and nodes added so far stay.
    pub fn extend_with_edges<
        T: IntoWeightedEdge<S::EdgeWeight, NodeId = NodeIndex<Ix>>,
        I: IntoIterator<Item = T>,
    >(&mut self, items: I) -> Result<(), EdgeError<S::EdgeWeight>>
    where
        S::NodeWeight: Default,
        requires ends { IsFiniteIterable I.into_iter_gives I.IntoIter.can_next I.IntoIter.remaining
            items }
        ensures extended { OnOk result ((it : I.IntoIter) × I.into_iter_gives items it
            × Extends S.NodeWeight.is_default Ix.number Ix.greatest T.edge_gives I.IntoIter.next_gives
            it self.old.graph self.new.graph) }
        ensures stopped { IfErr result (λ error. (it : I.IntoIter) × I.into_iter_gives items it
            × Stops S.NodeWeight.is_default Ix.number Ix.greatest T.edge_gives I.IntoIter.next_gives it
            self.old.graph error self.new.graph) }
        ensures acyclic { IsAcyclic self.new.graph }
        ensures looked { self.old.looks ≤ self.new.looks }
        ensures counted { self.new.looks
            ≤ self.old.looks + extension_looks self.old.graph self.new.graph }
    {
        let extended = self.extend_all(items.into_iter());
        self.invariant();
        extended
    }
}
