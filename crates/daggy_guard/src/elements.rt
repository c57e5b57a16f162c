//! Graphs made from lists of nodes and edges.
ghost use Rattle.std.specs.Prelude.{◌≡◌, ◌<◌, OnOk, OnErr, IfErr, MatchOption, ℕ};
ghost use Rattle.std.specs.Iterator.{IsFinite, IsFiniteIterable};
ghost use Rattle.daggy_base.specs.Graph.{HasNode};
ghost use Rattle.daggy_base.specs.Path.{IsAcyclic};
ghost use Rattle.daggy_guard.specs.Elements.{IsJoined, IsEdgeRefused, WithElement};
ghost use Rattle.daggy_guard.specs.Elements.{IsElementRefused, IsMade, IsUnmade};

use crate::guard::Guarded;
use daggy_base::element::Element;
use daggy_base::error::{EdgeError, ElementError, NodeError};
use daggy_base::index::{IndexType, NodeIndex};
use daggy_base::read_store::ReadStore;
use daggy_base::store::Store;

// The node at a position, if there is one.
fn node_at<Ix: IndexType, S: ReadStore<Ix>>(store: &S, position: usize) -> Option<NodeIndex<Ix>>
    ensures { MatchOption result (HasNode (S.graph store.now) position → ⊥)
        (λ n. (Ix.number n ≡ position) × HasNode (S.graph store.now) position) }
{
    let bound = store.node_bound();
    if bound <= position {
        return None;
    }
    let n = NodeIndex::new(position);
    if store.contains_node(n) {
        Some(n)
    } else {
        None
    }
}

impl<Ix: IndexType, S: Store<Ix>> Guarded<Ix, S> {
    // Writes the weight of the edge between two positions, or adds it.
    fn join(
        &mut self,
        source: usize,
        target: usize,
        weight: S::EdgeWeight,
    ) -> Result<(), EdgeError<S::EdgeWeight>>
        ensures joined { OnOk result
            (IsJoined Ix.greatest self.old.graph (source, target, weight) self.new.graph) }
        ensures refused { IfErr result (λ error.
            IsEdgeRefused Ix.greatest self.old.graph (source, target, weight) error) }
        ensures unchanged { OnErr result (self.new.graph ≡ self.old.graph) }
    {
        let Some(a) = node_at(&self.store, source) else {
            return Err(EdgeError::BadEndpoint(weight));
        };
        let Some(b) = node_at(&self.store, target) else {
            return Err(EdgeError::BadEndpoint(weight));
        };
        if self.store.find_edge(a, b).is_none() && !self.store.can_add_edge() {
            return Err(EdgeError::Full(weight));
        }
        match self.update_edge(a, b, weight) {
            Ok(_) => Ok(()),
            Err(error) => Err(error),
        }
    }

    // Adds one element.
    fn add_element(
        &mut self,
        element: Element<S::NodeWeight, S::EdgeWeight>,
    ) -> Result<(), ElementError<S::NodeWeight, S::EdgeWeight>>
        ensures added { OnOk result
            (WithElement Ix.greatest self.old.graph element self.new.graph) }
        ensures refused { IfErr result (λ error.
            IsElementRefused Ix.greatest self.old.graph element error) }
        ensures unchanged { OnErr result (self.new.graph ≡ self.old.graph) }
    {
        match element {
            Element::Node { weight } => {
                if !self.store.can_add_node() {
                    return Err(ElementError::Node(NodeError::Full(weight)));
                }
                match self.add_node(weight) {
                    Ok(_) => Ok(()),
                    Err(error) => Err(ElementError::Node(error)),
                }
            }
            Element::Edge {
                source,
                target,
                weight,
            } => match self.join(source, target, weight) {
                Ok(()) => Ok(()),
                Err(error) => Err(ElementError::Edge(error)),
            },
        }
    }

    // Adds the elements that an iterator yields, up to the first one that fails.
    fn add_each_element<I: Iterator<Item = Element<S::NodeWeight, S::EdgeWeight>>>(
        &mut self,
        items: I,
    ) -> Result<(), ElementError<S::NodeWeight, S::EdgeWeight>>
        requires can { I.can_next items }
        requires ends { IsFinite (I.remaining items) }
        ensures made { OnOk result
            (IsMade Ix.greatest I.next_gives items self.old.graph self.new.graph) }
        ensures refused { IfErr result (λ error.
            IsUnmade Ix.greatest I.next_gives items self.old.graph error) }
    {
        'items: for element in items {
            match self.add_element(element) {
                Ok(()) => {}
                Err(error) => return Err(error),
            }
        }
        Ok(())
    }

    /// Adds the elements that `items` yields, one by one, up to the first one that fails.
    pub fn add_elements<I: IntoIterator<Item = Element<S::NodeWeight, S::EdgeWeight>>>(
        &mut self,
        items: I,
    ) -> Result<(), ElementError<S::NodeWeight, S::EdgeWeight>>
        requires ends { IsFiniteIterable I.into_iter_gives I.IntoIter.can_next I.IntoIter.remaining
            items }
        ensures made { OnOk result ((it : I.IntoIter) × I.into_iter_gives items it
            × IsMade Ix.greatest I.IntoIter.next_gives it self.old.graph self.new.graph) }
        ensures refused { IfErr result (λ error. (it : I.IntoIter) × I.into_iter_gives items it
            × IsUnmade Ix.greatest I.IntoIter.next_gives it self.old.graph error) }
        ensures acyclic { IsAcyclic self.new.graph }
    {
        let added = self.add_each_element(items.into_iter());
        self.invariant();
        added
    }
}
