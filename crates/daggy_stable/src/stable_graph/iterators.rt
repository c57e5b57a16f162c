//! Iterators over the nodes and the edges.
ghost use Rattle.std.specs.Prelude.{◌≡◌, ◌<◌, ◌^◌, length, Some, IsSome};
ghost use Rattle.std.specs.Iterator.{YieldsFirstRef, YieldsFirstBy, YieldsLastBy, item_count};
ghost use Rattle.daggy_base.specs.Iterating.{node_weights as node_weights_of};
ghost use Rattle.daggy_base.specs.Iterating.{edge_weights as edge_weights_of};
ghost use Rattle.daggy_base.specs.Iterating.{node_identifiers as node_identifiers_of};
ghost use Rattle.daggy_base.specs.Iterating.{edge_identifiers as edge_identifiers_of};
ghost use Rattle.daggy_base.specs.Iterating.{node_references as node_references_of};
ghost use Rattle.daggy_base.specs.Iterating.{edge_references as edge_references_of};
ghost use Rattle.daggy_cells.specs.Referring.{referred};
ghost use Rattle.daggy_stable.specs.Rest.{numbered_edge};
ghost use Rattle.daggy_stable.specs.Stored.{plain_edge};

use crate::stable_graph::StableDiGraph;
use crate::stable_graph::full_slots::FullSlots;
use daggy_base::index::{DefaultIx, Direction, EdgeIndex, IndexType, NodeIndex};
use daggy_cells::cell::{Edge, Node};
use daggy_cells::links;
use daggy_cells::reference::EdgeReference;
use std::alloc::AllocError;
use std::fmt;
use std::iter::{DoubleEndedIterator, FusedIterator};
use std::marker::Model;

/// The nodes in ascending index order, each with its weight. Returned by
/// [`node_references`](crate::stable_graph::StableDiGraph::node_references).
///
/// # Complexity
///
/// O(slots) for the whole iteration.
#[derive(Drop)]
pub struct NodeReferences<'a, N, Ix: IndexType = DefaultIx> {
    slots: FullSlots<'a, Node<Option<N>, Ix>>,
}

impl<'a, N, Ix: IndexType> Model for NodeReferences<'a, N, Ix> {
    ghost use Rattle.std.specs.Prelude.{ℕ, ◌+◌, ◌^◌, ◌<◌, ◌≤◌, List, map, length};
    ghost use Rattle.daggy_base.specs.Iterating.{numbered};
    ghost use Rattle.daggy_stable.specs.Stored.{weight_of};

    ghost Value = { List (ℕ × N) };

    ghost view = { λ it. numbered it.slots.index (map weight_of it.slots.cells.now) };

    ghost invariant = { λ it.
        (it.slots.index + length it.slots.cells.now ≤ Ix.greatest)
        × (it.slots.index + length it.slots.cells.now < 2 ^ 64) };
}

impl<'a, N, Ix: IndexType> Iterator for NodeReferences<'a, N, Ix> {
    type Item = (NodeIndex<Ix>, &'a N);

    ghost next_gives = { YieldsFirstBy (λ item. (Ix.number item.0, item.1.now)) (λ rest. rest) };

    ghost remaining = { item_count (λ rest. rest) };

    #[inline]
    fn next(&mut self) -> Option<(NodeIndex<Ix>, &'a N)> {
        let (i, x) = self.slots.next_full()?;
        let n = NodeIndex::new(i);
        Some((n, x.weight.as_ref().unwrap()))
    }

    #[inline]
    fn size_hint(&self) -> (usize, Option<usize>) {
        (0, Some(self.slots.cells.len()))
    }
}

impl<'a, N, Ix: IndexType> DoubleEndedIterator for NodeReferences<'a, N, Ix> {
    ghost next_back_gives = { YieldsLastBy (λ item. (Ix.number item.0, item.1.now)) (λ rest. rest) };

    #[inline]
    fn next_back(&mut self) -> Option<(NodeIndex<Ix>, &'a N)> {
        let (at, x) = self.slots.last_full()?;
        let n = NodeIndex::new(at);
        Some((n, x.weight.as_ref().unwrap()))
    }
}

impl<'a, N, Ix: IndexType> FusedIterator for NodeReferences<'a, N, Ix> {}

impl<'a, N, Ix: IndexType> Clone for NodeReferences<'a, N, Ix> {
    ghost is_clone = { λ a b. a ≡ b };

    fn clone(&self) -> Result<Self, AllocError> {
        Ok(NodeReferences {
            slots: FullSlots {
                cells: self.slots.cells,
                index: self.slots.index,
            },
        })
    }
}

impl<'a, N, Ix: IndexType> fmt::Debug for NodeReferences<'a, N, Ix> {
    fn fmt<W: fmt::Write>(&self, f: &mut fmt::Formatter<W>) -> fmt::Result {
        f.debug_struct("NodeReferences").finish_non_exhaustive()
    }
}

/// The indices of the nodes, in ascending order. Returned by
/// [`node_identifiers`](crate::stable_graph::StableDiGraph::node_identifiers).
#[derive(Drop)]
pub struct NodeIdentifiers<'a, N, Ix: IndexType = DefaultIx> {
    nodes: NodeReferences<'a, N, Ix>,
}

impl<'a, N, Ix: IndexType> Model for NodeIdentifiers<'a, N, Ix> {
    ghost use Rattle.std.specs.Prelude.{ℕ, List, map};

    ghost Value = { List ℕ };

    ghost view = { λ it. map (λ p. p.0) it.nodes };
}

impl<'a, N, Ix: IndexType> Iterator for NodeIdentifiers<'a, N, Ix> {
    type Item = NodeIndex<Ix>;

    ghost next_gives = { YieldsFirstBy Ix.number (λ rest. rest) };

    ghost remaining = { item_count (λ rest. rest) };

    #[inline]
    fn next(&mut self) -> Option<NodeIndex<Ix>> {
        match self.nodes.next() {
            Some((n, _w)) => Some(n),
            None => None,
        }
    }

    #[inline]
    fn size_hint(&self) -> (usize, Option<usize>) {
        self.nodes.size_hint()
    }
}

impl<'a, N, Ix: IndexType> DoubleEndedIterator for NodeIdentifiers<'a, N, Ix> {
    ghost next_back_gives = { YieldsLastBy Ix.number (λ rest. rest) };

    #[inline]
    fn next_back(&mut self) -> Option<NodeIndex<Ix>> {
        match self.nodes.next_back() {
            Some((n, _w)) => Some(n),
            None => None,
        }
    }
}

impl<'a, N, Ix: IndexType> FusedIterator for NodeIdentifiers<'a, N, Ix> {}

impl<'a, N, Ix: IndexType> Clone for NodeIdentifiers<'a, N, Ix> {
    ghost is_clone = { λ a b. a ≡ b };

    fn clone(&self) -> Result<Self, AllocError> {
        Ok(NodeIdentifiers {
            nodes: self.nodes.clone()?,
        })
    }
}

impl<'a, N, Ix: IndexType> fmt::Debug for NodeIdentifiers<'a, N, Ix> {
    fn fmt<W: fmt::Write>(&self, f: &mut fmt::Formatter<W>) -> fmt::Result {
        f.debug_struct("NodeIdentifiers").finish_non_exhaustive()
    }
}

/// The weights of the nodes, in ascending index order. Returned by
/// [`node_weights`](crate::stable_graph::StableDiGraph::node_weights).
#[derive(Drop)]
pub struct NodeWeights<'a, N, Ix: IndexType = DefaultIx> {
    nodes: NodeReferences<'a, N, Ix>,
}

impl<'a, N, Ix: IndexType> Model for NodeWeights<'a, N, Ix> {
    ghost use Rattle.std.specs.Prelude.{List, map};

    ghost Value = { List N };

    ghost view = { λ it. map (λ p. p.1) it.nodes };
}

impl<'a, N, Ix: IndexType> Iterator for NodeWeights<'a, N, Ix> {
    type Item = &'a N;

    ghost next_gives = { YieldsFirstRef (λ rest. rest) };

    ghost remaining = { item_count (λ rest. rest) };

    #[inline]
    fn next(&mut self) -> Option<&'a N> {
        match self.nodes.next() {
            Some((_n, w)) => Some(w),
            None => None,
        }
    }

    #[inline]
    fn size_hint(&self) -> (usize, Option<usize>) {
        self.nodes.size_hint()
    }
}

impl<'a, N, Ix: IndexType> FusedIterator for NodeWeights<'a, N, Ix> {}

impl<'a, N, Ix: IndexType> Clone for NodeWeights<'a, N, Ix> {
    ghost is_clone = { λ a b. a ≡ b };

    fn clone(&self) -> Result<Self, AllocError> {
        Ok(NodeWeights {
            nodes: self.nodes.clone()?,
        })
    }
}

impl<'a, N, Ix: IndexType> fmt::Debug for NodeWeights<'a, N, Ix> {
    fn fmt<W: fmt::Write>(&self, f: &mut fmt::Formatter<W>) -> fmt::Result {
        f.debug_struct("NodeWeights").finish_non_exhaustive()
    }
}

// A reference to a stored edge.
#[inline]
pub(super) fn reference<'a, E, Ix: IndexType>(
    e: EdgeIndex<Ix>,
    x: &'a Edge<Option<E>, Ix>,
) -> EdgeReference<'a, E, Ix>
    requires { IsSome x.now.weight }
    ensures { numbered_edge (Ix.number e) (plain_edge x.now) ≡ Some (referred Ix.number result) }
{
    let source = links::endpoint(x, Direction::Outgoing).node();
    let target = links::endpoint(x, Direction::Incoming).node();
    EdgeReference::from_parts(e, source, target, x.weight.as_ref().unwrap())
}

/// The edges, in ascending index order. Returned by
/// [`edge_references`](crate::stable_graph::StableDiGraph::edge_references).
///
/// # Complexity
///
/// O(slots) for the whole iteration.
#[derive(Drop)]
pub struct EdgeReferences<'a, E, Ix: IndexType = DefaultIx> {
    slots: FullSlots<'a, Edge<Option<E>, Ix>>,
}

impl<'a, E, Ix: IndexType> Model for EdgeReferences<'a, E, Ix> {
    ghost use Rattle.std.specs.Prelude.{ℕ, ◌+◌, ◌^◌, ◌<◌, ◌≤◌, List, map, length};
    ghost use Rattle.daggy_base.specs.Graph.{Edge as PlainEdge};
    ghost use Rattle.daggy_base.specs.Iterating.{numbered};
    ghost use Rattle.daggy_stable.specs.Stored.{plain_edge};

    ghost Value = { List (ℕ × PlainEdge E) };

    ghost view = { λ it. numbered it.slots.index (map plain_edge it.slots.cells.now) };

    ghost invariant = { λ it.
        (it.slots.index + length it.slots.cells.now ≤ Ix.greatest)
        × (it.slots.index + length it.slots.cells.now < 2 ^ 64) };
}

impl<'a, E, Ix: IndexType> Iterator for EdgeReferences<'a, E, Ix> {
    ghost use Rattle.daggy_cells.specs.Referring.{referred};

    type Item = EdgeReference<'a, E, Ix>;

    ghost next_gives = { YieldsFirstBy (referred Ix.number) (λ rest. rest) };

    ghost remaining = { item_count (λ rest. rest) };

    #[inline]
    fn next(&mut self) -> Option<EdgeReference<'a, E, Ix>> {
        let (i, x) = self.slots.next_full()?;
        Some(reference(EdgeIndex::new(i), x))
    }

    #[inline]
    fn size_hint(&self) -> (usize, Option<usize>) {
        (0, Some(self.slots.cells.len()))
    }
}

impl<'a, E, Ix: IndexType> DoubleEndedIterator for EdgeReferences<'a, E, Ix> {
    ghost use Rattle.daggy_cells.specs.Referring.{referred};

    ghost next_back_gives = { YieldsLastBy (referred Ix.number) (λ rest. rest) };

    #[inline]
    fn next_back(&mut self) -> Option<EdgeReference<'a, E, Ix>> {
        let (at, x) = self.slots.last_full()?;
        Some(reference(EdgeIndex::new(at), x))
    }
}

impl<'a, E, Ix: IndexType> FusedIterator for EdgeReferences<'a, E, Ix> {}

impl<'a, E, Ix: IndexType> Clone for EdgeReferences<'a, E, Ix> {
    ghost is_clone = { λ a b. a ≡ b };

    fn clone(&self) -> Result<Self, AllocError> {
        Ok(EdgeReferences {
            slots: FullSlots {
                cells: self.slots.cells,
                index: self.slots.index,
            },
        })
    }
}

impl<'a, E, Ix: IndexType> fmt::Debug for EdgeReferences<'a, E, Ix> {
    fn fmt<W: fmt::Write>(&self, f: &mut fmt::Formatter<W>) -> fmt::Result {
        f.debug_struct("EdgeReferences").finish_non_exhaustive()
    }
}

/// The weights of the edges, in ascending index order. Returned by
/// [`edge_weights`](crate::stable_graph::StableDiGraph::edge_weights).
#[derive(Drop)]
pub struct EdgeWeights<'a, E, Ix: IndexType = DefaultIx> {
    edges: EdgeReferences<'a, E, Ix>,
}

impl<'a, E, Ix: IndexType> Model for EdgeWeights<'a, E, Ix> {
    ghost use Rattle.std.specs.Prelude.{List, map};

    ghost Value = { List E };

    ghost view = { λ it. map (λ p. p.1.weight) it.edges };
}

impl<'a, E, Ix: IndexType> Iterator for EdgeWeights<'a, E, Ix> {
    type Item = &'a E;

    ghost next_gives = { YieldsFirstRef (λ rest. rest) };

    ghost remaining = { item_count (λ rest. rest) };

    #[inline]
    fn next(&mut self) -> Option<&'a E> {
        let x = self.edges.next()?;
        Some(x.weight())
    }

    #[inline]
    fn size_hint(&self) -> (usize, Option<usize>) {
        self.edges.size_hint()
    }
}

impl<'a, E, Ix: IndexType> FusedIterator for EdgeWeights<'a, E, Ix> {}

impl<'a, E, Ix: IndexType> Clone for EdgeWeights<'a, E, Ix> {
    ghost is_clone = { λ a b. a ≡ b };

    fn clone(&self) -> Result<Self, AllocError> {
        Ok(EdgeWeights {
            edges: self.edges.clone()?,
        })
    }
}

impl<'a, E, Ix: IndexType> fmt::Debug for EdgeWeights<'a, E, Ix> {
    fn fmt<W: fmt::Write>(&self, f: &mut fmt::Formatter<W>) -> fmt::Result {
        f.debug_struct("EdgeWeights").finish_non_exhaustive()
    }
}

/// The indices of the edges, in ascending order. Returned by
/// [`edge_identifiers`](crate::stable_graph::StableDiGraph::edge_identifiers).
#[derive(Drop)]
pub struct EdgeIdentifiers<'a, E, Ix: IndexType = DefaultIx> {
    edges: EdgeReferences<'a, E, Ix>,
}

impl<'a, E, Ix: IndexType> Model for EdgeIdentifiers<'a, E, Ix> {
    ghost use Rattle.std.specs.Prelude.{ℕ, List, map};

    ghost Value = { List ℕ };

    ghost view = { λ it. map (λ p. p.0) it.edges };
}

impl<'a, E, Ix: IndexType> Iterator for EdgeIdentifiers<'a, E, Ix> {
    type Item = EdgeIndex<Ix>;

    ghost next_gives = { YieldsFirstBy Ix.number (λ rest. rest) };

    ghost remaining = { item_count (λ rest. rest) };

    #[inline]
    fn next(&mut self) -> Option<EdgeIndex<Ix>> {
        let x = self.edges.next()?;
        Some(x.id())
    }

    #[inline]
    fn size_hint(&self) -> (usize, Option<usize>) {
        self.edges.size_hint()
    }
}

impl<'a, E, Ix: IndexType> DoubleEndedIterator for EdgeIdentifiers<'a, E, Ix> {
    ghost next_back_gives = { YieldsLastBy Ix.number (λ rest. rest) };

    #[inline]
    fn next_back(&mut self) -> Option<EdgeIndex<Ix>> {
        let x = self.edges.next_back()?;
        Some(x.id())
    }
}

impl<'a, E, Ix: IndexType> FusedIterator for EdgeIdentifiers<'a, E, Ix> {}

impl<'a, E, Ix: IndexType> Clone for EdgeIdentifiers<'a, E, Ix> {
    ghost is_clone = { λ a b. a ≡ b };

    fn clone(&self) -> Result<Self, AllocError> {
        Ok(EdgeIdentifiers {
            edges: self.edges.clone()?,
        })
    }
}

impl<'a, E, Ix: IndexType> fmt::Debug for EdgeIdentifiers<'a, E, Ix> {
    fn fmt<W: fmt::Write>(&self, f: &mut fmt::Formatter<W>) -> fmt::Result {
        f.debug_struct("EdgeIdentifiers").finish_non_exhaustive()
    }
}

impl<N, E, Ix: IndexType> StableDiGraph<N, E, Ix> {
    /// The weights of the nodes, in ascending index order.
    ///
    /// # Complexity
    ///
    /// O(node slots) for the whole iteration, since vacant slots are skipped.
    #[inline]
    pub fn node_weights(&self) -> NodeWeights<'_, N, Ix>
        ensures rest { result ≡ node_weights_of self.now.graph }
        ensures fits { length result < 2 ^ 64 }
    {
        NodeWeights {
            nodes: self.node_references(),
        }
    }

    /// The weights of the edges, in ascending index order.
    ///
    /// # Complexity
    ///
    /// O(edge slots) for the whole iteration, since vacant slots are skipped.
    #[inline]
    pub fn edge_weights(&self) -> EdgeWeights<'_, E, Ix>
        ensures rest { result ≡ edge_weights_of self.now.graph }
        ensures fits { length result < 2 ^ 64 }
    {
        EdgeWeights {
            edges: self.edge_references(),
        }
    }

    /// The indices of the nodes, in ascending order.
    ///
    /// # Complexity
    ///
    /// O(node slots) for the whole iteration, since vacant slots are skipped.
    #[inline]
    pub fn node_identifiers(&self) -> NodeIdentifiers<'_, N, Ix>
        ensures rest { result ≡ node_identifiers_of self.now.graph }
        ensures fits { length result < 2 ^ 64 }
    {
        NodeIdentifiers {
            nodes: self.node_references(),
        }
    }

    /// The indices of the edges, in ascending order.
    ///
    /// # Complexity
    ///
    /// O(edge slots) for the whole iteration, since vacant slots are skipped.
    #[inline]
    pub fn edge_identifiers(&self) -> EdgeIdentifiers<'_, E, Ix>
        ensures rest { result ≡ edge_identifiers_of self.now.graph }
        ensures fits { length result < 2 ^ 64 }
    {
        EdgeIdentifiers {
            edges: self.edge_references(),
        }
    }

    /// The nodes in ascending index order, each with its weight.
    ///
    /// # Complexity
    ///
    /// O(node slots) for the whole iteration, since vacant slots are skipped.
    #[inline]
    pub fn node_references(&self) -> NodeReferences<'_, N, Ix>
        ensures rest { result ≡ node_references_of self.now.graph }
        ensures fits { length result < 2 ^ 64 }
    {
        NodeReferences {
            slots: FullSlots {
                cells: self.nodes.as_slice(),
                index: 0,
            },
        }
    }

    /// The edges, in ascending index order.
    ///
    /// # Complexity
    ///
    /// O(edge slots) for the whole iteration, since vacant slots are skipped.
    #[inline]
    pub fn edge_references(&self) -> EdgeReferences<'_, E, Ix>
        ensures rest { result ≡ edge_references_of self.now.graph }
        ensures fits { length result < 2 ^ 64 }
    {
        EdgeReferences {
            slots: FullSlots {
                cells: self.edges.as_slice(),
                index: 0,
            },
        }
    }
}
