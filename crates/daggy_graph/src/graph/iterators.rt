//! Iterators over the nodes and the edges.
ghost use Rattle.std.specs.Prelude.{◌≡◌, ◌<◌, ◌^◌, length};
ghost use Rattle.std.specs.Iterator.{YieldsFirstRef, YieldsFirstBy, YieldsLastRef, YieldsLastBy};
ghost use Rattle.std.specs.Iterator.{item_count};
ghost use Rattle.daggy_cells.specs.Referring.{referred};
ghost use Rattle.daggy_cells.specs.Fields.{plain};
ghost use Rattle.daggy_base.specs.Iterating.{node_weights as node_weights_of};
ghost use Rattle.daggy_base.specs.Iterating.{edge_weights as edge_weights_of};
ghost use Rattle.daggy_base.specs.Iterating.{node_identifiers as node_identifiers_of};
ghost use Rattle.daggy_base.specs.Iterating.{edge_identifiers as edge_identifiers_of};
ghost use Rattle.daggy_base.specs.Iterating.{node_references as node_references_of};
ghost use Rattle.daggy_base.specs.Iterating.{edge_references as edge_references_of};

use crate::graph::{DiGraph, Edge, Node};
use daggy_base::index::{DefaultIx, EdgeIndex, IndexType, NodeIndex};
use daggy_base::link::Link;
use daggy_cells::reference::EdgeReference;
use std::alloc::AllocError;
use std::fmt;
use std::iter::{DoubleEndedIterator, ExactSizeIterator, FusedIterator};
use std::marker::Model;

/// The weights of the nodes, in ascending index order. Returned by
/// [`node_weights`](crate::graph::DiGraph::node_weights).
///
/// # Examples
///
/// ```
/// let mut graph: DiGraph<u32, ()> = DiGraph::new(rt.alloc());
/// graph.add_node(2)?;
/// graph.add_node(3)?;
/// let weights: Vec<_> = graph.node_weights().copied().collect(rt.alloc())?;
/// assert!(rt; weights.as_slice() == [2, 3].as_slice());
/// ```
#[derive(Drop)]
pub struct NodeWeights<'a, N, Ix: IndexType = DefaultIx> {
    nodes: &'a [Node<N, Ix>],
}

impl<'a, N, Ix: IndexType> Model for NodeWeights<'a, N, Ix> {
    ghost use Rattle.std.specs.Prelude.{List, map};

    ghost Value = { List N };

    ghost view = { λ it. map (λ x. x.weight) it.nodes.now };
}

impl<'a, N, Ix: IndexType> Iterator for NodeWeights<'a, N, Ix> {
    type Item = &'a N;

    ghost next_gives = { YieldsFirstRef (λ rest. rest) };

    ghost remaining = { item_count (λ rest. rest) };

    #[inline]
    fn next(&mut self) -> Option<&'a N> {
        let (x, rest) = self.nodes.split_first()?;
        self.nodes = rest;
        Some(&x.weight)
    }

    #[inline]
    fn size_hint(&self) -> (usize, Option<usize>) {
        let left = self.len();
        (left, Some(left))
    }
}

impl<'a, N, Ix: IndexType> DoubleEndedIterator for NodeWeights<'a, N, Ix> {
    ghost next_back_gives = { YieldsLastRef (λ rest. rest) };

    #[inline]
    fn next_back(&mut self) -> Option<&'a N> {
        let (x, rest) = self.nodes.split_last()?;
        self.nodes = rest;
        Some(&x.weight)
    }
}

impl<'a, N, Ix: IndexType> ExactSizeIterator for NodeWeights<'a, N, Ix> {
    #[inline]
    fn len(&self) -> usize {
        self.nodes.len()
    }
}

impl<'a, N, Ix: IndexType> FusedIterator for NodeWeights<'a, N, Ix> {}

impl<'a, N, Ix: IndexType> Clone for NodeWeights<'a, N, Ix> {
    ghost is_clone = { λ a b. a ≡ b };

    fn clone(&self) -> Result<Self, AllocError> {
        Ok(NodeWeights { nodes: self.nodes })
    }
}

impl<'a, N, Ix: IndexType> fmt::Debug for NodeWeights<'a, N, Ix> {
    fn fmt<W: fmt::Write>(&self, f: &mut fmt::Formatter<W>) -> fmt::Result {
        f.debug_struct("NodeWeights")
            .field("remaining", &self.len())
            .finish()
    }
}

/// The weights of the edges, in ascending index order. Returned by
/// [`edge_weights`](crate::graph::DiGraph::edge_weights).
///
/// # Examples
///
/// ```
/// let mut graph: DiGraph<&'static str, u32> = DiGraph::new(rt.alloc());
/// let sow = graph.add_node("sow")?;
/// graph.add_edge(sow, sow, 90)?;
/// graph.add_edge(sow, sow, 30)?;
/// let weights: Vec<_> = graph.edge_weights().copied().collect(rt.alloc())?;
/// assert!(rt; weights.as_slice() == [90, 30].as_slice());
/// ```
#[derive(Drop)]
pub struct EdgeWeights<'a, E, Ix: IndexType = DefaultIx> {
    edges: &'a [Edge<E, Ix>],
}

impl<'a, E, Ix: IndexType> Model for EdgeWeights<'a, E, Ix> {
    ghost use Rattle.std.specs.Prelude.{List, map};

    ghost Value = { List E };

    ghost view = { λ it. map (λ x. x.weight) it.edges.now };
}

impl<'a, E, Ix: IndexType> Iterator for EdgeWeights<'a, E, Ix> {
    type Item = &'a E;

    ghost next_gives = { YieldsFirstRef (λ rest. rest) };

    ghost remaining = { item_count (λ rest. rest) };

    #[inline]
    fn next(&mut self) -> Option<&'a E> {
        let (x, rest) = self.edges.split_first()?;
        self.edges = rest;
        Some(&x.weight)
    }

    #[inline]
    fn size_hint(&self) -> (usize, Option<usize>) {
        let left = self.len();
        (left, Some(left))
    }
}

impl<'a, E, Ix: IndexType> DoubleEndedIterator for EdgeWeights<'a, E, Ix> {
    ghost next_back_gives = { YieldsLastRef (λ rest. rest) };

    #[inline]
    fn next_back(&mut self) -> Option<&'a E> {
        let (x, rest) = self.edges.split_last()?;
        self.edges = rest;
        Some(&x.weight)
    }
}

impl<'a, E, Ix: IndexType> ExactSizeIterator for EdgeWeights<'a, E, Ix> {
    #[inline]
    fn len(&self) -> usize {
        self.edges.len()
    }
}

impl<'a, E, Ix: IndexType> FusedIterator for EdgeWeights<'a, E, Ix> {}

impl<'a, E, Ix: IndexType> Clone for EdgeWeights<'a, E, Ix> {
    ghost is_clone = { λ a b. a ≡ b };

    fn clone(&self) -> Result<Self, AllocError> {
        Ok(EdgeWeights { edges: self.edges })
    }
}

impl<'a, E, Ix: IndexType> fmt::Debug for EdgeWeights<'a, E, Ix> {
    fn fmt<W: fmt::Write>(&self, f: &mut fmt::Formatter<W>) -> fmt::Result {
        f.debug_struct("EdgeWeights")
            .field("remaining", &self.len())
            .finish()
    }
}

/// The indices of the nodes, in ascending order. It does not borrow the graph. Returned by
/// [`node_identifiers`](crate::graph::DiGraph::node_identifiers).
///
/// # Examples
///
/// ```
/// let mut graph: DiGraph<u32, ()> = DiGraph::new(rt.alloc());
/// let one = graph.add_node(1)?;
/// let two = graph.add_node(2)?;
/// // The graph may change during the loop.
/// for n in graph.node_identifiers() {
///     if let Some(weight) = graph.node_weight_mut(n) {
///         *weight *= 10;
///     }
/// }
/// assert!(rt; graph.node_weight(one) == Some(&10));
/// assert!(rt; graph.node_weight(two) == Some(&20));
/// ```
#[derive(Drop)]
pub struct NodeIdentifiers<Ix: IndexType = DefaultIx> {
    next: Link<Ix>,
    end: Link<Ix>,
}

impl<Ix: IndexType> Model for NodeIdentifiers<Ix> {
    ghost use Rattle.std.specs.Prelude.{ℕ, ◌-◌, ◌≤◌, List};
    ghost use Rattle.std.specs.List.{range_with_len};

    ghost Value = { List ℕ };

    ghost view = { λ it. range_with_len it.next (it.end - it.next) };

    ghost invariant = { λ it. it.end ≤ Ix.greatest };
}

impl<Ix: IndexType> Iterator for NodeIdentifiers<Ix> {
    type Item = NodeIndex<Ix>;

    ghost next_gives = { YieldsFirstBy Ix.number (λ rest. rest) };

    ghost remaining = { item_count (λ rest. rest) };

    #[inline]
    fn next(&mut self) -> Option<NodeIndex<Ix>> {
        let i = self.next.index();
        if i >= self.end.index() {
            return None;
        }
        self.next = Link::new(i + 1);
        Some(NodeIndex::new(i))
    }

    #[inline]
    fn size_hint(&self) -> (usize, Option<usize>) {
        let left = self.len();
        (left, Some(left))
    }
}

impl<Ix: IndexType> DoubleEndedIterator for NodeIdentifiers<Ix> {
    ghost next_back_gives = { YieldsLastBy Ix.number (λ rest. rest) };

    #[inline]
    fn next_back(&mut self) -> Option<NodeIndex<Ix>> {
        let end = self.end.index();
        if end <= self.next.index() {
            return None;
        }
        self.end = Link::new(end - 1);
        Some(NodeIndex::new(end - 1))
    }
}

impl<Ix: IndexType> ExactSizeIterator for NodeIdentifiers<Ix> {
    #[inline]
    fn len(&self) -> usize {
        self.end.index().saturating_sub(self.next.index())
    }
}

impl<Ix: IndexType> FusedIterator for NodeIdentifiers<Ix> {}

impl<Ix: IndexType> Clone for NodeIdentifiers<Ix> {
    ghost is_clone = { λ a b. a ≡ b };

    fn clone(&self) -> Result<Self, AllocError> {
        Ok(NodeIdentifiers {
            next: self.next,
            end: self.end,
        })
    }
}

impl<Ix: IndexType> fmt::Debug for NodeIdentifiers<Ix> {
    fn fmt<W: fmt::Write>(&self, f: &mut fmt::Formatter<W>) -> fmt::Result {
        f.debug_struct("NodeIdentifiers")
            .field("remaining", &self.len())
            .finish()
    }
}

/// The nodes in ascending index order, each with its weight. Returned by
/// [`node_references`](crate::graph::DiGraph::node_references).
///
/// # Examples
///
/// ```
/// let mut graph: DiGraph<u32, ()> = DiGraph::new(rt.alloc());
/// let one = graph.add_node(1)?;
/// let two = graph.add_node(2)?;
/// let mut nodes = graph.node_references();
/// assert!(rt; nodes.next() == Some((one, &1)));
/// assert!(rt; nodes.next() == Some((two, &2)));
/// assert!(rt; nodes.next().is_none());
/// ```
#[derive(Drop)]
pub struct NodeReferences<'a, N, Ix: IndexType = DefaultIx> {
    nodes: &'a [Node<N, Ix>],
    index: usize,
}

impl<'a, N, Ix: IndexType> Model for NodeReferences<'a, N, Ix> {
    ghost use Rattle.std.specs.Prelude.{ℕ, ◌+◌, ◌^◌, ◌<◌, ◌≤◌, List, map, length};
    ghost use Rattle.daggy_base.specs.Iterating.{numbered};
    ghost use Rattle.daggy_cells.specs.Fields.{weight_of};

    ghost Value = { List (ℕ × N) };

    ghost view = { λ it. numbered it.index (map weight_of it.nodes.now) };

    ghost invariant = { λ it.
        (it.index + length it.nodes.now ≤ Ix.greatest)
        × (it.index + length it.nodes.now < 2 ^ 64) };
}

impl<'a, N, Ix: IndexType> Iterator for NodeReferences<'a, N, Ix> {
    type Item = (NodeIndex<Ix>, &'a N);

    ghost next_gives = { YieldsFirstBy (λ item. (Ix.number item.0, item.1.now)) (λ rest. rest) };

    ghost remaining = { item_count (λ rest. rest) };

    #[inline]
    fn next(&mut self) -> Option<(NodeIndex<Ix>, &'a N)> {
        let (x, rest) = self.nodes.split_first()?;
        let n = NodeIndex::new(self.index);
        self.nodes = rest;
        self.index += 1;
        Some((n, &x.weight))
    }

    #[inline]
    fn size_hint(&self) -> (usize, Option<usize>) {
        let left = self.len();
        (left, Some(left))
    }
}

impl<'a, N, Ix: IndexType> DoubleEndedIterator for NodeReferences<'a, N, Ix> {
    ghost next_back_gives = { YieldsLastBy (λ item. (Ix.number item.0, item.1.now)) (λ rest. rest) };

    #[inline]
    fn next_back(&mut self) -> Option<(NodeIndex<Ix>, &'a N)> {
        let (x, rest) = self.nodes.split_last()?;
        let n = NodeIndex::new(self.index + rest.len());
        self.nodes = rest;
        Some((n, &x.weight))
    }
}

impl<'a, N, Ix: IndexType> ExactSizeIterator for NodeReferences<'a, N, Ix> {
    #[inline]
    fn len(&self) -> usize {
        self.nodes.len()
    }
}

impl<'a, N, Ix: IndexType> FusedIterator for NodeReferences<'a, N, Ix> {}

impl<'a, N, Ix: IndexType> Clone for NodeReferences<'a, N, Ix> {
    ghost is_clone = { λ a b. a ≡ b };

    fn clone(&self) -> Result<Self, AllocError> {
        Ok(NodeReferences {
            nodes: self.nodes,
            index: self.index,
        })
    }
}

impl<'a, N, Ix: IndexType> fmt::Debug for NodeReferences<'a, N, Ix> {
    fn fmt<W: fmt::Write>(&self, f: &mut fmt::Formatter<W>) -> fmt::Result {
        f.debug_struct("NodeReferences")
            .field("remaining", &self.len())
            .finish()
    }
}

// A reference to a stored edge.
#[inline]
pub(super) fn reference<'a, E, Ix: IndexType>(
    e: Link<Ix>,
    x: &'a Edge<E, Ix>,
) -> EdgeReference<'a, E, Ix>
    ensures { referred Ix.number result ≡ (e, plain x.now) }
{
    EdgeReference::from_parts(e.edge(), x.source(), x.target(), &x.weight)
}

/// The edges, in ascending index order. Returned by
/// [`edge_references`](crate::graph::DiGraph::edge_references).
///
/// # Examples
///
/// ```
/// let mut graph: DiGraph<&'static str, u32> = DiGraph::new(rt.alloc());
/// let sow = graph.add_node("sow")?;
/// let reap = graph.add_node("reap")?;
/// let days = graph.add_edge(sow, reap, 90)?;
/// let edge = graph.edge_references().next();
/// assert!(rt; edge.is_some_and(|edge| edge.id() == days && edge.weight() == &90));
/// ```
#[derive(Drop)]
pub struct EdgeReferences<'a, E, Ix: IndexType = DefaultIx> {
    edges: &'a [Edge<E, Ix>],
    index: usize,
}

impl<'a, E, Ix: IndexType> Model for EdgeReferences<'a, E, Ix> {
    ghost use Rattle.std.specs.Prelude.{ℕ, ◌+◌, ◌^◌, ◌<◌, ◌≤◌, List, map, length};
    ghost use Rattle.daggy_base.specs.Graph.{Edge as PlainEdge};
    ghost use Rattle.daggy_base.specs.Iterating.{numbered};
    ghost use Rattle.daggy_cells.specs.Fields.{plain_edge};

    ghost Value = { List (ℕ × PlainEdge E) };

    ghost view = { λ it. numbered it.index (map plain_edge it.edges.now) };

    ghost invariant = { λ it.
        (it.index + length it.edges.now ≤ Ix.greatest)
        × (it.index + length it.edges.now < 2 ^ 64) };
}

impl<'a, E, Ix: IndexType> Iterator for EdgeReferences<'a, E, Ix> {
    ghost use Rattle.daggy_cells.specs.Referring.{referred};

    type Item = EdgeReference<'a, E, Ix>;

    ghost next_gives = { YieldsFirstBy (referred Ix.number) (λ rest. rest) };

    ghost remaining = { item_count (λ rest. rest) };

    #[inline]
    fn next(&mut self) -> Option<EdgeReference<'a, E, Ix>> {
        let (x, rest) = self.edges.split_first()?;
        let e = Link::new(self.index);
        self.edges = rest;
        self.index += 1;
        Some(reference(e, x))
    }

    #[inline]
    fn size_hint(&self) -> (usize, Option<usize>) {
        let left = self.len();
        (left, Some(left))
    }
}

impl<'a, E, Ix: IndexType> DoubleEndedIterator for EdgeReferences<'a, E, Ix> {
    ghost use Rattle.daggy_cells.specs.Referring.{referred};

    ghost next_back_gives = { YieldsLastBy (referred Ix.number) (λ rest. rest) };

    #[inline]
    fn next_back(&mut self) -> Option<EdgeReference<'a, E, Ix>> {
        let (x, rest) = self.edges.split_last()?;
        let e = Link::new(self.index + rest.len());
        self.edges = rest;
        Some(reference(e, x))
    }
}

impl<'a, E, Ix: IndexType> ExactSizeIterator for EdgeReferences<'a, E, Ix> {
    #[inline]
    fn len(&self) -> usize {
        self.edges.len()
    }
}

impl<'a, E, Ix: IndexType> FusedIterator for EdgeReferences<'a, E, Ix> {}

impl<'a, E, Ix: IndexType> Clone for EdgeReferences<'a, E, Ix> {
    ghost is_clone = { λ a b. a ≡ b };

    fn clone(&self) -> Result<Self, AllocError> {
        Ok(EdgeReferences {
            edges: self.edges,
            index: self.index,
        })
    }
}

impl<'a, E, Ix: IndexType> fmt::Debug for EdgeReferences<'a, E, Ix> {
    fn fmt<W: fmt::Write>(&self, f: &mut fmt::Formatter<W>) -> fmt::Result {
        f.debug_struct("EdgeReferences")
            .field("remaining", &self.len())
            .finish()
    }
}

/// The indices of the edges, in ascending order. It does not borrow the graph. Returned by
/// [`edge_identifiers`](crate::graph::DiGraph::edge_identifiers).
///
/// # Examples
///
/// ```
/// let mut graph: DiGraph<&'static str, u32> = DiGraph::new(rt.alloc());
/// let sow = graph.add_node("sow")?;
/// let days = graph.add_edge(sow, sow, 90)?;
/// let mut edges = graph.edge_identifiers();
/// assert!(rt; edges.next() == Some(days));
/// assert!(rt; edges.next().is_none());
/// ```
#[derive(Drop)]
pub struct EdgeIdentifiers<Ix: IndexType = DefaultIx> {
    next: Link<Ix>,
    end: Link<Ix>,
}

impl<Ix: IndexType> Model for EdgeIdentifiers<Ix> {
    ghost use Rattle.std.specs.Prelude.{ℕ, ◌-◌, ◌≤◌, List};
    ghost use Rattle.std.specs.List.{range_with_len};

    ghost Value = { List ℕ };

    ghost view = { λ it. range_with_len it.next (it.end - it.next) };

    ghost invariant = { λ it. it.end ≤ Ix.greatest };
}

impl<Ix: IndexType> Iterator for EdgeIdentifiers<Ix> {
    type Item = EdgeIndex<Ix>;

    ghost next_gives = { YieldsFirstBy Ix.number (λ rest. rest) };

    ghost remaining = { item_count (λ rest. rest) };

    #[inline]
    fn next(&mut self) -> Option<EdgeIndex<Ix>> {
        let e = self.next.index();
        if e >= self.end.index() {
            return None;
        }
        self.next = Link::new(e + 1);
        Some(EdgeIndex::new(e))
    }

    #[inline]
    fn size_hint(&self) -> (usize, Option<usize>) {
        let left = self.len();
        (left, Some(left))
    }
}

impl<Ix: IndexType> DoubleEndedIterator for EdgeIdentifiers<Ix> {
    ghost next_back_gives = { YieldsLastBy Ix.number (λ rest. rest) };

    #[inline]
    fn next_back(&mut self) -> Option<EdgeIndex<Ix>> {
        let end = self.end.index();
        if end <= self.next.index() {
            return None;
        }
        self.end = Link::new(end - 1);
        Some(EdgeIndex::new(end - 1))
    }
}

impl<Ix: IndexType> ExactSizeIterator for EdgeIdentifiers<Ix> {
    #[inline]
    fn len(&self) -> usize {
        self.end.index().saturating_sub(self.next.index())
    }
}

impl<Ix: IndexType> FusedIterator for EdgeIdentifiers<Ix> {}

impl<Ix: IndexType> Clone for EdgeIdentifiers<Ix> {
    ghost is_clone = { λ a b. a ≡ b };

    fn clone(&self) -> Result<Self, AllocError> {
        Ok(EdgeIdentifiers {
            next: self.next,
            end: self.end,
        })
    }
}

impl<Ix: IndexType> fmt::Debug for EdgeIdentifiers<Ix> {
    fn fmt<W: fmt::Write>(&self, f: &mut fmt::Formatter<W>) -> fmt::Result {
        f.debug_struct("EdgeIdentifiers")
            .field("remaining", &self.len())
            .finish()
    }
}

impl<N, E, Ix: IndexType> DiGraph<N, E, Ix> {
    /// The weights of the nodes, in ascending index order.
    ///
    /// # Complexity
    ///
    /// O(nodes) for the whole iteration.
    #[inline]
    pub fn node_weights(&self) -> NodeWeights<'_, N, Ix>
        ensures rest { result ≡ node_weights_of self.now.graph }
        ensures fits { length result < 2 ^ 64 }
    {
        NodeWeights {
            nodes: self.nodes.as_slice(),
        }
    }

    /// The weights of the edges, in ascending index order.
    ///
    /// # Complexity
    ///
    /// O(edges) for the whole iteration.
    #[inline]
    pub fn edge_weights(&self) -> EdgeWeights<'_, E, Ix>
        ensures rest { result ≡ edge_weights_of self.now.graph }
        ensures fits { length result < 2 ^ 64 }
    {
        EdgeWeights {
            edges: self.edges.as_slice(),
        }
    }

    /// The indices of the nodes, in ascending order. It does not borrow the graph.
    ///
    /// # Complexity
    ///
    /// O(nodes) for the whole iteration.
    #[inline]
    pub fn node_identifiers(&self) -> NodeIdentifiers<Ix>
        ensures rest { result ≡ node_identifiers_of self.now.graph }
        ensures fits { length result < 2 ^ 64 }
    {
        NodeIdentifiers {
            next: Link::new(0),
            end: Link::new(self.nodes.len()),
        }
    }

    /// The indices of the edges, in ascending order. It does not borrow the graph.
    ///
    /// # Complexity
    ///
    /// O(edges) for the whole iteration.
    #[inline]
    pub fn edge_identifiers(&self) -> EdgeIdentifiers<Ix>
        ensures rest { result ≡ edge_identifiers_of self.now.graph }
        ensures fits { length result < 2 ^ 64 }
    {
        let next = Link::new(0);
        let end = Link::new(self.edges.len());
        EdgeIdentifiers { next, end }
    }

    /// The nodes in ascending index order, each with its weight.
    ///
    /// # Complexity
    ///
    /// O(nodes) for the whole iteration.
    #[inline]
    pub fn node_references(&self) -> NodeReferences<'_, N, Ix>
        ensures rest { result ≡ node_references_of self.now.graph }
        ensures fits { length result < 2 ^ 64 }
    {
        NodeReferences {
            nodes: self.nodes.as_slice(),
            index: 0,
        }
    }

    /// The edges, in ascending index order.
    ///
    /// # Complexity
    ///
    /// O(edges) for the whole iteration.
    #[inline]
    pub fn edge_references(&self) -> EdgeReferences<'_, E, Ix>
        ensures rest { result ≡ edge_references_of self.now.graph }
        ensures fits { length result < 2 ^ 64 }
    {
        EdgeReferences {
            edges: self.edges.as_slice(),
            index: 0,
        }
    }
}
