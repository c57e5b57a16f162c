//! Iterators over the edges of one node.
ghost use Rattle.std.specs.Prelude.{◌≡◌, ◌<◌, ◌^◌, length};
ghost use Rattle.std.specs.Iterator.{YieldsFirstBy, item_count};
ghost use Rattle.daggy_base.specs.declared.index.Direction.TheVariants.{Outgoing};
ghost use Rattle.daggy_base.specs.Iterating.{edges_at, neighbors_at};

use crate::graph::iterators::reference;
use crate::graph::{DiGraph, Edge, EdgeReference};
use daggy_base::index::{DefaultIx, Direction, IndexType, NodeIndex};
use daggy_base::link::Link;
use daggy_cells::links;
use std::alloc::AllocError;
use std::fmt;
use std::iter::FusedIterator;
use std::marker::Model;

/// The edges that leave a node, or those that enter it, in the order of its list. Returned by
/// [`edges`](crate::graph::DiGraph::edges) and
/// [`edges_directed`](crate::graph::DiGraph::edges_directed).
///
/// # Examples
///
/// ```
/// let mut graph: DiGraph<&'static str, u32> = DiGraph::new(rt.alloc());
/// let sow = graph.add_node("sow")?;
/// let reap = graph.add_node("reap")?;
/// let days = graph.add_edge(sow, reap, 90)?;
/// let more = graph.add_edge(sow, reap, 30)?;
/// // The newest edge comes first.
/// let mut edges = graph.edges_directed(reap, Direction::Incoming);
/// assert!(rt; edges.next().is_some_and(|edge| edge.id() == more));
/// assert!(rt; edges.next().is_some_and(|edge| edge.id() == days));
/// ```
#[derive(Drop)]
pub struct Edges<'a, E, Ix: IndexType = DefaultIx> {
    edges: &'a [Edge<E, Ix>],
    dir: Direction,
    next: Link<Ix>,
}

impl<'a, E, Ix: IndexType> Model for Edges<'a, E, Ix> {
    ghost use Rattle.std.specs.Prelude.{ℕ, List};
    ghost use Rattle.daggy_base.specs.Graph.{Edge as PlainEdge};
    ghost use Rattle.daggy_cells.specs.Rest.{edges_left, IsOnList};

    ghost Value = { List (ℕ × PlainEdge E) };

    ghost view = { λ it. edges_left it.dir it.edges.now it.next };

    ghost invariant = { λ it. IsOnList Ix.greatest it.dir it.edges.now it.next };
}

impl<'a, E, Ix: IndexType> Iterator for Edges<'a, E, Ix> {
    ghost use Rattle.daggy_cells.specs.Referring.{referred};

    type Item = EdgeReference<'a, E, Ix>;

    ghost next_gives = { YieldsFirstBy (referred Ix.number) (λ rest. rest) };

    ghost remaining = { item_count (λ rest. rest) };

    #[inline]
    fn next(&mut self) -> Option<EdgeReference<'a, E, Ix>> {
        let e = self.next;
        let i = e.index();
        if i >= self.edges.len() {
            return None;
        }
        let x = &self.edges[i];
        self.next = links::next(x, self.dir);
        Some(reference(e, x))
    }
}

impl<'a, E, Ix: IndexType> FusedIterator for Edges<'a, E, Ix> {}

impl<'a, E, Ix: IndexType> Clone for Edges<'a, E, Ix> {
    ghost is_clone = { λ a b. a ≡ b };

    fn clone(&self) -> Result<Self, AllocError> {
        Ok(Edges {
            edges: self.edges,
            dir: self.dir,
            next: self.next,
        })
    }
}

impl<'a, E, Ix: IndexType> fmt::Debug for Edges<'a, E, Ix> {
    fn fmt<W: fmt::Write>(&self, f: &mut fmt::Formatter<W>) -> fmt::Result {
        f.debug_struct("Edges").finish_non_exhaustive()
    }
}

/// The neighbors of a node in one direction, one for each edge, in the order of its list. Returned
/// by [`neighbors`](crate::graph::DiGraph::neighbors) and
/// [`neighbors_directed`](crate::graph::DiGraph::neighbors_directed).
///
/// # Examples
///
/// ```
/// let mut graph: DiGraph<&'static str, ()> = DiGraph::new(rt.alloc());
/// let sow = graph.add_node("sow")?;
/// let hoe = graph.add_node("hoe")?;
/// let reap = graph.add_node("reap")?;
/// graph.add_edge(sow, hoe, ())?;
/// graph.add_edge(sow, reap, ())?;
/// let children: Vec<_> = graph.neighbors(sow).collect(rt.alloc())?;
/// assert!(rt; children.as_slice() == [reap, hoe].as_slice());
/// ```
#[derive(Drop)]
pub struct Neighbors<'a, E, Ix: IndexType = DefaultIx> {
    edges: Edges<'a, E, Ix>,
    dir: Direction,
}

impl<'a, E, Ix: IndexType> Model for Neighbors<'a, E, Ix> {
    ghost use Rattle.std.specs.Prelude.{ℕ, List, map};
    ghost use Rattle.daggy_base.specs.Graph.{far_end};

    ghost Value = { List ℕ };

    ghost view = { λ it. map (λ p. far_end it.dir p.1) it.edges };
}

impl<'a, E, Ix: IndexType> Iterator for Neighbors<'a, E, Ix> {
    type Item = NodeIndex<Ix>;

    ghost next_gives = { YieldsFirstBy Ix.number (λ rest. rest) };

    ghost remaining = { item_count (λ rest. rest) };

    #[inline]
    fn next(&mut self) -> Option<NodeIndex<Ix>> {
        let x = self.edges.next()?;
        match self.dir {
            Direction::Outgoing => Some(x.target()),
            Direction::Incoming => Some(x.source()),
        }
    }
}

impl<'a, E, Ix: IndexType> FusedIterator for Neighbors<'a, E, Ix> {}

impl<'a, E, Ix: IndexType> Clone for Neighbors<'a, E, Ix> {
    ghost is_clone = { λ a b. a ≡ b };

    fn clone(&self) -> Result<Self, AllocError> {
        Ok(Neighbors {
            edges: self.edges.clone()?,
            dir: self.dir,
        })
    }
}

impl<'a, E, Ix: IndexType> fmt::Debug for Neighbors<'a, E, Ix> {
    fn fmt<W: fmt::Write>(&self, f: &mut fmt::Formatter<W>) -> fmt::Result {
        f.debug_struct("Neighbors").finish_non_exhaustive()
    }
}

impl<N, E, Ix: IndexType> DiGraph<N, E, Ix> {
    /// The edges that leave a node, newest first. Empty if the node does not exist.
    #[inline]
    pub fn edges(&self, n: NodeIndex<Ix>) -> Edges<'_, E, Ix>
        ensures rest { result ≡ edges_at Outgoing self.now.graph (Ix.number n) }
        ensures fits { length result < 2 ^ 64 }
    {
        self.edges_directed(n, Direction::Outgoing)
    }

    /// The edges that leave a node (`Outgoing`), or the edges that enter it (`Incoming`), newest
    /// first. Empty if the node does not exist.
    #[inline]
    pub fn edges_directed(&self, n: NodeIndex<Ix>, dir: Direction) -> Edges<'_, E, Ix>
        ensures rest { result ≡ edges_at dir self.now.graph (Ix.number n) }
        ensures fits { length result < 2 ^ 64 }
    {
        let first = self.first_edge(n, dir);
        Edges {
            edges: self.edges.as_slice(),
            dir,
            next: Link::of_edge(first),
        }
    }

    /// The children of a node, one for each edge that leaves it, newest first. Empty if the node
    /// does not exist.
    #[inline]
    pub fn neighbors(&self, n: NodeIndex<Ix>) -> Neighbors<'_, E, Ix>
        ensures rest { result ≡ neighbors_at Outgoing self.now.graph (Ix.number n) }
        ensures fits { length result < 2 ^ 64 }
    {
        self.neighbors_directed(n, Direction::Outgoing)
    }

    /// The children of a node (`Outgoing`), one for each edge that leaves it, or its parents
    /// (`Incoming`), one for each edge that enters it, newest first. Empty if the node does not
    /// exist.
    #[inline]
    pub fn neighbors_directed(&self, n: NodeIndex<Ix>, dir: Direction) -> Neighbors<'_, E, Ix>
        ensures rest { result ≡ neighbors_at dir self.now.graph (Ix.number n) }
        ensures fits { length result < 2 ^ 64 }
    {
        Neighbors {
            edges: self.edges_directed(n, dir),
            dir,
        }
    }
}
