//! Stored nodes and edges.
ghost use Rattle.std.specs.Prelude.{◌≡◌, ℕ};
ghost use Rattle.daggy_cells.specs.Raw.{raw_first, raw_next, raw_parent, raw_child};

use crate::links;
use daggy_base::index::{DefaultIx, Direction, EdgeIndex, IndexType, NodeIndex};
use daggy_base::link::Link;

/// A node as it is stored: its weight, and the first edge of each of its lists.
///
/// # Examples
///
/// ```
/// let mut dag: Dag<&'static str, u32> = Dag::new(rt.alloc());
/// let sow = dag.add_node("sow")?;
/// let (days, _) = dag.add_child(sow, 90, "reap")?;
/// let node = dag.raw_nodes().first();
/// assert!(rt; node.is_some_and(|node| node.weight == "sow"));
/// assert!(rt; node.is_some_and(|node| node.next_edge(Direction::Outgoing) == days));
/// ```
#[derive(Clone, Debug, Drop)]
pub struct Node<N, Ix: IndexType = DefaultIx> {
    /// The weight of the node.
    pub weight: N,
    pub(crate) first_out: Link<Ix>,
    pub(crate) first_in: Link<Ix>,
}

/// An edge as it is stored: its weight, its endpoints, and the edge after it in each of its lists.
///
/// # Examples
///
/// ```
/// let mut dag: Dag<&'static str, u32> = Dag::new(rt.alloc());
/// let sow = dag.add_node("sow")?;
/// let (_, reap) = dag.add_child(sow, 90, "reap")?;
/// let edge = dag.raw_edges().first();
/// assert!(rt; edge.is_some_and(|edge| edge.source() == sow && edge.target() == reap));
/// // It is the only edge in the list of `sow`.
/// let next = edge.map(|edge| edge.next_edge(Direction::Outgoing));
/// assert!(rt; next == Some(EdgeIndex::end()));
/// ```
#[derive(Clone, Debug, Drop)]
pub struct Edge<E, Ix: IndexType = DefaultIx> {
    /// The weight of the edge.
    pub weight: E,
    pub(crate) parent: Link<Ix>,
    pub(crate) child: Link<Ix>,
    pub(crate) next_out: Link<Ix>,
    pub(crate) next_in: Link<Ix>,
}

impl<N, Ix: IndexType> Node<N, Ix> {
    /// The first edge of the node's list in direction `dir`, or `end` if that list is empty.
    #[inline]
    pub fn next_edge(&self, dir: Direction) -> EdgeIndex<Ix>
        ensures { Ix.number result ≡ raw_first dir self.now }
    {
        links::first(self, dir).edge()
    }
}

impl<E, Ix: IndexType> Edge<E, Ix> {
    /// The node that the edge leaves.
    #[inline]
    pub fn source(&self) -> NodeIndex<Ix>
        ensures { Ix.number result ≡ raw_parent self.now }
    {
        self.parent.node()
    }

    /// The node that the edge enters.
    #[inline]
    pub fn target(&self) -> NodeIndex<Ix>
        ensures { Ix.number result ≡ raw_child self.now }
    {
        self.child.node()
    }

    /// The edge after this one in its list in direction `dir`, or `end` if this one is the last.
    /// The list is the out list of its source or the in list of its target.
    #[inline]
    pub fn next_edge(&self, dir: Direction) -> EdgeIndex<Ix>
        ensures { Ix.number result ≡ raw_next dir self.now }
    {
        links::next(self, dir).edge()
    }
}
