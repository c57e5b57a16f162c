//! References to the edges of a graph.
ghost use Rattle.std.specs.Prelude.{◌≡◌};
ghost use Rattle.daggy_cells.specs.Referring.{referred};

use daggy_base::index::{DefaultIx, EdgeIndex, IndexType, NodeIndex};
use std::alloc::AllocError;
use std::fmt;

/// A reference to an edge of a graph: its index, its endpoints and its weight.
///
/// # Examples
///
/// ```
/// let mut dag: Dag<&'static str, u32> = Dag::new(rt.alloc());
/// let sow = dag.add_node("sow")?;
/// let (days, reap) = dag.add_child(sow, 90, "reap")?;
/// let edge = dag.edges(sow).next();
/// assert!(rt; edge == Some(EdgeReference::from_parts(days, sow, reap, &90)));
/// assert!(rt; edge.is_some_and(|edge| edge.target() == reap && edge.weight() == &90));
/// ```
#[derive(Eq, PartialEq)]
pub struct EdgeReference<'a, E, Ix = DefaultIx> {
    // The fields are plain indices rather than typed ones, so that a function can take a reference
    // by value.
    id: Ix,
    source: Ix,
    target: Ix,
    weight: &'a E,
}

impl<'a, E, Ix: IndexType> EdgeReference<'a, E, Ix> {
    /// A reference to an edge with this index, these endpoints and this weight. Used by the stores.
    #[inline]
    pub fn from_parts(
        id: EdgeIndex<Ix>,
        source: NodeIndex<Ix>,
        target: NodeIndex<Ix>,
        weight: &'a E,
    ) -> Self
        ensures { referred Ix.number result
            ≡ (
              Ix.number id,
              record { parent = Ix.number source; child = Ix.number target; weight = weight.now },
            ) }
    {
        EdgeReference {
            id: Ix::new(id.index()),
            source: Ix::new(source.index()),
            target: Ix::new(target.index()),
            weight,
        }
    }

    /// The index of the edge.
    #[inline]
    pub fn id(&self) -> EdgeIndex<Ix>
        ensures { result ≡ self.now.id }
    {
        EdgeIndex::new(self.id.index())
    }

    /// The node that the edge leaves, even if the edge was found in an in list.
    #[inline]
    pub fn source(&self) -> NodeIndex<Ix>
        ensures { result ≡ self.now.source }
    {
        NodeIndex::new(self.source.index())
    }

    /// The node that the edge enters.
    #[inline]
    pub fn target(&self) -> NodeIndex<Ix>
        ensures { result ≡ self.now.target }
    {
        NodeIndex::new(self.target.index())
    }

    /// The weight of the edge. It borrows the graph, not this reference.
    #[inline]
    pub fn weight(&self) -> &'a E
        ensures { result.now ≡ self.now.weight.now }
    {
        self.weight
    }
}

impl<'a, E, Ix: Copy> Clone for EdgeReference<'a, E, Ix> {
    ghost is_clone = { λ a b. a ≡ b };

    fn clone(&self) -> Result<Self, AllocError> {
        Ok(EdgeReference {
            id: self.id,
            source: self.source,
            target: self.target,
            weight: self.weight,
        })
    }
}

impl<'a, E, Ix: Copy> Copy for EdgeReference<'a, E, Ix> {}

impl<'a, E: fmt::Debug, Ix: IndexType> fmt::Debug for EdgeReference<'a, E, Ix> {
    fn fmt<W: fmt::Write>(&self, f: &mut fmt::Formatter<W>) -> fmt::Result {
        f.debug_struct("EdgeReference")
            .field("id", &self.id.index())
            .field("source", &self.source.index())
            .field("target", &self.target.index())
            .field("weight", self.weight)
            .finish()
    }
}
