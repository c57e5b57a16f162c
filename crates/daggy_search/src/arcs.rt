//! The edges that leave nodes, in one array (CSR). They are read in sequence, while a walk along
//! lists of edges jumps all over memory.
ghost use Rattle.std.specs.Prelude.{◌≡◌, ◌+◌};

use daggy_base::index::{EdgeIndex, IndexType};
use daggy_base::link::Link;
use daggy_base::looks::Looks;
use daggy_base::source::EdgeSource;

/// An edge as a search by blocks reads it: the position of its child, and its index. Can be read
/// only by [`look`](Arc::look).
#[derive(Clone, Copy, Drop)]
pub struct Arc<Ix: IndexType> {
    place: Link<Ix>,
    edge: EdgeIndex<Ix>,
}

impl<Ix: IndexType> Arc<Ix> {
    /// An edge whose child has this position.
    #[inline]
    pub fn new(place: Link<Ix>, edge: EdgeIndex<Ix>) -> Self
        ensures { result ≡ record { place = place; edge = edge } }
    {
        Arc { place, edge }
    }

    /// The position of the child and the index of the edge. Counts an edge read of `source`, as if
    /// the edge were read there.
    #[inline]
    pub fn look<S: EdgeSource<Ix>>(self, source: &mut S) -> (Link<Ix>, EdgeIndex<Ix>)
        ensures place { result.0 ≡ self.place }
        ensures edge { result.1 ≡ self.edge }
        ensures same { S.graph source.new ≡ S.graph source.old }
        ensures counted { S.looks source.new ≡ S.looks source.old + 1 }
    {
        let mut looks = Looks::new();
        looks.take();
        source.count_looks(&looks);
        (self.place, self.edge)
    }
}

/// Where the arcs of a node are in a list of arcs: from position `begin` up to, not including,
/// `end`.
#[derive(Clone, Copy, Drop)]
pub struct Segment {
    pub begin: usize,
    pub end: usize,
}
