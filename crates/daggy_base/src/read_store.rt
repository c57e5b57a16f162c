//! What both kinds of store provide to code that only reads a graph.
ghost use Rattle.std.specs.Prelude.{◌≡◌, ◌<◌, ◌↔◌, IsTrue, length, option_copied};
ghost use Rattle.std.specs.Option.{option_map};
ghost use Rattle.daggy_base.specs.Graph.{HasEdge, node_weight as node_weight_at};
ghost use Rattle.daggy_base.specs.Graph.{edge_at, list_at, ends_of, pair_of};
ghost use Rattle.daggy_base.specs.Graph.{node_count as node_count_of, edge_count as edge_count_of};
ghost use Rattle.daggy_base.specs.Graph.{IsCompact};
ghost use Rattle.daggy_base.specs.Cursor.{first_of, cursor_after};
ghost use Rattle.daggy_base.specs.Finding.{find_edge as edge_between};
ghost use Rattle.daggy_base.specs.Weights.{edge_weight as edge_weight_at};
ghost use Rattle.daggy_base.specs.WellFormed.{IsWellFormed};
ghost use Rattle.daggy_base.specs.declared.kind.Kind.{Kind};
ghost use Rattle.daggy_base.specs.declared.kind.Kind.TheVariants.{Compact};

use crate::index::{Direction, EdgeIndex, IndexType, NodeIndex};
use crate::kind::Kind;
use crate::source::IndexedSource;

/// A graph that can be read without counting edge reads.
///
/// In code that only reads, use this bound instead of [`Store`](crate::store::Store): it makes the
/// proofs of callers shorter.
///
/// # Examples
///
/// ```
/// let mut graph: StableDiGraph<&'static str, u32> = StableDiGraph::new(rt.alloc());
/// let sow = graph.add_node("sow")?;
/// let reap = graph.add_node("reap")?;
/// let days = graph.add_edge(sow, reap, 90)?;
/// assert!(rt; graph.contains_edge_index(days));
/// // Along the edges that enter `reap`.
/// graph.invariant();
/// assert!(rt; graph.first_edge(reap, Direction::Incoming) == days);
/// assert!(rt; graph.next_edge(days, Direction::Incoming) == EdgeIndex::end());
/// // The slot of the edge is vacant afterwards.
/// assert!(rt; graph.remove_edge(days) == Some(90));
/// assert!(rt; graph.edge_count() == 0 && graph.edge_slots() == 1);
/// ```
pub trait ReadStore<Ix: IndexType>: IndexedSource<Ix> {
    ghost KIND: { Kind };

    /// Which kind of store it is: `Kind::Compact` if a removal moves the last element into the
    /// freed index, `Kind::Stable` if it leaves the slot vacant.
    const KIND: Kind;

    /// A proof step: it tells the checker that the graph is well formed, and that a compact store
    /// has no vacant slot. Does nothing at run time.
    fn invariant(&self)
        ensures well_formed { IsWellFormed Ix.greatest (Self.graph self.now) }
        ensures compact { KIND ≡ Compact → IsCompact (Self.graph self.now) };

    /// How many node slots there are, occupied or vacant.
    fn node_slots(&self) -> usize
        ensures { result ≡ length (Self.graph self.now).nodes };

    /// How many edge slots there are, occupied or vacant.
    fn edge_slots(&self) -> usize
        ensures { result ≡ length (Self.graph self.now).edges };

    /// How many nodes exist.
    fn node_count(&self) -> usize
        ensures { result ≡ node_count_of (Self.graph self.now) };

    /// How many edges exist.
    fn edge_count(&self) -> usize
        ensures { result ≡ edge_count_of (Self.graph self.now) };

    /// Whether the edge exists.
    fn contains_edge_index(&self, e: EdgeIndex<Ix>) -> bool
        ensures { IsTrue result ↔ HasEdge (Self.graph self.now) (Ix.number e) };

    /// The weight of a node, if the node exists.
    fn node_weight(&self, n: NodeIndex<Ix>) -> Option<&Self::NodeWeight>
        ensures { option_copied result ≡ node_weight_at (Self.graph self.now) (Ix.number n) };

    /// The weight of an edge, if the edge exists.
    fn edge_weight(&self, e: EdgeIndex<Ix>) -> Option<&Self::EdgeWeight>
        ensures { option_copied result ≡ edge_weight_at (Self.graph self.now) (Ix.number e) };

    /// Whether an index is left for one more node.
    fn can_add_node(&self) -> bool
        ensures { IsTrue result ↔ (node_count_of (Self.graph self.now) < Ix.greatest) };

    /// Whether an index is left for one more edge.
    fn can_add_edge(&self) -> bool
        ensures { IsTrue result ↔ (edge_count_of (Self.graph self.now) < Ix.greatest) };

    /// The first edge of a node's list in direction `dir`, or `end`.
    fn first_edge(&self, n: NodeIndex<Ix>, dir: Direction) -> EdgeIndex<Ix>
        ensures { Ix.number result
            ≡ first_of Ix.greatest (list_at dir (Self.graph self.now) (Ix.number n)) };

    /// The edge after `e` in its list in direction `dir`, or `end`.
    ///
    /// # Requires
    ///
    /// - `e` is an edge of the store. Test: `contains_edge_index(e)`.
    fn next_edge(&self, e: EdgeIndex<Ix>, dir: Direction) -> EdgeIndex<Ix>
        requires { HasEdge (Self.graph self.now) (Ix.number e) }
        ensures { Ix.number result
            ≡ cursor_after dir Ix.greatest (Self.graph self.now) (Ix.number e)
            (edge_at (Self.graph self.now) (Ix.number e)) };

    /// The parent and the child of an edge, if the edge exists.
    fn edge_endpoints(&self, e: EdgeIndex<Ix>) -> Option<(NodeIndex<Ix>, NodeIndex<Ix>)>
        ensures { option_map (pair_of Ix.number) result
            ≡ option_map ends_of (edge_at (Self.graph self.now) (Ix.number e)) };

    /// The first edge from `a` to `b` in the out list of `a`, if there is one.
    ///
    /// # Complexity
    ///
    /// O(edges that leave `a`).
    fn find_edge(&self, a: NodeIndex<Ix>, b: NodeIndex<Ix>) -> Option<EdgeIndex<Ix>>
        ensures { option_map Ix.number result
            ≡ edge_between (Self.graph self.now) (Ix.number a) (Ix.number b) };
}
