//! Reading the list of a node.
ghost use Rattle.std.specs.Prelude.{◌≡◌, ℕ, List, [], ◌∷◌, None, IfNone, IfSome};
ghost use Rattle.daggy_base.specs.Graph.{HasNode, edge_at};
ghost use Rattle.daggy_traversal.specs.Traversal.{IsNeighbor, AreMarked, far_of, neighbors_left};
ghost use Rattle.daggy_traversal.specs.Traversal.{without_old};

use daggy_base::index::{Direction, EdgeIndex, IndexType, NodeIndex};
use daggy_base::read_store::ReadStore;
use daggy_visit::visit::NodeSet;

/// The other endpoint of the edge `e`, and the edge after `e` in its list, or `end`. Returns `None`
/// if there is no edge `e`.
#[inline]
pub fn next_neighbor<Ix: IndexType, S: ReadStore<Ix>>(
    graph: &S,
    dir: Direction,
    e: EdgeIndex<Ix>,
) -> Option<(NodeIndex<Ix>, EdgeIndex<Ix>)>
    ensures none { IfNone result (edge_at (S.graph graph.now) (Ix.number e) ≡ None) }
    ensures some { IfSome result (λ found. IsNeighbor dir Ix.greatest (S.graph graph.now)
        (Ix.number e) (Ix.number found.0) (Ix.number found.1)) }
{
    let (parent, child) = graph.edge_endpoints(e)?;
    Some((far_end(dir, parent, child), graph.next_edge(e, dir)))
}

// The endpoint of an edge that it leads to in this direction.
#[inline]
fn far_end<Ix: IndexType>(
    dir: Direction,
    parent: NodeIndex<Ix>,
    child: NodeIndex<Ix>,
) -> NodeIndex<Ix>
    ensures { Ix.number result ≡ far_of dir (Ix.number parent) (Ix.number child) }
{
    match dir {
        Direction::Outgoing => child,
        Direction::Incoming => parent,
    }
}

/// Searches a list, from the edge `e` to its end, for a neighbor that is not in `met`. Returns the
/// first such neighbor and the edge after the one that leads to it, or `None`.
#[inline]
pub fn next_new<Ix: IndexType, S: ReadStore<Ix>>(
    graph: &S,
    dir: Direction,
    e: EdgeIndex<Ix>,
    met: &NodeSet<Ix>,
) -> Option<(NodeIndex<Ix>, EdgeIndex<Ix>)>
    ensures none { IfNone result ((nodes : List ℕ) → AreMarked met.now nodes
        → without_old nodes (neighbors_left dir (S.graph graph.now) (Ix.number e)) ≡ []) }
    ensures some { IfSome result (λ found. (nodes : List ℕ) → AreMarked met.now nodes
        → without_old nodes (neighbors_left dir (S.graph graph.now) (Ix.number e))
        ≡ Ix.number found.0 ∷ without_old nodes
        (neighbors_left dir (S.graph graph.now) (Ix.number found.1))) }
    ensures exists { IfSome result (λ found. HasNode (S.graph graph.now) (Ix.number found.0)) }
{
    graph.invariant();
    let mut e = e;
    'edges: while let Some((v, next)) = next_neighbor(graph, dir, e) {
        if !met.is_visited(v) {
            return Some((v, next));
        }
        e = next;
    }
    None
}
