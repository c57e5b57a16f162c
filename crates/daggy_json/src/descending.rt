//! Whether the lists of a graph are in descending index order.
ghost use Rattle.std.specs.Prelude.{◌≡◌, ◌↔◌, IsTrue};
ghost use Rattle.daggy_base.specs.Graph.{HasEdge};
ghost use Rattle.daggy_base.specs.Filtering.{ListsDescend};
ghost use Rattle.daggy_base.specs.declared.index.Direction.{Direction};
ghost use Rattle.daggy_json.specs.Passing.{Descends};

use daggy_base::index::{Direction, EdgeIndex, IndexType};
use daggy_base::read_store::ReadStore;

// Whether the edge after `e` in its list, if there is one, has a lower index.
fn descends_after<Ix: IndexType, S: ReadStore<Ix>>(
    store: &S,
    e: EdgeIndex<Ix>,
    dir: Direction,
) -> bool
    requires { HasEdge (S.graph store.now) (Ix.number e) }
    ensures { IsTrue result ↔ Descends Ix.greatest (S.graph store.now) dir (Ix.number e) }
{
    let next = store.next_edge(e, dir).index();
    next == EdgeIndex::<Ix>::end().index() || next < e.index()
}

// Whether this is so in both lists of `e`, if it exists.
fn descends_around<Ix: IndexType, S: ReadStore<Ix>>(store: &S, e: EdgeIndex<Ix>) -> bool
    ensures { IsTrue result ↔ (HasEdge (S.graph store.now) (Ix.number e)
        → (dir : Direction) → Descends Ix.greatest (S.graph store.now) dir (Ix.number e)) }
{
    !store.contains_edge_index(e)
        || descends_after(store, e, Direction::Outgoing)
            && descends_after(store, e, Direction::Incoming)
}

/// Whether each list of each node is in descending index order. Each edge is read once.
pub(crate) fn lists_descend<Ix: IndexType, S: ReadStore<Ix>>(store: &S) -> bool
    ensures { IsTrue result ↔ ListsDescend (S.graph store.now) }
{
    let bound = store.edge_bound();
    store.invariant();
    let mut i = 0;
    'edges: while i < bound {
        if !descends_around(store, EdgeIndex::new(i)) {
            return false;
        }
        i += 1;
    }
    true
}
