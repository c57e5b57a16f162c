//! The step of the walkers of both kinds of dag.
ghost use Rattle.std.specs.Prelude.{◌≡◌};
ghost use Rattle.std.specs.Option.{option_map};
ghost use Rattle.daggy_base.specs.Graph.{pair_of};
ghost use Rattle.daggy_base.specs.Cursor.{IsWalkStep};

use daggy_base::index::{Direction, EdgeIndex, IndexType, NodeIndex};
use daggy_base::read_store::ReadStore;

/// Returns the edge under the cursor with its other endpoint, if that edge exists, and moves the
/// cursor to the edge after it in its list.
#[inline]
pub fn step<Ix: IndexType, S: ReadStore<Ix>>(
    store: &S,
    dir: Direction,
    cursor: &mut EdgeIndex<Ix>,
) -> Option<(EdgeIndex<Ix>, NodeIndex<Ix>)>
    ensures { IsWalkStep dir Ix.greatest (S.graph store.now) (Ix.number cursor.old)
        (option_map (pair_of Ix.number) result) (Ix.number cursor.new) }
{
    let e = *cursor;
    let (parent, child) = store.edge_endpoints(e)?;
    *cursor = store.next_edge(e, dir);
    match dir {
        Direction::Outgoing => Some((e, child)),
        Direction::Incoming => Some((e, parent)),
    }
}
