//! The parents of a node, with the weights of the edges from them.
ghost use Rattle.std.specs.Prelude.{◌≡◌, IfOk, map, reverse};
ghost use Rattle.daggy_guard.specs.Parents.{entering};

use daggy_base::index::{Direction, IndexType, NodeIndex};
use daggy_base::read_store::ReadStore;
use daggy_visit::walk;
use std::alloc::{AllocError, Global};

// The parent and the weight of each edge that enters a node, in the order in which the edges were added.
pub(crate) fn entering_edges<E: Copy, Ix: IndexType, S: ReadStore<Ix, EdgeWeight = E>>(
    alloc: Global,
    store: &S,
    n: NodeIndex<Ix>,
) -> Result<Vec<(NodeIndex<Ix>, E)>, AllocError>
    ensures { IfOk result (λ found. map (λ x. (Ix.number x.0, x.1)) found.items
        ≡ reverse (entering (S.graph store.now) (Ix.number n))) }
{
    store.invariant();
    let mut found = Vec::new(alloc);
    let mut cursor = store.first_edge(n, Direction::Incoming);
    'edges: while let Some(item) = walk::step(store, Direction::Incoming, &mut cursor) {
        let weight = *store.edge_weight(item.0).unwrap();
        found.push((item.1, weight))?;
    }
    found.reverse();
    Ok(found)
}
