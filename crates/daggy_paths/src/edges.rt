//! The edges along a path.
ghost use Rattle.std.specs.Prelude.{◌≡◌, map, IfOk};
ghost use Rattle.daggy_base.specs.Path.{IsPath};
ghost use Rattle.daggy_paths.specs.EdgePaths.{AreFoundAlong};

use daggy_base::index::{EdgeIndex, IndexType, NodeIndex};
use daggy_base::read_store::ReadStore;
use std::alloc::{AllocError, Global};

/// The edges along a path: for each pair of consecutive nodes, the edge that `find_edge` returns.
///
/// # Errors
///
/// Returns `AllocError` if an allocation fails.
pub fn edges_along<Ix: IndexType, S: ReadStore<Ix>>(
    alloc: Global,
    store: &S,
    nodes: &[NodeIndex<Ix>],
) -> Result<Vec<EdgeIndex<Ix>>, AllocError>
    requires { IsPath (S.graph store.now) (map Ix.number nodes.now) }
    ensures { IfOk result (λ edges. AreFoundAlong (S.graph store.now) (map Ix.number nodes.now)
        (map Ix.number edges.items)) }
{
    store.invariant();
    let mut edges = Vec::new(alloc);
    let mut at = 0;
    'nodes: while at + 1 < nodes.len() {
        // There is one, since each node is joined to the next.
        if let Some(e) = store.find_edge(nodes[at], nodes[at + 1]) {
            edges.push(e)?;
        }
        at += 1;
    }
    Ok(edges)
}
