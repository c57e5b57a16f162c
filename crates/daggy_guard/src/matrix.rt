//! The adjacency matrix, for both kinds of dag.
ghost use Rattle.std.specs.Prelude.{ℕ, ◌↔◌, IfOk};
ghost use Rattle.daggy_base.specs.Path.{AreJoined};
ghost use Rattle.daggy_visit.specs.Visit.{HasPair};

use daggy_base::index::{EdgeIndex, IndexType};
use daggy_base::read_store::ReadStore;
use daggy_visit::visit::AdjMatrix;
use std::alloc::{AllocError, Global};

/// The pairs of nodes that an edge of the store connects.
///
/// # Errors
///
/// Returns `AllocError` if an allocation fails.
///
/// # Complexity
///
/// O(edge bound + (node bound)^2 / 64).
pub fn adjacency_matrix<Ix: IndexType, S: ReadStore<Ix>>(
    store: &S,
    alloc: Global,
) -> Result<AdjMatrix<Ix>, AllocError>
    ensures { IfOk result (λ matrix.
        (a b : ℕ) → HasPair matrix a b ↔ AreJoined (S.graph store.now) a b) }
{
    let mut matrix = AdjMatrix::new(alloc, store.node_bound())?;
    'edges: for e in 0..store.edge_bound() {
        if let Some(ends) = store.edge_endpoints(EdgeIndex::new(e)) {
            matrix.join(ends.0, ends.1);
        }
    }
    Ok(matrix)
}
