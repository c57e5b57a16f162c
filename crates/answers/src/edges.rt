//! The edges of a dag.
ghost use Rattle.std.specs.Prelude.{◌≡◌, IfOk, IsPermutation};
ghost use Rattle.answers.specs.Answers.{endpoints_of, AreAscending};

use daggy::{Acyclic, EdgeIndex, IndexType, Store};
use std::alloc::{AllocError, Global};

/// The parent and the child of each edge, by ascending index.
pub fn endpoints<N: Drop, E: Drop, Ix: IndexType, S: Store<Ix, NodeWeight = N, EdgeWeight = E>>(
    alloc: Global,
    dag: &Acyclic<N, E, Ix, S>,
) -> Result<Vec<(usize, usize)>, AllocError>
    ensures { IfOk result (λ pairs. pairs.items ≡ endpoints_of dag.now.graph) }
{
    let graph = dag.graph();
    graph.invariant();
    let mut pairs = Vec::new(alloc);
    for i in 0..graph.edge_slots() {
        if let Some(ends) = dag.edge_endpoints(EdgeIndex::new(i)) {
            pairs.push((ends.0.index(), ends.1.index()))?;
        }
    }
    Ok(pairs)
}

/// The parent and the child of each edge, in ascending order.
pub fn sorted_endpoints<
    N: Drop,
    E: Drop,
    Ix: IndexType,
    S: Store<Ix, NodeWeight = N, EdgeWeight = E>,
>(alloc: Global, dag: &Acyclic<N, E, Ix, S>) -> Result<Vec<(usize, usize)>, AllocError>
    ensures all { IfOk result (λ pairs. IsPermutation (endpoints_of dag.now.graph) pairs.items) }
    ensures ascending { IfOk result (λ pairs. AreAscending pairs.items) }
{
    let mut pairs = endpoints(alloc, dag)?;
    pairs.sort()?;
    Ok(pairs)
}
