//! Callers that iterate over all children, or all parents, of a node.
ghost use Rattle.std.specs.Prelude.{◌≡◌, IfOk, length, map};
ghost use Rattle.daggy_base.specs.Graph.{out_list};

use daggy_base::index::{EdgeIndex, IndexType, NodeIndex};
use daggy_dag::acyclic::Dag;
use daggy_walk::walker::Walker;
use std::alloc::{AllocError, Global};

/// The edges to the children of a node, each once, newest first.
pub fn edges_to_children<N: Drop, E: Drop, Ix: IndexType>(
    alloc: Global,
    dag: &Dag<N, E, Ix>,
    n: NodeIndex<Ix>,
) -> Result<Vec<EdgeIndex<Ix>>, AllocError>
    ensures { IfOk result (λ v. map Ix.number v.items ≡ out_list dag.now.graph (Ix.number n)) }
{
    let mut seen = Vec::new(alloc);
    for step in dag.children(n).iter(dag) {
        seen.push(step.0)?;
    }
    Ok(seen)
}

/// Whether a node has a parent whose index is greater than its own.
pub fn has_later_parent<N: Drop, E: Drop, Ix: IndexType>(
    dag: &Dag<N, E, Ix>,
    n: NodeIndex<Ix>,
) -> bool {
    let mut walker = dag.parents(n);
    'up: while let Some(step) = walker.walk_next(dag) {
        if n < step.1 {
            return true;
        }
    }
    false
}

/// How many edges lead to children of a node.
pub fn number_of_children<N: Drop, E: Drop, Ix: IndexType>(
    dag: &Dag<N, E, Ix>,
    n: NodeIndex<Ix>,
) -> usize
    ensures { result ≡ length (out_list dag.now.graph (Ix.number n)) }
{
    let mut count = 0;
    for _ in dag.children(n).iter(dag) {
        count += 1;
    }
    count
}
