//! A caller that copies a dag of numbers, whose clones are equal.
ghost use Rattle.std.specs.Prelude.{◌≡◌, IfOk};

use daggy_dag::acyclic::Dag;
use std::alloc::AllocError;

/// The same dag again.
pub fn copied(dag: &Dag<u32, u32>) -> Result<Dag<u32, u32>, AllocError>
    ensures { IfOk result (λ copy. copy.graph ≡ dag.now.graph) }
{
    dag.try_clone()
}
