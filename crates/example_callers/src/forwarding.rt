//! Callers that pass on closures that can always be called.
use daggy_base::index::NodeIndex;
use daggy_dag::acyclic::Dag;
use std::alloc::AllocError;

/// The dag with the weights of its nodes mapped by a function of only the weight.
pub fn mapped<E: Copy + Drop, F: Fn(u32) -> u32>(
    dag: &Dag<u32, E>,
    f: F,
) -> Result<Dag<u32, E>, AllocError>
    requires { F.IsAlwaysCallable f }
{
    dag.map(|_, weight| f(*weight), |_, weight| *weight)
}

/// The dag with the weights of its nodes mapped by a closure.
pub fn mapped_by<E: Copy + Drop, F: FnMut(NodeIndex, &u32) -> u32>(
    dag: &Dag<u32, E>,
    f: F,
) -> Result<Dag<u32, E>, AllocError>
    requires { F.IsAlwaysCallable f }
{
    dag.map(f, |_, weight| *weight)
}

/// The part of a dag with the nodes that a closure keeps.
pub fn kept_by<E: Copy + Drop, F: FnMut(NodeIndex, &u32) -> Option<u32>>(
    dag: &Dag<u32, E>,
    f: F,
) -> Result<Dag<u32, E>, AllocError>
    requires { F.IsAlwaysCallable f }
{
    dag.filter_map(f, |_, weight| Some(*weight))
}

/// Writes the weights of the nodes by a closure.
pub fn changed_by<E: Drop, F: FnMut(NodeIndex, &mut u32)>(dag: &mut Dag<u32, E>, f: F)
    requires { F.IsAlwaysCallable f }
{
    dag.update_node_weights(f);
}
