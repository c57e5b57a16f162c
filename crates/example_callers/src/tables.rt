//! Callers whose closures index tables with an entry for each node.
ghost use Rattle.std.specs.Prelude.{◌≤◌, length};
ghost use Rattle.daggy_base.specs.Graph.{node_bound};

use daggy_dag::acyclic::{Dag, StableDag};
use std::alloc::AllocError;

/// The dag with the weights of its nodes read from a table.
pub fn with_weights<E: Copy + Drop>(
    dag: &StableDag<u32, E>,
    table: &[u32],
) -> Result<StableDag<u32, E>, AllocError>
    requires { node_bound dag.now.graph ≤ length table.now }
{
    dag.map(|n, _| table[n.index()], |_, weight| *weight)
}

/// Writes the weights of the nodes into a table, and 0 into the nodes.
pub fn move_weights<E: Drop>(dag: &mut Dag<u32, E>, table: &mut [u32])
    requires { node_bound dag.old.graph ≤ length table.old }
{
    dag.update_node_weights(|n, weight| {
        table[n.index()] = *weight;
        *weight = 0;
    });
}

/// Adds to the weight of each node its entry in a table.
pub fn add_weights<E: Drop>(dag: &mut StableDag<u32, E>, table: &[u32])
    requires { node_bound dag.old.graph ≤ length table.now }
{
    dag.update_node_weights(|n, weight| *weight = weight.wrapping_add(table[n.index()]));
}

/// Gives each node its entry in a table.
pub fn take_weights<E: Drop>(dag: &mut Dag<u32, E>, table: &[u32])
    requires { node_bound dag.old.graph ≤ length table.now }
{
    dag.recompute(|_, n| table[n.index()]);
}
