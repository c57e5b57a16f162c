//! A caller that compares the reductions of two dags of different types.
ghost use Rattle.std.specs.Prelude.{◌↔◌, map, IfOk, OnOk};
ghost use Rattle.daggy_base.specs.Ordered.{IsOrderOf};
ghost use Rattle.daggy_redundant.specs.Comparison.{HaveSameNodes, HaveSameReachability};
ghost use Rattle.daggy_redundant.specs.Comparison.{JoinSamePairs};

use daggy_base::index::{IndexType, NodeIndex};
use daggy_base::store::Store;
use daggy_dag::acyclic::{Acyclic, Dag, StableDag};
use daggy_reduction::reduction_laws::reductions_are_alike;
use std::alloc::AllocError;

// All nodes of a dag, every parent before its children.
fn all_nodes<N: Drop, E: Drop, Ix: IndexType, S>(
    dag: &Acyclic<N, E, Ix, S>,
) -> Result<Vec<NodeIndex<Ix>>, AllocError>
where
    S: Store<Ix, NodeWeight = N, EdgeWeight = E>,
    ensures { IfOk result (λ nodes. IsOrderOf dag.now.graph (map Ix.number nodes.items)) }
{
    let mut nodes = Vec::new(dag.allocator());
    for n in dag.topological_order() {
        nodes.push(n)?;
    }
    Ok(nodes)
}

/// Reduces two dags on the same nodes, each from all of its nodes. Afterwards they join the same
/// pairs if and only if they had the same reachability before.
///
/// The weights, the types of index and the kinds of dag differ.
pub fn reduce_both<N: Drop, E: Drop, M: Drop, F: Drop, Ix: IndexType, Jx: IndexType>(
    a: &mut Dag<N, E, Ix>,
    b: &mut StableDag<M, F, Jx>,
) -> Result<(), AllocError>
    requires { HaveSameNodes a.old.graph b.old.graph }
    ensures { OnOk result
        (JoinSamePairs a.new.graph b.new.graph ↔ HaveSameReachability a.old.graph b.old.graph) }
{
    // Called only for their postconditions: both graphs are dags.
    let _dag = a.node_count();
    let _other_dag = b.node_count();
    let roots = all_nodes(a)?;
    let other_roots = all_nodes(b)?;
    a.transitive_reduce(roots)?;
    b.transitive_reduce(other_roots)?;
    reductions_are_alike::<N, E, M, F>();
    Ok(())
}
