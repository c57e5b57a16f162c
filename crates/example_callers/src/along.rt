//! A caller that writes weights along a topological order, and borrows the dag for each step.
ghost use Rattle.std.specs.Prelude.{◌≡◌, OnOk, OnErr};
ghost use Rattle.example_callers.specs.Along.{IsReweighed};

use daggy_base::index::IndexType;
use daggy_dag::acyclic::Dag;
use daggy_schedule::ready::Ready;
use std::alloc::{AllocError, Global};

/// Numbers the nodes in a topological order: the weight of each becomes its number.
///
/// The contract states that nothing but weights of nodes changes, and not what they become.
///
/// # Errors
///
/// Returns `AllocError` if an allocation fails; the dag is unchanged.
pub fn number_nodes<E: Drop, Ix: IndexType>(
    alloc: Global,
    dag: &mut Dag<u32, E, Ix>,
) -> Result<(), AllocError>
    ensures reweighed { OnOk result (IsReweighed dag.old.graph dag.new.graph) }
    ensures unchanged { OnErr result (dag.new ≡ dag.old) }
{
    let mut ready = Ready::new(alloc, dag)?;
    let mut number = 0u32;
    'nodes: for _ in 0..dag.node_count() {
        let Some(n) = ready.next(dag) else {
            break;
        };
        dag[n] = number;
        number = number.wrapping_add(1);
        ready.done(dag, n);
    }
    Ok(())
}
