//! The nodes of a dag in the fewest possible stages, each after its parents.
ghost use Rattle.std.specs.Prelude.{map, IfOk};
ghost use Rattle.daggy_run.specs.Plans.{stages_of, IsPlan, IsByLevels, IsChain, IsShortest};

use crate::guarded::GuardedDag;
use crate::plan::levels::levels_of;
use crate::plan::stages::{Plan, chain_back, stages_by};
use daggy_base::index::IndexType;
use std::alloc::{AllocError, Global};

mod levels;
pub mod stages;

/// Plans the nodes of a dag in the fewest possible stages, each node after its parents.
///
/// # Errors
///
/// Returns `AllocError` if an allocation fails.
///
/// # Complexity
///
/// O(node slots + edges).
///
/// # Examples
///
/// ```
/// let mut dag: Dag<&'static str, u32> = Dag::new(rt.alloc());
/// let sow = dag.add_node("sow")?;
/// let (_, reap) = dag.add_child(sow, 90, "reap")?;
/// let mend = dag.add_node("mend the fence")?;
/// let plan = plan(rt.alloc(), &dag)?;
/// assert!(rt; plan.stages.len() == 2);
/// let first = plan.stages.get(0);
/// assert!(rt; first.is_some_and(|stage| stage.as_slice() == [sow, mend].as_slice()));
/// // No plan can have fewer stages than this path has nodes.
/// assert!(rt; plan.chain.as_slice() == [sow, reap].as_slice());
/// ```
pub fn plan<N, E, Ix: IndexType, D: GuardedDag<N, E, Ix>>(
    alloc: Global,
    dag: &D,
) -> Result<Plan<Ix>, AllocError>
    ensures plan { IfOk result (λ p.
        IsPlan (D.graph dag.now) (stages_of Ix.number p.stages.items)) }
    ensures by_levels { IfOk result (λ p.
        IsByLevels (D.graph dag.now) (stages_of Ix.number p.stages.items)) }
    ensures chain { IfOk result (λ p. IsChain (D.graph dag.now)
        (stages_of Ix.number p.stages.items) (map Ix.number p.chain.items)) }
    ensures shortest { IfOk result (λ p.
        IsShortest (D.graph dag.now) (stages_of Ix.number p.stages.items)) }
{
    let found = levels_of(alloc, dag)?;
    let stages = stages_by(alloc, dag, found.levels.as_slice())?;
    let chain = chain_back(alloc, stages.as_slice(), found.parents.as_slice())?;
    Ok(Plan { stages, chain })
}
