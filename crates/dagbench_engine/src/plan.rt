//! The plan that is written after the answers.
ghost use Rattle.dagbench_lines.specs.Writing.{WritesSome};
ghost use Rattle.dagbench_engine.specs.Plans.{IsPlanText, IsTrailer};

use dagbench_lines::plan::put_plan;
use dagbench_lines::stream::{Fault, Sink};
use dagbench_lines::writer::Writer;
use daggy::run::{GuardedDag, plan};
use std::alloc::Global;

/// Writes a plan of a dag, its stages and then its chain, or `memory` if an allocation fails.
fn put_plan_of<D: GuardedDag<i64, i64, u32>, K: Sink>(
    alloc: Global,
    dag: &D,
    writer: &mut Writer<K>,
) -> Result<(), Fault>
    ensures { WritesSome K.taken K.failures result writer.old writer.new
        (IsPlanText (D.graph dag.now)) }
{
    let Ok(plan) = plan(alloc, dag) else {
        return writer.put(b"memory\n");
    };
    put_plan(plan.stages.as_slice(), plan.chain.as_slice(), writer)
}

/// Writes what follows the answers: a plan of the dag if `plans`, otherwise nothing.
pub fn put_trailer<D: GuardedDag<i64, i64, u32>, K: Sink>(
    alloc: Global,
    plans: bool,
    dag: &D,
    writer: &mut Writer<K>,
) -> Result<(), Fault>
    ensures { WritesSome K.taken K.failures result writer.old writer.new
        (IsTrailer plans (D.graph dag.now)) }
{
    if plans {
        put_plan_of(alloc, dag, writer)
    } else {
        Ok(())
    }
}
