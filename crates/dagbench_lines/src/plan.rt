//! The text of a plan.
ghost use Rattle.dagbench_lines.specs.Writing.{Writes};
ghost use Rattle.dagbench_lines.specs.Replies.{stages_text, plan_text};

use crate::piece::{put_each, put_parted};
use crate::stream::{Fault, Sink};
use crate::writer::Writer;
use daggy_base::index::NodeIndex;

/// Writes each stage as a line.
fn put_stages<K: Sink>(stages: &[Vec<NodeIndex<u32>>], writer: &mut Writer<K>) -> Result<(), Fault>
    ensures { Writes K.taken K.failures result writer.old writer.new
        (stages_text (λ stage. stage.items) stages.now) }
{
    for stage in stages {
        writer.put(b"stage")?;
        put_each(stage.as_slice(), writer)?;
        writer.put(b"\n")?;
    }
    Ok(())
}

/// Writes each stage as a line, and then the chain.
pub fn put_plan<K: Sink>(
    stages: &[Vec<NodeIndex<u32>>],
    chain: &[NodeIndex<u32>],
    writer: &mut Writer<K>,
) -> Result<(), Fault>
    ensures { Writes K.taken K.failures result writer.old writer.new
        (plan_text (λ stage. stage.items) stages.now chain.now) }
{
    put_stages(stages, writer)?;
    writer.put(b"chain ")?;
    put_parted(chain, writer)?;
    writer.put(b"\n")
}
