//! Writing replies. Does not allocate.
ghost use Rattle.std.specs.Prelude.{◌∷◌, [], ◌++◌};
ghost use Rattle.daggy_base.specs.Answers.{answer_of, weights_of};
ghost use Rattle.dagbench_lines.specs.Writing.{Writes};
ghost use Rattle.dagbench_lines.specs.Replies.{back_text, if_any, weight_text, text_of};

use crate::piece::{WriteText, put_each, put_if_any, put_parted};
use crate::stream::{Fault, Sink};
use crate::writer::Writer;
use daggy_base::command::{Back, Reply};

/// Writes the weight of what was removed, or `none`.
fn put_gone<K: Sink>(weight: Option<i64>, writer: &mut Writer<K>) -> Result<(), Fault>
    ensures { Writes K.taken K.failures result writer.old writer.new (if_any weight_text weight) }
{
    let Some(weight) = weight else {
        return writer.put(b"none");
    };
    writer.put(b"weight ")?;
    weight.put(writer)
}

/// Writes why nothing was done, and the returned weights if the command had a list of edges.
fn put_refusal<K: Sink>(
    cause: &[u8],
    back: Back<i64, i64>,
    writer: &mut Writer<K>,
) -> Result<(), Fault>
    ensures { Writes K.taken K.failures result writer.old writer.new
        (cause.now ++ back_text (weights_of back)) }
{
    writer.put(cause)?;
    let Back::Edges { last, before } = back else {
        return Ok(());
    };
    writer.put(b" ")?;
    last.put(writer)?;
    put_each(before.as_slice(), writer)
}

fn put_text<K: Sink>(reply: Reply<i64, i64, u32>, writer: &mut Writer<K>) -> Result<(), Fault>
    ensures { Writes K.taken K.failures result writer.old writer.new
        (text_of (answer_of (λ i. i) reply)) }
{
    match reply {
        Reply::Node(n) => n.put(writer),
        Reply::Edge(e) => e.put(writer),
        Reply::EdgeNode(e, n) => {
            e.put(writer)?;
            writer.put(b" ")?;
            n.put(writer)
        }
        Reply::Edges(edges) => put_parted(edges.as_slice(), writer),
        Reply::Found(e) => put_if_any(e, writer),
        Reply::Ends(ends) => put_if_any(ends, writer),
        Reply::NodeGone(weight) | Reply::EdgeGone(weight) => put_gone(weight, writer),
        Reply::Walk(items) => put_parted(items.as_slice(), writer),
        Reply::Done => writer.put(b"ok"),
        Reply::Missing(back) => put_refusal(b"missing", back, writer),
        Reply::Full(back) => put_refusal(b"full", back, writer),
        Reply::Memory(back) => put_refusal(b"memory", back, writer),
        Reply::Cycle(weight) => {
            writer.put(b"cycle ")?;
            weight.put(writer)
        }
        Reply::CycleAll(weights) => {
            writer.put(b"cycle")?;
            put_each(weights.as_slice(), writer)
        }
    }
}

/// Writes the text of a reply, and its newline.
pub fn put_reply<K: Sink>(reply: Reply<i64, i64, u32>, writer: &mut Writer<K>) -> Result<(), Fault>
    ensures { Writes K.taken K.failures result writer.old writer.new
        (text_of (answer_of (λ i. i) reply) ++ 10 ∷ []) }
{
    put_text(reply, writer)?;
    writer.put(b"\n")
}
