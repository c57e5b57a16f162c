//! Writing the parts of a reply.
ghost use Rattle.std.specs.Prelude.{ℕ, List, decimal};
ghost use Rattle.std.specs.Fmt.{signed_decimal};
ghost use Rattle.dagbench_lines.specs.Writing.{Writes};
ghost use Rattle.dagbench_lines.specs.Replies.{node_text, edge_text, ends_text, item_text, if_any};
ghost use Rattle.dagbench_lines.specs.Replies.{spaced, parted};

use crate::stream::{Fault, Sink};
use crate::writer::Writer;
use daggy_base::command::Neighbor;
use daggy_base::index::{EdgeIndex, NodeIndex};
use itoa::Buffer;

/// A value with a text in replies.
pub trait WriteText: Copy {
    // Its text.
    ghost text: { Self → List ℕ };

    /// Writes its text.
    fn put<K: Sink>(self, writer: &mut Writer<K>) -> Result<(), Fault>
        ensures { Writes K.taken K.failures result writer.old writer.new (text self) };
}

/// An index in decimal.
fn put_index<K: Sink>(index: usize, writer: &mut Writer<K>) -> Result<(), Fault>
    ensures { Writes K.taken K.failures result writer.old writer.new (decimal index) }
{
    let mut digits = Buffer::new();
    writer.put(digits.format(index).as_bytes())
}

/// The weight in decimal.
impl WriteText for i64 {
    ghost text = { signed_decimal };

    fn put<K: Sink>(self, writer: &mut Writer<K>) -> Result<(), Fault> {
        let mut digits = Buffer::new();
        writer.put(digits.format(self).as_bytes())
    }
}

/// `n` and the index of the node.
impl WriteText for NodeIndex<u32> {
    ghost text = { node_text };

    fn put<K: Sink>(self, writer: &mut Writer<K>) -> Result<(), Fault> {
        writer.put(b"n")?;
        put_index(self.index(), writer)
    }
}

/// `e` and the index of the edge.
impl WriteText for EdgeIndex<u32> {
    ghost text = { edge_text };

    fn put<K: Sink>(self, writer: &mut Writer<K>) -> Result<(), Fault> {
        writer.put(b"e")?;
        put_index(self.index(), writer)
    }
}

/// The edge, a colon, and the index of the node that it leads to.
impl WriteText for Neighbor<u32> {
    ghost text = { item_text };

    fn put<K: Sink>(self, writer: &mut Writer<K>) -> Result<(), Fault> {
        self.0.put(writer)?;
        writer.put(b":")?;
        put_index(self.1.index(), writer)
    }
}

/// The two endpoints of an edge, separated by a space.
impl WriteText for (NodeIndex<u32>, NodeIndex<u32>) {
    ghost text = { ends_text };

    fn put<K: Sink>(self, writer: &mut Writer<K>) -> Result<(), Fault> {
        self.0.put(writer)?;
        writer.put(b" ")?;
        self.1.put(writer)
    }
}

/// Writes a value, or `none`.
pub fn put_if_any<T: WriteText, K: Sink>(
    piece: Option<T>,
    writer: &mut Writer<K>,
) -> Result<(), Fault>
    ensures { Writes K.taken K.failures result writer.old writer.new (if_any T.text piece) }
{
    match piece {
        Some(piece) => piece.put(writer),
        None => writer.put(b"none"),
    }
}

/// Writes some values, each after a space.
pub fn put_each<T: WriteText, K: Sink>(pieces: &[T], writer: &mut Writer<K>) -> Result<(), Fault>
    ensures { Writes K.taken K.failures result writer.old writer.new (spaced T.text pieces.now) }
{
    for piece in pieces {
        writer.put(b" ")?;
        (*piece).put(writer)?;
    }
    Ok(())
}

/// Writes some values, separated by spaces, or a dash if there are none.
pub fn put_parted<T: WriteText, K: Sink>(pieces: &[T], writer: &mut Writer<K>) -> Result<(), Fault>
    ensures { Writes K.taken K.failures result writer.old writer.new (parted T.text pieces.now) }
{
    let Some((first, others)) = pieces.split_first() else {
        return writer.put(b"-");
    };
    (*first).put(writer)?;
    put_each(others, writer)
}
