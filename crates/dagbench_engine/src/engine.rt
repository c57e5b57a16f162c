//! Answering a line.
ghost use Rattle.dagbench_lines.specs.Writing.{WritesLine};
ghost use Rattle.dagbench_engine.specs.Transcripts.{IsAnswer};

use crate::document::{Documented, put_document};
use dagbench_lines::parse::{LineRequest, parse};
use dagbench_lines::reply::put_reply;
use dagbench_lines::stream::{Fault, Sink};
use dagbench_lines::writer::Writer;
use daggy::run::perform;
use std::alloc::Global;

/// Answers a line. Allocates only for what the line asks for: growth of the graph, the list in the
/// line, lists in the reply, and a document with its text.
pub fn answer<D: Documented, K: Sink>(
    alloc: Global,
    dag: &mut D,
    line: &[u8],
    writer: &mut Writer<K>,
) -> Result<(), Fault>
    ensures { WritesLine K.taken K.failures result writer.old writer.new
        (λ text. IsAnswer D.KIND (D.graph dag.old) line.now text (D.graph dag.new)) }
{
    match parse(alloc, line) {
        Ok(Some(LineRequest::Command(command))) => {
            let reply = perform(dag, command);
            put_reply(reply, writer)
        }
        Ok(Some(LineRequest::Document)) => put_document(alloc, dag, writer),
        Ok(None) => writer.put(b"bad line\n"),
        Err(_) => writer.put(b"memory\n"),
    }
}
