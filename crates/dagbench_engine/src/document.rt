//! Writing the document of a dag as a line.
ghost use Rattle.std.specs.Prelude.{IfSome, IfOk};
ghost use Rattle.serde_json.specs.View.{view};
ghost use Rattle.daggy.specs.Document.{IsDocumentOf};
ghost use Rattle.dagbench_engine.specs.Documents.{StandsFor, IsDocumentText, TellsDocument};
ghost use Rattle.dagbench_lines.specs.Writing.{WritesLine};

use dagbench_lines::stream::{Fault, Sink};
use dagbench_lines::writer::Writer;
use daggy::json::{dag_to_json, stable_to_json};
use daggy::run::GuardedDag;
use daggy::{Dag, StableDag};
use serde_json::Value;
use std::alloc::{AllocError, Global};

/// A dag that can be written as a document, as both kinds can.
pub trait Documented: GuardedDag<i64, i64, u32> + Drop {
    /// The document of the dag, with weights as numbers, or `None` if an allocation fails.
    fn to_json(&self, alloc: Global) -> Option<Value>
        ensures { IfSome result (λ v.
            IsDocumentOf StandsFor StandsFor (Self.graph self.now) (view v)) };
}

/// A weight as a JSON value.
fn number(weight: &i64) -> Result<Value, AllocError>
    ensures { IfOk result (λ v. StandsFor weight.now (view v)) }
{
    Ok(Value::from(*weight))
}

impl Documented for Dag<i64, i64, u32> {
    fn to_json(&self, alloc: Global) -> Option<Value> {
        dag_to_json(alloc, self, number, number).ok()
    }
}

impl Documented for StableDag<i64, i64, u32> {
    fn to_json(&self, alloc: Global) -> Option<Value> {
        stable_to_json(alloc, self, number, number).ok()
    }
}

/// The text of the document of a dag, or `None` if an allocation fails.
fn document_text<D: Documented>(alloc: Global, dag: &D) -> Option<Vec<u8>>
    ensures { IfSome result (λ text. IsDocumentText (D.graph dag.now) text.items) }
{
    let document = dag.to_json(alloc)?;
    document.to_vec(alloc).ok()
}

/// Writes the document of a dag as a line, or `memory` if an allocation fails.
pub fn put_document<D: Documented, K: Sink>(
    alloc: Global,
    dag: &D,
    writer: &mut Writer<K>,
) -> Result<(), Fault>
    ensures { WritesLine K.taken K.failures result writer.old writer.new
        (TellsDocument (D.graph dag.now)) }
{
    let Some(text) = document_text(alloc, dag) else {
        return writer.put(b"memory\n");
    };
    writer.put(text.as_slice())?;
    writer.put(b"\n")
}
