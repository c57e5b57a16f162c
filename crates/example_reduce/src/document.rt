//! Dags whose weights are JSON values, read from documents and written to them.
ghost use Rattle.std.specs.Prelude.{ℕ, List, IfOk};
ghost use Rattle.daggy.specs.Ordered.{IsOrderOf};
ghost use Rattle.daggy.specs.Reduction.{IsReduction};

use anyhow::Result;
use daggy::json::{ReadError, dag_from_json, stable_from_json, write_json};
use daggy::{Acyclic, Dag, NodeIndex, StableDag, Store};
use serde_json::Value;
use std::alloc::{AllocError, Global};
use std::io::Write;

// A weight as it is kept, and as it is written.
fn copied(weight: &Value) -> Result<Value, AllocError> {
    weight.clone()
}

fn kept(weight: &Value) -> Result<Option<Value>, AllocError> {
    Ok(Some(copied(weight)?))
}

/// The dag of a document.
pub fn read(alloc: Global, document: &Value) -> Result<Dag<Value, Value>, ReadError> {
    dag_from_json(alloc, document, kept, kept)
}

/// The stable dag of a document.
pub fn read_stable(alloc: Global, document: &Value) -> Result<StableDag<Value, Value>, ReadError> {
    stable_from_json(alloc, document, kept, kept)
}

// The dag without its redundant edges.
fn reduced<S: Store<u32, NodeWeight = Value, EdgeWeight = Value>>(
    mut dag: Acyclic<Value, Value, u32, S>,
) -> Result<Acyclic<Value, Value, u32, S>, AllocError>
    ensures { IfOk result (λ found. (nodes : List ℕ) × IsOrderOf dag.graph nodes
        × IsReduction S.KIND nodes dag.graph found.graph) }
{
    let roots: Vec<NodeIndex> = dag.topological_order().collect(dag.allocator())?;
    dag.transitive_reduce(roots)?;
    Ok(dag)
}

/// Removes the redundant edges of a dag, and writes its document.
pub fn write_reduced<W: Write, S: Store<u32, NodeWeight = Value, EdgeWeight = Value>>(
    dag: Acyclic<Value, Value, u32, S>,
    out: &mut W,
) -> Result<()> {
    write_json(&reduced(dag)?, out, copied, copied)?;
    Ok(())
}
