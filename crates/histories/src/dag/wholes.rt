//! Dags made of a whole dag.
use super::kinds::Kind;
use super::{Ix, Numbers};
use anyhow::{Context, Result, bail};
use daggy::json::{ReadError, write_json};
use daggy::{Dag, EdgeIndex, NodeIndex};
use histories_model::answer::Answer;
use histories_model::calls::{Whole, keeps};
use histories_model::model::Model;
use serde_json::Value;
use std::alloc::{AllocError, Global};

/// Makes a dag of a whole dag, which takes its place, or writes its document.
pub fn make<S: Kind>(
    alloc: Global,
    dag: &mut Numbers<S>,
    model: &Model,
    whole: &Whole,
) -> Result<Answer> {
    match *whole {
        Whole::TryClone | Whole::Map(_) | Whole::FilterMap(_) | Whole::FromDag => {
            replace(alloc, dag, whole)
        }
        Whole::Rewrite(salt) => {
            S::rewrite(dag, salt);
            Ok(Answer::Done)
        }
        Whole::Recompute(salt) => {
            S::recompute(dag, salt);
            Ok(Answer::Done)
        }
        Whole::WriteDocument => Ok(Answer::Text(written(alloc, dag)?)),
        Whole::Restore => read(alloc, dag, &S::document(alloc, dag)?),
        Whole::ReadDocument(salt) => read_text(alloc, dag, model.permuted_document(salt)?),
        Whole::ReadSlots(e) => read_text(alloc, dag, model.reversing(e)?.document_of_slots()?),
    }
}

// Replaces a dag by the one that is made of it.
fn replace<S: Kind>(alloc: Global, dag: &mut Numbers<S>, whole: &Whole) -> Result<Answer> {
    *dag = made_of(alloc, dag, whole)?;
    Ok(Answer::Done)
}

// The dag that a call makes of another. A function of its own, since a dag that one branch owns
// lengthens the proof of every branch.
fn made_of<S: Kind>(alloc: Global, dag: &Numbers<S>, whole: &Whole) -> Result<Numbers<S>> {
    match *whole {
        Whole::Map(salt) => Ok(S::mapped(dag, salt)?),
        Whole::FilterMap(salt) => Ok(S::part(dag, salt)?),
        Whole::FromDag => S::of_compact(compact(alloc, dag, None)?),
        Whole::TryClone => Ok(S::copied(dag)?),
        _ => bail!("no dag is made"),
    }
}

// Reads the dag of a text.
fn read_text<S: Kind>(alloc: Global, dag: &mut Numbers<S>, text: String) -> Result<Answer> {
    let value = Value::from_str(alloc, text.as_str())
        .ok()
        .context("no JSON")?;
    read(alloc, dag, &value)
}

// Reads the dag of a value.
fn read<S: Kind>(alloc: Global, dag: &mut Numbers<S>, value: &Value) -> Result<Answer> {
    match S::read(alloc, value) {
        Ok(made) => {
            *dag = made;
            Ok(Answer::Done)
        }
        Err(ReadError::Cycle) => Ok(Answer::WouldCycle(Vec::new(alloc))),
        Err(error) => Err(error.into()),
    }
}

/// A weight as it is written.
pub fn encoded(weight: &u64) -> Result<Value, AllocError> {
    Ok(Value::from(*weight))
}

/// A weight as it is read.
pub fn decoded(value: &Value) -> Result<Option<u64>, AllocError> {
    Ok(value.as_u64())
}

fn written<S: Kind>(alloc: Global, dag: &Numbers<S>) -> Result<String> {
    let mut bytes = Vec::new(alloc);
    write_json(dag, &mut bytes, encoded, encoded)?;
    let text = str::from_utf8(bytes.as_slice()).ok().context("not text")?;
    Ok(String::from_str(alloc, text)?)
}

/// A compact dag of the same nodes and edges, added by ascending index. With a number, only of the
/// edges that `keeps` chooses with it.
pub fn compact<S: Kind>(
    alloc: Global,
    dag: &Numbers<S>,
    salt: Option<u64>,
) -> Result<Dag<u64, u64, Ix>> {
    let mut made = Dag::new(alloc);
    let mut names: Vec<Option<NodeIndex<Ix>>> = Vec::new(alloc);
    for n in 0..dag.graph().node_slots() {
        let mut name = None;
        if let Some(weight) = dag.node_weight(super::node(n)) {
            if !made.can_add_node() {
                bail!("too many nodes");
            }
            name = Some(made.add_node(*weight)?);
        }
        names.push(name)?;
    }
    for e in 0..dag.graph().edge_slots() {
        add_again(dag, super::edge(e), salt, names.as_slice(), &mut made)?;
    }
    Ok(made)
}

// Adds an edge, if it exists and is kept, between the nodes that have new names.
fn add_again<S: Kind>(
    dag: &Numbers<S>,
    e: EdgeIndex<Ix>,
    salt: Option<u64>,
    names: &[Option<NodeIndex<Ix>>],
    made: &mut Dag<u64, u64, Ix>,
) -> Result<()> {
    let (Some((a, b)), Some(weight)) = (dag.edge_endpoints(e), dag.edge_weight(e)) else {
        return Ok(());
    };
    if let Some(salt) = salt {
        if !keeps(e.index(), *weight, salt) {
            return Ok(());
        }
    }
    let a = names.get(a.index()).copied().flatten().context("no node")?;
    let b = names.get(b.index()).copied().flatten().context("no node")?;
    if !made.contains_node(a) || !made.contains_node(b) || !made.can_add_edge() {
        bail!("no such nodes, or too many edges");
    }
    made.add_edge(a, b, *weight)?;
    Ok(())
}
