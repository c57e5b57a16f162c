//! What is wrong with a document that holds no dag.
use anyhow::{Context, Result, bail};
use daggy::NodeIndex;
use daggy::components::find_cycle;
use daggy::json::{Fault, ReadError, find_fault, graph_from_json};
use daggy::run::Kind;
use daggy::stable_graph::StableDiGraph;
use serde_json::Value;
use std::alloc::{AllocError, Global};

// No more nodes of a cycle than these are named.
const MOST: usize = 20;

fn no_weight(_weight: &Value) -> Result<Option<()>, AllocError> {
    Ok(Some(()))
}

// The nodes of a cycle of a document.
fn cycle(alloc: Global, document: &Value) -> Result<Vec<NodeIndex>> {
    let mut graph: StableDiGraph<(), ()> = graph_from_json(alloc, document, no_weight, no_weight)?;
    find_cycle(alloc, &mut graph)?.context("document has a cycle")
}

// Some nodes, from each to the next one, and back to the first.
fn text_of(alloc: Global, nodes: &[NodeIndex]) -> Result<String> {
    let mut text = String::new(alloc);
    for n in nodes.iter().take(MOST) {
        text.push_str(format!(in alloc; "{} -> ", n.index())?.as_str())?;
    }
    if nodes.len() > MOST {
        text.push_str(".. -> ")?;
    }
    if let Some(n) = nodes.first() {
        text.push_str(format!(in alloc; "{}", n.index())?.as_str())?;
    }
    Ok(text)
}

// The first fault of a document that is not read as a graph.
fn fault(alloc: Global, document: &Value, kind: Kind) -> Result<Fault> {
    find_fault::<(), (), u32, _, _>(alloc, document, kind, no_weight, no_weight)?.context(
        "document has no fault",
    )
}

/// What was read of a document. The error names the nodes of a cycle, or else the first fault and
/// its place.
pub fn or_fault<D: Drop>(
    alloc: Global,
    document: &Value,
    kind: Kind,
    read: Result<D, ReadError>,
) -> Result<D> {
    match read {
        Ok(dag) => Ok(dag),
        Err(ReadError::Cycle) => {
            let nodes = cycle(alloc, document)?;
            bail!(
                "document has a cycle: {}",
                text_of(alloc, nodes.as_slice())?
            )
        }
        Err(ReadError::Memory) => Err(ReadError::Memory.into()),
        Err(_) => Err(fault(alloc, document, kind)?.into()),
    }
}
