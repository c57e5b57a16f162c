//! Many edges at once.
use super::changes::of_error;
use super::kinds::Kind;
use super::{Ix, Numbers, node, nodes};
use anyhow::{Result, bail};
use daggy::graph::Element;
use daggy::{EdgesError, ElementError, NodeError, NodeIndex, ParentsError, WouldCycle};
use histories_model::answer::Answer;
use histories_model::calls::{Batch, Line, Part, keeps};
use std::alloc::Global;

/// Makes a change of many nodes or edges.
pub fn change_many<S: Kind>(alloc: Global, dag: &mut Numbers<S>, batch: &Batch) -> Result<Answer> {
    match batch {
        Batch::AddEdges(lines) => add_edges(alloc, dag, lines.as_slice()),
        Batch::ExtendWithEdges(lines) => {
            match dag.extend_with_edges(items(alloc, lines.as_slice())?) {
                Ok(()) => Ok(Answer::Done),
                Err(error) => of_error(alloc, error),
            }
        }
        Batch::FromEdges(lines) => {
            match Numbers::<S>::from_edges(alloc, items(alloc, lines.as_slice())?) {
                Ok(made) => *dag = made,
                Err(error) => return of_error(alloc, error),
            }
            Ok(Answer::Done)
        }
        Batch::FromElements(parts) => from_elements(alloc, dag, parts.as_slice()),
        Batch::SetParents(n, items) => set_parents(alloc, dag, node(*n), items.as_slice()),
        Batch::RetainNodes(salt) => {
            dag.retain_nodes(|n, weight| keeps(n.index(), *weight, *salt));
            Ok(Answer::Done)
        }
        Batch::RetainEdges(salt) => {
            dag.retain_edges(|e, weight| keeps(e.index(), *weight, *salt));
            Ok(Answer::Done)
        }
        Batch::TransitiveReduce(roots) => {
            dag.transitive_reduce(nodes(alloc, roots.as_slice())?)?;
            Ok(Answer::Done)
        }
        Batch::TransitiveReduceAll => {
            dag.transitive_reduce_all()?;
            Ok(Answer::Done)
        }
    }
}

// Edges as the library takes them.
fn items(alloc: Global, lines: &[Line]) -> Result<Vec<(NodeIndex<Ix>, NodeIndex<Ix>, u64)>> {
    let mut items = Vec::new(alloc);
    for (a, b, weight) in lines {
        items.push((node(*a), node(*b), *weight))?;
    }
    Ok(items)
}

fn add_edges<S: Kind>(alloc: Global, dag: &mut Numbers<S>, lines: &[Line]) -> Result<Answer> {
    match dag.add_edges(items(alloc, lines)?) {
        Ok(added) => {
            let mut indices = Vec::new(alloc);
            for e in added {
                indices.push(e.index())?;
            }
            Ok(Answer::Indices(indices))
        }
        Err(EdgesError::WouldCycle(WouldCycle(weights))) => Ok(Answer::WouldCycle(weights)),
        Err(EdgesError::BadEndpoint { last, mut before }) => {
            before.insert(0, last)?;
            Ok(Answer::BadEndpoint(before))
        }
        Err(EdgesError::Full { last, mut before }) => {
            before.insert(0, last)?;
            Ok(Answer::Full(before))
        }
        Err(EdgesError::Memory { .. }) => bail!("out of memory"),
    }
}

fn from_elements<S: Kind>(alloc: Global, dag: &mut Numbers<S>, parts: &[Part]) -> Result<Answer> {
    let mut elements = Vec::new(alloc);
    for part in parts {
        elements.push(match *part {
            Part::Node(weight) => Element::Node { weight },
            Part::Edge(source, target, weight) => Element::Edge {
                source,
                target,
                weight,
            },
        })?;
    }
    match Numbers::<S>::from_elements(alloc, elements) {
        Ok(made) => {
            *dag = made;
            Ok(Answer::Done)
        }
        Err(ElementError::Node(NodeError::Full(weight))) => {
            Ok(Answer::Full(vec![in alloc; weight]?))
        }
        Err(ElementError::Node(NodeError::Memory(_))) => bail!("out of memory"),
        Err(ElementError::Edge(error)) => of_error(alloc, error),
    }
}

fn set_parents<S: Kind>(
    alloc: Global,
    dag: &mut Numbers<S>,
    n: NodeIndex<Ix>,
    parents: &[(usize, u64)],
) -> Result<Answer> {
    let mut items = Vec::new(alloc);
    for (parent, weight) in parents {
        items.push((node(*parent), *weight))?;
    }
    if !dag.contains_node(n) || !dag.contains_parents(items.as_slice()) {
        return Ok(Answer::Missing);
    }
    match dag.set_parents(n, items) {
        Ok(()) => Ok(Answer::Done),
        Err(ParentsError::WouldCycle(WouldCycle(back))) => {
            Ok(Answer::WouldCycle(weights(alloc, back.as_slice())?))
        }
        Err(ParentsError::Full(back)) => Ok(Answer::Full(weights(alloc, back.as_slice())?)),
        Err(ParentsError::Memory(_)) => bail!("out of memory"),
    }
}

fn weights(alloc: Global, items: &[(NodeIndex<Ix>, u64)]) -> Result<Vec<u64>> {
    let mut weights = Vec::new(alloc);
    for (_, weight) in items {
        weights.push(*weight)?;
    }
    Ok(weights)
}
