//! Nodes and edges added and removed one at a time.
use super::kinds::Kind;
use super::{Ix, Numbers, edge, node};
use anyhow::{Result, bail};
use daggy::{EdgeError, EdgeIndex, NodeError, NodeIndex, TryChildError, WouldCycle};
use histories_model::answer::Answer;
use histories_model::calls::Change;
use std::alloc::Global;

/// Makes a change.
pub fn change<S: Kind>(alloc: Global, dag: &mut Numbers<S>, change: &Change) -> Result<Answer> {
    match *change {
        Change::AddNode(weight) => match dag.try_add_node(weight) {
            Ok(n) => Ok(Answer::Node(n.index())),
            Err(NodeError::Full(_)) => Ok(Answer::NoIndex),
            Err(NodeError::Memory(_)) => bail!("out of memory"),
        },
        Change::AddEdge(a, b, weight) => of_pair(alloc, dag.try_add_edge(node(a), node(b), weight)),
        Change::UpdateEdge(a, b, weight) => {
            of_pair(alloc, dag.try_update_edge(node(a), node(b), weight))
        }
        Change::AddChild(n, edge, weight) => of_neighbor(dag.try_add_child(node(n), edge, weight)),
        Change::AddParent(n, edge, weight) => {
            of_neighbor(dag.try_add_parent(node(n), edge, weight))
        }
        Change::RemoveNode(n) => Ok(Answer::Weight(dag.remove_node(node(n)))),
        Change::RemoveEdge(e) => Ok(Answer::Weight(dag.remove_edge(edge(e)))),
        Change::WriteNode(n, weight) => Ok(Answer::Weight(write_node(dag, node(n), weight))),
        Change::WriteEdge(e, weight) => Ok(Answer::Weight(write_edge(dag, edge(e), weight))),
        Change::ClearEdges => {
            dag.clear_edges();
            Ok(Answer::Done)
        }
        Change::Clear => {
            dag.clear();
            Ok(Answer::Done)
        }
    }
}

/// What the addition of an edge answers.
pub fn of_edge(alloc: Global, added: Result<EdgeIndex<Ix>, EdgeError<u64>>) -> Result<Answer> {
    match added {
        Ok(e) => Ok(Answer::Edge(e.index())),
        Err(error) => of_error(alloc, error),
    }
}

/// What a refusal answers.
pub fn of_error(alloc: Global, error: EdgeError<u64>) -> Result<Answer> {
    match error {
        EdgeError::WouldCycle(WouldCycle(weight)) => {
            Ok(Answer::WouldCycle(vec![in alloc; weight]?))
        }
        EdgeError::BadEndpoint(weight) => Ok(Answer::BadEndpoint(vec![in alloc; weight]?)),
        EdgeError::Full(weight) => Ok(Answer::Full(vec![in alloc; weight]?)),
        EdgeError::Memory(_) | EdgeError::NodeMemory(_) => bail!("out of memory"),
    }
}

// What the addition of an edge between two nodes answers.
fn of_pair(alloc: Global, added: Result<EdgeIndex<Ix>, EdgeError<u64>>) -> Result<Answer> {
    match added {
        Err(EdgeError::BadEndpoint(_)) => Ok(Answer::Missing),
        Err(EdgeError::Full(_)) => Ok(Answer::NoIndex),
        added => of_edge(alloc, added),
    }
}

// What the addition of a child or a parent of a node answers.
fn of_neighbor(
    added: Result<(EdgeIndex<Ix>, NodeIndex<Ix>), TryChildError<u64, u64>>,
) -> Result<Answer> {
    match added {
        Ok((e, other)) => Ok(Answer::EdgeAndNode(e.index(), other.index())),
        Err(TryChildError::Missing(_, _)) => Ok(Answer::Missing),
        Err(TryChildError::Full(_, _)) => Ok(Answer::NoIndex),
        Err(TryChildError::Memory(_, _)) => bail!("out of memory"),
    }
}

fn write_node<S: Kind>(dag: &mut Numbers<S>, n: NodeIndex<Ix>, weight: u64) -> Option<u64> {
    let slot = dag.node_weight_mut(n)?;
    let old = *slot;
    *slot = weight;
    Some(old)
}

fn write_edge<S: Kind>(dag: &mut Numbers<S>, e: EdgeIndex<Ix>, weight: u64) -> Option<u64> {
    let slot = dag.edge_weight_mut(e)?;
    let old = *slot;
    *slot = weight;
    Some(old)
}
