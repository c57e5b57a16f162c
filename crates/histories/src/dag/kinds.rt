//! What each kind of dag has for itself, as one trait.
ghost use Rattle.std.specs.Iterator.{IsFinite};

use super::wholes::{decoded, encoded};
use super::{Ix, Numbers};
use anyhow::{Result, bail};
use daggy::graph::DiGraph;
use daggy::json::{ReadError, dag_from_json, dag_to_json, stable_from_json, stable_to_json};
use daggy::stable_graph::StableDiGraph;
use daggy::{Dag, Direction, EdgeIndex, EdgeReference, NodeIndex, StableDag, Store};
use histories_model::calls::{Line, changed, inherited, keeps};
use histories_model::model::Removal;
use serde_json::Value;
use std::alloc::{AllocError, Global};

/// A store of numbers, with the calls that only dags of one kind have.
pub trait Kind: Store<Ix, NodeWeight = u64, EdgeWeight = u64> {
    /// What a removal does.
    fn removal() -> Removal;

    fn copied(dag: &Numbers<Self>) -> Result<Numbers<Self>, AllocError>;

    /// The dag with other weights, which `changed` makes.
    fn mapped(dag: &Numbers<Self>, salt: u64) -> Result<Numbers<Self>, AllocError>;

    /// Writes such weights.
    fn rewrite(dag: &mut Numbers<Self>, salt: u64);

    fn recompute(dag: &mut Numbers<Self>, salt: u64);

    /// The part that `keeps` chooses, with such weights.
    fn part(dag: &Numbers<Self>, salt: u64) -> Result<Numbers<Self>, AllocError>;

    fn of_compact(dag: Dag<u64, u64, Ix>) -> Result<Numbers<Self>>;

    fn document(alloc: Global, dag: &Numbers<Self>) -> Result<Value>;

    fn read(alloc: Global, value: &Value) -> Result<Numbers<Self>, ReadError>;

    fn nodes(alloc: Global, dag: &Numbers<Self>) -> Result<Vec<usize>, AllocError>;

    fn all_edges(alloc: Global, dag: &Numbers<Self>) -> Result<Vec<(usize, Line)>, AllocError>;

    /// The weights of the nodes, and those of the edges.
    fn weights(alloc: Global, dag: &Numbers<Self>) -> Result<(Vec<u64>, Vec<u64>), AllocError>;

    fn neighbors(
        alloc: Global,
        dag: &Numbers<Self>,
        n: NodeIndex<Ix>,
        dir: Direction,
    ) -> Result<Vec<usize>, AllocError>;

    fn edges(
        alloc: Global,
        dag: &Numbers<Self>,
        n: NodeIndex<Ix>,
        dir: Direction,
    ) -> Result<Vec<(usize, Line)>, AllocError>;
}

fn changed_node(n: NodeIndex<Ix>, weight: &u64, salt: u64) -> u64 {
    changed(n.index(), *weight, salt)
}

fn changed_edge(e: EdgeIndex<Ix>, weight: &u64, salt: u64) -> u64 {
    changed(e.index(), *weight, salt)
}

fn kept_node(n: NodeIndex<Ix>, weight: &u64, salt: u64) -> Option<u64> {
    kept(n.index(), *weight, salt)
}

fn kept_edge(e: EdgeIndex<Ix>, weight: &u64, salt: u64) -> Option<u64> {
    kept(e.index(), *weight, salt)
}

// The new weight of what is kept.
fn kept(index: usize, weight: u64, salt: u64) -> Option<u64> {
    if keeps(index, weight, salt) {
        Some(changed(index, weight, salt))
    } else {
        None
    }
}

fn line(e: EdgeReference<'_, u64, Ix>) -> (usize, Line) {
    let ends = (e.source().index(), e.target().index());
    (e.id().index(), (ends.0, ends.1, *e.weight()))
}

fn index(n: NodeIndex<Ix>) -> usize {
    n.index()
}

fn copied(weight: &u64) -> u64 {
    *weight
}

fn list_of<T: Drop, I: Iterator<Item = T> + Drop>(
    alloc: Global,
    items: I,
) -> Result<Vec<T>, AllocError>
    requires can { I.can_next items }
    requires ends { IsFinite (I.remaining items) }
{
    let mut list = Vec::new(alloc);
    for item in items {
        list.push(item)?;
    }
    Ok(list)
}

impl Kind for DiGraph<u64, u64, Ix> {
    fn removal() -> Removal {
        Removal::MovesLast
    }

    fn copied(dag: &Numbers<Self>) -> Result<Numbers<Self>, AllocError> {
        dag.try_clone()
    }

    fn mapped(dag: &Numbers<Self>, salt: u64) -> Result<Numbers<Self>, AllocError> {
        dag.map(
            |n, w| changed_node(n, w, salt),
            |e, w| changed_edge(e, w, salt),
        )
    }

    fn rewrite(dag: &mut Numbers<Self>, salt: u64) {
        dag.update_node_weights(|n, w| *w = changed_node(n, w, salt));
        dag.update_edge_weights(|e, w| *w = changed_edge(e, w, salt));
    }

    fn recompute(dag: &mut Numbers<Self>, salt: u64) {
        dag.recompute(|graph, n| {
            let mut parents = 0u64;
            for parent in graph.neighbors_directed(n, Direction::Incoming) {
                parents = parents.wrapping_add(graph.node_weight(parent).copied().unwrap_or(0));
            }
            inherited(n.index(), parents, salt)
        });
    }

    fn part(dag: &Numbers<Self>, salt: u64) -> Result<Numbers<Self>, AllocError> {
        dag.filter_map(|n, w| kept_node(n, w, salt), |e, w| kept_edge(e, w, salt))
    }

    fn of_compact(dag: Dag<u64, u64, Ix>) -> Result<Numbers<Self>> {
        Ok(dag)
    }

    fn document(alloc: Global, dag: &Numbers<Self>) -> Result<Value> {
        Ok(dag_to_json(alloc, dag, encoded, encoded)?)
    }

    fn read(alloc: Global, value: &Value) -> Result<Numbers<Self>, ReadError> {
        dag_from_json(alloc, value, decoded, decoded)
    }

    fn nodes(alloc: Global, dag: &Numbers<Self>) -> Result<Vec<usize>, AllocError> {
        list_of(alloc, dag.node_identifiers().map(index))
    }

    fn all_edges(alloc: Global, dag: &Numbers<Self>) -> Result<Vec<(usize, Line)>, AllocError> {
        list_of(alloc, dag.edge_references().map(line))
    }

    fn weights(alloc: Global, dag: &Numbers<Self>) -> Result<(Vec<u64>, Vec<u64>), AllocError> {
        let nodes = list_of(alloc, dag.node_weights().map(copied))?;
        let edges = list_of(alloc, dag.edge_weights().map(copied))?;
        Ok((nodes, edges))
    }

    fn neighbors(
        alloc: Global,
        dag: &Numbers<Self>,
        n: NodeIndex<Ix>,
        dir: Direction,
    ) -> Result<Vec<usize>, AllocError> {
        list_of(alloc, dag.neighbors_directed(n, dir).map(index))
    }

    fn edges(
        alloc: Global,
        dag: &Numbers<Self>,
        n: NodeIndex<Ix>,
        dir: Direction,
    ) -> Result<Vec<(usize, Line)>, AllocError> {
        list_of(alloc, dag.edges_directed(n, dir).map(line))
    }
}

impl Kind for StableDiGraph<u64, u64, Ix> {
    fn removal() -> Removal {
        Removal::LeavesSlot
    }

    fn copied(dag: &Numbers<Self>) -> Result<Numbers<Self>, AllocError> {
        dag.try_clone()
    }

    fn mapped(dag: &Numbers<Self>, salt: u64) -> Result<Numbers<Self>, AllocError> {
        dag.map(
            |n, w| changed_node(n, w, salt),
            |e, w| changed_edge(e, w, salt),
        )
    }

    fn rewrite(dag: &mut Numbers<Self>, salt: u64) {
        dag.update_node_weights(|n, w| *w = changed_node(n, w, salt));
        dag.update_edge_weights(|e, w| *w = changed_edge(e, w, salt));
    }

    fn recompute(dag: &mut Numbers<Self>, salt: u64) {
        dag.recompute(|graph, n| {
            let mut parents = 0u64;
            for parent in graph.neighbors_directed(n, Direction::Incoming) {
                parents = parents.wrapping_add(graph.node_weight(parent).copied().unwrap_or(0));
            }
            inherited(n.index(), parents, salt)
        });
    }

    fn part(dag: &Numbers<Self>, salt: u64) -> Result<Numbers<Self>, AllocError> {
        dag.filter_map(|n, w| kept_node(n, w, salt), |e, w| kept_edge(e, w, salt))
    }

    fn of_compact(dag: Dag<u64, u64, Ix>) -> Result<Numbers<Self>> {
        match StableDag::from_dag(dag) {
            Ok(dag) => Ok(dag),
            Err(_) => bail!("out of memory"),
        }
    }

    fn document(alloc: Global, dag: &Numbers<Self>) -> Result<Value> {
        Ok(stable_to_json(alloc, dag, encoded, encoded)?)
    }

    fn read(alloc: Global, value: &Value) -> Result<Numbers<Self>, ReadError> {
        stable_from_json(alloc, value, decoded, decoded)
    }

    fn nodes(alloc: Global, dag: &Numbers<Self>) -> Result<Vec<usize>, AllocError> {
        list_of(alloc, dag.node_identifiers().map(index))
    }

    fn all_edges(alloc: Global, dag: &Numbers<Self>) -> Result<Vec<(usize, Line)>, AllocError> {
        list_of(alloc, dag.edge_references().map(line))
    }

    fn weights(alloc: Global, dag: &Numbers<Self>) -> Result<(Vec<u64>, Vec<u64>), AllocError> {
        let nodes = list_of(alloc, dag.node_weights().map(copied))?;
        let edges = list_of(alloc, dag.edge_weights().map(copied))?;
        Ok((nodes, edges))
    }

    fn neighbors(
        alloc: Global,
        dag: &Numbers<Self>,
        n: NodeIndex<Ix>,
        dir: Direction,
    ) -> Result<Vec<usize>, AllocError> {
        list_of(alloc, dag.neighbors_directed(n, dir).map(index))
    }

    fn edges(
        alloc: Global,
        dag: &Numbers<Self>,
        n: NodeIndex<Ix>,
        dir: Direction,
    ) -> Result<Vec<(usize, Line)>, AllocError> {
        list_of(alloc, dag.edges_directed(n, dir).map(line))
    }
}
