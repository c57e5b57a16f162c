//! Redundant edges, found in three ways.
ghost use Rattle.daggy.specs.Path.{IsAcyclic};

use super::Ix;
use anyhow::{Result, bail};
use daggy::search::{
    Order, Scratch, redundant_edges, redundant_edges_by_blocks, redundant_edges_in,
};
use daggy::{EdgeIndex, NodeIndex, Store};
use histories_model::answer::Answer;
use std::alloc::Global;

/// The redundant edges below some roots. It is an error if the three ways find different edges.
pub fn redundant<S: Store<Ix>>(
    alloc: Global,
    mut store: S,
    roots: &[NodeIndex<Ix>],
) -> Result<Answer>
    requires { IsAcyclic (S.graph store) }
{
    let (nodes, edges) = (store.node_bound(), store.edge_bound());
    let mut scratch = Scratch::new(alloc);
    scratch.reserve(nodes, edges)?;
    scratch.reserve_rows(nodes)?;
    let Some(order) = Order::sorted(alloc, &mut store, &mut scratch)? else {
        bail!("no order of a dag");
    };
    let found = numbers(alloc, redundant_edges(&mut scratch, &mut store, roots))?;
    let ordered = numbers(
        alloc,
        redundant_edges_in(&mut scratch, &mut store, &order, roots),
    )?;
    let by_blocks = numbers(
        alloc,
        redundant_edges_by_blocks(&mut scratch, &mut store, &order, roots),
    )?;
    if found != ordered || found != by_blocks {
        bail!("{found:?}, with an order {ordered:?}, by blocks {by_blocks:?}");
    }
    Ok(Answer::Indices(found))
}

// The numbers of some edges.
fn numbers(alloc: Global, edges: &[EdgeIndex<Ix>]) -> Result<Vec<usize>> {
    let mut numbers = Vec::new(alloc);
    for e in edges {
        numbers.push(e.index())?;
    }
    Ok(numbers)
}
