//! The calls, made of a dag of either kind.
mod batches;
mod changes;
pub mod kinds;
mod queries;
mod redundant;
mod searches;
mod walks;
mod wholes;
mod work;

use anyhow::Result;
use daggy::{Acyclic, EdgeIndex, NodeIndex};
use histories_model::answer::Answer;
use histories_model::calls::Call;
use histories_model::model::Model;
use kinds::Kind;
use std::alloc::Global;

/// The type of indices. It has so few that none is left in some histories.
pub type Ix = u8;

/// A dag of either kind whose weights are numbers.
pub type Numbers<S> = Acyclic<u64, u64, Ix, S>;

/// Makes a call, and returns its answer. `model` is what the dag is meant to be before it.
pub fn answer<S: Kind>(
    alloc: Global,
    dag: &mut Numbers<S>,
    model: &Model,
    call: &Call,
) -> Result<Answer> {
    match call {
        Call::Change(change) => changes::change(alloc, dag, change),
        Call::Batch(batch) => batches::change_many(alloc, dag, batch),
        Call::Whole(whole) => wholes::make(alloc, dag, model, whole),
        Call::Query(query) => queries::look_up(alloc, dag, query),
        Call::Search(search) => searches::search(alloc, dag, search),
        Call::Walk(walk) => walks::walk(alloc, dag, walk),
        Call::Work(work) => work::work(alloc, dag, work),
    }
}

/// The node with a number. A number that no index has becomes the greatest one, which no node has.
pub fn node(n: usize) -> NodeIndex<Ix> {
    let end = NodeIndex::<Ix>::end();
    if n < end.index() {
        NodeIndex::new(n)
    } else {
        end
    }
}

/// The edge with a number.
pub fn edge(e: usize) -> EdgeIndex<Ix> {
    let end = EdgeIndex::<Ix>::end();
    if e < end.index() {
        EdgeIndex::new(e)
    } else {
        end
    }
}

/// The nodes with some numbers.
pub fn nodes(alloc: Global, numbers: &[usize]) -> Result<Vec<NodeIndex<Ix>>> {
    let mut nodes = Vec::new(alloc);
    for n in numbers {
        nodes.push(node(*n))?;
    }
    Ok(nodes)
}

/// The numbers of some nodes.
pub fn numbers(alloc: Global, nodes: &[NodeIndex<Ix>]) -> Result<Vec<usize>> {
    let mut numbers = Vec::new(alloc);
    for n in nodes {
        numbers.push(n.index())?;
    }
    Ok(numbers)
}
