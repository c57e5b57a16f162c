//! Random calls. Most of them name nodes and edges that exist.
mod batches;
mod questions;

use crate::calls::{Batch, Call, Change};
use crate::model::Model;
use crate::random::Random;
use batches::{choose_batch, many_lines};
use questions::{choose_query, choose_search, choose_walk, choose_whole, choose_work};
use std::alloc::{AllocError, Global};

/// How large the dag of a history gets.
#[derive(Clone, Copy, PartialEq)]
pub enum Size {
    // Up to 40 nodes.
    Small,
    // It begins with up to 250 nodes and edges.
    Large,
    // Until no index is left.
    Full,
}

/// The sizes above which most changes are removals.
#[derive(Clone, Copy)]
pub struct Style {
    pub size: Size,
    pub nodes: usize,
    pub edges: usize,
}

impl Style {
    /// A random style.
    pub fn new(random: &mut Random) -> Style {
        let size = match random.below(20) {
            0 => Size::Large,
            1 | 2 => Size::Full,
            _ => Size::Small,
        };
        let nodes = match size {
            Size::Small => 2usize.saturating_add(random.below(39)),
            Size::Large | Size::Full => 300,
        };
        let density = 1usize.saturating_add(random.below(4));
        Style {
            size,
            nodes,
            edges: nodes.saturating_mul(density),
        }
    }
}

/// A random call.
pub fn choose(
    alloc: Global,
    random: &mut Random,
    model: &Model,
    style: Style,
) -> Result<Call, AllocError> {
    if style.size == Size::Large && model.nodes.is_empty() {
        return Ok(Call::Batch(Batch::FromEdges(many_lines(alloc, random)?)));
    }
    Ok(match random.below(100) {
        0..=54 => Call::Change(choose_change(random, model, style)?),
        55..=66 => Call::Batch(choose_batch(alloc, random, model, style)?),
        67..=69 => Call::Whole(choose_whole(random, model)),
        70..=84 => Call::Query(choose_query(random, model)),
        85..=89 => Call::Search(choose_search(alloc, random, model)?),
        90..=94 => Call::Walk(choose_walk(alloc, random, model)?),
        _ => Call::Work(choose_work(random)),
    })
}

fn choose_change(random: &mut Random, model: &Model, style: Style) -> Result<Change, AllocError> {
    let is_crowded = model.node_count() > style.nodes;
    let is_dense = model.edge_count() > style.edges;
    let (n, e) = (a_node(random, model), an_edge(random, model));
    let (weight, other) = (a_weight(random), a_weight(random));
    Ok(match random.below(100) {
        0..=19 if is_crowded => Change::RemoveNode(n),
        12..=45 if is_dense => Change::RemoveEdge(e),
        0..=11 => Change::AddNode(weight),
        12..=45 => {
            let (a, b) = a_pair(random, model)?;
            Change::AddEdge(a, b, weight)
        }
        46..=51 => {
            let (a, b) = a_pair(random, model)?;
            Change::UpdateEdge(a, b, weight)
        }
        52..=60 => Change::AddChild(n, weight, other),
        61..=67 => Change::AddParent(n, weight, other),
        68..=75 => Change::RemoveNode(n),
        76..=89 => Change::RemoveEdge(e),
        90..=93 => Change::WriteNode(n, weight),
        94..=97 => Change::WriteEdge(e, weight),
        98 if random.once_in(4) => Change::ClearEdges,
        99 if random.once_in(8) => Change::Clear,
        _ => Change::AddNode(weight),
    })
}

/// The index of a node, which exists in most cases.
pub fn a_node(random: &mut Random, model: &Model) -> usize {
    let slots = model.nodes.len();
    if random.once_in(40) {
        return slots.saturating_add(random.below(3));
    }
    let mut n = random.below(slots);
    for _ in 0..4u8 {
        if !model.has_node(n) {
            n = random.below(slots);
        }
    }
    n
}

/// The index of an edge, which exists in most cases.
pub fn an_edge(random: &mut Random, model: &Model) -> usize {
    let slots = model.edges.len();
    if random.once_in(40) {
        return slots.saturating_add(random.below(3));
    }
    let mut e = random.below(slots);
    for _ in 0..4u8 {
        if model.edge(e).is_none() {
            e = random.below(slots);
        }
    }
    e
}

/// Two nodes. An edge from the first to the second closes a cycle now and then.
pub fn a_pair(random: &mut Random, model: &Model) -> Result<(usize, usize), AllocError> {
    let (a, b) = (a_node(random, model), a_node(random, model));
    if random.once_in(4) || !model.descends(b, a)? {
        return Ok((a, b));
    }
    Ok((b, a))
}

/// A weight, which is rarely great.
pub fn a_weight(random: &mut Random) -> u64 {
    if random.once_in(100) {
        return random.next();
    }
    random.next() % 1000
}

/// Up to four nodes.
pub fn some_nodes(
    alloc: Global,
    random: &mut Random,
    model: &Model,
) -> Result<Vec<usize>, AllocError> {
    let mut nodes = Vec::new(alloc);
    for _ in 0..random.below(5) {
        nodes.push(a_node(random, model))?;
    }
    Ok(nodes)
}
