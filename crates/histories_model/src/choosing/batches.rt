//! Random batches.
use super::{Size, Style, a_node, a_pair, a_weight, some_nodes};
use crate::calls::{Batch, Line, Part};
use crate::model::Model;
use crate::random::Random;
use std::alloc::{AllocError, Global};

/// A random batch.
pub fn choose_batch(
    alloc: Global,
    random: &mut Random,
    model: &Model,
    style: Style,
) -> Result<Batch, AllocError> {
    Ok(match random.below(100) {
        0..=39 => Batch::AddEdges(some_lines(alloc, random, model)?),
        40..=49 => Batch::ExtendWithEdges(extending_lines(alloc, random, model, style)?),
        50..=52 => Batch::FromEdges(new_lines(alloc, random, model.limit)?),
        53..=55 => Batch::FromElements(some_parts(alloc, random)?),
        56..=80 => {
            let mut items = Vec::new(alloc);
            let n = a_node(random, model);
            for _ in 0..random.below(5) {
                let (a, b) = a_pair(random, model)?;
                let parent = if a == n { b } else { a };
                items.push((parent, a_weight(random)))?;
            }
            Batch::SetParents(n, items)
        }
        81..=83 => Batch::RetainNodes(random.next()),
        84..=88 => Batch::RetainEdges(random.next()),
        _ if random.once_in(2) => Batch::TransitiveReduce(some_nodes(alloc, random, model)?),
        _ => Batch::TransitiveReduceAll,
    })
}

// Edges between nodes. Two in three lists agree with an order of the nodes, except for an edge now
// and then.
fn some_lines(alloc: Global, random: &mut Random, model: &Model) -> Result<Vec<Line>, AllocError> {
    let most = if random.once_in(12) { 80 } else { 9 };
    let order = if random.once_in(3) {
        Vec::new(alloc)
    } else {
        model.order_by(random.next())?
    };
    let mut lines = Vec::new(alloc);
    for _ in 0..random.below(most) {
        let (mut a, mut b) = (a_node(random, model), a_node(random, model));
        if !order.is_empty() && !random.once_in(200) {
            let (i, j) = (random.below(order.len()), random.below(order.len()));
            if i != j {
                a = order.get(i.min(j)).copied().unwrap_or(a);
                b = order.get(i.max(j)).copied().unwrap_or(b);
            }
        }
        lines.push((a, b, a_weight(random)))?;
    }
    Ok(lines)
}

// Edges, some of which need new nodes.
fn extending_lines(
    alloc: Global,
    random: &mut Random,
    model: &Model,
    style: Style,
) -> Result<Vec<Line>, AllocError> {
    let mut lines = Vec::new(alloc);
    for _ in 0..random.below(5) {
        let (a, mut b) = a_pair(random, model)?;
        if random.once_in(3) {
            b = model.nodes.len().saturating_add(random.below(3));
        }
        if random.once_in(30) {
            b = model.limit;
        } else if style.size == Size::Full && random.once_in(8) {
            b = model.limit.saturating_sub(random.below(6));
        }
        lines.push((a, b, a_weight(random)))?;
    }
    Ok(lines)
}

// Edges of a new dag.
fn new_lines(alloc: Global, random: &mut Random, limit: usize) -> Result<Vec<Line>, AllocError> {
    let mut lines = Vec::new(alloc);
    for _ in 0..random.below(12) {
        let (a, b) = (random.below(10), random.below(10));
        let (a, b) = if random.once_in(16) {
            (a, b)
        } else {
            (a.min(b), a.max(b).saturating_add(1))
        };
        let b = if random.once_in(80) { limit } else { b };
        lines.push((a, b, a_weight(random)))?;
    }
    Ok(lines)
}

/// Many edges of a new dag.
pub fn many_lines(alloc: Global, random: &mut Random) -> Result<Vec<Line>, AllocError> {
    let nodes = 100usize.saturating_add(random.below(150));
    let mut lines = Vec::new(alloc);
    for _ in 0..random.below(250) {
        let (a, b) = (random.below(nodes), random.below(nodes));
        lines.push((a.min(b), a.max(b).saturating_add(1), a_weight(random)))?;
    }
    Ok(lines)
}

// Nodes and edges between them.
fn some_parts(alloc: Global, random: &mut Random) -> Result<Vec<Part>, AllocError> {
    let mut parts = Vec::new(alloc);
    let mut nodes = 0usize;
    for _ in 0..random.below(24) {
        if nodes < 2 || random.once_in(3) {
            parts.push(Part::Node(a_weight(random)))?;
            nodes = nodes.saturating_add(1);
            continue;
        }
        let (a, b) = (random.below(nodes), random.below(nodes));
        let (a, b) = if random.once_in(40) {
            (a, nodes)
        } else if random.once_in(40) {
            (a, b)
        } else if a == b {
            continue;
        } else {
            (a.min(b), a.max(b))
        };
        parts.push(Part::Edge(a, b, a_weight(random)))?;
    }
    Ok(parts)
}
