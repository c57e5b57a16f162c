//! What the workloads are run on, the same for every program that times them.
use crate::random::Random;
use std::alloc::{AllocError, Global};

/// How large a graph is, how often its workload is run, and how often a run goes through the graph.
#[derive(Clone, Copy)]
pub struct Sizes {
    pub nodes: u32,
    pub edges: u32,
    pub reps: u32,
    pub rounds: u32,
}

/// The parents and the children of edges.
pub type Pairs = Vec<(u32, u32)>;

/// The numbers below `n`, shuffled.
pub fn shuffled(alloc: Global, random: &mut Random, n: u32) -> Result<Vec<u32>, AllocError> {
    let mut numbers = Vec::new(alloc);
    for i in 0..n {
        numbers.push(i)?;
    }
    for i in (1..n).rev() {
        let j = random.below(i + 1);
        if (i as usize) < numbers.len() && (j as usize) < numbers.len() {
            numbers.swap(i as usize, j as usize);
        }
    }
    Ok(numbers)
}

// Random pairs of different numbers, the lesser first.
fn ordered(alloc: Global, random: &mut Random, sizes: Sizes) -> Result<Pairs, AllocError> {
    let mut pairs = Vec::new(alloc);
    if sizes.nodes < 2 {
        return Ok(pairs);
    }
    for _ in 0..u64::MAX {
        if pairs.len() >= sizes.edges as usize {
            break;
        }
        let i = random.below(sizes.nodes);
        let j = random.below(sizes.nodes);
        if i != j {
            pairs.push((i.min(j), i.max(j)))?;
        }
    }
    Ok(pairs)
}

/// Edges along a random order of the nodes, in random order.
pub fn random_pairs(alloc: Global, sizes: Sizes) -> Result<Pairs, AllocError> {
    let mut random = Random::new(1);
    let place = shuffled(alloc, &mut random, sizes.nodes)?;
    let mut pairs = Vec::new(alloc);
    for (i, j) in ordered(alloc, &mut random, sizes)? {
        let parent = place.get(i as usize).copied().unwrap_or(0);
        let child = place.get(j as usize).copied().unwrap_or(0);
        pairs.push((parent, child))?;
    }
    Ok(pairs)
}

/// Edges from lower nodes to higher ones, in random order.
pub fn low_high_pairs(alloc: Global, sizes: Sizes) -> Result<Pairs, AllocError> {
    ordered(alloc, &mut Random::new(1), sizes)
}

/// Edges from lower nodes to higher ones, by ascending parent and child.
pub fn sorted_pairs(alloc: Global, sizes: Sizes) -> Result<Pairs, AllocError> {
    let mut pairs = low_high_pairs(alloc, sizes)?;
    pairs.sort()?;
    Ok(pairs)
}

/// Edges from each node in turn to older ones, as where each depends on what was there before it.
pub fn older_pairs(alloc: Global, sizes: Sizes) -> Result<Pairs, AllocError> {
    let mut random = Random::new(1);
    let mut pairs = Vec::new(alloc);
    for i in 1..sizes.nodes {
        for _ in 0..sizes.edges / sizes.nodes {
            pairs.push((i, random.below(i)))?;
        }
    }
    Ok(pairs)
}

/// Edges between any two nodes. About half of them close a cycle.
pub fn mixed_pairs(alloc: Global, sizes: Sizes) -> Result<Pairs, AllocError> {
    let mut random = Random::new(1);
    let mut pairs = Vec::new(alloc);
    if sizes.nodes == 0 {
        return Ok(pairs);
    }
    for _ in 0..sizes.edges {
        let parent = random.below(sizes.nodes);
        let child = random.below(sizes.nodes);
        pairs.push((parent, child))?;
    }
    Ok(pairs)
}

/// Edges that lead at most 50 nodes on.
pub fn local_pairs(alloc: Global, sizes: Sizes) -> Result<Pairs, AllocError> {
    let mut random = Random::new(1);
    let mut pairs = Vec::new(alloc);
    if sizes.nodes < 2 {
        return Ok(pairs);
    }
    let last = sizes.nodes - 1;
    for _ in 0..sizes.edges {
        let parent = random.below(last);
        let span = last.saturating_sub(parent).clamp(1, 50);
        let child = parent.saturating_add(1).saturating_add(random.below(span));
        pairs.push((parent, child))?;
    }
    Ok(pairs)
}

/// An edge from each node to the next.
pub fn chain_pairs(alloc: Global, sizes: Sizes) -> Result<Pairs, AllocError> {
    let mut pairs = Vec::new(alloc);
    for child in 1..sizes.nodes {
        pairs.push((child - 1, child))?;
    }
    Ok(pairs)
}

/// An edge from each node to all later ones.
pub fn complete_pairs(alloc: Global, sizes: Sizes) -> Result<Pairs, AllocError> {
    let mut pairs = Vec::new(alloc);
    for child in 1..sizes.nodes {
        for parent in 0..child {
            pairs.push((parent, child))?;
        }
    }
    Ok(pairs)
}

/// Diamonds of four nodes one after another, each beginning where the one before ends.
pub fn diamond_pairs(alloc: Global, sizes: Sizes) -> Result<Pairs, AllocError> {
    let mut pairs = Vec::new(alloc);
    for k in 0..sizes.nodes.saturating_sub(1) / 3 {
        let top = k.saturating_mul(3);
        let (left, right) = (top.saturating_add(1), top.saturating_add(2));
        let bottom = top.saturating_add(3);
        pairs.push((top, left))?;
        pairs.push((top, right))?;
        pairs.push((left, bottom))?;
        pairs.push((right, bottom))?;
    }
    Ok(pairs)
}

/// How many layers there are, and how many nodes each has.
#[derive(Clone, Copy)]
pub struct Layers {
    pub count: u32,
    pub width: u32,
}

impl Layers {
    // The node at a place of a layer.
    fn node(self, layer: u32, place: u32) -> u32 {
        layer.wrapping_mul(self.width).wrapping_add(place)
    }
}

// The edges from a node of a layer to the next two layers: each that there can be to the first with
// a chance of one half, and to the second of one quarter.
fn put_layer_edges(
    pairs: &mut Pairs,
    random: &mut Random,
    layers: Layers,
    layer: u32,
    place: u32,
) -> Result<(), AllocError> {
    let behind = layers.count.saturating_sub(layer);
    let parent = layers.node(layer, place);
    for other in 0..layers.width {
        if behind > 1 && random.below(2) == 0 {
            pairs.push((parent, layers.node(layer.wrapping_add(1), other)))?;
        }
        if behind > 2 && random.below(4) == 0 {
            pairs.push((parent, layers.node(layer.wrapping_add(2), other)))?;
        }
    }
    Ok(())
}

/// Edges between layers of nodes, in random order.
pub fn layered_pairs(alloc: Global, layers: Layers) -> Result<Pairs, AllocError> {
    let mut random = Random::new(1);
    let mut pairs = Vec::new(alloc);
    for layer in 0..layers.count {
        for place in 0..layers.width {
            put_layer_edges(&mut pairs, &mut random, layers, layer, place)?;
        }
    }
    let count = (pairs.len() & 0xffff_ffff) as u32;
    let mut mixed = Vec::new(alloc);
    for i in shuffled(alloc, &mut random, count)? {
        mixed.push(pairs.get(i as usize).copied().unwrap_or((0, 0)))?;
    }
    Ok(mixed)
}
