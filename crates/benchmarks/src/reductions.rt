//! Dags that are reduced.
use crate::builds::build;
use crate::figures::{Figures, median, since};
use crate::graph::{Graph, Kind, node};
use crate::inputs::{
    Layers, Pairs, Sizes, chain_pairs, complete_pairs, diamond_pairs, layered_pairs, local_pairs,
    low_high_pairs,
};
use daggy::{Dag, NodeIndex, same_reachability};
use std::alloc::{AllocError, Global};
use std::io;
use std::rt::CpuClock;

/// What a dag that is reduced below all its nodes is like.
#[derive(Clone, Copy)]
pub enum Shape {
    Random,
    Local,
    Chain,
    Complete,
    Diamonds,
}

impl Shape {
    fn pairs(self, alloc: Global, sizes: Sizes) -> Result<Pairs, AllocError> {
        match self {
            Shape::Random => low_high_pairs(alloc, sizes),
            Shape::Local => local_pairs(alloc, sizes),
            Shape::Chain => chain_pairs(alloc, sizes),
            Shape::Complete => complete_pairs(alloc, sizes),
            Shape::Diamonds => diamond_pairs(alloc, sizes),
        }
    }
}

// The first nodes.
fn first_nodes(alloc: Global, count: u32) -> Result<Vec<NodeIndex<u32>>, AllocError> {
    let mut nodes = Vec::new(alloc);
    for i in 0..count {
        nodes.push(node(i))?;
    }
    Ok(nodes)
}

// Reducing the dag of these edges below its first nodes.
fn reduce<G: Kind, R: AllocGlobal + CpuClock>(
    rt: &R,
    sizes: Sizes,
    pairs: &[(u32, u32)],
    roots: u32,
) -> io::Result<Figures> {
    let built = build::<G>(rt.alloc(), sizes.nodes, pairs)?;
    median(rt.alloc(), sizes.reps, || {
        let mut dag = built.copy()?;
        let start = rt.process_cpu_time()?;
        let roots = first_nodes(rt.alloc(), roots)?;
        dag.reduce(roots)?;
        let time = since(rt, start)?;
        let check = dag.edges() as u64;
        Ok(Figures { time, check })
    })
}

/// Reduces layers of nodes: `sizes` has the number of layers, and the number of nodes in each.
pub fn reduce_layers<G: Kind, R: AllocGlobal + CpuClock>(
    rt: &R,
    sizes: Sizes,
) -> io::Result<Figures> {
    let layers = Layers {
        count: sizes.nodes,
        width: sizes.edges,
    };
    let pairs = layered_pairs(rt.alloc(), layers)?;
    let sizes = Sizes {
        nodes: layers.count.saturating_mul(layers.width),
        ..sizes
    };
    reduce::<G, R>(rt, sizes, pairs.as_slice(), layers.width)
}

/// Reducing a dag below all its nodes.
pub fn reduce_all<G: Kind, R: AllocGlobal + CpuClock>(
    rt: &R,
    shape: Shape,
    sizes: Sizes,
) -> io::Result<Figures> {
    let pairs = shape.pairs(rt.alloc(), sizes)?;
    reduce::<G, R>(rt, sizes, pairs.as_slice(), sizes.nodes)
}

/// Closing a random dag.
pub fn close<G: Kind, R: AllocGlobal + CpuClock>(rt: &R, sizes: Sizes) -> io::Result<Figures> {
    let pairs = low_high_pairs(rt.alloc(), sizes)?;
    let built = build::<G>(rt.alloc(), sizes.nodes, pairs.as_slice())?;
    median(rt.alloc(), sizes.reps, || {
        let mut dag = built.copy()?;
        let start = rt.process_cpu_time()?;
        let last = dag.closed(0, sizes.nodes.saturating_sub(1))?;
        let time = since(rt, start)?;
        let check = u64::from(last);
        Ok(Figures { time, check })
    })
}

/// Comparing the reachability of a random compact dag with that of its reduction.
pub fn compare<R: AllocGlobal + CpuClock>(rt: &R, sizes: Sizes) -> io::Result<Figures> {
    let pairs = low_high_pairs(rt.alloc(), sizes)?;
    let dag = build::<Dag<i64, i64, u32>>(rt.alloc(), sizes.nodes, pairs.as_slice())?;
    let mut reduced = dag.copy()?;
    reduced.reduce(first_nodes(rt.alloc(), sizes.nodes)?)?;
    median(rt.alloc(), sizes.reps, || {
        let start = rt.process_cpu_time()?;
        let same = same_reachability(&dag, &reduced)?;
        let time = since(rt, start)?;
        let check = u64::from(same);
        Ok(Figures { time, check })
    })
}
