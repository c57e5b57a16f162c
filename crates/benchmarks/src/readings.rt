//! Dags that are gone through and copied.
use crate::builds::{build, sorted};
use crate::figures::{Figures, median, since};
use crate::graph::{Graph, Kind, mixed};
use crate::inputs::{Sizes, random_pairs};
use std::io;
use std::rt::CpuClock;

/// How a dag is gone through, `rounds` times.
#[derive(Clone, Copy)]
pub enum Reading {
    /// All children of each node, step by step.
    WalkChildren,
    /// The same by an iterator.
    FoldChildren,
    /// The first three children with an even index of each node, by adapters of walkers.
    TakeEven,
    /// All edges.
    EdgeList,
}

fn walk_children<G: Graph>(dag: &G, nodes: u32) -> u64 {
    let mut sum = 0u64;
    for i in 0..nodes {
        sum = sum.wrapping_add(dag.walked(i));
    }
    sum
}

fn fold_children<G: Graph>(dag: &G, nodes: u32) -> u64 {
    let mut sum = 0u64;
    for i in 0..nodes {
        sum = sum.wrapping_add(dag.folded(i));
    }
    sum
}

fn take_even<G: Graph>(dag: &G, nodes: u32) -> u64 {
    let mut sum = 0u64;
    for i in 0..nodes {
        sum = sum.wrapping_add(dag.first_even(i));
    }
    sum
}

impl Reading {
    fn sum<G: Kind>(self, dag: &G, nodes: u32) -> u64 {
        match self {
            Reading::WalkChildren => walk_children(dag, nodes),
            Reading::FoldChildren => fold_children(dag, nodes),
            Reading::TakeEven => take_even(dag, nodes),
            Reading::EdgeList => dag.edge_sum(),
        }
    }
}

pub fn read<G: Kind, R: AllocGlobal + CpuClock>(
    rt: &R,
    reading: Reading,
    sizes: Sizes,
) -> io::Result<Figures> {
    let dag = sorted::<G>(rt.alloc(), sizes)?;
    median(rt.alloc(), sizes.reps, || {
        let start = rt.process_cpu_time()?;
        let mut check = 0u64;
        for _ in 0..sizes.rounds {
            check = check.wrapping_add(reading.sum(&dag, sizes.nodes));
        }
        let time = since(rt, start)?;
        Ok(Figures { time, check })
    })
}

/// Looking for each edge by its ends.
pub fn find_edges<G: Graph, R: AllocGlobal + CpuClock>(
    rt: &R,
    sizes: Sizes,
) -> io::Result<Figures> {
    let pairs = random_pairs(rt.alloc(), sizes)?;
    let dag = build::<G>(rt.alloc(), sizes.nodes, pairs.as_slice())?;
    median(rt.alloc(), sizes.reps, || {
        let start = rt.process_cpu_time()?;
        let mut check = 0u64;
        for (a, b) in pairs.as_slice() {
            check = mixed(check, dag.found(*a, *b));
        }
        let time = since(rt, start)?;
        Ok(Figures { time, check })
    })
}

/// Making a dag with other weights.
pub fn map_weights<G: Kind, R: AllocGlobal + CpuClock>(
    rt: &R,
    sizes: Sizes,
) -> io::Result<Figures> {
    let dag = sorted::<G>(rt.alloc(), sizes)?;
    median(rt.alloc(), sizes.reps, || {
        let start = rt.process_cpu_time()?;
        let other = dag.plus_one()?;
        let time = since(rt, start)?;
        let check = other.edge_sum();
        Ok(Figures { time, check })
    })
}

pub fn copy<G: Kind, R: AllocGlobal + CpuClock>(rt: &R, sizes: Sizes) -> io::Result<Figures> {
    let dag = sorted::<G>(rt.alloc(), sizes)?;
    median(rt.alloc(), sizes.reps, || {
        let start = rt.process_cpu_time()?;
        let other = dag.copy()?;
        let time = since(rt, start)?;
        let check = other.edge_sum();
        Ok(Figures { time, check })
    })
}
