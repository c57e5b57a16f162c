//! Dags that are made of lists of edges.
use crate::figures::{Figures, median, since};
use crate::graph::{Graph, Kind, mixed, weight_of};
use crate::inputs::{
    Pairs, Sizes, low_high_pairs, mixed_pairs, older_pairs, random_pairs, sorted_pairs,
};
use crate::random::Random;
use std::alloc::{AllocError, Global};
use std::io;
use std::rt::CpuClock;

/// How the edges of a dag are chosen.
#[derive(Clone, Copy)]
pub enum Input {
    Random,
    LowHigh,
    Sorted,
    Older,
    Mixed,
}

impl Input {
    fn pairs(self, alloc: Global, sizes: Sizes) -> Result<Pairs, AllocError> {
        match self {
            Input::Random => random_pairs(alloc, sizes),
            Input::LowHigh => low_high_pairs(alloc, sizes),
            Input::Sorted => sorted_pairs(alloc, sizes),
            Input::Older => older_pairs(alloc, sizes),
            Input::Mixed => mixed_pairs(alloc, sizes),
        }
    }
}

/// A dag without edges.
fn nodes_alone<G: Graph>(alloc: Global, nodes: u32) -> Result<G, AllocError> {
    let mut dag = G::make(alloc);
    for i in 0..nodes {
        let _n = dag.put_node(i64::from(i))?;
    }
    Ok(dag)
}

// Adds edges one by one, and returns how many were rejected.
fn put_pairs<G: Graph>(dag: &mut G, pairs: &[(u32, u32)]) -> u64 {
    let mut refused = 0u64;
    for (i, (a, b)) in pairs.iter().enumerate() {
        if dag.put_edge(*a, *b, weight_of(i)).is_none() {
            refused = refused.wrapping_add(1);
        }
    }
    refused
}

/// A dag with `nodes` nodes and these edges, added one at a time.
pub fn build<G: Graph>(alloc: Global, nodes: u32, pairs: &[(u32, u32)]) -> Result<G, AllocError> {
    let mut dag = nodes_alone::<G>(alloc, nodes)?;
    let _refused = put_pairs(&mut dag, pairs);
    Ok(dag)
}

/// The dag of the edges that are sorted by parent and child.
pub fn sorted<G: Graph>(alloc: Global, sizes: Sizes) -> Result<G, AllocError> {
    let pairs = sorted_pairs(alloc, sizes)?;
    build::<G>(alloc, sizes.nodes, pairs.as_slice())
}

/// Adding the nodes, and the edges one by one.
pub fn timed_build<G: Kind, R: AllocGlobal + CpuClock>(
    rt: &R,
    input: Input,
    sizes: Sizes,
) -> io::Result<Figures> {
    let pairs = input.pairs(rt.alloc(), sizes)?;
    median(rt.alloc(), sizes.reps, || {
        let start = rt.process_cpu_time()?;
        let mut dag = nodes_alone::<G>(rt.alloc(), sizes.nodes)?;
        let refused = put_pairs(&mut dag, pairs.as_slice());
        let time = since(rt, start)?;
        let check = mixed(dag.edge_sum(), refused);
        Ok(Figures { time, check })
    })
}

/// Adding all edges by one call.
pub fn add_edges<G: Kind, R: AllocGlobal + CpuClock>(rt: &R, sizes: Sizes) -> io::Result<Figures> {
    let pairs = random_pairs(rt.alloc(), sizes)?;
    median(rt.alloc(), sizes.reps, || {
        let mut dag = nodes_alone::<G>(rt.alloc(), sizes.nodes)?;
        let start = rt.process_cpu_time()?;
        dag.put_edges(pairs.as_slice())?;
        let time = since(rt, start)?;
        let check = dag.edge_sum();
        Ok(Figures { time, check })
    })
}

// A tree in which each node is the child of a random one before it.
fn tree<G: Graph>(alloc: Global, nodes: u32) -> Result<G, AllocError> {
    let mut random = Random::new(1);
    let mut dag = G::make(alloc);
    let _root = dag.put_node(0)?;
    for i in 1..nodes {
        dag.put_child(random.below(i), i64::from(i))?;
    }
    Ok(dag)
}

/// Adding each node as a child.
pub fn add_child_tree<G: Kind, R: AllocGlobal + CpuClock>(
    rt: &R,
    sizes: Sizes,
) -> io::Result<Figures> {
    median(rt.alloc(), sizes.reps, || {
        let start = rt.process_cpu_time()?;
        let dag = tree::<G>(rt.alloc(), sizes.nodes)?;
        let time = since(rt, start)?;
        let check = dag.edge_sum();
        Ok(Figures { time, check })
    })
}

/// Updating edges that exist, each once.
pub fn update_edges<G: Kind, R: AllocGlobal + CpuClock>(
    rt: &R,
    sizes: Sizes,
) -> io::Result<Figures> {
    let pairs = sorted_pairs(rt.alloc(), sizes)?;
    let built = build::<G>(rt.alloc(), sizes.nodes, pairs.as_slice())?;
    median(rt.alloc(), sizes.reps, || {
        let mut dag = built.copy()?;
        let start = rt.process_cpu_time()?;
        let mut check = 0u64;
        for (a, b) in pairs.as_slice() {
            if let Some(e) = dag.put_update(*a, *b, 7) {
                check = mixed(check, e as u64);
            }
        }
        let time = since(rt, start)?;
        Ok(Figures { time, check })
    })
}

/// The older nodes that new ones lead to.
#[derive(Clone, Copy)]
pub enum Older {
    /// The one before.
    Last,
    /// The first.
    First,
}

// The nodes, and an edge from each to an older one.
fn backward<G: Graph>(alloc: Global, older: Older, nodes: u32) -> Result<G, AllocError> {
    let mut dag = nodes_alone::<G>(alloc, nodes)?;
    for i in 1..nodes {
        let child = match older {
            Older::Last => i - 1,
            Older::First => 0,
        };
        let _e = dag.put_edge(i, child, 1);
    }
    Ok(dag)
}

/// Adding the nodes, and then an edge from each to an older one.
pub fn build_backward<G: Kind, R: AllocGlobal + CpuClock>(
    rt: &R,
    older: Older,
    sizes: Sizes,
) -> io::Result<Figures> {
    median(rt.alloc(), sizes.reps, || {
        let start = rt.process_cpu_time()?;
        let dag = backward::<G>(rt.alloc(), older, sizes.nodes)?;
        let time = since(rt, start)?;
        let check = (dag.edges() as u64).wrapping_add(dag.walked(1));
        Ok(Figures { time, check })
    })
}
