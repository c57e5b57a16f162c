//! Dags with indices and weights of other types.
use crate::figures::{Figures, median, since};
use crate::graph::{children_sum, weight_of};
use crate::inputs::{Sizes, random_pairs};
use daggy::graph::DiGraph;
use daggy::stable_graph::StableDiGraph;
use daggy::{Acyclic, IndexType, NodeIndex, Store};
use std::alloc::{AllocError, Global};
use std::io;
use std::rt::CpuClock;

/// What is of another type.
#[derive(Clone, Copy)]
pub enum Types {
    /// Indices of 16 bits. All children of each node are walked, ten times.
    ShortIndices,
    /// Indices of 64 bits. The same.
    WideIndices,
    /// Weights that own memory. They are copied, and the dag of the copies is built and dropped.
    Texts,
}

type Nodes<Ix> = Vec<NodeIndex<Ix>>;

// Adds nodes, and returns their indices.
fn add_nodes<W: Drop, Ix: IndexType, S: Store<Ix, NodeWeight = W, EdgeWeight = W>>(
    dag: &mut Acyclic<W, W, Ix, S>,
    weights: Vec<W>,
) -> Result<Nodes<Ix>, AllocError> {
    let mut nodes = Vec::new(dag.allocator());
    for weight in weights {
        if !dag.can_add_node() {
            return Err(AllocError);
        }
        match dag.add_node(weight) {
            Ok(n) => nodes.push(n)?,
            Err(_) => return Err(AllocError),
        }
    }
    Ok(nodes)
}

// Adds an edge from each first node of a pair to the second.
fn add_pairs<W: Drop, Ix: IndexType, S: Store<Ix, NodeWeight = W, EdgeWeight = W>>(
    dag: &mut Acyclic<W, W, Ix, S>,
    nodes: &[NodeIndex<Ix>],
    pairs: &[(u32, u32)],
    weights: Vec<W>,
) -> Result<(), AllocError> {
    for ((a, b), weight) in pairs.iter().zip(weights) {
        let (Some(a), Some(b)) = (nodes.get(*a as usize), nodes.get(*b as usize)) else {
            return Err(AllocError);
        };
        if !dag.contains_node(*a) || !dag.contains_node(*b) || !dag.can_add_edge() {
            return Err(AllocError);
        }
        if dag.add_edge(*a, *b, weight).is_err() {
            return Err(AllocError);
        }
    }
    Ok(())
}

fn numbers(alloc: Global, count: usize) -> Result<Vec<i64>, AllocError> {
    (0..count).map(weight_of).collect(alloc)
}

fn texts(alloc: Global, count: usize) -> Result<Vec<String>, AllocError> {
    let mut texts = Vec::new(alloc);
    for i in 0..count {
        texts.push(format!(in alloc; "{i}")?)?;
    }
    Ok(texts)
}

fn copies(alloc: Global, texts: &Vec<String>) -> Result<Vec<String>, AllocError> {
    let mut copies = Vec::new(alloc);
    copies.reserve(texts.len())?;
    for text in texts {
        copies.push(text.clone()?)?;
    }
    Ok(copies)
}

fn walk<Ix: IndexType, S: Store<Ix, NodeWeight = i64, EdgeWeight = i64>, R: AllocGlobal + CpuClock>(
    rt: &R,
    sizes: Sizes,
) -> io::Result<Figures> {
    let alloc = rt.alloc();
    let pairs = random_pairs(alloc, sizes)?;
    let mut dag: Acyclic<i64, i64, Ix, S> = Acyclic::new(alloc);
    let nodes = add_nodes(&mut dag, numbers(alloc, sizes.nodes as usize)?)?;
    let weights = numbers(alloc, pairs.len())?;
    add_pairs(&mut dag, nodes.as_slice(), pairs.as_slice(), weights)?;
    median(alloc, sizes.reps, || {
        let start = rt.process_cpu_time()?;
        let mut check = 0u64;
        for _ in 0..sizes.rounds {
            for n in nodes.as_slice() {
                check = check.wrapping_add(children_sum(&dag, *n));
            }
        }
        let time = since(rt, start)?;
        Ok(Figures { time, check })
    })
}

fn build_texts<S: Store<u32, NodeWeight = String, EdgeWeight = String>, R: AllocGlobal + CpuClock>(
    rt: &R,
    sizes: Sizes,
) -> io::Result<Figures> {
    let alloc = rt.alloc();
    let pairs = random_pairs(alloc, sizes)?;
    let node_texts = texts(alloc, sizes.nodes as usize)?;
    let edge_texts = texts(alloc, pairs.len())?;
    median(alloc, sizes.reps, || {
        let start = rt.process_cpu_time()?;
        let mut dag: Acyclic<String, String, u32, S> = Acyclic::new(alloc);
        let nodes = add_nodes(&mut dag, copies(alloc, &node_texts)?)?;
        let weights = copies(alloc, &edge_texts)?;
        add_pairs(&mut dag, nodes.as_slice(), pairs.as_slice(), weights)?;
        let check = dag.edge_count() as u64;
        drop(dag);
        let time = since(rt, start)?;
        Ok(Figures { time, check })
    })
}

impl Types {
    pub fn run<R: AllocGlobal + CpuClock>(
        self,
        rt: &R,
        stable: bool,
        sizes: Sizes,
    ) -> io::Result<Figures> {
        match (self, stable) {
            (Types::ShortIndices, false) => walk::<u16, DiGraph<i64, i64, u16>, R>(rt, sizes),
            (Types::ShortIndices, true) => walk::<u16, StableDiGraph<i64, i64, u16>, R>(rt, sizes),
            (Types::WideIndices, false) => walk::<usize, DiGraph<i64, i64, usize>, R>(rt, sizes),
            (Types::WideIndices, true) => {
                walk::<usize, StableDiGraph<i64, i64, usize>, R>(rt, sizes)
            }
            (Types::Texts, false) => build_texts::<DiGraph<String, String, u32>, R>(rt, sizes),
            (Types::Texts, true) => build_texts::<StableDiGraph<String, String, u32>, R>(rt, sizes),
        }
    }
}
