//! Questions about two nodes of a dag, or about the first of them.
use crate::builds::build;
use crate::figures::{Figures, median, since};
use crate::graph::{Graph, mixed};
use crate::inputs::{Pairs, Sizes, random_pairs};
use crate::random::Random;
use daggy::traversal::{Bfs, Dfs, DfsPostOrder};
use daggy::{Direction, NodeIndex, Store};
use std::alloc::{AllocError, Global};
use std::io;
use std::rt::CpuClock;

/// What is asked. The walks start from the first node.
#[derive(Clone, Copy)]
pub enum Question {
    /// Whether a path leads from the first node to the second.
    Reaches,
    /// A shortest path.
    Path,
    /// The descendants of the first node.
    Descendants,
    BreadthFirst,
    DepthFirst,
    Postorder,
}

impl Question {
    // The answer, as a number.
    fn answer<G: Graph>(
        self,
        alloc: Global,
        dag: &mut G,
        a: u32,
        b: u32,
    ) -> Result<u64, AllocError> {
        match self {
            Question::Reaches => Ok(u64::from(dag.leads(a, b))),
            Question::Path => Ok(list_sum(dag.shortest_path(a, b)?.as_slice())),
            Question::Descendants => Ok(set_sum(dag.below(a)?.as_slice())),
            Question::BreadthFirst => dag.breadth_first_sum(alloc, a),
            Question::DepthFirst => dag.depth_first_sum(alloc, a),
            Question::Postorder => dag.postorder_sum(alloc, a),
        }
    }
}

#[inline]
fn with_listed(sum: u64, n: NodeIndex<u32>) -> u64 {
    mixed(sum, n.index() as u64)
}

// In any order.
#[inline]
fn with_member(sum: u64, n: NodeIndex<u32>) -> u64 {
    let i = n.index() as u64;
    sum.wrapping_add(i.wrapping_mul(i)).wrapping_add(1)
}

fn list_sum(nodes: &[NodeIndex<u32>]) -> u64 {
    nodes.iter().fold(0u64, |sum, n| with_listed(sum, *n))
}

fn set_sum(nodes: &[NodeIndex<u32>]) -> u64 {
    nodes.iter().fold(0u64, |sum, n| with_member(sum, *n))
}

/// A number of the nodes that a walk breadth first visits, in their order.
pub fn breadth_first<S: Store<u32>>(
    alloc: Global,
    graph: &S,
    start: NodeIndex<u32>,
) -> Result<u64, AllocError> {
    let mut walk = Bfs::new(alloc, graph, start, Direction::Outgoing)?;
    let mut sum = 0u64;
    'walk: while let Some(n) = walk.next(graph) {
        sum = with_listed(sum, n);
    }
    Ok(sum)
}

/// A number of the nodes that a walk depth first visits. Another program may visit them in another
/// order.
pub fn depth_first<S: Store<u32>>(
    alloc: Global,
    graph: &S,
    start: NodeIndex<u32>,
) -> Result<u64, AllocError> {
    let mut walk = Dfs::new(alloc, graph, start, Direction::Outgoing)?;
    let mut sum = 0u64;
    'walk: while let Some(n) = walk.next(graph) {
        sum = with_member(sum, n);
    }
    Ok(sum)
}

/// The same of a walk in postorder.
pub fn in_postorder<S: Store<u32>>(
    alloc: Global,
    graph: &S,
    start: NodeIndex<u32>,
) -> Result<u64, AllocError> {
    let mut walk = DfsPostOrder::new(alloc, graph, start, Direction::Outgoing)?;
    let mut sum = 0u64;
    'walk: while let Some(n) = walk.next(graph) {
        sum = with_member(sum, n);
    }
    Ok(sum)
}

// The nodes that the questions are about.
fn asked_pairs(alloc: Global, nodes: u32) -> Result<Pairs, AllocError> {
    let mut random = Random::new(2);
    let mut pairs = Vec::new(alloc);
    if nodes == 0 {
        return Ok(pairs);
    }
    for _ in 0..100u8 {
        let a = random.below(nodes);
        let b = random.below(nodes);
        pairs.push((a, b))?;
    }
    Ok(pairs)
}

/// Asking a question about each of 100 random pairs of nodes.
pub fn ask<G: Graph, R: AllocGlobal + CpuClock>(
    rt: &R,
    question: Question,
    sizes: Sizes,
) -> io::Result<Figures> {
    let pairs = random_pairs(rt.alloc(), sizes)?;
    let mut dag = build::<G>(rt.alloc(), sizes.nodes, pairs.as_slice())?;
    let asked = asked_pairs(rt.alloc(), sizes.nodes)?;
    median(rt.alloc(), sizes.reps, || {
        let start = rt.process_cpu_time()?;
        let mut check = 0u64;
        for (a, b) in asked.as_slice() {
            check = mixed(check, question.answer(rt.alloc(), &mut dag, *a, *b)?);
        }
        let time = since(rt, start)?;
        Ok(Figures { time, check })
    })
}
