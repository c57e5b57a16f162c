//! What the workloads are run on, the same for every program that times them.
use crate::random::Random;
use daggy_base::index::NodeIndex;
use daggy_base::store::Store;
use std::alloc::{AllocError, Global};

/// How large a graph is, and how often its workload is run.
#[derive(Clone, Copy)]
pub struct Sizes {
    pub nodes: u32,
    pub edges: u32,
    pub reps: u32,
}

// How many nodes a group has.
const GROUP: u32 = 10;

/// How the edges are chosen.
#[derive(Clone, Copy)]
pub enum Shape {
    /// Between any two nodes.
    Mixed,
    /// Half of them between nodes of a group, and the others to nodes that are no lower.
    Grouped,
    /// From lower nodes to higher ones.
    Acyclic,
}

impl Shape {
    /// The parts of a name: what stands before the shape, and the shape.
    pub fn split(name: &str) -> Option<(&str, Shape)> {
        if let Some(question) = name.strip_suffix("_mixed") {
            return Some((question, Shape::Mixed));
        }
        if let Some(question) = name.strip_suffix("_grouped") {
            return Some((question, Shape::Grouped));
        }
        let question = name.strip_suffix("_acyclic")?;
        Some((question, Shape::Acyclic))
    }

    // The ends of one more edge, if they are chosen well.
    fn pair(self, random: &mut Random, nodes: u32) -> Option<(u32, u32)> {
        if nodes == 0 {
            return None;
        }
        let a = random.below(nodes);
        let b = random.below(nodes);
        match self {
            Shape::Mixed => Some((a, b)),
            Shape::Grouped if random.below(2) == 0 => {
                let first = a - a % GROUP;
                Some((a, first.saturating_add(b % GROUP).min(nodes - 1)))
            }
            Shape::Grouped => Some((a.min(b), a.max(b))),
            Shape::Acyclic if a == b => None,
            Shape::Acyclic => Some((a.min(b), a.max(b))),
        }
    }
}

// Adds a node with its index as its weight. The error says that it was refused.
fn put_node<S>(graph: &mut S, i: u32) -> Result<(), AllocError>
where
    S: Store<u32, NodeWeight = i64, EdgeWeight = i64>,
{
    if !graph.can_add_node() || graph.add_node(i64::from(i)).is_err() {
        return Err(AllocError);
    }
    Ok(())
}

// Adds an edge with its index as its weight. The error says that it was refused.
fn put_edge<S>(graph: &mut S, a: u32, b: u32, i: u32) -> Result<(), AllocError>
where
    S: Store<u32, NodeWeight = i64, EdgeWeight = i64>,
{
    let (a, b) = (NodeIndex::new(a as usize), NodeIndex::new(b as usize));
    if !graph.contains_node(a) || !graph.contains_node(b) || !graph.can_add_edge() {
        return Err(AllocError);
    }
    if graph.add_edge(a, b, i64::from(i)).is_err() {
        return Err(AllocError);
    }
    Ok(())
}

/// A graph with edges that are chosen so. If too few can be, it has fewer.
pub fn build<S>(alloc: Global, shape: Shape, sizes: Sizes) -> Result<S, AllocError>
where
    S: Store<u32, NodeWeight = i64, EdgeWeight = i64>,
{
    let mut random = Random::new(1);
    let mut graph = S::new(alloc);
    for i in 0..sizes.nodes {
        put_node(&mut graph, i)?;
    }
    let mut count = 0u32;
    for _ in 0..u64::MAX {
        if count >= sizes.edges || sizes.nodes < 2 {
            break;
        }
        if let Some((a, b)) = shape.pair(&mut random, sizes.nodes) {
            put_edge(&mut graph, a, b, count)?;
            count += 1;
        }
    }
    Ok(graph)
}
