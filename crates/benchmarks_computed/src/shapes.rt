//! The dags that values are computed along.
use crate::formula::{Formula, number};
use crate::random::Random;
use daggy::NodeIndex;
use std::alloc::{AllocError, Global};

/// The parents of a node, as `set_parents` takes them.
pub type Parents = Vec<(NodeIndex, ())>;

/// The formulas of the nodes, their parents, and the nodes that change in each round.
#[derive(Drop)]
pub struct Work {
    pub formulas: Vec<Formula>,
    pub parents: Vec<(NodeIndex, Parents)>,
    pub changed: Vec<NodeIndex>,
}

/// How the dag looks.
#[derive(Clone, Copy)]
pub enum Shape {
    /// Sums along a chain, whose first node changes.
    Chain,
    /// A number that changes, a test of it that gives 0 each time, and below that all other nodes.
    Fan,
    /// Sums along random edges. One node in a hundred changes.
    Sums,
    /// The same with the greatest value in place of the sum.
    Greatest,
}

fn node(n: u32) -> NodeIndex {
    NodeIndex::new(n as usize)
}

impl Shape {
    pub fn named(name: &str) -> Option<Shape> {
        match name {
            "chain" => Some(Shape::Chain),
            "fan" => Some(Shape::Fan),
            "sums" => Some(Shape::Sums),
            "greatest" => Some(Shape::Greatest),
            _ => None,
        }
    }

    // The formula of a node.
    fn formula(self, n: u32) -> Formula {
        match self {
            Shape::Fan if n == 1 => Formula::IsOver(1 << 40),
            Shape::Greatest => Formula::Greatest(number(n as usize, 0)),
            _ => Formula::Sum(number(n as usize, 0)),
        }
    }

    // The distance from one node that changes to the next. The first one is node 0.
    fn step(self, nodes: u32) -> u32 {
        match self {
            Shape::Chain | Shape::Fan => nodes,
            Shape::Sums | Shape::Greatest => 100,
        }
    }

    /// The work, with `nodes` nodes and, if they are random, `edges` edges.
    pub fn work(self, alloc: Global, nodes: u32, edges: u32) -> Result<Work, AllocError> {
        let mut formulas = Vec::new(alloc);
        let mut changed = Vec::new(alloc);
        for n in 0..nodes {
            formulas.push(self.formula(n))?;
            if n.checked_rem(self.step(nodes)) == Some(0) {
                changed.push(node(n))?;
            }
        }
        let parents = match self {
            Shape::Chain => chain_parents(alloc, nodes)?,
            Shape::Fan => fan_parents(alloc, nodes)?,
            Shape::Sums | Shape::Greatest => random_parents(alloc, nodes, edges)?,
        };
        Ok(Work {
            formulas,
            parents,
            changed,
        })
    }
}

// Each node below the one before it.
fn chain_parents(alloc: Global, nodes: u32) -> Result<Vec<(NodeIndex, Parents)>, AllocError> {
    let mut all = Vec::new(alloc);
    for n in 1..nodes {
        all.push((node(n), Vec::from_array(alloc, [(node(n - 1), ())])?))?;
    }
    Ok(all)
}

// The second node below the first, and all others below the second.
fn fan_parents(alloc: Global, nodes: u32) -> Result<Vec<(NodeIndex, Parents)>, AllocError> {
    let mut all = Vec::new(alloc);
    for n in 1..nodes {
        all.push((node(n), Vec::from_array(alloc, [(node(n.min(2) - 1), ())])?))?;
    }
    Ok(all)
}

// The numbers below `n`, shuffled.
fn shuffled(alloc: Global, random: &mut Random, n: u32) -> Result<Vec<u32>, AllocError> {
    let mut numbers = Vec::new(alloc);
    for i in 0..n {
        numbers.push(i)?;
    }
    for i in (1..n).rev() {
        let j = random.below(i + 1);
        if (i as usize) < numbers.len() && (j as usize) < numbers.len() {
            numbers.swap(i as usize, j as usize);
        }
    }
    Ok(numbers)
}

// Along a random order of the nodes, the same number of random parents for each.
fn random_parents(
    alloc: Global,
    nodes: u32,
    edges: u32,
) -> Result<Vec<(NodeIndex, Parents)>, AllocError> {
    let mut random = Random::new(1);
    let places = shuffled(alloc, &mut random, nodes)?;
    let mut all = Vec::new(alloc);
    for i in 1..nodes {
        let mut parents = Vec::new(alloc);
        for _ in 0..edges.checked_div(nodes).unwrap_or(0) {
            let parent = places.get(random.below(i) as usize).copied().unwrap_or(0);
            parents.push((node(parent), ()))?;
        }
        let child = places.get(i as usize).copied().unwrap_or(0);
        all.push((node(child), parents))?;
    }
    Ok(all)
}
