//! Lists of nodes.
use super::Model;
use super::paths::{flag, mark};
use crate::answer::Answer;
use crate::calls::{Walk, Way};
use std::alloc::AllocError;

// A search, depth first.
#[derive(Drop)]
struct DepthFirst {
    seen: Vec<bool>,
    before: Vec<usize>,
    after: Vec<usize>,
    // The nodes from the first one to the current one, each with its neighbors that are left.
    stack: Vec<(usize, Vec<usize>)>,
}

impl DepthFirst {
    fn go(&mut self, model: &Model, n: usize, way: Way) -> Result<(), AllocError> {
        self.seen.resize(model.nodes.len(), false)?;
        if model.has_node(n) {
            self.enter(model, n, way)?;
        }
        let steps = model.nodes.len().saturating_add(model.edges.len());
        for _ in 0..steps {
            self.step(model, way)?;
        }
        Ok(())
    }

    // Goes on from the current node, or back from it.
    fn step(&mut self, model: &Model, way: Way) -> Result<(), AllocError> {
        let Some((n, mut rest)) = self.stack.pop() else {
            return Ok(());
        };
        match rest.pop() {
            Some(other) => {
                self.stack.push((n, rest))?;
                self.enter(model, other, way)
            }
            None => Ok(self.after.push(n)?),
        }
    }

    // Enters a node for the first time.
    fn enter(&mut self, model: &Model, n: usize, way: Way) -> Result<(), AllocError> {
        if mark(&mut self.seen, n) {
            self.before.push(n)?;
            self.stack.push((n, model.neighbors_reversed(n, way)?))?;
        }
        Ok(())
    }
}

impl Model {
    /// A list of nodes. If several orders of them are right, it is in any order.
    pub(super) fn walk(&self, walk: &Walk) -> Result<Answer, AllocError> {
        Ok(Answer::Indices(match walk {
            Walk::TopologicalOrder => self.existing()?,
            Walk::Descendants(nodes) => self.relatives(nodes.as_slice(), Way::Down, false)?,
            Walk::Ancestors(nodes) => self.relatives(nodes.as_slice(), Way::Up, false)?,
            Walk::Affected(nodes) => self.relatives(nodes.as_slice(), Way::Down, true)?,
            Walk::Bfs(n, way) => self.breadth_first(*n, *way)?,
            Walk::Dfs(n, way) => self.depth_first(*n, *way)?.0,
            Walk::DfsPostOrder(n, way) => self.depth_first(*n, *way)?.1,
        }))
    }

    // The nodes that some nodes reach, or from which they are reached.
    fn relatives(
        &self,
        nodes: &[usize],
        way: Way,
        with_them: bool,
    ) -> Result<Vec<usize>, AllocError> {
        let mut is_found = Vec::new(self.alloc);
        is_found.resize(self.nodes.len(), false)?;
        for n in nodes {
            for (other, distance) in self.distances(*n, way)?.iter().enumerate() {
                if distance.is_some() && (with_them || other != *n) {
                    mark(&mut is_found, other);
                }
            }
        }
        let mut found = self.existing()?;
        found.retain(|n| flag(&is_found, *n));
        Ok(found)
    }

    // The nodes that a node reaches, by distance, and of those at equal distance by index.
    fn breadth_first(&self, n: usize, way: Way) -> Result<Vec<usize>, AllocError> {
        let distances = self.distances(n, way)?;
        let mut nodes = Vec::new(self.alloc);
        for (other, distance) in distances.iter().enumerate() {
            if let Some(distance) = *distance {
                nodes.push((distance, other))?;
            }
        }
        nodes.sort()?;
        let mut found = Vec::new(self.alloc);
        for (_, other) in &nodes {
            found.push(*other)?;
        }
        Ok(found)
    }

    // The nodes that a node reaches, depth first: in preorder and in postorder.
    fn depth_first(&self, n: usize, way: Way) -> Result<(Vec<usize>, Vec<usize>), AllocError> {
        let mut search = DepthFirst {
            seen: Vec::new(self.alloc),
            before: Vec::new(self.alloc),
            after: Vec::new(self.alloc),
            stack: Vec::new(self.alloc),
        };
        search.go(self, n, way)?;
        Ok((search.before, search.after))
    }

    fn neighbors_reversed(&self, n: usize, way: Way) -> Result<Vec<usize>, AllocError> {
        let mut nodes = self.neighbors(n, way)?;
        nodes.reverse();
        Ok(nodes)
    }
}
