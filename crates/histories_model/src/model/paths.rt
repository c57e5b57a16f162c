//! Which nodes reach which, and how far they are.
use super::Model;
use crate::calls::Way;
use std::alloc::AllocError;

impl Model {
    /// The nodes to which one edge leads from a node, or from which one leads to it, in list order.
    pub fn neighbors(&self, n: usize, way: Way) -> Result<Vec<usize>, AllocError> {
        let mut nodes = Vec::new(self.alloc);
        for e in self.list(n, way) {
            if let Some(other) = self.far_end(*e, way) {
                nodes.push(other)?;
            }
        }
        Ok(nodes)
    }

    /// The end of an edge to which it leads, or from which.
    pub fn far_end(&self, e: usize, way: Way) -> Option<usize> {
        let edge = self.edge(e)?;
        Some(match way {
            Way::Down => edge.child,
            Way::Up => edge.parent,
        })
    }

    /// For each node how many edges the shortest path from a node to it has, if there is a path.
    pub fn distances(&self, from: usize, way: Way) -> Result<Vec<Option<usize>>, AllocError> {
        let mut distances = Vec::new(self.alloc);
        distances.resize(self.nodes.len(), None)?;
        let mut queue = Vec::new(self.alloc);
        if self.has_node(from) {
            set(&mut distances, from, Some(0));
            queue.push(from)?;
        }
        for head in 0..self.nodes.len() {
            let Some(n) = queue.get(head).copied() else {
                break;
            };
            let Some(so_far) = at(&distances, n) else {
                break;
            };
            let neighbors = self.neighbors(n, way)?;
            for other in &neighbors {
                if at(&distances, *other).is_none() {
                    set(&mut distances, *other, Some(so_far.saturating_add(1)));
                    queue.push(*other)?;
                }
            }
        }
        Ok(distances)
    }

    /// Which nodes some nodes reach, by index.
    pub fn reached(&self, from: &[usize]) -> Result<Vec<bool>, AllocError> {
        let mut seen = Vec::new(self.alloc);
        seen.resize(self.nodes.len(), false)?;
        let mut stack = Vec::new(self.alloc);
        for n in from {
            if self.has_node(*n) && mark(&mut seen, *n) {
                stack.push(*n)?;
            }
        }
        for _ in 0..self.nodes.len() {
            let Some(n) = stack.pop() else {
                break;
            };
            for e in self.children_of(n) {
                if let Some(edge) = self.edge(*e) {
                    if mark(&mut seen, edge.child) {
                        stack.push(edge.child)?;
                    }
                }
            }
        }
        Ok(seen)
    }

    /// Whether a path leads from a node to another.
    pub fn reaches(&self, a: usize, b: usize) -> Result<bool, AllocError> {
        let seen = self.reached(&[a])?;
        Ok(flag(&seen, b))
    }

    /// Whether an edge closes a cycle.
    pub fn is_cyclic(&self) -> Result<bool, AllocError> {
        for edge in &self.edges {
            if let Some(edge) = edge {
                if self.reaches(edge.child, edge.parent)? {
                    return Ok(true);
                }
            }
        }
        Ok(false)
    }

    /// Whether a path of one or more edges leads from a node to another.
    pub fn descends(&self, a: usize, b: usize) -> Result<bool, AllocError> {
        Ok(a != b && self.reaches(a, b)?)
    }
}

/// What stands at an index.
pub fn at(list: &Vec<Option<usize>>, i: usize) -> Option<usize> {
    match list.get(i) {
        Some(item) => *item,
        None => None,
    }
}

fn set(list: &mut Vec<Option<usize>>, i: usize, value: Option<usize>) {
    if let Some(item) = list.get_mut(i) {
        *item = value;
    }
}

/// Whether an index is marked.
pub fn flag(seen: &Vec<bool>, i: usize) -> bool {
    seen.get(i).copied().unwrap_or(false)
}

/// Marks an index, and returns whether it was not marked before.
pub fn mark(seen: &mut Vec<bool>, i: usize) -> bool {
    match seen.get_mut(i) {
        Some(flag) => {
            let is_new = !*flag;
            *flag = true;
            is_new
        }
        None => false,
    }
}
