//! What is asked of paths.
use super::Model;
use super::paths::at;
use crate::answer::Answer;
use crate::calls::{Search, Way, keeps};
use std::alloc::AllocError;

impl Model {
    pub(super) fn search(&self, search: &Search) -> Result<Answer, AllocError> {
        match search {
            Search::Reaches(a, b) => Ok(Answer::Truth(self.reaches(*a, *b)?)),
            Search::WouldCloseCycle(a, b) => Ok(Answer::Truth(self.reaches(*b, *a)?)),
            Search::StandsBefore(a, b) => Ok(Answer::Truth(self.descends(*a, *b)?)),
            Search::Path(a, b) => Ok(Answer::Path(self.path(*a, *b)?)),
            Search::PathEdges(a, b) => match self.path(*a, *b)? {
                Some(nodes) => Ok(Answer::Path(Some(self.edges_along(nodes.as_slice())?))),
                None => Ok(Answer::Path(None)),
            },
            Search::TransitiveClosure => Ok(Answer::Pairs(self.closure()?)),
            Search::RedundantEdges(roots) => {
                Ok(Answer::Indices(self.redundant_edges(roots.as_slice())?))
            }
            Search::SameReachability(salt) => self.loses_nothing(*salt),
        }
    }

    // A shortest path.
    fn path(&self, a: usize, b: usize) -> Result<Option<Vec<usize>>, AllocError> {
        let distances = self.distances(b, Way::Up)?;
        let Some(length) = at(&distances, a) else {
            return Ok(None);
        };
        let mut path = vec![in self.alloc; a]?;
        let mut here = a;
        for left in (0..length).rev() {
            for other in self.neighbors(here, Way::Down)?.iter() {
                if at(&distances, *other) == Some(left) {
                    here = *other;
                    break;
                }
            }
            path.push(here)?;
        }
        Ok(Some(path))
    }

    /// The edges found from each node of a list to the next.
    pub fn edges_along(&self, nodes: &[usize]) -> Result<Vec<usize>, AllocError> {
        let mut edges = Vec::new(self.alloc);
        for (a, b) in nodes.iter().zip(nodes.iter().skip(1)) {
            if let Some(e) = self.edge_between(*a, *b) {
                edges.push(e)?;
            }
        }
        Ok(edges)
    }

    /// The pairs of nodes of which the first reaches the second by one or more edges.
    pub fn closure(&self) -> Result<Vec<(usize, usize)>, AllocError> {
        let mut pairs = Vec::new(self.alloc);
        for a in 0..self.nodes.len() {
            for (b, distance) in self.distances(a, Way::Down)?.iter().enumerate() {
                if a != b && distance.is_some() {
                    pairs.push((a, b))?;
                }
            }
        }
        Ok(pairs)
    }

    // Whether as many pairs of nodes reach each other by the edges alone that are kept.
    fn loses_nothing(&self, salt: u64) -> Result<Answer, AllocError> {
        let mut part = self.clone()?;
        for e in 0..self.edges.len() {
            if let Some(edge) = self.edge(e) {
                if !keeps(e, edge.weight, salt) {
                    part.unlink_edge(e, edge);
                }
            }
        }
        Ok(Answer::Truth(part.closure()? == self.closure()?))
    }
}
