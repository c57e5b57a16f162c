//! What is asked of nodes and edges.
use super::Model;
use crate::answer::Answer;
use crate::calls::{Query, Way};
use std::alloc::AllocError;

impl Model {
    pub(super) fn look_up(&self, query: &Query) -> Result<Answer, AllocError> {
        match *query {
            Query::FindEdge(a, b) => Ok(Answer::Found(self.edge_between(a, b))),
            Query::ContainsEdge(a, b) => Ok(Answer::Truth(self.edge_between(a, b).is_some())),
            Query::EdgesConnecting(a, b) => {
                let mut edges = Vec::from_slice(self.alloc, self.children_of(a))?;
                edges.retain(|e| self.far_end(*e, Way::Down) == Some(b));
                self.lines(edges.as_slice())
            }
            Query::EdgeEndpoints(e) => Ok(match self.edge(e) {
                Some(edge) => Answer::Ends(Some((edge.parent, edge.child))),
                None => Answer::Ends(None),
            }),
            Query::Children(n) => self.steps(n, Way::Down),
            Query::Parents(n) => self.steps(n, Way::Up),
            Query::Neighbors(n, way) => Ok(Answer::Indices(self.neighbors(n, way)?)),
            Query::Edges(n, way) => self.lines(self.list(n, way)),
            Query::Externals(way) => self.externals(way),
            Query::Nodes => Ok(Answer::Indices(self.existing()?)),
            Query::AllEdges => {
                let mut all = Vec::new(self.alloc);
                for e in 0..self.edges.len() {
                    all.push(e)?;
                }
                self.lines(all.as_slice())
            }
            Query::Weights => self.weights(),
        }
    }

    /// The list of edges of a node.
    pub fn list(&self, n: usize, way: Way) -> &[usize] {
        match way {
            Way::Down => self.children_of(n),
            Way::Up => self.parents_of(n),
        }
    }

    // The edges of a list, with the other end of each.
    fn steps(&self, n: usize, way: Way) -> Result<Answer, AllocError> {
        let mut steps = Vec::new(self.alloc);
        for e in self.list(n, way) {
            if let Some(other) = self.far_end(*e, way) {
                steps.push((*e, other))?;
            }
        }
        Ok(Answer::Steps(steps))
    }

    // Those of some edges that exist.
    fn lines(&self, edges: &[usize]) -> Result<Answer, AllocError> {
        let mut lines = Vec::new(self.alloc);
        for e in edges {
            if let Some(edge) = self.edge(*e) {
                lines.push((*e, (edge.parent, edge.child, edge.weight)))?;
            }
        }
        Ok(Answer::Edges(lines))
    }

    fn externals(&self, way: Way) -> Result<Answer, AllocError> {
        let mut nodes = self.existing()?;
        nodes.retain(|n| self.list(*n, way).is_empty());
        Ok(Answer::Indices(nodes))
    }

    fn weights(&self) -> Result<Answer, AllocError> {
        let mut nodes = Vec::new(self.alloc);
        for node in &self.nodes {
            if let Some(weight) = node {
                nodes.push(*weight)?;
            }
        }
        let mut edges = Vec::new(self.alloc);
        for edge in &self.edges {
            if let Some(edge) = edge {
                edges.push(edge.weight)?;
            }
        }
        Ok(Answer::Weights(nodes, edges))
    }
}
