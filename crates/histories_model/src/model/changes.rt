//! Nodes and edges added and removed one at a time.
use super::{Edge, Model, Removal};
use crate::answer::Answer;
use crate::calls::Change;
use std::alloc::AllocError;

impl Model {
    pub(super) fn change(&mut self, change: &Change) -> Result<Answer, AllocError> {
        match *change {
            Change::AddNode(weight) => {
                if self.node_count() >= self.limit {
                    return Ok(Answer::NoIndex);
                }
                Ok(Answer::Node(self.add_node(weight)?))
            }
            Change::AddEdge(a, b, weight) => self.connect(a, b, weight),
            Change::UpdateEdge(a, b, weight) => match self.edge_between(a, b) {
                Some(e) => {
                    self.write_edge(e, weight);
                    Ok(Answer::Edge(e))
                }
                None => self.connect(a, b, weight),
            },
            Change::AddChild(n, edge, weight) => self.add_neighbor(n, edge, weight, true),
            Change::AddParent(n, edge, weight) => self.add_neighbor(n, edge, weight, false),
            Change::RemoveNode(n) => Ok(Answer::Weight(self.remove_node(n)?)),
            Change::RemoveEdge(e) => Ok(Answer::Weight(self.remove_edge(e)?)),
            Change::WriteNode(n, weight) => Ok(Answer::Weight(self.write_node(n, weight))),
            Change::WriteEdge(e, weight) => Ok(Answer::Weight(self.write_edge(e, weight))),
            Change::ClearEdges => {
                self.clear_edges();
                Ok(Answer::Done)
            }
            Change::Clear => {
                *self = Model::new(self.alloc, self.removal, self.limit);
                Ok(Answer::Done)
            }
        }
    }

    // Adds an edge if it may be added.
    fn connect(&mut self, a: usize, b: usize, weight: u64) -> Result<Answer, AllocError> {
        if !self.has_node(a) || !self.has_node(b) {
            return Ok(Answer::Missing);
        }
        if self.edge_count() >= self.limit {
            return Ok(Answer::NoIndex);
        }
        if self.reaches(b, a)? {
            return Ok(Answer::WouldCycle(vec![in self.alloc; weight]?));
        }
        Ok(Answer::Edge(self.add_edge(a, b, weight)?))
    }

    // Adds a child or a parent of a node.
    fn add_neighbor(
        &mut self,
        n: usize,
        edge: u64,
        weight: u64,
        is_child: bool,
    ) -> Result<Answer, AllocError> {
        if !self.has_node(n) {
            return Ok(Answer::Missing);
        }
        if self.edge_count() >= self.limit || self.node_count() >= self.limit {
            return Ok(Answer::NoIndex);
        }
        let other = self.add_node(weight)?;
        let e = if is_child {
            self.add_edge(n, other, edge)?
        } else {
            self.add_edge(other, n, edge)?
        };
        Ok(Answer::EdgeAndNode(e, other))
    }

    /// Adds a node.
    pub(super) fn add_node(&mut self, weight: u64) -> Result<usize, AllocError> {
        if let Some(n) = self.vacant_nodes.pop() {
            if let Some(slot) = self.nodes.get_mut(n) {
                *slot = Some(weight);
            }
            return Ok(n);
        }
        let n = self.nodes.len();
        self.nodes.push(Some(weight))?;
        self.outgoing.push(Vec::new(self.alloc))?;
        self.incoming.push(Vec::new(self.alloc))?;
        Ok(n)
    }

    /// Adds an edge, without a test.
    pub(super) fn add_edge(
        &mut self,
        a: usize,
        b: usize,
        weight: u64,
    ) -> Result<usize, AllocError> {
        let edge = Edge {
            parent: a,
            child: b,
            weight,
        };
        let e = match self.vacant_edges.pop() {
            Some(e) => {
                if let Some(slot) = self.edges.get_mut(e) {
                    *slot = Some(edge);
                }
                e
            }
            None => {
                let e = self.edges.len();
                self.edges.push(Some(edge))?;
                e
            }
        };
        if let Some(list) = self.outgoing.get_mut(a) {
            list.insert(0, e)?;
        }
        if let Some(list) = self.incoming.get_mut(b) {
            list.insert(0, e)?;
        }
        Ok(e)
    }

    /// Writes the weight of a node, and returns the old one.
    fn write_node(&mut self, n: usize, weight: u64) -> Option<u64> {
        let old = self.node(n)?;
        if let Some(slot) = self.nodes.get_mut(n) {
            *slot = Some(weight);
        }
        Some(old)
    }

    /// Writes the weight of an edge, and returns the old one.
    pub(super) fn write_edge(&mut self, e: usize, weight: u64) -> Option<u64> {
        let old = self.edge(e)?;
        if let Some(slot) = self.edges.get_mut(e) {
            *slot = Some(Edge { weight, ..old });
        }
        Some(old.weight)
    }

    /// Removes an edge, and returns its weight.
    pub(super) fn remove_edge(&mut self, e: usize) -> Result<Option<u64>, AllocError> {
        let Some(edge) = self.edge(e) else {
            return Ok(None);
        };
        self.unlink_edge(e, edge);
        match self.removal {
            Removal::MovesLast => {
                let last = self.edges.len().saturating_sub(1);
                if e < self.edges.len() {
                    self.edges.swap_remove(e);
                }
                rename(&mut self.outgoing, last, e);
                rename(&mut self.incoming, last, e);
            }
            Removal::LeavesSlot => {
                if let Some(slot) = self.edges.get_mut(e) {
                    *slot = None;
                }
                self.vacant_edges.push(e)?;
            }
        }
        Ok(Some(edge.weight))
    }

    // Takes an edge out of its two lists.
    pub(super) fn unlink_edge(&mut self, e: usize, edge: Edge) {
        if let Some(list) = self.outgoing.get_mut(edge.parent) {
            list.retain(|other| *other != e);
        }
        if let Some(list) = self.incoming.get_mut(edge.child) {
            list.retain(|other| *other != e);
        }
    }

    /// Removes a node with its edges, and returns its weight.
    pub(super) fn remove_node(&mut self, n: usize) -> Result<Option<u64>, AllocError> {
        let Some(weight) = self.node(n) else {
            return Ok(None);
        };
        for _ in 0..self.children_of(n).len() {
            if let Some(e) = self.children_of(n).first().copied() {
                self.remove_edge(e)?;
            }
        }
        for _ in 0..self.parents_of(n).len() {
            if let Some(e) = self.parents_of(n).first().copied() {
                self.remove_edge(e)?;
            }
        }
        match self.removal {
            Removal::MovesLast => self.move_last_node(n),
            Removal::LeavesSlot => {
                if let Some(slot) = self.nodes.get_mut(n) {
                    *slot = None;
                }
                self.vacant_nodes.push(n)?;
            }
        }
        Ok(Some(weight))
    }

    // Removes the slot of a node without edges, and gives its index to the last node.
    fn move_last_node(&mut self, n: usize) {
        let last = self.nodes.len().saturating_sub(1);
        if n < self.nodes.len() && n < self.outgoing.len() && n < self.incoming.len() {
            self.nodes.swap_remove(n);
            self.outgoing.swap_remove(n);
            self.incoming.swap_remove(n);
        }
        for edge in self.edges.as_mut_slice().iter_mut() {
            if let Some(edge) = edge {
                if edge.parent == last {
                    edge.parent = n;
                }
                if edge.child == last {
                    edge.child = n;
                }
            }
        }
    }

    fn clear_edges(&mut self) {
        self.edges.clear();
        self.vacant_edges.clear();
        for list in self.outgoing.as_mut_slice().iter_mut() {
            list.clear();
        }
        for list in self.incoming.as_mut_slice().iter_mut() {
            list.clear();
        }
    }
}

// Renames an edge in all lists.
fn rename(lists: &mut Vec<Vec<usize>>, from: usize, to: usize) {
    for list in lists.as_mut_slice().iter_mut() {
        for e in list.as_mut_slice().iter_mut() {
            if *e == from {
                *e = to;
            }
        }
    }
}
