//! What a dag is meant to be: plain lists of slots and of edges, changed and searched in the most
//! obvious way. It uses nothing of the library.
use std::alloc::{AllocError, Global};

mod batches;
mod changes;
mod documents;
pub mod paths;
mod queries;
mod searches;
mod walks;
mod wholes;
mod work;

use crate::answer::Answer;
use crate::calls::Call;

/// What a removal does with the slot.
#[derive(Clone, Copy)]
pub enum Removal {
    // The last node or edge moves there, and gets the index.
    MovesLast,
    // It stays vacant, and is used next.
    LeavesSlot,
}

/// An edge.
#[derive(Clone, Copy)]
pub struct Edge {
    pub parent: usize,
    pub child: usize,
    pub weight: u64,
}

/// A model of a dag.
#[derive(Clone, Drop)]
pub struct Model {
    removal: Removal,
    /// No more nodes and no more edges than this may exist.
    pub limit: usize,
    pub nodes: Vec<Option<u64>>,
    pub edges: Vec<Option<Edge>>,
    // By node, the edges that leave it, the newest first.
    outgoing: Vec<Vec<usize>>,
    // By node, the edges that enter it, the newest first.
    incoming: Vec<Vec<usize>>,
    // The vacant slots of nodes, the one vacated last at the end.
    vacant_nodes: Vec<usize>,
    vacant_edges: Vec<usize>,
    alloc: Global,
}

impl Model {
    /// A model without nodes.
    pub fn new(alloc: Global, removal: Removal, limit: usize) -> Model {
        Model {
            removal,
            limit,
            nodes: Vec::new(alloc),
            edges: Vec::new(alloc),
            outgoing: Vec::new(alloc),
            incoming: Vec::new(alloc),
            vacant_nodes: Vec::new(alloc),
            vacant_edges: Vec::new(alloc),
            alloc,
        }
    }

    /// Makes a call, and returns its answer. If several answers are right, it is one of them, or what
    /// they have in common.
    pub fn answer(&mut self, call: &Call) -> Result<Answer, AllocError> {
        match call {
            Call::Change(change) => self.change(change),
            Call::Batch(batch) => self.change_many(batch),
            Call::Whole(whole) => self.make(whole),
            Call::Query(query) => self.look_up(query),
            Call::Search(search) => self.search(search),
            Call::Walk(walk) => self.walk(walk),
            Call::Work(work) => self.work(work),
        }
    }

    /// The weight of a node, if it exists.
    pub fn node(&self, n: usize) -> Option<u64> {
        match self.nodes.get(n) {
            Some(weight) => *weight,
            None => None,
        }
    }

    /// An edge, if it exists.
    pub fn edge(&self, e: usize) -> Option<Edge> {
        match self.edges.get(e) {
            Some(edge) => *edge,
            None => None,
        }
    }

    pub fn has_node(&self, n: usize) -> bool {
        self.node(n).is_some()
    }

    pub fn node_count(&self) -> usize {
        let mut count = 0usize;
        for node in &self.nodes {
            if node.is_some() {
                count = count.saturating_add(1);
            }
        }
        count
    }

    pub fn edge_count(&self) -> usize {
        let mut count = 0usize;
        for edge in &self.edges {
            if edge.is_some() {
                count = count.saturating_add(1);
            }
        }
        count
    }

    /// The edges that leave a node.
    pub fn children_of(&self, n: usize) -> &[usize] {
        match self.outgoing.get(n) {
            Some(edges) => edges.as_slice(),
            None => &[],
        }
    }

    /// The edges that enter a node.
    pub fn parents_of(&self, n: usize) -> &[usize] {
        match self.incoming.get(n) {
            Some(edges) => edges.as_slice(),
            None => &[],
        }
    }

    /// The first edge that leaves a node to another.
    pub fn edge_between(&self, a: usize, b: usize) -> Option<usize> {
        for e in self.children_of(a) {
            if let Some(edge) = self.edge(*e) {
                if edge.child == b {
                    return Some(*e);
                }
            }
        }
        None
    }

    /// The nodes that exist, by ascending index.
    pub fn existing(&self) -> Result<Vec<usize>, AllocError> {
        let mut nodes = Vec::new(self.alloc);
        for n in 0..self.nodes.len() {
            if self.has_node(n) {
                nodes.push(n)?;
            }
        }
        Ok(nodes)
    }
}
