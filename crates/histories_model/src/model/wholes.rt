//! Models made of a whole model.
use super::{Edge, Model, Removal};
use crate::answer::Answer;
use crate::calls::{Way, Whole, changed, inherited, keeps};
use crate::random::mixed;
use std::alloc::AllocError;

impl Model {
    pub(super) fn make(&mut self, whole: &Whole) -> Result<Answer, AllocError> {
        match *whole {
            Whole::TryClone => {}
            Whole::Map(salt) | Whole::Rewrite(salt) => self.map(salt),
            Whole::Recompute(salt) => self.recompute(salt)?,
            Whole::FilterMap(salt) => *self = self.filter_map(salt)?,
            Whole::FromDag => *self = self.added_anew()?,
            Whole::WriteDocument => return Ok(Answer::Text(self.document()?)),
            Whole::Restore => self.forget_vacant_slots()?,
            Whole::ReadDocument(salt) => {
                self.forget_vacant_slots()?;
                self.permute_lists(salt);
            }
            Whole::ReadSlots(e) => {
                let made = self.reversing(e)?;
                if made.is_cyclic()? {
                    return Ok(Answer::WouldCycle(Vec::new(self.alloc)));
                }
                *self = made;
            }
        }
        Ok(Answer::Done)
    }

    fn map(&mut self, salt: u64) {
        for (n, node) in self.nodes.as_mut_slice().iter_mut().enumerate() {
            if let Some(weight) = node {
                *weight = changed(n, *weight, salt);
            }
        }
        for (e, edge) in self.edges.as_mut_slice().iter_mut().enumerate() {
            if let Some(edge) = edge {
                edge.weight = changed(e, edge.weight, salt);
            }
        }
    }

    fn recompute(&mut self, salt: u64) -> Result<(), AllocError> {
        for n in &self.order_by(salt)? {
            let mut parents = 0u64;
            for parent in self.neighbors(*n, Way::Up)?.iter() {
                parents = parents.wrapping_add(self.node(*parent).unwrap_or(0));
            }
            if let Some(Some(weight)) = self.nodes.get_mut(*n) {
                *weight = inherited(*n, parents, salt);
            }
        }
        Ok(())
    }

    // The part that is kept, with other weights.
    fn filter_map(&self, salt: u64) -> Result<Model, AllocError> {
        let mut nodes = Vec::new(self.alloc);
        for (n, node) in self.nodes.iter().enumerate() {
            nodes.push(match node {
                Some(weight) if keeps(n, *weight, salt) => Some(changed(n, *weight, salt)),
                _ => None,
            })?;
        }
        let mut edges = Vec::new(self.alloc);
        for (e, edge) in self.edges.iter().enumerate() {
            edges.push(match edge {
                Some(edge)
                    if keeps(e, edge.weight, salt)
                        && is_some_at(&nodes, edge.parent)
                        && is_some_at(&nodes, edge.child) => {
                    Some(Edge {
                        weight: changed(e, edge.weight, salt),
                        ..*edge
                    })
                }
                _ => None,
            })?;
        }
        nodes.truncate(self.node_bound());
        edges.truncate(self.edge_bound());
        match self.removal {
            Removal::MovesLast => self.renumbered(&nodes, &edges),
            Removal::LeavesSlot => self.in_slots(&nodes, &edges),
        }
    }

    // The nodes and edges added to an empty model, by ascending index.
    fn renumbered(
        &self,
        nodes: &Vec<Option<u64>>,
        edges: &Vec<Option<Edge>>,
    ) -> Result<Model, AllocError> {
        let mut made = Model::new(self.alloc, self.removal, self.limit);
        made.add_all(nodes, edges)?;
        Ok(made)
    }

    fn add_all(
        &mut self,
        nodes: &Vec<Option<u64>>,
        edges: &Vec<Option<Edge>>,
    ) -> Result<(), AllocError> {
        let mut names = Vec::new(self.alloc);
        self.add_nodes(nodes, &mut names)?;
        self.add_edges_by(edges, &names)
    }

    // Adds nodes, and notes the index of each.
    fn add_nodes(
        &mut self,
        nodes: &Vec<Option<u64>>,
        names: &mut Vec<usize>,
    ) -> Result<(), AllocError> {
        for node in nodes {
            names.push(match node {
                Some(weight) => self.add_node(*weight)?,
                None => 0,
            })?;
        }
        Ok(())
    }

    fn add_edges_by(
        &mut self,
        edges: &Vec<Option<Edge>>,
        names: &Vec<usize>,
    ) -> Result<(), AllocError> {
        for edge in edges {
            if let Some(edge) = edge {
                let parent = names.get(edge.parent).copied().unwrap_or(0);
                let child = names.get(edge.child).copied().unwrap_or(0);
                self.add_edge(parent, child, edge.weight)?;
            }
        }
        Ok(())
    }

    // The nodes and edges in their slots, with lists in descending order. Of the vacant slots the last
    // one is used first.
    fn in_slots(
        &self,
        nodes: &Vec<Option<u64>>,
        edges: &Vec<Option<Edge>>,
    ) -> Result<Model, AllocError> {
        let mut made = Model::new(self.alloc, self.removal, self.limit);
        made.put_nodes(nodes)?;
        made.put_edges(edges)?;
        Ok(made)
    }

    fn put_nodes(&mut self, nodes: &Vec<Option<u64>>) -> Result<(), AllocError> {
        for (n, node) in nodes.iter().enumerate() {
            self.nodes.push(*node)?;
            self.outgoing.push(Vec::new(self.alloc))?;
            self.incoming.push(Vec::new(self.alloc))?;
            if node.is_none() {
                self.vacant_nodes.push(n)?;
            }
        }
        Ok(())
    }

    fn put_edges(&mut self, edges: &Vec<Option<Edge>>) -> Result<(), AllocError> {
        for (e, edge) in edges.iter().enumerate() {
            self.edges.push(*edge)?;
            let Some(edge) = edge else {
                self.vacant_edges.push(e)?;
                continue;
            };
            if let Some(list) = self.outgoing.get_mut(edge.parent) {
                list.insert(0, e)?;
            }
            if let Some(list) = self.incoming.get_mut(edge.child) {
                list.insert(0, e)?;
            }
        }
        Ok(())
    }

    /// The nodes and edges in their slots, with an edge reversed.
    pub fn reversing(&self, e: usize) -> Result<Model, AllocError> {
        let mut nodes = self.nodes.clone()?;
        nodes.truncate(self.node_bound());
        let mut edges = self.edges.clone()?;
        edges.truncate(self.edge_bound());
        if let Some(Some(edge)) = edges.get_mut(e) {
            (edge.parent, edge.child) = (edge.child, edge.parent);
        }
        self.in_slots(&nodes, &edges)
    }

    fn added_anew(&self) -> Result<Model, AllocError> {
        self.renumbered(&self.nodes, &self.edges)
    }

    // Drops the vacant slots at the end. Of the others the last one is used first.
    fn forget_vacant_slots(&mut self) -> Result<(), AllocError> {
        let (nodes, edges) = (self.node_bound(), self.edge_bound());
        self.nodes.truncate(nodes);
        self.outgoing.truncate(nodes);
        self.incoming.truncate(nodes);
        self.edges.truncate(edges);
        self.vacant_nodes.retain(|n| *n < nodes);
        self.vacant_nodes.sort()?;
        self.vacant_edges.retain(|e| *e < edges);
        self.vacant_edges.sort()
    }

    fn permute_lists(&mut self, salt: u64) {
        for (n, list) in self.outgoing.as_mut_slice().iter_mut().enumerate() {
            permute(list, mixed(n as u64, 1, salt));
        }
        for (n, list) in self.incoming.as_mut_slice().iter_mut().enumerate() {
            permute(list, mixed(n as u64, 2, salt));
        }
    }

    /// One more than the greatest index of a node, or 0 if there is none.
    pub fn node_bound(&self) -> usize {
        let mut bound = 0;
        for (n, node) in self.nodes.iter().enumerate() {
            if node.is_some() {
                bound = n.saturating_add(1);
            }
        }
        bound
    }

    /// One more than the greatest index of an edge, or 0 if there is none.
    pub fn edge_bound(&self) -> usize {
        let mut bound = 0;
        for (e, edge) in self.edges.iter().enumerate() {
            if edge.is_some() {
                bound = e.saturating_add(1);
            }
        }
        bound
    }
}

fn is_some_at(nodes: &Vec<Option<u64>>, n: usize) -> bool {
    match nodes.get(n) {
        Some(node) => node.is_some(),
        None => false,
    }
}

/// Puts a list into an order that depends on a number.
pub fn permute(list: &mut Vec<usize>, salt: u64) {
    list.sort_unstable_by_key(|e| mixed(*e as u64, 0, salt));
}
