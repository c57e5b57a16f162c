//! Many edges at once.
use super::Model;
use super::paths::flag;
use crate::answer::Answer;
use crate::calls::{Batch, Line, Part, Way, keeps};
use std::alloc::AllocError;

// How a batch of edges ends.
#[derive(Clone, Copy)]
enum Outcome {
    Missing,
    Full,
    Cycle,
    Added,
}

impl Model {
    pub(super) fn change_many(&mut self, batch: &Batch) -> Result<Answer, AllocError> {
        match batch {
            Batch::AddEdges(lines) => self.add_edges(lines.as_slice()),
            Batch::ExtendWithEdges(lines) => self.extend(lines.as_slice()),
            Batch::FromEdges(lines) => self.make_of_edges(lines.as_slice()),
            Batch::FromElements(parts) => self.make_of_parts(parts.as_slice()),
            Batch::SetParents(n, items) => self.set_parents(*n, items.as_slice()),
            Batch::RetainNodes(salt) => self.retain_nodes(*salt),
            Batch::RetainEdges(salt) => self.retain_edges(*salt),
            Batch::TransitiveReduce(roots) => self.reduce(roots.as_slice()),
            Batch::TransitiveReduceAll => self.reduce(self.existing()?.as_slice()),
        }
    }

    fn make_of_edges(&mut self, lines: &[Line]) -> Result<Answer, AllocError> {
        let mut made = Model::new(self.alloc, self.removal, self.limit);
        let answer = made.extend(lines)?;
        self.replace_if_done(made, &answer);
        Ok(answer)
    }

    fn make_of_parts(&mut self, parts: &[Part]) -> Result<Answer, AllocError> {
        let mut made = Model::new(self.alloc, self.removal, self.limit);
        let answer = made.add_parts(parts)?;
        self.replace_if_done(made, &answer);
        Ok(answer)
    }

    fn replace_if_done(&mut self, made: Model, answer: &Answer) {
        if let Answer::Done = answer {
            *self = made;
        }
    }

    fn add_edges(&mut self, lines: &[Line]) -> Result<Answer, AllocError> {
        let mut weights = Vec::new(self.alloc);
        let mut added = Vec::new(self.alloc);
        let mut trial = self.clone()?;
        Ok(match trial.add_each(lines, &mut weights, &mut added)? {
            Outcome::Missing => Answer::BadEndpoint(weights),
            Outcome::Full => Answer::Full(weights),
            Outcome::Cycle => Answer::WouldCycle(weights),
            Outcome::Added => {
                *self = trial;
                Answer::Indices(added)
            }
        })
    }

    // Adds edges until one has no end or no index. Their weights are noted, the last one first, and
    // the indices of the new edges.
    fn add_each(
        &mut self,
        lines: &[Line],
        weights: &mut Vec<u64>,
        added: &mut Vec<usize>,
    ) -> Result<Outcome, AllocError> {
        let mut outcome = Outcome::Added;
        for (a, b, weight) in lines {
            weights.insert(0, *weight)?;
            if !self.has_node(*a) || !self.has_node(*b) {
                return Ok(Outcome::Missing);
            }
            if self.edge_count() >= self.limit {
                return Ok(Outcome::Full);
            }
            if self.reaches(*b, *a)? {
                outcome = Outcome::Cycle;
            }
            added.push(self.add_edge(*a, *b, *weight)?)?;
        }
        Ok(outcome)
    }

    fn extend(&mut self, lines: &[Line]) -> Result<Answer, AllocError> {
        for (a, b, weight) in lines {
            let back = vec![in self.alloc; *weight]?;
            if *a >= self.limit || *b >= self.limit || self.edge_count() >= self.limit {
                return Ok(Answer::Full(back));
            }
            let wanted = (*a).max(*b).saturating_add(1);
            for _ in self.node_count()..wanted {
                self.add_node(0)?;
            }
            if !self.has_node(*a) || !self.has_node(*b) {
                return Ok(Answer::BadEndpoint(back));
            }
            if self.reaches(*b, *a)? {
                return Ok(Answer::WouldCycle(back));
            }
            self.add_edge(*a, *b, *weight)?;
        }
        Ok(Answer::Done)
    }

    fn add_parts(&mut self, parts: &[Part]) -> Result<Answer, AllocError> {
        for part in parts {
            let (a, b, weight) = match *part {
                Part::Node(weight) => {
                    if self.node_count() >= self.limit {
                        return Ok(Answer::Full(vec![in self.alloc; weight]?));
                    }
                    self.add_node(weight)?;
                    continue;
                }
                Part::Edge(a, b, weight) => (a, b, weight),
            };
            let back = vec![in self.alloc; weight]?;
            if !self.has_node(a) || !self.has_node(b) {
                return Ok(Answer::BadEndpoint(back));
            }
            if let Some(e) = self.edge_between(a, b) {
                self.write_edge(e, weight);
                continue;
            }
            if self.edge_count() >= self.limit {
                return Ok(Answer::Full(back));
            }
            if self.reaches(b, a)? {
                return Ok(Answer::WouldCycle(back));
            }
            self.add_edge(a, b, weight)?;
        }
        Ok(Answer::Done)
    }

    fn set_parents(&mut self, n: usize, items: &[(usize, u64)]) -> Result<Answer, AllocError> {
        let mut weights = Vec::new(self.alloc);
        for (_, weight) in items {
            weights.push(*weight)?;
        }
        Ok(match self.may_enter(n, items)? {
            Outcome::Missing => Answer::Missing,
            Outcome::Cycle => Answer::WouldCycle(weights),
            Outcome::Full => Answer::Full(weights),
            Outcome::Added => {
                self.replace_parents(n, items)?;
                Answer::Done
            }
        })
    }

    // Whether edges from some nodes to a node can be added.
    fn may_enter(&self, n: usize, items: &[(usize, u64)]) -> Result<Outcome, AllocError> {
        let mut is_cyclic = false;
        let mut is_missing = !self.has_node(n);
        for (parent, _) in items {
            is_missing = is_missing || !self.has_node(*parent);
            is_cyclic = is_cyclic || self.reaches(n, *parent)?;
        }
        Ok(if is_missing {
            Outcome::Missing
        } else if is_cyclic {
            Outcome::Cycle
        } else if self.edge_count().saturating_add(items.len()) > self.limit {
            Outcome::Full
        } else {
            Outcome::Added
        })
    }

    fn replace_parents(&mut self, n: usize, items: &[(usize, u64)]) -> Result<(), AllocError> {
        let mut old = Vec::from_slice(self.alloc, self.parents_of(n))?;
        old.sort()?;
        for (parent, weight) in items {
            self.add_edge(*parent, n, *weight)?;
        }
        self.remove_downward(old.as_slice())?;
        Ok(())
    }

    // Removes edges, the last one first.
    fn remove_downward(&mut self, edges: &[usize]) -> Result<(), AllocError> {
        for e in edges.iter().rev() {
            self.remove_edge(*e)?;
        }
        Ok(())
    }

    fn retain_nodes(&mut self, salt: u64) -> Result<Answer, AllocError> {
        for n in (0..self.nodes.len()).rev() {
            if let Some(weight) = self.node(n) {
                if !keeps(n, weight, salt) {
                    self.remove_node(n)?;
                }
            }
        }
        Ok(Answer::Done)
    }

    fn retain_edges(&mut self, salt: u64) -> Result<Answer, AllocError> {
        for e in (0..self.edges.len()).rev() {
            if let Some(edge) = self.edge(e) {
                if !keeps(e, edge.weight, salt) {
                    self.remove_edge(e)?;
                }
            }
        }
        Ok(Answer::Done)
    }

    fn reduce(&mut self, roots: &[usize]) -> Result<Answer, AllocError> {
        let redundant = self.redundant_edges(roots)?;
        self.remove_downward(redundant.as_slice())?;
        Ok(Answer::Done)
    }

    /// The edges whose parent a root reaches and whose parent reaches their child by another path of
    /// two or more edges.
    pub(super) fn redundant_edges(&self, roots: &[usize]) -> Result<Vec<usize>, AllocError> {
        let is_below = self.reached(roots)?;
        let mut redundant = Vec::new(self.alloc);
        for e in 0..self.edges.len() {
            let Some(edge) = self.edge(e) else {
                continue;
            };
            let mut is_redundant = false;
            let neighbors = self.neighbors(edge.parent, Way::Down)?;
            for other in &neighbors {
                is_redundant = is_redundant || self.descends(*other, edge.child)?;
            }
            if flag(&is_below, edge.parent) && is_redundant {
                redundant.push(e)?;
            }
        }
        Ok(redundant)
    }
}
