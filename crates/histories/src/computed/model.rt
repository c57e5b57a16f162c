//! A model of computed values: lists that are searched in the most obvious way.

use daggy::NodeIndex;
use std::alloc::{AllocError, Global};

/// The most nodes that there are. Each has a bit in a set of nodes. A refresh of a dag of this size
/// uses the heap if few nodes are stale, and goes along the order if many are.
pub const LIMIT: usize = 96;

/// What a value is made of, beside the values of the parents. It names its node, so that it is known which
/// nodes were computed.
#[derive(Clone, Copy, Debug, Drop, PartialEq)]
pub struct Formula {
    pub node: usize,
    pub number: i64,
    pub fails: bool,
}

/// The sum so far with the value of one more parent, which counts by its place.
pub fn joined(sum: i64, place: i64, value: i64) -> i64 {
    sum.wrapping_add(place.wrapping_mul(value))
}

/// The value that is made of a sum. There are few, so that a value is often the same as before.
pub fn value_of(sum: i64) -> i64 {
    sum.rem_euclid(3)
}

/// The set of one node.
pub fn only(node: usize) -> u128 {
    1u128.checked_shl((node % LIMIT) as u32).unwrap_or(0)
}

/// Whether a node is in a set.
pub fn is_in(node: usize, set: u128) -> bool {
    only(node) & set != 0
}

/// A node.
#[derive(Debug, Drop)]
pub struct Node {
    /// Its index in what the model is compared with.
    pub at: NodeIndex,
    pub formula: Formula,
    pub parents: Vec<usize>,
    pub value: Option<i64>,
    pub stale: bool,
}

/// The nodes, and how much was done.
#[derive(Drop)]
pub struct Model {
    nodes: Vec<Option<Node>>,
    /// How many nodes were computed.
    pub computed: u64,
    /// How many of them had the same value as before.
    pub kept: u64,
}

impl Model {
    /// A model without nodes.
    pub fn new(alloc: Global) -> Result<Model, AllocError> {
        let mut nodes = Vec::new(alloc);
        for _ in 0..LIMIT {
            nodes.push(None)?;
        }
        Ok(Model {
            nodes,
            computed: 0,
            kept: 0,
        })
    }

    /// Puts a node where there is none. Returns whether that can be done.
    pub fn put(&mut self, n: usize, node: Node) -> bool {
        match self.nodes.get_mut(n) {
            Some(place) => {
                *place = Some(node);
                true
            }
            None => false,
        }
    }

    /// Gives the node with the index `last` another index.
    pub fn move_last(&mut self, last: usize, at: NodeIndex) {
        for n in 0..LIMIT {
            if let Some(node) = self.get_mut(n) {
                if node.at.index() == last {
                    node.at = at;
                }
            }
        }
    }

    /// A node.
    pub fn get(&self, n: usize) -> Option<&Node> {
        self.nodes.get(n)?.as_ref()
    }

    /// A node, to change.
    pub fn get_mut(&mut self, n: usize) -> Option<&mut Node> {
        self.nodes.get_mut(n)?.as_mut()
    }

    /// The first node that does not exist.
    pub fn first_free(&self) -> Option<usize> {
        (0..LIMIT).find(|n| self.get(*n).is_none())
    }

    /// The node with an index.
    pub fn node_at(&self, at: NodeIndex) -> Option<usize> {
        for n in 0..LIMIT {
            if self.get(n).is_some_and(|node| node.at == at) {
                return Some(n);
            }
        }
        None
    }

    /// The parents of a node, as a set.
    fn parents(&self, n: usize) -> u128 {
        let mut set = 0u128;
        if let Some(node) = self.get(n) {
            for parent in node.parents.as_slice() {
                set |= only(*parent);
            }
        }
        set
    }

    /// A node and its ancestors.
    pub fn above(&self, n: usize) -> u128 {
        let mut set = only(n);
        for _ in 0..LIMIT {
            for m in 0..LIMIT {
                if is_in(m, set) {
                    set |= self.parents(m);
                }
            }
        }
        set
    }

    /// Whether a node would need itself with these parents.
    pub fn closes_cycle(&self, n: usize, parents: &[usize]) -> bool {
        for parent in parents {
            if is_in(n, self.above(*parent)) {
                return true;
            }
        }
        false
    }

    /// The nodes that are stale.
    pub fn stale(&self) -> u128 {
        let mut set = 0u128;
        for n in 0..LIMIT {
            if self.get(n).is_some_and(|node| node.stale) {
                set |= only(n);
            }
        }
        set
    }

    /// Makes the children of a node stale.
    fn mark_children(&mut self, n: usize) {
        for m in 0..LIMIT {
            if is_in(n, self.parents(m)) {
                if let Some(node) = self.get_mut(m) {
                    node.stale = true;
                }
            }
        }
    }

    /// Removes a node with its edges.
    pub fn remove(&mut self, n: usize) {
        self.mark_children(n);
        for m in 0..LIMIT {
            if let Some(node) = self.get_mut(m) {
                node.parents.retain(|parent| *parent != n);
            }
        }
        if let Some(node) = self.nodes.get_mut(n) {
            *node = None;
        }
    }

    /// The value of a node, by its parents' values.
    fn value(&self, n: usize) -> Option<i64> {
        let node = self.get(n)?;
        let mut sum = node.formula.number;
        let mut place = 1i64;
        for parent in node.parents.as_slice() {
            sum = joined(sum, place, self.get(*parent)?.value?);
            place = place.wrapping_add(1);
        }
        Some(value_of(sum))
    }

    /// Computes a node. Returns whether its value is new, or `None` if it was not stale or a parent was.
    fn compute(&mut self, n: usize) -> Option<bool> {
        if !is_in(n, self.stale()) || self.parents(n) & self.stale() != 0 {
            return None;
        }
        let value = self.value(n)?;
        let node = self.get_mut(n)?;
        let is_new = node.value != Some(value);
        node.value = Some(value);
        node.stale = false;
        self.computed = self.computed.wrapping_add(1);
        if is_new {
            self.mark_children(n);
        } else {
            self.kept = self.kept.wrapping_add(1);
        }
        Some(is_new)
    }

    /// Computes the nodes of a set, each once, and after those of its parents that are in the set. Returns
    /// those whose values are new, or `None` if a node was not to be computed.
    pub fn compute_all(&mut self, set: u128) -> Option<u128> {
        let mut rest = set;
        let mut new = 0u128;
        for _ in 0..LIMIT {
            for n in 0..LIMIT {
                if is_in(n, rest) && self.parents(n) & rest == 0 {
                    rest &= !only(n);
                    if self.compute(n)? {
                        new |= only(n);
                    }
                }
            }
        }
        if rest == 0 { Some(new) } else { None }
    }

    /// Whether computing all nodes from nothing gives the values that they have.
    pub fn is_computed(&self) -> bool {
        for n in 0..LIMIT {
            if self.get(n).is_some_and(|node| node.value != self.value(n)) {
                return false;
            }
        }
        true
    }
}
