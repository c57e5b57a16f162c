//! What the workloads ask of a dag.
use crate::questions::{breadth_first, depth_first, in_postorder};
use crate::schedules::{as_ready, duration};
use daggy::json::{
    StreamError, dag_from_json, dag_to_json, stable_from_json, stable_to_json, write_json,
    write_short_json,
};
use daggy::run::{Plan, plan};
use daggy::schedule::Schedule;
use daggy::walker::{Filter, Take};
use daggy::{Dag, EdgeIndex, IndexType, NodeIndex, StableDag, Walker};
use daggy_base::store::Store;
use daggy_dag::acyclic::Acyclic;
use serde_json::Value;
use std::alloc::{AllocError, Global};
use std::io::{self, ErrorKind, Write};

/// A dag with whole numbers as weights, whose nodes and edges are named by plain numbers.
pub trait Graph: Drop {
    fn make(alloc: Global) -> Self;

    fn nodes(&self) -> usize;

    fn edges(&self) -> usize;

    /// Adds a node. The error says that it was refused.
    fn put_node(&mut self, weight: i64) -> Result<usize, AllocError>;

    /// Adds an edge, and returns its index. One that would close a cycle is not added.
    fn put_edge(&mut self, a: u32, b: u32, weight: i64) -> Option<usize>;

    /// Sets the weight of the edge between two nodes, or adds one, and returns its index. One that
    /// would close a cycle is not added.
    fn put_update(&mut self, a: u32, b: u32, weight: i64) -> Option<usize>;

    /// Adds a node below another. The error says that it was refused.
    fn put_child(&mut self, parent: u32, weight: i64) -> Result<(), AllocError>;

    /// Adds all edges at once. The error says that they were refused.
    fn put_edges(&mut self, pairs: &[(u32, u32)]) -> Result<(), AllocError>;

    /// Removes a node, and returns its weight, or 0 if there is none.
    fn take_node(&mut self, n: u32) -> i64;

    /// Removes an edge, and returns its weight, or 0 if there is none.
    fn take_edge(&mut self, e: u32) -> i64;

    /// A number of the walk over the children of a node.
    fn walked(&self, n: u32) -> u64;

    /// The same by a fold of the walker.
    fn folded(&self, n: u32) -> u64;

    /// A number of the first three children with an even index.
    fn first_even(&self, n: u32) -> u64;

    /// Reduces what is below these roots.
    fn reduce(&mut self, roots: Vec<NodeIndex<u32>>) -> Result<(), AllocError>;

    /// Computes the transitive closure, and returns whether it has a pair of nodes.
    fn closed(&mut self, a: u32, b: u32) -> Result<bool, AllocError>;

    /// The nodes in stages, each node after its parents.
    fn stages(&self, alloc: Global) -> Result<Vec<Vec<NodeIndex<u32>>>, AllocError>;

    /// The index of an edge from a node to another, or the greatest number if there is none.
    fn found(&self, a: u32, b: u32) -> u64;

    /// Whether a path leads from a node to another.
    fn leads(&mut self, a: u32, b: u32) -> bool;

    /// A shortest path from a node to another. Empty if there is none.
    fn shortest_path(&mut self, a: u32, b: u32) -> Result<Vec<NodeIndex<u32>>, AllocError>;

    /// The descendants of a node.
    fn below(&mut self, n: u32) -> Result<Vec<NodeIndex<u32>>, AllocError>;

    /// A number of the walk breadth first from a node.
    fn breadth_first_sum(&self, alloc: Global, n: u32) -> Result<u64, AllocError>;

    /// A number of the walk depth first from a node.
    fn depth_first_sum(&self, alloc: Global, n: u32) -> Result<u64, AllocError>;

    /// A number of the walk in postorder from a node.
    fn postorder_sum(&self, alloc: Global, n: u32) -> Result<u64, AllocError>;

    /// All nodes in topological order.
    fn in_order(&self, alloc: Global) -> Result<Vec<NodeIndex<u32>>, AllocError>;

    /// All nodes as a ready queue hands them out.
    fn as_ready(&self, alloc: Global) -> Result<Vec<NodeIndex<u32>>, AllocError>;

    /// A schedule, with durations by weight.
    fn schedule(&self, alloc: Global) -> Result<Schedule<u32>, AllocError>;
}

/// What the two kinds of dag do each by a call of its own.
pub trait Kind: Graph {
    /// Whether what stays after a removal keeps its index.
    fn keeps_indices() -> bool;

    /// A number of all edges with their ends and weights.
    fn edge_sum(&self) -> u64;

    /// The same dag with weights that are greater by one.
    fn plus_one(&self) -> Result<Self, AllocError>;

    fn copy(&self) -> Result<Self, AllocError>;

    /// The JSON value of the dag.
    fn document(&self, alloc: Global) -> Result<Value, AllocError>;

    /// Writes the text of that value.
    fn write_document<W: Write>(&self, out: &mut W) -> io::Result<()>;

    /// Writes the text without the orders of its lists.
    fn write_short_document<W: Write>(&self, out: &mut W) -> io::Result<()>;

    /// The dag that a value is read as. The error says that it was refused.
    fn of_document(alloc: Global, document: &Value) -> Result<Self, AllocError>;
}

/// The number so far with one more item in it.
#[inline]
pub fn mixed(sum: u64, item: u64) -> u64 {
    sum.wrapping_mul(31).wrapping_add(item)
}

/// The weight of what is added at a place.
#[inline]
pub fn weight_of(i: usize) -> i64 {
    (i as u64).cast_signed()
}

#[inline]
pub fn node(i: u32) -> NodeIndex<u32> {
    NodeIndex::new(i as usize)
}

#[inline]
fn mixed_step<Ix: IndexType>(sum: u64, item: (EdgeIndex<Ix>, NodeIndex<Ix>)) -> u64 {
    mixed(sum, item.0.index() as u64 ^ item.1.index() as u64)
}

#[inline]
fn edge_number(id: usize, source: usize, target: usize, weight: i64) -> u64 {
    let ends = source as u64 ^ (target as u64).wrapping_mul(2);
    id as u64 ^ ends ^ weight.cast_unsigned()
}

// A weight as a document has it.
fn written(weight: &i64) -> Result<Value, AllocError> {
    Ok(Value::from(*weight))
}

// The error of the writer, if there is one.
fn answered(answer: Result<(), StreamError>) -> io::Result<()> {
    match answer {
        Ok(()) => Ok(()),
        Err(StreamError::Io(error)) => Err(error),
        Err(StreamError::Memory) => Err(io::Error::from(ErrorKind::OutOfMemory)),
    }
}

// The weight that a value of a document is.
fn weight_in(value: &Value) -> Result<Option<i64>, AllocError> {
    Ok(value.as_i64())
}

/// A number of the walk over the children of a node.
#[inline]
pub fn children_sum<Ix: IndexType, S: Store<Ix, NodeWeight = i64, EdgeWeight = i64>>(
    dag: &Acyclic<i64, i64, Ix, S>,
    n: NodeIndex<Ix>,
) -> u64 {
    let mut sum = 0u64;
    let mut walker = dag.children(n);
    'down: while let Some(item) = walker.walk_next(dag) {
        sum = mixed_step(sum, item);
    }
    sum
}

impl<S: Store<u32, NodeWeight = i64, EdgeWeight = i64>> Graph for Acyclic<i64, i64, u32, S> {
    fn make(alloc: Global) -> Self {
        Acyclic::new(alloc)
    }

    #[inline]
    fn nodes(&self) -> usize {
        self.node_count()
    }

    #[inline]
    fn edges(&self) -> usize {
        self.edge_count()
    }

    #[inline]
    fn put_node(&mut self, weight: i64) -> Result<usize, AllocError> {
        if !self.can_add_node() {
            return Err(AllocError);
        }
        match self.add_node(weight) {
            Ok(n) => Ok(n.index()),
            Err(_) => Err(AllocError),
        }
    }

    #[inline]
    fn put_edge(&mut self, a: u32, b: u32, weight: i64) -> Option<usize> {
        let (a, b) = (node(a), node(b));
        if !self.contains_node(a) || !self.contains_node(b) || !self.can_add_edge() {
            return None;
        }
        match self.add_edge(a, b, weight) {
            Ok(e) => Some(e.index()),
            Err(_) => None,
        }
    }

    #[inline]
    fn put_update(&mut self, a: u32, b: u32, weight: i64) -> Option<usize> {
        let (a, b) = (node(a), node(b));
        if !self.contains_node(a) || !self.contains_node(b) || !self.can_add_edge() {
            return None;
        }
        match self.update_edge(a, b, weight) {
            Ok(e) => Some(e.index()),
            Err(_) => None,
        }
    }

    #[inline]
    fn put_child(&mut self, parent: u32, weight: i64) -> Result<(), AllocError> {
        let parent = node(parent);
        if !self.contains_node(parent) || !self.can_add_node() || !self.can_add_edge() {
            return Err(AllocError);
        }
        match self.add_child(parent, weight, weight) {
            Ok(_) => Ok(()),
            Err(_) => Err(AllocError),
        }
    }

    fn put_edges(&mut self, pairs: &[(u32, u32)]) -> Result<(), AllocError> {
        let items = pairs
            .iter()
            .enumerate()
            .map(|(i, (a, b))| (node(*a), node(*b), weight_of(i)));
        match self.add_edges(items) {
            Ok(_) => Ok(()),
            Err(_) => Err(AllocError),
        }
    }

    #[inline]
    fn take_node(&mut self, n: u32) -> i64 {
        self.remove_node(node(n)).unwrap_or(0)
    }

    #[inline]
    fn take_edge(&mut self, e: u32) -> i64 {
        self.remove_edge(EdgeIndex::new(e as usize)).unwrap_or(0)
    }

    #[inline]
    fn walked(&self, n: u32) -> u64 {
        children_sum(self, node(n))
    }

    #[inline]
    fn folded(&self, n: u32) -> u64 {
        self.children(node(n)).iter(self).fold(0u64, mixed_step)
    }

    #[inline]
    fn first_even(&self, n: u32) -> u64 {
        let even = Filter::new(
            self.children(node(n)),
            |_: &Self, item: &(EdgeIndex<u32>, NodeIndex<u32>)| item.1.index() % 2 == 0,
        );
        Take::new(even, 3).iter(self).fold(0u64, mixed_step)
    }

    fn reduce(&mut self, roots: Vec<NodeIndex<u32>>) -> Result<(), AllocError> {
        self.transitive_reduce(roots)
    }

    fn closed(&mut self, a: u32, b: u32) -> Result<bool, AllocError> {
        let closure = self.transitive_closure()?;
        Ok(closure.has(node(a), node(b)))
    }

    fn stages(&self, alloc: Global) -> Result<Vec<Vec<NodeIndex<u32>>>, AllocError> {
        let Plan { stages, .. } = plan(alloc, self)?;
        Ok(stages)
    }

    #[inline]
    fn found(&self, a: u32, b: u32) -> u64 {
        match self.find_edge(node(a), node(b)) {
            Some(e) => e.index() as u64,
            None => u64::MAX,
        }
    }

    #[inline]
    fn leads(&mut self, a: u32, b: u32) -> bool {
        self.reaches(node(a), node(b))
    }

    fn shortest_path(&mut self, a: u32, b: u32) -> Result<Vec<NodeIndex<u32>>, AllocError> {
        match self.path(node(a), node(b))? {
            Some(nodes) => Ok(nodes),
            None => Ok(Vec::new(self.allocator())),
        }
    }

    fn below(&mut self, n: u32) -> Result<Vec<NodeIndex<u32>>, AllocError> {
        self.descendants(&[node(n)])
    }

    fn breadth_first_sum(&self, alloc: Global, n: u32) -> Result<u64, AllocError> {
        breadth_first(alloc, self.graph(), node(n))
    }

    fn depth_first_sum(&self, alloc: Global, n: u32) -> Result<u64, AllocError> {
        depth_first(alloc, self.graph(), node(n))
    }

    fn postorder_sum(&self, alloc: Global, n: u32) -> Result<u64, AllocError> {
        in_postorder(alloc, self.graph(), node(n))
    }

    fn in_order(&self, alloc: Global) -> Result<Vec<NodeIndex<u32>>, AllocError> {
        self.topological_order().collect(alloc)
    }

    fn as_ready(&self, alloc: Global) -> Result<Vec<NodeIndex<u32>>, AllocError> {
        as_ready(alloc, self)
    }

    fn schedule(&self, alloc: Global) -> Result<Schedule<u32>, AllocError> {
        match Schedule::new(alloc, self, |_, weight| duration(*weight)) {
            Ok(schedule) => Ok(schedule),
            Err(_) => Err(AllocError),
        }
    }
}

impl Kind for Dag<i64, i64, u32> {
    fn keeps_indices() -> bool {
        false
    }

    fn edge_sum(&self) -> u64 {
        let mut sum = 0u64;
        for edge in self.edge_references() {
            let source = edge.source().index();
            let target = edge.target().index();
            sum = mixed(
                sum,
                edge_number(edge.id().index(), source, target, *edge.weight()),
            );
        }
        sum
    }

    fn plus_one(&self) -> Result<Self, AllocError> {
        self.map(|_, w| w.wrapping_add(1), |_, w| w.wrapping_add(1))
    }

    fn copy(&self) -> Result<Self, AllocError> {
        self.try_clone()
    }

    fn document(&self, alloc: Global) -> Result<Value, AllocError> {
        match dag_to_json(alloc, self, written, written) {
            Ok(document) => Ok(document),
            Err(_) => Err(AllocError),
        }
    }

    fn write_document<W: Write>(&self, out: &mut W) -> io::Result<()> {
        answered(write_json(self, out, written, written))
    }

    fn write_short_document<W: Write>(&self, out: &mut W) -> io::Result<()> {
        answered(write_short_json(self, out, written, written))
    }

    fn of_document(alloc: Global, document: &Value) -> Result<Self, AllocError> {
        match dag_from_json(alloc, document, weight_in, weight_in) {
            Ok(dag) => Ok(dag),
            Err(_) => Err(AllocError),
        }
    }
}

impl Kind for StableDag<i64, i64, u32> {
    fn keeps_indices() -> bool {
        true
    }

    fn edge_sum(&self) -> u64 {
        let mut sum = 0u64;
        for edge in self.edge_references() {
            let source = edge.source().index();
            let target = edge.target().index();
            sum = mixed(
                sum,
                edge_number(edge.id().index(), source, target, *edge.weight()),
            );
        }
        sum
    }

    fn plus_one(&self) -> Result<Self, AllocError> {
        self.map(|_, w| w.wrapping_add(1), |_, w| w.wrapping_add(1))
    }

    fn copy(&self) -> Result<Self, AllocError> {
        self.try_clone()
    }

    fn document(&self, alloc: Global) -> Result<Value, AllocError> {
        match stable_to_json(alloc, self, written, written) {
            Ok(document) => Ok(document),
            Err(_) => Err(AllocError),
        }
    }

    fn write_document<W: Write>(&self, out: &mut W) -> io::Result<()> {
        answered(write_json(self, out, written, written))
    }

    fn write_short_document<W: Write>(&self, out: &mut W) -> io::Result<()> {
        answered(write_short_json(self, out, written, written))
    }

    fn of_document(alloc: Global, document: &Value) -> Result<Self, AllocError> {
        match stable_from_json(alloc, document, weight_in, weight_in) {
            Ok(dag) => Ok(dag),
            Err(_) => Err(AllocError),
        }
    }
}
