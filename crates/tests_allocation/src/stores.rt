//! The calls of the stores themselves, with no dag over them, while memory is refused once.
use crate::observed::mix;
use crate::scenarios::Way;
use crate::slots::{edge_slots, node_slots};
use crate::support::{Calls, Compact, Stable, answered, counted, holds, made, refuse, same};
use daggy::graph::DiGraph;
use daggy::stable_graph::StableDiGraph;
use daggy::{EdgeError, EdgeIndex, NodeError, NodeIndex};
use daggy_base::store::Store;
use std::alloc::{AllocError, Global};
use std::process::Abort;
use std::rt::Env;

/// A store with the calls that only its own kind has.
trait StoreKind: Store<u32, NodeWeight = usize, EdgeWeight = usize> {
    /// An empty store with capacity for `nodes` nodes and `edges` edges.
    fn roomy(alloc: Global, nodes: usize, edges: usize) -> Result<Self, AllocError>;

    /// Makes a store of this one.
    fn made_of(&self, way: Way, calls: &mut Calls) -> Result<Self, AllocError>;
}

impl StoreKind for Compact {
    fn roomy(alloc: Global, nodes: usize, edges: usize) -> Result<Self, AllocError> {
        DiGraph::with_capacity(alloc, nodes, edges)
    }

    fn made_of(&self, way: Way, calls: &mut Calls) -> Result<Self, AllocError> {
        let Calls { nodes, edges } = calls;
        match way {
            Way::Copy => self.try_clone(),
            Way::Map => self.map(|_, w| counted(nodes, w), |_, w| counted(edges, w)),
            Way::Part => self.filter_map(
                |_, w| Some(counted(nodes, w)),
                |_, w| Some(counted(edges, w)),
            ),
        }
    }
}

impl StoreKind for Stable {
    fn roomy(alloc: Global, nodes: usize, edges: usize) -> Result<Self, AllocError> {
        StableDiGraph::with_capacity(alloc, nodes, edges)
    }

    fn made_of(&self, way: Way, calls: &mut Calls) -> Result<Self, AllocError> {
        let Calls { nodes, edges } = calls;
        match way {
            Way::Copy => self.try_clone(),
            Way::Map => self.map(|_, w| counted(nodes, w), |_, w| counted(edges, w)),
            Way::Part => self.filter_map(
                |_, w| Some(counted(nodes, w)),
                |_, w| Some(counted(edges, w)),
            ),
        }
    }
}

// A number of the nodes and the edges with their weights and ends.
fn state_of<S: StoreKind>(store: &S) -> usize {
    let mut sum = mix(store.node_count(), store.edge_count());
    for i in 0..32 {
        if let Some(weight) = store.node_weight(NodeIndex::new(i)) {
            sum = mix(mix(sum, i), *weight);
        }
        let e = EdgeIndex::new(i);
        if let Some(weight) = store.edge_weight(e) {
            sum = mix(mix(sum, i), *weight);
        }
        if let Some((a, b)) = store.edge_endpoints(e) {
            sum = mix(mix(sum, a.index()), b.index());
        }
    }
    sum
}

fn add_node<S: StoreKind>(
    rt: &impl Abort,
    store: &mut S,
    weight: usize,
) -> Result<NodeIndex, NodeError<usize>> {
    assert!(rt; store.can_add_node());
    store.add_node(weight)
}

// Adds a node, a second time if the first is refused.
fn add_node_again<S: StoreKind>(
    rt: &impl Abort,
    store: &mut S,
    weight: usize,
    refused: &mut bool,
) -> NodeIndex {
    let before = state_of(store);
    match add_node(rt, store, weight) {
        Ok(n) => n,
        Err(NodeError::Memory(back)) => {
            refuse(rt, refused);
            same(rt, (back, state_of(store)), (weight, before));
            made(rt, add_node(rt, store, back))
        }
        Err(_) => panic!(rt; "no other refusal has a cause"),
    }
}

fn add_edge<S: StoreKind>(
    rt: &impl Abort,
    store: &mut S,
    ends: (usize, usize),
    weight: usize,
) -> Result<EdgeIndex, EdgeError<usize>> {
    assert!(rt; ends.0 < 100 && ends.1 < 100);
    let (a, b) = (NodeIndex::new(ends.0), NodeIndex::new(ends.1));
    assert!(rt; store.contains_node(a) && store.contains_node(b));
    assert!(rt; store.can_add_edge());
    store.add_edge(a, b, weight)
}

// Adds an edge, likewise.
fn add_edge_again<S: StoreKind>(
    rt: &impl Abort,
    store: &mut S,
    ends: (usize, usize),
    weight: usize,
    refused: &mut bool,
) {
    let before = state_of(store);
    match add_edge(rt, store, ends, weight) {
        Ok(_) => {}
        Err(EdgeError::Memory(back)) => {
            refuse(rt, refused);
            same(rt, (back, state_of(store)), (weight, before));
            made(rt, add_edge(rt, store, ends, back));
        }
        Err(_) => panic!(rt; "no other refusal has a cause"),
    }
}

// A store of given slots, which is made again if it is refused.
fn of_slots<S: StoreKind>(rt: &impl Abort, alloc: Global, refused: &mut bool) -> S {
    let nodes = node_slots(rt, alloc, refused);
    let edges = edge_slots(rt, alloc, 1, refused);
    match S::from_slots(alloc, nodes, edges) {
        Ok(store) => store,
        Err(AllocError) => {
            refuse(rt, refused);
            let nodes = node_slots(rt, alloc, refused);
            let edges = edge_slots(rt, alloc, 1, refused);
            made(rt, S::from_slots(alloc, nodes, edges))
        }
    }
}

// An empty store with room for two nodes and an edge.
fn begun<S: StoreKind>(rt: &impl Abort, alloc: Global, refused: &mut bool) -> S {
    match S::roomy(alloc, 2, 1) {
        Ok(store) => store,
        Err(AllocError) => {
            refuse(rt, refused);
            made(rt, S::roomy(alloc, 2, 1))
        }
    }
}

// Makes a store of another one, a second time if the first is refused, in which no closure was
// called.
fn copy_again<S: StoreKind>(rt: &impl Abort, store: &S, way: Way, refused: &mut bool) {
    let mut calls = Calls { nodes: 0, edges: 0 };
    let copy = match store.made_of(way, &mut calls) {
        Ok(copy) => copy,
        Err(AllocError) => {
            refuse(rt, refused);
            same(rt, calls, Calls { nodes: 0, edges: 0 });
            made(rt, store.made_of(way, &mut calls))
        }
    };
    same(rt, state_of(&copy), state_of(store));
}

// A fan that is filled and copied, with the second of its nodes removed.
fn play<S: StoreKind>(rt: &(impl Abort + Env), alloc: Global) {
    let mut refused = false;
    let mut store: S = begun(rt, alloc, &mut refused);
    let root = add_node_again(rt, &mut store, 7, &mut refused);
    for weight in 0..12 {
        let child = add_node_again(rt, &mut store, weight, &mut refused);
        add_edge_again(
            rt,
            &mut store,
            (root.index(), child.index()),
            weight,
            &mut refused,
        );
    }
    holds(rt, store.remove_node(NodeIndex::new(1)) == Some(0));
    for way in [Way::Copy, Way::Map, Way::Part] {
        copy_again(rt, &store, way, &mut refused);
    }
    let small: S = of_slots(rt, alloc, &mut refused);
    same(rt, (small.node_count(), small.edge_count()), (2, 1));
    answered(rt, refused);
}

#[test]
fn the_refused_calls_of_a_store_are_made_again(rt: HostRuntime) {
    play::<Compact>(&rt, rt.alloc());
}

#[test]
fn the_refused_calls_of_a_stable_store_are_made_again(rt: HostRuntime) {
    play::<Stable>(&rt, rt.alloc());
}
