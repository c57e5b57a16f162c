//! The assertions, and the graphs. Each `assert_eq!` costs a proof, so it is written here once, and
//! tests call it.
ghost use Rattle.std.specs.Prelude.{◌≡◌, IsTrue, Ok};

use daggy_base::index::{EdgeIndex, NodeIndex};
use daggy_base::store::Store;
use std::alloc::Global;
use std::fmt::Debug;
use std::process::Abort;

/// Asserts that what was found is what is wanted.
pub fn same<T: PartialEq + Debug + Drop>(rt: &impl Abort, found: T, wanted: T) {
    assert_eq!(rt; found, wanted);
}

/// Asserts a fact, which calls after it may rest on.
pub fn holds(rt: &impl Abort, fact: bool)
    ensures { IsTrue fact }
{
    assert!(rt; fact);
}

/// Asserts that a call succeeded, and returns its value.
pub fn made<T: Drop, E: Drop>(rt: &impl Abort, answer: Result<T, E>) -> T
    ensures { answer ≡ Ok result }
{
    match answer {
        Ok(x) => x,
        Err(_) => panic!(rt; "the call was refused"),
    }
}

/// Asserts that there is a value, and returns it.
pub fn some<T: Drop>(rt: &impl Abort, answer: Option<T>) -> T {
    match answer {
        Some(x) => x,
        None => panic!(rt; "there is no value"),
    }
}

/// The index of a node.
pub fn node(rt: &impl Abort, x: usize) -> NodeIndex<u8> {
    holds(rt, x < 255);
    NodeIndex::new(x)
}

/// The indices of edges.
pub fn edges(rt: &impl Abort, alloc: Global, wanted: &[usize]) -> Vec<EdgeIndex<u8>> {
    let mut list = Vec::new(alloc);
    for x in wanted {
        holds(rt, *x < 255);
        holds(rt, list.push(EdgeIndex::new(*x)).is_ok());
    }
    list
}

/// Asserts that these edges are wanted, in that order.
pub fn are_edges(rt: &impl Abort, found: &[EdgeIndex<u8>], wanted: &[usize]) {
    same(rt, found.len(), wanted.len());
    for (k, x) in wanted.iter().enumerate() {
        same(rt, found.get(k).map(|e| e.index()), Some(*x));
    }
}

/// Adds an edge, once more if that is refused.
pub fn join<S: Store<u8>>(rt: &impl Abort, graph: &mut S, a: usize, b: usize)
where
    S: Store<u8, EdgeWeight = ()>,
{
    let (a, b) = (node(rt, a), node(rt, b));
    for _ in 0..2 {
        holds(rt, graph.contains_node(a));
        holds(rt, graph.contains_node(b));
        holds(rt, graph.can_add_edge());
        if graph.add_edge(a, b, ()).is_ok() {
            return;
        }
    }
    panic!(rt; "an edge was refused twice");
}

/// A graph of this many nodes, with these edges. A call whose allocation failed is made again.
pub fn graph_of<S: Store<u8, NodeWeight = (), EdgeWeight = ()>>(
    rt: &impl Abort,
    alloc: Global,
    nodes: usize,
    edges: &[(usize, usize)],
) -> S {
    let mut graph = S::new(alloc);
    for _ in 0..nodes {
        holds(rt, graph.can_add_node());
        if graph.add_node(()).is_err() {
            holds(rt, graph.can_add_node());
            made(rt, graph.add_node(()));
        }
    }
    for (a, b) in edges {
        join(rt, &mut graph, *a, *b);
    }
    graph
}

/// Asserts that these nodes are wanted, in any order.
pub fn are_nodes(rt: &impl Abort, found: &[NodeIndex<u8>], wanted: &[usize]) {
    same(rt, found.len(), wanted.len());
    for x in wanted {
        let n = node(rt, *x);
        holds(rt, found.contains(&n));
    }
}

/// Asserts that these nodes are wanted in that order, from any one of them on and round.
pub fn goes_round(rt: &impl Abort, found: &[NodeIndex<u8>], wanted: &[usize]) {
    same(rt, found.len(), wanted.len());
    let mut first = 0usize;
    for (k, n) in found.iter().enumerate() {
        if Some(n.index()) == wanted.first().copied() {
            first = k;
        }
    }
    for (k, x) in wanted.iter().enumerate() {
        let at = first.wrapping_add(k);
        let at = if at < found.len() {
            at
        } else {
            at.wrapping_sub(found.len())
        };
        same(rt, found.get(at).map(|n| n.index()), Some(*x));
    }
}
