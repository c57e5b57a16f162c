//! Calls of a dag of either kind, each made again after a refusal, in which nothing changed. It
//! must then succeed, under the indices that it would have taken at first.
//!
//! At most one slot of a node and one of an edge are vacant, so the least free index comes next. A
//! node weighs its index, and an edge 100 more than its own.
use crate::observed::{counts, free_edge, free_node, is_fan, mix, nth, state_of};
use crate::support::{Kind, Plain, holds, made, refuse, same};
use daggy::index::Direction;
use daggy::{
    ChildError, EdgeError, EdgeIndex, EdgeIndices, EdgesError, NodeError, NodeIndex, ParentsError,
};
use std::alloc::Global;
use std::process::Abort;

/// Adds a node.
pub fn add_node<S: Kind>(
    rt: &impl Abort,
    dag: &mut Plain<S>,
    weight: usize,
) -> Result<NodeIndex, NodeError<usize>> {
    assert!(rt; dag.can_add_node());
    dag.add_node(weight)
}

/// Adds a node, a second time if the first is refused, and notes whether it was.
pub fn add_node_again<S: Kind>(
    rt: &impl Abort,
    dag: &mut Plain<S>,
    refused: &mut bool,
) -> NodeIndex {
    let (index, before) = (free_node(dag), state_of(dag));
    let n = match add_node(rt, dag, index) {
        Ok(n) => n,
        Err(NodeError::Memory(weight)) => {
            refuse(rt, refused);
            same(rt, (weight, state_of(dag)), (index, before));
            made(rt, add_node(rt, dag, weight))
        }
        Err(NodeError::Full(_)) => panic!(rt; "an index is left"),
    };
    same(rt, n.index(), index);
    n
}

/// Adds an edge, by an update if that is asked for.
pub fn join<S: Kind>(
    rt: &impl Abort,
    dag: &mut Plain<S>,
    ends: (usize, usize),
    weight: usize,
    update: bool,
) -> Result<EdgeIndex, EdgeError<usize>> {
    assert!(rt; ends.0 < 100 && ends.1 < 100);
    let (a, b) = (NodeIndex::new(ends.0), NodeIndex::new(ends.1));
    assert!(rt; dag.contains_node(a) && dag.contains_node(b) && dag.can_add_edge());
    if update {
        dag.update_edge(a, b, weight)
    } else {
        dag.add_edge(a, b, weight)
    }
}

/// Adds an edge, likewise. An update is of two nodes that no edge joins yet.
pub fn join_again<S: Kind>(
    rt: &impl Abort,
    dag: &mut Plain<S>,
    ends: (usize, usize),
    update: bool,
    refused: &mut bool,
) {
    let (index, before) = (free_edge(dag), state_of(dag));
    let e = match join(rt, dag, ends, index + 100, update) {
        Ok(e) => e,
        Err(EdgeError::Memory(weight)) => {
            refuse(rt, refused);
            same(rt, (weight, state_of(dag)), (index + 100, before));
            made(rt, join(rt, dag, ends, weight, update))
        }
        Err(_) => panic!(rt; "no other refusal has a cause"),
    };
    same(rt, e.index(), index);
}

/// Adds a node below another one, or above it, whose weight is the second.
pub fn add_neighbor<S: Kind>(
    rt: &impl Abort,
    dag: &mut Plain<S>,
    at: NodeIndex,
    dir: Direction,
    weights: (usize, usize),
) -> Result<(EdgeIndex, NodeIndex), ChildError<usize, usize>> {
    assert!(rt; dag.contains_node(at) && dag.can_add_edge() && dag.can_add_node());
    match dir {
        Direction::Outgoing => dag.add_child(at, weights.0, weights.1),
        Direction::Incoming => dag.add_parent(at, weights.0, weights.1),
    }
}

/// Adds a node below another one, or above it, likewise.
pub fn add_neighbor_again<S: Kind>(
    rt: &impl Abort,
    dag: &mut Plain<S>,
    at: NodeIndex,
    dir: Direction,
    refused: &mut bool,
) -> NodeIndex {
    let (edge, node, before) = (free_edge(dag), free_node(dag), state_of(dag));
    let (e, n) = match add_neighbor(rt, dag, at, dir, (edge + 100, node)) {
        Ok(added) => added,
        Err(ChildError::Memory(edge_weight, node_weight)) => {
            refuse(rt, refused);
            same(rt, (edge_weight, node_weight), (edge + 100, node));
            same(rt, state_of(dag), before);
            made(
                rt,
                add_neighbor(rt, dag, at, dir, (edge_weight, node_weight)),
            )
        }
    };
    same(rt, (e.index(), n.index()), (edge, node));
    n
}

// The node of an index that is below 256.
fn small_node(index: usize) -> NodeIndex {
    NodeIndex::new(index % 256)
}

/// Adds `count` edges at once, from the root to the next nodes of a fan.
pub fn add_edges<S: Kind>(
    rt: &impl Abort,
    dag: &mut Plain<S>,
    count: usize,
) -> Result<EdgeIndices<u32>, EdgesError<usize>> {
    let edges = dag.edge_count();
    assert!(rt; edges < 100 && count < 100);
    let root = NodeIndex::new(0);
    dag.add_edges((0..count).map(|i| {
        let e = nth(S::GAP, edges + i);
        (root, small_node(e + 1), e + 100)
    }))
}

/// The same, once more after a refusal.
pub fn add_edges_again<S: Kind>(
    rt: &impl Abort,
    dag: &mut Plain<S>,
    count: usize,
    refused: &mut bool,
) {
    let (edges, state) = (dag.edge_count(), state_of(dag));
    let mut added = match add_edges(rt, dag, count) {
        Ok(added) => added,
        Err(EdgesError::Memory { last, before }) => {
            refuse(rt, refused);
            holds(rt, before.len() < count);
            come_back(rt, last, before.as_slice(), edges, S::GAP);
            same(rt, state_of(dag), state);
            made(rt, add_edges(rt, dag, count))
        }
        Err(_) => panic!(rt; "no other refusal has a cause"),
    };
    holds(rt, edges < 100 && count < 100);
    for i in 0..count {
        let Some(e) = added.next() else {
            panic!(rt; "an index is missing");
        };
        same(rt, e.index(), nth(S::GAP, edges + i));
    }
    holds(rt, added.next().is_none());
}

// Asserts that the weights of a refused batch are returned: those of the edges from the next one on,
// up to the last one accepted, which comes first.
fn come_back(rt: &impl Abort, last: usize, before: &[usize], edges: usize, gap: bool) {
    holds(rt, edges < 100 && before.len() < 100);
    let mut k = edges + before.len();
    same(rt, last, nth(gap, k) + 100);
    for weight in before {
        holds(rt, 0 < k && k < 200);
        k -= 1;
        same(rt, *weight, nth(gap, k) + 100);
    }
}

/// Replaces the edges that enter a node by one from the parent of each item.
pub fn set_parents<S: Kind>(
    rt: &impl Abort,
    dag: &mut Plain<S>,
    n: NodeIndex,
    items: Vec<(NodeIndex, usize)>,
) -> Result<(), ParentsError<usize>> {
    assert!(rt; dag.contains_node(n));
    assert!(rt; dag.contains_parents(items.as_slice()));
    dag.set_parents(n, items)
}

/// The same, once more after a refusal, which returns the items unchanged.
pub fn set_parents_again<S: Kind>(
    rt: &impl Abort,
    dag: &mut Plain<S>,
    n: NodeIndex,
    items: Vec<(NodeIndex, usize)>,
    refused: &mut bool,
) {
    let (sum, before) = (sum_of(items.as_slice()), state_of(dag));
    match set_parents(rt, dag, n, items) {
        Ok(()) => {}
        Err(ParentsError::Memory(items)) => {
            refuse(rt, refused);
            same(rt, sum_of(items.as_slice()), sum);
            same(rt, state_of(dag), before);
            made(rt, set_parents(rt, dag, n, items));
        }
        Err(_) => panic!(rt; "no other refusal has a cause"),
    }
}

// A number of all items in their order.
fn sum_of(items: &[(NodeIndex, usize)]) -> usize {
    let mut sum = items.len();
    for (n, weight) in items {
        sum = mix(mix(sum, n.index()), *weight);
    }
    sum
}

fn extend<S: Kind>(
    dag: &mut Plain<S>,
    child: NodeIndex,
    weight: usize,
) -> Result<(), EdgeError<usize>> {
    dag.extend_with_edges([(NodeIndex::new(0), child, weight)])
}

/// Adds an edge from the root to a node that is made for it, with all those of lesser indices,
/// likewise. What was made before a refusal stays.
pub fn extend_again<S: Kind>(
    rt: &impl Abort,
    dag: &mut Plain<S>,
    child: usize,
    refused: &mut bool,
) {
    assert!(rt; child < 100);
    let (edges, e, n) = (dag.edge_count(), free_edge(dag), NodeIndex::new(child));
    match extend(dag, n, e + 100) {
        Ok(()) => {}
        Err(EdgeError::NodeMemory(weight)) => {
            refuse(rt, refused);
            same(rt, (weight, dag.edge_count()), (e + 100, edges));
            holds(rt, dag.node_count() <= child);
            made(rt, extend(dag, n, weight));
        }
        Err(EdgeError::Memory(weight)) => {
            refuse(rt, refused);
            same(rt, weight, e + 100);
            counts(rt, dag, child + 1, edges);
            made(rt, extend(dag, n, weight));
        }
        Err(_) => panic!(rt; "no other refusal has a cause"),
    }
    holds(rt, edges < 100);
    counts(rt, dag, child + 1, edges + 1);
    holds(
        rt,
        dag.edge_endpoints(EdgeIndex::new(e)) == Some((NodeIndex::new(0), n)),
    );
}

/// A root with `children` children.
pub fn fan<S: Kind>(
    rt: &impl Abort,
    alloc: Global,
    children: usize,
    refused: &mut bool,
) -> Plain<S> {
    let mut dag = Plain::<S>::new(alloc);
    let root = add_node_again(rt, &mut dag, refused);
    for _ in 0..children {
        add_neighbor_again(rt, &mut dag, root, Direction::Outgoing, refused);
    }
    dag
}

/// A root with three children, of which the second is removed again where that leaves a gap.
pub fn small_fan<S: Kind>(rt: &impl Abort, alloc: Global, refused: &mut bool) -> Plain<S> {
    let mut dag = fan(rt, alloc, 3, refused);
    if S::GAP {
        holds(rt, dag.remove_node(NodeIndex::new(2)) == Some(2));
        counts(rt, &dag, 3, 2);
    }
    dag
}

/// Adds a root and `children` children to an empty dag that has capacity for them.
pub fn fill<S: Kind>(rt: &impl Abort, dag: &mut Plain<S>, children: usize) {
    let root = made(rt, add_node(rt, dag, 0));
    for i in 0..children {
        assert!(rt; i < 100);
        let weights = (i + 100, i + 1);
        let _added = made(
            rt,
            add_neighbor(rt, dag, root, Direction::Outgoing, weights),
        );
        is_fan(rt, dag, i + 1, false);
    }
}
