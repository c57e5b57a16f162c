//! Dags of numbers, and walks as numbers. What is generic over the store serves both kinds of dag.
pub use crate::support::{holds, made, node, same};
use daggy_base::index::{EdgeIndex, NodeIndex};
use daggy_base::store::Store;
use daggy_dag::acyclic::Acyclic;
use daggy_walk::walker::{FiniteWalker, Walker};
use std::alloc::Global;
use std::process::Abort;

/// A dag of either kind whose weights are numbers.
pub type Plain<S> = Acyclic<u32, u32, u32, S>;

/// What a walker over such a dag yields.
pub type Step = (EdgeIndex, NodeIndex);

/// Takes a walker over a dag that is `Copy`, and no other.
pub fn is_copy<G, W: Walker<G> + Copy>(_dag: &G, _walker: &W) {}

/// The index of an edge.
pub fn edge(rt: &impl Abort, x: usize) -> EdgeIndex {
    assert!(rt; x <= EdgeIndex::<u32>::end().index());
    EdgeIndex::new(x)
}

/// A dag with `nodes` nodes, whose weights are their indices, and these edges, of weight 0.
pub fn dag_of<S: Store<u32, NodeWeight = u32, EdgeWeight = u32>>(
    rt: &impl Abort,
    alloc: Global,
    nodes: u32,
    edges: &[(usize, usize)],
) -> Plain<S> {
    let mut dag = Plain::<S>::new(alloc);
    for weight in 0..nodes {
        assert!(rt; dag.can_add_node());
        made(rt, dag.add_node(weight));
    }
    for (a, b) in edges {
        add_edge(rt, &mut dag, *a, *b);
    }
    dag
}

/// Adds an edge of weight 0 that closes no cycle.
pub fn add_edge<S: Store<u32, NodeWeight = u32, EdgeWeight = u32>>(
    rt: &impl Abort,
    dag: &mut Plain<S>,
    a: usize,
    b: usize,
) {
    let (a, b) = (node(rt, a), node(rt, b));
    assert!(rt; dag.contains_node(a) && dag.contains_node(b));
    assert!(rt; dag.can_add_edge());
    made(rt, dag.add_edge(a, b, 0));
}

/// Adds a node below another one.
pub fn add_child<S: Store<u32, NodeWeight = u32, EdgeWeight = u32>>(
    rt: &impl Abort,
    dag: &mut Plain<S>,
    parent: usize,
    edge_weight: u32,
    node_weight: u32,
) {
    let parent = node(rt, parent);
    assert!(rt; dag.contains_node(parent));
    assert!(rt; dag.can_add_edge() && dag.can_add_node());
    made(rt, dag.add_child(parent, edge_weight, node_weight));
}

/// Adds a node above another one.
pub fn add_parent<S: Store<u32, NodeWeight = u32, EdgeWeight = u32>>(
    rt: &impl Abort,
    dag: &mut Plain<S>,
    child: usize,
    edge_weight: u32,
    node_weight: u32,
) {
    let child = node(rt, child);
    assert!(rt; dag.contains_node(child));
    assert!(rt; dag.can_add_edge() && dag.can_add_node());
    made(rt, dag.add_parent(child, edge_weight, node_weight));
}

/// Node 0, of weight 0, and below it nodes with these weights, each with that of its edge first.
pub fn family<S: Store<u32, NodeWeight = u32, EdgeWeight = u32>>(
    rt: &impl Abort,
    alloc: Global,
    weights: &[(u32, u32)],
) -> Plain<S> {
    let mut dag = dag_of(rt, alloc, 1, &[]);
    for (edge_weight, node_weight) in weights {
        add_child(rt, &mut dag, 0, *edge_weight, *node_weight);
    }
    dag
}

/// Nodes 0 to 5, and node 6 with an edge to each of them, that to node 5 newest.
pub fn six<S: Store<u32, NodeWeight = u32, EdgeWeight = u32>>(
    rt: &impl Abort,
    alloc: Global,
) -> Plain<S> {
    dag_of(
        rt,
        alloc,
        7,
        &[(6, 0), (6, 1), (6, 2), (6, 3), (6, 4), (6, 5)],
    )
}

/// The number of the node that a step yields.
pub fn far(step: Option<Step>) -> Option<usize> {
    match step {
        Some(item) => Some(item.1.index()),
        None => None,
    }
}

/// The numbers of the edge and of the node that a step yields.
pub fn numbers(step: Option<Step>) -> Option<(usize, usize)> {
    match step {
        Some(item) => Some((item.0.index(), item.1.index())),
        None => None,
    }
}

/// The weight of a node that a walk came to.
pub fn weight<S: Store<u32, NodeWeight = u32, EdgeWeight = u32>>(
    dag: &Plain<S>,
    item: &Step,
) -> u32 {
    match dag.node_weight(item.1) {
        Some(weight) => *weight,
        None => 99,
    }
}

/// The weight of an edge that a walk went along.
pub fn edge_weight<S: Store<u32, NodeWeight = u32, EdgeWeight = u32>>(
    dag: &Plain<S>,
    item: &Step,
) -> u32 {
    match dag.edge_weight(item.0) {
        Some(weight) => *weight,
        None => 99,
    }
}

/// Asserts that a walk as an iterator yields these edges and nodes, and then ends.
pub fn lists<G, W: FiniteWalker<G, Item = Step>>(
    rt: &impl Abort,
    graph: &G,
    walker: W,
    wanted: &[(usize, usize)],
)
    requires { W.can_walk walker graph.now }
{
    let mut count = 0usize;
    for item in walker.iter(graph) {
        same(rt, numbers(Some(item)), wanted.get(count).copied());
        count = count.wrapping_add(1);
    }
    same(rt, count, wanted.len());
}

/// Takes steps, and asserts which edges and nodes they yield.
pub fn steps<G, W: Walker<G, Item = Step>>(
    rt: &impl Abort,
    graph: &G,
    walker: &mut W,
    wanted: &[Option<(usize, usize)>],
)
    requires { W.can_walk walker.old graph.now }
    ensures { W.can_walk walker.new graph.now }
{
    for step in wanted {
        same(rt, numbers(walker.walk_next(graph)), *step);
    }
}

/// Takes steps, and asserts which nodes they yield.
pub fn goes<G, W: Walker<G, Item = Step>>(
    rt: &impl Abort,
    graph: &G,
    walker: &mut W,
    wanted: &[Option<usize>],
)
    requires { W.can_walk walker.old graph.now }
    ensures { W.can_walk walker.new graph.now }
{
    for step in wanted {
        same(rt, far(walker.walk_next(graph)), *step);
    }
}
