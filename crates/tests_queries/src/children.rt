//! The order of the children of a node, worked out by hand.
use crate::support::{holds, lists, made, node, same};
use daggy::operators::{move_child_before, sort_children_by_key};
use daggy::traversal::{children_oldest_first, edges_oldest_first};
use daggy_base::index::Direction::Incoming;
use daggy_base::index::EdgeIndex;
use daggy_base::store::Store;
use daggy_dag::acyclic::Acyclic;
use daggy_graph::graph::DiGraph;
use daggy_stable::stable_graph::StableDiGraph;
use std::alloc::{AllocError, Global};
use std::process::Abort;

type Plain<S> = Acyclic<u64, (), u32, S>;

// The edges 0 to 3 leave node 0, and the edge 4 leaves node 1.
const EDGES: [(usize, usize); 5] = [(0, 1), (0, 2), (0, 3), (0, 4), (1, 3)];

fn fan<S: Store<u32, NodeWeight = u64, EdgeWeight = ()>>(
    rt: &impl Abort,
    alloc: Global,
) -> Plain<S> {
    let mut dag = Plain::<S>::new(alloc);
    for n in 0..5 {
        if dag.try_add_node(n).is_err() {
            let _added = made(rt, dag.try_add_node(n));
        }
    }
    for (a, b) in EDGES.iter() {
        let (a, b) = (node(rt, *a), node(rt, *b));
        if dag.try_add_edge(a, b, ()).is_err() {
            let _added = made(rt, dag.try_add_edge(a, b, ()));
        }
    }
    dag
}

fn numbered(rt: &impl Abort, e: usize) -> EdgeIndex {
    assert!(rt; e <= EdgeIndex::<u32>::end().index());
    EdgeIndex::new(e)
}

// Asserts the children of a node, newest edge first.
fn children<S: Store<u32, NodeWeight = u64, EdgeWeight = ()>>(
    rt: &impl Abort,
    alloc: Global,
    dag: &Plain<S>,
    n: usize,
    wanted: &[usize],
) {
    let n = node(rt, n);
    let mut found = match children_oldest_first(alloc, dag.graph(), n) {
        Ok(found) => found,
        Err(AllocError) => made(rt, children_oldest_first(alloc, dag.graph(), n)),
    };
    found.reverse();
    lists(rt, found.as_slice(), wanted);
}

// Asserts whether an edge is moved. A call that is refused changes nothing, and is made again.
fn moves<S: Store<u32, NodeWeight = u64, EdgeWeight = ()>>(
    rt: &impl Abort,
    alloc: Global,
    dag: &mut Plain<S>,
    (edge, before): (usize, usize),
    wanted: bool,
) {
    let (edge, before) = (numbered(rt, edge), numbered(rt, before));
    let moved = match move_child_before(alloc, dag, edge, before) {
        Ok(moved) => moved,
        Err(AllocError) => made(rt, move_child_before(alloc, dag, edge, before)),
    };
    same(rt, moved, wanted);
}

fn moved<S: Store<u32, NodeWeight = u64, EdgeWeight = ()>>(rt: &impl Abort, alloc: Global) {
    let mut dag = fan::<S>(rt, alloc);
    children(rt, alloc, &dag, 0, &[4, 3, 2, 1]);
    // To the front, to the place where it is, and backward.
    moves(rt, alloc, &mut dag, (0, 3), true);
    children(rt, alloc, &dag, 0, &[1, 4, 3, 2]);
    moves(rt, alloc, &mut dag, (0, 3), true);
    children(rt, alloc, &dag, 0, &[1, 4, 3, 2]);
    moves(rt, alloc, &mut dag, (3, 1), true);
    children(rt, alloc, &dag, 0, &[1, 3, 4, 2]);
    // The lists of other nodes stay.
    children(rt, alloc, &dag, 1, &[3]);
    let parents = made(
        rt,
        edges_oldest_first(alloc, dag.graph(), node(rt, 3), Incoming),
    );
    same(rt, parents.len(), 2);
    same(rt, parents.first().map(|p| p.0.index()), Some(2));
}

fn not_moved<S: Store<u32, NodeWeight = u64, EdgeWeight = ()>>(rt: &impl Abort, alloc: Global) {
    let mut dag = fan::<S>(rt, alloc);
    // The same edge, edges of different nodes, and edges that do not exist.
    moves(rt, alloc, &mut dag, (1, 1), false);
    moves(rt, alloc, &mut dag, (2, 4), false);
    moves(rt, alloc, &mut dag, (4, 2), false);
    moves(rt, alloc, &mut dag, (9, 2), false);
    moves(rt, alloc, &mut dag, (2, 9), false);
    moves(rt, alloc, &mut dag, (9, 9), false);
    children(rt, alloc, &dag, 0, &[4, 3, 2, 1]);
}

// Past vacant slots, and a new edge becomes the first.
fn moved_after_removals<S: Store<u32, NodeWeight = u64, EdgeWeight = ()>>(
    rt: &impl Abort,
    alloc: Global,
) {
    let mut dag = fan::<S>(rt, alloc);
    holds(rt, dag.remove_node(node(rt, 2)).is_some());
    moves(rt, alloc, &mut dag, (0, 2), true);
    children(rt, alloc, &dag, 0, &[4, 1, 3]);
    moves(rt, alloc, &mut dag, (1, 2), false);
    let _added = made(rt, dag.try_add_node(7));
    let _added = made(rt, dag.try_add_edge(node(rt, 0), node(rt, 2), ()));
    children(rt, alloc, &dag, 0, &[2, 4, 1, 3]);
    moves(rt, alloc, &mut dag, (1, 2), true);
    children(rt, alloc, &dag, 0, &[4, 1, 2, 3]);
}

// Sorts by keys below 4. A call that is refused changes nothing, and is made again.
fn sorts<S: Store<u32, NodeWeight = u64, EdgeWeight = ()>>(
    rt: &impl Abort,
    alloc: Global,
    dag: &mut Plain<S>,
    n: usize,
    turn: u64,
) {
    let n = node(rt, n);
    if sort_children_by_key(alloc, dag, n, |_, weight| (*weight ^ turn) % 4).is_err() {
        made(
            rt,
            sort_children_by_key(alloc, dag, n, |_, weight| (*weight ^ turn) % 4),
        );
    }
}

fn sorted<S: Store<u32, NodeWeight = u64, EdgeWeight = ()>>(rt: &impl Abort, alloc: Global) {
    let mut dag = fan::<S>(rt, alloc);
    // The keys are 1, 2, 3 and 0.
    sorts(rt, alloc, &mut dag, 0, 0);
    children(rt, alloc, &dag, 0, &[4, 1, 2, 3]);
    // They are 2, 1, 0 and 3.
    sorts(rt, alloc, &mut dag, 0, 3);
    children(rt, alloc, &dag, 0, &[3, 2, 1, 4]);
    children(rt, alloc, &dag, 1, &[3]);
    // A node without children, and none.
    sorts(rt, alloc, &mut dag, 4, 0);
    sorts(rt, alloc, &mut dag, 9, 0);
    children(rt, alloc, &dag, 0, &[3, 2, 1, 4]);
    // Children with equal keys stay in order, and a child comes once for each edge.
    let _added = made(rt, dag.try_add_edge(node(rt, 0), node(rt, 2), ()));
    let n = node(rt, 0);
    made(
        rt,
        sort_children_by_key(alloc, &mut dag, n, |_, weight| *weight % 2),
    );
    children(rt, alloc, &dag, 0, &[2, 2, 4, 3, 1]);
    made(
        rt,
        sort_children_by_key(alloc, &mut dag, n, |child, _| child.index()),
    );
    children(rt, alloc, &dag, 0, &[1, 2, 2, 3, 4]);
}

// Each call is made again if it is refused, and has changed nothing then.
fn again<S: Store<u32, NodeWeight = u64, EdgeWeight = ()>>(rt: &impl Abort, alloc: Global) {
    let mut dag = fan::<S>(rt, alloc);
    moves(rt, alloc, &mut dag, (0, 3), true);
    children(rt, alloc, &dag, 0, &[1, 4, 3, 2]);
    sorts(rt, alloc, &mut dag, 0, 0);
    children(rt, alloc, &dag, 0, &[4, 1, 2, 3]);
}

fn all<S: Store<u32, NodeWeight = u64, EdgeWeight = ()>>(rt: &impl Abort, alloc: Global) {
    moved::<S>(rt, alloc);
    not_moved::<S>(rt, alloc);
    sorted::<S>(rt, alloc);
}

#[test]
fn children_of_a_dag_are_moved_and_sorted(rt: HostRuntime) {
    all::<DiGraph<u64, (), u32>>(&rt, rt.alloc());
}

#[test]
fn children_of_a_stable_dag_are_moved_and_sorted(rt: HostRuntime) {
    all::<StableDiGraph<u64, (), u32>>(&rt, rt.alloc());
    moved_after_removals::<StableDiGraph<u64, (), u32>>(&rt, rt.alloc());
}

#[test]
fn refused_calls_of_moves_and_sorts_are_made_again(rt: HostRuntime) {
    again::<DiGraph<u64, (), u32>>(&rt, rt.alloc());
}
