//! The order of its nodes that a dag keeps, where its edges allow but one.
use super::script::{Answer, Call};
use super::support::{made, node, same};
use super::table::{Scene, both, compact, edge_added, fill_nodes, is, play_row, stable};
use daggy_base::index::IndexType;
use daggy_base::store::Store;
use daggy_dag::acyclic::Acyclic;
use std::alloc::Global;
use std::process::Abort;

/// An order has an exact length.
pub fn tell_length<Ix: IndexType, S: Store<Ix, NodeWeight = u32, EdgeWeight = u32>>(
    rt: &impl Abort,
    dag: &mut Acyclic<u32, u32, Ix, S>,
) {
    fill_nodes(rt, dag, 3);
    is(rt, edge_added(rt, dag, (2, 0), 1), Answer::Edge(0));
    let mut order = dag.topological_order();
    same(rt, order.len(), 3);
    same(rt, order.next(), Some(node(rt, 2)));
    same(rt, order.size_hint(), (2, Some(2)));
}

#[test]
fn an_order_tells_its_length(rt: HostRuntime) {
    both(&rt, rt.alloc(), Scene::Length);
}

/// An order is read from its end, and from both ends till they meet.
pub fn read_backwards<Ix: IndexType, S: Store<Ix, NodeWeight = u32, EdgeWeight = u32>>(
    rt: &impl Abort,
    dag: &mut Acyclic<u32, u32, Ix, S>,
) {
    fill_nodes(rt, dag, 4);
    for (e, ends) in [(3, 1), (1, 2), (2, 0)].iter().enumerate() {
        is(rt, edge_added(rt, dag, *ends, 1), Answer::Edge(e));
    }
    let mut order = dag.topological_order().rev();
    for n in [0, 2, 1, 3] {
        same(rt, order.next(), Some(node(rt, n)));
    }
    same(rt, order.next(), None);
    let mut order = dag.topological_order();
    for (first, last) in [(3, 0), (1, 2)] {
        same(rt, order.next(), Some(node(rt, first)));
        same(rt, order.next_back(), Some(node(rt, last)));
    }
    same(rt, order.len(), 0);
    same(rt, order.next_back(), None);
}

#[test]
fn an_order_is_read_backwards(rt: HostRuntime) {
    both(&rt, rt.alloc(), Scene::Backwards);
}

#[test]
fn what_is_removed_leaves_the_order(rt: HostRuntime) {
    const ROWS: &str = "
        node 10 = node 0
        child 0 1 11 = edge_node 0 1
        parent 0 2 12 = edge_node 1 2
        order = nodes 2 0 1
        # The last node gets the index that is gone.
        remove_node 0 = weight 10
        order = nodes 0 1
        clear = done
        order = nodes
    ";
    const AFTER: &str = "
        node 10 = node 0
        child 0 1 11 = edge_node 0 1
        parent 0 2 12 = edge_node 1 2
        remove_node 0 = weight 10
        order = nodes 2 1
    ";
    compact(&rt, rt.alloc(), Scene::Rows(ROWS));
    stable(&rt, rt.alloc(), Scene::Rows(AFTER));
}

// Enough edges that they are sorted at the end: parallel ones from 0 to 1, and then a path
// through nodes, which leads to older ones.
fn long_path(rt: &impl Abort, alloc: Global, back: &[(usize, usize)]) -> Vec<(usize, usize, u32)> {
    let mut path = Vec::new(alloc);
    for weight in 0..40 {
        made(rt, path.push((0, 1, weight)));
    }
    for (a, b) in back {
        made(rt, path.push((*a, *b, 50)));
    }
    path
}

/// These indices, then all from `from` to `end`.
pub fn indices(
    rt: &impl Abort,
    alloc: Global,
    first: &[usize],
    from: usize,
    end: usize,
) -> Vec<usize> {
    let mut indices = Vec::new(alloc);
    for index in first {
        made(rt, indices.push(*index));
    }
    for index in from..end {
        made(rt, indices.push(index));
    }
    indices
}

// The weights of the path, the last one first.
fn weights_back(rt: &impl Abort, alloc: Global) -> Vec<u32> {
    let mut weights = Vec::new(alloc);
    for _ in 0..6 {
        made(rt, weights.push(50));
    }
    for i in 0..40u32 {
        made(rt, weights.push(39 - i));
    }
    weights
}

/// A long series that closes a cycle comes back, and one that agrees with no order so far is
/// sorted.
pub fn sort_long_series<Ix: IndexType, S: Store<Ix, NodeWeight = u32, EdgeWeight = u32>>(
    rt: &impl Abort,
    alloc: Global,
    dag: &mut Acyclic<u32, u32, Ix, S>,
) {
    let path = long_path(rt, alloc, &[(2, 0), (3, 2), (4, 3), (5, 4), (6, 5), (7, 6)]);
    let added = indices(rt, alloc, &[], 0, 46);
    let back = weights_back(rt, alloc);
    let (path, added, back) = (path.as_slice(), added.as_slice(), back.as_slice());
    fill_nodes(rt, dag, 8);
    play_row(rt, alloc, dag, Call::Edge(1, 2, 9), Answer::Edge(0));
    play_row(rt, alloc, dag, Call::Edges(path), Answer::CycleAll(back));
    play_row(rt, alloc, dag, Call::Counts, Answer::Counts(8, 1));
    play_row(rt, alloc, dag, Call::RemoveEdge(0), Answer::Weight(9));
    play_row(rt, alloc, dag, Call::Edges(path), Answer::Edges(added));
    let wanted = Answer::Nodes(&[7, 6, 5, 4, 3, 2, 0, 1]);
    play_row(rt, alloc, dag, Call::Order, wanted);
}

/// A long series over a dag in which a slot of a node is vacant, and one of an edge.
pub fn sort_round_vacant_slots<Ix: IndexType, S: Store<Ix, NodeWeight = u32, EdgeWeight = u32>>(
    rt: &impl Abort,
    alloc: Global,
    dag: &mut Acyclic<u32, u32, Ix, S>,
) {
    fill_nodes(rt, dag, 9);
    play_row(rt, alloc, dag, Call::Edge(5, 4, 1), Answer::Edge(0));
    play_row(rt, alloc, dag, Call::Edge(1, 2, 1), Answer::Edge(1));
    play_row(rt, alloc, dag, Call::RemoveNode(5), Answer::Weight(5));
    play_row(rt, alloc, dag, Call::RemoveEdge(1), Answer::Weight(1));
    let path = long_path(rt, alloc, &[(2, 0), (3, 2), (4, 3), (6, 4), (7, 6), (8, 7)]);
    let added = indices(rt, alloc, &[1, 0], 2, 46);
    let (path, added) = (path.as_slice(), added.as_slice());
    play_row(rt, alloc, dag, Call::Edges(path), Answer::Edges(added));
    let wanted = Answer::Nodes(&[8, 7, 6, 4, 3, 2, 0, 1]);
    play_row(rt, alloc, dag, Call::Order, wanted);
}

#[test]
fn a_long_series_is_sorted_at_its_end(rt: HostRuntime) {
    both(&rt, rt.alloc(), Scene::LongSeries);
    stable(&rt, rt.alloc(), Scene::RoundVacantSlots);
}
