//! The edges that enter a node, replaced all at once.
use super::acts::TRIANGLE;
use super::script::Answer;
use super::support::{holds, made, node, same};
use super::table::{Scene, both, compact, is, stable};
use daggy_base::error::{ParentsError, WouldCycle};
use daggy_base::index::{IndexType, NodeIndex};
use daggy_base::store::Store;
use daggy_dag::acyclic::Acyclic;
use std::alloc::Global;
use std::process::Abort;

fn items<Ix: IndexType>(
    rt: &impl Abort,
    alloc: Global,
    parents: &[(usize, u32)],
) -> Vec<(NodeIndex<Ix>, u32)> {
    let mut items = Vec::new(alloc);
    for (parent, weight) in parents {
        made(rt, items.push((node(rt, *parent), *weight)));
    }
    items
}

// Asserts that the items were returned unchanged, and how many they are.
fn came_back<Ix: IndexType>(
    rt: &impl Abort,
    back: &[(NodeIndex<Ix>, u32)],
    parents: &[(usize, u32)],
) -> u32 {
    let mut count = 0u32;
    for ((n, weight), (parent, given)) in back.iter().zip(parents) {
        same(rt, (n.index(), *weight), (*parent, *given));
        count = count.wrapping_add(1);
    }
    same(rt, back.len(), parents.len());
    count
}

/// Replaces the edges that enter a node. `Cycle` and `NoIndex` say how many items were returned.
pub fn set_parents<Ix: IndexType, S: Store<Ix, NodeWeight = u32, EdgeWeight = u32>>(
    rt: &impl Abort,
    alloc: Global,
    dag: &mut Acyclic<u32, u32, Ix, S>,
    n: usize,
    parents: &[(usize, u32)],
    wanted: Answer<'_>,
) {
    let (n, items) = (node(rt, n), items(rt, alloc, parents));
    holds(rt, dag.contains_node(n));
    holds(rt, dag.contains_parents(items.as_slice()));
    match dag.set_parents(n, items) {
        Ok(()) => is(rt, Answer::Done, wanted),
        Err(ParentsError::WouldCycle(WouldCycle(back))) => {
            let count = came_back(rt, back.as_slice(), parents);
            is(rt, Answer::Cycle(count), wanted);
        }
        Err(ParentsError::Full(back)) => {
            let count = came_back(rt, back.as_slice(), parents);
            is(rt, Answer::NoIndex(count), wanted);
        }
        Err(ParentsError::Memory(_)) => panic!(rt; "there is memory"),
    }
}

/// Asserts that not all of these nodes exist.
pub fn lack_some<Ix: IndexType, S: Store<Ix, NodeWeight = u32, EdgeWeight = u32>>(
    rt: &impl Abort,
    alloc: Global,
    dag: &Acyclic<u32, u32, Ix, S>,
    parents: &[(usize, u32)],
) -> Answer<'static> {
    let items = items(rt, alloc, parents);
    if dag.contains_parents(items.as_slice()) {
        Answer::Nothing
    } else {
        Answer::Done
    }
}

#[test]
fn parents_are_replaced_and_the_last_edges_move(rt: HostRuntime) {
    const ROWS: &str = "
        set_parents 2, 1 7, 1 8 = done
        counts = counts 3 3
        stored 0 = stored 0 1 100
        stored 1 = stored 1 2 7
        stored 2 = stored 1 2 8
        parents 2 = walk 2 1, 1 1
        parents 1 = walk 0 0
        children 0 = walk 0 1
        edge 2 0 9 = cycle 9
    ";
    compact(&rt, rt.alloc(), Scene::Twice(TRIANGLE, ROWS));
}

#[test]
fn parents_are_replaced_and_no_other_index_changes(rt: HostRuntime) {
    const ROWS: &str = "
        set_parents 2, 1 7, 1 8 = done
        counts = counts 3 3
        stored 0 = stored 0 1 100
        stored 1 = nothing
        stored 2 = nothing
        stored 3 = stored 1 2 7
        stored 4 = stored 1 2 8
        parents 2 = walk 4 1, 3 1
        children 0 = walk 0 1
        # The lowest old edge was removed last.
        edge 0 2 9 = edge 1
    ";
    // The slot of a removed edge is used again.
    const REUSED: &str = "
        remove_edge 0 = weight 100
        set_parents 2, 0 7, 1 8 = done
        counts = counts 3 2
        parents 2 = walk 3 1, 0 0
        stored 0 = stored 0 2 7
    ";
    stable(&rt, rt.alloc(), Scene::Twice(TRIANGLE, ROWS));
    stable(&rt, rt.alloc(), Scene::Twice(TRIANGLE, REUSED));
}

#[test]
fn parents_that_would_close_a_cycle_come_back(rt: HostRuntime) {
    const ROWS: &str = "
        set_parents 0, 2 5 = cycle 1
        set_parents 1, 0 5, 2 6 = cycle 2
        # The node itself.
        set_parents 2, 0 5, 2 6, 1 7 = cycle 3
        counts = counts 3 3
        parents 0 = walk
        parents 1 = walk 0 0
        parents 2 = walk 2 1, 1 0
        edge 0 1 7 = edge 3
    ";
    both(&rt, rt.alloc(), Scene::Twice(TRIANGLE, ROWS));
}

#[test]
fn a_node_may_lose_all_parents(rt: HostRuntime) {
    const ROWS: &str = "
        set_parents 2 = done
        set_parents 0 = done
        counts = counts 3 1
        parents 2 = walk
        # What would have closed a cycle does no more.
        set_parents 0, 2 5 = done
        edge 1 2 6 = cycle 6
        lack_some 0 1, 3 1 = done
        lack_some 0 1, 2 1 = nothing
    ";
    both(&rt, rt.alloc(), Scene::Twice(TRIANGLE, ROWS));
}

#[test]
fn parents_are_put_before_the_node_in_the_order(rt: HostRuntime) {
    const ROWS: &str = "
        nodes 4 = done
        set_parents 0, 2 5, 1 6, 3 7 = done
        parents 0 = walk 2 3, 1 1, 0 2
        set_parents 1, 2 8 = done
        set_parents 2, 0 9 = cycle 1
        set_parents 3, 1 9 = done
        order = nodes 2 1 3 0
    ";
    both(&rt, rt.alloc(), Scene::Rows(ROWS));
}

// Node 0 reaches 1 and 2. Nodes 4 and 6 have a parent each, so a search is needed for them.
#[test]
fn parents_that_stand_behind_are_moved_at_once(rt: HostRuntime) {
    const MADE: &str = "
        nodes 7 = done
        edges 0 1 0, 1 2 0, 3 4 0, 5 6 0 = edges 0 1 2 3
    ";
    const ROWS: &str = "
        set_parents 0, 4 7, 6 8, 4 9 = done
        order = nodes 3 4 5 6 0 1 2
        edge 2 5 1 = cycle 1
    ";
    // A parent that the node reaches stands before the last one.
    const CYCLE: &str = "
        set_parents 0, 4 7, 2 8, 6 9 = cycle 3
        set_parents 0, 4 7, 0 8, 6 9 = cycle 3
        counts = counts 7 4
        set_parents 0, 6 9 = done
    ";
    both(&rt, rt.alloc(), Scene::Twice(MADE, ROWS));
    both(&rt, rt.alloc(), Scene::Twice(MADE, CYCLE));
}

#[test]
fn parents_need_indices_beside_the_old_edges(rt: HostRuntime) {
    const ROWS: &str = "
        nodes 2 = done
        fill 0 1 = done
        set_parents 1, 0 9 = no_index 1
        set_parents 0, 1 9 = cycle 1
        counts = counts 2 255
        remove_edge 254 = weight 1
        set_parents 1, 0 8, 0 9 = no_index 2
        set_parents 1, 0 9 = done
        counts = counts 2 1
    ";
    both(&rt, rt.alloc(), Scene::Rows(ROWS));
}
