//! Prefetching, for graphs that are larger than the caches.
//!
//! A walk along one list waits for each edge before the next one. Reads along several lists
//! overlap. These functions always return true; the compiler does not know that, so it keeps the
//! reads.
ghost use Rattle.std.specs.Prelude.{IsTrue, IfSome};

use crate::walk::step;
use daggy_base::index::{Direction, EdgeIndex, IndexType, NodeIndex};
use daggy_base::read_store::ReadStore;

/// A graph with at least this many edges is expected not to fit the second-level cache, so that a
/// prefetch is worth its cost.
pub const PREFETCH_FROM: usize = 1 << 15;

// The greatest number of edges of a list that are read side by side with other lists.
const MOST: usize = 512;

/// Reads an edge that is followed later. Always returns true.
#[inline]
pub fn touch_edge<Ix: IndexType, S: ReadStore<Ix>>(graph: &S, e: EdgeIndex<Ix>) -> bool
    ensures { IsTrue result }
{
    graph.invariant();
    match graph.edge_endpoints(e) {
        Some(ends) => ends.0.index() < graph.node_slots(),
        None => true,
    }
}

// Moves a cursor to the edge after it in its list. Returns `None` if there is no edge at the cursor,
// and else whether the edge has a parent, which is always true.
#[inline]
fn touch_next<Ix: IndexType, S: ReadStore<Ix>>(
    graph: &S,
    dir: Direction,
    cursor: &mut usize,
) -> Option<bool>
    ensures { IfSome result (λ answer. IsTrue answer) }
{
    graph.invariant();
    if *cursor >= graph.edge_slots() {
        return None;
    }
    let e = EdgeIndex::new(*cursor);
    if !graph.contains_edge_index(e) {
        return None;
    }
    let answer = touch_edge(graph, e);
    *cursor = graph.next_edge(e, dir).index();
    Some(answer)
}

/// In a large graph, reads several lists in step, each from the edge with the index in `cursors`,
/// until only one list is left or 512 edges of each have been read. Always returns true.
#[inline(never)]
pub fn touch_lists<Ix: IndexType, S: ReadStore<Ix>>(
    graph: &S,
    dir: Direction,
    cursors: &mut [usize],
) -> bool
    ensures { IsTrue result }
{
    if graph.edge_slots() < PREFETCH_FROM {
        return true;
    }
    for _ in 0..MOST {
        let mut lists = 0usize;
        for cursor in cursors.iter_mut() {
            if let Some(answer) = touch_next(graph, dir, cursor) {
                lists = lists.wrapping_add(1);
                if !answer {
                    return false;
                }
            }
        }
        if lists < 2 {
            break;
        }
    }
    true
}

/// Reads up to `most` edges of a list of a node. Always returns true.
#[inline]
pub fn touch_list<Ix: IndexType, S: ReadStore<Ix>>(
    graph: &S,
    n: NodeIndex<Ix>,
    dir: Direction,
    most: usize,
) -> bool
    ensures { IsTrue result }
{
    graph.invariant();
    let end = EdgeIndex::<Ix>::end().index();
    let mut e = graph.first_edge(n, dir);
    'edges: for _i in 0..most {
        if e.index() == end {
            return true;
        }
        if !graph.contains_edge_index(e) {
            return false;
        }
        e = graph.next_edge(e, dir);
    }
    e.index() == end || graph.contains_edge_index(e)
}

/// Reads the list head of each neighbor of a node. Always returns true.
///
/// A removal of the node's edges reads the same list heads, and each read waits for the removal
/// before it; these reads wait only for the walk along the node's own list.
#[inline]
pub fn touch_neighbors<Ix: IndexType, S: ReadStore<Ix>>(
    graph: &S,
    n: NodeIndex<Ix>,
    dir: Direction,
) -> bool
    ensures { IsTrue result }
{
    graph.invariant();
    let mut cursor = graph.first_edge(n, dir);
    'edges: for _i in 0..graph.edge_slots() {
        let Some((_e, far)) = step(graph, dir, &mut cursor) else {
            return true;
        };
        let mut first = graph.first_edge(far, dir.opposite());
        let Some((_first, same)) = step(graph, dir, &mut first) else {
            return false;
        };
        if same.index() != far.index() {
            return false;
        }
    }
    true
}
