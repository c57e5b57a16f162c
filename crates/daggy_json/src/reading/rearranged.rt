//! Whether the orders of a document are rearrangements of the lists of its graph.
ghost use Rattle.std.specs.Prelude.{◌≡◌, ◌≤◌, ◌↔◌, IsTrue, ℕ, length, map, vec_len, slice_index_or};
ghost use Rattle.std.specs.Prelude.{◌<◌, true, false, IfOk, replicate, slice_set};
ghost use Rattle.daggy_base.specs.FromSlots.{graph_of_slots, has_end, edges_by};
ghost use Rattle.daggy_base.specs.Orders.{AreOrders, numbers_of};
ghost use Rattle.daggy_json.specs.Found.{chosen, Marked, marked_with, AllMarked, marked_by};
ghost use Rattle.daggy_json.specs.Found.{LeavesNone, AreRearranged, EndsExist};

use crate::reading::orders::Row;
use daggy_base::index::{Direction, EdgeIndex, IndexType, NodeIndex};
use std::alloc::{AllocError, Global};

/// An edge slot: the edge's endpoints and weight, or `None` if the slot is vacant.
pub type Slot<E, Ix> = Option<(NodeIndex<Ix>, NodeIndex<Ix>, E)>;

// Whether the slot holds an edge whose endpoint in direction `dir` is this node.
fn is_at<E, Ix: IndexType>(edges: &Vec<Slot<E, Ix>>, e: usize, n: usize, dir: Direction) -> bool
    ensures { result ≡ has_end dir (edges_by Ix.number edges.now.items) n e }
{
    if e >= edges.len() {
        return false;
    }
    let Some(edge) = &edges[e] else {
        return false;
    };
    match dir {
        Direction::Outgoing => edge.0.index() == n,
        Direction::Incoming => edge.1.index() == n,
    }
}

#[inline]
fn is_marked(marks: &[bool], e: usize) -> bool
    requires { e < length marks.now }
    ensures { result ≡ slice_index_or marks.now e false }
{
    marks[e]
}

#[inline]
fn mark(marks: &mut [bool], e: usize)
    requires { e < length marks.old }
    ensures { marks.new ≡ slice_set marks.old e true }
{
    marks[e] = true;
}

fn unmark(marks: &mut [bool])
    ensures { marks.new ≡ replicate (length marks.old) false }
{
    marks.fill(false);
}

// Marks the edges of a list. False if one of them is not at the node, or was marked before.
pub(super) fn mark_list<E, Ix: IndexType>(
    edges: &Vec<Slot<E, Ix>>,
    list: &Vec<EdgeIndex<Ix>>,
    n: usize,
    dir: Direction,
    marks: &mut [bool],
) -> bool
    requires fits { vec_len edges.now ≤ length marks.old }
    ensures decided { IsTrue result
        ↔ Marked (has_end dir (edges_by Ix.number edges.now.items) n) marks.old
        (map Ix.number list.now.items) }
    ensures marked { IsTrue result
        → marks.new ≡ marked_with marks.old (map Ix.number list.now.items) }
    ensures kept { length marks.new ≡ length marks.old }
{
    for e in list {
        let i = e.index();
        if !is_at(edges, i, n, dir) || is_marked(marks, i) {
            return false;
        }
        mark(marks, i);
    }
    true
}

// The list of that direction.
fn list_of<Ix: IndexType>(row: &Row<Ix>, dir: Direction) -> &Vec<EdgeIndex<Ix>>
    ensures { map Ix.number result.now.items ≡ chosen dir (numbers_of Ix.number row.now) }
{
    match dir {
        Direction::Outgoing => &row.0,
        Direction::Incoming => &row.1,
    }
}

// Marks the edges of all lists of one direction. False if a list has an edge that is not at its
// node, or one twice, or if there are not as many lists as nodes.
fn mark_lists<N, E, Ix: IndexType>(
    nodes: &Vec<Option<N>>,
    edges: &Vec<Slot<E, Ix>>,
    rows: &Vec<Row<Ix>>,
    dir: Direction,
    marks: &mut [bool],
) -> bool
    requires fits { vec_len edges.now ≤ length marks.old }
    ensures decided { IsTrue result
        ↔ AllMarked (has_end dir (edges_by Ix.number edges.now.items)) 0 marks.old nodes.now.items
        (map (chosen dir) (map (numbers_of Ix.number) rows.now.items)) }
    ensures marked { IsTrue result → marks.new
        ≡ marked_by marks.old nodes.now.items
        (map (chosen dir) (map (numbers_of Ix.number) rows.now.items)) }
    ensures kept { length marks.new ≡ length marks.old }
{
    let mut passed = 0;
    for n in 0..nodes.len() {
        if nodes[n].is_some() {
            if passed >= rows.len()
                || !mark_list(edges, list_of(&rows[passed], dir), n, dir, marks)
            {
                return false;
            }
            passed += 1;
        }
    }
    passed == rows.len()
}

// Whether each edge is marked.
fn leaves_none<E, Ix: IndexType>(edges: &Vec<Slot<E, Ix>>, marks: &[bool]) -> bool
    requires fits { vec_len edges.now ≤ length marks.now }
    ensures { IsTrue result ↔ LeavesNone (edges_by Ix.number edges.now.items) marks.now }
{
    for e in 0..edges.len() {
        if edges[e].is_some() && !is_marked(marks, e) {
            return false;
        }
    }
    true
}

// Whether the lists of one direction are rearrangements.
fn is_rearranged<N, E, Ix: IndexType>(
    nodes: &Vec<Option<N>>,
    edges: &Vec<Slot<E, Ix>>,
    rows: &Vec<Row<Ix>>,
    dir: Direction,
    marks: &mut [bool],
) -> bool
    requires fits { length marks.old ≡ vec_len edges.now }
    ensures decided { IsTrue result
        ↔ AreRearranged dir nodes.now.items (edges_by Ix.number edges.now.items)
        (map (numbers_of Ix.number) rows.now.items) }
    ensures kept { length marks.new ≡ length marks.old }
{
    unmark(marks);
    mark_lists(nodes, edges, rows, dir, marks) && leaves_none(edges, marks)
}

// Whether the rows are an order of the lists of each node.
pub(super) fn are_orders<N, E, Ix: IndexType>(
    alloc: Global,
    nodes: &Vec<Option<N>>,
    edges: &Vec<Slot<E, Ix>>,
    rows: &Vec<Row<Ix>>,
) -> Result<bool, AllocError>
    requires { EndsExist nodes.now.items (edges_by Ix.number edges.now.items) }
    ensures { IfOk result (λ b. IsTrue b
        ↔ AreOrders (graph_of_slots nodes.now.items (edges_by Ix.number edges.now.items))
        (map (numbers_of Ix.number) rows.now.items)) }
{
    let mut list = Vec::new(alloc);
    list.resize(edges.len(), false)?;
    let marks = list.as_mut_slice();
    Ok(
        is_rearranged(nodes, edges, rows, Direction::Outgoing, marks)
            && is_rearranged(nodes, edges, rows, Direction::Incoming, marks),
    )
}
