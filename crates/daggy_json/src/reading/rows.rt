//! The first wrong entry of the orders of a document.
ghost use Rattle.std.specs.Prelude.{ℕ, List, ◌≡◌, ◌<◌, ◌≤◌, ◌↔◌, IsTrue, Some, false, length, map};
ghost use Rattle.std.specs.Prelude.{vec_len, count_by, is_some, slice_index, slice_index_or, IfOk};
ghost use Rattle.std.specs.Option.{option_map};
ghost use Rattle.serde_json.specs.View.{view};
ghost use Rattle.daggy_base.specs.Graph.{Edge, slot, near_end};
ghost use Rattle.daggy_base.specs.FromSlots.{graph_of_slots, has_end, edges_by, down_from};
ghost use Rattle.daggy_base.specs.Orders.{AreOrders};
ghost use Rattle.daggy_base.specs.declared.index.Direction.TheVariants.{Outgoing, Incoming};
ghost use Rattle.daggy_json.specs.Reading.{orders_in};
ghost use Rattle.daggy_json.specs.Found.{EndsExist};
ghost use Rattle.daggy_json.specs.Fault.{AreWrongAt};
ghost use Rattle.daggy_json.specs.FoundFault.{AreCounts, IsListOf, MarksOnly, AreFresh, HasEdges};
ghost use Rattle.daggy_json.specs.FoundFault.{AreSearched};
ghost use Rattle.daggy_json.specs.declared.error.ReadError.TheVariants.{Orders as WrongOrders};
ghost use Rattle.daggy_json.specs.declared.fault.Member.TheVariants.{Orders};

use crate::error::ReadError;
use crate::fault::{Fault, Member};
use crate::reading::orders::read_row;
use crate::reading::rearranged::{Slot, mark_list};
use daggy_base::index::{Direction, EdgeIndex, IndexType};
use serde_json::Value;
use std::alloc::{AllocError, Global};

// How many nodes there are.
fn count_nodes<N>(nodes: &Vec<Option<N>>) -> usize
    ensures { result ≡ count_by is_some nodes.now.items }
{
    let mut count = 0;
    for n in 0..nodes.len() {
        if nodes[n].is_some() {
            count += 1;
        }
    }
    count
}

// The endpoint in direction `dir` of an edge.
fn end_of<E, Ix: IndexType>(edges: &Vec<Slot<E, Ix>>, e: usize, dir: Direction) -> Option<usize>
    requires { e < vec_len edges.now }
    ensures { result ≡ option_map (near_end dir) (slot (edges_by Ix.number edges.now.items) e) }
{
    let Some(edge) = &edges[e] else {
        return None;
    };
    match dir {
        Direction::Outgoing => Some(edge.0.index()),
        Direction::Incoming => Some(edge.1.index()),
    }
}

// Counts the edges of each node in that direction.
fn count_into<E, Ix: IndexType>(edges: &Vec<Slot<E, Ix>>, dir: Direction, counts: &mut [usize])
    requires ends { (e : ℕ) (x : Edge E) → slot (edges_by Ix.number edges.now.items) e ≡ Some x
        → near_end dir x < length counts.old }
    requires none { (i : ℕ) → slice_index counts.old i ≡ 0 }
    ensures { AreCounts (has_end dir (edges_by Ix.number edges.now.items)) (length counts.old)
        (length edges.now.items) counts.new }
{
    for e in 0..edges.len() {
        if let Some(n) = end_of(edges, e, dir) {
            counts[n] += 1;
        }
    }
}

// How many edges each node has in that direction.
fn count_edges<E, Ix: IndexType>(
    alloc: Global,
    nodes: usize,
    edges: &Vec<Slot<E, Ix>>,
    dir: Direction,
) -> Result<Vec<usize>, AllocError>
    requires { (e : ℕ) (x : Edge E) → slot (edges_by Ix.number edges.now.items) e ≡ Some x
        → near_end dir x < nodes }
    ensures { IfOk result (λ v. AreCounts (has_end dir (edges_by Ix.number edges.now.items)) nodes
        (length edges.now.items) v.items) }
{
    let mut counts = Vec::new(alloc);
    counts.resize(nodes, 0)?;
    count_into(edges, dir, counts.as_mut_slice());
    Ok(counts)
}

// Whether the list is a permutation of the `count` edges of the node. Marks the edges in the list.
fn is_list<E, Ix: IndexType>(
    edges: &Vec<Slot<E, Ix>>,
    list: &Vec<EdgeIndex<Ix>>,
    n: usize,
    dir: Direction,
    count: usize,
    marks: &mut [bool],
) -> bool
    requires fits { vec_len edges.now ≤ length marks.old }
    requires count { count ≡ length (down_from (has_end dir (edges_by Ix.number edges.now.items) n)
        (length edges.now.items)) }
    requires fresh { AreFresh (has_end dir (edges_by Ix.number edges.now.items) n) marks.old }
    ensures decided { IsTrue result
        ↔ IsListOf (has_end dir (edges_by Ix.number edges.now.items) n) (length edges.now.items)
        (map Ix.number list.now.items) }
    ensures marked { IsTrue result
        → MarksOnly (has_end dir (edges_by Ix.number edges.now.items) n) marks.old marks.new }
    ensures kept { length marks.new ≡ length marks.old }
{
    list.len() == count && mark_list(edges, list, n, dir, marks)
}

// Whether the value is a permutation of the lists of the node. Marks its edges.
fn has_lists<E, Ix: IndexType>(
    alloc: Global,
    value: &Value,
    edges: &Vec<Slot<E, Ix>>,
    n: usize,
    counts: (usize, usize),
    out_marks: &mut [bool],
    in_marks: &mut [bool],
) -> Result<bool, AllocError>
    requires few { vec_len edges.now ≤ Ix.greatest }
    requires out_fits { vec_len edges.now ≤ length out_marks.old }
    requires in_fits { vec_len edges.now ≤ length in_marks.old }
    requires out_count { counts.0
        ≡ length (down_from (has_end Outgoing (edges_by Ix.number edges.now.items) n)
        (length edges.now.items)) }
    requires in_count { counts.1
        ≡ length (down_from (has_end Incoming (edges_by Ix.number edges.now.items) n)
        (length edges.now.items)) }
    requires out_fresh { AreFresh (has_end Outgoing (edges_by Ix.number edges.now.items) n)
        out_marks.old }
    requires in_fresh { AreFresh (has_end Incoming (edges_by Ix.number edges.now.items) n)
        in_marks.old }
    ensures decided { IfOk result (λ b.
        IsTrue b ↔ HasEdges (edges_by Ix.number edges.now.items) n (view value.now)) }
    ensures out_marked { IfOk result (λ b. IsTrue b
        → MarksOnly (has_end Outgoing (edges_by Ix.number edges.now.items) n)
        out_marks.old out_marks.new) }
    ensures in_marked { IfOk result (λ b. IsTrue b
        → MarksOnly (has_end Incoming (edges_by Ix.number edges.now.items) n)
        in_marks.old in_marks.new) }
    ensures out_kept { length out_marks.new ≡ length out_marks.old }
    ensures in_kept { length in_marks.new ≡ length in_marks.old }
{
    let Some(row) = read_row(alloc, value, edges.len())? else {
        return Ok(false);
    };
    Ok(
        is_list(edges, &row.0, n, Direction::Outgoing, counts.0, out_marks)
            && is_list(edges, &row.1, n, Direction::Incoming, counts.1, in_marks),
    )
}

// The first entry that is not a permutation of the lists of its node, where no edge is marked.
fn find_in_marks<N, E, Ix: IndexType>(
    alloc: Global,
    list: &Vec<Value>,
    nodes: &Vec<Option<N>>,
    edges: &Vec<Slot<E, Ix>>,
    counts: &(Vec<usize>, Vec<usize>),
    out_marks: &mut [bool],
    in_marks: &mut [bool],
) -> Result<Option<usize>, AllocError>
    requires few { vec_len edges.now ≤ Ix.greatest }
    requires long { vec_len list.now ≡ count_by is_some nodes.now.items }
    requires out_counts { AreCounts (has_end Outgoing (edges_by Ix.number edges.now.items))
        (length nodes.now.items) (length edges.now.items) counts.now.0.items }
    requires in_counts { AreCounts (has_end Incoming (edges_by Ix.number edges.now.items))
        (length nodes.now.items) (length edges.now.items) counts.now.1.items }
    requires out_fits { vec_len edges.now ≤ length out_marks.old }
    requires in_fits { vec_len edges.now ≤ length in_marks.old }
    requires out_none { (e : ℕ) → slice_index_or out_marks.old e false ≡ false }
    requires in_none { (e : ℕ) → slice_index_or in_marks.old e false ≡ false }
    ensures { IfOk result (λ o. AreSearched
        (graph_of_slots nodes.now.items (edges_by Ix.number edges.now.items))
        (map view list.now.items) o) }
{
    let mut passed = 0;
    for n in 0..nodes.len() {
        if nodes[n].is_some() {
            let degrees = (counts.0[n], counts.1[n]);
            let value = &list[passed];
            if !has_lists(alloc, value, edges, n, degrees, out_marks, in_marks)? {
                return Ok(Some(passed));
            }
            passed += 1;
        }
    }
    Ok(None)
}

// The first entry that is not a permutation of the lists of its node.
fn find_wrong_row<N, E, Ix: IndexType>(
    alloc: Global,
    list: &Vec<Value>,
    nodes: &Vec<Option<N>>,
    edges: &Vec<Slot<E, Ix>>,
) -> Result<Option<usize>, AllocError>
    requires few { vec_len edges.now ≤ Ix.greatest }
    requires long { vec_len list.now ≡ count_by is_some nodes.now.items }
    requires ends { EndsExist nodes.now.items (edges_by Ix.number edges.now.items) }
    ensures { IfOk result (λ o. AreSearched
        (graph_of_slots nodes.now.items (edges_by Ix.number edges.now.items))
        (map view list.now.items) o) }
{
    let out_counts = count_edges(alloc, nodes.len(), edges, Direction::Outgoing)?;
    let in_counts = count_edges(alloc, nodes.len(), edges, Direction::Incoming)?;
    let counts = (out_counts, in_counts);
    let mut out_list = Vec::new(alloc);
    out_list.resize(edges.len(), false)?;
    let mut in_list = Vec::new(alloc);
    in_list.resize(edges.len(), false)?;
    let out_marks = out_list.as_mut_slice();
    let in_marks = in_list.as_mut_slice();
    find_in_marks(alloc, list, nodes, edges, &counts, out_marks, in_marks)
}

// The fault of orders that are not those of the graph.
pub(super) fn wrong_orders<N, E, Ix: IndexType>(
    alloc: Global,
    value: &Value,
    nodes: &Vec<Option<N>>,
    edges: &Vec<Slot<E, Ix>>,
) -> Result<Fault, AllocError>
    requires few { vec_len edges.now ≤ Ix.greatest }
    requires ends { EndsExist nodes.now.items (edges_by Ix.number edges.now.items) }
    requires wrong { (orders : List (List ℕ × List ℕ)) → orders_in (view value.now) ≡ Some orders
        → ¬ AreOrders (graph_of_slots nodes.now.items (edges_by Ix.number edges.now.items)) orders }
    ensures error { IfOk result (λ f. f.error ≡ WrongOrders) }
    ensures member { IfOk result (λ f. f.place.member ≡ Orders) }
    ensures place { IfOk result (λ f.
        AreWrongAt (graph_of_slots nodes.now.items (edges_by Ix.number edges.now.items))
        (view value.now) f.place.entry) }
{
    let whole = Fault::of(ReadError::Orders, Member::Orders);
    let Some(list) = value.as_array() else {
        return Ok(whole);
    };
    if list.len() != count_nodes(nodes) {
        return Ok(whole);
    }
    match find_wrong_row(alloc, list, nodes, edges)? {
        Some(i) => Ok(Fault::at(ReadError::Orders, Member::Orders, i)),
        None => Ok(whole),
    }
}
