//! A shortest path from one node to another, found with a topological order.
ghost use Rattle.std.specs.Prelude.{◌≡◌, ℕ, ◌+◌, ◌<◌, ◌≤◌, ◌↔◌, List, None, Ok, true};
ghost use Rattle.std.specs.Prelude.{length, map, slice_index, Contains, IsTrue, IfOk, IfSome};
ghost use Rattle.daggy_base.specs.Graph.{HasNode, node_bound};
ghost use Rattle.daggy_base.specs.Path.{AreJoined, Reaches};
ghost use Rattle.daggy_base.specs.WellFormed.{IsWellFormed};
ghost use Rattle.daggy_base.specs.Ordered.{IsOrderOf, place, stretch, edges_from};
ghost use Rattle.daggy_search.specs.Work.{IsSized};
ghost use Rattle.daggy_order.specs.Paths.{IsShortestPath, LeadsBack};

use crate::list::LabeledList;
use crate::list::links::Links;
use crate::order::Order;
use daggy_base::index::{EdgeIndex, IndexType, NodeIndex};
use daggy_base::link::Link;
use daggy_base::source::EdgeSource;
use daggy_search::{Scratch, Worklist};
use std::alloc::{AllocError, Global};

// Searches breadth first for `to` among the nodes whose label is below `limit` (the label of `to`),
// and returns whether `from` reaches it. At the index of each entered node, the cursor is the node
// that it was entered from. Each parent's label must be lower than its children's.
fn note_parents<Ix: IndexType, S: EdgeSource<Ix>>(
    source: &mut S,
    from: NodeIndex<Ix>,
    to: NodeIndex<Ix>,
    links: &Links<Ix>,
    limit: u64,
    work: &mut Worklist<Ix>,
) -> bool
    requires well_formed { IsWellFormed Ix.greatest (S.graph source.old) }
    requires exists { HasNode (S.graph source.old) (Ix.number from) }
    requires placed { (n : ℕ) → HasNode (S.graph source.old) n → n < length links.now.labels }
    requires ascending { (u v : ℕ) → AreJoined (S.graph source.old) u v
        → slice_index links.now.labels u < slice_index links.now.labels v }
    requires limit_is { slice_index links.now.labels (Ix.number to) ≡ limit }
    requires before { slice_index links.now.labels (Ix.number from) < limit }
    requires fits { node_bound (S.graph source.old) ≤ work.old.size }
    ensures decided { IsTrue result
        ↔ Reaches (S.graph source.old) (Ix.number from) (Ix.number to) }
    ensures back { result ≡ true → LeadsBack (S.graph source.old) (Ix.number from) (Ix.number to)
        work.new.entered work.new.cursors }
    ensures same { S.graph source.new ≡ S.graph source.old }
    ensures looked { S.looks source.old ≤ S.looks source.new }
    ensures counted { (ns : List ℕ)
        → ((n : ℕ) → HasNode (S.graph source.old) n
        → slice_index links.now.labels (Ix.number from) ≤ slice_index links.now.labels n
        → slice_index links.now.labels n < limit → Contains ns n)
        → S.looks source.new ≤ S.looks source.old + edges_from (S.graph source.old) ns }
    ensures sized { IsSized work.old.size work.new }
{
    let target = to.index();
    let end = EdgeIndex::<Ix>::end().index();
    let mut u = Link::of_node(from);
    work.begin();
    work.enter(from.index());
    work.put_node(0, u);
    let mut count = 1;
    let mut head = 0;
    let mut e = source.first(from);
    'steps: loop {
        if e.index() == end {
            head += 1;
            if head == count {
                return false;
            }
            u = work.node(head);
            e = source.first(u.node());
        } else {
            let (v, next) = source.look(e);
            let i = v.index();
            if links.label(i) < limit {
                if !work.is_entered(i) {
                    work.enter(i);
                    work.put_cursor(i, u);
                    work.put_node(count, Link::of_node(v));
                    count += 1;
                }
            } else if i == target {
                work.enter(i);
                work.put_cursor(i, u);
                return true;
            }
            e = next;
        }
    }
}

// The same as `path_in`, with a list of all nodes in topological order in which `from` precedes
// `to`.
fn path_before<Ix: IndexType, S: EdgeSource<Ix>>(
    alloc: Global,
    source: &mut S,
    from: NodeIndex<Ix>,
    to: NodeIndex<Ix>,
    list: &LabeledList<Ix>,
    work: &mut Worklist<Ix>,
) -> Result<Option<Vec<NodeIndex<Ix>>>, AllocError>
    requires from { HasNode (S.graph source.old) (Ix.number from) }
    requires to { HasNode (S.graph source.old) (Ix.number to) }
    requires ordered { IsOrderOf (S.graph source.old) list.now.nodes }
    requires before { place list.now.nodes (Ix.number from) < place list.now.nodes (Ix.number to) }
    requires fits { node_bound (S.graph source.old) ≤ work.old.size }
    ensures path { IfOk result (λ found. IfSome found (λ path.
        IsShortestPath (S.graph source.old) (Ix.number from) (Ix.number to)
        (map Ix.number path.items))) }
    ensures none { (result ≡ Ok None)
        ↔ ¬ Reaches (S.graph source.old) (Ix.number from) (Ix.number to) }
    ensures same { S.graph source.new ≡ S.graph source.old }
    ensures looked { S.looks source.old ≤ S.looks source.new }
    ensures counted { S.looks source.new ≤ S.looks source.old
        + edges_from (S.graph source.old)
        (stretch list.now.nodes (place list.now.nodes (Ix.number from))
        (place list.now.nodes (Ix.number to))) }
    ensures kept { work.new.size ≡ work.old.size }
{
    // Called only for its postcondition: existing nodes are in the list.
    let _exists = source.contains_node(to);
    let limit = list.links.label(to.index());
    if !note_parents(source, from, to, &list.links, limit, work) {
        return Ok(None);
    }
    let mut path = Vec::new(alloc);
    let mut n = to;
    'back: while n.index() != from.index() {
        path.push(n)?;
        n = work.cursor(n.index()).node();
    }
    path.push(n)?;
    path.reverse();
    Ok(Some(path))
}

/// A shortest path from `a` to `b`, as its nodes in order, or `None` if no path leads from `a` to
/// `b`. The path from an existing node to itself is that node alone.
///
/// # Requires
///
/// - `ordered`: `order` is a topological order of the nodes of `source`: it contains exactly these,
///   each before its children.
/// - `scratch_fits`: `scratch` has room for the nodes of `source`. Test:
///   `scratch.fits(source.node_bound(), 0)`.
///
/// # Errors
///
/// Returns `AllocError` if an allocation for the path fails.
///
/// # Complexity
///
/// O(1) if `b` precedes `a`. Otherwise it searches the nodes reachable from `a` that precede `b`.
/// Allocates only the path that it returns.
///
/// # Examples
///
/// ```
/// let mut graph: DiGraph<&'static str, ()> = DiGraph::new(rt.alloc());
/// let sow = graph.add_node("sow")?;
/// let grow = graph.add_node("grow")?;
/// let reap = graph.add_node("reap")?;
/// let _ = graph.add_edge(sow, grow, ())?;
/// let _ = graph.add_edge(grow, reap, ())?;
/// let mut scratch = Scratch::new(rt.alloc());
/// scratch.reserve(graph.node_count(), 0)?;
/// // `None` if the graph has a cycle.
/// if let Some(mut order) = Order::sorted(rt.alloc(), &mut graph, &mut scratch)? {
///     let path = path_in(rt.alloc(), &mut graph, &mut order, sow, reap, &mut scratch)?;
///     assert!(rt; path.is_some_and(|path| path.as_slice() == [sow, grow, reap].as_slice()));
/// }
/// ```
pub fn path_in<Ix: IndexType, S: EdgeSource<Ix>>(
    alloc: Global,
    source: &mut S,
    order: &mut Order<Ix>,
    a: NodeIndex<Ix>,
    b: NodeIndex<Ix>,
    scratch: &mut Scratch<Ix>,
) -> Result<Option<Vec<NodeIndex<Ix>>>, AllocError>
    requires ordered { IsOrderOf (S.graph source.old) order.old }
    requires scratch_fits { node_bound (S.graph source.old) ≤ scratch.old.nodes }
    ensures path { IfOk result (λ found. IfSome found (λ path.
        IsShortestPath (S.graph source.old) (Ix.number a) (Ix.number b)
        (map Ix.number path.items))) }
    ensures none { (result ≡ Ok None) ↔ ¬ Reaches (S.graph source.old) (Ix.number a) (Ix.number b) }
    ensures same { S.graph source.new ≡ S.graph source.old }
    ensures kept { order.new ≡ order.old }
    ensures looked { S.looks source.old ≤ S.looks source.new }
    ensures counted { S.looks source.new ≤ S.looks source.old
        + edges_from (S.graph source.old)
        (stretch order.old (place order.old (Ix.number a)) (place order.old (Ix.number b))) }
    ensures unlooked { place order.old (Ix.number b) ≤ place order.old (Ix.number a)
        → S.looks source.new ≡ S.looks source.old }
    ensures same_capacity { scratch.new ≡ scratch.old }
{
    if !source.contains_node(a) {
        return Ok(None);
    }
    if !source.contains_node(b) {
        return Ok(None);
    }
    if a.index() == b.index() {
        let mut path = Vec::new(alloc);
        path.push(a)?;
        return Ok(Some(path));
    }
    if !order.stands_before(a, b) {
        return Ok(None);
    }
    let tail = order.tail;
    order.tail = order.list.flush(tail);
    path_before(alloc, source, a, b, &order.list, &mut scratch.work)
}
