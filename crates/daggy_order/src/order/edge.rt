//! Updating an order for a new edge.
ghost use Rattle.std.specs.Prelude.{◌≡◌, ℕ, ◌+◌, ◌<◌, ◌≤◌, ◌↔◌, true, false, None};
ghost use Rattle.std.specs.Prelude.{OnSome, IfSome};
ghost use Rattle.daggy_base.specs.Graph.{HasNode, node_bound};
ghost use Rattle.daggy_base.specs.Path.{Reaches};
ghost use Rattle.daggy_base.specs.Ordered.{IsOrderOf, IsParted, place, stretch, edges_from};

use crate::list::LabeledList;
use crate::order::Order;
use crate::order::search::reaches_before;
use daggy_base::index::{IndexType, NodeIndex};
use daggy_base::link::Link;
use daggy_base::source::EdgeSource;
use daggy_search::Scratch;

/// Updates a topological order for a new edge from `a` to `b`, as in incremental topological
/// ordering (Pearce and Kelly 2006): it moves nodes so that `a` precedes `b`. It searches only
/// forward from `b`, not backward from `a`. Returns false if the edge would close a cycle.
///
/// # Requires
///
/// - `parent`: `a` is a node of `source`. Test: `source.contains_node(a)`.
/// - `child`: `b` is a node of `source`. Test: `source.contains_node(b)`.
/// - `ordered`: `order` is a topological order of the nodes of `source`: it contains exactly these,
///   each before its children.
/// - `scratch_fits`: `scratch` has room for the nodes of `source`. Test:
///   `scratch.fits(source.node_bound(), 0)`.
///
/// # Complexity
///
/// O(1) if `a` precedes `b`. Otherwise it searches the nodes reachable from `b` that lie between
/// the two, sorts them and moves them after `a`; a few neighbors may be relabelled. Does not
/// allocate.
///
/// # Examples
///
/// ```
/// let mut graph: DiGraph<&'static str, ()> = DiGraph::new(rt.alloc());
/// let reap = graph.add_node("reap")?;
/// let sow = graph.add_node("sow")?;
/// let mut order: Order = Order::new(rt.alloc());
/// order.push(reap)?;
/// order.push(sow)?;
/// let mut scratch = Scratch::new(rt.alloc());
/// scratch.reserve(graph.node_count(), 0)?;
/// // Before the edge is added, the order is updated for it.
/// assert!(rt; order_edge(&mut graph, &mut order, sow, reap, &mut scratch));
/// let _ = graph.add_edge(sow, reap, ())?;
/// assert!(rt; order.nodes().next() == Some(sow));
/// ```
pub fn order_edge<Ix: IndexType, S: EdgeSource<Ix>>(
    source: &mut S,
    order: &mut Order<Ix>,
    a: NodeIndex<Ix>,
    b: NodeIndex<Ix>,
    scratch: &mut Scratch<Ix>,
) -> bool
    requires parent { HasNode (S.graph source.old) (Ix.number a) }
    requires child { HasNode (S.graph source.old) (Ix.number b) }
    requires ordered { IsOrderOf (S.graph source.old) order.old }
    requires scratch_fits { node_bound (S.graph source.old) ≤ scratch.old.nodes }
    ensures decided { result ≡ false ↔ Reaches (S.graph source.old) (Ix.number b) (Ix.number a) }
    ensures refused { result ≡ false → order.new ≡ order.old }
    ensures ordered { IsOrderOf (S.graph source.old) order.new }
    ensures before { result ≡ true → place order.new (Ix.number a) < place order.new (Ix.number b) }
    ensures kept { place order.old (Ix.number a) < place order.old (Ix.number b)
        → order.new ≡ order.old }
    ensures moved { result ≡ true → place order.old (Ix.number b) < place order.old (Ix.number a)
        → IsParted (S.graph source.old) (Ix.number a) (Ix.number b) order.old order.new }
    ensures same { S.graph source.new ≡ S.graph source.old }
    ensures looked { S.looks source.old ≤ S.looks source.new }
    ensures counted { S.looks source.new ≤ S.looks source.old
        + edges_from (S.graph source.old)
        (stretch order.old (place order.old (Ix.number b)) (place order.old (Ix.number a))) }
    ensures unlooked { place order.old (Ix.number a) ≤ place order.old (Ix.number b)
        → S.looks source.new ≡ S.looks source.old }
    ensures same_capacity { scratch.new ≡ scratch.old }
{
    order_edge_counted(source, order, a, b, scratch).is_some()
}

/// The same as [`order_edge`], but returns how many edges it read, or `None` if the edge would
/// close a cycle.
pub fn order_edge_counted<Ix: IndexType, S: EdgeSource<Ix>>(
    source: &mut S,
    order: &mut Order<Ix>,
    a: NodeIndex<Ix>,
    b: NodeIndex<Ix>,
    scratch: &mut Scratch<Ix>,
) -> Option<usize>
    requires parent { HasNode (S.graph source.old) (Ix.number a) }
    requires child { HasNode (S.graph source.old) (Ix.number b) }
    requires ordered { IsOrderOf (S.graph source.old) order.old }
    requires scratch_fits { node_bound (S.graph source.old) ≤ scratch.old.nodes }
    ensures decided { result ≡ None ↔ Reaches (S.graph source.old) (Ix.number b) (Ix.number a) }
    ensures refused { result ≡ None → order.new ≡ order.old }
    ensures ordered { IsOrderOf (S.graph source.old) order.new }
    ensures before { OnSome result
        (place order.new (Ix.number a) < place order.new (Ix.number b)) }
    ensures kept { place order.old (Ix.number a) < place order.old (Ix.number b)
        → order.new ≡ order.old }
    ensures moved { OnSome result (place order.old (Ix.number b) < place order.old (Ix.number a)
        → IsParted (S.graph source.old) (Ix.number a) (Ix.number b) order.old order.new) }
    ensures same { S.graph source.new ≡ S.graph source.old }
    ensures looked { S.looks source.old ≤ S.looks source.new }
    ensures noted { IfSome result (λ looks. S.looks source.new ≡ S.looks source.old + looks) }
    ensures counted { S.looks source.new ≤ S.looks source.old
        + edges_from (S.graph source.old)
        (stretch order.old (place order.old (Ix.number b)) (place order.old (Ix.number a))) }
    ensures unlooked { place order.old (Ix.number a) ≤ place order.old (Ix.number b)
        → S.looks source.new ≡ S.looks source.old }
    ensures same_capacity { scratch.new ≡ scratch.old }
{
    // Called only for its postcondition: existing nodes are in the order.
    let _exists = source.contains_node(b);
    if order.stands_before(a, b) {
        return Some(0);
    }
    if a.index() == b.index() {
        return None;
    }
    let tail = order.tail;
    order.tail = order.list.flush(tail);
    move_reached(source, &mut order.list, a, b, scratch)
}

// Moves the nodes before `a` that `b` reaches to after `a`. Returns how many edges were read, or
// `None`, with the list unchanged, if `b` reaches `a`.
fn move_reached<Ix: IndexType, S: EdgeSource<Ix>>(
    source: &mut S,
    list: &mut LabeledList<Ix>,
    a: NodeIndex<Ix>,
    b: NodeIndex<Ix>,
    scratch: &mut Scratch<Ix>,
) -> Option<usize>
    requires parent { HasNode (S.graph source.old) (Ix.number a) }
    requires child { HasNode (S.graph source.old) (Ix.number b) }
    requires ordered { IsOrderOf (S.graph source.old) list.old.nodes }
    requires behind { place list.old.nodes (Ix.number b) < place list.old.nodes (Ix.number a) }
    requires scratch_fits { node_bound (S.graph source.old) ≤ scratch.old.nodes }
    ensures decided { result ≡ None ↔ Reaches (S.graph source.old) (Ix.number b) (Ix.number a) }
    ensures refused { result ≡ None → list.new.nodes ≡ list.old.nodes }
    ensures ordered { IsOrderOf (S.graph source.old) list.new.nodes }
    ensures before { OnSome result
        (place list.new.nodes (Ix.number a) < place list.new.nodes (Ix.number b)) }
    ensures moved { OnSome result (IsParted (S.graph source.old) (Ix.number a) (Ix.number b)
        list.old.nodes list.new.nodes) }
    ensures same { S.graph source.new ≡ S.graph source.old }
    ensures looked { S.looks source.old ≤ S.looks source.new }
    ensures noted { IfSome result (λ looks. S.looks source.new ≡ S.looks source.old + looks) }
    ensures counted { S.looks source.new ≤ S.looks source.old
        + edges_from (S.graph source.old)
        (stretch list.old.nodes (place list.old.nodes (Ix.number b))
        (place list.old.nodes (Ix.number a))) }
    ensures same_capacity { scratch.new ≡ scratch.old }
{
    let Some(found) = reaches_before(source, b, a, list, &mut scratch.work) else {
        return None;
    };
    list.move_after(Link::of_node(a), &mut scratch.work, found.nodes);
    Some(found.looks)
}
