//! Whether a path leads from one node to another, decided with a topological order.
ghost use Rattle.std.specs.Prelude.{◌≡◌, ◌+◌, ◌≤◌, ◌↔◌, IsTrue};
ghost use Rattle.daggy_base.specs.Graph.{node_bound};
ghost use Rattle.daggy_base.specs.Path.{Reaches};
ghost use Rattle.daggy_base.specs.Ordered.{IsOrderOf, place, stretch, edges_from};

use crate::order::Order;
use crate::order::search::reaches_before;
use daggy_base::index::{IndexType, NodeIndex};
use daggy_base::source::EdgeSource;
use daggy_search::Scratch;

/// Whether a path leads from `a` to `b`, as [`reaches`](daggy_search::reaches) returns it, but only
/// nodes between the two in `order` are searched. Use it instead of `reaches` if you have such an
/// order.
///
/// # Requires
///
/// - `ordered`: `order` is a topological order of the nodes of `source`: it contains exactly these,
///   each before its children.
/// - `scratch_fits`: `scratch` has room for the nodes of `source`. Test:
///   `scratch.fits(source.node_bound(), 0)`.
///
/// # Complexity
///
/// O(1) if `b` precedes `a`. Otherwise it searches the nodes reachable from `a` that precede `b`.
/// Does not allocate.
///
/// # Examples
///
/// ```
/// let mut graph: DiGraph<&'static str, ()> = DiGraph::new(rt.alloc());
/// let sow = graph.add_node("sow")?;
/// let reap = graph.add_node("reap")?;
/// graph.add_edge(sow, reap, ())?;
/// let mut scratch = Scratch::new(rt.alloc());
/// scratch.reserve(graph.node_count(), 0)?;
/// if let Some(mut order) = Order::sorted(rt.alloc(), &mut graph, &mut scratch)? {
///     assert!(rt; reaches_in(&mut graph, &mut order, sow, reap, &mut scratch));
///     assert!(rt; !reaches_in(&mut graph, &mut order, reap, sow, &mut scratch));
/// }
/// ```
pub fn reaches_in<Ix: IndexType, S: EdgeSource<Ix>>(
    source: &mut S,
    order: &mut Order<Ix>,
    a: NodeIndex<Ix>,
    b: NodeIndex<Ix>,
    scratch: &mut Scratch<Ix>,
) -> bool
    requires ordered { IsOrderOf (S.graph source.old) order.old }
    requires scratch_fits { node_bound (S.graph source.old) ≤ scratch.old.nodes }
    ensures decided { IsTrue result ↔ Reaches (S.graph source.old) (Ix.number a) (Ix.number b) }
    ensures same { S.graph source.new ≡ S.graph source.old }
    ensures kept { order.new ≡ order.old }
    ensures looked { S.looks source.old ≤ S.looks source.new }
    ensures counted { S.looks source.new ≤ S.looks source.old
        + edges_from (S.graph source.old)
        (stretch order.old (place order.old (Ix.number a)) (place order.old (Ix.number b))) }
    ensures unlooked { place order.old (Ix.number b) ≤ place order.old (Ix.number a)
        → S.looks source.new ≡ S.looks source.old }
    ensures same_capacity { scratch.new ≡ scratch.old }
{
    if !source.contains_node(a) {
        return false;
    }
    if !source.contains_node(b) {
        return false;
    }
    if a.index() == b.index() {
        return true;
    }
    if !order.stands_before(a, b) {
        return false;
    }
    let tail = order.tail;
    order.tail = order.list.flush(tail);
    reaches_before(source, a, b, &order.list, &mut scratch.work).is_none()
}
