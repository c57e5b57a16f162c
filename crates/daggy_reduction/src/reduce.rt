//! The transitive reduction of any store.
ghost use Rattle.std.specs.Prelude.{◌≡◌, ℕ, ◌+◌, ◌*◌, ◌≤◌, map, reverse, Contains, OnOk, OnErr};
ghost use Rattle.daggy_base.specs.Graph.{HasEdge, node_count, edge_count};
ghost use Rattle.daggy_base.specs.Removal.{without_edges};
ghost use Rattle.daggy_base.specs.WellFormed.{IsWellFormed};
ghost use Rattle.daggy_base.specs.Reduction.{IsReduction};
ghost use Rattle.daggy_base.specs.Ordered.{IsOrderOf};
ghost use Rattle.daggy_redundant.specs.Comparison.{IsAscending, JoinsAll};
ghost use Rattle.daggy_reduction.specs.SearchSpan.{all_spanned};

use crate::choice::leave_redundant_either_way;
use daggy_base::index::{EdgeIndex, IndexType, NodeIndex};
use daggy_base::store::Store;
use daggy_order::order::Order;
use daggy_redundant::redundant::front;
use daggy_search::Scratch;
use std::alloc::AllocError;

// Removes the edges of a list, the last one first.
#[doc(hidden)]
pub fn remove_edges<Ix: IndexType, S: Store<Ix>>(store: &mut S, edges: &[EdgeIndex<Ix>])
    requires ascending { IsAscending (map Ix.number edges.now) }
    requires exist { (e : ℕ)
        → Contains (map Ix.number edges.now) e → HasEdge (S.graph store.old) e }
    ensures removed { S.graph store.new
        ≡ without_edges S.KIND (S.graph store.old) (reverse (map Ix.number edges.now)) }
    ensures counted { S.looks store.new ≡ S.looks store.old }
{
    let mut left = edges.len();
    'edges: while left > 0 {
        left -= 1;
        let _weight = store.remove_edge(edges[left]);
    }
}

/// Removes the redundant edges that are reachable from the given roots: it finds all of them first,
/// and then removes them from the highest index down.
///
/// # Requires
///
/// - `order` is a topological order of the nodes of `store`: it contains exactly these, each before
///   its children.
///
/// # Errors
///
/// Returns `AllocError` if the scratch cannot grow to the bounds of the graph; the store is
/// unchanged.
///
/// # Complexity
///
/// One search for each node that the roots reach, limited to the nodes before that node's last
/// child in `order`. If processing the nodes in blocks of 512 is expected to read fewer edges, this
/// is done instead, in O(nodes * edges / 512) steps of 512 bits each, or O(edges) steps if each
/// edge leads at most 512 positions ahead in `order`. Plus the cost of the removals.
///
/// # Examples
///
/// ```
/// let mut graph: DiGraph<&'static str, ()> = DiGraph::new(rt.alloc());
/// let sow = graph.add_node("sow")?;
/// let grow = graph.add_node("grow")?;
/// let reap = graph.add_node("reap")?;
/// graph.add_edge(sow, grow, ())?;
/// graph.add_edge(grow, reap, ())?;
/// graph.add_edge(sow, reap, ())?;
/// let mut scratch = Scratch::new(rt.alloc());
/// scratch.reserve(graph.node_count(), 0)?;
/// if let Some(order) = Order::sorted(rt.alloc(), &mut graph, &mut scratch)? {
///     transitive_reduce(&mut graph, &order, &mut scratch, &[sow])?;
///     assert!(rt; graph.edge_count() == 2 && !graph.contains_edge(sow, reap));
/// }
/// ```
pub fn transitive_reduce<Ix: IndexType, S: Store<Ix>>(
    store: &mut S,
    order: &Order<Ix>,
    scratch: &mut Scratch<Ix>,
    roots: &[NodeIndex<Ix>],
) -> Result<(), AllocError>
    requires { IsOrderOf (S.graph store.old) order.now }
    ensures reduced { OnOk result
        (IsReduction S.KIND (map Ix.number roots.now) (S.graph store.old) (S.graph store.new)) }
    ensures well_formed { IsWellFormed Ix.greatest (S.graph store.old) }
    ensures unchanged { OnErr result (S.graph store.new ≡ S.graph store.old) }
    ensures nodes { (S.graph store.new).nodes ≡ (S.graph store.old).nodes }
    ensures fewer { JoinsAll (S.graph store.new) (S.graph store.old) }
    ensures looked { S.looks store.old ≤ S.looks store.new }
    ensures counted { OnOk result (S.looks store.new ≤ S.looks store.old
        + (node_count (S.graph store.old) + 2) * edge_count (S.graph store.old)) }
    ensures spanned { OnOk result (S.looks store.new ≤ S.looks store.old
        + 4 * edge_count (S.graph store.old)
        + all_spanned (S.graph store.old) order.now order.now) }
    ensures unlooked { OnErr result (S.looks store.new ≡ S.looks store.old) }
    ensures capacity_kept { scratch.old.nodes ≤ scratch.new.nodes }
{
    scratch.reserve(store.node_bound(), store.edge_bound())?;
    let (nodes, edges) = (store.node_count(), store.edge_count());
    let count = leave_redundant_either_way(store, order, roots, scratch, nodes, edges);
    remove_edges(store, front(scratch.found.as_slice(), count));
    Ok(())
}
