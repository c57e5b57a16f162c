//! The edges of a cycle.
ghost use Rattle.std.specs.Prelude.{◌≡◌, ℕ, ◌+◌, ◌<◌, ◌↔◌, IfOk, IfSome, IsNone, List, map};
ghost use Rattle.daggy_base.specs.Path.{IsAcyclic};
ghost use Rattle.daggy_components.specs.Cycles.{IsCycle};
ghost use Rattle.daggy_cycles.specs.CycleEdges.{AreEdgesOf};

use daggy_base::index::{EdgeIndex, IndexType, NodeIndex};
use daggy_base::read_store::ReadStore;
use daggy_components::find_cycle;
use daggy_search::Reading;
use std::alloc::{AllocError, Global};

// The place after `k` in a ring of `len` places.
fn next_place(k: usize, len: usize) -> usize
    requires { k < len }
    ensures within { result < len }
    ensures on { k + 1 < len → result ≡ k + 1 }
    ensures back { k + 1 ≡ len → result ≡ 0 }
{
    if k + 1 < len { k + 1 } else { 0 }
}

/// The edges of a cycle that is given by its nodes: one from each node to the next, and one from
/// the last node to the first. Of parallel edges it is the newest.
///
/// # Requires
///
/// - The nodes of `cycle` are a cycle of the graph, as [`find_cycle`] returns it.
///
/// # Errors
///
/// Returns `AllocError` if an allocation fails.
///
/// # Complexity
///
/// O(children of the nodes).
///
/// # Examples
///
/// ```
/// let mut graph: DiGraph<&'static str, ()> = DiGraph::new(rt.alloc());
/// let hen = graph.add_node("hen")?;
/// let egg = graph.add_node("egg")?;
/// let laid = graph.add_edge(hen, egg, ())?;
/// let hatched = graph.add_edge(egg, hen, ())?;
/// if let Some(cycle) = find_cycle(rt.alloc(), &mut Reading::new(&graph))? {
///     let edges = cycle_edges(rt.alloc(), &graph, cycle.as_slice())?;
///     assert!(rt; edges.as_slice() == [laid, hatched].as_slice());
/// }
/// ```
pub fn cycle_edges<Ix: IndexType, S: ReadStore<Ix>>(
    alloc: Global,
    store: &S,
    cycle: &[NodeIndex<Ix>],
) -> Result<Vec<EdgeIndex<Ix>>, AllocError>
    requires { IsCycle (S.graph store.now) (map Ix.number cycle.now) }
    ensures { IfOk result (λ edges. AreEdgesOf (S.graph store.now) (map Ix.number cycle.now)
        (map Ix.number edges.items)) }
{
    // Called for its contract: what always holds of a store.
    store.invariant();
    let mut edges = Vec::with_capacity(alloc, cycle.len())?;
    'nodes: for k in 0..cycle.len() {
        let to = next_place(k, cycle.len());
        let edge = store.find_edge(cycle[k], cycle[to]);
        edges.push(edge.unwrap())?;
    }
    Ok(edges)
}

/// The edges of a cycle of the graph, or `None` if the graph is acyclic.
///
/// Each edge ends at the node where the next one starts, and the last ends where the first starts.
/// No node occurs twice. An edge from a node to itself is a cycle of one edge.
///
/// # Errors
///
/// Returns `AllocError` if an allocation fails.
///
/// # Complexity
///
/// O(nodes + edges).
///
/// # Examples
///
/// ```
/// let mut graph: DiGraph<&'static str, ()> = DiGraph::new(rt.alloc());
/// let hen = graph.add_node("hen")?;
/// let egg = graph.add_node("egg")?;
/// let laid = graph.add_edge(hen, egg, ())?;
/// assert!(rt; find_cycle_edges(rt.alloc(), &graph)?.is_none());
/// let hatched = graph.add_edge(egg, hen, ())?;
/// let cycle = find_cycle_edges(rt.alloc(), &graph)?;
/// assert!(rt; cycle.is_some_and(|edges| edges.as_slice() == [laid, hatched].as_slice()));
/// ```
pub fn find_cycle_edges<Ix: IndexType, S: ReadStore<Ix>>(
    alloc: Global,
    store: &S,
) -> Result<Option<Vec<EdgeIndex<Ix>>>, AllocError>
    ensures cycle { IfOk result (λ found. IfSome found (λ edges. (nodes : List ℕ)
        × IsCycle (S.graph store.now) nodes
        × AreEdgesOf (S.graph store.now) nodes (map Ix.number edges.items))) }
    ensures decided { IfOk result (λ found. IsNone found ↔ IsAcyclic (S.graph store.now)) }
{
    let Some(cycle) = find_cycle(alloc, &mut Reading::new(store))? else {
        return Ok(None);
    };
    Ok(Some(cycle_edges(alloc, store, cycle.as_slice())?))
}
