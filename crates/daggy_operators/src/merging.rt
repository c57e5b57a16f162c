//! Two dags merged into one.
ghost use Rattle.std.specs.Prelude.{◌≡◌, ℕ, ◌+◌, ◌<◌, ◌≤◌, ◌↔◌, ◌⊎◌, IfOk, IfErr, Err, length};
ghost use Rattle.std.specs.Prelude.{vec_len, option_copied, max};
ghost use Rattle.std.specs.Option.{option_map};
ghost use Rattle.daggy_base.specs.Graph.{node_weight, edge_at, ends_of, slot};
ghost use Rattle.daggy_base.specs.FromSlots.{edges_by};
ghost use Rattle.daggy_base.specs.Path.{AreJoined, IsAcyclic};
ghost use Rattle.daggy_operators.specs.declared.merging.MergeError.TheVariants.{Full};
ghost use Rattle.daggy_operators.specs.Merging.{either, IsMerged, HasMergedCycle};
ghost use Rattle.daggy_operators.specs.Parts.{ends_by};

use crate::parts::Slot;
use daggy_base::index::{DefaultIx, EdgeIndex, IndexType, NodeIndex};
use daggy_base::read_store::ReadStore;
use daggy_dag::acyclic::{Acyclic, FromGraphError, StableDag};
use daggy_stable::stable_graph::StableDiGraph;
use std::alloc::{AllocError, Global};
use thiserror::Error;

/// Two dags were not merged.
///
/// # Examples
///
/// ```
/// let mut first: Dag<&'static str, ()> = Dag::new(rt.alloc());
/// let hen = first.add_node("hen")?;
/// let (_, egg) = first.add_child(hen, (), "egg")?;
/// let mut second: Dag<&'static str, ()> = Dag::new(rt.alloc());
/// second.add_node("hen")?;
/// second.add_node("egg")?;
/// second.try_add_edge(egg, hen, ())?;
/// match merge(rt.alloc(), &first, &second) {
///     Err(MergeError::Cycle(cycle)) => assert!(rt; cycle.as_slice() == [hen, egg].as_slice()),
///     merged => assert!(rt; merged.is_ok()),
/// }
/// ```
#[derive(Debug, Drop, Eq, Error, PartialEq)]
pub enum MergeError<Ix: IndexType = DefaultIx> {
    /// The edges of both dags together close a cycle. It is given by its nodes in order, each once:
    /// an edge of one of the dags leads from each node to the next, and from the last to the first.
    #[error("would close a cycle")]
    Cycle(Vec<NodeIndex<Ix>>),
    /// The index type has too few indices for the edge slots of both dags.
    #[error("no index left")]
    Full,
    /// An allocation failed.
    #[error("out of memory")]
    Memory,
}

// The weight of a node in the first graph, or in the second if it is not in the first.
fn node_of_either<'d, N: Drop, E: Drop, F: Drop, Ix: IndexType, S, T>(
    first: &'d S,
    second: &'d T,
    n: NodeIndex<Ix>,
) -> Option<&'d N>
where
    S: ReadStore<Ix, NodeWeight = N, EdgeWeight = E>,
    T: ReadStore<Ix, NodeWeight = N, EdgeWeight = F>,
    ensures { option_copied result ≡ either (node_weight (S.graph first.now) (Ix.number n))
        (node_weight (T.graph second.now) (Ix.number n)) }
{
    match first.node_weight(n) {
        Some(weight) => Some(weight),
        None => second.node_weight(n),
    }
}

// The weights of the nodes of both graphs.
fn merged_nodes<'d, N: Drop, E: Drop, F: Drop, Ix: IndexType, S, T>(
    alloc: Global,
    first: &'d S,
    second: &'d T,
) -> Result<Vec<Option<&'d N>>, AllocError>
where
    S: ReadStore<Ix, NodeWeight = N, EdgeWeight = E>,
    T: ReadStore<Ix, NodeWeight = N, EdgeWeight = F>,
    ensures few { IfOk result (λ slots. vec_len slots ≤ Ix.greatest) }
    ensures same { IfOk result (λ slots. (n : ℕ) → option_copied (slot slots.items n)
        ≡ either (node_weight (S.graph first.now) n) (node_weight (T.graph second.now) n)) }
{
    // Called for their contracts: what always holds of a store.
    first.invariant();
    second.invariant();
    let bound = first.node_slots().max(second.node_slots());
    let mut slots = Vec::with_capacity(alloc, bound)?;
    'nodes: for i in 0..bound {
        slots.push(node_of_either(first, second, NodeIndex::new(i)))?;
    }
    Ok(slots)
}

// The ends of an edge, if it exists.
fn ends_slot<Ix: IndexType, S: ReadStore<Ix>>(store: &S, e: EdgeIndex<Ix>) -> Slot<Ix>
    ensures { option_map (ends_by Ix.number) result
        ≡ option_map ends_of (edge_at (S.graph store.now) (Ix.number e)) }
{
    let ends = store.edge_endpoints(e)?;
    Some((ends.0, ends.1, ()))
}

// The edges of the first graph, and after them those of the second.
fn merged_edges<Ix: IndexType, S: ReadStore<Ix>, T: ReadStore<Ix>>(
    alloc: Global,
    first: &S,
    second: &T,
) -> Result<Vec<Slot<Ix>>, AllocError>
    ensures sized { IfOk result (λ slots. vec_len slots
        ≡ length (S.graph first.now).edges + length (T.graph second.now).edges) }
    ensures first { IfOk result (λ slots. (e : ℕ) → e < length (S.graph first.now).edges
        → option_map ends_of (slot (edges_by Ix.number slots.items) e)
        ≡ option_map ends_of (edge_at (S.graph first.now) e)) }
    ensures second { IfOk result (λ slots. (e : ℕ)
        → option_map ends_of (slot (edges_by Ix.number slots.items)
        (length (S.graph first.now).edges + e))
        ≡ option_map ends_of (edge_at (T.graph second.now) e)) }
{
    // Called for their contracts: what always holds of a store.
    first.invariant();
    second.invariant();
    let mut slots = Vec::new(alloc);
    'first: for i in 0..first.edge_slots() {
        slots.push(ends_slot(first, EdgeIndex::new(i)))?;
    }
    'second: for i in 0..second.edge_slots() {
        slots.push(ends_slot(second, EdgeIndex::new(i)))?;
    }
    Ok(slots)
}

// The graph with the nodes and the edges of both.
fn merged_graph<'d, N: Drop, E: Drop, F: Drop, Ix: IndexType, S, T>(
    alloc: Global,
    first: &'d S,
    second: &'d T,
) -> Result<StableDiGraph<&'d N, (), Ix>, AllocError>
where
    S: ReadStore<Ix, NodeWeight = N, EdgeWeight = E>,
    T: ReadStore<Ix, NodeWeight = N, EdgeWeight = F>,
    requires { length (S.graph first.now).edges + length (T.graph second.now).edges
        ≤ Ix.greatest }
    ensures { IfOk result (λ d. IsMerged (S.graph first.now) (T.graph second.now) d.graph) }
{
    // Called for their contracts: what always holds of a store.
    first.invariant();
    second.invariant();
    let nodes = merged_nodes(alloc, first, second)?;
    let edges = merged_edges(alloc, first, second)?;
    let graph = StableDiGraph::from_slots(alloc, nodes, edges)?;
    Ok(graph)
}

/// Merges two dags: the result has the nodes of both and the edges of both. A node of both is one
/// node of the result, at the same index, with its weight in `first`. The weights of the nodes are
/// borrowed.
///
/// The edges of `first` are at the same indices, and those of `second` come after all edge slots of
/// `first`, in the same order: edge `e` of `second` has index `first.graph().edge_slots()` plus
/// `e`. So the weight of an edge is in one of the dags. Two edges with the same endpoints both stay.
/// Each list is in descending index order.
///
/// To merge dags whose indices differ but whose nodes have keys, use
/// `daggy::named::Named`.
///
/// # Errors
///
/// Returns `MergeError::Full` if the index type has fewer indices than both dags have edge slots,
/// `MergeError::Cycle` with a cycle if the edges of both together close one, and
/// `MergeError::Memory` if an allocation fails.
///
/// # Complexity
///
/// O(slots of both dags).
///
/// # Examples
///
/// ```
/// let mut first: Dag<&'static str, u32> = Dag::new(rt.alloc());
/// let sow = first.add_node("sow")?;
/// let (_, reap) = first.add_child(sow, 90, "reap")?;
/// let mut second: Dag<&'static str, u32> = Dag::new(rt.alloc());
/// second.add_node("sow")?;
/// second.add_node("reap")?;
/// let (days, _) = second.add_child(reap, 2, "thresh")?;
/// let merged = merge(rt.alloc(), &first, &second)?;
/// assert!(rt; merged.node_count() == 3 && merged.edge_count() == 2);
/// // The only edge of `second` comes after the only edge of `first`.
/// assert!(rt; days.index() == 0);
/// assert!(rt; merged.edge_endpoints(EdgeIndex::new(1)).is_some_and(|ends| ends.0 == reap));
/// ```
pub fn merge<'d, N: Drop, E: Drop, F: Drop, Ix: IndexType, S, T>(
    alloc: Global,
    first: &'d Acyclic<N, E, Ix, S>,
    second: &'d Acyclic<N, F, Ix, T>,
) -> Result<StableDag<&'d N, (), Ix>, MergeError<Ix>>
where
    S: ReadStore<Ix, NodeWeight = N, EdgeWeight = E>,
    T: ReadStore<Ix, NodeWeight = N, EdgeWeight = F>,
    ensures merged { IfOk result (λ d. IsMerged first.now.graph second.now.graph d.graph) }
    ensures joined { IfOk result (λ d. (u v : ℕ) → AreJoined d.graph u v
        ↔ (AreJoined first.now.graph u v ⊎ AreJoined second.now.graph u v)) }
    ensures acyclic { IfOk result (λ d. IsAcyclic d.graph) }
    ensures cycle { IfErr result (HasMergedCycle Ix.number first.now.graph second.now.graph) }
    ensures full { (result ≡ Err Full)
        ↔ (Ix.greatest < length first.now.graph.edges + length second.now.graph.edges) }
{
    // Called for their contracts: both are well formed.
    let _first = first.node_count();
    let _second = second.node_count();
    let left = EdgeIndex::<Ix>::end().index() - first.graph().edge_slots();
    if second.graph().edge_slots() > left {
        return Err(MergeError::Full);
    }
    let Ok(graph) = merged_graph(alloc, first.graph(), second.graph()) else {
        return Err(MergeError::Memory);
    };
    match StableDag::try_from_graph(alloc, graph) {
        Ok(dag) => Ok(dag),
        Err(FromGraphError::Cycle { graph: _, cycle }) => Err(MergeError::Cycle(cycle)),
        Err(FromGraphError::Memory { graph: _ }) => Err(MergeError::Memory),
    }
}
