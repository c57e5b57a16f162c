//! Cycles that a graph would have with more edges.
ghost use Rattle.std.specs.Prelude.{◌≡◌, ℕ, ◌≤◌, ◌↔◌, ◌⊎◌, IfOk, IfSome, OnOk, IsSome, IsNone};
ghost use Rattle.std.specs.Prelude.{List, Contains, map, length};
ghost use Rattle.daggy_base.specs.Graph.{HasNode, slot, pair_of};
ghost use Rattle.daggy_base.specs.Adding.{NewEdge};
ghost use Rattle.daggy_base.specs.Path.{AreJoined, IsAcyclic};
ghost use Rattle.daggy_guard.specs.EdgeBatch.{with_edges};
ghost use Rattle.daggy_cycles.specs.CycleEdges.{Leads};
ghost use Rattle.daggy_cycles.specs.Linking.{IsLinked, IsPair};
ghost use Rattle.daggy_cycles.specs.WithPairs.{AreJoinedWith, IsCycleWith, ends_of_new};

use daggy_base::index::{EdgeIndex, IndexType, NodeIndex};
use daggy_base::read_store::ReadStore;
use daggy_components::find_cycle;
use daggy_search::Reading;
use daggy_stable::stable_graph::StableDiGraph;
use std::alloc::{AllocError, Global};

// The endpoints of an edge.
type Slot<Jx> = Option<(NodeIndex<Jx>, NodeIndex<Jx>, ())>;

// An occupied slot if the node exists.
fn node_slot<Ix: IndexType, S: ReadStore<Ix>>(store: &S, n: NodeIndex<Ix>) -> Option<()>
    ensures { IsSome result ↔ HasNode (S.graph store.now) (Ix.number n) }
{
    if store.contains_node(n) {
        Some(())
    } else {
        None
    }
}

// A slot for each node slot of the graph, occupied if the node exists.
fn node_slots<Ix: IndexType, S: ReadStore<Ix>>(
    alloc: Global,
    store: &S,
) -> Result<Vec<Option<()>>, AllocError>
    ensures { IfOk result (λ slots. (n : ℕ)
        → IsSome (slot slots.items n) ↔ HasNode (S.graph store.now) n) }
{
    // Called for its contract: what always holds of a store.
    store.invariant();
    let bound = store.node_slots();
    let mut slots = Vec::with_capacity(alloc, bound)?;
    'nodes: for i in 0..bound {
        slots.push(node_slot(store, NodeIndex::new(i)))?;
    }
    Ok(slots)
}

// Adds an edge if both endpoints exist.
fn add_pair<Ix: IndexType, Jx: IndexType, S: ReadStore<Ix>>(
    store: &S,
    slots: &mut Vec<Slot<Jx>>,
    a: NodeIndex<Ix>,
    b: NodeIndex<Ix>,
) -> Result<(), AllocError>
    requires { length (S.graph store.now).nodes ≤ Jx.greatest }
    ensures { OnOk result ((u v : ℕ) → IsLinked Jx.number slots.new.items u v
        ↔ (IsLinked Jx.number slots.old.items u v
        ⊎ IsPair (S.graph store.now) (Ix.number a) (Ix.number b) u v)) }
{
    if store.contains_node(a) && store.contains_node(b) {
        slots.push(Some((NodeIndex::new(a.index()), NodeIndex::new(b.index()), ())))?;
    }
    Ok(())
}

// Adds the edge with this index, if there is one.
fn add_edge_at<Ix: IndexType, Jx: IndexType, S: ReadStore<Ix>>(
    store: &S,
    slots: &mut Vec<Slot<Jx>>,
    e: EdgeIndex<Ix>,
) -> Result<(), AllocError>
    requires { length (S.graph store.now).nodes ≤ Jx.greatest }
    ensures { OnOk result ((u v : ℕ) → IsLinked Jx.number slots.new.items u v
        ↔ (IsLinked Jx.number slots.old.items u v
        ⊎ Leads (S.graph store.now) (Ix.number e) u v)) }
{
    // Called for its contract: what always holds of a store.
    store.invariant();
    let Some(ends) = store.edge_endpoints(e) else {
        return Ok(());
    };
    add_pair(store, slots, ends.0, ends.1)?;
    Ok(())
}

// The edges of the graph, and those given of which both endpoints exist.
fn edge_slots<Ix: IndexType, Jx: IndexType, S: ReadStore<Ix>>(
    alloc: Global,
    store: &S,
    edges: &[(NodeIndex<Ix>, NodeIndex<Ix>)],
) -> Result<Vec<Slot<Jx>>, AllocError>
    requires { length (S.graph store.now).nodes ≤ Jx.greatest }
    ensures { IfOk result (λ slots. (u v : ℕ) → IsLinked Jx.number slots.items u v
        ↔ AreJoinedWith (S.graph store.now) (map (pair_of Ix.number) edges.now) u v) }
{
    // Called for its contract: what always holds of a store.
    store.invariant();
    let mut slots = Vec::new(alloc);
    'old: for i in 0..store.edge_slots() {
        add_edge_at(store, &mut slots, EdgeIndex::new(i))?;
    }
    'new: for k in 0..edges.len() {
        let ends = edges[k];
        add_pair(store, &mut slots, ends.0, ends.1)?;
    }
    Ok(slots)
}

// The nodes of the graph, its edges, and those given.
fn shape_with_edges<Ix: IndexType, S: ReadStore<Ix>>(
    alloc: Global,
    store: &S,
    edges: &[(NodeIndex<Ix>, NodeIndex<Ix>)],
) -> Result<StableDiGraph<(), (), usize>, AllocError>
    ensures nodes { IfOk result (λ shape. (n : ℕ)
        → HasNode shape.graph n ↔ HasNode (S.graph store.now) n) }
    ensures edges { IfOk result (λ shape. (u v : ℕ) → AreJoined shape.graph u v
        ↔ AreJoinedWith (S.graph store.now) (map (pair_of Ix.number) edges.now) u v) }
{
    // Called for its contract: what always holds of a store.
    store.invariant();
    let nodes = node_slots(alloc, store)?;
    // No edge index of this graph is returned, so that it can have more edges than the index type of
    // the caller has indices.
    let slots = edge_slots::<Ix, usize, S>(alloc, store, edges)?;
    let shape = StableDiGraph::from_slots(alloc, nodes, slots)?;
    Ok(shape)
}

// The same indices in another index type.
fn indices_as<Ix: IndexType, Jx: IndexType>(
    alloc: Global,
    nodes: &[NodeIndex<Jx>],
) -> Result<Vec<NodeIndex<Ix>>, AllocError>
    requires { (n : ℕ) → Contains (map Jx.number nodes.now) n → n ≤ Ix.greatest }
    ensures { IfOk result (λ indices.
        map Ix.number indices.items ≡ map Jx.number nodes.now) }
{
    let mut indices = Vec::with_capacity(alloc, nodes.len())?;
    'nodes: for k in 0..nodes.len() {
        indices.push(NodeIndex::new(nodes[k].index()))?;
    }
    Ok(indices)
}

/// A cycle that the graph would have with the given edges, or `None` if it would be acyclic. Each
/// edge is given as its parent and its child; an edge with a missing endpoint is ignored.
///
/// The cycle is given by its nodes in order, each once: an edge of the graph, or a given one, leads
/// from each node to the next, and from the last to the first. The graph is not changed or copied:
/// only the endpoints of its edges are.
///
/// So if a dag rejects a batch of edges
/// ([`add_edges`](daggy_dag::acyclic::Acyclic::add_edges)), this returns a cycle that the batch
/// would close.
///
/// # Errors
///
/// Returns `AllocError` if an allocation fails.
///
/// # Complexity
///
/// O(node slots + edge slots + given edges).
///
/// # Examples
///
/// ```
/// let mut dag: Dag<&'static str, ()> = Dag::new(rt.alloc());
/// let sow = dag.add_node("sow")?;
/// let (_, hoe) = dag.add_child(sow, (), "hoe")?;
/// let reap = dag.add_node("reap")?;
/// assert!(rt; dag.add_edges([(hoe, reap, ()), (reap, sow, ())]).is_err());
/// let batch = [(hoe, reap), (reap, sow)];
/// let cycle = find_cycle_with_edges(rt.alloc(), dag.graph(), &batch)?;
/// assert!(rt; cycle.is_some_and(|nodes| nodes.as_slice() == [sow, hoe, reap].as_slice()));
/// ```
pub fn find_cycle_with_edges<Ix: IndexType, S: ReadStore<Ix>>(
    alloc: Global,
    store: &S,
    edges: &[(NodeIndex<Ix>, NodeIndex<Ix>)],
) -> Result<Option<Vec<NodeIndex<Ix>>>, AllocError>
    ensures cycle { IfOk result (λ found. IfSome found (λ nodes. IsCycleWith (S.graph store.now)
        (map (pair_of Ix.number) edges.now) (map Ix.number nodes.items))) }
    ensures decided { IfOk result (λ found. IsNone found ↔ ((cycle : List ℕ)
        → ¬ IsCycleWith (S.graph store.now) (map (pair_of Ix.number) edges.now) cycle)) }
    ensures batch { IfOk result (λ found. (items : List (NewEdge S.EdgeWeight))
        → map ends_of_new items ≡ map (pair_of Ix.number) edges.now
        → IsNone found ↔ IsAcyclic (with_edges (S.graph store.now) items)) }
{
    // Called for its contract: what always holds of a store.
    store.invariant();
    let shape = shape_with_edges(alloc, store, edges)?;
    match find_cycle(alloc, &mut Reading::new(&shape))? {
        Some(cycle) => Ok(Some(indices_as(alloc, cycle.as_slice())?)),
        None => Ok(None),
    }
}
