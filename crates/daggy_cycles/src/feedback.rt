//! Edges whose removal makes a graph acyclic.
ghost use Rattle.std.specs.Prelude.{◌≡◌, ℕ, ◌<◌, ◌≤◌, ◌++◌, ◌∷◌, IfOk, OnOk, Some, false, List, [], map};
ghost use Rattle.std.specs.Prelude.{replicate, Contains};
ghost use Rattle.std.specs.List.{range_with_len};
ghost use Rattle.std.specs.List.Sorted.{IsPermutation, IsNonDecreasingBy};
ghost use Rattle.daggy_base.specs.Graph.{HasNode, edge_bound as edge_bound_of};
ghost use Rattle.daggy_base.specs.Path.{IsAcyclic};
ghost use Rattle.daggy_base.specs.Removal.{without, without_edges};
ghost use Rattle.daggy_base.specs.declared.kind.Kind.TheVariants.{Stable};
ghost use Rattle.daggy_redundant.specs.Comparison.{IsAscending};
ghost use Rattle.daggy_components.specs.Components.{AreComponents};
ghost use Rattle.daggy_cycles.specs.Feedback.{AreLeftOut};
ghost use Rattle.daggy_cycles.specs.Trying.{AreTried};

use daggy_base::error::{EdgeError, SlotsError};
use daggy_base::index::{EdgeIndex, IndexType};
use daggy_base::read_store::ReadStore;
use daggy_components::{Components, strongly_connected_components};
use daggy_dag::acyclic::Dag;
use daggy_search::Reading;
use std::alloc::{AllocError, Global};

// `count` slots, each with a node.
fn node_slots(alloc: Global, count: usize) -> Result<Vec<Option<()>>, AllocError>
    ensures { IfOk result (λ slots. slots.items ≡ replicate count (Some tt)) }
{
    let mut slots = Vec::new(alloc);
    slots.resize(count, Some(()))?;
    Ok(slots)
}

// A mark for each of `count` edges, none of which was tried.
fn no_marks(alloc: Global, count: usize) -> Result<Vec<bool>, AllocError>
    ensures { IfOk result (λ marks. marks.items ≡ replicate count false) }
{
    let mut marks = Vec::new(alloc);
    marks.resize(count, false)?;
    Ok(marks)
}

// A dag of `count` nodes without edges.
fn edgeless<Ix: IndexType>(alloc: Global, count: usize) -> Result<Dag<(), (), Ix>, AllocError>
    requires { count ≤ Ix.greatest }
    ensures nodes { IfOk result (λ dag. (n : ℕ) → n < count → HasNode dag.graph n) }
    ensures edges { IfOk result (λ dag. dag.graph.edges ≡ []) }
{
    let slots = node_slots(alloc, count)?;
    match Dag::from_slots(alloc, slots, Vec::new(alloc)) {
        Ok(dag) => Ok(dag),
        Err(SlotsError::Memory) => Err(AllocError),
        Err(SlotsError::Cycle) => unreachable!(),
    }
}

// Tries an edge, unless there is none with this index or it was tried already: it is left out if it
// closes a cycle with those that are kept. An edge between two components closes none.
fn try_edge<Ix: IndexType, S: ReadStore<Ix>>(
    store: &S,
    components: &Components<Ix>,
    e: EdgeIndex<Ix>,
    kept: &mut Dag<(), (), Ix>,
    marks: &mut Vec<bool>,
    left_out: &mut Vec<EdgeIndex<Ix>>,
) -> Result<(), AllocError>
    requires components { AreComponents (S.graph store.now) components.now }
    requires tried { (tried : List ℕ) × AreTried (S.graph store.now) kept.old.graph marks.old.items
        tried (map Ix.number left_out.old.items) }
    ensures tried { OnOk result ((tried : List ℕ)
        → AreTried (S.graph store.now) kept.old.graph marks.old.items tried
        (map Ix.number left_out.old.items)
        → AreTried (S.graph store.now) kept.new.graph marks.new.items (tried ++ Ix.number e ∷ [])
        (map Ix.number left_out.new.items)) }
{
    // Called for their contracts: what always holds of a store and of a dag.
    store.invariant();
    let _count = kept.edge_count();
    let Some(ends) = store.edge_endpoints(e) else {
        return Ok(());
    };
    if marks[e.index()] {
        return Ok(());
    }
    marks[e.index()] = true;
    let j = components.component_of(ends.0).unwrap();
    let k = components.component_of(ends.1).unwrap();
    if j != k {
        return Ok(());
    }
    match kept.add_edge(ends.0, ends.1, ()) {
        Ok(_) => Ok(()),
        Err(EdgeError::WouldCycle(_)) => {
            left_out.push(e)?;
            Ok(())
        }
        Err(_) => Err(AllocError),
    }
}

fn sort_by_index<Ix: IndexType>(edges: &mut Vec<EdgeIndex<Ix>>)
    ensures same { IsPermutation edges.old.items edges.new.items }
    ensures sorted { IsNonDecreasingBy Ix.number edges.new.items }
{
    edges.sort_unstable_by_key(|e| e.index());
}

/// A feedback arc set: edges without which the graph has no cycle. The set is minimal under
/// inclusion: if any one of its edges stays, there is a cycle.
///
/// These are exactly the edges that a dag would reject if all edges of the graph were added to it
/// one by one: first the preferred edges in their order, then all others in ascending index order.
/// If a preferred edge is given twice, the second time is ignored, and so is an index that is not
/// an edge.
///
/// The result is in ascending index order. So its edges can be removed from the last to the first:
/// even in a compact graph, no removal then changes the index of an edge that is still to be
/// removed.
///
/// # Errors
///
/// Returns `AllocError` if an allocation fails.
///
/// # Complexity
///
/// Finding the components takes O(nodes + edges). The edges whose endpoints are in the same
/// component are then added to a dag one by one; each may need a search within that component.
///
/// # Examples
///
/// ```
/// let mut graph: DiGraph<&'static str, ()> = DiGraph::new(rt.alloc());
/// let hen = graph.add_node("hen")?;
/// let egg = graph.add_node("egg")?;
/// let laid = graph.add_edge(hen, egg, ())?;
/// let hatched = graph.add_edge(egg, hen, ())?;
/// let newest = feedback_arc_set(rt.alloc(), &graph, &[])?;
/// assert!(rt; newest.as_slice() == [hatched].as_slice());
/// let other = feedback_arc_set(rt.alloc(), &graph, &[hatched])?;
/// assert!(rt; other.as_slice() == [laid].as_slice());
/// ```
pub fn feedback_arc_set<Ix: IndexType, S: ReadStore<Ix>>(
    alloc: Global,
    store: &S,
    preferred: &[EdgeIndex<Ix>],
) -> Result<Vec<EdgeIndex<Ix>>, AllocError>
    ensures left_out { IfOk result (λ edges. AreLeftOut (S.graph store.now)
        (map Ix.number preferred.now ++ range_with_len 0 (edge_bound_of (S.graph store.now)))
        (map Ix.number edges.items)) }
    ensures ascending { IfOk result (λ edges. IsAscending (map Ix.number edges.items)) }
    ensures acyclic { IfOk result (λ edges.
        IsAcyclic (without_edges Stable (S.graph store.now) (map Ix.number edges.items))) }
    ensures minimal { IfOk result (λ edges.
        (e : ℕ) → Contains (map Ix.number edges.items) e
        → ¬ IsAcyclic (without_edges Stable (S.graph store.now)
        (without e (map Ix.number edges.items)))) }
{
    let components = strongly_connected_components(alloc, &mut Reading::new(store))?;
    let mut kept = edgeless(alloc, store.node_bound())?;
    let mut marks = no_marks(alloc, store.edge_bound())?;
    let mut left_out = Vec::new(alloc);
    'preferred: for e in preferred {
        try_edge(store, &components, *e, &mut kept, &mut marks, &mut left_out)?;
    }
    'others: for i in 0..store.edge_bound() {
        let e = EdgeIndex::new(i);
        try_edge(store, &components, e, &mut kept, &mut marks, &mut left_out)?;
    }
    // Called for its contract: a dag is acyclic.
    let _count = kept.edge_count();
    sort_by_index(&mut left_out);
    Ok(left_out)
}
