//! A dag of the components of a graph, with the weights of all edges between two components folded
//! into one.
ghost use Rattle.std.specs.Prelude.{◌≡◌, ℕ, ◌<◌, ◌≤◌, ◌⊎◌, Some, None, IfOk, OnOk, IfSome, IfNone};
ghost use Rattle.std.specs.Prelude.{IsSome, map, vec_len, slice_index};
ghost use Rattle.daggy_base.specs.Graph.{slot, IsCompact};
ghost use Rattle.daggy_base.specs.Path.{IsAcyclic};
ghost use Rattle.daggy_base.specs.FromSlots.{edges_by};
ghost use Rattle.daggy_components.specs.Components.{AreComponents};
ghost use Rattle.daggy_components.specs.Condensation.{KeepsReachability};
ghost use Rattle.daggy_components.specs.Noting.{Joins, IsAppended};
ghost use Rattle.daggy_condensation.specs.Between.{HasComponents, IsAsBuilt};
ghost use Rattle.daggy_condensation.specs.Folding.{CanFold, IsFolded};
ghost use Rattle.daggy_condensation.specs.Replacing.{IsReplaced};

use crate::building::{Edges, dag_of, nodes_of};
use daggy_base::index::{EdgeIndex, IndexType, NodeIndex};
use daggy_base::read_store::ReadStore;
use daggy_base::source::EdgeSource;
use daggy_base::store::Store;
use daggy_components::Components;
use daggy_dag::acyclic::Acyclic;
use daggy_search::Reading;
use std::alloc::{AllocError, Global};

// The weight in a slot, if it holds an edge from the component `j` to the component `k`.
fn weight_in<Ix: IndexType, W: Drop>(
    slots: &Edges<Ix, W>,
    at: usize,
    j: usize,
    k: usize,
) -> Option<&W>
    ensures some { IfSome result (λ w. slot (edges_by Ix.number slots.now.items) at
        ≡ Some (record { parent = j; child = k; weight = w.now })) }
    ensures none { IfNone result (¬ Joins (edges_by Ix.number slots.now.items) at j k) }
{
    let (a, b, weight) = slots.get(at)?.as_ref()?;
    if a.index() == j && b.index() == k {
        Some(weight)
    } else {
        None
    }
}

// The same, where the slots before `begin` hold no such edge. They are not read: most of them would
// have to come from memory.
fn weight_from<Ix: IndexType, W: Drop>(
    slots: &Edges<Ix, W>,
    begin: usize,
    at: usize,
    j: usize,
    k: usize,
) -> Option<&W>
    requires { (i : ℕ) → i < begin → ¬ Joins (edges_by Ix.number slots.now.items) i j k }
    ensures some { IfSome result (λ w. slot (edges_by Ix.number slots.now.items) at
        ≡ Some (record { parent = j; child = k; weight = w.now })) }
    ensures none { IfNone result (¬ Joins (edges_by Ix.number slots.now.items) at j k) }
{
    if at < begin {
        return None;
    }
    weight_in(slots, at, j, k)
}

// Folds an edge from the component `j` to the component `k` into the slot of these two. If they have
// none, it gets a new one, which is noted for `k`. The slots before `begin` have no edge from `j`.
fn fold_edge<Ix: IndexType, E: Drop, W: Drop, F: Fn(Option<W>, EdgeIndex<Ix>, &E) -> W>(
    slots: &mut Edges<Ix, W>,
    found: &mut Vec<usize>,
    begin: usize,
    j: usize,
    k: usize,
    e: EdgeIndex<Ix>,
    weight: &E,
    f: &F,
) -> Result<(), AllocError>
    requires before { (i : ℕ) → i < begin → ¬ Joins (edges_by Ix.number slots.old.items) i j k }
    requires from { j ≤ Ix.greatest }
    requires to { k ≤ Ix.greatest }
    requires within { k < vec_len found.old }
    requires again { (given : W)
        → slot (edges_by Ix.number slots.old.items) (slice_index found.old.items k)
        ≡ Some (record { parent = j; child = k; weight = given })
        → F.pre f.now (Some given) e weight }
    requires first { ¬ Joins (edges_by Ix.number slots.old.items) (slice_index found.old.items k) j k
        → F.pre f.now None e weight }
    ensures { OnOk result (
        (IsReplaced (λ given made. F.post f.now (Some given) e weight.entry made)
        (edges_by Ix.number slots.old.items) (edges_by Ix.number slots.new.items)
        (slice_index found.old.items k) j k × (found.new.items ≡ found.old.items))
        ⊎ ((made : W) × F.post f.now None e weight.entry made
        × IsAppended (edges_by Ix.number slots.old.items) (edges_by Ix.number slots.new.items)
        found.old.items found.new.items j k made)) }
{
    let at = found[k];
    if let Some(_) = weight_from(slots, begin, at, j, k) {
        let (a, b, given) = slots[at].take().unwrap();
        slots[at] = Some((a, b, f(Some(given), e, weight)));
        return Ok(());
    }
    let made = f(None, e, weight);
    found[k] = slots.len();
    slots.push(Some((NodeIndex::new(j), NodeIndex::new(k), made)))?;
    Ok(())
}

// An edge for each two components that edges join, with what `f` returned for the last of these.
fn folded_edges<
    Ix: IndexType,
    S: ReadStore<Ix>,
    W: Drop,
    F: Fn(Option<W>, EdgeIndex<Ix>, &S::EdgeWeight) -> W,
>(alloc: Global, store: &S, components: &Components<Ix>, f: &F) -> Result<Edges<Ix, W>, AllocError>
    requires components { AreComponents (S.graph store.now) components.now }
    requires callable { CanFold (F.post f.now) Ix.of (S.graph store.now) components.now (F.pre f.now) }
    ensures folded { IfOk result (λ slots. IsFolded (F.post f.now) Ix.of (S.graph store.now)
        components.now (edges_by Ix.number slots.items)) }
    ensures full { IfOk result (λ slots. (i : ℕ) → i < vec_len slots
        → IsSome (slot (edges_by Ix.number slots.items) i)) }
    ensures few { IfOk result (λ slots. vec_len slots ≤ Ix.greatest) }
{
    // Called for its contract: each list has the edges of its node.
    store.invariant();
    let mut source = Reading::new(store);
    let end = EdgeIndex::<Ix>::end().index();
    let mut slots = Vec::new(alloc);
    // For each component, which slot may hold an edge that leads to it from the component at hand.
    let mut found = vec![in alloc; 0; components.count()]?;
    'components: for j in 0..components.count() {
        let begin = slots.len();
        'members: for n in components.members(j) {
            let mut e = source.first(*n);
            'edges: while e.index() != end {
                let (v, next) = source.look(e);
                let k = components.component_of(v).unwrap();
                if k != j {
                    let weight = store.edge_weight(e).unwrap();
                    fold_edge(&mut slots, &mut found, begin, j, k, e, weight, f)?;
                }
                e = next;
            }
        }
    }
    Ok(slots)
}

/// The condensation of a graph with the weights of its edges folded, as a dag of either kind: a
/// node for each component, with the list of its members as its weight, and an edge for each pair
/// of components that edges connect, with a weight that `f` folds from the weights of these edges.
///
/// For each edge between two components, `f` is called with its own result for the previous edge
/// between these components, or with `None` for the first. The edges that leave a component are
/// visited member by member, each member's out list from its first edge to its last. Edges within a
/// component are left out.
///
/// Node `k` is the component `k`. A node of the graph reaches another if and only if its component
/// reaches the other node's component.
///
/// # Requires
///
/// - `components`: They are the strongly connected components of the graph, as
///   `strongly_connected_components` returns them.
/// - `callable`: `f` may be called with each edge between two components, its weight, and what `f`
///   returned for the edges before it between the same two components.
///
/// # Errors
///
/// Returns `AllocError` if an allocation fails.
///
/// # Complexity
///
/// O(nodes + edges), plus the calls.
///
/// # Examples
///
/// ```
/// let mut graph: DiGraph<&'static str, u32> = DiGraph::new(rt.alloc());
/// let egg = graph.add_node("egg")?;
/// let hen = graph.add_node("hen")?;
/// let soup = graph.add_node("soup")?;
/// let _ = graph.add_edge(egg, hen, 21)?;
/// let _ = graph.add_edge(hen, egg, 1)?;
/// let _ = graph.add_edge(hen, soup, 3)?;
/// let _ = graph.add_edge(egg, soup, 7)?;
/// let components = strongly_connected_components(rt.alloc(), &mut graph)?;
/// // The least number of days.
/// let dag: Dag<Vec<NodeIndex>, u32> =
///     condensed_dag_with_fold(rt.alloc(), &graph, &components, |least: Option<u32>, _, days| {
///         least.map_or(*days, |least| least.min(*days))
///     })?;
/// assert!(rt; dag.edge_count() == 1);
/// assert!(rt; dag.edge_weight(EdgeIndex::new(0)) == Some(&3));
/// ```
pub fn condensed_dag_with_fold<
    Ix: IndexType,
    S: ReadStore<Ix>,
    T,
    W: Drop,
    F: Fn(Option<W>, EdgeIndex<Ix>, &S::EdgeWeight) -> W + Drop,
>(
    alloc: Global,
    store: &S,
    components: &Components<Ix>,
    f: F,
) -> Result<Acyclic<Vec<NodeIndex<Ix>>, W, Ix, T>, AllocError>
where
    T: Store<Ix, NodeWeight = Vec<NodeIndex<Ix>>, EdgeWeight = W>,
    requires components { AreComponents (S.graph store.now) components.now }
    requires callable { CanFold (F.post f) Ix.of (S.graph store.now) components.now (F.pre f) }
    ensures nodes { IfOk result (λ dag.
        HasComponents (λ list. map Ix.number list.items) components.now dag.graph) }
    ensures edges { IfOk result (λ dag. IsFolded (F.post f) Ix.of (S.graph store.now) components.now
        dag.graph.edges) }
    ensures lists { IfOk result (λ dag. IsAsBuilt dag.graph) }
    ensures acyclic { IfOk result (λ dag. IsAcyclic dag.graph) }
    ensures reachability { IfOk result (λ dag.
        KeepsReachability (S.graph store.now) components.now dag.graph) }
    ensures compact { IfOk result (λ dag. IsCompact dag.graph) }
{
    // Called for its contract: what always holds of a store.
    store.invariant();
    let nodes = nodes_of(alloc, components)?;
    let edges = folded_edges(alloc, store, components, &f)?;
    dag_of(alloc, nodes, edges)
}
