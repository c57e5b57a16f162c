//! A dag of the components of a graph, with all edges between them.
ghost use Rattle.std.specs.Prelude.{◌≡◌, Some, IfOk, IfSome, IfNone, map};
ghost use Rattle.daggy_base.specs.Graph.{Edge, edge_at, IsCompact};
ghost use Rattle.daggy_base.specs.Path.{IsAcyclic};
ghost use Rattle.daggy_base.specs.FromSlots.{edges_by};
ghost use Rattle.daggy_base.specs.CallsInTurn.{CanCallAtSomeEdges};
ghost use Rattle.daggy_components.specs.Components.{AreComponents};
ghost use Rattle.daggy_components.specs.Condensation.{KeepsReachability};
ghost use Rattle.daggy_condensation.specs.Between.{Crosses, LiesWithin, KeepsBetween};
ghost use Rattle.daggy_condensation.specs.Between.{HasComponents, IsAsBuilt};

use crate::building::{Edges, dag_of, nodes_of};
use daggy_base::index::{EdgeIndex, IndexType, NodeIndex};
use daggy_base::read_store::ReadStore;
use daggy_base::store::Store;
use daggy_components::Components;
use daggy_dag::acyclic::Acyclic;
use std::alloc::{AllocError, Global};

// The components between which an edge leads, if these are two.
fn crossed<Ix: IndexType, S: ReadStore<Ix>>(
    store: &S,
    components: &Components<Ix>,
    e: EdgeIndex<Ix>,
) -> Option<(usize, usize)>
    requires { AreComponents (S.graph store.now) components.now }
    ensures some { IfSome result (λ p. (x : Edge S.EdgeWeight)
        × (edge_at (S.graph store.now) (Ix.number e) ≡ Some x) × Crosses components.now x p.0 p.1) }
    ensures none { IfNone result ((x : Edge S.EdgeWeight)
        → edge_at (S.graph store.now) (Ix.number e) ≡ Some x → LiesWithin components.now x) }
{
    // Called for its contract: what always holds of a store.
    store.invariant();
    let (a, b) = store.edge_endpoints(e)?;
    let j = components.component_of(a).unwrap();
    let k = components.component_of(b).unwrap();
    if j == k {
        return None;
    }
    Some((j, k))
}

// The edges between components, with the weights that `f` returns for them.
fn edges_between<
    Ix: IndexType,
    S: ReadStore<Ix>,
    W: Drop,
    F: FnMut(EdgeIndex<Ix>, &S::EdgeWeight) -> W,
>(
    alloc: Global,
    store: &S,
    components: &Components<Ix>,
    mut f: F,
) -> Result<Edges<Ix, W>, AllocError>
    requires components { AreComponents (S.graph store.now) components.now }
    requires callable { CanCallAtSomeEdges Ix.of F.pre F.step f (S.graph store.now) }
    ensures { IfOk result (λ slots. KeepsBetween F.step Ix.of components.now f 0
        (S.graph store.now).edges (edges_by Ix.number slots.items)) }
{
    // Called for its contract: what always holds of a store.
    store.invariant();
    let mut slots = Vec::with_capacity(alloc, store.edge_count())?;
    'edges: for i in 0..store.edge_slots() {
        let e = EdgeIndex::new(i);
        let Some((j, k)) = crossed(store, components, e) else {
            continue;
        };
        let weight = f(e, store.edge_weight(e).unwrap());
        slots.push(Some((NodeIndex::new(j), NodeIndex::new(k), weight)))?;
    }
    Ok(slots)
}

/// The condensation of a graph with all edges between components, as a dag of either kind: a node
/// for each component, with the list of its members as its weight, and, for each edge between two
/// components, an edge between their nodes, with the weight that `f` returns. Edges within a
/// component are left out.
///
/// Node `k` is the component `k`. The edges are in the order of their indices in the graph, and `f`
/// is called in this order. A node of the graph reaches another if and only if its component
/// reaches the other node's component.
///
/// [`condensed_dag`](crate::condensed_dag) has only one edge for each pair of components that edges
/// connect.
///
/// # Requires
///
/// - `components`: They are the strongly connected components of the graph, as
///   `strongly_connected_components` returns them.
/// - `callable`: `f` may be called with edges of the graph and their weights, in ascending index
///   order, no matter which edges these are.
///
/// # Errors
///
/// Returns `AllocError` if an allocation fails.
///
/// # Complexity
///
/// O(nodes + edges), plus the calls.
///
/// # Examples
///
/// ```
/// let mut graph: DiGraph<&'static str, u32> = DiGraph::new(rt.alloc());
/// let egg = graph.add_node("egg")?;
/// let hen = graph.add_node("hen")?;
/// let soup = graph.add_node("soup")?;
/// let _ = graph.add_edge(egg, hen, 21)?;
/// let _ = graph.add_edge(hen, egg, 1)?;
/// let _ = graph.add_edge(hen, soup, 3)?;
/// let _ = graph.add_edge(egg, soup, 7)?;
/// let components = strongly_connected_components(rt.alloc(), &mut graph)?;
/// let dag: Dag<Vec<NodeIndex>, u32> =
///     condensed_dag_with_all_edges(rt.alloc(), &graph, &components, |_, days| *days)?;
/// assert!(rt; dag.node_count() == 2);
/// assert!(rt; dag.edge_count() == 2);
/// assert!(rt; dag.edge_weight(EdgeIndex::new(1)) == Some(&7));
/// ```
pub fn condensed_dag_with_all_edges<
    Ix: IndexType,
    S: ReadStore<Ix>,
    T,
    W: Drop,
    F: FnMut(EdgeIndex<Ix>, &S::EdgeWeight) -> W,
>(
    alloc: Global,
    store: &S,
    components: &Components<Ix>,
    f: F,
) -> Result<Acyclic<Vec<NodeIndex<Ix>>, W, Ix, T>, AllocError>
where
    T: Store<Ix, NodeWeight = Vec<NodeIndex<Ix>>, EdgeWeight = W>,
    requires components { AreComponents (S.graph store.now) components.now }
    requires callable { CanCallAtSomeEdges Ix.of F.pre F.step f (S.graph store.now) }
    ensures nodes { IfOk result (λ dag.
        HasComponents (λ list. map Ix.number list.items) components.now dag.graph) }
    ensures edges { IfOk result (λ dag. KeepsBetween F.step Ix.of components.now f 0
        (S.graph store.now).edges dag.graph.edges) }
    ensures lists { IfOk result (λ dag. IsAsBuilt dag.graph) }
    ensures acyclic { IfOk result (λ dag. IsAcyclic dag.graph) }
    ensures reachability { IfOk result (λ dag.
        KeepsReachability (S.graph store.now) components.now dag.graph) }
    ensures compact { IfOk result (λ dag. IsCompact dag.graph) }
{
    // Called for its contract: what always holds of a store.
    store.invariant();
    let nodes = nodes_of(alloc, components)?;
    let edges = edges_between(alloc, store, components, f)?;
    dag_of(alloc, nodes, edges)
}
