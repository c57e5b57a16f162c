//! A dag of the components of a graph.
ghost use Rattle.std.specs.Prelude.{◌≡◌, ◌+◌, ◌≤◌, IfOk, map};
ghost use Rattle.daggy_base.specs.Graph.{edge_count, IsCompact};
ghost use Rattle.daggy_base.specs.Path.{IsAcyclic};
ghost use Rattle.daggy_components.specs.Components.{AreComponents};
ghost use Rattle.daggy_components.specs.Condensation.{IsCondensation, KeepsReachability};

use daggy_base::error::SlotsError;
use daggy_base::index::{EdgeIndex, IndexType, NodeIndex};
use daggy_base::source::EdgeSource;
use daggy_base::store::Store;
use daggy_components::{Components, condensation_slots};
use daggy_dag::acyclic::Acyclic;
use std::alloc::{AllocError, Global};

/// The condensation of a graph, as a dag of either kind: a node for each component, with the list
/// of its members as its weight, and an edge for each pair of components that edges connect, with
/// the smallest index of these edges as its weight.
///
/// Node `k` is the component `k`. A node of the graph reaches another if and only if its component
/// reaches the other node's component.
///
/// # Requires
///
/// - `components` are the strongly connected components of the graph, as
///   `strongly_connected_components` returns them.
///
/// # Errors
///
/// Returns `AllocError` if an allocation fails.
///
/// # Complexity
///
/// O(nodes + edges); each edge of the graph is read at most once.
///
/// # Examples
///
/// ```
/// let mut graph: DiGraph<&'static str, ()> = DiGraph::new(rt.alloc());
/// let egg = graph.add_node("egg")?;
/// let hen = graph.add_node("hen")?;
/// let soup = graph.add_node("soup")?;
/// let _ = graph.add_edge(egg, hen, ())?;
/// let _ = graph.add_edge(hen, egg, ())?;
/// let _ = graph.add_edge(hen, soup, ())?;
/// let components = strongly_connected_components(rt.alloc(), &mut graph)?;
/// let dag: Dag<Vec<NodeIndex>, EdgeIndex> = condensed_dag(rt.alloc(), &mut graph, &components)?;
/// // The egg and the hen are one node.
/// assert!(rt; dag.node_count() == 2);
/// assert!(rt; dag.edge_count() == 1);
/// ```
pub fn condensed_dag<Ix: IndexType, S: EdgeSource<Ix>, T>(
    alloc: Global,
    source: &mut S,
    components: &Components<Ix>,
) -> Result<Acyclic<Vec<NodeIndex<Ix>>, EdgeIndex<Ix>, Ix, T>, AllocError>
where
    T: Store<Ix, NodeWeight = Vec<NodeIndex<Ix>>, EdgeWeight = EdgeIndex<Ix>>,
    requires { AreComponents (S.graph source.old) components.now }
    ensures condensation { IfOk result (λ dag.
        IsCondensation (λ list. map Ix.number list.items) Ix.number (S.graph source.old)
        components.now dag.graph) }
    ensures acyclic { IfOk result (λ dag. IsAcyclic dag.graph) }
    ensures reachability { IfOk result (λ dag.
        KeepsReachability (S.graph source.old) components.now dag.graph) }
    ensures compact { IfOk result (λ dag. IsCompact dag.graph) }
    ensures same { S.graph source.new ≡ S.graph source.old }
    ensures looked { S.looks source.old ≤ S.looks source.new }
    ensures counted { S.looks source.new ≤ S.looks source.old + edge_count (S.graph source.old) }
{
    let (nodes, edges) = condensation_slots(alloc, source, components)?;
    match Acyclic::from_slots(alloc, nodes, edges) {
        Ok(dag) => Ok(dag),
        Err(SlotsError::Memory) => Err(AllocError),
        Err(SlotsError::Cycle) => unreachable!(),
    }
}
