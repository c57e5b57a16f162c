//! A condensation as a dag of either kind.
use crate::{condensed_dag, condensed_dag_with_all_edges, condensed_dag_with_fold};
use daggy_base::index::{EdgeIndex, NodeIndex};
use daggy_base::store::Store;
use daggy_components::{Components, strongly_connected_components};
use daggy_dag::acyclic::Acyclic;
use daggy_graph::graph::DiGraph;
use daggy_search::Reading;
use daggy_stable::stable_graph::StableDiGraph;
use std::alloc::Global;
use std::process::Abort;
use std::test::Fail;

// Asserts that a dag has two nodes, of which the second is joined to the first.
fn is_joined_once<T>(rt: &impl Abort, dag: &Acyclic<Vec<NodeIndex<u8>>, EdgeIndex<u8>, u8, T>)
where
    T: Store<u8, NodeWeight = Vec<NodeIndex<u8>>, EdgeWeight = EdgeIndex<u8>>,
{
    assert!(rt; dag.node_count() == 2 && dag.edge_count() == 1);
    assert!(rt;
        dag.find_edge(NodeIndex::new(1), NodeIndex::new(0))
            .is_some()
    );
}

#[test]
fn two_components_are_two_nodes(rt: HostRuntime) -> Result<(), Fail> {
    let mut graph: DiGraph<(), (), u8> = DiGraph::new(rt.alloc());
    let hen = graph.add_node(())?;
    let egg = graph.add_node(())?;
    let cake = graph.add_node(())?;
    graph.add_edge(hen, egg, ())?;
    graph.add_edge(egg, hen, ())?;
    graph.add_edge(egg, cake, ())?;
    let mut source = Reading::new(&graph);
    let components = strongly_connected_components(rt.alloc(), &mut source)?;
    let dag: Acyclic<_, _, u8, DiGraph<Vec<NodeIndex<u8>>, EdgeIndex<u8>, u8>> = condensed_dag(
        rt.alloc(),
        &mut source,
        &components,
    )?;
    is_joined_once(&rt, &dag);
    let stable: Acyclic<_, _, u8, StableDiGraph<Vec<NodeIndex<u8>>, EdgeIndex<u8>, u8>> =
        condensed_dag(rt.alloc(), &mut source, &components)?;
    is_joined_once(&rt, &stable);
    Ok(())
}

type Compact<W> = Acyclic<Vec<NodeIndex<u8>>, W, u8, DiGraph<Vec<NodeIndex<u8>>, W, u8>>;

type Stable<W> = Acyclic<Vec<NodeIndex<u8>>, W, u8, StableDiGraph<Vec<NodeIndex<u8>>, W, u8>>;

// Two nodes that reach each other, and an edge from each of them to a third.
fn two_ways(alloc: Global) -> Result<DiGraph<(), u32, u8>, Fail> {
    let mut graph: DiGraph<(), u32, u8> = DiGraph::new(alloc);
    let hen = graph.add_node(())?;
    let egg = graph.add_node(())?;
    let cake = graph.add_node(())?;
    graph.add_edge(hen, egg, 1)?;
    graph.add_edge(hen, cake, 3)?;
    graph.add_edge(egg, hen, 2)?;
    graph.add_edge(egg, cake, 7)?;
    Ok(graph)
}

// Asserts the weights of the first two edges.
fn has_weights<T>(
    rt: &impl Abort,
    dag: &Acyclic<Vec<NodeIndex<u8>>, u32, u8, T>,
    first: Option<&u32>,
    second: Option<&u32>,
)
where
    T: Store<u8, NodeWeight = Vec<NodeIndex<u8>>, EdgeWeight = u32>,
{
    assert!(rt; dag.node_count() == 2);
    assert!(rt; dag.edge_weight(EdgeIndex::new(0)) == first);
    assert!(rt; dag.edge_weight(EdgeIndex::new(1)) == second);
}

#[test]
fn each_edge_keeps_its_weight(rt: HostRuntime) -> Result<(), Fail> {
    let graph = two_ways(rt.alloc())?;
    let components = strongly_connected_components(rt.alloc(), &mut Reading::new(&graph))?;
    let dag: Compact<u32> = condensed_dag_with_all_edges(
        rt.alloc(),
        &graph,
        &components,
        |_, w| *w,
    )?;
    has_weights(&rt, &dag, Some(&3), Some(&7));
    let stable: Stable<u32> = condensed_dag_with_all_edges(
        rt.alloc(),
        &graph,
        &components,
        |_, w| *w,
    )?;
    has_weights(&rt, &stable, Some(&3), Some(&7));
    Ok(())
}

#[test]
fn weights_are_folded(rt: HostRuntime) -> Result<(), Fail> {
    let graph = two_ways(rt.alloc())?;
    let components = strongly_connected_components(rt.alloc(), &mut Reading::new(&graph))?;
    let dag: Compact<u32> = condensed_dag_with_fold(
        rt.alloc(),
        &graph,
        &components,
        |sum: Option<u32>, _, w| sum.unwrap_or(0).saturating_add(*w),
    )?;
    has_weights(&rt, &dag, Some(&10), None);
    let stable: Stable<u32> = condensed_dag_with_fold(
        rt.alloc(),
        &graph,
        &components,
        |least: Option<u32>, _, w| least.map_or(*w, |least| least.min(*w)),
    )?;
    has_weights(&rt, &stable, Some(&3), None);
    Ok(())
}
