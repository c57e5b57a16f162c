//! The edges to leave out, and the edges of a cycle.
use crate::{feedback_arc_set, find_cycle_edges};
use daggy_base::index::EdgeIndex;
use daggy_base::read_store::ReadStore;
use daggy_graph::graph::DiGraph;
use daggy_stable::stable_graph::StableDiGraph;
use std::alloc::{AllocError, Global};
use std::process::Abort;
use std::test::Fail;

// Asserts which edges are to be left out, by default and if the third is preferred, and that a cycle
// of two edges is found.
fn is_answered<S: ReadStore<u8>>(
    rt: &impl Abort,
    alloc: Global,
    graph: &S,
) -> Result<(), AllocError> {
    let hatched = EdgeIndex::new(1);
    let left_out = feedback_arc_set(alloc, graph, &[])?;
    assert!(rt; left_out.as_slice() == [hatched].as_slice());
    let left_out = feedback_arc_set(alloc, graph, &[hatched])?;
    assert!(rt; left_out.as_slice() == [EdgeIndex::new(0)].as_slice());
    let cycle = find_cycle_edges(alloc, graph)?;
    assert!(rt; cycle.is_some_and(|edges| edges.len() == 2));
    Ok(())
}

#[test]
fn one_edge_of_two_is_left_out(rt: HostRuntime) -> Result<(), Fail> {
    let mut graph: DiGraph<(), (), u8> = DiGraph::new(rt.alloc());
    let hen = graph.add_node(())?;
    let egg = graph.add_node(())?;
    graph.add_edge(hen, egg, ())?;
    graph.add_edge(egg, hen, ())?;
    is_answered(&rt, rt.alloc(), &graph)?;
    let mut stable: StableDiGraph<(), (), u8> = StableDiGraph::new(rt.alloc());
    let hen = stable.add_node(())?;
    let egg = stable.add_node(())?;
    stable.add_edge(hen, egg, ())?;
    stable.add_edge(egg, hen, ())?;
    is_answered(&rt, rt.alloc(), &stable)?;
    Ok(())
}
