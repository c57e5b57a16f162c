//! Calls while memory is refused once. `rt try --test --fail-alloc N` refuses the Nth allocation: a
//! call that is refused says so, and succeeds when it is made again.
use super::support::{goes_round, graph_of, made, same, some};
use daggy_base::index::{EdgeIndex, NodeIndex};
use daggy_base::read_store::ReadStore;
use daggy_base::store::Store;
use daggy_components::{
    condensation, find_cycle, strongly_connected_components, weakly_connected_components,
};
use daggy_cycles::{feedback_arc_set, find_cycle_edges, shortest_cycle};
use daggy_graph::graph::DiGraph;
use daggy_search::Reading;
use daggy_stable::stable_graph::StableDiGraph;
use std::alloc::{AllocError, Global};
use std::process::Abort;

// The cycles of a graph in which the first node is on one of two.
fn cycles_again<S: ReadStore<u8>>(rt: &impl Abort, alloc: Global, graph: &S) {
    let edges = match find_cycle_edges(alloc, graph) {
        Ok(edges) => edges,
        Err(AllocError) => made(rt, find_cycle_edges(alloc, graph)),
    };
    same(rt, some(rt, edges).len(), 2);
    let start = NodeIndex::new(0);
    let mut source = Reading::new(graph);
    let shortest = match shortest_cycle(alloc, &mut source, start) {
        Ok(shortest) => shortest,
        Err(AllocError) => made(rt, shortest_cycle(alloc, &mut source, start)),
    };
    same(rt, some(rt, shortest).len(), 2);
    let left_out = match feedback_arc_set(alloc, graph, &[]) {
        Ok(left_out) => left_out,
        Err(AllocError) => made(rt, feedback_arc_set(alloc, graph, &[])),
    };
    same(rt, left_out.len(), 1);
}

fn again<S, T>(rt: &impl Abort, alloc: Global)
where
    S: Store<u8, NodeWeight = (), EdgeWeight = ()>,
    T: Store<u8, NodeWeight = Vec<NodeIndex<u8>>, EdgeWeight = EdgeIndex<u8>>,
{
    let graph: S = graph_of(rt, alloc, 4, &[(0, 1), (1, 0), (1, 2), (2, 3)]);
    let mut source = Reading::new(&graph);
    let components = match strongly_connected_components(alloc, &mut source) {
        Ok(components) => components,
        Err(AllocError) => made(rt, strongly_connected_components(alloc, &mut source)),
    };
    same(rt, components.count(), 3);
    let weak = match weakly_connected_components(alloc, &graph) {
        Ok(weak) => weak,
        Err(AllocError) => made(rt, weakly_connected_components(alloc, &graph)),
    };
    same(rt, weak.count(), 1);
    let condensed: T = match condensation(alloc, &mut source, &components) {
        Ok(condensed) => condensed,
        Err(AllocError) => made(rt, condensation(alloc, &mut source, &components)),
    };
    same(rt, condensed.edge_count(), 2);
    let cycle = match find_cycle(alloc, &mut source) {
        Ok(cycle) => cycle,
        Err(AllocError) => made(rt, find_cycle(alloc, &mut source)),
    };
    goes_round(rt, some(rt, cycle).as_slice(), &[0, 1]);
    cycles_again(rt, alloc, &graph);
}

#[test]
fn refused_calls_are_made_again(rt: HostRuntime) {
    again::<DiGraph<(), (), u8>, DiGraph<Vec<NodeIndex<u8>>, EdgeIndex<u8>, u8>>(&rt, rt.alloc());
}

#[test]
fn refused_calls_on_a_stable_graph_are_made_again(rt: HostRuntime) {
    again::<StableDiGraph<(), (), u8>, StableDiGraph<Vec<NodeIndex<u8>>, EdgeIndex<u8>, u8>>(
        &rt,
        rt.alloc(),
    );
}
