//! Each row in both kinds of store.
use super::rows::{Row, VACANT, WHOLE};
use super::support::{
    are_edges, are_nodes, edges, goes_round, graph_of, holds, made, node, same, some,
};
use daggy_base::index::{EdgeIndex, NodeIndex};
use daggy_base::read_store::ReadStore;
use daggy_base::store::Store;
use daggy_components::{
    Components, condensation, find_cycle, strongly_connected_components,
    weakly_connected_components,
};
use daggy_cycles::{cycle_edges, feedback_arc_set, find_cycle_edges, shortest_cycle};
use daggy_graph::graph::DiGraph;
use daggy_search::Reading;
use daggy_stable::stable_graph::StableDiGraph;
use std::alloc::Global;
use std::process::Abort;

// The component of a node that exists.
fn component_of(rt: &impl Abort, components: &Components<u8>, x: usize) -> usize {
    some(rt, components.component_of(node(rt, x)))
}

// Asserts that these are the components.
fn are_components(rt: &impl Abort, components: &Components<u8>, wanted: &[&[usize]]) {
    same(rt, components.count(), wanted.len());
    for members in wanted {
        let first = some(rt, members.first().copied());
        let k = component_of(rt, components, first);
        are_nodes(rt, components.members(k), members);
    }
}

// Asserts that an edge with this weight leads from one node of a condensation to another.
fn is_joined<T>(rt: &impl Abort, graph: &T, a: usize, b: usize, weight: usize)
where
    T: ReadStore<u8, EdgeWeight = EdgeIndex<u8>>,
{
    let edge = some(rt, graph.find_edge(node(rt, a), node(rt, b)));
    same(rt, graph.edge_weight(edge).map(|e| e.index()), Some(weight));
}

// Asserts that an edge leads from each node to the next, and from the last one to the first.
fn leads_round<S: ReadStore<u8>>(
    rt: &impl Abort,
    graph: &S,
    nodes: &[NodeIndex<u8>],
    edges: &[EdgeIndex<u8>],
) {
    same(rt, edges.len(), nodes.len());
    for (k, n) in nodes.iter().enumerate() {
        let edge = some(rt, edges.get(k).copied());
        let ends = some(rt, graph.edge_endpoints(edge));
        let to = match nodes.get(k.wrapping_add(1)) {
            Some(next) => *next,
            None => some(rt, nodes.first().copied()),
        };
        same(rt, ends.0, *n);
        same(rt, ends.1, to);
    }
}

// Asserts what is wanted of the cycles of a row's graph.
fn has_cycles<S: ReadStore<u8>>(rt: &impl Abort, alloc: Global, graph: &S, row: &Row) {
    match made(rt, find_cycle(alloc, &mut Reading::new(graph))) {
        Some(nodes) => {
            goes_round(rt, nodes.as_slice(), row.cycle);
            let edges = made(rt, cycle_edges(alloc, graph, nodes.as_slice()));
            leads_round(rt, graph, nodes.as_slice(), edges.as_slice());
            let again = some(rt, made(rt, find_cycle_edges(alloc, graph)));
            same(rt, again.len(), edges.len());
        }
        None => {
            same(rt, row.cycle.len(), 0);
            same(
                rt,
                made(rt, find_cycle_edges(alloc, graph)).is_some(),
                false,
            );
        }
    }
    for (x, len) in row.shortest.iter().enumerate() {
        let n = node(rt, x);
        let found = made(rt, shortest_cycle(alloc, &mut Reading::new(graph), n));
        same(rt, found.map_or(0, |nodes| nodes.len()), *len);
    }
}

// Asserts which edges of a row's graph are left out.
fn leaves_out<S: ReadStore<u8>>(rt: &impl Abort, alloc: Global, graph: &S, row: &Row) {
    let left_out = made(rt, feedback_arc_set(alloc, graph, &[]));
    are_edges(rt, left_out.as_slice(), row.left_out);
    let preferred = edges(rt, alloc, row.left_out);
    let instead = made(rt, feedback_arc_set(alloc, graph, preferred.as_slice()));
    are_edges(rt, instead.as_slice(), row.left_out_instead);
}

// Asserts that a row's graph has the components, the cycles and the condensation that are wanted.
fn answers<S, T>(rt: &impl Abort, alloc: Global, row: &Row)
where
    S: Store<u8, NodeWeight = (), EdgeWeight = ()>,
    T: Store<u8, NodeWeight = Vec<NodeIndex<u8>>, EdgeWeight = EdgeIndex<u8>>,
{
    let mut graph: S = graph_of(rt, alloc, row.nodes, row.edges);
    if let Some(x) = row.removed {
        let _weight = graph.remove_node(node(rt, x));
    }
    let mut source = Reading::new(&graph);
    let components = made(rt, strongly_connected_components(alloc, &mut source));
    are_components(rt, &components, row.components);
    let weak = made(rt, weakly_connected_components(alloc, &graph));
    are_components(rt, &weak, row.weak);
    if let Some(x) = row.removed {
        same(rt, components.component_of(node(rt, x)), None);
    }
    same(rt, components.members(components.count()).len(), 0);
    let mut members = 0usize;
    for component in components.iter() {
        members = members.wrapping_add(component.len());
    }
    same(rt, members, graph.node_count());
    let condensed: T = made(rt, condensation(alloc, &mut source, &components));
    same(rt, condensed.node_count(), row.components.len());
    same(rt, condensed.edge_count(), row.joined.len());
    for (a, b, e) in row.joined {
        let (j, k) = (
            component_of(rt, &components, *a),
            component_of(rt, &components, *b),
        );
        is_joined(rt, &condensed, j, k, *e);
    }
    has_cycles(rt, alloc, &graph, row);
    leaves_out(rt, alloc, &graph, row);
}

#[test]
fn compact_graphs_are_answered(rt: HostRuntime) {
    for row in WHOLE {
        answers::<DiGraph<(), (), u8>, DiGraph<Vec<NodeIndex<u8>>, EdgeIndex<u8>, u8>>(
            &rt,
            rt.alloc(),
            row,
        );
    }
}

#[test]
fn stable_graphs_are_answered(rt: HostRuntime) {
    for row in WHOLE {
        answers::<StableDiGraph<(), (), u8>, StableDiGraph<Vec<NodeIndex<u8>>, EdgeIndex<u8>, u8>>(
            &rt,
            rt.alloc(),
            row,
        );
    }
}

#[test]
fn vacant_slots_are_in_no_component(rt: HostRuntime) {
    for row in VACANT {
        answers::<StableDiGraph<(), (), u8>, DiGraph<Vec<NodeIndex<u8>>, EdgeIndex<u8>, u8>>(
            &rt,
            rt.alloc(),
            row,
        );
    }
}

// A task before another, by name.
fn add<S: Store<u8, NodeWeight = String, EdgeWeight = ()>>(
    rt: &impl Abort,
    alloc: Global,
    graph: &mut S,
    name: &str,
) -> NodeIndex<u8> {
    holds(rt, graph.can_add_node());
    let name = made(rt, name.to_string(alloc));
    made(rt, graph.add_node(name))
}

fn named<S: Store<u8, NodeWeight = String, EdgeWeight = ()>>(rt: &impl Abort, alloc: Global) {
    let mut graph = S::new(alloc);
    let sow = add(rt, alloc, &mut graph, "sow");
    let reap = add(rt, alloc, &mut graph, "reap");
    for (a, b) in [(sow, reap), (reap, sow)] {
        holds(rt, graph.contains_node(a));
        holds(rt, graph.contains_node(b));
        holds(rt, graph.can_add_edge());
        made(rt, graph.add_edge(a, b, ()));
    }
    let cycle = some(rt, made(rt, find_cycle(alloc, &mut Reading::new(&graph))));
    same(rt, cycle.len(), 2);
    for n in &cycle {
        holds(rt, graph.node_weight(*n).is_some());
    }
}

#[test]
fn a_cycle_of_tasks_is_found(rt: HostRuntime) {
    named::<DiGraph<String, (), u8>>(&rt, rt.alloc());
    named::<StableDiGraph<String, (), u8>>(&rt, rt.alloc());
}
