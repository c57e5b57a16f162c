//! Shortest paths of small graphs.
use super::support::{holds, made, same};
use daggy_base::index::NodeIndex;
use daggy_order::order::{Order, path_in};
use daggy_search::Scratch;
use daggy_stable::stable_graph::StableDiGraph;
use std::alloc::Global;
use std::process::Abort;

fn node(rt: &impl Abort, n: usize) -> NodeIndex<u8> {
    holds(rt, n < 255);
    NodeIndex::new(n)
}

fn graph_of(
    rt: &impl Abort,
    alloc: Global,
    nodes: usize,
    edges: &[(usize, usize)],
) -> StableDiGraph<(), (), u8> {
    let mut graph = StableDiGraph::new(alloc);
    for _ in 0..nodes {
        holds(rt, graph.can_add_node());
        let _n = made(rt, graph.add_node(()));
    }
    for (a, b) in edges {
        let (a, b) = (node(rt, *a), node(rt, *b));
        holds(rt, graph.contains_node(a) && graph.contains_node(b));
        holds(rt, graph.can_add_edge());
        let _e = made(rt, graph.add_edge(a, b, ()));
    }
    graph
}

// Asserts that these are the nodes of the path from one node to another, or that there is no path
// if none are given.
fn leads(
    rt: &impl Abort,
    alloc: Global,
    graph: &mut StableDiGraph<(), (), u8>,
    ends: (usize, usize),
    wanted: &[usize],
) {
    let (a, b) = (node(rt, ends.0), node(rt, ends.1));
    let mut scratch = Scratch::new(alloc);
    made(rt, scratch.reserve(graph.node_bound(), 0));
    let Some(mut order) = made(rt, Order::sorted(alloc, graph, &mut scratch)) else {
        return holds(rt, false);
    };
    let Some(path) = made(rt, path_in(alloc, graph, &mut order, a, b, &mut scratch)) else {
        return same(rt, 0, wanted.len());
    };
    same(rt, path.len(), wanted.len());
    for (n, index) in path.iter().zip(wanted) {
        same(rt, n.index(), *index);
    }
}

#[test]
fn the_shorter_way_is_taken(rt: HostRuntime) {
    for edges in [
        [(0, 1), (1, 2), (2, 4), (0, 3), (3, 4)],
        [(0, 3), (3, 4), (0, 1), (1, 2), (2, 4)],
    ] {
        let mut graph = graph_of(&rt, rt.alloc(), 5, &edges);
        leads(&rt, rt.alloc(), &mut graph, (0, 4), &[0, 3, 4]);
        leads(&rt, rt.alloc(), &mut graph, (1, 4), &[1, 2, 4]);
        leads(&rt, rt.alloc(), &mut graph, (2, 2), &[2]);
        leads(&rt, rt.alloc(), &mut graph, (4, 0), &[]);
        leads(&rt, rt.alloc(), &mut graph, (1, 3), &[]);
    }
}

#[test]
fn parallel_edges_are_one_step(rt: HostRuntime) {
    let mut graph = graph_of(&rt, rt.alloc(), 3, &[(0, 1), (0, 1), (1, 2), (1, 2)]);
    leads(&rt, rt.alloc(), &mut graph, (0, 2), &[0, 1, 2]);
}

#[test]
fn no_path_leads_to_a_missing_node(rt: HostRuntime) {
    let edges = [(0, 1), (1, 3), (0, 2), (2, 4), (4, 3)];
    let mut graph = graph_of(&rt, rt.alloc(), 5, &edges);
    leads(&rt, rt.alloc(), &mut graph, (0, 3), &[0, 1, 3]);
    leads(&rt, rt.alloc(), &mut graph, (0, 9), &[]);
    leads(&rt, rt.alloc(), &mut graph, (9, 9), &[]);
    let _weight = graph.remove_node(NodeIndex::new(1));
    leads(&rt, rt.alloc(), &mut graph, (0, 3), &[0, 2, 4, 3]);
    leads(&rt, rt.alloc(), &mut graph, (0, 1), &[]);
    leads(&rt, rt.alloc(), &mut graph, (1, 3), &[]);
}
