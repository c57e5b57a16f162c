//! Walks over graphs that were worked out by hand.
use super::support::{graph_of, walks};
use crate::support::{holds, node};
use daggy_base::index::Direction::{Incoming, Outgoing};
use daggy_base::store::Store;
use daggy_graph::graph::DiGraph;
use daggy_stable::stable_graph::StableDiGraph;
use std::alloc::Global;
use std::process::Abort;

fn diamond<S: Store<u32, NodeWeight = (), EdgeWeight = ()>>(rt: &impl Abort, alloc: Global) {
    // The list of node 0 leads to 2 and then to 1, that of node 3 to 2 and then to 1.
    let graph = graph_of::<S>(rt, alloc, 5, &[(0, 1), (0, 2), (1, 3), (2, 3)]);
    walks(
        rt,
        alloc,
        &graph,
        0,
        Outgoing,
        [&[0, 2, 1, 3], &[0, 2, 3, 1], &[3, 2, 1, 0]],
    );
    walks(
        rt,
        alloc,
        &graph,
        3,
        Incoming,
        [&[3, 2, 1, 0], &[3, 2, 0, 1], &[0, 2, 1, 3]],
    );
    walks(rt, alloc, &graph, 1, Outgoing, [&[1, 3], &[1, 3], &[3, 1]]);
    walks(rt, alloc, &graph, 1, Incoming, [&[1, 0], &[1, 0], &[0, 1]]);
    // Node 4 has no edges, and there is no node 5.
    walks(rt, alloc, &graph, 4, Outgoing, [&[4], &[4], &[4]]);
    walks(rt, alloc, &graph, 5, Outgoing, [&[], &[], &[]]);
    walks(rt, alloc, &graph, 5, Incoming, [&[], &[], &[]]);
}

fn parallel_edges<S: Store<u32, NodeWeight = (), EdgeWeight = ()>>(rt: &impl Abort, alloc: Global) {
    let graph = graph_of::<S>(rt, alloc, 3, &[(0, 1), (0, 1), (1, 2), (0, 2), (0, 1)]);
    walks(
        rt,
        alloc,
        &graph,
        0,
        Outgoing,
        [&[0, 1, 2], &[0, 1, 2], &[2, 1, 0]],
    );
    walks(
        rt,
        alloc,
        &graph,
        2,
        Incoming,
        [&[2, 0, 1], &[2, 0, 1], &[0, 1, 2]],
    );
}

fn cycles<S: Store<u32, NodeWeight = (), EdgeWeight = ()>>(rt: &impl Abort, alloc: Global) {
    // A cycle through 0, 1 and 2, a loop at 1, and a way out from 2 to 3.
    let graph = graph_of::<S>(rt, alloc, 4, &[(0, 1), (1, 1), (1, 2), (2, 3), (2, 0)]);
    walks(
        rt,
        alloc,
        &graph,
        0,
        Outgoing,
        [&[0, 1, 2, 3], &[0, 1, 2, 3], &[3, 2, 1, 0]],
    );
    walks(
        rt,
        alloc,
        &graph,
        2,
        Outgoing,
        [&[2, 0, 3, 1], &[2, 0, 1, 3], &[1, 0, 3, 2]],
    );
    walks(
        rt,
        alloc,
        &graph,
        3,
        Incoming,
        [&[3, 2, 1, 0], &[3, 2, 1, 0], &[0, 1, 2, 3]],
    );
}

// Breadth first a node comes by its distance, depth first by the way that leads to it first.
fn long_ways<S: Store<u32, NodeWeight = (), EdgeWeight = ()>>(rt: &impl Abort, alloc: Global) {
    let edges = [(0, 5), (4, 5), (3, 4), (0, 3), (0, 1), (1, 2), (2, 3)];
    let graph = graph_of::<S>(rt, alloc, 6, &edges);
    walks(
        rt,
        alloc,
        &graph,
        0,
        Outgoing,
        [
            &[0, 1, 3, 5, 2, 4],
            &[0, 1, 2, 3, 4, 5],
            &[5, 4, 3, 2, 1, 0],
        ],
    );
}

fn all_shapes<S: Store<u32, NodeWeight = (), EdgeWeight = ()>>(rt: &impl Abort, alloc: Global) {
    diamond::<S>(rt, alloc);
    parallel_edges::<S>(rt, alloc);
    cycles::<S>(rt, alloc);
    long_ways::<S>(rt, alloc);
}

// Walks past vacant slots.
fn removals<S: Store<u32, NodeWeight = (), EdgeWeight = ()>>(rt: &impl Abort, alloc: Global) {
    let edges = [(0, 1), (1, 2), (0, 3), (3, 2), (2, 4)];
    let mut graph: S = graph_of(rt, alloc, 5, &edges);
    holds(rt, graph.remove_node(node(rt, 1)).is_some());
    walks(
        rt,
        alloc,
        &graph,
        0,
        Outgoing,
        [&[0, 3, 2, 4], &[0, 3, 2, 4], &[4, 2, 3, 0]],
    );
    walks(rt, alloc, &graph, 1, Outgoing, [&[], &[], &[]]);
    holds(rt, graph.remove_node(node(rt, 3)).is_some());
    walks(rt, alloc, &graph, 0, Outgoing, [&[0], &[0], &[0]]);
    walks(rt, alloc, &graph, 4, Incoming, [&[4, 2], &[4, 2], &[2, 4]]);
}

#[test]
fn walks_over_a_graph(rt: HostRuntime) {
    all_shapes::<DiGraph<(), (), u32>>(&rt, rt.alloc());
}

#[test]
fn walks_over_a_stable_graph(rt: HostRuntime) {
    all_shapes::<StableDiGraph<(), (), u32>>(&rt, rt.alloc());
}

#[test]
fn walks_after_removals(rt: HostRuntime) {
    removals::<StableDiGraph<(), (), u32>>(&rt, rt.alloc());
}
