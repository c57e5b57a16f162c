//! Iterators over all of a graph and over the lists of a node.
use super::support::{PlainGraph, graph_of, put_edge, slots};
use crate::support::{edge, gives, holds, node, same};
use daggy_base::index::{Direction, NodeIndex};
use daggy_graph::graph::EdgeReference;
use daggy_stable::stable_graph::iterators::NodeReferences;
use std::alloc::Global;
use std::process::Abort;

fn line(e: EdgeReference<'_, u32, u32>) -> (usize, usize, usize, u32) {
    (
        e.id().index(),
        e.source().index(),
        e.target().index(),
        *e.weight(),
    )
}

// Asserts which nodes an iterator yields with their weights, and that it then ends.
fn weighted(rt: &impl Abort, mut nodes: NodeReferences<'_, u32, u32>, wanted: &[(usize, u32)]) {
    for node in wanted {
        let Some((n, weight)) = nodes.next() else {
            panic!(rt; "a node is missing");
        };
        same(rt, (n.index(), *weight), *node);
    }
    holds(rt, nodes.next().is_none());
}

fn index(n: NodeIndex) -> usize {
    n.index()
}

// The nodes 1, 3 and 4 and the edges 1 -> 4 and 1 -> 3, with vacant slots before, between and
// after them.
fn gappy(rt: &impl Abort, alloc: Global) -> PlainGraph {
    let mut graph = graph_of(rt, alloc, &[10, 11, 12, 13, 14, 15], &[]);
    for (n, weight) in [(5, 15), (0, 10), (2, 12)] {
        same(rt, graph.remove_node(node(rt, n)), Some(weight));
    }
    let edges = [
        (1, 3, 100),
        (1, 4, 101),
        (3, 4, 102),
        (1, 3, 103),
        (4, 3, 104),
    ];
    for (i, (a, b, weight)) in edges.iter().enumerate() {
        put_edge(rt, &mut graph, (*a, *b), *weight, i);
    }
    for (e, weight) in [(2, 102), (4, 104), (0, 100)] {
        same(rt, graph.remove_edge(edge(rt, e)), Some(weight));
    }
    graph
}

#[test]
fn vacant_nodes_are_passed_over(rt: HostRuntime) {
    let graph = gappy(&rt, rt.alloc());
    gives(&rt, graph.node_weights().copied(), &[11, 13, 14]);
    gives(&rt, graph.node_identifiers().map(index), &[1, 3, 4]);
    weighted(&rt, graph.node_references(), &[(1, 11), (3, 13), (4, 14)]);
}

#[test]
fn vacant_nodes_are_passed_over_from_the_back(rt: HostRuntime) {
    let graph = gappy(&rt, rt.alloc());
    gives(&rt, graph.node_identifiers().rev().map(index), &[4, 3, 1]);
    let mut edges = graph.edge_references();
    same(&rt, edges.next_back().map(line), Some((3, 1, 3, 103)));
    same(&rt, edges.next_back().map(line), Some((1, 1, 4, 101)));
    holds(&rt, edges.next_back().is_none());
}

#[test]
fn vacant_edges_are_passed_over(rt: HostRuntime) {
    let graph = gappy(&rt, rt.alloc());
    gives(&rt, graph.edge_weights().copied(), &[101, 103]);
    gives(
        &rt,
        graph.edge_references().map(line),
        &[(1, 1, 4, 101), (3, 1, 3, 103)],
    );
}

#[test]
fn lists_of_a_graph_with_vacant_slots(rt: HostRuntime) {
    let graph = gappy(&rt, rt.alloc());
    let (a, b, c) = (NodeIndex::new(1), NodeIndex::new(3), NodeIndex::new(4));
    gives(
        &rt,
        graph.edges(a).map(line),
        &[(3, 1, 3, 103), (1, 1, 4, 101)],
    );
    gives(&rt, graph.neighbors(a).map(index), &[3, 4]);
    gives(
        &rt,
        graph.edges_directed(c, Direction::Incoming).map(line),
        &[(1, 1, 4, 101)],
    );
    gives(
        &rt,
        graph.neighbors_directed(b, Direction::Incoming).map(index),
        &[1],
    );
    gives(&rt, graph.neighbors(c).map(index), &[]);
    gives(&rt, graph.edges(NodeIndex::new(2)).map(line), &[]);
    gives(&rt, graph.neighbors(NodeIndex::new(9)).map(index), &[]);
}

#[test]
fn only_vacant_slots_give_nothing(rt: HostRuntime) {
    let mut graph = graph_of(&rt, rt.alloc(), &[10], &[(0, 0, 100)]);
    same(&rt, graph.remove_node(NodeIndex::new(0)), Some(10));
    slots(&rt, &graph, 1, 1);
    gives(&rt, graph.node_weights().copied(), &[]);
    gives(&rt, graph.node_identifiers().map(index), &[]);
    weighted(&rt, graph.node_references(), &[]);
    gives(&rt, graph.edge_weights().copied(), &[]);
    gives(&rt, graph.edge_references().map(line), &[]);
}
