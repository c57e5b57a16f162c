//! Iterators over all of a graph and over the lists of a node, and how a graph is printed.
use super::support::graph_of;
use crate::support::{gives, holds, made, same};
use daggy_base::index::{Direction, NodeIndex};
use daggy_graph::graph::EdgeReference;
use daggy_graph::graph::iterators::NodeReferences;
use std::process::Abort;

type Line = (usize, usize, usize, u32);

fn line(e: EdgeReference<'_, u32, u32>) -> Line {
    (
        e.id().index(),
        e.source().index(),
        e.target().index(),
        *e.weight(),
    )
}

// Asserts which nodes an iterator yields with their weights, and that it then ends.
fn weighted(rt: &impl Abort, mut nodes: NodeReferences<'_, u32, u32>, wanted: &[(usize, u32)]) {
    for node in wanted {
        let Some((n, weight)) = nodes.next() else {
            panic!(rt; "a node is missing");
        };
        same(rt, (n.index(), *weight), *node);
    }
    holds(rt, nodes.next().is_none());
}

fn index(n: NodeIndex) -> usize {
    n.index()
}

const EDGES: [(usize, usize, u32); 3] = [(0, 1, 100), (0, 2, 101), (1, 2, 102)];

const LINES: [Line; 3] = [(0, 0, 1, 100), (1, 0, 2, 101), (2, 1, 2, 102)];

#[test]
fn nodes_of_a_graph_are_gone_through(rt: HostRuntime) {
    let graph = graph_of(&rt, rt.alloc(), &[10, 11, 12], &EDGES);
    gives(&rt, graph.node_weights().copied(), &[10, 11, 12]);
    gives(&rt, graph.node_identifiers().map(index), &[0, 1, 2]);
    weighted(&rt, graph.node_references(), &[(0, 10), (1, 11), (2, 12)]);
}

#[test]
fn edges_of_a_graph_are_gone_through(rt: HostRuntime) {
    let graph = graph_of(&rt, rt.alloc(), &[10, 11, 12], &EDGES);
    gives(&rt, graph.edge_weights().copied(), &[100, 101, 102]);
    gives(&rt, graph.edge_references().map(line), &LINES);
}

#[test]
fn a_graph_is_gone_through_from_the_back(rt: HostRuntime) {
    let graph = graph_of(&rt, rt.alloc(), &[10, 11, 12], &EDGES);
    gives(&rt, graph.node_identifiers().rev().map(index), &[2, 1, 0]);
    gives(&rt, graph.node_weights().rev().copied(), &[12, 11, 10]);
    gives(&rt, graph.edge_weights().rev().copied(), &[102, 101, 100]);
    let mut edges = graph.edge_references();
    same(&rt, edges.next_back().map(line), Some(LINES[2]));
    same(&rt, edges.next().map(line), Some(LINES[0]));
    same(&rt, edges.next_back().map(line), Some(LINES[1]));
    holds(&rt, edges.next_back().is_none());
}

#[test]
fn lists_of_a_graph_are_gone_through(rt: HostRuntime) {
    let edges = [(0, 1, 100), (0, 2, 101), (1, 2, 102), (0, 2, 103)];
    let graph = graph_of(&rt, rt.alloc(), &[10, 11, 12], &edges);
    let (a, c) = (NodeIndex::new(0), NodeIndex::new(2));
    gives(&rt, graph.neighbors(a).map(index), &[2, 2, 1]);
    gives(
        &rt,
        graph.neighbors_directed(c, Direction::Incoming).map(index),
        &[0, 1, 0],
    );
    gives(
        &rt,
        graph.edges(a).map(line),
        &[(3, 0, 2, 103), (1, 0, 2, 101), (0, 0, 1, 100)],
    );
    gives(
        &rt,
        graph.edges_directed(c, Direction::Incoming).map(line),
        &[(3, 0, 2, 103), (2, 1, 2, 102), (1, 0, 2, 101)],
    );
    gives(&rt, graph.neighbors(NodeIndex::new(9)).map(index), &[]);
}

#[test]
fn iterators_know_how_much_is_left(rt: HostRuntime) {
    let graph = graph_of(&rt, rt.alloc(), &[10, 11, 12], &EDGES);
    let mut nodes = graph.node_references();
    holds(&rt, nodes.next().is_some());
    let left = [
        nodes.len(),
        graph.node_identifiers().len(),
        graph.node_weights().len(),
        graph.edge_references().len(),
        graph.edge_weights().len(),
    ];
    same(&rt, left, [2, 3, 3, 3, 3]);
}

#[test]
fn a_graph_is_printed_by_its_counts_or_whole(rt: HostRuntime) {
    let graph = graph_of(&rt, rt.alloc(), &[10, 11], &[(0, 1, 100)]);
    let short = made(&rt, format!(in rt.alloc(); "{graph:?}"));
    holds(
        &rt,
        short.as_str() == "DiGraph { node_count: 2, edge_count: 1 }",
    );
    let long = made(&rt, format!(in rt.alloc(); "{graph:#?}"));
    holds(&rt, long.as_str() == WHOLE);
}

const WHOLE: &str = "DiGraph {
    nodes: {
        NodeIndex(0): 10,
        NodeIndex(1): 11,
    },
    edges: [
        EdgeReference {
            id: 0,
            source: 0,
            target: 1,
            weight: 100,
        },
    ],
}";
