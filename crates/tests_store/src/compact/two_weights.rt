//! Weights that are written: two at once, or all in turn.
use super::support::{graph_of, shape};
use crate::support::{holds, same};
use daggy_base::index::{EdgeIndex, NodeIndex};
use std::mem;

#[test]
fn two_nodes_are_written_in_either_order(rt: HostRuntime) {
    let mut graph = graph_of(&rt, rt.alloc(), &[10, 20, 30], &[]);
    let (a, b) = (NodeIndex::new(0), NodeIndex::new(2));
    holds(&rt, graph.contains_node(a));
    holds(&rt, graph.contains_node(b));
    same(
        &rt,
        graph.update_two_nodes(a, b, |x, y| mem::replace(x, *y)),
        10,
    );
    same(
        &rt,
        graph.update_two_nodes(b, a, |x, y| mem::replace(y, *x / 2)),
        30,
    );
    shape(&rt, &graph, &[15, 20, 30], &[]);
}

#[test]
fn two_edges_of_a_graph_are_written(rt: HostRuntime) {
    let mut graph = graph_of(&rt, rt.alloc(), &[5], &[(0, 0, 1), (0, 0, 2)]);
    let (d, e) = (EdgeIndex::new(0), EdgeIndex::new(1));
    holds(&rt, graph.contains_edge_index(d));
    holds(&rt, graph.contains_edge_index(e));
    graph.update_two_edges(e, d, |x, y| *x = mem::replace(y, 9));
    shape(&rt, &graph, &[5], &[(0, 0, 9), (0, 0, 1)]);
}

#[test]
fn a_node_and_an_edge_of_a_graph_are_swapped(rt: HostRuntime) {
    let mut graph = graph_of(&rt, rt.alloc(), &[5], &[(0, 0, 9), (0, 0, 1)]);
    let (n, e) = (NodeIndex::new(0), EdgeIndex::new(1));
    holds(&rt, graph.contains_node(n));
    holds(&rt, graph.contains_edge_index(e));
    graph.update_node_and_edge(n, e, |x, y| mem::swap(x, y));
    shape(&rt, &graph, &[1], &[(0, 0, 9), (0, 0, 5)]);
}

#[test]
fn an_update_of_a_graph_writes_all_weights(rt: HostRuntime) {
    let mut graph = graph_of(&rt, rt.alloc(), &[10, 11], &[(0, 1, 100), (0, 1, 101)]);
    graph.update_node_weights(|_, weight| *weight = 1);
    graph.update_edge_weights(|_, weight| *weight = 2);
    shape(&rt, &graph, &[1, 1], &[(0, 1, 2), (0, 1, 2)]);
}
