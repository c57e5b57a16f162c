//! The compact store: nodes, edges and lists of a graph that may have cycles.
use super::support::{PlainGraph, connect, graph_of, shape};
use crate::support::{holds, made, same};
use daggy_base::index::{Direction, EdgeIndex, NodeIndex};
use daggy_base::source::EdgeSource;
use daggy_graph::graph::DiGraph;
use std::process::Abort;

// Asserts which edge a node's list begins with, where no edge is the end.
fn first(rt: &impl Abort, graph: &PlainGraph, n: usize, dir: Direction, wanted: EdgeIndex) {
    holds(rt, n < 1000);
    same(rt, graph.first_edge(NodeIndex::new(n), dir), wanted);
}

#[test]
fn stored_nodes_name_their_first_edges(rt: HostRuntime) {
    let graph = graph_of(
        &rt,
        rt.alloc(),
        &[10, 20, 30],
        &[(0, 1, 7), (0, 2, 7), (1, 2, 7)],
    );
    let nodes = graph.raw_nodes();
    holds(&rt, nodes.len() == 3);
    same(&rt, nodes[0].weight, 10);
    same(
        &rt,
        nodes[0].next_edge(Direction::Outgoing),
        EdgeIndex::new(1),
    );
    same(
        &rt,
        nodes[2].next_edge(Direction::Incoming),
        EdgeIndex::new(2),
    );
}

#[test]
fn stored_edges_name_the_next_edges(rt: HostRuntime) {
    let graph = graph_of(
        &rt,
        rt.alloc(),
        &[10, 20, 30],
        &[(0, 1, 7), (0, 2, 7), (1, 2, 7)],
    );
    let edges = graph.raw_edges();
    holds(&rt, edges.len() == 3);
    same(
        &rt,
        edges[1].next_edge(Direction::Outgoing),
        EdgeIndex::new(0),
    );
    same(
        &rt,
        edges[0].next_edge(Direction::Outgoing),
        EdgeIndex::end(),
    );
    same(
        &rt,
        edges[2].next_edge(Direction::Incoming),
        EdgeIndex::new(1),
    );
    same(
        &rt,
        edges[1].next_edge(Direction::Incoming),
        EdgeIndex::end(),
    );
    same(&rt, edges[1].source(), NodeIndex::new(0));
    same(&rt, edges[1].target(), NodeIndex::new(2));
}

#[test]
fn the_store_is_given_away(rt: HostRuntime) {
    let graph = graph_of(&rt, rt.alloc(), &[10, 11], &[(0, 1, 100)]);
    same(&rt, EdgeSource::node_bound(&graph), 2);
    let (nodes, edges) = graph.into_raw();
    same(&rt, (nodes.len(), edges.len()), (2, 1));
}

#[test]
fn removing_an_edge_moves_the_last_one(rt: HostRuntime) {
    let edges = [(0, 1, 100), (0, 2, 101), (0, 1, 102), (1, 2, 103)];
    let mut graph = graph_of(&rt, rt.alloc(), &[10, 11, 12], &edges);
    let (a, b, c) = (NodeIndex::new(0), NodeIndex::new(1), NodeIndex::new(2));
    same(&rt, graph.find_edge(a, b), Some(EdgeIndex::new(2)));
    first(&rt, &graph, 2, Direction::Incoming, EdgeIndex::new(3));
    same(&rt, graph.remove_edge(EdgeIndex::new(0)), Some(100));
    same(&rt, graph.find_edge(b, c), Some(EdgeIndex::new(0)));
    first(&rt, &graph, 2, Direction::Incoming, EdgeIndex::new(0));
    shape(
        &rt,
        &graph,
        &[10, 11, 12],
        &[(1, 2, 103), (0, 2, 101), (0, 1, 102)],
    );
}

#[test]
fn edges_are_removed_one_by_one(rt: HostRuntime) {
    let edges = [(1, 2, 103), (0, 2, 101), (0, 1, 102)];
    let mut graph = graph_of(&rt, rt.alloc(), &[10, 11, 12], &edges);
    same(&rt, graph.remove_edge(EdgeIndex::new(2)), Some(102));
    same(
        &rt,
        graph.find_edge(NodeIndex::new(0), NodeIndex::new(1)),
        None,
    );
    first(&rt, &graph, 1, Direction::Incoming, EdgeIndex::end());
    same(&rt, graph.remove_edge(EdgeIndex::new(1)), Some(101));
    same(&rt, graph.remove_edge(EdgeIndex::new(1)), None);
    shape(&rt, &graph, &[10, 11, 12], &[(1, 2, 103)]);
}

#[test]
fn a_node_goes_with_its_edges(rt: HostRuntime) {
    let edges = [(0, 1, 100), (2, 0, 101), (2, 1, 102), (2, 2, 103)];
    let mut graph = graph_of(&rt, rt.alloc(), &[10, 11, 12], &edges);
    let (a, b, c) = (NodeIndex::new(0), NodeIndex::new(1), NodeIndex::new(2));
    same(&rt, graph.remove_node(a), Some(10));
    same(&rt, (graph.node_count(), graph.edge_count()), (2, 2));
    same(&rt, graph.node_weight(a).copied(), Some(12));
    holds(&rt, graph.find_edge(a, a).is_some());
    holds(&rt, graph.find_edge(a, b).is_some());
    same(&rt, graph.remove_node(c), None);
}

#[test]
fn the_last_node_takes_the_index_of_a_removed_one(rt: HostRuntime) {
    let mut graph = graph_of(
        &rt,
        rt.alloc(),
        &[10, 20, 30],
        &[(0, 1, 7), (1, 2, 7), (0, 2, 7)],
    );
    same(&rt, graph.remove_node(NodeIndex::new(0)), Some(10));
    shape(&rt, &graph, &[30, 20], &[(1, 0, 7)]);
    same(&rt, graph.remove_edge(EdgeIndex::new(1)), None);
}

#[test]
fn a_graph_is_cleared(rt: HostRuntime) {
    let mut graph = graph_of(&rt, rt.alloc(), &[10, 20], &[(0, 1, 7), (1, 0, 7)]);
    graph.clear_edges();
    shape(&rt, &graph, &[10, 20], &[]);
    first(&rt, &graph, 0, Direction::Outgoing, EdgeIndex::end());
    graph.clear();
    shape(&rt, &graph, &[], &[]);
}

#[test]
fn weights_are_written_where_they_are(rt: HostRuntime) {
    let mut graph = graph_of(&rt, rt.alloc(), &[10, 20], &[(0, 1, 7), (1, 0, 8)]);
    if let Some(weight) = graph.node_weight_mut(NodeIndex::new(1)) {
        *weight = 99;
    }
    if let Some(weight) = graph.edge_weight_mut(EdgeIndex::new(1)) {
        *weight = 98;
    }
    shape(&rt, &graph, &[10, 99], &[(0, 1, 7), (1, 0, 98)]);
}

#[test]
fn weights_are_written_by_index(rt: HostRuntime) {
    let mut graph = graph_of(&rt, rt.alloc(), &[10, 20], &[(0, 1, 7)]);
    let (n, e) = (NodeIndex::new(0), EdgeIndex::new(0));
    holds(&rt, graph.contains_node(n));
    graph[n] = 5;
    holds(&rt, graph.contains_edge_index(e));
    graph[e] = 6;
    shape(&rt, &graph, &[5, 20], &[(0, 1, 6)]);
    let other = NodeIndex::new(1);
    holds(
        &rt,
        graph.contains_edge(n, other) && !graph.contains_edge(other, n),
    );
}

#[test]
fn a_graph_is_made_with_room(rt: HostRuntime) {
    let mut graph: PlainGraph = made(&rt, DiGraph::with_capacity(rt.alloc(), 4, 4));
    holds(&rt, graph.can_add_node());
    let n = made(&rt, graph.add_node(10));
    connect(&rt, &mut graph, n, n, 100);
    shape(&rt, &graph, &[10], &[(0, 0, 100)]);
    let large: Result<PlainGraph, _> = DiGraph::with_capacity(rt.alloc(), usize::MAX, 0);
    holds(&rt, large.is_err());
}

#[test]
fn room_is_made_and_given_back(rt: HostRuntime) {
    let mut graph = graph_of(&rt, rt.alloc(), &[10], &[(0, 0, 100)]);
    holds(&rt, graph.reserve_nodes(usize::MAX).is_err());
    holds(&rt, graph.reserve_exact_nodes(usize::MAX).is_err());
    holds(&rt, graph.reserve_edges(usize::MAX).is_err());
    holds(&rt, graph.reserve_exact_edges(usize::MAX).is_err());
    holds(&rt, graph.reserve_nodes(40).is_ok());
    holds(&rt, graph.reserve_exact_nodes(80).is_ok());
    holds(&rt, graph.reserve_edges(40).is_ok());
    holds(&rt, graph.reserve_exact_edges(80).is_ok());
    holds(&rt, graph.shrink_to_fit_nodes().is_ok());
    holds(&rt, graph.shrink_to_fit_edges().is_ok());
    holds(&rt, graph.shrink_to_fit().is_ok());
    shape(&rt, &graph, &[10], &[(0, 0, 100)]);
}

// Nodes of weights 10, 11 and 12, with edges 0 -> 1, 0 -> 2 and 1 -> 2, of which the first was
// removed.
fn turned(rt: &impl Abort, alloc: std::alloc::Global) -> PlainGraph {
    let mut graph = graph_of(
        rt,
        alloc,
        &[10, 11, 12],
        &[(0, 1, 100), (0, 2, 101), (1, 2, 102)],
    );
    same(rt, graph.remove_edge(EdgeIndex::new(0)), Some(100));
    first(rt, &graph, 2, Direction::Incoming, EdgeIndex::new(0));
    graph
}

#[test]
fn a_copy_of_a_graph_keeps_its_lists(rt: HostRuntime) {
    let graph = turned(&rt, rt.alloc());
    let copy = made(&rt, graph.try_clone());
    shape(&rt, &copy, &[10, 11, 12], &[(1, 2, 102), (0, 2, 101)]);
    first(&rt, &copy, 2, Direction::Incoming, EdgeIndex::new(0));
}

#[test]
fn lists_of_a_part_of_a_graph_go_by_index(rt: HostRuntime) {
    let graph = turned(&rt, rt.alloc());
    let part = made(&rt, graph.filter_map(|_, w| Some(*w), |_, w| Some(*w)));
    shape(&rt, &part, &[10, 11, 12], &[(1, 2, 102), (0, 2, 101)]);
    first(&rt, &part, 2, Direction::Incoming, EdgeIndex::new(1));
}

#[test]
fn weights_of_a_graph_are_lent_in_order(rt: HostRuntime) {
    let mut graph = graph_of(&rt, rt.alloc(), &[10, 20], &[(0, 1, 5)]);
    if let Some(weight) = graph.node_weights_mut().next() {
        *weight = 7;
    }
    if let Some(weight) = graph.edge_weights_mut().next() {
        *weight = 8;
    }
    shape(&rt, &graph, &[7, 20], &[(0, 1, 8)]);
}
