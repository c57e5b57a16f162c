//! The stable store: slots, lists and parts of a graph that may have cycles.
use super::support::{PlainGraph, first, graph_of, put_edge, put_node, shape, slots};
use crate::support::{holds, made, same};
use daggy_base::index::{Direction, EdgeIndex, NodeIndex};
use daggy_base::read_store::ReadStore;
use daggy_base::source::EdgeSource;
use daggy_stable::stable_graph::StableDiGraph;
use std::alloc::Global;
use std::process::Abort;

const TRIANGLE: [(usize, usize, u32); 3] = [(0, 1, 100), (0, 2, 101), (1, 2, 102)];

#[test]
fn cleared_slots_are_gone(rt: HostRuntime) {
    let mut graph = graph_of(&rt, rt.alloc(), &[10, 11, 12], &TRIANGLE);
    same(&rt, graph.remove_node(NodeIndex::new(1)), Some(11));
    same(&rt, (graph.node_bound(), graph.edge_bound()), (3, 2));
    slots(&rt, &graph, 3, 3);
    graph.clear_edges();
    shape(&rt, &graph, &[(0, 10), (2, 12)], &[]);
    slots(&rt, &graph, 3, 0);
    graph.clear();
    shape(&rt, &graph, &[], &[]);
    slots(&rt, &graph, 0, 0);
}

#[test]
fn weights_are_written_in_place(rt: HostRuntime) {
    let mut graph = graph_of(&rt, rt.alloc(), &[10, 11], &[(0, 1, 100), (0, 1, 101)]);
    if let Some(weight) = graph.node_weight_mut(NodeIndex::new(1)) {
        *weight = 12;
    }
    if let Some(weight) = graph.edge_weight_mut(EdgeIndex::new(0)) {
        *weight = 102;
    }
    shape(
        &rt,
        &graph,
        &[(0, 10), (1, 12)],
        &[(0, 0, 1, 102), (1, 0, 1, 101)],
    );
}

#[test]
fn weights_are_read_and_written_by_index(rt: HostRuntime) {
    let mut graph = graph_of(&rt, rt.alloc(), &[10, 11], &[(0, 1, 100)]);
    let (n, e) = (NodeIndex::new(0), EdgeIndex::new(0));
    holds(&rt, graph.contains_node(n));
    graph[n] = 7;
    same(&rt, graph[n], 7);
    holds(&rt, graph.contains_edge_index(e));
    graph[e] = 8;
    same(&rt, graph.replace_edge_weight(e, 9), 8);
    shape(&rt, &graph, &[(0, 7), (1, 11)], &[(0, 0, 1, 9)]);
}

#[test]
fn lists_go_from_edge_to_edge(rt: HostRuntime) {
    let graph = graph_of(&rt, rt.alloc(), &[10, 11], &[(0, 1, 100), (0, 1, 101)]);
    let (a, b) = (NodeIndex::new(0), NodeIndex::new(1));
    let newest = EdgeIndex::new(1);
    first(&rt, &graph, 1, Direction::Incoming, newest);
    holds(&rt, graph.contains_edge_index(newest));
    same(
        &rt,
        graph.next_edge(newest, Direction::Outgoing),
        EdgeIndex::new(0),
    );
    same(&rt, graph.find_edge(a, b), Some(newest));
    same(&rt, graph.find_edge(b, a), None);
    holds(&rt, graph.contains_edge(a, b) && !graph.contains_edge(b, a));
    same(&rt, EdgeSource::node_bound(&graph), 2);
    same(&rt, ReadStore::edge_slots(&graph), 2);
}

#[test]
fn adding_is_taken_back(rt: HostRuntime) {
    let mut graph = graph_of(&rt, rt.alloc(), &[10], &[(0, 0, 100), (0, 0, 101)]);
    let (older, newer) = (EdgeIndex::new(0), EdgeIndex::new(1));
    holds(&rt, graph.contains_edge_index(newer));
    holds(&rt, newer.index() + 1 == graph.edge_slots());
    same(&rt, graph.take_back_edge(newer, true), 101);
    slots(&rt, &graph, 1, 1);
    holds(&rt, graph.contains_edge_index(older));
    same(&rt, graph.take_back_edge(older, false), 100);
    slots(&rt, &graph, 1, 1);
    shape(&rt, &graph, &[(0, 10)], &[]);
    first(&rt, &graph, 0, Direction::Incoming, EdgeIndex::end());
}

#[test]
fn room_is_made_at_first(rt: HostRuntime) {
    let mut graph: PlainGraph = made(&rt, StableDiGraph::with_capacity(rt.alloc(), 2, 1));
    shape(&rt, &graph, &[], &[]);
    put_node(&rt, &mut graph, 10, 0);
    put_node(&rt, &mut graph, 11, 1);
    put_edge(&rt, &mut graph, (0, 1), 100, 0);
}

#[test]
fn a_copy_of_a_graph_takes_the_same_slots_next(rt: HostRuntime) {
    let mut graph = graph_of(&rt, rt.alloc(), &[10, 11, 12], &TRIANGLE);
    same(&rt, graph.remove_edge(EdgeIndex::new(2)), Some(102));
    same(&rt, graph.remove_edge(EdgeIndex::new(0)), Some(100));
    same(&rt, graph.remove_node(NodeIndex::new(1)), Some(11));
    let mut copy = made(&rt, graph.try_clone());
    shape(&rt, &copy, &[(0, 10), (2, 12)], &[(1, 0, 2, 101)]);
    put_edge(&rt, &mut copy, (0, 2), 103, 0);
    put_edge(&rt, &mut copy, (0, 2), 104, 2);
    put_edge(&rt, &mut copy, (0, 2), 105, 3);
    put_node(&rt, &mut copy, 13, 1);
    same(&rt, graph.edge_count(), 1);
}

#[test]
fn a_map_to_another_type_keeps_slots(rt: HostRuntime) {
    let mut graph = graph_of(&rt, rt.alloc(), &[10, 11, 12], &TRIANGLE);
    same(&rt, graph.remove_node(NodeIndex::new(0)), Some(10));
    let mut mapped = made(
        &rt,
        graph.map(|n, w| (n.index(), *w), |e, w| (e.index(), *w)),
    );
    same(&rt, mapped.node_weight(NodeIndex::new(0)).copied(), None);
    same(
        &rt,
        mapped.node_weight(NodeIndex::new(2)).copied(),
        Some((2, 12)),
    );
    same(
        &rt,
        mapped.edge_weight(EdgeIndex::new(2)).copied(),
        Some((2, 102)),
    );
    holds(&rt, mapped.can_add_node());
    same(&rt, made(&rt, mapped.add_node((7, 7))).index(), 0);
}

#[test]
fn what_is_kept_keeps_its_index(rt: HostRuntime) {
    let graph = graph_of(&rt, rt.alloc(), &[10, 11, 12], &TRIANGLE);
    let mut part = made(
        &rt,
        graph.filter_map(
            |_, w| if *w > 10 { Some(*w) } else { None },
            |e, w| Some((e.index() as u32).wrapping_add(*w)),
        ),
    );
    shape(&rt, &part, &[(1, 11), (2, 12)], &[(2, 1, 2, 104)]);
    slots(&rt, &part, 3, 3);
    first(&rt, &part, 1, Direction::Outgoing, EdgeIndex::new(2));
    first(&rt, &part, 2, Direction::Incoming, EdgeIndex::new(2));
    put_node(&rt, &mut part, 13, 0);
    put_edge(&rt, &mut part, (1, 2), 105, 1);
    put_edge(&rt, &mut part, (1, 2), 106, 0);
    put_edge(&rt, &mut part, (1, 2), 107, 3);
}

#[test]
fn closures_read_tables_of_the_size_of_the_graph(rt: HostRuntime) {
    let mut graph = graph_of(&rt, rt.alloc(), &[10, 11, 12], &TRIANGLE);
    same(&rt, graph.remove_node(NodeIndex::new(0)), Some(10));
    let (nodes, edges) = ([5, 6, 7], [1, 2, 3]);
    holds(&rt, graph.node_bound() <= nodes.len());
    holds(&rt, graph.edge_bound() <= edges.len());
    let mapped = made(
        &rt,
        graph.map(|n, _| nodes[n.index()], |e, _| edges[e.index()]),
    );
    shape(&rt, &mapped, &[(1, 6), (2, 7)], &[(2, 1, 2, 3)]);
    let part = made(
        &rt,
        graph.filter_map(|n, _| Some(nodes[n.index()]), |e, _| Some(edges[e.index()])),
    );
    shape(&rt, &part, &[(1, 6), (2, 7)], &[(2, 1, 2, 3)]);
}

// Two nodes and the edges 1 and 0 between them, of which the second was added last, with vacant
// slots after them.
fn reused(rt: &impl Abort, alloc: Global) -> PlainGraph {
    let mut graph = graph_of(rt, alloc, &[10, 11, 12], &TRIANGLE);
    for (e, weight) in [(2, 102), (0, 100), (1, 101)] {
        same(rt, graph.remove_edge(EdgeIndex::new(e)), Some(weight));
    }
    same(rt, graph.remove_node(NodeIndex::new(2)), Some(12));
    put_edge(rt, &mut graph, (0, 1), 103, 1);
    put_edge(rt, &mut graph, (0, 1), 104, 0);
    first(rt, &graph, 0, Direction::Outgoing, EdgeIndex::new(0));
    graph
}

#[test]
fn slots_past_the_last_node_and_edge_are_left_out(rt: HostRuntime) {
    let graph = reused(&rt, rt.alloc());
    let part = made(&rt, graph.filter_map(|_, w| Some(*w), |_, w| Some(*w)));
    slots(&rt, &part, 2, 2);
    first(&rt, &part, 0, Direction::Outgoing, EdgeIndex::new(1));
    first(&rt, &part, 1, Direction::Incoming, EdgeIndex::new(1));
}

#[test]
fn a_part_of_nothing_has_vacant_slots(rt: HostRuntime) {
    let graph = reused(&rt, rt.alloc());
    let part = made(&rt, graph.filter_map(|_, _| None::<u32>, |_, w| Some(*w)));
    shape(&rt, &part, &[], &[]);
    slots(&rt, &part, 2, 2);
}
