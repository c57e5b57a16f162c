//! Maps and parts of a graph.
use super::support::{graph_of, shape};
use crate::support::{holds, made, same};
use daggy_base::index::{Direction, EdgeIndex, NodeIndex};

const EDGES: [(usize, usize, u32); 3] = [(0, 1, 100), (0, 2, 101), (1, 2, 102)];

#[test]
fn weights_of_a_graph_are_mapped_to_another_type(rt: HostRuntime) {
    let graph = graph_of(&rt, rt.alloc(), &[10, 11, 12], &EDGES);
    let mapped = made(
        &rt,
        graph.map(|n, w| (n.index(), *w > 10), |e, w| (e.index(), *w > 101)),
    );
    same(&rt, (mapped.node_count(), mapped.edge_count()), (3, 3));
    same(
        &rt,
        mapped.node_weight(NodeIndex::new(2)).copied(),
        Some((2, true)),
    );
    same(
        &rt,
        mapped.edge_weight(EdgeIndex::new(1)).copied(),
        Some((1, false)),
    );
    let first = mapped.first_edge(NodeIndex::new(2), Direction::Incoming);
    same(&rt, first, EdgeIndex::new(2));
}

#[test]
fn the_part_of_a_graph_without_a_node_is_kept(rt: HostRuntime) {
    let graph = graph_of(&rt, rt.alloc(), &[10, 11, 12], &EDGES);
    let part = made(
        &rt,
        graph.filter_map(
            |_, w| if *w == 10 { None } else { Some(*w) },
            |_, w| Some(*w),
        ),
    );
    shape(&rt, &part, &[11, 12], &[(0, 1, 102)]);
    let (a, b) = (NodeIndex::new(0), NodeIndex::new(1));
    same(&rt, part.find_edge(a, b), Some(EdgeIndex::new(0)));
}

#[test]
fn closures_read_tables_of_the_size_of_the_graph(rt: HostRuntime) {
    let mut graph = graph_of(&rt, rt.alloc(), &[10, 11, 12], &EDGES);
    let (nodes, edges) = ([5, 6, 7], [1, 2, 3]);
    holds(&rt, graph.node_count() == nodes.len());
    holds(&rt, graph.edge_count() == edges.len());
    let mapped = made(
        &rt,
        graph.map(|n, _| nodes[n.index()], |e, _| edges[e.index()]),
    );
    shape(&rt, &mapped, &[5, 6, 7], &[(0, 1, 1), (0, 2, 2), (1, 2, 3)]);
    let part = made(
        &rt,
        graph.filter_map(|n, _| Some(nodes[n.index()]), |e, _| Some(edges[e.index()])),
    );
    shape(&rt, &part, &[5, 6, 7], &[(0, 1, 1), (0, 2, 2), (1, 2, 3)]);
    graph.update_node_weights(|n, weight| *weight = nodes[n.index()]);
    graph.update_edge_weights(|e, weight| *weight = edges[e.index()]);
    shape(&rt, &graph, &[5, 6, 7], &[(0, 1, 1), (0, 2, 2), (1, 2, 3)]);
}
