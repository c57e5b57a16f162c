use super::kept::Kept;
use super::support::{holds, lists, made};
use daggy_base::index::NodeIndex;
use daggy_graph::graph::DiGraph;
use daggy_order::order::Order;
use daggy_search::Scratch;

#[test]
fn each_node_is_sorted_before_its_children(rt: HostRuntime) {
    let mut kept = Kept::new(rt.alloc());
    for _ in 0..4 {
        let _n = kept.add_node(&rt, false);
    }
    for (a, b) in [(3, 1), (1, 0), (3, 2)] {
        holds(&rt, a < 4 && b < 4);
        holds(
            &rt,
            kept.add_edge(&rt, NodeIndex::new(a), NodeIndex::new(b)),
        );
    }
    match kept.sorted(&rt, rt.alloc()) {
        Some(order) => lists(&rt, &order, &[3, 2, 1, 0]),
        None => holds(&rt, false),
    }
    holds(&rt, kept.sort());
    lists(&rt, &kept.order, &[3, 2, 1, 0]);
}

#[test]
fn a_cycle_is_not_sorted(rt: HostRuntime) {
    let mut graph: DiGraph<(), (), u8> = DiGraph::new(rt.alloc());
    let a = made(&rt, graph.add_node(()));
    holds(&rt, graph.can_add_node());
    let b = made(&rt, graph.add_node(()));
    let _there = made(&rt, graph.add_edge(a, b, ()));
    let _back = made(&rt, graph.add_edge(b, a, ()));
    let mut scratch = Scratch::new(rt.alloc());
    made(&rt, scratch.reserve(graph.node_count(), 0));
    let sorted = made(&rt, Order::sorted(rt.alloc(), &mut graph, &mut scratch));
    holds(&rt, sorted.is_none());
}
