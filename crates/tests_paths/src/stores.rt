//! The same rows on both kinds of store.
use crate::support::{holds, made, same};
use daggy_base::index::{Direction, EdgeIndex, NodeIndex};
use daggy_base::read_store::ReadStore;
use daggy_base::source::EdgeSource;
use daggy_base::store::Store;
use daggy_graph::graph::DiGraph;
use daggy_order::order::Order;
use daggy_paths::Paths;
use daggy_search::Scratch;
use daggy_stable::stable_graph::StableDiGraph;
use std::alloc::Global;
use std::process::Abort;

fn node(rt: &impl Abort, n: usize) -> NodeIndex<u8> {
    holds(rt, n < 255);
    NodeIndex::new(n)
}

fn lists(rt: &impl Abort, found: &[NodeIndex<u8>], wanted: &[usize]) {
    same(rt, found.len(), wanted.len());
    for (n, index) in found.iter().zip(wanted) {
        same(rt, n.index(), *index);
    }
}

// Asserts that these are the nodes of the path that was found, or that none was if none are given.
fn leads(rt: &impl Abort, found: Option<Vec<NodeIndex<u8>>>, wanted: &[usize]) {
    match found {
        Some(path) => lists(rt, path.as_slice(), wanted),
        None => same(rt, 0, wanted.len()),
    }
}

fn add_edges<S: Store<u8, NodeWeight = (), EdgeWeight = ()>>(
    rt: &impl Abort,
    store: &mut S,
    nodes: usize,
    edges: &[(usize, usize)],
) {
    for _ in 0..nodes {
        holds(rt, store.can_add_node());
        let _n = made(rt, store.add_node(()));
    }
    for (a, b) in edges {
        let (a, b) = (node(rt, *a), node(rt, *b));
        holds(rt, store.contains_node(a));
        holds(rt, store.contains_node(b));
        holds(rt, store.can_add_edge());
        let _e = made(rt, store.add_edge(a, b, ()));
    }
}

// A diamond with a tail, from the highest index down, and a node apart: 5 to 4 and 3, both to 2, 2
// to 1, and 0.
const DIAMOND: [(usize, usize); 5] = [(5, 4), (5, 3), (4, 2), (3, 2), (2, 1)];

// How many children of a node reach another: asked in a loop over the children, through a shared
// borrow.
fn children_that_reach<S: Store<u8, NodeWeight = (), EdgeWeight = ()>>(
    rt: &impl Abort,
    store: &S,
    paths: &mut Paths<'_, u8, S>,
    from: NodeIndex<u8>,
    to: NodeIndex<u8>,
) -> usize {
    let end = EdgeIndex::<u8>::end().index();
    let mut count = 0;
    let mut e = store.first_edge(from, Direction::Outgoing);
    for _ in 0..255 {
        if e.index() == end {
            return count;
        }
        holds(rt, store.contains_edge_index(e));
        if let Some((_, child)) = store.edge_endpoints(e) {
            if paths.reaches(child, to) {
                holds(rt, count < 255);
                count += 1;
            }
        }
        e = store.next_edge(e, Direction::Outgoing);
    }
    count
}

fn asks<S: Store<u8, NodeWeight = (), EdgeWeight = ()>>(rt: &impl Abort, alloc: Global, store: &S) {
    let Some(mut paths) = made(rt, Paths::sorted(alloc, store)) else {
        return holds(rt, false);
    };
    let n = [
        node(rt, 0),
        node(rt, 1),
        node(rt, 2),
        node(rt, 3),
        node(rt, 4),
        node(rt, 5),
        node(rt, 6),
    ];
    holds(rt, paths.reaches(n[5], n[1]));
    holds(rt, paths.reaches(n[3], n[3]));
    holds(rt, !paths.reaches(n[1], n[5]));
    holds(rt, !paths.reaches(n[4], n[3]));
    holds(rt, !paths.reaches(n[0], n[1]));
    holds(rt, !paths.reaches(n[6], n[6]));
    holds(rt, paths.would_close_cycle(n[1], n[5]));
    holds(rt, !paths.would_close_cycle(n[5], n[1]));
    same(
        rt,
        children_that_reach(rt, store, &mut paths, n[5], n[1]),
        2,
    );
    same(
        rt,
        children_that_reach(rt, store, &mut paths, n[5], n[4]),
        1,
    );
    same(
        rt,
        children_that_reach(rt, store, &mut paths, n[5], n[0]),
        0,
    );
    leads(rt, made(rt, paths.path(n[3], n[1])), &[3, 2, 1]);
    leads(rt, made(rt, paths.path(n[2], n[2])), &[2]);
    leads(rt, made(rt, paths.path(n[1], n[3])), &[]);
    leads(rt, made(rt, paths.path(n[6], n[6])), &[]);
    let Some(edges) = made(rt, paths.path_edges(n[3], n[1])) else {
        return holds(rt, false);
    };
    holds(rt, edges.len() == 2);
    same(rt, edges[0].index(), 3);
    same(rt, edges[1].index(), 4);
    let edges = made(rt, paths.path_edges(n[2], n[2]));
    holds(rt, edges.is_some_and(|edges| edges.is_empty()));
    holds(rt, made(rt, paths.path_edges(n[1], n[3])).is_none());
    let found = made(rt, paths.affected(&[n[3], n[6]]));
    lists(rt, found.as_slice(), &[3, 2, 1]);
    let found = made(rt, paths.descendants(&[n[3], n[4]]));
    lists(rt, found.as_slice(), &[2, 1]);
    let found = made(rt, paths.descendants(&[n[1], n[0]]));
    lists(rt, found.as_slice(), &[]);
    let found = made(rt, paths.ancestors(&[n[4], n[3]]));
    lists(rt, found.as_slice(), &[5]);
    let found = made(rt, paths.ancestors(&[n[1]]));
    same(rt, found.len(), 4);
    holds(rt, found.len() == 4);
    same(rt, found[0].index(), 5);
    same(rt, found[3].index(), 2);
    let closure = made(rt, paths.transitive_closure());
    holds(rt, closure.has(n[5], n[1]));
    holds(rt, closure.has(n[3], n[2]));
    holds(rt, !closure.has(n[2], n[2]));
    holds(rt, !closure.has(n[1], n[5]));
    holds(rt, !closure.has(n[4], n[3]));
    // The borrowed graph is still there to be read.
    same(rt, store.edge_count(), 5);
}

#[test]
fn a_compact_graph_answers(rt: HostRuntime) {
    let mut graph = DiGraph::new(rt.alloc());
    add_edges(&rt, &mut graph, 6, &DIAMOND);
    asks(&rt, rt.alloc(), &graph);
}

#[test]
fn a_stable_graph_answers(rt: HostRuntime) {
    let mut graph = StableDiGraph::new(rt.alloc());
    add_edges(&rt, &mut graph, 6, &DIAMOND);
    asks(&rt, rt.alloc(), &graph);
}

#[test]
fn a_stable_graph_with_a_vacant_slot_answers(rt: HostRuntime) {
    let mut graph = StableDiGraph::new(rt.alloc());
    add_edges(&rt, &mut graph, 7, &DIAMOND);
    let _gone = graph.remove_node(node(&rt, 6));
    asks(&rt, rt.alloc(), &graph);
}

#[test]
fn a_graph_with_a_cycle_has_no_paths(rt: HostRuntime) {
    let mut graph: DiGraph<(), (), u8> = DiGraph::new(rt.alloc());
    add_edges(&rt, &mut graph, 3, &[(0, 1), (1, 2), (2, 0)]);
    holds(&rt, made(&rt, Paths::sorted(rt.alloc(), &graph)).is_none());
}

#[test]
fn an_order_beside_the_graph_is_not_changed(rt: HostRuntime) {
    let mut graph: DiGraph<(), (), u8> = DiGraph::new(rt.alloc());
    add_edges(&rt, &mut graph, 3, &[(0, 1), (1, 2)]);
    let mut scratch = Scratch::new(rt.alloc());
    made(&rt, scratch.reserve(graph.node_bound(), 0));
    let Some(order) = made(&rt, Order::sorted(rt.alloc(), &mut graph, &mut scratch)) else {
        return holds(&rt, false);
    };
    // Two at once, over the same graph and the same order.
    let mut paths = made(&rt, Paths::new(rt.alloc(), &graph, &order));
    let mut others = made(&rt, Paths::new(rt.alloc(), &graph, &order));
    let (a, b, c) = (node(&rt, 0), node(&rt, 1), node(&rt, 2));
    holds(&rt, paths.reaches(a, c));
    holds(&rt, !others.reaches(c, a));
    holds(&rt, others.reaches(b, c));
    holds(&rt, paths.reaches(a, b));
    same(&rt, order.len(), 3);
    // An empty graph, and no order.
    let empty: DiGraph<(), (), u8> = DiGraph::new(rt.alloc());
    let none = Order::new(rt.alloc());
    let mut paths = made(&rt, Paths::new(rt.alloc(), &empty, &none));
    holds(&rt, !paths.reaches(a, a));
    same(&rt, made(&rt, paths.affected(&[a, b])).len(), 0);
}
