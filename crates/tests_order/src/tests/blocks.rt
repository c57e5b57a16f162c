//! Redundant edges of chains with about as many nodes as a block has, and of a graph of several
//! blocks whose edges lead only a few nodes on, by searches and by blocks.
use super::random::Random;
use super::support::{holds, made, same};
use daggy_base::index::{EdgeIndex, NodeIndex};
use daggy_base::source::EdgeSource;
use daggy_base::store::Store;
use daggy_graph::graph::DiGraph;
use daggy_order::order::Order;
use daggy_reduction::blocks::redundant_edges_by_blocks;
use daggy_reduction::bounded::redundant_edges_in;
use daggy_reduction::reduce::transitive_reduce;
use daggy_redundant::redundant::redundant_edges;
use daggy_search::Scratch;
use daggy_stable::stable_graph::StableDiGraph;
use std::alloc::Global;
use std::process::Abort;

// Adds `count` nodes.
fn add_nodes<S: Store<u16, NodeWeight = u32, EdgeWeight = u32>>(
    rt: &impl Abort,
    store: &mut S,
    count: usize,
) {
    for _ in 0..count {
        holds(rt, store.can_add_node());
        let _n = made(rt, store.add_node(0));
    }
}

fn add_edge<S: Store<u16, NodeWeight = u32, EdgeWeight = u32>>(
    rt: &impl Abort,
    store: &mut S,
    a: NodeIndex<u16>,
    b: NodeIndex<u16>,
) {
    holds(rt, store.contains_node(a));
    holds(rt, store.contains_node(b));
    holds(rt, store.can_add_edge());
    let _e = made(rt, store.add_edge(a, b, 0));
}

// Makes a chain of all nodes, from the highest index down. Then an edge leads past each inner node,
// and one from the first node to the last.
fn add_chain<S: Store<u16, NodeWeight = u32, EdgeWeight = u32>>(
    rt: &impl Abort,
    alloc: Global,
    store: &mut S,
) -> Vec<NodeIndex<u16>> {
    let mut chain = Vec::new(alloc);
    for i in (0..store.node_bound()).rev() {
        holds(rt, i < 65535);
        let n = NodeIndex::new(i);
        if store.contains_node(n) {
            made(rt, chain.push(n));
        }
    }
    for k in 1..chain.len() {
        add_edge(rt, store, chain[k - 1], chain[k]);
    }
    for k in 2..chain.len() {
        add_edge(rt, store, chain[k - 2], chain[k]);
    }
    let count = chain.len();
    holds(rt, count > 0);
    add_edge(rt, store, chain[0], chain[count - 1]);
    chain
}

// Asserts that the edges from one to before another, and no others, were found.
fn are(rt: &impl Abort, found: &[EdgeIndex<u16>], first: usize, end: usize) {
    holds(rt, first <= end);
    same(rt, found.len(), end - first);
    for (e, index) in found.iter().zip(first..end) {
        same(rt, e.index(), index);
    }
}

// Asserts that the edges from one to before another are redundant below a root.
fn check<S: EdgeSource<u16>>(
    rt: &impl Abort,
    alloc: Global,
    source: &mut S,
    root: NodeIndex<u16>,
    first: usize,
    end: usize,
) {
    let (nodes, edges) = (source.node_bound(), source.edge_bound());
    let mut scratch = Scratch::new(alloc);
    made(rt, scratch.reserve(nodes, edges));
    made(rt, scratch.reserve_rows(nodes));
    let order = match made(rt, Order::sorted(alloc, source, &mut scratch)) {
        Some(order) => order,
        None => panic!(rt; "a chain has no cycle"),
    };
    let roots = [root];
    let found = redundant_edges_in(&mut scratch, source, &order, &roots);
    are(rt, found, first, end);
    let found = redundant_edges_by_blocks(&mut scratch, source, &order, &roots);
    are(rt, found, first, end);
}

// Asserts which edges of a chain are redundant below some of its nodes, and below a missing one.
fn check_chain<S: Store<u16, NodeWeight = u32, EdgeWeight = u32>>(
    rt: &impl Abort,
    alloc: Global,
    store: &mut S,
    count: usize,
) {
    let chain = add_chain(rt, alloc, store);
    holds(rt, 509 < count && chain.len() == count);
    let edges = store.edge_bound();
    holds(rt, edges > 0);
    // The edge from the first node past the second one.
    let past = count - 1;
    check(rt, alloc, store, chain[0], past, edges);
    for at in [1, 2, 300, 509] {
        holds(rt, at < count);
        check(rt, alloc, store, chain[at], past + at, edges - 1);
    }
    check(rt, alloc, store, NodeIndex::new(65000), 0, 0);
}

#[test]
fn a_chain_is_searched_by_blocks(rt: HostRuntime) {
    for count in [511, 512, 513] {
        let mut graph: DiGraph<u32, u32, u16> = DiGraph::new(rt.alloc());
        add_nodes(&rt, &mut graph, count);
        check_chain(&rt, rt.alloc(), &mut graph, count);
    }
}

#[test]
fn a_chain_around_vacant_slots_is_searched_by_blocks(rt: HostRuntime) {
    let mut graph: StableDiGraph<u32, u32, u16> = StableDiGraph::new(rt.alloc());
    add_nodes(&rt, &mut graph, 600);
    for k in 0..85 {
        let _weight = graph.remove_node(NodeIndex::new(7 * k));
    }
    check_chain(&rt, rt.alloc(), &mut graph, 515);
}

// Adds five edges into each node but the first, from nodes at most 50 before it.
fn add_local_edges<S: Store<u16, NodeWeight = u32, EdgeWeight = u32>>(
    rt: &impl Abort,
    store: &mut S,
) {
    let mut random = Random::new(1);
    for i in 1..store.node_bound() {
        holds(rt, i < 65535);
        let child = NodeIndex::new(i);
        for _ in 0..5 {
            let parent = NodeIndex::new(i.saturating_sub(1 + random.below(50)));
            add_edge(rt, store, parent, child);
        }
    }
}

// Asserts that the edges that a plain search finds redundant are found by blocks, whether edges are
// listed along the lists of the store or by index, and returns how many stay.
fn reduce_by_blocks<S: Store<u16, NodeWeight = u32, EdgeWeight = u32>>(
    rt: &impl Abort,
    alloc: Global,
    store: &mut S,
    root: NodeIndex<u16>,
) -> usize {
    let (nodes, edges) = (store.node_bound(), store.edge_bound());
    let mut scratch = Scratch::new(alloc);
    made(rt, scratch.reserve(nodes, edges));
    made(rt, scratch.reserve_rows(nodes));
    let order = match made(rt, Order::sorted(alloc, store, &mut scratch)) {
        Some(order) => order,
        None => panic!(rt; "no edge leads back"),
    };
    let roots = [root];
    let wanted = made(
        rt,
        redundant_edges(&mut scratch, store, &roots).to_vec(alloc),
    );
    let found = redundant_edges_by_blocks(&mut scratch, store, &order, &roots);
    same(rt, found, wanted.as_slice());
    let before = store.edge_count();
    made(rt, transitive_reduce(store, &order, &mut scratch, &roots));
    let after = store.edge_count();
    same(rt, before.saturating_sub(after), wanted.len());
    for e in wanted {
        holds(rt, !store.contains_edge_index(e));
    }
    after
}

#[test]
fn local_edges_are_searched_by_blocks(rt: HostRuntime) {
    let mut graph: StableDiGraph<u32, u32, u16> = StableDiGraph::new(rt.alloc());
    add_nodes(&rt, &mut graph, 1600);
    add_local_edges(&rt, &mut graph);
    let kept = reduce_by_blocks(&rt, rt.alloc(), &mut graph, NodeIndex::new(0));
    same(&rt, kept, 4805);
}
