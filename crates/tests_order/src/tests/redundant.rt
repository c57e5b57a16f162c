//! Redundant edges of small graphs, and of one with more paths than could be walked.
use super::kept::Kept;
use super::support::{holds, made};
use daggy_base::index::NodeIndex;
use std::alloc::Global;
use std::process::Abort;

const TEXTBOOK: &[(usize, usize)] = &[
    (0, 1),
    (0, 2),
    (0, 3),
    (0, 4),
    (1, 3),
    (2, 3),
    (2, 4),
    (3, 4),
];

fn node(rt: &impl Abort, n: usize) -> NodeIndex<u8> {
    holds(rt, n < 255);
    NodeIndex::new(n)
}

fn add_edge(rt: &impl Abort, kept: &mut Kept, a: usize, b: usize) {
    let (a, b) = (node(rt, a), node(rt, b));
    holds(rt, kept.add_edge(rt, a, b));
}

fn graph_of(rt: &impl Abort, alloc: Global, nodes: usize, edges: &[(usize, usize)]) -> Kept {
    let mut kept = Kept::new(alloc);
    for _ in 0..nodes {
        let _n = kept.add_node(rt, false);
    }
    for (a, b) in edges {
        add_edge(rt, &mut kept, *a, *b);
    }
    kept
}

// Asserts that these edges are redundant below some roots, and gives how many looks that took with
// the order.
fn check(
    rt: &impl Abort,
    alloc: Global,
    kept: &mut Kept,
    roots: &[usize],
    wanted: &[usize],
) -> usize {
    let mut first = Vec::new(alloc);
    for root in roots {
        made(rt, first.push(node(rt, *root)));
    }
    kept.are_redundant(rt, first.as_slice(), wanted)
}

fn redundant(
    rt: &impl Abort,
    alloc: Global,
    edges: &[(usize, usize)],
    roots: &[usize],
    wanted: &[usize],
) {
    let mut kept = graph_of(rt, alloc, 5, edges);
    let _looks = check(rt, alloc, &mut kept, roots, wanted);
}

#[test]
fn a_longer_way_makes_an_edge_redundant(rt: HostRuntime) {
    redundant(&rt, rt.alloc(), TEXTBOOK, &[0], &[2, 3, 6]);
    redundant(&rt, rt.alloc(), TEXTBOOK, &[2], &[6]);
}

#[test]
fn edges_above_the_roots_stay(rt: HostRuntime) {
    let edges = [(0, 1), (1, 2), (0, 2)];
    redundant(&rt, rt.alloc(), &edges, &[0], &[2]);
    redundant(&rt, rt.alloc(), &edges, &[1], &[]);
    redundant(&rt, rt.alloc(), &edges, &[99], &[]);
    redundant(&rt, rt.alloc(), &edges, &[], &[]);
    redundant(&rt, rt.alloc(), &[], &[0, 0, 9], &[]);
}

#[test]
fn parallel_edges_stay_or_go_together(rt: HostRuntime) {
    let beside = [(0, 1), (0, 2), (1, 2), (1, 2), (2, 3)];
    redundant(&rt, rt.alloc(), &beside, &[0], &[1]);
    let across = [(0, 1), (1, 2), (0, 2), (0, 2), (0, 2)];
    redundant(&rt, rt.alloc(), &across, &[0], &[2, 3, 4]);
}

#[test]
fn forty_diamonds_in_a_chain_are_searched_quickly(rt: HostRuntime) {
    let mut kept = graph_of(&rt, rt.alloc(), 121, &[]);
    for k in 0..40 {
        let n = 3 * k;
        add_edge(&rt, &mut kept, n, n + 1);
        add_edge(&rt, &mut kept, n, n + 2);
        add_edge(&rt, &mut kept, n + 1, n + 3);
        add_edge(&rt, &mut kept, n + 2, n + 3);
    }
    add_edge(&rt, &mut kept, 0, 120);
    let _looks = check(&rt, rt.alloc(), &mut kept, &[0], &[160]);
}

#[test]
fn an_order_bounds_each_search(rt: HostRuntime) {
    let mut kept = graph_of(&rt, rt.alloc(), 5, TEXTBOOK);
    let looks = check(&rt, rt.alloc(), &mut kept, &[0], &[2, 3, 6]);
    holds(&rt, looks <= 31);
}
