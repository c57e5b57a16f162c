//! The transitive closure.
use super::acts::{Act, both};
use super::kinds::{Kind, Plain};
use super::script::Answer;
use super::support::{edge, made, node, same};
use super::table::{edge_added, fill_nodes, is};
use daggy_visit::visit::AdjMatrix;
use std::process::Abort;

// Asserts that a pair is closed if it is one of these.
fn is_closed(rt: &impl Abort, pair: (usize, usize), found: bool, pairs: &[(usize, usize)]) {
    let mut wanted = false;
    for other in pairs {
        wanted = wanted || *other == pair;
    }
    let (a, b) = pair;
    assert_eq!(rt; found, wanted, "from {a} to {b}");
}

// Asserts that exactly these pairs of the nodes below 5 are closed.
fn are_closed(rt: &impl Abort, closure: &AdjMatrix<u8>, pairs: &[(usize, usize)]) {
    for k in 0..25usize {
        let (a, b) = (k / 5, k % 5);
        let found = closure.has(node(rt, a), node(rt, b));
        is_closed(rt, (a, b), found, pairs);
    }
}

fn closes<S: Kind>(rt: &impl Abort, dag: &mut Plain<S>, pairs: &[(usize, usize)]) {
    are_closed(rt, &made(rt, dag.transitive_closure()), pairs);
}

// Asserts that these pairs are closed, and none of them the other way round.
fn are_closed_one_way(rt: &impl Abort, closure: &AdjMatrix<u8>, pairs: &[(usize, usize)]) {
    for (a, b) in pairs {
        let (a, b) = (node(rt, *a), node(rt, *b));
        same(rt, (closure.has(a, b), closure.has(b, a)), (true, false));
    }
}

// Adds edges, each with the next index.
fn add_edges<S: Kind>(rt: &impl Abort, dag: &mut Plain<S>, edges: &[(usize, usize)]) {
    for ends in edges {
        let next = dag.edge_count();
        is(rt, edge_added(rt, dag, *ends, 1), Answer::Edge(next));
    }
}

// Adds an edge from each node to the next one.
fn add_chain<S: Kind>(rt: &impl Abort, dag: &mut Plain<S>, edges: usize) {
    for i in 0..edges {
        is(
            rt,
            edge_added(rt, dag, (i, i.saturating_add(1)), 1),
            Answer::Edge(i),
        );
    }
}

/// Closes an empty dag, and then a path in it as it grows and shrinks.
pub fn close_path<S: Kind>(rt: &impl Abort, dag: &mut Plain<S>) {
    closes(rt, dag, &[]);
    fill_nodes(rt, dag, 4);
    closes(rt, dag, &[]);
    // The first two are parallel.
    add_edges(rt, dag, &[(0, 3), (0, 3), (0, 1), (1, 2), (2, 3)]);
    closes(rt, dag, &[(0, 1), (0, 2), (0, 3), (1, 2), (1, 3), (2, 3)]);
    let _weight = dag.remove_edge(edge(rt, 3));
    closes(rt, dag, &[(0, 1), (0, 3), (2, 3)]);
    // In the compact kind, node 3 is called 1 then.
    let _weight = dag.remove_node(node(rt, 1));
    let last = if dag.contains_node(node(rt, 3)) { 3 } else { 1 };
    closes(rt, dag, &[(0, last), (2, last)]);
}

const PAIRS: &[(usize, usize)] = &[
    (0, 1),
    (0, 63),
    (0, 64),
    (63, 64),
    (64, 128),
    (0, 199),
    (198, 199),
];

/// Closes a chain whose rows take several words.
pub fn close_chain<S: Kind>(rt: &impl Abort, dag: &mut Plain<S>) {
    fill_nodes(rt, dag, 200);
    add_chain(rt, dag, 199);
    let closure = made(rt, dag.transitive_closure());
    are_closed_one_way(rt, &closure, PAIRS);
}

#[test]
fn closures_of_paths(rt: HostRuntime) {
    both(&rt, rt.alloc(), "", &[Act::ClosePath]);
}

#[test]
fn closures_of_long_chains(rt: HostRuntime) {
    both(&rt, rt.alloc(), "", &[Act::CloseChain]);
}
