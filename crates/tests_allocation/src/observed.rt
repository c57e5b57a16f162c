//! What a dag of either kind holds.
ghost use Rattle.std.specs.Prelude.{◌≤◌, ◌+◌};

use crate::support::{Kind, Plain, holds, same};
use daggy::visit::NodeIndexable;
use daggy::{EdgeIndex, NodeIndex, Walker};
use std::process::Abort;

/// Asserts how many nodes and edges there are.
pub fn counts<S: Kind>(rt: &impl Abort, dag: &Plain<S>, nodes: usize, edges: usize) {
    same(rt, (dag.node_count(), dag.edge_count()), (nodes, edges));
}

// The weight of a node, or a number that none weighs.
fn node_weight<S: Kind>(dag: &Plain<S>, n: NodeIndex) -> usize {
    match dag.node_weight(n) {
        Some(weight) => *weight,
        None => 1000,
    }
}

// The weight of an edge, or a number that none weighs.
fn edge_weight<S: Kind>(dag: &Plain<S>, e: EdgeIndex) -> usize {
    match dag.edge_weight(e) {
        Some(weight) => *weight,
        None => 1000,
    }
}

/// A number of these two.
pub fn mix(sum: usize, x: usize) -> usize {
    sum.wrapping_mul(31).wrapping_add(x)
}

/// A number of all nodes, edges, weights and lists. There are fewer than 64 slots of nodes.
pub fn state_of<S: Kind>(dag: &Plain<S>) -> usize {
    let mut sum = mix(mix(dag.node_bound(), dag.node_count()), dag.edge_count());
    for i in 0..64 {
        let n = NodeIndex::new(i);
        if dag.contains_node(n) {
            sum = lists_of(dag, n, mix(mix(sum, i), node_weight(dag, n)));
        }
    }
    sum
}

fn lists_of<S: Kind>(dag: &Plain<S>, n: NodeIndex, before: usize) -> usize {
    let mut sum = before;
    for (e, child) in dag.children(n).iter(dag) {
        sum = mix(mix(sum, e.index()), edge_weight(dag, e));
        sum = mix(sum, child.index());
    }
    for (e, parent) in dag.parents(n).iter(dag) {
        sum = mix(mix(sum, e.index()), parent.index());
    }
    sum
}

/// The least index that no node has.
pub fn free_node<S: Kind>(dag: &Plain<S>) -> usize
    ensures { result ≤ 64 }
{
    for n in 0..64 {
        if !dag.contains_node(NodeIndex::new(n)) {
            return n;
        }
    }
    64
}

/// The least index that no edge has.
pub fn free_edge<S: Kind>(dag: &Plain<S>) -> usize
    ensures { result ≤ 64 }
{
    for e in 0..64 {
        if dag.edge_weight(EdgeIndex::new(e)).is_none() {
            return e;
        }
    }
    64
}

/// The index of the edge that was added as number `k` of those that are there. The second of three
/// left the gap, so the fourth took its slot.
pub fn nth(gap: bool, k: usize) -> usize
    ensures { result ≤ k + 1 }
{
    if gap && k == 1 {
        2
    } else if gap && k == 2 {
        1
    } else {
        k
    }
}

/// Asserts that the dag is a root with `edges` children, newest first, and nothing else. Edge `i`
/// leads to node `i + 1`.
pub fn is_fan<S: Kind>(rt: &impl Abort, dag: &Plain<S>, edges: usize, gap: bool) {
    holds(rt, edges < 64);
    counts(rt, dag, edges + 1, edges);
    let mut walker = dag.children(NodeIndex::new(0));
    for k in (0..edges).rev() {
        let Some((edge, child)) = walker.walk_next(dag) else {
            panic!(rt; "an edge is missing");
        };
        let e = nth(gap, k);
        same(rt, (edge.index(), child.index()), (e, e + 1));
        let weights = (edge_weight(dag, edge), node_weight(dag, child));
        same(rt, weights, (e + 100, e + 1));
    }
    holds(rt, walker.walk_next(dag).is_none());
}
