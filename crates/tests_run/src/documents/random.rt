//! Random dags with vacant slots, written and read back.
ghost use Rattle.std.specs.Prelude.{◌≡◌, ◌<◌};
ghost use Rattle.daggy_json.specs.Restoring.{trimmed};

use crate::documents::support::{Small, SmallStable, edge, holds, made, node, number, weight};
use daggy_base::error::EdgeError;
use daggy_base::index::{Direction, EdgeIndex};
use daggy_base::store::Store;
use daggy_dag::acyclic::Acyclic;
use daggy_json::documents::{dag_from_json, dag_to_json, stable_from_json, stable_to_json};
use std::alloc::Global;
use std::process::Abort;

// The next number of the generator splitmix64, below the bound.
fn next_number(state: &mut u64, bound: u64) -> usize
    requires { 0 < bound }
    ensures { result < bound }
{
    *state = state.wrapping_add(0x9e37_79b9_7f4a_7c15);
    let mut z = *state;
    z = (z ^ (z >> 30)).wrapping_mul(0xbf58_476d_1ce4_e5b9);
    z = (z ^ (z >> 27)).wrapping_mul(0x94d0_49bb_1331_11eb);
    ((z ^ (z >> 31)) % bound) as usize
}

fn add_nodes<S: Store<u8, NodeWeight = u64, EdgeWeight = u64>>(
    rt: &impl Abort,
    dag: &mut Acyclic<u64, u64, u8, S>,
    state: &mut u64,
    count: usize,
) {
    for _ in 0..count {
        holds(rt, dag.can_add_node());
        let _n = made(rt, dag.add_node(next_number(state, 1000) as u64));
    }
}

// Tries edges between any two of ten nodes.
fn add_edges<S: Store<u8, NodeWeight = u64, EdgeWeight = u64>>(
    rt: &impl Abort,
    dag: &mut Acyclic<u64, u64, u8, S>,
    state: &mut u64,
    count: usize,
) {
    for _ in 0..count {
        let (a, b) = (
            node(rt, next_number(state, 10)),
            node(rt, next_number(state, 10)),
        );
        if dag.contains_node(a) && dag.contains_node(b) {
            holds(rt, dag.can_add_edge());
            match dag.add_edge(a, b, next_number(state, 1000) as u64) {
                Ok(_) | Err(EdgeError::WouldCycle(_)) => {}
                Err(_) => holds(rt, false),
            }
        }
    }
}

// A dag that was changed in both ways.
fn random_dag<S: Store<u8, NodeWeight = u64, EdgeWeight = u64>>(
    rt: &impl Abort,
    alloc: Global,
    state: &mut u64,
) -> Acyclic<u64, u64, u8, S> {
    let mut dag = Acyclic::new(alloc);
    add_nodes(rt, &mut dag, state, 8);
    add_edges(rt, &mut dag, state, 16);
    for _ in 0..next_number(state, 4) {
        let _weight = dag.remove_node(node(rt, next_number(state, 8)));
        let _weight = dag.remove_edge(edge(rt, next_number(state, 12)));
    }
    let more = next_number(state, 3);
    add_nodes(rt, &mut dag, state, more);
    add_edges(rt, &mut dag, state, more);
    dag
}

// The same weights are at the same indices, and the lists are the same.
fn same_nodes<S: Store<u8, NodeWeight = u64, EdgeWeight = u64>>(
    rt: &impl Abort,
    found: &S,
    wanted: &S,
) {
    holds(rt, found.node_bound() == wanted.node_bound());
    for i in 0..wanted.node_bound() {
        let n = node(rt, i);
        holds(rt, found.node_weight(n) == wanted.node_weight(n));
        for dir in [Direction::Outgoing, Direction::Incoming] {
            holds(rt, found.first_edge(n, dir) == wanted.first_edge(n, dir));
        }
    }
}

fn same_edges<S: Store<u8, NodeWeight = u64, EdgeWeight = u64>>(
    rt: &impl Abort,
    found: &S,
    wanted: &S,
) {
    holds(rt, found.edge_bound() == wanted.edge_bound());
    for i in 0..wanted.edge_bound() {
        let e: EdgeIndex<u8> = edge(rt, i);
        holds(rt, found.edge_weight(e) == wanted.edge_weight(e));
        holds(rt, found.edge_endpoints(e) == wanted.edge_endpoints(e));
        if wanted.edge_weight(e).is_some() {
            holds(rt, found.edge_weight(e).is_some());
            for dir in [Direction::Outgoing, Direction::Incoming] {
                holds(rt, found.next_edge(e, dir) == wanted.next_edge(e, dir));
            }
        }
    }
}

fn same_dag<S: Store<u8, NodeWeight = u64, EdgeWeight = u64>>(
    rt: &impl Abort,
    found: &Acyclic<u64, u64, u8, S>,
    wanted: &Acyclic<u64, u64, u8, S>,
) {
    same_nodes(rt, found.graph(), wanted.graph());
    same_edges(rt, found.graph(), wanted.graph());
}

// The dag of the document of a dag.
fn read_back(rt: &impl Abort, alloc: Global, dag: &Small) -> Small
    ensures { result.graph ≡ dag.now.graph }
{
    // Called only for its postcondition: the graph is that of a compact dag.
    let _dag = dag.node_count();
    let value = made(rt, dag_to_json(alloc, dag, number, number));
    made(rt, dag_from_json(alloc, &value, weight, weight))
}

fn read_back_stable(rt: &impl Abort, alloc: Global, dag: &SmallStable) -> SmallStable
    ensures { result.graph ≡ trimmed dag.now.graph }
{
    // Called only for its postcondition: the graph is that of a dag.
    let _dag = dag.node_count();
    let value = made(rt, stable_to_json(alloc, dag, number, number));
    made(rt, stable_from_json(alloc, &value, weight, weight))
}

fn compact_is_read_back(rt: &impl Abort, alloc: Global, state: &mut u64) {
    let dag: Small = random_dag(rt, alloc, state);
    same_dag(rt, &read_back(rt, alloc, &dag), &dag);
}

fn stable_is_read_back(rt: &impl Abort, alloc: Global, state: &mut u64) {
    let dag: SmallStable = random_dag(rt, alloc, state);
    same_dag(rt, &read_back_stable(rt, alloc, &dag), &dag);
}

#[test]
fn random_dags_are_read_back(rt: HostRuntime) {
    let mut state = 1;
    for _ in 0..1000 {
        compact_is_read_back(&rt, rt.alloc(), &mut state);
        stable_is_read_back(&rt, rt.alloc(), &mut state);
    }
}
