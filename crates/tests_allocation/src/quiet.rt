//! Calls that do not allocate. `.ci/fail_allocation.c` counts allocations in the environment; by
//! itself no test sees a count.
use crate::again::small_fan;
use crate::support::{Compact, Kind, Plain, Stable, made, same};
use daggy::{Direction, NodeIndex, Walker};
use std::alloc::Global;
use std::process::Abort;
use std::rt::Env;

// A call that does not allocate.
#[derive(Clone, Copy, Debug, PartialEq)]
enum Quiet {
    Counts,
    Weights,
    FoundEdge,
    Reaches,
    WouldCloseCycle,
    StandsBefore,
    RefusedEdge,
    Children,
    Order,
    Roots,
    Connecting,
    Recomputed,
    AllKept,
    EdgeRemoved,
    NodeRemoved,
    EdgesCleared,
    Cleared,
}

// All of them, those that change the dag last.
const CALLS: [Quiet; 17] = [
    Quiet::Counts,
    Quiet::Weights,
    Quiet::FoundEdge,
    Quiet::Reaches,
    Quiet::WouldCloseCycle,
    Quiet::StandsBefore,
    Quiet::RefusedEdge,
    Quiet::Children,
    Quiet::Order,
    Quiet::Roots,
    Quiet::Connecting,
    Quiet::Recomputed,
    Quiet::AllKept,
    Quiet::EdgeRemoved,
    Quiet::NodeRemoved,
    Quiet::EdgesCleared,
    Quiet::Cleared,
];

// The root of the fan, and its last child.
fn ends() -> (NodeIndex, NodeIndex) {
    (NodeIndex::new(0), NodeIndex::new(3))
}

// An edge from the last child to the root, which would close a cycle.
fn refuse_edge<S: Kind>(dag: &mut Plain<S>) {
    let (root, last) = ends();
    if dag.contains_node(root) && dag.contains_node(last) && dag.can_add_edge() {
        let _refused = dag.add_edge(last, root, 7);
    }
}

// Reads without changing anything.
fn read<S: Kind>(dag: &Plain<S>, call: Quiet) {
    let (root, last) = ends();
    match call {
        Quiet::Counts => {
            let _counts = (dag.node_count(), dag.edge_count());
        }
        Quiet::Weights => {
            let _weight = dag.node_weight(last);
        }
        Quiet::FoundEdge => {
            let _found = dag.find_edge(root, last);
        }
        Quiet::StandsBefore => {
            let _before = dag.stands_before(root, last);
        }
        Quiet::Children => for _child in dag.children(root).iter(dag) {},
        Quiet::Order => for _node in dag.topological_order() {},
        Quiet::Roots => for _root in dag.externals(Direction::Incoming) {},
        _ => for _edge in dag.edges_connecting(root, last) {},
    }
}

// Removes a part of the dag, or all of it.
fn remove<S: Kind>(dag: &mut Plain<S>, call: Quiet) {
    let (root, last) = ends();
    match call {
        Quiet::EdgeRemoved => {
            if let Some(e) = dag.find_edge(root, last) {
                let _weight = dag.remove_edge(e);
            }
        }
        Quiet::NodeRemoved => {
            let _weight = dag.remove_node(last);
        }
        Quiet::EdgesCleared => dag.clear_edges(),
        _ => dag.clear(),
    }
}

fn make<S: Kind>(dag: &mut Plain<S>, call: Quiet) {
    let (root, last) = ends();
    match call {
        Quiet::Reaches => {
            let _reached = dag.reaches(root, last);
        }
        Quiet::WouldCloseCycle => {
            let _closes = dag.would_close_cycle(last, root);
        }
        Quiet::RefusedEdge => refuse_edge(dag),
        Quiet::Recomputed => dag.recompute(|_, n| n.index()),
        Quiet::AllKept => dag.retain_nodes(|_, _| true),
        Quiet::EdgeRemoved | Quiet::NodeRemoved | Quiet::EdgesCleared | Quiet::Cleared => {
            remove(dag, call)
        }
        _ => read(dag, call),
    }
}

// How many allocations there were, as the environment tells it, if it does.
fn allocations(rt: &impl Env) -> Option<[u8; 16]> {
    let mut told = [0u8; 16];
    match rt.var("ALLOCATIONS", &mut told) {
        Ok(_) => Some(told),
        Err(_) => None,
    }
}

fn makes_none<S: Kind>(rt: &(impl Abort + Env), dag: &mut Plain<S>, call: Quiet) {
    let before = allocations(rt);
    make(dag, call);
    same(rt, (call, allocations(rt)), (call, before));
}

fn make_none<S: Kind>(rt: &(impl Abort + Env), alloc: Global) {
    let before = allocations(rt);
    let empty = Plain::<S>::new(alloc);
    same(rt, allocations(rt), before);
    drop(empty);
    let mut refused = false;
    let mut dag: Plain<S> = small_fan(rt, alloc, &mut refused);
    for call in CALLS {
        makes_none(rt, &mut dag, call);
    }
}

#[test]
fn quiet_calls_do_not_allocate(rt: HostRuntime) {
    make_none::<Compact>(&rt, rt.alloc());
}

#[test]
fn quiet_calls_of_a_stable_dag_do_not_allocate(rt: HostRuntime) {
    make_none::<Stable>(&rt, rt.alloc());
}

#[test]
fn quiet_calls_would_be_caught(rt: HostRuntime) {
    let before = allocations(&rt);
    let mut list = Vec::new(rt.alloc());
    if list.push(1u8).is_err() {
        made(&rt, list.push(1u8));
    }
    same(&rt, allocations(&rt) == before, before.is_none());
}
