//! Dags made of graphs.
use super::acts::{TRIANGLE, dag_of};
use super::kinds::{Compact, Kind, Plain, Stable};
use super::support::{edge, holds, made, node, same, shows};
use super::table::play;
use daggy_dag::acyclic::{Acyclic, FromGraphError};
use std::alloc::Global;
use std::process::Abort;

const AS_BEFORE: &str = "
    counts = counts 3 3
    stored 1 = stored 0 2 101
    edge 2 0 7 = cycle 7
";

// Makes a dag of the graph of a triangle, and none while an edge leads back.
fn close_and_open<S: Kind>(rt: &impl Abort, alloc: Global) {
    let dag: Plain<S> = dag_of(rt, alloc, TRIANGLE);
    let mut graph = dag.into_graph();
    let (first, last) = (node(rt, 0), node(rt, 2));
    holds(
        rt,
        graph.can_add_edge() && graph.contains_node(first) && graph.contains_node(last),
    );
    let back = made(rt, graph.add_edge(last, first, 103));
    same(rt, back, edge(rt, 3));
    match Acyclic::try_from_graph(alloc, graph) {
        Ok(_) => panic!(rt; "there is a cycle"),
        Err(error) => open::<S>(rt, alloc, error),
    }
}

fn open<S: Kind>(rt: &impl Abort, alloc: Global, error: FromGraphError<S, u8>) {
    // The list of the first node begins with the edge to the last one, which leads back.
    shows(rt, alloc, &error, "Cycle([NodeIndex(0), NodeIndex(2)])");
    let mut graph = error.into_graph();
    same(rt, graph.remove_edge(edge(rt, 3)), Some(103));
    let mut dag = made(rt, Acyclic::try_from_graph(alloc, graph));
    play(rt, alloc, &mut dag, AS_BEFORE);
}

#[test]
fn a_graph_without_a_cycle_becomes_a_dag(rt: HostRuntime) {
    close_and_open::<Compact>(&rt, rt.alloc());
    close_and_open::<Stable>(&rt, rt.alloc());
}
