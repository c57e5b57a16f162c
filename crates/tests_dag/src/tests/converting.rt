//! The graph that a dag becomes, and the dag of the other kind.
use super::acts::{compact_of, dag_of, play_stable, stable_of};
use super::kinds::{Compact, CompactTexts, Kind, Plain, Stable, StableTexts, TextDag, TextKind};
use super::support::{holds, made, reads, same, text};
use daggy_base::index::NodeIndex;
use daggy_dag::acyclic::{Acyclic, StableDag};
use daggy_graph::graph::DiGraph;
use daggy_stable::stable_graph::StableDiGraph;
use std::alloc::Global;
use std::process::Abort;

const PAIR: &str = "
    node 1 = node 0
    node 3 = node 1
    edge 0 1 2 = edge 0
";

// Asserts that a store holds the pair, and takes the edge back.
fn may_hold_cycles<S: Kind>(rt: &impl Abort, mut store: S) {
    let (a, b) = (NodeIndex::new(0), NodeIndex::new(1));
    same(rt, store.node_weight(b).copied(), Some(3));
    same(rt, store.find_edge(a, b).is_some(), true);
    holds(rt, store.contains_node(a));
    holds(rt, store.contains_node(b));
    holds(rt, store.can_add_edge());
    same(rt, made(rt, store.add_edge(b, a, 4)).index(), 1);
    same(rt, (store.node_count(), store.edge_count()), (2, 2));
}

fn pair<S: Kind>(rt: &impl Abort, alloc: Global) -> Plain<S> {
    dag_of(rt, alloc, PAIR)
}

fn convert<S: Kind + From<Plain<S>>>(rt: &impl Abort, alloc: Global) {
    may_hold_cycles::<S>(rt, pair(rt, alloc).into_graph());
    may_hold_cycles(rt, S::from(pair(rt, alloc)));
}

#[test]
fn a_graph_that_was_a_dag_may_hold_cycles(rt: HostRuntime) {
    convert::<Compact>(&rt, rt.alloc());
    convert::<Stable>(&rt, rt.alloc());
}

#[test]
fn a_dag_gives_its_order_away(rt: HostRuntime) {
    const ROWS: &str = "
        node 1 = node 0
        node 3 = node 1
        edge 1 0 2 = edge 0
    ";
    let (graph, order) = compact_of(&rt, rt.alloc(), ROWS).into_parts();
    same(&rt, graph.edge_count(), 1);
    same(&rt, order.len(), 2);
    same(&rt, order.nodes().next(), Some(NodeIndex::new(1)));
}

#[test]
fn a_compact_dag_keeps_its_lists(rt: HostRuntime) {
    const ROWS: &str = "
        node 0 = node 0
        node 1 = node 1
        node 2 = node 2
        edges 0 1 4, 0 2 5, 0 1 6 = edges 0 1 2
        remove_edge 0 = weight 4
    ";
    const AFTER: &str = "
        children 0 = walk 0 1, 1 2
        counts = counts 3 2
        weight 2 = weight 2
        stored 0 = stored 0 1 6
        stored 1 = stored 0 2 5
        edge 1 2 7 = edge 2
        node 3 = node 3
        edge 2 0 8 = cycle 8
    ";
    let compact = compact_of(&rt, rt.alloc(), ROWS);
    let mut dag = made(&rt, StableDag::from_dag(compact));
    play_stable(&rt, rt.alloc(), &mut dag, AFTER);
}

// A copy of two nodes and the edge between them keeps all three texts when one of the nodes is
// removed.
fn copy_texts<S: TextKind>(rt: &impl Abort, alloc: Global) {
    let mut dag: TextDag<S> = Acyclic::new(alloc);
    let a = made(rt, dag.add_node(text(rt, alloc, "sow")));
    let (then, reap) = (text(rt, alloc, "then"), text(rt, alloc, "reap"));
    let (e, b) = made(rt, dag.add_child(a, then, reap));
    let copy = made(rt, S::copied(&dag));
    same(rt, dag.remove_node(b).is_some(), true);
    reads(rt, copy.node_weight(a), "sow");
    reads(rt, copy.node_weight(b), "reap");
    reads(rt, copy.edge_weight(e), "then");
    same(rt, copy.find_edge(a, b), Some(e));
}

#[test]
fn a_compact_dag_of_texts_is_copied(rt: HostRuntime) {
    copy_texts::<CompactTexts>(&rt, rt.alloc());
}

#[test]
fn a_stable_dag_of_texts_is_copied(rt: HostRuntime) {
    copy_texts::<StableTexts>(&rt, rt.alloc());
}

// A struct of a user's own, which derives its copies.
#[derive(Clone, Drop)]
struct Named<D> {
    dag: D,
    name: u32,
}

#[test]
fn a_struct_that_holds_a_dag_is_cloned(rt: HostRuntime) {
    const ROWS: &str = "
        weight 1 = weight 3
        stored 0 = stored 0 1 2
        edge 0 1 5 = edge 1
    ";
    let dag = stable_of(&rt, rt.alloc(), PAIR);
    let named = Named { dag, name: 7 };
    let mut copy = made(&rt, named.clone());
    same(&rt, copy.name, named.name);
    play_stable(&rt, rt.alloc(), &mut copy.dag, ROWS);
    same(&rt, named.dag.edge_count(), 1);
}
