//! Code over the traits of graphs, and sets and matrices for a dag.
use super::acts::{Act, both, compact_of, stable};
use super::kinds::{Kind, Plain};
use super::script::Answer;
use super::support::{holds, made, same, shows};
use super::table::{edge_added, is, node_added};
use daggy_base::index::{EdgeIndex, NodeIndex};
use daggy_visit::visit::{
    Data, DataMap, DataMapMut, GetAdjacencyMatrix, GraphBase, GraphProp, NodeCompactIndexable,
    NodeCount, NodeIndexable, VisitMap, Visitable,
};
use std::alloc::{AllocError, Global};
use std::process::Abort;

const THREE: &str = "
    node 10 = node 0
    node 20 = node 1
    node 30 = node 2
    edge 0 1 5 = edge 0
";

fn twice<G: GraphBase>(n: G::NodeId, e: G::EdgeId) -> ([G::NodeId; 2], [G::EdgeId; 2]) {
    ([n, n], [e, e])
}

fn have_both<G: Data>(n: Option<G::NodeWeight>, e: Option<G::EdgeWeight>) -> bool
where
    G::NodeWeight: Drop,
    G::EdgeWeight: Drop,
{
    n.is_some() && e.is_some()
}

fn count<G: NodeCount>(graph: &G) -> usize {
    graph.node_count()
}

fn has_direction<G: GraphProp>(graph: &G) -> bool {
    graph.is_directed()
}

fn has_weights<G: DataMap>(graph: &G, n: G::NodeId, e: G::EdgeId) -> (bool, bool) {
    (
        graph.node_weight(n).is_some(),
        graph.edge_weight(e).is_some(),
    )
}

/// Writes the weights of a node and of an edge, if there are such.
pub fn write<G: DataMapMut>(
    graph: &mut G,
    n: G::NodeId,
    node: G::NodeWeight,
    e: G::EdgeId,
    edge: G::EdgeWeight,
)
where
    G::NodeWeight: Drop,
    G::EdgeWeight: Drop,
{
    if let Some(weight) = graph.node_weight_mut(n) {
        *weight = node;
    }
    if let Some(weight) = graph.edge_weight_mut(e) {
        *weight = edge;
    }
}

fn past_the_last<G: NodeIndexable>(graph: &G) -> usize {
    graph.to_index(graph.from_index(graph.node_bound()))
}

fn is_full<G: NodeCompactIndexable>(graph: &G) -> bool {
    graph.node_count() == graph.node_bound()
}

// Whether the last node is visited once, then found, and no longer after a reset.
fn visits_the_last<G: Visitable + NodeIndexable>(graph: &G) -> Result<bool, AllocError>
where
    G::Map: Drop,
{
    let mut map = graph.visit_map()?;
    let Some(last) = graph.node_bound().checked_sub(1) else {
        return Ok(false);
    };
    let n = graph.from_index(last);
    let first = map.visit(n);
    let again = map.visit(n);
    let found = map.is_visited(&n);
    graph.reset_map(&mut map)?;
    Ok(first && !again && found && !map.is_visited(&n))
}

fn are_joined<G: GetAdjacencyMatrix>(
    graph: &G,
    a: G::NodeId,
    b: G::NodeId,
) -> Result<bool, AllocError>
where
    G::AdjMatrix: Drop,
{
    let matrix = graph.adjacency_matrix()?;
    Ok(graph.is_adjacent(&matrix, a, b))
}

/// Reads a dag of three nodes, of which an edge joins the first two.
pub fn read<S: Kind>(rt: &impl Abort, dag: &Plain<S>) {
    read_indices(rt, dag);
    read_weights(rt, dag);
    read_pairs(rt, dag);
}

fn read_indices<S: Kind>(rt: &impl Abort, dag: &Plain<S>) {
    let (b, e) = (NodeIndex::new(1), EdgeIndex::new(0));
    same(rt, twice::<Plain<S>>(b, e), ([b, b], [e, e]));
    same(rt, (count(dag), past_the_last(dag)), (3, 3));
    same(rt, has_direction(dag), true);
}

fn read_weights<S: Kind>(rt: &impl Abort, dag: &Plain<S>) {
    let (b, e) = (NodeIndex::new(1), EdgeIndex::new(0));
    same(rt, have_both::<Plain<S>>(Some(1), Some(2)), true);
    same(rt, has_weights(dag, b, e), (true, true));
    let (none, no_edge) = (NodeIndex::new(3), EdgeIndex::new(1));
    same(rt, has_weights(dag, none, no_edge), (false, false));
}

fn read_pairs<S: Kind>(rt: &impl Abort, dag: &Plain<S>) {
    let (a, b) = (NodeIndex::new(0), NodeIndex::new(1));
    same(rt, made(rt, visits_the_last(dag)), true);
    same(rt, made(rt, are_joined(dag, a, b)), true);
    same(rt, made(rt, are_joined(dag, b, a)), false);
}

/// Puts a node into a set for a dag once and no more, and finds it gone after a reset.
pub fn visit<S: Kind>(rt: &impl Abort, dag: &Plain<S>, n: NodeIndex<u8>) {
    let mut set = made(rt, dag.visit_map());
    holds(rt, n.index() < dag.node_bound());
    holds(rt, set.visit(n));
    holds(rt, !set.visit(n));
    made(rt, dag.reset_map(&mut set));
    holds(rt, !set.is_visited(n));
}

/// Adds `more` nodes, and resets a set for them.
pub fn reset<S: Kind>(rt: &impl Abort, dag: &mut Plain<S>, more: u32) {
    let mut map = made(rt, dag.visit_map());
    for weight in 0..more {
        node_added(rt, dag, weight);
    }
    made(rt, dag.reset_map(&mut map));
    let Some(last) = dag.node_bound().checked_sub(1) else {
        return;
    };
    holds(rt, last < 255);
    let n = NodeIndex::new(last);
    holds(rt, map.visit(n));
    holds(rt, map.is_visited(n));
    holds(rt, !map.is_visited(NodeIndex::new(5)));
}

#[test]
fn generic_code_reads_and_writes_a_dag(rt: HostRuntime) {
    const ACTS: &[Act<'static>] = &[
        Act::Read,
        Act::Write(1, 21, 0, 6),
        Act::Rows(
            "
            weight 1 = weight 21
            stored 0 = stored 0 1 6
        ",
        ),
    ];
    both(&rt, rt.alloc(), THREE, ACTS);
}

#[test]
fn a_set_is_reset_for_more_nodes(rt: HostRuntime) {
    const ACTS: &[Act<'static>] = &[Act::Reset(70)];
    both(&rt, rt.alloc(), "", ACTS);
}

const FIRST_GONE: &str = "
    remove_node 0 = weight 10
    bounds = counts 3 0
";

const LAST_GONE: &str = "
    remove_node 2 = weight 30
    bounds = counts 2 1
";

#[test]
fn a_set_reaches_to_the_bound(rt: HostRuntime) {
    const ACTS: &[Act<'static>] = &[Act::Rows(FIRST_GONE), Act::Visit(2)];
    stable(&rt, rt.alloc(), THREE, ACTS);
}

#[test]
fn a_set_reaches_to_the_last_that_is_left(rt: HostRuntime) {
    const ACTS: &[Act<'static>] = &[Act::Rows(LAST_GONE), Act::Visit(1)];
    stable(&rt, rt.alloc(), THREE, ACTS);
}

#[test]
fn bounds_end_with_the_last_in_use(rt: HostRuntime) {
    const ROWS: &str = "
        extend 0 1 100, 1 2 101, 0 2 102 = done
        remove_node 1 = weight 0
        bounds = counts 3 3
        remove_node 2 = weight 0
        bounds = counts 1 0
        node 5 = node 2
    ";
    stable(&rt, rt.alloc(), ROWS, &[]);
}

#[test]
fn a_compact_dag_has_a_node_at_each_index(rt: HostRuntime) {
    let dag = compact_of(&rt, rt.alloc(), THREE);
    same(&rt, is_full(&dag), true);
}

/// A matrix has the pairs of its time, and it and a set know their bounds.
pub fn keep_pairs<S: Kind>(rt: &impl Abort, alloc: Global, dag: &mut Plain<S>) {
    let (a, b, c) = (NodeIndex::new(0), NodeIndex::new(1), NodeIndex::new(2));
    let matrix = made(rt, dag.adjacency_matrix());
    is(rt, edge_added(rt, dag, (1, 2), 9), Answer::Edge(1));
    holds(rt, dag.is_adjacent(&matrix, a, b));
    holds(rt, !dag.is_adjacent(&matrix, b, c));
    holds(rt, !dag.is_adjacent(&matrix, b, a));
    holds(rt, !dag.is_adjacent(&matrix, a, NodeIndex::new(9)));
    shows(rt, alloc, &matrix, "AdjMatrix { bound: 3, .. }");
    let map = made(rt, dag.visit_map());
    shows(rt, alloc, &map, "NodeSet { bound: 3, .. }");
}

#[test]
fn a_matrix_has_the_pairs_of_its_time(rt: HostRuntime) {
    stable(&rt, rt.alloc(), THREE, &[Act::KeepPairs]);
}
