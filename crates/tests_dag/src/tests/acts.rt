//! What is done with a dag of either kind beside the calls of a table.
use super::closing::{close_chain, close_path};
use super::kinds::{Compact, Kind, Line, Made, Plain, Stable, Three, put_second};
use super::retaining::{keep_edges, keep_nodes};
use super::support::{edge, holds, made, node, same};
use super::table::play;
use super::trying::{try_all, try_full};
use super::visiting::{keep_pairs, read, reset, visit, write};
use daggy_base::index::Direction;
use daggy_dag::acyclic::Acyclic;
use std::alloc::Global;
use std::process::Abort;

/// The nodes 0, 1 and 2, and an edge from each to those after it.
pub const TRIANGLE: &str = "
    node 10 = node 0
    node 11 = node 1
    node 12 = node 2
    edges 0 1 100, 0 2 101, 1 2 102 = edges 0 1 2
";

/// Something that is done with a dag, and what comes of it.
#[derive(Clone, Copy)]
pub enum Act<'a> {
    /// A table is played.
    Rows(&'a str),
    /// A table is played over a copy.
    Copy(&'a str),
    /// Each weight is raised by its index, with these calls, and a table is played over that.
    Map(u64, &'a str),
    /// The nodes of one weight are left out, with these calls, and a table is played over the rest.
    Part(u32, u64, &'a str),
    /// A table is played over another dag, which is made with room for nodes and edges.
    Capacity(usize, usize, &'a str),
    /// There is no memory for that many nodes and edges.
    NoCapacity(usize, usize),
    /// The weights of two nodes are raised, of which the first was this.
    RaiseNodes(usize, usize, u32),
    /// The same with two edges.
    RaiseEdges(usize, usize, u32),
    /// The same with a node and an edge.
    RaiseBoth(usize, usize, u32),
    /// All nodes and edges are gone through.
    Through(&'a [(usize, u32)], &'a [Line]),
    /// A list of a node is gone along, the one to its children if no direction is named.
    Along(usize, Option<Direction>, &'a [usize], &'a [Line]),
    /// Code over the traits of graphs reads the dag.
    Read,
    /// Code over the traits of graphs writes a node's weight and an edge's.
    Write(usize, u32, usize, u32),
    /// A node is put into a set for the dag, and is gone after a reset.
    Visit(usize),
    /// A set is reset for more nodes, of which these are added.
    Reset(u32),
    /// The nodes of one weight are removed, with these calls.
    KeepNodes(u32, u64),
    /// The same with edges.
    KeepEdges(u32, u64),
    /// A matrix keeps the pairs of its time.
    KeepPairs,
    /// Each weight of a node is doubled and each of an edge raised, with these calls.
    Update(u64, u64),
    /// Closures read the weights from tables: that of a map, of a part with all nodes and edges, and
    /// of an update. A table of calls is played over each of the three.
    Tables(&'a [u32], &'a [u32], &'a str),
    /// The weights of the second node and the second edge are written as they are lent. Before, the
    /// first three of each were these.
    PutSecond(u32, u32, Three, Three),
    /// References to one edge are equal, and those to two edges are not.
    References,
    /// A path is closed.
    ClosePath,
    /// A long chain is closed.
    CloseChain,
    /// Additions that test their conditions are refused by an empty dag, and made.
    TryAll,
    /// No index is left for a node or an edge.
    TryFull,
    /// All redundant edges are removed.
    ReduceAll,
}

fn copy<S: Kind>(rt: &impl Abort, alloc: Global, dag: &Plain<S>, rows: &str) {
    let mut copy = made(rt, S::copied(dag));
    play(rt, alloc, &mut copy, rows);
}

fn map<S: Kind>(rt: &impl Abort, alloc: Global, dag: &Plain<S>, noted: u64, rows: &str) {
    let mut calls = 0;
    let mut mapped = made(rt, S::mapped(dag, &mut calls));
    play(rt, alloc, &mut mapped, rows);
    same(rt, calls, noted);
}

fn part<S: Kind>(
    rt: &impl Abort,
    alloc: Global,
    dag: &Plain<S>,
    (without, noted): (u32, u64),
    rows: &str,
) {
    let mut calls = 0;
    let mut part = made(rt, S::part(dag, without, &mut calls));
    play(rt, alloc, &mut part, rows);
    same(rt, calls, noted);
}

fn capacity<S: Kind>(rt: &impl Abort, alloc: Global, sizes: (usize, usize), rows: &str) {
    let mut dag = made(rt, S::with_capacity(alloc, sizes.0, sizes.1));
    play(rt, alloc, &mut dag, rows);
}

// Asserts that these are the indices and the weights of some nodes.
fn are_nodes(rt: &impl Abort, indices: &[usize], weights: &[u32], nodes: &[(usize, u32)]) {
    let count = nodes.len();
    same(rt, (indices.len(), weights.len()), (count, count));
    for ((n, weight), wanted) in indices.iter().zip(weights).zip(nodes) {
        same(rt, (*n, *weight), *wanted);
    }
}

// The same for edges.
fn are_edges(rt: &impl Abort, indices: &[usize], weights: &[u32], edges: &[Line]) {
    let count = edges.len();
    same(rt, (indices.len(), weights.len()), (count, count));
    for ((e, weight), (index, _, _, of)) in indices.iter().zip(weights).zip(edges) {
        same(rt, (*e, *weight), (*index, *of));
    }
}

fn play_over<S: Kind>(rt: &impl Abort, alloc: Global, dag: Option<Made<S>>, rows: &str) {
    match dag {
        Some(dag) => play(rt, alloc, &mut made(rt, dag), rows),
        None => panic!(rt; "a table is too short"),
    }
}

fn tables<S: Kind>(
    rt: &impl Abort,
    alloc: Global,
    dag: &mut Plain<S>,
    (nodes, edges): (&[u32], &[u32]),
    rows: &str,
) {
    play_over(rt, alloc, S::mapped_by(dag, nodes, edges), rows);
    play_over(rt, alloc, S::part_by(dag, nodes, edges), rows);
    holds(rt, S::update_by(dag, nodes, edges));
    play(rt, alloc, dag, rows);
}

fn through<S: Kind>(
    rt: &impl Abort,
    alloc: Global,
    dag: &Plain<S>,
    nodes: &[(usize, u32)],
    edges: &[Line],
) {
    same(rt, made(rt, S::nodes(alloc, dag)).len(), nodes.len());
    same(
        rt,
        made(rt, S::weighted_nodes(alloc, dag)).as_slice(),
        nodes,
    );
    same(rt, made(rt, S::edges(alloc, dag)).as_slice(), edges);
    let (node_indices, edge_indices) = made(rt, S::indices(alloc, dag));
    let (of_nodes, of_edges) = made(rt, S::weights(alloc, dag));
    are_nodes(rt, node_indices.as_slice(), of_nodes.as_slice(), nodes);
    are_edges(rt, edge_indices.as_slice(), of_edges.as_slice(), edges);
}

fn along<S: Kind>(
    rt: &impl Abort,
    alloc: Global,
    dag: &Plain<S>,
    list: (usize, Option<Direction>),
    nodes: &[usize],
    edges: &[Line],
) {
    let (n, dir) = list;
    same(
        rt,
        made(rt, S::near_nodes(alloc, dag, n, dir)).as_slice(),
        nodes,
    );
    same(
        rt,
        made(rt, S::near_edges(alloc, dag, n, dir)).as_slice(),
        edges,
    );
}

fn apply<S: Kind>(rt: &impl Abort, alloc: Global, dag: &mut Plain<S>, act: Act<'_>) {
    match act {
        Act::Rows(rows) => play(rt, alloc, dag, rows),
        Act::Copy(rows) => copy(rt, alloc, dag, rows),
        Act::Map(noted, rows) => map(rt, alloc, dag, noted, rows),
        Act::Part(without, noted, rows) => part(rt, alloc, dag, (without, noted), rows),
        Act::Tables(nodes, edges, rows) => tables(rt, alloc, dag, (nodes, edges), rows),
        _ => make_or_walk(rt, alloc, dag, act),
    }
}

fn make_or_walk<S: Kind>(rt: &impl Abort, alloc: Global, dag: &mut Plain<S>, act: Act<'_>) {
    match act {
        Act::Capacity(nodes, edges, rows) => capacity::<S>(rt, alloc, (nodes, edges), rows),
        Act::NoCapacity(nodes, edges) => {
            holds(rt, S::with_capacity(alloc, nodes, edges).is_err());
        }
        Act::Through(nodes, edges) => through(rt, alloc, dag, nodes, edges),
        Act::KeepPairs => keep_pairs(rt, alloc, dag),
        Act::Along(n, dir, nodes, edges) => along(rt, alloc, dag, (n, dir), nodes, edges),
        _ => write_or_read(rt, dag, act),
    }
}

fn write_or_read<S: Kind>(rt: &impl Abort, dag: &mut Plain<S>, act: Act<'_>) {
    match act {
        Act::RaiseNodes(a, b, first) => {
            same(rt, S::raise_nodes(dag, a, b), Some(first));
        }
        Act::RaiseEdges(a, b, first) => {
            same(rt, S::raise_edges(dag, a, b), Some(first));
        }
        Act::RaiseBoth(n, e, first) => {
            same(rt, S::raise_both(dag, n, e), Some(first));
        }
        Act::Read => read(rt, dag),
        Act::Write(n, node_weight, e, edge_weight) => {
            write(dag, node(rt, n), node_weight, edge(rt, e), edge_weight);
        }
        Act::Visit(n) => visit(rt, dag, node(rt, n)),
        Act::Reset(more) => reset(rt, dag, more),
        _ => keep_or_close(rt, dag, act),
    }
}

fn keep_or_close<S: Kind>(rt: &impl Abort, dag: &mut Plain<S>, act: Act<'_>) {
    match act {
        Act::KeepNodes(without, noted) => keep_nodes(rt, dag, without, noted),
        Act::KeepEdges(without, noted) => keep_edges(rt, dag, without, noted),
        Act::Update(nodes, edges) => same(rt, S::update(dag), (nodes, edges)),
        Act::PutSecond(node, edge, nodes, edges) => {
            same(rt, put_second(dag, node, edge), (nodes, edges));
        }
        Act::References => same(rt, S::equal_references(dag), (true, false)),
        Act::ClosePath => close_path(rt, dag),
        Act::CloseChain => close_chain(rt, dag),
        Act::ReduceAll => made(rt, dag.transitive_reduce_all()),
        _ => attempt(rt, dag, act),
    }
}

fn attempt<S: Kind>(rt: &impl Abort, dag: &mut Plain<S>, act: Act<'_>) {
    match act {
        Act::TryAll => try_all(rt, dag),
        Act::TryFull => try_full(rt, dag),
        _ => panic!(rt; "there is no such act"),
    }
}

/// A new dag, over which a table was played.
pub fn dag_of<S: Kind>(rt: &impl Abort, alloc: Global, rows: &str) -> Plain<S> {
    let mut dag: Plain<S> = Acyclic::new(alloc);
    play(rt, alloc, &mut dag, rows);
    dag
}

/// A new compact dag, over which a table was played.
pub fn compact_of(rt: &impl Abort, alloc: Global, rows: &str) -> Plain<Compact> {
    dag_of(rt, alloc, rows)
}

/// A new stable dag, likewise.
pub fn stable_of(rt: &impl Abort, alloc: Global, rows: &str) -> Plain<Stable> {
    dag_of(rt, alloc, rows)
}

/// Plays a table over a stable dag.
pub fn play_stable(rt: &impl Abort, alloc: Global, dag: &mut Plain<Stable>, rows: &str) {
    play(rt, alloc, dag, rows);
}

fn apply_all<S: Kind>(rt: &impl Abort, alloc: Global, dag: &mut Plain<S>, acts: &[Act<'_>]) {
    for act in acts {
        apply(rt, alloc, dag, *act);
    }
}

fn begin<S: Kind>(rt: &impl Abort, alloc: Global, rows: &str, acts: &[Act<'_>]) {
    let mut dag: Plain<S> = dag_of(rt, alloc, rows);
    apply_all(rt, alloc, &mut dag, acts);
}

/// Plays a table over a compact dag, and then acts with it.
pub fn compact(rt: &impl Abort, alloc: Global, rows: &str, acts: &[Act<'_>]) {
    begin::<Compact>(rt, alloc, rows, acts);
}

/// Plays a table over a stable dag, and then acts with it.
pub fn stable(rt: &impl Abort, alloc: Global, rows: &str, acts: &[Act<'_>]) {
    begin::<Stable>(rt, alloc, rows, acts);
}

/// Does the same with a dag of each kind.
pub fn both(rt: &impl Abort, alloc: Global, rows: &str, acts: &[Act<'_>]) {
    compact(rt, alloc, rows, acts);
    stable(rt, alloc, rows, acts);
}
