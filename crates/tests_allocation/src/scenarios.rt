//! What the tests of both kinds do. If a removal leaves a gap, they begin with two: a slot of a node
//! and one of an edge, which are reused first.
use crate::again::{
    add_edges, add_edges_again, add_neighbor_again, add_node, add_node_again, extend_again, fan,
    fill, join, join_again, set_parents_again, small_fan,
};
use crate::faults::faults;
use crate::observed::{counts, is_fan, state_of};
use crate::queries::queries;
use crate::slots::{edge_slots, node_slots};
use crate::support::{
    Calls, Compact, Kind, Plain, Stable, answered, has_cause, holds, made, refuse, same,
};
use daggy::graph::Element;
use daggy::index::Direction;
use daggy::visit::{GetAdjacencyMatrix, NodeSet, Visitable};
use daggy::{EdgeError, EdgeIndices, EdgesError, ElementError, NodeError, NodeIndex, SlotsError};
use std::alloc::{AllocError, Global};
use std::process::Abort;
use std::rt::Env;

/// What is done with a dag of a kind. Each kind is named in one function, [`compact`] or
/// [`stable`], since a call at a kind costs a proof much more than a call at any dag.
#[derive(Clone, Copy)]
pub enum Scenario {
    NodesAndEdges,
    Updates,
    ParallelEdges,
    Children,
    Parents,
    ParentsSet,
    Series,
    LongSeries,
    ReservedNodes,
    Extension,
    OfEdges,
    OfElements,
    OfSlots,
    Reduction,
    ReductionByBlocks,
    Copies(Way),
    Capacity,
    Sets,
    Queries,
    Faults,
}

fn play<S: Kind>(rt: &(impl Abort + Env), alloc: Global, scenario: Scenario) {
    let mut refused = false;
    match scenario {
        Scenario::NodesAndEdges => nodes_and_edges::<S>(rt, alloc, false, &mut refused),
        Scenario::Updates => nodes_and_edges::<S>(rt, alloc, true, &mut refused),
        Scenario::ParallelEdges => parallel_edges::<S>(rt, alloc, &mut refused),
        Scenario::Children => children::<S>(rt, alloc, &mut refused),
        Scenario::Parents => parents::<S>(rt, alloc, &mut refused),
        Scenario::ParentsSet => parents_set::<S>(rt, alloc, &mut refused),
        Scenario::Series => series::<S>(rt, alloc, &mut refused),
        Scenario::LongSeries => long_series::<S>(rt, alloc, &mut refused),
        Scenario::ReservedNodes => reserved_nodes::<S>(rt, alloc, &mut refused),
        Scenario::Extension => extension::<S>(rt, alloc, &mut refused),
        Scenario::OfEdges => dag_of_edges::<S>(rt, alloc, &mut refused),
        Scenario::OfElements => dag_of_elements::<S>(rt, alloc, &mut refused),
        Scenario::OfSlots => dag_of_slots::<S>(rt, alloc, &mut refused),
        Scenario::Reduction => reduction::<S>(rt, alloc, &mut refused),
        Scenario::ReductionByBlocks => reduction_by_blocks::<S>(rt, alloc, &mut refused),
        Scenario::Copies(way) => copies::<S>(rt, alloc, way, &mut refused),
        Scenario::Capacity => capacity::<S>(rt, alloc, &mut refused),
        Scenario::Sets => sets::<S>(rt, alloc, &mut refused),
        Scenario::Queries => queries::<S>(rt, alloc, &mut refused),
        Scenario::Faults => faults::<S>(rt, alloc, &mut refused),
    }
    match scenario {
        // The sort of a long series can do without memory of its own, and so can a reduction.
        Scenario::LongSeries | Scenario::ReservedNodes | Scenario::ReductionByBlocks => {
            has_cause(rt, refused)
        }
        _ => answered(rt, refused),
    }
}

/// Plays a scenario with a compact dag.
pub fn compact(rt: &(impl Abort + Env), alloc: Global, scenario: Scenario) {
    play::<Compact>(rt, alloc, scenario);
}

/// Plays a scenario with a stable dag.
pub fn stable(rt: &(impl Abort + Env), alloc: Global, scenario: Scenario) {
    play::<Stable>(rt, alloc, scenario);
}

// A root alone, or a small fan with a gap.
fn begun<S: Kind>(rt: &impl Abort, alloc: Global, refused: &mut bool) -> Plain<S> {
    if S::GAP {
        small_fan(rt, alloc, refused)
    } else {
        fan(rt, alloc, 0, refused)
    }
}

// Takes the vacant slots of a node and of an edge, which needs no memory.
fn refill<S: Kind>(rt: &impl Abort, dag: &mut Plain<S>, update: bool) {
    let n = made(rt, add_node(rt, dag, 2));
    let e = made(rt, join(rt, dag, (0, n.index()), 101, update));
    same(rt, (e.index(), n.index()), (1, 2));
}

// Nodes, each with an edge from the root, which is made by an update if that is asked for.
fn nodes_and_edges<S: Kind>(rt: &impl Abort, alloc: Global, update: bool, refused: &mut bool) {
    let mut dag: Plain<S> = begun(rt, alloc, refused);
    add_nodes_and_edges(rt, &mut dag, update, refused);
}

// What owns a dag has no branches here: a dag is dropped in each, which lengthens the proof.
fn add_nodes_and_edges<S: Kind>(
    rt: &impl Abort,
    dag: &mut Plain<S>,
    update: bool,
    refused: &mut bool,
) {
    if S::GAP {
        refill(rt, dag, update);
    }
    for _ in 0..20 {
        let edges = dag.edge_count();
        let n = add_node_again(rt, dag, refused);
        join_again(rt, dag, (0, n.index()), update, refused);
        holds(rt, edges < 64);
        is_fan(rt, dag, edges + 1, S::GAP);
    }
}

// Edges beside another one.
fn parallel_edges<S: Kind>(rt: &impl Abort, alloc: Global, refused: &mut bool) {
    let mut dag: Plain<S> = small_fan(rt, alloc, refused);
    for _ in 0..10 {
        join_again(rt, &mut dag, (0, 3), false, refused);
    }
}

// Children of the root.
fn children<S: Kind>(rt: &impl Abort, alloc: Global, refused: &mut bool) {
    let mut dag: Plain<S> = begun(rt, alloc, refused);
    add_children(rt, &mut dag, refused);
}

fn add_children<S: Kind>(rt: &impl Abort, dag: &mut Plain<S>, refused: &mut bool) {
    for _ in 0..20 {
        let edges = dag.edge_count();
        let root = NodeIndex::new(0);
        add_neighbor_again(rt, dag, root, Direction::Outgoing, refused);
        holds(rt, edges < 64);
        is_fan(rt, dag, edges + 1, S::GAP);
    }
}

// Parents of the node that was added last, and of the root.
fn parents<S: Kind>(rt: &impl Abort, alloc: Global, refused: &mut bool) {
    let mut dag: Plain<S> = begun(rt, alloc, refused);
    add_parents(rt, &mut dag, refused);
}

fn add_parents<S: Kind>(rt: &impl Abort, dag: &mut Plain<S>, refused: &mut bool) {
    let root = NodeIndex::new(0);
    if S::GAP {
        add_neighbor_again(rt, dag, root, Direction::Outgoing, refused);
    }
    let mut last = root;
    for _ in 0..10 {
        let edges = dag.edge_count();
        last = add_neighbor_again(rt, dag, last, Direction::Incoming, refused);
        add_neighbor_again(rt, dag, root, Direction::Incoming, refused);
        holds(rt, edges < 64);
        counts(rt, dag, edges + 3, edges + 2);
    }
}

// The parents of a node, for which memory was refused once.
fn items(
    rt: &impl Abort,
    alloc: Global,
    count: usize,
    refused: &mut bool,
) -> Vec<(NodeIndex, usize)> {
    let mut items = Vec::new(alloc);
    if items.reserve(count).is_err() {
        refuse(rt, refused);
        made(rt, items.reserve(count));
    }
    for i in 0..count {
        made(rt, items.push((NodeIndex::new(i % 4), i)));
    }
    items
}

// The parents of a node, replaced by more and by fewer.
fn parents_set<S: Kind>(rt: &impl Abort, alloc: Global, refused: &mut bool) {
    let mut dag: Plain<S> = fan(rt, alloc, 5, refused);
    let n = NodeIndex::new(5);
    for (count, edges) in [(3, 7), (40, 44), (2, 6), (0, 4), (9, 13)] {
        let items = items(rt, alloc, count, refused);
        set_parents_again(rt, &mut dag, n, items, refused);
        counts(rt, &dag, 6, edges);
    }
}

// Edges in batches, and a batch of none.
fn series<S: Kind>(rt: &impl Abort, alloc: Global, refused: &mut bool) {
    let mut dag: Plain<S> = begun(rt, alloc, refused);
    add_series(rt, &mut dag, refused);
}

fn add_series<S: Kind>(rt: &impl Abort, dag: &mut Plain<S>, refused: &mut bool) {
    let edges = dag.edge_count();
    for _ in 0..20 {
        add_node_again(rt, dag, refused);
    }
    for _ in 0..4 {
        add_edges_again(rt, dag, 5, refused);
    }
    holds(rt, edges < 64);
    is_fan(rt, dag, edges + 20, S::GAP);
    let none = made(rt, add_edges(rt, dag, 0));
    same(rt, none.len(), 0);
}

// Forty edges from 0 to 1, and one that leads to an older node, for which all nodes are sorted.
fn add_long_series<S: Kind>(dag: &mut Plain<S>) -> Result<EdgeIndices<u32>, EdgesError<usize>> {
    dag.add_edges((0usize..41).map(|i| {
        let ends = if i < 40 { (0, 1) } else { (2, 0) };
        (NodeIndex::new(ends.0), NodeIndex::new(ends.1), i)
    }))
}

// Adds them, a second time if the first is refused. If there is no memory for the sort, the nodes
// are sorted without it, and nothing is refused.
fn add_long_series_again<S: Kind>(rt: &(impl Abort + Env), dag: &mut Plain<S>, refused: &mut bool) {
    answered(rt, *refused);
    let before = state_of(dag);
    let added = match add_long_series(dag) {
        Ok(added) => added,
        Err(_) => {
            refuse(rt, refused);
            same(rt, state_of(dag), before);
            made(rt, add_long_series(dag))
        }
    };
    same(rt, added.len(), 41);
    let first = dag.topological_order().next();
    holds(rt, first == Some(NodeIndex::new(2)));
}

// A long batch, which is sorted at its end.
fn long_series<S: Kind>(rt: &(impl Abort + Env), alloc: Global, refused: &mut bool) {
    let mut dag: Plain<S> = begun(rt, alloc, refused);
    add_node_again(rt, &mut dag, refused);
    if !S::GAP {
        add_node_again(rt, &mut dag, refused);
    }
    add_long_series_again(rt, &mut dag, refused);
}

fn dag_for<S: Kind>(
    rt: &impl Abort,
    alloc: Global,
    nodes: usize,
    edges: usize,
    refused: &mut bool,
) -> Plain<S> {
    match S::with_capacity(alloc, nodes, edges) {
        Ok(dag) => dag,
        Err(AllocError) => {
            refuse(rt, refused);
            made(rt, S::with_capacity(alloc, nodes, edges))
        }
    }
}

// Nodes that memory is reserved for. It is still there after a long batch, which is sorted.
fn reserved_nodes<S: Kind>(rt: &(impl Abort + Env), alloc: Global, refused: &mut bool) {
    let mut dag: Plain<S> = dag_for(rt, alloc, 20, 0, refused);
    for i in 0..3 {
        made(rt, add_node(rt, &mut dag, i));
    }
    add_long_series_again(rt, &mut dag, refused);
    for i in 3..20 {
        made(rt, add_node(rt, &mut dag, i));
    }
}

// Edges to nodes that are made for them. With a gap the first one takes the vacant slots and more.
fn extension<S: Kind>(rt: &impl Abort, alloc: Global, refused: &mut bool) {
    let mut dag: Plain<S> = fan_or_nothing(rt, alloc, refused);
    extend_far(rt, &mut dag, refused);
}

// A small fan with a gap, or no node.
fn fan_or_nothing<S: Kind>(rt: &impl Abort, alloc: Global, refused: &mut bool) -> Plain<S> {
    if S::GAP {
        small_fan(rt, alloc, refused)
    } else {
        Plain::<S>::new(alloc)
    }
}

fn extend_far<S: Kind>(rt: &impl Abort, dag: &mut Plain<S>, refused: &mut bool) {
    let first = if S::GAP { 6 } else { 1 };
    for child in first..first + 20 {
        extend_again(rt, dag, child, refused);
    }
}

// A dag of edges of weights 1, 2 and 3.
fn triangle<S: Kind>(alloc: Global) -> Result<Plain<S>, EdgeError<usize>> {
    let (a, b, c) = (NodeIndex::new(0), NodeIndex::new(1), NodeIndex::new(2));
    Plain::<S>::from_edges(alloc, [(a, b, 1), (b, c, 2), (a, c, 3)])
}

// A dag that is made of edges.
fn dag_of_edges<S: Kind>(rt: &impl Abort, alloc: Global, refused: &mut bool) {
    let dag: Plain<S> = match triangle(alloc) {
        Ok(dag) => dag,
        Err(EdgeError::Memory(weight)) => {
            refuse(rt, refused);
            holds(rt, weight >= 1 && weight <= 3);
            made(rt, triangle(alloc))
        }
        Err(EdgeError::NodeMemory(weight)) => {
            refuse(rt, refused);
            holds(rt, weight == 1 || weight == 2);
            made(rt, triangle(alloc))
        }
        Err(_) => panic!(rt; "no other refusal has a cause"),
    };
    counts(rt, &dag, 3, 3);
}

// A dag of two nodes of weights 10 and 11, and of an edge of weight 12.
fn pair<S: Kind>(alloc: Global) -> Result<Plain<S>, ElementError<usize, usize>> {
    let items = [
        Element::Node { weight: 10 },
        Element::Node { weight: 11 },
        Element::Edge {
            source: 0,
            target: 1,
            weight: 12,
        },
    ];
    Plain::<S>::from_elements(alloc, items)
}

// A dag that is made of elements.
fn dag_of_elements<S: Kind>(rt: &impl Abort, alloc: Global, refused: &mut bool) {
    let dag: Plain<S> = match pair(alloc) {
        Ok(dag) => dag,
        Err(ElementError::Node(NodeError::Memory(weight))) => {
            refuse(rt, refused);
            holds(rt, weight == 10 || weight == 11);
            made(rt, pair(alloc))
        }
        Err(ElementError::Edge(EdgeError::Memory(weight))) => {
            refuse(rt, refused);
            same(rt, weight, 12);
            made(rt, pair(alloc))
        }
        Err(_) => panic!(rt; "no other refusal has a cause"),
    };
    counts(rt, &dag, 2, 1);
}

// A dag that is made of slots.
fn dag_of_slots<S: Kind>(rt: &impl Abort, alloc: Global, refused: &mut bool) {
    let nodes = node_slots(rt, alloc, refused);
    let edges = edge_slots(rt, alloc, 1, refused);
    let dag = match Plain::<S>::from_slots(alloc, nodes, edges) {
        Ok(dag) => dag,
        Err(error) => {
            refuse(rt, refused);
            same(rt, error, SlotsError::Memory);
            let nodes = node_slots(rt, alloc, refused);
            let edges = edge_slots(rt, alloc, 1, refused);
            made(rt, Plain::<S>::from_slots(alloc, nodes, edges))
        }
    };
    counts(rt, &dag, 2, 1);
}

/// How a dag is made of another one.
#[derive(Clone, Copy)]
pub enum Way {
    Copy,
    Map,
    Part,
}

fn made_of<S: Kind>(dag: &Plain<S>, way: Way, calls: &mut Calls) -> Result<Plain<S>, AllocError> {
    match way {
        Way::Copy => S::copied(dag),
        Way::Map => S::mapped(dag, calls),
        Way::Part => S::kept(dag, calls),
    }
}

// Makes a dag of another one, a second time if the first is refused, in which no closure was
// called.
fn made_again<S: Kind>(
    rt: &impl Abort,
    dag: &Plain<S>,
    way: Way,
    calls: &mut Calls,
    refused: &mut bool,
) -> Plain<S> {
    match made_of(dag, way, calls) {
        Ok(copy) => copy,
        Err(AllocError) => {
            refuse(rt, refused);
            same(rt, *calls, Calls { nodes: 0, edges: 0 });
            made(rt, made_of(dag, way, calls))
        }
    }
}

// A dag that is made of a small fan.
fn copies<S: Kind>(rt: &impl Abort, alloc: Global, way: Way, refused: &mut bool) {
    let dag: Plain<S> = small_fan(rt, alloc, refused);
    copy_again(rt, &dag, way, refused);
    is_small_fan(rt, &dag);
}

fn is_small_fan<S: Kind>(rt: &impl Abort, dag: &Plain<S>) {
    is_fan(rt, dag, if S::GAP { 2 } else { 3 }, S::GAP);
}

fn copy_again<S: Kind>(rt: &impl Abort, dag: &Plain<S>, way: Way, refused: &mut bool) {
    let mut calls = Calls { nodes: 0, edges: 0 };
    let mut copy = made_again(rt, dag, way, &mut calls, refused);
    same(rt, calls, calls_of(dag, way));
    same(rt, state_of(&copy), state_of(dag));
    fill_gap(rt, &mut copy);
}

// How often the closures are called.
fn calls_of<S: Kind>(dag: &Plain<S>, way: Way) -> Calls {
    let (nodes, edges) = match way {
        Way::Copy => (0, 0),
        Way::Map | Way::Part => (dag.node_count(), dag.edge_count()),
    };
    Calls { nodes, edges }
}

// A vacant slot needs no memory.
fn fill_gap<S: Kind>(rt: &impl Abort, dag: &mut Plain<S>) {
    if S::GAP {
        same(rt, made(rt, add_node(rt, dag, 2)).index(), 2);
    }
}

// A dag that is made with room for a fan.
fn capacity<S: Kind>(rt: &impl Abort, alloc: Global, refused: &mut bool) {
    let mut dag: Plain<S> = dag_for(rt, alloc, 8, 7, refused);
    fill(rt, &mut dag, 7);
}

// A set for the nodes of a dag, which is made again if it is refused.
fn set_again<S: Kind>(rt: &impl Abort, dag: &Plain<S>, refused: &mut bool) -> NodeSet<u32> {
    match dag.visit_map() {
        Ok(set) => set,
        Err(AllocError) => {
            refuse(rt, refused);
            made(rt, dag.visit_map())
        }
    }
}

// Sets and a matrix for a small fan. One of the sets was made for a dag without nodes.
fn sets<S: Kind>(rt: &impl Abort, alloc: Global, refused: &mut bool) {
    let dag: Plain<S> = small_fan(rt, alloc, refused);
    visit_again(rt, alloc, &dag, refused);
    pair_again(rt, &dag, refused);
}

fn visit_again<S: Kind>(rt: &impl Abort, alloc: Global, dag: &Plain<S>, refused: &mut bool) {
    let set = set_again(rt, dag, refused);
    holds(rt, !set.is_visited(NodeIndex::new(3)));
    let mut small = small_set::<S>(rt, alloc, refused);
    if dag.reset_map(&mut small).is_err() {
        refuse(rt, refused);
        made(rt, dag.reset_map(&mut small));
    }
    holds(rt, !small.is_visited(NodeIndex::new(3)));
}

// A set for a dag without nodes.
fn small_set<S: Kind>(rt: &impl Abort, alloc: Global, refused: &mut bool) -> NodeSet<u32> {
    let none = Plain::<S>::new(alloc);
    set_again(rt, &none, refused)
}

fn pair_again<S: Kind>(rt: &impl Abort, dag: &Plain<S>, refused: &mut bool) {
    let matrix = match dag.adjacency_matrix() {
        Ok(matrix) => matrix,
        Err(AllocError) => {
            refuse(rt, refused);
            made(rt, dag.adjacency_matrix())
        }
    };
    let joined = dag.is_adjacent(&matrix, NodeIndex::new(0), NodeIndex::new(3));
    holds(rt, joined);
}

// Reduces the dag from its root.
fn reduce<S: Kind>(alloc: Global, dag: &mut Plain<S>) -> Result<(), AllocError> {
    let mut roots = Vec::new(alloc);
    roots.push(NodeIndex::new(0))?;
    dag.transitive_reduce(roots)
}

// Reduces it again if that was refused, in which nothing was removed.
fn reduce_again<S: Kind>(rt: &impl Abort, alloc: Global, dag: &mut Plain<S>, refused: &mut bool) {
    let before = state_of(dag);
    if reduce(alloc, dag).is_err() {
        refuse(rt, refused);
        same(rt, state_of(dag), before);
        made(rt, reduce(alloc, dag));
    }
}

// A reduction that finds no redundant edge, and one that removes the edge from the root to its
// last child.
fn reduction<S: Kind>(rt: &impl Abort, alloc: Global, refused: &mut bool) {
    let mut dag: Plain<S> = small_fan(rt, alloc, refused);
    let (nodes, edges, state) = (dag.node_count(), dag.edge_count(), state_of(&dag));
    reduce_again(rt, alloc, &mut dag, refused);
    same(rt, state_of(&dag), state);
    join_again(rt, &mut dag, (1, 3), false, refused);
    reduce_again(rt, alloc, &mut dag, refused);
    counts(rt, &dag, nodes, edges);
    let gone = dag.find_edge(NodeIndex::new(0), NodeIndex::new(3));
    holds(rt, gone.is_none());
}

// An edge leads from each of ten nodes to every later one, so the redundant edges are found by
// blocks. If there is no memory for the rows, they are found by searches, and nothing is refused.
fn reduction_by_blocks<S: Kind>(rt: &impl Abort, alloc: Global, refused: &mut bool) {
    let mut dag: Plain<S> = fan(rt, alloc, 0, refused);
    for _ in 1..10 {
        let n = add_node_again(rt, &mut dag, refused);
        for a in 0..n.index() {
            join_again(rt, &mut dag, (a, n.index()), false, refused);
        }
    }
    reduce_again(rt, alloc, &mut dag, refused);
    same(rt, dag.edge_count(), 9);
}
