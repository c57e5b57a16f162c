//! The calls of a script, made of a dag of either kind, and their answers compared.
//!
//! A test is proved too, and a call costs it more than a line of a script, so the calls are only
//! here.
use super::asking::ask as ask_of_paths;
use super::large::{search_dense_graph, search_long_chain};
use super::many_edges::{add_sorted_list, end_at_a_fault};
use super::ordering::{read_backwards, sort_long_series, sort_round_vacant_slots, tell_length};
use super::parents::{lack_some, set_parents};
use super::reducing::reduce_diamonds;
use super::script::{Answer, Call, answer_of, call_of, is_row, sides};
use super::support::{edge, holds, made, node, same};
use daggy_base::element::Element;
use daggy_base::error::{EdgeError, EdgesError, ElementError, NodeError, WouldCycle};
use daggy_base::index::{Direction, EdgeIndex, IndexType, NodeIndex};
use daggy_base::store::Store;
use daggy_dag::acyclic::Acyclic;
use daggy_graph::graph::DiGraph;
use daggy_stable::stable_graph::StableDiGraph;
use daggy_visit::visit::NodeIndexable;
use daggy_walk::walker::Walker;
use std::alloc::Global;
use std::process::Abort;

/// Asserts what was answered.
pub fn is(rt: &impl Abort, found: Answer<'_>, wanted: Answer<'_>) {
    same(rt, found, wanted);
}

fn of_edge<Ix: IndexType>(
    rt: &impl Abort,
    answer: Result<EdgeIndex<Ix>, EdgeError<u32>>,
) -> Answer<'static> {
    match answer {
        Ok(e) => Answer::Edge(e.index()),
        Err(error) => of_error(rt, error),
    }
}

fn of_error(rt: &impl Abort, error: EdgeError<u32>) -> Answer<'static> {
    match error {
        EdgeError::WouldCycle(WouldCycle(weight)) => Answer::Cycle(weight),
        EdgeError::BadEndpoint(weight) => Answer::NoEnd(weight),
        EdgeError::Full(weight) => Answer::NoIndex(weight),
        _ => panic!(rt; "there is memory"),
    }
}

fn of_weight(weight: Option<u32>) -> Answer<'static> {
    match weight {
        Some(weight) => Answer::Weight(weight),
        None => Answer::Nothing,
    }
}

/// Adds a node.
pub fn node_added<Ix: IndexType, S: Store<Ix, NodeWeight = u32, EdgeWeight = u32>>(
    rt: &impl Abort,
    dag: &mut Acyclic<u32, u32, Ix, S>,
    weight: u32,
) -> Answer<'static> {
    assert!(rt; dag.can_add_node());
    Answer::Node(made(rt, dag.add_node(weight)).index())
}

/// Adds an edge if it closes no cycle.
pub fn edge_added<Ix: IndexType, S: Store<Ix, NodeWeight = u32, EdgeWeight = u32>>(
    rt: &impl Abort,
    dag: &mut Acyclic<u32, u32, Ix, S>,
    ends: (usize, usize),
    weight: u32,
) -> Answer<'static> {
    let (a, b) = (node(rt, ends.0), node(rt, ends.1));
    assert!(rt; dag.contains_node(a));
    assert!(rt; dag.contains_node(b));
    assert!(rt; dag.can_add_edge());
    of_edge(rt, dag.add_edge(a, b, weight))
}

fn edge_updated<Ix: IndexType, S: Store<Ix, NodeWeight = u32, EdgeWeight = u32>>(
    rt: &impl Abort,
    dag: &mut Acyclic<u32, u32, Ix, S>,
    ends: (usize, usize),
    weight: u32,
) -> Answer<'static> {
    let (a, b) = (node(rt, ends.0), node(rt, ends.1));
    assert!(rt; dag.contains_node(a));
    assert!(rt; dag.contains_node(b));
    if dag.find_edge(a, b).is_some() {
        return of_edge(rt, dag.update_edge(a, b, weight));
    }
    assert!(rt; dag.can_add_edge());
    of_edge(rt, dag.update_edge(a, b, weight))
}

fn child_added<Ix: IndexType, S: Store<Ix, NodeWeight = u32, EdgeWeight = u32>>(
    rt: &impl Abort,
    dag: &mut Acyclic<u32, u32, Ix, S>,
    parent: usize,
    weights: (u32, u32),
) -> Answer<'static> {
    let parent = node(rt, parent);
    assert!(rt; dag.contains_node(parent));
    assert!(rt; dag.can_add_edge());
    assert!(rt; dag.can_add_node());
    let (e, n) = made(rt, dag.add_child(parent, weights.0, weights.1));
    Answer::EdgeNode(e.index(), n.index())
}

fn parent_added<Ix: IndexType, S: Store<Ix, NodeWeight = u32, EdgeWeight = u32>>(
    rt: &impl Abort,
    dag: &mut Acyclic<u32, u32, Ix, S>,
    child: usize,
    weights: (u32, u32),
) -> Answer<'static> {
    let child = node(rt, child);
    assert!(rt; dag.contains_node(child));
    assert!(rt; dag.can_add_edge());
    assert!(rt; dag.can_add_node());
    let (e, n) = made(rt, dag.add_parent(child, weights.0, weights.1));
    Answer::EdgeNode(e.index(), n.index())
}

/// These edges in a `Vec`.
pub fn items<Ix: IndexType>(
    rt: &impl Abort,
    alloc: Global,
    edges: &[(usize, usize, u32)],
) -> Vec<(NodeIndex<Ix>, NodeIndex<Ix>, u32)> {
    let mut items = Vec::new(alloc);
    for (a, b, weight) in edges {
        made(rt, items.push((node(rt, *a), node(rt, *b), *weight)));
    }
    items
}

fn all_added<Ix: IndexType, S: Store<Ix, NodeWeight = u32, EdgeWeight = u32>>(
    rt: &impl Abort,
    alloc: Global,
    dag: &mut Acyclic<u32, u32, Ix, S>,
    edges: &[(usize, usize, u32)],
    wanted: Answer<'_>,
) {
    match dag.add_edges(items(rt, alloc, edges)) {
        Ok(added) => {
            same(rt, added.size_hint(), (edges.len(), Some(edges.len())));
            let mut indices = Vec::new(alloc);
            for e in added {
                made(rt, indices.push(e.index()));
            }
            is(rt, Answer::Edges(indices.as_slice()), wanted);
        }
        Err(EdgesError::WouldCycle(WouldCycle(back))) => {
            is(rt, Answer::CycleAll(back.as_slice()), wanted);
        }
        Err(EdgesError::BadEndpoint { last, before }) => {
            is(rt, Answer::NoEndAt(last, before.as_slice()), wanted);
        }
        Err(EdgesError::Full { last, before }) => {
            is(rt, Answer::NoIndexAt(last, before.as_slice()), wanted);
        }
        Err(EdgesError::Memory { .. }) => panic!(rt; "there is memory"),
    }
}

fn extended<Ix: IndexType, S: Store<Ix, NodeWeight = u32, EdgeWeight = u32>>(
    rt: &impl Abort,
    alloc: Global,
    dag: &mut Acyclic<u32, u32, Ix, S>,
    edges: &[(usize, usize, u32)],
) -> Answer<'static> {
    match dag.extend_with_edges(items(rt, alloc, edges)) {
        Ok(()) => Answer::Done,
        Err(error) => of_error(rt, error),
    }
}

fn stored<Ix: IndexType, S: Store<Ix, NodeWeight = u32, EdgeWeight = u32>>(
    rt: &impl Abort,
    dag: &Acyclic<u32, u32, Ix, S>,
    e: usize,
) -> Answer<'static> {
    let e = edge(rt, e);
    let Some((a, b)) = dag.edge_endpoints(e) else {
        holds(rt, dag.edge_weight(e).is_none());
        return Answer::Nothing;
    };
    match dag.edge_weight(e).copied() {
        Some(weight) => Answer::Stored(a.index(), b.index(), weight),
        None => Answer::Nothing,
    }
}

/// The edges and nodes of a walk over the children of a node.
pub fn walk<Ix: IndexType, S: Store<Ix, NodeWeight = u32, EdgeWeight = u32>>(
    rt: &impl Abort,
    alloc: Global,
    dag: &Acyclic<u32, u32, Ix, S>,
    n: usize,
) -> Vec<(usize, usize)> {
    let mut walk = Vec::new(alloc);
    for (e, child) in dag.children(node(rt, n)).iter(dag) {
        made(rt, walk.push((e.index(), child.index())));
    }
    walk
}

// Asserts which edges and nodes a walk over the children of a node yields.
fn is_walk_of_children<Ix: IndexType, S: Store<Ix, NodeWeight = u32, EdgeWeight = u32>>(
    rt: &impl Abort,
    alloc: Global,
    dag: &Acyclic<u32, u32, Ix, S>,
    n: usize,
    wanted: Answer<'_>,
) {
    let walk = walk(rt, alloc, dag, n);
    is(rt, Answer::Walk(walk.as_slice()), wanted);
}

fn is_walk_of_parents<Ix: IndexType, S: Store<Ix, NodeWeight = u32, EdgeWeight = u32>>(
    rt: &impl Abort,
    alloc: Global,
    dag: &Acyclic<u32, u32, Ix, S>,
    n: usize,
    wanted: Answer<'_>,
) {
    let mut walk = Vec::new(alloc);
    for (e, parent) in dag.parents(node(rt, n)).iter(dag) {
        made(rt, walk.push((e.index(), parent.index())));
    }
    is(rt, Answer::Walk(walk.as_slice()), wanted);
}

fn are_connecting<Ix: IndexType, S: Store<Ix, NodeWeight = u32, EdgeWeight = u32>>(
    rt: &impl Abort,
    alloc: Global,
    dag: &Acyclic<u32, u32, Ix, S>,
    ends: (usize, usize),
    wanted: Answer<'_>,
) {
    let mut edges = Vec::new(alloc);
    for edge in dag.edges_connecting(node(rt, ends.0), node(rt, ends.1)) {
        same(rt, dag.edge_weight(edge.id()), Some(edge.weight()));
        same(rt, edge.source().index(), ends.0);
        made(rt, edges.push((edge.id().index(), edge.target().index())));
    }
    is(rt, Answer::Walk(edges.as_slice()), wanted);
}

fn is_ordered<Ix: IndexType, S: Store<Ix, NodeWeight = u32, EdgeWeight = u32>>(
    rt: &impl Abort,
    alloc: Global,
    dag: &Acyclic<u32, u32, Ix, S>,
    wanted: Answer<'_>,
) {
    let mut nodes = Vec::new(alloc);
    for n in dag.topological_order() {
        made(rt, nodes.push(n.index()));
    }
    is(rt, Answer::Nodes(nodes.as_slice()), wanted);
}

fn are_external<Ix: IndexType, S: Store<Ix, NodeWeight = u32, EdgeWeight = u32>>(
    rt: &impl Abort,
    alloc: Global,
    dag: &Acyclic<u32, u32, Ix, S>,
    dir: Direction,
    wanted: Answer<'_>,
) {
    let mut nodes = Vec::new(alloc);
    for n in dag.externals(dir) {
        made(rt, nodes.push(n.index()));
    }
    is(rt, Answer::Nodes(nodes.as_slice()), wanted);
}

fn node_lent<Ix: IndexType, S: Store<Ix, NodeWeight = u32, EdgeWeight = u32>>(
    rt: &impl Abort,
    dag: &mut Acyclic<u32, u32, Ix, S>,
    n: usize,
    written: u32,
) -> Answer<'static> {
    match dag.node_weight_mut(node(rt, n)) {
        Some(weight) => {
            *weight = written;
            Answer::Done
        }
        None => Answer::Nothing,
    }
}

fn edge_lent<Ix: IndexType, S: Store<Ix, NodeWeight = u32, EdgeWeight = u32>>(
    rt: &impl Abort,
    dag: &mut Acyclic<u32, u32, Ix, S>,
    e: usize,
    written: u32,
) -> Answer<'static> {
    match dag.edge_weight_mut(edge(rt, e)) {
        Some(weight) => {
            *weight = written;
            Answer::Done
        }
        None => Answer::Nothing,
    }
}

fn node_indexed<Ix: IndexType, S: Store<Ix, NodeWeight = u32, EdgeWeight = u32>>(
    rt: &impl Abort,
    dag: &mut Acyclic<u32, u32, Ix, S>,
    n: usize,
    written: u32,
) -> Answer<'static> {
    let n = node(rt, n);
    assert!(rt; dag.contains_node(n));
    dag[n] = written;
    assert!(rt; dag.contains_node(n));
    Answer::Weight(dag[n])
}

fn edge_indexed<Ix: IndexType, S: Store<Ix, NodeWeight = u32, EdgeWeight = u32>>(
    rt: &impl Abort,
    dag: &mut Acyclic<u32, u32, Ix, S>,
    e: usize,
    written: u32,
) -> Answer<'static> {
    let e = edge(rt, e);
    assert!(rt; dag.edge_weight(e).is_some());
    dag[e] = written;
    assert!(rt; dag.edge_weight(e).is_some());
    Answer::Weight(dag[e])
}

// The answer of a call that writes a weight.
fn write<Ix: IndexType, S: Store<Ix, NodeWeight = u32, EdgeWeight = u32>>(
    rt: &impl Abort,
    dag: &mut Acyclic<u32, u32, Ix, S>,
    call: Call<'_>,
) -> Answer<'static> {
    match call {
        Call::LendNode(n, weight) => node_lent(rt, dag, n, weight),
        Call::LendEdge(e, weight) => edge_lent(rt, dag, e, weight),
        Call::IndexNode(n, weight) => node_indexed(rt, dag, n, weight),
        Call::IndexEdge(e, weight) => edge_indexed(rt, dag, e, weight),
        _ => ask(rt, dag, call),
    }
}

// The answer of a call that adds one thing, or removes some.
fn change<Ix: IndexType, S: Store<Ix, NodeWeight = u32, EdgeWeight = u32>>(
    rt: &impl Abort,
    dag: &mut Acyclic<u32, u32, Ix, S>,
    call: Call<'_>,
) -> Answer<'static> {
    match call {
        Call::Node(weight) => node_added(rt, dag, weight),
        Call::Edge(a, b, weight) => edge_added(rt, dag, (a, b), weight),
        Call::Update(a, b, weight) => edge_updated(rt, dag, (a, b), weight),
        Call::Child(n, edge, weight) => child_added(rt, dag, n, (edge, weight)),
        Call::Parent(n, edge, weight) => parent_added(rt, dag, n, (edge, weight)),
        Call::RemoveNode(n) => of_weight(dag.remove_node(node(rt, n))),
        Call::RemoveEdge(e) => of_weight(dag.remove_edge(edge(rt, e))),
        Call::ClearEdges => {
            dag.clear_edges();
            Answer::Done
        }
        Call::Clear => {
            dag.clear();
            Answer::Done
        }
        _ => write(rt, dag, call),
    }
}

// The answer of a call that changes nothing.
fn ask<Ix: IndexType, S: Store<Ix, NodeWeight = u32, EdgeWeight = u32>>(
    rt: &impl Abort,
    dag: &Acyclic<u32, u32, Ix, S>,
    call: Call<'_>,
) -> Answer<'static> {
    match call {
        Call::Counts => Answer::Counts(dag.node_count(), dag.edge_count()),
        Call::Bounds => Answer::Counts(dag.node_bound(), dag.graph().edge_bound()),
        Call::Weight(n) => of_weight(dag.node_weight(node(rt, n)).copied()),
        Call::Stored(e) => stored(rt, dag, e),
        Call::Find(a, b) => match dag.find_edge(node(rt, a), node(rt, b)) {
            Some(e) => Answer::Edge(e.index()),
            None => Answer::Nothing,
        },
        _ => panic!(rt; "there is no such call"),
    }
}

/// Makes one call, and asserts that it has this answer.
pub fn play_row<Ix: IndexType, S: Store<Ix, NodeWeight = u32, EdgeWeight = u32>>(
    rt: &impl Abort,
    alloc: Global,
    dag: &mut Acyclic<u32, u32, Ix, S>,
    call: Call<'_>,
    wanted: Answer<'_>,
) {
    match call {
        Call::Edges(edges) => all_added(rt, alloc, dag, edges, wanted),
        Call::Children(n) => is_walk_of_children(rt, alloc, dag, n, wanted),
        Call::Parents(n) => is_walk_of_parents(rt, alloc, dag, n, wanted),
        Call::Connecting(a, b) => are_connecting(rt, alloc, dag, (a, b), wanted),
        Call::Externals(dir) => are_external(rt, alloc, dag, dir, wanted),
        Call::Order => is_ordered(rt, alloc, dag, wanted),
        Call::Ask(question) => ask_of_paths(rt, alloc, dag, question, wanted),
        Call::SetParents(n, parents) => set_parents(rt, alloc, dag, n, parents, wanted),
        Call::LackSome(parents) => is(rt, lack_some(rt, alloc, dag, parents), wanted),
        _ => is(rt, change_many(rt, alloc, dag, call), wanted),
    }
}

// Makes the call of a line, and asserts that it has this answer.
fn play_line<Ix: IndexType, S: Store<Ix, NodeWeight = u32, EdgeWeight = u32>>(
    rt: &impl Abort,
    alloc: Global,
    dag: &mut Acyclic<u32, u32, Ix, S>,
    line: &str,
) {
    let (call, wanted) = sides(rt, alloc, line);
    play_row(rt, alloc, dag, call_of(rt, &call), answer_of(rt, &wanted));
}

/// Makes the calls of a script, and asserts that each has its answer.
pub fn play<Ix: IndexType, S: Store<Ix, NodeWeight = u32, EdgeWeight = u32>>(
    rt: &impl Abort,
    alloc: Global,
    dag: &mut Acyclic<u32, u32, Ix, S>,
    script: &str,
) {
    for line in script.lines() {
        if is_row(line) {
            play_line(rt, alloc, dag, line);
        }
    }
}

/// What is done with a dag. Each kind is named in one function, [`compact`] or [`stable`], since a
/// call at a kind costs a proof much more than a call at any dag.
#[derive(Clone, Copy)]
pub enum Scene<'a> {
    /// A table is played.
    Rows(&'a str),
    /// Two tables are played, one after the other.
    Twice(&'a str, &'a str),
    /// A dag is made of edges, whose weights are 0, with this answer, and a table is played over
    /// it.
    OfPairs(&'a [(usize, usize)], Answer<'a>, &'a str),
    /// A dag is made of elements, with this answer, and a table is played over it.
    OfParts(&'a [Part], Answer<'a>, &'a str),
    /// A long series comes back, and is added.
    LongSeries,
    /// A long series is added to a dag with vacant slots.
    RoundVacantSlots,
    /// The edges of a sorted list are added one by one, and all at once.
    SortedList,
    /// A series has items at fault.
    Fault,
    /// The order has an exact length.
    Length,
    /// The order is read from its end.
    Backwards,
    /// A search for cycles along a path of as many nodes as there can be.
    LongChain,
    /// A search for cycles in a graph with many edges.
    DenseGraph,
    /// A chain of diamonds is reduced.
    Diamonds,
}

// Acts with a dag, which has nothing yet.
fn show<Ix: IndexType, S: Store<Ix, NodeWeight = u32, EdgeWeight = u32>>(
    rt: &impl Abort,
    alloc: Global,
    dag: &mut Acyclic<u32, u32, Ix, S>,
    scene: Scene<'_>,
) {
    match scene {
        Scene::Rows(rows) => play(rt, alloc, dag, rows),
        Scene::Twice(first, second) => {
            play(rt, alloc, dag, first);
            play(rt, alloc, dag, second);
        }
        Scene::OfPairs(pairs, wanted, rows) => {
            of_pairs::<Ix, S>(rt, alloc, pairs, wanted, rows);
        }
        Scene::OfParts(parts, wanted, rows) => {
            of_parts::<Ix, S>(rt, alloc, parts, wanted, rows);
        }
        _ => show_much(rt, alloc, dag, scene),
    }
}

// Acts with many nodes or edges.
fn show_much<Ix: IndexType, S: Store<Ix, NodeWeight = u32, EdgeWeight = u32>>(
    rt: &impl Abort,
    alloc: Global,
    dag: &mut Acyclic<u32, u32, Ix, S>,
    scene: Scene<'_>,
) {
    match scene {
        Scene::LongSeries => sort_long_series(rt, alloc, dag),
        Scene::RoundVacantSlots => sort_round_vacant_slots(rt, alloc, dag),
        Scene::SortedList => add_sorted_list(rt, alloc, dag),
        Scene::Fault => end_at_a_fault(rt, alloc, dag),
        Scene::Length => tell_length(rt, dag),
        Scene::Backwards => read_backwards(rt, dag),
        Scene::LongChain => search_long_chain(rt, dag),
        Scene::DenseGraph => search_dense_graph(rt, dag),
        Scene::Diamonds => reduce_diamonds(rt, alloc, dag),
        _ => panic!(rt; "there is no such scene"),
    }
}

// Acts with a dag over such a store.
fn act<Ix: IndexType, S: Store<Ix, NodeWeight = u32, EdgeWeight = u32>>(
    rt: &impl Abort,
    alloc: Global,
    scene: Scene<'_>,
) {
    let mut dag: Acyclic<u32, u32, Ix, S> = Acyclic::new(alloc);
    show(rt, alloc, &mut dag, scene);
}

/// Acts with a compact dag that has indices of this type.
pub fn compact_by<Ix: IndexType>(rt: &impl Abort, alloc: Global, scene: Scene<'_>) {
    act::<Ix, DiGraph<u32, u32, Ix>>(rt, alloc, scene);
}

/// Acts with a compact dag that has few indices.
pub fn compact(rt: &impl Abort, alloc: Global, scene: Scene<'_>) {
    compact_by::<u8>(rt, alloc, scene);
}

/// Acts with a stable dag that has few indices.
pub fn stable(rt: &impl Abort, alloc: Global, scene: Scene<'_>) {
    act::<u8, StableDiGraph<u32, u32, u8>>(rt, alloc, scene);
}

/// Acts with a dag of each kind.
pub fn both(rt: &impl Abort, alloc: Global, scene: Scene<'_>) {
    compact(rt, alloc, scene);
    stable(rt, alloc, scene);
}

/// Adds `count` nodes, whose weights are their indices.
pub fn fill_nodes<Ix: IndexType, S: Store<Ix, NodeWeight = u32, EdgeWeight = u32>>(
    rt: &impl Abort,
    dag: &mut Acyclic<u32, u32, Ix, S>,
    count: usize,
) {
    let mut weight = 0u32;
    for i in 0..count {
        is(rt, node_added(rt, dag, weight), Answer::Node(i));
        weight = weight.wrapping_add(1);
    }
}

// Adds edges of weight 1 until the dag has 255.
fn fill_edges<Ix: IndexType, S: Store<Ix, NodeWeight = u32, EdgeWeight = u32>>(
    rt: &impl Abort,
    dag: &mut Acyclic<u32, u32, Ix, S>,
    ends: (usize, usize),
) {
    for i in dag.edge_count()..255 {
        is(rt, edge_added(rt, dag, ends, 1), Answer::Edge(i));
    }
}

fn reduce<Ix: IndexType, S: Store<Ix, NodeWeight = u32, EdgeWeight = u32>>(
    rt: &impl Abort,
    alloc: Global,
    dag: &mut Acyclic<u32, u32, Ix, S>,
    roots: &[usize],
) {
    let mut first = Vec::new(alloc);
    for root in roots {
        made(rt, first.push(node(rt, *root)));
    }
    made(rt, dag.transitive_reduce(first));
}

// The answer of a call that adds many things, or removes them.
fn change_many<Ix: IndexType, S: Store<Ix, NodeWeight = u32, EdgeWeight = u32>>(
    rt: &impl Abort,
    alloc: Global,
    dag: &mut Acyclic<u32, u32, Ix, S>,
    call: Call<'_>,
) -> Answer<'static> {
    match call {
        Call::Extend(edges) => extended(rt, alloc, dag, edges),
        Call::Nodes(count) => {
            fill_nodes(rt, dag, count);
            Answer::Done
        }
        Call::Fill(a, b) => {
            fill_edges(rt, dag, (a, b));
            Answer::Done
        }
        Call::Reduce(roots) => {
            reduce(rt, alloc, dag, roots);
            Answer::Done
        }
        _ => change(rt, dag, call),
    }
}

// These ends in a `Vec`.
fn ends<Ix: IndexType>(
    rt: &impl Abort,
    alloc: Global,
    pairs: &[(usize, usize)],
) -> Vec<(NodeIndex<Ix>, NodeIndex<Ix>)> {
    let mut ends = Vec::new(alloc);
    for (a, b) in pairs {
        made(rt, ends.push((node(rt, *a), node(rt, *b))));
    }
    ends
}

// Makes a dag of edges.
fn of_pairs<Ix: IndexType, S: Store<Ix, NodeWeight = u32, EdgeWeight = u32>>(
    rt: &impl Abort,
    alloc: Global,
    pairs: &[(usize, usize)],
    wanted: Answer<'_>,
    rows: &str,
) {
    match Acyclic::<u32, u32, Ix, S>::from_edges(alloc, ends(rt, alloc, pairs)) {
        Ok(mut dag) => {
            is(rt, Answer::Done, wanted);
            play(rt, alloc, &mut dag, rows);
        }
        Err(error) => is(rt, of_error(rt, error), wanted),
    }
}

/// A node of a weight, or an edge of two positions and a weight.
#[derive(Clone, Copy)]
pub enum Part {
    Node(u32),
    Edge(usize, usize, u32),
}

fn elements(rt: &impl Abort, alloc: Global, parts: &[Part]) -> Vec<Element<u32, u32>> {
    let mut elements = Vec::new(alloc);
    for part in parts {
        let element = match *part {
            Part::Node(weight) => Element::Node { weight },
            Part::Edge(source, target, weight) => Element::Edge {
                source,
                target,
                weight,
            },
        };
        made(rt, elements.push(element));
    }
    elements
}

// Makes a dag of elements.
fn of_parts<Ix: IndexType, S: Store<Ix, NodeWeight = u32, EdgeWeight = u32>>(
    rt: &impl Abort,
    alloc: Global,
    parts: &[Part],
    wanted: Answer<'_>,
    rows: &str,
) {
    match Acyclic::<u32, u32, Ix, S>::from_elements(alloc, elements(rt, alloc, parts)) {
        Ok(mut dag) => {
            is(rt, Answer::Done, wanted);
            play(rt, alloc, &mut dag, rows);
        }
        Err(ElementError::Edge(error)) => is(rt, of_error(rt, error), wanted),
        Err(ElementError::Node(NodeError::Full(weight))) => {
            is(rt, Answer::NoNodeIndex(weight), wanted);
        }
        Err(ElementError::Node(_)) => panic!(rt; "there is memory"),
    }
}
