//! Commands and their replies as rows of a table, which are carried out and compared in one loop.
//!
//! A test is proved too, and a call costs it more than a row, so what a row says is made a command
//! and a reply here alone.
use super::asking::go_along;
use super::filling::{full_of_edges, full_of_nodes};
use super::planning::plans;
use super::running::run_all;
use daggy_base::command::{Back, Command, Reply};
use daggy_base::index::{EdgeIndex, NodeIndex};
use daggy_base::kind::Kind;
use daggy_dag::acyclic::{Dag, StableDag};
use daggy_run::guarded::GuardedDag;
use daggy_run::step::perform;
use std::alloc::Global;
use std::fmt::Debug;
use std::process::Abort;

pub type Asked = Command<u32, u32, u8>;

pub type Said = Reply<u32, u32, u8>;

/// A row of a table.
pub type Row<'a> = (Ask<'a>, Get<'a>);

/// A command, in a row of a table.
#[derive(Clone, Copy)]
pub enum Ask<'a> {
    Node(u32),
    Edge(u8, u8, u32),
    Update(u8, u8, u32),
    Child(u8, u32, u32),
    Parent(u8, u32, u32),
    Edges(&'a [(u8, u8, u32)]),
    Find(u8, u8),
    Ends(u8),
    RemoveNode(u8),
    RemoveEdge(u8),
    Children(u8),
    Parents(u8),
    ClearEdges,
    Clear,
    Reduce(&'a [u8]),
}

/// A reply, in a row of a table.
#[derive(Clone, Copy)]
pub enum Get<'a> {
    Node(u8),
    Edge(u8),
    EdgeNode(u8, u8),
    Edges(&'a [u8]),
    Found(u8),
    NotFound,
    Ends(u8, u8),
    NoEnds,
    NodeGone(u32),
    NoNode,
    EdgeGone(u32),
    NoEdge,
    Walk(&'a [(u8, u8)]),
    Done,
    Missing(Weights<'a>),
    Full(Weights<'a>),
    Cycle(u32),
    CycleAll(&'a [u32]),
}

/// The weights that come back.
#[derive(Clone, Copy)]
pub enum Weights<'a> {
    Node(u32),
    Edge(u32),
    EdgeNode(u32, u32),
    Edges(u32, &'a [u32]),
}

/// The node of this index.
pub fn n(index: u8) -> NodeIndex<u8> {
    NodeIndex::new(usize::from(index))
}

/// The edge of this index.
pub fn e(index: u8) -> EdgeIndex<u8> {
    EdgeIndex::new(usize::from(index))
}

/// Asserts that what was found is what is wanted.
pub fn same<T: PartialEq + Debug + Drop>(rt: &impl Abort, found: T, wanted: T) {
    assert_eq!(rt; found, wanted);
}

/// Gives what a call that has memory gave.
pub fn made<T: Drop, E: Drop>(rt: &impl Abort, answer: Result<T, E>) -> T {
    match answer {
        Ok(x) => x,
        Err(_) => panic!(rt; "the call was refused"),
    }
}

fn numbers(rt: &impl Abort, alloc: Global, row: &[u32]) -> Vec<u32> {
    let mut numbers = Vec::new(alloc);
    for weight in row {
        made(rt, numbers.push(*weight));
    }
    numbers
}

/// These nodes in a `Vec`.
pub fn nodes(rt: &impl Abort, alloc: Global, row: &[u8]) -> Vec<NodeIndex<u8>> {
    let mut nodes = Vec::new(alloc);
    for index in row {
        made(rt, nodes.push(n(*index)));
    }
    nodes
}

fn indices(rt: &impl Abort, alloc: Global, row: &[u8]) -> Vec<EdgeIndex<u8>> {
    let mut edges = Vec::new(alloc);
    for index in row {
        made(rt, edges.push(e(*index)));
    }
    edges
}

fn walk(rt: &impl Abort, alloc: Global, row: &[(u8, u8)]) -> Vec<(EdgeIndex<u8>, NodeIndex<u8>)> {
    let mut walk = Vec::new(alloc);
    for (edge, node) in row {
        made(rt, walk.push((e(*edge), n(*node))));
    }
    walk
}

fn edges(rt: &impl Abort, alloc: Global, row: &[(u8, u8, u32)]) -> Asked {
    let mut edges = Vec::new(alloc);
    for (a, b, weight) in row {
        made(rt, edges.push((n(*a), n(*b), *weight)));
    }
    Command::Edges(edges)
}

/// The command of a row.
pub fn command(rt: &impl Abort, alloc: Global, row: Ask<'_>) -> Asked {
    match row {
        Ask::Node(weight) => Command::Node(weight),
        Ask::Edge(a, b, weight) => Command::Edge(n(a), n(b), weight),
        Ask::Update(a, b, weight) => Command::Update(n(a), n(b), weight),
        Ask::Child(p, edge, node) => Command::Child(n(p), edge, node),
        Ask::Parent(c, edge, node) => Command::Parent(n(c), edge, node),
        Ask::Edges(row) => edges(rt, alloc, row),
        Ask::Find(a, b) => Command::Find(n(a), n(b)),
        Ask::Ends(edge) => Command::Ends(e(edge)),
        Ask::RemoveNode(node) => Command::RemoveNode(n(node)),
        Ask::RemoveEdge(edge) => Command::RemoveEdge(e(edge)),
        Ask::Children(node) => Command::Children(n(node)),
        Ask::Parents(node) => Command::Parents(n(node)),
        Ask::ClearEdges => Command::ClearEdges,
        Ask::Clear => Command::Clear,
        Ask::Reduce(roots) => Command::Reduce(nodes(rt, alloc, roots)),
    }
}

fn back(rt: &impl Abort, alloc: Global, row: Weights<'_>) -> Back<u32, u32> {
    match row {
        Weights::Node(weight) => Back::Node(weight),
        Weights::Edge(weight) => Back::Edge(weight),
        Weights::EdgeNode(edge, node) => Back::EdgeNode(edge, node),
        Weights::Edges(last, before) => Back::Edges {
            last,
            before: numbers(rt, alloc, before),
        },
    }
}

/// The reply of a row.
pub fn reply(rt: &impl Abort, alloc: Global, row: Get<'_>) -> Said {
    match row {
        Get::Node(node) => Reply::Node(n(node)),
        Get::Edge(edge) => Reply::Edge(e(edge)),
        Get::EdgeNode(edge, node) => Reply::EdgeNode(e(edge), n(node)),
        Get::Edges(row) => Reply::Edges(indices(rt, alloc, row)),
        Get::Found(edge) => Reply::Found(Some(e(edge))),
        Get::NotFound => Reply::Found(None),
        Get::Ends(a, b) => Reply::Ends(Some((n(a), n(b)))),
        Get::NoEnds => Reply::Ends(None),
        Get::NodeGone(weight) => Reply::NodeGone(Some(weight)),
        Get::NoNode => Reply::NodeGone(None),
        Get::EdgeGone(weight) => Reply::EdgeGone(Some(weight)),
        Get::NoEdge => Reply::EdgeGone(None),
        Get::Walk(row) => Reply::Walk(walk(rt, alloc, row)),
        Get::Done => Reply::Done,
        Get::Missing(row) => Reply::Missing(back(rt, alloc, row)),
        Get::Full(row) => Reply::Full(back(rt, alloc, row)),
        Get::Cycle(weight) => Reply::Cycle(weight),
        Get::CycleAll(row) => Reply::CycleAll(numbers(rt, alloc, row)),
    }
}

/// Carries out the commands of a table, and asserts that each has its reply.
pub fn play<D: GuardedDag<u32, u32, u8>>(
    rt: &impl Abort,
    alloc: Global,
    dag: &mut D,
    rows: &[Row<'_>],
) {
    for (i, (asked, wanted)) in rows.iter().enumerate() {
        let said = perform(dag, command(rt, alloc, *asked));
        assert_eq!(rt; said, reply(rt, alloc, *wanted), "row {i}");
    }
}

/// Adds `count` nodes to an empty dag.
pub fn add_nodes<D: GuardedDag<u32, u32, u8>>(
    rt: &impl Abort,
    alloc: Global,
    dag: &mut D,
    count: u8,
) {
    for i in 0..count {
        play(rt, alloc, dag, &[(Ask::Node(0), Get::Node(i))]);
    }
}

/// What is done with a dag. Each kind is named in one function, [`compact`] or [`stable`], since a
/// call at a kind costs a proof much more than a call at any dag.
#[derive(Clone, Copy)]
pub enum Scene<'a> {
    /// A table is played.
    Rows(&'a [Row<'a>]),
    /// A table is played where no index is left for a node.
    FullOfNodes(&'a [Row<'a>]),
    /// A table is played where no index is left for an edge.
    FullOfEdges(&'a [Row<'a>]),
    /// The commands of a table are carried out as one list.
    List(&'a [Row<'a>]),
    /// A table is played, and the plan has these stages and this chain.
    Plan(&'a [Row<'a>], &'a [&'a [u8]], &'a [u8]),
    /// The children of a node are gone along one by one.
    Along,
    /// The kind of the dag.
    OfKind(Kind),
}

fn act<D: GuardedDag<u32, u32, u8>>(rt: &impl Abort, alloc: Global, dag: &mut D, scene: Scene<'_>) {
    match scene {
        Scene::Rows(rows) => play(rt, alloc, dag, rows),
        Scene::FullOfNodes(rows) => full_of_nodes(rt, alloc, dag, rows),
        Scene::FullOfEdges(rows) => full_of_edges(rt, alloc, dag, rows),
        Scene::List(rows) => run_all(rt, alloc, dag, rows),
        Scene::Plan(rows, stages, chain) => plans(rt, alloc, dag, rows, (stages, chain)),
        Scene::Along => go_along(rt, alloc, dag),
        Scene::OfKind(kind) => same(rt, D::KIND, kind),
    }
}

/// Acts with a compact dag.
pub fn compact(rt: &impl Abort, alloc: Global, scene: Scene<'_>) {
    let mut dag: Dag<u32, u32, u8> = Dag::new(alloc);
    act(rt, alloc, &mut dag, scene);
}

/// Acts with a stable dag.
pub fn stable(rt: &impl Abort, alloc: Global, scene: Scene<'_>) {
    let mut dag: StableDag<u32, u32, u8> = StableDag::new(alloc);
    act(rt, alloc, &mut dag, scene);
}

/// Acts with a dag of each kind.
pub fn both(rt: &impl Abort, alloc: Global, scene: Scene<'_>) {
    compact(rt, alloc, scene);
    stable(rt, alloc, scene);
}
