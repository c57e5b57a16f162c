//! The calls of a history, with their arguments. Nodes and edges are named by plain numbers.
use crate::random::mixed;
use std::fmt;

/// An edge: its parent, its child and its weight.
pub type Line = (usize, usize, u64);

/// A direction along the edges.
#[derive(Clone, Copy, Debug)]
pub enum Way {
    Down,
    Up,
}

/// A call that changes one node or one edge, or removes all.
#[derive(Debug, Drop)]
pub enum Change {
    AddNode(u64),
    AddEdge(usize, usize, u64),
    UpdateEdge(usize, usize, u64),
    // The weight of the edge comes before that of the node.
    AddChild(usize, u64, u64),
    AddParent(usize, u64, u64),
    RemoveNode(usize),
    RemoveEdge(usize),
    WriteNode(usize, u64),
    WriteEdge(usize, u64),
    ClearEdges,
    Clear,
}

/// An element of `from_elements`.
#[derive(Clone, Copy, Debug)]
pub enum Part {
    Node(u64),
    Edge(usize, usize, u64),
}

/// A call that changes many nodes or edges.
#[derive(Debug, Drop)]
pub enum Batch {
    AddEdges(Vec<Line>),
    ExtendWithEdges(Vec<Line>),
    FromEdges(Vec<Line>),
    FromElements(Vec<Part>),
    SetParents(usize, Vec<(usize, u64)>),
    // `keeps` with this number chooses what stays.
    RetainNodes(u64),
    RetainEdges(u64),
    TransitiveReduce(Vec<usize>),
    TransitiveReduceAll,
}

/// A call that writes the whole dag, or makes another one of it, which replaces it.
#[derive(Debug, Drop)]
pub enum Whole {
    TryClone,
    // `changed` with this number makes the new weights.
    Map(u64),
    // The same in place.
    Rewrite(u64),
    // `inherited` with this number makes the new weights of the nodes, parents first.
    Recompute(u64),
    // `keeps` and `changed` with this number.
    FilterMap(u64),
    // The nodes and edges are added to a compact dag, which is made one of this kind.
    FromDag,
    WriteDocument,
    // The document of the dag is read.
    Restore,
    // The document of the model is read, with lists that are permuted by this number.
    ReadDocument(u64),
    // The document of the model is read, without lists and with this edge reversed.
    ReadSlots(usize),
}

/// A question about nodes and edges.
#[derive(Debug, Drop)]
pub enum Query {
    FindEdge(usize, usize),
    ContainsEdge(usize, usize),
    EdgesConnecting(usize, usize),
    EdgeEndpoints(usize),
    Children(usize),
    Parents(usize),
    Neighbors(usize, Way),
    Edges(usize, Way),
    Externals(Way),
    Nodes,
    AllEdges,
    Weights,
}

/// A question about paths.
#[derive(Debug, Drop)]
pub enum Search {
    Reaches(usize, usize),
    WouldCloseCycle(usize, usize),
    Path(usize, usize),
    PathEdges(usize, usize),
    StandsBefore(usize, usize),
    TransitiveClosure,
    // Below some roots, by each of the three searches of the library.
    RedundantEdges(Vec<usize>),
    // With a part of the dag, which `keeps` with this number chooses.
    SameReachability(u64),
}

/// A question whose answer is a list of nodes.
#[derive(Debug, Drop)]
pub enum Walk {
    TopologicalOrder,
    Descendants(Vec<usize>),
    Ancestors(Vec<usize>),
    Affected(Vec<usize>),
    Bfs(usize, Way),
    Dfs(usize, Way),
    DfsPostOrder(usize, Way),
}

/// A question about the nodes as work.
#[derive(Debug, Drop)]
pub enum Work {
    // This number chooses which of the nodes that are out is done next.
    Ready(u64),
    Schedule,
    ScheduleOn(usize),
    // `key_of` with this number makes the keys.
    OrderBy(u64),
    Plan,
}

/// A call of a history.
#[derive(Drop)]
pub enum Call {
    Change(Change),
    Batch(Batch),
    Whole(Whole),
    Query(Query),
    Search(Search),
    Walk(Walk),
    Work(Work),
}

impl fmt::Display for Call {
    fn fmt<W: fmt::Write>(&self, f: &mut fmt::Formatter<W>) -> fmt::Result {
        match self {
            Call::Change(change) => write!(f, "{change:?}"),
            Call::Batch(batch) => write!(f, "{batch:?}"),
            Call::Whole(whole) => write!(f, "{whole:?}"),
            Call::Query(query) => write!(f, "{query:?}"),
            Call::Search(search) => write!(f, "{search:?}"),
            Call::Walk(walk) => write!(f, "{walk:?}"),
            Call::Work(work) => write!(f, "{work:?}"),
        }
    }
}

/// Whether a node or an edge with this index and this weight is kept. Three in four are.
pub fn keeps(index: usize, weight: u64, salt: u64) -> bool {
    mixed(index as u64, weight, salt) % 4 != 0
}

/// Another weight for a node or an edge with this index and this weight.
pub fn changed(index: usize, weight: u64, salt: u64) -> u64 {
    mixed(index as u64, weight, salt) % 1000
}

/// Another weight for a node with this index, by the sum of its parents' weights.
pub fn inherited(index: usize, parents: u64, salt: u64) -> u64 {
    mixed(index as u64, parents, salt) % 1000
}

/// A key of a node with this index and this weight, one of few, so that some nodes have equal keys.
pub fn key_of(index: usize, weight: u64, salt: u64) -> u64 {
    mixed(index as u64, weight, salt) % 8
}
