//! What calls answer.
use crate::calls::Line;

/// An event of work: a node was handed out, or is done.
#[derive(Clone, Copy, Debug, PartialEq)]
pub enum Event {
    Out(usize),
    Done(usize),
}

/// The answer of a call.
#[derive(Debug, Drop, PartialEq)]
pub enum Answer {
    Done,
    // The call was not made: a node that it requires does not exist.
    Missing,
    // The call was not made: no index is left.
    NoIndex,
    Node(usize),
    Edge(usize),
    EdgeAndNode(usize, usize),
    Found(Option<usize>),
    Ends(Option<(usize, usize)>),
    Weight(Option<u64>),
    Truth(bool),
    Indices(Vec<usize>),
    Path(Option<Vec<usize>>),
    // Edges with their far ends.
    Steps(Vec<(usize, usize)>),
    // Edges with their indices.
    Edges(Vec<(usize, Line)>),
    Weights(Vec<u64>, Vec<u64>),
    Pairs(Vec<(usize, usize)>),
    Text(String),
    // Refusals, with the weights that the error returns.
    WouldCycle(Vec<u64>),
    BadEndpoint(Vec<u64>),
    Full(Vec<u64>),
    Events(Vec<Event>),
    Times(Times),
    // Which worker does each node, and when.
    Assigned {
        workers: Vec<usize>,
        starts: Vec<u64>,
        makespan: u64,
    },
    Stages(Vec<Vec<usize>>, Vec<usize>),
    Overflow,
    // An error that the call should not return.
    Error(String),
}

/// A schedule.
#[derive(Debug, Drop, PartialEq)]
pub struct Times {
    pub starts: Vec<u64>,
    pub finishes: Vec<u64>,
    pub slack: Vec<u64>,
    pub critical: Vec<usize>,
    pub makespan: u64,
}
