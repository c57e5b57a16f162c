//! Scripts: the calls of a test with their answers, one a line, as `edge 0 1 7 = edge 0`.
//!
//! After its name, a call has its indices and weights, and an answer what it holds. Commas end the
//! items of a list. A line that begins with `#` is a comment. A test that plays a script is proved
//! in less than half the time that a constant of rows takes.
use super::asking::Question;
use super::support::made;
use daggy_base::index::Direction;
use std::alloc::Global;
use std::process::Abort;

/// A call of a dag whose weights are numbers.
#[derive(Clone, Copy)]
pub enum Call<'a> {
    Node(u32),
    Edge(usize, usize, u32),
    Update(usize, usize, u32),
    Child(usize, u32, u32),
    Parent(usize, u32, u32),
    Edges(&'a [(usize, usize, u32)]),
    Extend(&'a [(usize, usize, u32)]),
    // Adds that many nodes to an empty dag. Their weights are their indices.
    Nodes(usize),
    // Adds edges of weight 1 from one node to another until no index is left.
    Fill(usize, usize),
    // Removes the redundant edges below some roots.
    Reduce(&'a [usize]),
    // Replaces the edges that enter a node.
    SetParents(usize, &'a [(usize, u32)]),
    // Whether not all of these nodes exist.
    LackSome(&'a [(usize, u32)]),
    RemoveNode(usize),
    RemoveEdge(usize),
    ClearEdges,
    Clear,
    Counts,
    // How far the indices of nodes and of edges go.
    Bounds,
    Weight(usize),
    Stored(usize),
    Find(usize, usize),
    Children(usize),
    Parents(usize),
    // The edges from one node to another.
    Connecting(usize, usize),
    Externals(Direction),
    Order,
    Ask(Question<'a>),
    // Writes a weight where it is lent, if there is such a node or edge.
    LendNode(usize, u32),
    LendEdge(usize, u32),
    // Writes and reads a weight by its index.
    IndexNode(usize, u32),
    IndexEdge(usize, u32),
}

/// What a call answers.
#[derive(Clone, Copy, Debug, PartialEq)]
pub enum Answer<'a> {
    Node(usize),
    Edge(usize),
    EdgeNode(usize, usize),
    Edges(&'a [usize]),
    Nodes(&'a [usize]),
    Walk(&'a [(usize, usize)]),
    Weight(u32),
    Stored(usize, usize, u32),
    Counts(usize, usize),
    Nothing,
    Done,
    Cycle(u32),
    NoEnd(u32),
    NoIndex(u32),
    // No index is left for a node, where an edge could be meant too.
    NoNodeIndex(u32),
    CycleAll(&'a [u32]),
    NoEndAt(u32, &'a [u32]),
    NoIndexAt(u32, &'a [u32]),
}

/// One side of a line: a name, and numbers, which are given in each form that a call or an answer
/// has them in.
#[derive(Drop)]
pub struct Side<'a> {
    name: &'a str,
    numbers: Vec<usize>,
    weights: Vec<u32>,
    // The items of two numbers.
    pairs: Vec<(usize, usize)>,
    weighted: Vec<(usize, u32)>,
    // The items of three.
    edges: Vec<(usize, usize, u32)>,
}

impl Side<'_> {
    // The number at a place, or one that no index and no weight is.
    fn at(&self, i: usize) -> usize {
        self.numbers.get(i).copied().unwrap_or(usize::MAX)
    }

    fn weight(&self, i: usize) -> u32 {
        self.weights.get(i).copied().unwrap_or(u32::MAX)
    }

    // The weights behind the first one.
    fn rest(&self) -> &[u32] {
        match self.weights.split_first() {
            Some((_, rest)) => rest,
            None => &[],
        }
    }

    fn add_item(&mut self, rt: &impl Abort, (a, b, w): (u32, Option<u32>, Option<u32>)) {
        let a = a as usize;
        match (b, w) {
            (Some(b), None) => {
                made(rt, self.pairs.push((a, b as usize)));
                made(rt, self.weighted.push((a, b)));
            }
            (Some(b), Some(w)) => made(rt, self.edges.push((a, b as usize, w))),
            _ => {}
        }
    }

    fn add(&mut self, rt: &impl Abort, item: &str) {
        let mut item_numbers = (None, None, None);
        for word in item.split_whitespace() {
            let number = number(rt, word);
            made(rt, self.numbers.push(number as usize));
            made(rt, self.weights.push(number));
            item_numbers = match item_numbers {
                (None, _, _) => (Some(number), None, None),
                (a, None, _) => (a, Some(number), None),
                (a, b, _) => (a, b, Some(number)),
            };
        }
        if let (Some(a), b, w) = item_numbers {
            self.add_item(rt, (a, b, w));
        }
    }
}

fn number(rt: &impl Abort, word: &str) -> u32 {
    match word.parse::<u32>() {
        Ok(number) => number,
        Err(_) => panic!(rt; "{word} is not a number"),
    }
}

fn read_side<'a>(rt: &impl Abort, alloc: Global, text: &'a str) -> Side<'a> {
    let (name, numbers) = text.split_once(' ').unwrap_or((text, ""));
    let mut side = Side {
        name,
        numbers: Vec::new(alloc),
        weights: Vec::new(alloc),
        pairs: Vec::new(alloc),
        weighted: Vec::new(alloc),
        edges: Vec::new(alloc),
    };
    for item in numbers.split(',') {
        side.add(rt, item);
    }
    side
}

/// Whether a line has a call and its answer.
pub fn is_row(line: &str) -> bool {
    let line = line.trim();
    !line.is_empty() && !line.starts_with('#')
}

/// The call of a line, and its answer.
pub fn sides<'a>(rt: &impl Abort, alloc: Global, line: &'a str) -> (Side<'a>, Side<'a>) {
    match line.split_once('=') {
        Some((call, answer)) => (
            read_side(rt, alloc, call.trim()),
            read_side(rt, alloc, answer.trim()),
        ),
        None => panic!(rt; "{line}: no answer"),
    }
}

/// The call that a side names.
pub fn call_of<'b>(rt: &impl Abort, side: &'b Side<'_>) -> Call<'b> {
    let (a, b) = (side.at(0), side.at(1));
    match side.name {
        "node" => Call::Node(side.weight(0)),
        "edge" => Call::Edge(a, b, side.weight(2)),
        "update" => Call::Update(a, b, side.weight(2)),
        "child" => Call::Child(a, side.weight(1), side.weight(2)),
        "parent" => Call::Parent(a, side.weight(1), side.weight(2)),
        "remove_node" => Call::RemoveNode(a),
        "remove_edge" => Call::RemoveEdge(a),
        "clear_edges" => Call::ClearEdges,
        "clear" => Call::Clear,
        "lend_node" => Call::LendNode(a, side.weight(1)),
        "lend_edge" => Call::LendEdge(a, side.weight(1)),
        "index_node" => Call::IndexNode(a, side.weight(1)),
        "index_edge" => Call::IndexEdge(a, side.weight(1)),
        _ => batch_of(rt, side),
    }
}

fn batch_of<'b>(rt: &impl Abort, side: &'b Side<'_>) -> Call<'b> {
    match side.name {
        "edges" => Call::Edges(side.edges.as_slice()),
        "extend" => Call::Extend(side.edges.as_slice()),
        "nodes" => Call::Nodes(side.at(0)),
        "fill" => Call::Fill(side.at(0), side.at(1)),
        "reduce" => Call::Reduce(side.numbers.as_slice()),
        "set_parents" => Call::SetParents(side.at(0), side.weighted.as_slice()),
        "lack_some" => Call::LackSome(side.weighted.as_slice()),
        _ => question_of(rt, side),
    }
}

fn question_of<'b>(rt: &impl Abort, side: &'b Side<'_>) -> Call<'b> {
    let (a, b) = (side.at(0), side.at(1));
    match side.name {
        "counts" => Call::Counts,
        "bounds" => Call::Bounds,
        "weight" => Call::Weight(a),
        "stored" => Call::Stored(a),
        "find" => Call::Find(a, b),
        "children" => Call::Children(a),
        "parents" => Call::Parents(a),
        "connecting" => Call::Connecting(a, b),
        "externals_incoming" => Call::Externals(Direction::Incoming),
        "externals_outgoing" => Call::Externals(Direction::Outgoing),
        "order" => Call::Order,
        _ => Call::Ask(path_question_of(rt, side)),
    }
}

fn path_question_of<'b>(rt: &impl Abort, side: &'b Side<'_>) -> Question<'b> {
    let (a, b) = (side.at(0), side.at(1));
    match side.name {
        "reaches" => Question::Reaches(a, b),
        "closes_cycle" => Question::ClosesCycle(a, b),
        "joined" => Question::Joined(a, b),
        "before" => Question::Before(a, b),
        "affected" => Question::Affected(side.numbers.as_slice()),
        "descendants" => Question::Descendants(side.numbers.as_slice()),
        "ancestors" => Question::Ancestors(side.numbers.as_slice()),
        "path" => Question::Path(a, b),
        "path_edges" => Question::PathEdges(a, b),
        name => panic!(rt; "{name}: there is no such call"),
    }
}

/// The answer that a side names.
pub fn answer_of<'b>(rt: &impl Abort, side: &'b Side<'_>) -> Answer<'b> {
    match side.name {
        "node" => Answer::Node(side.at(0)),
        "edge" => Answer::Edge(side.at(0)),
        "edge_node" => Answer::EdgeNode(side.at(0), side.at(1)),
        "edges" => Answer::Edges(side.numbers.as_slice()),
        "nodes" => Answer::Nodes(side.numbers.as_slice()),
        "walk" => Answer::Walk(side.pairs.as_slice()),
        "weight" => Answer::Weight(side.weight(0)),
        "stored" => Answer::Stored(side.at(0), side.at(1), side.weight(2)),
        "counts" => Answer::Counts(side.at(0), side.at(1)),
        "nothing" => Answer::Nothing,
        "done" => Answer::Done,
        _ => refusal_of(rt, side),
    }
}

fn refusal_of<'b>(rt: &impl Abort, side: &'b Side<'_>) -> Answer<'b> {
    match side.name {
        "cycle" => Answer::Cycle(side.weight(0)),
        "no_end" => Answer::NoEnd(side.weight(0)),
        "no_index" => Answer::NoIndex(side.weight(0)),
        "no_node_index" => Answer::NoNodeIndex(side.weight(0)),
        "cycle_all" => Answer::CycleAll(side.weights.as_slice()),
        "no_end_at" => Answer::NoEndAt(side.weight(0), side.rest()),
        "no_index_at" => Answer::NoIndexAt(side.weight(0), side.rest()),
        name => panic!(rt; "{name}: there is no such answer"),
    }
}
