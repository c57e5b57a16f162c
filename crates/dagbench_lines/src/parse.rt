//! Parsing a line.
ghost use Rattle.std.specs.Prelude.{◌≡◌, IfOk, OnErr, IsSomeAnd};
ghost use Rattle.std.specs.Option.{option_map};
ghost use Rattle.daggy_base.specs.Requests.{request_of};
ghost use Rattle.dagbench_lines.specs.Cutting.{words_of};
ghost use Rattle.dagbench_lines.specs.Saying.{asked_of};
ghost use Rattle.dagbench_lines.specs.Commands.{asked_in, asked_by_words, document_by_name, Step};
ghost use Rattle.dagbench_lines.specs.Commands.{TakesRoom, listing_by_name, single_by_name};
ghost use Rattle.dagbench_lines.specs.Commands.{if_done as if_done_of};
ghost use Rattle.dagbench_lines.specs.Commands.{weight_alone as weight_alone_of};
ghost use Rattle.dagbench_lines.specs.Commands.{index_alone as index_alone_of};
ghost use Rattle.dagbench_lines.specs.Commands.{two_indices as two_indices_of};
ghost use Rattle.dagbench_lines.specs.Commands.{ends_and_weight as ends_and_weight_of};
ghost use Rattle.dagbench_lines.specs.Commands.{index_and_weights as index_and_weights_of};

use crate::edge_list::EdgeList;
use crate::node_list::NodeList;
use crate::words::{edge, first_index, first_weight, first_word, node};
use daggy_base::command::Command;
use std::alloc::{AllocError, Global};

/// The most bytes that a command can have, not counting the newline.
pub const LONGEST_LINE: usize = 4096;

/// What a line asks for.
#[derive(Drop)]
pub enum LineRequest {
    /// A command to carry out.
    Command(Command<i64, i64, u32>),
    /// The document of the dag.
    Document,
}

/// Parses a line. Returns `None` if it is neither a command nor `json`.
///
/// Returns `AllocError` if an allocation for the list of a command fails.
#[tactic(auto, unfolding(crate::specs::Commands::asked_in))]
pub fn parse(alloc: Global, line: &[u8]) -> Result<Option<LineRequest>, AllocError>
    ensures asked { IfOk result (λ asked. option_map asked_of asked ≡ asked_in line.now) }
    ensures no_room { OnErr result (IsSomeAnd (asked_in line.now) TakesRoom) }
{
    if LONGEST_LINE < line.len() {
        return Ok(None);
    }
    by_words(alloc, line)
}

fn by_words(alloc: Global, line: &[u8]) -> Result<Option<LineRequest>, AllocError>
    ensures asked { IfOk result (λ asked.
        option_map asked_of asked ≡ asked_by_words (words_of line.now)) }
    ensures no_room { OnErr result (IsSomeAnd (asked_by_words (words_of line.now)) TakesRoom) }
{
    let Some((name, rest)) = first_word(line) else {
        return Ok(None);
    };
    if let Some(command) = single(name, rest) {
        return Ok(Some(LineRequest::Command(command)));
    }
    match listing(alloc, name, rest)? {
        Some(command) => Ok(Some(LineRequest::Command(command))),
        None => Ok(document(name, rest)),
    }
}

fn document(name: &[u8], rest: &[u8]) -> Option<LineRequest>
    ensures { option_map asked_of result ≡ document_by_name name.now (words_of rest.now) }
{
    if name == b"json".as_slice() {
        if_done(rest, LineRequest::Document)
    } else {
        None
    }
}

#[tactic(auto, unfolding(crate::specs::Commands::listing_by_name))]
fn listing(
    alloc: Global,
    name: &[u8],
    rest: &[u8],
) -> Result<Option<Command<i64, i64, u32>>, AllocError>
    ensures said { IfOk result (λ command. option_map (request_of (λ i. i)) command
        ≡ listing_by_name name.now (words_of rest.now)) }
    ensures no_room { OnErr result (IsSomeAnd (listing_by_name name.now (words_of rest.now))
        (λ request. TakesRoom (Step request))) }
{
    if name == b"edges".as_slice() {
        let Some(edges) = EdgeList::new(rest) else {
            return Ok(None);
        };
        Ok(Some(Command::Edges(edges.into_edges(alloc)?)))
    } else if name == b"reduce".as_slice() {
        let Some(nodes) = NodeList::new(rest) else {
            return Ok(None);
        };
        Ok(Some(Command::Reduce(nodes.into_nodes(alloc)?)))
    } else {
        Ok(None)
    }
}

#[tactic(auto, unfolding(crate::specs::Commands::single_by_name))]
fn single(name: &[u8], rest: &[u8]) -> Option<Command<i64, i64, u32>>
    ensures { option_map (request_of (λ i. i)) result
        ≡ single_by_name name.now (words_of rest.now) }
{
    if name == b"node".as_slice() {
        Some(Command::Node(weight_alone(rest)?))
    } else if name == b"edge".as_slice() {
        let (parent, child, weight) = ends_and_weight(rest)?;
        Some(Command::Edge(node(parent), node(child), weight))
    } else if name == b"update".as_slice() {
        let (parent, child, weight) = ends_and_weight(rest)?;
        Some(Command::Update(node(parent), node(child), weight))
    } else if name == b"child".as_slice() {
        let (parent, edge, weight) = index_and_weights(rest)?;
        Some(Command::Child(node(parent), edge, weight))
    } else if name == b"parent".as_slice() {
        let (child, edge, weight) = index_and_weights(rest)?;
        Some(Command::Parent(node(child), edge, weight))
    } else if name == b"rmnode".as_slice() {
        Some(Command::RemoveNode(node(index_alone(rest)?)))
    } else if name == b"rmedge".as_slice() {
        Some(Command::RemoveEdge(edge(index_alone(rest)?)))
    } else if name == b"clearedges".as_slice() {
        if_done(rest, Command::ClearEdges)
    } else if name == b"clear".as_slice() {
        if_done(rest, Command::Clear)
    } else if name == b"find".as_slice() {
        let (parent, child) = two_indices(rest)?;
        Some(Command::Find(node(parent), node(child)))
    } else if name == b"ends".as_slice() {
        Some(Command::Ends(edge(index_alone(rest)?)))
    } else if name == b"children".as_slice() {
        Some(Command::Children(node(index_alone(rest)?)))
    } else if name == b"parents".as_slice() {
        Some(Command::Parents(node(index_alone(rest)?)))
    } else {
        None
    }
}

// `x`, if the line has no word left.
fn if_done<T: Drop>(line: &[u8], x: T) -> Option<T>
    ensures { result ≡ if_done_of (words_of line.now) x }
{
    if first_word(line).is_none() {
        Some(x)
    } else {
        None
    }
}

#[tactic(auto, unfolding(crate::specs::Commands::weight_alone))]
fn weight_alone(line: &[u8]) -> Option<i64>
    ensures { result ≡ weight_alone_of (words_of line.now) }
{
    let (weight, rest) = first_weight(line)?;
    if_done(rest, weight)
}

#[tactic(auto, unfolding(crate::specs::Commands::index_alone))]
fn index_alone(line: &[u8]) -> Option<u32>
    ensures { result ≡ index_alone_of (words_of line.now) }
{
    let (index, rest) = first_index(line)?;
    if_done(rest, index)
}

#[tactic(auto, unfolding(crate::specs::Commands::two_indices))]
fn two_indices(line: &[u8]) -> Option<(u32, u32)>
    ensures { result ≡ two_indices_of (words_of line.now) }
{
    let (first, rest) = first_index(line)?;
    let (second, rest) = first_index(rest)?;
    if_done(rest, (first, second))
}

#[tactic(auto, unfolding(crate::specs::Commands::ends_and_weight))]
fn ends_and_weight(line: &[u8]) -> Option<(u32, u32, i64)>
    ensures { result ≡ ends_and_weight_of (words_of line.now) }
{
    let (parent, rest) = first_index(line)?;
    let (child, rest) = first_index(rest)?;
    let (weight, rest) = first_weight(rest)?;
    if_done(rest, (parent, child, weight))
}

#[tactic(auto, unfolding(crate::specs::Commands::index_and_weights))]
fn index_and_weights(line: &[u8]) -> Option<(u32, i64, i64)>
    ensures { result ≡ index_and_weights_of (words_of line.now) }
{
    let (index, rest) = first_index(line)?;
    let (edge, rest) = first_weight(rest)?;
    let (node, rest) = first_weight(rest)?;
    if_done(rest, (index, edge, node))
}
