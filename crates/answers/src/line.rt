//! The lines that the program reads.
use anyhow::{Context, Result, bail};
use daggy::NodeIndex;
use std::alloc::Global;
use std::str::SplitWhitespace;

/// What a line says.
#[derive(Drop)]
pub enum Line {
    /// A dag begins, with a node of each weight.
    Dag(Vec<u64>),
    /// An edge from a parent to a child.
    Edge(NodeIndex, NodeIndex),
    /// Whether a path leads from a node to another, and how long it is.
    Path(NodeIndex, NodeIndex),
    /// The simple paths from one node to another that have at most this many edges.
    Simple(NodeIndex, NodeIndex, usize),
    /// All other questions.
    Rest,
}

/// Reads a line.
pub fn parse(alloc: Global, text: &str) -> Result<Line> {
    let mut words = text.split_whitespace();
    match words.next().context("an empty line")? {
        "dag" => {
            let mut weights = Vec::new(alloc);
            for word in words {
                weights.push(word.parse::<u64>().ok().context("not a weight")?)?;
            }
            Ok(Line::Dag(weights))
        }
        "edge" => {
            let (parent, child) = two_nodes(words)?;
            Ok(Line::Edge(parent, child))
        }
        "path" => {
            let (from, to) = two_nodes(words)?;
            Ok(Line::Path(from, to))
        }
        "simple" => {
            let from = words.next().and_then(node).context("not a node")?;
            let to = words.next().and_then(node).context("not a node")?;
            let limit = words.next().and_then(number).context("not a number")?;
            Ok(Line::Simple(from, to, limit))
        }
        "rest" => Ok(Line::Rest),
        _ => bail!("no such line"),
    }
}

fn two_nodes(mut words: SplitWhitespace<'_>) -> Result<(NodeIndex, NodeIndex)> {
    let first = words.next().and_then(node).context("not a node")?;
    let second = words.next().and_then(node).context("not a node")?;
    Ok((first, second))
}

fn number(word: &str) -> Option<usize> {
    word.parse::<usize>().ok()
}

// The node with a number.
fn node(word: &str) -> Option<NodeIndex> {
    let number = word.parse::<usize>().ok()?;
    if number <= NodeIndex::<u32>::end().index() {
        Some(NodeIndex::new(number))
    } else {
        None
    }
}
