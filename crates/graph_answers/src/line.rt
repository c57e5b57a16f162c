//! The lines that the program reads.
ghost use Rattle.std.specs.Prelude.{◌≤◌, IfOk};

use anyhow::{Context, Result, bail};
use daggy_base::index::{EdgeIndex, NodeIndex};
use std::str::SplitWhitespace;

/// What a line says.
#[derive(Drop)]
pub enum Line {
    /// A graph of this many nodes begins.
    Graph(usize),
    /// An edge from a parent to a child.
    Edge(NodeIndex<u32>, NodeIndex<u32>),
    /// A node is removed.
    Without(NodeIndex<u32>),
    /// The next one of the edges that are to be kept.
    Prefer(EdgeIndex<u32>),
    /// The answers are wanted.
    Answer,
}

/// Reads a line.
pub fn parse(text: &str) -> Result<Line> {
    let mut words = text.split_whitespace();
    match words.next().context("an empty line")? {
        "graph" => Ok(Line::Graph(number(&mut words)?)),
        "edge" => {
            let parent = number(&mut words)?;
            Ok(Line::Edge(NodeIndex::new(parent), NodeIndex::new(number(&mut words)?)))
        }
        "without" => Ok(Line::Without(NodeIndex::new(number(&mut words)?))),
        "prefer" => Ok(Line::Prefer(EdgeIndex::new(number(&mut words)?))),
        "answer" => Ok(Line::Answer),
        _ => bail!("no such line"),
    }
}

// The next word, as a number that is an index.
fn number(words: &mut SplitWhitespace<'_>) -> Result<usize>
    ensures { IfOk result (λ n. n ≤ 4294967295) }
{
    let word = words.next().context("a number is missing")?;
    match word.parse::<u32>() {
        Ok(n) => Ok(n as usize),
        Err(_) => bail!("not a number"),
    }
}
