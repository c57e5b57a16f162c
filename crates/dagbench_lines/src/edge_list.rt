//! The edges listed in a line.
ghost use Rattle.std.specs.Prelude.{◌≡◌, IfOk};
ghost use Rattle.std.specs.Option.{option_map};
ghost use Rattle.dagbench_lines.specs.Cutting.{words_of};
ghost use Rattle.dagbench_lines.specs.Listing.{edges_by_words, first_edge_of};

use crate::words::{first_index, first_weight, first_word, node};
use daggy_base::command::NewEdge;
use std::alloc::{AllocError, Global};
use std::marker::Model;

/// The edges listed in a line. They are parsed again by `into_edges`, so this does not allocate.
#[derive(Drop)]
pub struct EdgeList<'a> {
    words: &'a [u8],
}

impl<'a> Model for EdgeList<'a> {
    ghost use Rattle.std.specs.Prelude.{ℕ, List, [], unwrap_or, IsSome, ℤ};
    ghost use Rattle.dagbench_lines.specs.Cutting.{words_of};
    ghost use Rattle.dagbench_lines.specs.Listing.{edges_by_words};

    ghost Value = { List (ℕ × ℕ × ℤ) };

    ghost view = { λ s. unwrap_or (edges_by_words (words_of s.words.now)) [] };

    ghost invariant = { λ s. IsSome (edges_by_words (words_of s.words.now)) };
}

/// The edge in the first three words, and the rest of the line.
#[tactic(auto, unfolding(crate::specs::Listing::first_edge_of))]
fn first_edge(words: &[u8]) -> Option<((u32, u32, i64), &[u8])>
    ensures { option_map (λ parts. (parts.0, words_of parts.1.now)) result
        ≡ first_edge_of (words_of words.now) }
{
    let (parent, rest) = first_index(words)?;
    let (child, rest) = first_index(rest)?;
    let (weight, rest) = first_weight(rest)?;
    Some(((parent, child, weight), rest))
}

fn new_edge(parent: u32, child: u32, weight: i64) -> NewEdge<i64, u32>
    ensures { result ≡ (parent, child, weight) }
{
    (node(parent), node(child), weight)
}

impl<'a> EdgeList<'a> {
    /// The edges listed by these words, or `None` if the words are not a list of edges.
    pub fn new(words: &'a [u8]) -> Option<EdgeList<'a>>
        ensures { result ≡ edges_by_words (words_of words.now) }
    {
        let mut rest = words;
        'edges: while first_word(rest).is_some() {
            let (_, behind) = first_edge(rest)?;
            rest = behind;
        }
        Some(EdgeList { words })
    }

    /// The edges as a `Vec`.
    pub fn into_edges(self, alloc: Global) -> Result<Vec<NewEdge<i64, u32>>, AllocError>
        ensures { IfOk result (λ edges. edges.items ≡ self.entry) }
    {
        let mut edges = Vec::new(alloc);
        let mut rest = self.words;
        'edges: while let Some(((parent, child, weight), behind)) = first_edge(rest) {
            edges.push(new_edge(parent, child, weight))?;
            rest = behind;
        }
        Ok(edges)
    }
}
