//! The nodes listed in a line.
ghost use Rattle.std.specs.Prelude.{◌≡◌, IfOk};
ghost use Rattle.dagbench_lines.specs.Cutting.{words_of};
ghost use Rattle.dagbench_lines.specs.Listing.{indices_by_words};

use crate::words::{first_index, first_word, node};
use daggy_base::index::NodeIndex;
use std::alloc::{AllocError, Global};
use std::marker::Model;

/// The nodes listed in a line. They are parsed again by `into_nodes`, so this does not allocate.
#[derive(Drop)]
pub struct NodeList<'a> {
    words: &'a [u8],
}

impl<'a> Model for NodeList<'a> {
    ghost use Rattle.std.specs.Prelude.{ℕ, List, [], unwrap_or, IsSome};
    ghost use Rattle.dagbench_lines.specs.Cutting.{words_of};
    ghost use Rattle.dagbench_lines.specs.Listing.{indices_by_words};

    ghost Value = { List ℕ };

    ghost view = { λ s. unwrap_or (indices_by_words (words_of s.words.now)) [] };

    ghost invariant = { λ s. IsSome (indices_by_words (words_of s.words.now)) };
}

impl<'a> NodeList<'a> {
    /// The nodes listed by these words, or `None` if the words are not a list of nodes.
    pub fn new(words: &'a [u8]) -> Option<NodeList<'a>>
        ensures { result ≡ indices_by_words (words_of words.now) }
    {
        let mut rest = words;
        'nodes: while first_word(rest).is_some() {
            let (_, behind) = first_index(rest)?;
            rest = behind;
        }
        Some(NodeList { words })
    }

    /// The nodes as a `Vec`.
    pub fn into_nodes(self, alloc: Global) -> Result<Vec<NodeIndex<u32>>, AllocError>
        ensures { IfOk result (λ nodes. nodes.items ≡ self.entry) }
    {
        let mut nodes = Vec::new(alloc);
        let mut rest = self.words;
        'nodes: while let Some((n, behind)) = first_index(rest) {
            nodes.push(node(n))?;
            rest = behind;
        }
        Ok(nodes)
    }
}
