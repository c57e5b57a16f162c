//! The words of a line, and the numbers in them.
ghost use Rattle.std.specs.Prelude.{◌≡◌, ℕ, ◌+◌, ◌≤◌, ◌∷◌, [], ◌++◌, length, MatchOption};
ghost use Rattle.std.specs.Option.{option_map};
ghost use Rattle.dagbench_lines.specs.Cutting.{Lacks, words_of};
ghost use Rattle.dagbench_lines.specs.Numbers.{number_of, index_of, weight_of};
ghost use Rattle.dagbench_lines.specs.Listing.{first_by};

use daggy_base::index::{EdgeIndex, NodeIndex};
use memchr::memchr;

/// The bytes before the first separator, and those after it, or `None` if there is none.
pub fn split_at_byte(separator: u8, bytes: &[u8]) -> Option<(&[u8], &[u8])>
    ensures { MatchOption result (Lacks separator bytes.now)
        (λ parts.
        Lacks separator parts.0.now × (bytes.now ≡ parts.0.now ++ separator ∷ parts.1.now)) }
{
    match memchr(separator, bytes) {
        Some(at) => {
            let (front, rest) = bytes.split_at(at);
            Some((front, &rest[1..]))
        }
        None => None,
    }
}

/// The line without leading spaces.
fn without_spaces(line: &[u8]) -> &[u8]
    ensures words { words_of result.now ≡ words_of line.now }
    ensures first { (rest : _) → result.now ≡ 32 ∷ rest → ⊥ }
{
    let mut rest = line;
    'spaces: while let Some((first, behind)) = rest.split_first() {
        if *first != b' ' {
            break;
        }
        rest = behind;
    }
    rest
}

/// The first word of a line, and the rest of the line.
pub fn first_word(line: &[u8]) -> Option<(&[u8], &[u8])>
    ensures { MatchOption result (words_of line.now ≡ [])
        (λ parts. words_of line.now ≡ parts.0.now ∷ words_of parts.1.now) }
{
    let line = without_spaces(line);
    if line.is_empty() {
        return None;
    }
    match split_at_byte(b' ', line) {
        Some((word, rest)) => Some((word, rest)),
        None => Some((line, &line[line.len()..])),
    }
}

/// The number in a word of one to `most` digits.
fn number(word: &[u8], most: usize) -> Option<u64>
    requires { most ≤ 19 }
    ensures { result ≡ number_of most word.now }
{
    if word.is_empty() || most < word.len() {
        return None;
    }
    let mut number = 0u64;
    for byte in word {
        if *byte < b'0' || b'9' < *byte {
            return None;
        }
        number = number * 10 + u64::from(*byte - b'0');
    }
    Some(number)
}

/// The index in a word.
pub fn index(word: &[u8]) -> Option<u32>
    ensures { result ≡ index_of word.now }
{
    let number = number(word, 10)?;
    u32::try_from(number).ok()
}

/// The weight in a word.
pub fn weight(word: &[u8]) -> Option<i64>
    ensures { result ≡ weight_of word.now }
{
    let (first, behind) = word.split_first()?;
    if *first == b'-' {
        let number = number(behind, 19)?;
        match number {
            0 => Some(0),
            1..=0x8000_0000_0000_0000 => Some(-1 - (number - 1) as i64),
            _ => None,
        }
    } else {
        i64::try_from(number(word, 19)?).ok()
    }
}

/// The node with this index.
pub fn node(index: u32) -> NodeIndex<u32>
    ensures { result ≡ index }
{
    NodeIndex::new(index as usize)
}

/// The edge with this index.
pub fn edge(index: u32) -> EdgeIndex<u32>
    ensures { result ≡ index }
{
    EdgeIndex::new(index as usize)
}

/// The index at the front of a line's words, and the rest of the line.
pub fn first_index(line: &[u8]) -> Option<(u32, &[u8])>
    ensures { option_map (λ parts. (parts.0, words_of parts.1.now)) result
        ≡ first_by index_of (words_of line.now) }
{
    let (word, rest) = first_word(line)?;
    Some((index(word)?, rest))
}

/// The weight at the front of a line's words, and the rest of the line.
pub fn first_weight(line: &[u8]) -> Option<(i64, &[u8])>
    ensures { option_map (λ parts. (parts.0, words_of parts.1.now)) result
        ≡ first_by weight_of (words_of line.now) }
{
    let (word, rest) = first_word(line)?;
    Some((weight(word)?, rest))
}
