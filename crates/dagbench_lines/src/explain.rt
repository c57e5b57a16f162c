//! Why a line is no command.
ghost use Rattle.std.specs.Prelude.{◌≡◌, ◌↔◌, None, IsSome};
ghost use Rattle.dagbench_lines.specs.Commands.{asked_in};

use crate::parse::{LONGEST_LINE, parse};
use crate::words::{first_word, index, weight};
use std::alloc::Global;
use std::fmt::{self, Display, Formatter, Write};

/// What an operand of a command is.
#[derive(Clone, Copy)]
pub enum Operand {
    /// The index of a node or an edge.
    Index,
    /// A weight.
    Weight,
}

/// Why a line is no command.
#[derive(Clone, Copy)]
pub enum BadLine<'a> {
    /// It has more bytes than a command can have.
    TooLong,
    /// It has no words.
    Empty,
    /// No command has this name.
    Unknown(&'a [u8]),
    /// The command of this name lacks an operand.
    Missing(&'a [u8], Operand),
    /// All operands stand before this word.
    Superfluous(&'a [u8]),
    /// This word is not the operand that should be there.
    NotA(Operand, &'a [u8]),
    /// This word is a number, but not in the range of the operand.
    OutOfRange(Operand, &'a [u8]),
}

impl Display for Operand {
    fn fmt<W: Write>(&self, f: &mut Formatter<W>) -> fmt::Result {
        f.write_str(match self {
            Operand::Index => "an index",
            Operand::Weight => "a weight",
        })
    }
}

/// The numbers that an operand can be.
fn range(operand: Operand) -> &'static str {
    match operand {
        Operand::Index => "at most 4294967295, in at most 10 digits",
        Operand::Weight => {
            "from -9223372036854775808 to 9223372036854775807, in at most 19 digits"
        }
    }
}

impl Display for BadLine<'_> {
    fn fmt<W: Write>(&self, f: &mut Formatter<W>) -> fmt::Result {
        match self {
            BadLine::TooLong => write!(f, "more than {LONGEST_LINE} bytes"),
            BadLine::Empty => f.write_str("no command"),
            BadLine::Unknown(name) => write!(f, "\"{}\" is no command", name.escape_ascii()),
            BadLine::Missing(name, operand) => {
                write!(f, "\"{}\" lacks {operand}", name.escape_ascii())
            }
            BadLine::Superfluous(word) => {
                write!(f, "\"{}\" is one word too many", word.escape_ascii())
            }
            BadLine::NotA(operand, word) => {
                write!(f, "\"{}\" is not {operand}", word.escape_ascii())
            }
            BadLine::OutOfRange(operand, word) => {
                let word = word.escape_ascii();
                write!(f, "\"{word}\" is not {operand}: {}", range(*operand))
            }
        }
    }
}

/// Returns why a line is no command, or `None` if it is one.
pub fn explain(alloc: Global, line: &[u8]) -> Option<BadLine<'_>>
    ensures { IsSome result ↔ (asked_in line.now ≡ None) }
{
    match parse(alloc, line) {
        Ok(None) => match check(line) {
            Err(why) => Some(why),
            Ok(()) => Some(BadLine::Unknown(line)),
        },
        _ => None,
    }
}

fn check(line: &[u8]) -> Result<(), BadLine<'_>> {
    if LONGEST_LINE < line.len() {
        return Err(BadLine::TooLong);
    }
    let Some((name, rest)) = first_word(line) else {
        return Err(BadLine::Empty);
    };
    if let Some(operands) = operands(name) {
        return check_operands(name, operands, rest);
    }
    match listed(name) {
        Some(operands) => check_list(name, operands, rest),
        None => Err(BadLine::Unknown(name)),
    }
}

/// The operands of the command of this name, if it has no list.
fn operands(name: &[u8]) -> Option<&'static [Operand]> {
    match str::from_utf8(name).ok()? {
        "clear" | "clearedges" | "json" => Some(&[]),
        "node" => Some(&[Operand::Weight]),
        "rmnode" | "rmedge" | "ends" | "children" | "parents" => Some(&[Operand::Index]),
        "find" => Some(&[Operand::Index, Operand::Index]),
        "edge" | "update" => Some(&[Operand::Index, Operand::Index, Operand::Weight]),
        "child" | "parent" => Some(&[Operand::Index, Operand::Weight, Operand::Weight]),
        _ => None,
    }
}

/// The operands that the list of the command of this name repeats.
fn listed(name: &[u8]) -> Option<&'static [Operand]> {
    match str::from_utf8(name).ok()? {
        "edges" => Some(&[Operand::Index, Operand::Index, Operand::Weight]),
        "reduce" => Some(&[Operand::Index]),
        _ => None,
    }
}

fn check_operands<'a>(
    name: &'a [u8],
    operands: &[Operand],
    words: &'a [u8],
) -> Result<(), BadLine<'a>> {
    let rest = after_operands(name, operands, words)?;
    match first_word(rest) {
        Some((word, _)) => Err(BadLine::Superfluous(word)),
        None => Ok(()),
    }
}

fn check_list<'a>(
    name: &'a [u8],
    operands: &[Operand],
    words: &'a [u8],
) -> Result<(), BadLine<'a>> {
    let mut rest = words;
    // Each turn takes at least a byte of them.
    for _ in 0..words.len() {
        if first_word(rest).is_none() {
            break;
        }
        rest = after_operands(name, operands, rest)?;
    }
    Ok(())
}

/// The rest of a line's words, after these operands.
fn after_operands<'a>(
    name: &'a [u8],
    operands: &[Operand],
    words: &'a [u8],
) -> Result<&'a [u8], BadLine<'a>> {
    let mut rest = words;
    for operand in operands {
        let Some((word, behind)) = first_word(rest) else {
            return Err(BadLine::Missing(name, *operand));
        };
        check_operand(*operand, word)?;
        rest = behind;
    }
    Ok(rest)
}

fn check_operand(operand: Operand, word: &[u8]) -> Result<(), BadLine<'_>> {
    let (is_operand, digits) = match operand {
        Operand::Index => (index(word).is_some(), word),
        Operand::Weight => (
            weight(word).is_some(),
            word.strip_prefix(b"-").unwrap_or(word),
        ),
    };
    if is_operand {
        Ok(())
    } else if are_digits(digits) {
        Err(BadLine::OutOfRange(operand, word))
    } else {
        Err(BadLine::NotA(operand, word))
    }
}

fn are_digits(bytes: &[u8]) -> bool {
    for byte in bytes {
        if !byte.is_ascii_digit() {
            return false;
        }
    }
    !bytes.is_empty()
}
