//! Quoted text for graphviz.
ghost use Rattle.std.specs.Prelude.{◌≡◌, OnOk, chars, encode_utf8_all};
ghost use Rattle.std.specs.Option.{option_map};
ghost use Rattle.std.specs.Fmt.{DisplaysOnOk, WritesOnOk};
ghost use Rattle.daggy_dot.specs.Escapes.{escaped_char, piece, next_left, run, left_after, quoted};
ghost use Rattle.daggy_dot.specs.Escapes.{label_of, attribute_of};

use std::fmt::{self, Display, Formatter, Write};

// The number of characters after which a line is continued. Graphviz reads less than 16,382 bytes
// of a line between quotes, and a character takes at most five of them, for an ampersand.
const LINE_LENGTH: usize = 3000;

// Writes a character as graphviz wants it between quotes.
fn write_char<W: Write>(c: char, f: &mut Formatter<W>) -> fmt::Result
    ensures { WritesOnOk W.write_str_gives f.old result (encode_utf8_all (escaped_char c)) f.new }
{
    match c {
        '"' => f.write_str("\\\""),
        '\\' => f.write_str("\\\\"),
        '\n' => f.write_str("\\n"),
        '&' => f.write_str("&amp;"),
        '\0'..='\x08' | '\x0b' | '\x0c' | '\x0e'..='\x1f' | '\u{fffe}' | '\u{ffff}' => {
            f.write_char('\u{fffd}')
        }
        _ => f.write_char(c),
    }
}

// Writes the next character. `left` is the number of characters that the line still takes.
fn write_next<W: Write>(c: char, left: usize, f: &mut Formatter<W>) -> fmt::Result
    ensures { WritesOnOk W.write_str_gives f.old result (encode_utf8_all (piece left c)) f.new }
{
    if left == 0 {
        f.write_str("\\\n")?;
    }
    write_char(c, f)
}

// The number of characters that the line takes after one more.
fn next_left(left: usize) -> usize
    ensures { result ≡ next_left left }
{
    if left == 0 { LINE_LENGTH - 1 } else { left - 1 }
}

// Writes a part of a text. `left` is the number of characters that the line still takes.
fn write_run<W: Write>(text: &str, left: &mut usize, f: &mut Formatter<W>) -> fmt::Result
    ensures written { WritesOnOk W.write_str_gives f.old result
        (encode_utf8_all (run left.old (chars text.now))) f.new }
    ensures left { OnOk result (left.new ≡ left_after left.old (chars text.now)) }
{
    for c in text.chars() {
        write_next(c, *left, f)?;
        *left = next_left(*left);
    }
    Ok(())
}

// A writer that writes what it is given as graphviz wants it between quotes.
#[derive(Drop)]
struct Quoted<'f, W> {
    out: &'f mut Formatter<W>,
    left: usize,
}

impl<W: Write> Write for Quoted<'_, W> {
    ghost use Rattle.std.specs.Prelude.{◌≡◌, IsUtf8, chars, encode_utf8_all};
    ghost use Rattle.std.specs.Fmt.{IsPlainFormatter, HasWritten};
    ghost use Rattle.daggy_dot.specs.Escapes.{run, left_after};

    ghost write_str_gives = { λ before text after. (after.out.ghost_name ≡ before.out.ghost_name)
        × IsUtf8 text
        × (after.left ≡ left_after before.left (chars text))
        × (IsPlainFormatter before.out.now → HasWritten W.write_str_gives before.out.now
        (encode_utf8_all (run before.left (chars text))) after.out.now) };

    fn write_str(&mut self, s: &str) -> fmt::Result {
        write_run(s, &mut self.left, self.out)
    }
}

// Writes the text that a value displays, as graphviz wants it between quotes.
pub(crate) fn write_quoted<D: Display + Drop, W: Write>(
    value: D,
    f: &mut Formatter<W>,
) -> fmt::Result
    ensures { DisplaysOnOk W.write_str_gives f.old result (option_map quoted (D.output value)) f.new }
{
    let mut writer = Quoted {
        out: f,
        left: LINE_LENGTH,
    };
    let result = writer.write(value);
    let Quoted { out: _, left: _ } = writer;
    result
}

/// Writes the attribute `label` with a value's text, and a space after it.
///
/// A quote, a backslash, a newline and an ampersand are escaped, so that graphviz shows the text as
/// it is. A character that graphviz does not allow, such as a control character, is written as
/// U+FFFD. A long text is split across several lines, because graphviz cannot read a line of 16 KB.
///
/// # Errors
///
/// Returns an error if the formatter fails.
///
/// # Complexity
///
/// O(length of the text).
pub fn write_label<D: Display + Drop, W: Write>(text: D, f: &mut Formatter<W>) -> fmt::Result
    ensures { DisplaysOnOk W.write_str_gives f.old result (label_of (D.output text)) f.new }
{
    f.write_str("label = \"")?;
    write_quoted(text, f)?;
    f.write_str("\" ")
}

/// Writes an attribute with a value's text, escaped as [`write_label`] does, and a space after it.
/// The name, such as `color` or `shape`, is not escaped.
///
/// # Errors
///
/// Returns an error if the formatter fails.
///
/// # Complexity
///
/// O(length of the name and of the text).
pub fn write_attribute<D: Display + Drop, W: Write>(
    name: &str,
    value: D,
    f: &mut Formatter<W>,
) -> fmt::Result
    ensures { DisplaysOnOk W.write_str_gives f.old result (attribute_of name.now (D.output value))
        f.new }
{
    f.write_str(name)?;
    f.write_str(" = \"")?;
    write_quoted(value, f)?;
    f.write_str("\" ")
}
