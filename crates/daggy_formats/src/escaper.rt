//! Text whose characters are escaped.
ghost use Rattle.std.specs.Prelude.{ℕ, List, [], ◌∷◌, encode_utf8_all};
ghost use Rattle.std.specs.Option.{option_map};
ghost use Rattle.std.specs.Fmt.{WritesOnOk, DisplaysOnOk};
ghost use Rattle.daggy_formats.specs.Escapes.{escaped};

use std::fmt::{self, Display, Formatter, Write};
use std::marker::PhantomData;

/// How each character of a text is escaped.
///
/// # Examples
///
/// ```
/// // What is secret is not shown.
/// struct Secret;
/// impl Escape for Secret {
///     ghost use Rattle.std.specs.Prelude.{◌∷◌, []};
///
///     ghost escaped_char = { λ c. 42 ∷ [] };
///
///     fn write_char<W: fmt::Write>(_c: char, f: &mut fmt::Formatter<W>) -> fmt::Result {
///         f.write_char('*')
///     }
/// }
/// struct Hidden(&'static str);
/// impl fmt::Display for Hidden {
///     fn fmt<W: fmt::Write>(&self, f: &mut fmt::Formatter<W>) -> fmt::Result {
///         write_escaped::<Secret, _, _>(self.0, f)
///     }
/// }
/// let text = format!(in rt.alloc(); "{}", Hidden("sow"))?;
/// assert_eq!(rt; text.as_str(), "***");
/// ```
pub trait Escape {
    // What is written for a character.
    ghost escaped_char: { ℕ → List ℕ } = { λ c. c ∷ [] };

    /// Writes a character, escaped.
    ///
    /// # Errors
    ///
    /// Returns an error if the formatter fails.
    fn write_char<W: Write>(c: char, f: &mut Formatter<W>) -> fmt::Result
        ensures { WritesOnOk W.write_str_gives f.old result (encode_utf8_all (escaped_char c))
            f.new };
}

// Writes a text, escaped.
fn write_text<X: Escape, W: Write>(text: &str, f: &mut Formatter<W>) -> fmt::Result
    ensures { WritesOnOk W.write_str_gives f.old result (escaped X.escaped_char text.now) f.new }
{
    for c in text.chars() {
        X::write_char(c, f)?;
    }
    Ok(())
}

// A writer that escapes what it is given.
#[derive(Drop)]
struct Escaper<'f, X, W> {
    out: &'f mut Formatter<W>,
    escape: PhantomData<X>,
}

impl<X: Escape, W: Write> Write for Escaper<'_, X, W> {
    ghost use Rattle.std.specs.Prelude.{◌≡◌, IsUtf8};
    ghost use Rattle.std.specs.Fmt.{IsPlainFormatter, HasWritten};

    ghost write_str_gives = { λ before text after. (after.out.ghost_name ≡ before.out.ghost_name)
        × IsUtf8 text
        × (IsPlainFormatter before.out.now
        → HasWritten W.write_str_gives before.out.now (escaped X.escaped_char text) after.out.now) };

    fn write_str(&mut self, s: &str) -> fmt::Result {
        write_text::<X, W>(s, self.out)
    }
}

/// Writes the displayed text of a value, escaped.
///
/// # Errors
///
/// Returns an error if the value or the formatter fails.
///
/// # Complexity
///
/// O(length of the text).
pub fn write_escaped<X: Escape, D: Display + Drop, W: Write>(
    value: D,
    f: &mut Formatter<W>,
) -> fmt::Result
    ensures { DisplaysOnOk W.write_str_gives f.old result
        (option_map (escaped X.escaped_char) (D.output value)) f.new }
{
    let mut escaper: Escaper<'_, X, W> = Escaper {
        out: f,
        escape: PhantomData,
    };
    let result = escaper.write(value);
    let Escaper { out: _, escape: _ } = escaper;
    result
}
