//! JSON values, written token by token.
ghost use Rattle.std.specs.Prelude.{◌≡◌, true, pos, int_lt, IsTrue};
ghost use Rattle.std.specs.Float.{float_is_finite};
ghost use Rattle.serde_json.specs.Data.{number, unsigned, negative, float, array, object};
ghost use Rattle.serde_json.specs.View.{view, number_view, items_view, members_view};
ghost use Rattle.daggy_json.specs.Passing.{HasFailed, Writes, AreTokensOf, AreTokensOfWeight};

use crate::text::TextWriter;
use json::Token;
use serde_json::{Map, Number, Value};
use std::alloc::AllocError;
use std::io::Write;

#[inline(never)]
fn write_negative<W: Write>(n: i64, out: &mut TextWriter<'_, W>)
    requires { int_lt n (pos 0) ≡ true }
    ensures { Writes W.contents out.old out.new (AreTokensOf (number (negative n))) }
{
    let mut digits = itoa::Buffer::new();
    out.token(Token::Number(digits.format(n)));
}

#[inline(never)]
fn write_float<W: Write>(x: f64, out: &mut TextWriter<'_, W>)
    requires { IsTrue (float_is_finite x) }
    ensures { Writes W.contents out.old out.new (AreTokensOf (number (float x))) }
{
    let mut digits = ryu::Buffer::new();
    out.token(Token::Number(digits.format_finite_with_plus(x)));
}

// Writes a number. Only the case of whole numbers that are not negative is inlined.
#[inline]
fn write_number<W: Write>(n: &Number, out: &mut TextWriter<'_, W>)
    ensures { Writes W.contents out.old out.new (AreTokensOf (number (number_view n.now))) }
{
    if let Some(k) = n.as_u64() {
        out.unsigned(k)
    } else if let Some(k) = n.as_i64() {
        write_negative(k, out)
    } else if let Some(x) = n.as_f64() {
        write_float(x, out)
    } else {
        unreachable!()
    }
}

/// Writes a value.
#[cycle(write_value)]
pub(crate) fn write_value<W: Write>(value: &Value, out: &mut TextWriter<'_, W>)
    ensures { Writes W.contents out.old out.new (AreTokensOf (view value.now)) }
{
    match value {
        Value::Null => out.token(Token::Null),
        Value::Bool(b) => out.token(Token::Bool(*b)),
        Value::Number(number) => write_number(number, out),
        Value::String(text) => out.token(Token::String(text.as_str())),
        Value::Array(items) => write_items(items, out),
        Value::Object(members) => write_members(members, out),
    }
}

#[cycle(write_value)]
fn write_items<W: Write>(items: &Vec<Value>, out: &mut TextWriter<'_, W>)
    ensures { Writes W.contents out.old out.new (AreTokensOf (array (items_view items.now.items))) }
{
    out.begin_array();
    for item in items {
        write_value(item, out);
    }
    out.token(Token::EndArray);
}

#[cycle(write_value)]
fn write_members<W: Write>(members: &Map<String, Value>, out: &mut TextWriter<'_, W>)
    ensures { Writes W.contents out.old out.new
        (AreTokensOf (object (members_view members.now.entries))) }
{
    out.token(Token::BeginObject);
    for (key, member) in members.iter() {
        out.token(Token::Key(key.as_str()));
        write_value(member, out);
    }
    out.token(Token::EndObject);
}

/// Writes an encoded weight, or ends the text if its function failed.
#[inline]
pub(crate) fn write_weight<W: Write>(
    encoded: Result<Value, AllocError>,
    out: &mut TextWriter<'_, W>,
)
    ensures { Writes W.contents out.old out.new (AreTokensOfWeight encoded (HasFailed out.new)) }
{
    match encoded {
        // The most frequent kind of weight. It is inlined, so no value has to be made.
        Ok(Value::Number(number)) => write_number(&number, out),
        Ok(value) => write_value(&value, out),
        Err(_) => {
            out.fail();
            out.token(Token::Null);
        }
    }
}
