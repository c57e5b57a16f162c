//! Writing JSON text to a writer, token by token.
ghost use Rattle.std.specs.Prelude.{ℕ, List, Option, ◌≡◌, ◌<◌, ◌∷◌, ◌++◌, ◌+◌, ◌≤◌, [], None, Some, false, true, cond, length, MatchResult, IfErr, Err};
ghost use Rattle.std.specs.Char.{digit_char};
ghost use Rattle.std.specs.Io.KnownBytes.{Appends};
ghost use Rattle.json.specs.Print.{begins as token_begins, ends as token_ends};
ghost use Rattle.json.specs.Print.{escape_letter as letter_of, escape_byte, quoted, token_text, IsPrintable};
ghost use Rattle.json.specs.Reads.{token_of};
ghost use Rattle.json.specs.Token.{begin_array};
ghost use Rattle.daggy_json.specs.Document.{whole};
ghost use Rattle.daggy_json.specs.Streaming.{AppendsFront};
ghost use Rattle.daggy_json.specs.Passing.{SendsBytes, HasFailed, StaysOn, Holds, Puts, Passes, Writes, AreTokensOf};
ghost use Rattle.daggy_json.specs.declared.block.TheConstants.{CAPACITY, LONGEST};
ghost use Rattle.daggy_json.specs.declared.error.StreamError.TheVariants.{Memory};

use crate::block::Block;
use crate::error::StreamError;
use json::Token;
use std::io::{self, ErrorKind, Write};

// Writes all the bytes. An interrupted write is tried again.
fn put_all<W: Write>(writer: &mut W, bytes: &[u8]) -> io::Result<()>
    ensures { MatchResult result
        (λ _. Appends (W.contents writer.old) (W.contents writer.new) bytes.now)
        (λ _. AppendsFront (W.contents writer.old) (W.contents writer.new) bytes.now) }
{
    let mut rest = bytes;
    'writes: for _ in 0..u64::MAX {
        if rest.is_empty() {
            return Ok(());
        }
        match writer.write(rest) {
            Ok(0) => return Err(io::Error::from(ErrorKind::WriteZero)),
            Ok(count) => rest = &rest[count..],
            Err(error) => {
                if error.kind() != ErrorKind::Interrupted {
                    return Err(error);
                }
            }
        }
    }
    Err(io::Error::from(ErrorKind::Interrupted))
}

// Writes the bytes, unless there was a fault before.
fn pass_on<W: Write>(writer: &mut W, bytes: &[u8], fault: &mut Option<StreamError>)
    ensures { SendsBytes fault.old fault.new (W.contents writer.old) (W.contents writer.new)
        bytes.now }
{
    if fault.is_none() {
        if let Err(error) = put_all(writer, bytes) {
            *fault = Some(StreamError::Io(error));
        }
    }
}

// Whether a value or a member begins with the token.
#[inline(always)]
fn begins(token: Token<'_>) -> bool
    ensures { result ≡ token_begins (token_of token.entry) }
{
    !matches!(token, Token::EndObject | Token::EndArray)
}

// Whether a value ends with the token.
#[inline(always)]
fn ends(token: Token<'_>) -> bool
    ensures { result ≡ token_ends (token_of token.entry) }
{
    !matches!(
        token,
        Token::BeginObject | Token::BeginArray | Token::Key(_)
    )
}

// The letter of the byte's short escape, or 0 if it has none.
fn escape_letter(byte: u8) -> u8
    ensures { result ≡ letter_of byte }
{
    match byte {
        b'"' | b'\\' => byte,
        8 => b'b',
        12 => b'f',
        b'\n' => b'n',
        b'\r' => b'r',
        b'\t' => b't',
        _ => 0,
    }
}

fn hex_digit(digit: u8) -> u8
    requires { digit < 16 }
    ensures { result ≡ digit_char digit }
{
    if digit < 10 {
        b'0' + digit
    } else {
        b'a' - 10 + digit
    }
}

/// JSON text that is written to a writer block by block. After a fault the writer is not called
/// again, and the rest of the text is dropped.
#[derive(Drop)]
pub(crate) struct TextWriter<'a, W> {
    writer: &'a mut W,
    block: Block,
    after_value: bool,
    fault: Option<StreamError>,
}

impl<'a, W: Write> TextWriter<'a, W> {
    /// A text writer that has written nothing.
    pub(crate) fn new(writer: &'a mut W) -> TextWriter<'a, W>
        ensures writer { result.writer.now ≡ writer.old }
        ensures same_reference { result.writer.ghost_name ≡ writer.entry.ghost_name }
        ensures nothing { result.block ≡ [] }
        ensures place { result.after_value ≡ false }
        ensures no_fault { result.fault ≡ None }
    {
        TextWriter {
            writer,
            block: Block::new(),
            after_value: false,
            fault: None,
        }
    }

    // Writes what is in the block.
    #[cold]
    fn flush(&mut self)
        ensures stays { StaysOn self.old self.new }
        ensures place { self.new.after_value ≡ self.old.after_value }
        ensures nothing { self.new.block ≡ [] }
        ensures sends { SendsBytes self.old.fault self.new.fault
            (W.contents self.old.writer.now) (W.contents self.new.writer.now)
            self.old.block }
    {
        pass_on(self.writer, self.block.as_slice(), &mut self.fault);
        self.block.clear();
    }

    #[inline]
    fn put(&mut self, bytes: &[u8])
        ensures { Puts W.contents self.old self.new bytes.now }
    {
        if !self.block.extend_from_slice(bytes) {
            self.put_beyond(bytes);
        }
    }

    #[inline]
    fn put_byte(&mut self, byte: u8)
        ensures { Puts W.contents self.old self.new (byte ∷ []) }
    {
        if !self.block.push(byte) {
            self.put_beyond(&[byte]);
        }
    }

    // Writes bytes that do not fit into the block.
    #[cold]
    fn put_beyond(&mut self, bytes: &[u8])
        ensures { Puts W.contents self.old self.new bytes.now }
    {
        self.flush();
        if !self.block.extend_from_slice(bytes) {
            pass_on(self.writer, bytes, &mut self.fault);
        }
    }

    // Makes room in the block for any number and the comma before it.
    #[inline(always)]
    fn make_room(&mut self)
        ensures puts { Puts W.contents self.old self.new [] }
        ensures room { length self.new.block + LONGEST ≤ CAPACITY }
    {
        if !self.block.has_room() {
            self.flush();
        }
    }

    // A byte of a string.
    fn put_escaped(&mut self, byte: u8)
        ensures { Puts W.contents self.old self.new (escape_byte byte) }
    {
        let letter = escape_letter(byte);
        if letter > 0 {
            self.put(&[b'\\', letter]);
        } else if byte < 0x20 {
            let (high, low) = (hex_digit(byte / 16), hex_digit(byte % 16));
            self.put(&[b'\\', b'u', b'0', b'0', high, low]);
        } else {
            self.put_byte(byte);
        }
    }

    fn put_quoted(&mut self, text: &str)
        ensures { Puts W.contents self.old self.new (quoted text.now) }
    {
        self.put_byte(b'"');
        for byte in text.as_bytes() {
            self.put_escaped(*byte);
        }
        self.put_byte(b'"');
    }

    // Writes the comma before a value or a member, if a value came before it.
    #[inline(always)]
    fn put_comma(&mut self)
        ensures { Puts W.contents self.old self.new (cond self.old.after_value (44 ∷ []) []) }
    {
        if self.after_value {
            self.put_byte(b',');
        }
    }

    // The text of a token, without the comma before it.
    #[inline(always)]
    fn put_token(&mut self, token: Token<'_>)
        requires { IsPrintable (token_of token) }
        ensures { Puts W.contents self.old self.new (token_text (token_of token.entry)) }
    {
        match token {
            Token::BeginObject => self.put_byte(b'{'),
            Token::EndObject => self.put_byte(b'}'),
            Token::BeginArray => self.put_byte(b'['),
            Token::EndArray => self.put_byte(b']'),
            Token::Key(name) => {
                self.put_quoted(name);
                self.put_byte(b':');
            }
            Token::String(text) => self.put_quoted(text),
            Token::Number(text) => self.put(text.as_bytes()),
            Token::Bool(true) => self.put(b"true"),
            Token::Bool(false) => self.put(b"false"),
            Token::Null => self.put(b"null"),
            Token::Bad => unreachable!(),
        }
    }

    /// Writes a token, after a comma if it needs one.
    #[inline(always)]
    pub(crate) fn token(&mut self, token: Token<'_>)
        requires { IsPrintable (token_of token) }
        ensures { Passes W.contents self.old self.new (token_of token.entry ∷ []) }
    {
        if begins(token) {
            self.put_comma();
        }
        self.after_value = ends(token);
        self.put_token(token);
    }

    /// Begins an array, after a comma if it needs one.
    #[inline(always)]
    pub(crate) fn begin_array(&mut self)
        ensures { Passes W.contents self.old self.new (begin_array ∷ []) }
    {
        self.make_room();
        self.block.push_after_comma(self.after_value, b'[');
        self.after_value = false;
    }

    /// Writes a non-negative number, after a comma if it needs one.
    #[inline]
    pub(crate) fn unsigned(&mut self, n: u64)
        ensures { Writes W.contents self.old self.new (AreTokensOf (whole n)) }
    {
        self.make_room();
        self.block.push_number(self.after_value, n);
        self.after_value = true;
    }

    /// Writes an index.
    #[inline]
    pub(crate) fn whole(&mut self, n: usize)
        ensures { Writes W.contents self.old self.new (AreTokensOf (whole n)) }
    {
        self.unsigned(n as u64);
    }

    /// Ends the text here, because an allocation failed.
    pub(crate) fn fail(&mut self)
        ensures failed { HasFailed self.new }
        ensures passes { Passes W.contents self.old self.new [] }
    {
        self.fault = Some(StreamError::Memory);
    }

    /// Writes what is still in the block.
    pub(crate) fn finish(&mut self) -> Result<(), StreamError>
        ensures same_reference { self.new.writer.ghost_name ≡ self.old.writer.ghost_name }
        ensures failed { HasFailed self.old → result ≡ Err Memory }
        ensures sent { (start : Option (List ℕ)) (text : List ℕ)
            → Holds W.contents start text self.old
            → MatchResult result (λ _. Appends start (W.contents self.new.writer.now) text)
            (λ _. AppendsFront start (W.contents self.new.writer.now) text) }
    {
        self.flush();
        match self.fault.take() {
            Some(fault) => Err(fault),
            None => Ok(()),
        }
    }
}
