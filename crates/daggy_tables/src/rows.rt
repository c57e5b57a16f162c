//! The rows of a table.
ghost use Rattle.std.specs.Prelude.{◌≡◌, List, Some, None, [], MatchResult, map, unwrap_or};
ghost use Rattle.csv.specs.Records.{AllText, fields_of, field_at};
ghost use Rattle.daggy_tables.specs.Left.{RowsLeft, TellsText};
ghost use Rattle.daggy_tables.specs.Rows.{Row, same_fields};
ghost use Rattle.daggy_tables.specs.Tables.{rows_of, rows_below as rows_under};
ghost use Rattle.daggy_tables.specs.Stops.{IsFaultOf, StopsHeader, UnreadAt};

use crate::error::{RowError, RowFault};
use csv::{Error, ErrorKind, Position, ReaderBuilder, StringRecord, StringRecordsIntoIter};
use std::alloc::Global;

/// Why reading a table stopped.
#[derive(Drop)]
pub(crate) enum Stop {
    Memory,
    Row(RowError),
}

/// A row that is not given.
#[derive(Drop)]
pub(crate) enum Unread {
    Memory,
    // It is not valid UTF-8, and starts in this line.
    NotText { line: usize },
}

/// The rows of a text.
#[derive(Drop)]
pub(crate) struct Rows<'t> {
    text: &'t [u8],
    records: StringRecordsIntoIter<&'t [u8]>,
}

impl<'t> Rows<'t> {
    pub(crate) fn new(alloc: Global, text: &'t [u8]) -> Self
        ensures { RowsLeft result.records (rows_of text.now) }
    {
        let reader = ReaderBuilder::new()
            .has_headers(false)
            .flexible(true)
            .from_reader(alloc, text);
        Rows {
            text,
            records: reader.into_records(),
        }
    }
}

impl<'t> Iterator for Rows<'t> {
    type Item = Result<StringRecord, Unread>;

    ghost use Rattle.std.specs.Iterator.{at_most};
    ghost use Rattle.csv.specs.Reading.{owned_text_rows_left};
    ghost use Rattle.daggy_tables.specs.Left.{NextRow};

    ghost remaining = { λ s. at_most (owned_text_rows_left s.records) };

    ghost next_gives = { λ a r b. (rows : List Row) → RowsLeft a.records rows
        → NextRow rows r (RowsLeft b.records) };

    fn next(&mut self) -> Option<Result<StringRecord, Unread>> {
        match self.records.next() {
            None => None,
            Some(Ok(row)) => Some(Ok(row)),
            Some(Err(error)) => Some(Err(why_unread(self.text, &error))),
        }
    }
}

// Why a row is not given.
fn why_unread(text: &[u8], error: &Error) -> Unread
    ensures { TellsText error.now result }
{
    match error.kind() {
        ErrorKind::Utf8 { pos, err: _ } => Unread::NotText {
            line: line_of(text, *pos),
        },
        _ => Unread::Memory,
    }
}

// Whether a byte ends a line.
fn ends_line(byte: u8) -> bool {
    byte == b'\n' || byte == b'\r'
}

// The line in which a row starts: that of the first byte from the position on that ends no line.
pub(crate) fn line_of(text: &[u8], position: Option<Position>) -> usize {
    let start = match position {
        Some(position) => position.byte() as usize,
        None => 0,
    };
    let mut line = 1usize;
    for (i, byte) in text.iter().enumerate() {
        if i >= start && !ends_line(*byte) {
            return line;
        }
        if *byte == b'\n' {
            line = line.saturating_add(1);
        }
    }
    line
}

/// The error of a row that starts in this line.
pub(crate) fn fault_in(line: usize, number: usize, fault: RowFault) -> Stop
    ensures { IsFaultOf number fault result }
{
    Stop::Row(RowError {
        row: number,
        line,
        fault,
    })
}

/// The error of a row.
pub(crate) fn fault_at(text: &[u8], row: &StringRecord, number: usize, fault: RowFault) -> Stop
    ensures { IsFaultOf number fault result }
{
    fault_in(line_of(text, row.position()), number, fault)
}

/// Why the row of this number is not given.
pub(crate) fn unread_at(unread: Unread, number: usize) -> Stop
    ensures { UnreadAt number unread result }
{
    match unread {
        Unread::Memory => Stop::Memory,
        Unread::NotText { line } => fault_in(line, number, RowFault::NotText),
    }
}

// Whether a row has these fields.
fn has_fields(row: &StringRecord, names: &[&str]) -> bool
    ensures { result ≡ same_fields (fields_of row.now) (map (λ s. s.now) names.now) }
{
    if row.len() != names.len() {
        return false;
    }
    'names: for i in 0..names.len() {
        if field(row, i) != names[i] {
            return false;
        }
    }
    true
}

/// A field of a row.
pub(crate) fn field(row: &StringRecord, i: usize) -> &str
    ensures { result.now ≡ unwrap_or (field_at (fields_of row.now) i) [] }
{
    match row.get(i) {
        Some(text) => text,
        None => "",
    }
}

/// The rows below the header.
pub(crate) fn rows_below<'t>(
    alloc: Global,
    text: &'t [u8],
    names: &[&str],
) -> Result<Rows<'t>, Stop>
    requires { AllText (map (λ s. s.now) names.now) }
    ensures { let below = rows_under (map (λ s. s.now) names.now) (rows_of text.now) in
        MatchResult result (λ r. (rest : List Row) × (below ≡ Some rest) × RowsLeft r.records rest)
        (λ e. StopsHeader e (below ≡ None)) }
{
    let mut rows = Rows::new(alloc, text);
    match rows.next() {
        Some(Ok(row)) => {
            if has_fields(&row, names) {
                Ok(rows)
            } else {
                Err(fault_at(text, &row, 0, RowFault::Header))
            }
        }
        Some(Err(Unread::NotText { line })) => Err(fault_in(line, 0, RowFault::Header)),
        Some(Err(Unread::Memory)) => Err(Stop::Memory),
        None => Err(fault_in(1, 0, RowFault::Header)),
    }
}
