//! What the fields of a row say.
ghost use Rattle.std.specs.Prelude.{◌≡◌, ◌+◌, [], Ok, Err, MatchResult, IfOk, IfErr, string_bytes, unwrap_or};
ghost use Rattle.csv.specs.Records.{fields_of, field_at};
ghost use Rattle.daggy_base.specs.Graph.{Edge};
ghost use Rattle.daggy_tables.specs.Rows.{number_of, index_below, within, node_of_fields};
ghost use Rattle.daggy_tables.specs.Rows.{edge_of_fields};
ghost use Rattle.daggy_tables.specs.Stops.{StopsRow, StopsAt};
ghost use Rattle.daggy_tables.specs.declared.fields.RowStop.TheVariants.{Memory};

use crate::error::RowFault;
use crate::rows::{Stop, fault_at, field};
use csv::StringRecord;
use std::alloc::Global;

/// Why a row says nothing.
#[derive(Drop)]
pub(crate) enum RowStop {
    Memory,
    Fault(RowFault),
}

/// What stopped the row of this number.
pub(crate) fn stop_at(text: &[u8], row: &StringRecord, number: usize, stop: RowStop) -> Stop
    ensures { StopsAt number stop result }
{
    match stop {
        RowStop::Memory => Stop::Memory,
        RowStop::Fault(fault) => fault_at(text, row, number, fault),
    }
}

// The index below `bound` that a field says; `beyond` if it says a greater one.
fn index_in(text: &str, bound: usize, beyond: RowFault) -> Result<usize, RowFault>
    ensures { result ≡ index_below bound beyond (number_of text.now) }
{
    match text.parse::<usize>() {
        Ok(index) => {
            if index < bound {
                Ok(index)
            } else {
                Err(beyond)
            }
        }
        Err(_) => Err(RowFault::NotAnIndex),
    }
}

// A field as a weight.
fn weight_of(alloc: Global, row: &StringRecord, i: usize) -> Result<String, RowStop>
    ensures ok { IfOk result (λ w.
        string_bytes w ≡ unwrap_or (field_at (fields_of row.now) i) []) }
    ensures err { IfErr result (λ e. e ≡ Memory) }
{
    match String::from_str(alloc, field(row, i)) {
        Ok(weight) => Ok(weight),
        Err(_) => Err(RowStop::Memory),
    }
}

/// The weight that the row of node `n` says.
pub(crate) fn read_node(
    alloc: Global,
    row: &StringRecord,
    n: usize,
    limit: usize,
) -> Result<String, RowStop>
    ensures { let said = within limit n (node_of_fields n (fields_of row.now)) in
        MatchResult result (λ w. said ≡ Ok (string_bytes w)) (λ e. StopsRow said e) }
{
    if n >= limit {
        return Err(RowStop::Fault(RowFault::Full));
    }
    if row.len() != 2 {
        return Err(RowStop::Fault(RowFault::FieldCount));
    }
    match index_in(field(row, 0), n + 1, RowFault::NotInOrder) {
        Ok(index) => {
            if index != n {
                return Err(RowStop::Fault(RowFault::NotInOrder));
            }
        }
        Err(fault) => return Err(RowStop::Fault(fault)),
    }
    weight_of(alloc, row, 1)
}

/// The parent, the child and the weight that the row of edge `e` says.
pub(crate) fn read_edge(
    alloc: Global,
    row: &StringRecord,
    e: usize,
    limit: usize,
    bound: usize,
    beyond: RowFault,
) -> Result<(usize, usize, String), RowStop>
    ensures { let said = within limit e (edge_of_fields bound beyond (fields_of row.now)) in
        MatchResult result (λ x.
        said ≡ Ok (record { parent = x.0; child = x.1; weight = string_bytes x.2 }))
        (λ e. StopsRow said e) }
{
    if e >= limit {
        return Err(RowStop::Fault(RowFault::Full));
    }
    if row.len() != 3 {
        return Err(RowStop::Fault(RowFault::FieldCount));
    }
    let parent = match index_in(field(row, 0), bound, beyond) {
        Ok(parent) => parent,
        Err(fault) => return Err(RowStop::Fault(fault)),
    };
    let child = match index_in(field(row, 1), bound, beyond) {
        Ok(child) => child,
        Err(fault) => return Err(RowStop::Fault(fault)),
    };
    let weight = weight_of(alloc, row, 2)?;
    Ok((parent, child, weight))
}
