//! The table of edges.
ghost use Rattle.std.specs.Prelude.{◌≡◌, ◌<◌, ◌≤◌, ℕ, [], Ok, Some, IfOk, IfErr, length, map};
ghost use Rattle.daggy_base.specs.Graph.{Edge, slot};
ghost use Rattle.daggy_base.specs.FromSlots.{vacant_down, edges_by};
ghost use Rattle.daggy_tables.specs.Reading.{occupied, with_text};
ghost use Rattle.daggy_tables.specs.Stops.{StopsTable};
ghost use Rattle.daggy_tables.specs.Tables.{rows_of, edges_said};
ghost use Rattle.daggy_tables.specs.Reading.{EndsBelow};

use crate::error::RowFault;
use crate::fields::{read_edge, stop_at};
use crate::rows::{Stop, rows_below, unread_at};
use daggy_base::index::{IndexType, NodeIndex};
use std::alloc::Global;

/// An edge in its slot: its parent, its child and its weight.
pub(crate) type EdgeSlot<Ix> = Option<(NodeIndex<Ix>, NodeIndex<Ix>, String)>;

/// The edges, whose endpoints are below `bound`; a greater one is at fault as `beyond` says.
pub(crate) fn read_edges<Ix: IndexType>(
    alloc: Global,
    text: &[u8],
    bound: usize,
    beyond: RowFault,
) -> Result<Vec<EdgeSlot<Ix>>, Stop>
    requires { bound ≤ Ix.greatest }
    ensures said { IfOk result (λ v. edges_said Ix.greatest bound beyond (rows_of text.now)
        ≡ Ok (map with_text (occupied (edges_by Ix.number v.items)))) }
    ensures few { IfOk result (λ v. length v.items ≤ Ix.greatest) }
    ensures full { IfOk result (λ v. vacant_down (edges_by Ix.number v.items) ≡ []) }
    ensures ends { IfOk result (λ v. EndsBelow bound (edges_by Ix.number v.items)) }
    ensures stops { IfErr result
        (λ e. StopsTable (edges_said Ix.greatest bound beyond (rows_of text.now)) e) }
{
    let end: NodeIndex<Ix> = NodeIndex::end();
    let rows = rows_below(alloc, text, &["parent", "child", "weight"])?;
    let mut edges = Vec::new(alloc);
    'rows: for item in rows {
        let number = edges.len() + 1;
        let row = match item {
            Ok(row) => row,
            Err(unread) => return Err(unread_at(unread, number)),
        };
        let read = match read_edge(alloc, &row, edges.len(), end.index(), bound, beyond) {
            Ok(read) => read,
            Err(stop) => return Err(stop_at(text, &row, number, stop)),
        };
        let (parent, child, weight) = read;
        let edge = (NodeIndex::new(parent), NodeIndex::new(child), weight);
        if edges.push(Some(edge)).is_err() {
            return Err(Stop::Memory);
        }
    }
    Ok(edges)
}
