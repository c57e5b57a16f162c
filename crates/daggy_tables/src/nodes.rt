//! The table of nodes.
ghost use Rattle.std.specs.Prelude.{◌≡◌, ◌≤◌, [], Ok, IfOk, IfErr, length, map, string_bytes};
ghost use Rattle.daggy_base.specs.FromSlots.{vacant_down};
ghost use Rattle.daggy_tables.specs.Reading.{occupied};
ghost use Rattle.daggy_tables.specs.Stops.{StopsTable};
ghost use Rattle.daggy_tables.specs.Tables.{rows_of, nodes_said};

use crate::fields::{read_node, stop_at};
use crate::rows::{Stop, rows_below, unread_at};
use daggy_base::index::{IndexType, NodeIndex};
use std::alloc::Global;

/// The weights of the nodes.
pub(crate) fn read_nodes<Ix: IndexType>(
    alloc: Global,
    text: &[u8],
) -> Result<Vec<Option<String>>, Stop>
    ensures said { IfOk result (λ v. nodes_said Ix.greatest (rows_of text.now)
        ≡ Ok (map string_bytes (occupied v.items))) }
    ensures few { IfOk result (λ v. length v.items ≤ Ix.greatest) }
    ensures full { IfOk result (λ v. vacant_down v.items ≡ []) }
    ensures stops { IfErr result (λ e. StopsTable (nodes_said Ix.greatest (rows_of text.now)) e) }
{
    let end: NodeIndex<Ix> = NodeIndex::end();
    let rows = rows_below(alloc, text, &["node", "weight"])?;
    let mut nodes = Vec::new(alloc);
    'rows: for item in rows {
        let number = nodes.len() + 1;
        let row = match item {
            Ok(row) => row,
            Err(unread) => return Err(unread_at(unread, number)),
        };
        let weight = match read_node(alloc, &row, nodes.len(), end.index()) {
            Ok(weight) => weight,
            Err(stop) => return Err(stop_at(text, &row, number, stop)),
        };
        if nodes.push(Some(weight)).is_err() {
            return Err(Stop::Memory);
        }
    }
    Ok(nodes)
}
