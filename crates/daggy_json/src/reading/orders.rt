//! Reading the member `orders` of a document.
ghost use Rattle.std.specs.Prelude.{◌≡◌, ◌≤◌, map, IfOk};
ghost use Rattle.std.specs.Option.{option_map};
ghost use Rattle.serde_json.specs.View.{view};
ghost use Rattle.daggy_base.specs.Orders.{numbers_of};
ghost use Rattle.daggy_json.specs.Found.{orders_by, index_in, indices_in, row_in, rows_in};

use daggy_base::index::{EdgeIndex, IndexType};
use serde_json::Value;
use std::alloc::{AllocError, Global};

/// The edges that leave a node, and those that enter it.
pub type Row<Ix> = (Vec<EdgeIndex<Ix>>, Vec<EdgeIndex<Ix>>);

// The index of an edge slot.
fn find_index<Ix: IndexType>(value: &Value, bound: usize) -> Option<EdgeIndex<Ix>>
    requires { bound ≤ Ix.greatest }
    ensures { option_map Ix.number result ≡ index_in bound (view value.now) }
{
    let n = value.as_u64()? as usize;
    if n < bound {
        Some(EdgeIndex::new(n))
    } else {
        None
    }
}

// A list of indices of edge slots, if the value is such a list.
fn read_list<Ix: IndexType>(
    alloc: Global,
    value: &Value,
    bound: usize,
) -> Result<Option<Vec<EdgeIndex<Ix>>>, AllocError>
    requires { bound ≤ Ix.greatest }
    ensures { IfOk result (λ o.
        option_map (λ v. map Ix.number v.items) o ≡ indices_in bound (view value.now)) }
{
    let Some(list) = value.as_array() else {
        return Ok(None);
    };
    let mut indices = Vec::new(alloc);
    indices.reserve(list.len())?;
    for item in list {
        let Some(e) = find_index(item, bound) else {
            return Ok(None);
        };
        indices.push(e)?;
    }
    Ok(Some(indices))
}

// The two lists of a node, if there are two.
pub(super) fn read_row<Ix: IndexType>(
    alloc: Global,
    value: &Value,
    bound: usize,
) -> Result<Option<Row<Ix>>, AllocError>
    requires { bound ≤ Ix.greatest }
    ensures { IfOk result (λ o.
        option_map (numbers_of Ix.number) o ≡ row_in bound (view value.now)) }
{
    let Some(lists) = value.as_array() else {
        return Ok(None);
    };
    if lists.len() != 2 {
        return Ok(None);
    }
    let (first, second) = (&lists[0], &lists[1]);
    let Some(out_list) = read_list(alloc, first, bound)? else {
        return Ok(None);
    };
    let Some(in_list) = read_list(alloc, second, bound)? else {
        return Ok(None);
    };
    Ok(Some((out_list, in_list)))
}

// The lists of the nodes, if the values are such lists.
pub(super) fn read_rows<Ix: IndexType>(
    alloc: Global,
    value: &Value,
    bound: usize,
) -> Result<Option<Vec<Row<Ix>>>, AllocError>
    requires { bound ≤ Ix.greatest }
    ensures { IfOk result (λ o. orders_by Ix.number o ≡ rows_in bound (view value.now)) }
{
    let Some(list) = value.as_array() else {
        return Ok(None);
    };
    let mut rows = Vec::new(alloc);
    rows.reserve(list.len())?;
    for item in list {
        let Some(row) = read_row(alloc, item, bound)? else {
            return Ok(None);
        };
        rows.push(row)?;
    }
    Ok(Some(rows))
}
