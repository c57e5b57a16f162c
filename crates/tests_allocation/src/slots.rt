//! Slots that a graph is made of.
ghost use Rattle.std.specs.Prelude.{◌≡◌, [], ◌∷◌, Some};
ghost use Rattle.daggy_base.specs.FromSlots.{edges_by};

use crate::support::{made, refuse};
use daggy::NodeIndex;
use std::alloc::Global;
use std::process::Abort;

/// The slots of two nodes, which are asked for again if they are refused.
pub fn node_slots(rt: &impl Abort, alloc: Global, refused: &mut bool) -> Vec<Option<usize>>
    ensures { result.items ≡ Some 7 ∷ Some 8 ∷ [] }
{
    match vec![in alloc; Some(7), Some(8)] {
        Ok(slots) => slots,
        Err(_) => {
            refuse(rt, refused);
            made(rt, vec![in alloc; Some(7), Some(8)])
        }
    }
}

/// An edge in its slot: its ends and its weight.
pub type EdgeSlot = Option<(NodeIndex, NodeIndex, usize)>;

/// The slot of an edge from the first of them to one of both, likewise.
pub fn edge_slots(rt: &impl Abort, alloc: Global, child: u32, refused: &mut bool) -> Vec<EdgeSlot>
    ensures { edges_by (λ i. i) result.items
        ≡ Some (record { parent = 0; child = child; weight = 9 }) ∷ [] }
{
    let ends = (NodeIndex::new(0), NodeIndex::new(child as usize));
    match vec![in alloc; Some((ends.0, ends.1, 9))] {
        Ok(slots) => slots,
        Err(_) => {
            refuse(rt, refused);
            made(rt, vec![in alloc; Some((ends.0, ends.1, 9))])
        }
    }
}
