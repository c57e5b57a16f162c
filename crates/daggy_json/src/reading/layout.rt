//! The holes of a document, and how many slots it has.
ghost use Rattle.std.specs.Prelude.{◌≡◌, ◌+◌, ◌<◌, ◌≤◌, ◌^◌, ◌↔◌, IsTrue, Some, None, length, OnOk, IfErr, MatchOption};
ghost use Rattle.daggy_base.specs.declared.kind.Kind.TheVariants.{Stable};
ghost use Rattle.daggy_json.specs.Reading.{Ascend, AreHoles, IsLaidOut};
ghost use Rattle.daggy_json.specs.Found.{parts_of};
ghost use Rattle.daggy_json.specs.FoundFault.{IsLayoutFault};
ghost use Rattle.daggy_json.specs.Fault.{AreRight, IsWrongHole};

use crate::error::ReadError;
use crate::fault::{Fault, Member};
use crate::reading::parts::Parts;
use daggy_base::index::{IndexType, NodeIndex};
use daggy_base::kind::Kind;

// Whether this may be the next hole, where the least is low.
fn is_right(kind: Kind, hole: usize, low: usize, slots: usize) -> bool
    ensures { IsTrue result ↔ ((kind ≡ Stable) × (low ≤ hole) × (hole < slots)) }
{
    kind == Kind::Stable && low <= hole && hole < slots
}

// The first hole that is not above the one before it, or not below the number of slots. In the
// compact kind each hole is wrong.
fn find_wrong_hole(kind: Kind, holes: &Vec<usize>, slots: usize) -> Option<usize>
    ensures { MatchOption result (AreRight kind slots holes.now.items)
        (λ i. IsWrongHole kind slots holes.now.items i) }
{
    let mut low = 0;
    for i in 0..holes.len() {
        let hole = holes[i];
        if !is_right(kind, hole, low, slots) {
            return Some(i);
        }
        low = hole + 1;
    }
    None
}

// Tests the property, the holes and the numbers of slots.
pub(super) fn check_layout<Ix: IndexType>(kind: Kind, parts: &Parts) -> Result<(), Fault>
    ensures ok { OnOk result (IsLaidOut Ix.greatest kind
        (parts_of parts.now.nodes.now.items parts.now.holes.items parts.now.property.now
        parts.now.edges.now.items parts.now.orders) None) }
    ensures err { IfErr result (λ f. IsLayoutFault Ix.greatest kind
        (parts_of parts.now.nodes.now.items parts.now.holes.items parts.now.property.now
        parts.now.edges.now.items parts.now.orders) f) }
{
    if parts.property != "directed" {
        return Err(Fault::of(ReadError::Property, Member::EdgeProperty));
    }
    let greatest = NodeIndex::<Ix>::end().index();
    let slots = parts.nodes.len() + parts.holes.len();
    if let Some(i) = find_wrong_hole(kind, &parts.holes, slots) {
        return Err(Fault::at(ReadError::Holes, Member::NodeHoles, i));
    }
    if slots > greatest {
        return Err(Fault::of(ReadError::Full, Member::Nodes));
    }
    if parts.edges.len() > greatest {
        return Err(Fault::of(ReadError::Full, Member::Edges));
    }
    Ok(())
}
