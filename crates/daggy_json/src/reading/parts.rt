//! Reading the members of a document.
ghost use Rattle.std.specs.Prelude.{◌≡◌, ◌⊎◌, Some, None, map, codes, IfOk, IfErr};
ghost use Rattle.std.specs.Option.{option_map};
ghost use Rattle.serde_json.specs.View.{view};
ghost use Rattle.serde_json.specs.Find.{get};
ghost use Rattle.daggy_json.specs.Reading.{array_at, all_in, whole_in, numbers_in, holes_in};
ghost use Rattle.daggy_json.specs.Reading.{parts_in};
ghost use Rattle.daggy_json.specs.Found.{parts_of};
ghost use Rattle.daggy_json.specs.FoundFault.{StopsIn};
ghost use Rattle.daggy_json.specs.Fault.{IsWhole, HasWrongHoles, IsShapeFault};
ghost use Rattle.daggy_json.specs.declared.error.ReadError.TheVariants.{Shape, Memory};
ghost use Rattle.daggy_json.specs.declared.fault.Member.TheVariants.{NodeHoles};

use crate::error::ReadError;
use crate::fault::{Fault, Member};
use serde_json::Value;
use std::alloc::Global;

// The parts of a document, borrowed from its value.
#[derive(Drop)]
pub(super) struct Parts<'v> {
    pub(super) nodes: &'v Vec<Value>,
    pub(super) holes: Vec<usize>,
    pub(super) property: &'v str,
    pub(super) edges: &'v Vec<Value>,
    pub(super) orders: Option<&'v Value>,
}

fn find_array<'v>(value: &'v Value, key: &str) -> Option<&'v Vec<Value>>
    ensures { option_map (λ v. map view v.now.items) result ≡ array_at key.now (view value.now) }
{
    value.get(key)?.as_array()
}

// The holes, if each value is a whole number.
fn read_numbers(alloc: Global, list: &Vec<Value>) -> Result<Vec<usize>, Fault>
    ensures ok { IfOk result (λ v. all_in whole_in (map view list.now.items) ≡ Some v.items) }
    ensures err { IfErr result (λ f. (f.error ≡ Memory)
        ⊎ StopsIn IsWhole (map view list.now.items) NodeHoles f) }
{
    let mut numbers = Vec::new(alloc);
    numbers.reserve(list.len())?;
    for value in list {
        let Some(n) = value.as_u64() else {
            return Err(Fault::at(ReadError::Shape, Member::NodeHoles, numbers.len()));
        };
        numbers.push(n as usize)?;
    }
    Ok(numbers)
}

// The vacant slots of nodes. None without the key.
fn read_holes(alloc: Global, value: &Value) -> Result<Vec<usize>, Fault>
    ensures ok { IfOk result (λ v.
        holes_in (get (codes "node_holes") (view value.now)) ≡ Some v.items) }
    ensures err { IfErr result (λ f. (f.error ≡ Memory) ⊎ (f.error ≡ Shape)
        × (f.place.member ≡ NodeHoles) × HasWrongHoles (view value.now) f.place.entry) }
{
    let Some(holes) = value.get("node_holes") else {
        return Ok(Vec::new(alloc));
    };
    let Some(list) = holes.as_array() else {
        return Err(Fault::of(ReadError::Shape, Member::NodeHoles));
    };
    read_numbers(alloc, list)
}

// The parts of the document.
pub(super) fn read_parts<'v>(alloc: Global, value: &'v Value) -> Result<Parts<'v>, Fault>
    ensures ok { IfOk result (λ p. parts_in (view value.now)
        ≡ Some
        (parts_of p.nodes.now.items p.holes.items p.property.now p.edges.now.items p.orders)) }
    ensures err { IfErr result (λ f. (f.error ≡ Memory) ⊎ (f.error ≡ Shape)
        × IsShapeFault (view value.now) f.place.member f.place.entry) }
{
    if !value.is_object() {
        return Err(Fault::of(ReadError::Shape, Member::Document));
    }
    let Some(nodes) = find_array(value, "nodes") else {
        return Err(Fault::of(ReadError::Shape, Member::Nodes));
    };
    let Some(property) = value.get("edge_property").and_then(Value::as_str) else {
        return Err(Fault::of(ReadError::Shape, Member::EdgeProperty));
    };
    let Some(edges) = find_array(value, "edges") else {
        return Err(Fault::of(ReadError::Shape, Member::Edges));
    };
    let holes = read_holes(alloc, value)?;
    Ok(Parts {
        nodes,
        holes,
        property,
        edges,
        orders: value.get("orders"),
    })
}
