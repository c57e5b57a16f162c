//! Reading the member `nodes` of a document.
ghost use Rattle.std.specs.Prelude.{◌≡◌, ◌+◌, ◌^◌, ◌<◌, ◌⊎◌, Ok, Err, map, length, vec_len, IfOk};
ghost use Rattle.std.specs.Prelude.{IfErr};
ghost use Rattle.serde_json.specs.View.{view};
ghost use Rattle.daggy_json.specs.Reading.{Ascend, AreSlots, ReadsEach, IsWeight};
ghost use Rattle.daggy_json.specs.FoundFault.{StopsIn};
ghost use Rattle.daggy_json.specs.Weight.{ReadsAs};
ghost use Rattle.daggy_json.specs.declared.error.ReadError.TheVariants.{Memory};
ghost use Rattle.daggy_json.specs.declared.fault.Member.TheVariants.{Nodes};

use crate::error::ReadError;
use crate::fault::{Fault, Member};
use serde_json::Value;
use std::alloc::{AllocError, Global};

// A weight, by the function that reads it.
fn read_weight<W: Drop, F: Fn(&Value) -> Result<Option<W>, AllocError>>(
    value: &Value,
    read: &F,
) -> Result<W, ReadError>
    requires { F.IsAlwaysCallable read.now }
    ensures ok { IfOk result (λ w. IsWeight (ReadsAs F.Fn read.now) (view value.now) (Ok w)) }
    ensures err { IfErr result (λ e.
        (e ≡ Memory) ⊎ IsWeight (ReadsAs F.Fn read.now) (view value.now) (Err e)) }
{
    match read(value) {
        Ok(Some(weight)) => Ok(weight),
        Ok(None) => Err(ReadError::Weight),
        Err(_) => Err(ReadError::Memory),
    }
}

// The weights of the nodes, in their order.
pub(super) fn read_weights<N: Drop, F: Fn(&Value) -> Result<Option<N>, AllocError>>(
    alloc: Global,
    list: &Vec<Value>,
    fn_node: &F,
) -> Result<Vec<N>, Fault>
    requires { F.IsAlwaysCallable fn_node.now }
    ensures ok { IfOk result
        (λ v. ReadsEach (IsWeight (ReadsAs F.Fn fn_node.now)) (map view list.now.items)
        (Ok v.items)) }
    ensures err { IfErr result (λ f. (f.error ≡ Memory)
        ⊎ StopsIn (IsWeight (ReadsAs F.Fn fn_node.now)) (map view list.now.items) Nodes f) }
{
    let mut weights = Vec::new(alloc);
    weights.reserve(list.len())?;
    for value in list {
        match read_weight(value, fn_node) {
            Ok(weight) => weights.push(weight)?,
            Err(error) => return Err(Fault::at(error, Member::Nodes, weights.len())),
        }
    }
    Ok(weights)
}

// The slots of the nodes: vacant at the holes, with the weights in the others.
pub(super) fn place_weights<N: Drop>(
    alloc: Global,
    weights: Vec<N>,
    holes: &Vec<usize>,
) -> Result<Vec<Option<N>>, AllocError>
    requires fits { vec_len weights + vec_len holes.now < 2 ^ 64 }
    requires ascend { Ascend 0 (vec_len weights + vec_len holes.now) holes.now.items }
    ensures { IfOk result (λ v. AreSlots v.items holes.now.items weights.items) }
{
    let total = weights.len() + holes.len();
    let mut slots = Vec::new(alloc);
    slots.reserve(total)?;
    let mut rest = weights.into_iter();
    let mut passed = 0;
    'slots: while slots.len() < total {
        if passed < holes.len() && holes[passed] == slots.len() {
            slots.push(None)?;
            passed += 1;
        } else {
            slots.push(rest.next())?;
        }
    }
    Ok(slots)
}
