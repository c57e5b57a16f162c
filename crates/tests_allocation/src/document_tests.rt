//! Documents that are written and read while memory is refused once: the answer is that there was
//! none. The same call then succeeds.
use crate::support::{answered, holds, made, refuse};
use daggy::json::{
    ReadError, WriteError, dag_from_json, dag_to_json, stable_from_json, stable_to_json,
};
use daggy::{Dag, StableDag};
use serde_json::Value;
use std::alloc::{AllocError, Global};
use std::process::Abort;
use std::rt::Env;

type Compact = Dag<u32, u32>;

type Stable = StableDag<u32, u32>;

fn number(weight: &u32) -> Result<Value, AllocError> {
    Ok(Value::from(*weight))
}

fn weight(value: &Value) -> Result<Option<u32>, AllocError> {
    Ok(match value.as_u64() {
        Some(n) if n < 100 => Some(n as u32),
        _ => None,
    })
}

// The value of a text, which is asked for again if it is refused.
fn value_of(rt: &impl Abort, alloc: Global, text: &str, refused: &mut bool) -> Value {
    match Value::from_str(alloc, text) {
        Ok(value) => value,
        Err(_) => {
            refuse(rt, refused);
            made(rt, Value::from_str(alloc, text))
        }
    }
}

// Asserts that the value has this text.
fn has_text(rt: &impl Abort, alloc: Global, value: &Value, wanted: &str, refused: &mut bool) {
    let text = match value.to_string(alloc) {
        Ok(text) => text,
        Err(_) => {
            refuse(rt, refused);
            made(rt, value.to_string(alloc))
        }
    };
    holds(rt, text.as_str() == wanted);
}

// Notes that there was no memory. A document without a fault has no other answer.
fn refuse_reading(rt: &impl Abort, error: ReadError, refused: &mut bool) {
    holds(rt, matches!(error, ReadError::Memory));
    refuse(rt, refused);
}

fn refuse_writing(rt: &impl Abort, error: WriteError, refused: &mut bool) {
    holds(rt, matches!(error, WriteError::Memory));
    refuse(rt, refused);
}

const CYCLIC: &str = "{\"edge_property\":\"directed\",\"edges\":[[0,1,4],[1,0,5]],\"nodes\":[2,3]}";

// Reads a document and writes its dag, each a second time if the first is refused, and asserts that
// the document is returned. Then reads one that has a cycle, likewise, and asserts the error.
fn comes_back<
    D: Drop,
    R: Fn(Global, &Value) -> Result<D, ReadError> + Drop,
    W: Fn(Global, &D) -> Result<Value, WriteError> + Drop,
>(rt: &(impl Abort + Env), alloc: Global, text: &str, read: R, write: W)
    requires reads { R.IsAlwaysCallable read }
    requires writes { W.IsAlwaysCallable write }
{
    let mut refused = false;
    let value = value_of(rt, alloc, text, &mut refused);
    let dag = match read(alloc, &value) {
        Ok(dag) => dag,
        Err(error) => {
            refuse_reading(rt, error, &mut refused);
            made(rt, read(alloc, &value))
        }
    };
    let written = match write(alloc, &dag) {
        Ok(written) => written,
        Err(error) => {
            refuse_writing(rt, error, &mut refused);
            made(rt, write(alloc, &dag))
        }
    };
    has_text(rt, alloc, &written, text, &mut refused);
    let cyclic = value_of(rt, alloc, CYCLIC, &mut refused);
    let answer = match read(alloc, &cyclic) {
        Err(ReadError::Memory) => {
            refuse(rt, &mut refused);
            read(alloc, &cyclic)
        }
        answer => answer,
    };
    holds(rt, matches!(answer, Err(ReadError::Cycle)));
    answered(rt, refused);
}

fn read_compact(alloc: Global, value: &Value) -> Result<Compact, ReadError> {
    dag_from_json(alloc, value, weight, weight)
}

fn write_compact(alloc: Global, dag: &Compact) -> Result<Value, WriteError> {
    dag_to_json(alloc, dag, number, number)
}

const COMPACT: &str =
    "{\"edge_property\":\"directed\",\"edges\":[[0,1,4],[0,1,5]],\"node_holes\":[],\"nodes\":[2,3],\
    \"orders\":[[[0,1],[]],[[],[1,0]]]}";

#[test]
fn a_refused_document_of_a_dag_is_told(rt: HostRuntime) {
    comes_back(&rt, rt.alloc(), COMPACT, read_compact, write_compact);
}

fn read_stable(alloc: Global, value: &Value) -> Result<Stable, ReadError> {
    stable_from_json(alloc, value, weight, weight)
}

fn write_stable(alloc: Global, dag: &Stable) -> Result<Value, WriteError> {
    stable_to_json(alloc, dag, number, number)
}

const VACANT: &str =
    "{\"edge_property\":\"directed\",\"edges\":[null,[0,2,5]],\"node_holes\":[1],\"nodes\":[2,3],\
    \"orders\":[[[1],[]],[[],[1]]]}";

#[test]
fn a_refused_document_of_a_stable_dag_is_told(rt: HostRuntime) {
    comes_back(&rt, rt.alloc(), VACANT, read_stable, write_stable);
}
