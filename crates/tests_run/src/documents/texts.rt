//! Dags of texts, read from a document and written again.
use crate::documents::support::{is_text, made, value_of};
use daggy_dag::acyclic::{Dag, StableDag};
use daggy_json::documents::{dag_from_json, dag_to_json, stable_from_json, stable_to_json};
use serde_json::Value;
use std::alloc::{AllocError, Global};
use std::process::Abort;

// A text as it is written.
fn encoded(text: &String) -> Result<Value, AllocError> {
    Ok(Value::String(text.clone()?))
}

// A text; anything else is refused.
fn decoded(value: &Value) -> Result<Option<String>, AllocError> {
    match value {
        Value::String(text) => Ok(Some(text.clone()?)),
        _ => Ok(None),
    }
}

const FULL: &str =
    "{\"edge_property\":\"directed\",\"edges\":[[0,1,\"x\"],[0,2,\"y\"]],\"node_holes\":[],\
     \"nodes\":[\"a\",\"b\",\"\"],\"orders\":[[[0,1],[]],[[],[0]],[[],[1]]]}";

const WITH_HOLES: &str =
    "{\"edge_property\":\"directed\",\"edges\":[null,[0,2,\"y\"]],\"node_holes\":[1],\
     \"nodes\":[\"a\",\"b\"],\"orders\":[[[1],[]],[[],[1]]]}";

fn is_written_as(rt: &impl Abort, alloc: Global, dag: &Dag<String, String, u8>, wanted: &str) {
    let value = made(rt, dag_to_json(alloc, dag, encoded, encoded));
    is_text(rt, alloc, &value, wanted);
}

#[test]
fn texts_are_read_and_written(rt: HostRuntime) {
    let value = value_of(&rt, rt.alloc(), FULL);
    let dag = made(&rt, dag_from_json(rt.alloc(), &value, decoded, decoded));
    is_written_as(&rt, rt.alloc(), &dag, FULL);
}

fn is_written_as_stable(
    rt: &impl Abort,
    alloc: Global,
    dag: &StableDag<String, String, u8>,
    wanted: &str,
) {
    let value = made(rt, stable_to_json(alloc, dag, encoded, encoded));
    is_text(rt, alloc, &value, wanted);
}

#[test]
fn texts_in_slots_are_read_and_written(rt: HostRuntime) {
    let value = value_of(&rt, rt.alloc(), WITH_HOLES);
    let dag = made(&rt, stable_from_json(rt.alloc(), &value, decoded, decoded));
    is_written_as_stable(&rt, rt.alloc(), &dag, WITH_HOLES);
}
