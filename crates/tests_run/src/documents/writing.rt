//! Documents that are written, by their texts.
use super::scenes::{Scene, both, compact, stable};
use super::support::{
    EMPTY, FIRST_EDGE_GONE, Kind, NODE_GONE, NODES_GONE, NOTHING, ONE_NODE, Plain, REORDERED,
    Recipe, VACANT, dag_of, holds, is_written,
};
use daggy_json::error::{ReadError, WriteError};
use std::alloc::{AllocError, Global};
use std::process::Abort;

/// Asserts the document of a dag that is made by a recipe.
pub fn writes<S: Kind>(rt: &impl Abort, alloc: Global, recipe: Recipe<'_>, wanted: &str) {
    let dag: Plain<S> = dag_of(rt, alloc, recipe);
    is_written(rt, alloc, &dag, wanted);
}

/// Asserts that a dag has no document if there is no memory for a weight.
pub fn writes_nothing<S: Kind>(rt: &impl Abort, alloc: Global) {
    let dag: Plain<S> = dag_of(rt, alloc, ONE_NODE);
    let answer = S::refused_document(alloc, &dag);
    holds(rt, matches!(&answer, Err(WriteError::Memory)));
}

#[test]
fn nothing_is_written_as_empty_lists(rt: HostRuntime) {
    both(&rt, rt.alloc(), Scene::Written(EMPTY, NOTHING));
}

#[test]
fn the_lists_are_written_in_their_order(rt: HostRuntime) {
    let scene = Scene::Written(FIRST_EDGE_GONE, REORDERED);
    compact(&rt, rt.alloc(), scene);
}

#[test]
fn vacant_slots_below_the_bound_are_named(rt: HostRuntime) {
    stable(&rt, rt.alloc(), Scene::Written(NODE_GONE, VACANT));
}

const CUT: &str = "{\"edge_property\":\"directed\",\"edges\":[],\"node_holes\":[],\"nodes\":[10],\
     \"orders\":[[[],[]]]}";

#[test]
fn vacant_slots_past_the_bound_are_left_out(rt: HostRuntime) {
    stable(&rt, rt.alloc(), Scene::Written(NODES_GONE, CUT));
}

#[test]
fn want_of_memory_for_a_weight_is_the_answer(rt: HostRuntime) {
    compact(&rt, rt.alloc(), Scene::NotWritten);
}

#[test]
fn errors_have_their_texts(rt: HostRuntime) -> Result<(), AllocError> {
    for (error, wanted) in [
        (ReadError::Shape, "wrong shape"),
        (ReadError::Property, "not directed"),
        (ReadError::Holes, "wrong holes"),
        (ReadError::Full, "no index left"),
        (ReadError::Weight, "wrong weight"),
        (ReadError::BadEndpoint, "no such endpoint"),
        (ReadError::Orders, "wrong orders"),
        (ReadError::Cycle, "document has a cycle"),
        (ReadError::Memory, "out of memory"),
    ] {
        let text = format!(in rt.alloc(); "{error}")?;
        holds(&rt, text.as_str() == wanted);
    }
    let text = format!(in rt.alloc(); "{}", WriteError::Memory)?;
    holds(&rt, text.as_str() == "out of memory");
    Ok(())
}
