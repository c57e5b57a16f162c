//! Short documents, without `orders` if each list is in descending index order.
use super::scenes::{Scene, both, compact, stable};
use super::streaming::{Failing, fault_of, refuse};
use super::support::{
    EMPTY, FIRST_EDGE_GONE, Kind, NODE_GONE, PARALLEL, Plain, REORDERED, Recipe, dag_of, holds,
    made, node, number, value_of,
};
use daggy_json::documents::write_short_json;
use daggy_json::error::StreamError;
use std::alloc::Global;
use std::io::ErrorKind;
use std::process::Abort;

// Asserts the short text of a dag, and that this text is read as a dag with the same document.
fn is_short<S: Kind>(rt: &impl Abort, alloc: Global, dag: &Plain<S>, wanted: &str) {
    let mut out = Vec::new(alloc);
    made(rt, write_short_json(dag, &mut out, number, number));
    holds(rt, out.as_slice() == wanted.as_bytes());
    let read = made(rt, S::read(alloc, &value_of(rt, alloc, wanted)));
    let value = made(rt, S::document(alloc, dag));
    let again = made(rt, S::document(alloc, &read));
    let text = made(rt, value.to_string(alloc));
    holds(rt, made(rt, again.to_string(alloc)) == text);
}

/// Asserts the short text of a dag that is made by a recipe.
pub fn shortens<S: Kind>(rt: &impl Abort, alloc: Global, recipe: Recipe<'_>, wanted: &str) {
    let dag: Plain<S> = dag_of(rt, alloc, recipe);
    is_short(rt, alloc, &dag, wanted);
}

const SHORT: &str = "{\"edge_property\":\"directed\",\"edges\":[[0,1,4],[0,2,5],[0,1,6]],\
     \"node_holes\":[],\"nodes\":[1,2,3]}";

#[test]
fn the_orders_of_new_dags_are_left_out(rt: HostRuntime) {
    let nothing = "{\"edge_property\":\"directed\",\"edges\":[],\"node_holes\":[],\"nodes\":[]}";
    both(&rt, rt.alloc(), Scene::Shortened(EMPTY, nothing));
    both(&rt, rt.alloc(), Scene::Shortened(PARALLEL, SHORT));
}

#[test]
fn an_out_list_that_ascends_is_written(rt: HostRuntime) {
    let scene = Scene::Shortened(FIRST_EDGE_GONE, REORDERED);
    compact(&rt, rt.alloc(), scene);
}

#[test]
fn an_in_list_that_ascends_is_written(rt: HostRuntime) {
    let recipe = Recipe {
        nodes: &[1, 2, 3, 4],
        edges: &[(0, 3, 4), (1, 2, 5), (0, 2, 6)],
        gone_edges: &[0],
        ..EMPTY
    };
    let wanted = "{\"edge_property\":\"directed\",\"edges\":[[0,2,6],[1,2,5]],\"node_holes\":[],\
         \"nodes\":[1,2,3,4],\"orders\":[[[0],[]],[[1],[]],[[],[0,1]],[[],[]]]}";
    compact(&rt, rt.alloc(), Scene::Shortened(recipe, wanted));
}

#[test]
fn the_orders_around_vacant_slots_are_left_out(rt: HostRuntime) {
    let wanted = "{\"edge_property\":\"directed\",\"edges\":[null,[0,2,5]],\"node_holes\":[1],\
         \"nodes\":[10,30]}";
    stable(&rt, rt.alloc(), Scene::Shortened(NODE_GONE, wanted));
}

/// Adds an edge after the oldest one was removed, and asserts the short text.
pub fn fills<S: Kind>(rt: &impl Abort, alloc: Global, wanted: &str) {
    let mut dag: Plain<S> = dag_of(rt, alloc, FIRST_EDGE_GONE);
    let (a, b) = (node(rt, 0), node(rt, 1));
    holds(rt, dag.contains_node(a) && dag.contains_node(b));
    holds(rt, dag.can_add_edge());
    let _e = made(rt, dag.add_edge(a, b, 7));
    is_short(rt, alloc, &dag, wanted);
}

#[test]
fn an_edge_in_a_vacant_slot_has_its_place_in_a_list(rt: HostRuntime) {
    let wanted =
        "{\"edge_property\":\"directed\",\"edges\":[[0,1,7],[0,2,5],[0,1,6]],\"node_holes\":[],\
         \"nodes\":[1,2,3],\"orders\":[[[0,2,1],[]],[[],[0,2]],[[],[1]]]}";
    stable(&rt, rt.alloc(), Scene::Filled(wanted));
}

// Writes to a writer that takes 7 bytes a call and fails after `calls` calls, and asserts what it
// took.
fn fault_after<S: Kind>(
    rt: &impl Abort,
    alloc: Global,
    dag: &Plain<S>,
    calls: usize,
    text: &str,
) -> Option<ErrorKind> {
    let mut out = Failing {
        taken: Vec::new(alloc),
        step: 7,
        calls,
    };
    let fault = fault_of(rt, write_short_json(dag, &mut out, number, number));
    let count = calls.saturating_mul(7).min(text.len());
    holds(rt, out.taken.as_slice() == &text.as_bytes()[..count]);
    fault
}

/// Writes to a writer that fails, at each of its calls in turn.
pub fn fails_short<S: Kind>(rt: &impl Abort, alloc: Global, recipe: Recipe<'_>, text: &str) {
    let dag: Plain<S> = dag_of(rt, alloc, recipe);
    let enough = text.len().div_ceil(7);
    for calls in 0..enough {
        let fault = fault_after(rt, alloc, &dag, calls, text);
        holds(rt, fault == Some(ErrorKind::BrokenPipe));
    }
    holds(rt, fault_after(rt, alloc, &dag, enough, text).is_none());
}

#[test]
fn a_fault_at_any_write_of_a_short_text_is_the_answer(rt: HostRuntime) {
    compact(&rt, rt.alloc(), Scene::ShortFailing(PARALLEL, SHORT));
    let scene = Scene::ShortFailing(FIRST_EDGE_GONE, REORDERED);
    compact(&rt, rt.alloc(), scene);
}

/// Writes a short text with a function that fails.
pub fn ends_short<S: Kind>(rt: &impl Abort, alloc: Global) {
    let dag: Plain<S> = dag_of(rt, alloc, PARALLEL);
    let mut out = Vec::new(alloc);
    let answer = write_short_json(&dag, &mut out, refuse, number);
    holds(rt, matches!(answer, Err(StreamError::Memory)));
    holds(rt, out.is_empty());
}

#[test]
fn a_failing_function_ends_a_short_text(rt: HostRuntime) {
    compact(&rt, rt.alloc(), Scene::NotShortened);
}
