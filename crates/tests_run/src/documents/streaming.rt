//! Documents that are written to a writer.
use super::scenes::{Scene, both, compact, stable};
use super::support::{
    EMPTY, FIRST_EDGE_GONE, Kind, NODE_GONE, NOTHING, PARALLEL, Plain, REORDERED, Recipe, Small,
    VACANT, dag_of, holds, made, node, number,
};
use daggy_base::store::Store;
use daggy_dag::acyclic::Acyclic;
use daggy_graph::graph::DiGraph;
use daggy_json::documents::{dag_to_json, write_json};
use daggy_json::error::StreamError;
use serde_json::Value;
use std::alloc::{AllocError, Global};
use std::io::{self, ErrorKind, Write};
use std::process::Abort;

/// Asserts the text that is written of a dag that is made by a recipe.
pub fn streams<S: Kind>(rt: &impl Abort, alloc: Global, recipe: Recipe<'_>, wanted: &str) {
    let dag: Plain<S> = dag_of(rt, alloc, recipe);
    let mut out = Vec::new(alloc);
    made(rt, write_json(&dag, &mut out, number, number));
    holds(rt, out.as_slice() == wanted.as_bytes());
}

#[test]
fn nothing_is_streamed_as_empty_lists(rt: HostRuntime) {
    both(&rt, rt.alloc(), Scene::Streamed(EMPTY, NOTHING));
}

const LISTS: &str =
    "{\"edge_property\":\"directed\",\"edges\":[[0,1,4],[0,2,5],[0,1,6]],\"node_holes\":[],\
     \"nodes\":[1,2,3],\"orders\":[[[2,1,0],[]],[[],[2,0]],[[],[1]]]}";

#[test]
fn lists_are_streamed_in_their_order(rt: HostRuntime) {
    compact(&rt, rt.alloc(), Scene::Streamed(PARALLEL, LISTS));
    let scene = Scene::Streamed(FIRST_EDGE_GONE, REORDERED);
    compact(&rt, rt.alloc(), scene);
}

#[test]
fn vacant_slots_are_streamed(rt: HostRuntime) {
    stable(&rt, rt.alloc(), Scene::Streamed(NODE_GONE, VACANT));
}

// A text that is JSON, as its value.
fn parsed(text: &&'static str, alloc: Global) -> Result<Value, AllocError> {
    match Value::from_str(alloc, text) {
        Ok(value) => Ok(value),
        Err(_) => Err(AllocError),
    }
}

const WEIGHTS: [&str; 8] = [
    "null",
    "[true,false,[],[null,-7]]",
    "{\"a\":1,\"b\":{},\"c\":\"\\\"\\\\\\b\\f\\n\\r\\t\\u0000\\u001f\"}",
    "0.1",
    "-1e+30",
    "-9223372036854775808",
    "18446744073709551615",
    "\"straße\"",
];

const WRITTEN: &str = "{\"edge_property\":\"directed\",\"edges\":[[0,1,{\"a\":1,\"b\":{},\
     \"c\":\"\\\"\\\\\\b\\f\\n\\r\\t\\u0000\\u001f\"}]],\"node_holes\":[],\
     \"nodes\":[null,[true,false,[],[null,-7]],{\"a\":1,\"b\":{},\
     \"c\":\"\\\"\\\\\\b\\f\\n\\r\\t\\u0000\\u001f\"},0.1,-1e+30,-9223372036854775808,\
     18446744073709551615,\"straße\"],\
     \"orders\":[[[0],[]],[[],[0]],[[],[]],[[],[]],[[],[]],[[],[]],[[],[]],[[],[]]]}";

fn dag_of_texts<S: Store<u8, NodeWeight = &'static str, EdgeWeight = &'static str>>(
    rt: &impl Abort,
    alloc: Global,
) -> Acyclic<&'static str, &'static str, u8, S> {
    let mut dag = Acyclic::new(alloc);
    for weight in WEIGHTS {
        holds(rt, dag.can_add_node());
        let _n = made(rt, dag.add_node(weight));
    }
    let (a, b) = (node(rt, 0), node(rt, 1));
    holds(rt, dag.contains_node(a) && dag.contains_node(b));
    holds(rt, dag.can_add_edge());
    let _e = made(rt, dag.add_edge(a, b, WEIGHTS[2]));
    dag
}

fn streams_texts<S: Store<u8, NodeWeight = &'static str, EdgeWeight = &'static str>>(
    rt: &impl Abort,
    alloc: Global,
) {
    let dag = dag_of_texts::<S>(rt, alloc);
    let mut out = Vec::new(alloc);
    made(
        rt,
        write_json(&dag, &mut out, |n| parsed(n, alloc), |e| parsed(e, alloc)),
    );
    holds(rt, out.as_slice() == WRITTEN.as_bytes());
}

#[test]
fn weights_are_streamed_as_their_values(rt: HostRuntime) {
    streams_texts::<DiGraph<&'static str, &'static str, u8>>(&rt, rt.alloc());
}

/// A writer that takes a few bytes at a time, and fails after some calls.
#[derive(Drop)]
pub struct Failing {
    pub taken: Vec<u8>,
    pub step: usize,
    pub calls: usize,
}

impl Write for Failing {
    fn write(&mut self, bytes: &[u8]) -> io::Result<usize> {
        if self.calls == 0 {
            return Err(io::Error::from(ErrorKind::BrokenPipe));
        }
        self.calls -= 1;
        let count = self.step.min(bytes.len());
        self.taken.extend_from_slice(&bytes[..count])?;
        Ok(count)
    }

    fn flush(&mut self) -> io::Result<()> {
        Ok(())
    }
}

/// The kind of the error, if the writer failed.
pub fn fault_of(rt: &impl Abort, answer: Result<(), StreamError>) -> Option<ErrorKind> {
    match answer {
        Ok(()) => None,
        Err(StreamError::Io(error)) => Some(error.kind()),
        Err(StreamError::Memory) => panic!(rt; "no function failed"),
    }
}

// Writes to a writer that takes 7 bytes a call and fails after `calls` calls, and asserts what it took.
fn fault_after<S: Kind>(
    rt: &impl Abort,
    alloc: Global,
    dag: &Plain<S>,
    calls: usize,
) -> Option<ErrorKind> {
    let mut out = Failing {
        taken: Vec::new(alloc),
        step: 7,
        calls,
    };
    let fault = fault_of(rt, write_json(dag, &mut out, number, number));
    let count = calls.saturating_mul(7).min(REORDERED.len());
    holds(rt, out.taken.as_slice() == &REORDERED.as_bytes()[..count]);
    fault
}

/// Writes to a writer that fails, at each of its calls in turn.
pub fn fails<S: Kind>(rt: &impl Abort, alloc: Global) {
    let dag: Plain<S> = dag_of(rt, alloc, FIRST_EDGE_GONE);
    let enough = REORDERED.len().div_ceil(7);
    for calls in 0..enough {
        let fault = fault_after(rt, alloc, &dag, calls);
        holds(rt, fault == Some(ErrorKind::BrokenPipe));
    }
    holds(rt, fault_after(rt, alloc, &dag, enough).is_none());
}

#[test]
fn a_fault_at_any_write_is_the_answer(rt: HostRuntime) {
    compact(&rt, rt.alloc(), Scene::Failing);
}

/// Writes to a writer that takes nothing.
pub fn takes_nothing<S: Kind>(rt: &impl Abort, alloc: Global) {
    let dag: Plain<S> = dag_of(rt, alloc, FIRST_EDGE_GONE);
    let mut out = Failing {
        taken: Vec::new(alloc),
        step: 0,
        calls: 100,
    };
    let fault = fault_of(rt, write_json(&dag, &mut out, number, number));
    holds(rt, fault == Some(ErrorKind::WriteZero));
    holds(rt, out.taken.is_empty() && out.calls == 99);
}

#[test]
fn a_writer_that_takes_nothing_is_a_fault_of_a_document(rt: HostRuntime) {
    compact(&rt, rt.alloc(), Scene::TakingNothing);
}

// A writer that is interrupted before each byte.
#[derive(Drop)]
struct Interrupted {
    taken: Vec<u8>,
    goes_on: bool,
}

impl Write for Interrupted {
    fn write(&mut self, bytes: &[u8]) -> io::Result<usize> {
        self.goes_on = !self.goes_on;
        if self.goes_on {
            return Err(io::Error::from(ErrorKind::Interrupted));
        }
        match bytes.first() {
            Some(byte) => self.taken.push(*byte)?,
            None => return Ok(0),
        }
        Ok(1)
    }

    fn flush(&mut self) -> io::Result<()> {
        Ok(())
    }
}

/// Writes to a writer that is interrupted before each byte.
pub fn goes_on<S: Kind>(rt: &impl Abort, alloc: Global) {
    let dag: Plain<S> = dag_of(rt, alloc, FIRST_EDGE_GONE);
    let mut out = Interrupted {
        taken: Vec::new(alloc),
        goes_on: false,
    };
    made(rt, write_json(&dag, &mut out, number, number));
    holds(rt, out.taken.as_slice() == REORDERED.as_bytes());
}

#[test]
fn an_interrupted_write_is_tried_again(rt: HostRuntime) {
    compact(&rt, rt.alloc(), Scene::Interrupted);
}

/// There is no memory for the weight.
pub fn refuse(_weight: &u64) -> Result<Value, AllocError> {
    Err(AllocError)
}

/// Writes with a function that fails.
pub fn ends<S: Kind>(rt: &impl Abort, alloc: Global) {
    let dag: Plain<S> = dag_of(rt, alloc, FIRST_EDGE_GONE);
    let mut out = Vec::new(alloc);
    let answer = write_json(&dag, &mut out, refuse, number);
    holds(rt, matches!(answer, Err(StreamError::Memory)));
    holds(rt, out.is_empty());
}

#[test]
fn a_failing_function_ends_the_text(rt: HostRuntime) {
    compact(&rt, rt.alloc(), Scene::NotStreamed);
}

// A text that fills more than a block, with an escape.
fn long_text(weight: &u64, alloc: Global) -> Result<Value, AllocError> {
    let mut text = String::new(alloc);
    for _ in 0..*weight {
        text.push_str("123456789\n")?;
    }
    Ok(Value::String(text))
}

// Asserts that long texts are streamed as they stand in the document of the dag.
fn streams_long_texts(rt: &impl Abort, alloc: Global, dag: &Small) {
    let document = made(
        rt,
        dag_to_json(alloc, dag, |n| long_text(n, alloc), |e| long_text(e, alloc)),
    );
    let wanted = made(rt, document.to_vec(alloc));
    let mut out = Vec::new(alloc);
    made(
        rt,
        write_json(
            dag,
            &mut out,
            |n| long_text(n, alloc),
            |e| long_text(e, alloc),
        ),
    );
    holds(rt, out.as_slice() == wanted.as_slice());
}

#[test]
fn long_texts_are_streamed_as_they_are_made(rt: HostRuntime) {
    let recipe = Recipe {
        nodes: &[450, 0, 1200, 3],
        ..PARALLEL
    };
    let dag: Small = dag_of(&rt, rt.alloc(), recipe);
    streams_long_texts(&rt, rt.alloc(), &dag);
}

#[test]
fn errors_of_a_writer_have_their_texts(rt: HostRuntime) -> Result<(), AllocError> {
    let text = format!(in rt.alloc(); "{}", StreamError::Memory)?;
    holds(&rt, text.as_str() == "out of memory");
    let error = StreamError::Io(io::Error::from(ErrorKind::BrokenPipe));
    let text = format!(in rt.alloc(); "{error}")?;
    holds(&rt, text.as_str() == "broken pipe");
    Ok(())
}
