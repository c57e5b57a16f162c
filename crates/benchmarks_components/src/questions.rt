//! What is asked of a graph that may have cycles.
use crate::dags::{condense, fold_edges, keep_edges};
use crate::figures::{Figures, Runs, since};
use crate::graphs::{Shape, Sizes, build};
use daggy_base::index::{EdgeIndex, NodeIndex};
use daggy_base::store::Store;
use daggy_components::{Components, strongly_connected_components};
use daggy_cycles::{feedback_arc_set, find_cycle_edges};
use daggy_search::{Scratch, is_acyclic};
use std::alloc::{AllocError, Global};
use std::io;
use std::rt::CpuClock;

/// What is asked.
#[derive(Clone, Copy)]
pub enum Question {
    /// The strongly connected components.
    Components,
    /// These, and a dag of them with an edge for each two that edges join.
    CondensedDag,
    /// The same with all edges between components.
    AllEdges,
    /// The same with the greatest weight of the edges between two components.
    Fold,
    /// The edges of a cycle.
    FindCycle,
    /// Whether there is no cycle.
    IsAcyclic,
    /// Edges without which there is no cycle.
    FeedbackArcSet,
}

impl Question {
    pub fn named(name: &str) -> Option<Question> {
        match name {
            "components" => Some(Question::Components),
            "condensed_dag" => Some(Question::CondensedDag),
            "all_edges" => Some(Question::AllEdges),
            "fold" => Some(Question::Fold),
            "find_cycle" => Some(Question::FindCycle),
            "is_acyclic" => Some(Question::IsAcyclic),
            "feedback_arc_set" => Some(Question::FeedbackArcSet),
            _ => None,
        }
    }
}

// A number of the components that does not depend on their order.
fn sizes_sum(components: &Components<u32>) -> u64 {
    let mut sum = components.count() as u64;
    for members in components.iter() {
        let size = members.len() as u64;
        sum = sum.wrapping_add(size.wrapping_mul(size));
    }
    sum
}

fn find_components<S, R>(rt: &R, graph: &mut S) -> io::Result<Figures>
where
    S: Store<u32>,
    R: AllocGlobal + CpuClock,
{
    let start = rt.process_cpu_time()?;
    let components = strongly_connected_components(rt.alloc(), graph)?;
    let time = since(rt, start)?;
    let check = sizes_sum(&components);
    Ok(Figures { time, check })
}

// Whether a graph has no cycle, with memory for the search that is reserved first.
fn has_no_cycle<S: Store<u32>>(alloc: Global, graph: &mut S) -> Result<bool, AllocError> {
    let mut scratch = Scratch::new(alloc);
    scratch.reserve(graph.node_bound(), 0)?;
    Ok(is_acyclic(graph, &mut scratch))
}

fn search_cycle<S: Store<u32>>(
    alloc: Global,
    graph: &mut S,
    question: Question,
) -> Result<u64, AllocError> {
    match question {
        Question::FindCycle => {
            let cycle = find_cycle_edges(alloc, graph)?;
            Ok(u64::from(cycle.is_some()))
        }
        Question::FeedbackArcSet => {
            let left_out = feedback_arc_set(alloc, graph, &[])?;
            Ok(left_out.len() as u64)
        }
        _ => Ok(u64::from(!has_no_cycle(alloc, graph)?)),
    }
}

fn search_cycles<S, R>(rt: &R, graph: &mut S, question: Question) -> io::Result<Figures>
where
    S: Store<u32>,
    R: AllocGlobal + CpuClock,
{
    let start = rt.process_cpu_time()?;
    let check = search_cycle(rt.alloc(), graph, question)?;
    let time = since(rt, start)?;
    Ok(Figures { time, check })
}

// Asks a question once.
fn ask_once<S, T, U, R>(rt: &R, question: Question, graph: &mut S) -> io::Result<Figures>
where
    S: Store<u32, EdgeWeight = i64>,
    T: Store<u32, NodeWeight = Vec<NodeIndex<u32>>, EdgeWeight = EdgeIndex<u32>>,
    U: Store<u32, NodeWeight = Vec<NodeIndex<u32>>, EdgeWeight = i64>,
    R: AllocGlobal + CpuClock,
{
    match question {
        Question::Components => find_components(rt, graph),
        Question::CondensedDag => condense::<S, T, R>(rt, graph),
        Question::AllEdges => keep_edges::<S, U, R>(rt, graph),
        Question::Fold => fold_edges::<S, U, R>(rt, graph),
        _ => search_cycles(rt, graph, question),
    }
}

/// Asks a question about a graph `S`. The dags that are made of it have the stores `T` and `U`.
pub fn ask<S, T, U, R>(
    rt: &R,
    question: Question,
    shape: Shape,
    sizes: Sizes,
) -> io::Result<Figures>
where
    S: Store<u32, NodeWeight = i64, EdgeWeight = i64>,
    T: Store<u32, NodeWeight = Vec<NodeIndex<u32>>, EdgeWeight = EdgeIndex<u32>>,
    U: Store<u32, NodeWeight = Vec<NodeIndex<u32>>, EdgeWeight = i64>,
    R: AllocGlobal + CpuClock,
{
    let mut graph = build::<S>(rt.alloc(), shape, sizes)?;
    let mut runs = Runs::new(rt.alloc());
    for _ in 0..sizes.reps {
        runs.add(ask_once::<S, T, U, R>(rt, question, &mut graph)?)?;
    }
    Ok(runs.median()?)
}
