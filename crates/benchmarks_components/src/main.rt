//! Times one workload on a graph that may have cycles: `benchmarks_components NAME NODES EDGES`
//! prints `NAME NODES SECONDS`, and a check value on standard error. After these, `--kind stable`
//! selects a stable graph and stable dags, and `--reps COUNT` the median of COUNT runs in one process.
//!
//! A name is a question and a shape, as `components_mixed`. The questions are `components`,
//! `condensed_dag`, `all_edges`, `fold`, `find_cycle`, `is_acyclic` and `feedback_arc_set`, and the
//! shapes `mixed`, `grouped` and `acyclic`.
#![tactic(auto)]

mod dags;
mod figures;
mod graphs;
mod questions;
mod random;

use crate::figures::Figures;
use crate::graphs::{Shape, Sizes};
use crate::questions::{Question, ask};
use daggy_base::index::{EdgeIndex, NodeIndex};
use daggy_graph::graph::DiGraph;
use daggy_stable::stable_graph::StableDiGraph;
use std::process::ExitCode;
use std::rt::CpuClock;
use std::{env, io};

type Members = Vec<NodeIndex<u32>>;

// What the arguments ask for.
#[derive(Clone, Copy)]
struct Request {
    question: Question,
    shape: Shape,
    stable: bool,
    sizes: Sizes,
}

impl Request {
    fn of_words(words: &[String]) -> Option<Request> {
        let [name, nodes, edges, options @ ..] = words else {
            return None;
        };
        let (question, shape) = Shape::split(name.as_str())?;
        let mut request = Request {
            question: Question::named(question)?,
            shape,
            stable: false,
            sizes: Sizes {
                nodes: nodes.as_str().parse::<u32>().ok()?,
                edges: edges.as_str().parse::<u32>().ok()?,
                reps: 1,
            },
        };
        let mut options = options.iter();
        while let Some(option) = options.next() {
            let value = options.next()?;
            match (option.as_str(), value.as_str()) {
                ("--kind", "compact") => request.stable = false,
                ("--kind", "stable") => request.stable = true,
                ("--reps", count) => request.sizes.reps = count.parse::<u32>().ok()?,
                _ => return None,
            }
        }
        Some(request)
    }

    fn figures<R: AllocGlobal + CpuClock>(self, rt: &R) -> io::Result<Figures> {
        let (question, shape, sizes) = (self.question, self.shape, self.sizes);
        if self.stable {
            ask::<
                StableDiGraph<i64, i64, u32>,
                StableDiGraph<Members, EdgeIndex<u32>, u32>,
                StableDiGraph<Members, i64, u32>,
                R,
            >(rt, question, shape, sizes)
        } else {
            ask::<
                DiGraph<i64, i64, u32>,
                DiGraph<Members, EdgeIndex<u32>, u32>,
                DiGraph<Members, i64, u32>,
                R,
            >(rt, question, shape, sizes)
        }
    }
}

fn time<R: Print + Eprint + AllocGlobal + CpuClock>(
    rt: &R,
    name: &str,
    request: Request,
) -> io::Result<()> {
    let figures = request.figures(rt)?;
    let nodes = request.sizes.nodes;
    let check = figures.check;
    let seconds = figures.time.as_secs_f64();
    eprintln!(rt; "check {name} {nodes} {check}")?;
    println!(rt; "{name} {nodes} {seconds:.9}")
}

fn main(rt: HostRuntime) -> io::Result<ExitCode> {
    let mut words = Vec::new(rt.alloc());
    for word in env::args(&rt)?.skip(1) {
        words.push(word)?;
    }
    let Some(request) = Request::of_words(words.as_slice()) else {
        eprintln!(rt;
            "usage: benchmarks_components NAME NODES EDGES [--kind compact|stable] [--reps COUNT]"
        )?;
        return Ok(ExitCode::from(2));
    };
    let name = words.first().map_or("", String::as_str);
    time(&rt, name, request)?;
    Ok(ExitCode::SUCCESS)
}
