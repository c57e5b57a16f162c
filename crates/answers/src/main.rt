//! Answers questions about dags, so that another program's answers can be compared with them:
//! `answers compact` and `answers stable` read lines and print one line for each question.
//!
//! `dag WEIGHT ..` begins a dag with these nodes. `edge PARENT CHILD` adds an edge. `path FROM TO` asks
//! whether a path leads from a node to another, and for the length of a shortest one; `simple FROM TO
//! LIMIT` asks for the simple paths that have at most that many edges. `rest` asks all other questions, and
//! reduces the dag.
#![tactic(auto)]

mod edges;
mod line;
mod questions;
mod walks;

use crate::line::{Line, parse};
use crate::questions::Timed;
use anyhow::{Context, Result, bail};
use daggy::Store;
use daggy::graph::DiGraph;
use daggy::stable_graph::StableDiGraph;
use std::io::{BufRead, BufReader, BufWriter, Write};
use std::process::ExitCode;
use std::rt::Env;
use std::{env, io};

/// Does what a line says.
fn take<S: Store<u32, NodeWeight = u64, EdgeWeight = ()>, W: Write>(
    rt: &impl AllocGlobal,
    out: &mut W,
    dag: &mut Timed<S>,
    line: Line,
) -> Result<()> {
    match line {
        Line::Dag(weights) => *dag = questions::dag_of(rt.alloc(), weights.as_slice())?,
        Line::Edge(parent, child) => questions::add_edge(dag, parent, child)?,
        Line::Path(from, to) => questions::write_path(out, dag, from, to)?,
        Line::Simple(from, to, limit) => {
            questions::write_simple_paths(rt.alloc(), out, dag, from, to, limit)?
        }
        Line::Rest => questions::write_rest(rt.alloc(), out, dag)?,
    }
    Ok(())
}

/// Reads all lines, and writes the answers.
fn answer<S: Store<u32, NodeWeight = u64, EdgeWeight = ()>>(
    rt: &(impl Input + Print + AllocGlobal),
) -> Result<()> {
    let input = BufReader::new(rt.alloc(), rt.reader())?;
    let mut out = BufWriter::new(rt.alloc(), io::writer(rt))?;
    let mut dag = Timed::<S>::new(rt.alloc());
    for line in input.lines(rt.alloc()) {
        let line = line?;
        let parsed = parse(rt.alloc(), line.as_str())?;
        take(rt, &mut out, &mut dag, parsed)?;
    }
    out.flush()?;
    Ok(())
}

/// Answers for dags of the kind that the only argument names.
fn run(rt: &(impl Env + Input + Print + AllocGlobal)) -> Result<()> {
    let words: Vec<String> = env::args(rt)?.collect(rt.alloc())?;
    let kind = words.get(1).context("no kind of dag")?;
    match kind.as_str() {
        "compact" => answer::<DiGraph<u64, (), u32>>(rt),
        "stable" => answer::<StableDiGraph<u64, (), u32>>(rt),
        _ => bail!("no such kind of dag"),
    }
}

fn main(rt: HostRuntime) -> ExitCode {
    match run(&rt) {
        Ok(()) => ExitCode::SUCCESS,
        Err(error) => {
            let _ = eprintln!(rt; "answers: {error:#}");
            ExitCode::from(2)
        }
    }
}
