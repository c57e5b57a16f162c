//! Answers questions about graphs, so that another program's answers can be compared with them:
//! `graph_answers compact` and `graph_answers stable` read lines and print one line for each answer.
//!
//! `graph COUNT` begins a graph with that many nodes. `edge PARENT CHILD` adds an edge, and `without
//! NODE` removes a node. `prefer EDGE` names the next one of the edges that are to be kept. `answer`
//! asks for the components, the condensations, cycles, and which edges to leave out. The
//! condensations as dags are of the kind of the graph.
#![tactic(auto)]

mod dags;
mod line;
mod questions;

use crate::dags::{Members, Tally};
use crate::line::{Line, parse};
use crate::questions::Asked;
use anyhow::{Context, Result, bail};
use daggy_base::index::EdgeIndex;
use daggy_base::store::Store;
use daggy_graph::graph::DiGraph;
use daggy_stable::stable_graph::StableDiGraph;
use std::io::{BufRead, BufReader, BufWriter, Write};
use std::process::ExitCode;
use std::rt::Env;
use std::{env, io};

/// Does what a line says.
fn take<S, T, U, W: Write>(
    rt: &impl AllocGlobal,
    out: &mut W,
    asked: &mut Asked<S>,
    line: Line,
) -> Result<()>
where
    S: Store<u32, NodeWeight = (), EdgeWeight = ()>,
    T: Store<u32, NodeWeight = Members, EdgeWeight = EdgeIndex<u32>>,
    U: Store<u32, NodeWeight = Members, EdgeWeight = Tally>,
{
    match line {
        Line::Graph(count) => *asked = questions::edgeless(rt.alloc(), count)?,
        Line::Edge(parent, child) => questions::add_edge(asked, parent, child)?,
        Line::Without(node) => {
            let _weight = asked.graph.remove_node(node);
        }
        Line::Prefer(edge) => asked.preferred.push(edge)?,
        Line::Answer => questions::write_answers::<S, T, U, W>(rt.alloc(), out, asked)?,
    }
    Ok(())
}

/// Reads all lines, and writes the answers.
fn answer<S, T, U, R: Input + Print + AllocGlobal>(rt: &R) -> Result<()>
where
    S: Store<u32, NodeWeight = (), EdgeWeight = ()>,
    T: Store<u32, NodeWeight = Members, EdgeWeight = EdgeIndex<u32>>,
    U: Store<u32, NodeWeight = Members, EdgeWeight = Tally>,
{
    let input = BufReader::new(rt.alloc(), rt.reader())?;
    let mut out = BufWriter::new(rt.alloc(), io::writer(rt))?;
    let mut asked = questions::edgeless::<S>(rt.alloc(), 0)?;
    for line in input.lines(rt.alloc()) {
        let line = line?;
        let parsed = parse(line.as_str())?;
        take::<S, T, U, _>(rt, &mut out, &mut asked, parsed)?;
    }
    out.flush()?;
    Ok(())
}

/// Answers for graphs of the kind that the only argument names.
fn run<R: Env + Input + Print + AllocGlobal>(rt: &R) -> Result<()> {
    let words: Vec<String> = env::args(rt)?.collect(rt.alloc())?;
    let kind = words.get(1).context("no kind of graph")?;
    match kind.as_str() {
        "compact" => answer::<
            DiGraph<(), (), u32>,
            DiGraph<Members, EdgeIndex<u32>, u32>,
            DiGraph<Members, Tally, u32>,
            R,
        >(rt),
        "stable" => answer::<
            StableDiGraph<(), (), u32>,
            StableDiGraph<Members, EdgeIndex<u32>, u32>,
            StableDiGraph<Members, Tally, u32>,
            R,
        >(rt),
        _ => bail!("no such kind of graph"),
    }
}

fn main(rt: HostRuntime) -> ExitCode {
    match run(&rt) {
        Ok(()) => ExitCode::SUCCESS,
        Err(error) => {
            let _ = eprintln!(rt; "graph_answers: {error:#}");
            ExitCode::from(2)
        }
    }
}
