//! Times one workload: `benchmarks NAME NODES EDGES` prints `NAME NODES SECONDS`, and a check value
//! on standard error. After these, `--kind stable` selects a stable dag, `--reps COUNT` the median of
//! COUNT runs in one process, and `--rounds COUNT` how often a run goes through a dag (10). The
//! compiler does not know that number, so it cannot unroll the rounds.
#![tactic(auto)]

mod builds;
mod churn;
mod commands;
mod documents;
mod figures;
mod graph;
mod inputs;
mod plans;
mod questions;
mod random;
mod readings;
mod reductions;
mod removals;
mod schedules;
mod small;
mod types;
mod workload;

use crate::commands::write_commands;
use crate::inputs::Sizes;
use crate::workload::Workload;
use std::io::{BufWriter, Write};
use std::process::ExitCode;
use std::rt::CpuClock;
use std::{env, io};

// What the arguments ask for.
#[derive(Clone, Copy)]
struct Request {
    workload: Workload,
    stable: bool,
    sizes: Sizes,
}

impl Request {
    fn of_words(words: &[String]) -> Option<Request> {
        let [name, nodes, edges, options @ ..] = words else {
            return None;
        };
        let mut request = Request {
            workload: Workload::named(name.as_str())?,
            stable: false,
            sizes: Sizes {
                nodes: nodes.as_str().parse::<u32>().ok()?,
                edges: edges.as_str().parse::<u32>().ok()?,
                reps: 1,
                rounds: 10,
            },
        };
        let mut options = options.iter();
        while let Some(option) = options.next() {
            let value = options.next()?;
            match (option.as_str(), value.as_str()) {
                ("--kind", "compact") => request.stable = false,
                ("--kind", "stable") => request.stable = true,
                ("--reps", count) => request.sizes.reps = count.parse::<u32>().ok()?,
                ("--rounds", count) => request.sizes.rounds = count.parse::<u32>().ok()?,
                _ => return None,
            }
        }
        Some(request)
    }
}

fn time<R: Print + Eprint + AllocGlobal + CpuClock>(
    rt: &R,
    name: &str,
    request: Request,
) -> io::Result<()> {
    let figures = request.workload.run(rt, request.stable, request.sizes)?;
    let nodes = request.sizes.nodes;
    let check = figures.check;
    let seconds = figures.time.as_secs_f64();
    eprintln!(rt; "check {name} {nodes} {check}")?;
    println!(rt; "{name} {nodes} {seconds:.9}")
}

// How many command lines are asked for.
fn commands_asked(words: &[String]) -> Option<u32> {
    let [name, count] = words else {
        return None;
    };
    if name.as_str() == "commands" {
        count.as_str().parse::<u32>().ok()
    } else {
        None
    }
}

fn main(rt: HostRuntime) -> io::Result<ExitCode> {
    let mut words = Vec::new(rt.alloc());
    for word in env::args(&rt)?.skip(1) {
        words.push(word)?;
    }
    if let Some(count) = commands_asked(words.as_slice()) {
        let mut out = BufWriter::new(rt.alloc(), io::writer(&rt))?;
        write_commands(&mut out, count)?;
        out.flush()?;
        return Ok(ExitCode::SUCCESS);
    }
    let Some(request) = Request::of_words(words.as_slice()) else {
        eprintln!(rt;
            "usage: benchmarks NAME NODES EDGES [--kind compact|stable] [--reps COUNT] \
            [--rounds COUNT]"
        )?;
        return Ok(ExitCode::from(2));
    };
    let name = words.first().map_or("", String::as_str);
    time(&rt, name, request)?;
    Ok(ExitCode::SUCCESS)
}
