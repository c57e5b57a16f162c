//! Times how values are computed again after changes: `benchmarks_computed WAY SHAPE NODES EDGES` prints
//! `WAY SHAPE NODES SECONDS`, and on standard error a check value and how many nodes were computed.
//! After these, `--kind stable` selects a stable dag, and `--reps COUNT` the median of COUNT rounds.
#![tactic(auto)]

mod figures;
mod formula;
mod plain;
mod random;
mod refreshed;
mod shapes;

use crate::figures::Figures;
use crate::formula::Formula;
use crate::plain::{Cell, Part, computed};
use crate::refreshed::refreshed;
use crate::shapes::Shape;
use daggy::graph::DiGraph;
use daggy::stable_graph::StableDiGraph;
use std::process::ExitCode;
use std::rt::CpuClock;
use std::{env, io};

// How the values are computed.
#[derive(Clone, Copy)]
enum Way {
    Refresh,
    Plain(Part),
}

impl Way {
    fn named(name: &str) -> Option<Way> {
        match name {
            "refresh" => Some(Way::Refresh),
            "all" => Some(Way::Plain(Part::All)),
            "affected" => Some(Way::Plain(Part::Affected)),
            _ => None,
        }
    }
}

// What the arguments ask for.
#[derive(Clone, Copy)]
struct Request {
    way: Way,
    shape: Shape,
    nodes: u32,
    edges: u32,
    stable: bool,
    rounds: u32,
}

impl Request {
    fn of_words(words: &[String]) -> Option<Request> {
        let [way, shape, nodes, edges, options @ ..] = words else {
            return None;
        };
        let mut request = Request {
            way: Way::named(way.as_str())?,
            shape: Shape::named(shape.as_str())?,
            nodes: nodes.as_str().parse::<u32>().ok()?,
            edges: edges.as_str().parse::<u32>().ok()?,
            stable: false,
            rounds: 1,
        };
        let mut options = options.iter();
        while let Some(option) = options.next() {
            let value = options.next()?;
            match (option.as_str(), value.as_str()) {
                ("--kind", "compact") => request.stable = false,
                ("--kind", "stable") => request.stable = true,
                ("--reps", count) => request.rounds = count.parse::<u32>().ok()?,
                _ => return None,
            }
        }
        Some(request)
    }

    fn run<R: AllocGlobal + CpuClock>(self, rt: &R) -> io::Result<Figures> {
        let work = self.shape.work(rt.alloc(), self.nodes, self.edges)?;
        match (self.way, self.stable) {
            (Way::Refresh, false) => refreshed::<DiGraph<Formula, (), u32>, R>(
                rt,
                work,
                self.rounds,
            ),
            (Way::Refresh, true) => {
                refreshed::<StableDiGraph<Formula, (), u32>, R>(rt, work, self.rounds)
            }
            (Way::Plain(part), false) => {
                computed::<DiGraph<Cell, (), u32>, R>(rt, part, work, self.rounds)
            }
            (Way::Plain(part), true) => {
                computed::<StableDiGraph<Cell, (), u32>, R>(rt, part, work, self.rounds)
            }
        }
    }
}

fn main(rt: HostRuntime) -> io::Result<ExitCode> {
    let mut words = Vec::new(rt.alloc());
    for word in env::args(&rt)?.skip(1) {
        words.push(word)?;
    }
    let (Some(request), [way, shape, ..]) = (Request::of_words(words.as_slice()), words.as_slice())
    else {
        eprintln!(rt;
            "usage: benchmarks_computed refresh|all|affected chain|fan|sums|greatest NODES EDGES \
            [--kind compact|stable] [--reps COUNT]"
        )?;
        return Ok(ExitCode::from(2));
    };
    let figures = request.run(&rt)?;
    let Figures {
        computed,
        check,
        ..
    } = figures;
    let nodes = request.nodes;
    let seconds = figures.time.as_secs_f64();
    eprintln!(rt; "check {way} {shape} {nodes} computed {computed} value {check}")?;
    println!(rt; "{way} {shape} {nodes} {seconds:.9}")?;
    Ok(ExitCode::SUCCESS)
}
