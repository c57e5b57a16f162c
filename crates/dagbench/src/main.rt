//! A graph that is driven by lines of commands, from standard input to standard output.
#![tactic(auto)]

use dagbench_engine::{Device, Stop, ending, explain, mode_of, serve};
use std::io::{BufRead, BufReader};
use std::process::ExitCode;
use std::rt::Env;
use std::{env, io};

/// What `--help` prints.
const HELP: &str = "\
usage: dagbench compact|stable|plan compact|plan stable

Reads one command a line from standard input, carries it out on a dag, and
writes one reply a line to standard output.

  compact    a removal moves the last node or edge into the freed index
  stable     a removal changes no other index
  plan KIND  the same, with a plan of the dag after the last reply
  --explain  carries out nothing, and writes to standard error the number of
             each line that is no command, and why it is none

For example, `node 7` adds a node of weight 7, `edge 0 1 5` an edge of weight 5
from node 0 to node 1, and `children 0` lists the children of node 0.
";

/// The arguments after the program's name.
fn arguments(rt: &(impl Env + AllocGlobal)) -> io::Result<Vec<String>> {
    let mut words = env::args(rt)?;
    let _program = words.next();
    Ok(words.collect(rt.alloc())?)
}

/// The only argument, or an empty text.
fn only_argument(words: &[String]) -> &str {
    match words {
        [word] => word.as_str(),
        _ => "",
    }
}

/// Why a call of std stopped the run.
fn stop_of(error: io::Error) -> Stop {
    if error.kind() == io::ErrorKind::OutOfMemory {
        Stop::Memory
    } else {
        Stop::Read
    }
}

/// Writes which lines of standard input are no commands, and why, to standard error.
fn explain_lines(rt: &(impl AllocGlobal + Input + Eprint)) -> Result<(), Stop> {
    let Ok(input) = BufReader::new(rt.alloc(), rt.reader()) else {
        return Err(Stop::Memory);
    };
    let mut number = 0u64;
    for line in input.split(rt.alloc(), b'\n') {
        let line = line.map_err(stop_of)?;
        number = number.saturating_add(1);
        if let Some(why) = explain(rt.alloc(), line.as_slice()) {
            eprintln!(rt; "line {number}: {why}").map_err(|_| Stop::Write)?;
        }
    }
    Ok(())
}

/// Does what the arguments ask for. None for wrong arguments. Arguments that are no text are wrong.
fn run(rt: &(impl Env + AllocGlobal + Input + Print + Eprint)) -> Option<Result<(), Stop>> {
    let words = match arguments(rt) {
        Ok(words) => words,
        Err(error) if error.kind() == io::ErrorKind::OutOfMemory => return Some(Err(Stop::Memory)),
        Err(_) => return None,
    };
    match only_argument(words.as_slice()) {
        "--help" | "-h" => return Some(rt.print(HELP).map_err(|_| Stop::Write)),
        "--explain" => return Some(explain_lines(rt)),
        _ => {}
    }
    let mode = mode_of(words.as_slice())?;
    let mut source = Device::new(rt.reader());
    let mut sink = Device::new(io::writer(rt));
    Some(serve(rt.alloc(), mode, &mut source, &mut sink))
}

fn main(rt: HostRuntime) -> ExitCode {
    let outcome = run(&rt);
    let (status, text) = ending(outcome.as_ref());
    if !text.is_empty() {
        let _ = rt.eprint(text);
    }
    ExitCode::from(status)
}
