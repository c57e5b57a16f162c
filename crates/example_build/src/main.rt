//! What is to be built, and when: a program that uses `daggy`.
//!
//! It reads lines `target seconds @time: dependency ..`, and prints how workers build all targets that
//! are out of date.
#![tactic(auto)]

mod line;
mod targets;
mod workers;

use crate::line::{BadLine, parse};
use crate::targets::Targets;
use anyhow::{Context, Result};
use clap::{Arg, ArgAction, ArgMatches, Command};
use std::alloc::{AllocError, Global};
use std::io::{BufRead, BufReader, Read};
use std::num::NonZeroUsize;
use std::process::ExitCode;
use std::rt::{Env, Files};
use std::{env, fs};

static DETAILS: &str = "\
Each line has the form `target seconds: dependency ..`: how long the target takes, and what it needs. \
`@time` after the seconds says when it was built last, as a whole number. A name without a line is a \
source, which always exists. Empty lines and lines that begin with `#` are skipped.

A target is out of date if it was not built yet, if it was built before one of its dependencies, or if \
one of its dependencies is out of date. Each target that a worker begins is printed, with the time and \
the number of the worker.

An invalid line, and a dependency that would close a cycle, is left out and reported on standard \
error, with the number of the line.

Exit status: 0 if nothing was reported, 1 if something was, 2 if the arguments are wrong, the input \
cannot be read, the durations sum up to too much, or memory runs out.";

/// The command line.
fn command<'a>(alloc: Global) -> Result<Command<'a>, AllocError> {
    let workers = Arg::new(alloc, "workers")
        .long("workers")
        .value_name("N")
        .help("The number of parallel jobs [default: 1]");
    let dry_run = Arg::new(alloc, "dry-run")
        .long("dry-run")
        .action(ArgAction::SetTrue)
        .help("Print the targets that are out of date, dependencies first, and build nothing");
    let plan = Arg::new(alloc, "plan")
        .long("plan")
        .action(ArgAction::SetTrue)
        .help("Print a schedule on the workers, longest path first, and build nothing");
    let strict = Arg::new(alloc, "strict")
        .long("strict")
        .action(ArgAction::SetTrue)
        .help("Report each dependency that has no line");
    let file = Arg::new(alloc, "file")
        .value_name("FILE")
        .help("The file to read [default: standard input]");
    Command::new(alloc, "example_build")
        .about("Builds out-of-date targets in parallel.")
        .after_help(DETAILS)
        .arg(workers)?
        .arg(dry_run)?
        .arg(plan)?
        .arg(strict)?
        .arg(file)
}

/// Takes a line, and returns how many of its dependencies were left out. An empty line, and one that
/// begins with `#`, says nothing.
fn take_line(
    rt: &(impl Eprint + AllocGlobal),
    targets: &mut Targets,
    number: u64,
    bytes: &[u8],
) -> Result<u64, BadLine> {
    let text = str::from_utf8(bytes).map_err(|_| BadLine::NotText)?.trim();
    if text.is_empty() || text.starts_with('#') {
        return Ok(0);
    }
    targets.add(rt, number, parse(rt.alloc(), text)?)
}

/// Takes all lines, numbered from 1, and returns how often something was reported.
fn take_lines<R: Read + Drop>(
    rt: &(impl Eprint + AllocGlobal),
    input: R,
    targets: &mut Targets,
) -> Result<u64> {
    let input = BufReader::new(rt.alloc(), input)?;
    let mut number = 0u64;
    let mut bad = 0u64;
    for line in input.split(rt.alloc(), b'\n') {
        number = number.checked_add(1).context("too many lines")?;
        match take_line(rt, targets, number, line?.as_slice()) {
            Ok(left_out) => bad = bad.saturating_add(left_out),
            Err(BadLine::Failed(error)) => return Err(error),
            Err(BadLine::Memory(error)) => return Err(error.into()),
            Err(error) => {
                eprintln!(rt; "line {number}: {error}")?;
                bad = bad.saturating_add(1);
            }
        }
    }
    Ok(bad)
}

/// The number of workers.
fn workers_in(matches: &ArgMatches<'_>) -> Result<NonZeroUsize> {
    let workers = match matches.get_str("workers") {
        Some(count) => count.parse().ok().and_then(NonZeroUsize::new),
        None => Some(NonZeroUsize::MIN),
    };
    workers.context("the number of workers is not a whole number above 0")
}

/// Reads the file, or standard input, and returns how often something was reported.
fn read(
    rt: &(impl Files + Input + Eprint + AllocGlobal),
    matches: &ArgMatches<'_>,
    targets: &mut Targets,
) -> Result<u64> {
    match matches.get_str("file") {
        Some(path) => {
            let file = fs::open(rt, path).with_context(|| format_args!("{path}"))?;
            take_lines(rt, file, targets)
        }
        None => take_lines(rt, rt.reader(), targets),
    }
}

/// Reads the targets, does what the options say, and returns whether nothing was reported.
fn build(
    rt: &(impl Files + Input + Print + Eprint + AllocGlobal),
    matches: &ArgMatches<'_>,
) -> Result<bool> {
    let workers = workers_in(matches)?;
    let mut targets = Targets::new(rt.alloc());
    let mut bad = read(rt, matches, &mut targets)?;
    if matches.get_flag("strict") {
        bad = bad.saturating_add(targets.report_sources(rt)?);
    }
    if matches.get_flag("dry-run") {
        targets.print_outdated(rt)?;
    } else if matches.get_flag("plan") {
        targets.print_plan(rt, workers)?;
    } else {
        targets.build(rt, workers)?;
    }
    Ok(bad == 0)
}

/// Runs the program, and returns its exit status.
fn run(rt: &(impl Env + Files + Input + Print + Eprint + AllocGlobal)) -> Result<u8> {
    let words: Vec<String> = env::args(rt)?.collect(rt.alloc())?;
    let matches = match command(rt.alloc())?.try_get_matches_from(words.as_slice()) {
        Ok(matches) => matches,
        Err(error) => {
            error.print(rt)?;
            return Ok(if error.use_stderr() { 2 } else { 0 });
        }
    };
    Ok(if build(rt, &matches)? { 0 } else { 1 })
}

fn main(rt: HostRuntime) -> ExitCode {
    match run(&rt) {
        Ok(status) => ExitCode::from(status),
        Err(error) => {
            let _ = eprintln!(rt; "example_build: {error:#}");
            ExitCode::from(2)
        }
    }
}
