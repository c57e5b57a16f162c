//! Reduces a dag that a JSON document holds: a program that uses `daggy`.
//!
//! It reads a document as `write_json` and petgraph's `serde` support write it, removes each edge
//! whose ends a longer path joins, and writes the document of the reduced dag.
#![tactic(auto)]

mod document;
mod refused;

use crate::document::{read, read_stable, write_reduced};
use crate::refused::or_fault;
use anyhow::{Context, Result};
use clap::{Arg, ArgAction, Command};
use daggy::run::Kind;
use serde_json::Value;
use std::alloc::{AllocError, Global};
use std::io::{BufWriter, Read, Write};
use std::process::ExitCode;
use std::rt::{Env, Files};
use std::{env, fs, io};

static DETAILS: &str = "\
The document is an object with the members `nodes`, `node_holes`, `edges`, `edge_property` and, if \
the lists of the nodes are to be restored, `orders`. Weights may be any JSON values. If it holds no \
dag, the error names a cycle, or the first wrong member or entry, as `edges[17]`.

Exit status: 0 if the reduced dag was written, 2 if the arguments are wrong, and 1 if the input cannot \
be read, holds no dag, or anything else fails.";

/// The command line.
fn command<'a>(alloc: Global) -> Result<Command<'a>, AllocError> {
    let stable = Arg::new(alloc, "stable")
        .long("stable")
        .action(ArgAction::SetTrue)
        .help("Keep the indices of the edges, and allow vacant ones");
    let file = Arg::new(alloc, "file")
        .value_name("FILE")
        .help("The file to read [default: standard input]");
    Command::new(alloc, "example_reduce")
        .about("Removes the redundant edges of a dag.")
        .after_help(DETAILS)
        .arg(stable)?
        .arg(file)
}

/// All bytes of the input.
fn bytes_of<R: Read + Drop>(alloc: Global, mut input: R) -> Result<Vec<u8>> {
    let mut bytes = Vec::new(alloc);
    input.read_to_end(&mut bytes)?;
    Ok(bytes)
}

/// Reduces the dag of a document, and prints the document of the reduced dag.
fn reduce(rt: &(impl Print + AllocGlobal), bytes: &[u8], stable: bool) -> Result<()> {
    let document = Value::from_slice(rt.alloc(), bytes)?;
    let mut out = BufWriter::new(rt.alloc(), io::writer(rt))?;
    let alloc = rt.alloc();
    if stable {
        let read = read_stable(alloc, &document);
        write_reduced(or_fault(alloc, &document, Kind::Stable, read)?, &mut out)?;
    } else {
        let read = read(alloc, &document);
        write_reduced(or_fault(alloc, &document, Kind::Compact, read)?, &mut out)?;
    }
    writeln!(out)?;
    out.flush()?;
    Ok(())
}

/// Runs the program, and returns its exit status.
fn run(rt: &(impl Env + Files + Input + Print + Eprint + AllocGlobal)) -> Result<u8> {
    let words: Vec<String> = env::args(rt)?.collect(rt.alloc())?;
    let matches = match command(rt.alloc())?.try_get_matches_from(words.as_slice()) {
        Ok(matches) => matches,
        Err(error) => {
            error.print(rt)?;
            return Ok(if error.use_stderr() { 2 } else { 0 });
        }
    };
    let bytes = match matches.get_str("file") {
        Some(path) => {
            let file = fs::open(rt, path).with_context(|| format_args!("{path}"))?;
            bytes_of(rt.alloc(), file)?
        }
        None => bytes_of(rt.alloc(), rt.reader())?,
    };
    reduce(rt, bytes.as_slice(), matches.get_flag("stable"))?;
    Ok(0)
}

fn main(rt: HostRuntime) -> ExitCode {
    match run(&rt) {
        Ok(status) => ExitCode::from(status),
        Err(error) => {
            let _ = eprintln!(rt; "example_reduce: {error:#}");
            ExitCode::from(1)
        }
    }
}
