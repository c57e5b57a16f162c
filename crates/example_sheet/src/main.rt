//! A sheet of cells, each the sum of numbers and other cells: a program that uses `daggy`.
//!
//! It reads lines `name = term + term + ..`. Each sets the formula of a cell, and each cell whose
//! value changes is printed, after all that it needs.
#![tactic(auto)]

mod line;
mod sheet;

use crate::line::{BadLine, parse};
use crate::sheet::Sheet;
use anyhow::{Context, Result};
use clap::{Arg, ArgAction, ArgMatches, Command};
use std::alloc::{AllocError, Global};
use std::io::{BufRead, BufReader, Read};
use std::process::ExitCode;
use std::rt::{Env, Files};
use std::{env, fs};

static DETAILS: &str = "\
Each line has the form `name = term + term + ..`, where a term is a whole number, as `-3`, or the \
name of a cell. A name has letters, digits and `_`, and begins with no digit. Empty lines and lines \
that begin with `#` are skipped.

A line replaces the formula of its cell. Then each cell whose value changed is printed as \
`name = value`, or as `name: too large` if its sum, or one that it needs, is beyond 64 bits. A cell \
that no line has set yet counts as 0. A line by which a cell would need itself is bad.

A bad line changes nothing. It is reported on standard error.

Exit status: 0 if every line was good, 1 if one was bad, 2 if the arguments are wrong, the input \
cannot be read, or memory runs out.";

/// The command line.
fn command<'a>(alloc: Global) -> Result<Command<'a>, AllocError> {
    let strict = Arg::new(alloc, "strict")
        .long("strict")
        .action(ArgAction::SetTrue)
        .help("Stop at the first bad line instead of skipping it");
    let file = Arg::new(alloc, "file")
        .value_name("FILE")
        .help("The file to read [default: standard input]");
    Command::new(alloc, "example_sheet")
        .about("Recalculates cells as their formulas change.")
        .after_help(DETAILS)
        .arg(strict)?
        .arg(file)
}

/// Takes a line, and prints the cells that it changes.
fn take_line(
    rt: &(impl Print + AllocGlobal),
    sheet: &mut Sheet,
    bytes: &[u8],
) -> Result<(), BadLine> {
    let text = str::from_utf8(bytes).map_err(|_| BadLine::NotText)?.trim();
    if text.is_empty() || text.starts_with('#') {
        return Ok(());
    }
    sheet.set(parse(rt.alloc(), text)?)?;
    Ok(sheet.recalculate(rt)?)
}

/// Takes all lines, numbered from 1, and returns how many were bad. If `strict`, it stops at the
/// first one.
fn take_lines<R: Read + Drop>(
    rt: &(impl Print + Eprint + AllocGlobal),
    input: R,
    sheet: &mut Sheet,
    strict: bool,
) -> Result<u64> {
    let input = BufReader::new(rt.alloc(), input)?;
    let mut number = 0u64;
    let mut bad = 0u64;
    for line in input.split(rt.alloc(), b'\n') {
        number = number.checked_add(1).context("too many lines")?;
        match take_line(rt, sheet, line?.as_slice()) {
            Ok(()) => continue,
            Err(BadLine::Memory(error)) => return Err(error.into()),
            Err(BadLine::Failed(error)) => return Err(error),
            Err(error) => eprintln!(rt; "line {number}: {error}")?,
        }
        bad = bad.saturating_add(1);
        if strict {
            break;
        }
    }
    Ok(bad)
}

/// Takes the lines of the file, or of standard input, and returns whether every one was good.
fn recalculate(
    rt: &(impl Files + Input + Print + Eprint + AllocGlobal),
    matches: &ArgMatches<'_>,
) -> Result<bool> {
    let mut sheet = Sheet::new(rt.alloc());
    let strict = matches.get_flag("strict");
    let bad = match matches.get_str("file") {
        Some(path) => {
            let file = fs::open(rt, path).with_context(|| format_args!("{path}"))?;
            take_lines(rt, file, &mut sheet, strict)?
        }
        None => take_lines(rt, rt.reader(), &mut sheet, strict)?,
    };
    Ok(bad == 0)
}

/// Runs the program, and returns its exit status.
fn run(rt: &(impl Env + Files + Input + Print + Eprint + AllocGlobal)) -> Result<u8> {
    let words: Vec<String> = env::args(rt)?.collect(rt.alloc())?;
    let matches = match command(rt.alloc())?.try_get_matches_from(words.as_slice()) {
        Ok(matches) => matches,
        Err(error) => {
            error.print(rt)?;
            return Ok(if error.use_stderr() { 2 } else { 0 });
        }
    };
    Ok(if recalculate(rt, &matches)? { 0 } else { 1 })
}

fn main(rt: HostRuntime) -> ExitCode {
    match run(&rt) {
        Ok(status) => ExitCode::from(status),
        Err(error) => {
            let _ = eprintln!(rt; "example_sheet: {error:#}");
            ExitCode::from(2)
        }
    }
}
