//! What the packages of a Debian system need: a program that uses `daggy`.
//!
//! It reads the list of packages that `dpkg` keeps, and prints an order in which to install them, or
//! a picture.
#![tactic(auto)]

mod groups;
mod needs;
mod status;

use crate::groups::Groups;
use crate::needs::Needs;
use crate::status::{BadLine, Packages};
use anyhow::{Context, Result};
use clap::{Arg, ArgAction, ArgMatches, Command};
use daggy::NodeIndex;
use std::alloc::{AllocError, Global};
use std::io::{BufRead, BufReader, Read};
use std::process::ExitCode;
use std::rt::{Env, Files};
use std::{env, fs};

static DETAILS: &str = "\
The input has the form of /var/lib/dpkg/status: a paragraph for each package, of lines `Field: \
value`. The fields Package, Status, Installed-Size, Provides, Depends and Pre-Depends are read. Of \
alternatives, as in `Depends: mawk | gawk`, the first that is installed or provided counts.

The packages are printed in stages. Packages that need each other are a group, in braces, which is \
installed together. All other packages that a group needs are in earlier stages, and no division \
into fewer stages is possible. The last line is the chain of groups with the greatest total size.

Each group of several packages is reported on standard error, with a shortest cycle through one of \
its packages. So are dependencies that no package meets, and bad lines. Of packages with the same name \
the first counts, and the others are bad lines.

Exit status: 0 if every line was good, 1 if one was bad, 2 if the arguments are wrong, the input \
cannot be read, or memory runs out, 3 if --only names a package that is not installed.";

/// The command line.
fn command<'a>(alloc: Global) -> Result<Command<'a>, AllocError> {
    let dot = Arg::new(alloc, "dot")
        .long("dot")
        .action(ArgAction::SetTrue)
        .help("Print a picture for graphviz instead of the stages");
    let reduced = Arg::new(alloc, "reduced")
        .long("reduced")
        .action(ArgAction::SetTrue)
        .help("Leave out of the picture each edge whose ends a longer path joins")
        .requires_arg("dot")?;
    let only = Arg::new(alloc, "only")
        .long("only")
        .value_name("NAME")
        .action(ArgAction::Append)
        .help("Take only this package and what it needs; may be given more than once");
    let file = Arg::new(alloc, "file")
        .value_name("FILE")
        .help("The file to read [default: standard input]");
    Command::new(alloc, "example_packages")
        .about("Prints the packages of a Debian system in stages, each after what it needs.")
        .after_help(DETAILS)
        .arg(dot)?
        .arg(reduced)?
        .arg(only)?
        .arg(file)
}

/// Reads all lines, numbered from 1. Bad ones are reported; returns how many there were.
fn read<R: Read + Drop>(
    rt: &(impl Eprint + AllocGlobal),
    input: R,
    packages: &mut Packages,
) -> Result<u64> {
    let input = BufReader::new(rt.alloc(), input)?;
    let mut number = 0u64;
    let mut bad = 0u64;
    for line in input.split(rt.alloc(), b'\n') {
        number = number.checked_add(1).context("too many lines")?;
        match packages.take_line(number, line?.as_slice()) {
            Ok(()) => {}
            Err(BadLine::Memory(error)) => return Err(error.into()),
            Err(error) => {
                eprintln!(rt; "line {number}: {error}")?;
                bad = bad.saturating_add(1);
            }
        }
    }
    Ok(bad)
}

/// Reads the file, or standard input, and returns how many lines were bad.
fn read_input(
    rt: &(impl Files + Input + Eprint + AllocGlobal),
    matches: &ArgMatches<'_>,
    packages: &mut Packages,
) -> Result<u64> {
    match matches.get_str("file") {
        Some(path) => {
            let file = fs::open(rt, path).with_context(|| format_args!("{path}"))?;
            read(rt, file, packages)
        }
        None => read(rt, rt.reader(), packages),
    }
}

/// Reads the packages, prints what the options say, and returns the exit status.
fn print(
    rt: &(impl Files + Input + Print + Eprint + AllocGlobal),
    matches: &ArgMatches<'_>,
) -> Result<u8> {
    let mut packages = Packages::new(rt.alloc());
    let mut bad = read_input(rt, matches, &mut packages)?;
    let needs = Needs::of(rt, packages.as_slice(), &mut bad)?;
    let names = matches.get_strs("only").unwrap_or(&[]);
    let named = needs.all_named(rt, names)?;
    if named.len() < names.len() {
        return Ok(3);
    }
    let mut groups = needs.groups()?;
    print_groups(rt, matches, named.as_slice(), &mut groups)?;
    Ok(if bad == 0 { 0 } else { 1 })
}

/// Prints the groups that the options ask for. If packages are named, these are only their groups and
/// those that they need.
fn print_groups(
    rt: &(impl Print + Eprint),
    matches: &ArgMatches<'_>,
    named: &[NodeIndex],
    groups: &mut Groups<'_>,
) -> Result<()> {
    if !named.is_empty() {
        groups.keep(named)?;
    }
    groups.report(rt)?;
    if matches.get_flag("reduced") {
        groups.reduce()?;
    }
    if matches.get_flag("dot") {
        groups.draw(rt)
    } else {
        groups.print(rt)
    }
}

/// Runs the program, and returns its exit status.
fn run(rt: &(impl Env + Files + Input + Print + Eprint + AllocGlobal)) -> Result<u8> {
    let words: Vec<String> = env::args(rt)?.collect(rt.alloc())?;
    let matches = match command(rt.alloc())?.try_get_matches_from(words.as_slice()) {
        Ok(matches) => matches,
        Err(error) => {
            error.print(rt)?;
            return Ok(if error.use_stderr() { 2 } else { 0 });
        }
    };
    print(rt, &matches)
}

fn main(rt: HostRuntime) -> ExitCode {
    match run(&rt) {
        Ok(status) => ExitCode::from(status),
        Err(error) => {
            let _ = eprintln!(rt; "example_packages: {error:#}");
            ExitCode::from(2)
        }
    }
}
