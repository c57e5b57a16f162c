//! Plays random histories of calls of a dag beside a plain model of it, and compares all answers and
//! all that can be seen of the dag.
//!
//! `histories KIND SEED CALLS` plays that many calls of a `compact` or a `stable` dag, in histories
//! of up to 400 calls. Each begins with an empty dag. It prints how many agree. At the first history
//! that disagrees it leaves out the calls that are not needed for that, prints the others with both
//! answers of the last one, and exits with status 1.
//!
//! The kinds `computed` and `computed-stable` are computed values over a dag, which are changed and
//! refreshed; after each refresh it compares which nodes were computed, and all values.
#![tactic(auto)]

mod comparing;
mod computed;
mod dag;
mod history;
mod shrinking;

use crate::computed::Formula;
use crate::dag::Ix;
use crate::dag::kinds::Kind;
use crate::history::{Fault, Played, play};
use crate::shrinking::shrink;
use anyhow::{Context, Result, bail};
use daggy::graph::DiGraph;
use daggy::stable_graph::StableDiGraph;
use histories_model::calls::Call;
use histories_model::choosing::Style;
use histories_model::random::{Random, mixed};
use histories_model::tally::Tally;
use std::env;
use std::process::ExitCode;
use std::rt::Env;

/// Plays one history, and returns whether it agrees. If not it is printed.
fn play_one<S: Kind>(
    rt: &(impl Print + AllocGlobal),
    seed: u64,
    most: usize,
    tally: &mut Tally,
) -> Result<bool> {
    let mut random = Random::new(seed);
    let style = Style::new(&mut random);
    let Played::Disagrees(calls) = play::<S>(rt.alloc(), &mut random, style, most, tally)? else {
        return Ok(true);
    };
    println!(rt; "the history with the seed {seed} disagrees:")?;
    match shrink::<S>(rt.alloc(), calls.as_slice())? {
        Some(short) => print_short(rt, calls.as_slice(), short.kept.as_slice(), &short.fault)?,
        None => println!(rt; "but not if it is played again")?,
    }
    Ok(false)
}

/// Prints the calls that are kept, and how the last one disagrees.
fn print_short(rt: &impl Print, calls: &[Call], kept: &[bool], fault: &Fault) -> Result<()> {
    for (call, is_kept) in calls.iter().zip(kept.iter()) {
        if *is_kept {
            println!(rt; "{call}")?;
        }
    }
    match fault {
        Fault::Answer(expected, actual) => {
            println!(rt; "expected: {expected:?}")?;
            println!(rt; "answered: {actual:?}")?;
        }
        Fault::State(difference) => println!(rt; "differs then: {difference:?}")?,
    }
    Ok(())
}

/// Plays histories of one kind, and returns how many there were, unless one disagrees.
fn play_all<S: Kind>(
    rt: &(impl Print + AllocGlobal),
    seed: u64,
    calls: usize,
    tally: &mut Tally,
) -> Result<Option<u64>> {
    for number in 0..calls as u64 {
        let left = calls.saturating_sub(usize::try_from(tally.calls()).unwrap_or(usize::MAX));
        if left == 0 {
            return Ok(Some(number));
        }
        let seed = mixed(seed, number, 0);
        if !play_one::<S>(rt, seed, left, tally)? {
            return Ok(None);
        }
    }
    Ok(Some(calls as u64))
}

/// Plays what the arguments say, and returns whether all agree.
fn run(rt: &(impl Env + Print + AllocGlobal)) -> Result<bool> {
    let words: Vec<String> = env::args(rt)?.collect(rt.alloc())?;
    let kind = words.get(1).context("no kind of dag")?.as_str();
    let seed = words.get(2).and_then(|word| word.parse::<u64>().ok());
    let seed = seed.context("no seed")?;
    let calls = words.get(3).and_then(|word| word.parse::<usize>().ok());
    let calls = calls.context("no number of calls")?;
    let mut tally = Tally::default();
    let played = match kind {
        "compact" => play_all::<DiGraph<u64, u64, Ix>>(rt, seed, calls, &mut tally)?,
        "stable" => play_all::<StableDiGraph<u64, u64, Ix>>(rt, seed, calls, &mut tally)?,
        "computed" => return computed::play::<DiGraph<Formula, ()>>(rt, kind, seed, calls),
        "computed-stable" => {
            return computed::play::<StableDiGraph<Formula, ()>>(rt, kind, seed, calls);
        }
        _ => bail!("no such kind of dag"),
    };
    let Some(histories) = played else {
        return Ok(false);
    };
    println!(rt; "{kind}: {calls} calls in {histories} histories agree, seed {seed}")?;
    println!(rt; "{tally}")?;
    Ok(true)
}

fn main(rt: HostRuntime) -> ExitCode {
    match run(&rt) {
        Ok(true) => ExitCode::SUCCESS,
        Ok(false) => ExitCode::from(1),
        Err(error) => {
            let _ = eprintln!(rt; "histories: {error:#}");
            ExitCode::from(2)
        }
    }
}
