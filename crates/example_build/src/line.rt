//! Lines that describe a target, and what can be wrong with them.
use std::alloc::{AllocError, Global};
use thiserror::Error;

/// A line `target seconds @time: dependency ..`.
#[derive(Clone, Copy, Debug)]
pub struct Line<'a> {
    pub target: &'a str,
    /// How long it takes.
    pub seconds: u64,
    /// When it was built last.
    pub time: Option<u64>,
    /// What it needs, with blanks between.
    pub dependencies: &'a str,
}

/// Why a line was left out, or why the program has to end.
#[derive(Debug, Drop, Error)]
pub enum BadLine {
    #[error("not UTF-8")]
    NotText,
    #[error("no colon, as in `target seconds: dependency ..`")]
    NoColon,
    #[error("no target before the colon")]
    NoTarget,
    #[error("no seconds after the target")]
    NoSeconds,
    #[error("{0:?} is not a whole number of seconds")]
    NotSeconds(String),
    #[error("{0:?} is not a time, such as `@30`")]
    NotATime(String),
    #[error("{0:?} is one word too many before the colon")]
    TooMany(String),
    #[error("the target has a line already")]
    Twice,
    #[error(transparent)]
    Memory(#[from(alloc)] AllocError),
    #[error(transparent)]
    Failed(#[from] anyhow::Error),
}

/// Reads a line.
pub fn parse(alloc: Global, text: &str) -> Result<Line<'_>, BadLine> {
    let (before, dependencies) = text.split_once(':').ok_or(BadLine::NoColon)?;
    let mut words = before.split_whitespace();
    let target = words.next().ok_or(BadLine::NoTarget)?;
    let word = words.next().ok_or(BadLine::NoSeconds)?;
    let Ok(seconds) = word.parse() else {
        return Err(BadLine::NotSeconds(String::from_str(alloc, word)?));
    };
    let time = match words.next() {
        None => None,
        Some(word) => Some(time_of(alloc, word)?),
    };
    if let Some(word) = words.next() {
        return Err(BadLine::TooMany(String::from_str(alloc, word)?));
    }
    Ok(Line {
        target,
        seconds,
        time,
        dependencies,
    })
}

/// The time that a word `@time` gives.
fn time_of(alloc: Global, word: &str) -> Result<u64, BadLine> {
    let time = word.strip_prefix('@').and_then(|time| time.parse().ok());
    match time {
        Some(time) => Ok(time),
        None => Err(BadLine::NotATime(String::from_str(alloc, word)?)),
    }
}
