//! Lines that set a cell, and what can be wrong with them.
use std::alloc::{AllocError, Global};
use thiserror::Error;

/// A line `name = term + term + ..`: the sum of its numbers, and its names.
#[derive(Debug, Drop)]
pub struct Line<'a> {
    pub name: &'a str,
    pub sum: i128,
    pub names: Vec<&'a str>,
}

/// Why a line changed nothing, or why the program has to end.
#[derive(Debug, Drop, Error)]
pub enum BadLine {
    #[error("not UTF-8")]
    NotText,
    #[error("not of the form `name = term + ..`")]
    NoFormula,
    #[error("{0:?} is not the name of a cell")]
    NotAName(String),
    #[error("{0:?} is neither a 64-bit whole number nor the name of a cell")]
    NotATerm(String),
    #[error("a cell would need itself: {0}")]
    Cycle(String),
    #[error(transparent)]
    Memory(#[from(alloc)] AllocError),
    #[error(transparent)]
    Failed(#[from] anyhow::Error),
}

/// Whether a text has letters, digits and `_` only, and begins with no digit.
fn is_name(text: &str) -> bool {
    !text.is_empty()
        && !text.starts_with(|c: char| c.is_numeric())
        && text.chars().all(|c| c.is_alphanumeric() || c == '_')
}

/// Reads a line.
pub fn parse(alloc: Global, text: &str) -> Result<Line<'_>, BadLine> {
    let (name, formula) = text.split_once('=').ok_or(BadLine::NoFormula)?;
    let name = name.trim();
    if !is_name(name) {
        return Err(BadLine::NotAName(String::from_str(alloc, name)?));
    }
    let mut sum = 0i128;
    let mut names = Vec::new(alloc);
    for term in formula.split('+') {
        let term = term.trim();
        match term.parse::<i64>() {
            Ok(number) => sum = sum.saturating_add(i128::from(number)),
            Err(_) if is_name(term) => names.push(term)?,
            Err(_) => return Err(BadLine::NotATerm(String::from_str(alloc, term)?)),
        }
    }
    Ok(Line { name, sum, names })
}
