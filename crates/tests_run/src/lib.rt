//! What is built on a dag, by example: commands and documents.
#![tactic(auto)]

#[cfg(test)]
mod commands;
#[cfg(test)]
mod documents;
