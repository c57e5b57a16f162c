//! An order of nodes beside a graph, by example.
#![tactic(auto)]

#[cfg(test)]
mod tests;
