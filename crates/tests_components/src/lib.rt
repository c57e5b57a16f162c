//! Components, cycles and condensations of graphs, by example.
#![tactic(auto)]

#[cfg(test)]
mod tests;
