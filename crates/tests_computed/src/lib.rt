//! What no contract says of computed values: that calls succeed, and what they answer for small dags.
#![tactic(auto)]

#[cfg(test)]
mod sheet;
#[cfg(test)]
mod tests;
