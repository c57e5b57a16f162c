//! Examples: what the public calls do.
#![tactic(auto)]

#[cfg(test)]
mod tests;
