//! A dag whose nodes are named by keys.
#![tactic(auto)]

pub mod error;
pub mod named;
