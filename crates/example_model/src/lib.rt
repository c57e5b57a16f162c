//! Examples that are proved: what the definitions mean on small graphs.
#![tactic(auto)]

pub mod definitions;
pub mod round;
