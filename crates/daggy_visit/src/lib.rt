//! Traits for generic code, sets and matrices of nodes, and the step of a walker along a list.
#![tactic(auto)]

pub mod bits;
pub mod prefetch;
pub mod visit;
pub mod walk;
