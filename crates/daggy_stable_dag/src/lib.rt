//! The stable dag, whose indices outlive removals, and the types that its methods use.
#![tactic(auto)]

pub mod stable_dag;
