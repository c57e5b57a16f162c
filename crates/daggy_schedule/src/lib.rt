//! Scheduling the nodes of a dag, each after its parents: which are ready, and how early each can
//! start.
#![tactic(auto)]

mod candidates;
pub mod fallible_ready;
pub mod levels;
pub mod on_workers;
pub mod order_by;
pub mod ready;
pub mod ready_by_key;
pub mod schedule;
