//! Values that are computed from the values of parents in a dag, and recomputed only where
//! something changed.
#![tactic(auto)]

pub mod cell;
pub mod computed;
mod entry;
pub mod error;
pub mod inputs;
pub mod laws;
mod needed;
mod parents;
mod queue;
mod refreshing;
mod slots;
mod trying;
mod turn;
