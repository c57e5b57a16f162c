//! What no contract says of walkers: that the examples come out as they should, and how often
//! predicates are asked.

mod adapters;
mod asked;
mod families;
mod hints;
mod scenes;
mod sets;
mod stale;
mod support;
