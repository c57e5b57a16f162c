//! A graph that stays acyclic, over the compact store and over the stable one.
#![tactic(auto)]

pub mod acyclic;
pub mod slot_capacity;
