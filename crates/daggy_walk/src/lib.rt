//! Walking over graphs without borrowing them.
#![tactic(auto)]

pub mod walker;
