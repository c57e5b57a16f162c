//! Running lists of commands on a dag of either kind, with a reply to each.
#![tactic(auto)]

pub mod guarded;
pub mod plan;
pub mod run;
pub mod step;
