//! Random calls of a dag, and a plain model that answers them and judges the answers of a real dag. It
//! uses nothing of the library.
#![tactic(auto)]

pub mod answer;
pub mod calls;
pub mod choosing;
pub mod judging;
pub mod model;
pub mod random;
pub mod tally;
