//! Searches over any graph whose edges can be read one at a time.
#![tactic(auto)]

mod arcs;
mod cycles;
mod reach;
mod reading;
mod reversed;
mod row;
mod scratch;
mod worklist;

#[doc(hidden)]
pub use arcs::{Arc, Segment};
pub use cycles::{is_acyclic, sort_nodes};
pub use reach::reaches;
pub use reading::Reading;
pub use reversed::Reversed;
#[doc(hidden)]
pub use row::{BLOCK, Row};
pub use scratch::Scratch;
#[doc(hidden)]
pub use worklist::{NodeKey, Worklist};
