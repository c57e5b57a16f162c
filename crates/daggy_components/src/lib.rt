//! The components of a graph, its condensation, which is acyclic, and its cycles.
#![tactic(auto)]

mod components;
mod condense;
mod cycle;
mod strongly_connected;
mod weakly_connected;

pub use components::{Components, Iter};
pub use condense::{EdgeSlots, NodeSlots, condensation, condensation_slots};
pub use cycle::find_cycle;
pub use strongly_connected::strongly_connected_components;
pub use weakly_connected::weakly_connected_components;
