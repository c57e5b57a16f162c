//! The parts of the stores: nodes and edges with links between them.
#![tactic(auto)]

pub mod cell;
pub mod links;
pub mod reference;
pub mod two_cells;
