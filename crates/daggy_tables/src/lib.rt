//! Graphs from the tables that other programs write.
#![tactic(auto)]

mod edges;
mod error;
mod fields;
mod graphs;
mod laws;
mod nodes;
mod rows;

pub use error::{RowError, RowFault, TableError};
pub use graphs::{graph_from_edge_table, graph_from_tables};
pub use laws::tables_are_read_back;
