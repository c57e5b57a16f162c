//! Graphs in formats that other programs read.
#![tactic(auto)]

mod document;
mod escaper;
mod formats;

pub use document::{Document, edge_table, graphml, mermaid, node_table};
pub use escaper::{Escape, write_escaped};
pub use formats::{EdgeTable, Format, GraphMl, Mermaid, NodeTable};
