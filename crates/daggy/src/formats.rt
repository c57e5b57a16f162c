//! Graphs in formats that other programs read: Mermaid flowcharts, GraphML, and tables of
//! comma-separated values; and graphs from such tables.
pub use daggy_formats::{
    Document, EdgeTable, Escape, Format, GraphMl, Mermaid, NodeTable, edge_table, graphml, mermaid,
    node_table, write_escaped,
};
pub use daggy_tables::{
    RowError, RowFault, TableError, graph_from_edge_table, graph_from_tables, tables_are_read_back,
};
