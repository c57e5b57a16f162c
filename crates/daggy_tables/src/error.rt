//! Why a table is not read.
use thiserror::Error;

/// What is wrong with a row of a table.
///
/// # Examples
///
/// ```
/// let result: Result<DiGraph<(), String>, TableError> =
///     graph_from_edge_table(rt.alloc(), b"parent,child,weight\n0,one,90\n");
/// match result {
///     Err(TableError::Edges(error)) => assert!(rt; error.fault == RowFault::NotAnIndex),
///     _ => assert!(rt; false),
/// }
/// ```
#[derive(Clone, Copy, Debug, Drop, Eq, Error, PartialEq)]
pub enum RowFault {
    /// The first row is not the header of the table, or there is no row at all.
    #[error("not the header")]
    Header,
    /// A field is not valid UTF-8.
    #[error("not UTF-8")]
    NotText,
    /// The index type has no index left for the row, or the field is not an index of that type.
    #[error("no index left")]
    Full,
    /// The row has too few or too many fields.
    #[error("wrong number of fields")]
    FieldCount,
    /// A field is not a whole number below 2⁶⁴, where an index has to be.
    #[error("not an index")]
    NotAnIndex,
    /// The row of a node is not the one that its index says: the nodes are not numbered from 0 in
    /// the order of their rows.
    #[error("nodes not in order")]
    NotInOrder,
    /// A parent or a child is not a row of the table of nodes.
    #[error("no such node")]
    NoSuchNode,
}

/// The first row of a table that is at fault.
///
/// # Examples
///
/// ```
/// let text = b"parent,child,weight\n\"0\",1,\"first line\nsecond line\"\n\n1,2\n";
/// let result: Result<DiGraph<(), String>, TableError> =
///     graph_from_edge_table(rt.alloc(), text);
/// match result {
///     // The second row below the header starts in the fifth line.
///     Err(TableError::Edges(error)) => {
///         assert!(rt; error.row == 2 && error.line == 5 && error.fault == RowFault::FieldCount);
///     }
///     _ => assert!(rt; false),
/// }
/// ```
#[derive(Clone, Copy, Debug, Drop, Eq, Error, PartialEq)]
#[error("line {line}: {fault}")]
pub struct RowError {
    /// The number of the row: 0 for the header, then 1, 2 and so on. Blank lines are no rows.
    pub row: usize,
    /// The line in which the row starts: 1 for the first line of the text.
    pub line: usize,
    /// What is wrong with the row.
    pub fault: RowFault,
}

/// A graph was not read from its tables.
///
/// # Examples
///
/// ```
/// let result: Result<DiGraph<String, String>, TableError> = graph_from_tables(
///     rt.alloc(),
///     b"node,weight\n0,sow\n",
///     b"parent,child,weight\n0,1,90\n",
/// );
/// // There is no node 1.
/// let error = RowError { row: 1, line: 2, fault: RowFault::NoSuchNode };
/// assert!(rt; result.err() == Some(TableError::Edges(error)));
/// ```
#[derive(Clone, Copy, Debug, Drop, Eq, Error, PartialEq)]
pub enum TableError {
    /// Out of memory.
    #[error("out of memory")]
    Memory,
    /// A row of the table of nodes is at fault.
    #[error("table of nodes, {0}")]
    Nodes(RowError),
    /// A row of the table of edges is at fault.
    #[error("table of edges, {0}")]
    Edges(RowError),
}
