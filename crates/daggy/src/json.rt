//! Dags as JSON values.
//!
//! A document has the node weights, the edges, and the order of the edges in the lists of each
//! node. Reading it restores the dag; [`stable_from_json`] says which vacant slots of a stable dag
//! it does not restore. The caller passes functions that encode and decode the weights.
//!
//! [`dag_to_json`] and [`stable_to_json`] return a value, and [`write_json`] writes the text
//! without building one. [`write_short_json`] leaves out the orders of the lists if each list is in
//! descending index order. [`dag_from_json`] and [`stable_from_json`] read a value, and
//! [`graph_from_json`] reads one whose graph may have cycles. [`find_fault`] returns the place of
//! the first fault of a value that cannot be read.
pub use daggy_json::documents::{
    dag_from_json, dag_to_json, graph_from_json, stable_from_json, stable_to_json, write_json,
    write_short_json,
};
pub use daggy_json::error::{ReadError, StreamError, WriteError};
pub use daggy_json::fault::{Fault, Member, Place};
pub use daggy_json::finding::find_fault;
