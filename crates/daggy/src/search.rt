//! Searches over any graph whose edges can be read one at a time.
//!
//! The functions take any [`EdgeSource`]: a store, or a view of a borrowed store that follows its
//! edges forward ([`Reading`]) or backward ([`Reversed`]). Most of them search in the memory of a
//! [`Scratch`], which the caller keeps from one search to the next. Those that take an [`Order`] of
//! the nodes use it to search only a part of the graph, or to sort what they find.
pub use daggy_base::looks::Looks;
pub use daggy_base::source::{EdgeSource, IndexedSource};
pub use daggy_order::order::{Nodes, Order, order_edge, path_in, reaches_in};
pub use daggy_reduction::affected::{affected, descendants};
pub use daggy_reduction::blocks::redundant_edges_by_blocks;
pub use daggy_reduction::bounded::redundant_edges_in;
pub use daggy_reduction::reduce::transitive_reduce;
pub use daggy_reduction::reduction_laws::{reduction_is_least, reductions_are_alike};
pub use daggy_reduction::transitive_closure::transitive_closure;
pub use daggy_redundant::redundant::redundant_edges;
pub use daggy_search::{Reading, Reversed, Scratch, is_acyclic, reaches};
