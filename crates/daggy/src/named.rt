//! Dags whose nodes have keys. Their methods have no preconditions, except that a closure that is
//! passed to them may be called.
//!
//! A [`Named`] is a stable dag with a hash map of its keys. A key that is unknown or taken, an edge
//! that would close a cycle and an index type without an index left are errors: [`AddError`],
//! [`DependError`] and [`DependenciesError`]. [`Named::from_dag`] gives keys to the nodes of a dag
//! that is there already. [`ReadyKeys`] returns the keys of the nodes that are ready, even if some
//! nodes fail, and [`ScheduleByKey`] says when each node can start.
pub use daggy_named::error::{AddError, DependError, DependenciesError, KeysError};
pub use daggy_named::named::{
    Dependency, FromDagError, Keys, Named, NeighborKeys, PlanByKey, ReadyKeys, ScheduleByKey,
    TopologicalKeys,
};
