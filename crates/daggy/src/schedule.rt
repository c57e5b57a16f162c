//! Processing the nodes of a dag, each after its parents, and scheduling them by durations.
//!
//! [`Ready`] and [`ReadyByKey`] return the nodes whose parents are done, first come first served or
//! by priority. In a [`FallibleReady`] queue nodes may fail, and what depends on them is skipped.
//! [`topological_order_by`] lists all nodes, each after its parents, by priority.
//!
//! [`Schedule`] has the earliest start and the slack of each node, and a critical path, with or
//! without lags between the nodes. [`bottom_levels`] has the longest path from each node.
//! [`schedule_on`] assigns the nodes to a number of workers.
pub use daggy_schedule::fallible_ready::FallibleReady;
pub use daggy_schedule::levels::bottom_levels;
pub use daggy_schedule::on_workers::{Assignment, schedule_on};
pub use daggy_schedule::order_by::topological_order_by;
pub use daggy_schedule::ready::Ready;
pub use daggy_schedule::ready_by_key::ReadyByKey;
pub use daggy_schedule::schedule::{Schedule, ScheduleError};
