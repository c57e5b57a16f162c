//! Running lists of commands on a dag of either kind, with a reply to each, and planning its nodes
//! in stages.
//!
//! [`run`] carries out a list of [`Command`]s, and [`perform`] one of them; both test what the
//! methods of a dag require. [`plan`] puts the nodes into the fewest possible stages.
pub use daggy_base::command::{Back, Command, Neighbor, NewEdge, Reply};
pub use daggy_base::kind::Kind;
pub use daggy_run::guarded::GuardedDag;
pub use daggy_run::plan::plan;
pub use daggy_run::plan::stages::Plan;
pub use daggy_run::run::run;
pub use daggy_run::step::perform;
