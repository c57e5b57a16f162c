//! Values that are computed from the values of parents in a dag, and recomputed only where
//! something changed.
//!
//! A [`Computed`] has a formula and a value at each node, over a dag of either kind:
//! [`ComputedDag`] or [`StableComputedDag`]. A change makes nodes stale, and
//! [`refresh`](Computed::refresh) computes the stale ones, parents before children.
pub use daggy_computed::cell::Cell;
pub use daggy_computed::computed::{Computed, ComputedDag, StableComputedDag};
pub use daggy_computed::error::RefreshError;
pub use daggy_computed::inputs::Inputs;
pub use daggy_computed::laws::{values_are_decided, values_stay_computed};
