//! The slot-based graph that a [`StableDag`](crate::StableDag) is built on. It may have cycles.
//!
//! In a [`StableDiGraph`] a removal leaves a vacant slot and changes no other index; the slot
//! vacated last is reused first. A [`Room`] holds memory that was allocated in advance, so that the
//! conversion of a compact graph cannot fail.
pub use daggy_dag::slot_capacity::Room;
pub use daggy_stable::stable_graph::StableDiGraph;
pub use daggy_stable::stable_graph::iterators::{
    EdgeIdentifiers, EdgeReferences, EdgeWeights, NodeIdentifiers, NodeReferences, NodeWeights,
};
pub use daggy_stable::stable_graph::lists::{Edges, Neighbors};
