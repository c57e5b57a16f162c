//! Components, the condensation and cycles of any graph whose edges can be read one at a time.
//!
//! [`strongly_connected_components`] finds the classes of nodes that reach each other,
//! [`weakly_connected_components`] the classes of nodes that are connected if the direction of the
//! edges is ignored, and [`find_cycle`] finds a cycle, if there is one. [`shortest_cycle`] finds a
//! shortest cycle through a node, and [`feedback_arc_set`] finds edges whose removal makes the
//! graph acyclic.
//!
//! The condensation of a graph has a node for each strongly connected component. [`condensed_dag`]
//! returns it as a dag, and [`condensation`] as a store, each with one edge for each pair of
//! components that edges connect. [`condensed_dag_with_all_edges`] has all edges between
//! components, and [`condensed_dag_with_fold`] has one edge for each such pair, whose weight a
//! closure folds from the weights of all edges between the two components.
pub use daggy_components::{
    Components, EdgeSlots, Iter, NodeSlots, condensation, condensation_slots, find_cycle,
    strongly_connected_components, weakly_connected_components,
};
pub use daggy_condensation::{
    condensed_dag, condensed_dag_with_all_edges, condensed_dag_with_fold,
};
pub use daggy_cycles::{
    cycle_edges, feedback_arc_set, find_cycle_edges, find_cycle_with_edges, shortest_cycle,
};
