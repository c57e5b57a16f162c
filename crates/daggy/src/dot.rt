//! Pictures of dags and of other graphs, in graphviz's language DOT.
//!
//! [`Dot`] displays a dag or a store, so `println!` or `format!` writes it. The labels are the
//! weights ([`WeightLabels`]), none ([`NoLabels`]), or what a [`Label`] of your own writes.
//! Closures add attributes, such as a color, and boxes around nodes.
pub use daggy_dot::{
    Attribute, Both, Clusters, Dot, Label, NoLabels, RankDir, WeightLabels, write_attribute,
    write_label,
};
