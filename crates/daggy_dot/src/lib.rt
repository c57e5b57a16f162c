//! Pictures of dags, in graphviz's language DOT.
#![tactic(auto)]

mod direction;
mod escapes;
mod labels;
mod marks;
mod picture;
mod values;
mod writing;

pub use direction::RankDir;
pub use escapes::{write_attribute, write_label};
pub use labels::{Label, NoLabels, WeightLabels};
pub use picture::Dot;
pub use values::{Attribute, Both, Clusters};
