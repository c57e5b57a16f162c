//! Functions without code, each of whose contracts says what the definitions give on one small
//! graph.

pub mod adding;
pub mod changing;
pub mod compact_removal;
pub mod finding;
pub mod keeping;
pub mod paths;
pub mod reducing;
pub mod stable_removal;
pub mod walking;
