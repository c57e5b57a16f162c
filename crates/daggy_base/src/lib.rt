//! What both kinds of graph share: typed indices, errors, sources of edges, the trait of a store,
//! and commands as values.
#![tactic(auto)]

pub mod command;
pub mod element;
pub mod error;
pub mod index;
pub mod kind;
pub mod link;
pub mod looks;
pub mod number;
pub mod read_store;
pub mod reserved;
pub mod source;
pub mod store;
