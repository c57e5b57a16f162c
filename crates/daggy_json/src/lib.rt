//! Dags as JSON values: writing a store, reading a value into slots before a dag is made from them,
//! and the methods for dags.
#![tactic(auto)]

mod block;
mod descending;
pub mod documents;
pub mod error;
pub mod fault;
pub mod finding;
mod making;
pub mod reading;
mod streaming;
mod text;
mod values;
pub mod writing;
