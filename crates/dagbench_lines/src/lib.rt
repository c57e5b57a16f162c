//! Lines of commands and of replies, and the devices that they come from and go to.
//!
//! [`parse`](parse::parse) reads a line as a command, and [`put_reply`](reply::put_reply) writes
//! the text of a reply. What is read and written goes through a [`Source`](stream::Source) and a
//! [`Sink`](stream::Sink).
#![tactic(auto)]

pub mod device;
mod edge_list;
pub mod explain;
mod history;
pub mod line;
pub mod memory;
mod node_list;
pub mod parse;
mod piece;
pub mod plan;
pub mod reply;
pub mod stream;
pub mod words;
pub mod writer;
