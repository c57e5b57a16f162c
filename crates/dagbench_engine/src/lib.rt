//! A dag driven by lines of commands: the line program, except for its devices.
//!
//! [`serve`] reads lines from a [`Source`] and writes the answers to a [`Sink`]. A [`Device`] is a
//! source or a sink over a reader or a writer of std; [`MemorySource`] and [`MemorySink`] are in
//! memory.
#![tactic(auto)]

mod document;
mod engine;
mod mode;
mod plan;
mod service;
mod session;
mod stop;

pub use dagbench_lines::device::Device;
pub use dagbench_lines::explain::{BadLine, Operand, explain};
pub use dagbench_lines::memory::{MemorySink, MemorySource};
pub use dagbench_lines::stream::{Fault, Sink, Source};
pub use mode::{Mode, mode_of};
pub use service::serve;
pub use stop::{Stop, ending};
