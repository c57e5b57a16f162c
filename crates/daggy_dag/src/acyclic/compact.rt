//! The methods that only the compact dag has, or that are implemented separately for it.
mod copies;
mod iterators;
mod map;
pub mod raw;
mod rewriting;
mod two_weights;
