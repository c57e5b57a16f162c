//! The methods that only the stable dag has, or that are implemented separately for it.
mod convert;
mod copies;
mod iterators;
mod map;
mod rewriting;
mod two_weights;
