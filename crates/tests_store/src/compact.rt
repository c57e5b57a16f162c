//! What no contract says: that calls succeed, at concrete types, what is printed, and that the
//! examples come out as they should.

mod errors;
mod graphs;
mod indices;
mod iterating;
mod mapping;
mod searching;
mod support;
mod two_weights;
