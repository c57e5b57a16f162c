//! What no contract says: that calls succeed, at concrete types, and that the examples come out as
//! they should.

mod graphs;
mod iterating;
mod support;
