//! What no contract says: that calls succeed, and what they answer for graphs that were worked out
//! by hand.

mod refusals;
mod rows;
mod support;
mod with_edges;
mod worked;
