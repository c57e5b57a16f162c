//! What no contract says: that calls succeed, and what they answer for graphs that were worked out
//! by hand.

mod depth_oldest_first;
mod iterators;
mod oldest_first;
mod orders;
mod refusals;
mod support;
