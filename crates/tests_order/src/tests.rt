//! What no contract says: that calls succeed, that an order and a plain search answer alike, and
//! how often an edge is looked at.

mod blocks;
mod counted;
mod edges;
mod kept;
mod lists;
mod paths;
mod random;
mod redundant;
mod sorting;
mod support;
