//! What no contract says: that calls succeed, what is printed, in which order closures are called,
//! and that large graphs are no trouble.

mod acts;
mod adding;
mod asking;
mod closing;
mod compact;
mod comparing;
mod converting;
mod copying;
mod from_graph;
mod indices;
mod iterating;
mod kinds;
mod large;
mod many_edges;
mod ordering;
mod parents;
mod reducing;
mod removing;
mod retaining;
mod rewriting;
mod script;
mod searching;
mod slot_reuse;
mod support;
mod table;
mod trying;
mod two_weights;
mod visiting;
mod writing;
