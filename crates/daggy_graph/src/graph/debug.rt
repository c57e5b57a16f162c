//! How a graph is printed for debugging: its counts, and with `{:#?}` its nodes and edges too.
use crate::graph::DiGraph;
use daggy_base::index::IndexType;
use std::fmt;

impl<N: fmt::Debug, E: fmt::Debug, Ix: IndexType> fmt::Debug for DiGraph<N, E, Ix> {
    fn fmt<W: fmt::Write>(&self, f: &mut fmt::Formatter<W>) -> fmt::Result {
        if f.alternate() {
            f.debug_struct("DiGraph")
                .field("nodes", &ShownNodes { graph: self })
                .field("edges", &ShownEdges { graph: self })
                .finish()
        } else {
            f.debug_struct("DiGraph")
                .field("node_count", &self.node_count())
                .field("edge_count", &self.edge_count())
                .finish()
        }
    }
}

// The nodes of a graph, as a map from their indices to their weights.
#[derive(Drop)]
struct ShownNodes<'a, N, E, Ix: IndexType> {
    graph: &'a DiGraph<N, E, Ix>,
}

impl<'a, N: fmt::Debug, E, Ix: IndexType> fmt::Debug for ShownNodes<'a, N, E, Ix> {
    fn fmt<W: fmt::Write>(&self, f: &mut fmt::Formatter<W>) -> fmt::Result {
        f.debug_map().entries(self.graph.node_references()).finish()
    }
}

// The edges of a graph, as a list.
#[derive(Drop)]
struct ShownEdges<'a, N, E, Ix: IndexType> {
    graph: &'a DiGraph<N, E, Ix>,
}

impl<'a, N, E: fmt::Debug, Ix: IndexType> fmt::Debug for ShownEdges<'a, N, E, Ix> {
    fn fmt<W: fmt::Write>(&self, f: &mut fmt::Formatter<W>) -> fmt::Result {
        f.debug_list()
            .entries(self.graph.edge_references())
            .finish()
    }
}
