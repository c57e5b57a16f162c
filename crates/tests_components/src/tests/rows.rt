//! Graphs with their components, their cycles and the edges of the condensation.

/// A graph, and what is wanted of it.
#[derive(Drop)]
pub struct Row {
    /// How many nodes there are at first.
    pub nodes: usize,
    /// The edges, by ascending index.
    pub edges: &'static [(usize, usize)],
    /// A node that is removed, in a stable graph alone.
    pub removed: Option<usize>,
    /// The components.
    pub components: &'static [&'static [usize]],
    /// The weakly connected ones.
    pub weak: &'static [&'static [usize]],
    /// The only cycle, if there is one; no other is possible.
    pub cycle: &'static [usize],
    /// How many nodes a shortest cycle through each node has, or 0 if there is none.
    pub shortest: &'static [usize],
    /// The edges that are left out so that there is no cycle, and those if the former are preferred.
    pub left_out: &'static [usize],
    pub left_out_instead: &'static [usize],
    /// The edges between components, each as two nodes of them and the least edge between them.
    pub joined: &'static [(usize, usize, usize)],
}

/// Rows of compact graphs, and of stable ones in which nothing was removed.
pub const WHOLE: &[Row] = &[
    // no node
    Row {
        nodes: 0,
        edges: &[],
        removed: None,
        components: &[],
        weak: &[],
        cycle: &[],
        shortest: &[],
        left_out: &[],
        left_out_instead: &[],
        joined: &[],
    },
    // no edge
    Row {
        nodes: 2,
        edges: &[],
        removed: None,
        components: &[&[0], &[1]],
        weak: &[&[0], &[1]],
        cycle: &[],
        shortest: &[0, 0],
        left_out: &[],
        left_out_instead: &[],
        joined: &[],
    },
    // an edge to itself
    Row {
        nodes: 1,
        edges: &[(0, 0)],
        removed: None,
        components: &[&[0]],
        weak: &[&[0]],
        cycle: &[0],
        shortest: &[1],
        left_out: &[0],
        left_out_instead: &[0],
        joined: &[],
    },
    // a diamond, with a parallel edge
    Row {
        nodes: 4,
        edges: &[(0, 1), (2, 3), (0, 2), (1, 3), (0, 2)],
        removed: None,
        components: &[&[0], &[1], &[2], &[3]],
        weak: &[&[0, 1, 2, 3]],
        cycle: &[],
        shortest: &[0, 0, 0, 0],
        left_out: &[],
        left_out_instead: &[],
        joined: &[(0, 1, 0), (2, 3, 1), (0, 2, 2), (1, 3, 3)],
    },
    // a cycle of three with a way in and a way out
    Row {
        nodes: 5,
        edges: &[(3, 0), (0, 1), (1, 2), (2, 0), (2, 4), (1, 4)],
        removed: None,
        components: &[&[3], &[0, 1, 2], &[4]],
        weak: &[&[0, 1, 2, 3, 4]],
        cycle: &[0, 1, 2],
        shortest: &[3, 3, 3, 0, 0],
        left_out: &[3],
        left_out_instead: &[2],
        joined: &[(3, 0, 0), (1, 4, 4)],
    },
    // the last edge closes a cycle through a node that another way has left
    Row {
        nodes: 4,
        edges: &[(0, 1), (1, 2), (0, 3), (3, 2), (2, 3)],
        removed: None,
        components: &[&[0], &[1], &[2, 3]],
        weak: &[&[0, 1, 2, 3]],
        cycle: &[2, 3],
        shortest: &[0, 0, 2, 2],
        left_out: &[4],
        left_out_instead: &[3],
        joined: &[(0, 1, 0), (1, 3, 1), (0, 2, 2)],
    },
    // a node is left before the edge that puts it into the component is looked at
    Row {
        nodes: 5,
        edges: &[(0, 3), (3, 2), (0, 1), (1, 0), (1, 2), (4, 0)],
        removed: None,
        components: &[&[0, 1], &[2], &[3], &[4]],
        weak: &[&[0, 1, 2, 3, 4]],
        cycle: &[0, 1],
        shortest: &[2, 2, 0, 0, 0],
        left_out: &[3],
        left_out_instead: &[2],
        joined: &[(0, 3, 0), (3, 2, 1), (1, 2, 4), (4, 1, 5)],
    },
    // edges in either direction
    Row {
        nodes: 5,
        edges: &[(1, 0), (2, 3)],
        removed: None,
        components: &[&[0], &[1], &[2], &[3], &[4]],
        weak: &[&[0, 1], &[2, 3], &[4]],
        cycle: &[],
        shortest: &[0, 0, 0, 0, 0],
        left_out: &[],
        left_out_instead: &[],
        joined: &[(1, 0, 0), (2, 3, 1)],
    },
];

/// Rows of stable graphs.
pub const VACANT: &[Row] = &[
    // a cycle is gone with its node
    Row {
        nodes: 3,
        edges: &[(0, 1), (1, 2), (2, 0)],
        removed: Some(1),
        components: &[&[0], &[2]],
        weak: &[&[0, 2]],
        cycle: &[],
        shortest: &[0, 0, 0],
        left_out: &[],
        left_out_instead: &[],
        joined: &[(2, 0, 2)],
    },
    // the first slot is vacant
    Row {
        nodes: 4,
        edges: &[(0, 1), (1, 2), (2, 1), (2, 3), (1, 3)],
        removed: Some(0),
        components: &[&[1, 2], &[3]],
        weak: &[&[1, 2, 3]],
        cycle: &[1, 2],
        shortest: &[0, 2, 2, 0],
        left_out: &[2],
        left_out_instead: &[1],
        joined: &[(1, 3, 3)],
    },
    // the last slot is vacant
    Row {
        nodes: 3,
        edges: &[(0, 2), (2, 1), (1, 0)],
        removed: Some(2),
        components: &[&[0], &[1]],
        weak: &[&[0, 1]],
        cycle: &[],
        shortest: &[0, 0, 0],
        left_out: &[],
        left_out_instead: &[],
        joined: &[(1, 0, 2)],
    },
];
