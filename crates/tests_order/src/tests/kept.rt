//! A graph without cycles beside an order of its nodes.
ghost use Rattle.std.specs.Prelude.{◌≡◌, ◌↔◌, false};
ghost use Rattle.daggy_base.specs.Path.{Reaches};

use super::counted::Counted;
use super::support::{holds, made, same};
use daggy_base::index::{EdgeIndex, NodeIndex};
use daggy_base::source::EdgeSource;
use daggy_order::order::{Order, order_edge, reaches_in};
use daggy_reduction::blocks::redundant_edges_by_blocks;
use daggy_reduction::bounded::redundant_edges_in;
use daggy_redundant::redundant::redundant_edges;
use daggy_search::{Scratch, reaches};
use std::alloc::Global;
use std::marker::Model;
use std::process::Abort;

// Asserts that these edges, and no others, were found, in this order.
fn are(rt: &impl Abort, found: &[EdgeIndex<u8>], wanted: &[usize]) {
    same(rt, found.len(), wanted.len());
    for (e, index) in found.iter().zip(wanted) {
        same(rt, e.index(), *index);
    }
}

/// An edge is added to it if its order can be updated.
#[derive(Drop)]
pub struct Kept {
    pub graph: Counted,
    pub order: Order<u8>,
    pub scratch: Scratch<u8>,
}

impl Model for Kept {
    ghost use Rattle.std.specs.Prelude.{ℕ, ◌≤◌};
    ghost use Rattle.daggy_base.specs.Graph.{node_bound};
    ghost use Rattle.daggy_base.specs.State.{State};
    ghost use Rattle.daggy_base.specs.Ordered.{IsOrderOf};

    ghost Value = { State ℕ ℕ };

    ghost view = { λ k. k.graph };

    ghost invariant = { λ k.
        IsOrderOf k.graph.graph k.order × (node_bound k.graph.graph ≤ k.scratch.nodes) };
}

impl Kept {
    pub fn new(alloc: Global) -> Self {
        Kept {
            graph: Counted::new(alloc),
            order: Order::new(alloc),
            scratch: Scratch::new(alloc),
        }
    }

    /// Adds a node, which is put first or last.
    pub fn add_node(&mut self, rt: &impl Abort, first: bool) -> NodeIndex<u8> {
        holds(rt, self.graph.can_add_node());
        let _well_formed = self.graph.node_bound();
        let n = made(rt, self.graph.add_node());
        let bound = self.graph.node_bound();
        made(rt, self.scratch.reserve(bound, 0));
        holds(rt, n.index() < 255 && !self.order.holds(n));
        if first {
            made(rt, self.order.push_first(n));
        } else {
            made(rt, self.order.push(n));
        }
        n
    }

    /// Its nodes, sorted from scratch.
    pub fn sorted(&mut self, rt: &impl Abort, alloc: Global) -> Option<Order<u8>> {
        made(rt, Order::sorted(alloc, &mut self.graph, &mut self.scratch))
    }

    /// Sorts its order from scratch.
    pub fn sort(&mut self) -> bool {
        self.order.sort(&mut self.graph, &mut self.scratch)
    }

    /// Whether the order can be updated for an edge.
    pub fn makes_way(&mut self, rt: &impl Abort, a: NodeIndex<u8>, b: NodeIndex<u8>) -> bool
        ensures { result ≡ false ↔ Reaches self.old.graph b a }
    {
        holds(rt, self.graph.contains_node(a));
        holds(rt, self.graph.contains_node(b));
        order_edge(&mut self.graph, &mut self.order, a, b, &mut self.scratch)
    }

    /// Adds an edge, unless it closes a cycle.
    pub fn add_edge(&mut self, rt: &impl Abort, a: NodeIndex<u8>, b: NodeIndex<u8>) -> bool
        ensures { result ≡ false ↔ Reaches self.old.graph b a }
    {
        holds(rt, self.graph.contains_node(a));
        holds(rt, self.graph.contains_node(b));
        holds(rt, self.graph.can_add_edge());
        let fine = order_edge(&mut self.graph, &mut self.order, a, b, &mut self.scratch);
        if fine {
            made(rt, self.graph.add_edge(a, b));
        }
        fine
    }

    /// Whether a path leads from one node to another, by a search of the whole graph.
    pub fn reaches(&mut self, from: NodeIndex<u8>, to: NodeIndex<u8>) -> bool {
        reaches(&mut self.graph, from, to, &mut self.scratch)
    }

    /// As `reaches`, by the order.
    pub fn reaches_in(&mut self, from: NodeIndex<u8>, to: NodeIndex<u8>) -> bool {
        reaches_in(
            &mut self.graph,
            &mut self.order,
            from,
            to,
            &mut self.scratch,
        )
    }

    /// Asserts that these edges are redundant below some roots, whether the order bounds the
    /// searches or not, and by blocks, and returns how many looks the bounded searches took.
    pub fn are_redundant(
        &mut self,
        rt: &impl Abort,
        roots: &[NodeIndex<u8>],
        wanted: &[usize],
    ) -> usize {
        let (nodes, edges) = (self.graph.node_bound(), self.graph.edge_bound());
        made(rt, self.scratch.reserve(nodes, edges));
        made(rt, self.scratch.reserve_rows(nodes));
        let found = redundant_edges(&mut self.scratch, &mut self.graph, roots);
        are(rt, found, wanted);
        let found = redundant_edges_by_blocks(
            &mut self.scratch,
            &mut self.graph,
            &self.order,
            roots,
        );
        are(rt, found, wanted);
        let _before = self.graph.looks();
        let found = redundant_edges_in(&mut self.scratch, &mut self.graph, &self.order, roots);
        are(rt, found, wanted);
        self.graph.looks()
    }
}
