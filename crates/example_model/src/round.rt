//! A graph of its own that searches read.
ghost use Rattle.std.specs.Prelude.{◌≡◌, ℕ, ◌+◌, ◌↔◌, IsTrue};
ghost use Rattle.daggy_base.specs.Graph.{HasNode, HasEdge, out_list, node_bound as node_bound_of};
ghost use Rattle.daggy_base.specs.Graph.{edge_bound as edge_bound_of};
ghost use Rattle.daggy_base.specs.WellFormed.{IsWellFormed};
ghost use Rattle.daggy_base.specs.Cursor.{first_of};
ghost use Rattle.daggy_base.specs.Look.{IsLook};
ghost use Rattle.example_model.specs.Examples.{round};

use daggy_base::index::{EdgeIndex, NodeIndex};
use daggy_base::looks::Looks;
use daggy_base::source::EdgeSource;
use std::marker::Model;

/// Two nodes, each with an edge to the other, in two arrays: the edge that leaves each node, and
/// the child of each edge.
#[derive(Drop)]
pub struct Round {
    firsts: [u8; 2],
    children: [u8; 2],
    looks: Looks,
}

impl Model for Round {
    ghost use Rattle.std.specs.Prelude.{◌≡◌, ℕ, [], ◌∷◌};
    ghost use Rattle.daggy_base.specs.State.{State};
    ghost use Rattle.example_model.specs.Examples.{round};

    ghost Value = { State ℕ ℕ };

    ghost view = { λ s. record { graph = round; looks = s.looks.count } };

    ghost invariant = { λ s. (s.firsts ≡ 0 ∷ 1 ∷ []) × (s.children ≡ 1 ∷ 0 ∷ []) };
}

impl Round {
    /// It is made without a look.
    pub fn new() -> Self
        ensures { result ≡ record { graph = round; looks = 0 } }
    {
        Round {
            firsts: [0, 1],
            children: [1, 0],
            looks: Looks::new(),
        }
    }
}

impl EdgeSource<u8> for Round {
    type NodeWeight = u8;

    type EdgeWeight = u8;

    ghost graph = { λ s. s.graph };

    ghost looks = { λ s. s.looks };

    fn node_bound(&self) -> usize
        ensures value { result ≡ node_bound_of self.now.graph }
        ensures well_formed { IsWellFormed 255 self.now.graph }
    {
        let firsts = &self.firsts;
        firsts.len()
    }

    fn edge_bound(&self) -> usize
        ensures { result ≡ edge_bound_of self.now.graph }
    {
        let children = &self.children;
        children.len()
    }

    fn contains_node(&self, n: NodeIndex<u8>) -> bool
        ensures exists { IsTrue result ↔ HasNode self.now.graph n }
        ensures well_formed { IsWellFormed 255 self.now.graph }
    {
        let firsts = &self.firsts;
        n.index() < firsts.len()
    }

    fn first(&self, n: NodeIndex<u8>) -> EdgeIndex<u8>
        ensures { result ≡ first_of 255 (out_list self.now.graph n) }
    {
        match self.firsts.get(n.index()) {
            Some(first) => EdgeIndex::new(*first as usize),
            None => EdgeIndex::end(),
        }
    }

    fn look(&mut self, e: EdgeIndex<u8>) -> (NodeIndex<u8>, EdgeIndex<u8>)
        requires { HasEdge self.old.graph e }
        ensures gives { IsLook 255 self.old.graph e result.0 result.1 }
        ensures same { self.new.graph ≡ self.old.graph }
        ensures counted { self.new.looks ≡ self.old.looks + 1 }
    {
        self.looks.take();
        let child = self.children[e.index()];
        (NodeIndex::new(child as usize), EdgeIndex::end())
    }

    fn count_looks(&mut self, taken: &Looks)
        ensures same { self.new.graph ≡ self.old.graph }
        ensures counted { self.new.looks ≡ self.old.looks + taken.now.count }
    {
        self.looks.add(taken);
    }
}
