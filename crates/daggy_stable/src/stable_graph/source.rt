//! `EdgeSource` for the stable store.
ghost use Rattle.std.specs.Prelude.{◌≡◌, ◌+◌, ◌↔◌, IsTrue, OnSome, IfNone};
ghost use Rattle.std.specs.Option.{option_map};
ghost use Rattle.daggy_base.specs.Graph.{HasNode, HasEdge, out_list, node_bound as node_bound_of};
ghost use Rattle.daggy_base.specs.Graph.{edge_bound as edge_bound_of, edge_at, ends_of, pair_of};
ghost use Rattle.daggy_base.specs.WellFormed.{IsWellFormed};
ghost use Rattle.daggy_base.specs.Cursor.{first_of};
ghost use Rattle.daggy_base.specs.Look.{IsLook};

use crate::stable_graph::StableDiGraph;
use daggy_base::index::{Direction, EdgeIndex, IndexType, NodeIndex};
use daggy_base::looks::Looks;
use daggy_base::source::{EdgeSource, IndexedSource};
use daggy_cells::links;

impl<N: Drop, E: Drop, Ix: IndexType> EdgeSource<Ix> for StableDiGraph<N, E, Ix> {
    type NodeWeight = N;

    type EdgeWeight = E;

    ghost graph = { λ s. s.graph };

    ghost looks = { λ s. s.looks };

    #[inline]
    fn node_bound(&self) -> usize
        ensures value { result ≡ node_bound_of self.now.graph }
        ensures well_formed { IsWellFormed Ix.greatest self.now.graph }
    {
        let _well_formed = self.edge_count();
        StableDiGraph::node_bound(self)
    }

    #[inline]
    fn edge_bound(&self) -> usize
        ensures { result ≡ edge_bound_of self.now.graph }
    {
        StableDiGraph::edge_bound(self)
    }

    #[inline]
    fn contains_node(&self, n: NodeIndex<Ix>) -> bool
        ensures exists { IsTrue result ↔ HasNode self.now.graph (Ix.number n) }
        ensures well_formed { IsWellFormed Ix.greatest self.now.graph }
    {
        let _well_formed = self.edge_count();
        self.contains_node(n)
    }

    #[inline]
    fn first(&self, n: NodeIndex<Ix>) -> EdgeIndex<Ix>
        ensures { Ix.number result ≡ first_of Ix.greatest (out_list self.now.graph (Ix.number n)) }
    {
        self.first_edge(n, Direction::Outgoing)
    }

    #[inline]
    fn look(&mut self, e: EdgeIndex<Ix>) -> (NodeIndex<Ix>, EdgeIndex<Ix>)
        requires { HasEdge self.old.graph (Ix.number e) }
        ensures gives { IsLook Ix.greatest self.old.graph (Ix.number e) (Ix.number result.0)
            (Ix.number result.1) }
        ensures same { self.new.graph ≡ self.old.graph }
        ensures counted { self.new.looks ≡ self.old.looks + 1 }
    {
        self.looks.take();
        let x = &self.edges[e.index()];
        let child = links::endpoint(x, Direction::Incoming);
        let next = links::next(x, Direction::Outgoing);
        (child.node(), next.edge())
    }

    #[inline]
    fn count_looks(&mut self, taken: &Looks)
        ensures same { self.new.graph ≡ self.old.graph }
        ensures counted { self.new.looks ≡ self.old.looks + taken.now.count }
    {
        self.looks.add(taken);
    }
}

impl<N: Drop, E: Drop, Ix: IndexType> IndexedSource<Ix> for StableDiGraph<N, E, Ix> {
    #[inline]
    fn look_at(&mut self, e: EdgeIndex<Ix>) -> Option<(NodeIndex<Ix>, NodeIndex<Ix>)>
        ensures gives { option_map (pair_of Ix.number) result
            ≡ option_map ends_of (edge_at self.old.graph (Ix.number e)) }
        ensures same { self.new.graph ≡ self.old.graph }
        ensures counted { OnSome result (self.new.looks ≡ self.old.looks + 1) }
        ensures missing { IfNone result (self.new.looks ≡ self.old.looks) }
    {
        let ends = self.edge_endpoints(e)?;
        Looks::take(&mut self.looks);
        Some(ends)
    }
}
