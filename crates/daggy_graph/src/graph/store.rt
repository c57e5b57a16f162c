//! `Store` for the compact store.
ghost use Rattle.std.specs.Prelude.{◌≡◌, ◌+◌, ◌<◌, ◌↔◌, IsTrue, IfOk, OnOk, IfErr, OnErr};
ghost use Rattle.std.specs.Prelude.{OnSome, IfNone, Some, [], ◌≤◌, length, option_copied};
ghost use Rattle.std.specs.Prelude.{refl};
ghost use Rattle.std.specs.Borrow.{sem};
ghost use Rattle.std.specs.Option.{option_map};
ghost use Rattle.daggy_base.specs.Graph.{HasNode, HasEdge, node_weight, edge_at, list_at};
ghost use Rattle.daggy_base.specs.Graph.{ends_of, pair_of, node_bound as node_bound_of};
ghost use Rattle.daggy_base.specs.Graph.{edge_count as edge_count_of};
ghost use Rattle.daggy_base.specs.Graph.{IsCompact};
ghost use Rattle.daggy_base.specs.WellFormed.{IsIsolated};
ghost use Rattle.daggy_base.specs.Cursor.{first_of, cursor_after};
ghost use Rattle.daggy_base.specs.Adding.{next_edge, with_edge};
ghost use Rattle.daggy_base.specs.Finding.{find_edge as edge_between};
ghost use Rattle.daggy_base.specs.Weights.{edge_weight, with_node_weight, with_edge_weight};
ghost use Rattle.daggy_base.specs.FromSlots.{graph_of_slots, edges_by, MakeGraph};
ghost use Rattle.daggy_base.specs.TakingBack.{with_edge_taken_back, with_node_taken_back};
ghost use Rattle.daggy_base.specs.Removal.{without_edge, without_node, with_node_isolated};
ghost use Rattle.daggy_base.specs.declared.kind.Kind.TheVariants.{Compact};
ghost use Rattle.daggy_base.specs.State.{with_graph};
ghost use Rattle.daggy_graph.specs.Lends.{lends_node, lends_edge};
ghost use Rattle.daggy_base.specs.declared.index.Direction.{Direction};
ghost use Rattle.daggy_base.specs.declared.error.EdgeError.TheVariants.{Memory as EdgeMemory};

use crate::graph::DiGraph;
use daggy_base::error::{EdgeError, NodeError};
use daggy_base::index::{Direction, EdgeIndex, IndexType, NodeIndex};
use daggy_base::kind::Kind;
use daggy_base::read_store::ReadStore;
use daggy_base::source::EdgeSource;
use daggy_base::store::Store;
use std::alloc::{AllocError, Global};

impl<N: Drop, E: Drop, Ix: IndexType> ReadStore<Ix> for DiGraph<N, E, Ix> {
    ghost KIND = { Compact };

    const KIND: Kind = Kind::Compact;

    #[inline]
    fn invariant(&self) {
        let _count = DiGraph::node_count(self);
    }

    #[inline]
    fn node_slots(&self) -> usize {
        self.node_count()
    }

    #[inline]
    fn edge_slots(&self) -> usize {
        self.edge_count()
    }

    #[inline]
    fn node_count(&self) -> usize {
        DiGraph::node_count(self)
    }

    #[inline]
    fn edge_count(&self) -> usize {
        DiGraph::edge_count(self)
    }

    #[inline]
    fn contains_edge_index(&self, e: EdgeIndex<Ix>) -> bool
        ensures { IsTrue result ↔ HasEdge self.now.graph (Ix.number e) }
    {
        DiGraph::contains_edge_index(self, e)
    }

    #[inline]
    fn node_weight(&self, n: NodeIndex<Ix>) -> Option<&N>
        ensures { option_copied result ≡ node_weight self.now.graph (Ix.number n) }
    {
        DiGraph::node_weight(self, n)
    }

    #[inline]
    fn edge_weight(&self, e: EdgeIndex<Ix>) -> Option<&E>
        ensures { option_copied result ≡ edge_weight self.now.graph (Ix.number e) }
    {
        DiGraph::edge_weight(self, e)
    }

    #[inline]
    fn can_add_node(&self) -> bool {
        self.can_add_node()
    }

    #[inline]
    fn can_add_edge(&self) -> bool {
        self.can_add_edge()
    }

    #[inline]
    fn first_edge(&self, n: NodeIndex<Ix>, dir: Direction) -> EdgeIndex<Ix>
        ensures { Ix.number result
            ≡ first_of Ix.greatest (list_at dir self.now.graph (Ix.number n)) }
    {
        self.first_edge(n, dir)
    }

    #[inline]
    fn next_edge(&self, e: EdgeIndex<Ix>, dir: Direction) -> EdgeIndex<Ix>
        requires { HasEdge self.now.graph (Ix.number e) }
        ensures { Ix.number result
            ≡ cursor_after dir Ix.greatest self.now.graph (Ix.number e)
            (edge_at self.now.graph (Ix.number e)) }
    {
        self.next_edge(e, dir)
    }

    #[inline]
    fn edge_endpoints(&self, e: EdgeIndex<Ix>) -> Option<(NodeIndex<Ix>, NodeIndex<Ix>)>
        ensures { option_map (pair_of Ix.number) result
            ≡ option_map ends_of (edge_at self.now.graph (Ix.number e)) }
    {
        self.edge_endpoints(e)
    }

    #[inline]
    fn find_edge(&self, a: NodeIndex<Ix>, b: NodeIndex<Ix>) -> Option<EdgeIndex<Ix>>
        ensures { option_map Ix.number result
            ≡ edge_between self.now.graph (Ix.number a) (Ix.number b) }
    {
        self.find_edge(a, b)
    }
}

impl<N: Drop, E: Drop, Ix: IndexType> Store<Ix> for DiGraph<N, E, Ix> {
    ghost node_written = { λ s n w. with_graph s (with_node_weight s.graph n w) };

    ghost edge_written = { λ s e w. with_graph s (with_edge_weight s.graph e w) };

    ghost node_written_is = { λ s n w. refl };

    ghost node_written_looks = { λ s n w. refl };

    ghost edge_written_is = { λ s e w. refl };

    ghost edge_written_looks = { λ s e w. refl };

    fn new(alloc: Global) -> Self {
        DiGraph::new(alloc)
    }

    fn from_slots(
        alloc: Global,
        nodes: Vec<Option<N>>,
        edges: Vec<Option<(NodeIndex<Ix>, NodeIndex<Ix>, E)>>,
    ) -> Result<Self, AllocError>
        requires makes_graph { MakeGraph Ix.greatest nodes.items (edges_by Ix.number edges.items) }
        requires compact { Compact ≡ Compact
            → IsCompact (graph_of_slots nodes.items (edges_by Ix.number edges.items)) }
        ensures graph { IfOk result (λ s.
            s.graph ≡ graph_of_slots nodes.items (edges_by Ix.number edges.items)) }
        ensures looks { IfOk result (λ s. s.looks ≡ 0) }
    {
        DiGraph::from_slots(alloc, nodes, edges)
    }

    #[inline]
    fn node_mut(&mut self, n: NodeIndex<Ix>) -> &mut N
        requires { HasNode self.old.graph (Ix.number n) }
        ensures* writes_back { sem 𝓛
            (lends_node N.row E.row Ix.row Ix.IndexType self.entry n result) }
        ensures value { node_weight self.old.graph (Ix.number n) ≡ Some result.now }
    {
        &mut self[n]
    }

    #[inline]
    fn edge_mut(&mut self, e: EdgeIndex<Ix>) -> &mut E
        requires { HasEdge self.old.graph (Ix.number e) }
        ensures* writes_back { sem 𝓛
            (lends_edge N.row E.row Ix.row Ix.IndexType self.entry e result) }
        ensures value { edge_weight self.old.graph (Ix.number e) ≡ Some result.now }
    {
        &mut self[e]
    }

    #[inline]
    fn slots_with_node(&self) -> usize {
        let _fits = NodeIndex::<Ix>::end().index();
        self.node_count() + 1
    }

    #[inline]
    fn add_node(&mut self, weight: N) -> Result<NodeIndex<Ix>, NodeError<N>> {
        self.add_node(weight)
    }

    #[inline]
    fn add_edge(
        &mut self,
        a: NodeIndex<Ix>,
        b: NodeIndex<Ix>,
        weight: E,
    ) -> Result<EdgeIndex<Ix>, EdgeError<E>>
        requires parent { HasNode self.old.graph (Ix.number a) }
        requires child { HasNode self.old.graph (Ix.number b) }
        requires index_left { edge_count_of self.old.graph < Ix.greatest }
        ensures index { IfOk result (λ e. Ix.number e ≡ next_edge self.old.graph) }
        ensures added { OnOk result
            (self.new.graph ≡ with_edge self.old.graph (Ix.number a) (Ix.number b) weight) }
        ensures refusal { IfErr result (λ e. e ≡ EdgeMemory weight) }
        ensures unchanged { OnErr result (self.new.graph ≡ self.old.graph) }
        ensures counted { self.new.looks ≡ self.old.looks }
    {
        self.add_edge(a, b, weight)
    }

    #[inline]
    fn replace_edge_weight(&mut self, e: EdgeIndex<Ix>, weight: E) -> E
        requires { HasEdge self.old.graph (Ix.number e) }
        ensures gives { edge_weight self.old.graph (Ix.number e) ≡ Some result }
        ensures replaced { self.new.graph ≡ with_edge_weight self.old.graph (Ix.number e) weight }
        ensures counted { self.new.looks ≡ self.old.looks }
    {
        self.replace_edge_weight(e, weight)
    }

    fn take_back_edge(&mut self, e: EdgeIndex<Ix>, made: bool) -> E
        requires exists { HasEdge self.old.graph (Ix.number e) }
        requires compact { Compact ≡ Compact → IsTrue made }
        requires last { IsTrue made → Ix.number e + 1 ≡ length self.old.graph.edges }
        ensures gives { edge_weight self.old.graph (Ix.number e) ≡ Some result }
        ensures removed { self.new.graph ≡ with_edge_taken_back made self.old.graph (Ix.number e) }
        ensures counted { self.new.looks ≡ self.old.looks }
    {
        let _always = made;
        DiGraph::remove_edge(self, e).unwrap()
    }

    fn take_back_node(&mut self, n: NodeIndex<Ix>, made: bool) -> N
        requires exists { HasNode self.old.graph (Ix.number n) }
        requires no_edges { (dir : Direction) → list_at dir self.old.graph (Ix.number n) ≡ [] }
        requires compact { Compact ≡ Compact → IsTrue made }
        requires last { IsTrue made → Ix.number n + 1 ≡ length self.old.graph.nodes }
        ensures gives { node_weight self.old.graph (Ix.number n) ≡ Some result }
        ensures removed { self.new.graph ≡ with_node_taken_back made self.old.graph (Ix.number n) }
        ensures counted { self.new.looks ≡ self.old.looks }
    {
        let _well_formed = self.node_count();
        let _always = made;
        self.drop_node(n)
    }

    fn remove_edge(&mut self, e: EdgeIndex<Ix>) -> Option<E>
        ensures gives { result ≡ edge_weight self.old.graph (Ix.number e) }
        ensures removed { OnSome result
            (self.new.graph ≡ without_edge Compact self.old.graph (Ix.number e)) }
        ensures missing { IfNone result (self.new.graph ≡ self.old.graph) }
        ensures counted { self.new.looks ≡ self.old.looks }
    {
        self.remove_edge(e)
    }

    fn remove_node(&mut self, n: NodeIndex<Ix>) -> Option<N>
        ensures gives { result ≡ node_weight self.old.graph (Ix.number n) }
        ensures removed { OnSome result
            (self.new.graph ≡ without_node Compact self.old.graph (Ix.number n)) }
        ensures between { OnSome result (IsIsolated Ix.greatest
            (with_node_isolated Compact self.old.graph (Ix.number n)) (Ix.number n)) }
        ensures missing { IfNone result (self.new.graph ≡ self.old.graph) }
        ensures bound { node_bound_of self.new.graph ≤ node_bound_of self.old.graph }
        ensures counted { self.new.looks ≡ self.old.looks }
    {
        let _compact = self.node_count();
        let weight = self.remove_node(n);
        let _still_compact = self.node_count();
        weight
    }

    fn set_orders(&mut self, orders: &[(Vec<EdgeIndex<Ix>>, Vec<EdgeIndex<Ix>>)]) {
        DiGraph::set_orders(self, orders)
    }

    fn clear(&mut self) {
        DiGraph::clear(self)
    }

    fn clear_edges(&mut self) {
        DiGraph::clear_edges(self)
    }
}
