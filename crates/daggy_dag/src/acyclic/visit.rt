//! The visit traits for dags.
ghost use Rattle.std.specs.Prelude.{◌≡◌, ℕ, ◌≤◌, ◌↔◌, List, Bool, length, true, IsTrue, IfOk, OnOk};
ghost use Rattle.std.specs.Prelude.{OnErr, option_copied, refl};
ghost use Rattle.std.specs.Borrow.{sem};
ghost use Rattle.std.specs.Option.{option_copied_mut};
ghost use Rattle.daggy_base.specs.Graph.{node_weight as weight_at, node_count as node_count_of};
ghost use Rattle.daggy_base.specs.Graph.{node_bound as node_bound_of};
ghost use Rattle.daggy_base.specs.Path.{AreJoined};
ghost use Rattle.daggy_base.specs.State.{with_graph};
ghost use Rattle.daggy_base.specs.Weights.{edge_weight as edge_weight_at, with_node_weight};
ghost use Rattle.daggy_base.specs.Weights.{with_edge_weight};
ghost use Rattle.daggy_visit.specs.Visit.{IsVisited, HasPair};
ghost use Rattle.daggy_dag.specs.Lends.{lends_node_if, lends_edge_if};

use crate::acyclic::{Acyclic, Dag};
use daggy_base::index::{EdgeIndex, IndexType, NodeIndex};
use daggy_base::read_store::ReadStore;
use daggy_base::source::EdgeSource;
use daggy_base::store::Store;
use daggy_guard::matrix;
use daggy_visit::visit::{
    AdjMatrix, Data, DataMap, DataMapMut, Directed, GetAdjacencyMatrix, GraphBase, GraphProp,
    NodeCompactIndexable, NodeCount, NodeIndexable, NodeSet, Visitable,
};
use std::alloc::AllocError;

impl<N: Drop, E: Drop, Ix: IndexType, S> GraphBase for Acyclic<N, E, Ix, S>
where
    S: ReadStore<Ix, NodeWeight = N, EdgeWeight = E>,
{
    type NodeId = NodeIndex<Ix>;

    type EdgeId = EdgeIndex<Ix>;

    ghost node_number = { λ n. Ix.number n };

    ghost edge_number = { λ e. Ix.number e };
}

impl<N: Drop, E: Drop, Ix: IndexType, S> Data for Acyclic<N, E, Ix, S>
where
    S: ReadStore<Ix, NodeWeight = N, EdgeWeight = E>,
{
    type NodeWeight = N;

    type EdgeWeight = E;

    ghost graph = { λ s. s.graph };
}

impl<N: Drop, E: Drop, Ix: IndexType, S> NodeCount for Acyclic<N, E, Ix, S>
where
    S: ReadStore<Ix, NodeWeight = N, EdgeWeight = E>,
{
    #[inline]
    fn node_count(&self) -> usize
        ensures { result ≡ node_count_of self.now.graph }
    {
        Acyclic::node_count(self)
    }
}

impl<N: Drop, E: Drop, Ix: IndexType, S> GraphProp for Acyclic<N, E, Ix, S>
where
    S: ReadStore<Ix, NodeWeight = N, EdgeWeight = E>,
{
    type EdgeType = Directed;

    ghost directed = { true };

    #[inline]
    fn is_directed(&self) -> bool
        ensures { result ≡ true }
    {
        true
    }
}

impl<N: Drop, E: Drop, Ix: IndexType, S> DataMap for Acyclic<N, E, Ix, S>
where
    S: ReadStore<Ix, NodeWeight = N, EdgeWeight = E>,
{
    #[inline]
    fn node_weight(&self, id: NodeIndex<Ix>) -> Option<&N>
        ensures { option_copied result ≡ weight_at self.now.graph (Ix.number id) }
    {
        self.node_weight(id)
    }

    #[inline]
    fn edge_weight(&self, id: EdgeIndex<Ix>) -> Option<&E>
        ensures { option_copied result ≡ edge_weight_at self.now.graph (Ix.number id) }
    {
        self.edge_weight(id)
    }
}

impl<N: Drop, E: Drop, Ix: IndexType, S> NodeIndexable for Acyclic<N, E, Ix, S>
where
    S: ReadStore<Ix, NodeWeight = N, EdgeWeight = E>,
{
    ghost greatest = { Ix.greatest };

    #[inline]
    fn node_bound(&self) -> usize
        ensures value { result ≡ node_bound_of self.now.graph }
        ensures fits { node_bound_of self.now.graph ≤ Ix.greatest }
    {
        EdgeSource::node_bound(&self.guarded.store)
    }

    #[inline]
    fn to_index(&self, id: NodeIndex<Ix>) -> usize
        ensures { result ≡ Ix.number id }
    {
        id.index()
    }

    #[inline]
    fn from_index(&self, x: usize) -> NodeIndex<Ix>
        requires { x ≤ Ix.greatest }
        ensures { Ix.number result ≡ x }
    {
        NodeIndex::new(x)
    }
}

impl<N: Drop, E: Drop, Ix: IndexType> NodeCompactIndexable for Dag<N, E, Ix> {}

impl<N: Drop, E: Drop, Ix: IndexType, S> Visitable for Acyclic<N, E, Ix, S>
where
    S: ReadStore<Ix, NodeWeight = N, EdgeWeight = E>,
{
    type Map = NodeSet<Ix>;

    ghost map_number = { λ n. refl };

    fn visit_map(&self) -> Result<NodeSet<Ix>, AllocError>
        ensures bound { IfOk result (λ map. length map ≡ node_bound_of self.now.graph) }
        ensures empty { IfOk result (λ map. (n : ℕ) → ¬ IsVisited map n) }
    {
        NodeSet::new(self.guarded.scratch.allocator(), self.node_bound())
    }

    fn reset_map(&self, map: &mut NodeSet<Ix>) -> Result<(), AllocError>
        ensures bound { OnOk result (length map.new ≡ node_bound_of self.now.graph) }
        ensures empty { OnOk result ((n : ℕ) → ¬ IsVisited map.new n) }
        ensures err { OnErr result (map.new ≡ map.old) }
    {
        map.reset(self.node_bound())
    }
}

impl<N: Drop, E: Drop, Ix: IndexType, S> DataMapMut for Acyclic<N, E, Ix, S>
where
    S: Store<Ix, NodeWeight = N, EdgeWeight = E>,
{
    ghost node_written = { λ s n w. with_graph s (with_node_weight s.graph (Ix.number n) w) };

    ghost edge_written = { λ s e w. with_graph s (with_edge_weight s.graph (Ix.number e) w) };

    ghost node_written_is = { λ s n w. refl };

    ghost edge_written_is = { λ s e w. refl };

    #[inline]
    fn node_weight_mut(&mut self, id: NodeIndex<Ix>) -> Option<&mut N>
        ensures* writes_back { sem 𝓛
            (lends_node_if N.row E.row Ix.row S.row Ix.IndexType S.EdgeSource self.entry id result) }
        ensures value { option_copied_mut result ≡ weight_at self.old.graph (Ix.number id) }
    {
        self.node_weight_mut(id)
    }

    #[inline]
    fn edge_weight_mut(&mut self, id: EdgeIndex<Ix>) -> Option<&mut E>
        ensures* writes_back { sem 𝓛
            (lends_edge_if N.row E.row Ix.row S.row Ix.IndexType S.EdgeSource self.entry id result) }
        ensures value { option_copied_mut result ≡ edge_weight_at self.old.graph (Ix.number id) }
    {
        self.edge_weight_mut(id)
    }
}

impl<N: Drop, E: Drop, Ix: IndexType, S> GetAdjacencyMatrix for Acyclic<N, E, Ix, S>
where
    S: ReadStore<Ix, NodeWeight = N, EdgeWeight = E>,
{
    type AdjMatrix = AdjMatrix<Ix>;

    ghost pairs = { λ matrix. matrix };

    fn adjacency_matrix(&self) -> Result<AdjMatrix<Ix>, AllocError>
        ensures { IfOk result (λ matrix.
            (a b : ℕ) → HasPair matrix a b ↔ AreJoined self.now.graph a b) }
    {
        matrix::adjacency_matrix(&self.guarded.store, self.guarded.scratch.allocator())
    }

    #[inline]
    fn is_adjacent(&self, matrix: &AdjMatrix<Ix>, a: NodeIndex<Ix>, b: NodeIndex<Ix>) -> bool
        ensures { IsTrue result ↔ HasPair matrix.now (Ix.number a) (Ix.number b) }
    {
        matrix.has(a, b)
    }
}
