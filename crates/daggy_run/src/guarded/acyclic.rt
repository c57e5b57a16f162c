//! `GuardedDag` for both kinds of dag.
ghost use Rattle.std.specs.Prelude.{◌≡◌, ℕ, ◌<◌, ◌≤◌, ◌^◌, ◌↔◌, ◌⊎◌, IsTrue, Err, None, IfOk};
ghost use Rattle.std.specs.Prelude.{IfErr, OnOk, OnErr, OnSome, IfSome, IfNone, IsOkAnd, length};
ghost use Rattle.std.specs.Prelude.{map};
ghost use Rattle.std.specs.Option.{option_map};
ghost use Rattle.daggy_base.specs.Graph.{Graph, empty, HasNode, HasEdge, node_weight as weight_at};
ghost use Rattle.daggy_base.specs.Graph.{edge_at, ends_of, pair_of, node_count as node_count_of};
ghost use Rattle.daggy_base.specs.Graph.{edge_count as edge_count_of, node_bound as node_bound_of};
ghost use Rattle.daggy_base.specs.Graph.{out_list};
ghost use Rattle.daggy_base.specs.Path.{Reaches, IsAcyclic};
ghost use Rattle.daggy_base.specs.WellFormed.{IsDag};
ghost use Rattle.daggy_base.specs.Adding.{next_node, next_edge, with_node, with_edge};
ghost use Rattle.daggy_base.specs.Adding.{with_neighbor};
ghost use Rattle.daggy_base.specs.Removal.{without_edge, without_node};
ghost use Rattle.daggy_base.specs.declared.kind.Kind.{Kind};
ghost use Rattle.daggy_base.specs.Removal.{without_all_edges};
ghost use Rattle.daggy_base.specs.Reduction.{IsReduction};
ghost use Rattle.daggy_base.specs.Weights.{edge_weight as edge_weight_at, with_edge_weight};
ghost use Rattle.daggy_base.specs.Finding.{find_edge as edge_between};
ghost use Rattle.daggy_base.specs.Cursor.{first_of};
ghost use Rattle.daggy_base.specs.Look.{IsLook};
ghost use Rattle.daggy_base.specs.Ordered.{IsOrderOf};
ghost use Rattle.daggy_base.specs.declared.index.Direction.TheVariants.{Outgoing, Incoming};
ghost use Rattle.daggy_base.specs.declared.error.NodeError.TheVariants.{Memory as NodeMemory};
ghost use Rattle.daggy_base.specs.declared.error.EdgeError.TheVariants.{WouldCycle as ByCycle};
ghost use Rattle.daggy_base.specs.declared.error.EdgeError.TheVariants.{Memory as EdgeMemory};
ghost use Rattle.daggy_base.specs.declared.error.ChildError.TheVariants.{Memory as ChildMemory};
ghost use Rattle.daggy_base.specs.Adding.{by_numbers};
ghost use Rattle.daggy_run.specs.Steps.{walk_of};
ghost use Rattle.daggy_run.specs.EdgeLists.{AddsAll, IsRefused};

use crate::guarded::GuardedDag;
use daggy_base::command::{Neighbor, NewEdge};
use daggy_base::error::{ChildError, EdgeError, EdgesError, NodeError};
use daggy_base::index::{Direction, EdgeIndex, IndexType, NodeIndex};
use daggy_base::kind::Kind;
use daggy_base::read_store::ReadStore;
use daggy_base::source::EdgeSource;
use daggy_base::store::Store;
use daggy_dag::acyclic::{Acyclic, TopologicalOrder};
use daggy_visit::visit::NodeIndexable;
use daggy_visit::walk;
use std::alloc::{AllocError, Global};

// The edges of a node's list in direction `dir` with their far ends.
fn walk_along<Ix: IndexType, S: ReadStore<Ix>>(
    alloc: Global,
    store: &S,
    dir: Direction,
    n: NodeIndex<Ix>,
) -> Result<Vec<Neighbor<Ix>>, AllocError>
    ensures { IfOk result (λ items. map (pair_of Ix.number) items.items
        ≡ walk_of dir (S.graph store.now) (Ix.number n)) }
{
    store.invariant();
    let mut items = Vec::new(alloc);
    let mut cursor = store.first_edge(n, dir);
    'edges: while let Some(item) = walk::step(store, dir, &mut cursor) {
        items.push(item)?;
    }
    Ok(items)
}

impl<N: Drop, E: Drop, Ix: IndexType, S> GuardedDag<N, E, Ix> for Acyclic<N, E, Ix, S>
where
    S: Store<Ix, NodeWeight = N, EdgeWeight = E>,
{
    ghost graph = { λ d. d.graph };

    ghost KIND = { S.KIND };

    const KIND: Kind = S::KIND;

    #[inline]
    fn has_node(&self, n: NodeIndex<Ix>) -> bool
        ensures { IsTrue result ↔ HasNode self.now.graph (Ix.number n) }
    {
        self.contains_node(n)
    }

    #[inline]
    fn can_add_node(&self) -> bool {
        // Called only for its postcondition: there is no cycle.
        let _dag = self.node_count();
        self.can_add_node()
    }

    #[inline]
    fn can_add_edge(&self) -> bool {
        // Called only for its postcondition: there is no cycle.
        let _dag = self.node_count();
        self.can_add_edge()
    }

    #[inline]
    fn add_node(&mut self, weight: N) -> Result<NodeIndex<Ix>, NodeError<N>> {
        self.add_node(weight)
    }

    #[inline]
    fn add_edge(
        &mut self,
        a: NodeIndex<Ix>,
        b: NodeIndex<Ix>,
        weight: E,
    ) -> Result<EdgeIndex<Ix>, EdgeError<E>>
        requires parent { HasNode self.old.graph (Ix.number a) }
        requires child { HasNode self.old.graph (Ix.number b) }
        requires index_left { edge_count_of self.old.graph < Ix.greatest }
        ensures cycle { (result ≡ Err (ByCycle (record { 0 = weight })))
            ↔ Reaches self.old.graph (Ix.number b) (Ix.number a) }
        ensures refusal { IfErr result (λ e.
            (e ≡ ByCycle (record { 0 = weight })) ⊎ (e ≡ EdgeMemory weight)) }
        ensures added { IfOk result (λ e. (Ix.number e ≡ next_edge self.old.graph)
            × (self.new.graph ≡ with_edge self.old.graph (Ix.number a) (Ix.number b) weight)) }
        ensures unchanged { OnErr result (self.new.graph ≡ self.old.graph) }
        ensures acyclic { IsAcyclic self.new.graph }
    {
        self.add_edge(a, b, weight)
    }

    #[inline]
    fn update_edge(
        &mut self,
        a: NodeIndex<Ix>,
        b: NodeIndex<Ix>,
        weight: E,
    ) -> Result<EdgeIndex<Ix>, EdgeError<E>>
        requires parent { HasNode self.old.graph (Ix.number a) }
        requires child { HasNode self.old.graph (Ix.number b) }
        requires index_left { edge_between self.old.graph (Ix.number a) (Ix.number b) ≡ None
            → edge_count_of self.old.graph < Ix.greatest }
        ensures replaced { IfSome (edge_between self.old.graph (Ix.number a) (Ix.number b)) (λ e.
            IsOkAnd result (λ updated. Ix.number updated ≡ e)
            × (self.new.graph ≡ with_edge_weight self.old.graph e weight)) }
        ensures cycle { (result ≡ Err (ByCycle (record { 0 = weight })))
            ↔ Reaches self.old.graph (Ix.number b) (Ix.number a) }
        ensures refusal { IfErr result (λ e.
            (e ≡ ByCycle (record { 0 = weight })) ⊎ (e ≡ EdgeMemory weight)) }
        ensures added { edge_between self.old.graph (Ix.number a) (Ix.number b) ≡ None
            → IfOk result (λ e.
            (Ix.number e ≡ next_edge self.old.graph)
            × (self.new.graph ≡ with_edge self.old.graph (Ix.number a) (Ix.number b) weight)) }
        ensures unchanged { OnErr result (self.new.graph ≡ self.old.graph) }
        ensures acyclic { IsAcyclic self.new.graph }
    {
        self.update_edge(a, b, weight)
    }

    #[inline]
    fn add_child(
        &mut self,
        parent: NodeIndex<Ix>,
        edge: E,
        node: N,
    ) -> Result<Neighbor<Ix>, ChildError<N, E>>
        requires parent { HasNode self.old.graph (Ix.number parent) }
        requires edge_index_left { edge_count_of self.old.graph < Ix.greatest }
        requires node_index_left { node_count_of self.old.graph < Ix.greatest }
        ensures added { IfOk result (λ r. (Ix.number r.0 ≡ next_edge self.old.graph)
            × (Ix.number r.1 ≡ next_node self.old.graph)
            × (self.new.graph
            ≡ with_neighbor Outgoing self.old.graph (Ix.number parent) edge node)) }
        ensures refusal { IfErr result (λ e. e ≡ ChildMemory edge node) }
        ensures unchanged { OnErr result (self.new.graph ≡ self.old.graph) }
        ensures acyclic { IsAcyclic self.new.graph }
    {
        self.add_child(parent, edge, node)
    }

    #[inline]
    fn add_parent(
        &mut self,
        child: NodeIndex<Ix>,
        edge: E,
        node: N,
    ) -> Result<Neighbor<Ix>, ChildError<N, E>>
        requires child { HasNode self.old.graph (Ix.number child) }
        requires edge_index_left { edge_count_of self.old.graph < Ix.greatest }
        requires node_index_left { node_count_of self.old.graph < Ix.greatest }
        ensures added { IfOk result (λ r. (Ix.number r.0 ≡ next_edge self.old.graph)
            × (Ix.number r.1 ≡ next_node self.old.graph)
            × (self.new.graph
            ≡ with_neighbor Incoming self.old.graph (Ix.number child) edge node)) }
        ensures refusal { IfErr result (λ e. e ≡ ChildMemory edge node) }
        ensures unchanged { OnErr result (self.new.graph ≡ self.old.graph) }
        ensures acyclic { IsAcyclic self.new.graph }
    {
        self.add_parent(child, edge, node)
    }

    fn add_edges(&mut self, edges: Vec<NewEdge<E, Ix>>) -> Result<Vec<EdgeIndex<Ix>>, EdgesError<E>>
        ensures added { IfOk result (λ indices. AddsAll Ix.greatest self.old.graph
            (map (by_numbers Ix.number) edges.items) (map Ix.number indices.items) self.new.graph) }
        ensures refused { IfErr result (λ error. IsRefused Ix.greatest self.old.graph
            (map (by_numbers Ix.number) edges.items) error) }
        ensures unchanged { OnErr result (self.new.graph ≡ self.old.graph) }
        ensures acyclic { IsAcyclic self.new.graph }
    {
        match self.add_edges(edges) {
            Ok(indices) => Ok(indices.into_vec()),
            Err(error) => Err(error),
        }
    }

    #[inline]
    fn find_edge(&self, a: NodeIndex<Ix>, b: NodeIndex<Ix>) -> Option<EdgeIndex<Ix>>
        ensures found { option_map Ix.number result
            ≡ edge_between self.now.graph (Ix.number a) (Ix.number b) }
        ensures ends { OnSome result (HasNode self.now.graph (Ix.number a)
            × HasNode self.now.graph (Ix.number b)) }
    {
        self.find_edge(a, b)
    }

    #[inline]
    fn edge_endpoints(&self, e: EdgeIndex<Ix>) -> Option<(NodeIndex<Ix>, NodeIndex<Ix>)>
        ensures { option_map (pair_of Ix.number) result
            ≡ option_map ends_of (edge_at self.now.graph (Ix.number e)) }
    {
        self.edge_endpoints(e)
    }

    #[inline]
    fn remove_node(&mut self, n: NodeIndex<Ix>) -> Option<N>
        ensures value { result ≡ weight_at self.old.graph (Ix.number n) }
        ensures removed { OnSome result
            (self.new.graph ≡ without_node S.KIND self.old.graph (Ix.number n)) }
        ensures missing { IfNone result (self.new.graph ≡ self.old.graph) }
        ensures acyclic { IsAcyclic self.new.graph }
    {
        self.remove_node(n)
    }

    #[inline]
    fn remove_edge(&mut self, e: EdgeIndex<Ix>) -> Option<E>
        ensures value { result ≡ edge_weight_at self.old.graph (Ix.number e) }
        ensures removed { OnSome result
            (self.new.graph ≡ without_edge S.KIND self.old.graph (Ix.number e)) }
        ensures missing { IfNone result (self.new.graph ≡ self.old.graph) }
        ensures acyclic { IsAcyclic self.new.graph }
    {
        self.remove_edge(e)
    }

    fn children(&self, n: NodeIndex<Ix>) -> Result<Vec<Neighbor<Ix>>, AllocError>
        ensures { IfOk result (λ items. map (pair_of Ix.number) items.items
            ≡ walk_of Outgoing self.now.graph (Ix.number n)) }
    {
        walk_along(self.allocator(), self.graph(), Direction::Outgoing, n)
    }

    fn parents(&self, n: NodeIndex<Ix>) -> Result<Vec<Neighbor<Ix>>, AllocError>
        ensures { IfOk result (λ items. map (pair_of Ix.number) items.items
            ≡ walk_of Incoming self.now.graph (Ix.number n)) }
    {
        walk_along(self.allocator(), self.graph(), Direction::Incoming, n)
    }

    #[inline]
    fn clear_edges(&mut self) {
        self.clear_edges();
    }

    #[inline]
    fn clear(&mut self) {
        self.clear();
    }

    #[inline]
    fn transitive_reduce(&mut self, roots: Vec<NodeIndex<Ix>>) -> Result<(), AllocError>
        ensures reduced { OnOk result
            (IsReduction S.KIND (map Ix.number roots.items) self.old.graph self.new.graph) }
        ensures unchanged { OnErr result (self.new.graph ≡ self.old.graph) }
        ensures acyclic { IsAcyclic self.new.graph }
    {
        self.transitive_reduce(roots)
    }

    #[inline]
    fn node_bound(&self) -> usize {
        // Called only for its postcondition: there is no cycle.
        let _dag = self.node_count();
        NodeIndexable::node_bound(self)
    }

    #[inline]
    fn first_child(&self, n: NodeIndex<Ix>) -> EdgeIndex<Ix>
        ensures { Ix.number result ≡ first_of Ix.greatest (out_list self.now.graph (Ix.number n)) }
    {
        self.graph().first_edge(n, Direction::Outgoing)
    }

    #[inline]
    fn child_edge(&self, e: EdgeIndex<Ix>) -> (NodeIndex<Ix>, EdgeIndex<Ix>)
        requires { HasEdge self.now.graph (Ix.number e) }
        ensures { IsLook Ix.greatest self.now.graph (Ix.number e) (Ix.number result.0)
            (Ix.number result.1) }
    {
        let store = self.graph();
        let next = store.next_edge(e, Direction::Outgoing);
        let (_, child) = store.edge_endpoints(e).unwrap();
        (child, next)
    }

    #[inline]
    fn topological_order(&self) -> TopologicalOrder<'_, Ix> {
        self.topological_order()
    }
}
