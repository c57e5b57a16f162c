//! The changes to a store that keep it acyclic. The methods of both kinds of dag call them.
ghost use Rattle.std.specs.Prelude.{◌≡◌, ℕ, ◌+◌, ◌<◌, ◌≤◌, ◌↔◌, ◌⊎◌, true, false, List, Contains};
ghost use Rattle.std.specs.Prelude.{map, Err, None, IfOk, OnOk, IfErr, OnErr, OnSome, IfSome};
ghost use Rattle.std.specs.Prelude.{IfNone, IsOkAnd};
ghost use Rattle.daggy_base.specs.Graph.{Graph, HasNode, node_weight, node_count, edge_count};
ghost use Rattle.daggy_base.specs.Graph.{node_bound, empty, IsCompact};
ghost use Rattle.daggy_base.specs.Path.{Reaches, IsAcyclic};
ghost use Rattle.daggy_base.specs.Adding.{next_node, next_edge, with_node, with_edge, with_link};
ghost use Rattle.daggy_base.specs.Adding.{with_neighbor, ComesFirst};
ghost use Rattle.daggy_base.specs.Finding.{find_edge as edge_between};
ghost use Rattle.daggy_base.specs.Weights.{edge_weight, with_edge_weight};
ghost use Rattle.daggy_base.specs.Removal.{without, renamed, without_edge, without_node};
ghost use Rattle.daggy_base.specs.WellFormed.{IsDag};
ghost use Rattle.daggy_base.specs.declared.kind.Kind.TheVariants.{Compact};
ghost use Rattle.daggy_base.specs.Ordered.{IsOrderOf};
ghost use Rattle.daggy_guard.specs.NewNode.{IsAddedNode, with_end};
ghost use Rattle.daggy_base.specs.declared.error.NodeError.TheVariants.{Memory as NodeMemory};
ghost use Rattle.daggy_base.specs.declared.error.EdgeError.TheVariants.{WouldCycle as ByCycle};
ghost use Rattle.daggy_base.specs.declared.error.EdgeError.TheVariants.{Memory as EdgeMemory};
ghost use Rattle.daggy_base.specs.declared.error.ChildError.TheVariants.{Memory as ChildMemory};

use daggy_base::error::{ChildError, EdgeError, NodeError, WouldCycle};
use daggy_base::index::{Direction, EdgeIndex, IndexType, NodeIndex};
use daggy_base::read_store::ReadStore;
use daggy_base::source::EdgeSource;
use daggy_base::store::Store;
use daggy_edge_order::edge_order::order_new_edge;
use daggy_order::order::Order;
use daggy_search::Scratch;
use daggy_visit::prefetch::{PREFETCH_FROM, touch_neighbors};
use std::alloc::{AllocError, Global};
use std::marker::{Model, PhantomData};

/// A store whose graph is acyclic, with a topological order of its nodes and with memory for
/// searches of the graph.
#[derive(Drop)]
pub struct Guarded<Ix: IndexType, S: EdgeSource<Ix>> {
    #[doc(hidden)]
    pub store: S,
    #[doc(hidden)]
    pub order: Order<Ix>,
    #[doc(hidden)]
    pub scratch: Scratch<Ix>,
    // Only for the checker, which looks for the lifetimes of borrowed weights among the fields.
    node_weight: PhantomData<S::NodeWeight>,
    edge_weight: PhantomData<S::EdgeWeight>,
}

impl<Ix: IndexType, S: EdgeSource<Ix>> Model for Guarded<Ix, S> {
    ghost use Rattle.std.specs.Prelude.{◌≤◌};
    ghost use Rattle.daggy_base.specs.Graph.{node_bound};
    ghost use Rattle.daggy_base.specs.Ordered.{IsOrderOf};
    ghost use Rattle.daggy_base.specs.State.{State};

    ghost Value = { State S.NodeWeight S.EdgeWeight };

    ghost view = { λ g. record { graph = S.graph g.store; looks = S.looks g.store } };

    ghost invariant = { λ g.
        IsOrderOf (S.graph g.store) g.order × (node_bound (S.graph g.store) ≤ g.scratch.nodes) };
}

impl<Ix: IndexType, S: ReadStore<Ix>> Guarded<Ix, S> {
    /// Does nothing. Called only for its postcondition, the invariant of the type.
    #[inline]
    pub fn invariant(&self)
        ensures dag { IsDag Ix.greatest self.now.graph }
        ensures compact { S.KIND ≡ Compact → IsCompact self.now.graph }
    {
        self.store.invariant();
    }
}

impl<Ix: IndexType, S: Store<Ix>> Guarded<Ix, S> {
    /// An empty graph. Does not allocate.
    pub fn new(alloc: Global) -> Self
        ensures { result ≡ record { graph = empty; looks = 0 } }
    {
        Guarded {
            store: S::new(alloc),
            order: Order::new(alloc),
            scratch: Scratch::new(alloc),
            node_weight: PhantomData,
            edge_weight: PhantomData,
        }
    }

    /// Combines a store, a topological order of its nodes, and a scratch that is large enough for
    /// searches of its graph.
    pub fn from_parts(store: S, order: Order<Ix>, scratch: Scratch<Ix>) -> Self
        requires ordered { IsOrderOf (S.graph store) order }
        requires fits { node_bound (S.graph store) ≤ scratch.nodes }
        ensures { result ≡ record { graph = S.graph store; looks = S.looks store } }
    {
        Guarded {
            store,
            order,
            scratch,
            node_weight: PhantomData,
            edge_weight: PhantomData,
        }
    }

    /// Adds a node, last in the order.
    #[inline]
    pub fn add_node(
        &mut self,
        weight: S::NodeWeight,
    ) -> Result<NodeIndex<Ix>, NodeError<S::NodeWeight>>
        requires index_left { node_count self.old.graph < Ix.greatest }
        ensures added { IfOk result (λ n. (Ix.number n ≡ next_node self.old.graph)
            × (self.new.graph ≡ with_node self.old.graph weight)) }
        ensures refusal { IfErr result (λ e. e ≡ NodeMemory weight) }
        ensures unchanged { OnErr result (self.new.graph ≡ self.old.graph) }
        ensures acyclic { IsAcyclic self.new.graph }
        ensures counted { self.new.looks ≡ self.old.looks }
    {
        self.store.invariant();
        put_node(
            &mut self.store,
            &mut self.order,
            &mut self.scratch,
            Direction::Outgoing,
            weight,
        )
    }

    /// Adds an edge from `a` to `b`, unless a path leads from `b` to `a`, and updates the order.
    #[inline]
    pub fn add_edge(
        &mut self,
        a: NodeIndex<Ix>,
        b: NodeIndex<Ix>,
        weight: S::EdgeWeight,
    ) -> Result<EdgeIndex<Ix>, EdgeError<S::EdgeWeight>>
        requires parent { HasNode self.old.graph (Ix.number a) }
        requires child { HasNode self.old.graph (Ix.number b) }
        requires index_left { edge_count self.old.graph < Ix.greatest }
        ensures cycle { (result ≡ Err (ByCycle (record { 0 = weight })))
            ↔ Reaches self.old.graph (Ix.number b) (Ix.number a) }
        ensures refusal { IfErr result (λ e.
            (e ≡ ByCycle (record { 0 = weight })) ⊎ (e ≡ EdgeMemory weight)) }
        ensures added { IfOk result (λ e. (Ix.number e ≡ next_edge self.old.graph)
            × (self.new.graph ≡ with_edge self.old.graph (Ix.number a) (Ix.number b) weight)) }
        ensures first { IfOk result (λ e. ComesFirst self.old.graph self.new.graph
            (Ix.number a) (Ix.number b) (Ix.number e)) }
        ensures unchanged { OnErr result (self.new.graph ≡ self.old.graph) }
        ensures acyclic { IsAcyclic self.new.graph }
        ensures looked { self.old.looks ≤ self.new.looks }
        ensures counted { self.new.looks ≤ self.old.looks + edge_count self.old.graph }
        ensures ready { Reaches self.old.graph (Ix.number a) (Ix.number b)
            → self.new.looks ≡ self.old.looks }
    {
        self.store.invariant();
        if !order_new_edge(&mut self.store, &mut self.order, &mut self.scratch, a, b) {
            return Err(EdgeError::WouldCycle(WouldCycle(weight)));
        }
        self.store.add_edge(a, b, weight)
    }

    /// Replaces the weight of the edge that `find_edge` returns for `a` and `b`, or adds an edge as
    /// [`add_edge`](Guarded::add_edge) does if there is none.
    pub fn update_edge(
        &mut self,
        a: NodeIndex<Ix>,
        b: NodeIndex<Ix>,
        weight: S::EdgeWeight,
    ) -> Result<EdgeIndex<Ix>, EdgeError<S::EdgeWeight>>
        requires parent { HasNode self.old.graph (Ix.number a) }
        requires child { HasNode self.old.graph (Ix.number b) }
        requires index_left { edge_between self.old.graph (Ix.number a) (Ix.number b) ≡ None
            → edge_count self.old.graph < Ix.greatest }
        ensures replaced { IfSome (edge_between self.old.graph (Ix.number a) (Ix.number b)) (λ e.
            IsOkAnd result (λ updated. Ix.number updated ≡ e)
            × (self.new.graph ≡ with_edge_weight self.old.graph e weight)
            × (self.new.looks ≡ self.old.looks)) }
        ensures cycle { (result ≡ Err (ByCycle (record { 0 = weight })))
            ↔ Reaches self.old.graph (Ix.number b) (Ix.number a) }
        ensures refusal { IfErr result (λ e.
            (e ≡ ByCycle (record { 0 = weight })) ⊎ (e ≡ EdgeMemory weight)) }
        ensures added { edge_between self.old.graph (Ix.number a) (Ix.number b) ≡ None
            → IfOk result (λ e.
            (Ix.number e ≡ next_edge self.old.graph)
            × (self.new.graph ≡ with_edge self.old.graph (Ix.number a) (Ix.number b) weight)) }
        ensures unchanged { OnErr result (self.new.graph ≡ self.old.graph) }
        ensures acyclic { IsAcyclic self.new.graph }
        ensures looked { self.old.looks ≤ self.new.looks }
        ensures counted { self.new.looks ≤ self.old.looks + edge_count self.old.graph }
        ensures ready { Reaches self.old.graph (Ix.number a) (Ix.number b)
            → self.new.looks ≡ self.old.looks }
    {
        self.store.invariant();
        match self.store.find_edge(a, b) {
            Some(e) => {
                let _old = self.store.replace_edge_weight(e, weight);
                Ok(e)
            }
            None => self.add_edge(a, b, weight),
        }
    }

    /// Adds a node, and an edge from `n` to it or from it to `n`, or neither. A new child is last in
    /// the order, a new parent first.
    #[inline]
    pub fn add_neighbor(
        &mut self,
        n: NodeIndex<Ix>,
        dir: Direction,
        edge: S::EdgeWeight,
        weight: S::NodeWeight,
    ) -> Result<(EdgeIndex<Ix>, NodeIndex<Ix>), ChildError<S::NodeWeight, S::EdgeWeight>>
        requires node { HasNode self.old.graph (Ix.number n) }
        requires edge_index_left { edge_count self.old.graph < Ix.greatest }
        requires node_index_left { node_count self.old.graph < Ix.greatest }
        ensures added { IfOk result (λ r. (Ix.number r.0 ≡ next_edge self.old.graph)
            × (Ix.number r.1 ≡ next_node self.old.graph)
            × (self.new.graph ≡ with_neighbor dir self.old.graph (Ix.number n) edge weight)) }
        ensures refusal { IfErr result (λ e. e ≡ ChildMemory edge weight) }
        ensures unchanged { OnErr result (self.new.graph ≡ self.old.graph) }
        ensures acyclic { IsAcyclic self.new.graph }
        ensures counted { self.new.looks ≡ self.old.looks }
    {
        self.store.invariant();
        let slot_count = self.store.node_slots();
        let new = match put_node(
            &mut self.store,
            &mut self.order,
            &mut self.scratch,
            dir,
            weight,
        ) {
            Ok(new) => new,
            Err(error) => return Err(ChildError::Memory(edge, error.into_weight())),
        };
        match link(&mut self.store, dir, n, new, edge) {
            Ok(e) => Ok((e, new)),
            Err(error) => {
                self.order.remove(new);
                let weight = take_back(&mut self.store, new, slot_count);
                Err(ChildError::Memory(error.into_weight(), weight))
            }
        }
    }

    /// Removes an edge, if it exists. The order remains valid.
    pub fn remove_edge(&mut self, e: EdgeIndex<Ix>) -> Option<S::EdgeWeight>
        ensures gives { result ≡ edge_weight self.old.graph (Ix.number e) }
        ensures removed { OnSome result
            (self.new.graph ≡ without_edge S.KIND self.old.graph (Ix.number e)) }
        ensures missing { IfNone result (self.new.graph ≡ self.old.graph) }
        ensures acyclic { IsAcyclic self.new.graph }
        ensures counted { self.new.looks ≡ self.old.looks }
    {
        self.store.remove_edge(e)
    }

    /// Removes a node with its edges, if it exists, and takes it out of the order.
    pub fn remove_node(&mut self, n: NodeIndex<Ix>) -> Option<S::NodeWeight>
        ensures gives { result ≡ node_weight self.old.graph (Ix.number n) }
        ensures removed { OnSome result
            (self.new.graph ≡ without_node S.KIND self.old.graph (Ix.number n)) }
        ensures missing { IfNone result (self.new.graph ≡ self.old.graph) }
        ensures acyclic { IsAcyclic self.new.graph }
        ensures counted { self.new.looks ≡ self.old.looks }
    {
        let slot_count = self.store.node_slots();
        // Never taken: this is a prefetch.
        if self.store.edge_slots() >= PREFETCH_FROM
            && !(touch_neighbors(&self.store, n, Direction::Outgoing)
                && touch_neighbors(&self.store, n, Direction::Incoming))
        {
            return None;
        }
        self.store.invariant();
        let weight = self.store.remove_node(n)?;
        let last = slot_count - 1;
        let moved = self.store.node_slots() == last;
        take_out(&mut self.order, n, last, moved);
        Some(weight)
    }
}

// Puts a new node last in an order if edges will lead to it, or first if they will leave it.
#[inline]
fn put<Ix: IndexType>(
    order: &mut Order<Ix>,
    dir: Direction,
    n: NodeIndex<Ix>,
) -> Result<(), AllocError>
    requires real { Ix.number n < Ix.greatest }
    requires absent { ¬ Contains order.old (Ix.number n) }
    ensures ok { OnOk result (order.new ≡ with_end dir order.old (Ix.number n)) }
    ensures err { OnErr result (order.new ≡ order.old) }
{
    match dir {
        Direction::Outgoing => order.push(n),
        Direction::Incoming => order.push_first(n),
    }
}

// Takes back a node that was just added, and returns its weight. There were `slot_count` slots
// before. Out of line, to keep the inlined part small.
#[cold]
#[inline(never)]
fn take_back<Ix: IndexType, S: Store<Ix>>(
    store: &mut S,
    n: NodeIndex<Ix>,
    slot_count: usize,
) -> S::NodeWeight
    requires added { (old : Graph S.NodeWeight S.EdgeWeight) × (w : S.NodeWeight)
        × IsAddedNode Ix.greatest S.KIND old (S.graph store.old) w (Ix.number n) slot_count }
    ensures undone { (old : Graph S.NodeWeight S.EdgeWeight) (w : S.NodeWeight)
        → IsAddedNode Ix.greatest S.KIND old (S.graph store.old) w (Ix.number n) slot_count
        → S.graph store.new ≡ old }
    ensures returned { (old : Graph S.NodeWeight S.EdgeWeight) (w : S.NodeWeight)
        → IsAddedNode Ix.greatest S.KIND old (S.graph store.old) w (Ix.number n) slot_count
        → result ≡ w }
    ensures counted { S.looks store.new ≡ S.looks store.old }
{
    store.take_back_node(n, slot_count <= n.index())
}

// Adds a node, and puts it last or first in the order. The scratch fits searches of the graph with
// that node. Always inlined: a loop of additions takes a fifth less time.
#[inline(always)]
fn put_node<Ix: IndexType, S: Store<Ix>>(
    store: &mut S,
    order: &mut Order<Ix>,
    scratch: &mut Scratch<Ix>,
    dir: Direction,
    weight: S::NodeWeight,
) -> Result<NodeIndex<Ix>, NodeError<S::NodeWeight>>
    requires index_left { node_count (S.graph store.old) < Ix.greatest }
    requires fits { node_bound (S.graph store.old) ≤ scratch.old.nodes }
    requires ordered { IsOrderOf (S.graph store.old) order.old }
    ensures index { IfOk result (λ n. Ix.number n ≡ next_node (S.graph store.old)) }
    ensures added { OnOk result (S.graph store.new ≡ with_node (S.graph store.old) weight) }
    ensures put { OnOk result (order.new ≡ with_end dir order.old (next_node (S.graph store.old))) }
    ensures refusal { IfErr result (λ e. e ≡ NodeMemory weight) }
    ensures unchanged { OnErr result (S.graph store.new ≡ S.graph store.old) }
    ensures kept { OnErr result (order.new ≡ order.old) }
    ensures fits { node_bound (S.graph store.new) ≤ scratch.new.nodes }
    ensures capacity_kept { scratch.old.nodes ≤ scratch.new.nodes }
    ensures counted { S.looks store.new ≡ S.looks store.old }
{
    store.invariant();
    let old_slots = store.node_slots();
    let slot_count = store.slots_with_node();
    if scratch.reserve(slot_count, 0).is_err() {
        return Err(NodeError::Memory(weight));
    }
    let n = store.add_node(weight)?;
    store.invariant();
    match put(order, dir, n) {
        Ok(()) => Ok(n),
        Err(_) => {
            let weight = take_back(store, n, old_slots);
            Err(NodeError::Memory(weight))
        }
    }
}

// Adds an edge from `n` to `new`, or from `new` to `n`.
#[inline]
fn link<Ix: IndexType, S: Store<Ix>>(
    store: &mut S,
    dir: Direction,
    n: NodeIndex<Ix>,
    new: NodeIndex<Ix>,
    edge: S::EdgeWeight,
) -> Result<EdgeIndex<Ix>, EdgeError<S::EdgeWeight>>
    requires node { HasNode (S.graph store.old) (Ix.number n) }
    requires new { HasNode (S.graph store.old) (Ix.number new) }
    requires index_left { edge_count (S.graph store.old) < Ix.greatest }
    ensures index { IfOk result (λ e. Ix.number e ≡ next_edge (S.graph store.old)) }
    ensures added { OnOk result
        (S.graph store.new ≡ with_link dir (S.graph store.old) (Ix.number n) (Ix.number new) edge) }
    ensures refusal { IfErr result (λ e. e ≡ EdgeMemory edge) }
    ensures unchanged { OnErr result (S.graph store.new ≡ S.graph store.old) }
    ensures counted { S.looks store.new ≡ S.looks store.old }
{
    match dir {
        Direction::Outgoing => store.add_edge(n, new, edge),
        Direction::Incoming => store.add_edge(new, n, edge),
    }
}

// Takes a removed node out of an order. If the node with index `last` moved to its index, that node
// is renamed.
#[inline]
fn take_out<Ix: IndexType>(order: &mut Order<Ix>, n: NodeIndex<Ix>, last: usize, moved: bool)
    requires held { Contains order.old (Ix.number n) }
    requires last { moved ≡ true → Contains order.old last }
    requires real { last < Ix.greatest }
    requires lower { Ix.number n ≤ last }
    ensures moved { moved ≡ true
        → order.new ≡ map (renamed last (Ix.number n)) (without (Ix.number n) order.old) }
    ensures stayed { moved ≡ false → order.new ≡ without (Ix.number n) order.old }
{
    order.remove(n);
    if moved && n.index() != last {
        order.rename(NodeIndex::new(last), n);
    }
}
