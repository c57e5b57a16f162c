//! The dag over any store; `Dag` and `StableDag` are its two kinds.
ghost use Rattle.std.specs.Prelude.{◌≡◌, ℕ, ◌+◌, ◌^◌, ◌<◌, ◌≤◌, ◌↔◌, ◌⊎◌, IsTrue, Err, None, IfOk};
ghost use Rattle.std.specs.Prelude.{IfErr, OnErr, OnSome, IfSome, IfNone, IsOkAnd, length};
ghost use Rattle.std.specs.Prelude.{option_copied};
ghost use Rattle.std.specs.Option.{option_map};
ghost use Rattle.daggy_base.specs.Graph.{empty, HasNode, node_weight as weight_at, edge_at};
ghost use Rattle.daggy_base.specs.Graph.{node_bound};
ghost use Rattle.daggy_base.specs.Ordered.{IsOrderOf};
ghost use Rattle.daggy_base.specs.Graph.{ends_of, pair_of, node_count as node_count_of};
ghost use Rattle.daggy_base.specs.Graph.{edge_count as edge_count_of, out_list, in_list, IsCompact};
ghost use Rattle.daggy_base.specs.Path.{Reaches, IsAcyclic};
ghost use Rattle.daggy_base.specs.WellFormed.{IsDag};
ghost use Rattle.daggy_base.specs.Adding.{next_node, next_edge, with_node, with_edge};
ghost use Rattle.daggy_base.specs.Adding.{with_neighbor, ComesFirst};
ghost use Rattle.daggy_base.specs.Removal.{KeepsIndices, without_edge};
ghost use Rattle.daggy_base.specs.declared.kind.Kind.TheVariants.{Compact, Stable};
ghost use Rattle.daggy_base.specs.Removal.{without_node, without_all_edges};
ghost use Rattle.daggy_base.specs.Weights.{edge_weight as edge_weight_at, with_edge_weight};
ghost use Rattle.daggy_base.specs.Finding.{find_edge as edge_between};
ghost use Rattle.daggy_base.specs.Cursor.{first_of};
ghost use Rattle.daggy_base.specs.State.{with_graph};
ghost use Rattle.daggy_base.specs.declared.index.Direction.TheVariants.{Outgoing, Incoming};
ghost use Rattle.daggy_base.specs.declared.error.NodeError.TheVariants.{Memory as NodeMemory};
ghost use Rattle.daggy_base.specs.declared.error.EdgeError.TheVariants.{WouldCycle as ByCycle};
ghost use Rattle.daggy_base.specs.declared.error.EdgeError.TheVariants.{Memory as EdgeMemory};
ghost use Rattle.daggy_base.specs.declared.error.ChildError.TheVariants.{Memory as ChildMemory};
ghost use Rattle.daggy_dag.specs.Walks.{rest_of_walk};

use daggy_base::error::{ChildError, EdgeError, NodeError};
use daggy_base::index::{DefaultIx, Direction, EdgeIndex, IndexType, NodeIndex};
use daggy_base::read_store::ReadStore;
use daggy_base::source::EdgeSource;
use daggy_base::store::Store;
use daggy_graph::graph::DiGraph;
use daggy_guard::guard::Guarded;
use daggy_order::order::Order;
use daggy_search::Scratch;
use daggy_stable::stable_graph::StableDiGraph;
use std::alloc::{AllocError, Global};
use std::marker::{Model, PhantomData};

mod compact;
mod comparing;
mod connecting;
mod cursors;
mod debug;
mod descendants;
mod externals;
mod from_graph;
mod from_slots;
mod graph;
mod many_edges;
mod parents;
mod paths;
mod recomputing;
mod recursive;
mod reduction;
mod retain;
mod stable;
mod topological;
mod trying;
mod trying_parents;
mod visit;
mod walkers;
mod weights;

pub use compact::raw::{RawEdges, RawNodes};
pub use comparing::same_reachability;
pub use connecting::EdgesConnecting;
pub use cursors::{EdgeWeightsMut, NodeWeightsMut};
pub use externals::Externals;
pub use from_graph::FromGraphError;
pub use recursive::RecursiveWalk;
pub use topological::TopologicalOrder;
pub use trying_parents::TryParentsError;
pub use walkers::{Children, Parents};

/// A directed graph that never has a cycle, with weights of type `N` at its nodes and of type `E`
/// at its edges, over a store `S`.
///
/// [`Dag`] and [`StableDag`] are aliases of it, each with its own store. Parallel edges are
/// allowed. An edge that would close a cycle is rejected, and its weight is returned.
///
/// It maintains a topological order of its nodes, so an edge that agrees with the order needs no
/// search. For any other edge, only nodes between its endpoints in the order are searched, as in
/// incremental topological ordering (Pearce and Kelly 2006). Adding a node reserves the memory that
/// later searches for cycles need, so these never fail.
///
/// # Examples
///
/// ```
/// // Takes a dag of either kind.
/// fn has_edges<S>(dag: &Acyclic<u32, u32, u32, S>) -> bool
/// where
///     S: ReadStore<u32, NodeWeight = u32, EdgeWeight = u32>,
/// {
///     dag.edge_count() > 0
/// }
///
/// let dag: Dag<u32, u32> = Dag::new(rt.alloc());
/// assert!(rt; !has_edges(&dag));
/// let dag: StableDag<u32, u32> = StableDag::new(rt.alloc());
/// assert!(rt; !has_edges(&dag));
/// ```
#[derive(Drop)]
pub struct Acyclic<N, E, Ix: IndexType, S: EdgeSource<Ix, NodeWeight = N, EdgeWeight = E>> {
    guarded: Guarded<Ix, S>,
    node_weight: PhantomData<N>,
    edge_weight: PhantomData<E>,
}

/// A dag whose indices are compact: the nodes are numbered from 0 without gaps, and so are the
/// edges.
///
/// A removal moves the last element into the freed index. If indices must outlive removals, use
/// [`StableDag`].
///
/// # Examples
///
/// ```
/// let mut dag: Dag<&'static str, u32> = Dag::new(rt.alloc());
/// let sow = dag.add_node("sow")?;
/// let (days, reap) = dag.add_child(sow, 90, "reap")?;
/// assert!(rt; dag.remove_node(sow) == Some("sow"));
/// // The last node has moved into the freed index.
/// assert!(rt; dag.node_weight(reap).is_none());
/// assert!(rt; dag.node_weight(sow) == Some(&"reap"));
/// assert!(rt; dag.edge_weight(days).is_none());
/// ```
pub type Dag<N, E, Ix = DefaultIx> = Acyclic<N, E, Ix, DiGraph<N, E, Ix>>;

/// A dag whose indices outlive removals.
///
/// Nodes and edges are stored in slots. A removal vacates a slot and changes no other index; the
/// slot vacated last is reused first. If indices need not outlive removals, use [`Dag`], which has
/// no vacant slots.
///
/// # Examples
///
/// ```
/// let mut dag: StableDag<&'static str, u32> = StableDag::new(rt.alloc());
/// let sow = dag.add_node("sow")?;
/// let (days, reap) = dag.add_child(sow, 90, "reap")?;
/// assert!(rt; dag.remove_node(sow) == Some("sow"));
/// assert!(rt; dag.edge_weight(days).is_none());
/// assert!(rt; dag.node_weight(reap) == Some(&"reap"));
/// ```
pub type StableDag<N, E, Ix = DefaultIx> = Acyclic<N, E, Ix, StableDiGraph<N, E, Ix>>;

// Scratch for searches of graphs with this many slots of nodes.
fn scratch_for<Ix: IndexType>(alloc: Global, slots: usize) -> Result<Scratch<Ix>, AllocError>
    ensures { IfOk result (λ scratch. slots ≤ scratch.nodes) }
{
    let mut scratch = Scratch::new(alloc);
    scratch.reserve(slots, 0)?;
    Ok(scratch)
}

impl<N, E, Ix: IndexType, S> Model for Acyclic<N, E, Ix, S>
where
    S: EdgeSource<Ix, NodeWeight = N, EdgeWeight = E>,
{
    ghost use Rattle.daggy_base.specs.State.{State};

    ghost Value = { State N E };

    ghost view = { λ d. d.guarded };
}

impl<N: Drop, E: Drop, Ix: IndexType, S> Acyclic<N, E, Ix, S>
where
    S: ReadStore<Ix, NodeWeight = N, EdgeWeight = E>,
{
    // An order of its nodes, and scratch that fits searches of any graph with as many slots of nodes:
    // what a copy of it, or of a part of it, has beside its store.
    fn copied_parts(&self) -> Result<(Order<Ix>, Scratch<Ix>), AllocError>
        ensures ordered { IfOk result (λ parts. IsOrderOf self.now.graph parts.0) }
        ensures fits { IfOk result (λ parts. length self.now.graph.nodes ≤ parts.1.nodes) }
    {
        let scratch = scratch_for(self.allocator(), self.guarded.store.node_slots())?;
        let order = self.guarded.order.try_clone()?;
        Ok((order, scratch))
    }

    /// How many nodes there are.
    #[inline]
    pub fn node_count(&self) -> usize
        ensures value { result ≡ node_count_of self.now.graph }
        ensures dag { IsDag Ix.greatest self.now.graph }
        ensures compact { S.KIND ≡ Compact → IsCompact self.now.graph }
    {
        self.guarded.invariant();
        self.guarded.store.node_count()
    }

    /// How many edges there are.
    #[inline]
    pub fn edge_count(&self) -> usize
        ensures value { result ≡ edge_count_of self.now.graph }
        ensures dag { IsDag Ix.greatest self.now.graph }
        ensures compact { S.KIND ≡ Compact → IsCompact self.now.graph }
    {
        self.guarded.invariant();
        self.guarded.store.edge_count()
    }

    /// Whether the index type has an index left for one more node.
    ///
    /// # Examples
    ///
    /// ```
    /// let mut dag: Dag<(), (), u8> = Dag::new(rt.alloc());
    /// for _ in 0..300 {
    ///     if dag.can_add_node() {
    ///         dag.add_node(())?;
    ///     }
    /// }
    /// assert!(rt; dag.node_count() == 255);
    /// ```
    #[inline]
    pub fn can_add_node(&self) -> bool
        ensures { IsTrue result ↔ (node_count_of self.now.graph < Ix.greatest) }
    {
        self.guarded.store.can_add_node()
    }

    /// Whether the index type has an index left for one more edge.
    ///
    /// # Examples
    ///
    /// ```
    /// let mut dag: Dag<&'static str, (), u8> = Dag::new(rt.alloc());
    /// let sow = dag.add_node("sow")?;
    /// let reap = dag.add_node("reap")?;
    /// for _ in 0..300 {
    ///     if dag.can_add_edge() {
    ///         dag.add_edge(sow, reap, ())?;
    ///     }
    /// }
    /// assert!(rt; dag.edge_count() == 255);
    /// ```
    #[inline]
    pub fn can_add_edge(&self) -> bool
        ensures { IsTrue result ↔ (edge_count_of self.now.graph < Ix.greatest) }
    {
        self.guarded.store.can_add_edge()
    }

    /// Whether the node exists.
    #[inline]
    pub fn contains_node(&self, n: NodeIndex<Ix>) -> bool
        ensures { IsTrue result ↔ HasNode self.now.graph (Ix.number n) }
    {
        self.guarded.store.contains_node(n)
    }

    /// The weight of a node, or `None` if there is no such node.
    #[inline]
    pub fn node_weight(&self, n: NodeIndex<Ix>) -> Option<&N>
        ensures { option_copied result ≡ weight_at self.now.graph (Ix.number n) }
    {
        self.guarded.store.node_weight(n)
    }

    /// The weight of an edge, or `None` if there is no such edge.
    #[inline]
    pub fn edge_weight(&self, e: EdgeIndex<Ix>) -> Option<&E>
        ensures { option_copied result ≡ edge_weight_at self.now.graph (Ix.number e) }
    {
        self.guarded.store.edge_weight(e)
    }

    /// The parent and the child of an edge, or `None` if there is no such edge.
    #[inline]
    pub fn edge_endpoints(&self, e: EdgeIndex<Ix>) -> Option<(NodeIndex<Ix>, NodeIndex<Ix>)>
        ensures { option_map (pair_of Ix.number) result
            ≡ option_map ends_of (edge_at self.now.graph (Ix.number e)) }
    {
        self.guarded.store.edge_endpoints(e)
    }

    /// The newest edge from `a` to `b`, or `None` if there is none.
    ///
    /// # Complexity
    ///
    /// O(children of `a`).
    ///
    /// # Examples
    ///
    /// ```
    /// let mut dag: Dag<&'static str, u32> = Dag::new(rt.alloc());
    /// let sow = dag.add_node("sow")?;
    /// let (_, reap) = dag.add_child(sow, 90, "reap")?;
    /// let newest = dag.add_edge(sow, reap, 30)?;
    /// assert!(rt; dag.find_edge(sow, reap) == Some(newest));
    /// assert!(rt; dag.find_edge(reap, sow).is_none());
    /// ```
    pub fn find_edge(&self, a: NodeIndex<Ix>, b: NodeIndex<Ix>) -> Option<EdgeIndex<Ix>>
        ensures found { option_map Ix.number result
            ≡ edge_between self.now.graph (Ix.number a) (Ix.number b) }
        ensures ends { OnSome result
            (HasNode self.now.graph (Ix.number a) × HasNode self.now.graph (Ix.number b)) }
    {
        let store = &self.guarded.store;
        store.invariant();
        store.find_edge(a, b)
    }

    /// A walker over the children of a node, newest edge first. Empty if the node does not exist.
    ///
    /// # Examples
    ///
    /// ```
    /// let mut dag: Dag<&'static str, u32> = Dag::new(rt.alloc());
    /// let sow = dag.add_node("sow")?;
    /// let (days, reap) = dag.add_child(sow, 90, "reap")?;
    /// let mut walker = dag.children(sow);
    /// assert!(rt; walker.walk_next(&dag) == Some((days, reap)));
    /// // The dag is borrowed for a step only, so it can change between two.
    /// let (_, mow) = dag.add_child(sow, 30, "mow")?;
    /// assert!(rt; walker.walk_next(&dag).is_none());
    /// assert!(rt; dag.parents(mow).walk_next(&dag).is_some());
    /// ```
    #[inline]
    pub fn children(&self, n: NodeIndex<Ix>) -> Children<N, E, Ix>
        ensures first { Ix.number result
            ≡ first_of Ix.greatest (out_list self.now.graph (Ix.number n)) }
        ensures whole { rest_of_walk Outgoing self.now.graph (Ix.number result)
            ≡ out_list self.now.graph (Ix.number n) }
        ensures fits { length (rest_of_walk Outgoing self.now.graph (Ix.number result)) < 2 ^ 64 }
    {
        self.guarded.store.invariant();
        Children {
            edge: self.guarded.store.first_edge(n, Direction::Outgoing),
            node_weight: PhantomData,
            edge_weight: PhantomData,
        }
    }

    /// A walker over the parents of a node, newest edge first. Empty if the node does not exist.
    #[inline]
    pub fn parents(&self, n: NodeIndex<Ix>) -> Parents<N, E, Ix>
        ensures first { Ix.number result
            ≡ first_of Ix.greatest (in_list self.now.graph (Ix.number n)) }
        ensures whole { rest_of_walk Incoming self.now.graph (Ix.number result)
            ≡ in_list self.now.graph (Ix.number n) }
        ensures fits { length (rest_of_walk Incoming self.now.graph (Ix.number result)) < 2 ^ 64 }
    {
        self.guarded.store.invariant();
        Parents {
            edge: self.guarded.store.first_edge(n, Direction::Incoming),
            node_weight: PhantomData,
            edge_weight: PhantomData,
        }
    }
}

impl<N: Drop, E: Drop, Ix: IndexType, S> Acyclic<N, E, Ix, S>
where
    S: Store<Ix, NodeWeight = N, EdgeWeight = E>,
{
    /// An empty dag. Does not allocate.
    pub fn new(alloc: Global) -> Self
        ensures { result ≡ record { graph = empty; looks = 0 } }
    {
        Acyclic {
            guarded: Guarded::new(alloc),
            node_weight: PhantomData,
            edge_weight: PhantomData,
        }
    }

    // A dag of a store, an order of its nodes, and scratch that fits searches of its graph.
    fn from_parts(store: S, order: Order<Ix>, scratch: Scratch<Ix>) -> Self
        requires { IsOrderOf (S.graph store) order
            × (node_bound (S.graph store) ≤ scratch.nodes) }
        ensures value { result ≡ record { graph = S.graph store; looks = S.looks store } }
        ensures acyclic { IsAcyclic result.graph }
    {
        Acyclic {
            guarded: Guarded::from_parts(store, order, scratch),
            node_weight: PhantomData,
            edge_weight: PhantomData,
        }
    }

    /// Adds a node without edges, and returns its index.
    ///
    /// # Requires
    ///
    /// - The index type has an index left for one more node. Test: `can_add_node()`.
    ///
    /// # Errors
    ///
    /// Returns `NodeError::Memory` with the weight if an allocation fails; the dag is unchanged.
    ///
    /// # Complexity
    ///
    /// Amortized O(1).
    ///
    /// # Examples
    ///
    /// ```
    /// let mut dag: Dag<&'static str, u32> = Dag::new(rt.alloc());
    /// let sow = dag.add_node("sow")?;
    /// assert!(rt; dag[sow] == "sow");
    /// dag[sow] = "mow";
    /// assert!(rt; dag.node_weight(sow) == Some(&"mow"));
    /// ```
    #[inline]
    pub fn add_node(&mut self, weight: N) -> Result<NodeIndex<Ix>, NodeError<N>>
        requires { node_count_of self.old.graph < Ix.greatest }
        ensures added { IfOk result (λ n. (Ix.number n ≡ next_node self.old.graph)
            × (self.new.graph ≡ with_node self.old.graph weight)) }
        ensures refusal { IfErr result (λ e. e ≡ NodeMemory weight) }
        ensures unchanged { OnErr result (self.new.graph ≡ self.old.graph) }
        ensures acyclic { IsAcyclic self.new.graph }
        ensures counted { self.new.looks ≡ self.old.looks }
    {
        self.guarded.add_node(weight)
    }

    /// Adds an edge from `a` to `b`, and returns its index.
    ///
    /// # Requires
    ///
    /// - `parent`: `a` is a node of the dag. Test: `contains_node(a)`.
    /// - `child`: `b` is a node of the dag. Test: `contains_node(b)`.
    /// - `index_left`: The index type has an index left for one more edge. Test: `can_add_edge()`.
    ///
    /// # Errors
    ///
    /// Returns `EdgeError::WouldCycle` if `b` already reaches `a`, so that the edge would close a
    /// cycle; this is decided first, and does not allocate. Returns `EdgeError::Memory` if an
    /// allocation fails. Each error holds the weight, and the dag is unchanged.
    ///
    /// # Complexity
    ///
    /// O(1) if `a` precedes `b` in the dag's order, or if `a` has fewer than four parents and all
    /// of them precede `b`, as when `a` was just added. Otherwise a search of the nodes reachable
    /// from `b` that precede `a` in the order.
    ///
    /// # Examples
    ///
    /// ```
    /// let mut dag: Dag<&'static str, u32> = Dag::new(rt.alloc());
    /// let sow = dag.add_node("sow")?;
    /// let reap = dag.add_node("reap")?;
    /// let days = dag.add_edge(sow, reap, 90)?;
    /// assert!(rt; dag.edge_weight(days) == Some(&90));
    /// // The edge would close a cycle; the error returns its weight.
    /// assert!(rt; dag.add_edge(reap, sow, 5) == Err(EdgeError::WouldCycle(WouldCycle(5))));
    /// ```
    #[inline]
    pub fn add_edge(
        &mut self,
        a: NodeIndex<Ix>,
        b: NodeIndex<Ix>,
        weight: E,
    ) -> Result<EdgeIndex<Ix>, EdgeError<E>>
        requires parent { HasNode self.old.graph (Ix.number a) }
        requires child { HasNode self.old.graph (Ix.number b) }
        requires index_left { edge_count_of self.old.graph < Ix.greatest }
        ensures cycle { (result ≡ Err (ByCycle (record { 0 = weight })))
            ↔ Reaches self.old.graph (Ix.number b) (Ix.number a) }
        ensures refusal { IfErr result (λ e.
            (e ≡ ByCycle (record { 0 = weight })) ⊎ (e ≡ EdgeMemory weight)) }
        ensures added { IfOk result (λ e. (Ix.number e ≡ next_edge self.old.graph)
            × (self.new.graph ≡ with_edge self.old.graph (Ix.number a) (Ix.number b) weight)) }
        ensures first { IfOk result (λ e.
            ComesFirst self.old.graph self.new.graph (Ix.number a) (Ix.number b) (Ix.number e)) }
        ensures unchanged { OnErr result (self.new.graph ≡ self.old.graph) }
        ensures acyclic { IsAcyclic self.new.graph }
        ensures looked { self.old.looks ≤ self.new.looks }
        ensures counted { self.new.looks ≤ self.old.looks + edge_count_of self.old.graph }
        ensures ready { Reaches self.old.graph (Ix.number a) (Ix.number b)
            → self.new.looks ≡ self.old.looks }
    {
        self.guarded.add_edge(a, b, weight)
    }

    /// Replaces the weight of the edge that [`find_edge`](Acyclic::find_edge) returns for `a` and
    /// `b`, or adds an edge as [`add_edge`](Acyclic::add_edge) does if there is none. Returns the
    /// index of that edge.
    ///
    /// If there is such an edge, the call cannot fail, and the old weight is dropped.
    ///
    /// # Requires
    ///
    /// - `parent`: `a` is a node of the dag. Test: `contains_node(a)`.
    /// - `child`: `b` is a node of the dag. Test: `contains_node(b)`.
    /// - `index_left`: If no edge leads from `a` to `b` yet, the index type has an index left for
    ///   one more edge. Test: `can_add_edge()`.
    ///
    /// # Errors
    ///
    /// Returns the errors of [`add_edge`](Acyclic::add_edge), and only if no edge leads from `a` to
    /// `b`. Each error holds the weight, and the dag is unchanged.
    ///
    /// # Complexity
    ///
    /// The cost of [`find_edge`](Acyclic::find_edge), plus the cost of
    /// [`add_edge`](Acyclic::add_edge) if there is no such edge.
    ///
    /// # Examples
    ///
    /// ```
    /// let mut dag: Dag<&'static str, u32> = Dag::new(rt.alloc());
    /// let sow = dag.add_node("sow")?;
    /// let (days, reap) = dag.add_child(sow, 90, "reap")?;
    /// assert!(rt; dag.update_edge(sow, reap, 80) == Ok(days));
    /// assert!(rt; dag.edge_weight(days) == Some(&80));
    /// ```
    pub fn update_edge(
        &mut self,
        a: NodeIndex<Ix>,
        b: NodeIndex<Ix>,
        weight: E,
    ) -> Result<EdgeIndex<Ix>, EdgeError<E>>
        requires parent { HasNode self.old.graph (Ix.number a) }
        requires child { HasNode self.old.graph (Ix.number b) }
        requires index_left { edge_between self.old.graph (Ix.number a) (Ix.number b) ≡ None
            → edge_count_of self.old.graph < Ix.greatest }
        ensures replaced { IfSome (edge_between self.old.graph (Ix.number a) (Ix.number b)) (λ e.
            IsOkAnd result (λ updated. Ix.number updated ≡ e)
            × (self.new ≡ with_graph self.old (with_edge_weight self.old.graph e weight))) }
        ensures cycle { (result ≡ Err (ByCycle (record { 0 = weight })))
            ↔ Reaches self.old.graph (Ix.number b) (Ix.number a) }
        ensures refusal { IfErr result (λ e.
            (e ≡ ByCycle (record { 0 = weight })) ⊎ (e ≡ EdgeMemory weight)) }
        ensures added { edge_between self.old.graph (Ix.number a) (Ix.number b) ≡ None
            → IfOk result (λ e.
            (Ix.number e ≡ next_edge self.old.graph)
            × (self.new.graph ≡ with_edge self.old.graph (Ix.number a) (Ix.number b) weight)) }
        ensures unchanged { OnErr result (self.new.graph ≡ self.old.graph) }
        ensures acyclic { IsAcyclic self.new.graph }
        ensures looked { self.old.looks ≤ self.new.looks }
        ensures counted { self.new.looks ≤ self.old.looks + edge_count_of self.old.graph }
        ensures ready { Reaches self.old.graph (Ix.number a) (Ix.number b)
            → self.new.looks ≡ self.old.looks }
    {
        self.guarded.update_edge(a, b, weight)
    }

    /// Adds a node and an edge from `parent` to it, or neither. Returns both indices.
    ///
    /// It needs no search, so it costs less than `add_node` followed by `add_edge`.
    ///
    /// # Requires
    ///
    /// - `parent`: `parent` is a node of the dag. Test: `contains_node(parent)`.
    /// - `edge_index_left`: The index type has an index left for one more edge. Test:
    ///   `can_add_edge()`.
    /// - `node_index_left`: The index type has an index left for one more node. Test:
    ///   `can_add_node()`.
    ///
    /// # Errors
    ///
    /// Returns `ChildError::Memory` with both weights if an allocation fails; the dag is unchanged.
    ///
    /// # Complexity
    ///
    /// Amortized O(1).
    ///
    /// # Examples
    ///
    /// ```
    /// let mut dag: Dag<&'static str, u32> = Dag::new(rt.alloc());
    /// let sow = dag.add_node("sow")?;
    /// let (days, reap) = dag.add_child(sow, 90, "reap")?;
    /// assert!(rt; dag.edge_endpoints(days) == Some((sow, reap)));
    /// ```
    #[inline]
    pub fn add_child(
        &mut self,
        parent: NodeIndex<Ix>,
        edge: E,
        node: N,
    ) -> Result<(EdgeIndex<Ix>, NodeIndex<Ix>), ChildError<N, E>>
        requires parent { HasNode self.old.graph (Ix.number parent) }
        requires edge_index_left { edge_count_of self.old.graph < Ix.greatest }
        requires node_index_left { node_count_of self.old.graph < Ix.greatest }
        ensures added { IfOk result (λ r. (Ix.number r.0 ≡ next_edge self.old.graph)
            × (Ix.number r.1 ≡ next_node self.old.graph)
            × (self.new ≡ with_graph self.old
            (with_neighbor Outgoing self.old.graph (Ix.number parent) edge node))) }
        ensures refusal { IfErr result (λ e. e ≡ ChildMemory edge node) }
        ensures unchanged { OnErr result (self.new ≡ self.old) }
        ensures acyclic { IsAcyclic self.new.graph }
    {
        self.guarded
            .add_neighbor(parent, Direction::Outgoing, edge, node)
    }

    /// Adds a node and an edge from it to `child`, or neither. Returns both indices.
    ///
    /// It needs no search, so it costs less than `add_node` followed by `add_edge`.
    ///
    /// # Requires
    ///
    /// - `child`: `child` is a node of the dag. Test: `contains_node(child)`.
    /// - `edge_index_left`: The index type has an index left for one more edge. Test:
    ///   `can_add_edge()`.
    /// - `node_index_left`: The index type has an index left for one more node. Test:
    ///   `can_add_node()`.
    ///
    /// # Errors
    ///
    /// Returns `ChildError::Memory` with both weights if an allocation fails; the dag is unchanged.
    ///
    /// # Complexity
    ///
    /// Amortized O(1).
    ///
    /// # Examples
    ///
    /// ```
    /// let mut dag: Dag<&'static str, u32> = Dag::new(rt.alloc());
    /// let reap = dag.add_node("reap")?;
    /// let (days, sow) = dag.add_parent(reap, 90, "sow")?;
    /// assert!(rt; dag.edge_endpoints(days) == Some((sow, reap)));
    /// ```
    #[inline]
    pub fn add_parent(
        &mut self,
        child: NodeIndex<Ix>,
        edge: E,
        node: N,
    ) -> Result<(EdgeIndex<Ix>, NodeIndex<Ix>), ChildError<N, E>>
        requires child { HasNode self.old.graph (Ix.number child) }
        requires edge_index_left { edge_count_of self.old.graph < Ix.greatest }
        requires node_index_left { node_count_of self.old.graph < Ix.greatest }
        ensures added { IfOk result (λ r. (Ix.number r.0 ≡ next_edge self.old.graph)
            × (Ix.number r.1 ≡ next_node self.old.graph)
            × (self.new ≡ with_graph self.old
            (with_neighbor Incoming self.old.graph (Ix.number child) edge node))) }
        ensures refusal { IfErr result (λ e. e ≡ ChildMemory edge node) }
        ensures unchanged { OnErr result (self.new ≡ self.old) }
        ensures acyclic { IsAcyclic self.new.graph }
    {
        self.guarded
            .add_neighbor(child, Direction::Incoming, edge, node)
    }

    /// Removes an edge and returns its weight, or `None` if there is no such edge.
    ///
    /// In a [`Dag`] the edge with the last index is moved into the freed index. In a [`StableDag`]
    /// no other index changes, and the next edge that is added gets the freed index.
    ///
    /// # Complexity
    ///
    /// In a [`StableDag`] O(edges before it in its two lists). In a [`Dag`] O(edges in the lists of
    /// this edge and in the lists of the edge with the last index).
    ///
    /// # Examples
    ///
    /// ```
    /// let mut dag: Dag<&'static str, u32> = Dag::new(rt.alloc());
    /// let sow = dag.add_node("sow")?;
    /// let (days, reap) = dag.add_child(sow, 90, "reap")?;
    /// let more = dag.add_edge(sow, reap, 30)?;
    /// assert!(rt; dag.remove_edge(days) == Some(90));
    /// // The last edge has its index now.
    /// assert!(rt; dag.edge_weight(days) == Some(&30));
    /// assert!(rt; dag.edge_weight(more).is_none());
    /// ```
    pub fn remove_edge(&mut self, e: EdgeIndex<Ix>) -> Option<E>
        ensures value { result ≡ edge_weight_at self.old.graph (Ix.number e) }
        ensures removed { OnSome result
            (self.new ≡ with_graph self.old (without_edge S.KIND self.old.graph (Ix.number e))) }
        ensures missing { IfNone result (self.new ≡ self.old) }
        ensures keeps { S.KIND ≡ Stable → KeepsIndices self.old.graph self.new.graph }
        ensures acyclic { IsAcyclic self.new.graph }
    {
        self.guarded.remove_edge(e)
    }

    /// Removes a node with its edges and returns its weight, or `None` if there is no such node.
    ///
    /// The edges are removed one by one, as by [`remove_edge`](Acyclic::remove_edge), first the
    /// edges to its children. In a [`Dag`] the node with the last index is then moved into the
    /// freed index. In a [`StableDag`] no other index changes, and the next node that is added gets
    /// the freed index.
    ///
    /// # Complexity
    ///
    /// The sum of the costs of removing its edges by [`remove_edge`](Acyclic::remove_edge). In a
    /// [`Dag`], plus O(edges of the node with the last index), which is moved.
    ///
    /// # Examples
    ///
    /// ```
    /// let mut dag: Dag<&'static str, u32> = Dag::new(rt.alloc());
    /// let sow = dag.add_node("sow")?;
    /// let (days, reap) = dag.add_child(sow, 90, "reap")?;
    /// assert!(rt; dag.remove_node(sow) == Some("sow"));
    /// assert!(rt; dag.edge_weight(days).is_none());
    /// // The last node has its index now.
    /// assert!(rt; dag.node_weight(sow) == Some(&"reap"));
    /// assert!(rt; !dag.contains_node(reap));
    /// ```
    pub fn remove_node(&mut self, n: NodeIndex<Ix>) -> Option<N>
        ensures value { result ≡ weight_at self.old.graph (Ix.number n) }
        ensures removed { OnSome result
            (self.new ≡ with_graph self.old (without_node S.KIND self.old.graph (Ix.number n))) }
        ensures missing { IfNone result (self.new ≡ self.old) }
        ensures keeps { S.KIND ≡ Stable → KeepsIndices self.old.graph self.new.graph }
        ensures acyclic { IsAcyclic self.new.graph }
    {
        self.guarded.remove_node(n)
    }

    /// Removes everything, vacant slots included; indices start from 0 again.
    ///
    /// # Complexity
    ///
    /// O(slots).
    pub fn clear(&mut self)
        ensures cleared { self.new ≡ with_graph self.old empty }
        ensures acyclic { IsAcyclic self.new.graph }
    {
        self.guarded.store.clear();
        self.guarded.order.clear();
    }

    /// Removes all edges and all edge slots, and keeps the nodes and the vacant node slots.
    ///
    /// # Complexity
    ///
    /// O(slots).
    ///
    /// # Examples
    ///
    /// ```
    /// let mut dag: Dag<&'static str, u32> = Dag::new(rt.alloc());
    /// let sow = dag.add_node("sow")?;
    /// dag.add_child(sow, 90, "reap")?;
    /// dag.clear_edges();
    /// assert!(rt; dag.node_count() == 2 && dag.edge_count() == 0);
    /// dag.clear();
    /// assert!(rt; dag.node_count() == 0);
    /// ```
    pub fn clear_edges(&mut self)
        ensures cleared { self.new ≡ with_graph self.old (without_all_edges self.old.graph) }
        ensures acyclic { IsAcyclic self.new.graph }
    {
        self.guarded.store.clear_edges();
    }
}
