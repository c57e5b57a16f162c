//! `Computed`: values that are computed from the values of parents in a dag.
ghost use Rattle.std.specs.Prelude.{◌≡◌, ◌≢◌, ℕ, List, ◌+◌, ◌<◌, ◌↔◌, ◌⊎◌, Bool, true, Some, None, Ok, Err};
ghost use Rattle.std.specs.Prelude.{IsTrue, Contains, IfOk, OnOk, IfErr, OnErr, IfSome, option_copied, []};
ghost use Rattle.std.specs.Prelude.{map, reverse, vec_len};
ghost use Rattle.std.specs.List.{All};
ghost use Rattle.std.specs.Option.{option_map};
ghost use Rattle.daggy_base.specs.Adding.{next_node, with_node};
ghost use Rattle.daggy_base.specs.Graph.{empty, HasNode, node_weight as node_weight_at};
ghost use Rattle.daggy_base.specs.Graph.{node_count as node_count_of, edge_count as edge_count_of};
ghost use Rattle.daggy_base.specs.Path.{Reaches};
ghost use Rattle.daggy_base.specs.Removal.{without_node};
ghost use Rattle.daggy_base.specs.Weights.{with_node_weight};
ghost use Rattle.daggy_base.specs.declared.error.NodeError.TheVariants.{Memory as NodeMemory};
ghost use Rattle.daggy_base.specs.declared.error.ParentsError.TheVariants.{WouldCycle as ByCycle};
ghost use Rattle.daggy_base.specs.declared.error.ParentsError.TheVariants.{Full as NoIndex};
ghost use Rattle.daggy_guard.specs.Parents.{entering, IsMemory, ReachesParent};
ghost use Rattle.daggy_order.specs.Paths.{IsShortestPath};
ghost use Rattle.daggy_reduction.specs.Descendants.{IsOrderOfPart};
ghost use Rattle.daggy_computed.specs.Computation.{with_graph, formulas};
ghost use Rattle.daggy_computed.specs.Inputs.{value_at as value_of_node};
ghost use Rattle.daggy_computed.specs.Marking.{IsStale, marked, reformed, all_marked, children_of};
ghost use Rattle.daggy_computed.specs.Recomputing.{IsUpToDate, IsFunction, IsComputed};
ghost use Rattle.daggy_computed.specs.Recomputing.{AreComputed, AreComputedOrStale};
ghost use Rattle.daggy_computed.specs.Refreshing.{IsCause};
ghost use Rattle.daggy_computed.specs.Settling.{Gives, Refuses, Refreshes, AreValues};

use crate::cell::Cell;
use crate::entry::{Entry, mark, value_at};
use crate::error::RefreshError;
use crate::inputs::Inputs;
use crate::needed::{needed_nodes, none_stale_among, refresh_listed};
use crate::parents::entering_edges;
use crate::queue::Queue;
use crate::refreshing::refresh_nodes;
use crate::slots::{none_stale, put_stale, reserve_slots, take_out};
use crate::turn::mark_children;
use daggy_base::error::{NodeError, ParentsError};
use daggy_base::index::{DefaultIx, IndexType, NodeIndex};
use daggy_base::read_store::ReadStore;
use daggy_base::source::EdgeSource;
use daggy_base::store::Store;
use daggy_dag::acyclic::Acyclic;
use daggy_graph::graph::DiGraph;
use daggy_stable::stable_graph::StableDiGraph;
use std::alloc::{AllocError, Global};
use std::marker::Model;

/// A dag whose nodes have formulas and values. The value of a node is computed from its formula and
/// the values of its parents.
///
/// A change makes nodes stale. [`refresh`](Computed::refresh) computes the stale nodes, parents
/// before children, and any other node only if the value of one of its parents changed.
///
/// # Examples
///
/// ```
/// let mut sums: ComputedDag<u32, u32, ()> = ComputedDag::new(rt.alloc());
/// let hens = sums.add(3)?;
/// let birds = sums.add(10)?;
/// let parents = Vec::from_array(rt.alloc(), [(hens, ())])?;
/// assert!(rt; sums.set_parents(birds, 10, parents).is_ok());
/// // A formula is a number that is added to the values of the parents.
/// let sum = |formula: &u32, inputs: Inputs<'_, u32>| -> Result<u32, ()> {
///     Ok(inputs.fold(*formula, |total, value| total.wrapping_add(*value)))
/// };
/// assert!(rt; sums.refresh(sum).is_ok());
/// assert!(rt; sums.value(birds) == Some(&13));
/// ```
#[derive(Drop)]
pub struct Computed<
    K,
    V: Drop,
    E,
    Ix: IndexType,
    S: EdgeSource<Ix, NodeWeight = K, EdgeWeight = E>,
> {
    dag: Acyclic<K, E, Ix, S>,
    // By the index of a node. There may be more than nodes.
    entries: Vec<Entry<V>>,
    // Each stale node is in it. It may have others.
    queue: Queue<Ix>,
    // Memory for the parents of the node that is being computed.
    parents: Vec<usize>,
    // The nodes whose values were new in the last refresh.
    changed: Vec<NodeIndex<Ix>>,
}

/// Computed values over a [`Dag`](daggy_dag::acyclic::Dag).
pub type ComputedDag<K, V, E, Ix = DefaultIx> = Computed<K, V, E, Ix, DiGraph<K, E, Ix>>;

/// Computed values over a [`StableDag`](daggy_dag::acyclic::StableDag).
pub type StableComputedDag<K, V, E, Ix = DefaultIx> = Computed<
    K,
    V,
    E,
    Ix,
    StableDiGraph<K, E, Ix>,
>;

impl<K, V: Drop, E, Ix: IndexType, S> Model for Computed<K, V, E, Ix, S>
where
    S: EdgeSource<Ix, NodeWeight = K, EdgeWeight = E>,
{
    ghost use Rattle.std.specs.Prelude.{◌≤◌, map, length};
    ghost use Rattle.daggy_computed.specs.Cells.{cells};
    ghost use Rattle.daggy_computed.specs.Computation.{Computation};
    ghost use Rattle.daggy_computed.specs.Refreshing.{IsReady};

    ghost Value = { Computation K V E };

    ghost view = { λ d. record {
      graph = cells d.dag.graph d.entries.items;
      changed = map Ix.number d.changed.items;
    } };

    ghost invariant = { λ d.
        IsReady d.dag.graph d.entries.items d.queue.slots (map Ix.number d.queue.nodes)
        × (length d.dag.graph.nodes ≤ length d.entries.items) };
}

impl<K: Drop, V: Drop, E: Drop, Ix: IndexType, S> Computed<K, V, E, Ix, S>
where
    S: Store<Ix, NodeWeight = K, EdgeWeight = E>,
{
    /// Creates an empty `Computed`. Does not allocate.
    pub fn new(alloc: Global) -> Self
        ensures { result ≡ record { graph = empty; changed = [] } }
    {
        Computed {
            dag: Acyclic::new(alloc),
            entries: Vec::new(alloc),
            queue: Queue::new(alloc),
            parents: Vec::new(alloc),
            changed: Vec::new(alloc),
        }
    }

    /// Returns a shared reference to the dag. The weight of a node is its formula.
    pub fn dag(&self) -> &Acyclic<K, E, Ix, S>
        ensures { result.now.graph ≡ formulas self.now.graph }
    {
        &self.dag
    }

    /// Whether the node exists.
    pub fn contains_node(&self, n: NodeIndex<Ix>) -> bool
        ensures { IsTrue result ↔ HasNode self.now.graph (Ix.number n) }
    {
        self.dag.contains_node(n)
    }

    /// Returns the formula of a node, if the node exists.
    ///
    /// # Examples
    ///
    /// ```
    /// let mut sums: ComputedDag<u32, u32, ()> = ComputedDag::new(rt.alloc());
    /// let hens = sums.try_add(3)?;
    /// assert!(rt; sums.formula(hens) == Some(&3));
    /// ```
    pub fn formula(&self, n: NodeIndex<Ix>) -> Option<&K>
        ensures { option_copied result
            ≡ option_map (λ c. c.formula) (node_weight_at self.now.graph (Ix.number n)) }
    {
        self.dag.node_weight(n)
    }

    /// Whether the parent of each item exists, as [`set_parents`](Computed::set_parents) requires.
    ///
    /// # Complexity
    ///
    /// O(items).
    pub fn contains_parents(&self, items: &[(NodeIndex<Ix>, E)]) -> bool
        ensures { IsTrue result ↔ All (λ x. HasNode self.now.graph (Ix.number x.0)) items.now }
    {
        self.dag.contains_parents(items)
    }

    /// Whether the index type has an index left for one more node, as [`add`](Computed::add)
    /// requires.
    ///
    /// # Examples
    ///
    /// ```
    /// let mut sums: ComputedDag<u32, u32, (), u8> = ComputedDag::new(rt.alloc());
    /// assert!(rt; sums.can_add());
    /// for n in 0..255 {
    ///     assert!(rt; sums.can_add() && sums.add(n).is_ok());
    /// }
    /// // An `u8` has no index left.
    /// assert!(rt; !sums.can_add());
    /// ```
    pub fn can_add(&self) -> bool
        ensures { IsTrue result ↔ (node_count_of self.now.graph < Ix.greatest) }
    {
        self.dag.can_add_node()
    }

    /// Returns a shortest path from `a` to `b`, as its nodes in order, or `None` if no path leads
    /// from `a` to `b`. If [`set_parents`](Computed::set_parents) rejects `b` as a parent of `a`
    /// because of a cycle, the cycle is this path and the edge from `b` back to `a`.
    ///
    /// # Errors
    ///
    /// Returns `AllocError` if the memory for the path cannot be allocated.
    ///
    /// # Complexity
    ///
    /// The same as [`Acyclic::path`].
    ///
    /// # Examples
    ///
    /// ```
    /// let mut sums: ComputedDag<u32, u32, ()> = ComputedDag::new(rt.alloc());
    /// let hens = sums.add(3)?;
    /// let birds = sums.add(10)?;
    /// let parents = Vec::from_array(rt.alloc(), [(hens, ())])?;
    /// assert!(rt; sums.set_parents(birds, 10, parents).is_ok());
    /// // `birds` cannot become a parent of `hens`: this path and that edge would be a cycle.
    /// let path = sums.path(hens, birds)?;
    /// assert!(rt; path.is_some_and(|nodes| nodes.as_slice() == [hens, birds].as_slice()));
    /// assert!(rt; sums.path(birds, hens)?.is_none());
    /// ```
    pub fn path(
        &mut self,
        a: NodeIndex<Ix>,
        b: NodeIndex<Ix>,
    ) -> Result<Option<Vec<NodeIndex<Ix>>>, AllocError>
        ensures path { IfOk result (λ found. IfSome found (λ path.
            IsShortestPath self.old.graph (Ix.number a) (Ix.number b)
            (map Ix.number path.items))) }
        ensures none { (result ≡ Ok None) ↔ ¬ Reaches self.old.graph (Ix.number a) (Ix.number b) }
        ensures unchanged { self.new ≡ self.old }
    {
        self.dag.path(a, b)
    }

    /// Whether no node is stale. If so, the value of each node is up to date.
    ///
    /// # Complexity
    ///
    /// O(nodes that are stale, or were stale when they were removed since the last refresh).
    ///
    /// # Examples
    ///
    /// ```
    /// let mut sums: ComputedDag<u32, u32, ()> = ComputedDag::new(rt.alloc());
    /// let hens = sums.add(3)?;
    /// assert!(rt; !sums.is_fresh());
    /// let same = |formula: &u32, _inputs: Inputs<'_, u32>| -> Result<u32, ()> { Ok(*formula) };
    /// assert!(rt; sums.refresh(same).is_ok() && sums.is_fresh());
    /// assert!(rt; sums.set(hens, 4) == 3);
    /// assert!(rt; !sums.is_fresh());
    /// ```
    pub fn is_fresh(&self) -> bool
        ensures { IsTrue result ↔ ((n : ℕ) → ¬ IsStale self.now.graph n) }
    {
        none_stale(self.entries.as_slice(), &self.queue)
    }

    /// Whether a node and all its ancestors are fresh: none of them is stale. If so, the node's
    /// value is up to date, though other nodes may be stale.
    ///
    /// # Errors
    ///
    /// Returns `AllocError` if an allocation fails.
    ///
    /// # Complexity
    ///
    /// O(k log k + m) for the k ancestors of the node and the m edges that enter them or the node.
    pub fn is_up_to_date(&mut self, n: NodeIndex<Ix>) -> Result<bool, AllocError>
        ensures exact { IfOk result (λ b. IsTrue b ↔ IsUpToDate self.old.graph (Ix.number n)) }
        ensures unchanged { self.new ≡ self.old }
    {
        let needed = needed_nodes(&mut self.dag, n)?;
        Ok(none_stale_among(self.entries.as_slice(), needed.as_slice()))
    }

    /// Returns the nodes whose values were new in the last refresh, parents before children, even
    /// if that refresh ended early. Nodes that have been removed since then are still included.
    ///
    /// # Examples
    ///
    /// ```
    /// fn sum(own: &u32, inputs: Inputs<'_, u32>) -> Result<u32, ()> {
    ///     Ok(inputs.fold(*own, |total, value| total.wrapping_add(*value)))
    /// }
    /// let mut sums: ComputedDag<u32, u32, ()> = ComputedDag::new(rt.alloc());
    /// let hens = sums.add(3)?;
    /// let ducks = sums.add(4)?;
    /// let birds = sums.add(0)?;
    /// let parents = Vec::from_array(rt.alloc(), [(hens, ()), (ducks, ())])?;
    /// assert!(rt; sums.set_parents(birds, 0, parents).is_ok());
    /// assert!(rt; sums.refresh(sum).is_ok());
    /// let _three = sums.set(hens, 5);
    /// assert!(rt; sums.refresh(sum).is_ok());
    /// assert!(rt; sums.changed() == [hens, birds].as_slice());
    /// // A value that equals the old one is not new.
    /// sums.invalidate(ducks);
    /// assert!(rt; sums.refresh(sum).is_ok() && sums.changed().is_empty());
    /// ```
    pub fn changed(&self) -> &[NodeIndex<Ix>]
        ensures { map Ix.number result.now ≡ self.now.changed }
    {
        self.changed.as_slice()
    }

    /// Returns the most recently computed value of a node, which may be out of date.
    pub fn last_value(&self, n: NodeIndex<Ix>) -> Option<&V>
        ensures { option_copied result ≡ value_of_node self.now.graph (Ix.number n) }
    {
        if !self.dag.contains_node(n) {
            return None;
        }
        value_at(self.entries.as_slice(), n.index())
    }

    /// Returns the value of a node if no node is stale, and otherwise `None`.
    ///
    /// # Complexity
    ///
    /// The same as [`is_fresh`](Computed::is_fresh).
    pub fn value(&self, n: NodeIndex<Ix>) -> Option<&V>
        ensures fresh { ((m : ℕ) → ¬ IsStale self.now.graph m)
            → option_copied result ≡ value_of_node self.now.graph (Ix.number n) }
        ensures stale { (m : ℕ) → IsStale self.now.graph m → option_copied result ≡ None }
    {
        if self.is_fresh() {
            self.last_value(n)
        } else {
            None
        }
    }

    /// Adds a node with a formula and without parents. The new node is stale.
    ///
    /// This reserves the memory that is needed to note which nodes are stale, so that a node can
    /// later be changed, invalidated or removed without allocating.
    ///
    /// # Requires
    ///
    /// - The index type has an index left for one more node. Test: `can_add()`.
    ///
    /// # Errors
    ///
    /// Returns `NodeError::Memory` with the formula if an allocation fails; nothing has changed.
    ///
    /// # Complexity
    ///
    /// Amortized O(1).
    pub fn add(&mut self, formula: K) -> Result<NodeIndex<Ix>, NodeError<K>>
        requires { node_count_of self.old.graph < Ix.greatest }
        ensures index { IfOk result (λ n. Ix.number n ≡ next_node self.old.graph) }
        ensures added { OnOk result (self.new ≡ with_graph self.old (with_node self.old.graph
            (record { formula = formula; value = None; stale = true }))) }
        ensures values { (eq : V → V → Bool) (allowed : K → List V → V → Bool)
            → AreValues eq allowed self.old.graph → AreValues eq allowed self.new.graph }
        ensures refusal { IfErr result (λ e. e ≡ NodeMemory formula) }
        ensures unchanged { OnErr result (self.new ≡ self.old) }
    {
        // Called for its contract: the dag is well formed.
        let _count = self.dag.node_count();
        let slots = self.dag.graph().node_slots();
        if reserve_slots(slots + 1, &mut self.entries, &mut self.queue).is_err() {
            return Err(NodeError::Memory(formula));
        }
        match self.dag.add_node(formula) {
            Ok(n) => {
                put_stale(n, &mut self.entries, &mut self.queue);
                Ok(n)
            }
            Err(error) => Err(error),
        }
    }

    /// Makes a node stale, so that the next refresh computes it again. Does not allocate.
    ///
    /// # Requires
    ///
    /// - `n` is a node of the dag. Test: `contains_node(n)`.
    ///
    /// # Examples
    ///
    /// ```
    /// let mut sums: ComputedDag<u32, u32, ()> = ComputedDag::new(rt.alloc());
    /// let hens = sums.add(3)?;
    /// let same = |formula: &u32, _inputs: Inputs<'_, u32>| -> Result<u32, ()> { Ok(*formula) };
    /// assert!(rt; sums.refresh(same).is_ok() && sums.is_fresh());
    /// sums.invalidate(hens);
    /// assert!(rt; !sums.is_fresh());
    /// ```
    pub fn invalidate(&mut self, n: NodeIndex<Ix>)
        requires { HasNode self.old.graph (Ix.number n) }
        ensures marked { self.new ≡ with_graph self.old (marked self.old.graph (Ix.number n)) }
        ensures values { (eq : V → V → Bool) (allowed : K → List V → V → Bool)
            → AreValues eq allowed self.old.graph → AreValues eq allowed self.new.graph }
    {
        mark(&mut self.entries, n.index());
        self.queue.put(n);
    }

    /// Replaces the formula of a node, and returns the old one. The node becomes stale. Does not
    /// allocate.
    ///
    /// # Requires
    ///
    /// - `n` is a node of the dag. Test: `contains_node(n)`.
    pub fn set(&mut self, n: NodeIndex<Ix>, formula: K) -> K
        requires { HasNode self.old.graph (Ix.number n) }
        ensures set { self.new
            ≡ with_graph self.old (reformed self.old.graph (Ix.number n) formula) }
        ensures values { (eq : V → V → Bool) (allowed : K → List V → V → Bool)
            → AreValues eq allowed self.old.graph → AreValues eq allowed self.new.graph }
        ensures gives { option_map (λ c. c.formula)
            (node_weight_at self.old.graph (Ix.number n)) ≡ Some result }
    {
        mark(&mut self.entries, n.index());
        self.queue.put(n);
        replace_weight(&mut self.dag, n, formula)
    }

    /// Replaces the formula of a node and the edges that enter it, all of them or none, and returns
    /// the old formula. The node becomes stale. Its inputs are the values of these parents, in this
    /// order; a parent may occur more than once.
    ///
    /// # Requires
    ///
    /// - `node`: `n` is a node of the dag. Test: `contains_node(n)`.
    /// - `parents`: The parent of each item of `parents` is a node of the dag. Test:
    ///   `contains_parents(&parents)`.
    ///
    /// # Errors
    ///
    /// Each error holds the formula and the parents, and nothing has changed.
    /// `ParentsError::WouldCycle` if `n` reaches one of the parents, or is one of them; this is
    /// decided first. Otherwise `ParentsError::Full` if there are too few indices for the new edges
    /// in addition to the old ones, and `ParentsError::Memory` if an allocation fails.
    ///
    /// # Complexity
    ///
    /// The same as `set_parents` of a dag.
    ///
    /// # Examples
    ///
    /// ```
    /// let mut sums: ComputedDag<u32, u32, ()> = ComputedDag::new(rt.alloc());
    /// let hens = sums.add(3)?;
    /// let birds = sums.add(10)?;
    /// let parents = Vec::from_array(rt.alloc(), [(hens, ())])?;
    /// assert!(rt; matches!(sums.set_parents(birds, 20, parents), Ok(10)));
    /// // The error of a cycle holds the formula and the parents, and nothing has changed.
    /// let parents = Vec::from_array(rt.alloc(), [(birds, ())])?;
    /// let refused = sums.set_parents(hens, 4, parents);
    /// assert!(rt; matches!(refused, Err((4, ParentsError::WouldCycle(_)))));
    /// assert!(rt; sums.formula(hens) == Some(&3));
    /// ```
    pub fn set_parents(
        &mut self,
        n: NodeIndex<Ix>,
        formula: K,
        parents: Vec<(NodeIndex<Ix>, E)>,
    ) -> Result<K, (K, ParentsError<E, Ix>)>
        requires node { HasNode self.old.graph (Ix.number n) }
        requires parents { All (λ x. HasNode self.old.graph (Ix.number x.0)) parents.items }
        ensures cycle { (result ≡ Err (formula, ByCycle (record { 0 = parents })))
            ↔ ReachesParent Ix.number self.old.graph (Ix.number n) parents.items }
        ensures full { (result ≡ Err (formula, NoIndex parents))
            ↔ ((¬ ReachesParent Ix.number self.old.graph (Ix.number n) parents.items)
            × (Ix.greatest < edge_count_of self.old.graph + vec_len parents)) }
        ensures refusal { IfErr result (λ e. (e.0 ≡ formula)
            × ((e.1 ≡ ByCycle (record { 0 = parents }))
            ⊎ ((e.1 ≡ NoIndex parents) ⊎ IsMemory parents.items e.1))) }
        ensures unchanged { OnErr result (self.new ≡ self.old) }
        ensures nodes { OnOk result (self.new.graph.nodes
            ≡ (reformed self.old.graph (Ix.number n) formula).nodes) }
        ensures parents { OnOk result (entering self.new.graph (Ix.number n)
            ≡ reverse (map (λ x. (Ix.number x.0, x.1)) parents.items)) }
        ensures others { OnOk result ((m : ℕ) → m ≢ Ix.number n
            → entering self.new.graph m ≡ entering self.old.graph m) }
        ensures changed { self.new.changed ≡ self.old.changed }
        ensures values { (eq : V → V → Bool) (allowed : K → List V → V → Bool)
            → AreValues eq allowed self.old.graph → AreValues eq allowed self.new.graph }
        ensures gives { IfOk result (λ k. option_map (λ c. c.formula)
            (node_weight_at self.old.graph (Ix.number n)) ≡ Some k) }
    {
        match self.dag.set_parents(n, parents) {
            Ok(()) => {}
            Err(error) => return Err((formula, error)),
        }
        Ok(self.set(n, formula))
    }

    /// Removes a node with its edges, and returns its formula, its value and whether it was stale.
    /// Its children become stale. Does not allocate.
    ///
    /// In a [`ComputedDag`] the node with the last index is moved into the freed index. In a
    /// [`StableComputedDag`] no other index changes.
    ///
    /// # Requires
    ///
    /// - `n` is a node of the dag. Test: `contains_node(n)`.
    ///
    /// # Complexity
    ///
    /// O(children of the node), plus the cost of `remove_node` of the dag.
    pub fn remove(&mut self, n: NodeIndex<Ix>) -> Cell<K, V>
        requires { HasNode self.old.graph (Ix.number n) }
        ensures removed { self.new ≡ with_graph self.old (without_node S.KIND
            (all_marked self.old.graph (children_of self.old.graph (Ix.number n))) (Ix.number n)) }
        ensures values { (eq : V → V → Bool) (allowed : K → List V → V → Bool)
            → AreValues eq allowed self.old.graph → AreValues eq allowed self.new.graph }
        ensures gives { node_weight_at (all_marked self.old.graph
            (children_of self.old.graph (Ix.number n))) (Ix.number n) ≡ Some result }
    {
        // Called for its contract: the dag is well formed.
        let _count = self.dag.node_count();
        let store = self.dag.graph();
        let slots = store.node_slots();
        mark_children(store, n, &mut self.entries, &mut self.queue);
        let formula = self.dag.remove_node(n).unwrap();
        let entry = take_out(S::KIND, slots - 1, n, &mut self.entries, &mut self.queue);
        Cell {
            formula,
            value: entry.value,
            stale: entry.stale,
        }
    }
}

// Replaces the weight of a node, and returns the old one.
fn replace_weight<N: Drop, E: Drop, Ix: IndexType, S>(
    dag: &mut Acyclic<N, E, Ix, S>,
    n: NodeIndex<Ix>,
    weight: N,
) -> N
where
    S: Store<Ix, NodeWeight = N, EdgeWeight = E>,
    requires { HasNode dag.old.graph (Ix.number n) }
    ensures replaced { dag.new.graph ≡ with_node_weight dag.old.graph (Ix.number n) weight }
    ensures gives { node_weight_at dag.old.graph (Ix.number n) ≡ Some result }
{
    std::mem::replace(&mut dag[n], weight)
}

impl<K: Drop, V: Drop, E: Copy, Ix: IndexType, S> Computed<K, V, E, Ix, S>
where
    S: Store<Ix, NodeWeight = K, EdgeWeight = E>,
{
    /// Returns the parents of a node in the order in which the edges were added, each with the
    /// weight of its edge. [`set_parents`](Computed::set_parents) takes such items, so a replaced
    /// formula can later be restored together with its parents.
    ///
    /// # Errors
    ///
    /// Returns `AllocError` if the memory for the list cannot be allocated.
    ///
    /// # Complexity
    ///
    /// O(edges that enter the node).
    pub fn parents(&self, n: NodeIndex<Ix>) -> Result<Vec<(NodeIndex<Ix>, E)>, AllocError>
        ensures { IfOk result (λ items. map (λ x. (Ix.number x.0, x.1)) items.items
            ≡ reverse (entering self.now.graph (Ix.number n))) }
    {
        entering_edges(self.dag.allocator(), self.dag.graph(), n)
    }
}

impl<K: Drop, V: PartialEq + Drop, E: Drop, Ix: IndexType, S> Computed<K, V, E, Ix, S>
where
    S: Store<Ix, NodeWeight = K, EdgeWeight = E>,
{
    /// Computes the stale nodes, parents before children. `f` is called with the formula of a node
    /// and the values of its parents, in the order in which the edges were added. If `f` returns a
    /// value that equals the node's old value, the old value is kept; otherwise the value is new,
    /// and the children of the node become stale. [`changed`](Computed::changed) returns the nodes
    /// whose values were new.
    ///
    /// A node is computed at most once, and only if it was stale before or the value of one of its
    /// parents was new.
    ///
    /// # Requires
    ///
    /// - `f` may be called with any argument, any number of times.
    ///
    /// # Errors
    ///
    /// Returns `RefreshError::Failed` with the node if `f` returns an error, and
    /// `RefreshError::Memory` if an allocation fails. Nodes computed before the error keep their
    /// new values. The others are still stale, so the next refresh continues with them.
    ///
    /// # Complexity
    ///
    /// O(k log k + m) for the k nodes that were stale or are computed and the m edges that enter or
    /// leave the computed nodes, plus the calls. It allocates only if a node has more parents, or
    /// more nodes change, than in any refresh before.
    ///
    /// # Examples
    ///
    /// ```
    /// // The parent's value divided by the formula. Without a parent, the formula itself.
    /// fn share(by: &u32, mut inputs: Inputs<'_, u32>) -> Result<u32, &'static str> {
    ///     match inputs.next() {
    ///         Some(value) => value.checked_div(*by).ok_or("a division by zero"),
    ///         None => Ok(*by),
    ///     }
    /// }
    /// let mut shares: ComputedDag<u32, u32, ()> = ComputedDag::new(rt.alloc());
    /// let eggs = shares.add(12)?;
    /// let each = shares.add(0)?;
    /// let parents = Vec::from_array(rt.alloc(), [(eggs, ())])?;
    /// assert!(rt; shares.set_parents(each, 0, parents).is_ok());
    /// let result = shares.refresh(share);
    /// assert!(rt; matches!(result, Err(RefreshError::Failed(n, _)) if n == each));
    /// // `eggs` was computed before the error. The next refresh computes only `each`.
    /// assert!(rt; shares.changed() == [eggs].as_slice());
    /// let _zero = shares.set(each, 4);
    /// assert!(rt; shares.refresh(share).is_ok());
    /// assert!(rt; shares.changed() == [each].as_slice() && shares.value(each) == Some(&3));
    /// ```
    pub fn refresh<X: Drop, F: Fn(&K, Inputs<'_, V>) -> Result<V, X>>(
        &mut self,
        f: F,
    ) -> Result<(), RefreshError<X, Ix>>
        requires { F.IsAlwaysCallable f }
        ensures refreshed { (order : List ℕ) × IsOrderOfPart self.old.graph (Contains order) order
            × Refreshes V.eq (Gives F.post f) order self.old.graph self.new.graph self.new.changed }
        ensures fresh { OnOk result ((n : ℕ) → ¬ IsStale self.new.graph n) }
        ensures failed { IfErr result (λ e. IsCause Ix.number (Refuses F.post f) self.new.graph e) }
        ensures values { (allowed : K → List V → V → Bool)
            → ((k : K) (vs : List V) (v : V) → Gives F.post f k vs v → allowed k vs v ≡ true)
            → AreValues V.eq allowed self.old.graph → AreValues V.eq allowed self.new.graph }
        ensures computed { (compute : K → List V → V) → IsFunction V.eq (Gives F.post f) compute
            → AreComputedOrStale compute self.old.graph
            → AreComputedOrStale compute self.new.graph
            × OnOk result (AreComputed compute self.new.graph) }
    {
        // Called for its contract: the dag is well formed.
        let _count = self.dag.node_count();
        refresh_nodes(
            self.dag.graph(),
            self.dag.order(),
            &mut self.entries,
            &mut self.queue,
            &mut self.parents,
            &mut self.changed,
            &f,
        )
    }

    /// Computes one node and what it needs: the node and its ancestors that are stale, parents
    /// before children, and any other ancestor only if the value of one of its parents changed.
    /// Other nodes are unchanged, except that the children of nodes whose values are new become
    /// stale.
    ///
    /// `f` is called as in [`refresh`](Computed::refresh), and [`changed`](Computed::changed)
    /// returns the nodes whose values were new.
    ///
    /// # Requires
    ///
    /// - `f` may be called with any argument, any number of times.
    ///
    /// # Errors
    ///
    /// Returns `RefreshError::Failed` with the node if `f` returns an error, and
    /// `RefreshError::Memory` if an allocation fails. Nodes computed before the error keep their
    /// new values, and the others are still stale.
    ///
    /// # Complexity
    ///
    /// O(k log k + m) for the k ancestors of the node and the m edges that enter them or the node,
    /// or leave a computed node, plus the calls.
    pub fn refresh_node<X: Drop, F: Fn(&K, Inputs<'_, V>) -> Result<V, X>>(
        &mut self,
        n: NodeIndex<Ix>,
        f: F,
    ) -> Result<(), RefreshError<X, Ix>>
        requires { F.IsAlwaysCallable f }
        ensures refreshed { (order : List ℕ) × IsOrderOfPart self.old.graph (Contains order) order
            × ((m : ℕ) → Contains order m → Reaches self.old.graph m (Ix.number n))
            × Refreshes V.eq (Gives F.post f) order self.old.graph self.new.graph self.new.changed }
        ensures fresh { OnOk result (IsUpToDate self.new.graph (Ix.number n)) }
        ensures failed { IfErr result (λ e. IsCause Ix.number (Refuses F.post f) self.new.graph e) }
        ensures values { (allowed : K → List V → V → Bool)
            → ((k : K) (vs : List V) (v : V) → Gives F.post f k vs v → allowed k vs v ≡ true)
            → AreValues V.eq allowed self.old.graph → AreValues V.eq allowed self.new.graph }
        ensures computed { (compute : K → List V → V) → IsFunction V.eq (Gives F.post f) compute
            → AreComputedOrStale compute self.old.graph
            → AreComputedOrStale compute self.new.graph
            × OnOk result ((m : ℕ) → Reaches self.new.graph m (Ix.number n)
            → IsComputed compute self.new.graph m) }
    {
        self.changed.clear();
        let needed = match needed_nodes(&mut self.dag, n) {
            Ok(needed) => needed,
            Err(_) => return Err(RefreshError::Memory),
        };
        // Called for its contract: the dag is well formed.
        let _count = self.dag.node_count();
        let _order = self.dag.order();
        refresh_listed(
            self.dag.graph(),
            needed.as_slice(),
            &mut self.entries,
            &mut self.queue,
            &mut self.parents,
            &mut self.changed,
            &f,
        )
    }
}
