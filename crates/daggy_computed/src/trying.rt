//! Methods that test what `add`, `set` and similar methods require.
ghost use Rattle.std.specs.Prelude.{◌≡◌, ◌≢◌, ℕ, List, ◌+◌, ◌<◌, ◌≤◌, ◌↔◌, ◌⊎◌, Bool, true, Some, None, Err};
ghost use Rattle.std.specs.Prelude.{IsTrue, IfOk, OnOk, IfErr, OnErr, IfSome, IsSome, IfNone, OnSome};
ghost use Rattle.std.specs.Prelude.{map, reverse, vec_len};
ghost use Rattle.std.specs.List.{All};
ghost use Rattle.std.specs.Option.{option_map};
ghost use Rattle.daggy_base.specs.Adding.{next_node, with_node};
ghost use Rattle.daggy_base.specs.Graph.{HasNode, node_weight as node_weight_at};
ghost use Rattle.daggy_base.specs.Graph.{node_count as node_count_of, edge_count as edge_count_of};
ghost use Rattle.daggy_base.specs.Removal.{without_node};
ghost use Rattle.daggy_base.specs.declared.error.NodeError.TheVariants.{Memory as NodeMemory};
ghost use Rattle.daggy_base.specs.declared.error.NodeError.TheVariants.{Full as NodeFull};
ghost use Rattle.daggy_base.specs.declared.error.ParentsError.{ParentsError};
ghost use Rattle.daggy_base.specs.declared.error.ParentsError.TheVariants.{WouldCycle as ByCycle};
ghost use Rattle.daggy_base.specs.declared.error.ParentsError.TheVariants.{Full as NoIndex};
ghost use Rattle.daggy_guard.specs.Parents.{entering, IsMemory, ReachesParent};
ghost use Rattle.daggy_computed.specs.Computation.{with_graph};
ghost use Rattle.daggy_computed.specs.Marking.{marked, reformed, all_marked, children_of};
ghost use Rattle.daggy_computed.specs.Settling.{AreValues};
ghost use Rattle.daggy_dag.specs.declared.acyclic.trying_parents.TryParentsError.TheVariants.{Missing};
ghost use Rattle.daggy_dag.specs.declared.acyclic.trying_parents.TryParentsError.TheVariants.{Refused};

use crate::cell::Cell;
use crate::computed::Computed;
use daggy_base::error::NodeError;
use daggy_base::index::{IndexType, NodeIndex};
use daggy_base::store::Store;
use daggy_dag::acyclic::TryParentsError;

impl<K: Drop, V: Drop, E: Drop, Ix: IndexType, S> Computed<K, V, E, Ix, S>
where
    S: Store<Ix, NodeWeight = K, EdgeWeight = E>,
{
    /// Adds a node as [`add`](Computed::add) does, if there is an index left for it.
    ///
    /// # Errors
    ///
    /// Returns `NodeError::Full` if the index type has no index left, and `NodeError::Memory` if an
    /// allocation fails. Each error holds the formula, and nothing has changed.
    ///
    /// # Complexity
    ///
    /// The same as [`add`](Computed::add).
    ///
    /// # Examples
    ///
    /// ```
    /// let mut sums: ComputedDag<u32, u32, (), u8> = ComputedDag::new(rt.alloc());
    /// let mut added: u32 = 0;
    /// while sums.try_add(added).is_ok() {
    ///     added = added.wrapping_add(1);
    /// }
    /// assert!(rt; added == 255);
    /// assert!(rt; sums.try_add(7) == Err(NodeError::Full(7)));
    /// ```
    pub fn try_add(&mut self, formula: K) -> Result<NodeIndex<Ix>, NodeError<K>>
        ensures full { (result ≡ Err (NodeFull formula))
            ↔ (Ix.greatest ≤ node_count_of self.old.graph) }
        ensures refusal { IfErr result (λ e. (e ≡ NodeFull formula) ⊎ (e ≡ NodeMemory formula)) }
        ensures index { IfOk result (λ n. Ix.number n ≡ next_node self.old.graph) }
        ensures added { OnOk result (self.new ≡ with_graph self.old (with_node self.old.graph
            (record { formula = formula; value = None; stale = true }))) }
        ensures values { (eq : V → V → Bool) (allowed : K → List V → V → Bool)
            → AreValues eq allowed self.old.graph → AreValues eq allowed self.new.graph }
        ensures unchanged { OnErr result (self.new ≡ self.old) }
    {
        if !self.can_add() {
            return Err(NodeError::Full(formula));
        }
        self.add(formula)
    }

    /// Makes a node stale as [`invalidate`](Computed::invalidate) does, if it exists. Returns
    /// whether it exists.
    ///
    /// # Examples
    ///
    /// ```
    /// let mut sums: ComputedDag<u32, u32, ()> = ComputedDag::new(rt.alloc());
    /// let hens = sums.try_add(3)?;
    /// assert!(rt; sums.try_invalidate(hens));
    /// assert!(rt; !sums.try_invalidate(NodeIndex::new(9)));
    /// ```
    pub fn try_invalidate(&mut self, n: NodeIndex<Ix>) -> bool
        ensures exists { IsTrue result ↔ HasNode self.old.graph (Ix.number n) }
        ensures marked { IsTrue result
            → self.new ≡ with_graph self.old (marked self.old.graph (Ix.number n)) }
        ensures values { (eq : V → V → Bool) (allowed : K → List V → V → Bool)
            → AreValues eq allowed self.old.graph → AreValues eq allowed self.new.graph }
        ensures unchanged { ¬ HasNode self.old.graph (Ix.number n) → self.new ≡ self.old }
    {
        if !self.contains_node(n) {
            return false;
        }
        self.invalidate(n);
        true
    }

    /// Replaces the formula of a node as [`set`](Computed::set) does, if the node exists, and
    /// returns the old one.
    ///
    /// # Errors
    ///
    /// Returns the formula if the node does not exist; nothing has changed.
    ///
    /// # Examples
    ///
    /// ```
    /// let mut sums: ComputedDag<u32, u32, ()> = ComputedDag::new(rt.alloc());
    /// let hens = sums.try_add(3)?;
    /// assert!(rt; sums.try_set(hens, 4) == Ok(3));
    /// assert!(rt; sums.try_set(NodeIndex::new(9), 5) == Err(5));
    /// ```
    pub fn try_set(&mut self, n: NodeIndex<Ix>, formula: K) -> Result<K, K>
        ensures missing { IfErr result (λ k. (k ≡ formula) × ¬ HasNode self.old.graph (Ix.number n)) }
        ensures gives { IfOk result (λ k. option_map (λ c. c.formula)
            (node_weight_at self.old.graph (Ix.number n)) ≡ Some k) }
        ensures set { OnOk result (self.new
            ≡ with_graph self.old (reformed self.old.graph (Ix.number n) formula)) }
        ensures values { (eq : V → V → Bool) (allowed : K → List V → V → Bool)
            → AreValues eq allowed self.old.graph → AreValues eq allowed self.new.graph }
        ensures unchanged { OnErr result (self.new ≡ self.old) }
    {
        if !self.contains_node(n) {
            return Err(formula);
        }
        Ok(self.set(n, formula))
    }

    // Whether a node and the parent of each item exist.
    fn exist(&self, n: NodeIndex<Ix>, items: &Vec<(NodeIndex<Ix>, E)>) -> bool
        ensures { IsTrue result ↔ (HasNode self.now.graph (Ix.number n)
            × All (λ x. HasNode self.now.graph (Ix.number x.0)) items.now.items) }
    {
        if !self.contains_node(n) {
            return false;
        }
        self.contains_parents(items.as_slice())
    }

    /// Replaces the formula of a node and the edges that enter it as
    /// [`set_parents`](Computed::set_parents) does, if the node and all parents exist, and returns
    /// the old formula.
    ///
    /// # Errors
    ///
    /// Each error holds the formula and the parents, and nothing has changed.
    /// `TryParentsError::Missing` if the node or one of the parents does not exist; otherwise the
    /// error of `set_parents`.
    ///
    /// # Complexity
    ///
    /// The same as [`set_parents`](Computed::set_parents).
    ///
    /// # Examples
    ///
    /// ```
    /// let mut sums: ComputedDag<u32, u32, ()> = ComputedDag::new(rt.alloc());
    /// let hens = sums.try_add(3)?;
    /// let birds = sums.try_add(10)?;
    /// let parents = Vec::from_array(rt.alloc(), [(hens, ())])?;
    /// assert!(rt; sums.try_set_parents(birds, 11, parents) == Ok(10));
    /// let parents = Vec::from_array(rt.alloc(), [(NodeIndex::new(9), ())])?;
    /// match sums.try_set_parents(birds, 12, parents) {
    ///     Err((formula, TryParentsError::Missing(_))) => assert!(rt; formula == 12),
    ///     _ => assert!(rt; false),
    /// }
    /// ```
    pub fn try_set_parents(
        &mut self,
        n: NodeIndex<Ix>,
        formula: K,
        parents: Vec<(NodeIndex<Ix>, E)>,
    ) -> Result<K, (K, TryParentsError<E, Ix>)>
        ensures missing { (result ≡ Err (formula, Missing parents))
            ↔ ¬ (HasNode self.old.graph (Ix.number n)
            × All (λ x. HasNode self.old.graph (Ix.number x.0)) parents.items) }
        ensures cycle { HasNode self.old.graph (Ix.number n)
            → All (λ x. HasNode self.old.graph (Ix.number x.0)) parents.items
            → (result ≡ Err (formula, Refused (ByCycle (record { 0 = parents }))))
            ↔ ReachesParent Ix.number self.old.graph (Ix.number n) parents.items }
        ensures full { HasNode self.old.graph (Ix.number n)
            → All (λ x. HasNode self.old.graph (Ix.number x.0)) parents.items
            → (result ≡ Err (formula, Refused (NoIndex parents)))
            ↔ ((¬ ReachesParent Ix.number self.old.graph (Ix.number n) parents.items)
            × (Ix.greatest < edge_count_of self.old.graph + vec_len parents)) }
        ensures refusal { IfErr result (λ e. (e.0 ≡ formula)
            × ((e.1 ≡ Missing parents) ⊎ ((r : ParentsError E Ix) × (e.1 ≡ Refused r)
            × ((r ≡ ByCycle (record { 0 = parents }))
            ⊎ ((r ≡ NoIndex parents) ⊎ IsMemory parents.items r))))) }
        ensures nodes { OnOk result (self.new.graph.nodes
            ≡ (reformed self.old.graph (Ix.number n) formula).nodes) }
        ensures parents { OnOk result (entering self.new.graph (Ix.number n)
            ≡ reverse (map (λ x. (Ix.number x.0, x.1)) parents.items)) }
        ensures others { OnOk result ((m : ℕ) → m ≢ Ix.number n
            → entering self.new.graph m ≡ entering self.old.graph m) }
        ensures changed { self.new.changed ≡ self.old.changed }
        ensures values { (eq : V → V → Bool) (allowed : K → List V → V → Bool)
            → AreValues eq allowed self.old.graph → AreValues eq allowed self.new.graph }
        ensures gives { IfOk result (λ k. option_map (λ c. c.formula)
            (node_weight_at self.old.graph (Ix.number n)) ≡ Some k) }
        ensures unchanged { OnErr result (self.new ≡ self.old) }
    {
        if !self.exist(n, &parents) {
            return Err((formula, TryParentsError::Missing(parents)));
        }
        match self.set_parents(n, formula, parents) {
            Ok(old) => Ok(old),
            Err((formula, error)) => Err((formula, TryParentsError::Refused(error))),
        }
    }

    /// Removes a node with its edges as [`remove`](Computed::remove) does, and returns its formula,
    /// its value and whether it was stale, if the node exists.
    ///
    /// # Complexity
    ///
    /// The same as [`remove`](Computed::remove).
    ///
    /// # Examples
    ///
    /// ```
    /// let mut sums: ComputedDag<u32, u32, ()> = ComputedDag::new(rt.alloc());
    /// let hens = sums.try_add(3)?;
    /// assert!(rt; sums.try_remove(hens).is_some_and(|cell| cell.formula == 3));
    /// assert!(rt; sums.try_remove(hens).is_none());
    /// ```
    pub fn try_remove(&mut self, n: NodeIndex<Ix>) -> Option<Cell<K, V>>
        ensures exists { IsSome result ↔ HasNode self.old.graph (Ix.number n) }
        ensures gives { IfSome result (λ c. node_weight_at (all_marked self.old.graph
            (children_of self.old.graph (Ix.number n))) (Ix.number n) ≡ Some c) }
        ensures removed { OnSome result (self.new ≡ with_graph self.old (without_node S.KIND
            (all_marked self.old.graph (children_of self.old.graph (Ix.number n))) (Ix.number n))) }
        ensures values { (eq : V → V → Bool) (allowed : K → List V → V → Bool)
            → AreValues eq allowed self.old.graph → AreValues eq allowed self.new.graph }
        ensures unchanged { IfNone result (self.new ≡ self.old) }
    {
        if !self.contains_node(n) {
            return None;
        }
        Some(self.remove(n))
    }
}
