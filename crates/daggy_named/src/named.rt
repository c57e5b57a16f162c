//! A dag whose nodes are named by keys: `Named`.
ghost use Rattle.std.specs.Prelude.{◌≡◌, ℕ, ◌+◌, ◌<◌, ◌≤◌, ◌↔◌, ◌⊎◌, ◌++◌, [], ◌∷◌, Some, None, Ok, Err};
ghost use Rattle.std.specs.Prelude.{IsTrue, IsSome, IfOk, IsOkAnd, IfErr, OnOk, OnErr, IfSome, IfNone};
ghost use Rattle.std.specs.Prelude.{map, length, option_copied, slice_set, vec_len, vec_capacity};
ghost use Rattle.std.specs.Borrow.{sem};
ghost use Rattle.std.specs.Option.{option_map, option_copied_mut};
ghost use Rattle.daggy_base.specs.Adding.{next_node, next_edge, with_node, with_edge};
ghost use Rattle.daggy_base.specs.Adding.{with_slot_filled};
ghost use Rattle.daggy_base.specs.Graph.{empty, slot, HasNode, node_weight};
ghost use Rattle.daggy_base.specs.Graph.{node_count as node_count_of, edge_count as edge_count_of};
ghost use Rattle.daggy_base.specs.Path.{Reaches};
ghost use Rattle.daggy_base.specs.WellFormed.{IsDag};
ghost use Rattle.daggy_base.specs.Removal.{without_node};
ghost use Rattle.daggy_order.specs.Paths.{IsShortestPath};
ghost use Rattle.daggy_base.specs.declared.error.EdgeError.TheVariants.{WouldCycle as ByCycle};
ghost use Rattle.daggy_base.specs.declared.error.EdgeError.TheVariants.{Memory as EdgeMemory};
ghost use Rattle.daggy_base.specs.declared.kind.Kind.TheVariants.{Stable};
ghost use Rattle.indexmap.specs.IndexMap.{index_map_len, spare, get, IsUnique, IsUnchanged};
ghost use Rattle.daggy_named.specs.Naming.{key_at, index_in, index_by, weight_by, IsNamed, ForNodes};
ghost use Rattle.daggy_named.specs.Places.{keys_at, IsKept};
ghost use Rattle.daggy_named.specs.Lends.{lends_weight};
ghost use Rattle.daggy_named.specs.Retained.{without_named};
ghost use Rattle.daggy_named.specs.declared.error.AddError.TheVariants as refused;
ghost use Rattle.daggy_named.specs.declared.error.DependError.TheVariants as depend;

use crate::error::{AddError, DependError};
use daggy_base::error::EdgeError;
use daggy_base::index::{DefaultIx, EdgeIndex, IndexType, NodeIndex};
use daggy_dag::acyclic::StableDag;
use indexmap::{Equivalent, IndexMap};
use std::alloc::{AllocError, Global};
use std::hash::Hash;
use std::marker::Model;

mod changes;
mod dependencies;
mod from_dag;
mod keys;
mod planning;
mod questions;
mod ready;
mod retain;
mod scheduling;
mod setting;
mod topological;

pub use dependencies::Dependency;
pub use from_dag::FromDagError;
pub use keys::{Keys, NeighborKeys};
pub use planning::PlanByKey;
pub use ready::ReadyKeys;
pub use scheduling::ScheduleByKey;
pub use topological::TopologicalKeys;

/// A dag in which each node has a unique key, and whose methods refer to nodes by their keys.
///
/// Nodes also have indices, which stay valid when other nodes are removed: [`dag`](Named::dag)
/// returns the [`StableDag`] inside.
///
/// Methods that look up a key take a `&K` or an equivalent value, like the lookups of `IndexMap`: a
/// `&str` if the keys are `String`s.
///
/// # Complexity
///
/// The key of a node is found in O(1), and the node of a key in O(1) on average. Other methods cost
/// as much as the method of the dag that they call: `add_node`, `add_edge`, `path` or
/// `remove_node`.
///
/// # Examples
///
/// ```
/// let mut plan: Named<&'static str, u32, ()> = Named::new(rt.alloc());
/// let sow = plan.add("sow", 1)?;
/// let reap = plan.add("reap", 2)?;
/// plan.depend("sow", "reap", ())?;
/// assert!(rt; plan.index_of("reap") == Some(reap));
/// assert!(rt; plan.key_of(sow) == Some(&"sow"));
/// assert!(rt; plan.depend("reap", "sow", ()) == Err(DependError::WouldCycle(())));
/// assert!(rt; plan.remove("sow") == Some(("sow", 1)));
/// assert!(rt; plan.index_of("sow").is_none());
/// ```
#[derive(Debug, Drop)]
pub struct Named<K: Eq + Hash, N: Drop, E: Drop, Ix: IndexType = DefaultIx> {
    dag: StableDag<N, E, Ix>,
    // Each key, with its node.
    nodes: IndexMap<K, NodeIndex<Ix>>,
    // By node index, the place in `nodes` of the node's key.
    places: Vec<Option<usize>>,
}

impl<K: Eq + Hash, N: Drop, E: Drop, Ix: IndexType> Model for Named<K, N, E, Ix> {
    ghost use Rattle.daggy_named.specs.Naming.{Naming};
    ghost use Rattle.daggy_named.specs.Places.{keys_at, IsKept};

    ghost Value = { Naming K N E };

    ghost view = { λ d. record {
      graph = d.dag.graph;
      keys = keys_at d.nodes.entries d.places.items;
    } };

    ghost invariant = { λ d.
        IsKept K.eq Ix.number d.dag.graph.nodes d.nodes.entries d.places.items };
}

impl<K: Eq + Hash + Drop, N: Drop, E: Drop, Ix: IndexType> Named<K, N, E, Ix> {
    /// An empty dag. Does not allocate.
    pub fn new(alloc: Global) -> Self
        ensures { result ≡ record { graph = empty; keys = [] } }
    {
        Named {
            dag: StableDag::new(alloc),
            nodes: IndexMap::new(alloc),
            places: Vec::new(alloc),
        }
    }

    /// A shared reference to the dag inside, for all methods that take `&self`. Methods that take
    /// `&mut self`, such as `reaches` and `path`, cannot be called on it; use `paths` of the dag
    /// instead.
    pub fn dag(&self) -> &StableDag<N, E, Ix>
        ensures { result.now.graph ≡ self.now.graph }
    {
        &self.dag
    }

    /// How many nodes there are.
    pub fn node_count(&self) -> usize
        ensures value { result ≡ node_count_of self.now.graph }
        ensures named { IsNamed K.eq self.now }
        ensures dag { IsDag Ix.greatest self.now.graph }
    {
        let _keys = &self.nodes;
        self.dag.node_count()
    }

    /// Whether there are no nodes.
    pub fn is_empty(&self) -> bool
        ensures { IsTrue result ↔ (node_count_of self.now.graph ≡ 0) }
    {
        self.dag.node_count() == 0
    }

    /// The index of the node with this key, or `None` if there is none.
    ///
    /// # Complexity
    ///
    /// O(1) on average: one hash lookup.
    pub fn index_of<Q: Equivalent<K>>(&self, key: Q) -> Option<NodeIndex<Ix>>
        ensures found { option_map Ix.number result ≡ index_by (Q.equivalent key) self.now.keys }
        ensures exists { IfSome result (λ n. HasNode self.now.graph (Ix.number n)) }
    {
        self.nodes.get(key).copied()
    }

    /// The key of a node, or `None` if there is no such node.
    pub fn key_of(&self, n: NodeIndex<Ix>) -> Option<&K>
        ensures { option_copied result ≡ key_at self.now.keys (Ix.number n) }
    {
        let place = (*self.places.get(n.index())?)?;
        let (key, _) = self.nodes.get_index(place)?;
        Some(key)
    }

    /// The weight of the node with this key, or `None` if there is none.
    ///
    /// # Complexity
    ///
    /// O(1) on average: one hash lookup.
    pub fn weight<Q: Equivalent<K>>(&self, key: Q) -> Option<&N>
        ensures { option_copied result ≡ weight_by (Q.equivalent key) self.now }
    {
        self.dag.node_weight(self.index_of(key)?)
    }

    /// Adds a node with a key and a weight, and returns its index.
    ///
    /// # Errors
    ///
    /// Each error holds the key and the weight, and the dag is unchanged.
    ///
    /// - `AddError::Taken` if a node has the key.
    /// - `AddError::Full` if the index type has no index left.
    /// - `AddError::Memory` if an allocation fails.
    ///
    /// # Complexity
    ///
    /// Amortized O(1) on average, like insertion into a hash map.
    pub fn add(&mut self, key: K, weight: N) -> Result<NodeIndex<Ix>, AddError<K, N>>
        ensures taken { (result ≡ Err (refused.Taken key weight))
            ↔ IsSome (index_in K.eq self.old.keys key) }
        ensures full { (result ≡ Err (refused.Full key weight))
            ↔ ((index_in K.eq self.old.keys key ≡ None)
            × (Ix.greatest ≤ node_count_of self.old.graph)) }
        ensures refusal { IfErr result (λ e. (e ≡ refused.Taken key weight)
            ⊎ (e ≡ refused.Full key weight) ⊎ (e ≡ refused.Memory key weight)) }
        ensures added { IfOk result (λ n. (Ix.number n ≡ next_node self.old.graph)
            × (self.new.graph ≡ with_node self.old.graph weight)
            × (self.new.keys
            ≡ with_slot_filled self.old.keys self.old.graph.vacant_nodes (Some key))) }
        ensures unchanged { OnErr result (self.new ≡ self.old) }
    {
        if self.index_of(&key).is_some() {
            return Err(AddError::Taken(key, weight));
        }
        if !self.dag.can_add_node() {
            return Err(AddError::Full(key, weight));
        }
        if make_room(&mut self.nodes, &mut self.places).is_err() {
            return Err(AddError::Memory(key, weight));
        }
        // Called for its contract: the slot of the next node is vacant.
        let _count = self.dag.node_count();
        match self.dag.add_node(weight) {
            Ok(n) => {
                put_name(&mut self.nodes, &mut self.places, key, n);
                Ok(n)
            }
            Err(error) => Err(AddError::Memory(key, error.into_weight())),
        }
    }

    /// Returns the index of the node with this key. If there is no such node, it is added with the
    /// weight; otherwise `key` and `weight` are dropped.
    ///
    /// # Errors
    ///
    /// Each error holds the key and the weight, and the dag is unchanged.
    ///
    /// - `AddError::Full` if the index type has no index left.
    /// - `AddError::Memory` if an allocation fails.
    ///
    /// # Complexity
    ///
    /// The same as [`add`](Named::add).
    ///
    /// # Examples
    ///
    /// ```
    /// let mut plan: Named<&'static str, u32, ()> = Named::new(rt.alloc());
    /// let sow = plan.get_or_add("sow", 1)?;
    /// assert!(rt; plan.get_or_add("sow", 2) == Ok(sow));
    /// // The old weight stays.
    /// assert!(rt; plan.weight("sow") == Some(&1));
    /// ```
    pub fn get_or_add(&mut self, key: K, weight: N) -> Result<NodeIndex<Ix>, AddError<K, N>>
        ensures present { IfSome (index_in K.eq self.old.keys key) (λ n.
            IsOkAnd result (λ r. Ix.number r ≡ n) × (self.new ≡ self.old)) }
        ensures full { (result ≡ Err (refused.Full key weight))
            ↔ ((index_in K.eq self.old.keys key ≡ None)
            × (Ix.greatest ≤ node_count_of self.old.graph)) }
        ensures refusal { IfErr result (λ e.
            (e ≡ refused.Full key weight) ⊎ (e ≡ refused.Memory key weight)) }
        ensures added { index_in K.eq self.old.keys key ≡ None → IfOk result (λ n.
            (Ix.number n ≡ next_node self.old.graph)
            × (self.new.graph ≡ with_node self.old.graph weight)
            × (self.new.keys
            ≡ with_slot_filled self.old.keys self.old.graph.vacant_nodes (Some key))) }
        ensures unchanged { OnErr result (self.new ≡ self.old) }
    {
        if let Some(n) = self.index_of(&key) {
            return Ok(n);
        }
        self.add(key, weight)
    }

    /// Adds an edge from the node with the key `on` to the node with the key `what`, which depends
    /// on it, and returns the index of the edge.
    ///
    /// # Errors
    ///
    /// Each error holds the weight, and the dag is unchanged. The conditions are checked in this
    /// order:
    ///
    /// - `DependError::UnknownDependency` if no node has the key `on`.
    /// - `DependError::UnknownDependent` if no node has the key `what`.
    /// - `DependError::Full` if the index type has no index left.
    /// - `DependError::WouldCycle` if a path leads from `what` to `on`, so that the edge would close
    ///   a cycle. [`cycle`](Named::cycle) returns such a path.
    /// - `DependError::Memory` if an allocation fails.
    ///
    /// # Complexity
    ///
    /// Two hash lookups, plus the cost of `add_edge` of the dag.
    pub fn depend<Q: Equivalent<K>>(
        &mut self,
        on: Q,
        what: Q,
        weight: E,
    ) -> Result<EdgeIndex<Ix>, DependError<E>>
        ensures unknown_dependency { (result ≡ Err (depend.UnknownDependency weight))
            ↔ (index_by (Q.equivalent on) self.old.keys ≡ None) }
        ensures unknown_dependent { (result ≡ Err (depend.UnknownDependent weight))
            ↔ (IsSome (index_by (Q.equivalent on) self.old.keys)
            × (index_by (Q.equivalent what) self.old.keys ≡ None)) }
        ensures full { (result ≡ Err (depend.Full weight))
            ↔ ForNodes (Q.equivalent on) (Q.equivalent what) self.old.keys
            (λ _ _. Ix.greatest ≤ edge_count_of self.old.graph) }
        ensures cycle { (result ≡ Err (depend.WouldCycle weight))
            ↔ ForNodes (Q.equivalent on) (Q.equivalent what) self.old.keys
            (λ u v. (edge_count_of self.old.graph < Ix.greatest) × Reaches self.old.graph v u) }
        ensures refusal { IfErr result (λ e.
            (e ≡ depend.UnknownDependency weight) ⊎ (e ≡ depend.UnknownDependent weight)
            ⊎ (e ≡ depend.Full weight) ⊎ (e ≡ depend.WouldCycle weight)
            ⊎ (e ≡ depend.Memory weight)) }
        ensures added { IfOk result (λ e. (Ix.number e ≡ next_edge self.old.graph)
            × ForNodes (Q.equivalent on) (Q.equivalent what) self.old.keys
            (λ u v. self.new.graph ≡ with_edge self.old.graph u v weight)) }
        ensures keys { self.new.keys ≡ self.old.keys }
        ensures unchanged { OnErr result (self.new ≡ self.old) }
    {
        let Some(parent) = self.index_of(on) else {
            return Err(DependError::UnknownDependency(weight));
        };
        let Some(child) = self.index_of(what) else {
            return Err(DependError::UnknownDependent(weight));
        };
        if !self.dag.can_add_edge() {
            return Err(DependError::Full(weight));
        }
        match self.dag.add_edge(parent, child, weight) {
            Ok(e) => Ok(e),
            Err(error) => Err(refusal(error)),
        }
    }

    /// A shortest path from the node with the key `what` to the node with the key `on`. This path
    /// and the edge that [`depend`](Named::depend) rejects form a cycle. `None` if there is no such
    /// path, or no such node.
    ///
    /// The dag is unchanged; the call needs `&mut self` because it uses the dag's memory for
    /// searches.
    ///
    /// # Errors
    ///
    /// Returns `AllocError` if the memory for the path cannot be allocated.
    ///
    /// # Complexity
    ///
    /// Two hash lookups, plus the cost of `path` of the dag.
    ///
    /// # Examples
    ///
    /// ```
    /// let mut plan: Named<&'static str, u32, ()> = Named::new(rt.alloc());
    /// let sow = plan.add("sow", 1)?;
    /// let reap = plan.add("reap", 2)?;
    /// plan.depend("sow", "reap", ())?;
    /// // The cycle that an edge from `reap` to `sow` would close.
    /// let cycle = plan.cycle("reap", "sow")?;
    /// assert!(rt; cycle.is_some_and(|nodes| nodes.as_slice() == [sow, reap].as_slice()));
    /// ```
    pub fn cycle<Q: Equivalent<K>>(
        &mut self,
        on: Q,
        what: Q,
    ) -> Result<Option<Vec<NodeIndex<Ix>>>, AllocError>
        ensures path { IfOk result (λ found. IfSome found (λ path.
            ForNodes (Q.equivalent on) (Q.equivalent what) self.old.keys (λ u v.
            IsShortestPath self.old.graph v u (map Ix.number path.items)))) }
        ensures none { (result ≡ Ok None) ↔ ¬ ForNodes (Q.equivalent on) (Q.equivalent what) self.old.keys
            (λ u v. Reaches self.old.graph v u) }
        ensures same { self.new ≡ self.old }
    {
        let Some(parent) = self.index_of(on) else {
            return Ok(None);
        };
        let Some(child) = self.index_of(what) else {
            return Ok(None);
        };
        self.dag.path(child, parent)
    }

    /// A mutable reference to the weight of the node with this key, or `None` if there is none.
    ///
    /// # Complexity
    ///
    /// O(1) on average: one hash lookup.
    ///
    /// # Examples
    ///
    /// ```
    /// let mut plan: Named<&'static str, u32, ()> = Named::new(rt.alloc());
    /// plan.add_node("sow", 1)?;
    /// if let Some(weight) = plan.weight_mut("sow") {
    ///     *weight = 7;
    /// }
    /// assert!(rt; plan.weight("sow") == Some(&7));
    /// ```
    pub fn weight_mut<Q: Equivalent<K>>(&mut self, key: Q) -> Option<&mut N>
        ensures* writes_back { sem 𝓛 (lends_weight K.row N.row E.row Ix.row
            K.Hash Ix.IndexType Ix.Clone self.entry (Q.equivalent key) result) }
        ensures value { option_copied_mut result ≡ weight_by (Q.equivalent key) self.old }
    {
        let n = self.index_of(key)?;
        self.dag.node_weight_mut(n)
    }

    /// Removes the node with this key and its edges, and returns its key and its weight, or `None`
    /// if there is no such node.
    ///
    /// No other index changes, and the next node that is added gets the freed index.
    ///
    /// # Complexity
    ///
    /// One hash lookup, plus the cost of `remove_node` of the dag.
    pub fn remove<Q: Equivalent<K>>(&mut self, key: Q) -> Option<(K, N)>
        ensures removed { IfSome (index_by (Q.equivalent key) self.old.keys) (λ n.
            (option_map (λ r. r.0) result ≡ key_at self.old.keys n)
            × (option_map (λ r. r.1) result ≡ node_weight self.old.graph n)
            × (self.new.graph ≡ without_node Stable self.old.graph n)
            × (self.new.keys ≡ slice_set self.old.keys n None)) }
        ensures found { IsSome result ↔ IsSome (index_by (Q.equivalent key) self.old.keys) }
        ensures missing { IfNone result (self.new ≡ self.old) }
    {
        let n = self.index_of(key)?;
        Some(self.remove_at(n))
    }

    // Removes a node and its edges, and returns its key and its weight.
    fn remove_at(&mut self, n: NodeIndex<Ix>) -> (K, N)
        requires { HasNode self.old.graph (Ix.number n) }
        ensures key { key_at self.old.keys (Ix.number n) ≡ Some result.0 }
        ensures weight { node_weight self.old.graph (Ix.number n) ≡ Some result.1 }
        ensures removed { self.new ≡ without_named self.old (Ix.number n) }
    {
        let key = take_name(&mut self.nodes, &mut self.places, n);
        let weight = self.dag.remove_node(n).unwrap();
        (key, weight)
    }
}

// Why a dependency is refused if its edge is.
fn refusal<E>(error: EdgeError<E>) -> DependError<E>
    ensures cycle { (w : E) → error ≡ ByCycle (record { 0 = w }) → result ≡ depend.WouldCycle w }
    ensures memory { (w : E) → error ≡ EdgeMemory w → result ≡ depend.Memory w }
{
    match error {
        EdgeError::WouldCycle(error) => DependError::WouldCycle(error.into_weight()),
        error => DependError::Memory(error.into_weight()),
    }
}

// Makes room for one more name.
fn make_room<K: Eq + Hash, Ix: IndexType>(
    nodes: &mut IndexMap<K, NodeIndex<Ix>>,
    places: &mut Vec<Option<usize>>,
) -> Result<(), AllocError>
    ensures same { IsUnchanged nodes.old nodes.new }
    ensures same_places { places.new.items ≡ places.old.items }
    ensures room { OnOk result (0 < spare nodes.new) }
    ensures place_room { OnOk result (vec_len places.new < vec_capacity places.new) }
{
    nodes.reserve(1)?;
    places.reserve(1)?;
    Ok(())
}

// Enters a key and its node, for which room is reserved.
fn put_name<K: Eq + Hash + Drop, Ix: IndexType>(
    nodes: &mut IndexMap<K, NodeIndex<Ix>>,
    places: &mut Vec<Option<usize>>,
    key: K,
    n: NodeIndex<Ix>,
)
    requires room { 0 < spare nodes.old }
    requires absent { get K.eq nodes.old key ≡ None }
    requires low { Ix.number n ≤ length places.old.items }
    requires place_room { vec_len places.old < vec_capacity places.old }
    ensures entered { nodes.new.entries ≡ nodes.old.entries ++ (key, n) ∷ [] }
    ensures once { IsUnique K.eq nodes.new }
    ensures spare { spare nodes.old ≤ spare nodes.new + 1 }
    ensures capacity { vec_capacity places.new ≡ vec_capacity places.old }
    ensures filled { Ix.number n < length places.old.items → places.new.items
        ≡ slice_set places.old.items (Ix.number n) (Some (index_map_len nodes.old)) }
    ensures pushed { Ix.number n ≡ length places.old.items
        → places.new.items ≡ places.old.items ++ Some (index_map_len nodes.old) ∷ [] }
{
    let place = Some(nodes.len());
    nodes.insert(key, n).unwrap();
    if n.index() < places.len() {
        places[n.index()] = place;
    } else {
        places.push_reserved(place);
    }
}

// Takes the name of a node out. The last name moves into its place.
fn take_name<K: Eq + Hash, Ix: IndexType>(
    nodes: &mut IndexMap<K, NodeIndex<Ix>>,
    places: &mut Vec<Option<usize>>,
    n: NodeIndex<Ix>,
) -> K
    requires kept { IsKept K.eq Ix.number places.old.items nodes.old.entries places.old.items }
    requires there { IsSome (slot places.old.items (Ix.number n)) }
    ensures key { slot (keys_at nodes.old.entries places.old.items) (Ix.number n) ≡ Some result }
    ensures keys { keys_at nodes.new.entries places.new.items
        ≡ slice_set (keys_at nodes.old.entries places.old.items) (Ix.number n) None }
    ensures kept { IsKept K.eq Ix.number (slice_set places.old.items (Ix.number n) None)
        nodes.new.entries places.new.items }
{
    let place = places[n.index()].unwrap();
    places[n.index()] = None;
    let (key, _) = nodes.swap_remove_index(place).unwrap();
    match nodes.get_index(place) {
        Some((_, moved)) => {
            let moved = moved.index();
            places[moved] = Some(place);
            key
        }
        None => key,
    }
}
