//! The dependencies of a node, set all at once.
ghost use Rattle.std.specs.Prelude.{◌≡◌, ◌≢◌, ℕ, ◌+◌, ◌<◌, ◌≤◌, ◌↔◌, ◌⊎◌, [], Some, None, IsTrue, IsSome};
ghost use Rattle.std.specs.Prelude.{IfOk, OnOk, IfErr, OnErr, length, map, zip, reverse, vec_len};
ghost use Rattle.std.specs.Prelude.{vec_capacity, is_none};
ghost use Rattle.std.specs.List.{All};
ghost use Rattle.daggy_base.specs.Errors.{parents_items_of};
ghost use Rattle.daggy_base.specs.Graph.{HasNode, edge_count as edge_count_of};
ghost use Rattle.daggy_base.specs.Path.{Reaches};
ghost use Rattle.daggy_base.specs.declared.kind.Kind.TheVariants.{Stable};
ghost use Rattle.daggy_guard.specs.Parents.{edges_to, entering, HasParentsSet};
ghost use Rattle.daggy_guard.specs.Parents.{KeepsOtherEdges, ReachesParent};
ghost use Rattle.daggy_named.specs.Asked.{ForNode};
ghost use Rattle.daggy_named.specs.Dependencies.{cause_of, items_of, IsRefusedFor, IsOfDag};
ghost use Rattle.daggy_named.specs.Dependencies.{unknown_dependent, unknown_dependency};
ghost use Rattle.daggy_named.specs.Dependencies.{would_cycle, full, dag_cause_of};
ghost use Rattle.daggy_named.specs.Dependencies.{first_unknown, parents_by, ForParents};
ghost use Rattle.daggy_named.specs.Naming.{index_by};

use crate::error::DependenciesError;
use crate::named::Named;
use daggy_base::error::{ParentsError, WouldCycle};
use daggy_base::index::{EdgeIndex, IndexType, NodeIndex};
use indexmap::Equivalent;
use std::alloc::{AllocError, Global};
use std::hash::Hash;

// What is allocated before the items are taken apart.
#[derive(Drop)]
struct Room<Q, E, Ix: IndexType> {
    // The key of each item, and its node.
    keys: Vec<Q>,
    nodes: Vec<NodeIndex<Ix>>,
    // Empty, with room for all items.
    parents: Vec<(NodeIndex<Ix>, E)>,
}

// The first of each pair.
fn firsts_of<A: Copy, B>(alloc: Global, pairs: &[(A, B)]) -> Result<Vec<A>, AllocError>
    ensures { IfOk result (λ firsts. firsts.items ≡ map (λ x. x.0) pairs.now) }
{
    pairs.iter().map(|x| x.0).collect(alloc)
}

// Moves the second of each pair of `from` to `to`, beside the first ones that are given.
fn pair_up<A: Copy, B, C: Drop>(firsts: &[A], from: &mut Vec<(C, B)>, to: &mut Vec<(A, B)>)
    requires empty { to.old.items ≡ [] }
    requires as_many { length firsts.now ≡ vec_len from.old }
    requires room { vec_len from.old ≤ vec_capacity to.old }
    ensures paired { to.new.items ≡ zip firsts.now (map (λ x. x.1) from.old.items) }
    ensures taken { from.new.items ≡ [] }
    ensures capacity { vec_capacity from.new ≡ vec_capacity from.old }
{
    from.reverse();
    'pairs: while let Some((_, second)) = from.pop() {
        let i = to.len();
        to.push_reserved((firsts[i], second));
    }
}

// The items again, with the keys that they had before, in `items`, which is empty.
fn put_back<Q: Copy, E: Drop, Ix: IndexType>(
    parents: Vec<(NodeIndex<Ix>, E)>,
    keys: &[Q],
    mut items: Vec<(Q, E)>,
) -> Vec<(Q, E)>
    requires empty { items.items ≡ [] }
    requires as_many { length keys.now ≡ vec_len parents }
    requires room { vec_len parents ≤ vec_capacity items }
    ensures { result.items ≡ zip keys.now (map (λ x. x.1) parents.items) }
{
    let mut parents = parents;
    pair_up(keys, &mut parents, &mut items);
    items
}

// Why the dependencies are not set if the dag does not set the parents, with the items again.
fn refusal<Q: Copy, E: Drop, Ix: IndexType>(
    error: ParentsError<E, Ix>,
    keys: &[Q],
    items: Vec<(Q, E)>,
) -> DependenciesError<Q, E>
    requires empty { items.items ≡ [] }
    requires as_many { length keys.now ≡ vec_len (parents_items_of error) }
    requires room { vec_len (parents_items_of error) ≤ vec_capacity items }
    ensures cause { cause_of result ≡ dag_cause_of error }
    ensures returned { items_of result
        ≡ zip keys.now (map (λ x. x.1) (parents_items_of error).items) }
{
    match error {
        ParentsError::WouldCycle(WouldCycle(parents)) => {
            DependenciesError::WouldCycle(put_back(parents, keys, items))
        }
        ParentsError::Full(parents) => DependenciesError::Full(put_back(parents, keys, items)),
        ParentsError::Memory(parents) => DependenciesError::Memory(put_back(parents, keys, items)),
    }
}

impl<K: Eq + Hash + Drop, N: Drop, E: Drop, Ix: IndexType> Named<K, N, E, Ix> {
    // Whether no node has this key.
    fn lacks<Q: Equivalent<K>>(&self, key: Q) -> bool
        ensures { result ≡ is_none (index_by (Q.equivalent key) self.now.keys) }
    {
        self.index_of(key).is_none()
    }

    // The place of the first item whose key no node has.
    fn find_unknown<Q: Equivalent<K>>(&self, items: &[(Q, E)]) -> Option<usize>
        ensures { result ≡ first_unknown Q.equivalent self.now.keys items.now }
    {
        items.iter().position(|x| self.lacks(x.0))
    }

    // The node of each item.
    fn nodes_of<Q: Equivalent<K>>(&self, items: &[(Q, E)]) -> Result<Vec<NodeIndex<Ix>>, AllocError>
        requires { first_unknown Q.equivalent self.now.keys items.now ≡ None }
        ensures named { IfOk result (λ nodes.
            map (λ x. index_by (Q.equivalent x.0) self.now.keys) items.now
            ≡ map Some (map Ix.number nodes.items)) }
        ensures exist { IfOk result
            (λ nodes. All (λ n. HasNode self.now.graph (Ix.number n)) nodes.items) }
    {
        let mut nodes = Vec::with_capacity(self.dag.allocator(), items.len())?;
        'items: for i in 0..items.len() {
            nodes.push(self.index_of(items[i].0).unwrap())?;
        }
        Ok(nodes)
    }

    fn room_for<Q: Equivalent<K>>(&self, items: &[(Q, E)]) -> Result<Room<Q, E, Ix>, AllocError>
        requires { first_unknown Q.equivalent self.now.keys items.now ≡ None }
        ensures keys { IfOk result (λ r. r.keys.items ≡ map (λ x. x.0) items.now) }
        ensures named { IfOk result (λ r.
            map (λ x. index_by (Q.equivalent x.0) self.now.keys) items.now
            ≡ map Some (map Ix.number r.nodes.items)) }
        ensures exist { IfOk result
            (λ r. All (λ n. HasNode self.now.graph (Ix.number n)) r.nodes.items) }
        ensures empty { IfOk result (λ r. r.parents.items ≡ []) }
        ensures room { IfOk result (λ r. length items.now ≤ vec_capacity r.parents) }
    {
        let alloc = self.dag.allocator();
        let keys = firsts_of(alloc, items)?;
        let nodes = self.nodes_of(items)?;
        let parents = Vec::with_capacity(alloc, items.len())?;
        Ok(Room {
            keys,
            nodes,
            parents,
        })
    }

    // Whether a node reaches the one with this key.
    fn reaches_key<Q: Equivalent<K>>(&mut self, n: NodeIndex<Ix>, key: Q) -> bool
        ensures decided { IsTrue result ↔ ForNode (Q.equivalent key) self.old.keys
            (λ m. Reaches self.old.graph (Ix.number n) m) }
        ensures same { self.new ≡ self.old }
    {
        let Some(m) = self.index_of(key) else {
            return false;
        };
        self.dag.reaches(n, m)
    }

    // Whether a node reaches one of those that the items name.
    fn reaches_one<Q: Equivalent<K>>(&mut self, n: NodeIndex<Ix>, items: &[(Q, E)]) -> bool
        ensures decided { IsTrue result ↔ ReachesParent (λ u. u) self.old.graph (Ix.number n)
            (parents_by Q.equivalent self.old.keys items.now) }
        ensures same { self.new ≡ self.old }
    {
        'items: for i in 0..items.len() {
            if self.reaches_key(n, items[i].0) {
                return true;
            }
        }
        false
    }

    // Whether the index type has indices left for `count` more edges.
    fn can_add_edges(&self, count: usize) -> bool
        ensures { IsTrue result ↔ (edge_count_of self.now.graph + count ≤ Ix.greatest) }
    {
        // Called only for its contract: the graph is well formed.
        let _count = self.node_count();
        count <= EdgeIndex::<Ix>::end().index() - self.dag.edge_count()
    }

    // Why the dependencies are not set if there is no room to ask the dag.
    fn refusal_without_room<Q: Equivalent<K>>(
        &mut self,
        n: NodeIndex<Ix>,
        items: Vec<(Q, E)>,
    ) -> DependenciesError<Q, E>
        ensures cycle { (cause_of result ≡ would_cycle)
            ↔ ReachesParent (λ u. u) self.old.graph (Ix.number n)
            (parents_by Q.equivalent self.old.keys items.items) }
        ensures full { (cause_of result ≡ full)
            ↔ ((¬ ReachesParent (λ u. u) self.old.graph (Ix.number n)
            (parents_by Q.equivalent self.old.keys items.items))
            × (Ix.greatest < edge_count_of self.old.graph + vec_len items)) }
        ensures one { IsOfDag (cause_of result) }
        ensures returned { items_of result ≡ items.items }
        ensures same { self.new ≡ self.old }
    {
        if self.reaches_one(n, items.as_slice()) {
            return DependenciesError::WouldCycle(items);
        }
        if !self.can_add_edges(items.len()) {
            return DependenciesError::Full(items);
        }
        DependenciesError::Memory(items)
    }

    // Sets the dependencies of a node to the nodes of the items.
    fn set_in<Q: Equivalent<K>>(
        &mut self,
        n: NodeIndex<Ix>,
        mut items: Vec<(Q, E)>,
        room: Room<Q, E, Ix>,
    ) -> Result<(), DependenciesError<Q, E>>
        requires node { HasNode self.old.graph (Ix.number n) }
        requires keys { room.keys.items ≡ map (λ x. x.0) items.items }
        requires named { map (λ x. index_by (Q.equivalent x.0) self.old.keys) items.items
            ≡ map Some (map Ix.number room.nodes.items) }
        requires exist { All (λ n. HasNode self.old.graph (Ix.number n)) room.nodes.items }
        requires empty { room.parents.items ≡ [] }
        requires room { vec_len items ≤ vec_capacity room.parents }
        ensures cycle { IsRefusedFor would_cycle result
            ↔ ReachesParent (λ u. u) self.old.graph (Ix.number n)
            (parents_by Q.equivalent self.old.keys items.items) }
        ensures full { IsRefusedFor full result
            ↔ ((¬ ReachesParent (λ u. u) self.old.graph (Ix.number n)
            (parents_by Q.equivalent self.old.keys items.items))
            × (Ix.greatest < edge_count_of self.old.graph + vec_len items)) }
        ensures one { IfErr result (λ e. IsOfDag (cause_of e)) }
        ensures returned { IfErr result (λ e. items_of e ≡ items.items) }
        ensures set { OnOk result (HasParentsSet Stable (Ix.number n) (edges_to (λ u. u) (Ix.number n)
            (parents_by Q.equivalent self.old.keys items.items)) self.old.graph self.new.graph) }
        ensures parents { OnOk result (entering self.new.graph (Ix.number n)
            ≡ reverse (parents_by Q.equivalent self.old.keys items.items)) }
        ensures others { OnOk result ((m : ℕ) → m ≢ Ix.number n
            → entering self.new.graph m ≡ entering self.old.graph m) }
        ensures keeps { OnOk result (KeepsOtherEdges (Ix.number n) self.old.graph self.new.graph) }
        ensures nodes { self.new.graph.nodes ≡ self.old.graph.nodes }
        ensures keys { self.new.keys ≡ self.old.keys }
        ensures unchanged { OnErr result (self.new ≡ self.old) }
    {
        let Room {
            keys,
            nodes,
            mut parents,
        } = room;
        pair_up(nodes.as_slice(), &mut items, &mut parents);
        let Err(error) = self.dag.set_parents(n, parents) else {
            return Ok(());
        };
        Err(refusal(error, keys.as_slice(), items))
    }

    // The same, with the memory that it needs.
    fn set_known<Q: Equivalent<K>>(
        &mut self,
        n: NodeIndex<Ix>,
        items: Vec<(Q, E)>,
    ) -> Result<(), DependenciesError<Q, E>>
        requires node { HasNode self.old.graph (Ix.number n) }
        requires known { first_unknown Q.equivalent self.old.keys items.items ≡ None }
        ensures cycle { IsRefusedFor would_cycle result
            ↔ ReachesParent (λ u. u) self.old.graph (Ix.number n)
            (parents_by Q.equivalent self.old.keys items.items) }
        ensures full { IsRefusedFor full result
            ↔ ((¬ ReachesParent (λ u. u) self.old.graph (Ix.number n)
            (parents_by Q.equivalent self.old.keys items.items))
            × (Ix.greatest < edge_count_of self.old.graph + vec_len items)) }
        ensures one { IfErr result (λ e. IsOfDag (cause_of e)) }
        ensures returned { IfErr result (λ e. items_of e ≡ items.items) }
        ensures set { OnOk result (HasParentsSet Stable (Ix.number n) (edges_to (λ u. u) (Ix.number n)
            (parents_by Q.equivalent self.old.keys items.items)) self.old.graph self.new.graph) }
        ensures parents { OnOk result (entering self.new.graph (Ix.number n)
            ≡ reverse (parents_by Q.equivalent self.old.keys items.items)) }
        ensures others { OnOk result ((m : ℕ) → m ≢ Ix.number n
            → entering self.new.graph m ≡ entering self.old.graph m) }
        ensures keeps { OnOk result (KeepsOtherEdges (Ix.number n) self.old.graph self.new.graph) }
        ensures nodes { self.new.graph.nodes ≡ self.old.graph.nodes }
        ensures keys { self.new.keys ≡ self.old.keys }
        ensures unchanged { OnErr result (self.new ≡ self.old) }
    {
        let Ok(room) = self.room_for(items.as_slice()) else {
            return Err(self.refusal_without_room(n, items));
        };
        self.set_in(n, items, room)
    }

    /// Replaces all dependencies of the node with this key, or none: afterwards, for each item, one
    /// edge with the item's weight enters the node, from the node with the item's key. The new
    /// edges are added in the order of the items; then the old edges are removed, as by
    /// [`set_parents`](daggy_dag::acyclic::Acyclic::set_parents) of the dag, and their weights are
    /// dropped. The indices of other edges do not change.
    ///
    /// A key may occur more than once, which adds parallel edges. Without items, the node depends
    /// on nothing afterwards.
    ///
    /// # Errors
    ///
    /// Each error holds the items, in the same order, and the dag is unchanged. The conditions are
    /// checked in this order:
    ///
    /// - `DependenciesError::UnknownDependent` if no node has the key.
    /// - `DependenciesError::UnknownDependency` with the position, counted from 0, of the first
    ///   item whose key belongs to no node.
    /// - `DependenciesError::WouldCycle` if the node is one of the nodes to depend on, or a path
    ///   leads from it to one of them, so that an edge would close a cycle.
    /// - `DependenciesError::Full` if there are too few indices for the new edges in addition to all
    ///   old edges.
    /// - `DependenciesError::Memory` if an allocation fails.
    ///
    /// # Complexity
    ///
    /// One hash lookup for the key and two for each item, plus the cost of `set_parents` of the
    /// dag. If allocating the lists of nodes and edges fails, one search for each item instead.
    ///
    /// # Examples
    ///
    /// ```
    /// let mut plan: Named<&'static str, u32, u32> = Named::new(rt.alloc());
    /// plan.add_node("sow", 1)?;
    /// plan.add_node("hoe", 2)?;
    /// plan.add_node("reap", 3)?;
    /// plan.add_dependency(Dependency { dependent: "reap", on: "sow" }, 90)?;
    /// let needs = vec![in rt.alloc(); ("hoe", 60)]?;
    /// plan.set_dependencies("reap", needs)?;
    /// assert!(rt; plan.reaches("hoe", "reap")?);
    /// assert!(rt; !plan.reaches("sow", "reap")?);
    /// // Refused as a whole: `hoe` would need itself.
    /// let needs = vec![in rt.alloc(); ("sow", 30), ("reap", 5)]?;
    /// let result = plan.set_dependencies("hoe", needs);
    /// let items = result.err().map(|error| error.into_items());
    /// assert!(rt; items.is_some_and(|items| items.len() == 2));
    /// assert!(rt; !plan.reaches("sow", "hoe")?);
    /// ```
    pub fn set_dependencies<Q: Equivalent<K>>(
        &mut self,
        key: Q,
        items: Vec<(Q, E)>,
    ) -> Result<(), DependenciesError<Q, E>>
        ensures unknown_dependent { IsRefusedFor unknown_dependent result
            ↔ (index_by (Q.equivalent key) self.old.keys ≡ None) }
        ensures unknown_dependency { (place : ℕ) → IsRefusedFor (unknown_dependency place) result
            ↔ (IsSome (index_by (Q.equivalent key) self.old.keys)
            × (first_unknown Q.equivalent self.old.keys items.items ≡ Some place)) }
        ensures cycle { IsRefusedFor would_cycle result
            ↔ ForParents Q.equivalent self.old.keys (Q.equivalent key) items.items
            (λ n parents. ReachesParent (λ u. u) self.old.graph n parents) }
        ensures full { IsRefusedFor full result
            ↔ ForParents Q.equivalent self.old.keys (Q.equivalent key) items.items
            (λ n parents. (¬ ReachesParent (λ u. u) self.old.graph n parents)
            × (Ix.greatest < edge_count_of self.old.graph + vec_len items)) }
        ensures returned { IfErr result (λ e. items_of e ≡ items.items) }
        ensures set { OnOk result
            (ForParents Q.equivalent self.old.keys (Q.equivalent key) items.items (λ n parents.
            HasParentsSet Stable n (edges_to (λ u. u) n parents) self.old.graph self.new.graph)) }
        ensures parents { OnOk result
            (ForParents Q.equivalent self.old.keys (Q.equivalent key) items.items
            (λ n parents. entering self.new.graph n ≡ reverse parents)) }
        ensures others { OnOk result (ForNode (Q.equivalent key) self.old.keys (λ n. (m : ℕ)
            → m ≢ n → entering self.new.graph m ≡ entering self.old.graph m)) }
        ensures keeps { OnOk result (ForNode (Q.equivalent key) self.old.keys
            (λ n. KeepsOtherEdges n self.old.graph self.new.graph)) }
        ensures nodes { self.new.graph.nodes ≡ self.old.graph.nodes }
        ensures keys { self.new.keys ≡ self.old.keys }
        ensures unchanged { OnErr result (self.new ≡ self.old) }
    {
        let Some(n) = self.index_of(key) else {
            return Err(DependenciesError::UnknownDependent(items));
        };
        if let Some(place) = self.find_unknown(items.as_slice()) {
            return Err(DependenciesError::UnknownDependency(place, items));
        }
        self.set_known(n, items)
    }
}
