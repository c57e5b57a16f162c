//! Iterators over keys.
ghost use Rattle.std.specs.Prelude.{◌≡◌, ◌<◌, ◌^◌, ◌↔◌, Some, IsSome, IfSome, map, length};
ghost use Rattle.std.specs.Iterator.{YieldsFirstBy, item_count};
ghost use Rattle.daggy_base.specs.Iterating.{node_identifiers, neighbors_at};
ghost use Rattle.daggy_base.specs.declared.index.Direction.TheVariants.{Outgoing, Incoming};
ghost use Rattle.daggy_named.specs.Naming.{key_at, index_by};
ghost use Rattle.daggy_named.specs.Asked.{ForNode};

use crate::named::Named;
use daggy_base::index::{DefaultIx, Direction, IndexType, NodeIndex};
use daggy_stable::stable_graph::iterators::NodeIdentifiers;
use daggy_stable::stable_graph::lists::Neighbors;
use indexmap::Equivalent;
use std::fmt;
use std::hash::Hash;
use std::iter::FusedIterator;
use std::marker::Model;

/// The keys of all nodes, in ascending index order.
///
/// # Complexity
///
/// O(node slots, occupied or vacant) for the whole iteration.
///
/// # Examples
///
/// ```
/// let mut plan: Named<&'static str, u32, ()> = Named::new(rt.alloc());
/// plan.add_node("sow", 1)?;
/// plan.add_node("reap", 2)?;
/// let mut keys = plan.keys();
/// assert!(rt; keys.next() == Some(&"sow"));
/// assert!(rt; keys.next() == Some(&"reap"));
/// assert!(rt; keys.next().is_none());
/// ```
#[derive(Drop)]
pub struct Keys<'a, K: Eq + Hash, N: Drop, E: Drop, Ix: IndexType = DefaultIx> {
    named: &'a Named<K, N, E, Ix>,
    nodes: NodeIdentifiers<'a, N, Ix>,
}

impl<'a, K: Eq + Hash, N: Drop, E: Drop, Ix: IndexType> Model for Keys<'a, K, N, E, Ix> {
    ghost use Rattle.std.specs.Prelude.{List, Option, IsSome, map};
    ghost use Rattle.std.specs.List.{All};
    ghost use Rattle.daggy_named.specs.Naming.{key_at};

    ghost Value = { List (Option K) };

    ghost view = { λ it. map (key_at it.named.now.keys) it.nodes };

    ghost invariant = { λ it. All (λ n. IsSome (key_at it.named.now.keys n)) it.nodes };
}

impl<'a, K: Eq + Hash + Drop, N: Drop, E: Drop, Ix: IndexType> Iterator for Keys<'a, K, N, E, Ix> {
    type Item = &'a K;

    ghost next_gives = { YieldsFirstBy (λ key. Some key.now) (λ rest. rest) };

    ghost remaining = { item_count (λ rest. rest) };

    fn next(&mut self) -> Option<&'a K> {
        let n = self.nodes.next()?;
        Some(self.named.key_of(n).unwrap())
    }

    fn size_hint(&self) -> (usize, Option<usize>) {
        self.nodes.size_hint()
    }
}

impl<'a, K: Eq + Hash + Drop, N: Drop, E: Drop, Ix: IndexType> FusedIterator
    for Keys<'a, K, N, E, Ix> {}

impl<'a, K: Eq + Hash, N: Drop, E: Drop, Ix: IndexType> fmt::Debug for Keys<'a, K, N, E, Ix> {
    fn fmt<W: fmt::Write>(&self, f: &mut fmt::Formatter<W>) -> fmt::Result {
        f.debug_struct("Keys").finish_non_exhaustive()
    }
}

/// The keys of the nodes that a node depends on directly, or of the nodes that depend on it
/// directly, one for each edge, newest first.
///
/// # Examples
///
/// ```
/// let mut plan: Named<&'static str, u32, ()> = Named::new(rt.alloc());
/// plan.add_node("sow", 1)?;
/// plan.add_node("water", 1)?;
/// plan.add_node("reap", 2)?;
/// plan.add_dependency(Dependency { dependent: "reap", on: "sow" }, ())?;
/// plan.add_dependency(Dependency { dependent: "reap", on: "water" }, ())?;
/// if let Some(mut needs) = plan.dependencies("reap") {
///     assert!(rt; needs.next() == Some(&"water"));
///     assert!(rt; needs.next() == Some(&"sow"));
/// }
/// ```
#[derive(Drop)]
pub struct NeighborKeys<'a, K: Eq + Hash, N: Drop, E: Drop, Ix: IndexType = DefaultIx> {
    named: &'a Named<K, N, E, Ix>,
    nodes: Neighbors<'a, E, Ix>,
}

impl<'a, K: Eq + Hash, N: Drop, E: Drop, Ix: IndexType> Model for NeighborKeys<'a, K, N, E, Ix> {
    ghost use Rattle.std.specs.Prelude.{List, Option, IsSome, map};
    ghost use Rattle.std.specs.List.{All};
    ghost use Rattle.daggy_named.specs.Naming.{key_at};

    ghost Value = { List (Option K) };

    ghost view = { λ it. map (key_at it.named.now.keys) it.nodes };

    ghost invariant = { λ it. All (λ n. IsSome (key_at it.named.now.keys n)) it.nodes };
}

impl<'a, K: Eq + Hash + Drop, N: Drop, E: Drop, Ix: IndexType> Iterator
    for NeighborKeys<'a, K, N, E, Ix> {
    type Item = &'a K;

    ghost next_gives = { YieldsFirstBy (λ key. Some key.now) (λ rest. rest) };

    ghost remaining = { item_count (λ rest. rest) };

    fn next(&mut self) -> Option<&'a K> {
        let n = self.nodes.next()?;
        Some(self.named.key_of(n).unwrap())
    }

    fn size_hint(&self) -> (usize, Option<usize>) {
        (0, None)
    }
}

impl<'a, K: Eq + Hash + Drop, N: Drop, E: Drop, Ix: IndexType> FusedIterator
    for NeighborKeys<'a, K, N, E, Ix> {}

impl<'a, K: Eq + Hash, N: Drop, E: Drop, Ix: IndexType> fmt::Debug
    for NeighborKeys<'a, K, N, E, Ix> {
    fn fmt<W: fmt::Write>(&self, f: &mut fmt::Formatter<W>) -> fmt::Result {
        f.debug_struct("NeighborKeys").finish_non_exhaustive()
    }
}

impl<K: Eq + Hash + Drop, N: Drop, E: Drop, Ix: IndexType> Named<K, N, E, Ix> {
    /// The keys of all nodes, in ascending index order.
    ///
    /// # Complexity
    ///
    /// O(node slots, occupied or vacant) for the whole iteration.
    ///
    /// # Examples
    ///
    /// ```
    /// let mut plan: Named<&'static str, u32, ()> = Named::new(rt.alloc());
    /// plan.add_node("sow", 1)?;
    /// plan.add_node("reap", 2)?;
    /// let keys: Vec<_> = plan.keys().collect(rt.alloc())?;
    /// assert!(rt; keys.as_slice() == [&"sow", &"reap"].as_slice());
    /// ```
    pub fn keys(&self) -> Keys<'_, K, N, E, Ix>
        ensures rest { result ≡ map (key_at self.now.keys) (node_identifiers self.now.graph) }
        ensures fits { length result < 2 ^ 64 }
    {
        // Called only for its contract: each node has a key.
        let _count = self.node_count();
        Keys {
            named: self,
            nodes: self.dag.node_identifiers(),
        }
    }

    /// The keys of the nodes that the node with this key depends on directly: its parents, one for
    /// each edge, newest first. `None` if there is no such node.
    ///
    /// # Complexity
    ///
    /// One hash lookup, plus O(parents) for the whole iteration.
    ///
    /// # Examples
    ///
    /// ```
    /// let mut plan: Named<&'static str, u32, ()> = Named::new(rt.alloc());
    /// plan.add_node("sow", 1)?;
    /// plan.add_node("reap", 2)?;
    /// plan.add_dependency(Dependency { dependent: "reap", on: "sow" }, ())?;
    /// let needs = plan.dependencies("reap");
    /// assert!(rt; needs.is_some_and(|keys| keys.count() == 1));
    /// ```
    pub fn dependencies<Q: Equivalent<K>>(&self, key: Q) -> Option<NeighborKeys<'_, K, N, E, Ix>>
        ensures rest { IfSome result (λ rest. ForNode (Q.equivalent key) self.now.keys (λ n.
            rest ≡ map (key_at self.now.keys) (neighbors_at Incoming self.now.graph n))) }
        ensures fits { IfSome result (λ rest. length rest < 2 ^ 64) }
        ensures found { IsSome result ↔ IsSome (index_by (Q.equivalent key) self.now.keys) }
    {
        let n = self.index_of(key)?;
        Some(self.neighbors(n, Direction::Incoming))
    }

    /// The keys of the nodes that depend directly on the node with this key: its children, one for
    /// each edge, newest first. `None` if there is no such node.
    ///
    /// # Complexity
    ///
    /// One hash lookup, plus O(children) for the whole iteration.
    ///
    /// # Examples
    ///
    /// ```
    /// let mut plan: Named<&'static str, u32, ()> = Named::new(rt.alloc());
    /// plan.add_node("sow", 1)?;
    /// plan.add_node("reap", 2)?;
    /// plan.add_dependency(Dependency { dependent: "reap", on: "sow" }, ())?;
    /// let later = plan.dependents("sow").and_then(|mut keys| keys.next());
    /// assert!(rt; later == Some(&"reap"));
    /// ```
    pub fn dependents<Q: Equivalent<K>>(&self, key: Q) -> Option<NeighborKeys<'_, K, N, E, Ix>>
        ensures rest { IfSome result (λ rest. ForNode (Q.equivalent key) self.now.keys (λ n.
            rest ≡ map (key_at self.now.keys) (neighbors_at Outgoing self.now.graph n))) }
        ensures fits { IfSome result (λ rest. length rest < 2 ^ 64) }
        ensures found { IsSome result ↔ IsSome (index_by (Q.equivalent key) self.now.keys) }
    {
        let n = self.index_of(key)?;
        Some(self.neighbors(n, Direction::Outgoing))
    }

    // The keys of the neighbors of a node.
    fn neighbors(&self, n: NodeIndex<Ix>, dir: Direction) -> NeighborKeys<'_, K, N, E, Ix>
        ensures rest { result
            ≡ map (key_at self.now.keys) (neighbors_at dir self.now.graph (Ix.number n)) }
        ensures fits { length result < 2 ^ 64 }
    {
        // Called only for its contract: each node has a key.
        let _count = self.node_count();
        NeighborKeys {
            named: self,
            nodes: self.dag.neighbors_directed(n, dir),
        }
    }
}
