//! The keys of all nodes in topological order.
ghost use Rattle.std.specs.Prelude.{◌≡◌, ℕ, ◌<◌, ◌^◌, List, Some, map, length};
ghost use Rattle.std.specs.Iterator.{YieldsFirstBy, YieldsLastBy, item_count};
ghost use Rattle.daggy_base.specs.Ordered.{IsOrderOf};
ghost use Rattle.daggy_named.specs.Naming.{key_at};

use crate::named::Named;
use daggy_base::index::{DefaultIx, IndexType};
use daggy_dag::acyclic::TopologicalOrder;
use std::fmt;
use std::hash::Hash;
use std::iter::{DoubleEndedIterator, FusedIterator};
use std::marker::Model;

/// The keys of all nodes in topological order: each key comes after the keys of the nodes that its
/// node depends on. It is double-ended: `.rev()` yields dependents first. Returned by
/// [`topological_keys`](Named::topological_keys).
///
/// # Complexity
///
/// O(nodes) for the whole iteration.
#[derive(Drop)]
pub struct TopologicalKeys<'a, K: Eq + Hash, N: Drop, E: Drop, Ix: IndexType = DefaultIx> {
    named: &'a Named<K, N, E, Ix>,
    nodes: TopologicalOrder<'a, Ix>,
}

impl<'a, K: Eq + Hash, N: Drop, E: Drop, Ix: IndexType> Model for TopologicalKeys<'a, K, N, E, Ix> {
    ghost use Rattle.std.specs.Prelude.{List, Option, IsSome, map};
    ghost use Rattle.std.specs.List.{All};
    ghost use Rattle.daggy_named.specs.Naming.{key_at};

    ghost Value = { List (Option K) };

    ghost view = { λ it. map (key_at it.named.now.keys) it.nodes };

    ghost invariant = { λ it. All (λ n. IsSome (key_at it.named.now.keys n)) it.nodes };
}

impl<'a, K: Eq + Hash + Drop, N: Drop, E: Drop, Ix: IndexType> Iterator
    for TopologicalKeys<'a, K, N, E, Ix> {
    type Item = &'a K;

    ghost next_gives = { YieldsFirstBy (λ key. Some key.now) (λ rest. rest) };

    ghost remaining = { item_count (λ rest. rest) };

    fn next(&mut self) -> Option<&'a K> {
        let n = self.nodes.next()?;
        Some(self.named.key_of(n).unwrap())
    }

    fn size_hint(&self) -> (usize, Option<usize>) {
        self.nodes.size_hint()
    }
}

impl<'a, K: Eq + Hash + Drop, N: Drop, E: Drop, Ix: IndexType> DoubleEndedIterator
    for TopologicalKeys<'a, K, N, E, Ix> {
    ghost next_back_gives = { YieldsLastBy (λ key. Some key.now) (λ rest. rest) };

    fn next_back(&mut self) -> Option<&'a K> {
        let n = self.nodes.next_back()?;
        Some(self.named.key_of(n).unwrap())
    }
}

impl<'a, K: Eq + Hash + Drop, N: Drop, E: Drop, Ix: IndexType> FusedIterator
    for TopologicalKeys<'a, K, N, E, Ix> {}

impl<'a, K: Eq + Hash, N: Drop, E: Drop, Ix: IndexType> fmt::Debug
    for TopologicalKeys<'a, K, N, E, Ix> {
    fn fmt<W: fmt::Write>(&self, f: &mut fmt::Formatter<W>) -> fmt::Result {
        f.debug_struct("TopologicalKeys").finish_non_exhaustive()
    }
}

impl<K: Eq + Hash + Drop, N: Drop, E: Drop, Ix: IndexType> Named<K, N, E, Ix> {
    /// The keys of all nodes in topological order: each key comes after the keys of the nodes that
    /// its node depends on. It is the order that the dag maintains, so nothing is searched or
    /// sorted, and adding a node or a dependency may change it. It is double-ended: `.rev()` yields
    /// what depends on a node before the node.
    ///
    /// # Complexity
    ///
    /// O(nodes) for the whole iteration.
    ///
    /// # Examples
    ///
    /// ```
    /// let mut plan: Named<&'static str, u32, ()> = Named::new(rt.alloc());
    /// plan.add_node("reap", 2)?;
    /// plan.add_node("sow", 1)?;
    /// plan.add_dependency(Dependency { dependent: "reap", on: "sow" }, ())?;
    /// let keys: Vec<_> = plan.topological_keys().collect(rt.alloc())?;
    /// assert!(rt; keys.as_slice() == [&"sow", &"reap"].as_slice());
    /// let back: Vec<_> = plan.topological_keys().rev().collect(rt.alloc())?;
    /// assert!(rt; back.as_slice() == [&"reap", &"sow"].as_slice());
    /// ```
    pub fn topological_keys(&self) -> TopologicalKeys<'_, K, N, E, Ix>
        ensures ordered { (order : List ℕ) × IsOrderOf self.now.graph order
            × (result ≡ map (key_at self.now.keys) order) }
        ensures fits { length result < 2 ^ 64 }
    {
        // Called only for its contract: each node has a key.
        let _count = self.node_count();
        TopologicalKeys {
            named: self,
            nodes: self.dag.topological_order(),
        }
    }
}
