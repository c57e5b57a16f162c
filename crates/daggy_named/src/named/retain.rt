//! Keeping only the nodes that a closure chooses.
ghost use Rattle.std.specs.Prelude.{◌≡◌, ℕ, IsSome};
ghost use Rattle.daggy_base.specs.Removal.{KeepsIndices};
ghost use Rattle.daggy_named.specs.Naming.{key_at};
ghost use Rattle.daggy_named.specs.Retained.{CanAskKeys, RetainsKeys};

use crate::named::Named;
use daggy_base::index::{IndexType, NodeIndex};
use std::hash::Hash;

impl<K: Eq + Hash + Drop, N: Drop, E: Drop, Ix: IndexType> Named<K, N, E, Ix> {
    /// Keeps only the nodes for which `keep` returns true, and removes the others as
    /// [`remove`](Named::remove) does. The nodes that stay keep their indices, their keys and the
    /// edges between them.
    ///
    /// `keep` is called once with the key and the weight of each node, in descending index order.
    ///
    /// # Requires
    ///
    /// - `keep` may be called with the key and the weight of each node, in descending index order,
    ///   whatever it returned before.
    ///
    /// # Complexity
    ///
    /// O(node slots), plus the calls and the cost of the removals.
    ///
    /// # Examples
    ///
    /// ```
    /// let mut plan: Named<&'static str, u32, ()> = Named::new(rt.alloc());
    /// plan.add_node("sow", 1)?;
    /// plan.add_node("water", 60)?;
    /// plan.add_node("reap", 2)?;
    /// plan.add_dependency(Dependency { dependent: "reap", on: "sow" }, ())?;
    /// plan.retain(|_, days| *days < 60);
    /// assert!(rt; plan.weight("water").is_none());
    /// assert!(rt; plan.node_count() == 2);
    /// assert!(rt; plan.reaches("sow", "reap")?);
    /// ```
    pub fn retain<F: FnMut(&K, &N) -> bool>(&mut self, mut keep: F)
        requires { CanAskKeys F.pre F.step keep self.old }
        ensures retained { RetainsKeys F.step keep self.old self.new }
        ensures keeps { KeepsIndices self.old.graph self.new.graph }
        ensures keys { (n : ℕ) → IsSome (key_at self.new.keys n)
            → key_at self.new.keys n ≡ key_at self.old.keys n }
    {
        // Called only for its contract: each node has a key.
        let _count = self.node_count();
        let mut slot = self.places.len();
        'nodes: while slot > 0 {
            slot -= 1;
            let n = NodeIndex::new(slot);
            if let Some(weight) = self.dag().node_weight(n) {
                if let Some(key) = self.key_of(n) {
                    if !keep(key, weight) {
                        let _ = self.remove_at(n);
                    }
                }
            }
        }
    }
}
