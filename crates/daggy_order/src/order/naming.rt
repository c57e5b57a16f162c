//! Changing the indices of all nodes at once.
ghost use Rattle.std.specs.Prelude.{◌≡◌, ℕ, ◌<◌, ◌≤◌, Some, Contains, length};
ghost use Rattle.std.specs.List.{filter_map};
ghost use Rattle.daggy_base.specs.Graph.{slot};

use crate::order::Order;
use daggy_base::index::{IndexType, NodeIndex};
use daggy_base::link::Link;

impl<Ix: IndexType> Order<Ix> {
    /// Replaces each node with its new index in `names`, and removes the nodes whose entry there is
    /// `None`. The order of the others does not change.
    ///
    /// # Requires
    ///
    /// - `few`: `names` has at most as many entries as the index type has indices.
    /// - `covered`: `names` has an entry for each node of the order.
    /// - `lower`: No new index is greater than the old one.
    /// - `distinct`: No two nodes get the same new index.
    ///
    /// # Complexity
    ///
    /// O(length of `names`). Does not allocate.
    ///
    /// # Examples
    ///
    /// ```
    /// let mut order: Order = Order::new(rt.alloc());
    /// let reap = NodeIndex::new(0);
    /// let sow = NodeIndex::new(2);
    /// order.push(sow)?;
    /// order.push(reap)?;
    /// // There is no node 1 any more, so node 2 gets its index.
    /// let names = [Some(Link::new(0)), None, Some(Link::new(1))];
    /// order.rename_all(&names);
    /// assert!(rt; order.at(0) == NodeIndex::new(1));
    /// assert!(rt; order.at(1) == reap);
    /// ```
    pub fn rename_all(&mut self, names: &[Option<Link<Ix>>])
        requires few { length names.now ≤ Ix.greatest }
        requires covered { (n : ℕ) → Contains self.old n → n < length names.now }
        requires lower { (n k : ℕ) → slot names.now n ≡ Some k → k ≤ n }
        requires distinct { (a b k : ℕ)
            → slot names.now a ≡ Some k → slot names.now b ≡ Some k → a ≡ b }
        ensures { self.new ≡ filter_map (slot names.now) self.old }
    {
        'nodes: for i in 0..names.len() {
            let n = NodeIndex::new(i);
            if self.holds(n) {
                match names[i] {
                    Some(name) => self.rename(n, name.node()),
                    None => self.remove(n),
                }
            }
        }
    }
}
