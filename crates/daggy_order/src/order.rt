//! An order of nodes.
ghost use Rattle.std.specs.Prelude.{◌≡◌, ◌≢◌, ℕ, List, ◌<◌, ◌≤◌, ◌↔◌, ◌⊎◌, [], ◌∷◌, ◌++◌, length};
ghost use Rattle.std.specs.Prelude.{slice_index, map, IsTrue, Contains, OnOk, OnErr, IfOk};
ghost use Rattle.daggy_base.specs.Removal.{without, renamed};
ghost use Rattle.daggy_base.specs.WellFormed.{AreDistinct};
ghost use Rattle.daggy_base.specs.Ordered.{place};

use crate::list::{LabeledList, Tail};
use daggy_base::index::{DefaultIx, IndexType, NodeIndex};
use daggy_base::link::Link;
use std::alloc::{AllocError, Global};
use std::marker::Model;

mod edge;
mod naming;
mod nodes;
mod path;
mod reaching;
mod search;
mod sorting;

pub use edge::{order_edge, order_edge_counted};
pub use nodes::Nodes;
pub use path::path_in;
pub use reaching::reaches_in;

/// An ordered list of distinct nodes. Nodes can be added at both ends, removed and moved. A dag
/// maintains the order of its nodes; [`sorted`](Order::sorted) makes an order of any acyclic graph.
/// Labels that ascend along the list show which of two nodes comes first, as in the
/// order-maintenance list of Dietz and Sleator (1987).
///
/// A trailing run of consecutive indices is stored as a range. The first change of any other kind
/// links the nodes of the run, in memory reserved when they were pushed. Each node is linked at
/// most once, so `push` stays amortized O(1).
///
/// # Examples
///
/// ```
/// let mut order: Order = Order::new(rt.alloc());
/// let sow = NodeIndex::new(0);
/// let reap = NodeIndex::new(1);
/// order.push(sow)?;
/// order.push_first(reap)?;
/// assert!(rt; order.stands_before(reap, sow));
/// order.move_first(sow);
/// assert!(rt; order.nodes().next() == Some(sow));
/// ```
#[derive(Drop)]
pub struct Order<Ix: IndexType = DefaultIx> {
    list: LabeledList<Ix>,
    tail: Tail,
}

impl<Ix: IndexType> Model for Order<Ix> {
    ghost use Rattle.std.specs.Prelude.{ℕ, List, ◌++◌};
    ghost use Rattle.std.specs.List.{range_with_len};
    ghost use Rattle.daggy_order.specs.Links.{IsTailed};

    ghost Value = { List ℕ };

    ghost view = { λ o. o.list.nodes ++ range_with_len o.tail.from o.tail.count };

    ghost invariant = { λ o.
        IsTailed Ix.greatest o.list.nodes o.list.capacity o.tail.from o.tail.count
        o.tail.index_bound };
}

impl<Ix: IndexType> Order<Ix> {
    /// An empty order. Does not allocate.
    pub fn new(alloc: Global) -> Self
        ensures { result ≡ [] }
    {
        Order {
            list: LabeledList::new(alloc),
            tail: Tail {
                from: 0,
                count: 0,
                index_bound: 0,
            },
        }
    }

    /// How many nodes it contains.
    #[inline]
    pub fn len(&self) -> usize
        ensures value { result ≡ length self.now }
        ensures distinct { AreDistinct self.now }
    {
        self.list.len() + self.tail.count
    }

    /// Whether the order contains the node.
    #[inline]
    pub fn holds(&self, n: NodeIndex<Ix>) -> bool
        ensures { IsTrue result ↔ Contains self.now (Ix.number n) }
    {
        let i = n.index();
        if i < self.tail.from {
            self.list.holds(n)
        } else {
            i - self.tail.from < self.tail.count
        }
    }

    /// Whether `a` comes before `b`. In a topological order, a path from `a` to `b` can exist only
    /// if `a` comes before `b`.
    ///
    /// # Requires
    ///
    /// - `first`: The order contains `a`. Test: `holds(a)`.
    /// - `second`: The order contains `b`. Test: `holds(b)`.
    ///
    /// # Complexity
    ///
    /// O(1).
    #[inline]
    pub fn stands_before(&self, a: NodeIndex<Ix>, b: NodeIndex<Ix>) -> bool
        requires first { Contains self.now (Ix.number a) }
        requires second { Contains self.now (Ix.number b) }
        ensures { IsTrue result ↔ (place self.now (Ix.number a) < place self.now (Ix.number b)) }
    {
        let i = a.index();
        let j = b.index();
        if j < self.tail.from {
            i < self.tail.from && self.list.stands_before(a, b)
        } else {
            i < j
        }
    }

    /// Appends a node that the order does not contain yet.
    ///
    /// # Requires
    ///
    /// - `real`: `n` is not `end`, the greatest value of the index type. Test:
    ///   `n != NodeIndex::end()`.
    /// - `absent`: The order does not contain `n` yet. Test: `!holds(n)`.
    ///
    /// # Errors
    ///
    /// Returns `AllocError` if an allocation fails; the order is unchanged.
    ///
    /// # Complexity
    ///
    /// Amortized O(1). If labels reach the end of their range, which takes many millions of nodes,
    /// all nodes are relabelled.
    #[inline]
    pub fn push(&mut self, n: NodeIndex<Ix>) -> Result<(), AllocError>
        requires real { Ix.number n < Ix.greatest }
        requires absent { ¬ Contains self.old (Ix.number n) }
        ensures ok { OnOk result (self.new ≡ self.old ++ Ix.number n ∷ []) }
        ensures err { OnErr result (self.new ≡ self.old) }
    {
        let i = n.index();
        if i < self.tail.index_bound && i == self.tail.from + self.tail.count {
            self.tail.count += 1;
            return Ok(());
        }
        self.push_cold(n)
    }

    // `push` of a node that does not continue the run, or for which memory must be allocated.
    #[inline(never)]
    fn push_cold(&mut self, n: NodeIndex<Ix>) -> Result<(), AllocError>
        requires real { Ix.number n < Ix.greatest }
        requires absent { ¬ Contains self.old (Ix.number n) }
        ensures ok { OnOk result (self.new ≡ self.old ++ Ix.number n ∷ []) }
        ensures err { OnErr result (self.new ≡ self.old) }
    {
        let i = n.index();
        if i == self.tail.from + self.tail.count {
            self.tail.index_bound = self.list.reserve(i + 1)?;
            self.tail.count += 1;
            return Ok(());
        }
        self.push_linked(n)
    }

    // Puts a node last, after linking the run.
    fn push_linked(&mut self, n: NodeIndex<Ix>) -> Result<(), AllocError>
        requires real { Ix.number n < Ix.greatest }
        requires absent { ¬ Contains self.old (Ix.number n) }
        ensures ok { OnOk result (self.new ≡ self.old ++ Ix.number n ∷ []) }
        ensures err { OnErr result (self.new ≡ self.old) }
    {
        self.tail = self.list.flush(self.tail);
        self.list.push(n)?;
        self.tail.from = self.tail.from.max(n.index() + 1);
        Ok(())
    }

    /// Reserves capacity for all nodes with an index below `bound`, so that pushing them does not
    /// allocate.
    ///
    /// # Errors
    ///
    /// Returns `AllocError` if an allocation fails; the order is unchanged.
    ///
    /// # Complexity
    ///
    /// O(greatest index of a node) if a buffer has to be moved, and O(1) otherwise.
    pub fn reserve(&mut self, bound: usize) -> Result<(), AllocError>
        ensures { self.new ≡ self.old }
    {
        self.tail.index_bound = self.list.reserve(bound)?;
        Ok(())
    }

    /// Reserves at least the capacity of another order.
    ///
    /// # Errors
    ///
    /// Returns `AllocError` if an allocation fails; the order is unchanged.
    ///
    /// # Complexity
    ///
    /// The same as [`reserve`](Order::reserve).
    ///
    /// # Examples
    ///
    /// ```
    /// let mut order: Order = Order::new(rt.alloc());
    /// order.reserve(100)?;
    /// let mut other: Order = Order::new(rt.alloc());
    /// other.reserve_like(&order)?;
    /// // This does not allocate.
    /// other.push(NodeIndex::new(99))?;
    /// assert!(rt; other.len() == 1);
    /// ```
    pub fn reserve_like(&mut self, other: &Self) -> Result<(), AllocError>
        ensures { self.new ≡ self.old }
    {
        self.reserve(other.list.capacity())
    }

    /// Removes a node.
    ///
    /// # Requires
    ///
    /// - The order contains `n`. Test: `holds(n)`.
    ///
    /// # Complexity
    ///
    /// O(1), plus the length of a run that is still to be linked.
    ///
    /// # Examples
    ///
    /// ```
    /// let mut order: Order = Order::new(rt.alloc());
    /// let sow = NodeIndex::new(0);
    /// let reap = NodeIndex::new(1);
    /// order.push(sow)?;
    /// order.push(reap)?;
    /// order.remove(sow);
    /// assert!(rt; order.len() == 1);
    /// assert!(rt; order.holds(reap) && !order.holds(sow));
    /// ```
    #[inline]
    pub fn remove(&mut self, n: NodeIndex<Ix>)
        requires { Contains self.old (Ix.number n) }
        ensures { self.new ≡ without (Ix.number n) self.old }
    {
        if self.tail.count > 0 && n.index() + 1 == self.tail.from + self.tail.count {
            self.tail.count -= 1;
        } else {
            self.tail = self.list.flush(self.tail);
            self.list.remove(n);
        }
    }

    /// Replaces the node `n` with `m`, at the same position, as when a graph moves its last node
    /// into a freed index.
    ///
    /// # Requires
    ///
    /// - `held`: The order contains `n`. Test: `holds(n)`.
    /// - `free`: The order does not contain `m` yet, unless `m` is `n`.
    /// - `lower`: `m` is at most `n`. Test: `m.index() <= n.index()`.
    ///
    /// # Complexity
    ///
    /// O(1), plus the length of a run that is still to be linked.
    ///
    /// # Examples
    ///
    /// ```
    /// let mut order: Order = Order::new(rt.alloc());
    /// let reap = NodeIndex::new(1);
    /// order.push(reap)?;
    /// let freed = NodeIndex::new(0);
    /// order.rename(reap, freed);
    /// assert!(rt; order.nodes().next() == Some(freed));
    /// ```
    #[inline]
    pub fn rename(&mut self, n: NodeIndex<Ix>, m: NodeIndex<Ix>)
        requires held { Contains self.old (Ix.number n) }
        requires free { ¬ Contains self.old (Ix.number m) ⊎ (Ix.number m ≡ Ix.number n) }
        requires lower { Ix.number m ≤ Ix.number n }
        ensures { self.new ≡ map (renamed (Ix.number n) (Ix.number m)) self.old }
    {
        if n.index() != m.index() {
            self.tail = self.list.flush(self.tail);
            self.list.rename(n, m);
        }
    }

    /// Inserts a node that the order does not contain yet, before all others.
    ///
    /// # Requires
    ///
    /// - `real`: `n` is not `end`, the greatest value of the index type. Test:
    ///   `n != NodeIndex::end()`.
    /// - `absent`: The order does not contain `n` yet. Test: `!holds(n)`.
    ///
    /// # Errors
    ///
    /// Returns `AllocError` if an allocation fails; the order is unchanged.
    ///
    /// # Complexity
    ///
    /// The same as [`push`](Order::push).
    // Out of line, to keep what adds a node on either side small where it is inlined.
    #[inline(never)]
    pub fn push_first(&mut self, n: NodeIndex<Ix>) -> Result<(), AllocError>
        requires real { Ix.number n < Ix.greatest }
        requires absent { ¬ Contains self.old (Ix.number n) }
        ensures ok { OnOk result (self.new ≡ Ix.number n ∷ self.old) }
        ensures err { OnErr result (self.new ≡ self.old) }
    {
        self.tail = self.list.flush(self.tail);
        self.list.push_first(n)?;
        self.tail.from = self.tail.from.max(n.index() + 1);
        Ok(())
    }

    /// Moves a node to the front.
    ///
    /// # Requires
    ///
    /// - The order contains `n`. Test: `holds(n)`.
    ///
    /// # Complexity
    ///
    /// O(1), plus the length of a run that is still to be linked. If labels reach the start of
    /// their range, all nodes are relabelled.
    #[inline(never)]
    pub fn move_first(&mut self, n: NodeIndex<Ix>)
        requires { Contains self.old (Ix.number n) }
        ensures { self.new ≡ Ix.number n ∷ without (Ix.number n) self.old }
    {
        if self.tail.count == 1 && n.index() == self.tail.from {
            // The node is not linked yet, so it is put there at once.
            self.tail = self.list.link_first(self.tail);
            return;
        }
        self.tail = self.list.flush(self.tail);
        self.list.move_first(n);
    }

    /// Moves the node `n` to just before `b`.
    ///
    /// # Requires
    ///
    /// - `held`: The order contains `n`. Test: `holds(n)`.
    /// - `there`: The order contains `b`. Test: `holds(b)`.
    /// - `differ`: `n` and `b` are not the same index. Test: `n != b`.
    ///
    /// # Complexity
    ///
    /// O(1), plus the length of a run that is still to be linked. If labels leave no room, some
    /// nodes are relabelled.
    ///
    /// # Examples
    ///
    /// ```
    /// let mut order: Order = Order::new(rt.alloc());
    /// let sow = NodeIndex::new(0);
    /// let reap = NodeIndex::new(1);
    /// order.push(reap)?;
    /// order.push(sow)?;
    /// order.move_before(sow, reap);
    /// assert!(rt; order.stands_before(sow, reap));
    /// ```
    #[inline(never)]
    pub fn move_before(&mut self, n: NodeIndex<Ix>, b: NodeIndex<Ix>)
        requires held { Contains self.old (Ix.number n) }
        requires there { Contains self.old (Ix.number b) }
        requires differ { Ix.number n ≢ Ix.number b }
        ensures { (ns ms : List ℕ) → without (Ix.number n) self.old ≡ ns ++ Ix.number b ∷ ms
            → self.new ≡ ns ++ Ix.number n ∷ (Ix.number b ∷ ms) }
    {
        self.tail = self.list.flush(self.tail);
        self.list.move_before(n, b);
    }

    /// The position of a node, counted from 0. To compare the positions of two nodes, use
    /// [`stands_before`](Order::stands_before), which is O(1).
    ///
    /// # Requires
    ///
    /// - The order contains `n`. Test: `holds(n)`.
    ///
    /// # Complexity
    ///
    /// O(position).
    ///
    /// # Examples
    ///
    /// ```
    /// let mut order: Order = Order::new(rt.alloc());
    /// let sow = NodeIndex::new(0);
    /// let reap = NodeIndex::new(1);
    /// order.push(sow)?;
    /// order.push(reap)?;
    /// assert!(rt; order.place(reap) == 1);
    /// assert!(rt; order.at(1) == reap);
    /// ```
    pub fn place(&self, n: NodeIndex<Ix>) -> usize
        requires { Contains self.now (Ix.number n) }
        ensures { result ≡ place self.now (Ix.number n) }
    {
        let i = n.index();
        if i < self.tail.from {
            self.list.place(n)
        } else {
            self.list.len() + (i - self.tail.from)
        }
    }

    /// The node at a position, counted from 0. To iterate over all nodes, use
    /// [`nodes`](Order::nodes).
    ///
    /// # Requires
    ///
    /// - `place` is below the number of nodes. Test: `place < len()`.
    ///
    /// # Complexity
    ///
    /// O(position).
    pub fn at(&self, place: usize) -> NodeIndex<Ix>
        requires { place < length self.now }
        ensures { Ix.number result ≡ slice_index self.now place }
    {
        let count = self.list.len();
        if place < count {
            self.list.at(place)
        } else {
            NodeIndex::new(self.tail.from + (place - count))
        }
    }

    /// A copy of the order, independent of this one.
    ///
    /// # Errors
    ///
    /// Returns `AllocError` if an allocation fails.
    ///
    /// # Complexity
    ///
    /// O(greatest index of a node).
    ///
    /// # Examples
    ///
    /// ```
    /// let mut order: Order = Order::new(rt.alloc());
    /// order.push(NodeIndex::new(0))?;
    /// let copy = order.try_clone()?;
    /// order.clear();
    /// assert!(rt; order.len() == 0 && copy.len() == 1);
    /// ```
    pub fn try_clone(&self) -> Result<Self, AllocError>
        ensures { IfOk result (λ o. o ≡ self.now) }
    {
        let mut list = self.list.try_clone()?;
        let Tail { from, count, .. } = self.tail;
        let index_bound = if count == 0 {
            0
        } else {
            list.reserve(from + count)?
        };
        Ok(Order {
            list,
            tail: Tail {
                from,
                count,
                index_bound,
            },
        })
    }

    /// Removes all nodes, and keeps the capacity.
    #[inline]
    pub fn clear(&mut self)
        ensures { self.new ≡ [] }
    {
        self.list.clear();
        self.tail = Tail {
            from: 0,
            count: 0,
            index_bound: 0,
        };
    }
}
