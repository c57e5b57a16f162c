//! The nodes of a dag in topological order.
ghost use Rattle.std.specs.Prelude.{◌≡◌, ℕ, List, ◌<◌, ◌^◌, ◌↔◌, IsTrue, length};
ghost use Rattle.std.specs.Iterator.{YieldsFirstBy, YieldsLastBy, item_count};
ghost use Rattle.daggy_base.specs.Graph.{HasNode};
ghost use Rattle.daggy_base.specs.Ordered.{IsOrderOf, place};

use crate::acyclic::Acyclic;
use daggy_base::index::{DefaultIx, IndexType, NodeIndex};
use daggy_base::read_store::ReadStore;
use daggy_order::order::{Nodes, Order};
use std::alloc::AllocError;
use std::fmt;
use std::iter::{DoubleEndedIterator, ExactSizeIterator, FusedIterator};
use std::marker::Model;

/// An iterator over the nodes of a dag in topological order. It is double-ended: `.rev()` yields
/// children before parents.
///
/// # Complexity
///
/// O(nodes) for the whole iteration.
///
/// # Examples
///
/// ```
/// let mut dag: Dag<&'static str, u32> = Dag::new(rt.alloc());
/// let reap = dag.add_node("reap")?;
/// let (_, sow) = dag.add_parent(reap, 90, "sow")?;
/// // From the end: children before parents.
/// let back: Vec<_> = dag.topological_order().rev().collect(rt.alloc())?;
/// assert!(rt; back.as_slice() == [reap, sow].as_slice());
/// ```
#[derive(Drop)]
pub struct TopologicalOrder<'a, Ix: IndexType = DefaultIx> {
    nodes: Nodes<'a, Ix>,
}

impl<'a, Ix: IndexType> Model for TopologicalOrder<'a, Ix> {
    ghost use Rattle.std.specs.Prelude.{ℕ, List};

    ghost Value = { List ℕ };

    ghost view = { λ it. it.nodes };
}

impl<N: Drop, E: Drop, Ix: IndexType, S> Acyclic<N, E, Ix, S>
where
    S: ReadStore<Ix, NodeWeight = N, EdgeWeight = E>,
{
    /// Returns an iterator over the nodes in topological order: each parent comes before its
    /// children. It is the order that the dag maintains, so nothing is searched or sorted. It is
    /// double-ended: `.rev()` yields children before parents.
    ///
    /// Adding a node or an edge may change the order.
    ///
    /// # Complexity
    ///
    /// O(nodes) for the whole iteration.
    ///
    /// # Examples
    ///
    /// ```
    /// let mut dag: Dag<&'static str, u32> = Dag::new(rt.alloc());
    /// let reap = dag.add_node("reap")?;
    /// let (_, sow) = dag.add_parent(reap, 90, "sow")?;
    /// let mut order = dag.topological_order();
    /// assert!(rt; order.next() == Some(sow));
    /// assert!(rt; order.next() == Some(reap));
    /// assert!(rt; order.next().is_none());
    /// ```
    #[inline]
    pub fn topological_order(&self) -> TopologicalOrder<'_, Ix>
        ensures ordered { IsOrderOf self.now.graph result }
        ensures fits { length result < 2 ^ 64 }
    {
        TopologicalOrder {
            nodes: self.guarded.order.nodes(),
        }
    }

    /// The topological order that the dag maintains, which can compare two nodes and return the
    /// position of a node.
    ///
    /// # Examples
    ///
    /// ```
    /// let mut dag: Dag<&'static str, u32> = Dag::new(rt.alloc());
    /// let reap = dag.add_node("reap")?;
    /// let (_, sow) = dag.add_parent(reap, 90, "sow")?;
    /// let mut nodes = dag.order().nodes();
    /// assert!(rt; nodes.next() == Some(sow));
    /// assert!(rt; nodes.next() == Some(reap));
    /// ```
    #[inline]
    pub fn order(&self) -> &Order<Ix>
        ensures { IsOrderOf self.now.graph result.now }
    {
        &self.guarded.order
    }

    /// Whether `a` precedes `b` in the order that the dag maintains. False if a node is missing.
    ///
    /// A parent precedes its children. If neither node reaches the other, the answer may change
    /// when edges are added, and the contract does not say which of them precedes the other. To
    /// compare several nodes by one fixed order, collect
    /// [`topological_order`](Acyclic::topological_order).
    ///
    /// # Complexity
    ///
    /// O(1).
    ///
    /// # Examples
    ///
    /// ```
    /// let mut dag: Dag<&'static str, u32> = Dag::new(rt.alloc());
    /// let reap = dag.add_node("reap")?;
    /// let (_, sow) = dag.add_parent(reap, 90, "sow")?;
    /// assert!(rt; dag.stands_before(sow, reap));
    /// assert!(rt; !dag.stands_before(sow, sow));
    /// ```
    #[inline]
    pub fn stands_before(&self, a: NodeIndex<Ix>, b: NodeIndex<Ix>) -> bool
        ensures { (order : List ℕ) × IsOrderOf self.now.graph order
            × (IsTrue result ↔ (HasNode self.now.graph (Ix.number a)
            × HasNode self.now.graph (Ix.number b)
            × (place order (Ix.number a) < place order (Ix.number b)))) }
    {
        let order = &self.guarded.order;
        order.holds(a) && order.holds(b) && order.stands_before(a, b)
    }
}

impl<'a, Ix: IndexType> Iterator for TopologicalOrder<'a, Ix> {
    type Item = NodeIndex<Ix>;

    ghost next_gives = { YieldsFirstBy Ix.number (λ rest. rest) };

    ghost remaining = { item_count (λ rest. rest) };

    #[inline]
    fn next(&mut self) -> Option<NodeIndex<Ix>> {
        self.nodes.next()
    }

    #[inline]
    fn size_hint(&self) -> (usize, Option<usize>) {
        self.nodes.size_hint()
    }
}

impl<'a, Ix: IndexType> DoubleEndedIterator for TopologicalOrder<'a, Ix> {
    ghost next_back_gives = { YieldsLastBy Ix.number (λ rest. rest) };

    #[inline]
    fn next_back(&mut self) -> Option<NodeIndex<Ix>> {
        self.nodes.next_back()
    }
}

impl<'a, Ix: IndexType> ExactSizeIterator for TopologicalOrder<'a, Ix> {
    #[inline]
    fn len(&self) -> usize {
        self.nodes.len()
    }
}

impl<'a, Ix: IndexType> FusedIterator for TopologicalOrder<'a, Ix> {}

impl<'a, Ix: IndexType> Clone for TopologicalOrder<'a, Ix> {
    ghost is_clone = { λ a b. a ≡ b };

    fn clone(&self) -> Result<Self, AllocError> {
        Ok(TopologicalOrder {
            nodes: self.nodes.clone()?,
        })
    }
}

impl<'a, Ix: IndexType> fmt::Debug for TopologicalOrder<'a, Ix> {
    fn fmt<W: fmt::Write>(&self, f: &mut fmt::Formatter<W>) -> fmt::Result {
        f.debug_struct("TopologicalOrder")
            .field("remaining", &self.len())
            .finish()
    }
}
