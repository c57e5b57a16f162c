//! The edges from one node to another.
ghost use Rattle.std.specs.Prelude.{◌≡◌, ◌<◌, ◌^◌, length};
ghost use Rattle.std.specs.Iterator.{YieldsFirstBy, item_count};
ghost use Rattle.daggy_dag.specs.Connecting.{edges_connecting as edges_connecting_of};

use crate::acyclic::Acyclic;
use daggy_base::index::{Direction, EdgeIndex, IndexType, NodeIndex};
use daggy_base::read_store::ReadStore;
use daggy_cells::reference::EdgeReference;
use std::alloc::AllocError;
use std::fmt;
use std::iter::FusedIterator;
use std::marker::{Model, PhantomData};

/// The edges from one node to another, newest first, as
/// [`edges_connecting`](Acyclic::edges_connecting) returns them.
///
/// # Complexity
///
/// O(children of the first node) for the whole iteration.
#[derive(Drop)]
pub struct EdgesConnecting<'a, E, Ix: IndexType, S: ReadStore<Ix, EdgeWeight = E>> {
    store: &'a S,
    next: EdgeIndex<Ix>,
    child: NodeIndex<Ix>,
    weight: PhantomData<E>,
}

impl<'a, E, Ix: IndexType, S: ReadStore<Ix, EdgeWeight = E>> Model
    for EdgesConnecting<'a, E, Ix, S> {
    ghost use Rattle.std.specs.Prelude.{ℕ, List};
    ghost use Rattle.daggy_base.specs.Graph.{Edge as PlainEdge};
    ghost use Rattle.daggy_dag.specs.Connecting.{connecting_from};

    ghost Value = { List (ℕ × PlainEdge E) };

    ghost view = { λ it.
        connecting_from (S.graph it.store.now) (Ix.number it.next) (Ix.number it.child) };
}

impl<N: Drop, E: Drop, Ix: IndexType, S> Acyclic<N, E, Ix, S>
where
    S: ReadStore<Ix, NodeWeight = N, EdgeWeight = E>,
{
    /// The edges from `a` to `b`, newest first. Empty if one of the nodes does not exist.
    ///
    /// # Complexity
    ///
    /// O(children of `a`) for the whole iteration.
    ///
    /// # Examples
    ///
    /// ```
    /// let mut dag: Dag<&'static str, u32> = Dag::new(rt.alloc());
    /// let sow = dag.add_node("sow")?;
    /// let (days, reap) = dag.add_child(sow, 90, "reap")?;
    /// let more = dag.add_edge(sow, reap, 80)?;
    /// let mut edges = dag.edges_connecting(sow, reap);
    /// assert!(rt; edges.next().is_some_and(|edge| edge.id() == more));
    /// assert!(rt; edges.next().is_some_and(|edge| edge.id() == days));
    /// assert!(rt; edges.next().is_none());
    /// ```
    #[inline]
    pub fn edges_connecting(
        &self,
        a: NodeIndex<Ix>,
        b: NodeIndex<Ix>,
    ) -> EdgesConnecting<'_, E, Ix, S>
        ensures rest { result
            ≡ edges_connecting_of self.now.graph (Ix.number a) (Ix.number b) }
        ensures fits { length result < 2 ^ 64 }
    {
        self.guarded.store.invariant();
        EdgesConnecting {
            store: &self.guarded.store,
            next: self.guarded.store.first_edge(a, Direction::Outgoing),
            child: b,
            weight: PhantomData,
        }
    }
}

impl<'a, E: 'a, Ix: IndexType, S: ReadStore<Ix, EdgeWeight = E>> Iterator
    for EdgesConnecting<'a, E, Ix, S> {
    ghost use Rattle.daggy_cells.specs.Referring.{referred};

    type Item = EdgeReference<'a, E, Ix>;

    ghost next_gives = { YieldsFirstBy (referred Ix.number) (λ rest. rest) };

    ghost remaining = { item_count (λ rest. rest) };

    fn next(&mut self) -> Option<EdgeReference<'a, E, Ix>> {
        self.store.invariant();
        'along: while let Some(ends) = self.store.edge_endpoints(self.next) {
            let (source, target) = ends;
            let e = self.next;
            self.next = self.store.next_edge(e, Direction::Outgoing);
            if target.index() == self.child.index() {
                let weight = self.store.edge_weight(e)?;
                return Some(EdgeReference::from_parts(e, source, target, weight));
            }
        }
        None
    }
}

impl<'a, E: 'a, Ix: IndexType, S: ReadStore<Ix, EdgeWeight = E>> FusedIterator
    for EdgesConnecting<'a, E, Ix, S> {}

impl<'a, E, Ix: IndexType, S: ReadStore<Ix, EdgeWeight = E>> Clone
    for EdgesConnecting<'a, E, Ix, S> {
    ghost is_clone = { λ a b. a ≡ b };

    fn clone(&self) -> Result<Self, AllocError> {
        Ok(EdgesConnecting {
            store: self.store,
            next: self.next,
            child: self.child,
            weight: PhantomData,
        })
    }
}

impl<'a, E, Ix: IndexType, S: ReadStore<Ix, EdgeWeight = E>> fmt::Debug
    for EdgesConnecting<'a, E, Ix, S> {
    fn fmt<W: fmt::Write>(&self, f: &mut fmt::Formatter<W>) -> fmt::Result {
        f.debug_struct("EdgesConnecting").finish_non_exhaustive()
    }
}
