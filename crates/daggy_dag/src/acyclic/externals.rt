//! The nodes without parents, and those without children.
ghost use Rattle.std.specs.Prelude.{◌≡◌, ◌<◌, ◌^◌, length};
ghost use Rattle.std.specs.Iterator.{YieldsFirstBy, item_count};
ghost use Rattle.daggy_base.specs.Externals.{is_external as is_external_of, externals_from};

use crate::acyclic::Acyclic;
use daggy_base::index::{Direction, EdgeIndex, IndexType, NodeIndex};
use daggy_base::read_store::ReadStore;
use std::alloc::AllocError;
use std::fmt;
use std::iter::FusedIterator;
use std::marker::{Model, PhantomData};

/// The nodes that have no edge in one direction, in ascending index order, as
/// [`externals`](Acyclic::externals) returns them.
///
/// # Complexity
///
/// O(node bound) for the whole iteration.
#[derive(Drop)]
pub struct Externals<'a, Ix: IndexType, S: ReadStore<Ix>> {
    store: &'a S,
    direction: Direction,
    next: usize,
    index: PhantomData<Ix>,
}

impl<'a, Ix: IndexType, S: ReadStore<Ix>> Model for Externals<'a, Ix, S> {
    ghost use Rattle.std.specs.Prelude.{ℕ, List};
    ghost use Rattle.daggy_base.specs.Externals.{externals_from};

    ghost Value = { List ℕ };

    ghost view = { λ it. externals_from it.direction (S.graph it.store.now) it.next };
}

impl<N: Drop, E: Drop, Ix: IndexType, S> Acyclic<N, E, Ix, S>
where
    S: ReadStore<Ix, NodeWeight = N, EdgeWeight = E>,
{
    /// The nodes without incoming edges (`Incoming`), which are the roots, or the nodes without
    /// outgoing edges (`Outgoing`), in ascending index order.
    ///
    /// # Complexity
    ///
    /// O(node bound) for the whole iteration.
    ///
    /// # Examples
    ///
    /// ```
    /// let mut dag: Dag<&'static str, u32> = Dag::new(rt.alloc());
    /// let sow = dag.add_node("sow")?;
    /// let (_, reap) = dag.add_child(sow, 90, "reap")?;
    /// // The nodes without parents, and those without children.
    /// assert!(rt; dag.externals(Direction::Incoming).next() == Some(sow));
    /// assert!(rt; dag.externals(Direction::Outgoing).next() == Some(reap));
    /// ```
    #[inline]
    pub fn externals(&self, dir: Direction) -> Externals<'_, Ix, S>
        ensures rest { result ≡ externals_from dir self.now.graph 0 }
        ensures fits { length result < 2 ^ 64 }
    {
        // Called only for its postcondition: there are no more nodes than a `usize` counts.
        let _slots = self.guarded.store.node_slots();
        Externals {
            store: &self.guarded.store,
            direction: dir,
            next: 0,
            index: PhantomData,
        }
    }
}

// Whether a node exists that has no edge in that direction.
#[inline]
fn is_external<Ix: IndexType, S: ReadStore<Ix>>(store: &S, n: NodeIndex<Ix>, dir: Direction) -> bool
    ensures { result ≡ is_external_of dir (S.graph store.now) (Ix.number n) }
{
    let first = store.first_edge(n, dir);
    store.contains_node(n) && first.index() == EdgeIndex::<Ix>::end().index()
}

impl<'a, Ix: IndexType, S: ReadStore<Ix>> Iterator for Externals<'a, Ix, S> {
    type Item = NodeIndex<Ix>;

    ghost next_gives = { YieldsFirstBy Ix.number (λ rest. rest) };

    ghost remaining = { item_count (λ rest. rest) };

    fn next(&mut self) -> Option<NodeIndex<Ix>> {
        let slots = self.store.node_slots();
        self.store.invariant();
        'along: while self.next < slots {
            let n = NodeIndex::new(self.next);
            self.next += 1;
            if is_external(self.store, n, self.direction) {
                return Some(n);
            }
        }
        None
    }
}

impl<'a, Ix: IndexType, S: ReadStore<Ix>> FusedIterator for Externals<'a, Ix, S> {}

impl<'a, Ix: IndexType, S: ReadStore<Ix>> Clone for Externals<'a, Ix, S> {
    ghost is_clone = { λ a b. a ≡ b };

    fn clone(&self) -> Result<Self, AllocError> {
        Ok(Externals {
            store: self.store,
            direction: self.direction,
            next: self.next,
            index: PhantomData,
        })
    }
}

impl<'a, Ix: IndexType, S: ReadStore<Ix>> fmt::Debug for Externals<'a, Ix, S> {
    fn fmt<W: fmt::Write>(&self, f: &mut fmt::Formatter<W>) -> fmt::Result {
        f.debug_struct("Externals").finish_non_exhaustive()
    }
}
