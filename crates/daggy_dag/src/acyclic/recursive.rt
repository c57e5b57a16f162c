//! Walks along edges that a function chooses.
ghost use Rattle.std.specs.Prelude.{◌≡◌};
ghost use Rattle.daggy_walk.specs.Parts.{recursive_node, recursive_function};

use crate::acyclic::{Acyclic, Dag};
use daggy_base::index::{IndexType, NodeIndex};
use daggy_base::read_store::ReadStore;
use daggy_walk::walker::{Led, Recursive};

/// A walk over a [`Dag`] along edges that a function chooses, as
/// [`recursive_walk`](Acyclic::recursive_walk) returns it.
pub type RecursiveWalk<N, E, Ix, F> = Recursive<Dag<N, E, Ix>, F>;

impl<N: Drop, E: Drop, Ix: IndexType, S> Acyclic<N, E, Ix, S>
where
    S: ReadStore<Ix, NodeWeight = N, EdgeWeight = E>,
{
    /// A walk from `start`: at each step `f` gets the dag and the current node, and chooses the
    /// next edge and node.
    ///
    /// If `f` returns `None`, the walk yields `None` and stays at its node; the next step calls `f`
    /// again.
    ///
    /// # Examples
    ///
    /// ```
    /// let mut dag: Dag<u32, u32> = Dag::new(rt.alloc());
    /// let sow = dag.add_node(1)?;
    /// let (_, grow) = dag.add_child(sow, 60, 2)?;
    /// let (_, reap) = dag.add_child(grow, 30, 3)?;
    /// // To the newest child, as long as there is one.
    /// let mut walk = dag.recursive_walk(sow, |dag: &Dag<u32, u32>, n| {
    ///     dag.children(n).walk_next(dag)
    /// });
    /// assert!(rt; walk.walk_next(&dag).is_some_and(|step| step.1 == grow));
    /// assert!(rt; walk.walk_next(&dag).is_some_and(|step| step.1 == reap));
    /// assert!(rt; walk.walk_next(&dag).is_none());
    /// ```
    #[inline]
    pub fn recursive_walk<F>(&self, start: NodeIndex<Ix>, f: F) -> Led<Self, NodeIndex<Ix>, F>
        ensures node { recursive_node result ≡ start }
        ensures function { recursive_function result ≡ f }
    {
        Led::new(start, f)
    }
}
