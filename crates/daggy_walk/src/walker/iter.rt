//! The rest of a walk as an iterator.
ghost use Rattle.std.specs.Prelude.{◌≡◌};
ghost use Rattle.daggy_walk.specs.Parts.{iter_walker, iter_graph};

use crate::walker::{FusedWalker, Walker};
use std::iter::FusedIterator;

/// The rest of a walk over a borrowed graph, as an iterator. Returned by [`Walker::iter`].
///
/// Like the walker itself, this iterator may yield items again after `None`, unless the walker is a
/// [`FusedWalker`](crate::walker::FusedWalker).
///
/// # Examples
///
/// ```
/// let mut dag: Dag<&'static str, ()> = Dag::new(rt.alloc());
/// let sow = dag.add_node("sow")?;
/// let (_, hoe) = dag.add_child(sow, (), "hoe")?;
/// let (_, reap) = dag.add_child(sow, (), "reap")?;
/// let steps: Vec<_> = dag.children(sow).iter(&dag).collect(rt.alloc())?;
/// assert!(rt; steps.iter().any(|step| step.1 == hoe));
/// assert!(rt; steps.first().is_some_and(|step| step.1 == reap));
/// ```
#[derive(Drop)]
#[derive_where(Clone, Copy, Debug; W)]
pub struct WalkerIter<'a, G, W> {
    walker: W,
    #[derive_where(skip(Debug))]
    graph: &'a G,
}

impl<'a, G, W> WalkerIter<'a, G, W> {
    #[inline]
    pub(super) fn new(walker: W, graph: &'a G) -> Self
        ensures walker { iter_walker result ≡ walker }
        ensures graph { (iter_graph result).now ≡ graph.now }
    {
        WalkerIter { walker, graph }
    }
}

impl<'a, G, W: Walker<G>> Iterator for WalkerIter<'a, G, W> {
    type Item = W::Item;

    ghost can_next = { λ s. W.can_walk (iter_walker s) (iter_graph s).now };

    ghost next_gives = { λ s r t. W.walk_gives (iter_walker s) (iter_graph s).now r (iter_walker t)
        × (iter_graph t ≡ iter_graph s) };

    ghost remaining = { λ s. W.items_left (iter_walker s) (iter_graph s).now };

    #[inline]
    fn next(&mut self) -> Option<W::Item> {
        self.walker.walk_next(self.graph)
    }

    #[inline]
    fn size_hint(&self) -> (usize, Option<usize>) {
        (0, self.walker.upper_bound(self.graph))
    }
}

impl<'a, G, W: FusedWalker<G>> FusedIterator for WalkerIter<'a, G, W> {}
