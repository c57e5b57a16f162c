//! A walk without its first steps.
ghost use Rattle.std.specs.Prelude.{◌≡◌};
ghost use Rattle.daggy_walk.specs.Parts.{skip_walker, skip_count};

use crate::walker::{FiniteWalker, FusedWalker, Walker};
use std::marker::PhantomData;

/// A walk without its first items, which are all skipped in the first step.
///
/// So the first step takes O(skipped steps), even if the walk ends earlier.
///
/// # Examples
///
/// ```
/// let mut dag: Dag<&'static str, u32> = Dag::new(rt.alloc());
/// let sow = dag.add_node("sow")?;
/// let (_, reap) = dag.add_child(sow, 90, "reap")?;
/// let (_, _water) = dag.add_child(sow, 1, "water")?;
///
/// let mut walk = Skip::new(dag.children(sow), 1);
/// assert!(rt; walk.walk_next(&dag).is_some_and(|step| step.1 == reap));
/// assert!(rt; walk.walk_next(&dag).is_none());
/// ```
#[derive(Drop)]
#[derive_where(Clone, Copy, Debug; W)]
pub struct Skip<G, W> {
    walker: W,
    to_skip: usize,
    graph: PhantomData<G>,
}

impl<G, W> Skip<G, W> {
    /// A walk without its first `to_skip` items.
    #[inline]
    pub fn new(walker: W, to_skip: usize) -> Self
        ensures walker { skip_walker result ≡ walker }
        ensures count { skip_count result ≡ to_skip }
    {
        Skip {
            walker,
            to_skip,
            graph: PhantomData,
        }
    }
}

impl<G, W: Walker<G>> Walker<G> for Skip<G, W>
where
    W::Item: Drop,
{
    ghost use Rattle.daggy_walk.specs.Adapters.{SkipStep};

    type Item = W::Item;

    ghost can_walk = { λ s g. W.can_walk (skip_walker s) g };

    ghost walk_gives = { λ s g r t. SkipStep (λ w o v. W.walk_gives w g o v)
        (skip_walker s) (skip_count s) r (skip_walker t) (skip_count t) };

    ghost items_left = { λ s g. W.items_left (skip_walker s) g };

    #[inline]
    fn walk_next(&mut self, graph: &G) -> Option<W::Item> {
        'skipped: while self.to_skip > 0 {
            self.to_skip -= 1;
            self.walker.walk_next(graph);
        }
        self.walker.walk_next(graph)
    }

    #[inline]
    fn upper_bound(&self, graph: &G) -> Option<usize> {
        self.walker.upper_bound(graph)
    }
}

impl<G, W: FiniteWalker<G>> FiniteWalker<G> for Skip<G, W>
where
    W::Item: Drop,
{
    ghost ends = { λ w g. W.ends (skip_walker w) g };
}

impl<G, W: FusedWalker<G>> FusedWalker<G> for Skip<G, W>
where
    W::Item: Drop,
{
    ghost use Rattle.daggy_walk.specs.Fused.{skip_rests};

    ghost rests = { λ g w t u r. skip_rests _ (W.rests g) _ _ _ _ _ _ r };
}
