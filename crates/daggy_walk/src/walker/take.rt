//! The first steps of a walk.
ghost use Rattle.std.specs.Prelude.{◌≡◌};
ghost use Rattle.daggy_walk.specs.Parts.{take_walker, take_count};

use crate::walker::{FiniteWalker, FusedWalker, Walker};
use std::marker::PhantomData;

/// The first steps of a walk. After them it yields nothing, and its walker takes no more steps.
///
/// Steps that yield nothing count too.
///
/// # Examples
///
/// ```
/// let mut dag: Dag<&'static str, u32> = Dag::new(rt.alloc());
/// let sow = dag.add_node("sow")?;
/// let (_, _reap) = dag.add_child(sow, 90, "reap")?;
/// let (_, water) = dag.add_child(sow, 1, "water")?;
///
/// let mut walk = Take::new(dag.children(sow), 1);
/// assert!(rt; walk.walk_next(&dag).is_some_and(|step| step.1 == water));
/// assert!(rt; walk.walk_next(&dag).is_none());
/// ```
#[derive(Drop)]
#[derive_where(Clone, Copy, Debug; W)]
pub struct Take<G, W> {
    walker: W,
    to_take: usize,
    graph: PhantomData<G>,
}

impl<G, W> Take<G, W> {
    /// The first `to_take` steps of a walk.
    #[inline]
    pub fn new(walker: W, to_take: usize) -> Self
        ensures walker { take_walker result ≡ walker }
        ensures count { take_count result ≡ to_take }
    {
        Take {
            walker,
            to_take,
            graph: PhantomData,
        }
    }
}

impl<G, W: Walker<G>> Walker<G> for Take<G, W> {
    ghost use Rattle.std.specs.Iterator.{at_most, count_min};
    ghost use Rattle.daggy_walk.specs.Adapters.{TakeStep};

    type Item = W::Item;

    ghost can_walk = { λ s g. W.can_walk (take_walker s) g };

    ghost walk_gives = { λ s g r t. TakeStep (λ w o v. W.walk_gives w g o v)
        (take_walker s) (take_count s) r (take_walker t) (take_count t) };

    ghost items_left = { λ s g.
        count_min (at_most (take_count s)) (W.items_left (take_walker s) g) };

    #[inline]
    fn walk_next(&mut self, graph: &G) -> Option<W::Item> {
        if self.to_take == 0 {
            return None;
        }
        self.to_take -= 1;
        self.walker.walk_next(graph)
    }

    #[inline]
    fn upper_bound(&self, graph: &G) -> Option<usize> {
        match self.walker.upper_bound(graph) {
            Some(inner) => Some(self.to_take.min(inner)),
            None => Some(self.to_take),
        }
    }
}

impl<G, W: Walker<G>> FiniteWalker<G> for Take<G, W> {
    ghost ends = { λ w g. tt };
}

impl<G, W: FusedWalker<G>> FusedWalker<G> for Take<G, W> {
    ghost use Rattle.daggy_walk.specs.Fused.{take_rests};

    ghost rests = { λ g w t u r. take_rests _ (W.rests g) _ _ _ _ _ _ r };
}
