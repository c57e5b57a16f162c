//! The steps of a walk that pass a test.
ghost use Rattle.std.specs.Prelude.{◌≡◌};
ghost use Rattle.daggy_walk.specs.Parts.{filter_walker, filter_predicate};

use crate::walker::{FiniteWalker, FusedWalker, Walker};
use std::marker::PhantomData;

/// The items of a walk for which a predicate returns true.
///
/// # Examples
///
/// ```
/// let mut dag: Dag<u32, u32> = Dag::new(rt.alloc());
/// let sow = dag.add_node(1)?;
/// let (_, reap) = dag.add_child(sow, 90, 2)?;
/// let (_, _water) = dag.add_child(sow, 1, 3)?;
///
/// let is_long = |dag: &Dag<u32, u32>, step: &(EdgeIndex, NodeIndex)| {
///     dag.edge_weight(step.0).is_some_and(|days| *days > 7)
/// };
/// let mut walk = Filter::new(dag.children(sow), is_long);
/// assert!(rt; walk.walk_next(&dag).is_some_and(|step| step.1 == reap));
/// assert!(rt; walk.walk_next(&dag).is_none());
/// ```
#[derive(Drop)]
#[derive_where(Clone, Copy, Debug; W, P)]
pub struct Filter<G, W, P> {
    walker: W,
    predicate: P,
    graph: PhantomData<G>,
}

impl<G, W, P> Filter<G, W, P> {
    /// The items of a walk for which `predicate` returns true.
    #[inline]
    pub fn new(walker: W, predicate: P) -> Self
        ensures walker { filter_walker result ≡ walker }
        ensures predicate { filter_predicate result ≡ predicate }
    {
        Filter {
            walker,
            predicate,
            graph: PhantomData,
        }
    }
}

impl<G, W: FiniteWalker<G>, P: FnMut(&G, &W::Item) -> bool> Walker<G> for Filter<G, W, P>
where
    W::Item: Drop,
{
    ghost use Rattle.std.specs.Prelude.{Bool};
    ghost use Rattle.daggy_walk.specs.Adapters.{FilterStep};
    ghost use Rattle.daggy_walk.specs.Walking.{CallableAlong, CallsItem, TakesItem};

    type Item = W::Item;

    ghost can_walk = { λ s g.
        W.can_walk (filter_walker s) g × CallableAlong (λ w o v. W.walk_gives w g o v)
        (λ f x h. (b : Bool) × CallsItem P.FnMut f g x b h) (λ f x. TakesItem P.FnMut f g x)
        (filter_walker s) (filter_predicate s) };

    ghost walk_gives = { λ s g r t. FilterStep (λ w o v. W.walk_gives w g o v) P.FnMut g
        (filter_walker s) (filter_predicate s) r (filter_walker t) (filter_predicate t) };

    ghost items_left = { λ s g. W.items_left (filter_walker s) g };

    #[inline]
    fn walk_next(&mut self, graph: &G) -> Option<W::Item> {
        while let Some(item) = self.walker.walk_next(graph) {
            if (self.predicate)(graph, &item) {
                return Some(item);
            }
        }
        None
    }

    #[inline]
    fn upper_bound(&self, graph: &G) -> Option<usize> {
        self.walker.upper_bound(graph)
    }
}

impl<G, W: FiniteWalker<G>, P: FnMut(&G, &W::Item) -> bool> FiniteWalker<G> for Filter<G, W, P>
where
    W::Item: Drop,
{
    ghost ends = { λ w g. W.ends (filter_walker w) g };

    #[inline]
    fn ends_over(&self, _graph: &G) {}
}

impl<G, W: FiniteWalker<G> + FusedWalker<G>, P: FnMut(&G, &W::Item) -> bool> FusedWalker<G>
    for Filter<G, W, P>
where
    W::Item: Drop,
{
    ghost use Rattle.daggy_walk.specs.Fused.{filter_rests};

    ghost rests = { λ g w t u r. filter_rests _ (W.rests g) P.FnMut g _ _ _ _ _ _ r };

    #[inline]
    fn rests_over(&self, _graph: &G) {}
}
