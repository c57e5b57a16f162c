//! A walk that begins with the first item that fails a test.
ghost use Rattle.std.specs.Prelude.{◌≡◌, Some};
ghost use Rattle.daggy_walk.specs.Parts.{skip_while_walker, skip_while_predicate};

use crate::walker::{FiniteWalker, FusedWalker, Walker};
use std::marker::PhantomData;

/// The items of a walk, beginning with the first for which a predicate returns false.
///
/// The predicate is called only in the first step, and is then dropped.
///
/// # Examples
///
/// ```
/// let mut dag: Dag<u32, u32> = Dag::new(rt.alloc());
/// let sow = dag.add_node(1)?;
/// let (_, reap) = dag.add_child(sow, 90, 2)?;
/// let (_, _water) = dag.add_child(sow, 1, 3)?;
///
/// let is_short = |dag: &Dag<u32, u32>, step: &(EdgeIndex, NodeIndex)| {
///     dag.edge_weight(step.0).is_some_and(|days| *days <= 7)
/// };
/// let mut walk = SkipWhile::new(dag.children(sow), is_short);
/// assert!(rt; walk.walk_next(&dag).is_some_and(|step| step.1 == reap));
/// assert!(rt; walk.walk_next(&dag).is_none());
/// ```
#[derive(Drop)]
#[derive_where(Clone, Copy, Debug; W, P)]
pub struct SkipWhile<G, W, P> {
    walker: W,
    predicate: Option<P>,
    graph: PhantomData<G>,
}

impl<G, W, P> SkipWhile<G, W, P> {
    /// The items of a walk, beginning with the first for which `predicate` returns false.
    #[inline]
    pub fn new(walker: W, predicate: P) -> Self
        ensures walker { skip_while_walker result ≡ walker }
        ensures predicate { skip_while_predicate result ≡ Some predicate }
    {
        SkipWhile {
            walker,
            predicate: Some(predicate),
            graph: PhantomData,
        }
    }
}

impl<G, W: FiniteWalker<G>, P: FnMut(&G, &W::Item) -> bool> Walker<G> for SkipWhile<G, W, P>
where
    W::Item: Drop,
{
    ghost use Rattle.std.specs.Prelude.{true};
    ghost use Rattle.std.specs.Option.{ForSome};
    ghost use Rattle.daggy_walk.specs.Adapters.{SkipWhileStep};
    ghost use Rattle.daggy_walk.specs.Walking.{CallableAlong, CallsItem, TakesItem};

    type Item = W::Item;

    ghost can_walk = { λ s g. W.can_walk (skip_while_walker s) g × ForSome (skip_while_predicate s)
        (λ p.
        CallableAlong (λ w o v. W.walk_gives w g o v) (λ f x h. CallsItem P.FnMut f g x true h)
        (λ f x. TakesItem P.FnMut f g x) (skip_while_walker s) p) };

    ghost walk_gives = { λ s g r t. SkipWhileStep (λ w o v. W.walk_gives w g o v) P.FnMut g
        (skip_while_walker s) (skip_while_predicate s) r (skip_while_walker t)
        (skip_while_predicate t) };

    ghost items_left = { λ s g. W.items_left (skip_while_walker s) g };

    #[inline]
    fn walk_next(&mut self, graph: &G) -> Option<W::Item> {
        if let Some(mut predicate) = self.predicate.take() {
            while let Some(item) = self.walker.walk_next(graph) {
                if !predicate(graph, &item) {
                    return Some(item);
                }
            }
            return None;
        }
        self.walker.walk_next(graph)
    }

    #[inline]
    fn upper_bound(&self, graph: &G) -> Option<usize> {
        self.walker.upper_bound(graph)
    }
}

impl<G, W: FiniteWalker<G>, P: FnMut(&G, &W::Item) -> bool> FiniteWalker<G> for SkipWhile<G, W, P>
where
    W::Item: Drop,
{
    ghost ends = { λ w g. W.ends (skip_while_walker w) g };

    #[inline]
    fn ends_over(&self, _graph: &G) {}
}

impl<G, W: FiniteWalker<G> + FusedWalker<G>, P: FnMut(&G, &W::Item) -> bool> FusedWalker<G>
    for SkipWhile<G, W, P>
where
    W::Item: Drop,
{
    ghost use Rattle.daggy_walk.specs.Fused.{skip_while_rests};

    ghost rests = { λ g w t u r. skip_while_rests _ (W.rests g) P.FnMut g _ _ _ _ _ _ r };

    #[inline]
    fn rests_over(&self, _graph: &G) {}
}
