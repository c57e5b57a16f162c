//! The first steps of a walk that pass a test.
ghost use Rattle.std.specs.Prelude.{◌≡◌, Some};
ghost use Rattle.daggy_walk.specs.Parts.{take_while_walker, take_while_predicate};

use crate::walker::{FiniteWalker, FusedWalker, Walker};
use std::marker::PhantomData;

/// The items of a walk before the first for which a predicate returns false.
///
/// At that item the walker is dropped. If the walker merely yields nothing, it is kept, and the
/// walk may continue.
///
/// # Examples
///
/// ```
/// let mut dag: Dag<u32, u32> = Dag::new(rt.alloc());
/// let sow = dag.add_node(1)?;
/// let (_, _reap) = dag.add_child(sow, 90, 2)?;
/// let (_, water) = dag.add_child(sow, 1, 3)?;
///
/// let is_short = |dag: &Dag<u32, u32>, step: &(EdgeIndex, NodeIndex)| {
///     dag.edge_weight(step.0).is_some_and(|days| *days <= 7)
/// };
/// let mut walk = TakeWhile::new(dag.children(sow), is_short);
/// assert!(rt; walk.walk_next(&dag).is_some_and(|step| step.1 == water));
/// assert!(rt; walk.walk_next(&dag).is_none());
/// ```
#[derive(Drop)]
#[derive_where(Clone, Copy, Debug; W, P)]
pub struct TakeWhile<G, W, P> {
    walker: Option<W>,
    predicate: P,
    graph: PhantomData<G>,
}

impl<G, W, P> TakeWhile<G, W, P> {
    /// The items of a walk before the first for which `predicate` returns false.
    #[inline]
    pub fn new(walker: W, predicate: P) -> Self
        ensures walker { take_while_walker result ≡ Some walker }
        ensures predicate { take_while_predicate result ≡ predicate }
    {
        TakeWhile {
            walker: Some(walker),
            predicate,
            graph: PhantomData,
        }
    }
}

impl<G, W: Walker<G>, P: FnMut(&G, &W::Item) -> bool> Walker<G> for TakeWhile<G, W, P>
where
    W::Item: Drop,
{
    ghost use Rattle.std.specs.Prelude.{true};
    ghost use Rattle.std.specs.Iterator.{at_most};
    ghost use Rattle.std.specs.Option.{ForSome};
    ghost use Rattle.daggy_walk.specs.Adapters.{TakeWhileStep, chain_left};
    ghost use Rattle.daggy_walk.specs.Walking.{CallableAlong, CallsItem, TakesItem};

    type Item = W::Item;

    ghost can_walk = { λ s g. ForSome (take_while_walker s) (λ w. W.can_walk w g
        × CallableAlong (λ w o v. W.walk_gives w g o v)
        (λ f x h. CallsItem P.FnMut f g x true h) (λ f x. TakesItem P.FnMut f g x) w
        (take_while_predicate s)) };

    ghost walk_gives = { λ s g r t. TakeWhileStep (λ w o v. W.walk_gives w g o v) P.FnMut g
        (take_while_walker s) (take_while_predicate s) r (take_while_walker t)
        (take_while_predicate t) };

    ghost items_left = { λ s g.
        chain_left (λ w. W.items_left w g) (at_most 0) (take_while_walker s) };

    #[inline]
    fn walk_next(&mut self, graph: &G) -> Option<W::Item> {
        let Some(walker) = &mut self.walker else {
            return None;
        };
        let item = walker.walk_next(graph)?;
        if (self.predicate)(graph, &item) {
            return Some(item);
        }
        self.walker = None;
        None
    }

    #[inline]
    fn upper_bound(&self, graph: &G) -> Option<usize> {
        match &self.walker {
            Some(walker) => walker.upper_bound(graph),
            None => Some(0),
        }
    }
}

impl<G, W: FiniteWalker<G>, P: FnMut(&G, &W::Item) -> bool> FiniteWalker<G> for TakeWhile<G, W, P>
where
    W::Item: Drop,
{
    ghost use Rattle.daggy_walk.specs.Ends.{chain_ends};

    ghost ends = { λ w g. chain_ends _ _ tt (take_while_walker w) (λ v. W.ends v g) };

    #[inline]
    fn ends_over(&self, _graph: &G) {}
}

impl<G, W: FusedWalker<G>, P: FnMut(&G, &W::Item) -> bool> FusedWalker<G> for TakeWhile<G, W, P>
where
    W::Item: Drop,
{
    ghost use Rattle.daggy_walk.specs.Fused.{take_while_rests};

    ghost rests = { λ g w t u r. take_while_rests _ (W.rests g) P.FnMut g _ _ _ _ _ _ r };

    #[inline]
    fn rests_over(&self, _graph: &G) {}
}
