//! A walk whose items are shown to a function.
ghost use Rattle.std.specs.Prelude.{◌≡◌};
ghost use Rattle.daggy_walk.specs.Parts.{inspect_walker, inspect_function};

use crate::walker::{FiniteWalker, FusedWalker, Walker};

/// A walk that shows each item to a function before yielding it.
///
/// # Examples
///
/// ```
/// let mut dag: Dag<u32, u32> = Dag::new(rt.alloc());
/// let sow = dag.add_node(1)?;
/// let (days, _reap) = dag.add_child(sow, 90, 2)?;
///
/// let mut newest = None;
/// let mut walk = Inspect::new(
///     dag.children(sow),
///     |_: &Dag<u32, u32>, step: &(EdgeIndex, NodeIndex)| newest = Some(step.0),
/// );
/// assert!(rt; walk.walk_next(&dag).is_some());
/// assert!(rt; newest == Some(days));
/// ```
#[derive(Clone, Copy, Debug, Drop)]
pub struct Inspect<W, F> {
    walker: W,
    f: F,
}

impl<W, F> Inspect<W, F> {
    /// The same walk, with each item shown to `f`.
    #[inline]
    pub fn new(walker: W, f: F) -> Self
        ensures walker { inspect_walker result ≡ walker }
        ensures function { inspect_function result ≡ f }
    {
        Inspect { walker, f }
    }
}

impl<G, W: Walker<G>, F: FnMut(&G, &W::Item)> Walker<G> for Inspect<W, F> {
    ghost use Rattle.daggy_walk.specs.Adapters.{InspectStep};
    ghost use Rattle.daggy_walk.specs.Walking.{CallableAlong, CallsItem, TakesItem};

    type Item = W::Item;

    ghost can_walk = { λ s g.
        W.can_walk (inspect_walker s) g × CallableAlong (λ w o v. W.walk_gives w g o v)
        (λ f x h. CallsItem F.FnMut f g x tt h) (λ f x. TakesItem F.FnMut f g x)
        (inspect_walker s) (inspect_function s) };

    ghost walk_gives = { λ s g r t. InspectStep (λ w o v. W.walk_gives w g o v) F.FnMut g
        (inspect_walker s) (inspect_function s) r (inspect_walker t) (inspect_function t) };

    ghost items_left = { λ s g. W.items_left (inspect_walker s) g };

    #[inline]
    fn walk_next(&mut self, graph: &G) -> Option<W::Item> {
        let item = self.walker.walk_next(graph)?;
        (self.f)(graph, &item);
        Some(item)
    }

    #[inline]
    fn upper_bound(&self, graph: &G) -> Option<usize> {
        self.walker.upper_bound(graph)
    }
}

impl<G, W: FiniteWalker<G>, F: FnMut(&G, &W::Item)> FiniteWalker<G> for Inspect<W, F> {
    ghost ends = { λ w g. W.ends (inspect_walker w) g };

    #[inline]
    fn ends_over(&self, _graph: &G) {}
}

impl<G, W: FusedWalker<G>, F: FnMut(&G, &W::Item)> FusedWalker<G> for Inspect<W, F> {
    ghost use Rattle.daggy_walk.specs.Fused.{inspect_rests};

    ghost rests = { λ g w t u r. inspect_rests _ (W.rests g) F.FnMut g _ _ _ _ _ _ r };

    #[inline]
    fn rests_over(&self, _graph: &G) {}
}
