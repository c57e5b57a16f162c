//! One walk after another.
ghost use Rattle.std.specs.Prelude.{◌≡◌, Some};
ghost use Rattle.daggy_walk.specs.Parts.{chain_first, chain_second};

use crate::walker::{FiniteWalker, FusedWalker, Walker};
use std::marker::PhantomData;

/// One walk, followed by another.
///
/// The first walker is dropped when it yields nothing for the first time.
///
/// # Examples
///
/// ```
/// let mut dag: Dag<&'static str, ()> = Dag::new(rt.alloc());
/// let sow = dag.add_node("sow")?;
/// let (_, grow) = dag.add_child(sow, (), "grow")?;
/// let (_, reap) = dag.add_child(grow, (), "reap")?;
/// let mut walk = Chain::new(dag.parents(grow), dag.children(grow));
/// assert!(rt; walk.walk_next(&dag).is_some_and(|step| step.1 == sow));
/// assert!(rt; walk.walk_next(&dag).is_some_and(|step| step.1 == reap));
/// assert!(rt; walk.walk_next(&dag).is_none());
/// ```
#[derive(Drop)]
#[derive_where(Clone, Copy, Debug; A, B)]
pub struct Chain<G, A, B> {
    first: Option<A>,
    second: B,
    graph: PhantomData<G>,
}

impl<G, A, B> Chain<G, A, B> {
    /// The walk of `a`, followed by the walk of `b`.
    #[inline]
    pub fn new(a: A, b: B) -> Self
        ensures first { chain_first result ≡ Some a }
        ensures second { chain_second result ≡ b }
    {
        Chain {
            first: Some(a),
            second: b,
            graph: PhantomData,
        }
    }
}

impl<G, A: Walker<G>, B: Walker<G, Item = A::Item>> Walker<G> for Chain<G, A, B> {
    ghost use Rattle.std.specs.Option.{ForSome};
    ghost use Rattle.daggy_walk.specs.Adapters.{ChainStep, chain_left};

    type Item = A::Item;

    ghost can_walk = { λ s g.
        ForSome (chain_first s) (λ w. A.can_walk w g) × B.can_walk (chain_second s) g };

    ghost walk_gives = { λ s g r t.
        ChainStep (λ w o v. A.walk_gives w g o v) (λ w o v. B.walk_gives w g o v)
        (chain_first s) (chain_second s) r (chain_first t) (chain_second t) };

    ghost items_left = { λ s g.
        chain_left (λ w. A.items_left w g) (B.items_left (chain_second s) g) (chain_first s) };

    #[inline]
    fn walk_next(&mut self, graph: &G) -> Option<A::Item> {
        if let Some(first) = &mut self.first {
            if let Some(item) = first.walk_next(graph) {
                return Some(item);
            }
            self.first = None;
        }
        self.second.walk_next(graph)
    }

    #[inline]
    fn upper_bound(&self, graph: &G) -> Option<usize> {
        let second = self.second.upper_bound(graph)?;
        match &self.first {
            Some(first) => second.checked_add(first.upper_bound(graph)?),
            None => Some(second),
        }
    }
}

impl<G, A: FiniteWalker<G>, B: FiniteWalker<G, Item = A::Item>> FiniteWalker<G> for Chain<G, A, B> {
    ghost use Rattle.daggy_walk.specs.Ends.{chain_ends};

    ghost ends = { λ w g.
        chain_ends _ _ (B.ends (chain_second w) g) (chain_first w) (λ v. A.ends v g) };
}

impl<G, A: Walker<G>, B: FusedWalker<G, Item = A::Item>> FusedWalker<G> for Chain<G, A, B> {
    ghost use Rattle.daggy_walk.specs.Fused.{chain_rests};

    ghost rests = { λ g w t u r. chain_rests _ (B.rests g) _ _ _ _ _ _ _ r };
}
