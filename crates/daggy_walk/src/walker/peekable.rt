//! A walk whose next item can be peeked at.
ghost use Rattle.std.specs.Prelude.{◌≡◌, None};
ghost use Rattle.daggy_walk.specs.Parts.{peekable_walker, peekable_held};

use crate::walker::{FiniteWalker, FusedWalker, Walker};
use std::marker::PhantomData;

/// A walk whose next item can be peeked at.
///
/// # Examples
///
/// ```
/// let mut dag: Dag<&'static str, u32> = Dag::new(rt.alloc());
/// let sow = dag.add_node("sow")?;
/// let (_, _reap) = dag.add_child(sow, 90, "reap")?;
/// let (_, water) = dag.add_child(sow, 1, "water")?;
///
/// let mut walk = Peekable::new(dag.children(sow));
/// assert!(rt; walk.peek(&dag).is_some_and(|step| step.1 == water));
/// // The item is still ahead.
/// assert!(rt; walk.walk_next(&dag).is_some_and(|step| step.1 == water));
/// ```
pub type Peekable<G, W> = Ahead<G, W, <W as Walker<G>>::Item>;

/// The type behind [`Peekable`], spelled out because an alias cannot have methods: write
/// `Peekable<G, W>`. `T` is the type of the items.
#[derive(Drop)]
#[derive_where(Clone, Copy, Debug; W, T)]
pub struct Ahead<G, W, T> {
    pub(super) walker: W,
    pub(super) held: Option<T>,
    graph: PhantomData<G>,
}

impl<G, W, T> Ahead<G, W, T> {
    /// The same walk, with nothing peeked at yet.
    #[inline]
    pub fn new(walker: W) -> Self
        ensures walker { peekable_walker result ≡ walker }
        ensures held { peekable_held result ≡ None }
    {
        Ahead {
            walker,
            held: None,
            graph: PhantomData,
        }
    }
}

impl<G, W: Walker<G>> Walker<G> for Ahead<G, W, W::Item>
where
    W::Item: Drop,
{
    ghost use Rattle.std.specs.Prelude.{◌+◌};
    ghost use Rattle.std.specs.Option.{option_len};
    ghost use Rattle.std.specs.Iterator.{count_map};
    ghost use Rattle.daggy_walk.specs.Adapters.{PeekableStep};

    type Item = W::Item;

    ghost can_walk = { λ s g. W.can_walk (peekable_walker s) g };

    ghost walk_gives = { λ s g r t. PeekableStep (λ w o v. W.walk_gives w g o v)
        (peekable_walker s) (peekable_held s) r (peekable_walker t) (peekable_held t) };

    ghost items_left = { λ s g.
        count_map (λ n. n + option_len (peekable_held s)) (W.items_left (peekable_walker s) g) };

    #[inline]
    fn walk_next(&mut self, graph: &G) -> Option<W::Item> {
        match self.held.take() {
            Some(item) => Some(item),
            None => self.walker.walk_next(graph),
        }
    }

    #[inline]
    fn upper_bound(&self, graph: &G) -> Option<usize> {
        let inner = self.walker.upper_bound(graph)?;
        match &self.held {
            Some(_) => inner.checked_add(1),
            None => Some(inner),
        }
    }
}

impl<G, W: FiniteWalker<G>> FiniteWalker<G> for Ahead<G, W, W::Item>
where
    W::Item: Drop,
{
    ghost ends = { λ w g. W.ends (peekable_walker w) g };
}

impl<G, W: FusedWalker<G>> FusedWalker<G> for Ahead<G, W, W::Item>
where
    W::Item: Drop,
{
    ghost use Rattle.daggy_walk.specs.Fused.{peekable_rests};

    ghost rests = { λ g w t u r. peekable_rests _ (W.rests g) _ _ _ _ _ _ r };
}
