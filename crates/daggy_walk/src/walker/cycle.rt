//! A walk that is repeated endlessly.
ghost use Rattle.std.specs.Prelude.{◌≡◌};
ghost use Rattle.daggy_walk.specs.Parts.{cycle_start, cycle_running};

use crate::walker::Walker;
use std::marker::PhantomData;

/// A walk that starts again each time it ends.
///
/// Over an empty walk it yields nothing each time. Otherwise it never ends, so it is not a
/// [`FiniteWalker`](crate::walker::FiniteWalker).
///
/// # Examples
///
/// ```
/// let mut dag: Dag<&'static str, u32> = Dag::new(rt.alloc());
/// let sow = dag.add_node("sow")?;
/// let (_, reap) = dag.add_child(sow, 90, "reap")?;
/// let (_, water) = dag.add_child(sow, 1, "water")?;
///
/// let mut walk = Cycle::new(dag.children(sow));
/// assert!(rt; walk.walk_next(&dag).is_some_and(|step| step.1 == water));
/// assert!(rt; walk.walk_next(&dag).is_some_and(|step| step.1 == reap));
/// assert!(rt; walk.walk_next(&dag).is_some_and(|step| step.1 == water));
/// ```
#[derive(Drop)]
#[derive_where(Clone, Copy, Debug; W)]
pub struct Cycle<G, W> {
    start: W,
    running: W,
    graph: PhantomData<G>,
}

impl<G, W: Copy> Cycle<G, W> {
    /// The walk of `walker`, repeated endlessly.
    #[inline]
    pub fn new(walker: W) -> Self
        ensures start { cycle_start result ≡ walker }
        ensures running { cycle_running result ≡ walker }
    {
        Cycle {
            start: walker,
            running: walker,
            graph: PhantomData,
        }
    }
}

impl<G, W: Walker<G> + Copy> Walker<G> for Cycle<G, W> {
    ghost use Rattle.daggy_walk.specs.Adapters.{CycleStep};

    type Item = W::Item;

    ghost can_walk = { λ s g. W.can_walk (cycle_start s) g × W.can_walk (cycle_running s) g };

    ghost walk_gives = { λ s g r t. CycleStep (λ w o v. W.walk_gives w g o v)
        (cycle_start s) (cycle_running s) r (cycle_start t) (cycle_running t) };

    #[inline]
    fn walk_next(&mut self, graph: &G) -> Option<W::Item> {
        if let Some(item) = self.running.walk_next(graph) {
            return Some(item);
        }
        self.running = self.start;
        self.running.walk_next(graph)
    }
}
