//! Walkers: iterators that borrow their graph only while they take a step.
//!
//! The adapters work like the adapters of `Iterator`: [`Chain`], [`Cycle`], [`Filter`],
//! [`Inspect`], [`Peekable`], [`Skip`], [`SkipWhile`], [`Take`] and [`TakeWhile`]. In a
//! [`Recursive`] walk a closure chooses each step. [`Walker::iter`] turns a walk into an iterator.
ghost use Rattle.std.specs.Prelude.{◌≡◌, Option, None, IfSome, ⊤};
ghost use Rattle.std.specs.Iterator.{Count, IsFinite, UpTo, endless};
ghost use Rattle.daggy_walk.specs.Fused.{Rests};
ghost use Rattle.daggy_walk.specs.Parts.{iter_walker, iter_graph};
ghost use Rattle.daggy_walk.specs.Walking.{Proceeds};

mod chain;
mod cycle;
mod filter;
mod inspect;
mod iter;
mod peek;
mod peekable;
mod recursive;
mod skip;
mod skip_while;
mod take;
mod take_while;

pub use chain::Chain;
pub use cycle::Cycle;
pub use filter::Filter;
pub use inspect::Inspect;
pub use iter::WalkerIter;
pub use peekable::{Ahead, Peekable};
pub use recursive::{Led, Recursive};
pub use skip::Skip;
pub use skip_while::SkipWhile;
pub use take::Take;
pub use take_while::TakeWhile;

/// A walk over a graph of type `G`.
///
/// A walker works like an iterator, but each step borrows the graph again. So the graph may change
/// between steps, and weights may be written during the walk.
///
/// # Examples
///
/// ```
/// let mut dag: Dag<&'static str, u32> = Dag::new(rt.alloc());
/// let sow = dag.add_node("sow")?;
/// let (_, reap) = dag.add_child(sow, 90, "reap")?;
/// let (_, water) = dag.add_child(sow, 1, "water")?;
///
/// // The newest edge comes first. Each step borrows the dag again.
/// let mut walk = dag.children(sow);
/// assert!(rt; walk.walk_next(&dag).is_some_and(|step| step.1 == water));
/// assert!(rt; walk.walk_next(&dag).is_some_and(|step| step.1 == reap));
/// assert!(rt; walk.walk_next(&dag).is_none());
/// // As an iterator, which borrows the dag for the whole walk.
/// assert!(rt; dag.children(sow).iter(&dag).count() == 2);
/// ```
pub trait Walker<G>: Drop {
    /// The items of the walk.
    type Item;

    // Whether this walker may take a step over this graph. A walker that calls no closure always
    // may.
    ghost can_walk: { Self → G → Type 0 } = { λ _ _. ⊤ };

    // Whether a step from this walker over this graph may yield this item and leave that walker.
    ghost walk_gives: { Self → G → Option Self.Item → Self → Type 0 };

    // How many items may still come, as long as the graph is this one.
    ghost items_left: { Self → G → Count } = { λ _ _. endless };

    /// Takes one step and returns its item, or `None` if no step is possible in this graph.
    ///
    /// # Requires
    ///
    /// - The walker may take a step over `graph`: if it calls a closure, the closure may be called
    ///   with the next item.
    ///
    /// # Complexity
    ///
    /// O(1) for `Children` and `Parents`. An adapter takes a step of the walker that it wraps, or
    /// several if it skips items.
    fn walk_next(&mut self, graph: &G) -> Option<Self::Item>
        requires { can_walk self.old graph.now }
        ensures steps { walk_gives self.old graph.now result self.new }
        ensures goes { Proceeds (λ w. can_walk w graph.now) (λ w. items_left w graph.now) self.old
            result self.new };

    /// An upper bound on the number of items that are left, or `None` if none is known.
    ///
    /// # Complexity
    ///
    /// O(1), or for an adapter the cost of the same method of the walkers that it wraps.
    ///
    /// # Examples
    ///
    /// ```
    /// let mut dag: Dag<&'static str, ()> = Dag::new(rt.alloc());
    /// let sow = dag.add_node("sow")?;
    /// dag.add_child(sow, (), "hoe")?;
    /// dag.add_child(sow, (), "reap")?;
    /// assert!(rt; dag.children(sow).upper_bound(&dag).is_none());
    /// assert!(rt; Take::new(dag.children(sow), 1).upper_bound(&dag) == Some(1));
    /// ```
    #[inline]
    fn upper_bound(&self, graph: &G) -> Option<usize>
        ensures bounded { IfSome result (UpTo (items_left self.now graph.now)) }
    {
        let _ = graph;
        None
    }

    /// Turns the rest of the walk into an iterator that borrows the graph.
    #[inline]
    final fn iter<'a>(self, graph: &'a G) -> WalkerIter<'a, G, Self>
    where
        Self: Sized,
        ensures walker { iter_walker result ≡ self }
        ensures graph { (iter_graph result).now ≡ graph.now }
    {
        WalkerIter::new(self, graph)
    }
}

/// A walker whose walk ends on any graph that does not change during the walk.
///
/// # Examples
///
/// ```
/// fn ends<G, W: FiniteWalker<G>>(walker: &W, graph: &G) {
///     walker.ends_over(graph);
/// }
///
/// let mut dag: Dag<&'static str, ()> = Dag::new(rt.alloc());
/// let sow = dag.add_node("sow")?;
/// // With `Cycle::new(dag.children(sow))` this would not compile.
/// ends(&dag.children(sow), &dag);
/// ```
pub trait FiniteWalker<G>: Walker<G> {
    /// Does nothing. Called only for its postcondition: the walk ends.
    #[inline]
    fn ends_over(&self, graph: &G)
        ensures { IsFinite (Self.items_left self.now graph.now) }
    {
        let _ = graph;
    }

    // The number of items that may still come is bounded.
    ghost ends: { (w : Self) (g : G) → IsFinite (Self.items_left w g) };
}

/// A walker that, once it has yielded nothing, yields nothing in every later step, as long as the
/// graph does not change.
///
/// # Examples
///
/// ```
/// let mut dag: Dag<&'static str, ()> = Dag::new(rt.alloc());
/// let sow = dag.add_node("sow")?;
/// let mut walk = dag.children(sow);
/// assert!(rt; walk.walk_next(&dag).is_none());
/// walk.rests_over(&dag);
/// assert!(rt; walk.walk_next(&dag).is_none());
/// ```
pub trait FusedWalker<G>: Walker<G> {
    /// Does nothing. Called only for its postcondition: after a step that yielded nothing, the next
    /// one yields nothing.
    #[inline]
    fn rests_over(&self, graph: &G)
        ensures { (t u : Self) (r : Option Self.Item) → Self.walk_gives self.now graph.now None t
            → Self.walk_gives t graph.now r u → r ≡ None }
    {
        let _ = graph;
    }

    // After a step that yielded nothing, the next one yields nothing.
    ghost rests: { (g : G) → Rests (λ w o v. Self.walk_gives w g o v) };
}
