//! Laws of reductions, for graphs with weights of any types.
//!
//! A law is a function that does nothing at run time. Call it next to the reductions that it is
//! about, with the types of their weights; its postcondition then holds in the caller's proof.
ghost use Rattle.daggy_reduction.specs.AnyWeights.{AreAlike, IsLeastOfAll};

/// Two dags over the same nodes, each reduced from roots that reach all of its nodes, have the same
/// adjacent pairs if and only if they had the same reachability before.
///
/// The weights have the types `N` and `E` in one dag, and `M` and `F` in the other. The index
/// types, the kinds of dag and the roots may differ too.
///
/// Call it next to two calls of `transitive_reduce`. The law needs only the postconditions of these
/// calls and the invariants of the dags.
///
/// # Examples
///
/// ```
/// let mut plan: Dag<u32, u32> = Dag::new(rt.alloc());
/// plan.transitive_reduce_all()?;
/// let mut copy: Dag<(), ()> = Dag::new(rt.alloc());
/// copy.transitive_reduce_all()?;
/// // From here on the checker knows the law for dags of these weights.
/// reductions_are_alike::<u32, u32, (), ()>();
/// ```
pub fn reductions_are_alike<N, E, M, F>()
    ensures { AreAlike N E M F }
{}

/// The reduction of a dag is minimal in the part that the roots reach: if it has an edge from `u`,
/// which a root reaches, to `v`, an edge leads from `u` to `v` in every graph with the same
/// reachability as the dag.
///
/// The weights have the types `N` and `E` in the dag, and `M` and `F` in the other graph.
///
/// Call it next to a call of `transitive_reduce`. The law needs only the postcondition of that call
/// and the invariant of the dag.
///
/// # Examples
///
/// ```
/// let mut plan: Dag<u32, u32> = Dag::new(rt.alloc());
/// plan.transitive_reduce_all()?;
/// // From here on the checker knows the law, for other graphs with weights of type `()`.
/// reduction_is_least::<u32, u32, (), ()>();
/// ```
pub fn reduction_is_least<N, E, M, F>()
    ensures { IsLeastOfAll N E M F }
{}
