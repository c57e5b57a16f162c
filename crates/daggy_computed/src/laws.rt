//! Laws of computed values, for dags with weights of any types.
//!
//! A law is a function that does nothing at run time. Call it with the types of the formulas, the
//! values and the edge weights; its postcondition then holds in the caller's proof.
ghost use Rattle.daggy_computed.specs.Recomputing.{AreDecided, StayComputed};

/// If each value is the one that a function returns for the node's formula and the values of its
/// parents, the formulas and the edges determine all values. So after a
/// [`refresh`](crate::computed::Computed::refresh), whatever changed before it, the values are the
/// ones that computing everything from scratch would give.
///
/// # Examples
///
/// ```
/// // The formulas, the values and the weights of edges have these types.
/// values_are_decided::<u32, u64, ()>();
/// ```
pub fn values_are_decided<K, V, E>()
    ensures { AreDecided K V E }
{}

/// If `==` is equality, a call whose contract has the clause `values` preserves this: each node is
/// stale, or has the value that the function returns for its formula and the values of its parents.
/// It holds for an empty dag, so it holds after all such calls; after a successful
/// [`refresh`](crate::computed::Computed::refresh) no node is stale.
///
/// # Examples
///
/// ```
/// // The formulas, the values and the weights of edges have these types.
/// values_stay_computed::<u32, u64, ()>();
/// ```
pub fn values_stay_computed<K, V, E>()
    ensures { StayComputed K V E }
{}
