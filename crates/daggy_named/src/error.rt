//! Errors of adding named nodes and dependencies. Each error holds the arguments that the call
//! took.
ghost use Rattle.std.specs.Prelude.{◌≡◌};
ghost use Rattle.daggy_named.specs.Refused.{key_and_weight_of, weight_of};
ghost use Rattle.daggy_named.specs.Dependencies.{items_of};

use thiserror::Error;

/// A node was not added. The error holds its key and its weight.
///
/// # Examples
///
/// ```
/// let mut plan: Named<&'static str, u32, ()> = Named::new(rt.alloc());
/// plan.add_node("sow", 1)?;
/// match plan.add_node("sow", 2) {
///     Ok(_) => assert!(rt; false),
///     Err(error) => assert!(rt; error.into_parts() == ("sow", 2)),
/// }
/// ```
#[derive(Debug, Drop, Eq, Error, PartialEq)]
pub enum AddError<K, N> {
    /// Another node has the key.
    #[error("the key is taken")]
    Taken(K, N),
    /// The index type has no index left.
    #[error("no index left")]
    Full(K, N),
    /// Out of memory for the node.
    #[error("out of memory")]
    Memory(K, N),
}

impl<K, N> AddError<K, N> {
    /// Returns the key and the weight that the call took.
    pub fn into_parts(self) -> (K, N)
        ensures { result ≡ key_and_weight_of self }
    {
        match self {
            AddError::Taken(key, weight)
            | AddError::Full(key, weight)
            | AddError::Memory(key, weight) => (key, weight),
        }
    }
}

/// A dependency was not added. The error holds the weight of its edge.
///
/// # Examples
///
/// ```
/// let mut plan: Named<&'static str, u32, u32> = Named::new(rt.alloc());
/// plan.add_node("sow", 1)?;
/// let reap_needs_sow = Dependency { dependent: "reap", on: "sow" };
/// let result = plan.add_dependency(reap_needs_sow, 90);
/// assert!(rt; result == Err(DependError::UnknownDependent(90)));
/// assert!(rt; result.map_err(|error| error.into_weight()) == Err(90));
/// ```
#[derive(Debug, Drop, Eq, Error, PartialEq)]
pub enum DependError<E> {
    /// No node has the key of the node to depend on.
    #[error("no node has the key of what is needed")]
    UnknownDependency(E),
    /// No node has the key of the dependent node.
    #[error("no node has the key of what needs it")]
    UnknownDependent(E),
    /// The index type has no index left.
    #[error("no index left")]
    Full(E),
    /// The node to depend on is the dependent node itself or already depends on it, so the edge
    /// would close a cycle. [`path`](crate::named::Named::path) from the dependent node's key to the
    /// other one returns the keys of that cycle.
    #[error("would close a cycle")]
    WouldCycle(E),
    /// Out of memory for the edge.
    #[error("out of memory")]
    Memory(E),
}

impl<E> DependError<E> {
    /// Returns the weight that the call took.
    pub fn into_weight(self) -> E
        ensures { result ≡ weight_of self }
    {
        match self {
            DependError::UnknownDependency(weight)
            | DependError::UnknownDependent(weight)
            | DependError::Full(weight)
            | DependError::WouldCycle(weight)
            | DependError::Memory(weight) => weight,
        }
    }
}

/// The dependencies of a node were not set. The error holds the items that the call took, in the
/// same order.
///
/// # Examples
///
/// ```
/// let mut plan: Named<&'static str, u32, u32> = Named::new(rt.alloc());
/// plan.add_node("reap", 2)?;
/// let needs = vec![in rt.alloc(); ("reap", 5), ("sow", 90)]?;
/// match plan.set_dependencies("reap", needs) {
///     Err(DependenciesError::UnknownDependency(place, items)) => {
///         assert!(rt; place == 1);
///         assert!(rt; items.as_slice() == [("reap", 5), ("sow", 90)].as_slice());
///     }
///     other => assert!(rt; other.is_ok()),
/// }
/// ```
#[derive(Debug, Drop, Eq, Error, PartialEq)]
pub enum DependenciesError<Q, E> {
    /// No node has the key of the dependent node.
    #[error("no node has the key of what needs them")]
    UnknownDependent(Vec<(Q, E)>),
    /// The position, counted from 0, of the first item whose key belongs to no node.
    #[error("no node has the key of item {0}")]
    UnknownDependency(usize, Vec<(Q, E)>),
    /// One of the nodes to depend on is the dependent node itself or already depends on it, so its
    /// edge would close a cycle.
    #[error("would close a cycle")]
    WouldCycle(Vec<(Q, E)>),
    /// The index type has too few indices left for all the new edges.
    #[error("no index left")]
    Full(Vec<(Q, E)>),
    /// Out of memory for an edge, or for the lists of nodes and edges.
    #[error("out of memory")]
    Memory(Vec<(Q, E)>),
}

impl<Q, E> DependenciesError<Q, E> {
    /// Returns the items that the call took, in the same order.
    pub fn into_items(self) -> Vec<(Q, E)>
        ensures { result.items ≡ items_of self }
    {
        match self {
            DependenciesError::UnknownDependent(items)
            | DependenciesError::UnknownDependency(_, items)
            | DependenciesError::WouldCycle(items)
            | DependenciesError::Full(items)
            | DependenciesError::Memory(items) => items,
        }
    }
}

/// Why keys are not the keys of the nodes of a dag. See
/// [`FromDagError`](crate::named::FromDagError).
#[derive(Clone, Copy, Debug, Eq, Error, PartialEq)]
pub enum KeysError {
    /// There are more or fewer keys than nodes.
    #[error("the number of keys is not the number of nodes")]
    Count,
    /// Two keys are equal. The position, counted from 0, of the first key that equals an earlier
    /// one.
    #[error("key {0} equals an earlier one")]
    Repeated(usize),
    /// Out of memory for the keys.
    #[error("out of memory")]
    Memory,
}
