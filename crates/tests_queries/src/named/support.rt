//! Calls of a dag by names, and what is asserted of paths.
//!
//! A call of a dag costs a proof seconds wherever it stands, so each stands here once, for keys of any
//! type, and tests call it.
use crate::support::{made, same};
use daggy_base::index::{EdgeIndex, IndexType, NodeIndex};
use daggy_named::error::{AddError, DependError, DependenciesError};
use daggy_named::named::Named;
use std::hash::Hash;
use std::process::Abort;

/// Adds a node.
pub fn add<K: Eq + Hash + Drop, N: Drop, E: Drop, Ix: IndexType>(
    dag: &mut Named<K, N, E, Ix>,
    key: K,
    weight: N,
) -> Result<NodeIndex<Ix>, AddError<K, N>> {
    dag.add(key, weight)
}

/// Adds a dependency.
pub fn depend<K: Eq + Hash + Drop, N: Drop, E: Drop, Ix: IndexType>(
    dag: &mut Named<K, N, E, Ix>,
    on: &K,
    what: &K,
    weight: E,
) -> Result<EdgeIndex<Ix>, DependError<E>> {
    dag.depend(on, what, weight)
}

/// Replaces all dependencies of a node.
pub fn set<'a, K: Eq + Hash + Drop, N: Drop, E: Drop, Ix: IndexType>(
    dag: &mut Named<K, N, E, Ix>,
    key: &'a K,
    items: Vec<(&'a K, E)>,
) -> Result<(), DependenciesError<&'a K, E>> {
    dag.set_dependencies(key, items)
}

/// Removes a node.
pub fn remove<K: Eq + Hash + Drop, N: Drop, E: Drop, Ix: IndexType>(
    dag: &mut Named<K, N, E, Ix>,
    key: &K,
) -> Option<(K, N)> {
    dag.remove(key)
}

/// Keeps only the nodes whose keys are not this one, and whose weights are not below this one.
pub fn retain<K: Eq + Hash + Drop, N: Ord + Drop, E: Drop, Ix: IndexType>(
    dag: &mut Named<K, N, E, Ix>,
    key: &K,
    least: &N,
) {
    dag.retain(|k, weight| k != key && weight >= least);
}

/// The index of a key.
pub fn index_of<K: Eq + Hash + Drop, N: Drop, E: Drop, Ix: IndexType>(
    dag: &Named<K, N, E, Ix>,
    key: &K,
) -> Option<NodeIndex<Ix>> {
    dag.index_of(key)
}

/// The weight of a key.
pub fn weight<K: Eq + Hash + Drop, N: Copy + Drop, E: Drop, Ix: IndexType>(
    dag: &Named<K, N, E, Ix>,
    key: &K,
) -> Option<N> {
    dag.weight(key).copied()
}

/// The path that a refused dependency would close to a cycle.
pub fn cycle<K: Eq + Hash + Drop, N: Drop, E: Drop, Ix: IndexType>(
    rt: &impl Abort,
    dag: &mut Named<K, N, E, Ix>,
    on: &K,
    what: &K,
) -> Option<Vec<NodeIndex<Ix>>> {
    made(rt, dag.cycle(on, what))
}

/// Asserts that there is a path, and that it goes through these nodes.
pub fn goes<Ix: IndexType>(
    rt: &impl Abort,
    path: Option<Vec<NodeIndex<Ix>>>,
    wanted: &[NodeIndex<Ix>],
) {
    match path {
        Some(path) => same(rt, path.as_slice() == wanted, true),
        None => panic!(rt; "there is no path"),
    }
}
