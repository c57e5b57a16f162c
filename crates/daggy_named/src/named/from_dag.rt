//! Keys for the nodes of a dag that is there already.
ghost use Rattle.std.specs.Prelude.{◌≡◌, ◌≢◌, ℕ, ◌↔◌, ◌≤◌, [], Some, None, IfOk, IfErr, IsErrAnd};
ghost use Rattle.std.specs.Prelude.{length, vec_len, vec_capacity};
ghost use Rattle.std.specs.List.{IsDistinct};
ghost use Rattle.daggy_base.specs.Graph.{node_count as node_count_of};
ghost use Rattle.daggy_base.specs.WellFormed.{IsWellFormed};
ghost use Rattle.indexmap.specs.IndexMap.{spare};
ghost use Rattle.daggy_named.specs.Places.{keys_at, IsKept};
ghost use Rattle.daggy_named.specs.Keyed.{keys_by_node, IsFirstRepeated};
ghost use Rattle.daggy_named.specs.declared.error.KeysError.TheVariants as cause;

use super::{Named, put_name};
use crate::error::KeysError;
use daggy_base::index::{DefaultIx, IndexType, NodeIndex};
use daggy_dag::acyclic::StableDag;
use daggy_stable::stable_graph::StableDiGraph;
use indexmap::IndexMap;
use std::alloc::{AllocError, Global};
use std::hash::Hash;

/// A dag whose nodes got no keys, with the keys. Returned by [`from_dag`](Named::from_dag).
///
/// # Examples
///
/// ```
/// let mut dag: StableDag<u32, ()> = StableDag::new(rt.alloc());
/// dag.add_node(90)?;
/// dag.add_node(60)?;
/// let keys = Vec::from_array(rt.alloc(), ["hoe", "hoe"])?;
/// let Err(error) = Named::from_dag(dag, keys) else {
///     return Ok(());
/// };
/// assert!(rt; error.cause == KeysError::Repeated(1));
/// assert!(rt; error.dag.node_count() == 2 && error.keys.len() == 2);
/// ```
#[derive(Debug, Drop)]
pub struct FromDagError<K, N: Drop, E: Drop, Ix: IndexType = DefaultIx> {
    /// The dag, unchanged.
    pub dag: StableDag<N, E, Ix>,
    /// The keys.
    pub keys: Vec<K>,
    /// Why they are not the keys of its nodes.
    pub cause: KeysError,
}

// The position of the first key that equals an earlier one.
fn first_repeated<K: Eq + Hash>(alloc: Global, keys: &[K]) -> Result<Option<usize>, AllocError>
    ensures none { IfOk result (λ found. found ≡ None → IsDistinct K.eq keys.now) }
    ensures some { IfOk result (λ found. (j : ℕ)
        → found ≡ Some j → IsFirstRepeated K.eq keys.now j) }
{
    let mut seen: IndexMap<&K, ()> = IndexMap::with_capacity(alloc, keys.len())?;
    'keys: for i in 0..keys.len() {
        let old = seen.insert(&keys[i], ())?;
        if old.is_some() {
            return Ok(Some(i));
        }
    }
    Ok(None)
}

// Room for some keys and slots.
fn room<K: Eq + Hash + Drop, Ix: IndexType>(
    alloc: Global,
    keys: usize,
    slots: usize,
) -> Result<(IndexMap<K, NodeIndex<Ix>>, Vec<Option<usize>>), AllocError>
    ensures empty { IfOk result (λ r. r.0.entries ≡ []) }
    ensures no_places { IfOk result (λ r. r.1.items ≡ []) }
    ensures room { IfOk result (λ r. keys ≤ spare r.0) }
    ensures place_room { IfOk result (λ r. slots ≤ vec_capacity r.1) }
{
    let nodes = IndexMap::with_capacity(alloc, keys)?;
    let places = Vec::with_capacity(alloc, slots)?;
    Ok((nodes, places))
}

// Enters the keys of the nodes of a graph. Room for them is reserved.
fn enter_keys<K: Eq + Hash + Drop, N: Drop, E: Drop, Ix: IndexType>(
    graph: &StableDiGraph<N, E, Ix>,
    keys: Vec<K>,
    nodes: &mut IndexMap<K, NodeIndex<Ix>>,
    places: &mut Vec<Option<usize>>,
)
    requires well_formed { IsWellFormed Ix.greatest graph.now.graph }
    requires counted { vec_len keys ≡ node_count_of graph.now.graph }
    requires distinct { IsDistinct K.eq keys.items }
    requires empty { nodes.old.entries ≡ [] }
    requires no_places { places.old.items ≡ [] }
    requires room { vec_len keys ≤ spare nodes.old }
    requires place_room { length graph.now.graph.nodes ≤ vec_capacity places.old }
    ensures keys { keys_at nodes.new.entries places.new.items
        ≡ keys_by_node graph.now.graph.nodes keys.items }
    ensures kept { IsKept K.eq Ix.number graph.now.graph.nodes nodes.new.entries places.new.items }
{
    let mut keys = keys.into_iter();
    'slots: for i in 0..graph.node_slots() {
        let n = NodeIndex::new(i);
        if !graph.contains_node(n) {
            places.push_reserved(None);
            continue;
        }
        let key = keys.next().unwrap();
        put_name(nodes, places, key, n);
    }
}

impl<K: Eq + Hash + Drop, N: Drop, E: Drop, Ix: IndexType> Named<K, N, E, Ix> {
    /// The same dag with a key for each node. `keys` has the keys of the existing nodes in
    /// ascending index order.
    ///
    /// # Errors
    ///
    /// Each error holds the dag and the keys. Its `cause` is:
    ///
    /// - `KeysError::Count` if there are more or fewer keys than nodes.
    /// - `KeysError::Repeated` if two keys are equal. It holds the position of the first key that
    ///   equals an earlier one.
    /// - `KeysError::Memory` if an allocation fails.
    ///
    /// # Complexity
    ///
    /// O(node slots) on average, with two hash lookups for each key.
    ///
    /// # Examples
    ///
    /// ```
    /// let mut dag: StableDag<u32, ()> = StableDag::new(rt.alloc());
    /// let sow = dag.add_node(90)?;
    /// dag.add_child(sow, (), 60)?;
    /// let keys = Vec::from_array(rt.alloc(), ["sow", "hoe"])?;
    /// if let Ok(plan) = Named::from_dag(dag, keys) {
    ///     assert!(rt; plan.index_of("sow") == Some(sow));
    ///     assert!(rt; plan.weight("hoe") == Some(&60));
    /// }
    /// ```
    pub fn from_dag(
        dag: StableDag<N, E, Ix>,
        keys: Vec<K>,
    ) -> Result<Self, FromDagError<K, N, E, Ix>>
        ensures graph { IfOk result (λ d. d.graph ≡ dag.graph) }
        ensures keys { IfOk result (λ d. d.keys ≡ keys_by_node dag.graph.nodes keys.items) }
        ensures distinct { IfOk result (λ _. IsDistinct K.eq keys.items) }
        ensures count { IsErrAnd result (λ e. e.cause ≡ cause.Count)
            ↔ (vec_len keys ≢ node_count_of dag.graph) }
        ensures repeated { IfErr result (λ e. (j : ℕ)
            → e.cause ≡ cause.Repeated j → IsFirstRepeated K.eq keys.items j) }
        ensures returned { IfErr result (λ e. (e.dag ≡ dag) × (e.keys ≡ keys)) }
    {
        if keys.len() != dag.node_count() {
            let cause = KeysError::Count;
            return Err(FromDagError { dag, keys, cause });
        }
        let alloc = dag.allocator();
        match first_repeated(alloc, keys.as_slice()) {
            Ok(None) => {}
            Ok(Some(j)) => {
                let cause = KeysError::Repeated(j);
                return Err(FromDagError { dag, keys, cause });
            }
            Err(_) => {
                let cause = KeysError::Memory;
                return Err(FromDagError { dag, keys, cause });
            }
        }
        let Ok((mut nodes, mut places)) = room(alloc, keys.len(), dag.graph().node_slots()) else {
            let cause = KeysError::Memory;
            return Err(FromDagError { dag, keys, cause });
        };
        enter_keys(dag.graph(), keys, &mut nodes, &mut places);
        Ok(Named { dag, nodes, places })
    }
}
