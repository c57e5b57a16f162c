//! Sorting the children of a node.
ghost use Rattle.std.specs.Prelude.{◌≡◌, ℕ, ◌+◌, ◌<◌, List, length, map, Contains, IfOk, OnOk, OnErr, slice_get};
ghost use Rattle.std.specs.Prelude.{Some, slice_index_or, IsPermutation};
ghost use Rattle.daggy_base.specs.Graph.{HasNode, out_list};
ghost use Rattle.daggy_base.specs.Path.{IsAcyclic};
ghost use Rattle.daggy_operators.specs.Children.{with_out_list};
ghost use Rattle.daggy_operators.specs.SortedChildren.{Keyed as KeyedEdge, Precedes, HasKey};
ghost use Rattle.daggy_operators.specs.SortedChildren.{CanCallAtChildren, IsSortedByKeys, keyed_by};

use crate::children::{listed_edges, set_out_list};
use daggy_base::index::{Direction, EdgeIndex, IndexType, NodeIndex};
use daggy_base::read_store::ReadStore;
use daggy_base::store::Store;
use daggy_dag::acyclic::Acyclic;
use std::alloc::{AllocError, Global};

// A key, and the edge with its place in its list, by which ties are broken.
type Keyed<K, Ix> = (K, (usize, EdgeIndex<Ix>));

// The edges that leave a node, each with the key of its child.
fn keyed_edges<Ix: IndexType, S: ReadStore<Ix>, K, F: Fn(NodeIndex<Ix>, &S::NodeWeight) -> K>(
    alloc: Global,
    store: &S,
    list: &[EdgeIndex<Ix>],
    _n: NodeIndex<Ix>,
    key: F,
) -> Result<Vec<Keyed<K, Ix>>, AllocError>
where
    K: Drop,
    requires list { map Ix.number list.now ≡ out_list (S.graph store.now) (Ix.number _n) }
    requires can { CanCallAtChildren Ix.of F.pre key (S.graph store.now) (Ix.number _n) }
    ensures edges { IfOk result (λ keyed.
        map (λ p. p.edge) (keyed_by Ix.number keyed.items) ≡ map Ix.number list.now) }
    ensures keys { IfOk result (λ keyed. (p : KeyedEdge K)
        → Contains (keyed_by Ix.number keyed.items) p
        → HasKey Ix.of F.post key (S.graph store.now) p) }
    ensures places { IfOk result (λ keyed. (p : KeyedEdge K)
        → Contains (keyed_by Ix.number keyed.items) p
        → slice_get (map Ix.number list.now) p.place ≡ Some p.edge) }
{
    store.invariant();
    let mut keyed = Vec::with_capacity(alloc, list.len())?;
    'edges: for i in 0..list.len() {
        let e = list[i];
        let Some(ends) = store.edge_endpoints(e) else {
            continue;
        };
        let Some(weight) = store.node_weight(ends.1) else {
            continue;
        };
        keyed.push((key(ends.1, weight), (i, e)))?;
    }
    Ok(keyed)
}

// Sorts by keys, and then by places.
fn sort_keyed<K: Ord, Ix: IndexType>(keyed: &mut Vec<Keyed<K, Ix>>)
    ensures permuted { IsPermutation (keyed_by Ix.number keyed.old.items)
        (keyed_by Ix.number keyed.new.items) }
    ensures sorted { (k : ℕ) (d : KeyedEdge K)
        → k + 1 < length (keyed_by Ix.number keyed.new.items)
        → Precedes K.cmp (slice_index_or (keyed_by Ix.number keyed.new.items) k d)
        (slice_index_or (keyed_by Ix.number keyed.new.items) (k + 1) d) }
{
    keyed.sort_unstable();
}

// The edges alone.
fn edges_of_keyed<K, Ix: IndexType>(
    alloc: Global,
    keyed: &[Keyed<K, Ix>],
) -> Result<Vec<EdgeIndex<Ix>>, AllocError>
    ensures { IfOk result (λ edges. map Ix.number edges.items
        ≡ map (λ p. p.edge) (keyed_by Ix.number keyed.now)) }
{
    let mut edges = Vec::with_capacity(alloc, keyed.len())?;
    'edges: for i in 0..keyed.len() {
        edges.push(keyed[i].1.1)?;
    }
    Ok(edges)
}

/// Sorts the children of a node by keys: afterwards the edges that leave it are in ascending order
/// of the keys of their children, and edges with equal keys are in the order in which they were.
/// Nothing else changes, nor does anything if the node does not exist.
///
/// `key` is called once for each edge, with the child and its weight. [`children`](Acyclic::children)
/// and [`neighbors`](Acyclic::neighbors) yield the children in this order. A new edge still becomes
/// the first.
///
/// # Requires
///
/// - `key` may be called with each child of the node and its weight.
///
/// # Errors
///
/// Returns `AllocError` if an allocation fails; the dag is unchanged.
///
/// # Complexity
///
/// O(slots + k log k) for k children, since all lists are written again, plus the calls.
///
/// # Examples
///
/// ```
/// let mut dag: Dag<&'static str, ()> = Dag::new(rt.alloc());
/// let scene = dag.add_node("scene")?;
/// let (_, floor) = dag.add_child(scene, (), "floor")?;
/// let (_, chair) = dag.add_child(scene, (), "chair")?;
/// let (_, lamp) = dag.add_child(scene, (), "lamp")?;
/// sort_children_by_key(rt.alloc(), &mut dag, scene, |_, name| *name)?;
/// let sorted: Vec<_> = dag.neighbors(scene).collect(rt.alloc())?;
/// assert!(rt; sorted.as_slice() == [chair, floor, lamp].as_slice());
/// ```
pub fn sort_children_by_key<
    N: Drop,
    E: Drop,
    Ix: IndexType,
    S,
    K: Ord + Drop,
    F: Fn(NodeIndex<Ix>, &N) -> K,
>(alloc: Global, dag: &mut Acyclic<N, E, Ix, S>, n: NodeIndex<Ix>, key: F) -> Result<(), AllocError>
where
    S: Store<Ix, NodeWeight = N, EdgeWeight = E>,
    requires { CanCallAtChildren Ix.of F.pre key dag.old.graph (Ix.number n) }
    ensures sorted { HasNode dag.old.graph (Ix.number n) → OnOk result ((order : List ℕ)
        × IsSortedByKeys Ix.of F.post key K.cmp dag.old.graph
        (out_list dag.old.graph (Ix.number n)) order
        × (dag.new.graph ≡ with_out_list dag.old.graph (Ix.number n) order)) }
    ensures missing { ¬ HasNode dag.old.graph (Ix.number n) → dag.new ≡ dag.old }
    ensures unchanged { OnErr result (dag.new ≡ dag.old) }
    ensures acyclic { IsAcyclic dag.new.graph }
    ensures counted { dag.new.looks ≡ dag.old.looks }
{
    // Called for its contract: the dag is well formed and acyclic.
    let _count = dag.node_count();
    if !dag.contains_node(n) {
        return Ok(());
    }
    let list = listed_edges(alloc, dag.graph(), n, Direction::Outgoing)?;
    let mut keyed = keyed_edges(alloc, dag.graph(), list.as_slice(), n, key)?;
    sort_keyed(&mut keyed);
    let order = edges_of_keyed(alloc, keyed.as_slice())?;
    set_out_list(alloc, dag, n, order.as_slice())?;
    Ok(())
}
