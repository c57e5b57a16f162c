//! Recomputing the stale nodes.
ghost use Rattle.std.specs.Prelude.{◌≡◌, ◌≢◌, ◌<◌, ◌≤◌, ◌⊎◌, ℕ, List, map, length, Contains, vec_len};
ghost use Rattle.std.specs.Prelude.{IsNone, IfOk, OnOk, IfErr, OnErr, IfSome, slice_index_or};
ghost use Rattle.daggy_base.specs.Ordered.{IsOrderOf, place};
ghost use Rattle.daggy_computed.specs.Cells.{cells, IsStaleAt};
ghost use Rattle.daggy_computed.specs.Heaps.{IsHeap, place_by};
ghost use Rattle.daggy_computed.specs.Marking.{children_of};
ghost use Rattle.daggy_computed.specs.Settling.{Gives, Refuses, IsTurn, Refreshes};
ghost use Rattle.daggy_computed.specs.Refreshing.{IsReady, IsCause, IsAscending, IsUnderWay};

use crate::entry::{Entry, is_stale, settle};
use crate::error::RefreshError;
use crate::inputs::Inputs;
use crate::needed::refresh_one;
use crate::queue::Queue;
use crate::turn::{evaluate, mark_children};
use daggy_base::index::{IndexType, NodeIndex};
use daggy_base::read_store::ReadStore;
use daggy_order::order::Order;

// Takes nodes that are not stale from the front of a heap, and returns the first that is stale.
fn first_stale<V, Ix: IndexType>(
    order: &Order<Ix>,
    entries: &[Entry<V>],
    queue: &mut Queue<Ix>,
) -> Option<NodeIndex<Ix>>
    requires heap { IsHeap (place_by Ix.number order.now) queue.old.nodes (length queue.old.nodes) }
    requires waits { (m : ℕ) → IsStaleAt entries.now m → Contains (map Ix.number queue.old.nodes) m }
    ensures none { IsNone result → (m : ℕ) → ¬ IsStaleAt entries.now m }
    ensures some { IfSome result (λ n. (0 < length queue.new.nodes)
        × (n ≡ slice_index_or queue.new.nodes 0 n) × IsStaleAt entries.now (Ix.number n)) }
    ensures first { IfSome result (λ n. (m : ℕ) → IsStaleAt entries.now m
        → place order.now (Ix.number n) ≤ place order.now m) }
    ensures heap { IsHeap (place_by Ix.number order.now) queue.new.nodes (length queue.new.nodes) }
    ensures waits { (m : ℕ) → IsStaleAt entries.now m → Contains (map Ix.number queue.new.nodes) m }
    ensures slots { queue.new.slots ≡ queue.old.slots }
{
    'nodes: while let Some(n) = queue.first() {
        if is_stale(entries, n.index()) {
            return Some(n);
        }
        queue.pop(order);
    }
    None
}

// Computes the value of the first node of a heap, which is stale, and takes the node out. If the value
// is new, the children of the node are stale then. Returns whether it is.
fn refresh_first<K, V: PartialEq + Drop, X, Ix: IndexType, S: ReadStore<Ix, NodeWeight = K>, F>(
    store: &S,
    order: &Order<Ix>,
    n: NodeIndex<Ix>,
    entries: &mut Vec<Entry<V>>,
    queue: &mut Queue<Ix>,
    parents: &mut Vec<usize>,
    f: &F,
) -> Result<bool, RefreshError<X, Ix>>
where
    F: Fn(&K, Inputs<'_, V>) -> Result<V, X>,
    requires callable { F.IsAlwaysCallable f.now }
    requires ready { IsReady (S.graph store.now) entries.old.items queue.old.slots
        (map Ix.number queue.old.nodes) }
    requires heap { IsHeap (place_by Ix.number order.now) queue.old.nodes (length queue.old.nodes) }
    requires some { 0 < length queue.old.nodes }
    requires first { n ≡ slice_index_or queue.old.nodes 0 n }
    requires stale { IsStaleAt entries.old.items (Ix.number n) }
    ensures turn { IfOk result (λ is_new. IsTurn V.eq (Gives F.post f.now) (Ix.number n)
        (cells (S.graph store.now) entries.old.items) (cells (S.graph store.now) entries.new.items)
        is_new) }
    ensures stale { OnOk result ((m : ℕ) → IsStaleAt entries.new.items m
        → Contains (children_of (S.graph store.now) (Ix.number n)) m
        ⊎ ((m ≢ Ix.number n) × IsStaleAt entries.old.items m)) }
    ensures failed { IfErr result (λ e. IsCause Ix.number (Refuses F.post f.now)
        (cells (S.graph store.now) entries.new.items) e) }
    ensures unchanged { OnErr result (entries.new.items ≡ entries.old.items) }
    ensures ready { IsReady (S.graph store.now) entries.new.items queue.new.slots
        (map Ix.number queue.new.nodes) }
    ensures heap { IsHeap (place_by Ix.number order.now) queue.new.nodes (length queue.new.nodes) }
    ensures len { vec_len entries.new ≡ vec_len entries.old }
{
    store.invariant();
    let value = evaluate(store, entries.as_slice(), n, parents, f)?;
    let is_new = settle(entries, n.index(), value);
    queue.pop(order);
    if !is_new {
        return Ok(false);
    }
    let from = queue.len();
    mark_children(store, n, entries, queue);
    queue.sift_from(order, from);
    Ok(true)
}

// Computes the stale nodes along the whole order, and notes the nodes whose values are new, after those
// that were noted before. No node waits then.
fn refresh_along<K, V: PartialEq + Drop, X, Ix: IndexType, S: ReadStore<Ix, NodeWeight = K>, F>(
    store: &S,
    order: &Order<Ix>,
    entries: &mut Vec<Entry<V>>,
    queue: &mut Queue<Ix>,
    parents: &mut Vec<usize>,
    changed: &mut Vec<NodeIndex<Ix>>,
    f: &F,
) -> Result<(), RefreshError<X, Ix>>
where
    F: Fn(&K, Inputs<'_, V>) -> Result<V, X>,
    requires callable { F.IsAlwaysCallable f.now }
    requires ordered { IsOrderOf (S.graph store.now) order.now }
    requires ready { IsReady (S.graph store.now) entries.old.items queue.old.slots
        (map Ix.number queue.old.nodes) }
    ensures under_way { (es : List (Entry V))
        → IsUnderWay V.eq (Gives F.post f.now) order.now (S.graph store.now) es entries.old.items
        (map Ix.number changed.old.items)
        → IsUnderWay V.eq (Gives F.post f.now) order.now (S.graph store.now) es entries.new.items
        (map Ix.number changed.new.items) }
    ensures fresh { OnOk result ((m : ℕ) → ¬ IsStaleAt entries.new.items m) }
    ensures failed { IfErr result (λ e. IsCause Ix.number (Refuses F.post f.now)
        (cells (S.graph store.now) entries.new.items) e) }
    ensures len { vec_len entries.new ≡ vec_len entries.old }
    ensures ready { IsReady (S.graph store.now) entries.new.items queue.new.slots
        (map Ix.number queue.new.nodes) }
{
    store.invariant();
    'nodes: for n in order.nodes() {
        if !is_stale(entries.as_slice(), n.index()) {
            continue;
        }
        if changed.reserve(1).is_err() {
            return Err(RefreshError::Memory);
        }
        if refresh_one(store, n, entries, queue, parents, f)? {
            changed.push_reserved(n);
        }
    }
    queue.clear();
    Ok(())
}

// Computes the stale nodes, each when it is the first of them in the order, and notes the nodes whose
// values are new. Where many nodes wait, going along the order takes less than a heap.
pub(crate) fn refresh_nodes<
    K,
    V: PartialEq + Drop,
    X,
    Ix: IndexType,
    S: ReadStore<Ix, NodeWeight = K>,
    F,
>(
    store: &S,
    order: &Order<Ix>,
    entries: &mut Vec<Entry<V>>,
    queue: &mut Queue<Ix>,
    parents: &mut Vec<usize>,
    changed: &mut Vec<NodeIndex<Ix>>,
    f: &F,
) -> Result<(), RefreshError<X, Ix>>
where
    F: Fn(&K, Inputs<'_, V>) -> Result<V, X>,
    requires callable { F.IsAlwaysCallable f.now }
    requires ordered { IsOrderOf (S.graph store.now) order.now }
    requires ready { IsReady (S.graph store.now) entries.old.items queue.old.slots
        (map Ix.number queue.old.nodes) }
    ensures turns { (turns : List ℕ) × IsAscending order.now turns
        × Refreshes V.eq (Gives F.post f.now) turns (cells (S.graph store.now) entries.old.items)
        (cells (S.graph store.now) entries.new.items) (map Ix.number changed.new.items) }
    ensures fresh { OnOk result ((m : ℕ) → ¬ IsStaleAt entries.new.items m) }
    ensures failed { IfErr result (λ e. IsCause Ix.number (Refuses F.post f.now)
        (cells (S.graph store.now) entries.new.items) e) }
    ensures len { vec_len entries.new ≡ vec_len entries.old }
    ensures ready { IsReady (S.graph store.now) entries.new.items queue.new.slots
        (map Ix.number queue.new.nodes) }
{
    store.invariant();
    changed.clear();
    let many = order.len() / 16;
    if queue.len() > many {
        return refresh_along(store, order, entries, queue, parents, changed, f);
    }
    queue.sift_from(order, 0);
    'nodes: while let Some(n) = first_stale(order, entries.as_slice(), queue) {
        if queue.len() > many {
            return refresh_along(store, order, entries, queue, parents, changed, f);
        }
        if changed.reserve(1).is_err() {
            return Err(RefreshError::Memory);
        }
        if refresh_first(store, order, n, entries, queue, parents, f)? {
            changed.push_reserved(n);
        }
    }
    Ok(())
}
