//! Replacing all edges that enter a node: the part before the old edges are removed.
ghost use Rattle.std.specs.Prelude.{◌≡◌, ◌≢◌, ℕ, ◌+◌, ◌<◌, ◌≤◌, ◌↔◌, ◌⊎◌, true, false, List, ◌++◌, length, Contains};
ghost use Rattle.std.specs.Prelude.{map, reverse, take, vec_len, vec_capacity, IfOk, OnOk, IfErr, OnErr};
ghost use Rattle.std.specs.List.{All};
ghost use Rattle.daggy_base.specs.Graph.{Graph, HasNode, node_bound, edge_count};
ghost use Rattle.daggy_base.specs.Ordered.{IsOrderOf, place};
ghost use Rattle.daggy_base.specs.Path.{Reaches};
ghost use Rattle.daggy_base.specs.WellFormed.{IsWellFormed};
ghost use Rattle.daggy_guard.specs.BatchProgress.{IsBatchSoFar};
ghost use Rattle.daggy_guard.specs.EdgeBatch.{with_edges, new_edges};
ghost use Rattle.daggy_guard.specs.Parents.{edges_to, ReachesParent};

use daggy_base::index::{EdgeIndex, IndexType, NodeIndex};
use daggy_base::read_store::ReadStore;
use daggy_base::store::Store;
use daggy_edge_order::edge_order::order_without_search;
use daggy_order::order::{Order, order_edge};
use daggy_search::Scratch;
use std::alloc::Global;

// Moves the parents of the items before `n` in the order, as far as this needs no search.
fn order_parents_without_search<Ix: IndexType, S: ReadStore<Ix>>(
    store: &S,
    order: &mut Order<Ix>,
    n: NodeIndex<Ix>,
    items: &[(NodeIndex<Ix>, S::EdgeWeight)],
)
    requires node { HasNode (S.graph store.now) (Ix.number n) }
    requires parents { All (λ x. HasNode (S.graph store.now) (Ix.number x.0)) items.now }
    requires ordered { IsOrderOf (S.graph store.now) order.old }
    ensures { IsOrderOf (S.graph store.now) order.new }
{
    'items: for i in 0..items.len() {
        order_without_search(store, order, items[i].0, n);
    }
}

// The later, in the order, of two nodes.
fn later_of<Ix: IndexType>(order: &Order<Ix>, a: NodeIndex<Ix>, b: NodeIndex<Ix>) -> NodeIndex<Ix>
    requires first { Contains order.now (Ix.number a) }
    requires second { Contains order.now (Ix.number b) }
    ensures { ((result ≡ a) × (place order.now (Ix.number b) ≤ place order.now (Ix.number a)))
        ⊎ ((result ≡ b) × (place order.now (Ix.number a) < place order.now (Ix.number b))) }
{
    if order.stands_before(a, b) { b } else { a }
}

// The last, in the order, of `n` and the parents of the items.
fn last_of<Ix: IndexType, E>(
    order: &Order<Ix>,
    n: NodeIndex<Ix>,
    items: &[(NodeIndex<Ix>, E)],
) -> NodeIndex<Ix>
    requires node { Contains order.now (Ix.number n) }
    requires parents { All (λ x. Contains order.now (Ix.number x.0)) items.now }
    ensures one { (Ix.number result ≡ Ix.number n)
        ⊎ ((x : Ix × E) × Contains items.now x × (Ix.number x.0 ≡ Ix.number result)) }
    ensures behind { place order.now (Ix.number n) ≤ place order.now (Ix.number result) }
    ensures last { All (λ x. place order.now (Ix.number x.0) ≤ place order.now (Ix.number result)) items.now }
{
    let mut last = n;
    'items: for i in 0..items.len() {
        last = later_of(order, last, items[i].0);
    }
    last
}

// Whether the parent of each item precedes `n`.
fn precede<Ix: IndexType, E>(
    order: &Order<Ix>,
    n: NodeIndex<Ix>,
    items: &[(NodeIndex<Ix>, E)],
) -> bool
    requires node { Contains order.now (Ix.number n) }
    requires parents { All (λ x. Contains order.now (Ix.number x.0)) items.now }
    ensures all { result ≡ true
        → All (λ x. place order.now (Ix.number x.0) < place order.now (Ix.number n)) items.now }
    ensures some { result ≡ false → (x : Ix × E) × Contains items.now x
        × (place order.now (Ix.number n) ≤ place order.now (Ix.number x.0)) }
{
    'items: for i in 0..items.len() {
        if !order.stands_before(items[i].0, n) {
            return false;
        }
    }
    true
}

// Updates the order for an edge from `last` to `n`, unless they are the same node. Returns false if
// `n` reaches it. Otherwise, of the nodes that did not follow `last`, `n` reaches those that do not
// precede it then.
fn order_up_to<Ix: IndexType, S: ReadStore<Ix>>(
    store: &mut S,
    order: &mut Order<Ix>,
    scratch: &mut Scratch<Ix>,
    last: NodeIndex<Ix>,
    n: NodeIndex<Ix>,
) -> bool
    requires last { HasNode (S.graph store.old) (Ix.number last) }
    requires node { HasNode (S.graph store.old) (Ix.number n) }
    requires fits { node_bound (S.graph store.old) ≤ scratch.old.nodes }
    requires ordered { IsOrderOf (S.graph store.old) order.old }
    requires behind { place order.old (Ix.number n) ≤ place order.old (Ix.number last) }
    ensures refused { result ≡ false → (Ix.number last ≢ Ix.number n)
        × Reaches (S.graph store.old) (Ix.number n) (Ix.number last) }
    ensures reached { result ≡ true → (u : ℕ) → HasNode (S.graph store.old) u
        → place order.old u ≤ place order.old (Ix.number last)
        → place order.new (Ix.number n) ≤ place order.new u
        → Reaches (S.graph store.old) (Ix.number n) u }
    ensures ordered { IsOrderOf (S.graph store.old) order.new }
    ensures same { S.graph store.new ≡ S.graph store.old }
    ensures looked { S.looks store.old ≤ S.looks store.new }
    ensures counted { S.looks store.new ≤ S.looks store.old + edge_count (S.graph store.old) }
    ensures same_capacity { scratch.new ≡ scratch.old }
{
    store.invariant();
    if last.index() == n.index() {
        return true;
    }
    order_edge(store, order, last, n, scratch)
}

/// Updates the order so that the parent of each item precedes `n`. Returns false if `n` reaches one
/// of these parents.
///
/// It searches once, for the parent that is last in the order. The nodes that `n` reaches and that
/// precede this parent are moved after it. Each other parent then precedes `n`, unless `n` reaches
/// it.
pub fn make_way_for_parents<Ix: IndexType, S: ReadStore<Ix>>(
    store: &mut S,
    order: &mut Order<Ix>,
    scratch: &mut Scratch<Ix>,
    n: NodeIndex<Ix>,
    items: &[(NodeIndex<Ix>, S::EdgeWeight)],
) -> bool
    requires node { HasNode (S.graph store.old) (Ix.number n) }
    requires parents { All (λ x. HasNode (S.graph store.old) (Ix.number x.0)) items.now }
    requires fits { node_bound (S.graph store.old) ≤ scratch.old.nodes }
    requires ordered { IsOrderOf (S.graph store.old) order.old }
    ensures decided { result ≡ false
        ↔ ReachesParent Ix.number (S.graph store.old) (Ix.number n) items.now }
    ensures ordered { IsOrderOf (S.graph store.old) order.new }
    ensures before { result ≡ true
        → All (λ x. place order.new (Ix.number x.0) < place order.new (Ix.number n)) items.now }
    ensures same { S.graph store.new ≡ S.graph store.old }
    ensures looked { S.looks store.old ≤ S.looks store.new }
    ensures counted { S.looks store.new ≤ S.looks store.old + edge_count (S.graph store.old) }
    ensures same_capacity { scratch.new ≡ scratch.old }
{
    store.invariant();
    order_parents_without_search(store, order, n, items);
    let last = last_of(order, n, items);
    if !order_up_to(store, order, scratch, last, n) {
        return false;
    }
    precede(order, n, items)
}

// Removes the edges of the first items, the newest first, and appends each item to the others again.
fn take_back_parents<Ix: IndexType, S: Store<Ix>>(
    store: &mut S,
    edges: &[EdgeIndex<Ix>],
    slot_count: usize,
    items: &mut Vec<(NodeIndex<Ix>, S::EdgeWeight)>,
)
    requires batch { (before : Graph S.NodeWeight S.EdgeWeight) × (n : ℕ)
        × (given : List (Ix × S.EdgeWeight))
        × IsBatchSoFar Ix.greatest S.KIND before (S.graph store.old) (edges_to Ix.number n given)
        (map Ix.number edges.now) slot_count }
    requires capacity { vec_len items.old + length edges.now ≤ vec_capacity items.old }
    ensures undone { (before : Graph S.NodeWeight S.EdgeWeight) (n : ℕ)
        (given : List (Ix × S.EdgeWeight))
        → IsBatchSoFar Ix.greatest S.KIND before (S.graph store.old) (edges_to Ix.number n given)
        (map Ix.number edges.now) slot_count
        → S.graph store.new ≡ before }
    ensures returned { (before : Graph S.NodeWeight S.EdgeWeight) (n : ℕ)
        (given : List (Ix × S.EdgeWeight))
        → IsBatchSoFar Ix.greatest S.KIND before (S.graph store.old) (edges_to Ix.number n given)
        (map Ix.number edges.now) slot_count
        → items.new.items ≡ items.old.items ++ reverse given }
    ensures counted { S.looks store.new ≡ S.looks store.old }
{
    let mut left = edges.len();
    'steps: while left > 0 {
        left -= 1;
        let e = edges[left];
        // The edge was just added, so it exists.
        let Some((parent, _child)) = store.edge_endpoints(e) else {
            return;
        };
        let weight = store.take_back_edge(e, slot_count <= e.index());
        items.push_reserved((parent, weight));
    }
}

/// Adds an edge to `n` from the parent of each item, in the order of the items, and returns the
/// indices. If an allocation fails, nothing has changed, and the items are returned.
pub fn add_parents<Ix: IndexType, S: Store<Ix>>(
    store: &mut S,
    alloc: Global,
    n: NodeIndex<Ix>,
    items: Vec<(NodeIndex<Ix>, S::EdgeWeight)>,
) -> Result<Vec<EdgeIndex<Ix>>, Vec<(NodeIndex<Ix>, S::EdgeWeight)>>
    requires node { HasNode (S.graph store.old) (Ix.number n) }
    requires parents { All (λ x. HasNode (S.graph store.old) (Ix.number x.0)) items.items }
    requires indices_left { edge_count (S.graph store.old) + vec_len items ≤ Ix.greatest }
    ensures added { OnOk result (S.graph store.new
        ≡ with_edges (S.graph store.old) (edges_to Ix.number (Ix.number n) items.items)) }
    ensures indices { IfOk result (λ edges. map Ix.number edges.items
        ≡ new_edges (S.graph store.old) (edges_to Ix.number (Ix.number n) items.items)) }
    ensures well_formed { OnOk result ((k : ℕ)
        → k < length (edges_to Ix.number (Ix.number n) items.items)
        → IsWellFormed Ix.greatest (with_edges (S.graph store.old)
        (take k (edges_to Ix.number (Ix.number n) items.items)))) }
    ensures returned { IfErr result (λ back. back.items ≡ items.items) }
    ensures unchanged { OnErr result (S.graph store.new ≡ S.graph store.old) }
    ensures counted { S.looks store.new ≡ S.looks store.old }
{
    store.invariant();
    let slot_count = store.edge_slots();
    let mut edges = Vec::new(alloc);
    if edges.reserve(items.len()).is_err() {
        return Err(items);
    }
    let mut left = items;
    left.reverse();
    'items: while let Some(item) = left.pop() {
        let (parent, weight) = item;
        store.invariant();
        match store.add_edge(parent, n, weight) {
            Ok(e) => edges.push_reserved(e),
            Err(error) => {
                left.push_reserved((parent, error.into_weight()));
                take_back_parents(store, edges.as_slice(), slot_count, &mut left);
                left.reverse();
                return Err(left);
            }
        }
    }
    Ok(edges)
}
