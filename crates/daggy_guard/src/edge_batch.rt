//! Batches of edges, of which all or none are added.
ghost use Rattle.std.specs.Prelude.{◌≡◌, ℕ, ◌+◌, ◌<◌, ◌≤◌, ◌↔◌, ◌⊎◌, true, false, max, List, [], ◌∷◌};
ghost use Rattle.std.specs.Prelude.{◌++◌, length, map, reverse, vec_len, vec_capacity, Contains};
ghost use Rattle.std.specs.Prelude.{IfOk, OnOk, IfErr, OnErr};
ghost use Rattle.std.specs.Iterator.{IsFinite, IsFiniteIterable};
ghost use Rattle.daggy_base.specs.Graph.{Graph, HasNode, node_bound, node_count, edge_count};
ghost use Rattle.daggy_base.specs.Path.{IsAcyclic};
ghost use Rattle.daggy_base.specs.Adding.{with_edge, next_edge};
ghost use Rattle.daggy_base.specs.WellFormed.{IsWellFormed};
ghost use Rattle.daggy_base.specs.Ordered.{IsOrderOf};
ghost use Rattle.daggy_guard.specs.EdgeBatch.{HasEnds, IsAdded, IsRefused};
ghost use Rattle.daggy_base.specs.Adding.{NewEdge, by_numbers};
ghost use Rattle.daggy_guard.specs.EdgeBatch.{most_looks};
ghost use Rattle.daggy_guard.specs.BatchProgress.{IsBatchSoFar, IsFault, IsKept, IsStep, IsWithin};
ghost use Rattle.daggy_guard.specs.BatchProgress.{refusal};
ghost use Rattle.daggy_guard.specs.declared.edge_batch.Standing.TheVariants.{Closed};

use crate::edge_indices::EdgeIndices;
use crate::guard::Guarded;
use crate::packed::sort;
use daggy_base::error::{EdgesError, WouldCycle};
use daggy_base::index::{EdgeIndex, IndexType, NodeIndex};
use daggy_base::read_store::ReadStore;
use daggy_base::store::Store;
use daggy_edge_order::edge_order::order_without_search;
use daggy_order::order::{Order, order_edge_counted};
use daggy_search::Scratch;

// Why an edge cannot be added, with its weight.
#[derive(Drop)]
pub(crate) enum Fault<E> {
    BadEndpoint(E),
    Full(E),
    Memory(E),
}

impl<E> Fault<E> {
    // The error of a whole batch, with the weights of the edges before this one.
    fn after(self, before: Vec<E>) -> EdgesError<E>
        ensures { result ≡ refusal self before }
    {
        match self {
            Fault::BadEndpoint(last) => EdgesError::BadEndpoint { last, before },
            Fault::Full(last) => EdgesError::Full { last, before },
            Fault::Memory(last) => EdgesError::Memory { last, before },
        }
    }
}

// Takes back the edges of a batch, the last one first, and returns their weights in that order.
fn roll_back<Ix: IndexType, S: Store<Ix>>(
    store: &mut S,
    edges: &[EdgeIndex<Ix>],
    slot_count: usize,
    weights: &mut Vec<S::EdgeWeight>,
)
    requires batch { (before : Graph S.NodeWeight S.EdgeWeight) × (xs : List (NewEdge S.EdgeWeight))
        × IsBatchSoFar Ix.greatest S.KIND before (S.graph store.old) xs (map Ix.number edges.now)
        slot_count }
    requires empty { weights.old.items ≡ [] }
    requires capacity { vec_len weights.old + length edges.now ≤ vec_capacity weights.old }
    ensures undone { (before : Graph S.NodeWeight S.EdgeWeight) (xs : List (NewEdge S.EdgeWeight))
        → IsBatchSoFar Ix.greatest S.KIND before (S.graph store.old) xs (map Ix.number edges.now)
        slot_count
        → S.graph store.new ≡ before }
    ensures returned { (before : Graph S.NodeWeight S.EdgeWeight) (xs : List (NewEdge S.EdgeWeight))
        → IsBatchSoFar Ix.greatest S.KIND before (S.graph store.old) xs (map Ix.number edges.now)
        slot_count
        → weights.new.items ≡ reverse (map (λ x. x.2) xs) }
    ensures counted { S.looks store.new ≡ S.looks store.old }
{
    let mut left = edges.len();
    'steps: while left > 0 {
        left -= 1;
        let e = edges[left];
        let made = slot_count <= e.index();
        let weight = store.take_back_edge(e, made);
        weights.push_reserved(weight);
    }
}

// How the order relates to the edges of a batch that were added so far.
#[derive(Clone, Copy)]
pub(crate) enum Standing {
    // It agrees with all of them. Searches may read this many more edges before the order is
    // abandoned.
    Kept(usize),
    // It was abandoned at an edge that conflicts with it. All nodes are sorted at the end.
    Left,
    // One of them closed a cycle.
    Closed,
}

// How many edges the searches for a batch may read before the order is abandoned: about as many as
// sorting reads.
fn search_budget<Ix: IndexType, S: ReadStore<Ix>>(store: &S) -> usize
    ensures { result ≡ max (node_count (S.graph store.now)) (edge_count (S.graph store.now)) }
{
    store.node_count().max(store.edge_count())
}

// A batch of fewer edges is never long.
const LONG: usize = 32;

// A batch is long if it has at least 1/SHARE as many edges as the graph has nodes, and as the graph
// has edges.
const SHARE: usize = 16;

// Whether sorting all nodes costs at most a small multiple of adding a batch of `len` edges.
fn is_long(len: usize, nodes: usize, edges: usize) -> bool {
    len >= LONG && len >= nodes / SHARE && len >= edges / SHARE
}

// Updates the order for the next edge of a batch of at least `len` edges.
//
// After the first edge that closes a cycle it does nothing. At an edge that needs a search it
// abandons the order if sorting all nodes once is expected to cost less than searching for each
// edge: if the batch is long compared with the graph, or if searches have read as many edges as
// they may.
fn order_item<Ix: IndexType, S: ReadStore<Ix>>(
    store: &mut S,
    order: &mut Order<Ix>,
    scratch: &mut Scratch<Ix>,
    a: NodeIndex<Ix>,
    b: NodeIndex<Ix>,
    len: usize,
    standing: Standing,
) -> Standing
    requires parent { HasNode (S.graph store.old) (Ix.number a) }
    requires child { HasNode (S.graph store.old) (Ix.number b) }
    requires fits { node_bound (S.graph store.old) ≤ scratch.old.nodes }
    requires ordered { IsKept standing → IsOrderOf (S.graph store.old) order.old }
    ensures step { IsStep (S.graph store.old) (Ix.number a) (Ix.number b)
        (record { standing = standing; order = order.old })
        (record { standing = result; order = order.new }) }
    ensures looked { S.looks store.old ≤ S.looks store.new }
    ensures counted { (budget start : ℕ)
        → IsWithin budget (edge_count (S.graph store.old)) start (S.looks store.old) standing
        → IsWithin budget (edge_count (S.graph store.old)) start (S.looks store.new) result }
    ensures same { S.graph store.new ≡ S.graph store.old }
    ensures same_capacity { scratch.new ≡ scratch.old }
{
    store.invariant();
    let Standing::Kept(left) = standing else {
        return standing;
    };
    if order_without_search(store, order, a, b) {
        return standing;
    }
    if left == 0 || is_long(len, store.node_slots(), store.edge_slots()) {
        return Standing::Left;
    }
    match order_edge_counted(store, order, a, b, scratch) {
        Some(looks) => Standing::Kept(left.saturating_sub(looks)),
        None => Standing::Closed,
    }
}

// Adds one edge of a batch of at least `expected` edges, and notes its index. Memory to return its
// weight in an error is reserved first, all at once if the iterator reports how many edges to
// expect.
fn add_item<Ix: IndexType, S: Store<Ix>>(
    store: &mut S,
    order: &mut Order<Ix>,
    scratch: &mut Scratch<Ix>,
    item: (NodeIndex<Ix>, NodeIndex<Ix>, S::EdgeWeight),
    expected: usize,
    standing: &mut Standing,
    edges: &mut Vec<EdgeIndex<Ix>>,
    weights: &mut Vec<S::EdgeWeight>,
) -> Result<(), Fault<S::EdgeWeight>>
    requires capacity { vec_len weights.old + vec_len edges.old ≤ vec_capacity weights.old }
    requires fits { node_bound (S.graph store.old) ≤ scratch.old.nodes }
    requires ordered { IsKept standing.old → IsOrderOf (S.graph store.old) order.old }
    ensures refused { IfErr result (λ fault.
        IsFault Ix.greatest (S.graph store.old) (by_numbers Ix.number item) fault) }
    ensures well_formed { IsWellFormed Ix.greatest (S.graph store.old) }
    ensures unchanged { OnErr result (S.graph store.new ≡ S.graph store.old) }
    ensures kept { OnErr result (edges.new.items ≡ edges.old.items) }
    ensures ends { OnOk result (HasEnds (S.graph store.old) (by_numbers Ix.number item)) }
    ensures index_left { OnOk result (edge_count (S.graph store.old) < Ix.greatest) }
    ensures added { OnOk result (S.graph store.new
        ≡ with_edge (S.graph store.old) (Ix.number item.0) (Ix.number item.1) item.2) }
    ensures noted { OnOk result (map Ix.number edges.new.items
        ≡ map Ix.number edges.old.items ++ next_edge (S.graph store.old) ∷ []) }
    ensures weights { weights.new.items ≡ weights.old.items }
    ensures capacity { vec_len weights.new + vec_len edges.new ≤ vec_capacity weights.new }
    ensures step { OnOk result (IsStep (S.graph store.old) (Ix.number item.0) (Ix.number item.1)
        (record { standing = standing.old; order = order.old })
        (record { standing = standing.new; order = order.new })) }
    ensures ordered { (order.new ≡ order.old) ⊎ IsOrderOf (S.graph store.old) order.new }
    ensures looked { S.looks store.old ≤ S.looks store.new }
    ensures counted { (budget start : ℕ)
        → IsWithin budget (edge_count (S.graph store.old)) start (S.looks store.old) standing.old
        → IsWithin budget (edge_count (S.graph store.old)) start (S.looks store.new) standing.new }
    ensures scratch_kept { scratch.new ≡ scratch.old }
{
    store.invariant();
    let (a, b, weight) = item;
    if !store.contains_node(a) || !store.contains_node(b) {
        return Err(Fault::BadEndpoint(weight));
    }
    if !store.can_add_edge() {
        return Err(Fault::Full(weight));
    }
    let len = expected.max(edges.len() + 1);
    if edges.reserve(len - edges.len()).is_err() || weights.reserve(len).is_err() {
        return Err(Fault::Memory(weight));
    }
    *standing = order_item(store, order, scratch, a, b, len, *standing);
    match store.add_edge(a, b, weight) {
        Ok(e) => {
            edges.push_reserved(e);
            Ok(())
        }
        Err(error) => Err(Fault::Memory(error.into_weight())),
    }
}

// Makes the order consistent with every edge of the batch. Returns false, with the order unchanged,
// if one of them closes a cycle.
fn settle<Ix: IndexType, S: ReadStore<Ix>>(
    store: &mut S,
    order: &mut Order<Ix>,
    scratch: &mut Scratch<Ix>,
    standing: Standing,
) -> bool
    requires fits { node_bound (S.graph store.old) ≤ scratch.old.nodes }
    requires held { (n : ℕ) → Contains order.old n ↔ HasNode (S.graph store.old) n }
    requires ordered { IsKept standing → IsOrderOf (S.graph store.old) order.old }
    requires closed { standing ≡ Closed → ¬ IsAcyclic (S.graph store.old) }
    ensures ordered { result ≡ true → IsOrderOf (S.graph store.old) order.new }
    ensures cyclic { result ≡ false → ¬ IsAcyclic (S.graph store.old) }
    ensures kept { result ≡ false → order.new ≡ order.old }
    ensures same { S.graph store.new ≡ S.graph store.old }
    ensures looked { S.looks store.old ≤ S.looks store.new }
    ensures counted { S.looks store.new ≤ S.looks store.old + edge_count (S.graph store.old) }
    ensures same_capacity { scratch.new ≡ scratch.old }
{
    match standing {
        Standing::Kept(_) => true,
        Standing::Left => sort(store, order, scratch),
        Standing::Closed => false,
    }
}

// Adds all edges that an iterator yields, or none.
fn add_all<
    Ix: IndexType,
    S: Store<Ix>,
    I: Iterator<Item = (NodeIndex<Ix>, NodeIndex<Ix>, S::EdgeWeight)>,
>(
    store: &mut S,
    order: &mut Order<Ix>,
    scratch: &mut Scratch<Ix>,
    items: I,
) -> Result<EdgeIndices<Ix>, EdgesError<S::EdgeWeight>>
    requires can { I.can_next items }
    requires ends { IsFinite (I.remaining items) }
    requires fits { node_bound (S.graph store.old) ≤ scratch.old.nodes }
    requires ordered { IsOrderOf (S.graph store.old) order.old }
    ensures added { IfOk result (λ edges. IsAdded Ix.number Ix.greatest I.next_gives items
        (S.graph store.old) (S.graph store.new) edges) }
    ensures refused { IfErr result (λ error.
        IsRefused Ix.number Ix.greatest I.next_gives items (S.graph store.old) error) }
    ensures unchanged { OnErr result (S.graph store.new ≡ S.graph store.old) }
    ensures ordered { IsOrderOf (S.graph store.new) order.new }
    ensures fits { node_bound (S.graph store.new) ≤ scratch.new.nodes }
    ensures same_capacity { scratch.new ≡ scratch.old }
    ensures looked { S.looks store.old ≤ S.looks store.new }
    ensures counted { S.looks store.new
        ≤ S.looks store.old + most_looks (S.graph store.old) result }
{
    store.invariant();
    let alloc = scratch.allocator();
    let slot_count = store.edge_slots();
    let (expected, _most) = items.size_hint();
    let mut edges = Vec::new(alloc);
    let mut weights = Vec::new(alloc);
    let mut standing = Standing::Kept(search_budget(store));
    'items: for item in items {
        match add_item(
            store,
            order,
            scratch,
            item,
            expected,
            &mut standing,
            &mut edges,
            &mut weights,
        ) {
            Ok(()) => {}
            Err(fault) => {
                roll_back(store, edges.as_slice(), slot_count, &mut weights);
                return Err(fault.after(weights));
            }
        }
    }
    if !settle(store, order, scratch, standing) {
        roll_back(store, edges.as_slice(), slot_count, &mut weights);
        return Err(EdgesError::WouldCycle(WouldCycle(weights)));
    }
    Ok(EdgeIndices::new(edges))
}

impl<Ix: IndexType, S: Store<Ix>> Guarded<Ix, S> {
    /// Adds all the edges that `items` yields, or none.
    pub fn add_edges<I: IntoIterator<Item = (NodeIndex<Ix>, NodeIndex<Ix>, S::EdgeWeight)>>(
        &mut self,
        items: I,
    ) -> Result<EdgeIndices<Ix>, EdgesError<S::EdgeWeight>>
        requires ends { IsFiniteIterable I.into_iter_gives I.IntoIter.can_next I.IntoIter.remaining
            items }
        ensures added { IfOk result (λ edges. (it : I.IntoIter) × I.into_iter_gives items it
            × IsAdded Ix.number Ix.greatest I.IntoIter.next_gives it self.old.graph
            self.new.graph edges) }
        ensures refused { IfErr result (λ error. (it : I.IntoIter) × I.into_iter_gives items it
            × IsRefused Ix.number Ix.greatest I.IntoIter.next_gives it self.old.graph error) }
        ensures unchanged { OnErr result (self.new.graph ≡ self.old.graph) }
        ensures acyclic { IsAcyclic self.new.graph }
        ensures looked { self.old.looks ≤ self.new.looks }
        ensures counted { self.new.looks
            ≤ self.old.looks + most_looks self.old.graph result }
    {
        add_all(
            &mut self.store,
            &mut self.order,
            &mut self.scratch,
            items.into_iter(),
        )
    }
}
