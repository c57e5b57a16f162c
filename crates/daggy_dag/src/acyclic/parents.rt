//! The edges that enter a node, replaced all at once.
ghost use Rattle.std.specs.Prelude.{◌≡◌, ◌≢◌, ℕ, ◌+◌, ◌<◌, ◌≤◌, ◌↔◌, ◌⊎◌, Err, IsTrue, map, reverse};
ghost use Rattle.std.specs.Prelude.{vec_len, IfOk, OnOk, IfErr, OnErr, List, Contains};
ghost use Rattle.std.specs.List.{All};
ghost use Rattle.std.specs.List.Sorted.{IsPermutation, IsNonDecreasingBy};
ghost use Rattle.daggy_base.specs.Graph.{HasNode, in_list, edge_count as edge_count_of};
ghost use Rattle.daggy_base.specs.Path.{IsAcyclic};
ghost use Rattle.daggy_base.specs.Ordered.{IsOrderOf, place};
ghost use Rattle.daggy_base.specs.declared.kind.Kind.TheVariants.{Stable};
ghost use Rattle.daggy_base.specs.declared.error.ParentsError.TheVariants.{WouldCycle as ByCycle};
ghost use Rattle.daggy_base.specs.declared.error.ParentsError.TheVariants.{Full as NoIndex};
ghost use Rattle.daggy_guard.specs.Parents.{edges_to, entering, HasParentsSet, IsMemory};
ghost use Rattle.daggy_guard.specs.Parents.{KeepsOtherEdges, ReachesParent};
ghost use Rattle.daggy_redundant.specs.Comparison.{IsAscending};

use crate::acyclic::Acyclic;
use daggy_base::error::{ParentsError, WouldCycle};
use daggy_base::index::{Direction, EdgeIndex, IndexType, NodeIndex};
use daggy_base::read_store::ReadStore;
use daggy_base::store::Store;
use daggy_guard::parents::{add_parents, make_way_for_parents};
use daggy_reduction::reduce::remove_edges;
use daggy_visit::walk;
use std::alloc::{AllocError, Global};

// The edges that enter a node.
fn entering_edges<Ix: IndexType, S: ReadStore<Ix>>(
    alloc: Global,
    store: &S,
    n: NodeIndex<Ix>,
) -> Result<Vec<EdgeIndex<Ix>>, AllocError>
    ensures { IfOk result (λ edges. map Ix.number edges.items
        ≡ in_list (S.graph store.now) (Ix.number n)) }
{
    store.invariant();
    let mut edges = Vec::new(alloc);
    let mut cursor = store.first_edge(n, Direction::Incoming);
    'edges: while let Some(item) = walk::step(store, Direction::Incoming, &mut cursor) {
        edges.push(item.0)?;
    }
    Ok(edges)
}

fn sort_by_index<Ix: IndexType>(edges: &mut Vec<EdgeIndex<Ix>>)
    ensures same { IsPermutation edges.old.items edges.new.items }
    ensures sorted { IsNonDecreasingBy Ix.number edges.new.items }
{
    edges.sort_unstable_by_key(|e| e.index());
}

// The edges that enter a node, in ascending index order.
fn ascending_entering_edges<Ix: IndexType, S: ReadStore<Ix>>(
    alloc: Global,
    store: &S,
    n: NodeIndex<Ix>,
) -> Result<Vec<EdgeIndex<Ix>>, AllocError>
    ensures ascending { IfOk result (λ edges. IsAscending (map Ix.number edges.items)) }
    ensures exact { IfOk result (λ edges. (e : ℕ) → Contains (map Ix.number edges.items) e
        ↔ Contains (in_list (S.graph store.now) (Ix.number n)) e) }
{
    store.invariant();
    let mut edges = entering_edges(alloc, store, n)?;
    sort_by_index(&mut edges);
    Ok(edges)
}

// How many indices are left for edges.
fn edge_indices_left<Ix: IndexType, S: ReadStore<Ix>>(store: &S) -> usize
    ensures { result + edge_count_of (S.graph store.now) ≡ Ix.greatest }
{
    store.invariant();
    EdgeIndex::<Ix>::end().index() - store.edge_count()
}

// Replaces the edges that enter a node. If an allocation fails, nothing has changed, and the error
// holds the items.
fn replace_parents<Ix: IndexType, S: Store<Ix>>(
    store: &mut S,
    alloc: Global,
    n: NodeIndex<Ix>,
    items: Vec<(NodeIndex<Ix>, S::EdgeWeight)>,
) -> Result<(), ParentsError<S::EdgeWeight, Ix>>
    requires node { HasNode (S.graph store.old) (Ix.number n) }
    requires parents { All (λ x. HasNode (S.graph store.old) (Ix.number x.0)) items.items }
    requires indices_left { edge_count_of (S.graph store.old) + vec_len items ≤ Ix.greatest }
    ensures set { OnOk result (HasParentsSet S.KIND (Ix.number n)
        (edges_to Ix.number (Ix.number n) items.items) (S.graph store.old) (S.graph store.new)) }
    ensures parents { OnOk result (entering (S.graph store.new) (Ix.number n)
        ≡ reverse (map (λ x. (Ix.number x.0, x.1)) items.items)) }
    ensures others { OnOk result ((m : ℕ) → m ≢ Ix.number n
        → entering (S.graph store.new) m ≡ entering (S.graph store.old) m) }
    ensures nodes { OnOk result ((S.graph store.new).nodes ≡ (S.graph store.old).nodes) }
    ensures keeps { OnOk result (S.KIND ≡ Stable
        → KeepsOtherEdges (Ix.number n) (S.graph store.old) (S.graph store.new)) }
    ensures ordered { OnOk result ((order : List ℕ) → IsOrderOf (S.graph store.old) order
        → All (λ x. place order (Ix.number x.0) < place order (Ix.number n)) items.items
        → IsOrderOf (S.graph store.new) order) }
    ensures refusal { IfErr result (λ e. IsMemory items.items e) }
    ensures unchanged { OnErr result (S.graph store.new ≡ S.graph store.old) }
    ensures counted { S.looks store.new ≡ S.looks store.old }
{
    store.invariant();
    let Ok(old) = ascending_entering_edges(alloc, store, n) else {
        return Err(ParentsError::Memory(items));
    };
    match add_parents(store, alloc, n, items) {
        Ok(_) => {}
        Err(items) => return Err(ParentsError::Memory(items)),
    }
    remove_edges(store, old.as_slice());
    Ok(())
}

impl<N: Drop, E: Drop, Ix: IndexType, S> Acyclic<N, E, Ix, S>
where
    S: Store<Ix, NodeWeight = N, EdgeWeight = E>,
{
    /// Whether the parent of each item exists, as [`set_parents`](Acyclic::set_parents) requires.
    ///
    /// # Complexity
    ///
    /// O(items).
    ///
    /// # Examples
    ///
    /// ```
    /// let mut dag: Dag<&'static str, u32> = Dag::new(rt.alloc());
    /// let sow = dag.add_node("sow")?;
    /// assert!(rt; dag.contains_parents(&[(sow, 90)]));
    /// assert!(rt; !dag.contains_parents(&[(sow, 90), (NodeIndex::new(9), 30)]));
    /// ```
    pub fn contains_parents(&self, items: &[(NodeIndex<Ix>, E)]) -> bool
        ensures { IsTrue result ↔ All (λ x. HasNode self.now.graph (Ix.number x.0)) items.now }
    {
        'items: for i in 0..items.len() {
            if !self.contains_node(items[i].0) {
                return false;
            }
        }
        true
    }

    /// Replaces the edges that enter `n`, all of them or none: afterwards, for each item, one edge
    /// with the item's weight enters `n` from the item's parent. The new edges are added in the
    /// order of the items, as by [`add_edge`](Acyclic::add_edge); then the old edges are removed
    /// from the highest index down, each as by [`remove_edge`](Acyclic::remove_edge), and their
    /// weights are dropped.
    ///
    /// A parent may occur more than once. Without items, `n` has no parents afterwards.
    ///
    /// # Requires
    ///
    /// - `node`: `n` is a node of the dag. Test: `contains_node(n)`.
    /// - `parents`: The parent of each item is a node of the dag. Test: `contains_parents(&items)`.
    ///
    /// # Errors
    ///
    /// Each error holds the items, and the dag is unchanged. `ParentsError::WouldCycle` if `n`
    /// reaches one of the parents, or is one of them; this is decided first, and does not allocate.
    /// Otherwise `ParentsError::Full` if there are too few indices for the new edges in addition to
    /// all old edges, and `ParentsError::Memory` if an allocation fails.
    ///
    /// # Complexity
    ///
    /// One search as in [`add_edge`](Acyclic::add_edge), however many items there are, and O(1) for
    /// each item. For the k edges that entered `n`: O(k log k), plus their removals, each of which
    /// walks past the new edges in the list of `n`.
    ///
    /// # Examples
    ///
    /// ```
    /// let mut dag: StableDag<&'static str, u32> = StableDag::new(rt.alloc());
    /// let water = dag.add_node("water")?;
    /// let seeds = dag.add_node("seeds")?;
    /// let (_, bed) = dag.add_child(water, 1, "bed")?;
    /// let mut parents = Vec::new(rt.alloc());
    /// parents.push((seeds, 2))?;
    /// dag.set_parents(bed, parents)?;
    /// assert!(rt; !dag.contains_edge(water, bed));
    /// assert!(rt; dag.contains_edge(seeds, bed));
    /// ```
    pub fn set_parents(
        &mut self,
        n: NodeIndex<Ix>,
        items: Vec<(NodeIndex<Ix>, E)>,
    ) -> Result<(), ParentsError<E, Ix>>
        requires node { HasNode self.old.graph (Ix.number n) }
        requires parents { All (λ x. HasNode self.old.graph (Ix.number x.0)) items.items }
        ensures cycle { (result ≡ Err (ByCycle (record { 0 = items })))
            ↔ ReachesParent Ix.number self.old.graph (Ix.number n) items.items }
        ensures full { (result ≡ Err (NoIndex items))
            ↔ ((¬ ReachesParent Ix.number self.old.graph (Ix.number n) items.items)
            × (Ix.greatest < edge_count_of self.old.graph + vec_len items)) }
        ensures refusal { IfErr result (λ e. (e ≡ ByCycle (record { 0 = items }))
            ⊎ ((e ≡ NoIndex items) ⊎ IsMemory items.items e)) }
        ensures unchanged { OnErr result (self.new.graph ≡ self.old.graph) }
        ensures set { OnOk result (HasParentsSet S.KIND (Ix.number n)
            (edges_to Ix.number (Ix.number n) items.items) self.old.graph self.new.graph) }
        ensures parents { OnOk result (entering self.new.graph (Ix.number n)
            ≡ reverse (map (λ x. (Ix.number x.0, x.1)) items.items)) }
        ensures others { OnOk result ((m : ℕ) → m ≢ Ix.number n
            → entering self.new.graph m ≡ entering self.old.graph m) }
        ensures nodes { OnOk result (self.new.graph.nodes ≡ self.old.graph.nodes) }
        ensures keeps { OnOk result (S.KIND ≡ Stable
            → KeepsOtherEdges (Ix.number n) self.old.graph self.new.graph) }
        ensures acyclic { IsAcyclic self.new.graph }
        ensures looked { self.old.looks ≤ self.new.looks }
        ensures counted { self.new.looks
            ≤ self.old.looks + edge_count_of self.old.graph }
    {
        let guarded = &mut self.guarded;
        if !make_way_for_parents(
            &mut guarded.store,
            &mut guarded.order,
            &mut guarded.scratch,
            n,
            items.as_slice(),
        ) {
            return Err(ParentsError::WouldCycle(WouldCycle(items)));
        }
        if edge_indices_left(&guarded.store) < items.len() {
            return Err(ParentsError::Full(items));
        }
        let alloc = guarded.scratch.allocator();
        replace_parents(&mut guarded.store, alloc, n, items)
    }
}
