//! The simple paths from one node to another, one at a time.
ghost use Rattle.std.specs.Prelude.{◌≡◌, ℕ, List, ◌+◌, ◌<◌, ◌≤◌, ◌↔◌, [], ◌∷◌, ◌++◌, None, Ok, map, length, vec_len};
ghost use Rattle.std.specs.Prelude.{IfOk, IfErr, IfSome, IfNone, IsTrue, Contains, slice_index};
ghost use Rattle.daggy_base.specs.Graph.{HasNode, pair_of};
ghost use Rattle.daggy_base.specs.Ordered.{IsOrderOf};
ghost use Rattle.daggy_base.specs.Path.{AreJoined};
ghost use Rattle.daggy_operators.specs.SimplePaths.{paths_within, paths_left, IsPathWithin};

use daggy_base::index::{Direction, EdgeIndex, IndexType, NodeIndex};
use daggy_base::read_store::ReadStore;
use daggy_dag::acyclic::Acyclic;
use daggy_order::order::Order;
use daggy_visit::walk;
use std::alloc::{AllocError, Global};
use std::fmt;
use std::marker::{Model, PhantomData};

// A node on the way of a search, and the edge that comes next in its list.
type At<Ix> = (NodeIndex<Ix>, EdgeIndex<Ix>);

/// The simple paths from one node of a dag to another, one at a time. Returned by
/// [`all_simple_paths`].
///
/// In a dag every path is simple: no node is on it twice.
///
/// # Examples
///
/// ```
/// let mut dag: Dag<&'static str, ()> = Dag::new(rt.alloc());
/// let sow = dag.add_node("sow")?;
/// let (_, water) = dag.add_child(sow, (), "water")?;
/// let (_, reap) = dag.add_child(water, (), "reap")?;
/// assert!(rt; dag.add_edge(sow, reap, ()).is_ok());
/// let mut paths = all_simple_paths(rt.alloc(), &dag, sow, reap, usize::MAX)?;
/// // The newest edge of a node is followed first.
/// let path = paths.next()?;
/// assert!(rt; path.is_some_and(|path| path.as_slice() == [sow, reap].as_slice()));
/// let path = paths.next()?;
/// assert!(rt; path.is_some_and(|path| path.as_slice() == [sow, water, reap].as_slice()));
/// assert!(rt; paths.next()?.is_none());
/// ```
#[derive(Drop)]
pub struct SimplePaths<'d, Ix: IndexType, S: ReadStore<Ix>> {
    alloc: Global,
    store: &'d S,
    to: NodeIndex<Ix>,
    // How many edges a path has at most.
    limit: usize,
    // For each slot of a node a number that no path from the node to `to` has fewer edges than.
    distances: Vec<usize>,
    // Whether the path of `to` alone comes next.
    alone: bool,
    way: Vec<At<Ix>>,
    // Only for the checker, which looks for the lifetimes of borrowed weights among the fields.
    node_weight: PhantomData<S::NodeWeight>,
    edge_weight: PhantomData<S::EdgeWeight>,
}

impl<'d, Ix: IndexType, S: ReadStore<Ix>> Model for SimplePaths<'d, Ix, S> {
    ghost use Rattle.std.specs.Prelude.{◌≡◌, ℕ, ◌<◌, ◌≤◌, ◌++◌, ◌∷◌, [], List, map, length, vec_len};
    ghost use Rattle.std.specs.Prelude.{slice_index, if◌then◌else◌};
    ghost use Rattle.daggy_base.specs.Graph.{pair_of};
    ghost use Rattle.daggy_operators.specs.SimplePaths.{paths_within, paths_left};

    ghost Value = { List (List ℕ) };

    ghost view = { λ p. (if p.alone then (Ix.number p.to ∷ []) ∷ [] else [])
        ++ paths_left (S.graph p.store.now) (Ix.number p.to) p.limit
        (map (pair_of Ix.number) p.way.items) };

    ghost invariant = { λ p. (vec_len p.distances ≡ length (S.graph p.store.now).nodes)
        × ((limit n : ℕ) → limit < slice_index p.distances.items n
        → paths_within (S.graph p.store.now) (Ix.number p.to) limit n ≡ [])
        × (vec_len p.way ≤ p.limit) };
}

// One more than the least distance of a child, or the greatest number.
fn distance_by_children<Ix: IndexType, S: ReadStore<Ix>>(
    store: &S,
    distances: &Vec<usize>,
    n: NodeIndex<Ix>,
) -> usize
    requires { vec_len distances.now ≡ length (S.graph store.now).nodes }
    ensures { (v : ℕ) → AreJoined (S.graph store.now) (Ix.number n) v
        → result ≤ slice_index distances.now.items v + 1 }
{
    // Called for its contract: what always holds of a store.
    store.invariant();
    let mut least = usize::MAX;
    let mut e = store.first_edge(n, Direction::Outgoing);
    'edges: while let Some(step) = walk::step(store, Direction::Outgoing, &mut e) {
        let distance = distances[step.1.index()];
        least = least.min(distance.saturating_add(1));
    }
    least
}

// For each slot of a node a number that no path from the node to `to` has fewer edges than. It is
// the number of edges of a shortest path, or the greatest number if there is none.
fn distances_to<Ix: IndexType, S: ReadStore<Ix>>(
    alloc: Global,
    store: &S,
    order: &Order<Ix>,
    to: NodeIndex<Ix>,
) -> Result<Vec<usize>, AllocError>
    requires { IsOrderOf (S.graph store.now) order.now }
    ensures sized { IfOk result (λ distances.
        vec_len distances ≡ length (S.graph store.now).nodes) }
    ensures none_shorter { IfOk result (λ distances. (limit n : ℕ)
        → limit < slice_index distances.items n
        → paths_within (S.graph store.now) (Ix.number to) limit n ≡ []) }
{
    // Called for its contract: what always holds of a store.
    store.invariant();
    let mut distances = Vec::new(alloc);
    distances.resize(store.node_slots(), usize::MAX)?;
    let mut nodes = order.nodes();
    'nodes: while let Some(n) = nodes.next_back() {
        let distance = if n == to {
            0
        } else {
            distance_by_children(store, &distances, n)
        };
        distances[n.index()] = distance;
    }
    Ok(distances)
}

// The nodes along the way, and the node at its end.
fn path_along<Ix: IndexType>(
    alloc: Global,
    way: &Vec<At<Ix>>,
    to: NodeIndex<Ix>,
) -> Result<Vec<NodeIndex<Ix>>, AllocError>
    ensures { IfOk result (λ path. map Ix.number path.items
        ≡ map (λ at. Ix.number at.0) way.now.items ++ Ix.number to ∷ []) }
{
    let mut path = Vec::new(alloc);
    'nodes: for i in 0..way.len() {
        path.push(way[i].0)?;
    }
    path.push(to)?;
    Ok(path)
}

// Whether the distance of a node allows paths of that many edges from it, which is not their end.
fn leads_on<Ix: IndexType>(distances: &Vec<usize>, n: NodeIndex<Ix>, left: usize) -> bool
    requires { Ix.number n < vec_len distances.now }
    ensures { IsTrue result
        ↔ ((0 < left) × (slice_index distances.now.items (Ix.number n) ≤ left)) }
{
    left > 0 && distances[n.index()] <= left
}

// Goes on along the way to the next path.
fn next_along<Ix: IndexType, S: ReadStore<Ix>>(
    alloc: Global,
    store: &S,
    to: NodeIndex<Ix>,
    limit: usize,
    distances: &Vec<usize>,
    way: &mut Vec<At<Ix>>,
) -> Result<Option<Vec<NodeIndex<Ix>>>, AllocError>
    requires sized { vec_len distances.now ≡ length (S.graph store.now).nodes }
    requires none_shorter { (k n : ℕ) → k < slice_index distances.now.items n
        → paths_within (S.graph store.now) (Ix.number to) k n ≡ [] }
    requires short { vec_len way.old ≤ limit }
    ensures found { IfOk result (λ found. IfSome found (λ path.
        paths_left (S.graph store.now) (Ix.number to) limit (map (pair_of Ix.number) way.old.items)
        ≡ map Ix.number path.items
        ∷ paths_left (S.graph store.now) (Ix.number to) limit (map (pair_of Ix.number) way.new.items))) }
    ensures none { result ≡ Ok None
        → paths_left (S.graph store.now) (Ix.number to) limit (map (pair_of Ix.number) way.old.items) ≡ [] }
    ensures over { result ≡ Ok None
        → paths_left (S.graph store.now) (Ix.number to) limit (map (pair_of Ix.number) way.new.items) ≡ [] }
    ensures failed { IfErr result (λ _.
        paths_left (S.graph store.now) (Ix.number to) limit (map (pair_of Ix.number) way.new.items)
        ≡ paths_left (S.graph store.now) (Ix.number to) limit (map (pair_of Ix.number) way.old.items)) }
    ensures short { vec_len way.new ≤ limit }
{
    // Called for its contract: what always holds of a store.
    store.invariant();
    'steps: while !way.is_empty() {
        let last = way.len() - 1;
        let (n, e) = way[last];
        let mut next = e;
        let Some(step) = walk::step(store, Direction::Outgoing, &mut next) else {
            way.truncate(last);
            continue;
        };
        let child = step.1;
        if child == to {
            let path = path_along(alloc, way, to)?;
            way[last] = (n, next);
            return Ok(Some(path));
        }
        if leads_on(distances, child, limit - way.len()) {
            way.push((child, store.first_edge(child, Direction::Outgoing)))?;
        }
        way[last] = (n, next);
    }
    Ok(None)
}

// The way at its begin.
fn way_from<Ix: IndexType, S: ReadStore<Ix>>(
    alloc: Global,
    store: &S,
    from: NodeIndex<Ix>,
    to: NodeIndex<Ix>,
    limit: usize,
) -> Result<Vec<At<Ix>>, AllocError>
    ensures begun { IfOk result (λ way. ¬ (Ix.number from ≡ Ix.number to)
        → paths_left (S.graph store.now) (Ix.number to) limit (map (pair_of Ix.number) way.items)
        ≡ paths_within (S.graph store.now) (Ix.number to) limit (Ix.number from)) }
    ensures none { IfOk result (λ way. Ix.number from ≡ Ix.number to → way.items ≡ []) }
    ensures short { IfOk result (λ way. vec_len way ≤ limit) }
{
    // Called for its contract: what always holds of a store.
    store.invariant();
    let mut way = Vec::new(alloc);
    if from == to || limit == 0 {
        return Ok(way);
    }
    way.push((from, store.first_edge(from, Direction::Outgoing)))?;
    Ok(way)
}

// Whether the path of a node alone is one from the first node to the second.
fn is_alone<Ix: IndexType, S: ReadStore<Ix>>(
    store: &S,
    from: NodeIndex<Ix>,
    to: NodeIndex<Ix>,
) -> bool
    ensures { IsTrue result
        ↔ ((Ix.number from ≡ Ix.number to) × HasNode (S.graph store.now) (Ix.number to)) }
{
    store.invariant();
    from == to && store.contains_node(to)
}

/// The simple paths from one node of a dag to another that have at most `limit` edges, one at a
/// time. Pass `usize::MAX` for all of them.
///
/// In a dag every path is simple: no node is on it twice. The paths by the newest edge of a node
/// come first, and parallel edges have a path each. From a node to itself there is only the path of
/// that node. If `from` or `to` is not a node of the dag, there is no path.
///
/// There may be very many paths: a chain of `k` diamonds has 2^k. No path is longer than there are
/// nodes.
///
/// # Errors
///
/// Returns `AllocError` if an allocation fails.
///
/// # Complexity
///
/// O(node slots + edges). The search only follows an edge if it leads to a path of at most
/// `limit` edges.
///
/// # Examples
///
/// ```
/// let mut dag: StableDag<&'static str, ()> = StableDag::new(rt.alloc());
/// let sow = dag.add_node("sow")?;
/// let (_, hoe) = dag.add_child(sow, (), "hoe")?;
/// let (_, water) = dag.add_child(hoe, (), "water")?;
/// let (_, reap) = dag.add_child(water, (), "reap")?;
/// assert!(rt; dag.add_edge(hoe, reap, ()).is_ok());
/// // Of at most two edges.
/// let mut paths = all_simple_paths(rt.alloc(), &dag, sow, reap, 2)?;
/// let path = paths.next()?;
/// assert!(rt; path.is_some_and(|path| path.as_slice() == [sow, hoe, reap].as_slice()));
/// assert!(rt; paths.next()?.is_none());
/// ```
pub fn all_simple_paths<'d, N: Drop, E: Drop, Ix: IndexType, S>(
    alloc: Global,
    dag: &'d Acyclic<N, E, Ix, S>,
    from: NodeIndex<Ix>,
    to: NodeIndex<Ix>,
    limit: usize,
) -> Result<SimplePaths<'d, Ix, S>, AllocError>
where
    S: ReadStore<Ix, NodeWeight = N, EdgeWeight = E>,
    ensures listed { IfOk result (λ paths.
        paths ≡ paths_within dag.now.graph (Ix.number to) limit (Ix.number from)) }
    ensures exact { IfOk result (λ paths. (path : List ℕ) → Contains paths path
        ↔ IsPathWithin dag.now.graph (Ix.number from) (Ix.number to) limit path) }
{
    // Called for its contract: the dag is well formed and acyclic.
    let _count = dag.node_count();
    let store = dag.graph();
    let distances = distances_to(alloc, store, dag.order(), to)?;
    let way = way_from(alloc, store, from, to, limit)?;
    Ok(SimplePaths {
        alloc,
        store,
        to,
        limit,
        distances,
        alone: is_alone(store, from, to),
        way,
        node_weight: PhantomData,
        edge_weight: PhantomData,
    })
}

impl<'d, Ix: IndexType, S: ReadStore<Ix>> SimplePaths<'d, Ix, S> {
    /// Returns the next path, as its nodes in order, or `None` if none is left.
    ///
    /// # Errors
    ///
    /// Returns `AllocError` if an allocation fails. No path is lost then: the next call returns the
    /// same path, if it can.
    ///
    /// # Complexity
    ///
    /// O(edges that leave the nodes of this path or of the one before).
    pub fn next(&mut self) -> Result<Option<Vec<NodeIndex<Ix>>>, AllocError>
        ensures found { IfOk result (λ found. IfSome found (λ path.
            self.old ≡ map Ix.number path.items ∷ self.new)) }
        ensures none { IfOk result (λ found. IfNone found ((self.old ≡ []) × (self.new ≡ []))) }
        ensures failed { IfErr result (λ _. self.new ≡ self.old) }
    {
        if self.alone {
            let mut path = Vec::new(self.alloc);
            path.push(self.to)?;
            self.alone = false;
            return Ok(Some(path));
        }
        next_along(
            self.alloc,
            self.store,
            self.to,
            self.limit,
            &self.distances,
            &mut self.way,
        )
    }
}

impl<'d, Ix: IndexType, S: ReadStore<Ix>> fmt::Debug for SimplePaths<'d, Ix, S> {
    fn fmt<W: fmt::Write>(&self, f: &mut fmt::Formatter<W>) -> fmt::Result {
        f.debug_struct("SimplePaths").finish_non_exhaustive()
    }
}
