//! The nodes of a dag that are ready, by keys: the node with the greatest key first.
ghost use Rattle.std.specs.Prelude.{◌≡◌, ℕ, ◌+◌, ◌<◌, ◌≤◌, ◌↔◌, ◌⊎◌, ◌++◌, [], None};
ghost use Rattle.std.specs.Prelude.{IsTrue, IsNone, IfSome, IfOk, All, Contains, IsPermutation};
ghost use Rattle.std.specs.Prelude.{length, filter, slice_set, vec_len};
ghost use Rattle.daggy_base.specs.Graph.{HasNode, slot, node_bound};
ghost use Rattle.daggy_base.specs.Iterating.{node_identifiers};
ghost use Rattle.daggy_schedule.specs.Work.{IsSet, IsOut, IsIdle, IsUnderWay};
ghost use Rattle.daggy_schedule.specs.Work.{has_no_parents, released};
ghost use Rattle.daggy_schedule.specs.Times.{CanCallAtEachNode};
ghost use Rattle.daggy_schedule.specs.LeastFirst.{IsKeyOf, nodes_of};
ghost use Rattle.daggy_schedule.specs.ByKey.{work_of, keys_of, TakesGreatest, IsUnderWayByKey};
ghost use Rattle.daggy_schedule.specs.KeyQueue.{turned_back, keys_from};

use crate::candidates::Candidates;
use crate::ready::Ready;
use daggy_base::index::{DefaultIx, IndexType, NodeIndex};
use daggy_base::read_store::ReadStore;
use daggy_dag::acyclic::Acyclic;
use std::alloc::{AllocError, Global};
use std::cmp::Reverse;
use std::marker::Model;

/// A priority queue of the nodes of a dag that are ready: all of their parents are done. Each node
/// is returned once, the one with the greatest key first.
///
/// Ties go to the smallest index. For the least key first, wrap the keys in `Reverse`. For the
/// critical path first, take [`bottom_levels`](crate::levels::bottom_levels) as keys. [`Ready`] has
/// no keys: it returns the nodes in the order in which they became ready.
///
/// It does not borrow the dag; each call that needs the dag borrows it for that call. Until all
/// nodes are done, no node and no edge may be added or removed. Weights may be written: by the
/// lemmas in `proofs/Reweighed.antt`, what the next call requires still holds afterwards.
///
/// For proofs: [`next`](ReadyByKey::next) and [`done`](ReadyByKey::done) require that no node or
/// edge has been added or removed since [`new`](ReadyByKey::new), and ensure that this still holds
/// at the next call. A struct that has both the dag and the queue can state this once, as a field
/// `ghost under_way: { IsUnderWayByKey dag.now.graph ready }`.
///
/// # Complexity
///
/// O(nodes * log(nodes) + edges) for a whole run. [`new`](ReadyByKey::new) allocates all the
/// memory; no other method allocates.
///
/// # Examples
///
/// ```
/// let mut dag: Dag<&'static str, ()> = Dag::new(rt.alloc());
/// let sow = dag.add_node("sow")?;
/// dag.add_child(sow, (), "reap by hand")?;
/// let fence = dag.add_node("build a fence")?;
/// // The longest name first.
/// let mut ready = ReadyByKey::new(rt.alloc(), &dag, |_, name| name.len())?;
/// assert!(rt; ready.next(&dag) == Some(fence));
/// ready.done(&dag, fence);
/// assert!(rt; ready.next(&dag) == Some(sow));
/// // The other waits for `sow`.
/// assert!(rt; ready.next(&dag).is_none());
/// ```
#[derive(Drop)]
pub struct ReadyByKey<K: Ord, Ix: IndexType = DefaultIx> {
    // It returns each node as soon as the node is ready.
    inner: Ready<Ix>,
    // By node index, the keys of the nodes that were not ready yet.
    later: Vec<Option<K>>,
    // The nodes that `inner` returned, until they are returned here.
    candidates: Candidates<Reverse<K>, Ix>,
    // By node index, whether a node was returned here.
    out: Vec<bool>,
}

impl<K: Ord, Ix: IndexType> Model for ReadyByKey<K, Ix> {
    ghost use Rattle.daggy_schedule.specs.ByKey.{KeyedWork};
    ghost use Rattle.daggy_schedule.specs.KeyQueue.{turned_back, keys_from, IsKeptByKey};

    ghost Value = { KeyedWork K };

    ghost view = { λ r. record {
      waiting = r.inner.waiting;
      ready = turned_back r.candidates.items;
      later = keys_from 0 r.later.items;
      out = r.out.items;
      done = r.inner.done;
    } };

    ghost invariant = { λ r.
        IsKeptByKey r.inner r.later.items r.candidates.items r.candidates.capacity r.out.items };
}

impl<K: Ord + Drop, Ix: IndexType> ReadyByKey<K, Ix> {
    /// A queue of the nodes of a dag. At first the nodes without parents are ready. `key` is called
    /// once with each node.
    ///
    /// # Requires
    ///
    /// - `key` may be called with each node and its weight.
    ///
    /// # Errors
    ///
    /// Returns `AllocError` if an allocation fails.
    ///
    /// # Complexity
    ///
    /// O(nodes * log(nodes) + edges), plus the calls.
    pub fn new<N: Drop, E: Drop, S, F: Fn(NodeIndex<Ix>, &N) -> K>(
        alloc: Global,
        dag: &Acyclic<N, E, Ix, S>,
        key: F,
    ) -> Result<Self, AllocError>
    where
        S: ReadStore<Ix, NodeWeight = N, EdgeWeight = E>,
        requires { CanCallAtEachNode Ix.of F.pre key dag.now.graph }
        ensures ready { IfOk result (λ r. IsPermutation
            (filter (has_no_parents dag.now.graph) (node_identifiers dag.now.graph))
            (nodes_of r.ready)) }
        ensures keys { IfOk result (λ r. All (IsKeyOf Ix.of F.post key dag.now.graph) (keys_of r)) }
        ensures none_out { IfOk result (λ r. (n : ℕ) → ¬ IsSet r.out n) }
        ensures under_way { IfOk result (λ r. IsUnderWayByKey dag.now.graph r) }
    {
        let mut later = keys_by_index(alloc, dag, key)?;
        let bound = later.len();
        let mut candidates = Candidates::with_capacity(alloc, bound)?;
        let mut out = Vec::new(alloc);
        out.resize(bound, false)?;
        let mut inner = Ready::new(alloc, dag)?;
        gather(dag, &mut inner, &mut later, &mut candidates);
        Ok(ReadyByKey {
            inner,
            later,
            candidates,
            out,
        })
    }

    /// Returns the ready node with the greatest key, or `None` if none is ready: either a node that
    /// was returned has to be done first, or all nodes are done. Ties go to the smallest index.
    ///
    /// `dag` must be the dag that was passed to [`new`](ReadyByKey::new). It is not read; only the
    /// contract needs it.
    ///
    /// # Requires
    ///
    /// - The work was started on this `dag`, and no node or edge has been added or removed since.
    ///   Weights may have been written.
    ///
    /// # Complexity
    ///
    /// O(log(nodes)).
    pub fn next<N: Drop, E: Drop, S>(&mut self, dag: &Acyclic<N, E, Ix, S>) -> Option<NodeIndex<Ix>>
    where
        S: ReadStore<Ix, NodeWeight = N, EdgeWeight = E>,
        requires { IsUnderWayByKey dag.now.graph self.old }
        ensures none { IsNone result ↔ (self.old.ready ≡ []) }
        ensures greatest { IfSome result (λ n.
            TakesGreatest K.cmp (Ix.number n) self.old.ready self.new.ready) }
        ensures later { self.new.later ≡ self.old.later }
        ensures out { IfSome result (λ n. (m : ℕ)
            → IsSet self.new.out m ↔ (IsSet self.old.out m ⊎ (m ≡ Ix.number n))) }
        ensures is_out { IfSome result (λ n. IsOut (work_of self.new) (Ix.number n)) }
        ensures unchanged { IsNone result → self.new ≡ self.old }
        ensures done { self.new.done ≡ self.old.done }
        ensures waiting { self.new.waiting ≡ self.old.waiting }
        ensures under_way { IsUnderWayByKey dag.now.graph self.new }
    {
        let _ = dag;
        let (_key, n) = self.candidates.take_first()?;
        self.out[n.index()] = true;
        Some(n)
    }

    /// Whether the node is in progress: [`next`](ReadyByKey::next) returned it, and it is not done
    /// yet.
    ///
    /// # Examples
    ///
    /// ```
    /// let mut dag: Dag<&'static str, ()> = Dag::new(rt.alloc());
    /// let sow = dag.add_node("sow")?;
    /// let mut ready = ReadyByKey::new(rt.alloc(), &dag, |_, name| name.len())?;
    /// assert!(rt; !ready.is_out(sow));
    /// assert!(rt; ready.next(&dag) == Some(sow));
    /// assert!(rt; ready.is_out(sow));
    /// ```
    pub fn is_out(&self, n: NodeIndex<Ix>) -> bool
        ensures { IsTrue result ↔ IsOut (work_of self.now) (Ix.number n) }
    {
        let i = n.index();
        i < self.out.len() && self.out[i] && self.inner.is_out(n)
    }

    /// Marks `n` as done. Children whose parents are now all done become ready.
    ///
    /// # Requires
    ///
    /// - `under_way`: The work was started on this `dag`, and no node or edge has been added or
    ///   removed since. Weights may have been written.
    /// - `out`: `next` returned `n`, and `n` has not been passed to `done` since. Test:
    ///   `is_out(n)`.
    ///
    /// # Complexity
    ///
    /// O(children of the node), plus O(log(nodes)) for each child that becomes ready.
    pub fn done<N: Drop, E: Drop, S>(&mut self, dag: &Acyclic<N, E, Ix, S>, n: NodeIndex<Ix>)
    where
        S: ReadStore<Ix, NodeWeight = N, EdgeWeight = E>,
        requires under_way { IsUnderWayByKey dag.now.graph self.old }
        requires out { IsOut (work_of self.old) (Ix.number n) }
        ensures done { (m : ℕ)
            → IsSet self.new.done m ↔ (IsSet self.old.done m ⊎ (m ≡ Ix.number n)) }
        ensures ready { IsPermutation
            (nodes_of self.old.ready ++ released dag.now.graph self.new.done (Ix.number n))
            (nodes_of self.new.ready) }
        ensures keys { IsPermutation (keys_of self.old) (keys_of self.new) }
        ensures out { self.new.out ≡ self.old.out }
        ensures under_way { IsUnderWayByKey dag.now.graph self.new }
    {
        self.inner.done(dag, n);
        gather(dag, &mut self.inner, &mut self.later, &mut self.candidates);
    }

    /// Whether all nodes are done: none is ready, and none is in progress.
    pub fn is_finished(&self) -> bool
        ensures { IsTrue result ↔ IsIdle (work_of self.now) }
    {
        self.inner.is_finished()
    }
}

// By node index, the key that the closure returns for each node.
fn keys_by_index<K: Drop, N: Drop, E: Drop, Ix: IndexType, S, F: Fn(NodeIndex<Ix>, &N) -> K>(
    alloc: Global,
    dag: &Acyclic<N, E, Ix, S>,
    key: F,
) -> Result<Vec<Option<K>>, AllocError>
where
    S: ReadStore<Ix, NodeWeight = N, EdgeWeight = E>,
    requires { CanCallAtEachNode Ix.of F.pre key dag.now.graph }
    ensures sized { IfOk result (λ keys. vec_len keys ≡ node_bound dag.now.graph) }
    ensures called { IfOk result (λ keys.
        All (IsKeyOf Ix.of F.post key dag.now.graph) (keys_from 0 keys.items)) }
    ensures each { IfOk result (λ keys. (n : ℕ) → HasNode dag.now.graph n
        → Contains (nodes_of (keys_from 0 keys.items)) n) }
{
    let store = dag.graph();
    let bound = store.node_bound();
    let mut keys = Vec::with_capacity(alloc, bound)?;
    'nodes: for i in 0..bound {
        let n = NodeIndex::new(i);
        let Some(weight) = store.node_weight(n) else {
            keys.push(None)?;
            continue;
        };
        keys.push(Some(key(n, weight)))?;
    }
    Ok(keys)
}

// Takes all nodes that are ready, each with its key.
fn gather<K: Ord + Drop, N: Drop, E: Drop, Ix: IndexType, S>(
    dag: &Acyclic<N, E, Ix, S>,
    ready: &mut Ready<Ix>,
    keys: &mut Vec<Option<K>>,
    candidates: &mut Candidates<Reverse<K>, Ix>,
)
where
    S: ReadStore<Ix, NodeWeight = N, EdgeWeight = E>,
    requires under_way { IsUnderWay dag.now.graph ready.old }
    requires keyed { (n : ℕ) → HasNode dag.now.graph n → ¬ IsSet ready.old.out n
        → Contains (nodes_of (keys_from 0 keys.old.items)) n }
    requires room { length candidates.old.items + length (keys_from 0 keys.old.items)
        ≤ candidates.old.capacity }
    ensures under_way { IsUnderWay dag.now.graph ready.new }
    ensures none_ready { ready.new.ready ≡ [] }
    ensures out { (n : ℕ) → IsSet ready.new.out n
        ↔ (IsSet ready.old.out n ⊎ Contains ready.old.ready n) }
    ensures done { ready.new.done ≡ ready.old.done }
    ensures waiting { ready.new.waiting ≡ ready.old.waiting }
    ensures taken { IsPermutation (nodes_of candidates.old.items ++ ready.old.ready)
        (nodes_of candidates.new.items) }
    ensures keys { IsPermutation
        (turned_back candidates.old.items ++ keys_from 0 keys.old.items)
        (turned_back candidates.new.items ++ keys_from 0 keys.new.items) }
    ensures room { length candidates.new.items + length (keys_from 0 keys.new.items)
        ≤ candidates.new.capacity }
{
    'ready: while let Some(n) = ready.next(dag) {
        if let Some(key) = take_key(keys, n.index()) {
            candidates.add_reserved(Reverse(key), n);
        }
    }
}

// Takes the key of a node out.
fn take_key<K>(keys: &mut Vec<Option<K>>, i: usize) -> Option<K>
    requires { i < vec_len keys.old }
    ensures value { result ≡ slot keys.old.items i }
    ensures taken { keys.new.items ≡ slice_set keys.old.items i None }
{
    keys[i].take()
}
