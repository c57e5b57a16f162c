//! The nodes of a dag that are ready, if nodes may fail.
ghost use Rattle.std.specs.Prelude.{◌≡◌, ℕ, ◌<◌, ◌≤◌, ◌↔◌, ◌⊎◌, []};
ghost use Rattle.std.specs.Prelude.{IsTrue, IsNone, IfSome, IfOk, Contains, filter, length, map, vec_len};
ghost use Rattle.std.specs.List.{range_with_len};
ghost use Rattle.std.specs.List.Sorted.{IsStrictlyIncreasing};
ghost use Rattle.daggy_base.specs.Graph.{HasNode, node_bound};
ghost use Rattle.daggy_base.specs.Iterating.{node_identifiers};
ghost use Rattle.daggy_base.specs.Path.{AreJoined};
ghost use Rattle.daggy_schedule.specs.Work.{IsSet, is_set, has_no_parents};
ghost use Rattle.daggy_schedule.specs.Work.{waiting_count as waiting_count_of};
ghost use Rattle.daggy_schedule.specs.Fallible.{IsInProgress, IsOver, IsSkipped};
ghost use Rattle.daggy_schedule.specs.Fallible.{IsUnderWayWithFailures, HandsOut, Finishes};
ghost use Rattle.daggy_schedule.specs.Fallible.{in_progress_count, set_count};
ghost use Rattle.daggy_schedule.specs.Queue.{IsBelowFailed};

use crate::ready::Ready;
use daggy_base::index::{DefaultIx, Direction, EdgeIndex, IndexType, NodeIndex};
use daggy_base::read_store::ReadStore;
use daggy_dag::acyclic::Acyclic;
use std::alloc::{AllocError, Global};
use std::marker::Model;

/// A [`Ready`] queue whose nodes may fail. A node that failed is not done, so its descendants never
/// become ready: they are skipped. All other nodes are returned, as with `make --keep-going`.
///
/// It does not borrow the dag; each call that needs the dag borrows it for that call. Until the
/// work is over, no node and no edge may be added or removed. Weights may be written: by the lemmas
/// in `proofs/Reweighed.antt`, what the next call requires still holds afterwards.
///
/// For proofs: [`next`](FallibleReady::next), [`done`](FallibleReady::done) and
/// [`fail`](FallibleReady::fail) require that no node or edge has been added or removed since
/// [`new`](FallibleReady::new), and ensure that this still holds at the next call. A struct that
/// has both the dag and the queue can state this once, as a field `ghost under_way: {
/// IsUnderWayWithFailures dag.now.graph ready }`.
///
/// # Complexity
///
/// O(nodes + edges) for a whole run. [`new`](FallibleReady::new) and
/// [`skipped`](FallibleReady::skipped) allocate; no other method does.
///
/// # Examples
///
/// ```
/// let mut dag: Dag<&'static str, u32> = Dag::new(rt.alloc());
/// let sow = dag.add_node("sow")?;
/// let (_, reap) = dag.add_child(sow, 90, "reap")?;
/// let fence = dag.add_node("build a fence")?;
/// let mut ready = FallibleReady::new(rt.alloc(), &dag)?;
/// assert!(rt; ready.next(&dag) == Some(sow));
/// ready.fail(&dag, sow);
/// assert!(rt; ready.next(&dag) == Some(fence));
/// ready.done(&dag, fence);
/// assert!(rt; ready.is_over());
/// assert!(rt; ready.skipped(rt.alloc(), &dag)?.as_slice() == [reap].as_slice());
/// ```
#[derive(Debug, Drop)]
pub struct FallibleReady<Ix: IndexType = DefaultIx> {
    // Nodes that failed stay in progress there.
    inner: Ready<Ix>,
    // By node index, whether the node failed.
    failed: Vec<bool>,
    // How many nodes failed.
    failures: usize,
}

impl<Ix: IndexType> Model for FallibleReady<Ix> {
    ghost use Rattle.daggy_schedule.specs.Fallible.{FallibleWork};
    ghost use Rattle.daggy_schedule.specs.Queue.{IsTallied};

    ghost Value = { FallibleWork };

    ghost view = { λ r. record { work = r.inner; failed = r.failed.items } };

    ghost invariant = { λ r. IsTallied r.inner r.failed.items r.failures };
}

impl<Ix: IndexType> FallibleReady<Ix> {
    /// A queue of the nodes of a dag. At first the nodes without parents are ready, in ascending
    /// index order, and none has failed.
    ///
    /// # Errors
    ///
    /// Returns `AllocError` if an allocation fails.
    ///
    /// # Complexity
    ///
    /// O(nodes + edges), vacant slots included.
    pub fn new<N: Drop, E: Drop, S>(
        alloc: Global,
        dag: &Acyclic<N, E, Ix, S>,
    ) -> Result<Self, AllocError>
    where
        S: ReadStore<Ix, NodeWeight = N, EdgeWeight = E>,
        ensures ready { IfOk result (λ r. r.work.ready
            ≡ filter (has_no_parents dag.now.graph) (node_identifiers dag.now.graph)) }
        ensures none_out { IfOk result (λ r. (n : ℕ) → ¬ IsSet r.work.out n) }
        ensures none_failed { IfOk result (λ r. (n : ℕ) → ¬ IsSet r.failed n) }
        ensures under_way { IfOk result (λ r. IsUnderWayWithFailures dag.now.graph r) }
    {
        let inner = Ready::new(alloc, dag)?;
        let mut failed = Vec::new(alloc);
        failed.resize(dag.graph().node_bound(), false)?;
        Ok(FallibleReady {
            inner,
            failed,
            failures: 0,
        })
    }

    /// Returns the node that has been ready for longest, or `None` if none is ready. It is not a
    /// descendant of a node that failed.
    ///
    /// `dag` must be the dag that was passed to [`new`](FallibleReady::new). It is read only to
    /// prefetch edges of the next nodes.
    ///
    /// # Requires
    ///
    /// - The work was started on this `dag`, and no node or edge has been added or removed since.
    ///   Weights may have been written.
    ///
    /// # Complexity
    ///
    /// O(1).
    pub fn next<N: Drop, E: Drop, S>(&mut self, dag: &Acyclic<N, E, Ix, S>) -> Option<NodeIndex<Ix>>
    where
        S: ReadStore<Ix, NodeWeight = N, EdgeWeight = E>,
        requires { IsUnderWayWithFailures dag.now.graph self.old }
        ensures none { IsNone result ↔ (self.old.work.ready ≡ []) }
        ensures first { IfSome result (λ n. HandsOut (Ix.number n) self.old.work self.new.work) }
        ensures in_progress { IfSome result (λ n. IsInProgress self.new (Ix.number n)) }
        ensures not_skipped { IfSome result (λ n.
            ¬ IsSkipped dag.now.graph self.old (Ix.number n)) }
        ensures unchanged { IsNone result → self.new ≡ self.old }
        ensures failed { self.new.failed ≡ self.old.failed }
        ensures under_way { IsUnderWayWithFailures dag.now.graph self.new }
    {
        // Called for its contract: the dag is well formed.
        let _count = dag.node_count();
        self.inner.next(dag)
    }

    /// Whether the node is in progress: [`next`](FallibleReady::next) returned it, it is not done
    /// and did not fail.
    pub fn is_out(&self, n: NodeIndex<Ix>) -> bool
        ensures { IsTrue result ↔ IsInProgress self.now (Ix.number n) }
    {
        self.inner.is_out(n) && !self.is_failed(n)
    }

    /// Whether the node failed.
    pub fn is_failed(&self, n: NodeIndex<Ix>) -> bool
        ensures { IsTrue result ↔ IsSet self.now.failed (Ix.number n) }
    {
        let i = n.index();
        i < self.failed.len() && self.failed[i]
    }

    /// Marks `n` as done. Children whose parents are now all done become ready, as by
    /// [`Ready::done`].
    ///
    /// # Requires
    ///
    /// - `under_way`: The work was started on this `dag`, and no node or edge has been added or
    ///   removed since. Weights may have been written.
    /// - `out`: `n` is in progress. Test: `is_out(n)`.
    ///
    /// # Complexity
    ///
    /// O(children of the node).
    pub fn done<N: Drop, E: Drop, S>(&mut self, dag: &Acyclic<N, E, Ix, S>, n: NodeIndex<Ix>)
    where
        S: ReadStore<Ix, NodeWeight = N, EdgeWeight = E>,
        requires under_way { IsUnderWayWithFailures dag.now.graph self.old }
        requires out { IsInProgress self.old (Ix.number n) }
        ensures done { Finishes dag.now.graph (Ix.number n) self.old.work self.new.work }
        ensures failed { self.new.failed ≡ self.old.failed }
        ensures under_way { IsUnderWayWithFailures dag.now.graph self.new }
    {
        self.inner.done(dag, n);
    }

    /// Marks `n` as failed. It is not in progress any more, and its descendants will never be
    /// returned.
    ///
    /// `dag` must be the dag that was passed to [`new`](FallibleReady::new). It is not read; only
    /// the contract needs it.
    ///
    /// # Requires
    ///
    /// - `under_way`: The work was started on this `dag`, and no node or edge has been added or
    ///   removed since. Weights may have been written.
    /// - `out`: `n` is in progress. Test: `is_out(n)`.
    ///
    /// # Complexity
    ///
    /// O(1).
    ///
    /// # Examples
    ///
    /// ```
    /// let mut dag: Dag<&'static str, u32> = Dag::new(rt.alloc());
    /// let sow = dag.add_node("sow")?;
    /// dag.add_child(sow, 90, "reap")?;
    /// let mut ready = FallibleReady::new(rt.alloc(), &dag)?;
    /// assert!(rt; ready.next(&dag) == Some(sow));
    /// if ready.is_out(sow) {
    ///     ready.fail(&dag, sow);
    /// }
    /// assert!(rt; ready.is_failed(sow) && !ready.is_out(sow));
    /// assert!(rt; ready.next(&dag).is_none());
    /// ```
    pub fn fail<N: Drop, E: Drop, S>(&mut self, dag: &Acyclic<N, E, Ix, S>, n: NodeIndex<Ix>)
    where
        S: ReadStore<Ix, NodeWeight = N, EdgeWeight = E>,
        requires under_way { IsUnderWayWithFailures dag.now.graph self.old }
        requires out { IsInProgress self.old (Ix.number n) }
        ensures failed { (m : ℕ)
            → IsSet self.new.failed m ↔ (IsSet self.old.failed m ⊎ (m ≡ Ix.number n)) }
        ensures work { self.new.work ≡ self.old.work }
        ensures under_way { IsUnderWayWithFailures dag.now.graph self.new }
    {
        let _ = dag;
        self.failed[n.index()] = true;
        self.failures += 1;
    }

    /// How many nodes are ready.
    pub fn ready_count(&self) -> usize
        ensures { result ≡ length self.now.work.ready }
    {
        self.inner.ready_count()
    }

    /// How many nodes are in progress.
    ///
    /// # Examples
    ///
    /// ```
    /// let mut dag: Dag<&'static str, u32> = Dag::new(rt.alloc());
    /// let sow = dag.add_node("sow")?;
    /// dag.add_child(sow, 90, "reap")?;
    /// let mut ready = FallibleReady::new(rt.alloc(), &dag)?;
    /// assert!(rt; ready.ready_count() == 1 && ready.waiting_count(&dag) == 1);
    /// assert!(rt; ready.next(&dag) == Some(sow));
    /// assert!(rt; ready.ready_count() == 0 && ready.out_count() == 1);
    /// ready.fail(&dag, sow);
    /// assert!(rt; ready.out_count() == 0 && ready.failed_count() == 1);
    /// assert!(rt; ready.waiting_count(&dag) == 1);
    /// ```
    pub fn out_count(&self) -> usize
        ensures { result ≡ in_progress_count self.now }
    {
        self.inner.out_count() - self.failures
    }

    /// How many nodes failed.
    pub fn failed_count(&self) -> usize
        ensures { result ≡ set_count self.now.failed }
    {
        self.failures
    }

    /// The number of nodes that are waiting for parents, including those that are skipped: they are
    /// not ready and have not been returned.
    ///
    /// # Requires
    ///
    /// - The work was started on this `dag`, and no node or edge has been added or removed since.
    ///   Weights may have been written.
    ///
    /// # Complexity
    ///
    /// O(1).
    pub fn waiting_count<N: Drop, E: Drop, S>(&self, dag: &Acyclic<N, E, Ix, S>) -> usize
    where
        S: ReadStore<Ix, NodeWeight = N, EdgeWeight = E>,
        requires { IsUnderWayWithFailures dag.now.graph self.now }
        ensures { result ≡ waiting_count_of dag.now.graph self.now.work }
    {
        self.inner.waiting_count(dag)
    }

    /// Whether no node is ready and none is in progress: each node that was returned is done or has
    /// failed, and no other node will be returned.
    pub fn is_over(&self) -> bool
        ensures { IsTrue result ↔ IsOver self.now }
    {
        self.ready_count() == 0 && self.out_count() == 0
    }

    /// Returns the descendants of the nodes that failed, in ascending index order: these nodes will
    /// never be returned. When the work is over, they are all the nodes that have not been
    /// returned.
    ///
    /// # Requires
    ///
    /// - The work was started on this `dag`, and no node or edge has been added or removed since.
    ///   Weights may have been written.
    ///
    /// # Errors
    ///
    /// Returns `AllocError` if an allocation fails.
    ///
    /// # Complexity
    ///
    /// O(nodes + edges that leave nodes that failed or are skipped), vacant slots included.
    ///
    /// # Examples
    ///
    /// ```
    /// let mut dag: StableDag<&'static str, u32> = StableDag::new(rt.alloc());
    /// let sow = dag.add_node("sow")?;
    /// let (_, hoe) = dag.add_child(sow, 30, "hoe")?;
    /// let (_, mow) = dag.add_child(sow, 20, "mow")?;
    /// let (_, reap) = dag.add_child(hoe, 60, "reap")?;
    /// let mut ready = FallibleReady::new(rt.alloc(), &dag)?;
    /// assert!(rt; ready.next(&dag) == Some(sow));
    /// ready.done(&dag, sow);
    /// // The newest edge comes first.
    /// assert!(rt; ready.next(&dag) == Some(mow) && ready.next(&dag) == Some(hoe));
    /// ready.fail(&dag, hoe);
    /// // `mow` is still in progress, and `reap` is lost already.
    /// assert!(rt; !ready.is_over());
    /// assert!(rt; ready.skipped(rt.alloc(), &dag)?.as_slice() == [reap].as_slice());
    /// ```
    pub fn skipped<N: Drop, E: Drop, S>(
        &self,
        alloc: Global,
        dag: &Acyclic<N, E, Ix, S>,
    ) -> Result<Vec<NodeIndex<Ix>>, AllocError>
    where
        S: ReadStore<Ix, NodeWeight = N, EdgeWeight = E>,
        requires { IsUnderWayWithFailures dag.now.graph self.now }
        ensures exact { IfOk result (λ nodes. (n : ℕ) → Contains (map Ix.number nodes.items) n
            ↔ IsSkipped dag.now.graph self.now n) }
        ensures ascending { IfOk result (λ nodes. IsStrictlyIncreasing (map Ix.number nodes.items)) }
        ensures over { IfOk result (λ nodes. IsOver self.now
            → (n : ℕ) → Contains (map Ix.number nodes.items) n
            ↔ (HasNode dag.now.graph n × ¬ IsSet self.now.work.out n)) }
    {
        // Called for their contracts: the dag is well formed and has an order.
        let _count = dag.node_count();
        let _order = dag.topological_order();
        let marks = below_failed(alloc, dag, self.failed.as_slice())?;
        set_indices(alloc, marks.as_slice())
    }
}

// Marks the children of a node.
fn mark_children<Ix: IndexType, S: ReadStore<Ix>>(
    store: &S,
    n: NodeIndex<Ix>,
    marks: &mut Vec<bool>,
)
    requires { node_bound (S.graph store.now) ≤ vec_len marks.old }
    ensures marked { (v : ℕ) → IsSet marks.new.items v
        ↔ (IsSet marks.old.items v ⊎ AreJoined (S.graph store.now) (Ix.number n) v) }
    ensures sized { vec_len marks.new ≡ vec_len marks.old }
{
    store.invariant();
    let end = EdgeIndex::<Ix>::end().index();
    let mut e = store.first_edge(n, Direction::Outgoing);
    'edges: while e.index() != end {
        let ends = store.edge_endpoints(e);
        e = store.next_edge(e, Direction::Outgoing);
        if let Some((_parent, child)) = ends {
            marks[child.index()] = true;
        }
    }
}

// Whether one of two flags is set.
fn is_in_either(failed: &[bool], marks: &Vec<bool>, i: usize) -> bool
    requires failed { i < length failed.now }
    requires marks { i < vec_len marks.now }
    ensures { IsTrue result ↔ (IsSet failed.now i ⊎ IsSet marks.now.items i) }
{
    failed[i] || marks[i]
}

// By node index, whether a path of one or more edges leads to the node from a node that failed.
fn below_failed<N: Drop, E: Drop, Ix: IndexType, S>(
    alloc: Global,
    dag: &Acyclic<N, E, Ix, S>,
    failed: &[bool],
) -> Result<Vec<bool>, AllocError>
where
    S: ReadStore<Ix, NodeWeight = N, EdgeWeight = E>,
    requires { (n : ℕ) → HasNode dag.now.graph n → n < length failed.now }
    ensures marked { IfOk result (λ marks. (n : ℕ)
        → IsSet marks.items n ↔ IsBelowFailed dag.now.graph failed.now n) }
    ensures few { IfOk result (λ marks. length marks.items ≤ Ix.greatest) }
{
    let store = dag.graph();
    let bound = store.node_bound();
    let mut marks = Vec::new(alloc);
    marks.resize(bound, false)?;
    let mut nodes = dag.topological_order();
    'nodes: while let Some(n) = nodes.next() {
        if is_in_either(failed, &marks, n.index()) {
            mark_children(store, n, &mut marks);
        }
    }
    Ok(marks)
}

// The nodes whose flags are set, in ascending index order.
fn set_indices<Ix: IndexType>(
    alloc: Global,
    flags: &[bool],
) -> Result<Vec<NodeIndex<Ix>>, AllocError>
    requires { length flags.now ≤ Ix.greatest }
    ensures { IfOk result (λ nodes. map Ix.number nodes.items
        ≡ filter (is_set flags.now) (range_with_len 0 (length flags.now))) }
{
    let mut nodes = Vec::new(alloc);
    'flags: for i in 0..flags.len() {
        if flags[i] {
            nodes.push(NodeIndex::new(i))?;
        }
    }
    Ok(nodes)
}
