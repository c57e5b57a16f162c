//! How early and how late the nodes of a dag can start, given the duration of each, and the lags of
//! the edges if there are any.
ghost use Rattle.std.specs.Prelude.{◌≡◌, ℕ, ◌+◌, ◌≤◌, List, [], map, Err, IfOk, vec_len, slice_index};
ghost use Rattle.daggy_base.specs.Graph.{HasNode, node_bound, edge_bound};
ghost use Rattle.daggy_schedule.specs.Times.{CanCallAtEachNode, AreDurations, IsZeroElsewhere};
ghost use Rattle.daggy_schedule.specs.Times.{TakesTooLong};
ghost use Rattle.daggy_schedule.specs.Times.{AreEarliest, AreLatest, IsMakespan, IsCritical, IsTracedBack};
ghost use Rattle.daggy_schedule.specs.Lags.{CanCallAtEachEdge, AreLags, IsZeroWithoutEdge};
ghost use Rattle.daggy_schedule.specs.Lags.{TakesTooLongWithLags, AreEarliestWithLags};
ghost use Rattle.daggy_schedule.specs.Lags.{AreLatestWithLags, IsMakespanWithLags};
ghost use Rattle.daggy_schedule.specs.Lags.{IsCriticalWithLags, IsTracedBackWithLags};
ghost use Rattle.daggy_schedule.specs.Lags.{IsScheduleOf, IsFreeFloat};
ghost use Rattle.daggy_schedule.specs.declared.schedule.ScheduleError.TheVariants.{Overflow};
ghost use Rattle.daggy_schedule.specs.declared.schedule.ScheduleError.TheVariants.{Memory as OutOfMemory};

use daggy_base::index::{DefaultIx, EdgeIndex, IndexType, NodeIndex};
use daggy_base::read_store::ReadStore;
use daggy_dag::acyclic::Acyclic;
use std::alloc::{AllocError, Global};
use thiserror::Error;

mod early;
mod float;
mod lags;
pub(crate) mod late;

use early::{earliest, path_back};
use float::float_of;
use lags::lags_of;
use late::{nodes_in_order, slack_of};

/// When each node of a dag starts and finishes. The lists of times are indexed by node, with 0 at
/// indices without a node.
///
/// A child starts no earlier than each of its parents has finished. With lags
/// ([`with_lags`](Schedule::with_lags)) it waits longer: for each edge, until the lag of that edge
/// has passed after the parent has finished.
///
/// # Examples
///
/// ```
/// let mut dag: Dag<u64, ()> = Dag::new(rt.alloc());
/// let sow = dag.add_node(1)?;
/// let (_, reap) = dag.add_child(sow, (), 2)?;
/// let plan = Schedule::new(rt.alloc(), &dag, |_, days| *days)?;
/// assert!(rt; plan.starts.get(reap.index()) == Some(&1));
/// assert!(rt; plan.finishes.get(reap.index()) == Some(&3));
/// ```
#[derive(Debug, Drop, Eq, PartialEq)]
pub struct Schedule<Ix: IndexType = DefaultIx> {
    /// The duration of each node.
    pub durations: Vec<u64>,
    /// The lag of each edge, indexed by edge, with 0 at indices without an edge. Empty if the
    /// schedule was made without lags.
    pub lags: Vec<u64>,
    /// The earliest start of each node: the time when all of its parents have finished, and the lags
    /// of the edges from them have passed.
    pub starts: Vec<u64>,
    /// The earliest finish of each node.
    pub finishes: Vec<u64>,
    /// The slack of each node: how much later it can start without increasing the makespan. How much
    /// later it can start without delaying any child is its [`free_float`](Schedule::free_float).
    pub slack: Vec<u64>,
    /// A critical path: a path whose durations and lags add up to the makespan. Empty only if there
    /// are no nodes. It ends with the node that finishes last, and each node comes after the parent
    /// that it waits for: the one that finishes last, or, with lags, the one from which the lag of an
    /// edge ends last. Ties go to the lowest index. So it depends only on the nodes, the edges, the
    /// durations and the lags, and not on how the dag was built.
    pub critical: Vec<NodeIndex<Ix>>,
    /// The length of the schedule: the greatest finish, or 0 if there are no nodes.
    pub makespan: u64,
}

/// Why no schedule could be made.
///
/// # Examples
///
/// ```
/// let mut dag: Dag<u64, ()> = Dag::new(rt.alloc());
/// let sow = dag.add_node(u64::MAX)?;
/// dag.add_child(sow, (), 1)?;
/// let result = Schedule::new(rt.alloc(), &dag, |_, days| *days);
/// assert!(rt; result.err() == Some(ScheduleError::Overflow));
/// ```
#[derive(Clone, Copy, Debug, Eq, Error, PartialEq)]
pub enum ScheduleError {
    /// The durations along some path, with the lags of its edges, add up to 2^64 or more, or, in
    /// `schedule_on`, the bound on the makespan is 2^64 or more.
    #[error("the nodes take too long")]
    Overflow,
    /// An allocation failed.
    #[error("out of memory")]
    Memory,
}

impl From<AllocError> for ScheduleError {
    ghost from_gives = { λ _ e. e ≡ OutOfMemory };

    fn from(_error: AllocError) -> ScheduleError {
        ScheduleError::Memory
    }
}

impl<Ix: IndexType> Schedule<Ix> {
    /// Computes when each node can start and finish if it waits only for its parents, how much
    /// later it can start, and a critical path: the critical path method (Kelley and Walker 1959),
    /// by one pass in the dag's order and one pass in reverse. `durations` is called once with each
    /// node; the unit is up to the caller.
    ///
    /// # Requires
    ///
    /// - `durations` may be called with each node and its weight.
    ///
    /// # Errors
    ///
    /// Returns `ScheduleError::Overflow` if the durations along some path add up to 2^64 or more,
    /// and `ScheduleError::Memory` if an allocation fails before the overflow is detected.
    ///
    /// # Complexity
    ///
    /// O(nodes + edges), plus the calls.
    ///
    /// # Examples
    ///
    /// ```
    /// let mut dag: Dag<u64, ()> = Dag::new(rt.alloc());
    /// let sow = dag.add_node(1)?;
    /// let (_, water) = dag.add_child(sow, (), 60)?;
    /// let (_, reap) = dag.add_child(water, (), 2)?;
    /// let (_, scarecrow) = dag.add_child(sow, (), 5)?;
    /// let plan = Schedule::new(rt.alloc(), &dag, |_, days| *days)?;
    /// assert!(rt; plan.makespan == 63);
    /// assert!(rt; plan.critical.as_slice() == [sow, water, reap].as_slice());
    /// assert!(rt; plan.starts[scarecrow.index()] == 1);
    /// assert!(rt; plan.slack[scarecrow.index()] == 57);
    /// ```
    pub fn new<N: Drop, E: Drop, S, F: Fn(NodeIndex<Ix>, &N) -> u64>(
        alloc: Global,
        dag: &Acyclic<N, E, Ix, S>,
        durations: F,
    ) -> Result<Self, ScheduleError>
    where
        S: ReadStore<Ix, NodeWeight = N, EdgeWeight = E>,
        requires { CanCallAtEachNode Ix.of F.pre durations dag.now.graph }
        ensures sized { IfOk result (λ s. (vec_len s.durations ≡ node_bound dag.now.graph)
            × (vec_len s.starts ≡ node_bound dag.now.graph)
            × (vec_len s.finishes ≡ node_bound dag.now.graph)
            × (vec_len s.slack ≡ node_bound dag.now.graph)) }
        ensures durations { IfOk result (λ s.
            AreDurations Ix.of F.post durations dag.now.graph s.durations.items) }
        ensures lags { IfOk result (λ s. s.lags.items ≡ []) }
        ensures starts { IfOk result (λ s.
            AreEarliest dag.now.graph s.durations.items (slice_index s.starts.items)) }
        ensures finishes { IfOk result (λ s. (n : ℕ) → HasNode dag.now.graph n
            → slice_index s.finishes.items n
            ≡ slice_index s.starts.items n + slice_index s.durations.items n) }
        ensures makespan { IfOk result (λ s.
            IsMakespan dag.now.graph s.durations.items (slice_index s.starts.items) s.makespan) }
        ensures slack { IfOk result (λ s. AreLatest dag.now.graph s.durations.items
            (λ n. slice_index s.starts.items n + slice_index s.slack.items n) s.makespan) }
        ensures critical { IfOk result (λ s. IsCritical dag.now.graph s.durations.items
            (map Ix.number s.critical.items) s.makespan) }
        ensures traced_back { IfOk result (λ s. IsTracedBack dag.now.graph
            (slice_index s.finishes.items) (map Ix.number s.critical.items)) }
        ensures durations_elsewhere { IfOk result (λ s.
            IsZeroElsewhere dag.now.graph s.durations.items) }
        ensures starts_elsewhere { IfOk result (λ s.
            IsZeroElsewhere dag.now.graph s.starts.items) }
        ensures finishes_elsewhere { IfOk result (λ s.
            IsZeroElsewhere dag.now.graph s.finishes.items) }
        ensures slack_elsewhere { IfOk result (λ s.
            IsZeroElsewhere dag.now.graph s.slack.items) }
        ensures schedule { IfOk result (λ s. IsScheduleOf dag.now.graph s.durations.items s.lags.items
            s.starts.items s.finishes.items s.slack.items s.makespan) }
        ensures fits { IfOk result (λ s. ¬ TakesTooLong dag.now.graph s.durations.items) }
        ensures overflow { result ≡ Err Overflow → (durations' : List ℕ)
            × AreDurations Ix.of F.post durations dag.now.graph durations'
            × TakesTooLong dag.now.graph durations' }
    {
        let durations = durations_of(alloc, dag, durations)?;
        let lags = Vec::new(alloc);
        timed(alloc, dag, durations, lags)
    }

    /// The same as [`new`](Schedule::new) where a child may have to wait after its parent has
    /// finished, as a wall has to dry before it is painted. Each edge has such a time, its lag: the
    /// child starts no earlier than the lag after the parent has finished. Planners call this a
    /// dependency from finish to start with a lag. `durations` is called once with each node and
    /// `lags` once with each edge; the unit is up to the caller.
    ///
    /// If several edges lead from one node to another, the greatest of their lags counts. With a lag
    /// of 0 for each edge, the times are those of [`new`](Schedule::new).
    ///
    /// # Requires
    ///
    /// - `durations`: `durations` may be called with each node and its weight.
    /// - `lags`: `lags` may be called with each edge and its weight.
    ///
    /// # Errors
    ///
    /// Returns `ScheduleError::Overflow` if the durations along some path, with the lags of its
    /// edges, add up to 2^64 or more, and `ScheduleError::Memory` if an allocation fails before the
    /// overflow is detected.
    ///
    /// # Complexity
    ///
    /// O(nodes + edges), plus the calls.
    ///
    /// # Examples
    ///
    /// ```
    /// // Nodes weigh the days that they take. The plaster dries for two days before the wall is
    /// // painted; the shelves can be built at once.
    /// let mut dag: Dag<u64, u64> = Dag::new(rt.alloc());
    /// let plaster = dag.add_node(1)?;
    /// let (_, paint) = dag.add_child(plaster, 2, 1)?;
    /// let (_, build_shelves) = dag.add_child(plaster, 0, 1)?;
    /// let plan = Schedule::with_lags(rt.alloc(), &dag, |_, days| *days, |_, days| *days)?;
    /// assert!(rt; plan.makespan == 4);
    /// assert!(rt; plan.starts[paint.index()] == 3);
    /// assert!(rt; plan.starts[build_shelves.index()] == 1);
    /// assert!(rt; plan.slack[build_shelves.index()] == 2);
    /// assert!(rt; plan.critical.as_slice() == [plaster, paint].as_slice());
    /// ```
    pub fn with_lags<N: Drop, E: Drop, S, F, L>(
        alloc: Global,
        dag: &Acyclic<N, E, Ix, S>,
        durations: F,
        lags: L,
    ) -> Result<Self, ScheduleError>
    where
        S: ReadStore<Ix, NodeWeight = N, EdgeWeight = E>,
        F: Fn(NodeIndex<Ix>, &N) -> u64,
        L: Fn(EdgeIndex<Ix>, &E) -> u64,
        requires durations { CanCallAtEachNode Ix.of F.pre durations dag.now.graph }
        requires lags { CanCallAtEachEdge Ix.of L.pre lags dag.now.graph }
        ensures sized { IfOk result (λ s. (vec_len s.durations ≡ node_bound dag.now.graph)
            × (vec_len s.lags ≡ edge_bound dag.now.graph)
            × (vec_len s.starts ≡ node_bound dag.now.graph)
            × (vec_len s.finishes ≡ node_bound dag.now.graph)
            × (vec_len s.slack ≡ node_bound dag.now.graph)) }
        ensures durations { IfOk result (λ s.
            AreDurations Ix.of F.post durations dag.now.graph s.durations.items) }
        ensures lags { IfOk result (λ s. AreLags Ix.of L.post lags dag.now.graph s.lags.items) }
        ensures starts { IfOk result (λ s. AreEarliestWithLags dag.now.graph s.durations.items
            s.lags.items (slice_index s.starts.items)) }
        ensures finishes { IfOk result (λ s. (n : ℕ) → HasNode dag.now.graph n
            → slice_index s.finishes.items n
            ≡ slice_index s.starts.items n + slice_index s.durations.items n) }
        ensures makespan { IfOk result (λ s. IsMakespanWithLags dag.now.graph s.durations.items
            s.lags.items (slice_index s.starts.items) s.makespan) }
        ensures slack { IfOk result (λ s. AreLatestWithLags dag.now.graph s.durations.items
            s.lags.items (λ n. slice_index s.starts.items n + slice_index s.slack.items n)
            s.makespan) }
        ensures critical { IfOk result (λ s. IsCriticalWithLags dag.now.graph s.durations.items
            s.lags.items (map Ix.number s.critical.items) s.makespan) }
        ensures traced_back { IfOk result (λ s. IsTracedBackWithLags dag.now.graph
            (slice_index s.finishes.items) s.lags.items (map Ix.number s.critical.items)) }
        ensures durations_elsewhere { IfOk result (λ s.
            IsZeroElsewhere dag.now.graph s.durations.items) }
        ensures lags_elsewhere { IfOk result (λ s.
            IsZeroWithoutEdge dag.now.graph s.lags.items) }
        ensures starts_elsewhere { IfOk result (λ s.
            IsZeroElsewhere dag.now.graph s.starts.items) }
        ensures finishes_elsewhere { IfOk result (λ s.
            IsZeroElsewhere dag.now.graph s.finishes.items) }
        ensures slack_elsewhere { IfOk result (λ s.
            IsZeroElsewhere dag.now.graph s.slack.items) }
        ensures schedule { IfOk result (λ s. IsScheduleOf dag.now.graph s.durations.items s.lags.items
            s.starts.items s.finishes.items s.slack.items s.makespan) }
        ensures fits { IfOk result (λ s.
            ¬ TakesTooLongWithLags dag.now.graph s.durations.items s.lags.items) }
        ensures overflow { result ≡ Err Overflow → (durations' lags' : List ℕ)
            × AreDurations Ix.of F.post durations dag.now.graph durations'
            × AreLags Ix.of L.post lags dag.now.graph lags'
            × TakesTooLongWithLags dag.now.graph durations' lags' }
    {
        let durations = durations_of(alloc, dag, durations)?;
        let lags = lags_of(alloc, dag, lags)?;
        timed(alloc, dag, durations, lags)
    }

    /// Computes the free float of each node: how much later it can start if each of its children
    /// still starts at its earliest start. A node without children can start later until it finishes
    /// at the makespan. The list is indexed by node, with 0 at indices without a node.
    ///
    /// The free float of a node is at most its slack. If it is less, the node can be delayed by its
    /// slack only if other nodes are delayed too.
    ///
    /// # Requires
    ///
    /// - The schedule was made for this `dag` and is unchanged, and no node or edge has been added or
    ///   removed since. Weights may have been written.
    ///
    /// # Errors
    ///
    /// Returns `AllocError` if an allocation fails.
    ///
    /// # Complexity
    ///
    /// O(nodes + edges).
    ///
    /// # Examples
    ///
    /// ```
    /// // Each of digging and sowing has a slack of 3 days, but sowing has to wait for digging.
    /// let mut dag: Dag<u64, ()> = Dag::new(rt.alloc());
    /// let dig = dag.add_node(1)?;
    /// let (_, sow) = dag.add_child(dig, (), 1)?;
    /// dag.add_node(5)?;
    /// let plan = Schedule::new(rt.alloc(), &dag, |_, days| *days)?;
    /// let free_float = plan.free_float(rt.alloc(), &dag)?;
    /// assert!(rt; plan.slack.as_slice() == [3, 3, 0].as_slice());
    /// assert!(rt; free_float.as_slice() == [0, 3, 0].as_slice());
    /// assert!(rt; free_float[dig.index()] == 0 && free_float[sow.index()] == 3);
    /// ```
    pub fn free_float<N: Drop, E: Drop, S>(
        &self,
        alloc: Global,
        dag: &Acyclic<N, E, Ix, S>,
    ) -> Result<Vec<u64>, AllocError>
    where
        S: ReadStore<Ix, NodeWeight = N, EdgeWeight = E>,
        requires { IsScheduleOf dag.now.graph self.now.durations.items self.now.lags.items
            self.now.starts.items self.now.finishes.items self.now.slack.items self.now.makespan }
        ensures sized { IfOk result (λ float. vec_len float ≡ node_bound dag.now.graph) }
        ensures free_float { IfOk result (λ float. (n : ℕ) → HasNode dag.now.graph n
            → IsFreeFloat dag.now.graph self.now.durations.items self.now.lags.items
            self.now.starts.items self.now.makespan n (slice_index float.items n)) }
        ensures at_most_slack { IfOk result (λ float. (n : ℕ) → HasNode dag.now.graph n
            → slice_index float.items n ≤ slice_index self.now.slack.items n) }
        ensures elsewhere { IfOk result (λ float. IsZeroElsewhere dag.now.graph float.items) }
    {
        float_of(
            alloc,
            dag,
            self.lags.as_slice(),
            self.starts.as_slice(),
            self.finishes.as_slice(),
            self.makespan,
        )
    }
}

// The schedule with these durations and lags. An edge has lag 0 if the list of lags has none for it.
fn timed<N: Drop, E: Drop, Ix: IndexType, S>(
    alloc: Global,
    dag: &Acyclic<N, E, Ix, S>,
    durations: Vec<u64>,
    lags: Vec<u64>,
) -> Result<Schedule<Ix>, ScheduleError>
where
    S: ReadStore<Ix, NodeWeight = N, EdgeWeight = E>,
    requires { vec_len durations ≡ node_bound dag.now.graph }
    ensures durations { IfOk result (λ s. s.durations ≡ durations) }
    ensures lags { IfOk result (λ s. s.lags ≡ lags) }
    ensures sized { IfOk result (λ s. (vec_len s.starts ≡ node_bound dag.now.graph)
        × (vec_len s.finishes ≡ node_bound dag.now.graph)
        × (vec_len s.slack ≡ node_bound dag.now.graph)) }
    ensures starts { IfOk result (λ s. AreEarliestWithLags dag.now.graph s.durations.items
        s.lags.items (slice_index s.starts.items)) }
    ensures finishes { IfOk result (λ s. (n : ℕ) → HasNode dag.now.graph n
        → slice_index s.finishes.items n
        ≡ slice_index s.starts.items n + slice_index s.durations.items n) }
    ensures makespan { IfOk result (λ s. IsMakespanWithLags dag.now.graph s.durations.items
        s.lags.items (slice_index s.starts.items) s.makespan) }
    ensures slack { IfOk result (λ s. AreLatestWithLags dag.now.graph s.durations.items
        s.lags.items (λ n. slice_index s.starts.items n + slice_index s.slack.items n)
        s.makespan) }
    ensures critical { IfOk result (λ s. IsCriticalWithLags dag.now.graph s.durations.items
        s.lags.items (map Ix.number s.critical.items) s.makespan) }
    ensures traced_back { IfOk result (λ s. IsTracedBackWithLags dag.now.graph
        (slice_index s.finishes.items) s.lags.items (map Ix.number s.critical.items)) }
    ensures starts_elsewhere { IfOk result (λ s. IsZeroElsewhere dag.now.graph s.starts.items) }
    ensures finishes_elsewhere { IfOk result (λ s.
        IsZeroElsewhere dag.now.graph s.finishes.items) }
    ensures slack_elsewhere { IfOk result (λ s. IsZeroElsewhere dag.now.graph s.slack.items) }
    ensures schedule { IfOk result (λ s. IsScheduleOf dag.now.graph s.durations.items s.lags.items
        s.starts.items s.finishes.items s.slack.items s.makespan) }
    ensures fits { IfOk result (λ s.
        ¬ TakesTooLongWithLags dag.now.graph s.durations.items s.lags.items) }
    ensures overflow { result ≡ Err Overflow
        → TakesTooLongWithLags dag.now.graph durations.items lags.items }
{
    let early = earliest(alloc, dag, durations.as_slice(), lags.as_slice())?;
    let order = nodes_in_order(alloc, dag)?;
    let slack = slack_of(
        alloc,
        dag,
        order.as_slice(),
        durations.as_slice(),
        lags.as_slice(),
        &early,
    )?;
    let critical = path_back(
        alloc,
        dag,
        order.as_slice(),
        early.last,
        early.parents.as_slice(),
    )?;
    Ok(Schedule {
        durations,
        lags,
        starts: early.starts,
        finishes: early.finishes,
        slack,
        critical,
        makespan: early.makespan,
    })
}

// What the closure returns for each node.
pub(crate) fn durations_of<N: Drop, E: Drop, Ix: IndexType, S, F: Fn(NodeIndex<Ix>, &N) -> u64>(
    alloc: Global,
    dag: &Acyclic<N, E, Ix, S>,
    f: F,
) -> Result<Vec<u64>, AllocError>
where
    S: ReadStore<Ix, NodeWeight = N, EdgeWeight = E>,
    requires { CanCallAtEachNode Ix.of F.pre f dag.now.graph }
    ensures called { IfOk result (λ durations.
        AreDurations Ix.of F.post f dag.now.graph durations.items) }
    ensures sized { IfOk result (λ durations. vec_len durations ≡ node_bound dag.now.graph) }
    ensures elsewhere { IfOk result (λ durations. IsZeroElsewhere dag.now.graph durations.items) }
{
    let store = dag.graph();
    let bound = store.node_bound();
    let mut durations = Vec::new(alloc);
    durations.resize(bound, 0u64)?;
    'nodes: for i in 0..bound {
        let n = NodeIndex::new(i);
        if let Some(weight) = store.node_weight(n) {
            durations[i] = f(n, weight);
        }
    }
    Ok(durations)
}
