//! Schedules for workers that each process one node at a time.
ghost use Rattle.std.specs.Prelude.{◌≡◌, ◌+◌, ◌<◌, ℕ, List, map, Err, IfOk, vec_len, length, slice_index};
ghost use Rattle.std.specs.Int.NonZero.{non_zero_usize_get};
ghost use Rattle.daggy_base.specs.Graph.{HasNode, node_bound};
ghost use Rattle.daggy_schedule.specs.Times.{CanCallAtEachNode, AreDurations, AreEarliest, AreLatest};
ghost use Rattle.daggy_schedule.specs.Times.{AreDoneBy, IsCritical, IsZeroElsewhere};
ghost use Rattle.daggy_schedule.specs.Passes.{later_by};
ghost use Rattle.daggy_schedule.specs.Assignments.{IsAssignment, AreKeptBusy, IsMostUrgentFirst};
ghost use Rattle.daggy_schedule.specs.Assignments.{IsWithinBound, IsNearBest, HasLongBound};
ghost use Rattle.daggy_schedule.specs.declared.schedule.ScheduleError.TheVariants.{Overflow};

use crate::ready::Ready;
use crate::schedule::{Schedule, ScheduleError};
use daggy_base::index::{IndexType, NodeIndex};
use daggy_base::read_store::ReadStore;
use daggy_dag::acyclic::Acyclic;
use std::alloc::Global;
use std::num::NonZeroUsize;

mod workers;

use workers::Workers;

/// Which worker processes each node, and when. The lists are indexed by node, with 0 at indices
/// without a node.
///
/// # Examples
///
/// ```
/// let mut dag: Dag<u64, ()> = Dag::new(rt.alloc());
/// let dig = dag.add_node(2)?;
/// let one = NonZeroUsize::MIN;
/// let plan = schedule_on(rt.alloc(), &dag, |_, hours| *hours, one)?;
/// assert!(rt; plan.starts.get(dig.index()) == Some(&0));
/// assert!(rt; plan.workers.get(dig.index()) == Some(&0));
/// assert!(rt; plan.makespan == 2);
/// ```
#[derive(Debug, Drop, Eq, PartialEq)]
pub struct Assignment {
    /// The duration of each node.
    pub durations: Vec<u64>,
    /// When each node starts: all of its parents have finished, and its worker is free.
    pub starts: Vec<u64>,
    /// When each node finishes: its duration after it starts.
    pub finishes: Vec<u64>,
    /// The worker that processes each node. The first worker has number 0.
    pub workers: Vec<usize>,
    /// The length of the schedule: the greatest finish, or 0 if there are no nodes.
    pub makespan: u64,
}

/// Assigns the nodes of a dag to workers, each of which processes one node at a time. This is list
/// scheduling (Graham 1969), longest remaining path first: a free worker takes the ready node from
/// which the longest path leads, and ties go to the smallest index. If several workers are free, it
/// is unspecified which of them takes the node. `durations` is called once with each node; the unit
/// is up to the caller.
///
/// The makespan is at most 2 - 1/workers times the least makespan that is possible with that many
/// workers (Graham's bound).
///
/// # Requires
///
/// - `durations` may be called with each node and its weight.
///
/// # Errors
///
/// Returns `ScheduleError::Overflow` only if the bound on the makespan is 2^64 or more: the sum of
/// all durations, plus (workers - 1) times the sum of the durations along a longest path, all
/// divided by the number of workers. Returns `ScheduleError::Memory` if an allocation fails.
///
/// # Complexity
///
/// O(nodes * log(nodes) + edges), plus the calls.
///
/// # Examples
///
/// ```
/// let mut dag: Dag<u64, ()> = Dag::new(rt.alloc());
/// let dig = dag.add_node(2)?;
/// dag.add_child(dig, (), 3)?;
/// dag.add_node(4)?;
/// let two = NonZeroUsize::MIN.saturating_add(1);
/// let plan = schedule_on(rt.alloc(), &dag, |_, hours| *hours, two)?;
/// assert!(rt; plan.makespan == 5);
/// assert!(rt; plan.starts.as_slice() == [0, 2, 0].as_slice());
/// assert!(rt; plan.finishes.as_slice() == [2, 5, 4].as_slice());
/// assert!(rt; plan.workers.as_slice() == [0, 0, 1].as_slice());
/// ```
pub fn schedule_on<N: Drop, E: Drop, Ix: IndexType, S, F: Fn(NodeIndex<Ix>, &N) -> u64>(
    alloc: Global,
    dag: &Acyclic<N, E, Ix, S>,
    durations: F,
    workers: NonZeroUsize,
) -> Result<Assignment, ScheduleError>
where
    S: ReadStore<Ix, NodeWeight = N, EdgeWeight = E>,
    requires { CanCallAtEachNode Ix.of F.pre durations dag.now.graph }
    ensures sized { IfOk result (λ a. (vec_len a.durations ≡ node_bound dag.now.graph)
        × (vec_len a.starts ≡ node_bound dag.now.graph)
        × (vec_len a.finishes ≡ node_bound dag.now.graph)
        × (vec_len a.workers ≡ node_bound dag.now.graph)) }
    ensures durations { IfOk result (λ a.
        AreDurations Ix.of F.post durations dag.now.graph a.durations.items) }
    ensures finishes { IfOk result (λ a. (n : ℕ) → HasNode dag.now.graph n
        → slice_index a.finishes.items n
        ≡ slice_index a.starts.items n + slice_index a.durations.items n) }
    ensures durations_elsewhere { IfOk result (λ a.
        IsZeroElsewhere dag.now.graph a.durations.items) }
    ensures starts_elsewhere { IfOk result (λ a. IsZeroElsewhere dag.now.graph a.starts.items) }
    ensures finishes_elsewhere { IfOk result (λ a.
        IsZeroElsewhere dag.now.graph a.finishes.items) }
    ensures workers_elsewhere { IfOk result (λ a. IsZeroElsewhere dag.now.graph a.workers.items) }
    ensures assigned { IfOk result (λ a. IsAssignment dag.now.graph a.durations.items a.starts.items
        a.workers.items (non_zero_usize_get workers) a.makespan) }
    ensures busy { IfOk result (λ a. AreKeptBusy dag.now.graph a.durations.items a.starts.items
        a.workers.items (non_zero_usize_get workers)) }
    ensures urgent { IfOk result (λ a.
        IsMostUrgentFirst dag.now.graph a.durations.items a.starts.items) }
    ensures bound { IfOk result (λ a. IsWithinBound dag.now.graph a.durations.items
        (non_zero_usize_get workers) a.makespan) }
    ensures near_best { IfOk result (λ a. IsNearBest dag.now.graph a.durations.items
        (non_zero_usize_get workers) a.makespan) }
    ensures overflow { result ≡ Err Overflow → (durations' : List ℕ)
        × AreDurations Ix.of F.post durations dag.now.graph durations'
        × HasLongBound dag.now.graph durations' (non_zero_usize_get workers) }
{
    let count = workers.get();
    let plan = Schedule::new(alloc, dag, durations)?;
    let done = work_off(alloc, dag, &plan, count)?;
    let finishes = done.finishes(alloc, plan.durations.as_slice())?;
    Ok(done.into_assignment(plan.durations, finishes))
}

// Simulates the workers until all nodes are done. Of the ready nodes, the one with the earliest
// latest start is started first.
fn work_off<N: Drop, E: Drop, Ix: IndexType, S>(
    alloc: Global,
    dag: &Acyclic<N, E, Ix, S>,
    plan: &Schedule<Ix>,
    count: usize,
) -> Result<Workers<Ix>, ScheduleError>
where
    S: ReadStore<Ix, NodeWeight = N, EdgeWeight = E>,
    requires some { 0 < count }
    requires durations { vec_len plan.now.durations ≡ node_bound dag.now.graph }
    requires starts { vec_len plan.now.starts ≡ node_bound dag.now.graph }
    requires slack { vec_len plan.now.slack ≡ node_bound dag.now.graph }
    requires earliest { AreEarliest dag.now.graph plan.now.durations.items
        (slice_index plan.now.starts.items) }
    requires latest { AreLatest dag.now.graph plan.now.durations.items
        (later_by plan.now.starts.items plan.now.slack.items) plan.now.makespan }
    requires met { AreDoneBy dag.now.graph plan.now.durations.items
        (slice_index plan.now.starts.items) plan.now.makespan }
    requires critical { IsCritical dag.now.graph plan.now.durations.items
        (map Ix.number plan.now.critical.items) plan.now.makespan }
    ensures sized { IfOk result (λ s. (length s.starts ≡ node_bound dag.now.graph)
        × (length s.workers ≡ node_bound dag.now.graph)) }
    ensures elsewhere { IfOk result (λ s. IsZeroElsewhere dag.now.graph s.starts
        × IsZeroElsewhere dag.now.graph s.workers) }
    ensures assigned { IfOk result (λ s. IsAssignment dag.now.graph plan.now.durations.items s.starts
        s.workers count s.now) }
    ensures busy { IfOk result (λ s. AreKeptBusy dag.now.graph plan.now.durations.items s.starts
        s.workers count) }
    ensures urgent { IfOk result (λ s.
        IsMostUrgentFirst dag.now.graph plan.now.durations.items s.starts) }
    ensures bound { IfOk result (λ s.
        IsWithinBound dag.now.graph plan.now.durations.items count s.now) }
    ensures near_best { IfOk result (λ s.
        IsNearBest dag.now.graph plan.now.durations.items count s.now) }
    ensures overflow { result ≡ Err Overflow
        → HasLongBound dag.now.graph plan.now.durations.items count }
{
    // Called only for its postcondition: the graph has an order.
    let _order = dag.topological_order();
    let mut ready = Ready::new(alloc, dag)?;
    let mut workers = Workers::new(alloc, dag.graph().node_bound())?;
    'events: loop {
        'ready: while let Some(n) = ready.next(dag) {
            let i = n.index();
            workers.add(plan.starts[i] + plan.slack[i], n)?;
        }
        'begin: while workers.begin_next(plan.durations.as_slice(), count)? {}
        let Some(n) = workers.finish_next()? else {
            return Ok(workers);
        };
        ready.done(dag, n);
    }
}
