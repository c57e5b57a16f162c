//! Earliest starts, computed in topological order.
ghost use Rattle.std.specs.Prelude.{◌≡◌, ℕ, ◌+◌, ◌≤◌, ◌<◌, ◌↔◌, ◌⊎◌, List, [], map, length, Err};
ghost use Rattle.std.specs.Prelude.{IfOk, OnOk, OnErr, IsTrue};
ghost use Rattle.std.specs.Prelude.{vec_len, slice_index, slice_set};
ghost use Rattle.daggy_base.specs.Graph.{HasNode, node_bound};
ghost use Rattle.daggy_base.specs.Ordered.{IsOrderOf};
ghost use Rattle.daggy_base.specs.Path.{AreJoined, IsPath};
ghost use Rattle.daggy_schedule.specs.Times.{span, IsZeroElsewhere, IsLowestLast};
ghost use Rattle.daggy_schedule.specs.Lags.{lags_along, TakesTooLongWithLags, AreEarliestWithLags};
ghost use Rattle.daggy_schedule.specs.Lags.{IsTracedBackWithLags};
ghost use Rattle.daggy_schedule.specs.Passes.{AreDelayed, AreNoted, IsLast, GoesBefore};
ghost use Rattle.daggy_schedule.specs.Passes.{IsDelayedTooLong};
ghost use Rattle.daggy_schedule.specs.declared.schedule.ScheduleError.TheVariants.{Overflow};

use crate::schedule::ScheduleError;
use crate::schedule::lags::lag_at;
use daggy_base::index::{Direction, EdgeIndex, IndexType, NodeIndex};
use daggy_base::link::Link;
use daggy_base::read_store::ReadStore;
use daggy_dag::acyclic::Acyclic;
use std::alloc::{AllocError, Global};

// Starts, the nodes that are waited for, and the last node.
#[derive(Drop)]
pub(super) struct Early<Ix: IndexType> {
    pub starts: Vec<u64>,
    pub finishes: Vec<u64>,
    // By node index, the parent that the node waits for, if there is any: the one from which the lag
    // of an edge ends last. Ties go to the lowest index.
    pub parents: Vec<Link<Ix>>,
    pub makespan: u64,
    pub last: NodeIndex<Ix>,
}

// Whether a node is recorded in preference to another: its time is later, or it is the same and the
// node has the lower index. Every node is preferred to `end` at time 0.
fn goes_before<Ix: IndexType>(
    finish: u64,
    n: NodeIndex<Ix>,
    time: u64,
    other: NodeIndex<Ix>,
) -> bool
    ensures { IsTrue result ↔ GoesBefore finish (Ix.number n) time (Ix.number other) }
{
    time < finish || (time == finish && n.index() < other.index())
}

// Delays a node until the lag of an edge from its parent `n` ends, and records `n` if it is
// preferred to the parent that was recorded.
fn delay<Ix: IndexType>(
    starts: &mut Vec<u64>,
    parents: &mut Vec<Link<Ix>>,
    i: usize,
    n: NodeIndex<Ix>,
    finish: u64,
)
    requires starts { i < vec_len starts.old }
    requires parents { i < vec_len parents.old }
    ensures later { ¬ GoesBefore finish (Ix.number n) (slice_index starts.old.items i)
        (slice_index parents.old.items i)
        → (starts.new.items ≡ starts.old.items) × (parents.new.items ≡ parents.old.items) }
    ensures put { GoesBefore finish (Ix.number n) (slice_index starts.old.items i)
        (slice_index parents.old.items i)
        → (starts.new.items ≡ slice_set starts.old.items i finish)
        × (parents.new.items ≡ slice_set parents.old.items i (Ix.number n)) }
{
    if goes_before(finish, n, starts[i], parents[i].node()) {
        starts[i] = finish;
        parents[i] = Link::of_node(n);
    }
}

// Delays the children of a node until the lags of its edges have passed after it finishes, and
// records it for each child whose recorded parent it is preferred to.
fn delay_children<Ix: IndexType, S: ReadStore<Ix>>(
    store: &S,
    n: NodeIndex<Ix>,
    finish: u64,
    lags: &[u64],
    starts: &mut Vec<u64>,
    parents: &mut Vec<Link<Ix>>,
) -> Result<(), ScheduleError>
    requires starts { node_bound (S.graph store.now) ≤ vec_len starts.old }
    requires parents { node_bound (S.graph store.now) ≤ vec_len parents.old }
    ensures delayed { OnOk result (AreDelayed (S.graph store.now) (Ix.number n) finish lags.now
        starts.old.items parents.old.items starts.new.items parents.new.items) }
    ensures starts { OnOk result (vec_len starts.new ≡ vec_len starts.old) }
    ensures parents { OnOk result (vec_len parents.new ≡ vec_len parents.old) }
    ensures overflow { OnErr result
        (IsDelayedTooLong (S.graph store.now) (Ix.number n) finish lags.now) }
{
    store.invariant();
    let end = EdgeIndex::<Ix>::end().index();
    let mut e = store.first_edge(n, Direction::Outgoing);
    'edges: while e.index() != end {
        let ends = store.edge_endpoints(e);
        let lag = lag_at(lags, e);
        e = store.next_edge(e, Direction::Outgoing);
        if let Some((_parent, child)) = ends {
            let Some(time) = finish.checked_add(lag) else {
                return Err(ScheduleError::Overflow);
            };
            delay(starts, parents, child.index(), n, time);
        }
    }
    Ok(())
}

// The later of two times, with its node; the lower of the two nodes if the times are equal.
fn later_of<Ix: IndexType>(
    makespan: u64,
    last: NodeIndex<Ix>,
    finish: u64,
    n: NodeIndex<Ix>,
) -> (u64, NodeIndex<Ix>)
    ensures later { ¬ GoesBefore finish (Ix.number n) makespan (Ix.number last)
        → (result.0 ≡ makespan) × (result.1 ≡ last) }
    ensures taken { GoesBefore finish (Ix.number n) makespan (Ix.number last)
        → (result.0 ≡ finish) × (result.1 ≡ n) }
{
    if goes_before(finish, n, makespan, last) {
        (finish, n)
    } else {
        (makespan, last)
    }
}

// Computes the earliest start of each node, along the order.
pub(super) fn earliest<N: Drop, E: Drop, Ix: IndexType, S>(
    alloc: Global,
    dag: &Acyclic<N, E, Ix, S>,
    durations: &[u64],
    lags: &[u64],
) -> Result<Early<Ix>, ScheduleError>
where
    S: ReadStore<Ix, NodeWeight = N, EdgeWeight = E>,
    requires { node_bound dag.now.graph ≤ length durations.now }
    ensures noted { IfOk result (λ r. AreNoted Ix.greatest dag.now.graph durations.now
        lags.now r.starts.items r.parents.items r.finishes.items) }
    ensures earliest { IfOk result (λ r.
        AreEarliestWithLags dag.now.graph durations.now lags.now (slice_index r.starts.items)) }
    ensures last { IfOk result (λ r.
        IsLast Ix.greatest dag.now.graph r.finishes.items r.makespan (Ix.number r.last)) }
    ensures sized { IfOk result (λ r. (vec_len r.starts ≡ node_bound dag.now.graph)
        × (vec_len r.finishes ≡ node_bound dag.now.graph)
        × (vec_len r.parents ≡ node_bound dag.now.graph)) }
    ensures elsewhere { IfOk result (λ r. IsZeroElsewhere dag.now.graph r.starts.items
        × IsZeroElsewhere dag.now.graph r.finishes.items) }
    ensures overflow { result ≡ Err Overflow
        → TakesTooLongWithLags dag.now.graph durations.now lags.now }
{
    let store = dag.graph();
    let bound = store.node_bound();
    let mut starts = Vec::new(alloc);
    starts.resize(bound, 0u64)?;
    let mut finishes = Vec::new(alloc);
    finishes.resize(bound, 0u64)?;
    let mut parents = Vec::new(alloc);
    parents.resize(bound, Link::end())?;
    let mut makespan = 0u64;
    let mut last = NodeIndex::<Ix>::end();
    let mut nodes = dag.topological_order();
    'nodes: while let Some(n) = nodes.next() {
        let i = n.index();
        let start: u64 = starts[i];
        let Some(finish) = start.checked_add(durations[i]) else {
            return Err(ScheduleError::Overflow);
        };
        finishes[i] = finish;
        let (time, node) = later_of(makespan, last, finish, n);
        makespan = time;
        last = node;
        delay_children(store, n, finish, lags, &mut starts, &mut parents)?;
    }
    Ok(Early {
        starts,
        finishes,
        parents,
        makespan,
        last,
    })
}

// The path that ends with a node and follows the recorded parents back, as far as there are any. It
// follows the order backwards, so it ends.
pub(super) fn path_back<N: Drop, E: Drop, Ix: IndexType, S>(
    alloc: Global,
    dag: &Acyclic<N, E, Ix, S>,
    _order: &[NodeIndex<Ix>],
    last: NodeIndex<Ix>,
    parents: &[Link<Ix>],
) -> Result<Vec<NodeIndex<Ix>>, AllocError>
where
    S: ReadStore<Ix, NodeWeight = N, EdgeWeight = E>,
    requires ordered { IsOrderOf dag.now.graph (map Ix.number _order.now) }
    requires fits { node_bound dag.now.graph ≤ length parents.now }
    requires parents { (n : ℕ) → HasNode dag.now.graph n
        → (slice_index parents.now n ≡ Ix.greatest)
        ⊎ AreJoined dag.now.graph (slice_index parents.now n) n }
    requires last { (Ix.number last ≡ Ix.greatest) ⊎ HasNode dag.now.graph (Ix.number last) }
    ensures none { IfOk result (λ path. Ix.number last ≡ Ix.greatest
        → map Ix.number path.items ≡ []) }
    ensures sum { IfOk result (λ path. (durations lags starts finishes : List ℕ)
        → HasNode dag.now.graph (Ix.number last)
        → AreNoted Ix.greatest dag.now.graph durations lags starts parents.now finishes
        → (p : IsPath dag.now.graph (map Ix.number path.items))
        × (span durations (map Ix.number path.items)
        + lags_along dag.now.graph lags (map Ix.number path.items) p
        ≡ slice_index finishes (Ix.number last))) }
    ensures traced_back { IfOk result (λ path. (durations lags starts finishes : List ℕ)
        → IsLowestLast (HasNode dag.now.graph) (slice_index finishes) (Ix.number last)
        → AreNoted Ix.greatest dag.now.graph durations lags starts parents.now finishes
        → IsTracedBackWithLags dag.now.graph (slice_index finishes) lags
        (map Ix.number path.items)) }
{
    let _count = dag.node_count();
    let end = NodeIndex::<Ix>::end().index();
    let mut path = Vec::new(alloc);
    if last.index() == end {
        return Ok(path);
    }
    let mut n = last;
    'path: loop {
        path.push(n)?;
        let parent = parents[n.index()].node();
        if parent.index() == end {
            path.reverse();
            return Ok(path);
        }
        n = parent;
    }
}
