//! The slack of each node, computed in reverse topological order.
ghost use Rattle.std.specs.Prelude.{◌≡◌, ℕ, ◌+◌, ◌≤◌, map, length, IfOk, vec_len, slice_index};
ghost use Rattle.daggy_base.specs.Graph.{node_bound};
ghost use Rattle.daggy_base.specs.Ordered.{IsOrderOf};
ghost use Rattle.daggy_base.specs.Path.{AreJoined};
ghost use Rattle.daggy_schedule.specs.Times.{IsZeroElsewhere};
ghost use Rattle.daggy_schedule.specs.Lags.{AreEarliestWithLags, AreLatestWithLags};
ghost use Rattle.daggy_schedule.specs.Passes.{AreNoted, IsLast, IsLatestFinish, later_by};

use crate::schedule::early::Early;
use crate::schedule::lags::{lag_at, time_at};
use daggy_base::index::{Direction, EdgeIndex, IndexType, NodeIndex};
use daggy_base::read_store::ReadStore;
use daggy_dag::acyclic::Acyclic;
use std::alloc::{AllocError, Global};

// The latest time at which a node can finish, from the latest starts of its children and the lags of
// the edges to them. A node has slack 0 if the list of slacks has none for it.
pub(super) fn latest_finish<Ix: IndexType, S: ReadStore<Ix>>(
    store: &S,
    n: NodeIndex<Ix>,
    makespan: u64,
    lags: &[u64],
    starts: &[u64],
    slack: &[u64],
) -> u64
    requires starts { node_bound (S.graph store.now) ≤ length starts.now }
    requires low { (v : ℕ) → AreJoined (S.graph store.now) (Ix.number n) v
        → later_by starts.now slack.now v ≤ makespan }
    requires lags { (v : ℕ) (edge : AreJoined (S.graph store.now) (Ix.number n) v)
        → slice_index lags.now edge.0 ≤ later_by starts.now slack.now v }
    ensures { IsLatestFinish (S.graph store.now) (Ix.number n) lags.now
        (later_by starts.now slack.now) makespan result }
{
    store.invariant();
    let end = EdgeIndex::<Ix>::end().index();
    let mut latest = makespan;
    let mut e = store.first_edge(n, Direction::Outgoing);
    'edges: while e.index() != end {
        let ends = store.edge_endpoints(e);
        let lag = lag_at(lags, e);
        e = store.next_edge(e, Direction::Outgoing);
        if let Some((_parent, child)) = ends {
            let i = child.index();
            latest = latest.min(starts[i] + time_at(slack, i) - lag);
        }
    }
    latest
}

// The nodes in the order of the dag.
pub(crate) fn nodes_in_order<N: Drop, E: Drop, Ix: IndexType, S>(
    alloc: Global,
    dag: &Acyclic<N, E, Ix, S>,
) -> Result<Vec<NodeIndex<Ix>>, AllocError>
where
    S: ReadStore<Ix, NodeWeight = N, EdgeWeight = E>,
    ensures { IfOk result (λ order. IsOrderOf dag.now.graph (map Ix.number order.items)) }
{
    let mut order = Vec::new(alloc);
    let mut nodes = dag.topological_order();
    'nodes: while let Some(n) = nodes.next() {
        order.push(n)?;
    }
    Ok(order)
}

// Computes how much later each node can start, against the order.
pub(super) fn slack_of<N: Drop, E: Drop, Ix: IndexType, S>(
    alloc: Global,
    dag: &Acyclic<N, E, Ix, S>,
    order: &[NodeIndex<Ix>],
    durations: &[u64],
    lags: &[u64],
    early: &Early<Ix>,
) -> Result<Vec<u64>, AllocError>
where
    S: ReadStore<Ix, NodeWeight = N, EdgeWeight = E>,
    requires ordered { IsOrderOf dag.now.graph (map Ix.number order.now) }
    requires noted { AreNoted Ix.greatest dag.now.graph durations.now lags.now
        early.now.starts.items early.now.parents.items early.now.finishes.items }
    requires earliest { AreEarliestWithLags dag.now.graph durations.now lags.now
        (slice_index early.now.starts.items) }
    requires last { IsLast Ix.greatest dag.now.graph early.now.finishes.items early.now.makespan
        (Ix.number early.now.last) }
    requires starts { vec_len early.now.starts ≡ node_bound dag.now.graph }
    requires finishes { vec_len early.now.finishes ≡ node_bound dag.now.graph }
    ensures sized { IfOk result (λ slack. vec_len slack ≡ node_bound dag.now.graph) }
    ensures elsewhere { IfOk result (λ slack. IsZeroElsewhere dag.now.graph slack.items) }
    ensures latest { IfOk result (λ slack. AreLatestWithLags dag.now.graph durations.now lags.now
        (later_by early.now.starts.items slack.items) early.now.makespan) }
{
    let store = dag.graph();
    let mut slack = Vec::new(alloc);
    slack.resize(store.node_bound(), 0u64)?;
    let mut k = order.len();
    'nodes: while k > 0 {
        k -= 1;
        let n = order[k];
        let latest = latest_finish(
            store,
            n,
            early.makespan,
            lags,
            early.starts.as_slice(),
            slack.as_slice(),
        );
        slack[n.index()] = latest - early.finishes[n.index()];
    }
    Ok(slack)
}
