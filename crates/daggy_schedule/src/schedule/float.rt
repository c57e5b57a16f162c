//! The free float of each node.
ghost use Rattle.std.specs.Prelude.{◌≡◌, ℕ, ◌+◌, length, IfOk, vec_len, slice_index};
ghost use Rattle.daggy_base.specs.Graph.{HasNode, node_bound};
ghost use Rattle.daggy_schedule.specs.Times.{IsZeroElsewhere};
ghost use Rattle.daggy_schedule.specs.Passes.{AreInTime, IsLatestFinish};

use crate::schedule::late::latest_finish;
use daggy_base::index::{IndexType, NodeIndex};
use daggy_base::read_store::ReadStore;
use daggy_dag::acyclic::Acyclic;
use std::alloc::{AllocError, Global};

// Computes how much later each node can finish without delaying a child past its start, and by the
// makespan.
pub(super) fn float_of<N: Drop, E: Drop, Ix: IndexType, S>(
    alloc: Global,
    dag: &Acyclic<N, E, Ix, S>,
    lags: &[u64],
    starts: &[u64],
    finishes: &[u64],
    makespan: u64,
) -> Result<Vec<u64>, AllocError>
where
    S: ReadStore<Ix, NodeWeight = N, EdgeWeight = E>,
    requires starts { length starts.now ≡ node_bound dag.now.graph }
    requires finishes { length finishes.now ≡ node_bound dag.now.graph }
    requires in_time { AreInTime dag.now.graph lags.now starts.now finishes.now makespan }
    ensures sized { IfOk result (λ float. vec_len float ≡ node_bound dag.now.graph) }
    ensures latest { IfOk result (λ float. (n : ℕ) → HasNode dag.now.graph n
        → IsLatestFinish dag.now.graph n lags.now (slice_index starts.now) makespan
        (slice_index finishes.now n + slice_index float.items n)) }
    ensures elsewhere { IfOk result (λ float. IsZeroElsewhere dag.now.graph float.items) }
{
    let store = dag.graph();
    let bound = store.node_bound();
    let mut float = Vec::new(alloc);
    float.resize(bound, 0u64)?;
    'nodes: for i in 0..bound {
        let n = NodeIndex::new(i);
        if dag.contains_node(n) {
            let latest = latest_finish(store, n, makespan, lags, starts, &[]);
            float[i] = latest - finishes[i];
        }
    }
    Ok(float)
}
