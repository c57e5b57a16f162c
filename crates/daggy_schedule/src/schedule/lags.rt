//! The lags of edges.
ghost use Rattle.std.specs.Prelude.{◌≡◌, IfOk, vec_len, slice_index};
ghost use Rattle.daggy_base.specs.Graph.{edge_bound};
ghost use Rattle.daggy_schedule.specs.Lags.{CanCallAtEachEdge, AreLags, IsZeroWithoutEdge};

use daggy_base::index::{EdgeIndex, IndexType};
use daggy_base::read_store::ReadStore;
use daggy_dag::acyclic::Acyclic;
use std::alloc::{AllocError, Global};

// The time at an index, or 0 if the list has none.
pub(super) fn time_at(times: &[u64], i: usize) -> u64
    ensures { result ≡ slice_index times.now i }
{
    if i < times.len() { times[i] } else { 0 }
}

// The lag of an edge, or 0 if the list has none.
pub(super) fn lag_at<Ix: IndexType>(lags: &[u64], e: EdgeIndex<Ix>) -> u64
    ensures { result ≡ slice_index lags.now (Ix.number e) }
{
    time_at(lags, e.index())
}

// What the closure returns for each edge.
pub(super) fn lags_of<N: Drop, E: Drop, Ix: IndexType, S, L: Fn(EdgeIndex<Ix>, &E) -> u64>(
    alloc: Global,
    dag: &Acyclic<N, E, Ix, S>,
    f: L,
) -> Result<Vec<u64>, AllocError>
where
    S: ReadStore<Ix, NodeWeight = N, EdgeWeight = E>,
    requires { CanCallAtEachEdge Ix.of L.pre f dag.now.graph }
    ensures called { IfOk result (λ lags. AreLags Ix.of L.post f dag.now.graph lags.items) }
    ensures sized { IfOk result (λ lags. vec_len lags ≡ edge_bound dag.now.graph) }
    ensures elsewhere { IfOk result (λ lags. IsZeroWithoutEdge dag.now.graph lags.items) }
{
    let store = dag.graph();
    store.invariant();
    let bound = store.edge_bound();
    let mut lags = Vec::new(alloc);
    lags.resize(bound, 0u64)?;
    'edges: for i in 0..bound {
        let e = EdgeIndex::new(i);
        if let Some(weight) = store.edge_weight(e) {
            lags[i] = f(e, weight);
        }
    }
    Ok(lags)
}
