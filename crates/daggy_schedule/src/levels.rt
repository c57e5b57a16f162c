//! How long the paths that begin with each node take.
ghost use Rattle.std.specs.Prelude.{◌≡◌, ◌≤◌, ℕ, List, map, Err, IfOk, length, vec_len, slice_index};
ghost use Rattle.daggy_base.specs.Graph.{HasNode, node_bound};
ghost use Rattle.daggy_base.specs.Ordered.{IsOrderOf};
ghost use Rattle.daggy_schedule.specs.Times.{CanCallAtEachNode, AreDurations, IsZeroElsewhere};
ghost use Rattle.daggy_schedule.specs.Times.{IsLongestFrom, TakesTooLong};
ghost use Rattle.daggy_schedule.specs.Passes.{IsGreatestBelow};
ghost use Rattle.daggy_schedule.specs.declared.schedule.ScheduleError.TheVariants.{Overflow};

use crate::schedule::late::nodes_in_order;
use crate::schedule::{ScheduleError, durations_of};
use daggy_base::index::{Direction, EdgeIndex, IndexType, NodeIndex};
use daggy_base::read_store::ReadStore;
use daggy_dag::acyclic::Acyclic;
use std::alloc::Global;

/// Computes the bottom level of each node: the sum of the durations along the longest path that
/// begins with the node, with its own duration. The list is indexed by node, with 0 at indices
/// without a node. `durations` is called once with each node; the unit is up to the caller.
///
/// As keys of a [`ReadyByKey`](crate::ready_by_key::ReadyByKey) queue, the bottom levels put the
/// critical path first: of the nodes that are ready, the one with the longest path ahead is
/// returned.
///
/// # Requires
///
/// - `durations` may be called with each node and its weight.
///
/// # Errors
///
/// Returns `ScheduleError::Overflow` if the durations along some path add up to 2^64 or more, and
/// `ScheduleError::Memory` if an allocation fails before the overflow is detected.
///
/// # Complexity
///
/// O(nodes + edges), plus the calls.
///
/// # Examples
///
/// ```
/// let mut dag: Dag<u64, ()> = Dag::new(rt.alloc());
/// let sow = dag.add_node(1)?;
/// let mow = dag.add_node(6)?;
/// let (_, water) = dag.add_child(sow, (), 60)?;
/// dag.add_child(water, (), 2)?;
/// let levels = bottom_levels(rt.alloc(), &dag, |_, days| *days)?;
/// assert!(rt; levels.as_slice() == [63, 6, 62, 2].as_slice());
/// // Sowing goes first, since most has to be done after it.
/// let mut ready = ReadyByKey::new(rt.alloc(), &dag, |n, _| levels[n.index()])?;
/// assert!(rt; ready.next(&dag) == Some(sow));
/// assert!(rt; ready.next(&dag) == Some(mow));
/// ```
pub fn bottom_levels<N: Drop, E: Drop, Ix: IndexType, S, F: Fn(NodeIndex<Ix>, &N) -> u64>(
    alloc: Global,
    dag: &Acyclic<N, E, Ix, S>,
    durations: F,
) -> Result<Vec<u64>, ScheduleError>
where
    S: ReadStore<Ix, NodeWeight = N, EdgeWeight = E>,
    requires { CanCallAtEachNode Ix.of F.pre durations dag.now.graph }
    ensures sized { IfOk result (λ levels. vec_len levels ≡ node_bound dag.now.graph) }
    ensures longest { IfOk result (λ levels. (durations' : List ℕ)
        × AreDurations Ix.of F.post durations dag.now.graph durations'
        × ((n : ℕ) → HasNode dag.now.graph n
        → IsLongestFrom dag.now.graph durations' n (slice_index levels.items n))) }
    ensures elsewhere { IfOk result (λ levels. IsZeroElsewhere dag.now.graph levels.items) }
    ensures overflow { result ≡ Err Overflow → (durations' : List ℕ)
        × AreDurations Ix.of F.post durations dag.now.graph durations'
        × TakesTooLong dag.now.graph durations' }
{
    let durations = durations_of(alloc, dag, durations)?;
    let order = nodes_in_order(alloc, dag)?;
    levels_of(alloc, dag, order.as_slice(), durations.as_slice())
}

// Computes the bottom level of each node, against the order.
fn levels_of<N: Drop, E: Drop, Ix: IndexType, S>(
    alloc: Global,
    dag: &Acyclic<N, E, Ix, S>,
    order: &[NodeIndex<Ix>],
    durations: &[u64],
) -> Result<Vec<u64>, ScheduleError>
where
    S: ReadStore<Ix, NodeWeight = N, EdgeWeight = E>,
    requires ordered { IsOrderOf dag.now.graph (map Ix.number order.now) }
    requires durations { length durations.now ≡ node_bound dag.now.graph }
    ensures sized { IfOk result (λ levels. vec_len levels ≡ node_bound dag.now.graph) }
    ensures longest { IfOk result (λ levels. (n : ℕ) → HasNode dag.now.graph n
        → IsLongestFrom dag.now.graph durations.now n (slice_index levels.items n)) }
    ensures elsewhere { IfOk result (λ levels. IsZeroElsewhere dag.now.graph levels.items) }
    ensures overflow { result ≡ Err Overflow → TakesTooLong dag.now.graph durations.now }
{
    let store = dag.graph();
    let mut levels = Vec::new(alloc);
    levels.resize(store.node_bound(), 0u64)?;
    let mut k = order.len();
    'nodes: while k > 0 {
        k -= 1;
        let n = order[k];
        let i = n.index();
        let below = greatest_below(store, n, levels.as_slice());
        let Some(level) = below.checked_add(durations[i]) else {
            return Err(ScheduleError::Overflow);
        };
        levels[i] = level;
    }
    Ok(levels)
}

// The greatest level of the children of a node, or 0 if it has none.
fn greatest_below<Ix: IndexType, S: ReadStore<Ix>>(
    store: &S,
    n: NodeIndex<Ix>,
    levels: &[u64],
) -> u64
    requires { node_bound (S.graph store.now) ≤ length levels.now }
    ensures { IsGreatestBelow (S.graph store.now) levels.now (Ix.number n) result }
{
    store.invariant();
    let end = EdgeIndex::<Ix>::end().index();
    let mut greatest = 0u64;
    let mut e = store.first_edge(n, Direction::Outgoing);
    'edges: while e.index() != end {
        let ends = store.edge_endpoints(e);
        e = store.next_edge(e, Direction::Outgoing);
        if let Some((_parent, child)) = ends {
            greatest = greatest.max(levels[child.index()]);
        }
    }
    greatest
}
