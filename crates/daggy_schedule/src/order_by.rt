//! Topological orders by keys.
ghost use Rattle.std.specs.Prelude.{map, IfOk};
ghost use Rattle.daggy_base.specs.Ordered.{IsOrderOf};
ghost use Rattle.daggy_schedule.specs.Times.{CanCallAtEachNode};
ghost use Rattle.daggy_schedule.specs.LeastFirst.{IsLeastFirst};

use crate::candidates::Candidates;
use crate::ready::Ready;
use daggy_base::index::{IndexType, NodeIndex};
use daggy_base::read_store::ReadStore;
use daggy_dag::acyclic::Acyclic;
use std::alloc::{AllocError, Global};

/// The nodes of a dag in topological order: of the nodes whose parents are all in the list already,
/// the one with the least key comes next. Ties go to the smallest index.
///
/// So the order depends only on the nodes, the adjacent pairs and the keys, and not on how the dag
/// was built. `key` is called once with each node. This is Kahn's algorithm (1962), with a heap of
/// the nodes that are ready.
///
/// # Requires
///
/// - `key` may be called with each node and its weight.
///
/// # Errors
///
/// Returns `AllocError` if an allocation fails.
///
/// # Complexity
///
/// O(nodes * log(nodes) + edges), plus the calls.
///
/// # Examples
///
/// ```
/// let mut dag: Dag<&'static str, ()> = Dag::new(rt.alloc());
/// let sow = dag.add_node("sow")?;
/// let (_, water) = dag.add_child(sow, (), "a pail of water")?;
/// let dig = dag.add_node("dig")?;
/// let order = topological_order_by(rt.alloc(), &dag, |_, name| *name)?;
/// assert!(rt; order.as_slice() == [dig, sow, water].as_slice());
/// ```
pub fn topological_order_by<
    N: Drop,
    E: Drop,
    Ix: IndexType,
    S,
    K: Ord + Drop,
    F: Fn(NodeIndex<Ix>, &N) -> K,
>(alloc: Global, dag: &Acyclic<N, E, Ix, S>, key: F) -> Result<Vec<NodeIndex<Ix>>, AllocError>
where
    S: ReadStore<Ix, NodeWeight = N, EdgeWeight = E>,
    requires { CanCallAtEachNode Ix.of F.pre key dag.now.graph }
    ensures ordered { IfOk result (λ order. IsOrderOf dag.now.graph (map Ix.number order.items)) }
    ensures least { IfOk result (λ order. IsLeastFirst Ix.of F.post key K.cmp dag.now.graph
        (map Ix.number order.items)) }
{
    let store = dag.graph();
    let mut order = Vec::with_capacity(alloc, dag.node_count())?;
    let mut ready = Ready::new(alloc, dag)?;
    let mut candidates = Candidates::new(alloc);
    'order: loop {
        'ready: while let Some(n) = ready.next(dag) {
            if let Some(weight) = store.node_weight(n) {
                candidates.add(key(n, weight), n)?;
            }
        }
        let Some(first) = candidates.take_first() else {
            return Ok(order);
        };
        let n = first.1;
        order.push(n)?;
        ready.done(dag, n);
    }
}
