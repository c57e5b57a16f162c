//! Whether two dags have the same reachability.
ghost use Rattle.std.specs.Prelude.{◌≡◌, ◌↔◌, IfOk, IsTrue};
ghost use Rattle.daggy_base.specs.Graph.{node_count as node_count_of};
ghost use Rattle.daggy_redundant.specs.Comparison.{HaveSameReachability, IsReducedShape};

use crate::acyclic::Dag;
use daggy_base::index::IndexType;
use daggy_base::source::EdgeSource;
use daggy_graph::graph::DiGraph;
use daggy_reduction::joined_pairs::join_same_pairs;
use daggy_search::Worklist;
use std::alloc::AllocError;

// A copy of a dag without weights, reduced from all nodes.
fn reduced_shape<N: Drop, E: Drop, Ix: IndexType>(
    dag: &Dag<N, E, Ix>,
) -> Result<DiGraph<(), (), Ix>, AllocError>
    ensures { IfOk result (λ shape. IsReducedShape Ix.greatest dag.now.graph shape.graph) }
{
    let mut shape = dag.map(|_, _| (), |_, _| ())?;
    // Called only for its postcondition: the copy is a dag.
    let _count = shape.node_count();
    shape.transitive_reduce_all()?;
    Ok(shape.into_graph())
}

/// Whether two dags have the same number of nodes and the same reachability relation.
///
/// It copies each dag without its weights, reduces the copies from all nodes, and compares which
/// nodes are then adjacent. Both dags are unchanged.
///
/// # Errors
///
/// Returns `AllocError` if an allocation fails.
///
/// # Complexity
///
/// The cost of two copies and of their reductions: see
/// [`transitive_reduce`](crate::acyclic::Acyclic::transitive_reduce).
///
/// # Examples
///
/// ```
/// let mut plan: Dag<&'static str, ()> = Dag::new(rt.alloc());
/// let sow = plan.add_node("sow")?;
/// let (_, grow) = plan.add_child(sow, (), "grow")?;
/// let (_, reap) = plan.add_child(grow, (), "reap")?;
/// let mut copy = plan.try_clone()?;
/// // A longer path leads there already.
/// assert!(rt; copy.add_edge(sow, reap, ()).is_ok());
/// assert!(rt; same_reachability(&plan, &copy)?);
/// ```
pub fn same_reachability<N: Drop, E: Drop, M: Drop, F: Drop, Ix: IndexType>(
    a: &Dag<N, E, Ix>,
    b: &Dag<M, F, Ix>,
) -> Result<bool, AllocError>
    ensures { IfOk result (λ same. IsTrue same
        ↔ ((node_count_of a.now.graph ≡ node_count_of b.now.graph)
        × HaveSameReachability a.now.graph b.now.graph)) }
{
    if a.node_count() != b.node_count() {
        return Ok(false);
    }
    let mut work = Worklist::new(a.allocator());
    let mut a = reduced_shape(a)?;
    let mut b = reduced_shape(b)?;
    work.grow(a.node_bound().max(b.node_bound()))?;
    Ok(join_same_pairs(&mut a, &mut b, &mut work))
}
