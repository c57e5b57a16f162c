//! Whether two dags have the same reachability.
ghost use Rattle.std.specs.Prelude.{◌≡◌, ℕ, ◌≤◌, ◌↔◌, IfOk, IsTrue, length};
ghost use Rattle.daggy_base.specs.Graph.{HasNode};
ghost use Rattle.daggy_redundant.specs.Comparison.{HaveSameNodes, HaveSameReachability};
ghost use Rattle.daggy_redundant.specs.Comparison.{IsReducedShape};

use crate::parts::{all_marks, part};
use daggy_base::index::{Direction, IndexType, NodeIndex};
use daggy_base::read_store::ReadStore;
use daggy_dag::acyclic::{Acyclic, StableDag};
use daggy_reduction::joined_pairs::join_same_pairs;
use daggy_search::Worklist;
use daggy_stable::stable_graph::StableDiGraph;
use std::alloc::{AllocError, Global};

// Whether the node at an index exists, which may be beyond the indices of the graph.
fn has_node<Ix: IndexType, S: ReadStore<Ix>>(store: &S, i: usize) -> bool
    ensures { IsTrue result ↔ HasNode (S.graph store.now) i }
{
    store.invariant();
    i < store.node_slots() && store.contains_node(NodeIndex::new(i))
}

// Whether the same nodes exist in two graphs.
fn have_same_nodes<Ix: IndexType, Jx: IndexType, S: ReadStore<Ix>, T: ReadStore<Jx>>(
    a: &S,
    b: &T,
) -> bool
    ensures { IsTrue result ↔ HaveSameNodes (S.graph a.now) (T.graph b.now) }
{
    let bound = a.node_slots().max(b.node_slots());
    'nodes: for i in 0..bound {
        if has_node(a, i) != has_node(b, i) {
            return false;
        }
    }
    true
}

// A copy of a dag without its weights, reduced from all nodes.
fn reduced_shape<N: Drop, E: Drop, Ix: IndexType, Jx: IndexType, S>(
    alloc: Global,
    dag: &Acyclic<N, E, Ix, S>,
) -> Result<StableDiGraph<(), (), Jx>, AllocError>
where
    S: ReadStore<Ix, NodeWeight = N, EdgeWeight = E>,
    requires few_nodes { length dag.now.graph.nodes ≤ Jx.greatest }
    requires few_edges { length dag.now.graph.edges ≤ Jx.greatest }
    ensures { IfOk result (λ shape. IsReducedShape Jx.greatest dag.now.graph shape.graph) }
{
    // Called for its contract, here and below: the dag is well formed, and so is the copy.
    let _count = dag.node_count();
    let marks = all_marks(alloc, dag.graph().node_slots(), true)?;
    let whole: StableDag<&N, (), Jx> = part(alloc, dag, &marks, Direction::Outgoing)?;
    let mut shape = whole.map(|_, _| (), |_, _| ())?;
    let _count = shape.node_count();
    shape.transitive_reduce_all()?;
    Ok(shape.into_graph())
}

/// Whether two dags, of either kind and of any index types, have the same nodes and the same
/// reachability relation.
///
/// `same_reachability` does the same for two `Dag`s with the same index type. It copies each dag
/// without its weights, reduces the copies from all nodes, and compares which nodes are then
/// adjacent.
///
/// # Errors
///
/// Returns `AllocError` if an allocation fails.
///
/// # Complexity
///
/// The cost of two copies and of their reductions: see
/// [`transitive_reduce`](daggy_dag::acyclic::Acyclic::transitive_reduce) of a dag.
///
/// # Examples
///
/// ```
/// let mut plan: Dag<&'static str, ()> = Dag::new(rt.alloc());
/// let sow = plan.add_node("sow")?;
/// let (_, grow) = plan.add_child(sow, (), "grow")?;
/// let (_, reap) = plan.add_child(grow, (), "reap")?;
/// let mut other: StableDag<u32, u32> = StableDag::new(rt.alloc());
/// let first = other.add_node(1)?;
/// let (_, second) = other.add_child(first, 30, 2)?;
/// let (_, third) = other.add_child(second, 60, 3)?;
/// // A longer path leads there already.
/// assert!(rt; other.add_edge(first, third, 90).is_ok());
/// assert!(rt; have_same_reachability(rt.alloc(), &plan, &other)?);
/// assert!(rt; other.remove_node(second) == Some(2));
/// assert!(rt; !have_same_reachability(rt.alloc(), &plan, &other)?);
/// ```
pub fn have_same_reachability<
    N: Drop,
    E: Drop,
    M: Drop,
    F: Drop,
    Ix: IndexType,
    Jx: IndexType,
    S,
    T,
>(alloc: Global, a: &Acyclic<N, E, Ix, S>, b: &Acyclic<M, F, Jx, T>) -> Result<bool, AllocError>
where
    S: ReadStore<Ix, NodeWeight = N, EdgeWeight = E>,
    T: ReadStore<Jx, NodeWeight = M, EdgeWeight = F>,
    ensures { IfOk result (λ same.
        IsTrue same ↔ HaveSameReachability a.now.graph b.now.graph) }
{
    if !have_same_nodes(a.graph(), b.graph()) {
        return Ok(false);
    }
    // Called for its contract: the slots are few enough for any index type that is as large.
    let _counts = (a.node_count(), b.node_count());
    let mut a: StableDiGraph<(), (), usize> = reduced_shape(alloc, a)?;
    let mut b: StableDiGraph<(), (), usize> = reduced_shape(alloc, b)?;
    let mut work = Worklist::new(alloc);
    work.grow(a.node_bound().max(b.node_bound()))?;
    Ok(join_same_pairs(&mut a, &mut b, &mut work))
}
