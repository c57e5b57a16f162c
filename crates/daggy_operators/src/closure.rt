//! The transitive closure of a dag, as a dag.
ghost use Rattle.std.specs.Prelude.{◌≡◌, ◌≢◌, ℕ, List, ◌<◌, ◌≤◌, ◌↔◌, Some, Err, IfOk, map, length, vec_len};
ghost use Rattle.std.specs.Prelude.{option_copied};
ghost use Rattle.std.specs.Option.{option_map};
ghost use Rattle.daggy_base.specs.Graph.{node_weight, slot};
ghost use Rattle.daggy_base.specs.Path.{IsAcyclic, Reaches};
ghost use Rattle.daggy_visit.specs.Visit.{HasPair};
ghost use Rattle.daggy_reduction.specs.Descendants.{IsDescendantOf};
ghost use Rattle.daggy_operators.specs.declared.closure.ClosureError.TheVariants.{Full, Memory};
ghost use Rattle.daggy_operators.specs.Closure.{ListsPairs, HasMorePairs, IsClosure};
ghost use Rattle.daggy_operators.specs.Parts.{ends_by};

use crate::parts::{Slot, all_marks, node_slots};
use daggy_base::error::SlotsError;
use daggy_base::index::{EdgeIndex, IndexType, NodeIndex};
use daggy_base::read_store::ReadStore;
use daggy_dag::acyclic::{Acyclic, StableDag};
use daggy_visit::visit::AdjMatrix;
use std::alloc::{AllocError, Global};
use thiserror::Error;

/// The transitive closure of a dag was not built.
///
/// # Examples
///
/// ```
/// let mut dag: Dag<u32, (), u8> = Dag::new(rt.alloc());
/// let mut last = dag.try_add_node(0)?;
/// for n in 1..24 {
///     let (_, next) = dag.try_add_child(last, (), n)?;
///     last = next;
/// }
/// // Its closure has 24 * 23 / 2 = 276 edges, and the greatest `u8` is 255.
/// let closure = transitive_closure_dag(rt.alloc(), &dag);
/// assert!(rt; closure.err() == Some(ClosureError::Full));
/// ```
#[derive(Clone, Copy, Debug, Drop, Eq, Error, PartialEq)]
pub enum ClosureError {
    /// The index type has too few indices for the edges.
    #[error("no index left")]
    Full,
    /// Out of memory for the closure.
    #[error("out of memory")]
    Memory,
}

// The pairs of a node and a descendant of it.
fn reached_pairs<N: Drop, E: Drop, Ix: IndexType, S>(
    dag: &Acyclic<N, E, Ix, S>,
) -> Result<AdjMatrix<Ix>, AllocError>
where
    S: ReadStore<Ix, NodeWeight = N, EdgeWeight = E>,
    ensures { IfOk result (λ matrix. (u v : ℕ)
        → HasPair matrix u v ↔ IsDescendantOf dag.now.graph u v) }
{
    let mut paths = dag.paths()?;
    paths.transitive_closure()
}

// The pairs of a matrix in ascending order, as slots of edges.
fn pair_slots<Ix: IndexType>(
    alloc: Global,
    matrix: &AdjMatrix<Ix>,
    bound: usize,
) -> Result<Vec<Slot<Ix>>, ClosureError>
    requires few { bound ≤ Ix.greatest }
    requires within { (u v : ℕ) → HasPair matrix.now u v → (u < bound) × (v < bound) }
    ensures pairs { IfOk result (λ slots. (pairs : List (ℕ × ℕ))
        × ListsPairs (HasPair matrix.now) pairs
        × (map (option_map (ends_by Ix.number)) slots.items ≡ map Some pairs)) }
    ensures few { IfOk result (λ slots. vec_len slots ≤ Ix.greatest) }
    ensures full { result ≡ Err Full → HasMorePairs Ix.greatest (HasPair matrix.now) }
{
    let greatest = EdgeIndex::<Ix>::end().index();
    let mut slots = Vec::new(alloc);
    'parents: for i in 0..bound {
        'children: for k in 0..bound {
            let (parent, child) = (NodeIndex::new(i), NodeIndex::new(k));
            if !matrix.has(parent, child) {
                continue;
            }
            if slots.len() == greatest {
                return Err(ClosureError::Full);
            }
            let Ok(()) = slots.push(Some((parent, child, ()))) else {
                return Err(ClosureError::Memory);
            };
        }
    }
    Ok(slots)
}

// An edge from each node to each of its descendants.
fn descendant_slots<N: Drop, E: Drop, Ix: IndexType, S>(
    alloc: Global,
    dag: &Acyclic<N, E, Ix, S>,
) -> Result<Vec<Slot<Ix>>, ClosureError>
where
    S: ReadStore<Ix, NodeWeight = N, EdgeWeight = E>,
    ensures pairs { IfOk result (λ slots. (pairs : List (ℕ × ℕ))
        × ListsPairs (IsDescendantOf dag.now.graph) pairs
        × (map (option_map (ends_by Ix.number)) slots.items ≡ map Some pairs)) }
    ensures few { IfOk result (λ slots. vec_len slots ≤ Ix.greatest) }
    ensures full { result ≡ Err Full → HasMorePairs Ix.greatest (IsDescendantOf dag.now.graph) }
{
    // Called for its contract: the dag is well formed.
    let _count = dag.node_count();
    let Ok(matrix) = reached_pairs(dag) else {
        return Err(ClosureError::Memory);
    };
    pair_slots(alloc, &matrix, dag.graph().node_slots())
}

// The weights of all nodes.
fn all_nodes<'d, Ix: IndexType, S: ReadStore<Ix>>(
    alloc: Global,
    store: &'d S,
) -> Result<Vec<Option<&'d S::NodeWeight>>, AllocError>
    ensures sized { IfOk result (λ slots. vec_len slots ≡ length (S.graph store.now).nodes) }
    ensures same { IfOk result (λ slots. (n : ℕ) → option_copied (slot slots.items n)
        ≡ node_weight (S.graph store.now) n) }
{
    let marks = all_marks(alloc, store.node_slots(), true)?;
    node_slots(alloc, store, &marks)
}

/// The transitive closure of a dag, as a dag: its nodes at the same indices, and one edge from each
/// node to each of its descendants. The weights of the nodes are borrowed.
///
/// The edges are numbered in ascending order of their parents and, for each parent, of their
/// children. Each list is in descending index order.
///
/// [`transitive_closure`](daggy_dag::acyclic::Acyclic::transitive_closure) of a dag returns the same
/// pairs as a matrix, which takes a bit for each pair of node indices.
///
/// # Errors
///
/// Returns `ClosureError::Full` if the index type has too few indices for the edges,
/// `ClosureError::Memory` if an allocation fails.
///
/// # Complexity
///
/// O(node slots^2 + edges * node slots / 64).
///
/// # Examples
///
/// ```
/// let mut dag: Dag<&'static str, u32> = Dag::new(rt.alloc());
/// let sow = dag.add_node("sow")?;
/// let (_, water) = dag.add_child(sow, 60, "water")?;
/// let (_, reap) = dag.add_child(water, 30, "reap")?;
/// let closure = transitive_closure_dag(rt.alloc(), &dag)?;
/// assert!(rt; closure.contains_edge(sow, water) && closure.contains_edge(water, reap));
/// // A path of two edges is one edge of the closure.
/// assert!(rt; closure.contains_edge(sow, reap));
/// assert!(rt; closure.edge_count() == 3);
/// assert!(rt; closure.node_weight(reap) == Some(&&"reap"));
/// ```
pub fn transitive_closure_dag<'d, N: Drop, E: Drop, Ix: IndexType, S>(
    alloc: Global,
    dag: &'d Acyclic<N, E, Ix, S>,
) -> Result<StableDag<&'d N, (), Ix>, ClosureError>
where
    S: ReadStore<Ix, NodeWeight = N, EdgeWeight = E>,
    ensures closure { IfOk result (λ d. IsClosure dag.now.graph d.graph) }
    ensures reachability { IfOk result (λ d. (u v : ℕ)
        → Reaches d.graph u v ↔ Reaches dag.now.graph u v) }
    ensures acyclic { IfOk result (λ d. IsAcyclic d.graph) }
    ensures full { result ≢ Err Memory
        → (result ≡ Err Full) ↔ HasMorePairs Ix.greatest (IsDescendantOf dag.now.graph) }
{
    // Called for its contract: the dag is well formed and acyclic.
    let _count = dag.node_count();
    let edges = match descendant_slots(alloc, dag) {
        Ok(edges) => edges,
        Err(error) => return Err(error),
    };
    let Ok(nodes) = all_nodes(alloc, dag.graph()) else {
        return Err(ClosureError::Memory);
    };
    match Acyclic::from_slots(alloc, nodes, edges) {
        Ok(closure) => Ok(closure),
        Err(SlotsError::Memory) => Err(ClosureError::Memory),
        Err(SlotsError::Cycle) => unreachable!(),
    }
}
