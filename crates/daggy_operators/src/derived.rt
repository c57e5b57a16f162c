//! A subgraph of a dag, and a dag with its edges reversed.
ghost use Rattle.std.specs.Prelude.{◌≡◌, ℕ, List, ◌↔◌, IfOk, Contains, map};
ghost use Rattle.std.specs.List.{All};
ghost use Rattle.daggy_base.specs.Path.{IsAcyclic, IsPath, Reaches};
ghost use Rattle.daggy_operators.specs.Operators.{IsSubgraph, IsReverse};

use crate::parts::{all_marks, marks_of, part};
use daggy_base::index::{Direction, IndexType, NodeIndex};
use daggy_base::read_store::ReadStore;
use daggy_dag::acyclic::{Acyclic, StableDag};
use std::alloc::{AllocError, Global};

/// The subgraph of a dag with the given nodes and the edges between them, at the same indices. The
/// weights of the nodes are borrowed; the weight of an edge is in the dag, at the same index.
///
/// It can be passed to any function that takes a dag, so you can plan, schedule, draw or reduce
/// only a part of a dag, such as some targets and their ancestors. Indices that are not nodes of
/// the dag are ignored, and an index may be given more than once. Each list is in descending index
/// order.
///
/// # Errors
///
/// Returns `AllocError` if an allocation fails.
///
/// # Complexity
///
/// O(slots of the dag + given nodes).
///
/// # Examples
///
/// ```
/// let mut dag: Dag<&'static str, u32> = Dag::new(rt.alloc());
/// let sow = dag.add_node("sow")?;
/// let (_, water) = dag.add_child(sow, 60, "water")?;
/// let (days, reap) = dag.add_child(sow, 90, "reap")?;
/// let part = subgraph(rt.alloc(), &dag, &[sow, reap])?;
/// assert!(rt; part.node_weight(reap) == Some(&&"reap"));
/// assert!(rt; part.find_edge(sow, reap) == Some(days));
/// assert!(rt; !part.contains_node(water));
/// assert!(rt; part.edge_count() == 1);
/// ```
pub fn subgraph<'d, N: Drop, E: Drop, Ix: IndexType, S>(
    alloc: Global,
    dag: &'d Acyclic<N, E, Ix, S>,
    nodes: &[NodeIndex<Ix>],
) -> Result<StableDag<&'d N, (), Ix>, AllocError>
where
    S: ReadStore<Ix, NodeWeight = N, EdgeWeight = E>,
    ensures part { IfOk result (λ d.
        IsSubgraph (Contains (map Ix.number nodes.now)) dag.now.graph d.graph) }
    ensures paths { IfOk result (λ d. (path : List ℕ) → IsPath d.graph path
        ↔ (IsPath dag.now.graph path × All (Contains (map Ix.number nodes.now)) path)) }
    ensures acyclic { IfOk result (λ d. IsAcyclic d.graph) }
{
    // Called for its contract, here and below: the dag is well formed.
    let _count = dag.node_count();
    let store = dag.graph();
    let marks = marks_of(alloc, store.node_slots(), nodes)?;
    part(alloc, dag, &marks, Direction::Outgoing)
}

/// The dag with each edge reversed, at the same indices. The weights of the nodes are borrowed; the
/// weight of an edge is in the dag, at the same index. Each list is in descending index order.
///
/// In the reversed dag, `a` reaches `b` if and only if `b` reaches `a` in `dag`.
///
/// # Errors
///
/// Returns `AllocError` if an allocation fails.
///
/// # Complexity
///
/// O(slots).
///
/// # Examples
///
/// ```
/// let mut dag: StableDag<&'static str, u32> = StableDag::new(rt.alloc());
/// let sow = dag.add_node("sow")?;
/// let (days, reap) = dag.add_child(sow, 90, "reap")?;
/// let back = reverse(rt.alloc(), &dag)?;
/// assert!(rt; back.find_edge(reap, sow) == Some(days));
/// assert!(rt; back.node_weight(sow) == Some(&&"sow"));
/// ```
pub fn reverse<'d, N: Drop, E: Drop, Ix: IndexType, S>(
    alloc: Global,
    dag: &'d Acyclic<N, E, Ix, S>,
) -> Result<StableDag<&'d N, (), Ix>, AllocError>
where
    S: ReadStore<Ix, NodeWeight = N, EdgeWeight = E>,
    ensures reversed { IfOk result (λ d. IsReverse dag.now.graph d.graph) }
    ensures reachability { IfOk result (λ d. (u v : ℕ)
        → Reaches d.graph u v ↔ Reaches dag.now.graph v u) }
    ensures acyclic { IfOk result (λ d. IsAcyclic d.graph) }
{
    let _count = dag.node_count();
    let store = dag.graph();
    let marks = all_marks(alloc, store.node_slots(), true)?;
    part(alloc, dag, &marks, Direction::Incoming)
}
