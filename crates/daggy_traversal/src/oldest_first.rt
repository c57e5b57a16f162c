//! The edges of a node, oldest first.
ghost use Rattle.std.specs.Prelude.{◌≡◌, [], map, reverse, IfOk};
ghost use Rattle.daggy_base.specs.Graph.{HasNode, pair_of};
ghost use Rattle.daggy_base.specs.declared.index.Direction.TheVariants.{Outgoing};
ghost use Rattle.daggy_traversal.specs.Traversal.{neighbors};
ghost use Rattle.daggy_traversal.specs.OldestFirst.{steps};

use crate::neighbors::next_neighbor;
use daggy_base::index::{Direction, EdgeIndex, IndexType, NodeIndex};
use daggy_base::read_store::ReadStore;
use std::alloc::{AllocError, Global};

// The nodes to which the edges of `n` lead, in the order of its list.
fn listed_neighbors<Ix: IndexType, S: ReadStore<Ix>>(
    alloc: Global,
    graph: &S,
    n: NodeIndex<Ix>,
    dir: Direction,
) -> Result<Vec<NodeIndex<Ix>>, AllocError>
    ensures { IfOk result (λ nodes. map Ix.number nodes.items
        ≡ neighbors dir (S.graph graph.now) (Ix.number n)) }
{
    graph.invariant();
    let mut nodes = Vec::new(alloc);
    let mut e = graph.first_edge(n, dir);
    'edges: while let Some(step) = next_neighbor(graph, dir, e) {
        nodes.push(step.0)?;
        e = step.1;
    }
    Ok(nodes)
}

// The edges of `n` and the nodes to which they lead, in the order of its list.
fn listed_edges<Ix: IndexType, S: ReadStore<Ix>>(
    alloc: Global,
    graph: &S,
    n: NodeIndex<Ix>,
    dir: Direction,
) -> Result<Vec<(EdgeIndex<Ix>, NodeIndex<Ix>)>, AllocError>
    ensures { IfOk result (λ edges. map (pair_of Ix.number) edges.items
        ≡ steps dir (S.graph graph.now) (Ix.number n)) }
{
    graph.invariant();
    let mut edges = Vec::new(alloc);
    let mut e = graph.first_edge(n, dir);
    'edges: while let Some(step) = next_neighbor(graph, dir, e) {
        edges.push((e, step.0))?;
        e = step.1;
    }
    Ok(edges)
}

/// The children of a node, oldest edge first, each as often as the node has edges to it. If `n` is
/// not a node of the graph, the list is empty.
///
/// The graph may be that of a dag or any store. A list of edges has the newest edge first, unless
/// [`set_orders`](daggy_base::store::Store::set_orders) permuted it; this function returns the
/// children in the reverse order of that list.
///
/// # Errors
///
/// Returns `AllocError` if an allocation fails.
///
/// # Complexity
///
/// O(children).
///
/// # Examples
///
/// ```
/// let mut dag: Dag<&'static str, ()> = Dag::new(rt.alloc());
/// let scene = dag.add_node("scene")?;
/// let (_, floor) = dag.add_child(scene, (), "floor")?;
/// let (_, table) = dag.add_child(scene, (), "table")?;
/// let (_, lamp) = dag.add_child(scene, (), "lamp")?;
/// let children = children_oldest_first(rt.alloc(), dag.graph(), scene)?;
/// assert!(rt; children.as_slice() == [floor, table, lamp].as_slice());
/// ```
pub fn children_oldest_first<Ix: IndexType, S: ReadStore<Ix>>(
    alloc: Global,
    graph: &S,
    n: NodeIndex<Ix>,
) -> Result<Vec<NodeIndex<Ix>>, AllocError>
    ensures reversed { IfOk result (λ children. map Ix.number children.items
        ≡ reverse (neighbors Outgoing (S.graph graph.now) (Ix.number n))) }
    ensures missing { IfOk result (λ children. ¬ HasNode (S.graph graph.now) (Ix.number n)
        → children.items ≡ []) }
{
    graph.invariant();
    let mut children = listed_neighbors(alloc, graph, n, Direction::Outgoing)?;
    children.reverse();
    Ok(children)
}

/// The edges that leave a node, or those that enter it, oldest first: each with the node at its
/// other end. If `n` is not a node of the graph, the list is empty.
///
/// The graph may be that of a dag or any store. A list of edges has the newest edge first, unless
/// [`set_orders`](daggy_base::store::Store::set_orders) permuted it; this function returns the
/// edges in the reverse order of that list.
///
/// # Errors
///
/// Returns `AllocError` if an allocation fails.
///
/// # Complexity
///
/// O(edges of the node in that direction).
///
/// # Examples
///
/// ```
/// let mut dag: Dag<&'static str, u32> = Dag::new(rt.alloc());
/// let sow = dag.add_node("sow")?;
/// let (days, reap) = dag.add_child(sow, 90, "reap")?;
/// let weeks = dag.add_edge(sow, reap, 13)?;
/// let edges = edges_oldest_first(rt.alloc(), dag.graph(), sow, Direction::Outgoing)?;
/// assert!(rt; edges.as_slice() == [(days, reap), (weeks, reap)].as_slice());
/// let edges = edges_oldest_first(rt.alloc(), dag.graph(), reap, Direction::Incoming)?;
/// assert!(rt; edges.as_slice() == [(days, sow), (weeks, sow)].as_slice());
/// ```
pub fn edges_oldest_first<Ix: IndexType, S: ReadStore<Ix>>(
    alloc: Global,
    graph: &S,
    n: NodeIndex<Ix>,
    dir: Direction,
) -> Result<Vec<(EdgeIndex<Ix>, NodeIndex<Ix>)>, AllocError>
    ensures reversed { IfOk result (λ edges. map (pair_of Ix.number) edges.items
        ≡ reverse (steps dir (S.graph graph.now) (Ix.number n))) }
    ensures missing { IfOk result (λ edges. ¬ HasNode (S.graph graph.now) (Ix.number n)
        → edges.items ≡ []) }
{
    graph.invariant();
    let mut edges = listed_edges(alloc, graph, n, dir)?;
    edges.reverse();
    Ok(edges)
}
