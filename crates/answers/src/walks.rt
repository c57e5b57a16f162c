//! The nodes that a node reaches, in three orders.
ghost use Rattle.std.specs.Prelude.{map, IfOk};
ghost use Rattle.answers.specs.Answers.{AreReached};

use daggy::traversal::{Bfs, Dfs, DfsPostOrder};
use daggy::{Direction, IndexType, NodeIndex, Store};
use std::alloc::{AllocError, Global};

/// Breadth first.
pub fn breadth_first<Ix: IndexType, S: Store<Ix>>(
    alloc: Global,
    graph: &S,
    start: NodeIndex<Ix>,
) -> Result<Vec<NodeIndex<Ix>>, AllocError>
    ensures { IfOk result (λ nodes.
        AreReached (S.graph graph.now) (Ix.number start) (map Ix.number nodes.items)) }
{
    let mut walk = Bfs::new(alloc, graph, start, Direction::Outgoing)?;
    let mut nodes = Vec::new(alloc);
    'walk: while let Some(n) = walk.next(graph) {
        nodes.push(n)?;
    }
    Ok(nodes)
}

/// Depth first, in preorder.
pub fn depth_first<Ix: IndexType, S: Store<Ix>>(
    alloc: Global,
    graph: &S,
    start: NodeIndex<Ix>,
) -> Result<Vec<NodeIndex<Ix>>, AllocError>
    ensures { IfOk result (λ nodes.
        AreReached (S.graph graph.now) (Ix.number start) (map Ix.number nodes.items)) }
{
    let mut walk = Dfs::new(alloc, graph, start, Direction::Outgoing)?;
    let mut nodes = Vec::new(alloc);
    'walk: while let Some(n) = walk.next(graph) {
        nodes.push(n)?;
    }
    Ok(nodes)
}

/// Depth first, in postorder.
pub fn in_postorder<Ix: IndexType, S: Store<Ix>>(
    alloc: Global,
    graph: &S,
    start: NodeIndex<Ix>,
) -> Result<Vec<NodeIndex<Ix>>, AllocError>
    ensures { IfOk result (λ nodes.
        AreReached (S.graph graph.now) (Ix.number start) (map Ix.number nodes.items)) }
{
    let mut walk = DfsPostOrder::new(alloc, graph, start, Direction::Outgoing)?;
    let mut nodes = Vec::new(alloc);
    'walk: while let Some(n) = walk.next(graph) {
        nodes.push(n)?;
    }
    Ok(nodes)
}
