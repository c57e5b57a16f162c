//! The graphs, and whole walks over them. What is generic over the store serves both kinds.
ghost use Rattle.daggy_traversal.specs.Breadth.{IsBreadthFirst};
ghost use Rattle.daggy_traversal.specs.Depth.{IsDepthFirst};
ghost use Rattle.daggy_traversal.specs.Postorder.{IsPostorder};

use crate::support::{lists, made, node};
use daggy_base::index::{Direction, NodeIndex};
use daggy_base::store::Store;
use daggy_traversal::bfs::Bfs;
use daggy_traversal::dfs::Dfs;
use daggy_traversal::post_order::DfsPostOrder;
use std::alloc::{AllocError, Global};
use std::process::Abort;

/// A graph with this many nodes, and these edges. A later edge comes earlier in its lists.
pub fn graph_of<S: Store<u32, NodeWeight = (), EdgeWeight = ()>>(
    rt: &impl Abort,
    alloc: Global,
    nodes: usize,
    edges: &[(usize, usize)],
) -> S {
    let mut graph = S::new(alloc);
    for _ in 0..nodes {
        assert!(rt; graph.can_add_node());
        made(rt, graph.add_node(()));
    }
    for (a, b) in edges {
        let (a, b) = (node(rt, *a), node(rt, *b));
        assert!(rt; graph.contains_node(a) && graph.contains_node(b) && graph.can_add_edge());
        made(rt, graph.add_edge(a, b, ()));
    }
    graph
}

/// A graph and a walk over it breadth first. The graph does not change, so the walk stays under
/// way.
#[derive(Drop)]
struct BreadthTour<'a, S: Store<u32, NodeWeight = (), EdgeWeight = ()>> {
    graph: &'a S,
    walk: Bfs,
    ghost under_way: { IsBreadthFirst (S.graph graph.now) walk },
}

impl<'a, S: Store<u32, NodeWeight = (), EdgeWeight = ()>> BreadthTour<'a, S> {
    fn step(&mut self) -> Option<NodeIndex> {
        let graph = self.graph;
        self.walk.next(graph)
    }
}

/// A graph and a walk over it depth first.
#[derive(Drop)]
struct DepthTour<'a, S: Store<u32, NodeWeight = (), EdgeWeight = ()>> {
    graph: &'a S,
    walk: Dfs,
    ghost under_way: { IsDepthFirst (S.graph graph.now) walk },
}

impl<'a, S: Store<u32, NodeWeight = (), EdgeWeight = ()>> DepthTour<'a, S> {
    fn step(&mut self) -> Option<NodeIndex> {
        let graph = self.graph;
        self.walk.next(graph)
    }
}

/// A graph and a walk over it in postorder.
#[derive(Drop)]
struct PostorderTour<'a, S: Store<u32, NodeWeight = (), EdgeWeight = ()>> {
    graph: &'a S,
    walk: DfsPostOrder,
    ghost under_way: { IsPostorder (S.graph graph.now) walk },
}

impl<'a, S: Store<u32, NodeWeight = (), EdgeWeight = ()>> PostorderTour<'a, S> {
    fn step(&mut self) -> Option<NodeIndex> {
        let graph = self.graph;
        self.walk.next(graph)
    }
}

/// All nodes of a walk breadth first, in turn.
pub fn breadth<S: Store<u32, NodeWeight = (), EdgeWeight = ()>>(
    alloc: Global,
    graph: &S,
    start: NodeIndex,
    dir: Direction,
) -> Result<Vec<NodeIndex>, AllocError> {
    let walk = Bfs::new(alloc, graph, start, dir)?;
    let mut tour = BreadthTour { graph, walk };
    let mut given = Vec::new(alloc);
    // One step more than there are nodes.
    for _ in 0..=graph.node_count() {
        if let Some(n) = tour.step() {
            given.push(n)?;
        }
    }
    Ok(given)
}

/// All nodes of a walk depth first, in turn.
pub fn depth<S: Store<u32, NodeWeight = (), EdgeWeight = ()>>(
    alloc: Global,
    graph: &S,
    start: NodeIndex,
    dir: Direction,
) -> Result<Vec<NodeIndex>, AllocError> {
    let walk = Dfs::new(alloc, graph, start, dir)?;
    let mut tour = DepthTour { graph, walk };
    let mut given = Vec::new(alloc);
    for _ in 0..=graph.node_count() {
        if let Some(n) = tour.step() {
            given.push(n)?;
        }
    }
    Ok(given)
}

/// All nodes of a walk in postorder, in turn.
pub fn postorder<S: Store<u32, NodeWeight = (), EdgeWeight = ()>>(
    alloc: Global,
    graph: &S,
    start: NodeIndex,
    dir: Direction,
) -> Result<Vec<NodeIndex>, AllocError> {
    let walk = DfsPostOrder::new(alloc, graph, start, dir)?;
    let mut tour = PostorderTour { graph, walk };
    let mut given = Vec::new(alloc);
    for _ in 0..=graph.node_count() {
        if let Some(n) = tour.step() {
            given.push(n)?;
        }
    }
    Ok(given)
}

/// Asserts what the three walks from a node yield.
pub fn walks<S: Store<u32, NodeWeight = (), EdgeWeight = ()>>(
    rt: &impl Abort,
    alloc: Global,
    graph: &S,
    start: usize,
    dir: Direction,
    wanted: [&[usize]; 3],
) {
    let start = node(rt, start);
    lists(
        rt,
        made(rt, breadth(alloc, graph, start, dir)).as_slice(),
        wanted[0],
    );
    lists(
        rt,
        made(rt, depth(alloc, graph, start, dir)).as_slice(),
        wanted[1],
    );
    lists(
        rt,
        made(rt, postorder(alloc, graph, start, dir)).as_slice(),
        wanted[2],
    );
}
