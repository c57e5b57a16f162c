//! What each kind of dag has for itself, behind one trait, so that a test of it is written once.
//!
//! A call at a kind costs a proof much more than a call at any dag, so the kinds are named here
//! alone, and in `table`.
ghost use Rattle.std.specs.Iterator.{IsFinite};

use daggy_base::index::{Direction, EdgeIndex, NodeIndex};
use daggy_base::source::EdgeSource;
use daggy_base::store::Store;
use daggy_cells::reference::EdgeReference;
use daggy_dag::acyclic::Acyclic;
use daggy_graph::graph::DiGraph;
use daggy_stable::stable_graph::StableDiGraph;
use daggy_visit::visit::NodeIndexable;
use std::alloc::{AllocError, Global};
use std::cell::Cell;
use std::mem;

/// A dag of either kind that has few indices.
pub type Plain<S> = Acyclic<u32, u32, u8, S>;

/// The store of the compact kind.
pub type Compact = DiGraph<u32, u32, u8>;

/// The store of the stable kind.
pub type Stable = StableDiGraph<u32, u32, u8>;

/// An edge: its index, the indices of its ends, and its weight.
pub type Line = (usize, usize, usize, u32);

/// A new dag, if there is memory for it.
pub type Made<S> = Result<Plain<S>, AllocError>;

/// Three weights, or fewer.
pub type Three = (Option<u32>, Option<u32>, Option<u32>);

/// A store of numbers, with the calls that only dags of one kind have.
pub trait Kind: Store<u8, NodeWeight = u32, EdgeWeight = u32> {
    /// An empty dag with capacity for `nodes` nodes and `edges` edges.
    fn with_capacity(alloc: Global, nodes: usize, edges: usize) -> Result<Plain<Self>, AllocError>;

    /// A copy of a dag.
    fn copied(dag: &Plain<Self>) -> Result<Plain<Self>, AllocError>;

    /// A dag with each weight raised by its index. The calls of its closures are noted.
    fn mapped(dag: &Plain<Self>, noted: &mut u64) -> Result<Plain<Self>, AllocError>;

    /// The part of a dag without the nodes of one weight. The calls of its closures are noted.
    fn part(dag: &Plain<Self>, without: u32, noted: &mut u64) -> Result<Plain<Self>, AllocError>;

    /// A dag with the weights that tables have for all indices, or `None` if they are too short.
    fn mapped_by(dag: &Plain<Self>, nodes: &[u32], edges: &[u32]) -> Option<Made<Self>>;

    /// The same as a part of the dag that has all its nodes and edges.
    fn part_by(dag: &Plain<Self>, nodes: &[u32], edges: &[u32]) -> Option<Made<Self>>;

    /// Writes the weights that tables have. Returns false if they are too short.
    fn update_by(dag: &mut Plain<Self>, nodes: &[u32], edges: &[u32]) -> bool;

    /// Doubles the weight of each node, and adds 1 to that of each edge. The calls of the two
    /// closures are noted.
    fn update(dag: &mut Plain<Self>) -> (u64, u64);

    /// Whether two references to the first edge are equal, and whether those to the first two edges
    /// are.
    fn equal_references(dag: &Plain<Self>) -> (bool, bool);

    /// Adds 100 to the weight of a node and 200 to that of another, if both exist, and gives what
    /// the first was.
    fn raise_nodes(dag: &mut Plain<Self>, a: usize, b: usize) -> Option<u32>;

    /// The same with two edges.
    fn raise_edges(dag: &mut Plain<Self>, a: usize, b: usize) -> Option<u32>;

    /// The same with a node and an edge.
    fn raise_both(dag: &mut Plain<Self>, n: usize, e: usize) -> Option<u32>;

    /// The nodes of a dag.
    fn nodes(alloc: Global, dag: &Plain<Self>) -> Result<Vec<usize>, AllocError>;

    /// The indices of the nodes of a dag, and those of its edges.
    fn indices(alloc: Global, dag: &Plain<Self>) -> Result<(Vec<usize>, Vec<usize>), AllocError>;

    /// The nodes of a dag with their weights.
    fn weighted_nodes(alloc: Global, dag: &Plain<Self>) -> Result<Vec<(usize, u32)>, AllocError>;

    /// The weights of the nodes of a dag, and those of its edges.
    fn weights(alloc: Global, dag: &Plain<Self>) -> Result<(Vec<u32>, Vec<u32>), AllocError>;

    /// The edges of a dag.
    fn edges(alloc: Global, dag: &Plain<Self>) -> Result<Vec<Line>, AllocError>;

    /// The nodes of a list of a node, which is the one to its children if no direction is named.
    fn near_nodes(
        alloc: Global,
        dag: &Plain<Self>,
        n: usize,
        dir: Option<Direction>,
    ) -> Result<Vec<usize>, AllocError>;

    /// The edges of a list of a node, likewise.
    fn near_edges(
        alloc: Global,
        dag: &Plain<Self>,
        n: usize,
        dir: Option<Direction>,
    ) -> Result<Vec<Line>, AllocError>;
}

/// Appends a call to the notes, as two digits: 1 for a node or 2 for an edge, and the
/// index.
pub fn note(calls: &Cell<u64>, kind: u64, index: usize) {
    let digits = kind.wrapping_mul(10).wrapping_add(index as u64);
    calls.set(calls.get().wrapping_mul(100).wrapping_add(digits));
}

fn raised_node(calls: &Cell<u64>, n: NodeIndex<u8>, weight: &u32) -> u32 {
    note(calls, 1, n.index());
    weight.wrapping_add(n.index() as u32)
}

fn raised_edge(calls: &Cell<u64>, e: EdgeIndex<u8>, weight: &u32) -> u32 {
    note(calls, 2, e.index());
    weight.wrapping_add(e.index() as u32)
}

fn node_unless(calls: &Cell<u64>, n: NodeIndex<u8>, weight: &u32, without: u32) -> Option<u32> {
    note(calls, 1, n.index());
    if *weight == without {
        None
    } else {
        Some(*weight)
    }
}

fn edge_kept(calls: &Cell<u64>, e: EdgeIndex<u8>, weight: &u32) -> Option<u32> {
    note(calls, 2, e.index());
    Some(*weight)
}

fn double_node(calls: &Cell<u64>, n: NodeIndex<u8>, weight: &mut u32) {
    note(calls, 1, n.index());
    *weight = weight.wrapping_mul(2);
}

fn raise_edge(calls: &Cell<u64>, e: EdgeIndex<u8>, weight: &mut u32) {
    note(calls, 2, e.index());
    *weight = weight.wrapping_add(1);
}

fn raised(x: &mut u32, y: &mut u32) -> u32 {
    let before = *x;
    *x = before.wrapping_add(100);
    *y = y.wrapping_add(200);
    before
}

// Writes a weight that is lent, and returns what it was.
fn put(lent: Option<&mut u32>, weight: u32) -> Option<u32> {
    match lent {
        Some(slot) => Some(mem::replace(slot, weight)),
        None => None,
    }
}

/// Writes the weights of the second node and the second edge as they are lent. Returns what the first
/// three weights of each were.
pub fn put_second<S: Kind>(dag: &mut Plain<S>, node: u32, edge: u32) -> (Three, Three) {
    let mut nodes = dag.node_weights_mut();
    let first = nodes.next().copied();
    let of_nodes = (first, put(nodes.next(), node), nodes.next().copied());
    let mut edges = dag.edge_weights_mut();
    let first = edges.next().copied();
    (
        of_nodes,
        (first, put(edges.next(), edge), edges.next().copied()),
    )
}

fn line(e: EdgeReference<'_, u32, u8>) -> Line {
    (
        e.id().index(),
        e.source().index(),
        e.target().index(),
        *e.weight(),
    )
}

// The node of an index that is below 256.
fn small_node(index: usize) -> NodeIndex<u8> {
    NodeIndex::new(index % 256)
}

fn small_edge(index: usize) -> EdgeIndex<u8> {
    EdgeIndex::new(index % 256)
}

fn index(n: NodeIndex<u8>) -> usize {
    n.index()
}

fn copied(weight: &u32) -> u32 {
    *weight
}

fn list_of<T: Drop, I: Iterator<Item = T> + Drop>(
    alloc: Global,
    items: I,
) -> Result<Vec<T>, AllocError>
    requires can { I.can_next items }
    requires ends { IsFinite (I.remaining items) }
{
    let mut list = Vec::new(alloc);
    for item in items {
        list.push(item)?;
    }
    Ok(list)
}

fn weighted_list_of<'a, I: Iterator<Item = (NodeIndex<u8>, &'a u32)> + Drop>(
    alloc: Global,
    items: I,
) -> Result<Vec<(usize, u32)>, AllocError>
    requires can { I.can_next items }
    requires ends { IsFinite (I.remaining items) }
{
    let mut list = Vec::new(alloc);
    for (n, weight) in items {
        list.push((n.index(), *weight))?;
    }
    Ok(list)
}

impl Kind for Compact {
    fn with_capacity(alloc: Global, nodes: usize, edges: usize) -> Result<Plain<Self>, AllocError> {
        Plain::<Compact>::with_capacity(alloc, nodes, edges)
    }

    fn copied(dag: &Plain<Self>) -> Result<Plain<Self>, AllocError> {
        dag.try_clone()
    }

    fn mapped(dag: &Plain<Self>, noted: &mut u64) -> Result<Plain<Self>, AllocError> {
        let calls = Cell::new(0);
        let mapped = dag.map(
            |n, w| raised_node(&calls, n, w),
            |e, w| raised_edge(&calls, e, w),
        );
        *noted = calls.get();
        mapped
    }

    fn part(dag: &Plain<Self>, without: u32, noted: &mut u64) -> Result<Plain<Self>, AllocError> {
        let calls = Cell::new(0);
        let part = dag.filter_map(
            |n, w| node_unless(&calls, n, w, without),
            |e, w| edge_kept(&calls, e, w),
        );
        *noted = calls.get();
        part
    }

    fn mapped_by(dag: &Plain<Self>, nodes: &[u32], edges: &[u32]) -> Option<Made<Self>> {
        if dag.node_bound() > nodes.len() || dag.graph().edge_bound() > edges.len() {
            return None;
        }
        Some(dag.map(|n, _| nodes[n.index()], |e, _| edges[e.index()]))
    }

    fn part_by(dag: &Plain<Self>, nodes: &[u32], edges: &[u32]) -> Option<Made<Self>> {
        if dag.node_bound() > nodes.len() || dag.graph().edge_bound() > edges.len() {
            return None;
        }
        Some(dag.filter_map(|n, _| Some(nodes[n.index()]), |e, _| Some(edges[e.index()])))
    }

    fn update_by(dag: &mut Plain<Self>, nodes: &[u32], edges: &[u32]) -> bool {
        if dag.node_bound() > nodes.len() || dag.graph().edge_bound() > edges.len() {
            return false;
        }
        dag.update_node_weights(|n, weight| *weight = nodes[n.index()]);
        dag.update_edge_weights(|e, weight| *weight = edges[e.index()]);
        true
    }

    fn update(dag: &mut Plain<Self>) -> (u64, u64) {
        let (nodes, edges) = (Cell::new(0), Cell::new(0));
        dag.update_node_weights(|n, weight| double_node(&nodes, n, weight));
        dag.update_edge_weights(|e, weight| raise_edge(&edges, e, weight));
        (nodes.get(), edges.get())
    }

    fn equal_references(dag: &Plain<Self>) -> (bool, bool) {
        let mut edges = dag.edge_references();
        let (first, second) = (edges.next(), edges.next());
        (first == dag.edge_references().next(), first == second)
    }

    fn raise_nodes(dag: &mut Plain<Self>, a: usize, b: usize) -> Option<u32> {
        let (a, b) = (small_node(a), small_node(b));
        if a.index() != b.index() && dag.contains_node(a) && dag.contains_node(b) {
            return Some(dag.update_two_nodes(a, b, raised));
        }
        None
    }

    fn raise_edges(dag: &mut Plain<Self>, a: usize, b: usize) -> Option<u32> {
        let (a, b) = (small_edge(a), small_edge(b));
        if a.index() != b.index() && dag.edge_weight(a).is_some() && dag.edge_weight(b).is_some() {
            return Some(dag.update_two_edges(a, b, raised));
        }
        None
    }

    fn raise_both(dag: &mut Plain<Self>, n: usize, e: usize) -> Option<u32> {
        let (n, e) = (small_node(n), small_edge(e));
        if dag.contains_node(n) && dag.edge_weight(e).is_some() {
            return Some(dag.update_node_and_edge(n, e, raised));
        }
        None
    }

    fn nodes(alloc: Global, dag: &Plain<Self>) -> Result<Vec<usize>, AllocError> {
        list_of(alloc, dag.node_identifiers().map(index))
    }

    fn indices(alloc: Global, dag: &Plain<Self>) -> Result<(Vec<usize>, Vec<usize>), AllocError> {
        let nodes = list_of(alloc, dag.node_indices().map(usize::from))?;
        let edges = list_of(alloc, dag.edge_indices().map(usize::from))?;
        Ok((nodes, edges))
    }

    fn weighted_nodes(alloc: Global, dag: &Plain<Self>) -> Result<Vec<(usize, u32)>, AllocError> {
        weighted_list_of(alloc, dag.node_references())
    }

    fn weights(alloc: Global, dag: &Plain<Self>) -> Result<(Vec<u32>, Vec<u32>), AllocError> {
        let nodes = list_of(alloc, dag.node_weights().map(copied))?;
        let edges = list_of(alloc, dag.edge_weights().map(copied))?;
        Ok((nodes, edges))
    }

    fn edges(alloc: Global, dag: &Plain<Self>) -> Result<Vec<Line>, AllocError> {
        list_of(alloc, dag.edge_references().map(line))
    }

    fn near_nodes(
        alloc: Global,
        dag: &Plain<Self>,
        n: usize,
        dir: Option<Direction>,
    ) -> Result<Vec<usize>, AllocError> {
        let n = small_node(n);
        match dir {
            Some(dir) => list_of(alloc, dag.neighbors_directed(n, dir).map(index)),
            None => list_of(alloc, dag.neighbors(n).map(index)),
        }
    }

    fn near_edges(
        alloc: Global,
        dag: &Plain<Self>,
        n: usize,
        dir: Option<Direction>,
    ) -> Result<Vec<Line>, AllocError> {
        let n = small_node(n);
        match dir {
            Some(dir) => list_of(alloc, dag.edges_directed(n, dir).map(line)),
            None => list_of(alloc, dag.edges(n).map(line)),
        }
    }
}

impl Kind for Stable {
    fn with_capacity(alloc: Global, nodes: usize, edges: usize) -> Result<Plain<Self>, AllocError> {
        Plain::<Stable>::with_capacity(alloc, nodes, edges)
    }

    fn copied(dag: &Plain<Self>) -> Result<Plain<Self>, AllocError> {
        dag.try_clone()
    }

    fn mapped(dag: &Plain<Self>, noted: &mut u64) -> Result<Plain<Self>, AllocError> {
        let calls = Cell::new(0);
        let mapped = dag.map(
            |n, w| raised_node(&calls, n, w),
            |e, w| raised_edge(&calls, e, w),
        );
        *noted = calls.get();
        mapped
    }

    fn part(dag: &Plain<Self>, without: u32, noted: &mut u64) -> Result<Plain<Self>, AllocError> {
        let calls = Cell::new(0);
        let part = dag.filter_map(
            |n, w| node_unless(&calls, n, w, without),
            |e, w| edge_kept(&calls, e, w),
        );
        *noted = calls.get();
        part
    }

    fn mapped_by(dag: &Plain<Self>, nodes: &[u32], edges: &[u32]) -> Option<Made<Self>> {
        if dag.node_bound() > nodes.len() || dag.graph().edge_bound() > edges.len() {
            return None;
        }
        Some(dag.map(|n, _| nodes[n.index()], |e, _| edges[e.index()]))
    }

    fn part_by(dag: &Plain<Self>, nodes: &[u32], edges: &[u32]) -> Option<Made<Self>> {
        if dag.node_bound() > nodes.len() || dag.graph().edge_bound() > edges.len() {
            return None;
        }
        Some(dag.filter_map(|n, _| Some(nodes[n.index()]), |e, _| Some(edges[e.index()])))
    }

    fn update_by(dag: &mut Plain<Self>, nodes: &[u32], edges: &[u32]) -> bool {
        if dag.node_bound() > nodes.len() || dag.graph().edge_bound() > edges.len() {
            return false;
        }
        dag.update_node_weights(|n, weight| *weight = nodes[n.index()]);
        dag.update_edge_weights(|e, weight| *weight = edges[e.index()]);
        true
    }

    fn update(dag: &mut Plain<Self>) -> (u64, u64) {
        let (nodes, edges) = (Cell::new(0), Cell::new(0));
        dag.update_node_weights(|n, weight| double_node(&nodes, n, weight));
        dag.update_edge_weights(|e, weight| raise_edge(&edges, e, weight));
        (nodes.get(), edges.get())
    }

    fn equal_references(dag: &Plain<Self>) -> (bool, bool) {
        let mut edges = dag.edge_references();
        let (first, second) = (edges.next(), edges.next());
        (first == dag.edge_references().next(), first == second)
    }

    fn raise_nodes(dag: &mut Plain<Self>, a: usize, b: usize) -> Option<u32> {
        let (a, b) = (small_node(a), small_node(b));
        if a.index() != b.index() && dag.contains_node(a) && dag.contains_node(b) {
            return Some(dag.update_two_nodes(a, b, raised));
        }
        None
    }

    fn raise_edges(dag: &mut Plain<Self>, a: usize, b: usize) -> Option<u32> {
        let (a, b) = (small_edge(a), small_edge(b));
        if a.index() != b.index() && dag.edge_weight(a).is_some() && dag.edge_weight(b).is_some() {
            return Some(dag.update_two_edges(a, b, raised));
        }
        None
    }

    fn raise_both(dag: &mut Plain<Self>, n: usize, e: usize) -> Option<u32> {
        let (n, e) = (small_node(n), small_edge(e));
        if dag.contains_node(n) && dag.edge_weight(e).is_some() {
            return Some(dag.update_node_and_edge(n, e, raised));
        }
        None
    }

    fn nodes(alloc: Global, dag: &Plain<Self>) -> Result<Vec<usize>, AllocError> {
        list_of(alloc, dag.node_identifiers().map(index))
    }

    fn indices(alloc: Global, dag: &Plain<Self>) -> Result<(Vec<usize>, Vec<usize>), AllocError> {
        let nodes = list_of(alloc, dag.node_indices().map(usize::from))?;
        let edges = list_of(alloc, dag.edge_indices().map(usize::from))?;
        Ok((nodes, edges))
    }

    fn weighted_nodes(alloc: Global, dag: &Plain<Self>) -> Result<Vec<(usize, u32)>, AllocError> {
        weighted_list_of(alloc, dag.node_references())
    }

    fn weights(alloc: Global, dag: &Plain<Self>) -> Result<(Vec<u32>, Vec<u32>), AllocError> {
        let nodes = list_of(alloc, dag.node_weights().map(copied))?;
        let edges = list_of(alloc, dag.edge_weights().map(copied))?;
        Ok((nodes, edges))
    }

    fn edges(alloc: Global, dag: &Plain<Self>) -> Result<Vec<Line>, AllocError> {
        list_of(alloc, dag.edge_references().map(line))
    }

    fn near_nodes(
        alloc: Global,
        dag: &Plain<Self>,
        n: usize,
        dir: Option<Direction>,
    ) -> Result<Vec<usize>, AllocError> {
        let n = small_node(n);
        match dir {
            Some(dir) => list_of(alloc, dag.neighbors_directed(n, dir).map(index)),
            None => list_of(alloc, dag.neighbors(n).map(index)),
        }
    }

    fn near_edges(
        alloc: Global,
        dag: &Plain<Self>,
        n: usize,
        dir: Option<Direction>,
    ) -> Result<Vec<Line>, AllocError> {
        let n = small_node(n);
        match dir {
            Some(dir) => list_of(alloc, dag.edges_directed(n, dir).map(line)),
            None => list_of(alloc, dag.edges(n).map(line)),
        }
    }
}

/// A dag of texts, which own their memory.
pub type TextDag<S> = Acyclic<String, String, u8, S>;

/// The store of a compact dag of texts.
pub type CompactTexts = DiGraph<String, String, u8>;

/// The store of a stable dag of texts.
pub type StableTexts = StableDiGraph<String, String, u8>;

/// A store of texts, with the calls that only dags of one kind have.
pub trait TextKind: Store<u8, NodeWeight = String, EdgeWeight = String> {
    /// A copy of a dag.
    fn copied(dag: &TextDag<Self>) -> Result<TextDag<Self>, AllocError>;

    /// Writes the text of the first node, and empties the texts of all edges.
    fn rewrite(dag: &mut TextDag<Self>, text: String);
}

impl TextKind for CompactTexts {
    fn copied(dag: &TextDag<Self>) -> Result<TextDag<Self>, AllocError> {
        dag.try_clone()
    }

    fn rewrite(dag: &mut TextDag<Self>, text: String) {
        if let Some(first) = dag.node_weights_mut().next() {
            *first = text;
        }
        dag.update_edge_weights(|_, text| text.clear());
    }
}

impl TextKind for StableTexts {
    fn copied(dag: &TextDag<Self>) -> Result<TextDag<Self>, AllocError> {
        dag.try_clone()
    }

    fn rewrite(dag: &mut TextDag<Self>, text: String) {
        if let Some(first) = dag.node_weights_mut().next() {
            *first = text;
        }
        dag.update_edge_weights(|_, text| text.clear());
    }
}
