//! The nodes reachable from given nodes, by their positions in an order.
ghost use Rattle.std.specs.Prelude.{◌≡◌, ℕ, ◌+◌, ◌≤◌, ◌↔◌, ◌⊎◌, false, map, take, filter, length};
ghost use Rattle.std.specs.Prelude.{slice_index_or, Contains, IfOk, OnOk};
ghost use Rattle.daggy_base.specs.Graph.{HasNode, node_bound, edge_count, out_list};
ghost use Rattle.daggy_base.specs.Ordered.{edges_from};
ghost use Rattle.daggy_base.specs.Path.{AreJoined};
ghost use Rattle.daggy_base.specs.Reduction.{IsBelow};
ghost use Rattle.daggy_base.specs.WellFormed.{IsWellFormed};
ghost use Rattle.daggy_search.specs.Work.{IsSized};
ghost use Rattle.daggy_reduction.specs.Descendants.{IsChildOfAny, IsDescendantOfAny, IsSortedPart};

use daggy_base::index::{EdgeIndex, IndexType, NodeIndex};
use daggy_base::source::EdgeSource;
use daggy_order::order::Order;
use daggy_redundant::roots::queue_below;
use daggy_search::{Scratch, Worklist};
use std::alloc::{AllocError, Global};

// Appends the children of a node to a list, one for each edge.
fn push_children<Ix: IndexType, S: EdgeSource<Ix>>(
    source: &mut S,
    u: NodeIndex<Ix>,
    children: &mut Vec<NodeIndex<Ix>>,
) -> Result<(), AllocError>
    requires well_formed { IsWellFormed Ix.greatest (S.graph source.old) }
    ensures same { S.graph source.new ≡ S.graph source.old }
    ensures looked { S.looks source.old ≤ S.looks source.new }
    ensures counted { S.looks source.new
        ≤ S.looks source.old + length (out_list (S.graph source.old) (Ix.number u)) }
    ensures exact { OnOk result ((n : ℕ) → Contains (map Ix.number children.new.items) n
        ↔ (Contains (map Ix.number children.old.items) n
        ⊎ AreJoined (S.graph source.old) (Ix.number u) n)) }
{
    let end = EdgeIndex::<Ix>::end().index();
    let mut e = source.first(u);
    'edges: while e.index() != end {
        let (v, next) = source.look(e);
        children.push(v)?;
        e = next;
    }
    Ok(())
}

// The children of some nodes, one for each edge.
fn children_of<Ix: IndexType, S: EdgeSource<Ix>>(
    alloc: Global,
    source: &mut S,
    nodes: &[NodeIndex<Ix>],
) -> Result<Vec<NodeIndex<Ix>>, AllocError>
    requires well_formed { IsWellFormed Ix.greatest (S.graph source.old) }
    ensures same { S.graph source.new ≡ S.graph source.old }
    ensures looked { S.looks source.old ≤ S.looks source.new }
    ensures counted { S.looks source.new
        ≤ S.looks source.old + edges_from (S.graph source.old) (map Ix.number nodes.now) }
    ensures exact { IfOk result (λ found. (n : ℕ) → Contains (map Ix.number found.items) n
        ↔ IsChildOfAny (S.graph source.old) (map Ix.number nodes.now) n) }
{
    let mut children = Vec::new(alloc);
    let mut k = 0;
    'nodes: while k < nodes.len() {
        push_children(source, nodes[k], &mut children)?;
        k += 1;
    }
    Ok(children)
}

// The first `count` nodes of a worklist.
fn front_nodes<Ix: IndexType>(
    alloc: Global,
    work: &Worklist<Ix>,
    count: usize,
) -> Result<Vec<NodeIndex<Ix>>, AllocError>
    requires { count ≤ length work.now.nodes }
    ensures { IfOk result (λ found. map Ix.number found.items ≡ take count work.now.nodes) }
{
    let mut found = Vec::with_capacity(alloc, count)?;
    'nodes: for i in 0..count {
        found.push(work.node(i).node())?;
    }
    Ok(found)
}

// The nodes of an order that a search entered. `count` is how many there are, for the capacity.
fn entered_nodes<Ix: IndexType>(
    alloc: Global,
    order: &Order<Ix>,
    work: &Worklist<Ix>,
    count: usize,
) -> Result<Vec<NodeIndex<Ix>>, AllocError>
    requires { IsSized work.now.size work.now }
    ensures { IfOk result (λ found. map Ix.number found.items
        ≡ filter (λ n. slice_index_or work.now.entered n false) order.now) }
{
    let mut found = Vec::with_capacity(alloc, count)?;
    'nodes: for n in order.nodes() {
        let i = n.index();
        if i < work.len() && work.is_entered(i) {
            found.push(n)?;
        }
    }
    Ok(found)
}

/// The existing nodes of `nodes` and all nodes reachable from them, each once, sorted by their
/// positions in `order`.
///
/// # Requires
///
/// - `held`: `order` contains all nodes of `source`.
/// - `scratch_fits`: `scratch` has room for the nodes of `source`. Test:
///   `scratch.fits(source.node_bound(), 0)`.
///
/// # Errors
///
/// Returns `AllocError` if an allocation fails.
///
/// # Complexity
///
/// O(nodes and edges visited), plus the cost of sorting the nodes found.
///
/// # Examples
///
/// ```
/// let mut graph: DiGraph<&'static str, ()> = DiGraph::new(rt.alloc());
/// let sow = graph.add_node("sow")?;
/// let reap = graph.add_node("reap")?;
/// graph.add_edge(sow, reap, ())?;
/// let mut scratch = Scratch::new(rt.alloc());
/// scratch.reserve(graph.node_count(), 0)?;
/// if let Some(mut order) = Order::sorted(rt.alloc(), &mut graph, &mut scratch)? {
///     let found = affected(rt.alloc(), &mut graph, &mut order, &[sow], &mut scratch)?;
///     assert!(rt; found.as_slice() == [sow, reap].as_slice());
/// }
/// ```
pub fn affected<Ix: IndexType, S: EdgeSource<Ix>>(
    alloc: Global,
    source: &mut S,
    order: &mut Order<Ix>,
    nodes: &[NodeIndex<Ix>],
    scratch: &mut Scratch<Ix>,
) -> Result<Vec<NodeIndex<Ix>>, AllocError>
    requires held { (n : ℕ) → HasNode (S.graph source.old) n → Contains order.old n }
    requires scratch_fits { node_bound (S.graph source.old) ≤ scratch.old.nodes }
    ensures found { IfOk result (λ found. IsSortedPart order.old
        (IsBelow (S.graph source.old) (map Ix.number nodes.now)) (map Ix.number found.items)) }
    ensures same { S.graph source.new ≡ S.graph source.old }
    ensures kept { order.new ≡ order.old }
    ensures looked { S.looks source.old ≤ S.looks source.new }
    ensures counted { S.looks source.new ≤ S.looks source.old + edge_count (S.graph source.old) }
    ensures visited { IfOk result (λ found. S.looks source.new
        ≤ S.looks source.old + edges_from (S.graph source.old) (map Ix.number found.items)) }
    ensures same_capacity { scratch.new ≡ scratch.old }
{
    // Called only for its postcondition: the graph is well formed.
    let _bound = source.node_bound();
    let count = queue_below(source, nodes, &mut scratch.work);
    // Iterating over the whole order takes less time than sorting half of it.
    if order.len() / 2 <= count {
        return entered_nodes(alloc, order, &scratch.work, count);
    }
    let mut found = front_nodes(alloc, &scratch.work, count)?;
    order.sort_by_place(alloc, found.as_mut_slice())?;
    Ok(found)
}

/// The descendants of `nodes`, each once, sorted by their positions in `order`. These are the nodes
/// to which a path of one or more edges leads from one of `nodes`.
///
/// # Requires
///
/// - `held`: `order` contains all nodes of `source`.
/// - `scratch_fits`: `scratch` has room for the nodes of `source`. Test:
///   `scratch.fits(source.node_bound(), 0)`.
///
/// # Errors
///
/// Returns `AllocError` if an allocation fails.
///
/// # Complexity
///
/// O(nodes and edges visited), plus the cost of sorting the nodes found.
///
/// # Examples
///
/// ```
/// let mut graph: DiGraph<&'static str, ()> = DiGraph::new(rt.alloc());
/// let sow = graph.add_node("sow")?;
/// let reap = graph.add_node("reap")?;
/// graph.add_edge(sow, reap, ())?;
/// let mut scratch = Scratch::new(rt.alloc());
/// scratch.reserve(graph.node_count(), 0)?;
/// if let Some(mut order) = Order::sorted(rt.alloc(), &mut graph, &mut scratch)? {
///     let found = descendants(rt.alloc(), &mut graph, &mut order, &[sow], &mut scratch)?;
///     assert!(rt; found.as_slice() == [reap].as_slice());
/// }
/// ```
pub fn descendants<Ix: IndexType, S: EdgeSource<Ix>>(
    alloc: Global,
    source: &mut S,
    order: &mut Order<Ix>,
    nodes: &[NodeIndex<Ix>],
    scratch: &mut Scratch<Ix>,
) -> Result<Vec<NodeIndex<Ix>>, AllocError>
    requires held { (n : ℕ) → HasNode (S.graph source.old) n → Contains order.old n }
    requires scratch_fits { node_bound (S.graph source.old) ≤ scratch.old.nodes }
    ensures found { IfOk result (λ found. IsSortedPart order.old
        (IsDescendantOfAny (S.graph source.old) (map Ix.number nodes.now))
        (map Ix.number found.items)) }
    ensures same { S.graph source.new ≡ S.graph source.old }
    ensures kept { order.new ≡ order.old }
    ensures looked { S.looks source.old ≤ S.looks source.new }
    ensures counted { S.looks source.new ≤ S.looks source.old
        + (edges_from (S.graph source.old) (map Ix.number nodes.now)
        + edge_count (S.graph source.old)) }
    ensures visited { IfOk result (λ found. S.looks source.new ≤ S.looks source.old
        + (edges_from (S.graph source.old) (map Ix.number nodes.now)
        + edges_from (S.graph source.old) (map Ix.number found.items))) }
    ensures same_capacity { scratch.new ≡ scratch.old }
{
    // Called only for its postcondition: the graph is well formed.
    let _bound = source.node_bound();
    let children = children_of(alloc, source, nodes)?;
    affected(alloc, source, order, children.as_slice(), scratch)
}
