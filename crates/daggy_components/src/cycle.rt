//! Finding a cycle of a graph.
ghost use Rattle.std.specs.Prelude.{◌≡◌, ℕ, ◌+◌, ◌<◌, ◌≤◌, ◌↔◌, IfOk, IfSome, IfNone, IsNone, map};
ghost use Rattle.std.specs.Prelude.{length, slice_index, slice_range};
ghost use Rattle.daggy_base.specs.Graph.{node_bound, edge_count};
ghost use Rattle.daggy_base.specs.Path.{IsAcyclic};
ghost use Rattle.daggy_search.specs.Work.{IsSized};
ghost use Rattle.daggy_components.specs.Cycles.{IsCycle};

use daggy_base::index::{EdgeIndex, IndexType, NodeIndex};
use daggy_base::link::Link;
use daggy_base::source::EdgeSource;
use daggy_search::Worklist;
use std::alloc::{AllocError, Global};

// Where a node stands among the first nodes of the worklist.
fn place_of<Ix: IndexType>(work: &Worklist<Ix>, len: usize, node: usize) -> usize
    requires within { len ≤ length work.now.nodes }
    requires there { (k : ℕ) × (k < len) × (slice_index work.now.nodes k ≡ node) }
    ensures before { result < len }
    ensures found { slice_index work.now.nodes result ≡ node }
{
    let mut at = len - 1;
    'at: while work.node(at).index() != node {
        at -= 1;
    }
    at
}

// The nodes from one place of the worklist up to another.
fn nodes_between<Ix: IndexType>(
    alloc: Global,
    work: &Worklist<Ix>,
    from: usize,
    to: usize,
) -> Result<Vec<NodeIndex<Ix>>, AllocError>
    requires order { from ≤ to }
    requires within { to ≤ length work.now.nodes }
    ensures { IfOk result (λ nodes.
        map Ix.number nodes.items ≡ slice_range work.now.nodes from to) }
{
    let mut nodes = Vec::with_capacity(alloc, to - from)?;
    'nodes: for k in from..to {
        nodes.push(work.node(k).node())?;
    }
    Ok(nodes)
}

// Searches for a cycle as `sort_nodes` does. If there is one, it is left in the list of the
// worklist, from the first place of the result up to the second.
fn search<Ix: IndexType, S: EdgeSource<Ix>>(
    source: &mut S,
    work: &mut Worklist<Ix>,
) -> Option<(usize, usize)>
    requires { node_bound (S.graph source.old) ≤ work.old.size }
    ensures cycle { IfSome result (λ places.
        IsCycle (S.graph source.old) (slice_range work.new.nodes places.0 places.1)) }
    ensures order { IfSome result (λ places. places.0 ≤ places.1) }
    ensures within { IfSome result (λ places. places.1 ≤ length work.new.nodes) }
    ensures acyclic { IfNone result (IsAcyclic (S.graph source.old)) }
    ensures same { S.graph source.new ≡ S.graph source.old }
    ensures looked { S.looks source.old ≤ S.looks source.new }
    ensures counted { S.looks source.new ≤ S.looks source.old + edge_count (S.graph source.old) }
    ensures kept { IsSized work.old.size work.new }
{
    work.begin();
    let mut top = work.len();
    let bound = source.node_bound();
    let end = EdgeIndex::<Ix>::end().index();
    'roots: for i in 0..bound {
        let root = NodeIndex::new(i);
        if !source.contains_node(root) || work.is_entered(i) {
            continue;
        }
        work.enter(i);
        let mut n = root;
        let mut e = source.first(root);
        let mut len = 0;
        'steps: loop {
            if e.index() == end {
                work.mark(n.index());
                top -= 1;
                work.put_node(top, Link::of_node(n));
                if len == 0 {
                    break;
                }
                len -= 1;
                n = work.node(len).node();
                e = work.cursor(len).edge();
            } else {
                let (v, next) = source.look(e);
                let child = v.index();
                if !work.is_entered(child) {
                    work.enter(child);
                    work.put_node(len, Link::of_node(n));
                    work.put_cursor(len, Link::of_edge(next));
                    len += 1;
                    n = v;
                    e = source.first(v);
                } else if work.is_marked(child) {
                    e = next;
                } else {
                    work.put_node(len, Link::of_node(n));
                    let from = place_of(work, len + 1, child);
                    return Some((from, len + 1));
                }
            }
        }
    }
    None
}

/// A cycle of the graph, or `None` if the graph is acyclic.
///
/// The cycle is given by its nodes in order, each once: an edge leads from each node to the next,
/// and from the last to the first. A node with an edge to itself is a cycle of one node.
///
/// # Errors
///
/// Returns `AllocError` if an allocation fails.
///
/// # Complexity
///
/// O(nodes + edges); each edge is read at most once.
///
/// # Examples
///
/// ```
/// let mut graph: DiGraph<&'static str, ()> = DiGraph::new(rt.alloc());
/// let hen = graph.add_node("hen")?;
/// let egg = graph.add_node("egg")?;
/// graph.add_edge(hen, egg, ())?;
/// assert!(rt; find_cycle(rt.alloc(), &mut Reading::new(&graph))?.is_none());
/// graph.add_edge(egg, hen, ())?;
/// let cycle = find_cycle(rt.alloc(), &mut Reading::new(&graph))?;
/// assert!(rt; cycle.is_some_and(|nodes| nodes.len() == 2));
/// ```
pub fn find_cycle<Ix: IndexType, S: EdgeSource<Ix>>(
    alloc: Global,
    source: &mut S,
) -> Result<Option<Vec<NodeIndex<Ix>>>, AllocError>
    ensures cycle { IfOk result (λ found. IfSome found (λ nodes.
        IsCycle (S.graph source.old) (map Ix.number nodes.items))) }
    ensures decided { IfOk result (λ found. IsNone found ↔ IsAcyclic (S.graph source.old)) }
    ensures same { S.graph source.new ≡ S.graph source.old }
    ensures looked { S.looks source.old ≤ S.looks source.new }
    ensures counted { S.looks source.new ≤ S.looks source.old + edge_count (S.graph source.old) }
{
    let mut work = Worklist::new(alloc);
    work.grow(source.node_bound())?;
    match search(source, &mut work) {
        Some((from, to)) => Ok(Some(nodes_between(alloc, &work, from, to)?)),
        None => Ok(None),
    }
}
