//! A shortest cycle through a node.
ghost use Rattle.std.specs.Prelude.{◌≡◌, ℕ, ◌+◌, ◌<◌, ◌≤◌, ◌↔◌, IfOk, IfSome, IsNone, map};
ghost use Rattle.std.specs.Prelude.{replicate, vec_len, Contains};
ghost use Rattle.daggy_base.specs.Graph.{edge_count};
ghost use Rattle.daggy_cycles.specs.Queue.{IsWayTo, place_before};
ghost use Rattle.daggy_cycles.specs.Shortest.{IsShortestCycle, IsOnNoCycle};

use daggy_base::index::{EdgeIndex, IndexType, NodeIndex};
use daggy_base::link::Link;
use daggy_base::source::EdgeSource;
use std::alloc::{AllocError, Global};

// Places of nodes none of which is in a queue.
fn no_places<Ix: IndexType>(alloc: Global, count: usize) -> Result<Vec<Link<Ix>>, AllocError>
    ensures { IfOk result (λ places. places.items ≡ replicate count Ix.greatest) }
{
    let mut places = Vec::new(alloc);
    places.resize(count, Link::end())?;
    Ok(places)
}

// The nodes from the first of a queue to the one at a place.
fn way_to<Ix: IndexType>(
    alloc: Global,
    places: &Vec<Link<Ix>>,
    nodes: &Vec<NodeIndex<Ix>>,
    at: usize,
) -> Result<Vec<NodeIndex<Ix>>, AllocError>
    requires within { at < vec_len nodes.now }
    requires low { (n : ℕ) → Contains (map Ix.number nodes.now.items) n → n < vec_len places.now }
    requires earlier { (i : ℕ) → 0 < i → i < vec_len nodes.now
        → place_before Ix.greatest places.now.items (map Ix.number nodes.now.items) i < i }
    ensures { IfOk result (λ way. IsWayTo Ix.greatest places.now.items
        (map Ix.number nodes.now.items) at (map Ix.number way.items)) }
{
    let mut way = Vec::new(alloc);
    let mut i = at;
    'way: while i > 0 {
        let n = nodes[i];
        way.push(n)?;
        i = places[n.index()].index();
    }
    way.push(nodes[0])?;
    way.reverse();
    Ok(way)
}

/// The nodes of a shortest cycle through a node, or `None` if the node is on no cycle.
///
/// The given node comes first. An edge leads from each node to the next, and from the last to the
/// first. No node occurs twice.
///
/// # Errors
///
/// Returns `AllocError` if an allocation fails.
///
/// # Complexity
///
/// O(nodes + edges that leave nodes whose distance from the node is less than the length of the
/// cycle); each edge is read at most once.
///
/// # Examples
///
/// ```
/// let mut graph: DiGraph<&'static str, ()> = DiGraph::new(rt.alloc());
/// let hen = graph.add_node("hen")?;
/// let egg = graph.add_node("egg")?;
/// let chick = graph.add_node("chick")?;
/// for (a, b) in [(hen, egg), (egg, chick), (chick, hen), (egg, hen)] {
///     graph.add_edge(a, b, ())?;
/// }
/// let cycle = shortest_cycle(rt.alloc(), &mut Reading::new(&graph), hen)?;
/// assert!(rt; cycle.is_some_and(|nodes| nodes.as_slice() == [hen, egg].as_slice()));
/// let cycle = shortest_cycle(rt.alloc(), &mut Reading::new(&graph), chick)?;
/// assert!(rt; cycle.is_some_and(|nodes| nodes.len() == 3));
/// ```
pub fn shortest_cycle<Ix: IndexType, S: EdgeSource<Ix>>(
    alloc: Global,
    source: &mut S,
    start: NodeIndex<Ix>,
) -> Result<Option<Vec<NodeIndex<Ix>>>, AllocError>
    ensures cycle { IfOk result (λ found. IfSome found (λ nodes. IsShortestCycle
        (S.graph source.old) (Ix.number start) (map Ix.number nodes.items))) }
    ensures decided { IfOk result (λ found.
        IsNone found ↔ IsOnNoCycle (S.graph source.old) (Ix.number start)) }
    ensures same { S.graph source.new ≡ S.graph source.old }
    ensures looked { S.looks source.old ≤ S.looks source.new }
    ensures counted { S.looks source.new ≤ S.looks source.old + edge_count (S.graph source.old) }
{
    if !source.contains_node(start) {
        return Ok(None);
    }
    let end = EdgeIndex::<Ix>::end().index();
    // For each node of the queue, the place of the node from which it was met.
    let mut places = no_places(alloc, source.node_bound())?;
    places[start.index()] = Link::new(0);
    let mut nodes = Vec::new(alloc);
    nodes.push(start)?;
    let mut head = 0;
    let mut e = source.first(start);
    'steps: loop {
        if e.index() == end {
            head += 1;
            if head == nodes.len() {
                return Ok(None);
            }
            e = source.first(nodes[head]);
        } else {
            let (v, next) = source.look(e);
            let child = v.index();
            if child == start.index() {
                return Ok(Some(way_to(alloc, &places, &nodes, head)?));
            }
            if places[child].index() == end {
                places[child] = Link::new(head);
                nodes.push(v)?;
            }
            e = next;
        }
    }
}
