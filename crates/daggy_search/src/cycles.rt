//! Whether a graph has a cycle, and a topological order if it has none.
ghost use Rattle.std.specs.Prelude.{◌≡◌, ℕ, ◌+◌, ◌≤◌, ◌↔◌, IsTrue, IfSome, IfNone, drop};
ghost use Rattle.daggy_base.specs.Graph.{node_bound, edge_count};
ghost use Rattle.daggy_base.specs.Path.{IsAcyclic};
ghost use Rattle.daggy_search.specs.Sorting.{IsSorted};
ghost use Rattle.daggy_search.specs.Work.{IsSized};

use crate::scratch::Scratch;
use crate::worklist::Worklist;
use daggy_base::index::{EdgeIndex, IndexType, NodeIndex};
use daggy_base::link::Link;
use daggy_base::source::EdgeSource;

/// Whether the graph is acyclic: no path of one or more edges ends where it begins. The test is a
/// depth-first search (Tarjan 1972).
///
/// # Requires
///
/// - `scratch` has room for the nodes of `source`. Test: `scratch.fits(source.node_bound(), 0)`.
///
/// # Complexity
///
/// O(nodes + edges); each edge is read at most once. Does not allocate.
///
/// # Examples
///
/// ```
/// let mut graph: DiGraph<&'static str, ()> = DiGraph::new(rt.alloc());
/// let egg = graph.add_node("egg")?;
/// let hen = graph.add_node("hen")?;
/// let _ = graph.add_edge(egg, hen, ())?;
/// let mut scratch = Scratch::new(rt.alloc());
/// scratch.reserve(graph.node_count(), 0)?;
/// assert!(rt; is_acyclic(&mut graph, &mut scratch));
/// let _ = graph.add_edge(hen, egg, ())?;
/// assert!(rt; !is_acyclic(&mut graph, &mut scratch));
/// ```
pub fn is_acyclic<Ix: IndexType, S: EdgeSource<Ix>>(
    source: &mut S,
    scratch: &mut Scratch<Ix>,
) -> bool
    requires { node_bound (S.graph source.old) ≤ scratch.old.nodes }
    ensures decided { IsTrue result ↔ IsAcyclic (S.graph source.old) }
    ensures same { S.graph source.new ≡ S.graph source.old }
    ensures looked { S.looks source.old ≤ S.looks source.new }
    ensures counted { S.looks source.new ≤ S.looks source.old + edge_count (S.graph source.old) }
    ensures same_capacity { scratch.new ≡ scratch.old }
{
    let sorted = sort_nodes(source, &mut scratch.work);
    sorted.is_some()
}

/// Sorts the nodes topologically, unless there is a cycle. They are left in the list of the worklist
/// from `top` on, where `top` is the result.
///
/// It is a depth-first search from each node in turn, which reads each edge at most once, and the
/// order is the reverse postorder: a node precedes all nodes that were finished earlier, and so its
/// children. A finished node is marked, and an edge to a node that was entered but not finished
/// closes a cycle.
#[doc(hidden)]
pub fn sort_nodes<Ix: IndexType, S: EdgeSource<Ix>>(
    source: &mut S,
    work: &mut Worklist<Ix>,
) -> Option<usize>
    requires { node_bound (S.graph source.old) ≤ work.old.size }
    ensures sorted { IfSome result (λ top.
        IsSorted (S.graph source.old) (drop top work.new.nodes)) }
    ensures within { IfSome result (λ top. top ≤ work.old.size) }
    ensures cyclic { IfNone result (¬ IsAcyclic (S.graph source.old)) }
    ensures same { S.graph source.new ≡ S.graph source.old }
    ensures looked { S.looks source.old ≤ S.looks source.new }
    ensures counted { S.looks source.new ≤ S.looks source.old + edge_count (S.graph source.old) }
    ensures kept { IsSized work.old.size work.new }
{
    work.begin();
    let mut top = work.len();
    let bound = source.node_bound();
    let end = EdgeIndex::<Ix>::end().index();
    'roots: for i in 0..bound {
        let root = NodeIndex::new(i);
        if !source.contains_node(root) || work.is_entered(i) {
            continue;
        }
        work.enter(i);
        let mut n = root;
        let mut e = source.first(root);
        let mut len = 0;
        'steps: loop {
            if e.index() == end {
                work.mark(n.index());
                top -= 1;
                work.put_node(top, Link::of_node(n));
                if len == 0 {
                    break;
                }
                len -= 1;
                n = work.node(len).node();
                e = work.cursor(len).edge();
            } else {
                let (v, next) = source.look(e);
                let child = v.index();
                if !work.is_entered(child) {
                    work.enter(child);
                    work.put_node(len, Link::of_node(n));
                    work.put_cursor(len, Link::of_edge(next));
                    len += 1;
                    n = v;
                    e = source.first(v);
                } else if work.is_marked(child) {
                    e = next;
                } else {
                    return None;
                }
            }
        }
    }
    Some(top)
}
