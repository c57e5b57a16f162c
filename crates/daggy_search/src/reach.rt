//! The search for a path.
ghost use Rattle.std.specs.Prelude.{◌≡◌, ℕ, ◌+◌, ◌<◌, ◌≤◌, ◌↔◌, IsTrue};
ghost use Rattle.daggy_base.specs.Graph.{HasNode, node_bound, edge_count};
ghost use Rattle.daggy_base.specs.Path.{Reaches};

use crate::scratch::Scratch;
use crate::worklist::Worklist;
use daggy_base::index::{EdgeIndex, IndexType, NodeIndex};
use daggy_base::link::Link;
use daggy_base::source::EdgeSource;

/// Whether a path leads from `from` to `to`. A single node is a path, so an existing node reaches
/// itself; a missing node reaches nothing.
///
/// # Requires
///
/// - `scratch` has room for the nodes of `source`. Test: `scratch.fits(source.node_bound(), 0)`.
///
/// # Complexity
///
/// O(nodes and edges visited); each edge is read at most once. Memory of the scratch that no search
/// has used before is initialised first. Does not allocate.
///
/// # Examples
///
/// ```
/// let mut graph: DiGraph<&'static str, ()> = DiGraph::new(rt.alloc());
/// let egg = graph.add_node("egg")?;
/// let hen = graph.add_node("hen")?;
/// let _ = graph.add_edge(egg, hen, ())?;
/// let mut scratch = Scratch::new(rt.alloc());
/// scratch.reserve(graph.node_count(), 0)?;
/// assert!(rt; reaches(&mut graph, egg, hen, &mut scratch));
/// assert!(rt; !reaches(&mut graph, hen, egg, &mut scratch));
/// ```
pub fn reaches<Ix: IndexType, S: EdgeSource<Ix>>(
    source: &mut S,
    from: NodeIndex<Ix>,
    to: NodeIndex<Ix>,
    scratch: &mut Scratch<Ix>,
) -> bool
    requires { node_bound (S.graph source.old) ≤ scratch.old.nodes }
    ensures decided { IsTrue result ↔ Reaches (S.graph source.old) (Ix.number from) (Ix.number to) }
    ensures same { S.graph source.new ≡ S.graph source.old }
    ensures looked { S.looks source.old ≤ S.looks source.new }
    ensures counted { S.looks source.new ≤ S.looks source.old + edge_count (S.graph source.old) }
    ensures same_capacity { scratch.new ≡ scratch.old }
{
    search(source, from, to, &mut scratch.work)
}

// Whether `from` reaches `to`: depth first, each node pushed once.
fn search<Ix: IndexType, S: EdgeSource<Ix>>(
    source: &mut S,
    from: NodeIndex<Ix>,
    to: NodeIndex<Ix>,
    work: &mut Worklist<Ix>,
) -> bool
    requires fits { node_bound (S.graph source.old) ≤ work.old.size }
    ensures decided { IsTrue result ↔ Reaches (S.graph source.old) (Ix.number from) (Ix.number to) }
    ensures same { S.graph source.new ≡ S.graph source.old }
    ensures looked { S.looks source.old ≤ S.looks source.new }
    ensures counted { S.looks source.new ≤ S.looks source.old + edge_count (S.graph source.old) }
    ensures kept { work.new.size ≡ work.old.size }
{
    if !source.contains_node(from) {
        return false;
    }
    let target = to.index();
    if from.index() == target {
        return true;
    }
    let end = EdgeIndex::<Ix>::end().index();
    work.begin();
    work.enter(from.index());
    let mut len = 0;
    let mut e = source.first(from);
    'steps: loop {
        if e.index() == end {
            if len == 0 {
                return false;
            }
            len -= 1;
            e = source.first(work.node(len).node());
        } else {
            let (v, next) = source.look(e);
            let i = v.index();
            if !work.is_entered(i) {
                if i == target {
                    return true;
                }
                work.enter(i);
                work.put_node(len, Link::of_node(v));
                len += 1;
            }
            e = next;
        }
    }
}
