//! Redundant edges of any graph.
ghost use Rattle.std.specs.Prelude.{◌≡◌, ℕ, ◌+◌, ◌*◌, ◌≤◌, ◌↔◌, map, length, take, Contains};
ghost use Rattle.daggy_base.specs.Graph.{HasNode, out_list, node_bound, edge_bound, node_count};
ghost use Rattle.daggy_base.specs.Graph.{edge_count};
ghost use Rattle.daggy_base.specs.Path.{IsAcyclic};
ghost use Rattle.daggy_base.specs.WellFormed.{IsWellFormed};
ghost use Rattle.daggy_base.specs.Reduction.{IsRedundant};
ghost use Rattle.daggy_search.specs.Work.{IsSized};
ghost use Rattle.daggy_redundant.specs.Flags.{IsFlagged, FlagsRound};
ghost use Rattle.daggy_redundant.specs.Comparison.{IsAscending};
ghost use Rattle.std.specs.Borrow.{sem};
ghost use Rattle.daggy_redundant.specs.KeptRoom.{keeps_room};

use crate::bfs::{bfs, enqueue};
use crate::flags::{collect_flags, flag_marked, unflag};
use crate::roots::enter_below;
use daggy_base::index::{EdgeIndex, IndexType, NodeIndex};
use daggy_base::source::EdgeSource;
use daggy_search::{Scratch, Worklist};

// Flags the edges of `u` whose children are also reachable by a longer path.
fn flag_children<Ix: IndexType, S: EdgeSource<Ix>>(
    source: &mut S,
    u: NodeIndex<Ix>,
    work: &mut Worklist<Ix>,
    flags: &mut [EdgeIndex<Ix>],
)
    requires well_formed { IsWellFormed Ix.greatest (S.graph source.old) }
    requires acyclic { IsAcyclic (S.graph source.old) }
    requires exists { HasNode (S.graph source.old) (Ix.number u) }
    requires fits { node_bound (S.graph source.old) ≤ work.old.size }
    requires sized { IsSized work.old.size work.old }
    requires flags_fit { edge_bound (S.graph source.old) ≤ length flags.old }
    ensures same { S.graph source.new ≡ S.graph source.old }
    ensures flagged { FlagsRound Ix.greatest (S.graph source.old) (Ix.number u)
        (map Ix.number flags.old) (map Ix.number flags.new) }
    ensures looked { S.looks source.old ≤ S.looks source.new }
    ensures counted { S.looks source.new ≤ S.looks source.old + edge_count (S.graph source.old)
        + length (out_list (S.graph source.old) (Ix.number u)) }
    ensures kept { IsSized work.old.size work.new }
    ensures aside { work.new.cursors ≡ work.old.cursors }
    ensures flags_kept { length flags.new ≡ length flags.old }
{
    work.begin();
    let len = enqueue(work, 0, u);
    bfs(source, work, len);
    flag_marked(source, u, work, flags);
}

// Flags the edges that are redundant below some roots, and clears all other flags.
fn flag_redundant<Ix: IndexType, S: EdgeSource<Ix>>(
    source: &mut S,
    roots: &[NodeIndex<Ix>],
    work: &mut Worklist<Ix>,
    flags: &mut [EdgeIndex<Ix>],
)
    requires acyclic { IsAcyclic (S.graph source.old) }
    requires fits { node_bound (S.graph source.old) ≤ work.old.size }
    requires flags_fit { edge_bound (S.graph source.old) ≤ length flags.old }
    ensures same { S.graph source.new ≡ S.graph source.old }
    ensures flagged { (e : ℕ) → IsFlagged Ix.greatest (map Ix.number flags.new) e
        ↔ IsRedundant (S.graph source.old) (map Ix.number roots.now) e }
    ensures looked { S.looks source.old ≤ S.looks source.new }
    ensures counted { S.looks source.new ≤ S.looks source.old
        + (node_count (S.graph source.old) + 2) * edge_count (S.graph source.old) }
    ensures kept { work.new.size ≡ work.old.size }
    ensures flags_kept { length flags.new ≡ length flags.old }
{
    let _well_formed = source.node_bound();
    unflag(flags);
    let count = enter_below(source, roots, work);
    let mut k = 0;
    'nodes: while k < count {
        flag_children(source, work.cursor(k).node(), work, flags);
        k += 1;
    }
}

// Writes the redundant edges below some roots to the front of `scratch.found`, and returns how many
// there are.
fn leave_redundant<Ix: IndexType, S: EdgeSource<Ix>>(
    source: &mut S,
    roots: &[NodeIndex<Ix>],
    scratch: &mut Scratch<Ix>,
) -> usize
    requires acyclic { IsAcyclic (S.graph source.old) }
    requires nodes_fit { node_bound (S.graph source.old) ≤ scratch.old.nodes }
    requires edges_fit { edge_bound (S.graph source.old) ≤ scratch.old.edges }
    ensures same { S.graph source.new ≡ S.graph source.old }
    ensures within { result ≤ length scratch.new.found }
    ensures ascending { IsAscending (map Ix.number (take result scratch.new.found)) }
    ensures exact { (e : ℕ) → Contains (map Ix.number (take result scratch.new.found)) e
        ↔ IsRedundant (S.graph source.old) (map Ix.number roots.now) e }
    ensures looked { S.looks source.old ≤ S.looks source.new }
    ensures counted { S.looks source.new ≤ S.looks source.old
        + (node_count (S.graph source.old) + 2) * edge_count (S.graph source.old) }
    ensures nodes_kept { scratch.new.nodes ≡ scratch.old.nodes }
    ensures edges_kept { scratch.new.edges ≡ scratch.old.edges }
    ensures rows_kept { scratch.new.rows ≡ scratch.old.rows }
{
    let _well_formed = source.node_bound();
    let bound = source.edge_bound();
    let flags = scratch.found.as_mut_slice();
    flag_redundant(source, roots, &mut scratch.work, flags);
    collect_flags(flags, bound)
}

/// The first `count` items of a list.
pub fn front<T>(list: &[T], count: usize) -> &[T]
    requires { count ≤ length list.now }
    ensures value { result.now ≡ take count list.now }
{
    &list[..count]
}

/// The redundant edges that are reachable from the given roots, each once, in ascending index
/// order: the edges whose parent a root reaches, and whose parent reaches their child by another
/// path of two or more edges.
///
/// The result borrows the scratch, whose capacity does not change.
///
/// # Requires
///
/// - `acyclic`: `source` has no cycle. Test: `is_acyclic(source, scratch)`.
/// - `nodes_fit`: `scratch` has room for the nodes of `source`. Test:
///   `scratch.fits(source.node_bound(), 0)`.
/// - `edges_fit`: `scratch` has room for the edges of `source`. Test:
///   `scratch.fits(0, source.edge_bound())`.
///
/// # Complexity
///
/// One search for each node that the roots reach. Does not allocate.
///
/// # Examples
///
/// ```
/// let mut graph: DiGraph<&'static str, ()> = DiGraph::new(rt.alloc());
/// let sow = graph.add_node("sow")?;
/// let grow = graph.add_node("grow")?;
/// let reap = graph.add_node("reap")?;
/// let _ = graph.add_edge(sow, grow, ())?;
/// let _ = graph.add_edge(grow, reap, ())?;
/// let direct = graph.add_edge(sow, reap, ())?;
/// let mut scratch = Scratch::new(rt.alloc());
/// scratch.reserve(graph.node_count(), graph.edge_count())?;
/// let redundant = redundant_edges(&mut scratch, &mut graph, &[sow]);
/// assert!(rt; redundant == [direct].as_slice());
/// ```
pub fn redundant_edges<'s, Ix: IndexType, S: EdgeSource<Ix>>(
    scratch: &'s mut Scratch<Ix>,
    source: &mut S,
    roots: &[NodeIndex<Ix>],
) -> &'s [EdgeIndex<Ix>]
    requires acyclic { IsAcyclic (S.graph source.old) }
    requires nodes_fit { node_bound (S.graph source.old) ≤ scratch.old.nodes }
    requires edges_fit { edge_bound (S.graph source.old) ≤ scratch.old.edges }
    ensures same { S.graph source.new ≡ S.graph source.old }
    ensures ascending { IsAscending (map Ix.number result.now) }
    ensures exact { (e : ℕ) → Contains (map Ix.number result.now) e
        ↔ IsRedundant (S.graph source.old) (map Ix.number roots.now) e }
    ensures looked { S.looks source.old ≤ S.looks source.new }
    ensures counted { S.looks source.new ≤ S.looks source.old
        + (node_count (S.graph source.old) + 2) * edge_count (S.graph source.old) }
    ensures* rests { sem 𝓛 (keeps_room Ix.row Ix.IndexType scratch.entry) }
{
    let count = leave_redundant(source, roots, scratch);
    front(scratch.found.as_slice(), count)
}
