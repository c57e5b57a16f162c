//! Redundant edges, found along a topological order.
ghost use Rattle.std.specs.Prelude.{◌≡◌, ℕ, ◌+◌, ◌*◌, ◌≤◌, ◌↔◌, ◌⊎◌, true, false, map, length};
ghost use Rattle.std.specs.Prelude.{take, slice_index_or, Contains};
ghost use Rattle.daggy_base.specs.Graph.{HasNode, out_list, node_bound, edge_bound, node_count};
ghost use Rattle.daggy_base.specs.Graph.{edge_count};
ghost use Rattle.daggy_base.specs.Path.{AreJoined};
ghost use Rattle.daggy_base.specs.WellFormed.{IsWellFormed};
ghost use Rattle.daggy_base.specs.Reduction.{IsRedundant, ReachesIndirectly};
ghost use Rattle.daggy_base.specs.Ordered.{IsOrderOf};
ghost use Rattle.daggy_search.specs.Work.{IsSized, IsCleared};
ghost use Rattle.daggy_redundant.specs.Flags.{IsFlagged, FlagsRound};
ghost use Rattle.daggy_redundant.specs.Comparison.{IsAscending};
ghost use Rattle.daggy_reduction.specs.SearchSpan.{edges_spanned, all_spanned};
ghost use Rattle.std.specs.Borrow.{sem};
ghost use Rattle.daggy_redundant.specs.KeptRoom.{keeps_room};

use daggy_base::index::{EdgeIndex, IndexType, NodeIndex};
use daggy_base::source::EdgeSource;
use daggy_order::order::Order;
use daggy_redundant::bfs::{enqueue, mark_unless_first};
use daggy_redundant::flags::{collect_flags, flag_marked, unflag};
use daggy_redundant::redundant::front;
use daggy_redundant::roots::enter_below;
use daggy_search::{Scratch, Worklist};

// Marks the children of `u` that are also reachable by a longer path. Such a path cannot
// leave the part of the order before `u`'s last child, so the search stays there.
pub(crate) fn mark_indirect_children<Ix: IndexType, S: EdgeSource<Ix>>(
    source: &mut S,
    order: &Order<Ix>,
    u: NodeIndex<Ix>,
    work: &mut Worklist<Ix>,
)
    requires well_formed { IsWellFormed Ix.greatest (S.graph source.old) }
    requires ordered { IsOrderOf (S.graph source.old) order.now }
    requires exists { HasNode (S.graph source.old) (Ix.number u) }
    requires cleared { IsCleared work.old }
    requires fits { node_bound (S.graph source.old) ≤ work.old.size }
    requires sized { IsSized work.old.size work.old }
    ensures same { S.graph source.new ≡ S.graph source.old }
    ensures met { (v : ℕ)
        → AreJoined (S.graph source.old) (Ix.number u) v → (slice_index_or work.new.marked v false ≡ true)
        ↔ ((slice_index_or work.old.marked v false ≡ true)
        ⊎ ReachesIndirectly (S.graph source.old) (Ix.number u) v) }
    ensures looked { S.looks source.old ≤ S.looks source.new }
    ensures counted { S.looks source.new
        ≤ S.looks source.old + edges_spanned (S.graph source.old) order.now (Ix.number u) }
    ensures kept { IsSized work.old.size work.new }
    ensures aside { work.new.cursors ≡ work.old.cursors }
{
    let end = EdgeIndex::<Ix>::end().index();
    let mut last = u;
    let mut len = 0;
    let mut e = source.first(u);
    'children: while e.index() != end {
        let (v, next) = source.look(e);
        if order.stands_before(last, v) {
            len = enqueue(work, len, last);
            last = v;
        } else if order.stands_before(v, last) {
            len = enqueue(work, len, v);
        }
        e = next;
    }
    if len == 0 {
        return;
    }
    let mut head = 0;
    'steps: loop {
        if e.index() == end {
            head += 1;
            if head == len {
                return;
            }
            e = source.first(work.node(head).node());
        } else {
            let (v, next) = source.look(e);
            if order.stands_before(v, last) {
                len = enqueue(work, len, v);
            }
            mark_unless_first(work, head, v.index());
            e = next;
        }
    }
}

// Flags the edges of `u` whose children are also reachable by a longer path.
fn flag_children_in<Ix: IndexType, S: EdgeSource<Ix>>(
    source: &mut S,
    order: &Order<Ix>,
    u: NodeIndex<Ix>,
    work: &mut Worklist<Ix>,
    flags: &mut [EdgeIndex<Ix>],
)
    requires well_formed { IsWellFormed Ix.greatest (S.graph source.old) }
    requires ordered { IsOrderOf (S.graph source.old) order.now }
    requires exists { HasNode (S.graph source.old) (Ix.number u) }
    requires fits { node_bound (S.graph source.old) ≤ work.old.size }
    requires sized { IsSized work.old.size work.old }
    requires flags_fit { edge_bound (S.graph source.old) ≤ length flags.old }
    ensures same { S.graph source.new ≡ S.graph source.old }
    ensures flagged { FlagsRound Ix.greatest (S.graph source.old) (Ix.number u)
        (map Ix.number flags.old) (map Ix.number flags.new) }
    ensures looked { S.looks source.old ≤ S.looks source.new }
    ensures counted { S.looks source.new ≤ S.looks source.old
        + edges_spanned (S.graph source.old) order.now (Ix.number u)
        + length (out_list (S.graph source.old) (Ix.number u)) }
    ensures kept { IsSized work.old.size work.new }
    ensures aside { work.new.cursors ≡ work.old.cursors }
    ensures flags_kept { length flags.new ≡ length flags.old }
{
    work.begin();
    mark_indirect_children(source, order, u, work);
    flag_marked(source, u, work, flags);
}

// Flags the edges that are redundant below some roots: `flags` has an index at the positions of
// those edges, and `end` elsewhere.
fn flag_redundant_in<Ix: IndexType, S: EdgeSource<Ix>>(
    source: &mut S,
    order: &Order<Ix>,
    roots: &[NodeIndex<Ix>],
    work: &mut Worklist<Ix>,
    flags: &mut [EdgeIndex<Ix>],
)
    requires ordered { IsOrderOf (S.graph source.old) order.now }
    requires fits { node_bound (S.graph source.old) ≤ work.old.size }
    requires flags_fit { edge_bound (S.graph source.old) ≤ length flags.old }
    ensures same { S.graph source.new ≡ S.graph source.old }
    ensures flagged { (e : ℕ) → IsFlagged Ix.greatest (map Ix.number flags.new) e
        ↔ IsRedundant (S.graph source.old) (map Ix.number roots.now) e }
    ensures looked { S.looks source.old ≤ S.looks source.new }
    ensures counted { S.looks source.new ≤ S.looks source.old
        + (node_count (S.graph source.old) + 2) * edge_count (S.graph source.old) }
    ensures spanned { S.looks source.new ≤ S.looks source.old
        + 2 * edge_count (S.graph source.old)
        + all_spanned (S.graph source.old) order.now order.now }
    ensures kept { work.new.size ≡ work.old.size }
    ensures flags_kept { length flags.new ≡ length flags.old }
{
    let _well_formed = source.node_bound();
    unflag(flags);
    let count = enter_below(source, roots, work);
    let mut k = 0;
    'nodes: while k < count {
        flag_children_in(source, order, work.cursor(k).node(), work, flags);
        k += 1;
    }
}

// Writes the redundant edges below some roots to the front of `scratch.found`, and returns how many
// there are.
pub(crate) fn leave_redundant_in<Ix: IndexType, S: EdgeSource<Ix>>(
    source: &mut S,
    order: &Order<Ix>,
    roots: &[NodeIndex<Ix>],
    scratch: &mut Scratch<Ix>,
) -> usize
    requires ordered { IsOrderOf (S.graph source.old) order.now }
    requires nodes_fit { node_bound (S.graph source.old) ≤ scratch.old.nodes }
    requires edges_fit { edge_bound (S.graph source.old) ≤ scratch.old.edges }
    ensures same { S.graph source.new ≡ S.graph source.old }
    ensures within { result ≤ length scratch.new.found }
    ensures ascending { IsAscending (map Ix.number (take result scratch.new.found)) }
    ensures exact { (e : ℕ) → Contains (map Ix.number (take result scratch.new.found)) e
        ↔ IsRedundant (S.graph source.old) (map Ix.number roots.now) e }
    ensures looked { S.looks source.old ≤ S.looks source.new }
    ensures counted { S.looks source.new ≤ S.looks source.old
        + (node_count (S.graph source.old) + 2) * edge_count (S.graph source.old) }
    ensures spanned { S.looks source.new ≤ S.looks source.old
        + 2 * edge_count (S.graph source.old)
        + all_spanned (S.graph source.old) order.now order.now }
    ensures nodes_kept { scratch.new.nodes ≡ scratch.old.nodes }
    ensures edges_kept { scratch.new.edges ≡ scratch.old.edges }
    ensures rows_kept { scratch.new.rows ≡ scratch.old.rows }
{
    let _well_formed = source.node_bound();
    let bound = source.edge_bound();
    let flags = scratch.found.as_mut_slice();
    flag_redundant_in(source, order, roots, &mut scratch.work, flags);
    collect_flags(flags, bound)
}

/// The same as [`redundant_edges`](daggy_redundant::redundant::redundant_edges), found with a
/// topological order of the nodes.
///
/// The search from a node enters only nodes before its last child, since a longer path to a child
/// passes through no others.
///
/// # Requires
///
/// - `ordered`: `order` is a topological order of the nodes of `source`: it contains exactly these,
///   each before its children.
/// - `nodes_fit`: `scratch` has room for the nodes of `source`. Test:
///   `scratch.fits(source.node_bound(), 0)`.
/// - `edges_fit`: `scratch` has room for the edges of `source`. Test:
///   `scratch.fits(0, source.edge_bound())`.
///
/// # Complexity
///
/// One search for each node that the roots reach, limited to the nodes before that node's last
/// child in `order`. Does not allocate.
///
/// # Examples
///
/// ```
/// let mut graph: DiGraph<&'static str, ()> = DiGraph::new(rt.alloc());
/// let sow = graph.add_node("sow")?;
/// let grow = graph.add_node("grow")?;
/// let reap = graph.add_node("reap")?;
/// graph.add_edge(sow, grow, ())?;
/// graph.add_edge(grow, reap, ())?;
/// let direct = graph.add_edge(sow, reap, ())?;
/// let mut scratch = Scratch::new(rt.alloc());
/// scratch.reserve(graph.node_count(), graph.edge_count())?;
/// if let Some(order) = Order::sorted(rt.alloc(), &mut graph, &mut scratch)? {
///     let redundant = redundant_edges_in(&mut scratch, &mut graph, &order, &[sow]);
///     assert!(rt; redundant == [direct].as_slice());
/// }
/// ```
pub fn redundant_edges_in<'s, Ix: IndexType, S: EdgeSource<Ix>>(
    scratch: &'s mut Scratch<Ix>,
    source: &mut S,
    order: &Order<Ix>,
    roots: &[NodeIndex<Ix>],
) -> &'s [EdgeIndex<Ix>]
    requires ordered { IsOrderOf (S.graph source.old) order.now }
    requires nodes_fit { node_bound (S.graph source.old) ≤ scratch.old.nodes }
    requires edges_fit { edge_bound (S.graph source.old) ≤ scratch.old.edges }
    ensures same { S.graph source.new ≡ S.graph source.old }
    ensures ascending { IsAscending (map Ix.number result.now) }
    ensures exact { (e : ℕ) → Contains (map Ix.number result.now) e
        ↔ IsRedundant (S.graph source.old) (map Ix.number roots.now) e }
    ensures looked { S.looks source.old ≤ S.looks source.new }
    ensures counted { S.looks source.new ≤ S.looks source.old
        + (node_count (S.graph source.old) + 2) * edge_count (S.graph source.old) }
    ensures spanned { S.looks source.new ≤ S.looks source.old
        + 2 * edge_count (S.graph source.old)
        + all_spanned (S.graph source.old) order.now order.now }
    ensures* rests { sem 𝓛 (keeps_room Ix.row Ix.IndexType scratch.entry) }
{
    let count = leave_redundant_in(source, order, roots, scratch);
    front(scratch.found.as_slice(), count)
}
