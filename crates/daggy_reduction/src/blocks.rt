//! Redundant edges, found by rows of bits for a block of nodes at a time.
ghost use Rattle.std.specs.Prelude.{◌≡◌, ℕ, ◌+◌, ◌*◌, ◌≤◌, ◌↔◌, map, length, take, Contains};
ghost use Rattle.std.specs.Prelude.{vec_len, vec_capacity};
ghost use Rattle.daggy_base.specs.Graph.{node_bound, edge_bound, node_count, edge_count};
ghost use Rattle.daggy_base.specs.Reduction.{IsRedundant};
ghost use Rattle.daggy_base.specs.Ordered.{IsOrderOf};
ghost use Rattle.daggy_redundant.specs.Flags.{IsFlagged};
ghost use Rattle.daggy_redundant.specs.Comparison.{IsAscending};
ghost use Rattle.std.specs.Borrow.{sem};
ghost use Rattle.daggy_redundant.specs.KeptRoom.{keeps_room};
ghost use Rattle.daggy_reduction.specs.Blocks.{blocks_of};
ghost use Rattle.daggy_reduction.specs.SearchSpan.{SpansAtMost};

use crate::arcs::{AlongLists, ListArcs};
use crate::block::{Start, flag_block};
use crate::placed::list_below;
use daggy_base::index::{EdgeIndex, IndexType, NodeIndex};
use daggy_base::link::Link;
use daggy_base::source::EdgeSource;
use daggy_order::order::Order;
use daggy_redundant::flags::{collect_flags, unflag};
use daggy_redundant::redundant::front;
use daggy_search::{Arc, Row, Scratch, Segment, Worklist};

// Appends arcs until there are `len`, in memory that was reserved for them.
fn grow_arcs<Ix: IndexType>(arcs: &mut Vec<Arc<Ix>>, len: usize)
    requires { len ≤ vec_capacity arcs.old }
    ensures more { len ≤ vec_len arcs.new }
    ensures room { vec_capacity arcs.old ≤ vec_capacity arcs.new }
{
    let none = Arc::new(Link::end(), EdgeIndex::end());
    'arcs: while arcs.len() < len {
        // It fits what was reserved, so it cannot fail.
        let _pushed = arcs.push(none);
    }
}

// Flags the edges that are redundant below some roots, block by block.
fn flag_blocks<Ix: IndexType, S: EdgeSource<Ix>, L: ListArcs<Ix, S>>(
    source: &mut S,
    order: &Order<Ix>,
    roots: &[NodeIndex<Ix>],
    work: &mut Worklist<Ix>,
    arcs: &mut [Arc<Ix>],
    segments: &mut [Segment],
    rows: &mut [Row],
    flags: &mut [EdgeIndex<Ix>],
)
    requires ordered { IsOrderOf (S.graph source.old) order.now }
    requires fits { node_bound (S.graph source.old) ≤ work.old.size }
    requires arcs_fit { edge_bound (S.graph source.old) ≤ length arcs.old }
    requires segments_fit { node_bound (S.graph source.old) ≤ length segments.old }
    requires rows_fit { node_bound (S.graph source.old) ≤ length rows.old }
    requires flags_fit { edge_bound (S.graph source.old) ≤ length flags.old }
    ensures same { S.graph source.new ≡ S.graph source.old }
    ensures flagged { (e : ℕ) → IsFlagged Ix.greatest (map Ix.number flags.new) e
        ↔ IsRedundant (S.graph source.old) (map Ix.number roots.now) e }
    ensures looked { S.looks source.old ≤ S.looks source.new }
    ensures counted { S.looks source.new ≤ S.looks source.old
        + (2 * blocks_of (node_count (S.graph source.old)) + (L.passes + 1))
        * edge_count (S.graph source.old) }
    ensures near { SpansAtMost (S.graph source.old) order.now 512
        → S.looks source.new ≤ S.looks source.old
        + (L.passes + 5) * edge_count (S.graph source.old) }
    ensures kept { work.new.size ≡ work.old.size }
    ensures arcs_kept { length arcs.new ≡ length arcs.old }
    ensures segments_kept { length segments.new ≡ length segments.old }
    ensures rows_kept { length rows.new ≡ length rows.old }
    ensures flags_kept { length flags.new ≡ length flags.old }
{
    let _well_formed = source.node_bound();
    unflag(flags);
    let count = list_below(source, order, roots, work);
    L::list_arcs(source, work, count, arcs, segments);
    let mut start = Start { low: 0, first: 0 };
    'sweep: while start.low < count {
        start = flag_block(source, work, arcs, segments, start, count, rows, flags);
    }
}

// Writes the redundant edges below some roots to the front of `scratch.found`, and returns how many
// there are. `L` determines how edges are listed.
pub(crate) fn leave_redundant_by_blocks<Ix: IndexType, S: EdgeSource<Ix>, L: ListArcs<Ix, S>>(
    source: &mut S,
    order: &Order<Ix>,
    roots: &[NodeIndex<Ix>],
    scratch: &mut Scratch<Ix>,
) -> usize
    requires ordered { IsOrderOf (S.graph source.old) order.now }
    requires nodes_fit { node_bound (S.graph source.old) ≤ scratch.old.nodes }
    requires edges_fit { edge_bound (S.graph source.old) ≤ scratch.old.edges }
    requires rows_fit { node_bound (S.graph source.old) ≤ scratch.old.rows }
    ensures same { S.graph source.new ≡ S.graph source.old }
    ensures within { result ≤ length scratch.new.found }
    ensures ascending { IsAscending (map Ix.number (take result scratch.new.found)) }
    ensures exact { (e : ℕ) → Contains (map Ix.number (take result scratch.new.found)) e
        ↔ IsRedundant (S.graph source.old) (map Ix.number roots.now) e }
    ensures looked { S.looks source.old ≤ S.looks source.new }
    ensures counted { S.looks source.new ≤ S.looks source.old
        + (2 * blocks_of (node_count (S.graph source.old)) + (L.passes + 1))
        * edge_count (S.graph source.old) }
    ensures near { SpansAtMost (S.graph source.old) order.now 512
        → S.looks source.new ≤ S.looks source.old
        + (L.passes + 5) * edge_count (S.graph source.old) }
    ensures nodes_kept { scratch.new.nodes ≡ scratch.old.nodes }
    ensures edges_kept { scratch.new.edges ≡ scratch.old.edges }
    ensures rows_kept { scratch.new.rows ≡ scratch.old.rows }
{
    let _well_formed = source.node_bound();
    let bound = source.edge_bound();
    grow_arcs(&mut scratch.arcs, bound);
    let work = &mut scratch.work;
    let arcs = scratch.arcs.as_mut_slice();
    let segments = scratch.segments.as_mut_slice();
    let rows = scratch.rows.as_mut_slice();
    let flags = scratch.found.as_mut_slice();
    flag_blocks::<Ix, S, L>(source, order, roots, work, arcs, segments, rows, flags);
    collect_flags(flags, bound)
}

/// The same as [`redundant_edges_in`](crate::bounded::redundant_edges_in), found with rows of bits,
/// for a block of 512 nodes at a time: the row of a node has a bit for each node of the block, set
/// if the node reaches it.
///
/// # Requires
///
/// - `ordered`: `order` is a topological order of the nodes of `source`: it contains exactly these,
///   each before its children.
/// - `nodes_fit`: `scratch` has room for the nodes of `source`. Test:
///   `scratch.fits(source.node_bound(), 0)`.
/// - `edges_fit`: `scratch` has room for the edges of `source`. Test:
///   `scratch.fits(0, source.edge_bound())`.
/// - `rows_fit`: `scratch` has a row for each node of `source`, as after
///   `scratch.reserve_rows(source.node_bound())`.
///
/// # Complexity
///
/// Reads each edge at most twice, to find the nodes and to list the edges in one array, and then at
/// most twice for each block of 512 nodes. Does not allocate.
pub fn redundant_edges_by_blocks<'s, Ix: IndexType, S: EdgeSource<Ix>>(
    scratch: &'s mut Scratch<Ix>,
    source: &mut S,
    order: &Order<Ix>,
    roots: &[NodeIndex<Ix>],
) -> &'s [EdgeIndex<Ix>]
    requires ordered { IsOrderOf (S.graph source.old) order.now }
    requires nodes_fit { node_bound (S.graph source.old) ≤ scratch.old.nodes }
    requires edges_fit { edge_bound (S.graph source.old) ≤ scratch.old.edges }
    requires rows_fit { node_bound (S.graph source.old) ≤ scratch.old.rows }
    ensures same { S.graph source.new ≡ S.graph source.old }
    ensures ascending { IsAscending (map Ix.number result.now) }
    ensures exact { (e : ℕ) → Contains (map Ix.number result.now) e
        ↔ IsRedundant (S.graph source.old) (map Ix.number roots.now) e }
    ensures looked { S.looks source.old ≤ S.looks source.new }
    ensures counted { S.looks source.new ≤ S.looks source.old
        + (2 * blocks_of (node_count (S.graph source.old)) + 2) * edge_count (S.graph source.old) }
    ensures* rests { sem 𝓛 (keeps_room Ix.row Ix.IndexType scratch.entry) }
{
    let count = leave_redundant_by_blocks::<Ix, S, AlongLists>(source, order, roots, scratch);
    front(scratch.found.as_slice(), count)
}
