//! The transitive closure of a block of nodes, as rows of bits, and the redundant edges that enter
//! the block.
ghost use Rattle.std.specs.Prelude.{◌≡◌, ℕ, ◌+◌, ◌-◌, ◌*◌, ◌<◌, ◌≤◌, ◌↔◌, ◌⊎◌, [], true, false, map, replicate};
ghost use Rattle.std.specs.Prelude.{length, take, slice_index_or, slice_set, Contains};
ghost use Rattle.daggy_base.specs.Graph.{node_bound, edge_bound};
ghost use Rattle.daggy_base.specs.WellFormed.{IsWellFormed};
ghost use Rattle.daggy_redundant.specs.Flags.{IsFlagged};
ghost use Rattle.daggy_reduction.specs.Blocks.{IsPlaced, HasBits, HasBit, IsIn, AreArcs, HasArcTo};
ghost use Rattle.daggy_reduction.specs.Blocks.{ArePassedOn, MarksArcs, AreLeft, is_in_row, LeadsInto};
ghost use Rattle.daggy_reduction.specs.Blocks.{segment_length, arcs_in, StayBefore, LeadAtMost};

use crate::arcs::write_arc;
use daggy_base::index::{EdgeIndex, IndexType};
use daggy_base::source::EdgeSource;
use daggy_redundant::flags::flag;
use daggy_search::{Arc, BLOCK, Row, Segment, Worklist};

// The nodes at the positions of an order from `low` up to, not including, `high`.
#[derive(Clone, Copy, Drop)]
struct Block {
    low: usize,
    high: usize,
}

// Where a block begins, and a position before which no node has a child in it or after it.
#[derive(Clone, Copy, Drop)]
pub(crate) struct Start {
    pub low: usize,
    pub first: usize,
}

// The nodes of a block that a node reaches: its children, and those at the end of longer paths. And
// the position of a child after the block, or 0.
#[derive(Drop)]
struct Reached {
    direct: Row,
    indirect: Row,
    beyond: usize,
}

// The block that begins at a position, of `count` positions in all.
#[inline]
fn block_at(low: usize, count: usize) -> Block
    requires { low < count }
    ensures begins { result.low ≡ low }
    ensures some { low < result.high }
    ensures within { result.high ≤ count }
    ensures few { result.high ≤ low + 512 }
    ensures full { result.high < count → result.high ≡ low + 512 }
{
    let high = if count - low < BLOCK {
        count
    } else {
        low + BLOCK
    };
    Block { low, high }
}

// What a node without children reaches.
#[inline]
fn nothing_reached() -> Reached
    ensures direct { result.direct ≡ replicate 512 false }
    ensures indirect { result.indirect ≡ replicate 512 false }
    ensures beyond { result.beyond ≡ 0 }
{
    Reached {
        direct: Row::new(),
        indirect: Row::new(),
        beyond: 0,
    }
}

// Adds a child at the position `p`, and the nodes in its row.
#[inline]
fn reach_over(reached: &mut Reached, p: usize, block: Block, rows: &[Row])
    requires rows_fit { block.high ≤ length rows.now }
    requires few { block.high ≤ block.low + 512 }
    requires passed_on { block.low ≤ p → p < block.high
        → slice_index_or reached.old.indirect (p - block.low) false ≡ true
        → (i : ℕ) → block.low + i < block.high → HasBit rows.now p i
        → slice_index_or reached.old.indirect i false ≡ true }
    ensures direct { (i : ℕ) → block.low + i < block.high
        → (slice_index_or reached.new.direct i false ≡ true)
        ↔ ((slice_index_or reached.old.direct i false ≡ true) ⊎ (p ≡ block.low + i)) }
    ensures indirect { (i : ℕ) → block.low + i < block.high
        → (slice_index_or reached.new.indirect i false ≡ true)
        ↔ ((slice_index_or reached.old.indirect i false ≡ true)
        ⊎ ((p < block.high) × HasBit rows.now p i)) }
    ensures beyond { (block.high ≤ reached.new.beyond)
        ↔ ((block.high ≤ reached.old.beyond) ⊎ (block.high ≤ p)) }
{
    if p >= block.high {
        reached.beyond = p;
        return;
    }
    if block.low <= p {
        reached.direct.insert(p - block.low);
        // Another child reaches this one, and everything that it reaches.
        if reached.indirect.contains(p - block.low) {
            return;
        }
    }
    reached.indirect.union_with(&rows[p]);
}

// Puts the nodes of a block that a node reaches, from the rows of its children, into empty rows.
fn reach_from<Ix: IndexType, S: EdgeSource<Ix>>(
    source: &mut S,
    arcs: &[Arc<Ix>],
    segment: Segment,
    block: Block,
    rows: &[Row],
    reached: &mut Reached,
)
    requires ordered { segment.begin ≤ segment.end }
    requires inside { segment.end ≤ length arcs.now }
    requires rows_fit { block.high ≤ length rows.now }
    requires few { block.high ≤ block.low + 512 }
    requires some { 0 < block.high }
    requires none_direct { reached.old.direct ≡ replicate 512 false }
    requires none_indirect { reached.old.indirect ≡ replicate 512 false }
    requires none_beyond { reached.old.beyond ≡ 0 }
    requires passed_on { ArePassedOn arcs.now segment block.low block.high rows.now }
    ensures direct { HasBits block.low block.high
        (λ i. HasArcTo arcs.now segment (λ p. p ≡ block.low + i)) reached.new.direct }
    ensures indirect { HasBits block.low block.high
        (λ i. HasArcTo arcs.now segment (λ p. (p < block.high) × HasBit rows.now p i))
        reached.new.indirect }
    ensures beyond { (block.high ≤ reached.new.beyond)
        ↔ HasArcTo arcs.now segment (λ p. block.high ≤ p) }
    ensures same { S.graph source.new ≡ S.graph source.old }
    ensures counted { S.looks source.new ≡ S.looks source.old + (segment.end - segment.begin) }
{
    'arcs: for k in segment.begin..segment.end {
        let arc = arcs[k];
        let (place, _) = arc.look(source);
        reach_over(reached, place.index(), block, rows);
    }
}

// Whether a position is in a block and in the row.
#[inline]
fn is_in(row: &Row, block: Block, p: usize) -> bool
    requires { block.high ≤ block.low + 512 }
    ensures { result ≡ is_in_row block.low block.high row.now p }
{
    block.low <= p && p < block.high && row.contains(p - block.low)
}

// Flags the edges of a node whose children are in the row of a block, and takes them out of the
// node's segment. Returns where it ends now.
fn flag_row<Ix: IndexType, S: EdgeSource<Ix>>(
    source: &mut S,
    arcs: &mut [Arc<Ix>],
    segment: Segment,
    block: Block,
    row: &Row,
    flags: &mut [EdgeIndex<Ix>],
) -> usize
    requires ordered { segment.begin ≤ segment.end }
    requires inside { segment.end ≤ length arcs.old }
    requires real { (a : Arc Ix) → IsIn arcs.old segment a → Ix.number a.edge < Ix.greatest }
    requires flags_fit { (a : Arc Ix)
        → IsIn arcs.old segment a → Ix.number a.edge < length flags.old }
    requires few { block.high ≤ block.low + 512 }
    ensures flagged { MarksArcs Ix.greatest Ix.number arcs.old segment
        (is_in_row block.low block.high row.now)
        (map Ix.number flags.old) (map Ix.number flags.new) }
    ensures left { AreLeft (is_in_row block.low block.high row.now)
        segment result arcs.old arcs.new }
    ensures flags_kept { length flags.new ≡ length flags.old }
    ensures same { S.graph source.new ≡ S.graph source.old }
    ensures counted { S.looks source.new ≡ S.looks source.old + (segment.end - segment.begin) }
{
    let mut end = segment.begin;
    'arcs: for k in segment.begin..segment.end {
        let arc = arcs[k];
        let (place, edge) = arc.look(source);
        if is_in(row, block, place.index()) {
            flag(flags, edge);
        } else {
            write_arc(arcs, end, arc);
            end += 1;
        }
    }
    end
}

// Flags the edges of a node into a block whose children are also reachable by a longer path, and
// takes them out of the node's segment. Returns where it ends now.
fn flag_indirect<Ix: IndexType, S: EdgeSource<Ix>>(
    source: &mut S,
    arcs: &mut [Arc<Ix>],
    segment: Segment,
    block: Block,
    reached: &Reached,
    flags: &mut [EdgeIndex<Ix>],
) -> usize
    requires ordered { segment.begin ≤ segment.end }
    requires inside { segment.end ≤ length arcs.old }
    requires real { (a : Arc Ix) → IsIn arcs.old segment a → Ix.number a.edge < Ix.greatest }
    requires flags_fit { (a : Arc Ix)
        → IsIn arcs.old segment a → Ix.number a.edge < length flags.old }
    requires few { block.high ≤ block.low + 512 }
    requires direct { HasBits block.low block.high
        (λ i. HasArcTo arcs.old segment (λ p. p ≡ block.low + i)) reached.now.direct }
    ensures flagged { MarksArcs Ix.greatest Ix.number arcs.old segment
        (is_in_row block.low block.high reached.now.indirect)
        (map Ix.number flags.old) (map Ix.number flags.new) }
    ensures left { AreLeft (is_in_row block.low block.high reached.now.indirect)
        segment result arcs.old arcs.new }
    ensures flags_kept { length flags.new ≡ length flags.old }
    ensures same { S.graph source.new ≡ S.graph source.old }
    ensures looked { S.looks source.old ≤ S.looks source.new }
    ensures counted { S.looks source.new ≤ S.looks source.old + (segment.end - segment.begin) }
{
    if reached.indirect.is_disjoint(&reached.direct) {
        return segment.end;
    }
    flag_row(source, arcs, segment, block, &reached.indirect, flags)
}

// The row of all that a node reaches in a block.
#[inline]
fn union(reached: Reached) -> Row
    ensures { (i : ℕ) → (slice_index_or result i false ≡ true)
        ↔ ((slice_index_or reached.direct i false ≡ true)
        ⊎ (slice_index_or reached.indirect i false ≡ true)) }
{
    let mut row = reached.direct;
    row.union_with(&reached.indirect);
    row
}

// The position `k` of a node if it has a child after the block, and else `first`.
#[inline]
fn first_onward(first: usize, k: usize, block: Block, reached: &Reached) -> usize
    ensures this { block.high ≤ reached.now.beyond → result ≡ k }
    ensures other { reached.now.beyond < block.high → result ≡ first }
{
    if reached.beyond >= block.high {
        k
    } else {
        first
    }
}

// Flags the redundant edges into the block that begins at `start`, of the first `count` nodes of a
// worklist, takes them out of their segments, and returns where the next block begins.
//
// The nodes before the end of the block get their rows from the last one to the first that has a
// child in the block or after it: each row is the union of the children's rows and of the children
// themselves. No edge leads from an earlier node into the block, so none is redundant.
pub(crate) fn flag_block<Ix: IndexType, S: EdgeSource<Ix>>(
    source: &mut S,
    work: &Worklist<Ix>,
    arcs: &mut [Arc<Ix>],
    segments: &mut [Segment],
    start: Start,
    count: usize,
    rows: &mut [Row],
    flags: &mut [EdgeIndex<Ix>],
) -> Start
    requires well_formed { IsWellFormed Ix.greatest (S.graph source.old) }
    requires placed { IsPlaced (S.graph source.old)
        (take count work.now.nodes) work.now.cursors }
    requires listed { AreArcs Ix.number (S.graph source.old)
        (take count work.now.nodes) work.now.cursors start.low arcs.old segments.old }
    requires early { start.first ≤ start.low }
    requires before { StayBefore (S.graph source.old)
        (take count work.now.nodes) work.now.cursors start.first start.low }
    requires all { count ≤ length segments.old }
    requires more { start.low < count }
    requires within { count ≤ length work.now.nodes }
    requires places_fit { node_bound (S.graph source.old) ≤ length work.now.cursors }
    requires rows_fit { count ≤ length rows.old }
    requires flags_fit { edge_bound (S.graph source.old) ≤ length flags.old }
    ensures same { S.graph source.new ≡ S.graph source.old }
    ensures flagged { (e : ℕ) → IsFlagged Ix.greatest (map Ix.number flags.new) e
        ↔ (IsFlagged Ix.greatest (map Ix.number flags.old) e
        ⊎ LeadsInto (S.graph source.old)
        (take count work.now.nodes) work.now.cursors start.low result.low e) }
    ensures listed { AreArcs Ix.number (S.graph source.old)
        (take count work.now.nodes) work.now.cursors result.low arcs.new segments.new }
    ensures some { start.low < result.low }
    ensures last { result.low ≤ count }
    ensures few { result.low ≤ start.low + 512 }
    ensures full { result.low < count → result.low ≡ start.low + 512 }
    ensures early { result.first ≤ result.low }
    ensures before { StayBefore (S.graph source.old)
        (take count work.now.nodes) work.now.cursors result.first result.low }
    ensures near { (d : ℕ) → LeadAtMost (S.graph source.old)
        (take count work.now.nodes) work.now.cursors d → result.low ≤ result.first + d }
    ensures looked { S.looks source.old ≤ S.looks source.new }
    ensures counted { S.looks source.new + 2 * arcs_in segments.old start.first
        ≤ S.looks source.old + 2 * arcs_in segments.old result.low }
    ensures rows_kept { length rows.new ≡ length rows.old }
    ensures segments_kept { length segments.new ≡ length segments.old }
    ensures shorter { (k : ℕ) → segment_length segments.new k ≤ segment_length segments.old k }
    ensures kept { length flags.new ≡ length flags.old }
{
    let _ = work;
    let block = block_at(start.low, count);
    let mut first = block.high;
    let mut k = block.high;
    'nodes: while k > start.first {
        k -= 1;
        let segment = segments[k];
        let mut reached = nothing_reached();
        reach_from(source, arcs, segment, block, rows, &mut reached);
        first = first_onward(first, k, block, &reached);
        let end = flag_indirect(source, arcs, segment, block, &reached, flags);
        segments[k] = Segment {
            begin: segment.begin,
            end,
        };
        rows[k] = union(reached);
    }
    Start {
        low: block.high,
        first,
    }
}
