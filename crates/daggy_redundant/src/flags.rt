//! Flags of edges in a list of indices: a flagged edge has its own index there, any other edge
//! `end`.
ghost use Rattle.std.specs.Prelude.{◌≡◌, ℕ, ◌+◌, ◌<◌, ◌≤◌, true, false, map, length, take};
ghost use Rattle.std.specs.Prelude.{slice_set, slice_index_or};
ghost use Rattle.daggy_base.specs.Graph.{out_list, node_bound, edge_bound};
ghost use Rattle.daggy_base.specs.WellFormed.{IsWellFormed};
ghost use Rattle.daggy_redundant.specs.Flags.{IsFlagged, FlagsMarked, flagged_below};

use daggy_base::index::{EdgeIndex, IndexType, NodeIndex};
use daggy_base::source::EdgeSource;
use daggy_search::Worklist;

/// Clears all flags.
pub fn unflag<Ix: IndexType>(flags: &mut [EdgeIndex<Ix>])
    ensures none { (e : ℕ) → ¬ IsFlagged Ix.greatest (map Ix.number flags.new) e }
    ensures kept { length flags.new ≡ length flags.old }
{
    let mut i = 0;
    'places: while i < flags.len() {
        flags[i] = EdgeIndex::end();
        i += 1;
    }
}

/// Flags an edge.
#[inline]
pub fn flag<Ix: IndexType>(flags: &mut [EdgeIndex<Ix>], e: EdgeIndex<Ix>)
    requires { Ix.number e < length flags.old }
    ensures flagged { map Ix.number flags.new
        ≡ slice_set (map Ix.number flags.old) (Ix.number e) (Ix.number e) }
    ensures kept { length flags.new ≡ length flags.old }
{
    flags[e.index()] = e;
}

// Flags an edge if its child is marked.
#[inline]
fn flag_if_marked<Ix: IndexType>(
    flags: &mut [EdgeIndex<Ix>],
    e: EdgeIndex<Ix>,
    work: &Worklist<Ix>,
    child: NodeIndex<Ix>,
)
    requires edge { Ix.number e < length flags.old }
    requires child { Ix.number child < length work.now.marked }
    ensures flagged { slice_index_or work.now.marked (Ix.number child) false ≡ true
        → map Ix.number flags.new
        ≡ slice_set (map Ix.number flags.old) (Ix.number e) (Ix.number e) }
    ensures passed { slice_index_or work.now.marked (Ix.number child) false ≡ false
        → map Ix.number flags.new ≡ map Ix.number flags.old }
    ensures kept { length flags.new ≡ length flags.old }
{
    if work.is_marked(child.index()) {
        flag(flags, e);
    }
}

/// Flags the edges that lead from `u` to a marked child.
pub fn flag_marked<Ix: IndexType, S: EdgeSource<Ix>>(
    source: &mut S,
    u: NodeIndex<Ix>,
    work: &Worklist<Ix>,
    flags: &mut [EdgeIndex<Ix>],
)
    requires well_formed { IsWellFormed Ix.greatest (S.graph source.old) }
    requires marks_fit { node_bound (S.graph source.old) ≤ length work.now.marked }
    requires flags_fit { edge_bound (S.graph source.old) ≤ length flags.old }
    ensures same { S.graph source.new ≡ S.graph source.old }
    ensures flagged { FlagsMarked Ix.greatest (S.graph source.old) (Ix.number u) work.now.marked
        (map Ix.number flags.old) (map Ix.number flags.new) }
    ensures counted { S.looks source.new
        ≡ S.looks source.old + length (out_list (S.graph source.old) (Ix.number u)) }
    ensures kept { length flags.new ≡ length flags.old }
{
    let end = EdgeIndex::<Ix>::end().index();
    let mut e = source.first(u);
    'edges: while e.index() != end {
        let (v, next) = source.look(e);
        flag_if_marked(flags, e, work, v);
        e = next;
    }
}

/// Moves the indices of the flagged edges to the front, in ascending order, and returns how many
/// there are. This overwrites the flags.
pub fn collect_flags<Ix: IndexType>(flags: &mut [EdgeIndex<Ix>], bound: usize) -> usize
    requires within { bound ≤ length flags.old }
    requires real { bound ≤ Ix.greatest }
    ensures gathered { take result (map Ix.number flags.new)
        ≡ flagged_below Ix.greatest (map Ix.number flags.old) bound }
    ensures within { result ≤ bound }
    ensures kept { length flags.new ≡ length flags.old }
{
    let end = EdgeIndex::<Ix>::end().index();
    let mut len = 0;
    let mut i = 0;
    'places: while i < bound {
        if flags[i].index() != end {
            flags[len] = EdgeIndex::new(i);
            len += 1;
        }
        i += 1;
    }
    len
}
