//! Breadth-first search.
ghost use Rattle.std.specs.Prelude.{◌≡◌, ◌≢◌, ℕ, ◌+◌, ◌<◌, ◌≤◌, ◌^◌, true, false, length, take, List};
ghost use Rattle.std.specs.Prelude.{slice_set, slice_index_or, ◌↔◌, Contains};
ghost use Rattle.daggy_base.specs.Graph.{node_bound, edge_count};
ghost use Rattle.daggy_base.specs.Ordered.{edges_from};
ghost use Rattle.daggy_base.specs.WellFormed.{IsWellFormed};
ghost use Rattle.daggy_search.specs.Work.{IsSized};
ghost use Rattle.daggy_redundant.specs.Closure.{IsQueue, IsClosure, MeetsChildren};

use daggy_base::index::{EdgeIndex, IndexType, NodeIndex};
use daggy_base::link::Link;
use daggy_base::source::EdgeSource;
use daggy_search::Worklist;

/// Appends a node to the queue of a worklist unless the queue contains it, and returns the new
/// length.
#[inline]
pub fn enqueue<Ix: IndexType>(work: &mut Worklist<Ix>, len: usize, n: NodeIndex<Ix>) -> usize
    requires low { Ix.number n < length work.old.entered }
    requires room { slice_index_or work.old.entered (Ix.number n) false ≡ false
        → len < length work.old.nodes }
    requires small { length work.old.nodes < 2 ^ 64 }
    ensures most { result ≤ len + 1 }
    ensures there { slice_index_or work.old.entered (Ix.number n) false ≡ true
        → (work.new ≡ work.old) × (result ≡ len) }
    ensures put { slice_index_or work.old.entered (Ix.number n) false ≡ false
        → (work.new ≡ record work.old {
          entered = slice_set work.old.entered (Ix.number n) true;
          nodes = slice_set work.old.nodes len (Ix.number n);
        }) × (result ≡ len + 1) }
{
    let i = n.index();
    if work.is_entered(i) {
        return len;
    }
    work.enter(i);
    work.put_node(len, Link::of_node(n));
    len + 1
}

/// Marks node `i`, unless the node at the head of the queue is the first one.
#[inline]
pub fn mark_unless_first<Ix: IndexType>(work: &mut Worklist<Ix>, head: usize, i: usize)
    requires { i < length work.old.marked }
    ensures later { head ≢ 0
        → work.new ≡ record work.old { marked = slice_set work.old.marked i true } }
    ensures first { head ≡ 0 → work.new ≡ work.old }
{
    if head > 0 {
        work.mark(i);
    }
}

/// Appends to the queue of a worklist, which has `len` nodes, all other nodes reachable from these,
/// breadth first, and returns its new length. The nodes in the queue are entered; the children of
/// all nodes but the first are marked.
pub fn bfs<Ix: IndexType, S: EdgeSource<Ix>>(
    source: &mut S,
    work: &mut Worklist<Ix>,
    len: usize,
) -> usize
    requires well_formed { IsWellFormed Ix.greatest (S.graph source.old) }
    requires some { 0 < len }
    requires within { len ≤ work.old.size }
    requires queued { IsQueue (S.graph source.old) work.old.entered (take len work.old.nodes) }
    requires fits { node_bound (S.graph source.old) ≤ work.old.size }
    requires sized { IsSized work.old.size work.old }
    ensures same { S.graph source.new ≡ S.graph source.old }
    ensures closed { IsClosure (S.graph source.old)
        (take len work.old.nodes) (take result work.new.nodes) }
    ensures met { MeetsChildren (S.graph source.old)
        (take result work.new.nodes) work.old.marked work.new.marked }
    ensures entered { (n : ℕ) → (slice_index_or work.new.entered n false ≡ true)
        ↔ Contains (take result work.new.nodes) n }
    ensures looked { S.looks source.old ≤ S.looks source.new }
    ensures counted { S.looks source.new ≤ S.looks source.old + edge_count (S.graph source.old) }
    ensures visited { (ns : List ℕ)
        → ((n : ℕ) → Contains (take result work.new.nodes) n → Contains ns n)
        → S.looks source.new ≤ S.looks source.old + edges_from (S.graph source.old) ns }
    ensures within { result ≤ work.old.size }
    ensures kept { IsSized work.old.size work.new }
    ensures aside { work.new.cursors ≡ work.old.cursors }
{
    let end = EdgeIndex::<Ix>::end().index();
    let mut len = len;
    let mut head = 0;
    let mut e = source.first(work.node(0).node());
    'steps: loop {
        if e.index() == end {
            head += 1;
            if head == len {
                return len;
            }
            e = source.first(work.node(head).node());
        } else {
            let (v, next) = source.look(e);
            len = enqueue(work, len, v);
            mark_unless_first(work, head, v.index());
            e = next;
        }
    }
}
