//! The nodes reachable from given roots.
ghost use Rattle.std.specs.Prelude.{◌≡◌, ℕ, ◌+◌, ◌≤◌, ◌↔◌, true, false, map, take, List};
ghost use Rattle.std.specs.Prelude.{slice_index_or, Contains};
ghost use Rattle.daggy_base.specs.Graph.{HasNode, node_bound, edge_count};
ghost use Rattle.daggy_base.specs.Ordered.{edges_from};
ghost use Rattle.daggy_base.specs.Reduction.{IsBelow};
ghost use Rattle.daggy_base.specs.WellFormed.{IsWellFormed, AreDistinct};
ghost use Rattle.daggy_search.specs.Work.{IsSized, IsCleared};
ghost use Rattle.daggy_redundant.specs.Closure.{IsQueue};

use crate::bfs::{bfs, enqueue};
use daggy_base::index::{IndexType, NodeIndex};
use daggy_base::source::EdgeSource;
use daggy_search::Worklist;

// Queues the roots that exist, and returns how many there are.
fn enter_roots<Ix: IndexType, S: EdgeSource<Ix>>(
    source: &S,
    roots: &[NodeIndex<Ix>],
    work: &mut Worklist<Ix>,
) -> usize
    requires fits { node_bound (S.graph source.now) ≤ work.old.size }
    requires sized { IsSized work.old.size work.old }
    requires cleared { IsCleared work.old }
    ensures queued { IsQueue (S.graph source.now) work.new.entered (take result work.new.nodes) }
    ensures exact { (n : ℕ) → Contains (take result work.new.nodes) n
        ↔ (Contains (map Ix.number roots.now) n × HasNode (S.graph source.now) n) }
    ensures within { result ≤ work.old.size }
    ensures kept { IsSized work.old.size work.new }
{
    let mut len = 0;
    let mut k = 0;
    'roots: while k < roots.len() {
        let root = roots[k];
        if source.contains_node(root) {
            len = enqueue(work, len, root);
        }
        k += 1;
    }
    len
}

/// Queues all nodes reachable from the existing roots, and returns how many there are.
pub fn queue_below<Ix: IndexType, S: EdgeSource<Ix>>(
    source: &mut S,
    roots: &[NodeIndex<Ix>],
    work: &mut Worklist<Ix>,
) -> usize
    requires well_formed { IsWellFormed Ix.greatest (S.graph source.old) }
    requires fits { node_bound (S.graph source.old) ≤ work.old.size }
    ensures same { S.graph source.new ≡ S.graph source.old }
    ensures below { (n : ℕ)
        → Contains (take result work.new.nodes) n
        ↔ IsBelow (S.graph source.old) (map Ix.number roots.now) n }
    ensures distinct { AreDistinct (take result work.new.nodes) }
    ensures entered { (n : ℕ) → (slice_index_or work.new.entered n false ≡ true)
        ↔ IsBelow (S.graph source.old) (map Ix.number roots.now) n }
    ensures looked { S.looks source.old ≤ S.looks source.new }
    ensures counted { S.looks source.new ≤ S.looks source.old + edge_count (S.graph source.old) }
    ensures visited { (ns : List ℕ)
        → ((n : ℕ) → IsBelow (S.graph source.old) (map Ix.number roots.now) n → Contains ns n)
        → S.looks source.new ≤ S.looks source.old + edges_from (S.graph source.old) ns }
    ensures within { result ≤ work.old.size }
    ensures kept { IsSized work.old.size work.new }
{
    work.begin();
    let len = enter_roots(source, roots, work);
    if len == 0 {
        return 0;
    }
    // All nodes are roots, so there are no others to find.
    if len == source.node_bound() {
        return len;
    }
    bfs(source, work, len)
}

// Copies the first `count` nodes of a worklist over its first cursors.
fn lay_aside<Ix: IndexType>(work: &mut Worklist<Ix>, count: usize)
    requires within { count ≤ work.old.size }
    requires sized { IsSized work.old.size work.old }
    ensures aside { take count work.new.cursors ≡ take count work.old.nodes }
    ensures kept { IsSized work.old.size work.new }
{
    let mut k = 0;
    'nodes: while k < count {
        work.put_cursor(k, work.node(k));
        k += 1;
    }
}

/// Writes all nodes reachable from the existing roots to the first cursors, and returns how many
/// there are.
pub fn enter_below<Ix: IndexType, S: EdgeSource<Ix>>(
    source: &mut S,
    roots: &[NodeIndex<Ix>],
    work: &mut Worklist<Ix>,
) -> usize
    requires well_formed { IsWellFormed Ix.greatest (S.graph source.old) }
    requires fits { node_bound (S.graph source.old) ≤ work.old.size }
    ensures same { S.graph source.new ≡ S.graph source.old }
    ensures below { (n : ℕ)
        → Contains (take result work.new.cursors) n
        ↔ IsBelow (S.graph source.old) (map Ix.number roots.now) n }
    ensures distinct { AreDistinct (take result work.new.cursors) }
    ensures looked { S.looks source.old ≤ S.looks source.new }
    ensures counted { S.looks source.new ≤ S.looks source.old + edge_count (S.graph source.old) }
    ensures within { result ≤ work.old.size }
    ensures kept { IsSized work.old.size work.new }
{
    let len = queue_below(source, roots, work);
    lay_aside(work, len);
    len
}
