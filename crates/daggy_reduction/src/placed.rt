//! The nodes reachable from given roots, in a topological order.
ghost use Rattle.std.specs.Prelude.{◌≡◌, ℕ, ◌+◌, ◌<◌, ◌≤◌, ◌↔◌, true, false, map, length, take};
ghost use Rattle.std.specs.Prelude.{filter, slice_index, slice_index_or, slice_set, Contains};
ghost use Rattle.daggy_base.specs.Graph.{node_bound, node_count, edge_count};
ghost use Rattle.daggy_base.specs.Ordered.{IsOrderOf};
ghost use Rattle.daggy_base.specs.Reduction.{IsBelow};
ghost use Rattle.daggy_base.specs.WellFormed.{IsWellFormed, AreDistinct};
ghost use Rattle.daggy_search.specs.Work.{IsSized};
ghost use Rattle.daggy_reduction.specs.Blocks.{IsPlaced, LeadAtMost};
ghost use Rattle.daggy_reduction.specs.SearchSpan.{SpansAtMost};

use daggy_base::index::{IndexType, NodeIndex};
use daggy_base::link::Link;
use daggy_base::source::EdgeSource;
use daggy_order::order::Order;
use daggy_redundant::roots::queue_below;
use daggy_search::Worklist;

// Appends a node to the list of a worklist if it is entered, with its position as its cursor, and
// returns the new length. The cursor of any other node becomes `end`.
#[inline]
fn list_if_entered<Ix: IndexType>(work: &mut Worklist<Ix>, len: usize, n: NodeIndex<Ix>) -> usize
    requires low { Ix.number n < work.old.size }
    requires room { len < work.old.size }
    requires real { len ≤ Ix.greatest }
    requires sized { IsSized work.old.size work.old }
    ensures passed { slice_index_or work.old.entered (Ix.number n) false ≡ false
        → (work.new ≡ record work.old {
          cursors = slice_set work.old.cursors (Ix.number n) Ix.greatest;
        }) × (result ≡ len) }
    ensures put { slice_index_or work.old.entered (Ix.number n) false ≡ true
        → (work.new ≡ record work.old {
          nodes = slice_set work.old.nodes len (Ix.number n);
          cursors = slice_set work.old.cursors (Ix.number n) len;
        }) × (result ≡ len + 1) }
{
    let i = n.index();
    if !work.is_entered(i) {
        work.put_cursor(i, Link::end());
        return len;
    }
    work.put_node(len, Link::of_node(n));
    work.put_cursor(i, Link::new(len));
    len + 1
}

// Lists the entered nodes of an order, each with its position as its cursor, and returns how many
// there are. The cursors of the other nodes of the order are not positions in this list.
fn list_entered<Ix: IndexType>(order: &Order<Ix>, work: &mut Worklist<Ix>) -> usize
    requires distinct { AreDistinct order.now }
    requires low { (n : ℕ) → Contains order.now n → n < work.old.size }
    requires fits { length order.now ≤ work.old.size }
    requires real { length order.now ≤ Ix.greatest }
    requires sized { IsSized work.old.size work.old }
    ensures listed { take result work.new.nodes
        ≡ filter (λ n. slice_index_or work.old.entered n false) order.now }
    ensures placed { (k : ℕ) → k < result
        → slice_index work.new.cursors (slice_index work.new.nodes k) ≡ k }
    ensures elsewhere { (n : ℕ) → Contains order.now n → slice_index work.new.cursors n < result
        → slice_index work.new.nodes (slice_index work.new.cursors n) ≡ n }
    ensures within { result ≤ length order.now }
    ensures kept { IsSized work.old.size work.new }
{
    let mut len = 0;
    'nodes: for n in order.nodes() {
        len = list_if_entered(work, len, n);
    }
    len
}

// Lists all nodes reachable from the existing roots in their order, each with its position as its
// cursor, and returns how many there are.
pub(crate) fn list_below<Ix: IndexType, S: EdgeSource<Ix>>(
    source: &mut S,
    order: &Order<Ix>,
    roots: &[NodeIndex<Ix>],
    work: &mut Worklist<Ix>,
) -> usize
    requires well_formed { IsWellFormed Ix.greatest (S.graph source.old) }
    requires ordered { IsOrderOf (S.graph source.old) order.now }
    requires fits { node_bound (S.graph source.old) ≤ work.old.size }
    ensures same { S.graph source.new ≡ S.graph source.old }
    ensures below { (n : ℕ)
        → Contains (take result work.new.nodes) n
        ↔ IsBelow (S.graph source.old) (map Ix.number roots.now) n }
    ensures placed { IsPlaced (S.graph source.old)
        (take result work.new.nodes) work.new.cursors }
    ensures near { (d : ℕ) → SpansAtMost (S.graph source.old) order.now d
        → LeadAtMost (S.graph source.old) (take result work.new.nodes) work.new.cursors d }
    ensures few { result ≤ node_count (S.graph source.old) }
    ensures low { result ≤ node_bound (S.graph source.old) }
    ensures looked { S.looks source.old ≤ S.looks source.new }
    ensures counted { S.looks source.new ≤ S.looks source.old + edge_count (S.graph source.old) }
    ensures kept { IsSized work.old.size work.new }
{
    queue_below(source, roots, work);
    list_entered(order, work)
}
