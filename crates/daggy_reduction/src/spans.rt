//! The number of edges that searches would read, computed from the endpoints of all edges.
ghost use Rattle.std.specs.Prelude.{◌≡◌, ◌≢◌, ℕ, ◌+◌, ◌<◌, ◌≤◌, ◌⊎◌, length, take, Contains, IsTrue};
ghost use Rattle.std.specs.Prelude.{slice_index, slice_index_or, slice_set};
ghost use Rattle.daggy_base.specs.Graph.{node_bound, edge_count, out_list};
ghost use Rattle.daggy_base.specs.Path.{AreJoined};
ghost use Rattle.daggy_base.specs.Ordered.{IsOrderOf, place};
ghost use Rattle.daggy_base.specs.WellFormed.{AreDistinct};
ghost use Rattle.daggy_search.specs.Work.{IsSized};
ghost use Rattle.daggy_reduction.specs.SearchSpan.{all_spanned, SpansAtMost};
ghost use Rattle.daggy_reduction.specs.Spans.{sum_at, AreLastChildren};

use daggy_base::index::{EdgeIndex, IndexType, NodeIndex};
use daggy_base::link::Link;
use daggy_base::source::IndexedSource;
use daggy_order::order::Order;
use daggy_search::{BLOCK, Worklist};

// Resets the nodes to `end`, and the cursors to 0.
fn reset<Ix: IndexType>(work: &mut Worklist<Ix>)
    requires { IsSized work.old.size work.old }
    ensures nodes { (n : ℕ) → slice_index_or work.new.nodes n Ix.greatest ≡ Ix.greatest }
    ensures cursors { (n : ℕ) → slice_index work.new.cursors n ≡ 0 }
    ensures kept { IsSized work.old.size work.new }
{
    let end = Link::end();
    let mut i = 0;
    'entries: while i < work.len() {
        work.put_node(i, end);
        work.put_cursor(i, Link::new(0));
        i += 1;
    }
}

// Counts an edge from `a` to `b` in the cursor of `a`, whose node becomes `b` unless a later child
// of `a` is there.
#[inline]
fn note_edge<Ix: IndexType>(
    order: &Order<Ix>,
    a: NodeIndex<Ix>,
    b: NodeIndex<Ix>,
    work: &mut Worklist<Ix>,
)
    requires low { Ix.number a < work.old.size }
    requires sized { IsSized work.old.size work.old }
    requires few { slice_index work.old.cursors (Ix.number a) < Ix.greatest }
    requires held { Contains order.now (Ix.number b) }
    requires real { Ix.number b < Ix.greatest }
    requires last_held { (slice_index_or work.old.nodes (Ix.number a) Ix.greatest ≡ Ix.greatest)
        ⊎ Contains order.now (slice_index_or work.old.nodes (Ix.number a) Ix.greatest) }
    ensures counted { work.new.cursors ≡ slice_set work.old.cursors (Ix.number a)
        (slice_index work.old.cursors (Ix.number a) + 1) }
    ensures child { (work.new.nodes ≡ work.old.nodes)
        ⊎ (work.new.nodes ≡ slice_set work.old.nodes (Ix.number a) (Ix.number b)) }
    ensures some { slice_index_or work.new.nodes (Ix.number a) Ix.greatest ≢ Ix.greatest }
    ensures later { (v : ℕ)
        → (v ≡ Ix.number b) ⊎ ((slice_index_or work.old.nodes (Ix.number a) Ix.greatest ≡ v) × (v ≢ Ix.greatest))
        → place order.now v
        ≤ place order.now (slice_index_or work.new.nodes (Ix.number a) Ix.greatest) }
    ensures kept { IsSized work.old.size work.new }
{
    let i = a.index();
    let count = work.cursor(i).index();
    work.put_cursor(i, Link::new(count + 1));
    let last = work.node(i);
    if last.index() == Link::<Ix>::end().index() || order.stands_before(last.node(), b) {
        work.put_node(i, Link::of_node(b));
    }
}

// Notes how many edges leave each node, and the last child of each.
fn note_edges<Ix: IndexType, S: IndexedSource<Ix>>(
    source: &mut S,
    order: &Order<Ix>,
    work: &mut Worklist<Ix>,
)
    requires ordered { IsOrderOf (S.graph source.old) order.now }
    requires fits { node_bound (S.graph source.old) ≤ work.old.size }
    ensures same { S.graph source.new ≡ S.graph source.old }
    ensures degrees { (n : ℕ)
        → slice_index work.new.cursors n ≤ length (out_list (S.graph source.old) n) }
    ensures children { (n : ℕ) → (slice_index_or work.new.nodes n Ix.greatest ≡ Ix.greatest)
        ⊎ AreJoined (S.graph source.old) n (slice_index_or work.new.nodes n Ix.greatest) }
    ensures last { AreLastChildren (S.graph source.old) order.now Ix.greatest work.new.nodes }
    ensures looked { S.looks source.old ≤ S.looks source.new }
    ensures counted { S.looks source.new ≤ S.looks source.old + edge_count (S.graph source.old) }
    ensures kept { IsSized work.old.size work.new }
{
    let _well_formed = source.node_bound();
    work.begin();
    reset(work);
    let bound = source.edge_bound();
    let mut e = 0;
    'edges: while e < bound {
        if let Some((a, b)) = source.look_at(EdgeIndex::new(e)) {
            note_edge(order, a, b, work);
        }
        e += 1;
    }
}

// Replaces the count at each node by the sum of the counts before it in the order.
fn sum_before<Ix: IndexType>(order: &Order<Ix>, work: &mut Worklist<Ix>)
    requires distinct { AreDistinct order.now }
    requires low { (n : ℕ) → Contains order.now n → n < work.old.size }
    requires few { sum_at work.old.cursors order.now ≤ Ix.greatest }
    requires sized { IsSized work.old.size work.old }
    ensures sums { (n : ℕ) → Contains order.now n → slice_index work.new.cursors n
        ≡ sum_at work.old.cursors (take (place order.now n) order.now) }
    ensures same { work.new.nodes ≡ work.old.nodes }
    ensures kept { IsSized work.old.size work.new }
{
    let mut sum = 0;
    'nodes: for n in order.nodes() {
        let i = n.index();
        let count = work.cursor(i).index();
        work.put_cursor(i, Link::new(sum));
        sum += count;
    }
}

// The sum, over all nodes, of the number of edges that leave the nodes from that node up to its
// last child; the greatest number if the sum is greater. The nodes of the worklist become the last
// children.
pub(crate) fn spanned<Ix: IndexType, S: IndexedSource<Ix>>(
    source: &mut S,
    order: &Order<Ix>,
    work: &mut Worklist<Ix>,
) -> usize
    requires ordered { IsOrderOf (S.graph source.old) order.now }
    requires fits { node_bound (S.graph source.old) ≤ work.old.size }
    ensures same { S.graph source.new ≡ S.graph source.old }
    ensures most { result ≤ all_spanned (S.graph source.old) order.now order.now }
    ensures last { AreLastChildren (S.graph source.old) order.now Ix.greatest work.new.nodes }
    ensures looked { S.looks source.old ≤ S.looks source.new }
    ensures counted { S.looks source.new ≤ S.looks source.old + edge_count (S.graph source.old) }
    ensures kept { IsSized work.old.size work.new }
{
    let _well_formed = source.node_bound();
    note_edges(source, order, work);
    sum_before(order, work);
    let end = Link::<Ix>::end().index();
    let mut sum = 0usize;
    'nodes: for n in order.nodes() {
        let i = n.index();
        let last = work.node(i).index();
        if last != end {
            sum = sum.saturating_add(work.cursor(last).index() - work.cursor(i).index());
        }
    }
    sum
}

// Makes the position of each node its cursor.
fn number_nodes<Ix: IndexType>(order: &Order<Ix>, work: &mut Worklist<Ix>)
    requires distinct { AreDistinct order.now }
    requires low { (n : ℕ) → Contains order.now n → n < work.old.size }
    requires few { length order.now ≤ Ix.greatest }
    requires sized { IsSized work.old.size work.old }
    ensures places { (n : ℕ)
        → Contains order.now n → slice_index work.new.cursors n ≡ place order.now n }
    ensures same { work.new.nodes ≡ work.old.nodes }
    ensures kept { IsSized work.old.size work.new }
{
    let mut k = 0;
    'nodes: for n in order.nodes() {
        work.put_cursor(n.index(), Link::new(k));
        k += 1;
    }
}

// Whether each edge leads at most a block's length on. The nodes of the worklist are the last
// children. Out of line, since few graphs are asked.
#[inline(never)]
pub(crate) fn is_near<Ix: IndexType, S: IndexedSource<Ix>>(
    source: &S,
    order: &Order<Ix>,
    work: &mut Worklist<Ix>,
) -> bool
    requires ordered { IsOrderOf (S.graph source.now) order.now }
    requires fits { node_bound (S.graph source.now) ≤ work.old.size }
    requires sized { IsSized work.old.size work.old }
    requires last { AreLastChildren (S.graph source.now) order.now Ix.greatest work.old.nodes }
    ensures near { IsTrue result → SpansAtMost (S.graph source.now) order.now 512 }
    ensures kept { work.new.size ≡ work.old.size }
{
    let _well_formed = source.node_bound();
    number_nodes(order, work);
    let end = Link::<Ix>::end().index();
    'nodes: for i in 0..work.len() {
        let last = work.node(i).index();
        if last != end && work.cursor(last).index() - work.cursor(i).index() > BLOCK {
            return false;
        }
    }
    true
}
