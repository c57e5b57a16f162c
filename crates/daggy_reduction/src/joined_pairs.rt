//! Whether the same pairs of nodes are adjacent in two graphs.
ghost use Rattle.std.specs.Prelude.{◌≡◌, ℕ, ◌+◌, ◌*◌, ◌≤◌, ◌↔◌, ◌⊎◌, true, false, length};
ghost use Rattle.std.specs.Prelude.{slice_index_or, IsTrue};
ghost use Rattle.daggy_base.specs.Graph.{node_bound, edge_count, out_list};
ghost use Rattle.daggy_base.specs.Path.{AreJoined};
ghost use Rattle.daggy_base.specs.WellFormed.{IsWellFormed};
ghost use Rattle.daggy_redundant.specs.Comparison.{JoinsAll, JoinSamePairs};

use daggy_base::index::{EdgeIndex, IndexType, NodeIndex};
use daggy_base::source::EdgeSource;
use daggy_search::Worklist;

// Marks the children of a node.
fn mark_children<Ix: IndexType, S: EdgeSource<Ix>>(
    source: &mut S,
    u: NodeIndex<Ix>,
    work: &mut Worklist<Ix>,
)
    requires well_formed { IsWellFormed Ix.greatest (S.graph source.old) }
    requires fits { node_bound (S.graph source.old) ≤ length work.old.marked }
    ensures same { S.graph source.new ≡ S.graph source.old }
    ensures marked { (n : ℕ) → (slice_index_or work.new.marked n false ≡ true)
        ↔ ((slice_index_or work.old.marked n false ≡ true)
        ⊎ AreJoined (S.graph source.old) (Ix.number u) n) }
    ensures counted { S.looks source.new
        ≡ S.looks source.old + length (out_list (S.graph source.old) (Ix.number u)) }
    ensures kept { length work.new.marked ≡ length work.old.marked }
    ensures size { work.new.size ≡ work.old.size }
{
    let end = EdgeIndex::<Ix>::end().index();
    let mut e = source.first(u);
    'edges: while e.index() != end {
        let (v, next) = source.look(e);
        work.mark(v.index());
        e = next;
    }
}

// Whether all children of a node are marked.
fn are_children_marked<Ix: IndexType, S: EdgeSource<Ix>>(
    source: &mut S,
    u: NodeIndex<Ix>,
    work: &Worklist<Ix>,
) -> bool
    requires well_formed { IsWellFormed Ix.greatest (S.graph source.old) }
    requires fits { node_bound (S.graph source.old) ≤ length work.now.marked }
    ensures same { S.graph source.new ≡ S.graph source.old }
    ensures decided { IsTrue result
        ↔ ((n : ℕ) → AreJoined (S.graph source.old) (Ix.number u) n
        → slice_index_or work.now.marked n false ≡ true) }
    ensures looked { S.looks source.old ≤ S.looks source.new }
    ensures counted { S.looks source.new
        ≤ S.looks source.old + length (out_list (S.graph source.old) (Ix.number u)) }
{
    let end = EdgeIndex::<Ix>::end().index();
    let mut e = source.first(u);
    'edges: while e.index() != end {
        let (v, next) = source.look(e);
        if !work.is_marked(v.index()) {
            return false;
        }
        e = next;
    }
    true
}

// Whether all adjacent pairs of one graph are adjacent in another.
fn joins_all<Ix: IndexType, A: EdgeSource<Ix>, B: EdgeSource<Ix>>(
    a: &mut A,
    b: &mut B,
    work: &mut Worklist<Ix>,
) -> bool
    requires fits { node_bound (A.graph a.old) ≤ work.old.size }
    requires other_fits { node_bound (B.graph b.old) ≤ work.old.size }
    ensures decided { IsTrue result ↔ JoinsAll (A.graph a.old) (B.graph b.old) }
    ensures same { A.graph a.new ≡ A.graph a.old }
    ensures other_same { B.graph b.new ≡ B.graph b.old }
    ensures looked { A.looks a.old ≤ A.looks a.new }
    ensures other_looked { B.looks b.old ≤ B.looks b.new }
    ensures counted { A.looks a.new ≤ A.looks a.old + edge_count (A.graph a.old) }
    ensures other_counted { B.looks b.new ≤ B.looks b.old + edge_count (B.graph b.old) }
    ensures kept { work.new.size ≡ work.old.size }
{
    let bound = a.node_bound();
    let _well_formed = b.node_bound();
    let mut n = 0;
    'nodes: while n < bound {
        let u = NodeIndex::new(n);
        work.begin();
        mark_children(b, u, work);
        if !are_children_marked(a, u, work) {
            return false;
        }
        n += 1;
    }
    true
}

/// Whether the same pairs of nodes are adjacent in two graphs. The worklist must have memory for
/// the nodes of both.
///
/// # Complexity
///
/// O(nodes + edges) of both graphs: reads each edge at most twice. Does not allocate.
pub fn join_same_pairs<Ix: IndexType, A: EdgeSource<Ix>, B: EdgeSource<Ix>>(
    a: &mut A,
    b: &mut B,
    work: &mut Worklist<Ix>,
) -> bool
    requires fits { node_bound (A.graph a.old) ≤ work.old.size }
    requires other_fits { node_bound (B.graph b.old) ≤ work.old.size }
    ensures decided { IsTrue result ↔ JoinSamePairs (A.graph a.old) (B.graph b.old) }
    ensures same { A.graph a.new ≡ A.graph a.old }
    ensures other_same { B.graph b.new ≡ B.graph b.old }
    ensures looked { A.looks a.old ≤ A.looks a.new }
    ensures other_looked { B.looks b.old ≤ B.looks b.new }
    ensures counted { A.looks a.new ≤ A.looks a.old + 2 * edge_count (A.graph a.old) }
    ensures other_counted { B.looks b.new ≤ B.looks b.old + 2 * edge_count (B.graph b.old) }
{
    if !joins_all(a, b, work) {
        return false;
    }
    joins_all(b, a, work)
}
