//! Whether redundant edges are found by searches or by blocks.
ghost use Rattle.std.specs.Prelude.{◌≡◌, ℕ, ◌+◌, ◌*◌, ◌<◌, ◌≤◌, ◌↔◌, ◌⊎◌, map, length, take, Contains, IsTrue};
ghost use Rattle.daggy_base.specs.Graph.{node_bound, edge_bound, node_count, edge_count};
ghost use Rattle.daggy_base.specs.Ordered.{IsOrderOf};
ghost use Rattle.daggy_base.specs.Reduction.{IsRedundant};
ghost use Rattle.daggy_redundant.specs.Comparison.{IsAscending};
ghost use Rattle.daggy_reduction.specs.SearchSpan.{all_spanned, SpansAtMost};
ghost use Rattle.daggy_reduction.specs.Blocks.{blocks_of};

use crate::arcs::ByIndex;
use crate::blocks::leave_redundant_by_blocks;
use crate::bounded::leave_redundant_in;
use crate::spans::{is_near, spanned};
use daggy_base::index::{IndexType, NodeIndex};
use daggy_base::source::IndexedSource;
use daggy_order::order::Order;
use daggy_search::{BLOCK, Scratch, Worklist};

// An estimate of how many nodes a search reaches in a random graph of this size: 8^c, if c edges
// leave a node on average.
fn nodes_reached(nodes: usize, edges: usize) -> usize {
    let exponent = edges.saturating_mul(3) / nodes.max(1);
    1 << exponent.min(62)
}

// Whether blocks take fewer edge reads than searches are expected to take. A search stays before
// the last child of its node, and reaches about `nodes_reached` nodes if there are as many. The
// blocks read each edge at most twice for each block, and at most four times if each edge leads at
// most a block's length on. They are not for fewer than four nodes, where the passes that list the
// edges read more edges than searches do.
fn blocks_pay<Ix: IndexType, S: IndexedSource<Ix>>(
    source: &mut S,
    order: &Order<Ix>,
    work: &mut Worklist<Ix>,
    nodes: usize,
    edges: usize,
) -> bool
    requires ordered { IsOrderOf (S.graph source.old) order.now }
    requires fits { node_bound (S.graph source.old) ≤ work.old.size }
    requires nodes_are { nodes ≡ node_count (S.graph source.old) }
    requires edges_are { edges ≡ edge_count (S.graph source.old) }
    ensures same { S.graph source.new ≡ S.graph source.old }
    ensures many { IsTrue result → 4 ≤ node_count (S.graph source.old) }
    ensures fewer { IsTrue result → (2 * blocks_of (node_count (S.graph source.old))
        * edge_count (S.graph source.old) ≤ all_spanned (S.graph source.old) order.now order.now)
        ⊎ (SpansAtMost (S.graph source.old) order.now 512
        × (4 * edge_count (S.graph source.old)
        ≤ all_spanned (S.graph source.old) order.now order.now)) }
    ensures looked { S.looks source.old ≤ S.looks source.new }
    ensures counted { S.looks source.new ≤ S.looks source.old + edge_count (S.graph source.old) }
    ensures unlooked { node_count (S.graph source.old) < 4 → S.looks source.new ≡ S.looks source.old }
    ensures kept { work.new.size ≡ work.old.size }
{
    let looks = (nodes / BLOCK + 1).saturating_mul(edges.saturating_mul(2));
    if nodes < 4 || edges.saturating_mul(nodes_reached(nodes, edges)) <= looks {
        return false;
    }
    let most = spanned(source, order, work);
    if looks < most {
        return true;
    }
    edges.saturating_mul(4) < most && is_near(source, order, work)
}

// The same as `leave_redundant_in`, by blocks if they pay and there is memory for their rows.
// `nodes` and `edges` are the numbers of nodes and edges.
pub(crate) fn leave_redundant_either_way<Ix: IndexType, S: IndexedSource<Ix>>(
    source: &mut S,
    order: &Order<Ix>,
    roots: &[NodeIndex<Ix>],
    scratch: &mut Scratch<Ix>,
    nodes: usize,
    edges: usize,
) -> usize
    requires ordered { IsOrderOf (S.graph source.old) order.now }
    requires nodes_fit { node_bound (S.graph source.old) ≤ scratch.old.nodes }
    requires edges_fit { edge_bound (S.graph source.old) ≤ scratch.old.edges }
    requires nodes_are { nodes ≡ node_count (S.graph source.old) }
    requires edges_are { edges ≡ edge_count (S.graph source.old) }
    ensures same { S.graph source.new ≡ S.graph source.old }
    ensures within { result ≤ length scratch.new.found }
    ensures ascending { IsAscending (map Ix.number (take result scratch.new.found)) }
    ensures exact { (e : ℕ) → Contains (map Ix.number (take result scratch.new.found)) e
        ↔ IsRedundant (S.graph source.old) (map Ix.number roots.now) e }
    ensures looked { S.looks source.old ≤ S.looks source.new }
    ensures counted { S.looks source.new ≤ S.looks source.old
        + (node_count (S.graph source.old) + 2) * edge_count (S.graph source.old) }
    ensures spanned { S.looks source.new ≤ S.looks source.old
        + 4 * edge_count (S.graph source.old)
        + all_spanned (S.graph source.old) order.now order.now }
    ensures nodes_kept { scratch.new.nodes ≡ scratch.old.nodes }
    ensures edges_kept { scratch.new.edges ≡ scratch.old.edges }
{
    let bound = source.node_bound();
    if blocks_pay(source, order, &mut scratch.work, nodes, edges) {
        if scratch.reserve_rows(bound).is_ok() {
            return leave_redundant_by_blocks::<Ix, S, ByIndex>(source, order, roots, scratch);
        }
    }
    leave_redundant_in(source, order, roots, scratch)
}
