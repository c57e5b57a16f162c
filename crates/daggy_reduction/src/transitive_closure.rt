//! The transitive closure of a graph.
ghost use Rattle.std.specs.Prelude.{◌≡◌, ℕ, ◌+◌, ◌<◌, ◌≤◌, ◌↔◌, ◌⊎◌, length, IfOk};
ghost use Rattle.daggy_base.specs.Graph.{node_bound, edge_count, out_list};
ghost use Rattle.daggy_base.specs.Ordered.{IsOrderOf};
ghost use Rattle.daggy_base.specs.Path.{AreJoined};
ghost use Rattle.daggy_base.specs.WellFormed.{IsWellFormed};
ghost use Rattle.daggy_visit.specs.Visit.{HasPair};
ghost use Rattle.daggy_reduction.specs.Descendants.{IsDescendantOf};

use daggy_base::index::{EdgeIndex, IndexType, NodeIndex};
use daggy_base::source::EdgeSource;
use daggy_order::order::Order;
use daggy_visit::visit::AdjMatrix;
use std::alloc::{AllocError, Global};

// Adds to the row of a node its children, and everything in their rows.
fn join_reached<Ix: IndexType, S: EdgeSource<Ix>>(
    source: &mut S,
    n: NodeIndex<Ix>,
    matrix: &mut AdjMatrix<Ix>,
)
    requires well_formed { IsWellFormed Ix.greatest (S.graph source.old) }
    requires bound { length matrix.old ≡ node_bound (S.graph source.old) }
    requires node { Ix.number n < length matrix.old }
    requires apart { ¬ AreJoined (S.graph source.old) (Ix.number n) (Ix.number n) }
    ensures same { S.graph source.new ≡ S.graph source.old }
    ensures joined { (u v : ℕ) → HasPair matrix.new u v ↔ (HasPair matrix.old u v
        ⊎ ((u ≡ Ix.number n) × ((c : ℕ) × AreJoined (S.graph source.old) (Ix.number n) c
        × ((v ≡ c) ⊎ HasPair matrix.old c v)))) }
    ensures bound { length matrix.new ≡ length matrix.old }
    ensures counted { S.looks source.new
        ≡ S.looks source.old + length (out_list (S.graph source.old) (Ix.number n)) }
{
    let end = EdgeIndex::<Ix>::end().index();
    let mut e = source.first(n);
    'edges: while e.index() != end {
        let (child, next) = source.look(e);
        matrix.join(n, child);
        matrix.join_row(n, child);
        e = next;
    }
}

/// The reachability matrix: the pairs of nodes such that a path of one or more edges leads from the
/// first to the second.
///
/// # Requires
///
/// - `ordered`: `order` is a topological order of the nodes of `source`: it contains exactly these,
///   each before its children.
///
/// # Errors
///
/// Returns `AllocError` if an allocation fails.
///
/// # Complexity
///
/// Reads each edge once, and takes O(node bound / 64) for each. The matrix takes a bit for each
/// pair.
///
/// # Examples
///
/// ```
/// let mut graph: DiGraph<&'static str, ()> = DiGraph::new(rt.alloc());
/// let sow = graph.add_node("sow")?;
/// let reap = graph.add_node("reap")?;
/// graph.add_edge(sow, reap, ())?;
/// let mut scratch = Scratch::new(rt.alloc());
/// scratch.reserve(graph.node_count(), 0)?;
/// if let Some(order) = Order::sorted(rt.alloc(), &mut graph, &mut scratch)? {
///     let closure = transitive_closure(&mut graph, &order, rt.alloc())?;
///     assert!(rt; closure.has(sow, reap) && !closure.has(reap, sow));
/// }
/// ```
pub fn transitive_closure<Ix: IndexType, S: EdgeSource<Ix>>(
    source: &mut S,
    order: &Order<Ix>,
    alloc: Global,
) -> Result<AdjMatrix<Ix>, AllocError>
    requires ordered { IsOrderOf (S.graph source.old) order.now }
    ensures closure { IfOk result (λ matrix.
        (a b : ℕ) → HasPair matrix a b ↔ IsDescendantOf (S.graph source.old) a b) }
    ensures same { S.graph source.new ≡ S.graph source.old }
    ensures looked { S.looks source.old ≤ S.looks source.new }
    ensures counted { S.looks source.new ≤ S.looks source.old + edge_count (S.graph source.old) }
{
    let mut matrix = AdjMatrix::new(alloc, source.node_bound())?;
    let mut nodes = order.nodes();
    'nodes: while let Some(n) = nodes.next_back() {
        join_reached(source, n, &mut matrix);
    }
    Ok(matrix)
}
