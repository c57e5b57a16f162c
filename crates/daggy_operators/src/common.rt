//! The lowest common ancestors of two nodes.
ghost use Rattle.std.specs.Prelude.{◌≡◌, ℕ, ◌<◌, ◌≤◌, ◌↔◌, true, false, IsTrue, Some, IfOk, Contains, map};
ghost use Rattle.std.specs.Prelude.{length, vec_len};
ghost use Rattle.daggy_base.specs.Graph.{Edge, edge_at};
ghost use Rattle.daggy_base.specs.Path.{Reaches};
ghost use Rattle.daggy_redundant.specs.Comparison.{IsAscending};
ghost use Rattle.daggy_operators.specs.Common.{IsLowestCommonAncestor};
ghost use Rattle.daggy_operators.specs.Parts.{mark_of};

use crate::parts::{all_marks, is_marked, marks_of};
use daggy_base::index::{EdgeIndex, IndexType, NodeIndex};
use daggy_base::read_store::ReadStore;
use daggy_dag::acyclic::Acyclic;
use std::alloc::{AllocError, Global};

// The nodes that reach `a`.
fn nodes_reaching<N: Drop, E: Drop, Ix: IndexType, S>(
    alloc: Global,
    dag: &Acyclic<N, E, Ix, S>,
    a: NodeIndex<Ix>,
) -> Result<Vec<NodeIndex<Ix>>, AllocError>
where
    S: ReadStore<Ix, NodeWeight = N, EdgeWeight = E>,
    ensures { IfOk result (λ nodes. (n : ℕ)
        → Contains (map Ix.number nodes.items) n ↔ Reaches dag.now.graph n (Ix.number a)) }
{
    // Called for its contract: the dag is well formed.
    let _count = dag.node_count();
    if !dag.contains_node(a) {
        return Ok(Vec::new(alloc));
    }
    let mut given = Vec::new(alloc);
    given.push(a)?;
    let mut paths = dag.paths()?;
    let mut nodes = paths.ancestors(given.as_slice())?;
    nodes.push(a)?;
    Ok(nodes)
}

// Whether a node has both marks.
fn has_both<Ix: IndexType>(first: &Vec<bool>, second: &Vec<bool>, n: NodeIndex<Ix>) -> bool
    requires first { Ix.number n < vec_len first.now }
    requires second { Ix.number n < vec_len second.now }
    ensures { IsTrue result ↔ ((mark_of first.now.items (Ix.number n) ≡ true)
        × (mark_of second.now.items (Ix.number n) ≡ true)) }
{
    if !is_marked(first, n) {
        return false;
    }
    is_marked(second, n)
}

// For each slot of a node, whether a child of the node has both marks.
fn marks_above<Ix: IndexType, S: ReadStore<Ix>>(
    alloc: Global,
    store: &S,
    first: &Vec<bool>,
    second: &Vec<bool>,
) -> Result<Vec<bool>, AllocError>
    requires first { vec_len first.now ≡ length (S.graph store.now).nodes }
    requires second { vec_len second.now ≡ length (S.graph store.now).nodes }
    ensures sized { IfOk result (λ marks. vec_len marks ≡ length (S.graph store.now).nodes) }
    ensures marked { IfOk result (λ marks. (n : ℕ) → (mark_of marks.items n ≡ true)
        ↔ ((e : ℕ) × (x : Edge S.EdgeWeight) × (edge_at (S.graph store.now) e ≡ Some x)
        × (x.parent ≡ n) × ((mark_of first.now.items x.child ≡ true)
        × (mark_of second.now.items x.child ≡ true)))) }
{
    store.invariant();
    let mut marks = all_marks(alloc, first.len(), false)?;
    'edges: for i in 0..store.edge_slots() {
        let Some(ends) = store.edge_endpoints(EdgeIndex::new(i)) else {
            continue;
        };
        if has_both(first, second, ends.1) {
            marks[ends.0.index()] = true;
        }
    }
    Ok(marks)
}

// Whether a node has both marks, and not the third.
fn is_lowest<Ix: IndexType>(
    first: &Vec<bool>,
    second: &Vec<bool>,
    third: &Vec<bool>,
    n: NodeIndex<Ix>,
) -> bool
    requires first { Ix.number n < vec_len first.now }
    requires second { Ix.number n < vec_len second.now }
    requires third { Ix.number n < vec_len third.now }
    ensures { IsTrue result ↔ ((mark_of first.now.items (Ix.number n) ≡ true)
        × (mark_of second.now.items (Ix.number n) ≡ true)
        × (mark_of third.now.items (Ix.number n) ≡ false)) }
{
    if !has_both(first, second, n) {
        return false;
    }
    !is_marked(third, n)
}

// The nodes with both marks, but for those with the third, in ascending index order.
fn marked_nodes<Ix: IndexType>(
    alloc: Global,
    first: &Vec<bool>,
    second: &Vec<bool>,
    third: &Vec<bool>,
) -> Result<Vec<NodeIndex<Ix>>, AllocError>
    requires second { vec_len second.now ≡ vec_len first.now }
    requires third { vec_len third.now ≡ vec_len first.now }
    requires few { vec_len first.now ≤ Ix.greatest }
    ensures exact { IfOk result (λ nodes. (n : ℕ) → Contains (map Ix.number nodes.items) n
        ↔ (((mark_of first.now.items n ≡ true) × (mark_of second.now.items n ≡ true)
        × (mark_of third.now.items n ≡ false)) × (n < vec_len first.now))) }
    ensures ascending { IfOk result (λ nodes. IsAscending (map Ix.number nodes.items)) }
{
    let mut nodes = Vec::new(alloc);
    'nodes: for i in 0..first.len() {
        let n = NodeIndex::new(i);
        if is_lowest(first, second, third, n) {
            nodes.push(n)?;
        }
    }
    Ok(nodes)
}

/// The lowest common ancestors of two nodes, in ascending index order: the nodes that reach both
/// and have no descendant that also reaches both.
///
/// A node reaches itself, so if `a` reaches `b`, then `a` is the only lowest common ancestor. If
/// `a` or `b` is not a node of the dag, the list is empty.
///
/// # Errors
///
/// Returns `AllocError` if an allocation fails.
///
/// # Complexity
///
/// O(slots), plus O(k log k) for the k ancestors of the two nodes.
///
/// # Examples
///
/// ```
/// let mut dag: Dag<&'static str, ()> = Dag::new(rt.alloc());
/// let initial = dag.add_node("initial")?;
/// let (_, branch) = dag.add_child(initial, (), "branch")?;
/// let (_, left) = dag.add_child(branch, (), "left")?;
/// let (_, right) = dag.add_child(branch, (), "right")?;
/// let bases = lowest_common_ancestors(rt.alloc(), &dag, left, right)?;
/// assert!(rt; bases.as_slice() == [branch].as_slice());
/// let bases = lowest_common_ancestors(rt.alloc(), &dag, branch, right)?;
/// assert!(rt; bases.as_slice() == [branch].as_slice());
/// // There may be several.
/// let (_, other) = dag.add_child(initial, (), "other")?;
/// assert!(rt; dag.add_edge(other, left, ()).is_ok() && dag.add_edge(other, right, ()).is_ok());
/// let bases = lowest_common_ancestors(rt.alloc(), &dag, left, right)?;
/// assert!(rt; bases.as_slice() == [branch, other].as_slice());
/// ```
pub fn lowest_common_ancestors<N: Drop, E: Drop, Ix: IndexType, S>(
    alloc: Global,
    dag: &Acyclic<N, E, Ix, S>,
    a: NodeIndex<Ix>,
    b: NodeIndex<Ix>,
) -> Result<Vec<NodeIndex<Ix>>, AllocError>
where
    S: ReadStore<Ix, NodeWeight = N, EdgeWeight = E>,
    ensures found { IfOk result (λ found. (n : ℕ) → Contains (map Ix.number found.items) n
        ↔ IsLowestCommonAncestor dag.now.graph (Ix.number a) (Ix.number b) n) }
    ensures ascending { IfOk result (λ found. IsAscending (map Ix.number found.items)) }
{
    // Called for its contract: the dag is well formed.
    let _count = dag.node_count();
    let store = dag.graph();
    let slots = store.node_slots();
    let above_a = nodes_reaching(alloc, dag, a)?;
    let first = marks_of(alloc, slots, above_a.as_slice())?;
    let above_b = nodes_reaching(alloc, dag, b)?;
    let second = marks_of(alloc, slots, above_b.as_slice())?;
    let third = marks_above(alloc, store, &first, &second)?;
    marked_nodes(alloc, &first, &second, &third)
}
