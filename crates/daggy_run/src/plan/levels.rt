//! The level of each node of a dag.
ghost use Rattle.std.specs.Prelude.{◌≡◌, ℕ, ◌+◌, ◌<◌, ◌^◌, ◌∷◌, List, IfOk, slice_index, vec_len};
ghost use Rattle.daggy_base.specs.Graph.{HasNode, node_bound as node_bound_of};
ghost use Rattle.daggy_base.specs.Path.{AreJoined};
ghost use Rattle.daggy_base.specs.WellFormed.{IsDag};
ghost use Rattle.daggy_run.specs.Levels.{IsPassed, AreLevels, IsNext, IsRaised};

use crate::guarded::GuardedDag;
use daggy_base::index::{EdgeIndex, IndexType, NodeIndex};
use daggy_base::link::Link;
use std::alloc::{AllocError, Global};

// For each node, the length of the longest path ending at it, and the lowest-index parent on such a
// path (0 if it has no parents).
#[derive(Drop)]
pub(crate) struct Levels<Ix: IndexType> {
    pub(crate) levels: Vec<usize>,
    pub(crate) parents: Vec<Link<Ix>>,
}

// The level of each node, found along the dag's order: a node's level is known once its parents'
// levels are.
pub(crate) fn levels_of<N, E, Ix: IndexType, D: GuardedDag<N, E, Ix>>(
    alloc: Global,
    dag: &D,
) -> Result<Levels<Ix>, AllocError>
    ensures dag { IsDag Ix.greatest (D.graph dag.now) }
    ensures found { IfOk result (λ f.
        (most : ℕ) × AreLevels (AreJoined (D.graph dag.now)) most f.levels.items f.parents.items) }
    ensures levels { IfOk result (λ f. vec_len f.levels ≡ node_bound_of (D.graph dag.now)) }
    ensures parents { IfOk result (λ f. vec_len f.parents ≡ node_bound_of (D.graph dag.now)) }
    ensures within { IfOk result (λ f. (k : ℕ) → k < vec_len f.parents
        → slice_index f.parents.items k < vec_len f.parents) }
{
    let bound = dag.node_bound();
    let mut levels = Vec::new(alloc);
    levels.resize(bound, 0)?;
    let mut parents = Vec::new(alloc);
    parents.resize(bound, Link::new(0))?;
    let mut nodes = dag.topological_order();
    'nodes: while let Some(n) = nodes.next() {
        raise_children(dag, n, &mut levels, &mut parents);
    }
    Ok(Levels { levels, parents })
}

// Sets each child's level above its parent's.
fn raise_children<N, E, Ix: IndexType, D: GuardedDag<N, E, Ix>>(
    dag: &D,
    n: NodeIndex<Ix>,
    levels: &mut Vec<usize>,
    parents: &mut Vec<Link<Ix>>,
)
    requires exists { HasNode (D.graph dag.now) (Ix.number n) }
    requires levels { vec_len levels.old ≡ node_bound_of (D.graph dag.now) }
    requires parents { vec_len parents.old ≡ node_bound_of (D.graph dag.now) }
    requires within { (k : ℕ)
        → k < vec_len parents.old → slice_index parents.old.items k < vec_len parents.old }
    requires level_fits { slice_index levels.old.items (Ix.number n) + 1 < 2 ^ 64 }
    ensures raised { (waiting : List ℕ) (most : ℕ) → IsNext (D.graph dag.now) (Ix.number n) waiting
        → AreLevels (IsPassed (D.graph dag.now) (Ix.number n ∷ waiting)) most levels.old.items
        parents.old.items
        → AreLevels (IsPassed (D.graph dag.now) waiting) (most + 1) levels.new.items
        parents.new.items }
    ensures levels { vec_len levels.new ≡ vec_len levels.old }
    ensures parents { vec_len parents.new ≡ vec_len parents.old }
    ensures within { (k : ℕ)
        → k < vec_len parents.new → slice_index parents.new.items k < vec_len parents.new }
{
    // Called only for its postcondition: the graph is well formed.
    let _bound = dag.node_bound();
    let end = EdgeIndex::<Ix>::end().index();
    let level = levels[n.index()] + 1;
    let mut e = dag.first_child(n);
    'edges: while e.index() != end {
        let (child, next) = dag.child_edge(e);
        raise(levels, parents, n, level, child.index());
        e = next;
    }
}

// Raises a node's level above that of its parent `n`, if it is not, and notes the lowest parent.
#[inline]
fn raise<Ix: IndexType>(
    levels: &mut Vec<usize>,
    parents: &mut Vec<Link<Ix>>,
    n: NodeIndex<Ix>,
    level: usize,
    child: usize,
)
    requires levels { child < vec_len levels.old }
    requires parents { child < vec_len parents.old }
    ensures raised { IsRaised (Ix.number n) level child
        levels.old.items parents.old.items levels.new.items parents.new.items }
{
    if levels[child] < level {
        levels[child] = level;
        parents[child] = Link::of_node(n);
    } else if levels[child] == level && n.index() < parents[child].index() {
        parents[child] = Link::of_node(n);
    }
}
