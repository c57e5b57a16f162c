//! Whether an edge may be added to an acyclic graph, and the topological order with that edge.
ghost use Rattle.std.specs.Prelude.{◌≡◌, ℕ, ◌+◌, ◌<◌, ◌≤◌, ◌↔◌, true, false, IsTrue};
ghost use Rattle.daggy_base.specs.Graph.{HasNode, node_bound, edge_count};
ghost use Rattle.daggy_base.specs.Path.{AreJoined, Reaches};
ghost use Rattle.daggy_base.specs.Ordered.{IsOrderOf, place};

use daggy_base::index::{Direction, EdgeIndex, IndexType, NodeIndex};
use daggy_base::read_store::ReadStore;
use daggy_order::order::{Order, order_edge};
use daggy_search::Scratch;
use daggy_visit::walk::step;

// Whether an edge leads to a node.
#[inline]
fn has_parents<Ix: IndexType, S: ReadStore<Ix>>(store: &S, n: NodeIndex<Ix>) -> bool
    ensures { result ≡ false → (u : ℕ) → ¬ AreJoined (S.graph store.now) u (Ix.number n) }
{
    store.invariant();
    store.first_edge(n, Direction::Incoming).index() != EdgeIndex::<Ix>::end().index()
}

// A node with this many parents or more is searched for.
const FEW_PARENTS: usize = 4;

// Whether all parents of `a` precede `b`. If there are `FEW_PARENTS` or more, the answer is false.
fn parents_stand_before<Ix: IndexType, S: ReadStore<Ix>>(
    store: &S,
    order: &Order<Ix>,
    a: NodeIndex<Ix>,
    b: NodeIndex<Ix>,
) -> bool
    requires exists { HasNode (S.graph store.now) (Ix.number b) }
    requires ordered { IsOrderOf (S.graph store.now) order.now }
    ensures { IsTrue result → (u : ℕ) → AreJoined (S.graph store.now) u (Ix.number a)
        → place order.now u < place order.now (Ix.number b) }
{
    store.invariant();
    let mut cursor = store.first_edge(a, Direction::Incoming);
    'parents: for _i in 0..FEW_PARENTS {
        let Some((_e, parent)) = step(store, Direction::Incoming, &mut cursor) else {
            return true;
        };
        if !order.stands_before(parent, b) {
            return false;
        }
    }
    false
}

/// Updates the order for a new edge from `a` to `b` if that needs no search. Returns false, with the
/// order unchanged, if it may need one.
///
/// If no edge leads to `a`, it is moved to the front; if `a` has few parents and all of them
/// precede `b`, it is moved right before `b`. So no search is needed if each node is added after
/// its children.
#[inline]
pub fn order_without_search<Ix: IndexType, S: ReadStore<Ix>>(
    store: &S,
    order: &mut Order<Ix>,
    a: NodeIndex<Ix>,
    b: NodeIndex<Ix>,
) -> bool
    requires parent { HasNode (S.graph store.now) (Ix.number a) }
    requires child { HasNode (S.graph store.now) (Ix.number b) }
    requires ordered { IsOrderOf (S.graph store.now) order.old }
    ensures ordered { IsOrderOf (S.graph store.now) order.new }
    ensures before { result ≡ true → place order.new (Ix.number a) < place order.new (Ix.number b) }
    ensures kept_before { (u : ℕ) → place order.old u < place order.old (Ix.number b)
        → place order.new u < place order.new (Ix.number b) }
    ensures unchanged { result ≡ false → order.new ≡ order.old }
    ensures behind { result ≡ false
        → place order.old (Ix.number b) ≤ place order.old (Ix.number a) }
{
    store.invariant();
    if order.stands_before(a, b) {
        return true;
    }
    if a.index() != b.index() {
        if !has_parents(store, a) {
            order.move_first(a);
            return true;
        }
        if parents_stand_before(store, order, a, b) {
            order.move_before(a, b);
            return true;
        }
    }
    false
}

/// Updates the order for a new edge from `a` to `b`. Returns false if a path leads from `b` to `a`.
/// It searches only if [`order_without_search`] returns false.
#[inline]
pub fn order_new_edge<Ix: IndexType, S: ReadStore<Ix>>(
    store: &mut S,
    order: &mut Order<Ix>,
    scratch: &mut Scratch<Ix>,
    a: NodeIndex<Ix>,
    b: NodeIndex<Ix>,
) -> bool
    requires parent { HasNode (S.graph store.old) (Ix.number a) }
    requires child { HasNode (S.graph store.old) (Ix.number b) }
    requires fits { node_bound (S.graph store.old) ≤ scratch.old.nodes }
    requires ordered { IsOrderOf (S.graph store.old) order.old }
    ensures decided { result ≡ false ↔ Reaches (S.graph store.old) (Ix.number b) (Ix.number a) }
    ensures ordered { IsOrderOf (S.graph store.old) order.new }
    ensures before { result ≡ true → place order.new (Ix.number a) < place order.new (Ix.number b) }
    ensures kept_before { result ≡ true
        → (u : ℕ) → place order.old u < place order.old (Ix.number b)
        → place order.new u < place order.new (Ix.number b) }
    ensures same { S.graph store.new ≡ S.graph store.old }
    ensures looked { S.looks store.old ≤ S.looks store.new }
    ensures counted { S.looks store.new ≤ S.looks store.old + edge_count (S.graph store.old) }
    ensures ready { Reaches (S.graph store.old) (Ix.number a) (Ix.number b)
        → S.looks store.new ≡ S.looks store.old }
    ensures same_capacity { scratch.new ≡ scratch.old }
{
    store.invariant();
    if order_without_search(store, order, a, b) {
        return true;
    }
    order_edge(store, order, a, b, scratch)
}
