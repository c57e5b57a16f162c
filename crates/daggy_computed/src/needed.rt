//! Computing one node and the nodes that it needs.
ghost use Rattle.std.specs.Prelude.{◌≡◌, ◌≢◌, ◌↔◌, ◌⊎◌, ℕ, List, map, Contains, vec_len, IsTrue};
ghost use Rattle.std.specs.Prelude.{IfOk, OnOk, IfErr, OnErr};
ghost use Rattle.daggy_base.specs.Graph.{HasNode};
ghost use Rattle.daggy_base.specs.Path.{AreJoined, Reaches};
ghost use Rattle.daggy_reduction.specs.Descendants.{IsOrderOfPart};
ghost use Rattle.daggy_computed.specs.Cells.{cells, IsStaleAt};
ghost use Rattle.daggy_computed.specs.Marking.{children_of};
ghost use Rattle.daggy_computed.specs.Settling.{Gives, Refuses, IsTurn, Refreshes};
ghost use Rattle.daggy_computed.specs.Refreshing.{IsReady, IsCause, IsAscending};

use crate::entry::{Entry, is_stale, settle};
use crate::error::RefreshError;
use crate::inputs::Inputs;
use crate::queue::Queue;
use crate::turn::{evaluate, mark_children};
use daggy_base::index::{IndexType, NodeIndex};
use daggy_base::read_store::ReadStore;
use daggy_dag::acyclic::Acyclic;
use std::alloc::AllocError;

// A node and its ancestors, each once and parents before children.
pub(crate) fn needed_nodes<N: Drop, E: Drop, Ix: IndexType, S>(
    dag: &mut Acyclic<N, E, Ix, S>,
    n: NodeIndex<Ix>,
) -> Result<Vec<NodeIndex<Ix>>, AllocError>
where
    S: ReadStore<Ix, NodeWeight = N, EdgeWeight = E>,
    ensures found { IfOk result (λ found. IsOrderOfPart dag.old.graph
        (λ m. (m ≡ Ix.number n) ⊎ Reaches dag.old.graph m (Ix.number n))
        (map Ix.number found.items)) }
    ensures same { dag.new.graph ≡ dag.old.graph }
{
    // Called for its contract: the order is one of the dag.
    let _order = dag.order();
    let mut only = Vec::new(dag.allocator());
    only.push(n)?;
    let mut nodes = dag.ancestors(only.as_slice())?;
    nodes.push(n)?;
    Ok(nodes)
}

// Whether nothing that is kept of the nodes of a list is stale.
pub(crate) fn none_stale_among<V, Ix: IndexType>(
    entries: &[Entry<V>],
    nodes: &[NodeIndex<Ix>],
) -> bool
    ensures { IsTrue result ↔ ((m : ℕ) → Contains (map Ix.number nodes.now) m
        → ¬ IsStaleAt entries.now m) }
{
    'nodes: for i in 0..nodes.len() {
        if is_stale(entries, nodes[i].index()) {
            return false;
        }
    }
    true
}

// Computes the value of a stale node. If the value is new, the children of the node are stale then.
// Returns whether it is.
pub(crate) fn refresh_one<
    K,
    V: PartialEq + Drop,
    X,
    Ix: IndexType,
    S: ReadStore<Ix, NodeWeight = K>,
    F,
>(
    store: &S,
    n: NodeIndex<Ix>,
    entries: &mut Vec<Entry<V>>,
    queue: &mut Queue<Ix>,
    parents: &mut Vec<usize>,
    f: &F,
) -> Result<bool, RefreshError<X, Ix>>
where
    F: Fn(&K, Inputs<'_, V>) -> Result<V, X>,
    requires callable { F.IsAlwaysCallable f.now }
    requires ready { IsReady (S.graph store.now) entries.old.items queue.old.slots
        (map Ix.number queue.old.nodes) }
    requires stale { IsStaleAt entries.old.items (Ix.number n) }
    ensures turn { IfOk result (λ is_new. IsTurn V.eq (Gives F.post f.now) (Ix.number n)
        (cells (S.graph store.now) entries.old.items) (cells (S.graph store.now) entries.new.items)
        is_new) }
    ensures stale { OnOk result ((m : ℕ) → IsStaleAt entries.new.items m
        → Contains (children_of (S.graph store.now) (Ix.number n)) m
        ⊎ ((m ≢ Ix.number n) × IsStaleAt entries.old.items m)) }
    ensures failed { IfErr result (λ e. IsCause Ix.number (Refuses F.post f.now)
        (cells (S.graph store.now) entries.new.items) e) }
    ensures unchanged { OnErr result (entries.new.items ≡ entries.old.items) }
    ensures ready { IsReady (S.graph store.now) entries.new.items queue.new.slots
        (map Ix.number queue.new.nodes) }
    ensures len { vec_len entries.new ≡ vec_len entries.old }
{
    store.invariant();
    let value = evaluate(store, entries.as_slice(), n, parents, f)?;
    let is_new = settle(entries, n.index(), value);
    if !is_new {
        return Ok(false);
    }
    mark_children(store, n, entries, queue);
    Ok(true)
}

// Computes the stale nodes of a list, in its order, and notes the nodes whose values are new.
pub(crate) fn refresh_listed<
    K,
    V: PartialEq + Drop,
    X,
    Ix: IndexType,
    S: ReadStore<Ix, NodeWeight = K>,
    F,
>(
    store: &S,
    nodes: &[NodeIndex<Ix>],
    entries: &mut Vec<Entry<V>>,
    queue: &mut Queue<Ix>,
    parents: &mut Vec<usize>,
    changed: &mut Vec<NodeIndex<Ix>>,
    f: &F,
) -> Result<(), RefreshError<X, Ix>>
where
    F: Fn(&K, Inputs<'_, V>) -> Result<V, X>,
    requires callable { F.IsAlwaysCallable f.now }
    requires ordered { IsOrderOfPart (S.graph store.now) (Contains (map Ix.number nodes.now))
        (map Ix.number nodes.now) }
    requires loops { (m : ℕ) → ¬ AreJoined (S.graph store.now) m m }
    requires ready { IsReady (S.graph store.now) entries.old.items queue.old.slots
        (map Ix.number queue.old.nodes) }
    ensures turns { (turns : List ℕ) × IsAscending (map Ix.number nodes.now) turns
        × ((m : ℕ) → Contains turns m → Contains (map Ix.number nodes.now) m
        × HasNode (S.graph store.now) m)
        × Refreshes V.eq (Gives F.post f.now) turns (cells (S.graph store.now) entries.old.items)
        (cells (S.graph store.now) entries.new.items) (map Ix.number changed.new.items) }
    ensures fresh { OnOk result ((m : ℕ) → Contains (map Ix.number nodes.now) m
        → ¬ IsStaleAt entries.new.items m) }
    ensures failed { IfErr result (λ e. IsCause Ix.number (Refuses F.post f.now)
        (cells (S.graph store.now) entries.new.items) e) }
    ensures len { vec_len entries.new ≡ vec_len entries.old }
    ensures ready { IsReady (S.graph store.now) entries.new.items queue.new.slots
        (map Ix.number queue.new.nodes) }
{
    store.invariant();
    changed.clear();
    'nodes: for i in 0..nodes.len() {
        let n = nodes[i];
        if !is_stale(entries.as_slice(), n.index()) {
            continue;
        }
        if changed.reserve(1).is_err() {
            return Err(RefreshError::Memory);
        }
        if refresh_one(store, n, entries, queue, parents, f)? {
            changed.push_reserved(n);
        }
    }
    Ok(())
}
