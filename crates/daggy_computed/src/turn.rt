//! What one node is computed from, and what follows from its value.
ghost use Rattle.std.specs.Prelude.{◌≡◌, ◌<◌, ◌≤◌, ◌⊎◌, ◌++◌, ℕ, map, Contains, vec_len, IfOk, OnOk, IfErr};
ghost use Rattle.daggy_base.specs.Graph.{HasNode, node_weight};
ghost use Rattle.daggy_computed.specs.Cells.{cells, HaveValues, values_of, IsStaleAt};
ghost use Rattle.daggy_computed.specs.Inputs.{inputs};
ghost use Rattle.daggy_computed.specs.Marking.{all_marked, children_of};
ghost use Rattle.daggy_computed.specs.Settling.{Gives, Refuses};
ghost use Rattle.daggy_computed.specs.Refreshing.{IsCause};

use crate::entry::{Entry, mark, value_at};
use crate::error::RefreshError;
use crate::inputs::Inputs;
use crate::queue::Queue;
use daggy_base::index::{Direction, IndexType, NodeIndex};
use daggy_base::read_store::ReadStore;
use daggy_visit::walk;
use std::alloc::AllocError;

// Notes the parents of a node that have a value, in the order in which the edges were added.
fn note_parents<V, Ix: IndexType, S: ReadStore<Ix>>(
    store: &S,
    entries: &[Entry<V>],
    n: NodeIndex<Ix>,
    parents: &mut Vec<usize>,
) -> Result<(), AllocError>
    ensures values { OnOk result (values_of entries.now parents.new.items
        ≡ inputs (cells (S.graph store.now) entries.now) (Ix.number n)) }
    ensures have { OnOk result (HaveValues entries.now parents.new.items) }
{
    store.invariant();
    parents.clear();
    let mut cursor = store.first_edge(n, Direction::Incoming);
    'parents: while let Some(item) = walk::step(store, Direction::Incoming, &mut cursor) {
        let i = item.1.index();
        if value_at(entries, i).is_some() {
            parents.push(i)?;
        }
    }
    parents.reverse();
    Ok(())
}

// What the function returns for a node.
pub(crate) fn evaluate<K, V, X, Ix: IndexType, S: ReadStore<Ix, NodeWeight = K>, F>(
    store: &S,
    entries: &[Entry<V>],
    n: NodeIndex<Ix>,
    parents: &mut Vec<usize>,
    f: &F,
) -> Result<V, RefreshError<X, Ix>>
where
    F: Fn(&K, Inputs<'_, V>) -> Result<V, X>,
    requires node { HasNode (S.graph store.now) (Ix.number n) }
    requires stale { IsStaleAt entries.now (Ix.number n) }
    requires callable { F.IsAlwaysCallable f.now }
    ensures value { IfOk result (λ v. (k : K) × (node_weight (S.graph store.now) (Ix.number n) ≡ Some k)
        × Gives F.post f.now k (inputs (cells (S.graph store.now) entries.now) (Ix.number n)) v) }
    ensures failed { IfErr result (λ e. IsCause Ix.number (Refuses F.post f.now)
        (cells (S.graph store.now) entries.now) e) }
{
    if note_parents(store, entries, n, parents).is_err() {
        return Err(RefreshError::Memory);
    }
    let formula = store.node_weight(n).unwrap();
    match f(formula, Inputs::new(entries, parents.as_slice())) {
        Ok(value) => Ok(value),
        Err(error) => Err(RefreshError::Failed(n, error)),
    }
}

// Makes the children of a node stale, and puts them into the queue.
pub(crate) fn mark_children<V: Drop, Ix: IndexType, S: ReadStore<Ix>>(
    store: &S,
    n: NodeIndex<Ix>,
    entries: &mut Vec<Entry<V>>,
    queue: &mut Queue<Ix>,
)
    requires sized { (m : ℕ) → HasNode (S.graph store.now) m → m < vec_len entries.old }
    requires slots { vec_len entries.old ≤ queue.old.slots }
    ensures marked { cells (S.graph store.now) entries.new.items
        ≡ all_marked (cells (S.graph store.now) entries.old.items)
        (children_of (S.graph store.now) (Ix.number n)) }
    ensures stale { (m : ℕ) → IsStaleAt entries.new.items m
        → Contains (children_of (S.graph store.now) (Ix.number n)) m ⊎ IsStaleAt entries.old.items m }
    ensures len { vec_len entries.new ≡ vec_len entries.old }
    ensures put { (more : _) × (queue.new.nodes ≡ queue.old.nodes ++ more) }
    ensures all { (m : ℕ) → Contains (children_of (S.graph store.now) (Ix.number n)) m
        → Contains (map Ix.number queue.new.nodes) m }
    ensures slots { queue.new.slots ≡ queue.old.slots }
{
    store.invariant();
    let mut cursor = store.first_edge(n, Direction::Outgoing);
    'children: while let Some(item) = walk::step(store, Direction::Outgoing, &mut cursor) {
        mark(entries, item.1.index());
        queue.put(item.1);
    }
}
