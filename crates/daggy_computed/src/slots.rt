//! Values and marks of nodes that are added and removed.
ghost use Rattle.std.specs.Prelude.{◌≡◌, ◌≢◌, ◌<◌, ◌≤◌, ◌↔◌, ◌⊎◌, ℕ, IsTrue, OnOk, None, true, map, Contains, vec_len, vec_capacity};
ghost use Rattle.daggy_base.specs.declared.kind.Kind.TheVariants.{Compact as InOneRow};
ghost use Rattle.daggy_computed.specs.Cells.{blank, entry_at, IsStaleAt};
ghost use Rattle.daggy_computed.specs.Slots.{IsTakenOut};

use crate::entry::{Entry, is_stale, take_entry};
use crate::queue::Queue;
use daggy_base::index::{IndexType, NodeIndex};
use daggy_base::kind::Kind;
use daggy_base::reserved::reserve;
use std::alloc::AllocError;

// Reserves memory for as many slots of nodes.
pub(crate) fn reserve_slots<V: Drop, Ix: IndexType>(
    slots: usize,
    entries: &mut Vec<Entry<V>>,
    queue: &mut Queue<Ix>,
) -> Result<(), AllocError>
    ensures room { OnOk result ((slots ≤ vec_capacity entries.new)
        × (slots ≤ queue.new.marks_room) × (slots ≤ queue.new.nodes_room)) }
    ensures entries { entries.new.items ≡ entries.old.items }
    ensures nodes { queue.new.nodes ≡ queue.old.nodes }
    ensures slots { queue.new.slots ≡ queue.old.slots }
{
    reserve(entries, slots)?;
    queue.reserve(slots)
}

// Keeps no value of a new node, which is stale.
pub(crate) fn put_stale<V: Drop, Ix: IndexType>(
    n: NodeIndex<Ix>,
    entries: &mut Vec<Entry<V>>,
    queue: &mut Queue<Ix>,
)
    requires within { Ix.number n ≤ vec_len entries.old }
    requires slots { queue.old.slots ≡ vec_len entries.old }
    requires room { Ix.number n < vec_capacity entries.old }
    requires marks { Ix.number n < queue.old.marks_room }
    requires nodes { Ix.number n < queue.old.nodes_room }
    ensures here { entry_at entries.new.items (Ix.number n)
        ≡ record { value = None; stale = true } }
    ensures others { (m : ℕ) → m ≢ Ix.number n
        → entry_at entries.new.items m ≡ entry_at entries.old.items m }
    ensures long { (vec_len entries.old ≤ vec_len entries.new)
        × (Ix.number n < vec_len entries.new) }
    ensures slots { queue.new.slots ≡ vec_len entries.new }
    ensures waits { (m : ℕ) → Contains (map Ix.number queue.old.nodes) m ⊎ (m ≡ Ix.number n)
        → Contains (map Ix.number queue.new.nodes) m }
{
    let entry = Entry {
        value: None,
        stale: true,
    };
    let i = n.index();
    if i == entries.len() {
        entries.push_reserved(entry);
        queue.grow();
    } else {
        entries[i] = entry;
    }
    queue.put(n);
}

// Keeps at the index of a node what was kept at the last index, and nothing there.
fn move_down<V: Drop, Ix: IndexType>(
    last: usize,
    n: NodeIndex<Ix>,
    entries: &mut Vec<Entry<V>>,
    queue: &mut Queue<Ix>,
)
    requires node { Ix.number n < vec_len entries.old }
    requires last { last < vec_len entries.old }
    requires slots { vec_len entries.old ≤ queue.old.slots }
    ensures moved { entry_at entries.new.items (Ix.number n) ≡ entry_at entries.old.items last }
    ensures others { (m : ℕ) → m ≢ Ix.number n → m ≢ last
        → entry_at entries.new.items m ≡ entry_at entries.old.items m }
    ensures free { last ≢ Ix.number n → entry_at entries.new.items last ≡ blank }
    ensures len { vec_len entries.new ≡ vec_len entries.old }
    ensures slots { queue.new.slots ≡ queue.old.slots }
    ensures waits { (m : ℕ) → Contains (map Ix.number queue.old.nodes) m
        → Contains (map Ix.number queue.new.nodes) m }
    ensures here { IsStaleAt entries.old.items last
        → Contains (map Ix.number queue.new.nodes) (Ix.number n) }
{
    let moved = take_entry(entries, last);
    let is_stale = moved.stale;
    entries[n.index()] = moved;
    if !is_stale {
        return;
    }
    queue.put(n);
}

// Takes what is kept of a node that was removed. In the compact kind the last node has its index then.
pub(crate) fn take_out<V: Drop, Ix: IndexType>(
    kind: Kind,
    last: usize,
    n: NodeIndex<Ix>,
    entries: &mut Vec<Entry<V>>,
    queue: &mut Queue<Ix>,
) -> Entry<V>
    requires node { Ix.number n < vec_len entries.old }
    requires last { last < vec_len entries.old }
    requires slots { vec_len entries.old ≤ queue.old.slots }
    ensures value { result ≡ entry_at entries.old.items (Ix.number n) }
    ensures taken { IsTakenOut kind last (Ix.number n) entries.old.items entries.new.items }
    ensures len { vec_len entries.new ≡ vec_len entries.old }
    ensures slots { queue.new.slots ≡ queue.old.slots }
    ensures waits { (m : ℕ) → Contains (map Ix.number queue.old.nodes) m
        → Contains (map Ix.number queue.new.nodes) m }
    ensures moved { kind ≡ InOneRow → Ix.number n ≢ last → IsStaleAt entries.old.items last
        → Contains (map Ix.number queue.new.nodes) (Ix.number n) }
{
    let entry = take_entry(entries, n.index());
    match kind {
        Kind::Compact => move_down(last, n, entries, queue),
        Kind::Stable => {}
    }
    entry
}

// Whether nothing that is kept of the nodes of a queue is stale.
pub(crate) fn none_stale<V, Ix: IndexType>(entries: &[Entry<V>], queue: &Queue<Ix>) -> bool
    ensures { IsTrue result ↔ ((m : ℕ) → Contains (map Ix.number queue.now.nodes) m
        → ¬ IsStaleAt entries.now m) }
{
    'nodes: for i in 0..queue.len() {
        if is_stale(entries, queue.get(i).index()) {
            return false;
        }
    }
    true
}
