//! A doubly linked list of labelled nodes.
ghost use Rattle.std.specs.Prelude.{◌≡◌, ◌≢◌, ℕ, ◌+◌, ◌*◌, ◌<◌, ◌≤◌, ◌⊎◌, ◌^◌, [], ◌∷◌, ◌++◌, List};
ghost use Rattle.std.specs.Prelude.{Contains, length, vec_len, vec_capacity, slice_index};
ghost use Rattle.std.specs.Prelude.{slice_index_or, slice_set, map, max, IfOk, IsOk, OnOk, OnErr};
ghost use Rattle.std.specs.List.{range_with_len};
ghost use Rattle.daggy_base.specs.Cursor.{first_of};
ghost use Rattle.daggy_base.specs.Removal.{without, renamed};
ghost use Rattle.daggy_base.specs.WellFormed.{AreDistinct};
ghost use Rattle.daggy_order.specs.Links.{neighbor, nexts_of, previous_of, labels_of, vacant};
ghost use Rattle.daggy_order.specs.Links.{LeadsTo, LabelsAscend, IsRunWritten, EndsAtGreatest};

use daggy_base::index::IndexType;
use daggy_base::link::Link;
use daggy_base::reserved::reserve;
use std::alloc::{AllocError, Global};
use std::marker::Model;

/// What is stored for a node: the nodes before and after it, and its label, which is 0 if the node
/// is not in the list.
#[derive(Clone, Copy, Drop)]
pub struct Item<Ix: IndexType> {
    pub next: Link<Ix>,
    pub previous: Link<Ix>,
    pub label: u64,
}

/// A doubly linked list of labelled nodes, stored by index.
///
/// `end` is a sentinel: it is before the first node and after the last.
#[derive(Drop)]
pub struct Links<Ix: IndexType> {
    items: Vec<Item<Ix>>,
    first: Link<Ix>,
    last: Link<Ix>,
    count: usize,
}

impl<Ix: IndexType> Model for Links<Ix> {
    ghost use Rattle.std.specs.Prelude.{vec_capacity};
    ghost use Rattle.daggy_order.specs.Links.{Listed, AreLinksOf, nodes_from};
    ghost use Rattle.daggy_order.specs.Links.{nexts_of, previous_of, labels_of};

    ghost Value = { Listed };

    ghost view = { λ l. record {
      nodes = nodes_from Ix.greatest (nexts_of l.items.items) l.first l.count;
      labels = labels_of l.items.items;
      capacity = vec_capacity l.items;
    } };

    ghost invariant = { λ l.
        AreLinksOf Ix.greatest (nexts_of l.items.items) (previous_of l.items.items) l.first l.last
        (nodes_from Ix.greatest (nexts_of l.items.items) l.first l.count) };
}

// The most items initialised at once, so that they are still in the cache when used. Capacity
// still doubles.
const STRETCH: usize = 512;

impl<Ix: IndexType> Item<Ix> {
    // The item stored at the index of a node that is not in the list.
    #[inline]
    fn vacant() -> Self
        ensures { result ≡ vacant Ix.greatest }
    {
        Item {
            next: Link::end(),
            previous: Link::end(),
            label: 0,
        }
    }
}

// Lengthens `items` to `len`, with vacant items at the end.
#[inline]
fn lengthen<Ix: IndexType>(items: &mut Vec<Item<Ix>>, len: usize) -> Result<(), AllocError>
    requires { vec_len items.old ≤ len }
    ensures ok { OnOk result (vec_len items.new ≡ len) }
    ensures longer { vec_len items.old ≤ vec_len items.new }
    ensures succeeds { len ≤ vec_capacity items.old → IsOk result }
    ensures same { (k : ℕ) → slice_index_or items.new.items k (vacant Ix.greatest)
        ≡ slice_index_or items.old.items k (vacant Ix.greatest) }
{
    items.resize(len, Item::vacant())
}

// Makes `items` longer than `n`, with vacant items at the end. A short list doubles, but does not
// grow beyond its capacity if that suffices.
#[inline]
fn grow<Ix: IndexType>(items: &mut Vec<Item<Ix>>, n: usize) -> Result<(), AllocError>
    requires { n + 1 < 2 ^ 64 }
    ensures ok { OnOk result (n < vec_len items.new) }
    ensures longer { vec_len items.old ≤ vec_len items.new }
    ensures same { (k : ℕ) → slice_index_or items.new.items k (vacant Ix.greatest)
        ≡ slice_index_or items.old.items k (vacant Ix.greatest) }
{
    if items.len() <= n {
        let more = items.len().saturating_mul(2).min(n.saturating_add(STRETCH));
        let capacity = items.capacity();
        let most = if n < capacity && capacity < more {
            capacity
        } else {
            more
        };
        let len = if n < most { most } else { n + 1 };
        lengthen(items, len)?;
    }
    Ok(())
}

// The new length when growing past `bound` within the capacity: more than needed, so that growth is
// rare.
#[inline]
fn stretched(bound: usize, capacity: usize) -> usize
    requires { bound ≤ capacity }
    ensures enough { bound ≤ result }
    ensures fits { result ≤ capacity }
{
    capacity.min(bound.saturating_add(STRETCH))
}

// Makes `q` the node after `p`. The node after `end` is the first.
#[inline]
fn set_next<Ix: IndexType>(
    items: &mut Vec<Item<Ix>>,
    first: &mut Link<Ix>,
    p: Link<Ix>,
    q: Link<Ix>,
)
    requires { (p ≡ Ix.greatest) ⊎ (p < vec_len items.old) }
    ensures next { LeadsTo (neighbor Ix.greatest first.old (nexts_of items.old.items))
        (neighbor Ix.greatest first.new (nexts_of items.new.items)) p q }
    ensures previous { previous_of items.new.items ≡ previous_of items.old.items }
    ensures labels { labels_of items.new.items ≡ labels_of items.old.items }
    ensures capacity { vec_capacity items.new ≡ vec_capacity items.old }
{
    if p.index() == Link::<Ix>::end().index() {
        *first = q;
    } else {
        items[p.index()].next = q;
    }
}

// Makes `p` the node before `q`. The node before `end` is the last.
#[inline]
fn set_previous<Ix: IndexType>(
    items: &mut Vec<Item<Ix>>,
    last: &mut Link<Ix>,
    p: Link<Ix>,
    q: Link<Ix>,
)
    requires { (q ≡ Ix.greatest) ⊎ (q < vec_len items.old) }
    ensures previous { LeadsTo (neighbor Ix.greatest last.old (previous_of items.old.items))
        (neighbor Ix.greatest last.new (previous_of items.new.items)) q p }
    ensures next { nexts_of items.new.items ≡ nexts_of items.old.items }
    ensures labels { labels_of items.new.items ≡ labels_of items.old.items }
    ensures capacity { vec_capacity items.new ≡ vec_capacity items.old }
{
    if q.index() == Link::<Ix>::end().index() {
        *last = p;
    } else {
        items[q.index()].previous = p;
    }
}

// Makes `p` and `q` neighbors. `end` is before the first node and after the last.
#[inline]
fn join<Ix: IndexType>(
    items: &mut Vec<Item<Ix>>,
    first: &mut Link<Ix>,
    last: &mut Link<Ix>,
    p: Link<Ix>,
    q: Link<Ix>,
)
    requires before { (p ≡ Ix.greatest) ⊎ (p < vec_len items.old) }
    requires after { (q ≡ Ix.greatest) ⊎ (q < vec_len items.old) }
    ensures next { LeadsTo (neighbor Ix.greatest first.old (nexts_of items.old.items))
        (neighbor Ix.greatest first.new (nexts_of items.new.items)) p q }
    ensures previous { LeadsTo (neighbor Ix.greatest last.old (previous_of items.old.items))
        (neighbor Ix.greatest last.new (previous_of items.new.items)) q p }
    ensures labels { labels_of items.new.items ≡ labels_of items.old.items }
    ensures capacity { vec_capacity items.new ≡ vec_capacity items.old }
{
    set_next(items, first, p, q);
    set_previous(items, last, p, q);
}

// Writes the items of the `count` nodes that follow node `n` by their indices: each leads to the next
// index and to the one before, and is labelled `gap` above the one before it, the first above `low`.
#[inline]
fn write_run<Ix: IndexType>(items: &mut Vec<Item<Ix>>, n: usize, count: usize, low: u64, gap: u64)
    requires real { n + count < Ix.greatest }
    requires numbered { n + count < vec_len items.old }
    requires some { 0 < gap }
    requires fits { low + gap * count < 2 ^ 64 }
    ensures written { IsRunWritten Ix.greatest items.old.items items.new.items n count low
        (low + gap * count) }
    ensures capacity { vec_capacity items.new ≡ vec_capacity items.old }
{
    let mut label = low;
    'run: for i in 0..count {
        let before = n + i;
        label += gap;
        items[before + 1] = Item {
            next: Link::new(before + 2),
            previous: Link::new(before),
            label,
        };
    }
}

impl<Ix: IndexType> Links<Ix> {
    /// An empty list. Does not allocate.
    pub fn new(alloc: Global) -> Self
        ensures nodes { result.nodes ≡ [] }
        ensures labels { result.labels ≡ [] }
    {
        Links {
            items: Vec::new(alloc),
            first: Link::end(),
            last: Link::end(),
            count: 0,
        }
    }

    /// How many nodes it contains.
    #[inline]
    pub fn len(&self) -> usize
        ensures value { result ≡ length self.now.nodes }
        ensures distinct { AreDistinct (Ix.greatest ∷ self.now.nodes) }
        ensures within { (n : ℕ) → Contains self.now.nodes n → n < length self.now.labels }
        ensures small { length self.now.nodes < 2 ^ 63 }
    {
        self.count
    }

    /// Nodes with an index below this can be added without growing.
    #[inline]
    pub fn index_bound(&self) -> usize
        ensures value { result ≡ length self.now.labels }
        ensures reserved { result ≤ self.now.capacity }
    {
        self.items.len()
    }

    /// The first node, or `end`.
    #[inline]
    pub fn first(&self) -> Link<Ix>
        ensures { result ≡ first_of Ix.greatest self.now.nodes }
    {
        self.first
    }

    /// The last node, or `end`.
    #[inline]
    pub fn last(&self) -> Link<Ix>
        ensures { (ns : List ℕ) (n : ℕ) → self.now.nodes ≡ ns ++ n ∷ [] → result ≡ n }
    {
        self.last
    }

    /// The node after a node, or `end`.
    #[inline]
    pub fn next(&self, n: Link<Ix>) -> Link<Ix>
        requires { Contains self.now.nodes n }
        ensures { (ns ms : List ℕ)
            → self.now.nodes ≡ ns ++ n ∷ ms → result ≡ first_of Ix.greatest ms }
    {
        self.items[n.index()].next
    }

    /// The node before a node, or `end`.
    #[inline]
    pub fn previous(&self, n: Link<Ix>) -> Link<Ix>
        requires { Contains self.now.nodes n }
        ensures none { (ms : List ℕ) → self.now.nodes ≡ n ∷ ms → result ≡ Ix.greatest }
        ensures some { (ns ms : List ℕ) (m : ℕ)
            → self.now.nodes ≡ ns ++ m ∷ (n ∷ ms) → result ≡ m }
    {
        self.items[n.index()].previous
    }

    /// The label at an index.
    #[inline]
    pub fn label(&self, i: usize) -> u64
        requires { i < length self.now.labels }
        ensures { result ≡ slice_index self.now.labels i }
    {
        self.items[i].label
    }

    /// Sets the label at an index.
    #[inline]
    pub fn set_label(&mut self, i: usize, label: u64)
        requires { i < length self.old.labels }
        ensures { self.new ≡ record {
          nodes = self.old.nodes;
          labels = slice_set self.old.labels i label;
          capacity = self.old.capacity;
        } }
    {
        self.items[i].label = label;
    }

    /// Makes room for a node. If an allocation fails, the list is unchanged.
    #[inline]
    pub fn make_room(&mut self, n: usize) -> Result<(), AllocError>
        requires { n + 1 < 2 ^ 64 }
        ensures ok { OnOk result (n < length self.new.labels) }
        ensures nodes { self.new.nodes ≡ self.old.nodes }
        ensures labels { (k : ℕ)
            → slice_index self.new.labels k ≡ slice_index self.old.labels k }
    {
        grow(&mut self.items, n)
    }

    /// How many indices fit without another allocation.
    #[inline]
    pub fn capacity(&self) -> usize
        ensures { result ≡ self.now.capacity }
    {
        self.items.capacity()
    }

    /// Reserves capacity for all nodes with an index below `bound`. Initialises nothing.
    pub fn reserve(&mut self, bound: usize) -> Result<(), AllocError>
        ensures ok { OnOk result (bound ≤ self.new.capacity) }
        ensures larger { self.old.capacity ≤ self.new.capacity }
        ensures nodes { self.new.nodes ≡ self.old.nodes }
        ensures labels { self.new.labels ≡ self.old.labels }
    {
        reserve(&mut self.items, bound)
    }

    /// Initialises memory for all nodes with an index below `bound`, without allocating.
    pub fn use_memory(&mut self, bound: usize)
        requires { bound ≤ self.old.capacity }
        ensures long { bound ≤ length self.new.labels }
        ensures nodes { self.new.nodes ≡ self.old.nodes }
        ensures labels { (k : ℕ)
            → slice_index self.new.labels k ≡ slice_index self.old.labels k }
    {
        if self.items.len() < bound {
            let len = stretched(bound, self.items.capacity());
            // Within the capacity this cannot fail.
            let _done = lengthen(&mut self.items, len);
        }
    }

    /// Puts a node first.
    #[inline]
    pub fn put_first(&mut self, n: Link<Ix>)
        requires real { n ≢ Ix.greatest }
        requires absent { ¬ Contains self.old.nodes n }
        requires numbered { n < length self.old.labels }
        ensures { self.new ≡ record {
          nodes = n ∷ self.old.nodes;
          labels = self.old.labels;
          capacity = self.old.capacity;
        } }
    {
        let q = self.first;
        join(
            &mut self.items,
            &mut self.first,
            &mut self.last,
            Link::end(),
            n,
        );
        join(&mut self.items, &mut self.first, &mut self.last, n, q);
        self.count += 1;
    }

    /// Puts a node after another.
    #[inline]
    pub fn put_after(&mut self, p: Link<Ix>, n: Link<Ix>)
        requires held { Contains self.old.nodes p }
        requires real { n ≢ Ix.greatest }
        requires absent { ¬ Contains self.old.nodes n }
        requires numbered { n < length self.old.labels }
        ensures nodes { (ns ms : List ℕ)
            → self.old.nodes ≡ ns ++ p ∷ ms → self.new.nodes ≡ ns ++ p ∷ (n ∷ ms) }
        ensures labels { self.new.labels ≡ self.old.labels }
        ensures capacity { self.new.capacity ≡ self.old.capacity }
    {
        let q = self.items[p.index()].next;
        join(&mut self.items, &mut self.first, &mut self.last, p, n);
        join(&mut self.items, &mut self.first, &mut self.last, n, q);
        self.count += 1;
    }

    /// Puts a node last.
    #[inline]
    pub fn put_last(&mut self, n: Link<Ix>)
        requires real { n ≢ Ix.greatest }
        requires absent { ¬ Contains self.old.nodes n }
        requires numbered { n < length self.old.labels }
        ensures { self.new ≡ record {
          nodes = self.old.nodes ++ n ∷ [];
          labels = self.old.labels;
          capacity = self.old.capacity;
        } }
    {
        if self.count == 0 {
            self.put_first(n);
        } else {
            let last = self.last;
            self.put_after(last, n);
        }
    }

    /// Appends the `count` nodes whose indices follow the index of the last node, `n`, with labels
    /// that ascend from `low` in steps of `gap`.
    pub fn extend_run(&mut self, n: usize, count: usize, low: u64, gap: u64)
        requires ends { EndsAtGreatest self.old.nodes n }
        requires real { n + count < Ix.greatest }
        requires numbered { n + count < length self.old.labels }
        requires some { 0 < gap }
        requires fits { low + gap * count < 2 ^ 64 }
        ensures nodes { self.new.nodes ≡ self.old.nodes ++ range_with_len (n + 1) count }
        ensures ascending { LabelsAscend self.new.labels low (range_with_len (n + 1) count)
            (low + gap * count + 1) }
        ensures others { (k : ℕ) → (k ≤ n) ⊎ (n + count < k)
            → slice_index self.new.labels k ≡ slice_index self.old.labels k }
    {
        let last = Link::new(n + count);
        write_run(&mut self.items, n, count, low, gap);
        set_next(
            &mut self.items,
            &mut self.first,
            Link::new(n),
            Link::new(n + 1),
        );
        set_next(&mut self.items, &mut self.first, last, Link::end());
        self.last = last;
        self.count += count;
    }

    /// Removes a node. Its label is kept.
    #[inline]
    pub fn remove(&mut self, n: Link<Ix>)
        requires { Contains self.old.nodes n }
        ensures { self.new ≡ record {
          nodes = without n self.old.nodes;
          labels = self.old.labels;
          capacity = self.old.capacity;
        } }
    {
        let Item { next, previous, .. } = self.items[n.index()];
        join(
            &mut self.items,
            &mut self.first,
            &mut self.last,
            previous,
            next,
        );
        self.count -= 1;
    }

    /// Replaces the node `n` with `m`, at the same position. No label changes.
    #[inline]
    pub fn rename(&mut self, n: Link<Ix>, m: Link<Ix>)
        requires held { Contains self.old.nodes n }
        requires real { m ≢ Ix.greatest }
        requires absent { ¬ Contains self.old.nodes m }
        requires numbered { m < length self.old.labels }
        ensures { self.new ≡ record {
          nodes = map (renamed n m) self.old.nodes;
          labels = self.old.labels;
          capacity = self.old.capacity;
        } }
    {
        let Item { next, previous, .. } = self.items[n.index()];
        join(
            &mut self.items,
            &mut self.first,
            &mut self.last,
            previous,
            m,
        );
        join(&mut self.items, &mut self.first, &mut self.last, m, next);
    }

    /// Removes all nodes, and keeps the capacity.
    #[inline]
    pub fn clear(&mut self)
        ensures nodes { self.new.nodes ≡ [] }
        ensures labels { self.new.labels ≡ [] }
        ensures capacity { self.new.capacity ≡ self.old.capacity }
    {
        self.items.clear();
        self.first = Link::end();
        self.last = Link::end();
        self.count = 0;
    }

    /// A copy of the list.
    pub fn try_clone(&self) -> Result<Self, AllocError>
        ensures nodes { IfOk result (λ l. l.nodes ≡ self.now.nodes) }
        ensures labels { IfOk result (λ l. l.labels ≡ self.now.labels) }
    {
        Ok(Links {
            items: Vec::from_slice(*self.items.allocator(), self.items.as_slice())?,
            first: self.first,
            last: self.last,
            count: self.count,
        })
    }
}
