//! An order-maintenance list (after Dietz and Sleator): nodes linked both ways, with labels that
//! ascend along the list.
ghost use Rattle.std.specs.Prelude.{◌≡◌, ◌≢◌, ℕ, ◌+◌, ◌<◌, ◌≤◌, ◌↔◌, [], ◌∷◌, ◌++◌, List, length};
ghost use Rattle.std.specs.Prelude.{slice_index, map, IsTrue, Contains, OnOk, OnErr, IfOk};
ghost use Rattle.std.specs.List.{range_with_len};
ghost use Rattle.daggy_base.specs.Cursor.{first_of};
ghost use Rattle.daggy_base.specs.Removal.{without, renamed};
ghost use Rattle.daggy_base.specs.WellFormed.{AreDistinct};
ghost use Rattle.daggy_base.specs.Ordered.{place};
ghost use Rattle.daggy_order.specs.Links.{IsLabelled, IsTailed};

use crate::list::labels::gap_between;
use crate::list::links::Links;
use daggy_base::index::{IndexType, NodeIndex};
use daggy_base::link::Link;
use std::alloc::{AllocError, Global};
use std::marker::Model;

mod labels;
pub(crate) mod links;
mod moving;
mod sorting;

/// An ordered list of distinct nodes. Nodes can be added at both ends, removed and moved.
///
/// Each node is linked to its neighbors and has a label. Labels ascend along the list, so comparing
/// the labels of two nodes shows which comes first.
#[derive(Drop)]
pub struct LabeledList<Ix: IndexType> {
    pub(crate) links: Links<Ix>,
}

impl<Ix: IndexType> Model for LabeledList<Ix> {
    ghost use Rattle.daggy_order.specs.Links.{IsLabelled, Stored};

    ghost Value = { Stored };

    ghost view = { λ o. record { nodes = o.links.nodes; capacity = o.links.capacity } };

    ghost invariant = { λ o. IsLabelled o.links.labels o.links.nodes };
}

/// The run of nodes after the linked nodes: `count` consecutive indices, starting at `from`. Nodes
/// below `index_bound` can be linked without allocating.
#[derive(Clone, Copy)]
pub struct Tail {
    pub from: usize,
    pub count: usize,
    pub index_bound: usize,
}

// Puts a node last. There must be room for it.
#[inline]
fn put_last<Ix: IndexType>(links: &mut Links<Ix>, n: Link<Ix>)
    requires labelled { IsLabelled links.old.labels links.old.nodes }
    requires real { n < Ix.greatest }
    requires absent { ¬ Contains links.old.nodes n }
    requires numbered { n < length links.old.labels }
    ensures nodes { links.new.nodes ≡ links.old.nodes ++ n ∷ [] }
    ensures labelled { IsLabelled links.new.labels links.new.nodes }
    ensures sized { length links.new.labels ≡ length links.old.labels }
{
    let last = links.last();
    links.put_last(n);
    links.label_last(last, n);
}

// Puts a node first. There must be room for it.
#[inline]
fn put_first<Ix: IndexType>(links: &mut Links<Ix>, n: Link<Ix>)
    requires labelled { IsLabelled links.old.labels links.old.nodes }
    requires real { n ≢ Ix.greatest }
    requires absent { ¬ Contains links.old.nodes n }
    requires numbered { n < length links.old.labels }
    ensures nodes { links.new.nodes ≡ n ∷ links.old.nodes }
    ensures labelled { IsLabelled links.new.labels links.new.nodes }
{
    let first = links.first();
    links.put_first(n);
    links.label_first(first, n);
}

// Puts a node before another. There must be room for it.
fn put_before<Ix: IndexType>(links: &mut Links<Ix>, b: Link<Ix>, n: Link<Ix>)
    requires labelled { IsLabelled links.old.labels links.old.nodes }
    requires held { Contains links.old.nodes b }
    requires real { n ≢ Ix.greatest }
    requires absent { ¬ Contains links.old.nodes n }
    requires numbered { n < length links.old.labels }
    ensures nodes { (ns ms : List ℕ)
        → links.old.nodes ≡ ns ++ b ∷ ms → links.new.nodes ≡ ns ++ n ∷ (b ∷ ms) }
    ensures labelled { IsLabelled links.new.labels links.new.nodes }
{
    let _count = links.len();
    let p = links.previous(b);
    if p.index() == Link::<Ix>::end().index() {
        put_first(links, n);
    } else {
        links.put_after(p, n);
        links.relabel_run(p, n, 1, b);
    }
}

// Takes a node out.
#[inline]
fn take_out<Ix: IndexType>(links: &mut Links<Ix>, n: NodeIndex<Ix>)
    requires labelled { IsLabelled links.old.labels links.old.nodes }
    requires held { Contains links.old.nodes (Ix.number n) }
    ensures nodes { links.new.nodes ≡ without (Ix.number n) links.old.nodes }
    ensures labelled { IsLabelled links.new.labels links.new.nodes }
    ensures absent { ¬ Contains links.new.nodes (Ix.number n) }
    ensures real { Ix.number n ≢ Ix.greatest }
    ensures numbered { Ix.number n < length links.new.labels }
{
    let _count = links.len();
    links.set_label(n.index(), 0);
    links.remove(Link::of_node(n));
}

// Puts a run of nodes last, one by one. There must be room for them.
#[cold]
#[inline(never)]
fn put_each<Ix: IndexType>(links: &mut Links<Ix>, from: usize, count: usize)
    requires labelled { IsLabelled links.old.labels links.old.nodes }
    requires below { (n : ℕ) → Contains links.old.nodes n → n < from }
    requires real { from + count ≤ Ix.greatest }
    requires numbered { from + count ≤ length links.old.labels }
    ensures nodes { links.new.nodes ≡ links.old.nodes ++ range_with_len from count }
    ensures labelled { IsLabelled links.new.labels links.new.nodes }
{
    'nodes: for i in 0..count {
        put_last(links, Link::new(from + i));
    }
}

// Puts a run of nodes last. There must be room for them.
fn put_run<Ix: IndexType>(links: &mut Links<Ix>, from: usize, count: usize)
    requires some { 0 < count }
    requires labelled { IsLabelled links.old.labels links.old.nodes }
    requires below { (n : ℕ) → Contains links.old.nodes n → n < from }
    requires real { from + count ≤ Ix.greatest }
    requires numbered { from + count ≤ length links.old.labels }
    ensures nodes { links.new.nodes ≡ links.old.nodes ++ range_with_len from count }
    ensures labelled { IsLabelled links.new.labels links.new.nodes }
{
    put_last(links, Link::new(from));
    let more = count - 1;
    let low = links.label(from);
    let gap = gap_between(low, u64::MAX, more);
    if gap > 0 {
        links.extend_run(from, more, low, gap);
    } else {
        put_each(links, from + 1, more);
    }
}

impl<Ix: IndexType> LabeledList<Ix> {
    /// An empty list. Does not allocate.
    pub fn new(alloc: Global) -> Self
        ensures { result.nodes ≡ [] }
    {
        LabeledList {
            links: Links::new(alloc),
        }
    }

    /// How many nodes it contains.
    #[inline]
    pub fn len(&self) -> usize
        ensures value { result ≡ length self.now.nodes }
        ensures distinct { AreDistinct self.now.nodes }
    {
        self.links.len()
    }

    /// The first node, or `end`.
    #[inline]
    pub fn first(&self) -> Link<Ix>
        ensures { result ≡ first_of Ix.greatest self.now.nodes }
    {
        self.links.first()
    }

    /// The node after a node, or `end`.
    #[inline]
    pub fn next(&self, n: Link<Ix>) -> Link<Ix>
        requires { Contains self.now.nodes n }
        ensures { (ns ms : List ℕ)
            → self.now.nodes ≡ ns ++ n ∷ ms → result ≡ first_of Ix.greatest ms }
    {
        self.links.next(n)
    }

    /// The last node, or `end`.
    #[inline]
    pub fn last(&self) -> Link<Ix>
        ensures { (ns : List ℕ) (n : ℕ) → self.now.nodes ≡ ns ++ n ∷ [] → result ≡ n }
    {
        self.links.last()
    }

    /// The node before a node, or `end`.
    #[inline]
    pub fn previous(&self, n: Link<Ix>) -> Link<Ix>
        requires { Contains self.now.nodes n }
        ensures { (ns ms : List ℕ) (m : ℕ)
            → self.now.nodes ≡ ns ++ m ∷ (n ∷ ms) → result ≡ m }
    {
        self.links.previous(n)
    }

    /// Whether it contains the node.
    #[inline]
    pub fn holds(&self, n: NodeIndex<Ix>) -> bool
        ensures { IsTrue result ↔ Contains self.now.nodes (Ix.number n) }
    {
        let i = n.index();
        i < self.links.index_bound() && self.links.label(i) > 0
    }

    /// Whether one node precedes another.
    #[inline]
    pub fn stands_before(&self, a: NodeIndex<Ix>, b: NodeIndex<Ix>) -> bool
        requires first { Contains self.now.nodes (Ix.number a) }
        requires second { Contains self.now.nodes (Ix.number b) }
        ensures { IsTrue result
            ↔ (place self.now.nodes (Ix.number a) < place self.now.nodes (Ix.number b)) }
    {
        self.links.label(a.index()) < self.links.label(b.index())
    }

    /// How many indices fit without another allocation.
    #[inline]
    pub fn capacity(&self) -> usize
        ensures { result ≡ self.now.capacity }
    {
        self.links.capacity()
    }

    /// Reserves capacity for all nodes with an index below `bound`, and returns the capacity.
    /// Initialises nothing.
    pub fn reserve(&mut self, bound: usize) -> Result<usize, AllocError>
        ensures ok { IfOk result (λ capacity. bound ≤ capacity) }
        ensures capacity { IfOk result (λ capacity. capacity ≡ self.new.capacity) }
        ensures larger { self.old.capacity ≤ self.new.capacity }
        ensures same { self.new.nodes ≡ self.old.nodes }
    {
        self.links.reserve(bound)?;
        Ok(self.links.capacity())
    }

    /// Links the nodes of a tail, without allocating. Returns a tail that is now empty.
    #[inline]
    pub fn flush(&mut self, tail: Tail) -> Tail
        requires { IsTailed Ix.greatest self.old.nodes self.old.capacity tail.from tail.count
            tail.index_bound }
        ensures nodes { self.new.nodes ≡ self.old.nodes ++ range_with_len tail.from tail.count }
        ensures from { result.from ≡ tail.from + tail.count }
        ensures count { result.count ≡ 0 }
        ensures index_bound { result.index_bound ≡ 0 }
    {
        if tail.count > 0 {
            self.link_tail(tail);
        }
        Tail {
            from: tail.from + tail.count,
            count: 0,
            index_bound: 0,
        }
    }

    /// Links the only node of a tail at the front of the list, without allocating. Returns a tail
    /// that is now empty and can grow within the capacity.
    pub fn link_first(&mut self, tail: Tail) -> Tail
        requires tailed { IsTailed Ix.greatest self.old.nodes self.old.capacity tail.from tail.count
            tail.index_bound }
        requires one { tail.count ≡ 1 }
        ensures nodes { self.new.nodes ≡ tail.from ∷ self.old.nodes }
        ensures from { result.from ≡ tail.from + 1 }
        ensures count { result.count ≡ 0 }
        ensures index_bound { result.index_bound ≡ self.new.capacity }
    {
        let from = tail.from + 1;
        self.links.use_memory(from);
        put_first(&mut self.links, Link::new(tail.from));
        Tail {
            from,
            count: 0,
            index_bound: self.links.capacity(),
        }
    }

    #[inline(never)]
    fn link_tail(&mut self, tail: Tail)
        requires some { 0 < tail.count }
        requires tailed { IsTailed Ix.greatest self.old.nodes self.old.capacity tail.from tail.count
            tail.index_bound }
        ensures { self.new.nodes ≡ self.old.nodes ++ range_with_len tail.from tail.count }
    {
        self.links.use_memory(tail.from + tail.count);
        put_run(&mut self.links, tail.from, tail.count);
    }

    /// Puts a node last.
    ///
    /// # Complexity
    ///
    /// Amortized O(1). If labels reach the end of their range, which takes many millions of nodes,
    /// all nodes are relabelled.
    #[inline]
    pub fn push(&mut self, n: NodeIndex<Ix>) -> Result<(), AllocError>
        requires real { Ix.number n < Ix.greatest }
        requires absent { ¬ Contains self.old.nodes (Ix.number n) }
        ensures ok { OnOk result (self.new.nodes ≡ self.old.nodes ++ Ix.number n ∷ []) }
        ensures err { OnErr result (self.new.nodes ≡ self.old.nodes) }
    {
        self.links.make_room(n.index())?;
        put_last(&mut self.links, Link::of_node(n));
        Ok(())
    }

    /// Removes a node, in O(1). Out of line, to keep `Order::remove` small where it is inlined.
    #[inline(never)]
    pub fn remove(&mut self, n: NodeIndex<Ix>)
        requires { Contains self.old.nodes (Ix.number n) }
        ensures { self.new.nodes ≡ without (Ix.number n) self.old.nodes }
    {
        take_out(&mut self.links, n);
    }

    /// Replaces the node `n` with `m`, at the same position, as when a graph moves its last node
    /// into a freed index. O(1).
    #[inline]
    pub fn rename(&mut self, n: NodeIndex<Ix>, m: NodeIndex<Ix>)
        requires held { Contains self.old.nodes (Ix.number n) }
        requires free { ¬ Contains self.old.nodes (Ix.number m) }
        requires lower { Ix.number m < Ix.number n }
        ensures { self.new.nodes ≡ map (renamed (Ix.number n) (Ix.number m)) self.old.nodes }
    {
        let i = n.index();
        let _count = self.links.len();
        let label = self.links.label(i);
        self.links.rename(Link::of_node(n), Link::of_node(m));
        self.links.set_label(i, 0);
        self.links.set_label(m.index(), label);
    }

    /// Puts a node first. Costs the same as `push`.
    #[inline]
    pub fn push_first(&mut self, n: NodeIndex<Ix>) -> Result<(), AllocError>
        requires real { Ix.number n < Ix.greatest }
        requires absent { ¬ Contains self.old.nodes (Ix.number n) }
        ensures ok { OnOk result (self.new.nodes ≡ Ix.number n ∷ self.old.nodes) }
        ensures err { OnErr result (self.new.nodes ≡ self.old.nodes) }
    {
        self.links.make_room(n.index())?;
        put_first(&mut self.links, Link::of_node(n));
        Ok(())
    }

    /// Moves a node to the front. O(1), unless labels reach the start of their range.
    pub fn move_first(&mut self, n: NodeIndex<Ix>)
        requires { Contains self.old.nodes (Ix.number n) }
        ensures { self.new.nodes ≡ Ix.number n ∷ without (Ix.number n) self.old.nodes }
    {
        take_out(&mut self.links, n);
        put_first(&mut self.links, Link::of_node(n));
    }

    /// Moves a node before another. O(1), unless labels leave no room.
    pub fn move_before(&mut self, n: NodeIndex<Ix>, b: NodeIndex<Ix>)
        requires held { Contains self.old.nodes (Ix.number n) }
        requires there { Contains self.old.nodes (Ix.number b) }
        requires differ { Ix.number n ≢ Ix.number b }
        ensures { (ns ms : List ℕ) → without (Ix.number n) self.old.nodes ≡ ns ++ Ix.number b ∷ ms
            → self.new.nodes ≡ ns ++ Ix.number n ∷ (Ix.number b ∷ ms) }
    {
        take_out(&mut self.links, n);
        put_before(&mut self.links, Link::of_node(b), Link::of_node(n));
    }

    /// The position of a node. O(position).
    pub fn place(&self, n: NodeIndex<Ix>) -> usize
        requires { Contains self.now.nodes (Ix.number n) }
        ensures { result ≡ place self.now.nodes (Ix.number n) }
    {
        let i = n.index();
        let mut at = self.links.first();
        'nodes: for place in 0..self.links.len() {
            if at.index() == i {
                return place;
            }
            at = self.links.next(at);
        }
        self.links.len()
    }

    /// The node at a position. O(position).
    pub fn at(&self, place: usize) -> NodeIndex<Ix>
        requires { place < length self.now.nodes }
        ensures { Ix.number result ≡ slice_index self.now.nodes place }
    {
        let mut at = self.links.first();
        'nodes: for _i in 0..place {
            at = self.links.next(at);
        }
        at.node()
    }

    /// A copy of the list.
    pub fn try_clone(&self) -> Result<Self, AllocError>
        ensures { IfOk result (λ o. o.nodes ≡ self.now.nodes) }
    {
        Ok(LabeledList {
            links: self.links.try_clone()?,
        })
    }

    /// Removes all nodes, and keeps the capacity. O(1).
    #[inline]
    pub fn clear(&mut self)
        ensures { self.new.nodes ≡ [] }
    {
        self.links.clear();
    }
}
