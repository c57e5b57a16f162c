//! A search of the nodes before a given position of an order.
ghost use Rattle.std.specs.Prelude.{◌≡◌, ℕ, ◌+◌, ◌<◌, ◌≤◌, ◌↔◌, List, None, ◌∷◌, take, drop, false};
ghost use Rattle.std.specs.Prelude.{length, slice_index, Contains};
ghost use Rattle.std.specs.Prelude.{IfSome};
ghost use Rattle.std.specs.List.Sorted.{IsPermutation};
ghost use Rattle.daggy_base.specs.Graph.{HasNode, node_bound};
ghost use Rattle.daggy_base.specs.Path.{AreJoined, Reaches};
ghost use Rattle.daggy_base.specs.WellFormed.{IsWellFormed, AreDistinct};
ghost use Rattle.daggy_base.specs.Ordered.{IsOrderOf, place, stretch, edges_from};
ghost use Rattle.daggy_order.specs.Links.{IsLabelled};

use crate::list::LabeledList;
use crate::list::links::Links;
use daggy_base::index::{EdgeIndex, IndexType, NodeIndex};
use daggy_base::link::Link;
use daggy_base::source::EdgeSource;
use daggy_search::Worklist;

// From this many found nodes on, a search reads them in the order in which it found them. Large
// searches wait for memory, and these waits overlap if the next nodes are known early.
const LARGE: usize = 1024;

// Once in this many steps, the first waiting node is read.
const TURNS: usize = 16;

// Whether the last node that waits is read next, and not the first.
#[inline]
fn is_last_next(count: usize, turn: usize) -> bool
    ensures large { LARGE ≤ count → result ≡ false }
{
    count < LARGE && turn % TURNS != 0
}

// Adds `node` to the `count` nodes found, of which those from `head` up to `tail` wait. It becomes
// the last waiting node. If the search is not large and the one before it has a greater label, the
// two change places.
#[inline]
fn put_waiting<Ix: IndexType>(
    work: &mut Worklist<Ix>,
    links: &Links<Ix>,
    node: Link<Ix>,
    head: usize,
    tail: usize,
    count: usize,
)
    requires head { head ≤ tail }
    requires tail { tail ≤ count }
    requires room { count < length work.old.nodes }
    requires placed { (n : ℕ) → Contains (node ∷ take count work.old.nodes) n
        → n < length links.now.labels }
    ensures kept { work.new ≡ record work.old { nodes = work.new.nodes } }
    ensures length { length work.new.nodes ≡ length work.old.nodes }
    ensures found { IsPermutation (node ∷ take count work.old.nodes)
        (take (count + 1) work.new.nodes) }
    ensures waiting { IsPermutation (node ∷ drop head (take tail work.old.nodes))
        (drop head (take (tail + 1) work.new.nodes)) }
{
    // Those from `tail` on were read, so their order does not matter.
    let read = work.node(tail);
    work.put_node(count, read);
    work.put_node(tail, node);
    if count < LARGE && head < tail {
        let last = work.node(tail - 1);
        if links.label(node.index()) < links.label(last.index()) {
            work.put_node(tail - 1, node);
            work.put_node(tail, last);
        }
    }
}

// What a search found: how many nodes, and how many edges it read.
#[derive(Clone, Copy)]
pub(crate) struct Found {
    pub nodes: usize,
    pub looks: usize,
}

// Collects at the front of a worklist the nodes reachable from `from` whose label is below `limit`
// (the label of `to`). Returns `None` if `to` is reachable. Each parent's label must be lower than
// its children's.
//
// Of the waiting nodes it mostly reads the last, which has a great label, so that it comes near
// `to` soon. In one step of 16 it reads the first, so that a long path does not hide a short one.
pub(crate) fn reaches_below<Ix: IndexType, S: EdgeSource<Ix>>(
    source: &mut S,
    from: NodeIndex<Ix>,
    to: NodeIndex<Ix>,
    links: &Links<Ix>,
    limit: u64,
    work: &mut Worklist<Ix>,
) -> Option<Found>
    requires well_formed { IsWellFormed Ix.greatest (S.graph source.old) }
    requires exists { HasNode (S.graph source.old) (Ix.number from) }
    requires placed { (n : ℕ) → HasNode (S.graph source.old) n → n < length links.now.labels }
    requires ascending { (u v : ℕ) → AreJoined (S.graph source.old) u v
        → slice_index links.now.labels u < slice_index links.now.labels v }
    requires limit_is { slice_index links.now.labels (Ix.number to) ≡ limit }
    requires before { slice_index links.now.labels (Ix.number from) < limit }
    requires fits { node_bound (S.graph source.old) ≤ work.old.size }
    ensures decided { (result ≡ None)
        ↔ Reaches (S.graph source.old) (Ix.number from) (Ix.number to) }
    ensures found { IfSome result (λ f. (f.nodes ≤ length work.new.nodes)
        × (AreDistinct (take f.nodes work.new.nodes)
        × ((n : ℕ) → Contains (take f.nodes work.new.nodes) n
        ↔ (Reaches (S.graph source.old) (Ix.number from) n
        × (slice_index links.now.labels n < limit))))) }
    ensures same { S.graph source.new ≡ S.graph source.old }
    ensures looked { S.looks source.old ≤ S.looks source.new }
    ensures noted { IfSome result (λ f. S.looks source.new ≡ S.looks source.old + f.looks) }
    ensures counted { (ns : List ℕ)
        → ((n : ℕ) → HasNode (S.graph source.old) n
        → slice_index links.now.labels (Ix.number from) ≤ slice_index links.now.labels n
        → slice_index links.now.labels n < limit → Contains ns n)
        → S.looks source.new ≤ S.looks source.old + edges_from (S.graph source.old) ns }
    ensures kept { work.new.size ≡ work.old.size }
{
    let target = to.index();
    let end = EdgeIndex::<Ix>::end().index();
    work.begin();
    work.enter(from.index());
    work.put_node(0, Link::of_node(from));
    let mut count = 1;
    let mut looks = 0;
    let mut head = 1;
    let mut tail = 1;
    let mut turn: usize = 0;
    let mut e = source.first(from);
    'steps: loop {
        if e.index() == end {
            if head == tail {
                return Some(Found {
                    nodes: count,
                    looks,
                });
            }
            turn = turn.wrapping_add(1);
            if is_last_next(count, turn) {
                tail -= 1;
                e = source.first(work.node(tail).node());
            } else {
                e = source.first(work.node(head).node());
                head += 1;
            }
        } else {
            let (v, next) = source.look(e);
            looks += 1;
            let i = v.index();
            if links.label(i) < limit {
                if !work.is_entered(i) {
                    work.enter(i);
                    put_waiting(work, links, Link::of_node(v), head, tail, count);
                    tail += 1;
                    count += 1;
                }
            } else if i == target {
                return None;
            }
            e = next;
        }
    }
}

// The same as `reaches_below`, with a list of all nodes in topological order in which `from`
// precedes `to`: collects the nodes reachable from `from` that precede `to`.
pub(crate) fn reaches_before<Ix: IndexType, S: EdgeSource<Ix>>(
    source: &mut S,
    from: NodeIndex<Ix>,
    to: NodeIndex<Ix>,
    list: &LabeledList<Ix>,
    work: &mut Worklist<Ix>,
) -> Option<Found>
    requires from { HasNode (S.graph source.old) (Ix.number from) }
    requires to { HasNode (S.graph source.old) (Ix.number to) }
    requires ordered { IsOrderOf (S.graph source.old) list.now.nodes }
    requires before { place list.now.nodes (Ix.number from) < place list.now.nodes (Ix.number to) }
    requires fits { node_bound (S.graph source.old) ≤ work.old.size }
    ensures decided { (result ≡ None)
        ↔ Reaches (S.graph source.old) (Ix.number from) (Ix.number to) }
    ensures found { IfSome result (λ f. (f.nodes ≤ length work.new.nodes)
        × (AreDistinct (take f.nodes work.new.nodes)
        × ((n : ℕ) → Contains (take f.nodes work.new.nodes) n
        ↔ (Reaches (S.graph source.old) (Ix.number from) n
        × (place list.now.nodes n < place list.now.nodes (Ix.number to)))))) }
    ensures well_formed { IsWellFormed Ix.greatest (S.graph source.old) }
    ensures labelled { (labels : List ℕ) × IsLabelled labels list.now.nodes }
    ensures same { S.graph source.new ≡ S.graph source.old }
    ensures looked { S.looks source.old ≤ S.looks source.new }
    ensures noted { IfSome result (λ f. S.looks source.new ≡ S.looks source.old + f.looks) }
    ensures counted { S.looks source.new ≤ S.looks source.old
        + edges_from (S.graph source.old)
        (stretch list.now.nodes (place list.now.nodes (Ix.number from))
        (place list.now.nodes (Ix.number to))) }
    ensures kept { work.new.size ≡ work.old.size }
{
    // Called only for its postcondition: existing nodes are in the list.
    let _exists = source.contains_node(to);
    let limit = list.links.label(to.index());
    reaches_below(source, from, to, &list.links, limit, work)
}
